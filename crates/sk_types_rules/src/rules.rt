//! What two operands are together, what an operator makes of them, what a literal may be.

ghost use Rattle.std.specs.Prelude.{◌≡◌, ◌≤◌};
ghost use Rattle.sk_types_rules.specs.Rules.{elem_eq, ty_eq, is_integer, is_bit, is_bit_array, is_bits, pads, fit_of, fits, operator_of, unary_of, class_of, join, firm_if, as_number, as_summand, taken_as, both_loose, operand, result_of, result_own, loose_takes, shifted, flipped, choice, operation_own, unary_own, number_own, number_takes, element_of, number_fits, hole_takes, in_range};

use sk_base::Bounds;
use sk_prog::{BinOp, Elem, Ty, UnOp};
use sk_tree::Mark;

/// The type that an expression has by itself.
#[derive(Debug, Drop, Clone, Copy)]
pub enum Own {
    /// It has none: it is no expression of this language.
    Wrong,
    /// Its place decides.
    Loose,
    Firm(Ty),
}

/// How an expression fits where a type is wanted.
#[derive(Debug, Drop, Clone, Copy)]
pub enum Fit {
    Misfit,
    /// It is of the type.
    Same,
    /// A bit becomes an integer.
    Widens,
    /// Zeros come behind its elements.
    Pads,
}

/// What kind of operator it is.
#[derive(Debug, Drop, Clone, Copy)]
pub enum Class {
    /// `+`
    Plus,
    /// `-`, `*`, `/` and `%`
    Arithmetic,
    /// `<`, `<=`, `>` and `>=`
    Order,
    /// `==` and `!=`
    Equality,
    /// `&`, `|` and `^`
    Bitwise,
    /// `<<` and `>>`
    Shift,
    /// `&&` and `||`
    Logic,
}

fn elem_eq(a: Elem, b: Elem) -> bool
    ensures { result ≡ elem_eq a b }
{
    match (a, b) {
        (Elem::Bit, Elem::Bit) => true,
        (Elem::Int, Elem::Int) => true,
        (Elem::Reference(s), Elem::Reference(t)) => s.index == t.index,
        _ => false,
    }
}

/// Whether two types are the same.
pub fn ty_eq(a: Ty, b: Ty) -> bool
    ensures { result ≡ ty_eq a b }
{
    match (a, b) {
        (Ty::One(a), Ty::One(b)) => elem_eq(a, b),
        (Ty::Array(a, n), Ty::Array(b, k)) => elem_eq(a, b) && n == k,
        (Ty::Grid(a, n, m), Ty::Grid(b, k, l)) => elem_eq(a, b) && n == k && m == l,
        _ => false,
    }
}

fn is_integer(ty: Ty) -> bool
    ensures { result ≡ is_integer ty }
{
    match ty {
        Ty::One(Elem::Int) => true,
        _ => false,
    }
}

fn is_bit(ty: Ty) -> bool
    ensures { result ≡ is_bit ty }
{
    match ty {
        Ty::One(Elem::Bit) => true,
        _ => false,
    }
}

fn is_bit_array(ty: Ty) -> bool
    ensures { result ≡ is_bit_array ty }
{
    match ty {
        Ty::Array(Elem::Bit, _) => true,
        _ => false,
    }
}

fn is_bits(ty: Ty) -> bool
    ensures { result ≡ is_bits ty }
{
    is_bit(ty) || is_bit_array(ty)
}

fn pads(from: Ty, to: Ty) -> bool
    ensures { result ≡ pads from to }
{
    match (from, to) {
        (Ty::One(b), Ty::Array(a, _)) => elem_eq(b, a),
        (Ty::Array(b, m), Ty::Array(a, n)) => elem_eq(b, a) && m < n,
        (Ty::Array(b, k), Ty::Grid(a, n, _)) => elem_eq(b, a) && k == n,
        (Ty::Grid(b, k, l), Ty::Grid(a, n, m)) => elem_eq(b, a) && k == n && l < m,
        _ => false,
    }
}

/// How an expression of the first type fits where the second is wanted.
pub fn fit_of(from: Ty, to: Ty) -> Fit
    ensures { result ≡ fit_of from to }
{
    if ty_eq(from, to) {
        return Fit::Same;
    }
    if is_bit(from) && is_integer(to) {
        return Fit::Widens;
    }
    if pads(from, to) {
        Fit::Pads
    } else {
        Fit::Misfit
    }
}

/// Whether an expression of the first type fits where the second is wanted.
pub fn fits(from: Ty, to: Ty) -> bool
    ensures { result ≡ fits from to }
{
    match fit_of(from, to) {
        Fit::Misfit => false,
        _ => true,
    }
}

/// The operator that a mark is between two operands.
pub fn operator_of(mark: Mark) -> Option<BinOp>
    ensures { result ≡ operator_of mark }
{
    match mark {
        Mark::Star => Some(BinOp::Mul),
        Mark::Slash => Some(BinOp::Div),
        Mark::Percent => Some(BinOp::Rem),
        Mark::Plus => Some(BinOp::Add),
        Mark::Minus => Some(BinOp::Sub),
        Mark::ShiftLeft => Some(BinOp::Shl),
        Mark::ShiftRight => Some(BinOp::Shr),
        Mark::Less => Some(BinOp::Lt),
        Mark::AtMost => Some(BinOp::Le),
        Mark::Greater => Some(BinOp::Gt),
        Mark::AtLeast => Some(BinOp::Ge),
        Mark::Equal => Some(BinOp::Eq),
        Mark::NotEqual => Some(BinOp::Ne),
        Mark::Ampersand => Some(BinOp::And),
        Mark::Caret => Some(BinOp::Xor),
        Mark::Bar => Some(BinOp::Or),
        Mark::AndThen => Some(BinOp::AndThen),
        Mark::OrElse => Some(BinOp::OrElse),
        _ => None,
    }
}

/// The operator that a mark is before an operand.
pub fn unary_of(mark: Mark) -> Option<UnOp>
    ensures { result ≡ unary_of mark }
{
    match mark {
        Mark::Bang => Some(UnOp::Not),
        Mark::Tilde => Some(UnOp::Flip),
        Mark::Minus => Some(UnOp::Neg),
        _ => None,
    }
}

/// What kind of operator it is.
pub fn class_of(op: BinOp) -> Class
    ensures { result ≡ class_of op }
{
    match op {
        BinOp::Add => Class::Plus,
        BinOp::Mul | BinOp::Div | BinOp::Rem | BinOp::Sub => Class::Arithmetic,
        BinOp::Lt | BinOp::Le | BinOp::Gt | BinOp::Ge => Class::Order,
        BinOp::Eq | BinOp::Ne => Class::Equality,
        BinOp::And | BinOp::Xor | BinOp::Or => Class::Bitwise,
        BinOp::Shl | BinOp::Shr => Class::Shift,
        BinOp::AndThen | BinOp::OrElse => Class::Logic,
    }
}

fn join(a: Ty, b: Ty) -> Own
    ensures { result ≡ join a b }
{
    if fits(a, b) {
        return Own::Firm(b);
    }
    if fits(b, a) { Own::Firm(a) } else { Own::Wrong }
}

fn firm_if(test: bool, ty: Ty) -> Own
    ensures { result ≡ firm_if test ty }
{
    if test { Own::Firm(ty) } else { Own::Wrong }
}

fn as_number(ty: Ty) -> Own
    ensures { result ≡ as_number ty }
{
    firm_if(is_bit(ty) || is_integer(ty), Ty::One(Elem::Int))
}

fn as_summand(ty: Ty) -> Own
    ensures { result ≡ as_summand ty }
{
    if is_bit_array(ty) {
        Own::Firm(ty)
    } else {
        as_number(ty)
    }
}

fn taken_as(class: Class, ty: Ty) -> Own
    ensures { result ≡ taken_as class ty }
{
    match class {
        Class::Plus => as_summand(ty),
        Class::Arithmetic | Class::Order => as_number(ty),
        Class::Equality => Own::Firm(ty),
        Class::Bitwise => firm_if(is_bits(ty), ty),
        Class::Shift | Class::Logic => Own::Wrong,
    }
}

fn both_loose(class: Class) -> Own
    ensures { result ≡ both_loose class }
{
    match class {
        Class::Plus | Class::Bitwise => Own::Loose,
        Class::Arithmetic | Class::Order | Class::Equality => Own::Firm(Ty::One(Elem::Int)),
        Class::Shift | Class::Logic => Own::Wrong,
    }
}

/// An operator's operand type, from the own types of its operands; loose where its place decides.
pub fn operand(class: Class, left: Own, right: Own) -> Own
    ensures { result ≡ operand class left right }
{
    match (left, right) {
        (Own::Loose, Own::Loose) => both_loose(class),
        (Own::Loose, Own::Firm(u)) => taken_as(class, u),
        (Own::Firm(u), Own::Loose) => taken_as(class, u),
        (Own::Firm(u), Own::Firm(v)) => match join(u, v) {
            Own::Firm(t) => taken_as(class, t),
            _ => Own::Wrong,
        },
        _ => Own::Wrong,
    }
}

/// The type of an operator's result, from its operand type.
pub fn result_of(class: Class, ty: Ty) -> Ty
    ensures { result ≡ result_of class ty }
{
    match class {
        Class::Order | Class::Equality | Class::Logic => Ty::One(Elem::Bit),
        _ => ty,
    }
}

/// The own type of an operator's result, from its operand type.
pub fn result_own(class: Class, operand: Own) -> Own
    ensures { result ≡ result_own class operand }
{
    match operand {
        Own::Firm(ty) => Own::Firm(result_of(class, ty)),
        _ => operand,
    }
}

/// Whether an operator of two loose operands can be of this type.
pub fn loose_takes(class: Class, ty: Ty) -> bool
    ensures { result ≡ loose_takes class ty }
{
    match class {
        Class::Plus => is_integer(ty) || is_bit_array(ty),
        Class::Bitwise => is_bits(ty),
        _ => false,
    }
}

fn shifted(left: Own) -> Own
    ensures { result ≡ shifted left }
{
    match left {
        Own::Firm(ty) => firm_if(is_bit_array(ty), ty),
        _ => Own::Wrong,
    }
}

/// The own type of `~` of an operand.
pub fn flipped(of: Own) -> Own
    ensures { result ≡ flipped of }
{
    match of {
        Own::Firm(ty) => firm_if(is_bits(ty), ty),
        _ => of,
    }
}

/// The own type of `c ? a : b`.
pub fn choice(left: Own, right: Own) -> Own
    ensures { result ≡ choice left right }
{
    match (left, right) {
        (Own::Loose, Own::Loose) => Own::Loose,
        (Own::Loose, Own::Firm(u)) => Own::Firm(u),
        (Own::Firm(u), Own::Loose) => Own::Firm(u),
        (Own::Firm(u), Own::Firm(v)) => join(u, v),
        _ => Own::Wrong,
    }
}

/// The own type of an operation.
pub fn operation_own(op: BinOp, left: Own, right: Own) -> Own
    ensures { result ≡ operation_own op left right }
{
    match op {
        BinOp::AndThen | BinOp::OrElse => Own::Firm(Ty::One(Elem::Bit)),
        BinOp::Shl | BinOp::Shr => shifted(left),
        _ => result_own(class_of(op), operand(class_of(op), left, right)),
    }
}

/// The own type of an operator before an operand.
pub fn unary_own(op: UnOp, of: Own) -> Own
    ensures { result ≡ unary_own op of }
{
    match op {
        UnOp::Not => Own::Firm(Ty::One(Elem::Bit)),
        UnOp::Neg => Own::Firm(Ty::One(Elem::Int)),
        UnOp::Flip => flipped(of),
    }
}

/// A number's own type: 0 and 1 are loose.
pub fn number_own(number: u32) -> Own
    ensures { result ≡ number_own number }
{
    if number < 2 {
        Own::Loose
    } else {
        Own::Firm(Ty::One(Elem::Int))
    }
}

/// Whether a number can be of this type as it stands, before it is padded.
pub fn number_takes(number: u32, ty: Ty) -> bool
    ensures { result ≡ number_takes number ty }
{
    match ty {
        Ty::One(Elem::Int) => true,
        Ty::One(Elem::Bit) => number < 2,
        _ => false,
    }
}

/// The type of an array's elements.
pub fn element_of(ty: Ty) -> Option<Ty>
    ensures { result ≡ element_of ty }
{
    match ty {
        Ty::One(_) => None,
        Ty::Array(elem, _) => Some(Ty::One(elem)),
        Ty::Grid(elem, n, _) => Some(Ty::Array(elem, n)),
    }
}

/// Whether a number can be where this type is wanted, as it stands or padded.
pub fn number_fits(number: u32, ty: Ty) -> bool
    ensures { result ≡ number_fits number ty }
{
    if number_takes(number, ty) {
        return true;
    }
    match element_of(ty) {
        None => false,
        Some(element) => number_takes(number, element),
    }
}

/// Whether a hole can be of this type.
pub fn hole_takes(ty: Ty) -> bool
    ensures { result ≡ hole_takes ty }
{
    is_integer(ty) || is_bits(ty)
}

/// Whether a number is at most the greatest integer of this width.
pub fn in_range(bounds: &Bounds, number: u32) -> bool
    requires wide { 2 ≤ bounds.now.int_bits }
    requires narrow { bounds.now.int_bits ≤ 32 }
    ensures { result ≡ in_range bounds.now number }
{
    number < 2u32.pow(bounds.int_bits - 1)
}
