//! What a form wants of its parts, and what it is by itself, apart from its parts.
ghost use Rattle.std.specs.Prelude.{◌≡◌, Option, Some, None};
ghost use Rattle.sk_prog.specs.declared.expr.PEForm.TheVariants as pform;
ghost use Rattle.sk_types_laws.specs.declared.fault.Typing.TheVariants as typing;
ghost use Rattle.sk_types_rules.specs.Rules.{only_if, number_stands, is_reference, is_bits, width_fits, shifted, class_of};
ghost use Rattle.sk_types_rules.specs.Sorts.{may_keep, is_some_type};
ghost use Rattle.sk_types_names.specs.Gives.{Gives, IsWidth};
ghost use Rattle.sk_types_laws.specs.Envs.{meaning};
ghost use Rattle.sk_types_laws.specs.Elaborate.{typed, coerced, firm_at, number_at, named_at, null_at, hole_at, pattern_at, may_pass, element_wanted, field_found, viewed, indexed, cut, flip_wants, unary_wants, wants, operands_want, shift_wants, binary_wants};

use crate::named::StructTable;
use crate::own::{count_of, sliced};
use sk_base::{Bounds, Boxed, List, Name, Span, at};
use sk_prog::{BinOp, Elem, PEForm, PExpr, ParamDef, Ty, UnOp};
use sk_types_laws::{Found, Meant, Rule, TypeFault, Typing, View, Wants};
use sk_types_rules::{
    Class, Fit, Own, class_of, element_of, fit_of, flipped, hole_takes, in_range, loose_takes,
    number_takes, operand, result_of, ty_eq,
};
use std::alloc::Global;

pub const INT: Ty = Ty::One(Elem::Int);

pub const BIT: Ty = Ty::One(Elem::Bit);

/// A rule that is broken at a place.
pub fn fault(rule: Rule, span: Span) -> Typing
    ensures { result ≡ typing.Fault (record { rule = rule; span = span }) }
{
    Typing::Fault(TypeFault { rule, span })
}

pub fn boxed(alloc: Global, e: PExpr) -> Result<Boxed<PExpr>, Typing>
    ensures { Gives result (Some e) }
{
    let e = Boxed::new(alloc, e)?;
    Ok(e)
}

/// A number as a program counts it. One past these numbers is want of memory.
pub fn numbered(number: usize) -> Result<u32, Typing>
    ensures { Gives result (Some number) }
{
    match u32::try_from(number) {
        Ok(number) => Ok(number),
        Err(_) => Err(Typing::Memory),
    }
}

pub fn copied(alloc: Global, name: &Name) -> Result<Name, Typing>
    ensures { Gives result (Some name.now) }
{
    let name = Name::from_slice(alloc, name.as_bytes())?;
    Ok(name)
}

pub fn typed(span: Span, ty: Ty, form: PEForm) -> PExpr
    ensures { result ≡ typed span ty form }
{
    PExpr {
        span,
        ty: Some(ty),
        form,
    }
}

/// An expression where another type is wanted, with the coercion that it needs.
fn coerced(alloc: Global, fit: Fit, ty: Ty, e: PExpr) -> Result<PExpr, Typing>
    ensures { Gives result (coerced fit ty e) }
{
    let span = e.span;
    match fit {
        Fit::Misfit => Err(fault(Rule::Mismatch, span)),
        Fit::Same => Ok(e),
        Fit::Widens => {
            let e = boxed(alloc, e)?;
            Ok(typed(span, ty, PEForm::ToInt(e)))
        }
        Fit::Pads => {
            let e = boxed(alloc, e)?;
            Ok(typed(span, ty, PEForm::Pad(e)))
        }
    }
}

/// A form of a type of its own, where another type is wanted.
pub fn firm(alloc: Global, own: Ty, form: PEForm, span: Span, ty: Ty) -> Result<PExpr, Typing>
    ensures { Gives result (firm_at own (Some form) span ty) }
{
    let e = coerced(alloc, fit_of(own, ty), ty, typed(span, own, form))?;
    Ok(e)
}

/// Whether a number is of this type as it is written.
fn number_stands(number: u32, ty: Ty) -> bool
    ensures { result ≡ number_stands number ty }
{
    if number_takes(number, ty) {
        return true;
    }
    match element_of(ty) {
        None => false,
        Some(element) => number < 2 && number_takes(number, element),
    }
}

fn small_at(number: u32, span: Span, ty: Ty) -> Result<PExpr, Typing>
    ensures { Gives result (only_if (number_stands number ty) (typed span ty (pform.Number number))) }
{
    if number_stands(number, ty) {
        Ok(typed(span, ty, PEForm::Number(number)))
    } else {
        Err(fault(Rule::Mismatch, span))
    }
}

pub fn number_at(
    alloc: Global,
    bounds: &Bounds,
    number: u32,
    span: Span,
    ty: Ty,
) -> Result<PExpr, Typing>
    requires { IsWidth bounds.now }
    ensures { Gives result (number_at bounds.now number span ty) }
{
    if !in_range(bounds, number) {
        return Err(fault(Rule::LiteralRange, span));
    }
    if number < 2 {
        let e = small_at(number, span, ty)?;
        Ok(e)
    } else {
        let e = firm(alloc, INT, PEForm::Number(number), span, ty)?;
        Ok(e)
    }
}

pub fn named_at(
    alloc: Global,
    meant: Meant,
    name: &Name,
    span: Span,
    ty: Ty,
) -> Result<PExpr, Typing>
    ensures { Gives result (named_at (meaning meant) name.now span ty) }
{
    match meant {
        Meant::Variable(place) => {
            let slot = numbered(place.slot)?;
            let name = copied(alloc, name)?;
            let e = firm(alloc, place.ty, PEForm::Var { slot, name }, span, ty)?;
            Ok(e)
        }
        Meant::Constant(c) => {
            let e = firm(alloc, INT, PEForm::Const(c), span, ty)?;
            Ok(e)
        }
        Meant::Struct(_) | Meant::Function(_) | Meant::Nothing => {
            Err(fault(Rule::UnknownName, span))
        }
    }
}

fn is_reference(ty: Ty) -> bool
    ensures { result ≡ is_reference ty }
{
    match ty {
        Ty::One(Elem::Reference(_)) => true,
        _ => false,
    }
}

pub fn null_at(span: Span, ty: Ty) -> Result<PExpr, Typing>
    ensures { Gives result (null_at span ty) }
{
    if is_reference(ty) {
        Ok(typed(span, ty, PEForm::Null))
    } else {
        Err(fault(Rule::Mismatch, span))
    }
}

fn width_fits(bounds: &Bounds, width: Option<u32>) -> bool
    ensures { result ≡ width_fits bounds.now width }
{
    match width {
        None => true,
        Some(n) => 1 <= n && n < bounds.int_bits,
    }
}

pub fn hole_at(bounds: &Bounds, width: Option<u32>, span: Span, ty: Ty) -> Result<PExpr, Typing>
    ensures { Gives result (hole_at bounds.now width span ty) }
{
    if !width_fits(bounds, width) {
        return Err(fault(Rule::HoleWidth, span));
    }
    if !hole_takes(ty) {
        return Err(fault(Rule::Mismatch, span));
    }
    Ok(typed(span, ty, PEForm::Hole(width)))
}

/// A pattern that keeps these strings.
pub fn pattern_at(strings: List<PExpr>, span: Span, ty: Ty) -> Result<PExpr, Typing>
    ensures { Gives result (pattern_at strings span ty) }
{
    if strings.is_empty() {
        return Err(fault(Rule::NoAlternative, span));
    }
    Ok(typed(span, ty, PEForm::Pattern(strings)))
}

/// Whether a string of a pattern with this own type can be kept at a type.
pub fn may_keep(own: Own, ty: Ty) -> bool
    ensures { result ≡ may_keep own ty }
{
    match own {
        Own::Wrong => false,
        Own::Loose => true,
        Own::Firm(own) => ty_eq(own, ty),
    }
}

/// Whether a variable of this type is there.
pub fn is_type(variable: Option<Ty>, ty: Ty) -> bool
    ensures { result ≡ is_some_type variable ty }
{
    match variable {
        None => false,
        Some(variable) => ty_eq(variable, ty),
    }
}

/// Whether an argument that names a variable of this type, or none, may be handed to a parameter.
pub fn may_pass(param: &ParamDef, variable: Option<Ty>) -> bool
    ensures { result ≡ may_pass param.now variable }
{
    !param.by_ref || is_type(variable, param.ty)
}

/// The type of the elements, where braces with so many stand at this type.
pub fn element_wanted(ty: Ty, count: usize) -> Option<Ty>
    ensures { result ≡ element_wanted ty count }
{
    let element = element_of(ty)?;
    if 1 <= count && count <= count_of(ty) as usize {
        Some(element)
    } else {
        None
    }
}

/// A struct's field, by its name.
pub fn field_found(def: &StructTable, name: &Name, span: Span) -> Result<Found, Typing>
    ensures { Gives result (field_found def.now name.now) }
{
    let Some(place) = def.field(name) else {
        return Err(fault(Rule::UnknownName, span));
    };
    let Some(field) = at(def.fields(), place) else {
        return Err(fault(Rule::UnknownName, span));
    };
    let ty = field.ty;
    let field = numbered(place)?;
    Ok(Found { field, ty })
}

fn viewed(whole: Ty, part: Option<Ty>) -> Option<View>
    ensures { result ≡ viewed whole part }
{
    let part = part?;
    Some(View { whole, part })
}

/// An element of an array, from the own type of what is indexed.
pub fn indexed(own: Own) -> Option<View>
    ensures { result ≡ indexed own }
{
    match own {
        Own::Firm(whole) => viewed(whole, element_of(whole)),
        _ => None,
    }
}

/// So many elements of an array.
pub fn cut(own: Own, n: u32) -> Option<View>
    ensures { result ≡ cut own n }
{
    match own {
        Own::Firm(whole) => viewed(whole, sliced(whole, n)),
        _ => None,
    }
}

fn is_bits(ty: Ty) -> bool
    ensures { result ≡ is_bits ty }
{
    match ty {
        Ty::One(Elem::Bit) | Ty::Array(Elem::Bit, _) => true,
        _ => false,
    }
}

fn flip_wants(own: Own, ty: Ty) -> Option<Ty>
    ensures { result ≡ flip_wants own ty }
{
    match own {
        Own::Wrong => None,
        Own::Loose => { if is_bits(ty) { Some(ty) } else { None } }
        Own::Firm(own) => Some(own),
    }
}

/// The type at which an operator wants its operand.
pub fn unary_wants(op: UnOp, own: Own, ty: Ty) -> Option<Ty>
    ensures { result ≡ unary_wants op own ty }
{
    match op {
        UnOp::Not => Some(BIT),
        UnOp::Neg => Some(INT),
        UnOp::Flip => flip_wants(flipped(own), ty),
    }
}

fn wants(left: Ty, right: Ty, to: Ty) -> Wants
    ensures { result ≡ wants left right to }
{
    Wants {
        left,
        right,
        result: to,
    }
}

fn operands_want(class: Class, operand: Own, ty: Ty) -> Option<Wants>
    ensures { result ≡ operands_want class operand ty }
{
    match operand {
        Own::Wrong => None,
        Own::Loose => {
            if loose_takes(class, ty) {
                Some(wants(ty, ty, ty))
            } else {
                None
            }
        }
        Own::Firm(wanted) => Some(wants(wanted, wanted, result_of(class, wanted))),
    }
}

fn shifted(left: Own) -> Option<Wants>
    ensures { result ≡ shift_wants (shifted left) }
{
    match left {
        Own::Firm(ty) => match ty {
            Ty::Array(Elem::Bit, _) => Some(wants(ty, INT, ty)),
            _ => None,
        },
        _ => None,
    }
}

/// The types at which an operator wants its operands, from their own types.
pub fn binary_wants(op: BinOp, left: Own, right: Own, ty: Ty) -> Option<Wants>
    ensures { result ≡ binary_wants (class_of op) left right ty }
{
    let class = class_of(op);
    match class {
        Class::Logic => Some(wants(BIT, BIT, BIT)),
        Class::Shift => shifted(left),
        Class::Plus | Class::Arithmetic | Class::Order | Class::Equality | Class::Bitwise => {
            operands_want(class, operand(class, left, right), ty)
        }
    }
}
