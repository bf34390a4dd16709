//! The type that an expression has by itself.
use crate::top::Scope;
use crate::types::{BIT, Base, INT, Own, Type};
use sk_tree::{EForm, Expr, Mark};

/// What the operands of an operator are.
#[derive(Debug, Clone, Copy, PartialEq, Eq)]
pub enum Class {
    /// `int`
    Numbers,
    /// `int` or `bit[n]`
    Sums,
    /// `bit` or `bit[n]`
    Bits,
    /// `bit`
    Truths,
    /// `bit[n]` on the left and `int` on the right
    Shifts,
    /// Two that join
    Any,
}

/// What the operands of a binary operator are.
pub fn class_of(op: Mark) -> Class {
    match op {
        Mark::Plus => Class::Sums,
        Mark::Ampersand | Mark::Bar | Mark::Caret => Class::Bits,
        Mark::AndThen | Mark::OrElse => Class::Truths,
        Mark::ShiftLeft | Mark::ShiftRight => Class::Shifts,
        Mark::Equal | Mark::NotEqual => Class::Any,
        _ => Class::Numbers,
    }
}

// The type that stands for two operands.
fn joined<'a>(left: Own<'a>, right: Own<'a>) -> Own<'a> {
    match (left, right) {
        (Own::Unknown, _) | (_, Own::Unknown) => Own::Unknown,
        (Own::Loose, other) | (other, Own::Loose) => other,
        (Own::Is(left), Own::Is(right)) => match left.joined(right) {
            Some(ty) => Own::Is(ty),
            None => Own::Unknown,
        },
    }
}

// What a sum is of what its operands join to.
fn sum<'a>(own: Own<'a>) -> Own<'a> {
    match own {
        Own::Is(ty) if ty == BIT => Own::Is(INT),
        Own::Is(ty) if ty == INT || ty.is_word() => own,
        Own::Loose => Own::Loose,
        _ => Own::Unknown,
    }
}

// What operands of bits are of what they join to.
fn bits<'a>(own: Own<'a>) -> Own<'a> {
    match own {
        Own::Is(ty) if ty.is_bits() => own,
        Own::Loose => Own::Loose,
        _ => Own::Unknown,
    }
}

// What is shifted, where it can be.
fn shifted<'a>(own: Own<'a>) -> Own<'a> {
    match own {
        Own::Is(ty) if ty.is_word() => own,
        _ => Own::Unknown,
    }
}

fn element<'a>(own: Own<'a>) -> Own<'a> {
    match own {
        Own::Is(ty) => is_some(ty.element()),
        Own::Loose | Own::Unknown => Own::Unknown,
    }
}

fn is_some<'a>(ty: Option<Type<'a>>) -> Own<'a> {
    match ty {
        Some(ty) => Own::Is(ty),
        None => Own::Unknown,
    }
}

impl<'a> Scope<'a> {
    // What a call gives.
    fn called(&self, name: &[u8]) -> Own<'a> {
        match self.function(name) {
            Some(fun) => match &fun.result {
                Some(ty) => is_some(self.ty(ty)),
                None => Own::Unknown,
            },
            None => Own::Unknown,
        }
    }

    // What a field of a record gives.
    fn member(&self, base: Own<'a>, name: &[u8]) -> Own<'a> {
        match base {
            Own::Is(ty) if ty.is_single() => match ty.base {
                Base::Struct(of) => is_some(self.field(of, name)),
                Base::Int | Base::Bit => Own::Unknown,
            },
            _ => Own::Unknown,
        }
    }

    // What a slice gives.
    fn slice(&self, base: Own<'a>, length: &Expr) -> Own<'a> {
        match (base, self.length(length)) {
            (Own::Is(ty), Some(length)) if !ty.is_single() => Own::Is(ty.with_length(length)),
            _ => Own::Unknown,
        }
    }

    /// The type that an expression has by itself.
    pub fn own(&self, e: &Expr) -> Own<'a> {
        match &e.form {
            EForm::Number(number) => {
                if *number > 1 {
                    Own::Is(INT)
                } else {
                    Own::Loose
                }
            }
            EForm::True | EForm::False => Own::Is(BIT),
            EForm::Null | EForm::Hole(_) | EForm::Pattern { .. } | EForm::Braces(_) => Own::Loose,
            EForm::Word(name) => is_some(self.variable(name.as_bytes())),
            EForm::Paren(of) => self.own(of.get()),
            EForm::Call { name, args: _ } => self.called(name.as_bytes()),
            EForm::New { name, fields: _ } => is_some(self.reference(name.as_bytes())),
            EForm::Member { base, name } => self.member(self.own(base.get()), name.as_bytes()),
            EForm::Index { base, index: _ } => element(self.own(base.get())),
            EForm::Slice {
                base,
                from: _,
                length,
            } => self.slice(self.own(base.get()), length.get()),
            EForm::Unary { op, of } => unary(*op, self.own(of.get())),
            EForm::Binary { op, left, right } => {
                binary(*op, self.own(left.get()), self.own(right.get()))
            }
            EForm::Cond {
                cond: _,
                then,
                other,
            } => joined(self.own(then.get()), self.own(other.get())),
        }
    }
}

// What a unary operator gives.
fn unary<'a>(op: Mark, of: Own<'a>) -> Own<'a> {
    match op {
        Mark::Bang => Own::Is(BIT),
        Mark::Minus => Own::Is(INT),
        _ => bits(of),
    }
}

// What a binary operator gives.
fn binary<'a>(op: Mark, left: Own<'a>, right: Own<'a>) -> Own<'a> {
    match class_of(op) {
        Class::Sums => sum(joined(left, right)),
        Class::Bits => bits(joined(left, right)),
        Class::Shifts => shifted(left),
        Class::Truths | Class::Any => Own::Is(BIT),
        Class::Numbers => number(op),
    }
}

// What an operator on numbers gives.
fn number(op: Mark) -> Own<'static> {
    match op {
        Mark::Less | Mark::Greater | Mark::AtMost | Mark::AtLeast => Own::Is(BIT),
        _ => Own::Is(INT),
    }
}
