//! The expression of a span, with what is wanted of it.
use crate::finding::{Finding, Stands, Wanted, What, is_within};
use crate::own::{Class, class_of};
use crate::top::Scope;
use crate::types::{BIT, Base, INT, Own, Type};
use sk_base::Span;
use sk_tree::{EForm, Expr, FunItem, Mark, NewField};

// An optional type as what is wanted.
pub fn wanted<'a>(ty: Option<Type<'a>>) -> Wanted<'a> {
    match ty {
        Some(ty) => Wanted::At(ty),
        None => Wanted::Any,
    }
}

// An optional type as that of a variable which is wanted for `ref`.
fn exactly<'a>(ty: Option<Type<'a>>) -> Wanted<'a> {
    match ty {
        Some(ty) => Wanted::Exactly(ty),
        None => Wanted::Any,
    }
}

// A type that is known as what is wanted.
pub fn wanted_own<'a>(own: Own<'a>) -> Wanted<'a> {
    match own {
        Own::Is(ty) => Wanted::At(ty),
        Own::Loose | Own::Unknown => Wanted::Any,
    }
}

// Whether a type has room for so many elements.
fn has_room(ty: Type<'_>, count: usize) -> bool {
    match usize::try_from(ty.outer) {
        Ok(outer) => count <= outer,
        Err(_) => true,
    }
}

// What a loose expression is, where it cannot have a type.
fn loose_at<'a>(e: &Expr, ty: Type<'a>) -> Option<Finding<'a>> {
    let stands = match &e.form {
        EForm::Hole(_) if ty != INT && !ty.is_bits() => Stands::Hole,
        EForm::Null if !ty.is_reference() => Stands::Null,
        EForm::Braces(parts) if !has_room(ty, parts.len()) => Stands::Braces(parts.len()),
        _ => return None,
    };
    Some(Finding::Unfit { wanted: ty, stands })
}

// What stands there of an expression with a type of its own.
fn stands<'a>(e: &Expr, ty: Type<'a>) -> Stands<'a> {
    match &e.form {
        EForm::Number(number) => Stands::Number(*number),
        _ => Stands::Is(ty),
    }
}

// Whether an operand may stand beside an operator.
fn may_stand(class: Class, ty: Type<'_>) -> bool {
    match class {
        Class::Numbers => ty == INT || ty == BIT,
        Class::Sums => ty == INT || ty.is_bits(),
        Class::Bits => ty.is_bits(),
        Class::Truths => ty == BIT,
        Class::Shifts => ty.is_word(),
        Class::Any => true,
    }
}

// What is wanted of the argument for the parameter of a place.
fn param_type<'a>(scope: &Scope<'a>, fun: Option<&'a FunItem>, at: usize) -> Wanted<'a> {
    match fun {
        Some(fun) => match fun.params.as_slice().get(at) {
            Some(param) if param.by_ref => exactly(scope.ty(&param.ty)),
            Some(param) => wanted(scope.ty(&param.ty)),
            None => Wanted::Any,
        },
        None => Wanted::Any,
    }
}

// An expression in which what is looked for stands, and what is wanted of it.
#[derive(Clone, Copy)]
struct Sought<'a> {
    e: &'a Expr,
    place: Wanted<'a>,
}

impl<'a> Scope<'a> {
    // An operand that is none for its operator.
    fn operand(&self, class: Class, e: &Expr, behind: u32) -> Option<Finding<'a>> {
        match self.own(e) {
            Own::Is(ty) if !may_stand(class, ty) => Some(Finding::Operand {
                class,
                stands: stands(e, ty),
                behind,
            }),
            _ => None,
        }
    }

    // Two operands that do not join.
    fn apart(&self, left: &Expr, right: &Expr) -> Option<Finding<'a>> {
        match (self.own(left), self.own(right)) {
            (Own::Is(one), Own::Is(other)) if one.joined(other).is_none() => Some(Finding::Apart {
                left: stands(left, one),
                right: stands(right, other),
                behind: left.span.to,
            }),
            _ => None,
        }
    }

    // Why the operands of a binary operator cannot stand beside it.
    fn beside(&self, op: Mark, left: &Expr, right: &Expr) -> Option<Finding<'a>> {
        self.beside_class(class_of(op), left, right)
    }

    /// Why operands cannot stand beside an operator of a class.
    pub fn beside_class(&self, class: Class, left: &Expr, right: &Expr) -> Option<Finding<'a>> {
        let behind = left.span.to;
        if let Some(found) = self.operand(class, left, behind) {
            return Some(found);
        }
        if class == Class::Shifts {
            return None;
        }
        match self.operand(class, right, behind) {
            Some(found) => Some(found),
            None => self.apart(left, right),
        }
    }

    // Why an expression breaks a rule by its own operator.
    fn within(&self, e: &'a Expr) -> Option<Finding<'a>> {
        match &e.form {
            EForm::Binary { op, left, right } => self.beside(*op, left.get(), right.get()),
            EForm::Unary {
                op: Mark::Tilde,
                of,
            } => self.operand(Class::Bits, of.get(), e.span.from),
            EForm::Call { name, args } => self.count(name.as_bytes(), args.len()),
            EForm::Member { base, name } => self.no_field(self.own(base.get()), name.as_bytes()),
            EForm::Index { base, .. } | EForm::Slice { base, .. } => no_array(self.own(base.get())),
            EForm::New { name, fields } => self.no_record(name.as_bytes(), fields.as_slice()),
            _ => None,
        }
    }

    // A field that a struct does not have.
    fn no_field_of(&self, of: &'a [u8], name: &'a [u8]) -> Option<Finding<'a>> {
        if self.fields(of)?.iter().any(|field| field.name.is(name)) {
            return None;
        }
        Some(Finding::Unknown {
            what: What::Field(of),
            name,
        })
    }

    // A field that a record does not have.
    fn no_field(&self, base: Own<'a>, name: &'a [u8]) -> Option<Finding<'a>> {
        match base {
            Own::Is(ty) if ty.is_single() => match ty.base {
                Base::Struct(of) => self.no_field_of(of, name),
                Base::Int | Base::Bit => no_reference(ty),
            },
            Own::Is(ty) => no_reference(ty),
            Own::Loose | Own::Unknown => None,
        }
    }

    // A struct that is not there, or a field that it does not have.
    fn no_record(&self, of: &'a [u8], set: &'a [NewField]) -> Option<Finding<'a>> {
        if self.fields(of).is_none() {
            return Some(Finding::Unknown {
                what: What::Struct,
                name: of,
            });
        }
        for field in set {
            if let Some(found) = self.no_field_of(of, field.name.as_bytes()) {
                return Some(found);
            }
        }
        None
    }

    // A function that is not there, or another number of arguments than parameters.
    fn count(&self, name: &'a [u8], found: usize) -> Option<Finding<'a>> {
        let Some(fun) = self.function(name) else {
            return Some(Finding::Unknown {
                what: What::Function,
                name,
            });
        };
        let wanted = fun.params.len();
        if wanted == found {
            None
        } else {
            Some(Finding::Count { wanted, found })
        }
    }

    // Why an expression of another type than the wanted one cannot stand for it.
    fn unlike(&self, e: &'a Expr, wanted: Type<'a>) -> Option<Finding<'a>> {
        match self.own(e) {
            Own::Is(ty) if !ty.fits(wanted) => Some(Finding::Unfit {
                wanted,
                stands: stands(e, ty),
            }),
            Own::Loose => loose_at(e, wanted),
            Own::Is(_) | Own::Unknown => None,
        }
    }

    // Why an expression cannot stand for `ref`.
    fn unequal(&self, e: &'a Expr, wanted: Type<'a>) -> Option<Finding<'a>> {
        match self.own(e) {
            Own::Is(found) if found != wanted => Some(Finding::Exact { wanted, found }),
            Own::Is(_) | Own::Loose | Own::Unknown => None,
        }
    }

    // Why an expression cannot stand where it does.
    fn unfit(&self, e: &'a Expr, place: Wanted<'a>) -> Option<Finding<'a>> {
        if let Some(found) = self.within(e) {
            return Some(found);
        }
        match place {
            Wanted::At(wanted) => self.unlike(e, wanted),
            Wanted::Exactly(wanted) => self.unequal(e, wanted),
            Wanted::Any => None,
        }
    }

    // Whether what is looked for stands in an expression.
    fn is_in(&self, e: &Expr) -> bool {
        is_within(self.span, e.span)
    }

    // The part of a call in which what is looked for stands.
    fn in_args(&self, args: &'a [Expr], fun: Option<&'a FunItem>) -> Option<Sought<'a>> {
        for (at, arg) in args.iter().enumerate() {
            if self.is_in(arg) {
                return Some(Sought {
                    e: arg,
                    place: param_type(self, fun, at),
                });
            }
        }
        None
    }

    // The same of a `new`.
    fn in_fields(&self, fields: &'a [NewField], of: &[u8]) -> Option<Sought<'a>> {
        for field in fields {
            if self.is_in(&field.value) {
                return Some(Sought {
                    e: &field.value,
                    place: wanted(self.field(of, field.name.as_bytes())),
                });
            }
        }
        None
    }

    // The same of braces.
    fn in_parts(&self, parts: &'a [Expr], place: Wanted<'a>) -> Option<Sought<'a>> {
        for part in parts {
            if self.is_in(part) {
                return Some(Sought {
                    e: part,
                    place: element_of(place),
                });
            }
        }
        None
    }

    // The same of what takes an element or a slice.
    fn in_array(&self, base: &'a Expr, index: &'a Expr) -> Sought<'a> {
        if self.is_in(index) {
            Sought {
                e: index,
                place: Wanted::At(INT),
            }
        } else {
            Sought {
                e: base,
                place: Wanted::Any,
            }
        }
    }

    // The same of a binary operator.
    fn in_operands(&self, op: Mark, left: &'a Expr, right: &'a Expr) -> Sought<'a> {
        if self.is_in(left) {
            Sought {
                e: left,
                place: operand_of(op),
            }
        } else {
            Sought {
                e: right,
                place: right_of(op),
            }
        }
    }

    // The same of a choice by a condition.
    fn in_cond(
        &self,
        cond: &'a Expr,
        then: &'a Expr,
        other: &'a Expr,
        place: Wanted<'a>,
    ) -> Sought<'a> {
        if self.is_in(cond) {
            Sought {
                e: cond,
                place: Wanted::At(BIT),
            }
        } else if self.is_in(then) {
            Sought { e: then, place }
        } else {
            Sought { e: other, place }
        }
    }

    // The part of an expression in which what is looked for stands, with what is wanted of it.
    fn inside(&self, e: &'a Expr, place: Wanted<'a>) -> Option<Sought<'a>> {
        match &e.form {
            EForm::Paren(of) => Some(Sought { e: of.get(), place }),
            EForm::Call { name, args } => {
                self.in_args(args.as_slice(), self.function(name.as_bytes()))
            }
            EForm::New { name, fields } => self.in_fields(fields.as_slice(), name.as_bytes()),
            EForm::Braces(parts) => self.in_parts(parts.as_slice(), place),
            EForm::Member { base, name: _ } => Some(Sought {
                e: base.get(),
                place: Wanted::Any,
            }),
            EForm::Index { base, index }
            | EForm::Slice {
                base,
                from: index,
                ..
            } => Some(self.in_array(base.get(), index.get())),
            EForm::Unary { op, of } => Some(Sought {
                e: of.get(),
                place: unary_of(*op),
            }),
            EForm::Binary { op, left, right } => {
                Some(self.in_operands(*op, left.get(), right.get()))
            }
            EForm::Cond { cond, then, other } => {
                Some(self.in_cond(cond.get(), then.get(), other.get(), place))
            }
            EForm::Number(_) | EForm::True | EForm::False | EForm::Null => None,
            EForm::Word(_) | EForm::Hole(_) | EForm::Pattern { .. } => None,
        }
    }

    /// Why the expression that is looked for cannot stand where it does, where it stands in this one, of which something is
    /// wanted.
    pub fn find(&self, e: &'a Expr, place: Wanted<'a>) -> Option<Finding<'a>> {
        let mut sought = Sought { e, place };
        for _level in 0..u64::MAX {
            if sought.e.span == self.span {
                return self.unfit(sought.e, sought.place);
            }
            sought = self.inside(sought.e, sought.place)?;
        }
        None
    }
}

// What is no reference.
fn no_reference<'a>(found: Type<'a>) -> Option<Finding<'a>> {
    Some(Finding::Base {
        wanted: b"a reference",
        found,
    })
}

// What is no array.
fn no_array<'a>(own: Own<'a>) -> Option<Finding<'a>> {
    match own {
        Own::Is(found) if found.is_single() => Some(Finding::Base {
            wanted: b"an array",
            found,
        }),
        _ => None,
    }
}

// What is wanted of the elements of what is wanted.
fn element_of<'a>(place: Wanted<'a>) -> Wanted<'a> {
    match place {
        Wanted::At(ty) => wanted(ty.element()),
        Wanted::Exactly(_) | Wanted::Any => Wanted::Any,
    }
}

// What is wanted of an operand by itself.
fn operand_of(op: Mark) -> Wanted<'static> {
    match op {
        Mark::Bang | Mark::AndThen | Mark::OrElse => Wanted::At(BIT),
        _ => Wanted::Any,
    }
}

// What is wanted of what a unary operator stands in front of.
fn unary_of(op: Mark) -> Wanted<'static> {
    match op {
        Mark::Minus => Wanted::At(INT),
        _ => operand_of(op),
    }
}

// What is wanted of a right operand by itself.
fn right_of(op: Mark) -> Wanted<'static> {
    match op {
        Mark::ShiftLeft | Mark::ShiftRight => Wanted::At(INT),
        _ => operand_of(op),
    }
}
