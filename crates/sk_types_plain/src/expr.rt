//! Copies of expressions. Want of memory is the only error.
ghost use Rattle.std.specs.Prelude.{◌≡◌, IfOk};

use crate::pattern::copy_pattern;
use sk_base::{Boxed, List, Name};
use sk_tree::{EForm, Expr, NewField};
use std::alloc::{AllocError, Global};

/// A copy of a name.
pub fn copy_name(alloc: Global, name: &Name) -> Result<Name, AllocError>
    ensures { IfOk result (λ copy. copy ≡ name.now) }
{
    let copy = Name::from_slice(alloc, name.as_bytes())?;
    Ok(copy)
}

#[cycle(expr)]
fn copy_boxed(alloc: Global, e: &Expr) -> Result<Boxed<Expr>, AllocError>
    ensures { IfOk result (λ copy. copy ≡ e.now) }
{
    let copy = copy_expr(alloc, e)?;
    let copy = Boxed::new(alloc, copy)?;
    Ok(copy)
}

#[cycle(expr)]
pub fn copy_exprs(alloc: Global, es: &[Expr]) -> Result<List<Expr>, AllocError>
    ensures { IfOk result (λ copy. copy ≡ es.now) }
{
    let mut copies = List::new(alloc);
    for e in es {
        let copy = copy_expr(alloc, e)?;
        copies.push(copy)?;
    }
    Ok(copies)
}

#[cycle(expr)]
fn copy_new_fields(alloc: Global, fields: &[NewField]) -> Result<List<NewField>, AllocError>
    ensures { IfOk result (λ copy. copy ≡ fields.now) }
{
    let mut copies = List::new(alloc);
    for field in fields {
        let name = copy_name(alloc, &field.name)?;
        let value = copy_expr(alloc, &field.value)?;
        copies.push(NewField { name, value })?;
    }
    Ok(copies)
}

/// A copy of an expression.
#[cycle(expr)]
pub fn copy_expr(alloc: Global, e: &Expr) -> Result<Expr, AllocError>
    ensures { IfOk result (λ copy. copy ≡ e.now) }
{
    let form = copy_form(alloc, &e.form)?;
    Ok(Expr { span: e.span, form })
}

#[cycle(expr)]
fn copy_form(alloc: Global, form: &EForm) -> Result<EForm, AllocError>
    ensures { IfOk result (λ copy. copy ≡ form.now) }
{
    match form {
        EForm::Number(n) => Ok(EForm::Number(*n)),
        EForm::True => Ok(EForm::True),
        EForm::False => Ok(EForm::False),
        EForm::Null => Ok(EForm::Null),
        EForm::Word(name) => {
            let name = copy_name(alloc, name)?;
            Ok(EForm::Word(name))
        }
        EForm::Hole(width) => Ok(EForm::Hole(*width)),
        EForm::Pattern { pattern, strings } => {
            let pattern = copy_pattern(alloc, pattern)?;
            let strings = copy_exprs(alloc, strings.as_slice())?;
            Ok(EForm::Pattern { pattern, strings })
        }
        EForm::Paren(of) => {
            let of = copy_boxed(alloc, of.get())?;
            Ok(EForm::Paren(of))
        }
        EForm::Call { name, args } => {
            let name = copy_name(alloc, name)?;
            let args = copy_exprs(alloc, args.as_slice())?;
            Ok(EForm::Call { name, args })
        }
        EForm::New { name, fields } => {
            let name = copy_name(alloc, name)?;
            let fields = copy_new_fields(alloc, fields.as_slice())?;
            Ok(EForm::New { name, fields })
        }
        EForm::Braces(elements) => {
            let elements = copy_exprs(alloc, elements.as_slice())?;
            Ok(EForm::Braces(elements))
        }
        EForm::Member { base, name } => {
            let base = copy_boxed(alloc, base.get())?;
            let name = copy_name(alloc, name)?;
            Ok(EForm::Member { base, name })
        }
        EForm::Index { base, index } => {
            let base = copy_boxed(alloc, base.get())?;
            let index = copy_boxed(alloc, index.get())?;
            Ok(EForm::Index { base, index })
        }
        EForm::Slice { base, from, length } => {
            let base = copy_boxed(alloc, base.get())?;
            let from = copy_boxed(alloc, from.get())?;
            let length = copy_boxed(alloc, length.get())?;
            Ok(EForm::Slice { base, from, length })
        }
        EForm::Unary { op, of } => {
            let of = copy_boxed(alloc, of.get())?;
            Ok(EForm::Unary { op: *op, of })
        }
        EForm::Binary { op, left, right } => {
            let left = copy_boxed(alloc, left.get())?;
            let right = copy_boxed(alloc, right.get())?;
            let op = *op;
            Ok(EForm::Binary { op, left, right })
        }
        EForm::Cond { cond, then, other } => {
            let cond = copy_boxed(alloc, cond.get())?;
            let then = copy_boxed(alloc, then.get())?;
            let other = copy_boxed(alloc, other.get())?;
            Ok(EForm::Cond { cond, then, other })
        }
    }
}
