//! Expressions in brackets: angles stand around what an operator joins, and a comma behind each part of a list.
use crate::spelled::mark_bytes;
use sk_base::push_number;
use sk_tree::{EForm, Expr, NewField};
use std::alloc::AllocError;

fn push_hole(shown: &mut Vec<u8>, width: Option<u32>) -> Result<(), AllocError> {
    shown.extend_from_slice(b"??")?;
    if let Some(width) = width {
        shown.extend_from_slice(b"(")?;
        push_number(shown, u64::from(width))?;
        shown.extend_from_slice(b")")?;
    }
    Ok(())
}

#[cycle(shown_expr)]
pub fn push_expr(shown: &mut Vec<u8>, expr: &Expr) -> Result<(), AllocError> {
    match &expr.form {
        EForm::Number(n) => push_number(shown, u64::from(*n)),
        EForm::True => shown.extend_from_slice(b"true"),
        EForm::False => shown.extend_from_slice(b"false"),
        EForm::Null => shown.extend_from_slice(b"null"),
        EForm::Word(name) => shown.extend_from_slice(name.as_bytes()),
        EForm::Hole(width) => push_hole(shown, *width),
        EForm::Pattern { strings, .. } => push_list(shown, b"{|", strings.as_slice(), b"|}"),
        EForm::Paren(of) => push_between(shown, b"(", of.get(), b")"),
        EForm::Call { name, args } => push_call(shown, name.as_bytes(), args.as_slice()),
        EForm::New { name, fields } => push_new(shown, name.as_bytes(), fields.as_slice()),
        EForm::Braces(elements) => push_list(shown, b"{", elements.as_slice(), b"}"),
        EForm::Member { base, name } => push_member(shown, base.get(), name.as_bytes()),
        EForm::Index { base, index } => {
            push_expr(shown, base.get())?;
            push_between(shown, b"[", index.get(), b"]")
        }
        EForm::Slice { base, from, length } => {
            push_expr(shown, base.get())?;
            push_between(shown, b"[", from.get(), b"::")?;
            push_between(shown, b"", length.get(), b"]")
        }
        EForm::Unary { op, of } => push_unary(shown, mark_bytes(*op), of.get()),
        EForm::Binary { op, left, right } => {
            push_between(shown, b"<", left.get(), mark_bytes(*op))?;
            push_between(shown, b"", right.get(), b">")
        }
        EForm::Cond { cond, then, other } => {
            push_between(shown, b"<", cond.get(), b"?")?;
            push_between(shown, b"", then.get(), b":")?;
            push_between(shown, b"", other.get(), b">")
        }
    }
}

#[cycle(shown_expr)]
fn push_between(
    shown: &mut Vec<u8>,
    before: &[u8],
    expr: &Expr,
    behind: &[u8],
) -> Result<(), AllocError> {
    shown.extend_from_slice(before)?;
    push_expr(shown, expr)?;
    shown.extend_from_slice(behind)
}

#[cycle(shown_expr)]
fn push_unary(shown: &mut Vec<u8>, op: &[u8], of: &Expr) -> Result<(), AllocError> {
    shown.extend_from_slice(b"<")?;
    push_between(shown, op, of, b">")
}

#[cycle(shown_expr)]
fn push_member(shown: &mut Vec<u8>, base: &Expr, name: &[u8]) -> Result<(), AllocError> {
    push_between(shown, b"", base, b".")?;
    shown.extend_from_slice(name)
}

#[cycle(shown_expr)]
fn push_list(
    shown: &mut Vec<u8>,
    before: &[u8],
    exprs: &[Expr],
    behind: &[u8],
) -> Result<(), AllocError> {
    shown.extend_from_slice(before)?;
    for expr in exprs {
        push_between(shown, b"", expr, b",")?;
    }
    shown.extend_from_slice(behind)
}

#[cycle(shown_expr)]
fn push_call(shown: &mut Vec<u8>, name: &[u8], args: &[Expr]) -> Result<(), AllocError> {
    shown.extend_from_slice(name)?;
    push_list(shown, b"(", args, b")")
}

#[cycle(shown_expr)]
fn push_new(shown: &mut Vec<u8>, name: &[u8], fields: &[NewField]) -> Result<(), AllocError> {
    shown.extend_from_slice(b"new ")?;
    shown.extend_from_slice(name)?;
    shown.extend_from_slice(b"(")?;
    for field in fields {
        push_set(shown, field)?;
    }
    shown.extend_from_slice(b")")
}

#[cycle(shown_expr)]
fn push_set(shown: &mut Vec<u8>, field: &NewField) -> Result<(), AllocError> {
    shown.extend_from_slice(field.name.as_bytes())?;
    push_between(shown, b"=", &field.value, b",")
}
