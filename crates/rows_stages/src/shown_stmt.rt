//! Types and statements, with a space behind each statement of a list.
use crate::shown_expr::push_expr;
use sk_base::Boxed;
use sk_tree::{Base, Declared, Expr, Form, StepKind, Stmt, TyTree};
use std::alloc::AllocError;

pub fn push_ty(shown: &mut Vec<u8>, ty: &TyTree) -> Result<(), AllocError> {
    match &ty.base {
        Base::Int => shown.extend_from_slice(b"int")?,
        Base::Bit => shown.extend_from_slice(b"bit")?,
        Base::Named(name) => shown.extend_from_slice(name.as_bytes())?,
    }
    for length in ty.lengths.as_slice() {
        shown.extend_from_slice(b"[")?;
        push_expr(shown, length)?;
        shown.extend_from_slice(b"]")?;
    }
    shown.extend_from_slice(b" ")
}

fn push_value(shown: &mut Vec<u8>, before: &[u8], value: &Option<Expr>) -> Result<(), AllocError> {
    match value {
        None => Ok(()),
        Some(value) => push_behind(shown, before, value),
    }
}

fn push_behind(shown: &mut Vec<u8>, before: &[u8], expr: &Expr) -> Result<(), AllocError> {
    shown.extend_from_slice(before)?;
    push_expr(shown, expr)
}

fn push_declaration(
    shown: &mut Vec<u8>,
    ty: &TyTree,
    names: &[Declared],
) -> Result<(), AllocError> {
    push_ty(shown, ty)?;
    for declared in names {
        shown.extend_from_slice(declared.name.as_bytes())?;
        push_value(shown, b"=", &declared.value)?;
        shown.extend_from_slice(b",")?;
    }
    Ok(())
}

fn push_assignment(shown: &mut Vec<u8>, target: &Expr, value: &Expr) -> Result<(), AllocError> {
    push_expr(shown, target)?;
    push_behind(shown, b"=", value)
}

fn push_step(
    shown: &mut Vec<u8>,
    kind: StepKind,
    target: &Expr,
    by: &Option<Expr>,
) -> Result<(), AllocError> {
    match kind {
        StepKind::PreInc => push_behind(shown, b"++", target),
        StepKind::PreDec => push_behind(shown, b"--", target),
        StepKind::PostInc => {
            push_expr(shown, target)?;
            shown.extend_from_slice(b"++")
        }
        StepKind::PostDec => {
            push_expr(shown, target)?;
            shown.extend_from_slice(b"--")
        }
        StepKind::Add => {
            push_expr(shown, target)?;
            push_value(shown, b"+=", by)
        }
        StepKind::Sub => {
            push_expr(shown, target)?;
            push_value(shown, b"-=", by)
        }
    }
}

// A statement that holds no statement.
fn push_simple(shown: &mut Vec<u8>, form: &Form) -> Result<(), AllocError> {
    match form {
        Form::Empty => shown.extend_from_slice(b";"),
        Form::Declare { ty, names } => push_declaration(shown, ty, names.as_slice()),
        Form::Assign { target, value } => push_assignment(shown, target, value),
        Form::Call(call) => push_expr(shown, call),
        Form::Step { kind, target, by } => push_step(shown, *kind, target, by),
        Form::Return(value) => {
            shown.extend_from_slice(b"return ")?;
            push_value(shown, b"", value)
        }
        Form::Assert(expr) => push_behind(shown, b"assert ", expr),
        Form::Assume(expr) => push_behind(shown, b"assume ", expr),
        Form::Minimize(expr) => push_behind(shown, b"minimize ", expr),
        _ => Ok(()),
    }
}

#[cycle(shown_stmt)]
fn push_stmt(shown: &mut Vec<u8>, stmt: &Stmt) -> Result<(), AllocError> {
    match &stmt.form {
        Form::Block(stmts) => push_block(shown, b"", stmts.as_slice()),
        Form::Reorder(stmts) => push_block(shown, b"reorder", stmts.as_slice()),
        Form::If { cond, then, other } => {
            push_behind(shown, b"if(", cond)?;
            push_part(shown, b"|", then.get())?;
            push_other(shown, other)
        }
        Form::While { cond, body } => {
            push_behind(shown, b"while(", cond)?;
            push_last(shown, body.get())
        }
        Form::For {
            first,
            cond,
            next,
            body,
        } => {
            push_part(shown, b"for(", first.get())?;
            push_behind(shown, b"|", cond)?;
            push_part(shown, b"|", next.get())?;
            push_last(shown, body.get())
        }
        Form::Repeat { count, body } => {
            push_behind(shown, b"repeat(", count)?;
            push_last(shown, body.get())
        }
        Form::MinRepeat(body) => {
            shown.extend_from_slice(b"minrepeat(")?;
            push_last(shown, body.get())
        }
        form => push_simple(shown, form),
    }
}

#[cycle(shown_stmt)]
fn push_part(shown: &mut Vec<u8>, before: &[u8], stmt: &Stmt) -> Result<(), AllocError> {
    shown.extend_from_slice(before)?;
    push_stmt(shown, stmt)
}

// The last part of a statement in brackets.
#[cycle(shown_stmt)]
fn push_last(shown: &mut Vec<u8>, stmt: &Stmt) -> Result<(), AllocError> {
    push_part(shown, b"|", stmt)?;
    shown.extend_from_slice(b")")
}

// What stands behind an `else`, and the end of the brackets.
#[cycle(shown_stmt)]
fn push_other(shown: &mut Vec<u8>, other: &Option<Boxed<Stmt>>) -> Result<(), AllocError> {
    match other {
        None => shown.extend_from_slice(b")"),
        Some(stmt) => push_last(shown, stmt.get()),
    }
}

#[cycle(shown_stmt)]
pub fn push_block(shown: &mut Vec<u8>, before: &[u8], stmts: &[Stmt]) -> Result<(), AllocError> {
    shown.extend_from_slice(before)?;
    shown.extend_from_slice(b"{")?;
    for stmt in stmts {
        push_stmt(shown, stmt)?;
        shown.extend_from_slice(b" ")?;
    }
    shown.extend_from_slice(b"}")
}
