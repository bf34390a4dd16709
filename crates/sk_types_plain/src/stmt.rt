//! The plain form of statements, in which fewer forms say the same.
ghost use Rattle.std.specs.Prelude.{◌≡◌, map, option_map, IfOk};
ghost use Rattle.sk_tree.specs.declared.stmt.Form.TheVariants as form;
ghost use Rattle.sk_types_rules.specs.Plain.{any_body, all_made, plainly, plain_stmts};
ghost use Rattle.sk_types_plain.specs.Plainer.{seen, form_plainly};

use crate::single::{
    Rewritten, asserted, assigned, assumed, beside, block, called, conditional, declared_row,
    into_body, into_stmts, looped, minimized, one, repeated, returned, step, while_loop,
};
use sk_base::{Boxed, List, Span};
use sk_tree::{Expr, Form, Stmt};
use std::alloc::{AllocError, Global};

#[cycle(plain)]
fn plain_body(alloc: Global, stmt: &Stmt) -> Result<Boxed<Stmt>, AllocError>
    ensures { IfOk result (λ body. body ≡ (plainly stmt.now).body) }
{
    let plain = plainly(alloc, stmt)?;
    let body = Boxed::new(alloc, into_body(plain))?;
    Ok(body)
}

/// The statements that a statement becomes among others.
#[cycle(plain)]
fn made(alloc: Global, stmt: &Stmt) -> Result<List<Stmt>, AllocError>
    ensures { IfOk result (λ stmts. stmts ≡ (plainly stmt.now).made) }
{
    let plain = plainly(alloc, stmt)?;
    into_stmts(alloc, plain)
}

#[cycle(plain)]
fn any_body(alloc: Global, stmt: &Option<Boxed<Stmt>>) -> Result<Option<Boxed<Stmt>>, AllocError>
    ensures { IfOk result (λ body. body ≡ any_body (option_map plainly stmt.now)) }
{
    match stmt {
        None => Ok(None),
        Some(stmt) => {
            let body = plain_body(alloc, stmt.get())?;
            Ok(Some(body))
        }
    }
}

#[cycle(plain)]
fn all_made(alloc: Global, stmts: &[Stmt]) -> Result<List<Stmt>, AllocError>
    ensures { IfOk result (λ made. made ≡ all_made (map plainly stmts.now)) }
{
    let mut rows = List::new(alloc);
    for stmt in stmts {
        let more = made(alloc, stmt)?;
        rows.append(more)?;
    }
    Ok(rows)
}

#[cycle(plain)]
fn plainly(alloc: Global, stmt: &Stmt) -> Result<Rewritten, AllocError>
    ensures { IfOk result (λ p. seen p ≡ plainly stmt.now) }
{
    form_plain(alloc, stmt.span, &stmt.form)
}

/// A block of its own.
#[cycle(plain)]
fn plain_block(alloc: Global, span: Span, stmts: &[Stmt]) -> Result<Rewritten, AllocError>
    ensures { IfOk result (λ p. seen p ≡ form_plainly (form.Block stmts.now) span) }
{
    let stmts = all_made(alloc, stmts)?;
    Ok(Rewritten::Block(block(span, stmts)))
}

#[cycle(plain)]
fn plain_reorder(alloc: Global, span: Span, stmts: &[Stmt]) -> Result<Rewritten, AllocError>
    ensures { IfOk result (λ p. seen p ≡ form_plainly (form.Reorder stmts.now) span) }
{
    let stmts = all_made(alloc, stmts)?;
    one(alloc, span, Form::Reorder(stmts))
}

#[cycle(plain)]
fn plain_while(alloc: Global, span: Span, body: &Stmt, cond: &Expr) -> Result<Rewritten, AllocError>
    ensures { IfOk result (λ p. seen p ≡ form_plainly (form.While cond.now body.now) span) }
{
    let body = plain_body(alloc, body)?;
    while_loop(alloc, span, cond, body)
}

#[cycle(plain)]
fn plain_repeat(
    alloc: Global,
    span: Span,
    body: &Stmt,
    count: &Expr,
) -> Result<Rewritten, AllocError>
    ensures { IfOk result (λ p. seen p ≡ form_plainly (form.Repeat count.now body.now) span) }
{
    let body = plain_body(alloc, body)?;
    repeated(alloc, span, count, body)
}

#[cycle(plain)]
fn plain_minrepeat(alloc: Global, span: Span, body: &Stmt) -> Result<Rewritten, AllocError>
    ensures { IfOk result (λ p. seen p ≡ form_plainly (form.MinRepeat body.now) span) }
{
    let body = plain_body(alloc, body)?;
    one(alloc, span, Form::MinRepeat(body))
}

#[cycle(plain)]
fn form_plain(alloc: Global, span: Span, form: &Form) -> Result<Rewritten, AllocError>
    ensures { IfOk result (λ p. seen p ≡ form_plainly form.now span) }
{
    match form {
        Form::Block(stmts) => plain_block(alloc, span, stmts.as_slice()),
        Form::Empty => Ok(Rewritten::Row {
            span,
            stmts: List::new(alloc),
        }),
        Form::Declare { ty, names } => declared_row(alloc, span, ty, names.as_slice()),
        Form::Assign { target, value } => assigned(alloc, span, target, value),
        Form::Call(e) => called(alloc, span, e),
        Form::Step { kind, target, by } => step(alloc, span, *kind, target, by),
        Form::If { cond, then, other } => {
            let then = plain_body(alloc, then.get())?;
            let other = any_body(alloc, other)?;
            conditional(alloc, span, cond, then, other)
        }
        Form::While { cond, body } => plain_while(alloc, span, body.get(), cond),
        Form::For {
            first,
            cond,
            next,
            body,
        } => {
            let first = made(alloc, first.get())?;
            let rows = beside(first, made(alloc, next.get()))?;
            let ((first, next), body) = beside(rows, plainly(alloc, body.get()))?;
            looped(alloc, span, first, cond, next, into_body(body))
        }
        Form::Return(e) => returned(alloc, span, e),
        Form::Assert(e) => asserted(alloc, span, e),
        Form::Assume(e) => assumed(alloc, span, e),
        Form::Minimize(e) => minimized(alloc, span, e),
        Form::Repeat { count, body } => plain_repeat(alloc, span, body.get(), count),
        Form::MinRepeat(body) => plain_minrepeat(alloc, span, body.get()),
        Form::Reorder(stmts) => plain_reorder(alloc, span, stmts.as_slice()),
    }
}

/// The plain form of statements that follow each other.
#[tactic(auto, using(crate::proofs::PlainLaws::all_plain))]
pub fn plain_stmts(alloc: Global, stmts: &[Stmt]) -> Result<List<Stmt>, AllocError>
    ensures { IfOk result (λ made. made ≡ plain_stmts stmts.now) }
{
    all_made(alloc, stmts)
}
