//! Statements that hold no statements, and how those that do are put together.
ghost use Rattle.std.specs.Prelude.{◌≡◌, ◌++◌, [], ◌∷◌, IfOk, MatchResult, Ok, Err};
ghost use Rattle.sk_tree.specs.declared.stmt.Form.TheVariants as form;
ghost use Rattle.sk_types_rules.specs.Plain.{stepped, stmt_at, a_block, in_block, one, declared_alone};
ghost use Rattle.sk_types_plain.specs.Plainer.{seen};

use crate::copy::{copy_any, copy_declared, copy_ty};
use crate::expr::copy_expr;
use crate::step::stepped;
use sk_base::{Boxed, List, Span};
use sk_tree::{Declared, Expr, Form, StepKind, Stmt, TyTree};
use std::alloc::{AllocError, Global};

/// A held value beside one just made, or the error of its making. What is held is dropped here alone, so that the caller's
/// proof has no drop of a tree at the exit.
pub fn beside<A: Drop, B, E>(held: A, made: Result<B, E>) -> Result<(A, B), E>
    ensures { MatchResult made (λ b. result ≡ Ok (held, b)) (λ e. result ≡ Err e) }
{
    match made {
        Ok(b) => Ok((held, b)),
        Err(e) => Err(e),
    }
}

/// One more statement.
fn add(stmts: &mut List<Stmt>, stmt: Stmt) -> Result<(), AllocError>
    ensures { IfOk result (λ done. stmts.new ≡ stmts.old ++ stmt ∷ []) }
{
    stmts.push(stmt)?;
    Ok(())
}

/// What a statement becomes.
#[derive(Drop)]
pub enum Rewritten {
    /// A block.
    Block(Stmt),
    /// None, one or several statements. Where they are a body, a block with this span holds them.
    Row { span: Span, stmts: List<Stmt> },
}

/// A block.
pub fn block(span: Span, stmts: List<Stmt>) -> Stmt
    ensures { result ≡ stmt_at span (form.Block stmts) }
{
    Stmt {
        span,
        form: Form::Block(stmts),
    }
}

/// What a statement becomes among others.
pub fn into_stmts(alloc: Global, plain: Rewritten) -> Result<List<Stmt>, AllocError>
    ensures { IfOk result (λ stmts. stmts ≡ (seen plain).made) }
{
    match plain {
        Rewritten::Block(stmt) => {
            let mut stmts = List::new(alloc);
            add(&mut stmts, stmt)?;
            Ok(stmts)
        }
        Rewritten::Row { span: _, stmts } => Ok(stmts),
    }
}

/// What a statement becomes as a body.
pub fn into_body(plain: Rewritten) -> Stmt
    ensures { result ≡ (seen plain).body }
{
    match plain {
        Rewritten::Block(stmt) => stmt,
        Rewritten::Row { span, stmts } => block(span, stmts),
    }
}

/// One statement.
pub fn one(alloc: Global, span: Span, form: Form) -> Result<Rewritten, AllocError>
    ensures { IfOk result (λ p. seen p ≡ one span form) }
{
    let mut stmts = List::new(alloc);
    add(&mut stmts, Stmt { span, form })?;
    Ok(Rewritten::Row { span, stmts })
}

/// A declaration of one name.
fn declared_one(
    alloc: Global,
    span: Span,
    ty: &TyTree,
    declared: &Declared,
) -> Result<Stmt, AllocError>
    ensures { IfOk result (λ stmt. stmt ≡ stmt_at span (form.Declare ty.now (declared.now ∷ []))) }
{
    let ty = copy_ty(alloc, ty)?;
    let declared = copy_declared(alloc, declared)?;
    let mut names = List::new(alloc);
    names.push(declared)?;
    Ok(Stmt {
        span,
        form: Form::Declare { ty, names },
    })
}

fn declared_alone(
    alloc: Global,
    span: Span,
    ty: &TyTree,
    names: &[Declared],
) -> Result<List<Stmt>, AllocError>
    ensures { IfOk result (λ stmts. stmts ≡ declared_alone span (λ d. form.Declare ty.now (d ∷ [])) names.now) }
{
    let mut stmts = List::new(alloc);
    for declared in names {
        let stmt = declared_one(alloc, span, ty, declared)?;
        add(&mut stmts, stmt)?;
    }
    Ok(stmts)
}

/// A declaration, as declarations of one name each.
pub fn declared_row(
    alloc: Global,
    span: Span,
    ty: &TyTree,
    names: &[Declared],
) -> Result<Rewritten, AllocError>
    ensures { IfOk result (λ p. seen p ≡ in_block span (declared_alone span (λ d. form.Declare ty.now (d ∷ [])) names.now)) }
{
    let stmts = declared_alone(alloc, span, ty, names)?;
    Ok(Rewritten::Row { span, stmts })
}

/// One turn of a loop: its body, and its next statement behind it.
fn turn(alloc: Global, span: Span, body: Stmt, next: List<Stmt>) -> Result<Boxed<Stmt>, AllocError>
    ensures { IfOk result (λ stmt. stmt ≡ stmt_at span (form.Block (body ∷ next))) }
{
    let mut stmts = List::new(alloc);
    add(&mut stmts, body)?;
    stmts.append(next)?;
    let turn = Boxed::new(alloc, block(span, stmts))?;
    Ok(turn)
}

/// A loop with its first statement before it, and its next one behind its body.
pub fn looped(
    alloc: Global,
    span: Span,
    first: List<Stmt>,
    cond: &Expr,
    next: List<Stmt>,
    body: Stmt,
) -> Result<Rewritten, AllocError>
    ensures { IfOk result (λ p. seen p ≡ a_block span (first ++ stmt_at span (form.While cond.now (stmt_at span (form.Block (body ∷ next)))) ∷ [])) }
{
    let body = turn(alloc, span, body, next)?;
    let cond = copy_expr(alloc, cond)?;
    let mut stmts = first;
    add(
        &mut stmts,
        Stmt {
            span,
            form: Form::While { cond, body },
        },
    )?;
    Ok(Rewritten::Block(block(span, stmts)))
}

/// An assignment.
pub fn assigned(
    alloc: Global,
    span: Span,
    target: &Expr,
    value: &Expr,
) -> Result<Rewritten, AllocError>
    ensures { IfOk result (λ p. seen p ≡ one span (form.Assign target.now value.now)) }
{
    let target = copy_expr(alloc, target)?;
    let (target, value) = beside(target, copy_expr(alloc, value))?;
    one(alloc, span, Form::Assign { target, value })
}

/// A step, as the assignment that it stands for.
pub fn step(
    alloc: Global,
    span: Span,
    kind: StepKind,
    target: &Expr,
    by: &Option<Expr>,
) -> Result<Rewritten, AllocError>
    ensures { IfOk result (λ p. seen p ≡ one span (form.Assign target.now (stepped kind span target.now by.now))) }
{
    let value = stepped(alloc, kind, span, target, by)?;
    let (value, target) = beside(value, copy_expr(alloc, target))?;
    one(alloc, span, Form::Assign { target, value })
}

/// A call.
pub fn called(alloc: Global, span: Span, e: &Expr) -> Result<Rewritten, AllocError>
    ensures { IfOk result (λ p. seen p ≡ one span (form.Call e.now)) }
{
    let e = copy_expr(alloc, e)?;
    one(alloc, span, Form::Call(e))
}

/// A `return`.
pub fn returned(alloc: Global, span: Span, e: &Option<Expr>) -> Result<Rewritten, AllocError>
    ensures { IfOk result (λ p. seen p ≡ one span (form.Return e.now)) }
{
    let e = copy_any(alloc, e)?;
    one(alloc, span, Form::Return(e))
}

/// An `assert`.
pub fn asserted(alloc: Global, span: Span, e: &Expr) -> Result<Rewritten, AllocError>
    ensures { IfOk result (λ p. seen p ≡ one span (form.Assert e.now)) }
{
    let e = copy_expr(alloc, e)?;
    one(alloc, span, Form::Assert(e))
}

/// An `assume`.
pub fn assumed(alloc: Global, span: Span, e: &Expr) -> Result<Rewritten, AllocError>
    ensures { IfOk result (λ p. seen p ≡ one span (form.Assume e.now)) }
{
    let e = copy_expr(alloc, e)?;
    one(alloc, span, Form::Assume(e))
}

/// A `minimize`.
pub fn minimized(alloc: Global, span: Span, e: &Expr) -> Result<Rewritten, AllocError>
    ensures { IfOk result (λ p. seen p ≡ one span (form.Minimize e.now)) }
{
    let e = copy_expr(alloc, e)?;
    one(alloc, span, Form::Minimize(e))
}

/// A condition with its bodies.
pub fn conditional(
    alloc: Global,
    span: Span,
    cond: &Expr,
    then: Boxed<Stmt>,
    other: Option<Boxed<Stmt>>,
) -> Result<Rewritten, AllocError>
    ensures { IfOk result (λ p. seen p ≡ one span (form.If cond.now then other)) }
{
    let cond = copy_expr(alloc, cond)?;
    one(alloc, span, Form::If { cond, then, other })
}

/// A loop with its body.
pub fn while_loop(
    alloc: Global,
    span: Span,
    cond: &Expr,
    body: Boxed<Stmt>,
) -> Result<Rewritten, AllocError>
    ensures { IfOk result (λ p. seen p ≡ one span (form.While cond.now body)) }
{
    let cond = copy_expr(alloc, cond)?;
    one(alloc, span, Form::While { cond, body })
}

/// A repeat with its body.
pub fn repeated(
    alloc: Global,
    span: Span,
    count: &Expr,
    body: Boxed<Stmt>,
) -> Result<Rewritten, AllocError>
    ensures { IfOk result (λ p. seen p ≡ one span (form.Repeat count.now body)) }
{
    let count = copy_expr(alloc, count)?;
    one(alloc, span, Form::Repeat { count, body })
}
