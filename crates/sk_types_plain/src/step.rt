//! Steps, as the values that they assign.
ghost use Rattle.std.specs.Prelude.{◌≡◌, IfOk};
ghost use Rattle.sk_types_rules.specs.Plain.{step_mark, step_by, stepped};

use crate::expr::copy_expr;
use sk_base::{Boxed, Span};
use sk_tree::{EForm, Expr, Mark, StepKind};
use std::alloc::{AllocError, Global};

fn step_mark(kind: StepKind) -> Mark
    ensures { result ≡ step_mark kind }
{
    match kind {
        StepKind::PostInc | StepKind::PreInc | StepKind::Add => Mark::Plus,
        StepKind::PostDec | StepKind::PreDec | StepKind::Sub => Mark::Minus,
    }
}

/// By how much a step changes its target.
fn step_by(alloc: Global, span: Span, by: &Option<Expr>) -> Result<Expr, AllocError>
    ensures { IfOk result (λ e. e ≡ step_by span by.now) }
{
    match by {
        None => Ok(Expr {
            span,
            form: EForm::Number(1),
        }),
        Some(e) => {
            let e = copy_expr(alloc, e)?;
            let e = Boxed::new(alloc, e)?;
            Ok(Expr {
                span,
                form: EForm::Paren(e),
            })
        }
    }
}

/// The value that a step gives to its target.
pub fn stepped(
    alloc: Global,
    kind: StepKind,
    span: Span,
    target: &Expr,
    by: &Option<Expr>,
) -> Result<Expr, AllocError>
    ensures { IfOk result (λ e. e ≡ stepped kind span target.now by.now) }
{
    let left = copy_expr(alloc, target)?;
    let left = Boxed::new(alloc, left)?;
    let right = step_by(alloc, span, by)?;
    let right = Boxed::new(alloc, right)?;
    let op = step_mark(kind);
    Ok(Expr {
        span,
        form: EForm::Binary { op, left, right },
    })
}
