//! Expressions without parts.

ghost use Rattle.std.specs.Prelude.{◌≡◌, true, IfOk};
ghost use Rattle.sk_model.specs.Sites.{is_hole as has_site};
ghost use Rattle.sk_dag.specs.Eval.{Keeps};
ghost use Rattle.sk_sym_state.specs.Stands.{StateStands};
ghost use Rattle.sk_sym_walk.specs.Walk.{eval_part};
ghost use Rattle.sk_sym_walk.specs.Parts.{is_leaf, IsEvaluated};

use crate::activation::Activation;
use sk_base::Span;
use sk_dag::{Dag, Shape};
use sk_prog::{PEForm, PExpr};
use sk_sym_forms::leaves::variable;
use sk_sym_forms::{constant, hole_here, nothing, number, truth};
use sk_sym_sites::pass_expr;
use sk_sym_state::SymState;
use std::alloc::AllocError;

/// The value of an expression without parts and without a site, at its place.
pub(crate) fn leaf(
    active: &Activation<'_>,
    dag: &mut Dag,
    state: &SymState,
    at: usize,
    span: Span,
    e: &PExpr,
) -> Result<Shape, AllocError>
    requires stands { StateStands dag.old active.now.setting.expanded.now.prog state.now }
    requires leaf { is_leaf e.now.form ≡ true }
    ensures keeps { Keeps dag.old dag.new }
    ensures evaluated { IfOk result (λ r. IsEvaluated active.now dag.old dag.new state.now state.now at at (eval_part active.now span e.now) r) }
{
    let setting = &active.setting;
    let _place = (at, span);
    match &e.form {
        PEForm::Number(n) => number(setting, dag, state, active.bounds.int_bits, e.ty, *n),
        PEForm::True => truth(setting, dag, state, true),
        PEForm::False => truth(setting, dag, state, false),
        PEForm::Null => Ok(nothing(setting, dag, state)),
        PEForm::Var { slot, name: _ } => variable(setting, dag, state, *slot),
        PEForm::Const(id) => constant(setting, dag, state, *id),
        _ => unreachable!(),
    }
}

/// The value of a hole.
pub(crate) fn hole(
    active: &Activation<'_>,
    dag: &mut Dag,
    state: &SymState,
    at: &mut usize,
    span: Span,
    e: &PExpr,
) -> Result<Shape, AllocError>
    requires stands { StateStands dag.old active.now.setting.expanded.now.prog state.now }
    requires hole { has_site e.now.form ≡ true }
    ensures keeps { Keeps dag.old dag.new }
    ensures evaluated { IfOk result (λ r. IsEvaluated active.now dag.old dag.new state.now state.now at.old at.new (eval_part active.now span e.now) r) }
{
    let PEForm::Hole(_) = &e.form else {
        unreachable!()
    };
    let _span = span;
    let r = hole_here(
        &active.setting,
        dag,
        state,
        active.bounds.int_bits,
        e.ty,
        *at,
    )?;
    pass_expr(at, e)?;
    Ok(r)
}
