//! Conditions: a run fails or is skipped where one does not hold.

ghost use Rattle.std.specs.Prelude.{OnOk};
ghost use Rattle.sk_dag.specs.Eval.{Keeps};
ghost use Rattle.sk_sym_state.specs.Seen.{IsWorth};
ghost use Rattle.sk_arr.specs.Shapes.{Stands};
ghost use Rattle.sk_sym_state.specs.Stands.{StateStands};
ghost use Rattle.sk_sym_state.specs.Meaning.{ExecutesOn};
ghost use Rattle.sk_sym_steps.specs.Steps.{asserted, assumed};

use crate::failure::fail_now;
use sk_base::Span;
use sk_dag::{Dag, Shape};
use sk_sym_folds::not;
use sk_sym_state::{Setting, SymState};
use std::alloc::AllocError;

/// Fails where a condition does not hold, and wherever the run goes on where it is no bit. After a refusal the graph has all
/// nodes that it had (`keeps`); the state is given up with the walk that holds it.
pub fn assert_that(
    setting: &Setting<'_>,
    dag: &mut Dag,
    state: &mut SymState,
    span: Span,
    a: &Shape,
) -> Result<(), AllocError>
    requires stands { StateStands dag.old setting.now.expanded.now.prog state.old }
    requires a { Stands dag.old a.now }
    ensures keeps { Keeps dag.old dag.new }
    ensures executes { OnOk result (ExecutesOn setting.now dag.old dag.new state.old state.new (λ g e. IsWorth g e state.old.heap a.now) (λ e. asserted span)) }
{
    let Shape::Bit(cond) = a else {
        fail_now(setting, dag, state)?;
        return Ok(());
    };
    let fails = not(dag, *cond)?;
    state.fail_where(setting, dag, fails)?;
    Ok(())
}

/// Is skipped where a condition does not hold, and fails wherever the run goes on where it is no bit. After a refusal the graph
/// has all nodes that it had (`keeps`); the state is given up with the walk that holds it.
pub fn assume_that(
    setting: &Setting<'_>,
    dag: &mut Dag,
    state: &mut SymState,
    span: Span,
    a: &Shape,
) -> Result<(), AllocError>
    requires stands { StateStands dag.old setting.now.expanded.now.prog state.old }
    requires a { Stands dag.old a.now }
    ensures keeps { Keeps dag.old dag.new }
    ensures executes { OnOk result (ExecutesOn setting.now dag.old dag.new state.old state.new (λ g e. IsWorth g e state.old.heap a.now) (λ e. assumed span)) }
{
    let Shape::Bit(cond) = a else {
        fail_now(setting, dag, state)?;
        return Ok(());
    };
    let skips = not(dag, *cond)?;
    state.skip_where(setting, dag, skips)?;
    Ok(())
}
