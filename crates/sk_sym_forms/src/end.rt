//! Statements without an expression, and failures.

ghost use Rattle.std.specs.Prelude.{OnOk, None};
ghost use Rattle.sk_dag.specs.Eval.{Keeps};
ghost use Rattle.sk_model.specs.Step.{pure, fail};
ghost use Rattle.sk_model.specs.Exec.{Returns, declare};
ghost use Rattle.sk_sym_state.specs.Stands.{StateStands};
ghost use Rattle.sk_sym_state.specs.Meaning.{Executes};

use sk_base::Span;
use sk_dag::Dag;
use sk_prog::Ty;
use sk_sym_frames::give;
use sk_sym_literals::zero_of;
use sk_sym_state::{Setting, SymState};
use sk_sym_steps::fail_now;
use std::alloc::AllocError;

/// Returns without a value. After a refusal the graph has all nodes that it had (`keeps`); the state is given up with the walk
/// that holds it.
pub fn give_nothing(
    setting: &Setting<'_>,
    dag: &mut Dag,
    state: &mut SymState,
) -> Result<(), AllocError>
    requires stands { StateStands dag.old setting.now.expanded.now.prog state.old }
    ensures keeps { Keeps dag.old dag.new }
    ensures executes { OnOk result (Executes setting.now dag.old dag.new state.old state.new (λ e. pure (Returns None))) }
{
    give(setting, dag, state, None)?;
    Ok(())
}

/// Brings a variable of a type into scope that is 0. After a refusal the graph has all nodes that it had (`keeps`); the state
/// is given up with the walk that holds it.
pub fn declare_zero(
    setting: &Setting<'_>,
    dag: &mut Dag,
    state: &mut SymState,
    span: Span,
    slot: u32,
    ty: Ty,
) -> Result<(), AllocError>
    requires stands { StateStands dag.old setting.now.expanded.now.prog state.old }
    ensures keeps { Keeps dag.old dag.new }
    ensures executes { OnOk result (Executes setting.now dag.old dag.new state.old state.new (λ e. declare span slot ty None)) }
{
    let zero = zero_of(setting.alloc, dag, ty)?;
    state.declare(slot, zero)?;
    Ok(())
}

/// Fails wherever the run goes on. After a refusal the graph has all nodes that it had (`keeps`); the state is given up with
/// the walk that holds it.
pub fn fail_here(
    setting: &Setting<'_>,
    dag: &mut Dag,
    state: &mut SymState,
    span: Span,
) -> Result<(), AllocError>
    requires stands { StateStands dag.old setting.now.expanded.now.prog state.old }
    ensures keeps { Keeps dag.old dag.new }
    ensures executes { OnOk result (Executes setting.now dag.old dag.new state.old state.new (λ e. fail span)) }
{
    fail_now(setting, dag, state)?;
    Ok(())
}
