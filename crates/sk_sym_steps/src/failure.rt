//! Where a run goes on with nothing.

ghost use Rattle.std.specs.Prelude.{IfOk, OnOk};
ghost use Rattle.sk_dag.specs.Graph.{HasBool};
ghost use Rattle.sk_dag.specs.Eval.{Keeps};
ghost use Rattle.sk_sym_state.specs.Stands.{StateStands};
ghost use Rattle.sk_sym_steps.specs.Steps.{FailsHere};

use sk_dag::{BoolId, Dag};
use sk_sym_folds::flag;
use sk_sym_state::{Setting, SymState};
use std::alloc::AllocError;

/// Fails wherever the run goes on, as where a value is of a form that no typed program has there. The answer is a node that
/// always holds. After a refusal the graph has all nodes that it had (`keeps`); the state is given up with the walk that
/// holds it.
pub fn fail_now(
    setting: &Setting<'_>,
    dag: &mut Dag,
    state: &mut SymState,
) -> Result<BoolId, AllocError>
    requires stands { StateStands dag.old setting.now.expanded.now.prog state.old }
    ensures keeps { Keeps dag.old dag.new }
    ensures there { IfOk result (λ always. HasBool dag.new.nodes always) }
    ensures fails { OnOk result (FailsHere setting.now dag.old dag.new state.old state.new) }
{
    let always = flag(dag, true)?;
    state.fail_where(setting, dag, always)?;
    Ok(always)
}
