//! Variables.

ghost use Rattle.std.specs.Prelude.{IfOk};
ghost use Rattle.sk_model.specs.Heap.{read};
ghost use Rattle.sk_sym_state.specs.Stands.{StateStands};
ghost use Rattle.sk_sym_state.specs.Meaning.{Evaluates};

use sk_dag::{Dag, Shape};
use sk_sym_state::{Setting, SymState};
use std::alloc::AllocError;

/// What a variable holds.
pub fn variable(
    setting: &Setting<'_>,
    dag: &Dag,
    state: &SymState,
    slot: u32,
) -> Result<Shape, AllocError>
    requires stands { StateStands dag.now setting.now.expanded.now.prog state.now }
    ensures evaluates { IfOk result (λ r. Evaluates setting.now dag.now dag.now state.now state.now r (λ e. read slot)) }
{
    let _graph = dag.int_bits();
    let r = state.read(setting.alloc, slot)?;
    Ok(r)
}
