//! What a run begins with.

ghost use Rattle.std.specs.Prelude.{IfOk};
ghost use Rattle.sk_dag.specs.Graph.{Graph};
ghost use Rattle.sk_dag.specs.Eval.{Keeps};
ghost use Rattle.sk_arr.specs.Shapes.{AllStand};
ghost use Rattle.sk_arr.specs.Answers.{AreCopies};
ghost use Rattle.sk_prog.specs.declared.prog.Prog.{Prog};
ghost use Rattle.sk_sym.specs.Beginning.{IsBeginning, AreConstants};

use sk_arr::copy_shape;
use sk_base::List;
use sk_dag::{BoolId, CostId, Dag, Shape};
use sk_heap::SymHeap;
use sk_sym_folds::flag;
use sk_sym_state::{Frame, SymState};
use std::alloc::{AllocError, Global};

/// Nodes that are the same in each environment.
#[derive(Clone, Copy)]
pub struct Constants {
    pub on: BoolId,
    pub off: BoolId,
    pub free: CostId,
}

/// The nodes for true, for false and for a cost of 0.
pub(crate) fn make_constants(dag: &mut Dag) -> Result<Constants, AllocError>
    ensures keeps { Keeps dag.old dag.new }
    ensures are { IfOk result (λ r. AreConstants dag.new r) }
{
    let on = flag(dag, true)?;
    let off = flag(dag, false)?;
    let free = dag.cost_zero()?;
    Ok(Constants { on, off, free })
}

/// The state before a run: it goes on, and there is no variable, no record and no cost.
pub(crate) fn begin(alloc: Global, dag: &mut Dag) -> Result<SymState, AllocError>
    ensures keeps { Keeps dag.old dag.new }
    ensures begins { IfOk result (λ state. (prog : Prog) → IsBeginning dag.new prog state) }
{
    let constants = make_constants(dag)?;
    let frame = Frame {
        slots: List::new(alloc),
        returned: constants.off,
        ended: None,
        most: 0,
    };
    Ok(SymState {
        path: constants.on,
        failed: constants.off,
        skipped: constants.off,
        cost: constants.free,
        heap: SymHeap::new(alloc),
        structs: List::new(alloc),
        cursor: 0,
        frame,
    })
}

/// Shapes once more, over the same nodes.
pub(crate) fn copies(alloc: Global, list: &[Shape]) -> Result<List<Shape>, AllocError>
    ensures { IfOk result (λ made. (g : Graph) → AllStand g list.now → AreCopies g list.now made) }
{
    let mut made = List::new(alloc);
    for a in list {
        let one = copy_shape(alloc, a)?;
        made.push(one)?;
    }
    Ok(made)
}
