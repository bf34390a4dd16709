//! The state of a run over nodes.

use sk_base::List;
use sk_dag::{BoolId, CostId, Shape};
use sk_heap::SymHeap;
use sk_prog::StructId;

/// What a call has returned.
#[derive(Drop)]
pub struct Ended {
    /// Its result, where its function has one.
    pub result: Option<Shape>,
    /// The final values of its `ref` parameters, in order.
    pub refs: List<Shape>,
}

/// The variables of the active call, and what it has returned.
#[derive(Drop)]
pub struct Frame {
    /// The variables in scope.
    pub slots: List<Shape>,
    /// Whether it has returned.
    pub returned: BoolId,
    /// What it has returned, where it has; none before the first `return`.
    pub ended: Option<Ended>,
    /// Where it has returned, the slots of the heap from this one on are free.
    pub most: usize,
}

/// The state of a run over nodes. At most one of `path`, `failed`, `skipped` and the frame's `returned` holds.
#[derive(Drop)]
pub struct SymState {
    /// Whether the run is here, and goes on.
    pub path: BoolId,
    /// Whether it has failed.
    pub failed: BoolId,
    /// Whether it is skipped.
    pub skipped: BoolId,
    /// What it has cost so far.
    pub cost: CostId,
    /// The records that it has made.
    pub heap: SymHeap,
    /// The struct of each slot of the heap.
    pub structs: List<StructId>,
    /// Where the run is here, the slots of the heap from this one on are free.
    pub cursor: usize,
    /// The active call.
    pub frame: Frame,
}
