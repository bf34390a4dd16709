//! Values of a program as shapes over nodes, and what they are seen as in an environment.

use crate::node::{BoolId, WordId};
use sk_base::List;
use smallvec::SmallVec;

/// Where a reference may point to: each slot of the heap with the node that says whether it is
/// this one. No two of them hold at once, and a reference none of whose targets holds is null.
#[derive(Debug, Drop)]
pub struct Targets {
    pub slots: SmallVec<(u32, BoolId), 4>,
}

/// A value of a program, over nodes.
#[derive(Debug, Drop)]
pub enum Shape {
    Bit(BoolId),
    Int(WordId),
    Reference(Targets),
    Array(List<Shape>),
}

/// What a shape is in an environment.
#[derive(Debug, Drop)]
pub enum Seen {
    Bit(bool),
    Int(i64),
    /// The slot of the heap that a reference points to, or none where it is null.
    Slot(Option<u32>),
    Array(List<Seen>),
}
