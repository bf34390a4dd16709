//! What every crate of the synthesiser stands on: lists, boxes, names, spans, bounds, budgets,
//! words, sources and sinks.
#![tactic(auto)]

mod bounds;
mod memory;
mod name;
mod number;
mod sink;
mod source;
mod span;
mod word;

pub use bounds::{Bounds, Budget};
pub use memory::{CalmSink, CalmSource, MemSink, MemSource};
pub use name::Name;
pub use number::{push_number, push_signed};
pub use sink::{Put, Sink};
pub use source::{Got, Source};
pub use span::Span;
pub use sqlite_items::{Boxed, Items as List, at};
pub use word::wrap;
