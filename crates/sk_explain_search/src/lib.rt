//! What there is to tell people of a search while it goes on, and at its end: what was counted, how long its parts took, and the
//! lines that say so.
#![tactic(auto)]

mod clearing;
mod lines;
mod shown;
mod statistics;
#[cfg(test)]
mod tests;
mod times;
mod watcher;

pub use clearing::ClearingSink;
pub use lines::{better_line, push_counts, push_findings, push_times, shown_line};
pub use shown::{is_due, is_looked};
pub use statistics::{Formula, Statistics};
pub use times::Times;
pub use watcher::{Wanted, Watcher, clear};
