//! How many sites the parts of a program have, and where those of its functions begin.
#![tactic(auto)]

mod passing;
mod starts;

pub use passing::{pass_expr, pass_exprs, pass_stmt, pass_stmts};
pub use starts::start_of;
