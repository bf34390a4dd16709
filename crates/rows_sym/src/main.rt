//! Runs functions of sketches over the nodes of a graph, and compares what the outcome says with how the filled program
//! runs: `rows_sym FILE ..`. It says how many rows each file has, and tells each row that fails. It ends with status 1
//! where a row fails.
//!
//! The first word of a row is the function, a second how many bits an `int` has (16 where there is none), and the
//! text is a sketch. Each line of the answer has the values of the sites, `:` and the values of the arguments; behind ` => `
//! may stand how the run ends. In place of the values of the arguments may stand how many clauses at most a formula has, what searches
//! find, or which nodes the run makes.
#![tactic(auto)]

mod ending;
mod formulas;
mod input;
mod nodes;
mod rows;
mod runs;
mod sessions;
mod sketch;

use crate::rows::Runs;
use row_files::judge_files;
use std::io;
use std::process::ExitCode;

fn main(rt: HostRuntime) -> io::Result<ExitCode> {
    judge_files(&rt, &Runs)
}
