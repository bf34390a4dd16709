//! Runs the program's one call, `run`, on the rows of files in memory, and tells each row that does not end as it says, or of
//! which people are told otherwise. The words of the line are files; of each it writes how many rows it has. Its status is not
//! 0 where a row is wrong.
#![tactic(auto)]

mod counting;
mod ended;
mod fakes;
mod fates;
mod halting;
mod judged;
mod settings;

use crate::judged::Cases;
use row_files::judge_files;
use std::io;
use std::process::ExitCode;

fn main(rt: HostRuntime) -> io::Result<ExitCode> {
    judge_files(&rt, &Cases)
}
