//! Makes certificates of the sketches in the rows of files, changes them as the rows say, and has them checked; tells each row
//! that does not end as it says. The words of the line are files; of each it writes how many rows it has. Its status is not 0
//! where a row is wrong.
#![tactic(auto)]

mod draft;
mod edits;
mod ended;
mod judged;
mod places;
mod turns;

use crate::judged::Checks;
use row_files::judge_files;
use std::io;
use std::process::ExitCode;

fn main(rt: HostRuntime) -> io::Result<ExitCode> {
    judge_files(&rt, &Checks)
}
