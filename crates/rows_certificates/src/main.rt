//! Reads certificates: the texts in the rows of files, and tells each row whose text is not read as the row says. The
//! words of the line are files; of each it writes how many rows it has. Its status is not 0 where a row is wrong.
//!
//! The words of a row say which texts are read: `whole`, the text itself; `cut`, each front of it; and for each line of
//! it the text with that line left out (`without`), with it there twice (`twice`), with a carriage return or a blank at
//! its end (`return`, `blank`), or with a zero or a number of 20 digits before its first digit (`zero`, `large`). Wanted
//! are the ends of these texts in order, with the number of texts in a row that end alike before each.
#![tactic(auto)]

mod ends;
mod rows;
mod ways;

use crate::rows::Certificates;
use row_files::judge_files;
use std::io;
use std::process::ExitCode;

fn main(rt: HostRuntime) -> io::Result<ExitCode> {
    judge_files(&rt, &Certificates)
}
