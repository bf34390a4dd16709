//! Runs texts through stages of the synthesiser that no command shows, and compares what each stage writes with what
//! rows of files want: `rows_stages FILE ..`. It says how many rows each file has, and of each row that fails the text or the
//! title, what was wanted and what came. It ends with status 1 where a row fails.
#![tactic(auto)]

mod expansion;
mod fault;
mod front;
mod reading;
mod shown_expr;
mod shown_item;
mod shown_stmt;
mod spelled;
mod task;
mod typing;
mod written;

use crate::written::written;
use row_files::{Ended, Judge, Lines, Row, joined, judge_files, judge_row};
use std::alloc::{AllocError, Global};
use std::io;
use std::process::ExitCode;

// Rows say what stages write of texts.
struct Stages;

impl Judge for Stages {
    fn judge(&self, alloc: Global, row: &Row<'_>) -> Result<Option<Vec<u8>>, AllocError> {
        judge_row(alloc, self, row)
    }
}

impl Lines for Stages {
    fn end(
        &self,
        alloc: Global,
        words: &[u8],
        settings: &[u8],
        text: Vec<u8>,
    ) -> Result<Option<Ended>, AllocError> {
        if !settings.is_empty() {
            return Ok(None);
        }
        let head = Vec::new(alloc);
        let body = written(alloc, words, text.as_slice())?;
        Ok(Some(Ended { head, body }))
    }

    // A row in one line wants a line.
    fn wanted(&self, alloc: Global, wanted: &[u8], _place: &[u8]) -> Result<Ended, AllocError> {
        let head = Vec::new(alloc);
        let body = joined(alloc, &[wanted, b"\n"])?;
        Ok(Ended { head, body })
    }
}

fn main(rt: HostRuntime) -> io::Result<ExitCode> {
    judge_files(&rt, &Stages)
}
