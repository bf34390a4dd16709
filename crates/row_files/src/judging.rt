//! Goes through the rows of files.
use crate::rows::{Row, read_rows};
use std::alloc::{AllocError, Global};
use std::env::Env;
use std::fs::Files;
use std::io::{self, Print, Write};
use std::process::ExitCode;
use std::{env, fs};

/// What judges rows.
pub trait Judge {
    /// What is to be told of a row that is wrong.
    fn judge(&self, alloc: Global, row: &Row<'_>) -> Result<Option<Vec<u8>>, AllocError>;
}

/// Goes through the rows of the files that the words of the program's line name. Of each file it writes what is told of the
/// rows that are wrong, and then how many rows it has. The status is 0 where no row is wrong.
pub fn judge_files<R: Env + Files + Print + AllocGlobal, J: Judge>(
    rt: &R,
    judge: &J,
) -> io::Result<ExitCode> {
    let mut wrong = 0usize;
    for path in env::args(rt)?.skip(1) {
        wrong = wrong.saturating_add(judge_file(rt, judge, path.as_str())?);
    }
    if wrong == 0 {
        Ok(ExitCode::SUCCESS)
    } else {
        Ok(ExitCode::FAILURE)
    }
}

// The same of one file. Answered is how many rows are wrong.
fn judge_file<R: Files + Print + AllocGlobal, J: Judge>(
    rt: &R,
    judge: &J,
    path: &str,
) -> io::Result<usize> {
    let file = fs::read(rt, path)?;
    let rows = read_rows(rt.alloc(), file.as_slice())?;
    let wrong = judge_rows(rt, judge, rows.as_slice())?;
    let count = rows.len();
    println!(rt; "{path}: {count} rows")?;
    Ok(wrong)
}

// The same of rows.
fn judge_rows<R: Print + AllocGlobal, J: Judge>(
    rt: &R,
    judge: &J,
    rows: &[Row<'_>],
) -> io::Result<usize> {
    let mut wrong = 0usize;
    for row in rows {
        if let Some(report) = judge.judge(rt.alloc(), row)? {
            wrong = wrong.saturating_add(1);
            io::writer(rt).write_all(report.as_slice())?;
        }
    }
    Ok(wrong)
}
