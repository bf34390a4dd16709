//! Tries the shared graph and its simplifier on tables of rows, and tells each row that is not as it is to be. Of each table
//! it writes how many rows it has. Its status is not 0 where a row is wrong.
#![tactic(auto)]

mod building;
mod copies;
mod long;
mod makers;
mod rules;
mod words;

use row_tables::Report;
use std::alloc::{AllocError, Global};
use std::io::Write;
use std::process::ExitCode;

fn all_tables(alloc: Global) -> Result<Report, AllocError> {
    let mut report = Report::new(alloc);
    makers::tell(alloc, &mut report)?;
    words::tell(alloc, &mut report)?;
    copies::tell(alloc, &mut report)?;
    long::tell(alloc, &mut report)?;
    rules::tell(alloc, &mut report)?;
    Ok(report)
}

fn main(rt: HostRuntime) -> ExitCode {
    let Ok(report) = all_tables(rt.alloc()) else {
        return ExitCode::FAILURE;
    };
    let written = rt.stdout().write_all(report.lines());
    if written.is_err() || report.is_wrong() {
        return ExitCode::FAILURE;
    }
    ExitCode::SUCCESS
}
