//! Tries clauses, refutation logs, the solver, gates and encodings of graphs on tables of rows, and tells each row that is not
//! as it is to be. Of each table it writes how many rows it has. Its status is not 0 where a row is wrong.
#![tactic(auto)]

mod clauses;
mod encoding;
mod forced;
mod gates;
mod logs;
mod numbers;
mod sessions;
mod shared_gates;
mod solving;

use row_tables::Report;
use std::alloc::{AllocError, Global};
use std::io::Write;
use std::process::ExitCode;

fn tell(alloc: Global, report: &mut Report) -> Result<(), AllocError> {
    clauses::tell(alloc, report)?;
    logs::tell(alloc, report)?;
    solving::tell(alloc, report)?;
    sessions::tell(alloc, report)?;
    gates::tell(alloc, report)?;
    shared_gates::tell(alloc, report)?;
    encoding::tell(alloc, report)
}

fn all_tables(alloc: Global) -> Result<Report, AllocError> {
    let mut report = Report::new(alloc);
    tell(alloc, &mut report)?;
    Ok(report)
}

fn main(rt: HostRuntime) -> ExitCode {
    let Ok(report) = all_tables(rt.alloc()) else {
        return ExitCode::FAILURE;
    };
    let written = rt.stdout().write_all(report.lines());
    if written.is_err() || report.is_wrong() {
        return ExitCode::FAILURE;
    }
    ExitCode::SUCCESS
}
