//! Clauses and logs that are read back.

use row_tables::{Fault, Report, expect};
use sk_clause::{ClauseList, Clauses, Lit};
use std::alloc::{AllocError, Global};

const A: Lit = Lit { var: 0, neg: false };

const NOT_B: Lit = Lit { var: 1, neg: true };

fn put_two(clauses: &mut Clauses) -> Result<(), Fault> {
    expect(clauses.fresh()? == 0)?;
    expect(clauses.fresh()? == 1)?;
    expect(clauses.vars() == 2)?;
    clauses.push(&[])?;
    clauses.push(&[A, NOT_B])?;
    Ok(())
}

fn read_two(clauses: &Clauses) -> Result<(), Fault> {
    expect(clauses.vars() == 2 && clauses.len() == 2)?;
    expect(clauses.get(0).len() == 0)?;
    expect(clauses.get(1) == [A, NOT_B].as_slice())
}

fn clauses_are_read_back(alloc: Global) -> Result<(), Fault> {
    let mut clauses = Clauses::new(alloc);
    put_two(&mut clauses)?;
    read_two(&clauses)
}

fn logs_are_read_back(alloc: Global) -> Result<(), Fault> {
    let mut log = ClauseList::new(alloc);
    log.push(&[NOT_B, A, A])?;
    expect(log.len() == 1)?;
    expect(log.get(0) == [NOT_B, A, A].as_slice())
}

/// Tells of the table of clauses that are read back.
pub fn tell(alloc: Global, report: &mut Report) -> Result<(), AllocError> {
    report.row(clauses_are_read_back(alloc))?;
    report.row(logs_are_read_back(alloc))?;
    report.end("clauses read back")
}
