ghost use Rattle.std.specs.Prelude.{◌≡◌, IfOk};

use crate::numbers::{SQUARE, list_of};
use row_tables::{Fault, Report, expect};
use sk_clause::{Clauses, Lit, Log};
use sk_rup::{each_follows, refutes};
use std::alloc::{AllocError, Global};

// Adds a clause, without its literals of variables that are not there.
fn put(alloc: Global, clauses: &mut Clauses, clause: &[Lit]) -> Result<(), AllocError> {
    let mut within: Vec<Lit> = Vec::new(alloc);
    for l in clause {
        if l.var < clauses.vars() {
            within.push(*l)?;
        }
    }
    clauses.push(&within)
}

fn clauses_of(alloc: Global, vars: usize, numbers: &[i32]) -> Result<Clauses, AllocError> {
    let mut clauses = Clauses::with_vars(alloc, vars);
    let list = list_of(alloc, numbers)?;
    for i in 0..list.len() {
        put(alloc, &mut clauses, list.get(i))?;
    }
    Ok(clauses)
}

// Whether each clause of the log follows, and whether the log refutes.
fn judged(alloc: Global, numbers: &[i32], log: &[i32]) -> Result<(bool, bool), AllocError> {
    let clauses = clauses_of(alloc, 4, numbers)?;
    let log: Log = list_of(alloc, log)?;
    let each = each_follows(alloc, &clauses, &log)?;
    let refuted = refutes(alloc, &clauses, &log)?;
    Ok((each, refuted))
}

/// The clauses, a log, and whether each of its clauses follows, and whether it refutes.
type Judged = (&'static [i32], &'static [i32], bool, bool);

const JUDGED: &[Judged] = &[
    (SQUARE, &[1, 0, 0], true, true),
    // Does not follow yet.
    (SQUARE, &[0], false, false),
    // The last clause is not empty.
    (SQUARE, &[1, 0], true, false),
    // The empty log.
    (SQUARE, &[], true, false),
    // Only a later clause justifies.
    (SQUARE, &[0, 1, 0, 0], false, false),
    // Goes on past the empty clause.
    (SQUARE, &[1, 0, 0, 2, 0], true, false),
    // Does not follow.
    (&[1, 2, 0], &[1, 0, 0], false, false),
    // A literal and its negation.
    (&[], &[3, -3, 0], true, false),
    // A variable of the log alone.
    (&[1, 1, 0, -1, -1, 0], &[9, 0, 0], true, true),
];

// The table. Proofs see no row of it.
fn rows() -> &'static [Judged] {
    JUDGED
}

fn is_judged(alloc: Global, row: &Judged) -> Result<(), Fault> {
    let (each, refuted) = judged(alloc, row.0, row.1)?;
    expect(each == row.2 && refuted == row.3)
}

/// Tells of the table of logs.
pub fn tell(alloc: Global, report: &mut Report) -> Result<(), AllocError> {
    for row in rows() {
        report.row(is_judged(alloc, row))?;
    }
    report.end("logs judged")
}
