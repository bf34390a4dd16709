//! One solver that is called again and again, with clauses added between the calls.

use crate::numbers::list_of;
use crate::solving::{Told, is_as_wanted, put, solver_of, tell_answer};
use row_tables::{Fault, Report, expect};
use sk_clause::{ClauseList, Lit};
use sk_sat::Solver;
use sk_watch::Silent;
use std::alloc::{AllocError, Global};

const HOLES: usize = 6;

const PIGEONS: usize = 7;

/// So many pigeons, from the first on, need no hole where variable 1 is true.
const FREE: usize = 4;

const VARS: usize = 44;

// The pigeon is in the hole.
fn is_in(pigeon: usize, hole: usize) -> Lit {
    Lit {
        var: pigeon
            .wrapping_mul(HOLES)
            .wrapping_add(hole)
            .wrapping_add(2),
        neg: false,
    }
}

// The pigeon is in a hole, or needs none.
fn push_place(alloc: Global, list: &mut ClauseList, pigeon: usize) -> Result<(), AllocError> {
    let mut clause: Vec<Lit> = Vec::new(alloc);
    if pigeon < FREE {
        clause.push(Lit { var: 0, neg: false })?;
    }
    for hole in 0..HOLES {
        clause.push(is_in(pigeon, hole))?;
    }
    list.push(&clause)
}

// No two pigeons are in the hole.
fn push_pairs(list: &mut ClauseList, hole: usize) -> Result<(), AllocError> {
    for second in 0..PIGEONS {
        for first in 0..second {
            list.push(&[is_in(first, hole).negate(), is_in(second, hole).negate()])?;
        }
    }
    Ok(())
}

// The pigeons do not fit in the holes, so that variable 1 is true, and with it 2. Before the solver finds values it has
// left 1 and 2 out of the search: each of them stands in few clauses.
fn pigeons(alloc: Global) -> Result<ClauseList, AllocError> {
    let mut list = list_of(alloc, &[-1, 2, 0])?;
    for pigeon in 0..PIGEONS {
        push_place(alloc, &mut list, pigeon)?;
    }
    for hole in 0..HOLES {
        push_pairs(&mut list, hole)?;
    }
    Ok(list)
}

/// Clauses that are added, and what the call after them tells.
type Call = (&'static [i32], Told);

/// After the pigeons' clauses. Variable 3 says that the first pigeon is in the first hole, 4 that it is in the second, 9
/// that the second pigeon is in the first.
const SESSIONS: &[&[Call]] = &[
    &[(&[], Told::Sat(VARS)), (&[-2, 0], Told::Refuted)],
    &[(&[], Told::Sat(VARS)), (&[-1, 0], Told::Refuted)],
    // What follows from 2 is seen while 1 stays left out.
    &[
        (&[], Told::Sat(VARS)),
        (&[-2, 3, 0], Told::Sat(VARS)),
        (&[-3, 4, 0], Told::Sat(VARS)),
        (&[-4, 9, 0], Told::Refuted),
    ],
    // Clauses of both.
    &[
        (&[], Told::Sat(VARS)),
        (&[1, -2, 0, -1, 9, 0], Told::Sat(VARS)),
        (&[3, -9, 0], Told::Refuted),
    ],
];

// The table. Proofs see no row of it.
fn rows() -> &'static [&'static [Call]] {
    SESSIONS
}

// Adds clauses over so many variables to the solver and to the list.
fn add(
    alloc: Global,
    solver: &mut Solver,
    vars: usize,
    list: &mut ClauseList,
    numbers: &[i32],
) -> Result<(), AllocError> {
    let more = list_of(alloc, numbers)?;
    solver.vars(vars)?;
    for i in 0..more.len() {
        put(alloc, solver, vars, more.get(i))?;
        list.push(more.get(i))?;
    }
    Ok(())
}

fn is_answered(solver: &mut Solver, list: &ClauseList, wanted: Told) -> Result<(), Fault> {
    let answer = solver.solve(0, &mut Silent)?;
    expect(is_as_wanted(tell_answer(list, &answer), wanted))
}

fn is_held(alloc: Global, row: &[Call]) -> Result<(), Fault> {
    let mut list = pigeons(alloc)?;
    let mut solver = solver_of(alloc, VARS, &list)?;
    for call in row {
        add(alloc, &mut solver, VARS, &mut list, call.0)?;
        is_answered(&mut solver, &list, call.1)?;
    }
    Ok(())
}

/// Tells of the table of sessions.
pub fn tell(alloc: Global, report: &mut Report) -> Result<(), AllocError> {
    for row in rows() {
        report.row(is_held(alloc, row))?;
    }
    report.end("calls of one solver")
}
