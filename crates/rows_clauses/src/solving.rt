ghost use Rattle.std.specs.Prelude.{◌≡◌, ◌≤◌, OnOk};

use crate::numbers::{SQUARE, list_of};
use row_tables::{Fault, Report, expect};
use sk_clause::{ClauseList, Lit};
use sk_sat::{Answer, Solver};
use sk_watch::Silent;
use std::alloc::{AllocError, Global};

/// Adds a clause, without its literals of variables that are not there.
pub fn put(
    alloc: Global,
    solver: &mut Solver,
    vars: usize,
    clause: &[Lit],
) -> Result<(), AllocError>
    requires { vars ≤ solver.old.vars }
    ensures { OnOk result (solver.new.vars ≡ solver.old.vars) }
{
    let mut within: Vec<Lit> = Vec::new(alloc);
    for l in clause {
        if l.var < vars {
            within.push(*l)?;
        }
    }
    solver.add(&within)?;
    Ok(())
}

/// A solver with the clauses.
pub fn solver_of(alloc: Global, vars: usize, list: &ClauseList) -> Result<Solver, AllocError> {
    let mut solver = Solver::new(alloc);
    solver.vars(vars)?;
    for i in 0..list.len() {
        put(alloc, &mut solver, vars, list.get(i))?;
    }
    Ok(solver)
}

// Whether a clause has a true literal.
fn is_met(values: &[bool], clause: &[Lit]) -> bool {
    for l in clause {
        if l.var < values.len() && values[l.var] != l.neg {
            return true;
        }
    }
    false
}

fn are_met(values: &[bool], list: &ClauseList) -> bool {
    for i in 0..list.len() {
        if !is_met(values, list.get(i)) {
            return false;
        }
    }
    true
}

/// What an answer is, and how many values or clauses it shows.
#[derive(Clone, Copy, PartialEq)]
pub enum Told {
    Sat(usize),
    Unsat(usize),
    /// `Unsat`, with any log.
    Refuted,
    Spent(usize),
    /// Values that do not meet the clauses.
    Wrong,
}

/// What an answer to a call on these clauses tells.
pub fn tell_answer(list: &ClauseList, answer: &Answer) -> Told {
    match answer {
        Answer::Sat(values) => {
            if are_met(values.as_slice(), list) {
                Told::Sat(values.len())
            } else {
                Told::Wrong
            }
        }
        Answer::Unsat(log) => Told::Unsat(log.len()),
        Answer::Spent(log) => Told::Spent(log.len()),
    }
}

// What one call on these clauses tells.
fn solved(alloc: Global, vars: usize, numbers: &[i32], budget: u64) -> Result<Told, AllocError> {
    let list = list_of(alloc, numbers)?;
    let mut solver = solver_of(alloc, vars, &list)?;
    let answer = solver.solve(budget, &mut Silent)?;
    Ok(tell_answer(&list, &answer))
}

// Three pigeons in two holes: pigeon p in hole h is variable 2p + h - 2.
const PIGEONS: &[i32] = &[
    1, 2, 0, 3, 4, 0, 5, 6, 0, -1, -3, 0, -1, -5, 0, -3, -5, 0, -2, -4, 0, -2, -6, 0, -4, -6, 0,
];

// Two pigeons in two holes.
const ROOM: &[i32] = &[1, 2, 0, 3, 4, 0, -1, -3, 0, -2, -4, 0];

// The sums of 1 and 2, of 2 and 3, and of 1 and 3, modulo 2, are all 1.
const ODD_RING: &[i32] = &[1, 2, 0, -1, -2, 0, 2, 3, 0, -2, -3, 0, 1, 3, 0, -1, -3, 0];

// The same, but for the last sum, which is 0.
const EVEN_RING: &[i32] = &[1, 2, 0, -1, -2, 0, 2, 3, 0, -2, -3, 0, 1, -3, 0, -1, 3, 0];

/// How many variables there are, the clauses, a budget, where 0 is none, and what is told.
type Solved = (usize, &'static [i32], u64, Told);

/// `Told::Refuted` stands for a log of any length.
const SOLVED: &[Solved] = &[
    (2, SQUARE, 0, Told::Refuted),
    // Doubled literals.
    (2, &[1, 1, 0, 2, -2, 0], 0, Told::Sat(2)),
    (6, PIGEONS, 0, Told::Refuted),
    (4, ROOM, 0, Told::Sat(4)),
    (3, ODD_RING, 0, Told::Refuted),
    (3, EVEN_RING, 0, Told::Sat(3)),
    // The empty clause.
    (1, &[0], 0, Told::Refuted),
    // Nothing.
    (0, &[], 0, Told::Sat(0)),
    (2, SQUARE, 1, Told::Spent(1)),
    (1, &[1, 0, -1, 0], 1, Told::Unsat(1)),
    (2, &[], 1, Told::Sat(2)),
];

// The table. Proofs see no row of it.
fn rows() -> &'static [Solved] {
    SOLVED
}

/// Whether what was told is what is wanted.
pub fn is_as_wanted(told: Told, wanted: Told) -> bool {
    match (told, wanted) {
        (Told::Unsat(_), Told::Refuted) => true,
        _ => told == wanted,
    }
}

fn is_solved(alloc: Global, row: &Solved) -> Result<(), Fault> {
    let told = solved(alloc, row.0, row.1, row.2)?;
    expect(is_as_wanted(told, row.3))
}

// A call tells this.
fn expect_told(
    solver: &mut Solver,
    list: &ClauseList,
    budget: u64,
    wanted: Told,
) -> Result<(), Fault> {
    let answer = solver.solve(budget, &mut Silent)?;
    expect(tell_answer(list, &answer) == wanted)
}

// One literal was learnt.
fn expect_one_literal(solver: &Solver) -> Result<(), Fault> {
    expect(solver.learnt_len() == 1)?;
    expect(solver.learnt(0).len() == 1)
}

// The first call learns one literal, which the square forces; the empty clause is not counted.
fn learns(solver: &mut Solver, list: &ClauseList) -> Result<(), Fault> {
    expect_told(solver, list, 1, Told::Spent(1))?;
    expect_one_literal(solver)?;
    expect_told(solver, list, 10, Told::Unsat(2))?;
    expect(solver.learnt_len() == 1)
}

fn what_was_learnt_stays(alloc: Global) -> Result<(), Fault> {
    let list = list_of(alloc, SQUARE)?;
    let mut solver = solver_of(alloc, 2, &list)?;
    learns(&mut solver, &list)
}

/// Tells of the tables of the solver.
pub fn tell(alloc: Global, report: &mut Report) -> Result<(), AllocError> {
    for row in rows() {
        report.row(is_solved(alloc, row))?;
    }
    report.end("clauses solved")?;
    report.row(what_was_learnt_stays(alloc))?;
    report.end("what was learnt")
}
