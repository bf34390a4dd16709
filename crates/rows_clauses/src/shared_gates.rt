//! Gates that are met again.

ghost use Rattle.std.specs.Prelude.{IsTrue, ◌≤◌, OnOk};
ghost use Rattle.sk_gates.specs.Bits.{reach};

use row_tables::{Fault, Report, expect};
use sk_clause::{Clauses, Lit};
use sk_gates::{Bit, SharedGates};
use std::alloc::{AllocError, Global};

#[derive(Clone, Copy)]
enum Call {
    And(Bit, Bit),
    Or(Bit, Bit),
    Xor(Bit, Bit),
    Mux(Bit, Bit, Bit),
}

// Whether a bit is a constant, or of one of so many variables.
fn is_over(vars: usize, bit: Bit) -> bool
    ensures { IsTrue result → reach bit ≤ vars }
{
    match bit {
        Bit::Constant(_) => true,
        Bit::Literal(lit) => lit.var < vars,
    }
}

fn need(gates: &SharedGates, bit: Bit) -> Result<(), Fault>
    ensures { OnOk result (reach bit ≤ gates.now.vars) }
{
    expect(is_over(gates.clauses().vars(), bit))
}

fn answer(gates: &mut SharedGates, call: Call) -> Result<Bit, Fault> {
    let (c, a, b) = match call {
        Call::And(a, b) | Call::Or(a, b) | Call::Xor(a, b) => (a, a, b),
        Call::Mux(c, a, b) => (c, a, b),
    };
    need(gates, a)?;
    need(gates, b)?;
    need(gates, c)?;
    let made = match call {
        Call::And(_, _) => gates.and(a, b)?,
        Call::Or(_, _) => gates.or(a, b)?,
        Call::Xor(_, _) => gates.xor(a, b)?,
        Call::Mux(_, _, _) => gates.mux(c, a, b)?,
    };
    Ok(made)
}

// The variables of the calls, and then those of their gates, in their order.
const X: Bit = Bit::Literal(Lit { var: 0, neg: false });

const Y: Bit = Bit::Literal(Lit { var: 1, neg: false });

const Z: Bit = Bit::Literal(Lit { var: 2, neg: false });

const BOTH: Bit = Bit::Literal(Lit { var: 3, neg: false });

const NEITHER: Bit = Bit::Literal(Lit { var: 4, neg: false });

const ONE: Bit = Bit::Literal(Lit { var: 5, neg: false });

const CHOSEN: Bit = Bit::Literal(Lit { var: 6, neg: false });

const LAST: Bit = Bit::Literal(Lit { var: 7, neg: false });

const NOT_X: Bit = Bit::Literal(Lit { var: 0, neg: true });

const NOT_Y: Bit = Bit::Literal(Lit { var: 1, neg: true });

const NOT_Z: Bit = Bit::Literal(Lit { var: 2, neg: true });

const NOT_BOTH: Bit = Bit::Literal(Lit { var: 3, neg: true });

const NOT_NEITHER: Bit = Bit::Literal(Lit { var: 4, neg: true });

const NOT_ONE: Bit = Bit::Literal(Lit { var: 5, neg: true });

// Calls one after another over the variables 0 to 2, each with the number of variables after it and its answer. A gate
// has the next variable for its own; what stands for it later is that variable or its negation.
const CALLS: &[(Call, usize, Bit)] = &[
    (Call::And(X, Y), 4, BOTH),
    (Call::And(Y, X), 4, BOTH),
    (Call::And(NOT_X, NOT_Y), 5, NEITHER),
    (Call::Or(X, Y), 5, NOT_NEITHER),
    (Call::Or(NOT_Y, NOT_X), 5, NOT_BOTH),
    (Call::Xor(X, Y), 6, ONE),
    (Call::Xor(NOT_X, Y), 6, NOT_ONE),
    (Call::Xor(NOT_Y, NOT_X), 6, ONE),
    (Call::Mux(Z, X, Y), 7, CHOSEN),
    (Call::Mux(NOT_Z, Y, X), 7, CHOSEN),
    (Call::Mux(X, Y, NOT_Y), 7, NOT_ONE),
    (Call::Mux(X, Bit::Constant(true), Y), 7, NOT_NEITHER),
    (Call::Mux(X, Y, X), 7, BOTH),
    (Call::Mux(X, X, Y), 7, NOT_NEITHER),
    (Call::Mux(X, NOT_X, NOT_Y), 7, NEITHER),
    (Call::Mux(X, NOT_Y, NOT_X), 7, NOT_BOTH),
    (Call::And(X, Bit::Constant(true)), 7, X),
    (Call::Xor(X, NOT_X), 7, Bit::Constant(true)),
    (Call::And(ONE, Z), 8, LAST),
];

// The table. Proofs see no row of it.
fn calls() -> &'static [(Call, usize, Bit)] {
    CALLS
}

/// Makes three variables.
fn make_three(gates: &mut SharedGates) -> Result<(), AllocError> {
    gates.fresh()?;
    gates.fresh()?;
    gates.fresh()?;
    Ok(())
}

/// A call has this answer, and so many variables after it.
fn expect_call(gates: &mut SharedGates, call: Call, vars: usize, wanted: Bit) -> Result<(), Fault> {
    let bit = answer(gates, call)?;
    expect(bit == wanted)?;
    expect(gates.clauses().vars() == vars)
}

fn try_calls(gates: &mut SharedGates, report: &mut Report) -> Result<(), AllocError> {
    make_three(gates)?;
    for (call, vars, wanted) in calls() {
        report.row(expect_call(gates, *call, *vars, *wanted))?;
    }
    gates.push(&[])
}

fn try_again(gates: &mut SharedGates, report: &mut Report) -> Result<(), AllocError> {
    for (call, _, wanted) in calls() {
        report.row(expect_call(gates, *call, 8, *wanted))?;
    }
    report.end("gates that are met again")
}

/// Each call, and then each again, over what is kept of the gates.
fn tell_calls(alloc: Global, report: &mut Report) -> Result<(), AllocError> {
    let mut gates = SharedGates::new(alloc, Clauses::new(alloc));
    try_calls(&mut gates, report)?;
    let (clauses, made) = gates.into_parts();
    report.row(expect(clauses.len() == 3 + 3 + 4 + 4 + 3 + 1))?;
    let mut again = SharedGates::from_parts(clauses, made);
    try_again(&mut again, report)
}

// The sum of the variables 0 to 2.
fn sum(gates: &mut SharedGates) -> Result<(Bit, Bit), Fault> {
    need(gates, X)?;
    need(gates, Y)?;
    need(gates, Z)?;
    let made = gates.full_adder(X, Y, Z)?;
    Ok(made)
}

// Two sums of the same digits cost what one does: two gates of four clauses for the sum, and one for the carry.
fn adds_twice(gates: &mut SharedGates) -> Result<(), Fault> {
    make_three(gates)?;
    let first = sum(gates)?;
    let second = sum(gates)?;
    expect(first == second)?;
    expect(gates.clauses().vars() == 6 && gates.clauses().len() == 12)
}

fn a_full_adder_is_made_once(alloc: Global) -> Result<(), Fault> {
    let mut gates = SharedGates::new(alloc, Clauses::new(alloc));
    adds_twice(&mut gates)
}

/// Tells of the tables of gates that are met again.
pub fn tell(alloc: Global, report: &mut Report) -> Result<(), AllocError> {
    tell_calls(alloc, report)?;
    report.row(a_full_adder_is_made_once(alloc))?;
    report.end("full adders that are met again")
}
