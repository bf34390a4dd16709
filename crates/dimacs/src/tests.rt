use crate::solve::{Verdict, solve};
use dimacs_text::{Flaw, log_text, read_clauses, read_log, value_text};
use sk_clause::{Clauses, Lit};
use sk_rup::refutes;
use std::alloc::{AllocError, Global};
use std::test::Fail;

// Whether a clause has a true literal.
fn is_met(values: &[bool], clause: &[Lit]) -> bool {
    for l in clause {
        if l.var < values.len() && values[l.var] != l.neg {
            return true;
        }
    }
    false
}

fn are_met(values: &[bool], clauses: &Clauses) -> bool {
    for i in 0..clauses.len() {
        if !is_met(values, clauses.get(i)) {
            return false;
        }
    }
    true
}

/// What the solver says of a formula, where it shows it.
#[derive(Clone, Copy, Debug, PartialEq, Eq, Drop)]
enum Told {
    Sat,
    Unsat,
    /// A text in another form, values that do not meet the clauses, or a log that does not refute them.
    Wrong,
}

// What the solver says of clauses: values are tried, and a log is checked.
fn told_of(alloc: Global, clauses: &Clauses) -> Result<Told, AllocError> {
    let found = solve(alloc, clauses)?;
    match found.verdict {
        Verdict::Sat(values) => Ok(if are_met(values.as_slice(), clauses) {
            Told::Sat
        } else {
            Told::Wrong
        }),
        Verdict::Unsat(log) => Ok(if refutes(alloc, clauses, &log)? {
            Told::Unsat
        } else {
            Told::Wrong
        }),
    }
}

fn judged(alloc: Global, text: &str) -> Result<Told, AllocError> {
    match read_clauses(alloc, text) {
        Ok(clauses) => told_of(alloc, &clauses),
        Err(_) => Ok(Told::Wrong),
    }
}

const UNSATISFIABLE: [&str; 10] = [
    // The empty clause.
    "p cnf 1 1\n0\n",
    "p cnf 1 2\n1 0 -1 0\n",
    // Both signs of two variables.
    "p cnf 2 4\n1 2 0 1 -2 0\n-1 2 0 -1 -2 0\n",
    // Both signs of three variables.
    "p cnf 3 8\n1 2 3 0 1 2 -3 0 1 -2 3 0 1 -2 -3 0 -1 2 3 0 -1 2 -3 0 -1 -2 3 0 -1 -2 -3 0\n",
    // A chain from a true variable to a false one.
    "c a chain\np cnf 4 5\n1 0 -1 2 0 -2 3 0 -3 4 0 -4 0\n",
    // Three variables that differ from one another.
    "p cnf 3 6\n1 2 0 -1 -2 0 2 3 0 -2 -3 0 1 3 0 -1 -3 0\n",
    // A ring of five that differ from the next.
    "p cnf 5 10\n1 2 0 -1 -2 0 2 3 0 -2 -3 0 3 4 0 -3 -4 0 4 5 0 -4 -5 0 5 1 0 -5 -1 0\n",
    // Three pigeons in two holes.
    "p cnf 6 9\n1 2 0 3 4 0 5 6 0 -1 -3 0 -1 -5 0 -3 -5 0 -2 -4 0 -2 -6 0 -4 -6 0\n",
    // Four pigeons in three holes.
    "p cnf 12 22\n1 2 3 0 4 5 6 0 7 8 9 0 10 11 12 0\n-1 -4 0 -1 -7 0 -1 -10 0 -4 -7 0 -4 -10 0 -7 -10 0\n-2 -5 0 -2 -8 0 -2 -11 0 -5 -8 0 -5 -11 0 -8 -11 0\n-3 -6 0 -3 -9 0 -3 -12 0 -6 -9 0 -6 -12 0 -9 -12 0\n",
    // The sum of three variables is odd, and each is false.
    "p cnf 3 7\n1 2 3 0 1 -2 -3 0 -1 2 -3 0 -1 -2 3 0 -1 0 -2 0 -3 0\n",
];

const SATISFIABLE: [&str; 10] = [
    "p cnf 0 0\n",
    "p cnf 2 0\n",
    "p cnf 1 1\n-1 0\n",
    // Literals that stand twice, and beside their negation.
    "p cnf 2 2\n1 1 0\n2 -2 0\n",
    // All signs of three variables but one.
    "p cnf 3 7\n1 2 3 0 1 2 -3 0 1 -2 3 0 1 -2 -3 0 -1 2 3 0 -1 2 -3 0 -1 -2 3 0\n",
    // A chain.
    "p cnf 4 4\n1 0\n-1 2 0\n-2 3 0\n-3 4 0\n",
    // Two differences and an equality.
    "p cnf 3 6\n1 2 0 -1 -2 0 2 3 0 -2 -3 0 1 -3 0 -1 3 0\n",
    // A ring of four that differ from the next.
    "p cnf 4 8\n1 2 0 -1 -2 0 2 3 0 -2 -3 0 3 4 0 -3 -4 0 4 1 0 -4 -1 0\n",
    // Two pigeons in two holes.
    "p cnf 4 4\n1 2 0 3 4 0 -1 -3 0 -2 -4 0\n",
    // The sum of three variables is odd, and two are false.
    "p cnf 3 6\n1 2 3 0 1 -2 -3 0 -1 2 -3 0 -1 -2 3 0 -1 0 -3 0\n",
];

#[test]
fn answers_are_shown(rt: HostRuntime) -> Result<(), Fail> {
    let a = rt.alloc();
    for text in UNSATISFIABLE {
        assert_eq!(rt; judged(a, text)?, Told::Unsat, "{text}");
    }
    for text in SATISFIABLE {
        assert_eq!(rt; judged(a, text)?, Told::Sat, "{text}");
    }
    Ok(())
}

// What is wrong with a formula, and where.
fn fault(alloc: Global, text: &str) -> Option<(usize, Flaw)> {
    match read_clauses(alloc, text) {
        Ok(_) => None,
        Err(fault) => Some((fault.line, fault.flaw)),
    }
}

#[test]
fn faults_have_their_lines(rt: HostRuntime) -> Result<(), Fail> {
    let a = rt.alloc();
    let table = [
        ("", Some((1, Flaw::Header))),
        ("c nothing\n", Some((1, Flaw::Header))),
        ("1 0\np cnf 1 1\n", Some((1, Flaw::Header))),
        ("p cnf 1\n", Some((1, Flaw::Header))),
        ("p cnf 1 1\np cnf 1 1\n1 0\n", Some((2, Flaw::NoNumber))),
        ("p cnf 1 1\n\nc\n1 x 0\n", Some((4, Flaw::NoNumber))),
        ("p cnf 1 1\n2 0\n", Some((2, Flaw::TooLarge))),
        ("p cnf 2 1\n1\n-2\n", Some((3, Flaw::NoEnd))),
        ("p cnf 2 2\n1 0\n", Some((2, Flaw::Count))),
        ("p cnf 2 1\n1\n-2 0\n", None),
    ];
    for (text, wanted) in table {
        assert_eq!(rt; fault(a, text), wanted, "{text}");
    }
    Ok(())
}

#[test]
fn logs_and_values_are_written(rt: HostRuntime) -> Result<(), Fail> {
    let a = rt.alloc();
    match read_log(a, "1 -2 0\n0\n") {
        Ok(log) => assert_eq!(rt; log_text(a, &log)?.as_str(), "1 -2 0\n0\n"),
        Err(_) => assert!(rt; false, "a log"),
    }
    assert!(rt; read_log(a, "1 -2\n").is_err(), "a clause with no end");
    assert_eq!(rt; value_text(a, &[true, false])?.as_str(), "v 1 -2 0");
    Ok(())
}
