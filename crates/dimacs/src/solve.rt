// The solver on a list of clauses.
ghost use Rattle.std.specs.Prelude.{◌≡◌, IfOk};
ghost use Rattle.dimacs.specs.Verdict.{IsVerdict};

use sk_clause::{Assignment, Clauses, Log};
use sk_sat::{Answer, Solver};
use sk_watch::Silent;
use std::alloc::{AllocError, Global};

/// Whether clauses can be met.
#[derive(Debug, Drop)]
pub enum Verdict {
    /// Values for the variables, with which each clause is true.
    Sat(Assignment),
    /// A log that refutes the clauses.
    Unsat(Log),
}

/// A verdict, and the number of clauses that were learnt on the way.
#[derive(Debug, Drop)]
pub struct Found {
    pub verdict: Verdict,
    pub learnt: usize,
}

// A solver with these clauses.
fn solver_of(alloc: Global, clauses: &Clauses) -> Result<Solver, AllocError>
    ensures vars { IfOk result (λ s. s.vars ≡ clauses.now.vars) }
    ensures added { IfOk result (λ s. s.added ≡ clauses.now.clauses) }
{
    let mut solver = Solver::new(alloc);
    solver.vars(clauses.vars())?;
    for i in 0..clauses.len() {
        solver.add(clauses.get(i))?;
    }
    Ok(solver)
}

/// Whether the clauses can be met, with no budget. The only refusal is want of memory.
pub fn solve(alloc: Global, clauses: &Clauses) -> Result<Found, AllocError>
    ensures { IfOk result (λ f. IsVerdict clauses.now f.verdict f.learnt) }
{
    let mut solver = solver_of(alloc, clauses)?;
    let answer = solver.solve(0, &mut Silent)?;
    let learnt = solver.learnt_len();
    match answer {
        Answer::Sat(values) => Ok(Found {
            verdict: Verdict::Sat(values),
            learnt,
        }),
        Answer::Unsat(log) => Ok(Found {
            verdict: Verdict::Unsat(log),
            learnt,
        }),
        Answer::Spent(_) => unreachable!(),
    }
}
