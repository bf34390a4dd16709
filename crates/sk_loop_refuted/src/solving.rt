//! One formula and one call of a solver.

ghost use Rattle.std.specs.Prelude.{◌≡◌, [], IfOk, OnOk};
ghost use Rattle.sk_clause.specs.Problem.{AreWithin};
ghost use Rattle.sk_loop_refuted.specs.Refuted.{IsAnswered};

use sk_clause::Clauses;
use sk_cnf::Encoded;
use sk_sat::{Answer, Solver};
use sk_watch::{News, Watch};
use std::alloc::{AllocError, Global};

// Adds the clauses to a solver that has their variables and no clause. A refusal gives the solver up.
#[tactic(auto, using(crate::proofs::Loading::loading))]
fn load(solver: &mut Solver, clauses: &Clauses) -> Result<(), AllocError>
    requires vars { solver.old.vars ≡ clauses.now.vars }
    requires none { solver.old.added ≡ [] }
    ensures vars { OnOk result (solver.new.vars ≡ clauses.now.vars) }
    ensures added { OnOk result (solver.new.added ≡ clauses.now.clauses) }
    ensures learnt { OnOk result (solver.new.learnt ≡ solver.old.learnt) }
{
    for i in 0..clauses.len() {
        solver.add(clauses.get(i))?;
    }
    Ok(())
}

// What was learnt has only variables of the solver, which says so of each clause.
#[tactic(auto, using(crate::proofs::Loading::loading))]
fn learnt_is_within(solver: &Solver)
    ensures { AreWithin solver.now.vars solver.now.learnt }
{
    for i in 0..solver.learnt_len() {
        solver.learnt(i);
    }
}

/// Puts a formula to a solver of its own: values that meet its clauses, or a log that refutes them. With a budget other
/// than 0 it also gives up, just when so many clauses are learnt. Each literal of a log is one of a variable of the formula.
/// The watcher is told of the formula, and of the conflicts.
///
/// # Errors
///
/// Memory is wanting, which a clause with a variable from 2^31 on counts as.
pub fn refuted<W: Watch>(
    alloc: Global,
    encoded: &Encoded,
    budget: u64,
    watch: &mut W,
) -> Result<Answer, AllocError>
    ensures { IfOk result (IsAnswered encoded.now budget) }
{
    let mut solver = Solver::new(alloc);
    solver.vars(encoded.clauses.vars())?;
    load(&mut solver, &encoded.clauses)?;
    watch.tell(News::Formula {
        variables: encoded.clauses.vars(),
        clauses: encoded.clauses.len(),
    });
    let answer = solver.solve(budget, watch)?;
    learnt_is_within(&solver);
    Ok(answer)
}
