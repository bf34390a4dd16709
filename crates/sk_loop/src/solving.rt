//! A formula before the solver.

ghost use Rattle.std.specs.Prelude.{◌≡◌, ◌≤◌, ◌++◌, IfOk, OnOk, length, take};
ghost use Rattle.sk_sat.specs.Solver.{gained};
ghost use Rattle.sk_loop.specs.Answered.{IsAnswered, IsOfCall, IsSpentFrom};
ghost use Rattle.sk_loop.specs.Session.{IsLoaded};
ghost use Rattle.sk_loop_laws.specs.Laws.{with_learnt};

use sk_clause::{Assignment, Clauses, Log};
use sk_cnf::Encoded;
use sk_loop_copies::copy_encoded;
use sk_sat::{Answer, Solver};
use sk_watch::{News, Watch};
use std::alloc::{AllocError, Global};

/// What the solver answers of a formula.
#[derive(Debug, Drop)]
pub enum Answered {
    /// Values of the variables that meet its clauses.
    Met(Assignment),
    /// There are none.
    Never,
    /// So many clauses as the budget says were learnt from the formula here, which has what was learnt before behind it.
    Spent { formula: Encoded, log: Log },
}

// Brings the clauses from a number on to the solver.
#[tactic(auto, using(crate::proofs::Loading::loading))]
fn load_from(solver: &mut Solver, clauses: &Clauses, loaded: usize) -> Result<(), AllocError>
    requires vars { solver.old.vars ≡ clauses.now.vars }
    requires within { loaded ≤ length clauses.now.clauses }
    requires added { solver.old.added ≡ take loaded clauses.now.clauses }
    ensures vars { OnOk result (solver.new.vars ≡ clauses.now.vars) }
    ensures added { OnOk result (solver.new.added ≡ clauses.now.clauses) }
    ensures learnt { OnOk result (solver.new.learnt ≡ solver.old.learnt) }
{
    for i in loaded..clauses.len() {
        solver.add(clauses.get(i))?;
    }
    Ok(())
}

/// Brings variables, and the clauses from a number on, to the solver. After a refusal it may have some of them, and the search that
/// it serves is given up.
pub fn load(solver: &mut Solver, clauses: &Clauses, loaded: usize) -> Result<(), AllocError>
    requires { IsLoaded solver.old loaded clauses.now }
    ensures vars { OnOk result (solver.new.vars ≡ clauses.now.vars) }
    ensures added { OnOk result (solver.new.added ≡ clauses.now.clauses) }
    ensures learnt { OnOk result (solver.new.learnt ≡ solver.old.learnt) }
{
    solver.vars(clauses.vars())?;
    load_from(solver, clauses, loaded)
}

// The formula with the first so many learnt clauses behind its own.
#[tactic(auto, using(crate::proofs::Loading::loading))]
fn with_learnt(
    alloc: Global,
    encoded: &Encoded,
    solver: &Solver,
    count: usize,
) -> Result<Encoded, AllocError>
    requires vars { solver.now.vars ≡ encoded.now.clauses.vars }
    requires count { count ≤ length solver.now.learnt }
    ensures { IfOk result (λ f. f ≡ with_learnt encoded.now (take count solver.now.learnt)) }
{
    let mut formula = copy_encoded(alloc, encoded)?;
    for i in 0..count {
        formula.clauses.push(solver.learnt(i))?;
    }
    Ok(formula)
}

/// Asks the solver, which has the clauses of the formula. The watcher is told of the formula, and of the conflicts.
#[tactic(auto, using(crate::proofs::Answering::answering))]
pub fn answer<W: Watch>(
    alloc: Global,
    solver: &mut Solver,
    encoded: &Encoded,
    budget: u64,
    watch: &mut W,
) -> Result<Answered, AllocError>
    requires vars { solver.old.vars ≡ encoded.now.clauses.vars }
    requires added { solver.old.added ≡ encoded.now.clauses.clauses }
    ensures answered { IfOk result (IsAnswered encoded.now budget) }
    ensures call { IfOk result (IsOfCall budget (gained solver.old solver.new)) }
    ensures vars { solver.new.vars ≡ solver.old.vars }
    ensures added { solver.new.added ≡ solver.old.added }
{
    watch.tell(News::Formula {
        variables: encoded.clauses.vars(),
        clauses: encoded.clauses.len(),
    });
    let before = solver.learnt_len();
    let found = solver.solve(budget, watch)?;
    match found {
        Answer::Sat(values) => Ok(Answered::Met(values)),
        Answer::Unsat(_) => Ok(Answered::Never),
        Answer::Spent(log) => {
            let formula = with_learnt(alloc, encoded, solver, before)?;
            Ok(Answered::Spent { formula, log })
        }
    }
}
