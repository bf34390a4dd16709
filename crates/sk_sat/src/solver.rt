// The solver that callers use.
ghost use Rattle.std.specs.Prelude.{◌≡◌, ℕ, ◌+◌, ◌<◌, ◌≤◌, ◌++◌, ◌∷◌, [], List, length, take, max, IfOk, OnOk, OnErr, IfSome, slice_index_or};
ghost use Rattle.sk_clause.specs.declared.lit.Lit.{Lit};
ghost use Rattle.sk_clause.specs.Meaning.{EachFollows};
ghost use Rattle.sk_clause.specs.Problem.{IsWithin};
ghost use Rattle.sk_sat.specs.Solver.{IsSound, Grows};
ghost use Rattle.sk_sat.specs.Engine.{Serves};
ghost use Rattle.sk_sat.specs.Answer.{IsAnswer};

use crate::engine::{Engine, current};
use crate::search::Outcome;
use sk_base::List;
use sk_clause::{Assignment, ClauseList, Lit, Log};
use sk_watch::Watch;
use std::alloc::{AllocError, Global};
use std::marker::Model;

/// What a call of `solve` found.
#[derive(Debug, Drop)]
pub enum Answer {
    /// A value for each variable of the solver, with which each added clause is true.
    Sat(Assignment),
    /// A log that refutes the added clauses: each clause that was ever learnt, and then the empty clause.
    Unsat(Log),
    /// The clauses that this call has learnt, as many as its budget says.
    Spent(Log),
}

/// Variables and clauses, and what was learnt from them in all calls so far.
#[derive(Drop)]
pub struct Solver {
    alloc: Global,
    vars: usize,
    added: ClauseList,
    learnt: ClauseList,
    /// What the last call kept for the next one.
    engine: Option<Engine>,
}

impl Model for Solver {
    ghost use Rattle.std.specs.Prelude.{IfSome};
    ghost use Rattle.sk_sat.specs.Solver.{State, IsSound};
    ghost use Rattle.sk_sat.specs.Engine.{Serves};

    ghost Value = { State };

    ghost view = { λ a. record { vars = a.vars; added = a.added; learnt = a.learnt } };

    ghost invariant = { λ a. IsSound a.vars a.added a.learnt × IfSome a.engine (Serves a.vars a.added a.learnt) };
}

#[tactic(auto, using(crate::proofs::SolverLemmas::solvers))]
impl Solver {
    ghost use Rattle.sk_sat.specs.Solver.{Gains};
    ghost use Rattle.sk_sat.specs.Answer.{IsAnswer};

    /// No variables, and no clauses. It takes no memory.
    pub fn new(alloc: Global) -> Solver
        ensures vars { result.vars ≡ 0 }
        ensures added { result.added ≡ [] }
        ensures learnt { result.learnt ≡ [] }
    {
        Solver {
            alloc,
            vars: 0,
            added: ClauseList::new(alloc),
            learnt: ClauseList::new(alloc),
            engine: None,
        }
    }

    /// Makes the number of variables at least n. For want of memory all stays as it was.
    pub fn vars(&mut self, n: usize) -> Result<(), AllocError>
        ensures ok { OnOk result (self.new ≡ record self.old { vars = max self.old.vars n }) }
        ensures err { OnErr result (self.new ≡ self.old) }
    {
        if self.vars < n {
            self.vars = n;
        }
        Ok(())
    }

    /// Adds a clause over the variables that are there. A literal may stand in it twice, and beside its negation. For
    /// want of memory all stays as it was.
    pub fn add(&mut self, clause: &[Lit]) -> Result<(), AllocError>
        requires { IsWithin self.old.vars clause.now }
        ensures ok { OnOk result (self.new ≡ record self.old { added = self.old.added ++ clause.now ∷ [] }) }
        ensures err { OnErr result (self.new ≡ self.old) }
    {
        self.added.push(clause)?;
        Ok(())
    }

    /// Looks for values that meet each added clause, or for a refutation. With a budget other than 0 it also gives up,
    /// just when it has learnt so many clauses. Budget 0 is none, and then resolvents of clauses may be learnt too. Every
    /// call ends. What was learnt stays, also where memory is wanting, which a clause with a variable from 2^31 on
    /// counts as. The watcher is told of each conflict that teaches a clause.
    pub fn solve<W: Watch>(&mut self, budget: u64, watch: &mut W) -> Result<Answer, AllocError>
        ensures answer { IfOk result (IsAnswer self.old self.new budget) }
        ensures gains { Gains self.old self.new }
    {
        let held = self.engine.take();
        let (answer, engine) = solve_parts(
            self.alloc,
            self.vars,
            &self.added,
            &mut self.learnt,
            held,
            budget,
            watch,
        )?;
        self.engine = engine;
        Ok(answer)
    }

    /// The number of clauses that were learnt in all calls so far. The empty clause is not counted.
    pub fn learnt_len(&self) -> usize
        ensures len { result ≡ length self.now.learnt }
        ensures follows { EachFollows self.now.added self.now.learnt }
    {
        self.learnt.len()
    }

    /// The learnt clause of number i, from 0, in the order in which they were learnt.
    pub fn learnt(&self, i: usize) -> &[Lit]
        requires { i < length self.now.learnt }
        ensures clause { result.now ≡ slice_index_or self.now.learnt i [] }
        ensures within { IsWithin self.now.vars result.now }
    {
        self.learnt.get(i)
    }
}

// Puts the clauses of a list behind those of another. For want of memory only some of them, from the first on.
#[tactic(auto, using(crate::proofs::SolverLemmas::joins))]
fn extend(list: &mut ClauseList, more: &ClauseList) -> Result<(), AllocError>
    ensures part { (k : ℕ) × (list.new ≡ list.old ++ take k more.now) }
    ensures whole { OnOk result (list.new ≡ list.old ++ more.now) }
{
    for i in 0..more.len() {
        list.push(more.get(i))?;
    }
    Ok(())
}

// The log of a refutation: the clauses, and the empty one behind them.
fn closed(alloc: Global, clauses: &ClauseList) -> Result<Log, AllocError>
    ensures { IfOk result (λ log. log ≡ clauses.now ++ [] ∷ []) }
{
    let mut log = ClauseList::new(alloc);
    extend(&mut log, clauses)?;
    log.push(&[])?;
    Ok(log)
}

// The answer, and what to keep for the next call. What was learnt is put behind what is there.
#[tactic(auto, using(crate::proofs::SolverLemmas::parts))]
fn solve_parts<W: Watch>(
    alloc: Global,
    vars: usize,
    added: &ClauseList,
    learnt: &mut ClauseList,
    held: Option<Engine>,
    budget: u64,
    watch: &mut W,
) -> Result<(Answer, Option<Engine>), AllocError>
    requires sound { IsSound vars added.now learnt.old }
    requires held { IfSome held (Serves vars added.now learnt.old) }
    ensures grows { Grows vars added.now learnt.old learnt.new }
    ensures answer { IfOk result (λ r. IsAnswer (record { vars = vars; added = added.now; learnt = learnt.old }) (record { vars = vars; added = added.now; learnt = learnt.new }) budget r.0) }
    ensures engine { IfOk result (λ r. IfSome r.1 (Serves vars added.now learnt.new)) }
{
    let mut engine = current(alloc, vars, added, learnt, held)?;
    let mut fresh = ClauseList::new(alloc);
    let outcome = engine.search(&mut fresh, budget, watch)?;
    extend(learnt, &fresh)?;
    match outcome {
        Outcome::Sat(bits) => Ok((Answer::Sat(List::from_vec(bits)), Some(engine))),
        Outcome::Unsat => {
            let log = closed(alloc, learnt)?;
            Ok((Answer::Unsat(log), None))
        }
        Outcome::Spent => Ok((Answer::Spent(fresh), Some(engine))),
    }
}
