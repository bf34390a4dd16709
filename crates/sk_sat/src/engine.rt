// What a solver keeps between calls, so that a call copies no clauses.
ghost use Rattle.std.specs.Prelude.{◌≡◌, ℕ, ◌<◌, ◌≤◌, ◌++◌, [], List, length, drop, All, IfOk, OnOk, IfSome};
ghost use Rattle.sk_clause.specs.declared.lit.Lit.{Lit};
ghost use Rattle.sk_clause.specs.Meaning.{EachFollows, IsConsistent};
ghost use Rattle.sk_clause.specs.Problem.{AreWithin};
ghost use Rattle.sk_sat.specs.Engine.{IsReady, Serves, IsCurrent};
ghost use Rattle.sk_sat.specs.Search.{IsOutcome};

use crate::activity::Activity;
use crate::analysis::Lessons;
use crate::eliminated::Eliminated;
use crate::known::Known;
use crate::search::{Outcome, search};
use crate::settle::back_to;
use crate::trail::Trail;
use crate::watches::Watches;
use sk_clause::ClauseList;
use sk_watch::Watch;
use std::alloc::{AllocError, Global};

/// The clauses that a search knows, what is true at level 0, and what earlier searches have found out.
#[derive(Drop)]
pub struct Engine {
    alloc: Global,
    known: Known,
    trail: Trail,
    watches: Watches,
    activity: Activity,
    eliminated: Eliminated,
    lessons: Lessons,
    /// How many of the added clauses it has.
    taken: usize,
}

// The clauses of a list, as known ones.
#[tactic(auto, using(crate::proofs::SolverLemmas::joins))]
fn known_of(alloc: Global, clauses: &ClauseList) -> Result<Known, AllocError>
    ensures { IfOk result (λ known. known ≡ clauses.now) }
{
    let mut known = Known::new(alloc);
    for i in 0..clauses.len() {
        known.push(clauses.get(i))?;
    }
    Ok(known)
}

// Clauses from a number on name their variables.
fn name(activity: &mut Activity, clauses: &ClauseList, first: usize) {
    for i in first..clauses.len() {
        for l in clauses.get(i) {
            activity.name(l.var);
        }
    }
}

#[tactic(auto, using(crate::proofs::EngineLemmas::engines))]
impl Engine {
    /// So many variables, and the clauses that were learnt, but none of the added ones.
    pub fn new(alloc: Global, vars: usize, learnt: &ClauseList) -> Result<Engine, AllocError>
        requires { AreWithin vars learnt.now }
        ensures ready { IfOk result IsReady }
        ensures vars { IfOk result (λ e. length e.trail.values.items ≡ vars) }
        ensures known { IfOk result (λ e. e.known ≡ learnt.now) }
        ensures taken { IfOk result (λ e. e.taken ≡ 0) }
    {
        let known = known_of(alloc, learnt)?;
        let trail = Trail::new(alloc, vars)?;
        let mut watches = Watches::new(alloc);
        watches.grow(vars)?;
        let mut activity = Activity::new(alloc);
        activity.grow(vars)?;
        let lessons = Lessons::new(alloc, vars)?;
        Ok(Engine {
            alloc,
            known,
            trail,
            watches,
            activity,
            eliminated: Eliminated::new(alloc),
            lessons,
            taken: 0,
        })
    }

    /// Makes the number of variables n.
    pub fn grow(&mut self, n: usize) -> Result<(), AllocError>
        requires ready { IsReady self.old }
        requires more { length self.old.trail.values.items ≤ n }
        ensures ready { OnOk result (IsReady self.new) }
        ensures vars { OnOk result (length self.new.trail.values.items ≡ n) }
        ensures known { self.new.known ≡ self.old.known }
        ensures taken { self.new.taken ≡ self.old.taken }
    {
        self.trail.grow(n)?;
        self.watches.grow(n)?;
        self.activity.grow(n)?;
        Ok(())
    }

    // Brings the eliminated variables back that added clauses name which it lacks, and those that they depend on.
    fn wake(&mut self, added: &ClauseList)
        ensures known { self.new.known ≡ self.old.known }
        ensures trail { self.new.trail ≡ self.old.trail }
        ensures taken { self.new.taken ≡ self.old.taken }
    {
        name(&mut self.activity, added, self.taken);
        self.eliminated
            .restore(&self.known, &mut self.watches, &mut self.activity);
        self.eliminated.expect();
    }

    /// Takes the added clauses that it lacks.
    pub fn catch_up(&mut self, added: &ClauseList) -> Result<(), AllocError>
        requires ready { IsReady self.old }
        requires within { AreWithin (length self.old.trail.values.items) added.now }
        requires taken { self.old.taken ≤ length added.now }
        ensures ready { OnOk result (IsReady self.new) }
        ensures vars { length self.new.trail.values.items ≡ length self.old.trail.values.items }
        ensures known { OnOk result (self.new.known ≡ self.old.known ++ drop self.old.taken added.now) }
        ensures taken { OnOk result (self.new.taken ≡ length added.now) }
    {
        if self.taken < added.len() {
            self.wake(added);
        }
        for i in self.taken..added.len() {
            self.known.push(added.get(i))?;
        }
        self.taken = added.len();
        Ok(())
    }

    /// Searches for values with which the known clauses are true, and adds each clause that it learns to them and to
    /// the list, of which the watcher is told. With budget 0 it ends only with an answer.
    pub fn search<W: Watch>(
        &mut self,
        fresh: &mut ClauseList,
        budget: u64,
        watch: &mut W,
    ) -> Result<Outcome, AllocError>
        requires ready { IsReady self.old }
        requires fresh { fresh.old ≡ [] }
        ensures ready { OnOk result (IsReady self.new) }
        ensures vars { OnOk result (length self.new.trail.values.items ≡ length self.old.trail.values.items) }
        ensures taken { self.new.taken ≡ self.old.taken }
        ensures grown { OnOk result (self.new.known ≡ self.old.known ++ fresh.new) }
        ensures each { OnOk result (EachFollows self.old.known fresh.new) }
        ensures consistent { OnOk result (All IsConsistent fresh.new) }
        ensures outcome { IfOk result (IsOutcome (length self.old.trail.values.items) self.old.known fresh.new budget) }
    {
        self.eliminated.rewind();
        let outcome = search(
            self.alloc,
            &mut self.trail,
            &mut self.known,
            fresh,
            &mut self.watches,
            &mut self.lessons,
            &mut self.activity,
            &mut self.eliminated,
            budget,
            watch,
        )?;
        back_to(&mut self.trail, &self.known, &mut self.activity, 0);
        self.watches.go_back(self.trail.lits.len());
        Ok(outcome)
    }
}

// The engine that is there, or else a new one.
fn begun(
    alloc: Global,
    vars: usize,
    learnt: &ClauseList,
    held: Option<Engine>,
) -> Result<Engine, AllocError>
    requires { AreWithin vars learnt.now }
    ensures { (added : List (List Lit)) → IfSome held (Serves vars added learnt.now) → IfOk result (Serves vars added learnt.now) }
{
    match held {
        Some(engine) => Ok(engine),
        None => {
            let engine = Engine::new(alloc, vars, learnt)?;
            Ok(engine)
        }
    }
}

/// An engine with all clauses and variables: the one that is there, where there is one.
pub fn current(
    alloc: Global,
    vars: usize,
    added: &ClauseList,
    learnt: &ClauseList,
    held: Option<Engine>,
) -> Result<Engine, AllocError>
    requires added { AreWithin vars added.now }
    requires learnt { AreWithin vars learnt.now }
    requires held { IfSome held (Serves vars added.now learnt.now) }
    ensures { IfOk result (IsCurrent vars added.now learnt.now) }
{
    let mut engine = begun(alloc, vars, learnt, held)?;
    engine.grow(vars)?;
    engine.catch_up(added)?;
    Ok(engine)
}
