// The known clauses with what follows from them alone, and whether one more clause follows.
ghost use Rattle.std.specs.Prelude.{◌≡◌, ◌↔◌, ℕ, ◌<◌, ◌++◌, ◌∷◌, [], List, length, IsTrue, true, false, OnOk, IfOk};
ghost use Rattle.sk_clause.specs.declared.lit.Lit.{Lit};
ghost use Rattle.sk_clause.specs.Problem.{IsWithin, AreWithin};
ghost use Rattle.sk_clause.specs.Meaning.{Follows};
ghost use Rattle.sk_rup.specs.Steps.{Covers, AreRoots, Grows, Steps};
ghost use Rattle.sk_rup.specs.Visit.{IsSpread};
ghost use Rattle.sk_rup.specs.Checker.{Denies, IsComplete, IsReady};

use crate::look::{Look, Pass, look_at, look_at_all};
use crate::store::Store;
use crate::trail::Trail;
use crate::values::value;
use crate::watches::Watches;
use sk_clause::Lit;
use std::alloc::{AllocError, Global};

/// Makes each literal of a clause false. Whether one of them is true, so that the clause follows.
#[tactic(auto, using(crate::proofs::CheckerLemmas::denials))]
fn deny(trail: &mut Trail, clause: &[Lit]) -> Result<bool, AllocError>
    requires covers { Covers trail.old.values.items trail.old.lits.items }
    requires within { IsWithin (length trail.old.values.items) clause.now }
    ensures grows { OnOk result (Grows trail.old trail.new) }
    ensures clash { IfOk result (λ b. b ≡ true → (known : List (List Lit)) → AreRoots known trail.old.lits.items → Follows known clause.now) }
    ensures denied { IfOk result (λ b. b ≡ false → Denies clause.now trail.old trail.new) }
{
    for l in clause {
        match value(&trail.values, *l) {
            Some(true) => return Ok(true),
            Some(false) => {}
            None => trail.force(l.negate())?,
        }
    }
    Ok(false)
}

/// Makes literals true that clauses force, until a clause is false or each is settled. Whether one is false.
#[tactic(auto, using(crate::proofs::CheckerLemmas::completes))]
fn complete(trail: &mut Trail, watches: &mut Watches, known: &Store) -> Result<bool, AllocError>
    requires covers { Covers trail.old.values.items trail.old.lits.items }
    requires within { AreWithin (length trail.old.values.items) known.now }
    ensures steps { OnOk result (Steps known.now trail.old trail.new) }
    ensures complete { IfOk result (IsComplete known.now trail.new) }
{
    'passes: loop {
        if watches.propagate(trail, known)? {
            return Ok(true);
        }
        match look_at_all(trail, known)? {
            Pass::Falsified => return Ok(true),
            Pass::Done => return Ok(false),
            Pass::More => {}
        }
    }
}

/// Whether a clause follows. The trail may have grown.
#[tactic(auto, using(crate::proofs::CheckerLemmas::decisions))]
fn decide(
    trail: &mut Trail,
    watches: &mut Watches,
    known: &Store,
    clause: &[Lit],
) -> Result<bool, AllocError>
    requires covers { Covers trail.old.values.items trail.old.lits.items }
    requires within { AreWithin (length trail.old.values.items) known.now }
    requires clause { IsWithin (length trail.old.values.items) clause.now }
    requires roots { AreRoots known.now trail.old.lits.items }
    ensures grows { OnOk result (Grows trail.old trail.new) }
    ensures follows { IfOk result (λ b. IsTrue b ↔ Follows known.now clause.now) }
{
    if deny(trail, clause)? {
        return Ok(true);
    }
    let conflict = complete(trail, watches, known)?;
    Ok(conflict)
}

// Has clause i, the last, watched or its literal made true, and follows that up. Whether a clause is false.
#[tactic(auto, using(crate::proofs::CheckerLemmas::completes))]
fn settle(
    trail: &mut Trail,
    watches: &mut Watches,
    known: &Store,
    i: usize,
) -> Result<bool, AllocError>
    requires covers { Covers trail.old.values.items trail.old.lits.items }
    requires within { AreWithin (length trail.old.values.items) known.now }
    requires i { i < length known.now }
    ensures steps { OnOk result (Steps known.now trail.old trail.new) }
    ensures conflict { IfOk result (IsSpread known.now trail.new) }
{
    match look_at(trail, known, i)? {
        Look::Falsified => Ok(true),
        Look::Forced => {
            let found = watches.propagate(trail, known)?;
            Ok(found)
        }
        Look::Settled(a, b) => {
            watches.add(i, known.get(i), a, b)?;
            Ok(false)
        }
    }
}

/// The known clauses, and the literals that follow from them alone.
#[derive(Drop)]
pub struct Checker {
    pub known: Store,
    pub trail: Trail,
    watches: Watches,
    /// Whether a clause is false under these literals, so that every clause follows.
    pub refuted: bool,
}

#[tactic(auto, using(crate::proofs::CheckerLemmas::checkers))]
impl Checker {
    /// No clauses.
    pub fn new(alloc: Global, vars: usize) -> Result<Checker, AllocError>
        ensures ready { IfOk result IsReady }
        ensures known { IfOk result (λ ch. ch.known ≡ []) }
        ensures long { IfOk result (λ ch. length ch.trail.values.items ≡ vars) }
    {
        let trail = Trail::new(alloc, vars)?;
        let watches = Watches::new(alloc, vars)?;
        Ok(Checker {
            known: Store::new(alloc),
            trail,
            watches,
            refuted: false,
        })
    }

    /// Takes a clause among the known ones. After a refusal the checker is given up with the check of the log that holds it.
    pub fn add(&mut self, clause: &[Lit]) -> Result<(), AllocError>
        requires ready { IsReady self.old }
        requires within { IsWithin (length self.old.trail.values.items) clause.now }
        ensures ready { OnOk result (IsReady self.new) }
        ensures known { OnOk result (self.new.known ≡ self.old.known ++ clause.now ∷ []) }
        ensures long { OnOk result (length self.new.trail.values.items ≡ length self.old.trail.values.items) }
    {
        let i = self.known.len();
        self.known.push(clause)?;
        if self.refuted {
            return Ok(());
        }
        self.refuted = settle(&mut self.trail, &mut self.watches, &self.known, i)?;
        Ok(())
    }

    /// Whether a clause follows from the known ones. After a refusal the checker is given up with the check of the log that
    /// holds it.
    pub fn follows(&mut self, clause: &[Lit]) -> Result<bool, AllocError>
        requires ready { IsReady self.old }
        requires within { IsWithin (length self.old.trail.values.items) clause.now }
        ensures ready { OnOk result (IsReady self.new) }
        ensures known { OnOk result (self.new.known ≡ self.old.known) }
        ensures long { OnOk result (length self.new.trail.values.items ≡ length self.old.trail.values.items) }
        ensures follows { IfOk result (λ b. IsTrue b ↔ Follows self.old.known clause.now) }
    {
        if self.refuted {
            return Ok(true);
        }
        let begin = self.trail.lits.len();
        let follows = decide(&mut self.trail, &mut self.watches, &self.known, clause)?;
        self.trail.undo(begin);
        self.watches.back_to(begin);
        Ok(follows)
    }
}
