// One look at a known clause.
ghost use Rattle.std.specs.Prelude.{ℕ, ◌<◌, length, OnOk, IfOk};
ghost use Rattle.sk_clause.specs.Problem.{AreWithin};
ghost use Rattle.sk_rup.specs.Steps.{Covers, Steps};
ghost use Rattle.sk_rup.specs.Look.{IsLook, IsPass};

use crate::store::Store;
use crate::trail::Trail;
use crate::values::{Scan, scan_of};
use sk_clause::Lit;
use std::alloc::AllocError;

/// What a look at a clause came to.
#[derive(Clone, Copy, Debug)]
pub enum Look {
    /// Each literal is false.
    Falsified,
    /// Its only literal without a value was made true, where each other one is false.
    Forced,
    /// A literal is true, which is named twice, or these two have no value.
    Settled(Lit, Lit),
}

/// Looks at a clause, and makes its literal true where only one is left. After a refusal the trail is given up with the
/// checker that holds it.
#[tactic(auto, using(crate::proofs::LookLemmas::looks))]
pub fn look_at(trail: &mut Trail, known: &Store, i: usize) -> Result<Look, AllocError>
    requires covers { Covers trail.old.values.items trail.old.lits.items }
    requires within { AreWithin (length trail.old.values.items) known.now }
    requires i { i < length known.now }
    ensures steps { OnOk result (Steps known.now trail.old trail.new) }
    ensures look { IfOk result (IsLook known.now i trail.old trail.new) }
{
    match scan_of(&trail.values, known.get(i)) {
        Scan::Falsified => Ok(Look::Falsified),
        Scan::Unit(l) => {
            trail.force(l)?;
            Ok(Look::Forced)
        }
        Scan::Settled(a, b) => Ok(Look::Settled(a, b)),
    }
}

/// What a look at all clauses came to.
#[derive(Clone, Copy, Debug)]
pub enum Pass {
    /// A clause is false.
    Falsified,
    /// Some variable got a value.
    More,
    /// Each clause is settled, and nothing changed.
    Done,
}

/// Looks at each clause once. After a refusal the trail is given up with the checker that holds it.
#[tactic(auto, using(crate::proofs::PassLemmas::passes))]
pub fn look_at_all(trail: &mut Trail, known: &Store) -> Result<Pass, AllocError>
    requires covers { Covers trail.old.values.items trail.old.lits.items }
    requires within { AreWithin (length trail.old.values.items) known.now }
    ensures steps { OnOk result (Steps known.now trail.old trail.new) }
    ensures pass { IfOk result (IsPass known.now trail.old trail.new) }
{
    let mut outcome = Pass::Done;
    for i in 0..known.len() {
        match look_at(trail, known, i)? {
            Look::Falsified => return Ok(Pass::Falsified),
            Look::Forced => outcome = Pass::More,
            Look::Settled(_, _) => {}
        }
    }
    Ok(outcome)
}
