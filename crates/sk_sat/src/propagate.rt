// One look at a known clause.
ghost use Rattle.std.specs.Prelude.{◌≡◌, ℕ, ◌+◌, ◌<◌, ◌≤◌, ◌++◌, ◌∷◌, [], List, take, length, All, Contains, IsTrue, IfOk, OnOk, OnErr, IfSome, true, slice_index, slice_index_or};
ghost use Rattle.sk_clause.specs.Problem.{IsWithin, AreWithin};
ghost use Rattle.sk_clause.specs.Values.{Holds, Fails, IsOpen, IsSettled};
ghost use Rattle.sk_sat.specs.Trail.{IsTrail, Extends};
ghost use Rattle.sk_sat.specs.Analysis.{IsFalsified};
ghost use Rattle.sk_sat.specs.declared.propagate.Look.TheVariants.{Falsified};

use crate::known::Known;
use crate::trail::Trail;
use crate::values::{Scan, scan_of};
use sk_clause::Lit;
use std::alloc::AllocError;

/// What a look at a clause came to.
#[derive(Clone, Copy, Debug)]
pub enum Look {
    /// Each literal is false.
    Falsified,
    /// Its only literal without a value was made true, where each other one is false.
    Forced,
    /// A literal is true, which is named twice, or these two have no value.
    Settled(Lit, Lit),
}

/// Looks at a clause, and makes its literal true where only one is left.
#[tactic(auto, using(crate::proofs::PropagateLemmas::looks))]
pub fn look_at(trail: &mut Trail, known: &Known, i: usize) -> Result<Look, AllocError>
    requires trail { IsTrail known.now trail.old }
    requires within { AreWithin (length trail.old.values.items) known.now }
    requires i { i < length known.now }
    ensures trail { OnOk result (IsTrail known.now trail.new) }
    ensures extends { OnOk result (Extends trail.old trail.new) }
    ensures falsified { IfOk result (λ seen. seen ≡ Falsified → IsFalsified known.now trail.new.values.items i) }
{
    match scan_of(&trail.values, known.get(i)) {
        Scan::Falsified => Ok(Look::Falsified),
        Scan::Unit(l) => {
            trail.force(l, i)?;
            Ok(Look::Forced)
        }
        Scan::Settled(a, b) => Ok(Look::Settled(a, b)),
    }
}
