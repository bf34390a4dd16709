// One round of the search.
ghost use Rattle.std.specs.Prelude.{◌≡◌, ◌≢◌, ℕ, ◌+◌, ◌<◌, ◌≤◌, ◌++◌, ◌∷◌, [], List, length, IfOk, IfSome, IfNone, None, IsNone, slice_index_or};
ghost use Rattle.sk_clause.specs.declared.lit.Lit.{Lit};
ghost use Rattle.sk_clause.specs.Problem.{AreWithin};
ghost use Rattle.sk_clause.specs.Values.{IsOpen};
ghost use Rattle.sk_sat.specs.Trail.{IsTrail};
ghost use Rattle.sk_sat.specs.Analysis.{IsFalsified};
ghost use Rattle.sk_sat.specs.Round.{IsRound, IsFree, IsMet};

use crate::activity::Activity;
use crate::analysis::Lessons;
use crate::eliminated::Eliminated;
use crate::known::Known;
use crate::settle::{Step, settle};
use crate::trail::Trail;
use crate::values::{Scan, scan_of};
use crate::watches::Watches;
use sk_clause::{ClauseList, Lit};
use std::alloc::AllocError;

/// What a round came to.
#[derive(Clone, Copy, Debug)]
pub enum Round {
    /// A clause was learnt.
    Learnt,
    /// A variable got a value.
    Moved,
    /// Each variable has a value, and each clause is true.
    Full,
    /// The empty clause follows.
    Refuted,
}

// The better of a literal and one of variable i, if that has no value.
#[tactic(auto, using(crate::proofs::RoundLemmas::picks))]
fn better(values: &[Option<bool>], activity: &Activity, i: usize, best: Option<Lit>) -> Option<Lit>
    requires i { i < length values.now }
    requires best { IfSome best (IsFree values.now) }
    ensures free { IfSome result (IsFree values.now) }
    ensures none { IfNone result (IsNone best × (slice_index_or values.now i None ≢ None)) }
{
    if values[i].is_some() {
        return best;
    }
    let here = Lit {
        var: i,
        neg: activity.is_negative(i),
    };
    match best {
        None => Some(here),
        Some(l) => {
            if activity.weight(l.var) < activity.weight(i) {
                Some(here)
            } else {
                Some(l)
            }
        }
    }
}

// A literal whose variable has no value and most weight, if there is one: looks at all variables.
#[tactic(auto, using(crate::proofs::RoundLemmas::picks))]
fn pick(values: &[Option<bool>], activity: &Activity) -> Option<Lit>
    ensures free { IfSome result (IsFree values.now) }
    ensures full { IfNone result ((l : Lit) → l.var < length values.now → IsOpen values.now l → ⊥) }
{
    let mut best: Option<Lit> = None;
    for i in 0..values.len() {
        best = better(values, activity, i, best);
    }
    best
}

/// A literal whose variable has no value, if there is one: of the heaviest variable in the heap, or else of the one that
/// was eliminated last, or else of any.
fn choose(
    values: &[Option<bool>],
    known: &Known,
    activity: &mut Activity,
    eliminated: &mut Eliminated,
) -> Option<Lit>
    ensures free { IfSome result (IsFree values.now) }
    ensures full { IfNone result ((l : Lit) → l.var < length values.now → IsOpen values.now l → ⊥) }
{
    if let Some(var) = activity.take_free(values) {
        eliminated.rewind();
        return Some(Lit {
            var,
            neg: activity.is_negative(var),
        });
    }
    match eliminated.next(values, known) {
        Some(l) => Some(l),
        None => pick(values, activity),
    }
}

/// The first clause that is false, where each variable has a value.
#[tactic(auto, using(crate::proofs::RoundLemmas::fulls))]
fn first_false(values: &[Option<bool>], known: &Known) -> Option<usize>
    requires full { (l : Lit) → l.var < length values.now → IsOpen values.now l → ⊥ }
    requires within { AreWithin (length values.now) known.now }
    ensures falsified { IfSome result (IsFalsified known.now values.now) }
    ensures met { IfNone result (IsMet known.now values.now) }
{
    for i in 0..known.len() {
        match scan_of(values, known.get(i)) {
            Scan::Falsified => return Some(i),
            Scan::Unit(_) => unreachable!(),
            Scan::Settled(_, _) => continue,
        }
    }
    None
}

// Deals with a conflict.
#[tactic(auto, using(crate::proofs::SettleLemmas::resolutions))]
fn resolve_all(
    trail: &mut Trail,
    known: &mut Known,
    fresh: &mut ClauseList,
    lessons: &mut Lessons,
    activity: &mut Activity,
    strict: bool,
    i: usize,
) -> Result<Round, AllocError>
    requires trail { IsTrail known.old trail.old }
    requires within { AreWithin (length trail.old.values.items) known.old }
    requires conflict { IsFalsified known.old trail.old.values.items i }
    ensures { IfOk result (IsRound strict known.old known.new fresh.old fresh.new trail.old trail.new) }
{
    match settle(trail, known, fresh, lessons, activity, strict, i)? {
        Step::Learnt => Ok(Round::Learnt),
        Step::Forced => Ok(Round::Moved),
        Step::Refuted => Ok(Round::Refuted),
        Step::Again(_) => unreachable!(),
    }
}

/// A round: propagates, and then learns or decides. With `strict` no clause is learnt that includes a known one.
#[tactic(auto, using(crate::proofs::SettleLemmas::rounds))]
pub fn round_of(
    trail: &mut Trail,
    known: &mut Known,
    fresh: &mut ClauseList,
    watches: &mut Watches,
    lessons: &mut Lessons,
    activity: &mut Activity,
    eliminated: &mut Eliminated,
    strict: bool,
) -> Result<Round, AllocError>
    requires trail { IsTrail known.old trail.old }
    requires within { AreWithin (length trail.old.values.items) known.old }
    ensures { IfOk result (IsRound strict known.old known.new fresh.old fresh.new trail.old trail.new) }
{
    if let Some(i) = watches.propagate(trail, known)? {
        let round = resolve_all(trail, known, fresh, lessons, activity, strict, i)?;
        return Ok(round);
    }
    match choose(&trail.values, known, activity, eliminated) {
        Some(l) => {
            trail.decide(l)?;
            Ok(Round::Moved)
        }
        None => match first_false(&trail.values, known) {
            Some(i) => {
                let round = resolve_all(trail, known, fresh, lessons, activity, strict, i)?;
                Ok(round)
            }
            None => Ok(Round::Full),
        },
    }
}
