// The search.
ghost use Rattle.std.specs.Prelude.{◌≡◌, ℕ, ◌+◌, ◌<◌, ◌≤◌, ◌++◌, ◌∷◌, [], List, length, All, map, unwrap_or, true, false, IfOk, OnOk, slice_index_or};
ghost use Rattle.sk_clause.specs.declared.lit.Lit.{Lit};
ghost use Rattle.sk_clause.specs.Problem.{AreWithin};
ghost use Rattle.sk_clause.specs.Meaning.{EachFollows, IsConsistent};
ghost use Rattle.sk_sat.specs.Trail.{IsTrail, effort};
ghost use Rattle.sk_sat.specs.Elimination.{Gathers};
ghost use Rattle.sk_sat.specs.Round.{Stands};
ghost use Rattle.sk_sat.specs.Search.{IsOutcome};

use crate::activity::Activity;
use crate::analysis::Lessons;
use crate::eliminated::Eliminated;
use crate::elimination::eliminate;
use crate::known::Known;
use crate::restarts::{Restarts, begin_anew};
use crate::round::{Round, round_of};
use crate::settle::back_to;
use crate::trail::Trail;
use crate::watches::Watches;
use sk_clause::ClauseList;
use sk_watch::{News, Watch};
use std::alloc::{AllocError, Global};

/// What a search came to.
#[derive(Debug, Drop)]
pub enum Outcome {
    /// A value for each variable, with which each clause is true.
    Sat(Vec<bool>),
    /// The empty clause follows.
    Unsat,
    /// As many clauses were learnt as the budget allows.
    Spent,
}

// The values, where each variable has one.
fn bits(alloc: Global, values: &[Option<bool>]) -> Result<Vec<bool>, AllocError>
    ensures { IfOk result (λ b. b.items ≡ map (λ o. unwrap_or o false) values.now) }
{
    values.iter().map(|o| o.unwrap_or(false)).collect(alloc)
}

// Whether there is a budget.
fn is_limited(budget: u64) -> bool
    ensures { 0 < budget → result ≡ true }
{
    budget > 0
}

// Watches the last clause, and ends the conflict that taught it. How many levels its literals had.
fn learn_last(
    watches: &mut Watches,
    activity: &mut Activity,
    known: &Known,
    level: &[usize],
) -> Result<u32, AllocError> {
    let n = known.len();
    if n > 0 {
        let glue = watches.learn(known.get(n - 1), level)?;
        activity.end_conflict();
        return Ok(glue);
    }
    Ok(0)
}

// Eliminates variables, if it is time for that, at level 0.
#[tactic(auto, using(crate::proofs::GatherLemmas::reductions))]
fn reduce(
    alloc: Global,
    trail: &mut Trail,
    known: &mut Known,
    fresh: &mut ClauseList,
    watches: &mut Watches,
    activity: &mut Activity,
    eliminated: &mut Eliminated,
    restarts: &mut Restarts,
) -> Result<(), AllocError>
    requires { IsTrail known.old trail.old }
    ensures trail { OnOk result (IsTrail known.new trail.new) }
    ensures long { length trail.new.values.items ≡ length trail.old.values.items }
    ensures gathers { OnOk result (Gathers known.old known.new fresh.old fresh.new) }
    ensures less { OnOk result (effort restarts.new.left trail.new ≤ effort restarts.old.left trail.old) }
{
    if !restarts.eliminates(eliminated) {
        return Ok(());
    }
    back_to(trail, known, activity, 0);
    eliminate(
        alloc,
        &trail.values,
        known,
        fresh,
        watches,
        activity,
        eliminated,
    )?;
    Ok(())
}

/// Searches on from a trail for values with which the known clauses are true, and adds each clause that it learns to
/// both lists, of which the watcher is told. With budget 0 it ends only with an answer.
#[tactic(auto, using(crate::proofs::SearchLemmas::searches))]
pub fn search<W: Watch>(
    alloc: Global,
    trail: &mut Trail,
    known: &mut Known,
    fresh: &mut ClauseList,
    watches: &mut Watches,
    lessons: &mut Lessons,
    activity: &mut Activity,
    eliminated: &mut Eliminated,
    budget: u64,
    watch: &mut W,
) -> Result<Outcome, AllocError>
    requires trail { IsTrail known.old trail.old }
    requires within { AreWithin (length trail.old.values.items) known.old }
    requires fresh { fresh.old ≡ [] }
    ensures grown { OnOk result (known.new ≡ known.old ++ fresh.new) }
    ensures each { OnOk result (EachFollows known.old fresh.new) }
    ensures consistent { OnOk result (All IsConsistent fresh.new) }
    ensures within { OnOk result (AreWithin (length trail.old.values.items) known.new) }
    ensures stands { OnOk result (Stands known.new trail.old trail.new) }
    ensures outcome { IfOk result (IsOutcome (length trail.old.values.items) known.old fresh.new budget) }
{
    let restarts = &mut Restarts::new();
    let strict = is_limited(budget);
    let mut left = budget;
    'rounds: loop {
        match round_of(
            trail, known, fresh, watches, lessons, activity, eliminated, strict,
        )? {
            Round::Refuted => return Ok(Outcome::Unsat),
            Round::Full => return Ok(Outcome::Sat(bits(alloc, &trail.values)?)),
            Round::Moved => continue,
            Round::Learnt => {
                watch.tell(News::Conflict {
                    restarts: restarts.done,
                });
                let glue = learn_last(watches, activity, known, &trail.level)?;
                if left == 1 {
                    return Ok(Outcome::Spent);
                }
                left = left.saturating_sub(1);
                begin_anew(trail, activity, restarts, glue);
                if strict {
                    continue;
                }
                reduce(
                    alloc, trail, known, fresh, watches, activity, eliminated, restarts,
                )?;
            }
        }
    }
}
