// From a false clause to a lesson.
ghost use Rattle.std.specs.Prelude.{◌≡◌, ◌≢◌, ◌↔◌, ℕ, ◌+◌, ◌<◌, ◌≤◌, ◌++◌, ◌∷◌, [], List, length, Contains, IsTrue, true, false, IfOk, OnOk, IfSome, IfNone, slice_index, slice_index_or};
ghost use Rattle.sk_clause.specs.declared.lit.Lit.{Lit};
ghost use Rattle.sk_clause.specs.Meaning.{Includes};
ghost use Rattle.sk_clause.specs.Problem.{IsWithin, AreWithin};
ghost use Rattle.sk_sat.specs.Trail.{IsTrail, IsBack};
ghost use Rattle.sk_sat.specs.Analysis.{IsFalsified, IsLesson, level_at};
ghost use Rattle.sk_sat.specs.Round.{IsStep, IsDeep, IsConflictDepth, IsUnlike, IsInside, Learns, StepsOn, FallsBack};

use crate::activity::Activity;
use crate::analysis::{Lessons, deepest_packed};
use crate::known::{Known, has_packed};
use crate::trail::Trail;
use sk_clause::{ClauseList, Lit};
use std::alloc::AllocError;

/// What dealing with one conflict came to.
#[derive(Clone, Copy, Debug)]
pub enum Step {
    /// A clause was learnt, which forces a literal at an earlier level.
    Learnt,
    /// A known clause forces a literal at an earlier level.
    Forced,
    /// The empty clause follows.
    Refuted,
    /// The known clause of this number is false at an earlier level.
    Again(usize),
}

// A known clause that a clause includes, where repeats are not wanted.
fn find_repeated(strict: bool, known: &Known, clause: &[Lit]) -> Option<usize>
    ensures some { IfSome result (IsInside known.now clause.now) }
    ensures none { IfNone result (strict ≡ true → IsUnlike known.now clause.now) }
{
    if strict {
        return known.find_inside(clause);
    }
    None
}

// Adds the lesson, and goes back to where it forces a literal.
fn heed(
    trail: &mut Trail,
    known: &mut Known,
    fresh: &mut ClauseList,
    activity: &mut Activity,
    strict: bool,
    clause: &[Lit],
    turn: Lit,
    back: usize,
) -> Result<(), AllocError>
    requires trail { IsTrail known.old trail.old }
    requires lesson { IsLesson known.old trail.old.values.items trail.old.level.items (length trail.old.lims.items) clause.now turn back }
    requires unlike { strict ≡ true → IsUnlike known.old clause.now }
    ensures { OnOk result (Learns strict known.old known.new fresh.old fresh.new trail.old trail.new) }
{
    trail.cancel(back, activity);
    let id = known.len();
    known.push(clause)?;
    fresh.push(clause)?;
    trail.force(turn, id)?;
    Ok(())
}

// Goes back to where known clause j, which the lesson includes, forces a literal or is false. Whether it is false.
fn repeat(
    trail: &mut Trail,
    known: &Known,
    activity: &mut Activity,
    clause: &[Lit],
    turn: Lit,
    back: usize,
    j: usize,
) -> Result<bool, AllocError>
    requires trail { IsTrail known.now trail.old }
    requires lesson { IsLesson known.now trail.old.values.items trail.old.level.items (length trail.old.lims.items) clause.now turn back }
    requires inside { IsInside known.now clause.now j }
    ensures falls { IfOk result (λ b. b ≡ true → FallsBack known.now j trail.old trail.new) }
    ensures steps { IfOk result (λ b. b ≡ false → StepsOn known.now trail.old trail.new) }
{
    trail.cancel(back, activity);
    if !has_packed(known.get(j), turn) {
        return Ok(true);
    }
    trail.force(turn, j)?;
    Ok(false)
}

// Learns the lesson, or finds that a known clause says as much.
fn conclude(
    trail: &mut Trail,
    known: &mut Known,
    fresh: &mut ClauseList,
    activity: &mut Activity,
    strict: bool,
    clause: &[Lit],
    turn: Lit,
    back: usize,
) -> Result<Step, AllocError>
    requires trail { IsTrail known.old trail.old }
    requires lesson { IsLesson known.old trail.old.values.items trail.old.level.items (length trail.old.lims.items) clause.now turn back }
    ensures { IfOk result (IsStep strict known.old known.new fresh.old fresh.new trail.old trail.new) }
{
    match find_repeated(strict, known, clause) {
        None => {
            heed(trail, known, fresh, activity, strict, clause, turn, back)?;
            Ok(Step::Learnt)
        }
        Some(j) => {
            if repeat(trail, known, activity, clause, turn, back, j)? {
                return Ok(Step::Again(j));
            }
            Ok(Step::Forced)
        }
    }
}

// Deals with a conflict at the last level.
fn learn(
    trail: &mut Trail,
    known: &mut Known,
    fresh: &mut ClauseList,
    lessons: &mut Lessons,
    activity: &mut Activity,
    strict: bool,
    conflict: usize,
) -> Result<Step, AllocError>
    requires trail { IsTrail known.old trail.old }
    requires within { AreWithin (length trail.old.values.items) known.old }
    requires conflict { IsFalsified known.old trail.old.values.items conflict }
    requires deep { IsDeep known.old trail.old.level.items (length trail.old.lims.items) conflict }
    requires some { 0 < length trail.old.lims.items }
    ensures { IfOk result (IsStep strict known.old known.new fresh.old fresh.new trail.old trail.new) }
{
    let (turn, back) = lessons.analyze(trail, known, activity, conflict)?;
    let step = conclude(
        trail,
        known,
        fresh,
        activity,
        strict,
        lessons.clause(),
        turn,
        back,
    )?;
    Ok(step)
}

// The level of a conflict.
#[tactic(auto, using(crate::proofs::SettleLemmas::depths))]
fn depth_of(trail: &Trail, known: &Known, i: usize) -> usize
    requires trail { IsTrail known.now trail.now }
    requires within { AreWithin (length trail.now.values.items) known.now }
    requires conflict { IsFalsified known.now trail.now.values.items i }
    ensures { IsConflictDepth known.now trail.now i result }
{
    deepest_packed(&trail.level, known.get(i))
}

/// Goes back to a level, which may be the last one.
#[tactic(auto, using(crate::proofs::SettleLemmas::backs))]
pub fn back_to(trail: &mut Trail, known: &Known, activity: &mut Activity, depth: usize)
    requires trail { IsTrail known.now trail.old }
    requires depth { depth ≤ length trail.old.lims.items }
    ensures trail { IsTrail known.now trail.new }
    ensures back { IsBack depth trail.old trail.new }
{
    if depth < trail.lims.len() {
        trail.cancel(depth, activity);
    }
}

// Deals with a conflict.
#[tactic(auto, using(crate::proofs::SettleLemmas::settles))]
fn step_of(
    trail: &mut Trail,
    known: &mut Known,
    fresh: &mut ClauseList,
    lessons: &mut Lessons,
    activity: &mut Activity,
    strict: bool,
    i: usize,
) -> Result<Step, AllocError>
    requires trail { IsTrail known.old trail.old }
    requires within { AreWithin (length trail.old.values.items) known.old }
    requires conflict { IsFalsified known.old trail.old.values.items i }
    ensures { IfOk result (IsStep strict known.old known.new fresh.old fresh.new trail.old trail.new) }
{
    let depth = depth_of(trail, known, i);
    if depth == 0 {
        return Ok(Step::Refuted);
    }
    back_to(trail, known, activity, depth);
    let step = learn(trail, known, fresh, lessons, activity, strict, i)?;
    Ok(step)
}

/// Deals with conflicts until a clause forces a literal or the empty clause follows; never answers `Again`.
pub fn settle(
    trail: &mut Trail,
    known: &mut Known,
    fresh: &mut ClauseList,
    lessons: &mut Lessons,
    activity: &mut Activity,
    strict: bool,
    i: usize,
) -> Result<Step, AllocError>
    requires trail { IsTrail known.old trail.old }
    requires within { AreWithin (length trail.old.values.items) known.old }
    requires conflict { IsFalsified known.old trail.old.values.items i }
    ensures step { IfOk result (IsStep strict known.old known.new fresh.old fresh.new trail.old trail.new) }
    ensures ends { IfOk result (λ s. (j : ℕ) → s ≢ Again j) }
{
    let mut conflict = i;
    'conflicts: loop {
        match step_of(trail, known, fresh, lessons, activity, strict, conflict)? {
            Step::Again(j) => conflict = j,
            Step::Learnt => return Ok(Step::Learnt),
            Step::Forced => return Ok(Step::Forced),
            Step::Refuted => return Ok(Step::Refuted),
        }
    }
}

ghost use Rattle.sk_sat.specs.declared.settle.Step.TheVariants.{Again};
