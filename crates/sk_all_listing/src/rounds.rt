//! The rounds in which completions are found.

ghost use Rattle.std.specs.Prelude.{◌≡◌, ◌+◌, ◌<◌, ◌≤◌, All, IfOk, OnOk, length};
ghost use Rattle.sk_model.specs.Inputs.{IsInput};
ghost use Rattle.sk_min_laws.specs.Best.{Meeting};
ghost use Rattle.sk_all.specs.Formulas.{IsAskable};
ghost use Rattle.sk_all_listing.specs.Completions.{IsListing, choices_of};
ghost use Rattle.sk_all_listing.specs.Rounds.{AreListed, IsTurn, IsUnlisted};

use crate::answer::Listing;
use crate::order::insert;
use crate::proposing::propose;
use sk_all::session::{Countered, counter};
use sk_all_exclusions::Listed;
use sk_base::{Bounds, List};
use sk_holes_marks::{canonical, marks_of};
use sk_limits::too_many;
use sk_loop_copies::copy_choice;
use sk_model::{Choice, Expanded, Input};
use sk_watch::{News, Watch};
use std::alloc::{AllocError, Global};

/// What follows on a round.
#[derive(Debug, Drop)]
enum Turn {
    /// A further round.
    Again,
    /// Each completion agrees with one that is listed.
    Ended,
    /// As many are listed as were asked for, and there are others.
    Full,
}

/// Lists a completion that agrees with none that is listed, with 0 where its sites do not stand. A refusal ends the rounds.
fn list(
    alloc: Global,
    expanded: &Expanded,
    bounds: &Bounds,
    listed: &mut Vec<Listed>,
    choice: &Choice,
) -> Result<(), AllocError>
    requires askable { IsAskable expanded.now bounds.now }
    requires listed { AreListed expanded.now bounds.now listed.old.items }
    requires meeting { Meeting expanded.now bounds.now choice.now }
    requires other { IsUnlisted expanded.now listed.old.items choice.now }
    ensures listed { OnOk result (AreListed expanded.now bounds.now listed.new.items) }
    ensures longer { OnOk result (length listed.new.items ≡ length listed.old.items + 1) }
{
    let choice = canonical(alloc, expanded, choice)?;
    let marks = marks_of(alloc, expanded, &choice)?;
    insert(listed, Listed { choice, marks })?;
    Ok(())
}

/// One round: a choice is proposed, and an input is kept that speaks against it, or else it is listed. A refusal ends the rounds.
#[tactic(auto, using(crate::proofs::Lists::turning))]
fn take_turn<W: Watch>(
    alloc: Global,
    expanded: &Expanded,
    bounds: &Bounds,
    inputs: &mut List<Input>,
    listed: &mut Vec<Listed>,
    most: usize,
    watch: &mut W,
) -> Result<Turn, AllocError>
    requires askable { IsAskable expanded.now bounds.now }
    requires are_inputs { All (IsInput expanded.now.prog bounds.now) inputs.old }
    requires listed { AreListed expanded.now bounds.now listed.old.items }
    requires few { length listed.old.items ≤ most }
    ensures are_inputs { OnOk result (All (IsInput expanded.now.prog bounds.now) inputs.new) }
    ensures listed { OnOk result (AreListed expanded.now bounds.now listed.new.items) }
    ensures few { OnOk result (length listed.new.items ≤ most) }
    ensures turn { IfOk result (IsTurn expanded.now bounds.now most listed.new.items) }
{
    let Some(choice) = propose(
        alloc,
        expanded,
        bounds,
        inputs.as_slice(),
        listed.as_slice(),
        watch,
    )?
    else {
        return Ok(Turn::Ended);
    };
    match counter(alloc, expanded, bounds, &choice, None, 0, watch)? {
        Countered::Input(input) => {
            inputs.push(input)?;
            watch.tell(News::Input {
                count: inputs.len(),
            });
            Ok(Turn::Again)
        }
        Countered::None => {
            if listed.len() >= most {
                return Ok(Turn::Full);
            }
            list(alloc, expanded, bounds, listed, &choice)?;
            Ok(Turn::Again)
        }
        Countered::Conflicts { .. } => unreachable!(),
    }
}

/// Copies of the choices that are listed.
#[tactic(auto, using(crate::proofs::Lists::copying))]
fn choices_of(alloc: Global, listed: &[Listed]) -> Result<List<Choice>, AllocError>
    ensures { IfOk result (λ choices. choices ≡ choices_of listed.now) }
{
    let mut choices = List::new(alloc);
    for i in 0..listed.len() {
        let choice = copy_choice(alloc, &listed[i].choice)?;
        choices.push(choice)?;
    }
    Ok(choices)
}

/// The choices whose fillings meet their obligations, at most so many. No two of them agree where the sites of one stand, and
/// where there are no more, each other choice that meets its obligations agrees with one of them. Nothing is said of costs.
///
/// # Errors
///
/// Memory is wanting, or what a search counts as that.
#[tactic(auto, using(crate::proofs::Lists::answering))]
pub fn all<W: Watch>(
    alloc: Global,
    expanded: &Expanded,
    bounds: &Bounds,
    most: usize,
    watch: &mut W,
) -> Result<Listing, AllocError>
    requires askable { IsAskable expanded.now bounds.now }
    requires some { 0 < most }
    ensures { IfOk result (IsListing expanded.now bounds.now most) }
{
    let mut inputs = List::new(alloc);
    let mut listed = Vec::new(alloc);
    for _round in 0..u64::MAX {
        match take_turn(
            alloc,
            expanded,
            bounds,
            &mut inputs,
            &mut listed,
            most,
            watch,
        )? {
            Turn::Again => {}
            Turn::Ended => {
                let choices = choices_of(alloc, listed.as_slice())?;
                return Ok(Listing::All(choices));
            }
            Turn::Full => {
                let choices = choices_of(alloc, listed.as_slice())?;
                return Ok(Listing::More(choices));
            }
        }
    }
    Err(too_many())
}
