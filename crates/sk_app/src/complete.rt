//! The completion of a text.

ghost use Rattle.std.specs.Prelude.{ℕ, List, ◌≡◌, ◌≤◌, true, length, IfOk};
ghost use Rattle.sk_opts.specs.Ranges.{IsInRanges};
ghost use Rattle.sk_front.specs.Texts.{most_bytes};
ghost use Rattle.sk_opts.specs.declared.line.Set.{Set};
ghost use Rattle.sk_all_text.specs.Formulas.{IsAskable};
ghost use Rattle.sk_all_text.specs.Built.{IsReady};
ghost use Rattle.sk_loop_laws.specs.Honest.{Honest, inputs_of};
ghost use Rattle.sk_loop_laws.specs.Shown.{HasRoom};
ghost use Rattle.sk_min_laws.specs.Best.{IsBest, NoneBelow};
ghost use Rattle.sk_min_certificate.specs.Certifications.{FillingsFit};
ghost use Rattle.sk_app.specs.Completing.{IsNoChoice};
ghost use Rattle.sk_app.specs.Prepared.{IsBuilding, IsFound, IsPossible};

use crate::ending::Ending;
use crate::prepare::Found;
use crate::result_text::{completed, spent_conflicts, spent_rounds};
use sk_base::{Bounds, Budget, List};
use sk_expand_sizes::SizeFault;
use sk_front::{SketchFault, TextFault, sized_expansion_of};
use sk_min_certificate::min::{Least, least};
use sk_min_certificate::{Certification, best_certification, none_certification};
use sk_model::{Choice, Expanded, Pair};
use sk_opts::Set;
use sk_types_laws::TypeFault;
use sk_watch::Watch;
use std::alloc::{AllocError, Global};

/// What is built of a text.
#[derive(Drop)]
pub enum Building {
    /// It reads as no tree.
    NotText(TextFault),
    /// It means no program.
    NotTyped(TypeFault),
    /// The program that it means is too large.
    TooLarge(SizeFault),
    /// The bounds and the expansion.
    Whole { bounds: Bounds, expanded: Expanded },
}

/// What is built of a text with the options of a line: the expansion of one that is taken, or why there is none.
fn built(alloc: Global, set: &Set, text: &[u8]) -> Result<Building, AllocError>
    requires short { length text.now ≤ most_bytes }
    requires set { IsInRanges set.now }
    ensures { IfOk result (λ built. IsBuilding set.now built text.now) }
{
    let expansion = match sized_expansion_of(alloc, set, text) {
        Ok(expansion) => expansion,
        Err(SketchFault::NotText(fault)) => return Ok(Building::NotText(fault)),
        Err(SketchFault::NotTyped(fault)) => return Ok(Building::NotTyped(fault)),
        Err(SketchFault::TooLarge(fault)) => return Ok(Building::TooLarge(fault)),
        Err(SketchFault::Memory) => return Err(AllocError),
    };
    Ok(Building::Whole {
        bounds: expansion.bounds,
        expanded: expansion.expanded,
    })
}

/// What is written of a choice that costs least, with a certificate. A proof may spend the budget of conflicts.
fn certified_best<W: Watch>(
    alloc: Global,
    expanded: &Expanded,
    bounds: &Bounds,
    budget: &Budget,
    choice: Choice,
    value: u64,
    pairs: List<Pair>,
    watch: &mut W,
) -> Result<Found, AllocError>
    requires askable { IsAskable expanded.now bounds.now }
    requires few { length expanded.now.sites ≤ 4294967296 }
    requires fits { FillingsFit expanded.now }
    requires honest { Honest expanded.now bounds.now pairs }
    requires best { IsBest expanded.now bounds.now choice value }
    requires below { NoneBelow expanded.now bounds.now (inputs_of pairs) value }
    requires room { HasRoom budget.now pairs }
    ensures found { (set : Set) (text : List ℕ) → IsReady set text bounds.now expanded.now → IfOk result (λ found. IsFound set budget.now true found text) }
    ensures possible { IfOk result (IsPossible budget.now) }
{
    let most = budget.conflicts;
    match best_certification(
        alloc,
        expanded,
        bounds,
        &choice,
        value,
        pairs.as_slice(),
        most,
        watch,
    )? {
        Certification::Text { out } => {
            let ending = Ending::Completed;
            Ok(Found::Ended { out, ending })
        }
        Certification::Spent {
            query,
            formula,
            log,
        } => {
            let best = Some(choice);
            let out = spent_conflicts(alloc, expanded, &best, most)?;
            let ending = Ending::SpentConflicts {
                pairs,
                query,
                formula,
                log,
                best,
            };
            Ok(Found::Ended { out, ending })
        }
    }
}

/// What is written where there is no completion, with a certificate. A proof may spend the budget of conflicts.
fn certified_none<W: Watch>(
    alloc: Global,
    expanded: &Expanded,
    bounds: &Bounds,
    budget: &Budget,
    pairs: List<Pair>,
    watch: &mut W,
) -> Result<Found, AllocError>
    requires askable { IsAskable expanded.now bounds.now }
    requires few { length expanded.now.sites ≤ 4294967296 }
    requires honest { Honest expanded.now bounds.now pairs }
    requires none { IsNoChoice expanded.now bounds.now (inputs_of pairs) }
    requires room { HasRoom budget.now pairs }
    ensures found { (set : Set) (text : List ℕ) → IsReady set text bounds.now expanded.now → IfOk result (λ found. IsFound set budget.now true found text) }
    ensures possible { IfOk result (IsPossible budget.now) }
{
    let most = budget.conflicts;
    match none_certification(alloc, expanded, bounds, pairs.as_slice(), most, watch)? {
        Certification::Text { out } => {
            let ending = Ending::NoCompletion { pairs };
            Ok(Found::Ended { out, ending })
        }
        Certification::Spent {
            query,
            formula,
            log,
        } => {
            let best = None;
            let out = spent_conflicts(alloc, expanded, &best, most)?;
            let ending = Ending::SpentConflicts {
                pairs,
                query,
                formula,
                log,
                best,
            };
            Ok(Found::Ended { out, ending })
        }
    }
}

/// Searches for a completion that costs least, and makes the result text.
fn search<W: Watch>(
    alloc: Global,
    expanded: &Expanded,
    bounds: &Bounds,
    budget: &Budget,
    cert: bool,
    watch: &mut W,
) -> Result<Found, AllocError>
    requires askable { IsAskable expanded.now bounds.now }
    requires few { length expanded.now.sites ≤ 4294967296 }
    requires fits { FillingsFit expanded.now }
    ensures found { (set : Set) (text : List ℕ) → IsReady set text bounds.now expanded.now → IfOk result (λ found. IsFound set budget.now cert found text) }
    ensures possible { IfOk result (IsPossible budget.now) }
{
    match least(alloc, expanded, bounds, budget, watch)? {
        Least::Best {
            choice,
            value,
            pairs,
        } => {
            if cert {
                let found = certified_best(
                    alloc, expanded, bounds, budget, choice, value, pairs, watch,
                )?;
                return Ok(found);
            }
            let out = completed(alloc, expanded, choice, value)?;
            let ending = Ending::Completed;
            Ok(Found::Ended { out, ending })
        }
        Least::Nothing { pairs } => {
            if cert {
                let found = certified_none(alloc, expanded, bounds, budget, pairs, watch)?;
                return Ok(found);
            }
            let out = Vec::from_slice(alloc, b"//@ none\n")?;
            let ending = Ending::NoCompletion { pairs };
            Ok(Found::Ended { out, ending })
        }
        Least::Rounds { pairs, best } => {
            let out = spent_rounds(alloc, expanded, &best, budget.rounds, pairs.as_slice())?;
            let ending = Ending::SpentRounds { pairs, best };
            Ok(Found::Ended { out, ending })
        }
        Least::Conflicts {
            pairs,
            query,
            formula,
            log,
            best,
        } => {
            let out = spent_conflicts(alloc, expanded, &best, budget.conflicts)?;
            let ending = Ending::SpentConflicts {
                pairs,
                query,
                formula,
                log,
                best,
            };
            Ok(Found::Ended { out, ending })
        }
    }
}

/// Completes a text with the options and budgets of a line, with a certificate or without.
pub fn complete<W: Watch>(
    alloc: Global,
    set: &Set,
    budget: &Budget,
    cert: bool,
    text: &[u8],
    watch: &mut W,
) -> Result<Found, AllocError>
    requires short { length text.now ≤ most_bytes }
    requires set { IsInRanges set.now }
    ensures found { IfOk result (λ found. IsFound set.now budget.now cert found text.now) }
    ensures possible { IfOk result (IsPossible budget.now) }
{
    match built(alloc, set, text)? {
        Building::NotText(fault) => Ok(Found::NotText(fault)),
        Building::NotTyped(fault) => Ok(Found::NotTyped(fault)),
        Building::TooLarge(fault) => Ok(Found::TooLarge(fault)),
        Building::Whole { bounds, expanded } => {
            let found = search(alloc, &expanded, &bounds, budget, cert, watch)?;
            Ok(found)
        }
    }
}
