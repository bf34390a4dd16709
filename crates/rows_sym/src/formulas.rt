//! The formulas of queries for an input that speaks against a choice.

ghost use Rattle.std.specs.Prelude.{◌≤◌, length};
ghost use Rattle.sk_model.specs.Fill.{InRange};
ghost use Rattle.sk_oblig.specs.Formulas.{IsAskable, IsAsked};

use crate::sketch::{Source, expansion_in};
use sk_base::Bounds;
use sk_front::Expansion;
use sk_holes::{FillFault, fill};
use sk_model::{Choice, Expanded};
use sk_oblig::formula;
use sk_oblig_queries::{Query, obligations};
use std::alloc::{AllocError, Global};

// How many clauses the formula of a query has.
fn count_of(
    alloc: Global,
    expanded: &Expanded,
    bounds: &Bounds,
    query: &Query,
) -> Result<Option<usize>, AllocError>
    requires askable { IsAskable expanded.now bounds.now }
    requires asked { IsAsked expanded.now query.now }
{
    let encoded = formula(alloc, expanded, bounds, query)?;
    Ok(Some(encoded.clauses.len()))
}

// The same of a query of the obligation with a number, with a limit that no cost is above. There is nothing where no obligation
// has this number.
fn count_at(
    alloc: Global,
    expanded: &Expanded,
    bounds: &Bounds,
    choice: Choice,
    obligation: u32,
) -> Result<Option<usize>, AllocError>
    requires askable { IsAskable expanded.now bounds.now }
    requires range { InRange expanded.now choice }
{
    let all = obligations(alloc, &expanded.prog)?;
    if (obligation as usize) < all.len() {
        let limit = u64::MAX;
        count_of(
            alloc,
            expanded,
            bounds,
            &Query::BadAt {
                choice,
                obligation,
                limit,
            },
        )
    } else {
        Ok(None)
    }
}

// The same of a query of all obligations, or of the one with a number.
fn count_in(
    alloc: Global,
    expanded: &Expanded,
    bounds: &Bounds,
    choice: Choice,
    obligation: Option<u32>,
) -> Result<Option<usize>, AllocError>
    requires askable { IsAskable expanded.now bounds.now }
    requires range { InRange expanded.now choice }
{
    match obligation {
        None => count_of(
            alloc,
            expanded,
            bounds,
            &Query::Bad {
                choice,
                limit: None,
            },
        ),
        Some(obligation) => count_at(alloc, expanded, bounds, choice, obligation),
    }
}

// The same of an expansion, where the choice is in range.
#[tactic(auto, using(crate::proofs::Fillable::asked))]
fn counted(
    alloc: Global,
    it: &Expansion,
    choice: Choice,
    obligation: Option<u32>,
) -> Result<Option<usize>, AllocError>
    requires askable { IsAskable it.now.expanded it.now.bounds }
    requires few { length it.now.expanded.sites ≤ 4294967296 }
{
    match fill(alloc, &it.expanded, &choice) {
        Ok(_filled) => count_in(alloc, &it.expanded, &it.bounds, choice, obligation),
        Err(FillFault::Memory) => Err(AllocError),
        Err(FillFault::WrongLength | FillFault::OutOfRange { .. }) => Ok(None),
    }
}

/// How many clauses the formula has that asks for an input that speaks against a choice: one of any obligation, or of the one
/// with a number. There is nothing where the text means no sketch, and where the choice is not in range.
pub fn clauses_of(
    alloc: Global,
    source: &Source<'_>,
    choice: Choice,
    obligation: Option<u32>,
) -> Result<Option<usize>, AllocError> {
    match expansion_in(alloc, source) {
        Some(it) => counted(alloc, &it, choice, obligation),
        None => Ok(None),
    }
}
