//! Choices that pass some inputs and agree with none that is listed.

ghost use Rattle.std.specs.Prelude.{◌≡◌, All, IfOk, None};
ghost use Rattle.sk_all_exclusions.specs.Exclusions.{IsListed};
ghost use Rattle.sk_all.specs.Formulas.{IsAskable};
ghost use Rattle.sk_oblig_queries.specs.declared.query.Query.TheVariants as query_form;
ghost use Rattle.sk_all_listing.specs.Rounds.{IsProposed};

use sk_all::session::oblig::watched_formula;
use sk_all_exclusions::{Listed, exclude};
use sk_base::{Bounds, List};
use sk_loop_copies::copy_input;
use sk_loop_refuted::refuted;
use sk_model::{Choice, Expanded, Input};
use sk_oblig_queries::{Query, choice_of};
use sk_sat::Answer;
use sk_watch::{News, Phase, Watch};
use std::alloc::{AllocError, Global};

/// Copies of inputs.
fn copy_inputs(alloc: Global, inputs: &[Input]) -> Result<List<Input>, AllocError>
    ensures { IfOk result (λ copies. copies ≡ inputs.now) }
{
    let mut copies = List::new(alloc);
    for i in 0..inputs.len() {
        let input = copy_input(alloc, &inputs[i])?;
        copies.push(input)?;
    }
    Ok(copies)
}

/// The query for a choice that passes inputs.
fn wanted(alloc: Global, inputs: &[Input]) -> Result<Query, AllocError>
    ensures { IfOk result (λ query. query ≡ query_form.Wanted inputs.now None) }
{
    let inputs = copy_inputs(alloc, inputs)?;
    Ok(Query::Wanted {
        inputs,
        limit: None,
    })
}

/// A choice that passes the inputs and agrees with none that is listed where its sites stand.
#[tactic(auto, using(crate::proofs::Proposals::proposing))]
pub fn propose<W: Watch>(
    alloc: Global,
    expanded: &Expanded,
    bounds: &Bounds,
    inputs: &[Input],
    listed: &[Listed],
    watch: &mut W,
) -> Result<Option<Choice>, AllocError>
    requires askable { IsAskable expanded.now bounds.now }
    requires listed { All (IsListed expanded.now) listed.now }
    ensures { IfOk result (IsProposed expanded.now bounds.now inputs.now listed.now) }
{
    watch.tell(News::Phase(Phase::Proposing));
    let query = wanted(alloc, inputs)?;
    let mut encoded = watched_formula(alloc, expanded, bounds, &query, watch)?;
    exclude(alloc, expanded, bounds, &mut encoded, listed)?;
    match refuted(alloc, &encoded, 0, watch)? {
        Answer::Sat(values) => {
            let choice = choice_of(alloc, expanded, &encoded, values.as_slice())?;
            Ok(Some(choice))
        }
        Answer::Unsat(_) => Ok(None),
        Answer::Spent(_) => unreachable!(),
    }
}
