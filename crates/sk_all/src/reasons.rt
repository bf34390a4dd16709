//! Why there is no completion.

ghost use Rattle.std.specs.Prelude.{◌≡◌, ◌+◌, ◌<◌, ◌++◌, All, IfOk, OnOk, None, length, true, false};
ghost use Rattle.sk_model.specs.Inputs.{IsInput};
ghost use Rattle.sk_loop_laws.specs.Honest.{inputs_of};
ghost use Rattle.sk_loop.specs.Formulas.{IsAskable};
ghost use Rattle.sk_oblig_queries.specs.declared.query.Query.TheVariants as query_form;
ghost use Rattle.sk_all.specs.Reasons.{AreDistinct, Explains, IsWhy, NonePasses, SomePasses, Thinned};

use crate::answer::Why;
use sk_base::{Bounds, Budget, List};
use sk_loop::oblig::watched_formula;
use sk_loop::{Found, synthesise};
use sk_loop_copies::copy_input;
use sk_loop_refuted::refuted;
use sk_model::{Expanded, Input, Pair};
use sk_oblig_queries::Query;
use sk_sat::Answer;
use sk_watch::{News, Phase, Watch};
use std::alloc::{AllocError, Global};

/// Puts copies of inputs behind others. After a refusal some of them may stand there, and the list is given up.
#[tactic(auto, using(crate::proofs::Copying::copies))]
pub fn push_inputs(
    alloc: Global,
    inputs: &mut List<Input>,
    more: &[Input],
) -> Result<(), AllocError>
    ensures { OnOk result (inputs.new ≡ inputs.old ++ more.now) }
{
    for i in 0..more.len() {
        let input = copy_input(alloc, &more[i])?;
        inputs.push(input)?;
    }
    Ok(())
}

/// The query for a choice that passes the inputs kept and the others.
fn wanted(alloc: Global, kept: &[Input], others: &[Input]) -> Result<Query, AllocError>
    ensures { IfOk result (λ query. query ≡ query_form.Wanted (kept.now ++ others.now) None) }
{
    let mut inputs = List::new(alloc);
    push_inputs(alloc, &mut inputs, kept)?;
    push_inputs(alloc, &mut inputs, others)?;
    Ok(Query::Wanted {
        inputs,
        limit: None,
    })
}

/// Whether some choice passes the inputs kept and the others.
fn is_passed<W: Watch>(
    alloc: Global,
    expanded: &Expanded,
    bounds: &Bounds,
    kept: &[Input],
    others: &[Input],
    watch: &mut W,
) -> Result<bool, AllocError>
    requires askable { IsAskable expanded.now bounds.now }
    ensures some { IfOk result (λ b. b ≡ true → SomePasses expanded.now bounds.now (kept.now ++ others.now)) }
    ensures none { IfOk result (λ b. b ≡ false → NonePasses expanded.now bounds.now (kept.now ++ others.now)) }
{
    watch.tell(News::Phase(Phase::Proving));
    let query = wanted(alloc, kept, others)?;
    let encoded = watched_formula(alloc, expanded, bounds, &query, watch)?;
    match refuted(alloc, &encoded, 0, watch)? {
        Answer::Sat(_) => Ok(true),
        Answer::Unsat(_) => Ok(false),
        Answer::Spent(_) => unreachable!(),
    }
}

/// Keeps the input with number i, unless no choice passes those kept and those behind it. A refusal ends the walk.
fn keep<W: Watch>(
    alloc: Global,
    expanded: &Expanded,
    bounds: &Bounds,
    kept: &mut List<Input>,
    all: &[Input],
    i: usize,
    watch: &mut W,
) -> Result<(), AllocError>
    requires askable { IsAskable expanded.now bounds.now }
    requires within { i < length all.now }
    requires thinned { Thinned expanded.now bounds.now all.now kept.old i }
    ensures { OnOk result (Thinned expanded.now bounds.now all.now kept.new (i + 1)) }
{
    let passed = is_passed(
        alloc,
        expanded,
        bounds,
        kept.as_slice(),
        &all[i + 1..],
        watch,
    )?;
    if passed {
        let input = copy_input(alloc, &all[i])?;
        kept.push(input)?;
        return Ok(());
    }
    Ok(())
}

/// Of inputs that no choice passes, those that explain it: one after another is left out where no choice passes the others.
#[tactic(auto, using(crate::proofs::Thinning::thinned))]
fn thin<W: Watch>(
    alloc: Global,
    expanded: &Expanded,
    bounds: &Bounds,
    all: &[Input],
    watch: &mut W,
) -> Result<List<Input>, AllocError>
    requires askable { IsAskable expanded.now bounds.now }
    requires are_inputs { All (IsInput expanded.now.prog bounds.now) all.now }
    requires distinct { AreDistinct all.now }
    requires none { NonePasses expanded.now bounds.now all.now }
    ensures { IfOk result (Explains expanded.now bounds.now) }
{
    let mut kept = List::new(alloc);
    for i in 0..all.len() {
        keep(alloc, expanded, bounds, &mut kept, all, i, watch)?;
    }
    Ok(kept)
}

/// The inputs of pairs.
#[tactic(auto, using(crate::proofs::Copying::inputs))]
fn inputs_of(alloc: Global, pairs: &[Pair]) -> Result<List<Input>, AllocError>
    ensures { IfOk result (λ inputs. inputs ≡ inputs_of pairs.now) }
{
    let mut inputs = List::new(alloc);
    for i in 0..pairs.len() {
        let input = copy_input(alloc, &pairs[i].input)?;
        inputs.push(input)?;
    }
    Ok(inputs)
}

/// Why no choice meets the obligations: inputs that no choice passes, though some passes all but any one of them. Where a choice
/// meets them, such a choice. Nothing is said of costs.
///
/// # Errors
///
/// Memory is wanting, or what a search counts as that.
#[tactic(auto, using(crate::proofs::Answering::answering))]
pub fn why<W: Watch>(
    alloc: Global,
    expanded: &Expanded,
    bounds: &Bounds,
    watch: &mut W,
) -> Result<Why, AllocError>
    requires askable { IsAskable expanded.now bounds.now }
    ensures { IfOk result (IsWhy expanded.now bounds.now) }
{
    let mut pairs = List::new(alloc);
    let budget = Budget {
        rounds: 0,
        conflicts: 0,
    };
    match synthesise(alloc, expanded, bounds, None, &mut pairs, &budget, watch)? {
        Found::Choice(choice) => Ok(Why::Met(choice)),
        Found::Nothing => {
            let inputs = inputs_of(alloc, pairs.as_slice())?;
            let kept = thin(alloc, expanded, bounds, inputs.as_slice(), watch)?;
            Ok(Why::Inputs(kept))
        }
        Found::Rounds => unreachable!(),
        Found::Conflicts { .. } => unreachable!(),
    }
}
