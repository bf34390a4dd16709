//! The greatest cost of a choice that meets every obligation.

ghost use Rattle.std.specs.Prelude.{◌≡◌, ◌↔◌, max, All, IfOk, IsTrue, Some};
ghost use Rattle.sk_loop_laws.specs.Honest.{Honest, inputs_of};
ghost use Rattle.sk_loop_laws.specs.Shown.{AreSpent, HasRoom};
ghost use Rattle.sk_model.specs.Fill.{InRange};
ghost use Rattle.sk_model.specs.Inputs.{IsInput};
ghost use Rattle.sk_loop.specs.Formulas.{IsAskable};
ghost use Rattle.sk_oblig_queries.specs.Queries.{IsBad};
ghost use Rattle.sk_min_laws.specs.Best.{Meeting, greatest_on};
ghost use Rattle.sk_min.specs.Search.{IsCheapest, IsCostlier, IsCostly, IsRaisedTo};

use crate::answer::Least;
use crate::search::{Costlier, Raised};
use sk_base::{Bounds, Budget, List};
use sk_limits::too_many;
use sk_loop::oblig::cost_of;
use sk_loop::{Countered, counter};
use sk_loop_copies::copy_choice;
use sk_model::{Choice, Expanded, Input, Pair};
use sk_watch::{News, Watch};
use std::alloc::{AllocError, Global};

// The larger of two costs.
fn larger(a: u64, b: u64) -> u64
    ensures { result ≡ max a b }
{
    if a < b { b } else { a }
}

// The greatest cost of a choice on the inputs of the pairs.
fn greatest_on(
    alloc: Global,
    expanded: &Expanded,
    bounds: &Bounds,
    choice: &Choice,
    pairs: &[Pair],
) -> Result<u64, AllocError>
    requires askable { IsAskable expanded.now bounds.now }
    requires range { InRange expanded.now choice.now }
    requires inputs { All (IsInput expanded.now.prog bounds.now) (inputs_of pairs.now) }
    ensures { IfOk result (λ v. v ≡ greatest_on expanded.now bounds.now choice.now (inputs_of pairs.now)) }
{
    let mut greatest = 0;
    for pair in pairs {
        let cost = cost_of(alloc, expanded, bounds, choice, &pair.input)?;
        greatest = larger(greatest, cost);
    }
    Ok(greatest)
}

// Whether there are as many pairs as the budget of rounds says.
fn are_spent(budget: &Budget, pairs: &List<Pair>) -> bool
    ensures { IsTrue result ↔ AreSpent budget.now.rounds pairs.now }
{
    budget.rounds != 0 && pairs.len() as u64 == budget.rounds
}

// Puts the choice and an input that costs it more than those of all pairs behind the pairs.
fn append<W: Watch>(
    alloc: Global,
    expanded: &Expanded,
    bounds: &Bounds,
    budget: &Budget,
    pairs: &mut List<Pair>,
    best: &Choice,
    input: Input,
    value: u64,
    watch: &mut W,
) -> Result<Costlier, AllocError>
    requires askable { IsAskable expanded.now bounds.now }
    requires meeting { Meeting expanded.now bounds.now best.now }
    requires honest { Honest expanded.now bounds.now pairs.old }
    requires room { HasRoom budget.now pairs.old }
    requires is { value ≡ greatest_on expanded.now bounds.now best.now (inputs_of pairs.old) }
    requires bad { IsBad expanded.now bounds.now best.now (Some value) input }
    ensures { IfOk result (IsCostlier expanded.now bounds.now budget.now best.now value pairs.old pairs.new) }
{
    let cost = cost_of(alloc, expanded, bounds, best, &input)?;
    let choice = copy_choice(alloc, best)?;
    pairs.push(Pair { choice, input })?;
    watch.tell(News::Input { count: pairs.len() });
    if are_spent(budget, pairs) {
        return Ok(Costlier::Rounds);
    }
    Ok(Costlier::Cost(cost))
}

// Looks for an input that costs the choice more than those of the pairs.
fn costlier<W: Watch>(
    alloc: Global,
    expanded: &Expanded,
    bounds: &Bounds,
    budget: &Budget,
    pairs: &mut List<Pair>,
    best: &Choice,
    value: u64,
    watch: &mut W,
) -> Result<Costlier, AllocError>
    requires askable { IsAskable expanded.now bounds.now }
    requires meeting { Meeting expanded.now bounds.now best.now }
    requires honest { Honest expanded.now bounds.now pairs.old }
    requires room { HasRoom budget.now pairs.old }
    requires is { value ≡ greatest_on expanded.now bounds.now best.now (inputs_of pairs.old) }
    ensures { IfOk result (IsCostlier expanded.now bounds.now budget.now best.now value pairs.old pairs.new) }
{
    match counter(
        alloc,
        expanded,
        bounds,
        best,
        Some(value),
        budget.conflicts,
        watch,
    )? {
        Countered::Input(input) => append(
            alloc, expanded, bounds, budget, pairs, best, input, value, watch,
        ),
        Countered::None => Ok(Costlier::None),
        Countered::Conflicts {
            query,
            formula,
            log,
        } => Ok(Costlier::Conflicts {
            query,
            formula,
            log,
        }),
    }
}

/// Looks for the greatest cost of a choice that meets every obligation. Each input that costs more than those before it stands
/// behind the pairs afterwards.
pub(crate) fn raise<W: Watch>(
    alloc: Global,
    expanded: &Expanded,
    bounds: &Bounds,
    budget: &Budget,
    mut pairs: List<Pair>,
    best: Choice,
    watch: &mut W,
) -> Result<Raised, AllocError>
    requires askable { IsAskable expanded.now bounds.now }
    requires costly { IsCostly expanded.now }
    requires meeting { Meeting expanded.now bounds.now best }
    requires honest { Honest expanded.now bounds.now pairs }
    requires cheapest { IsCheapest expanded.now bounds.now pairs best }
    requires room { HasRoom budget.now pairs }
    ensures { IfOk result (IsRaisedTo expanded.now bounds.now budget.now best pairs) }
{
    let mut value = greatest_on(alloc, expanded, bounds, &best, pairs.as_slice())?;
    for _turn in 0..u64::MAX {
        match costlier(
            alloc, expanded, bounds, budget, &mut pairs, &best, value, watch,
        )? {
            Costlier::Cost(cost) => value = cost,
            Costlier::None => return Ok(Raised::Top { pairs, best, value }),
            Costlier::Rounds => return Ok(Raised::Ended(Least::Rounds {
                pairs,
                best: Some(best),
            })),
            Costlier::Conflicts {
                query,
                formula,
                log,
            } => {
                return Ok(Raised::Ended(Least::Conflicts {
                    pairs,
                    query,
                    formula,
                    log,
                    best: Some(best),
                }));
            }
        }
    }
    Err(too_many())
}
