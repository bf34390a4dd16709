//! Lists of pairs.

ghost use Rattle.std.specs.Prelude.{◌≡◌, ◌≤◌, IfOk, length, take};
ghost use Rattle.sk_loop_laws.specs.Honest.{inputs_of};
ghost use Rattle.sk_loop.specs.Rounds.{HasKept, IsTurn};

use crate::found::Found;
use crate::turn::Turn;
use sk_base::{Bounds, Budget, List};
use sk_loop_copies::copy_input;
use sk_model::{Expanded, Input, Pair};
use std::alloc::{AllocError, Global};

/// The inputs of pairs.
#[tactic(auto, using(crate::proofs::Growing::input_steps))]
pub fn inputs_of(alloc: Global, pairs: &[Pair]) -> Result<List<Input>, AllocError>
    ensures { IfOk result (λ inputs. inputs ≡ inputs_of pairs.now) }
{
    let mut inputs = List::new(alloc);
    for i in 0..pairs.len() {
        let input = copy_input(alloc, &pairs[i].input)?;
        inputs.push(input)?;
    }
    Ok(inputs)
}

/// Takes the last pairs away, until so many are left.
#[tactic(auto, using(crate::proofs::Growing::cuts))]
pub fn cut(pairs: &mut List<Pair>, len: usize)
    requires { len ≤ length pairs.old }
    ensures { pairs.new ≡ take len pairs.old }
{
    while pairs.len() > len {
        pairs.pop();
    }
}

/// What follows on a round that found a pair.
pub fn turn_after(
    expanded: &Expanded,
    bounds: &Bounds,
    limit: Option<u64>,
    budget: &Budget,
    pairs: &List<Pair>,
) -> Turn
    requires { HasKept budget.now.rounds pairs.now }
    ensures { IsTurn expanded.now bounds.now limit budget.now pairs.now result }
{
    if budget.rounds == 0 || (pairs.len() as u64) < budget.rounds {
        return Turn::Again;
    }
    Turn::Ended(Found::Rounds)
}
