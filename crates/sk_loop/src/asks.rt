//! The demands of a formula that grows.

ghost use Rattle.std.specs.Prelude.{◌≡◌, ◌+◌, ◌<◌, ◌≤◌, ◌⊎◌, OnOk, length};
ghost use Rattle.sk_loop_laws.specs.Honest.{inputs_of};
ghost use Rattle.sk_loop_guesses.specs.Formulas.{IsAskable};
ghost use Rattle.sk_loop.specs.Session.{Asks, KeepsClauses};

use sk_base::Bounds;
use sk_loop_guesses::asking::Asking;
use sk_model::{Expanded, Pair};
use std::alloc::AllocError;

/// Asks also that the next input is passed.
#[tactic(auto, using(crate::proofs::Beginning::kept_made))]
pub fn ask(
    asking: &mut Asking,
    expanded: &Expanded,
    bounds: &Bounds,
    pairs: &[Pair],
    i: usize,
    limit: Option<u64>,
) -> Result<(), AllocError>
    requires askable { IsAskable expanded.now bounds.now }
    requires within { i < length pairs.now }
    requires asks { Asks asking.old expanded.now bounds.now (inputs_of pairs.now) limit i }
    ensures asks { OnOk result (Asks asking.new expanded.now bounds.now (inputs_of pairs.now) limit (i + 1)) }
    ensures formula { KeepsClauses asking.old.growing.encoded asking.new.growing.encoded }
{
    asking.add(expanded, bounds, &pairs[i].input, limit)
}

/// Asks that the inputs from a number on are passed. After a refusal some of them may be asked for.
#[tactic(auto, using(crate::proofs::Beginning::beginning))]
pub fn ask_from(
    asking: &mut Asking,
    expanded: &Expanded,
    bounds: &Bounds,
    pairs: &[Pair],
    from: usize,
    limit: Option<u64>,
) -> Result<(), AllocError>
    requires askable { IsAskable expanded.now bounds.now }
    requires from { from ≤ length pairs.now }
    requires asks { Asks asking.old expanded.now bounds.now (inputs_of pairs.now) limit from }
    ensures asks { OnOk result (Asks asking.new expanded.now bounds.now (inputs_of pairs.now) limit (length pairs.now)) }
    ensures formula { KeepsClauses asking.old.growing.encoded asking.new.growing.encoded }
{
    for i in from..pairs.len() {
        ask(asking, expanded, bounds, pairs, i, limit)?;
    }
    Ok(())
}

/// The number of the first input that is still to be asked for: where the limit is another one, each is.
pub fn first_to_ask(count: usize, most: Option<u64>, limit: Option<u64>) -> usize
    ensures { (result ≡ 0) ⊎ ((result ≡ count) × (most ≡ limit)) }
{
    match (most, limit) {
        (None, None) => count,
        (Some(a), Some(b)) => {
            if a == b {
                return count;
            }
            0
        }
        _ => 0,
    }
}
