//! Listed choices in the order of their lists of values.

ghost use Rattle.std.specs.Prelude.{◌≡◌, ◌≤◌, OnOk, length};
ghost use Rattle.sk_all_listing.specs.Order.{inserted, is_before, place_of};

use sk_all_exclusions::Listed;
use std::alloc::AllocError;

/// Whether one list of values has the smaller value at the first place at which they differ.
#[tactic(auto, using(crate::proofs::Ordering::before))]
fn is_before(values: &[u64], others: &[u64]) -> bool
    ensures { result ≡ is_before values.now others.now }
{
    for i in 0..values.len() {
        if i >= others.len() {
            return false;
        }
        if values[i] < others[i] {
            return true;
        }
        if values[i] > others[i] {
            return false;
        }
    }
    false
}

/// How many stand before the first that a list of values is before.
#[tactic(auto, using(crate::proofs::Ordering::places))]
fn place_of(listed: &[Listed], values: &[u64]) -> usize
    ensures place { result ≡ place_of values.now listed.now }
    ensures within { result ≤ length listed.now }
{
    for i in 0..listed.len() {
        if is_before(values, listed[i].choice.values.as_slice()) {
            return i;
        }
    }
    listed.len()
}

/// Puts a listed choice before the first that it is before. A refusal ends the rounds.
#[tactic(auto, using(crate::proofs::Ordering::inserting))]
pub fn insert(listed: &mut Vec<Listed>, one: Listed) -> Result<(), AllocError>
    ensures { OnOk result (listed.new.items ≡ inserted one listed.old.items) }
{
    let place = place_of(listed.as_slice(), one.choice.values.as_slice());
    listed.insert(place, one)?;
    Ok(())
}
