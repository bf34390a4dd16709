//! What ends as want of memory although memory is at hand: limits that a text can reach, numbers that have no room, and cases
//! that no call brings about. A place that answers by one of these calls says which it is.
#![tactic(auto)]

ghost use Rattle.std.specs.Prelude.{◌≡◌, ◌<◌, ◌+◌, IfOk, OnErr};

use std::alloc::AllocError;

/// A case that no call brings about, as an operand of a type that no typed program has there. `docs/THEOREM.md` lists these
/// places by crate, each with why it never comes.
pub fn never() -> AllocError {
    AllocError
}

/// The levels of a walk are used up. `docs/LANGUAGE.md` states how many each walk has.
pub fn too_deep() -> AllocError {
    AllocError
}

/// A number has no room where it is kept. `docs/LANGUAGE.md` states how large each such number may be.
pub fn too_many() -> AllocError {
    AllocError
}

/// A place in a list as a number of 32 bits.
///
/// # Errors
///
/// The place has no room in them. A list of so many takes more than 4 GiB.
pub fn number_of(place: usize) -> Result<u32, AllocError>
    ensures number { IfOk result (λ n. n ≡ place) }
    ensures refused { OnErr result (4294967295 < place) }
{
    match u32::try_from(place) {
        Ok(number) => Ok(number),
        Err(_) => Err(too_many()),
    }
}

/// The number behind one.
///
/// # Errors
///
/// It has no room in 32 bits.
pub fn behind(number: u32) -> Result<u32, AllocError>
    ensures next { IfOk result (λ n. n ≡ number + 1) }
    ensures refused { OnErr result (number ≡ 4294967295) }
{
    match number.checked_add(1) {
        Some(next) => Ok(next),
        None => Err(too_many()),
    }
}
