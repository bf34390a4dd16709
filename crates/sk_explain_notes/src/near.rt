//! Names that are nearly another.
ghost use Rattle.std.specs.Prelude.{◌≡◌, map, option_map, IfOk};
ghost use Rattle.sk_explain_notes.specs.Near.{edits, are_short, are_few, near_by, is_nearer, nearest};

use std::alloc::{AllocError, Global};
use strsim::generic_levenshtein;

/// Names are compared where they have at most so many bytes.
const LONGEST: usize = 40;

/// A name is near where at most so many edits lead to it.
const MOST_EDITS: usize = 2;

// How many edits lead from one name to another: bytes put in, taken out or changed.
fn edits(alloc: Global, from: &[u8], to: &[u8]) -> Result<usize, AllocError>
    ensures { IfOk result (λ count. count ≡ edits from.now to.now) }
{
    let count = generic_levenshtein(alloc, from, to)?;
    Ok(count)
}

// Whether both names are short enough to be compared.
fn are_short(from: &[u8], to: &[u8]) -> bool
    ensures { result ≡ are_short from.now to.now }
{
    from.len() <= LONGEST && to.len() <= LONGEST
}

// Whether a name is near a word of so many bytes where so many edits lead to it.
fn are_few(count: usize, bytes: usize) -> bool
    ensures { result ≡ are_few count bytes }
{
    1 <= count && count <= MOST_EDITS && count <= bytes / 2
}

/// How many edits lead to a name that is near a word: one at least, at most two, and no more than half of the bytes of the
/// word. Both have at most 40 bytes.
pub fn near_by(alloc: Global, word: &[u8], name: &[u8]) -> Result<Option<usize>, AllocError>
    ensures { IfOk result (λ count. count ≡ near_by word.now name.now) }
{
    if !are_short(word, name) {
        return Ok(None);
    }
    let count = edits(alloc, word, name)?;
    if are_few(count, word.len()) {
        Ok(Some(count))
    } else {
        Ok(None)
    }
}

// Whether a name is near a word, and fewer edits lead to it than to the name that was taken before.
fn is_nearer(
    alloc: Global,
    word: &[u8],
    taken: Option<&[u8]>,
    name: &[u8],
) -> Result<bool, AllocError>
    ensures { IfOk result (λ nearer. nearer ≡ is_nearer word.now (option_map (λ name. name.now) taken.entry) name.now) }
{
    let Some(count) = near_by(alloc, word, name)? else {
        return Ok(false);
    };
    match taken {
        None => Ok(true),
        Some(taken) => {
            let least = edits(alloc, word, taken)?;
            Ok(count < least)
        }
    }
}

/// The first of the names that are nearest to a word.
pub fn nearest<'a>(
    alloc: Global,
    word: &[u8],
    names: &[&'a [u8]],
) -> Result<Option<&'a [u8]>, AllocError>
    ensures { IfOk result (λ found. option_map (λ name. name.now) found ≡ nearest word.now (map (λ name. name.now) names.now)) }
{
    let mut found = None;
    for name in names {
        if is_nearer(alloc, word, found, *name)? {
            found = Some(*name);
        }
    }
    Ok(found)
}
