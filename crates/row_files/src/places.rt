//! Marks of places in a text: the two bytes of `«`, and those of `»`.
ghost use Rattle.std.specs.Prelude.{◌<◌, length, IfSome};

use sk_base::push_number;
use std::alloc::{AllocError, Global};

/// A text without its marks.
#[derive(Debug, Drop)]
pub struct Unmarked {
    pub text: Vec<u8>,
    /// The byte offsets of the marks in this text, in decimal: `FROM TO` where it has both, and nothing without marks.
    pub place: Vec<u8>,
}

/// Takes the marks out of a text.
pub fn unmark(alloc: Global, marked: &[u8]) -> Result<Unmarked, AllocError> {
    let mut text = Vec::with_capacity(alloc, marked.len())?;
    let mut place = Vec::new(alloc);
    let mut rest = marked;
    while let [first, after @ ..] = rest {
        if let Some(behind) = behind_mark(rest) {
            push_place(&mut place, text.len())?;
            rest = behind;
        } else {
            text.push(*first)?;
            rest = after;
        }
    }
    Ok(Unmarked { text, place })
}

// What stands behind a mark at the front of a text.
fn behind_mark<'a>(text: &'a [u8]) -> Option<&'a [u8]>
    ensures shorter { IfSome result (λ rest. length rest.now < length text.now) }
{
    match text {
        [0xc2, 0xab, rest @ ..] => Some(rest),
        [0xc2, 0xbb, rest @ ..] => Some(rest),
        _ => None,
    }
}

// Appends a place, behind a blank where it is not the first.
fn push_place(place: &mut Vec<u8>, at: usize) -> Result<(), AllocError> {
    if !place.is_empty() {
        place.push(b' ')?;
    }
    push_number(place, at as u64)
}

// What stands behind both marks at the front of a text.
fn behind_marks<'a>(text: &'a [u8]) -> Option<&'a [u8]>
    ensures shorter { IfSome result (λ rest. length rest.now < length text.now) }
{
    let rest = behind_mark(text)?;
    behind_mark(rest)
}

/// What is wanted, with the place of the text where `«»` stands.
pub fn placed(alloc: Global, wanted: &[u8], place: &[u8]) -> Result<Vec<u8>, AllocError> {
    let mut out = Vec::with_capacity(alloc, wanted.len())?;
    let mut rest = wanted;
    while let [first, after @ ..] = rest {
        if let Some(behind) = behind_marks(rest) {
            out.extend_from_slice(place)?;
            rest = behind;
        } else {
            out.push(*first)?;
            rest = after;
        }
    }
    Ok(out)
}
