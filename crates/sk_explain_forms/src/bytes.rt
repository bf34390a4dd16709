//! Bytes that begin no token, where they begin a form that is left out.
ghost use Rattle.std.specs.Prelude.{◌≡◌};

use crate::forms::LeftOut;
use sk_explain_notes::Told;
use std::alloc::AllocError;

// The byte between two single quotes.
fn character(bytes: &[u8]) -> Option<u8> {
    match bytes {
        [b'\'', byte, b'\'', ..] if *byte != b'\\' => Some(*byte),
        _ => None,
    }
}

// The form that bytes begin.
fn form_of(bytes: &[u8]) -> Option<LeftOut> {
    if bytes.starts_with(b"'") {
        Some(LeftOut::Character)
    } else if bytes.starts_with(b"#include") {
        Some(LeftOut::Include)
    } else if bytes.starts_with(b"#define") {
        Some(LeftOut::Define)
    } else {
        None
    }
}

// The number of a character.
fn push_character(told: &mut Told, byte: u8) -> Result<(), AllocError>
    ensures { told.new.title ≡ told.old.title }
{
    told.notes.say(&[LeftOut::Character.note(), b", as "])?;
    told.notes.number(u64::from(byte))?;
    told.note(&[b" for '", &[byte], b"'"])
}

/// Tells which form of those that are left out begins with a byte that begins no token, and what to write in its place.
/// After a refusal title and notes are given up: nothing is told.
pub fn push_left_out_byte(told: &mut Told, text: &[u8], at: usize) -> Result<(), AllocError>
    ensures { told.new.title ≡ told.old.title }
{
    let Some((_, bytes)) = text.split_at_checked(at) else {
        return Ok(());
    };
    match (character(bytes), form_of(bytes)) {
        (Some(byte), _) => push_character(told, byte),
        (None, Some(form)) => told.note(&[form.note()]),
        (None, None) => Ok(()),
    }
}
