//! What of a text is shown, with its place.
use crate::tokens::bytes_of;
use sk_base::Span;
use sk_explain_notes::Note;
use sk_explain_places::place_of;
use std::alloc::AllocError;

/// A part of a text is shown where it has at most so many bytes.
const LONGEST_SHOWN: usize = 60;

/// The bytes of a span of a text, where there are some and they can be shown within a line.
pub fn shown(text: &[u8], span: Span) -> Option<&[u8]> {
    let part = bytes_of(text, span);
    if !part.is_empty()
        && part.len() <= LONGEST_SHOWN
        && part.iter().all(|byte| 32 <= *byte && *byte <= 126)
    {
        Some(part)
    } else {
        None
    }
}

/// Appends the place of a byte of a text, where it has that byte.
pub fn push_place(note: &mut Note, text: &[u8], byte: u32) -> Result<(), AllocError> {
    let byte = byte as usize;
    if byte > text.len() {
        return Ok(());
    }
    note.place(place_of(text, byte))
}

/// Appends a part of a text that is left open, where it is short, and its place.
pub fn push_part(note: &mut Note, text: &[u8], span: Span) -> Result<(), AllocError> {
    match shown(text, span) {
        Some(part) => note.word(part)?,
        None => note.word(b"an open part")?,
    }
    note.word(b" at ")?;
    push_place(note, text, span.from)
}
