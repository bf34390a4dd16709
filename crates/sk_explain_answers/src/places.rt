//! What of a text is shown, with its place.
use sk_base::{Name, Span};
use sk_explain_notes::Note;
use sk_explain_places::place_of;
use sk_model::Site;
use std::alloc::{AllocError, Global};

/// A part of a text is shown where it has at most so many bytes.
const LONGEST_SHOWN: usize = 60;

// Whether a part of a text can be shown within a line.
fn is_shown(part: &[u8]) -> bool {
    part.len() <= LONGEST_SHOWN && part.iter().all(|byte| 32 <= *byte && *byte <= 126)
}

// The bytes of a span of a text, where they can be shown within a line.
fn shown<'a>(text: &'a [u8], span: Span) -> Option<&'a [u8]> {
    match text.get(span.from as usize..span.to as usize) {
        Some(part) if is_shown(part) => Some(part),
        _ => None,
    }
}

// Appends the place where a span of a text begins.
fn push_place(note: &mut Note, text: &[u8], span: Span) -> Result<(), AllocError> {
    let from = span.from as usize;
    if from > text.len() {
        return Ok(());
    }
    note.word(b" at ")?;
    note.place(place_of(text, from))
}

/// Appends the place of a statement, and the statement itself where it is short.
pub fn push_statement(note: &mut Note, text: &[u8], span: Span) -> Result<(), AllocError> {
    push_place(note, text, span)?;
    match shown(text, span) {
        Some(statement) => note.say(&[b", ", statement]),
        None => Ok(()),
    }
}

// Appends what stands open, where that is short, and its place.
fn push_part(note: &mut Note, text: &[u8], span: Span) -> Result<(), AllocError> {
    match shown(text, span) {
        Some(part) => note.word(part)?,
        None => note.word(b"an open part")?,
    }
    push_place(note, text, span)
}

/// What stands open at a site, where that is short, and its place.
pub fn part_text(alloc: Global, text: &[u8], site: Option<&Site>) -> Result<Name, AllocError> {
    let mut note = Note::new(alloc);
    match site {
        Some(site) => push_part(&mut note, text, site.span)?,
        None => note.word(b"an open part")?,
    }
    Name::from_slice(alloc, note.as_bytes())
}
