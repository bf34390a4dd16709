//! How the lines of rows end.
use crate::ended::run_line;
use crate::fates::{byte_fates, front_fates};
use crate::settings::{Settings, Texts, calm_settings, settings_of};
use row_files::{Ended, Judge, Lines, Row, head_of, joined, judge_row};
use std::alloc::{AllocError, Global};

/// Rows say how their lines end.
pub struct Cases;

impl Judge for Cases {
    fn judge(&self, alloc: Global, row: &Row<'_>) -> Result<Option<Vec<u8>>, AllocError> {
        judge_row(alloc, self, row)
    }
}

impl Lines for Cases {
    fn end(
        &self,
        alloc: Global,
        words: &[u8],
        settings: &[u8],
        text: Vec<u8>,
    ) -> Result<Option<Ended>, AllocError> {
        let Some(settings) = settings_of(alloc, settings)? else {
            return Ok(None);
        };
        let came = match settings.texts {
            Texts::Whole => ended(alloc, words, settings, text)?,
            Texts::Fronts => front_fates(alloc, words, text.as_slice())?,
            Texts::Bytes => byte_fates(alloc, words, text.as_slice())?,
        };
        Ok(Some(came))
    }

    // The line refuses the text with this message, and writes nothing.
    fn wanted(&self, alloc: Global, wanted: &[u8], place: &[u8]) -> Result<Ended, AllocError> {
        let mut message = Vec::from_slice(alloc, wanted)?;
        if !place.is_empty() {
            message.push(b' ')?;
            message.extend_from_slice(place)?;
        }
        let head = head_of(alloc, status_of(wanted), message.as_slice())?;
        let body = Vec::new(alloc);
        Ok(Ended { head, body })
    }
}

// The status of the endings with this message.
fn status_of(message: &[u8]) -> u8 {
    const BEGINS: [(&[u8], u8); 13] = [
        (b"usage", 10),
        (b"text ", 11),
        (b"type ", 12),
        (b"size ", 13),
        (b"read fault", 14),
        (b"write fault", 15),
        (b"too long", 16),
        (b"no memory", 17),
        (b"exec ", 18),
        (b"certificate ", 19),
        (b"adt ", 21),
        (b"fill ", 22),
        (b"tag", 23),
    ];
    for (begin, status) in BEGINS {
        if message.starts_with(begin) {
            return status;
        }
    }
    0
}

// How a line ends on a text, and on what it completes.
fn ended(
    alloc: Global,
    words: &[u8],
    settings: Settings,
    text: Vec<u8>,
) -> Result<Ended, AllocError> {
    if settings.is_damaged() {
        return damaged(alloc, words, settings, text);
    }
    let is_once = settings.once
        || settings.explained
        || settings.counted
        || !words.starts_with(b"synth");
    let came = run_line(alloc, words, text, settings)?;
    if is_once || came.head.as_slice() != b"0".as_slice() {
        return Ok(came);
    }
    completed_again(alloc, words, came)
}

// How a line ends over streams that fail. Behind it the same line writes over whole streams what begins with what was written. Where
// it does not, that is answered.
fn damaged(
    alloc: Global,
    words: &[u8],
    settings: Settings,
    text: Vec<u8>,
) -> Result<Ended, AllocError> {
    let again = Vec::from_slice(alloc, text.as_slice())?;
    let came = run_line(alloc, words, text, settings)?;
    let whole = run_line(alloc, words, again, calm_settings(alloc))?;
    if whole.body.as_slice().starts_with(came.body.as_slice()) {
        return Ok(came);
    }
    told_again(alloc, whole)
}

// An end that came where the line was run again, and is another than was wanted.
fn told_again(alloc: Global, again: Ended) -> Result<Ended, AllocError> {
    let head = joined(alloc, &[b"again ", again.head.as_slice()])?;
    let body = again.body;
    Ok(Ended { head, body })
}

// What was completed is itself a text, whose completion differs by its holes alone: it has none. Where it does not, that
// completion is answered.
fn completed_again(alloc: Global, words: &[u8], came: Ended) -> Result<Ended, AllocError> {
    let text = Vec::from_slice(alloc, came.body.as_slice())?;
    let again = run_line(alloc, words, text, calm_settings(alloc))?;
    if is_without_holes(again.body.as_slice(), came.body.as_slice()) {
        return Ok(came);
    }
    told_again(alloc, again)
}

// Whether a result has no holes, and is another one but for its holes.
fn is_without_holes(again: &[u8], first: &[u8]) -> bool {
    match again {
        [kept @ .., b'\n'] => again.ends_with(b"//@ holes\n") && first.starts_with(kept),
        _ => false,
    }
}
