//! A certificate that is changed step by step, and what is shown of it.
use crate::edits::edited;
use crate::ended::run_line;
use crate::places::{first_with, numbered, parted};
use crate::turns::turns;
use row_files::{Ended, first_line, joined};
use sk_base::push_number;
use std::alloc::{AllocError, Global};

/// What `check` is to read, in its parts, and what is shown.
#[derive(Debug, Drop)]
pub struct Draft {
    pub sketch: Vec<u8>,
    /// The line `//%%`, or what stands in its place.
    pub mark: Vec<u8>,
    /// The lines of the certificate that stay as they are.
    pub kept: Vec<u8>,
    /// Those behind them.
    pub text: Vec<u8>,
    pub shown: Vec<u8>,
    /// The answer of `check`, once it has run.
    pub checked: Option<Ended>,
}

impl Draft {
    /// A sketch, and what was written for it.
    pub fn new(alloc: Global, sketch: &[u8], text: &[u8]) -> Result<Draft, AllocError> {
        let sketch = Vec::from_slice(alloc, sketch)?;
        let text = Vec::from_slice(alloc, text)?;
        let mark = Vec::from_slice(alloc, b"//%%\n")?;
        Ok(Draft {
            sketch,
            mark,
            kept: Vec::new(alloc),
            text,
            shown: Vec::new(alloc),
            checked: None,
        })
    }
}

// What `check` reads.
fn input_of(alloc: Global, draft: &Draft) -> Result<Vec<u8>, AllocError> {
    joined(
        alloc,
        &[
            draft.sketch.as_slice(),
            draft.mark.as_slice(),
            draft.kept.as_slice(),
            draft.text.as_slice(),
        ],
    )
}

// The lines of a text with these numbers, from 1.
fn lines_of(alloc: Global, text: &[u8], from: u32, to: u32) -> Result<Vec<u8>, AllocError> {
    let mut out = Vec::new(alloc);
    let mut number = 0u32;
    let mut rest = text;
    while let Some(first) = first_line(rest) {
        number = number.saturating_add(1);
        if from <= number && number <= to {
            out.extend_from_slice(first.line)?;
            out.push(b'\n')?;
        }
        rest = first.rest;
    }
    Ok(out)
}

// How many lines of a text begin so.
fn count_of(text: &[u8], front: &[u8]) -> u64 {
    let mut count = 0u64;
    let mut rest = text;
    while let Some(first) = first_line(rest) {
        if first.line.starts_with(front) {
            count = count.saturating_add(1);
        }
        rest = first.rest;
    }
    count
}

// What a setting shows: `lines` and two numbers, or `counts` and what lines begin with. Nothing where it shows nothing.
fn shown(alloc: Global, text: &[u8], setting: &[u8]) -> Result<Option<Vec<u8>>, AllocError> {
    if let Some(front) = setting.strip_prefix(b"counts ") {
        let mut out = Vec::new(alloc);
        push_number(&mut out, count_of(text, front))?;
        out.push(b' ')?;
        out.extend_from_slice(front)?;
        out.push(b'\n')?;
        return Ok(Some(out));
    }
    match bounds_of(setting) {
        Some((from, to)) => {
            let out = lines_of(alloc, text, from, to)?;
            Ok(Some(out))
        }
        None => Ok(None),
    }
}

// The two numbers behind `lines`.
fn bounds_of(setting: &[u8]) -> Option<(u32, u32)> {
    let (from, rest) = numbered(setting.strip_prefix(b"lines ")?)?;
    let to = str::from_utf8(rest).ok()?.parse::<u32>().ok()?;
    Some((from, to))
}

// Puts the place of the changes behind the first line that begins so.
fn go_behind(alloc: Global, draft: &mut Draft, front: &[u8]) -> Result<bool, AllocError> {
    let Some(place) = first_with(draft.text.as_slice(), front) else {
        return Ok(false);
    };
    let mut kept = Vec::from_slice(alloc, draft.kept.as_slice())?;
    kept.extend_from_slice(place.before)?;
    kept.extend_from_slice(place.line)?;
    kept.push(b'\n')?;
    let text = Vec::from_slice(alloc, place.behind)?;
    draft.kept = kept;
    draft.text = text;
    Ok(true)
}

// The sketch of `check` is another one: what stands first in it becomes the other.
fn change_sketch(alloc: Global, draft: &mut Draft, parts: &[u8]) -> Result<bool, AllocError> {
    let Some((old, new)) = parted(parts) else {
        return Ok(false);
    };
    let Some(sketch) = with_other(alloc, draft.sketch.as_slice(), old, new)? else {
        return Ok(false);
    };
    draft.sketch = sketch;
    Ok(true)
}

// A text in which the first bytes that are the one are the other.
fn with_other(
    alloc: Global,
    text: &[u8],
    old: &[u8],
    new: &[u8],
) -> Result<Option<Vec<u8>>, AllocError> {
    for at in 0..text.len() {
        let (before, behind) = text.split_at(at);
        if let Some(behind) = behind.strip_prefix(old) {
            let out = joined(alloc, &[before, new, behind])?;
            return Ok(Some(out));
        }
    }
    Ok(None)
}

// Behind the sketch stands this alone.
fn leave_out(alloc: Global, draft: &mut Draft, mark: &[u8]) -> Result<(), AllocError> {
    draft.mark = Vec::from_slice(alloc, mark)?;
    draft.kept = Vec::new(alloc);
    draft.text = Vec::new(alloc);
    Ok(())
}

// Runs `check` with these words.
fn check(alloc: Global, draft: &mut Draft, words: &[u8]) -> Result<(), AllocError> {
    let input = input_of(alloc, draft)?;
    let ended = run_line(alloc, words, input)?;
    draft.checked = Some(ended);
    Ok(())
}

// Runs it once for each line that is left out.
fn check_turns(alloc: Global, draft: &mut Draft, setting: &[u8]) -> Result<bool, AllocError> {
    let front = joined(
        alloc,
        &[
            draft.sketch.as_slice(),
            draft.mark.as_slice(),
            draft.kept.as_slice(),
        ],
    )?;
    let Some(ended) = turns(alloc, front.as_slice(), draft.text.as_slice(), setting)? else {
        return Ok(false);
    };
    draft.checked = Some(ended);
    Ok(true)
}

// Shows or changes what a setting says; nothing where it says nothing.
fn show_or_edit(alloc: Global, draft: &mut Draft, setting: &[u8]) -> Result<bool, AllocError> {
    if let Some(more) = shown(alloc, draft.text.as_slice(), setting)? {
        draft.shown.extend_from_slice(more.as_slice())?;
        return Ok(true);
    }
    match edited(alloc, draft.text.as_slice(), setting)? {
        Some(text) => {
            draft.text = text;
            Ok(true)
        }
        None => Ok(false),
    }
}

/// Does what a setting says; nothing where it says nothing.
pub fn follow(alloc: Global, draft: &mut Draft, setting: &[u8]) -> Result<bool, AllocError> {
    if setting.starts_with(b"check") {
        check(alloc, draft, setting)?;
        return Ok(true);
    }
    if setting == b"bare".as_slice() {
        leave_out(alloc, draft, b"")?;
        return Ok(true);
    }
    if setting == b"unfed".as_slice() {
        leave_out(alloc, draft, b"//%%")?;
        return Ok(true);
    }
    if let Some(front) = setting.strip_prefix(b"behind ") {
        return go_behind(alloc, draft, front);
    }
    if let Some(parts) = setting.strip_prefix(b"sketch ") {
        return change_sketch(alloc, draft, parts);
    }
    if let Some(rest) = setting.strip_prefix(b"each ") {
        return check_turns(alloc, draft, rest);
    }
    show_or_edit(alloc, draft, setting)
}
