//! Certificates from which each line is left out in turn.
use crate::ended::run_line;
use crate::places::{parted, place_of};
use row_files::{Ended, first_line, joined};
use std::alloc::{AllocError, Global};

/// Which lines are left out in turn: those before the first that begins so; or it and those behind, up to one that begins with
/// the end, where there is an end.
#[derive(Debug, Clone, Copy)]
struct Range<'a> {
    front: &'a [u8],
    end: &'a [u8],
    is_before: bool,
}

// What a setting says of the lines: `before` or `from`, and what the first and the last line begin with.
fn range_of<'a>(setting: &'a [u8]) -> Option<Range<'a>> {
    if let Some(front) = setting.strip_prefix(b"before ") {
        return Some(Range {
            front,
            end: b"",
            is_before: true,
        });
    }
    let rest = setting.strip_prefix(b"from ")?;
    match parted(rest) {
        Some((front, end)) => Some(Range {
            front,
            end,
            is_before: false,
        }),
        None => Some(Range {
            front: rest,
            end: b"",
            is_before: false,
        }),
    }
}

// A status, and the first two words of its message.
fn three_words(head: &[u8]) -> &[u8] {
    let mut blanks = 0u8;
    for (at, byte) in head.iter().enumerate() {
        if *byte == b' ' {
            if blanks == 2 {
                return &head[..at];
            }
            blanks = blanks.saturating_add(1);
        }
    }
    head
}

// The line that tells how a run of `check` ends, without the place of a fault.
fn told(alloc: Global, ended: &Ended) -> Result<Vec<u8>, AllocError> {
    let head = three_words(ended.head.as_slice());
    match ended.body.as_slice() {
        [] => joined(alloc, &[head, b"\n"]),
        body => joined(alloc, &[head, b" ", body]),
    }
}

// How `check` ends on bytes in front of a text without one line.
fn end_without(
    alloc: Global,
    front: &[u8],
    before: &[u8],
    behind: &[u8],
) -> Result<Vec<u8>, AllocError> {
    let input = joined(alloc, &[front, before, behind])?;
    let ended = run_line(alloc, b"check", input)?;
    told(alloc, &ended)
}

// Adds how the line ends, unless the one before ended alike.
fn add(ends: &mut Vec<u8>, last: &[u8], end: &[u8]) -> Result<(), AllocError> {
    if last != end {
        ends.extend_from_slice(end)?;
    }
    Ok(())
}

// Whether a line is the first that is not left out again.
fn is_end(range: Range<'_>, line: &[u8]) -> bool {
    !range.end.is_empty() && line.starts_with(range.end)
}

// The ends of the turns, each once where several in a row are alike.
fn ends_of(
    alloc: Global,
    front: &[u8],
    text: &[u8],
    range: Range<'_>,
) -> Result<Vec<u8>, AllocError> {
    let mut ends = Vec::new(alloc);
    let mut last = Vec::new(alloc);
    let mut is_passed = false;
    let mut rest = text;
    while let Some(first) = first_line(rest) {
        if is_passed && is_end(range, first.line) {
            break;
        }
        is_passed = is_passed || first.line.starts_with(range.front);
        if is_passed != range.is_before {
            let place = place_of(text, rest.len(), first.line, first.rest);
            let end = end_without(alloc, front, place.before, place.behind)?;
            add(&mut ends, last.as_slice(), end.as_slice())?;
            last = end;
        }
        rest = first.rest;
    }
    Ok(ends)
}

/// How `check` ends on bytes in front of a text from which lines are left out in turn. Nothing where a setting does not say
/// which.
pub fn turns(
    alloc: Global,
    front: &[u8],
    text: &[u8],
    setting: &[u8],
) -> Result<Option<Ended>, AllocError> {
    let Some(range) = range_of(setting) else {
        return Ok(None);
    };
    let body = ends_of(alloc, front, text, range)?;
    let head = Vec::from_slice(alloc, b"ends")?;
    Ok(Some(Ended { head, body }))
}
