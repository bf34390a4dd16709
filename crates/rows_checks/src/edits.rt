//! Changes of a text, line by line.
use crate::places::{first_with, numbered, parted};
use row_files::{first_line, joined, words_of};
use sk_base::push_number;
use std::alloc::{AllocError, Global};

// How a line becomes another.
#[derive(Debug, Clone, Copy)]
enum Edit<'a> {
    /// It is this one.
    Line(&'a [u8]),
    /// What it is known by becomes this.
    Front(&'a [u8]),
    /// Its word with this number, from 1, becomes this.
    Word(u32, &'a [u8]),
    /// Its word with this number, which is a number, becomes greater by 1.
    More(u32),
    /// It stands behind this one.
    Behind(&'a [u8]),
    /// It stands twice.
    Twice,
}

// A line is known by what it begins with.
#[derive(Debug, Clone, Copy)]
struct Change<'a> {
    front: &'a [u8],
    edit: Edit<'a>,
}

// What a setting says of one line.
fn change_of<'a>(setting: &'a [u8]) -> Option<Change<'a>> {
    if let Some(rest) = setting.strip_prefix(b"line ") {
        let (front, new) = parted(rest)?;
        return Some(Change {
            front,
            edit: Edit::Line(new),
        });
    }
    if let Some(rest) = setting.strip_prefix(b"front ") {
        let (front, new) = parted(rest)?;
        return Some(Change {
            front,
            edit: Edit::Front(new),
        });
    }
    if let Some(rest) = setting.strip_prefix(b"put ") {
        let (front, new) = parted(rest)?;
        return Some(Change {
            front,
            edit: Edit::Behind(new),
        });
    }
    counted_change_of(setting)
}

// What a setting says of a word of a line, or that the line stands twice.
fn counted_change_of<'a>(setting: &'a [u8]) -> Option<Change<'a>> {
    if let Some(rest) = setting.strip_prefix(b"word ") {
        let (number, rest) = numbered(rest)?;
        let (front, new) = parted(rest)?;
        return Some(Change {
            front,
            edit: Edit::Word(number, new),
        });
    }
    if let Some(rest) = setting.strip_prefix(b"more ") {
        let (number, front) = numbered(rest)?;
        return Some(Change {
            front,
            edit: Edit::More(number),
        });
    }
    let front = setting.strip_prefix(b"twice ")?;
    Some(Change {
        front,
        edit: Edit::Twice,
    })
}

// A line whose word with a number is another one.
fn with_word(alloc: Global, line: &[u8], number: u32, new: &[u8]) -> Result<Vec<u8>, AllocError> {
    let mut out = Vec::new(alloc);
    let mut at = 1u32;
    if number == 1 {
        out.extend_from_slice(new)?;
    }
    for byte in line {
        if *byte == b' ' {
            at = at.saturating_add(1);
            out.push(b' ')?;
            if at == number {
                out.extend_from_slice(new)?;
            }
        } else if at != number {
            out.push(*byte)?;
        }
    }
    Ok(out)
}

// The number that the word of a line with a number is; 0 where it is none.
fn number_at(alloc: Global, line: &[u8], number: u32) -> Result<u64, AllocError> {
    let words = words_of(alloc, line)?;
    let place = (number as usize).saturating_sub(1);
    match words.as_slice().get(place) {
        Some(word) => Ok(word.as_str().parse::<u64>().unwrap_or(0)),
        None => Ok(0),
    }
}

// A line whose word with a number is greater by 1.
fn with_more(alloc: Global, line: &[u8], number: u32) -> Result<Vec<u8>, AllocError> {
    let count = number_at(alloc, line, number)?;
    let mut digits = Vec::new(alloc);
    push_number(&mut digits, count.saturating_add(1))?;
    with_word(alloc, line, number, digits.as_slice())
}

// What a line becomes that begins so.
fn changed(alloc: Global, change: &Change, line: &[u8]) -> Result<Vec<u8>, AllocError> {
    match change.edit {
        Edit::Line(new) => Vec::from_slice(alloc, new),
        Edit::Front(new) => {
            let behind = line.strip_prefix(change.front).unwrap_or(line);
            joined(alloc, &[new, behind])
        }
        Edit::Word(number, new) => with_word(alloc, line, number, new),
        Edit::More(number) => with_more(alloc, line, number),
        Edit::Behind(new) => joined(alloc, &[new, b"\n", line]),
        Edit::Twice => joined(alloc, &[line, b"\n", line]),
    }
}

// The text without the lines that begin so.
fn without(alloc: Global, text: &[u8], front: &[u8]) -> Result<Vec<u8>, AllocError> {
    let mut out = Vec::new(alloc);
    let mut rest = text;
    while let Some(first) = first_line(rest) {
        if !first.line.starts_with(front) {
            out.extend_from_slice(first.line)?;
            out.push(b'\n')?;
        }
        rest = first.rest;
    }
    Ok(out)
}

// The text without its lines from the first that begins with the one up to the next that begins with the other.
fn cut(alloc: Global, text: &[u8], fronts: &[u8]) -> Result<Option<Vec<u8>>, AllocError> {
    let Some((front, end)) = parted(fronts) else {
        return Ok(None);
    };
    let Some(from) = first_with(text, front) else {
        return Ok(None);
    };
    let Some(to) = first_with(from.behind, end) else {
        return Ok(None);
    };
    let out = joined(alloc, &[from.before, to.line, b"\n", to.behind])?;
    Ok(Some(out))
}

// The text with its first line changed that begins so.
fn with_change(alloc: Global, text: &[u8], change: &Change) -> Result<Option<Vec<u8>>, AllocError> {
    let Some(place) = first_with(text, change.front) else {
        return Ok(None);
    };
    let line = changed(alloc, change, place.line)?;
    let out = joined(alloc, &[place.before, line.as_slice(), b"\n", place.behind])?;
    Ok(Some(out))
}

/// The text as a setting changes it: nothing where it changes nothing, or the text has no such line.
pub fn edited(alloc: Global, text: &[u8], setting: &[u8]) -> Result<Option<Vec<u8>>, AllocError> {
    if let Some(front) = setting.strip_prefix(b"without ") {
        let out = without(alloc, text, front)?;
        return Ok(Some(out));
    }
    if let Some(fronts) = setting.strip_prefix(b"cut ") {
        return cut(alloc, text, fronts);
    }
    match change_of(setting) {
        Some(change) => with_change(alloc, text, &change),
        None => Ok(None),
    }
}
