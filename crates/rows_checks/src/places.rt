//! Lines of a text, found by what they begin with.
use row_files::first_line;

/// A line without its line feed, and what stands before and behind it.
#[derive(Debug, Clone, Copy)]
pub struct Place<'a> {
    pub before: &'a [u8],
    pub line: &'a [u8],
    pub behind: &'a [u8],
}

/// The place of the line in front of what is left of a text.
pub fn place_of<'a>(text: &'a [u8], left: usize, line: &'a [u8], behind: &'a [u8]) -> Place<'a> {
    let count = text.len().saturating_sub(left);
    let before = text.get(..count).unwrap_or(text);
    Place {
        before,
        line,
        behind,
    }
}

/// The first line that begins so.
pub fn first_with<'a>(text: &'a [u8], front: &[u8]) -> Option<Place<'a>> {
    let mut rest = text;
    while let Some(first) = first_line(rest) {
        if first.line.starts_with(front) {
            return Some(place_of(text, rest.len(), first.line, first.rest));
        }
        rest = first.rest;
    }
    None
}

/// What stands before the first ` => ` of a line, and behind it.
pub fn parted<'a>(line: &'a [u8]) -> Option<(&'a [u8], &'a [u8])> {
    for at in 0..line.len() {
        let (before, behind) = line.split_at(at);
        if let Some(behind) = behind.strip_prefix(b" => ") {
            return Some((before, behind));
        }
    }
    None
}

/// The number that stands before the first blank of a line, and what stands behind it.
pub fn numbered<'a>(line: &'a [u8]) -> Option<(u32, &'a [u8])> {
    for at in 0..line.len() {
        let (digits, behind) = line.split_at(at);
        if let Some(behind) = behind.strip_prefix(b" ") {
            let number = str::from_utf8(digits).ok()?.parse::<u32>().ok()?;
            return Some((number, behind));
        }
    }
    None
}
