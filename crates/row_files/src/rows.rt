//! The rows of a file.
ghost use Rattle.std.specs.Prelude.{◌<◌, ◌≤◌, length};

use crate::escapes::unescaped;
use crate::lines::{FirstLine, first_line};
use crate::reports::joined;
use crate::sections::{Section, ends_block, first_section, lines_before_mark};
use std::alloc::{AllocError, Global};

/// What the nearest lines `words`, `before`, `behind` and `escaped` above a row in one line say of it. A line `words` says that
/// nothing stands before and behind the text, and that it stands without escapes.
#[derive(Debug, Clone, Copy, PartialEq, Eq)]
pub struct Around<'a> {
    /// What is done with the text.
    pub words: &'a [u8],
    pub before: &'a [u8],
    pub behind: &'a [u8],
    /// Whether the text stands with escapes.
    pub is_escaped: bool,
}

/// What is said of a row that has no such lines above it.
const NOTHING: Around<'static> = Around {
    words: b"",
    before: b"",
    behind: b"",
    is_escaped: false,
};

/// A row in one line.
#[derive(Debug, Clone, Copy, PartialEq, Eq)]
pub struct LineRow<'a> {
    pub around: Around<'a>,
    /// The text as it stands in the row.
    pub text: &'a [u8],
    /// What stands behind the last ` => `.
    pub wanted: &'a [u8],
}

/// A row in a block.
#[derive(Debug, Clone, Copy, PartialEq, Eq)]
pub struct BlockRow<'a> {
    pub title: &'a [u8],
    /// The line behind the title: what is done with the text.
    pub words: &'a [u8],
    /// Whether the text and what is wanted stand with escapes: whether the next line is `escaped`.
    pub is_escaped: bool,
    /// The other full lines before the text.
    pub settings: &'a [u8],
    /// The text. Its head is what else its mark says.
    pub text: Section<'a>,
    /// The sections behind the text, each an answer.
    pub answers: &'a [u8],
}

/// A row of a file.
#[derive(Debug, Clone, Copy, PartialEq, Eq)]
pub enum Row<'a> {
    Line(LineRow<'a>),
    Block(BlockRow<'a>),
    /// A line that is none, or the title of a block without words or without a text.
    Unreadable(&'a [u8]),
}

impl LineRow<'_> {
    /// The whole text, with what stands before and behind it.
    pub fn whole(&self, alloc: Global) -> Result<Vec<u8>, AllocError> {
        let around = self.around;
        let text = joined(alloc, &[around.before, self.text, around.behind])?;
        if around.is_escaped {
            return unescaped(alloc, text.as_slice());
        }
        Ok(text)
    }
}

impl BlockRow<'_> {
    /// The whole text.
    pub fn whole(&self, alloc: Global) -> Result<Vec<u8>, AllocError> {
        self.spelt(alloc, self.text.body)
    }

    /// What bytes of the row spell.
    pub(crate) fn spelt(&self, alloc: Global, bytes: &[u8]) -> Result<Vec<u8>, AllocError> {
        if self.is_escaped {
            unescaped(alloc, bytes)
        } else {
            Vec::from_slice(alloc, bytes)
        }
    }
}

// A row, and the bytes behind it.
#[derive(Clone, Copy)]
struct FirstRow<'a> {
    row: Row<'a>,
    rest: &'a [u8],
}

// The row that one line is.
fn line_row<'a>(around: Around<'a>, line: &'a [u8]) -> Row<'a> {
    for at in (0..line.len()).rev() {
        let (text, behind) = line.split_at(at);
        if let Some(wanted) = behind.strip_prefix(b" => ") {
            return Row::Line(LineRow {
                around,
                text,
                wanted,
            });
        }
    }
    Row::Unreadable(line)
}

// How many bytes stand before the line that ends a block, or before the end.
fn block_length(bytes: &[u8]) -> usize
    ensures { result ≤ length bytes.now }
{
    let mut rest = bytes;
    while let Some(first) = first_line(rest) {
        if ends_block(first.line) {
            break;
        }
        rest = first.rest;
    }
    bytes.len() - rest.len()
}

// Full lines without the blank ones at their end.
fn without_blank_lines<'a>(bytes: &'a [u8]) -> &'a [u8] {
    let mut bytes = bytes;
    while let [front @ .., b'\n'] = bytes {
        if !front.ends_with(b"\n") {
            break;
        }
        bytes = front;
    }
    bytes
}

// The block with this title, of the lines behind it.
fn block_row<'a>(title: &'a [u8], lines: &'a [u8]) -> Row<'a> {
    let lines = without_blank_lines(lines);
    let (settings, marks) = lines.split_at(lines_before_mark(lines));
    let Some(FirstLine { line: words, rest }) = first_line(settings) else {
        return Row::Unreadable(title);
    };
    let escaped = rest.strip_prefix(b"escaped\n");
    match first_section(marks) {
        None => Row::Unreadable(title),
        Some(first) => Row::Block(BlockRow {
            title,
            words,
            is_escaped: escaped.is_some(),
            settings: escaped.unwrap_or(rest),
            text: first.section,
            answers: first.rest,
        }),
    }
}

// The row whose first line this is, and the bytes behind the row.
fn first_row<'a>(around: Around<'a>, line: &'a [u8], rest: &'a [u8]) -> FirstRow<'a>
    ensures shorter { length result.rest.now ≤ length rest.now }
{
    let Some(title) = line.strip_prefix(b"=== ") else {
        let row = line_row(around, line);
        return FirstRow { row, rest };
    };
    let (lines, rest) = rest.split_at(block_length(rest));
    let row = block_row(title, lines);
    FirstRow { row, rest }
}

// What a line says of the rows behind it, if it is one that says this.
fn around_of<'a>(around: Around<'a>, line: &'a [u8]) -> Option<Around<'a>> {
    if let Some(words) = line.strip_prefix(b"words ") {
        return Some(Around { words, ..NOTHING });
    }
    if let Some(before) = line.strip_prefix(b"before ") {
        return Some(Around { before, ..around });
    }
    if line == b"escaped".as_slice() {
        return Some(Around {
            is_escaped: true,
            ..around
        });
    }
    let behind = line.strip_prefix(b"behind ")?;
    Some(Around { behind, ..around })
}

/// The rows of a file, in order.
pub fn read_rows<'a>(alloc: Global, bytes: &'a [u8]) -> Result<Vec<Row<'a>>, AllocError> {
    let mut rows = Vec::new(alloc);
    let mut around = NOTHING;
    let mut rest = bytes;
    while let Some(first) = first_line(rest) {
        rest = first.rest;
        let line = first.line;
        if line.is_empty() || line.starts_with(b"#") {
            continue;
        }
        if let Some(found) = around_of(around, line) {
            around = found;
            continue;
        }
        let found = first_row(around, line, rest);
        rest = found.rest;
        rows.push(found.row)?;
    }
    Ok(rows)
}
