//! Compares how the lines of rows end with what the rows say.
use crate::places::{placed, unmark};
use crate::reports::{joined, no_row, titled};
use crate::rows::{BlockRow, LineRow, Row};
use crate::sections::{Section, first_section};
use std::alloc::{AllocError, Global};

/// How a line ends.
#[derive(Debug, Drop)]
pub struct Ended {
    /// A status, and behind a blank the message where there is one.
    pub head: Vec<u8>,
    /// What is written.
    pub body: Vec<u8>,
}

/// What runs the lines of rows.
pub trait Lines {
    /// How the line of these words ends on a text, where the row has these settings, in full lines. There is nothing where one
    /// of them sets nothing.
    fn end(
        &self,
        alloc: Global,
        words: &[u8],
        settings: &[u8],
        text: Vec<u8>,
    ) -> Result<Option<Ended>, AllocError>;

    /// How a line ends by a row in one line that wants this, and has this place in its text.
    fn wanted(&self, alloc: Global, wanted: &[u8], place: &[u8]) -> Result<Ended, AllocError>;
}

/// What is to be told of a row whose line ends otherwise than the row says.
pub fn judge_row<L: Lines>(
    alloc: Global,
    lines: &L,
    row: &Row<'_>,
) -> Result<Option<Vec<u8>>, AllocError> {
    match row {
        Row::Line(row) => judge_line(alloc, lines, row),
        Row::Block(row) => judge_block(alloc, lines, row),
        Row::Unreadable(line) => {
            let report = no_row(alloc, line)?;
            Ok(Some(report))
        }
    }
}

// What came is what is wanted, or begins with it where it has this end.
fn meets(wanted: &[u8], end: &[u8], came: &[u8]) -> bool {
    match wanted.strip_suffix(end) {
        Some(begin) => came.starts_with(begin),
        None => came == wanted,
    }
}

fn judge_line<L: Lines>(
    alloc: Global,
    lines: &L,
    row: &LineRow<'_>,
) -> Result<Option<Vec<u8>>, AllocError> {
    let marked = row.whole(alloc)?;
    let unmarked = unmark(alloc, marked.as_slice())?;
    let wanted = lines.wanted(alloc, row.wanted, unmarked.place.as_slice())?;
    let Some(came) = lines.end(alloc, row.around.words, b"", unmarked.text)? else {
        let report = titled(alloc, row.text, b"no setting\n")?;
        return Ok(Some(report));
    };
    let is_ending = meets(wanted.head.as_slice(), b"..", came.head.as_slice());
    if is_ending && wanted.body.as_slice() == came.body.as_slice() {
        return Ok(None);
    }
    let report = line_report(alloc, row, &came)?;
    Ok(Some(report))
}

fn line_report(alloc: Global, row: &LineRow<'_>, came: &Ended) -> Result<Vec<u8>, AllocError> {
    joined(
        alloc,
        &[
            row.around.words,
            b": ",
            row.text,
            b" => ",
            row.wanted,
            b"\ncame ",
            came.head.as_slice(),
            b"\n",
            came.body.as_slice(),
        ],
    )
}

fn judge_block<L: Lines>(
    alloc: Global,
    lines: &L,
    row: &BlockRow<'_>,
) -> Result<Option<Vec<u8>>, AllocError> {
    let marked = row.whole(alloc)?;
    let unmarked = unmark(alloc, marked.as_slice())?;
    let Some(came) = lines.end(alloc, row.words, row.settings, unmarked.text)? else {
        let report = titled(alloc, row.title, b"no setting\n")?;
        return Ok(Some(report));
    };
    if is_listed(alloc, row, unmarked.place.as_slice(), &came)? {
        return Ok(None);
    }
    let report = row.report(alloc, came.head.as_slice(), came.body.as_slice())?;
    Ok(Some(report))
}

// Whether a line ended as one of the answers says.
fn is_listed(
    alloc: Global,
    row: &BlockRow<'_>,
    place: &[u8],
    came: &Ended,
) -> Result<bool, AllocError> {
    let mut rest = row.answers;
    while let Some(first) = first_section(rest) {
        rest = first.rest;
        if is_answer(alloc, row, &first.section, place, came)? {
            return Ok(true);
        }
    }
    Ok(false)
}

// Whether a line ended as an answer says, with the place of the text where the answer has marks.
fn is_answer(
    alloc: Global,
    row: &BlockRow<'_>,
    answer: &Section<'_>,
    place: &[u8],
    came: &Ended,
) -> Result<bool, AllocError> {
    let head = answer.head.strip_prefix(b"or ").unwrap_or(answer.head);
    let head = placed(alloc, head, place)?;
    if !meets(head.as_slice(), b"..", came.head.as_slice()) {
        return Ok(false);
    }
    let body = row.spelt(alloc, answer.body)?;
    let body = placed(alloc, body.as_slice(), place)?;
    Ok(meets(body.as_slice(), b"..\n", came.body.as_slice()))
}
