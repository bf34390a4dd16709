// Judging of rows.
use crate::ends::end_of;
use crate::ways::{Way, changed, way_of};
use row_files::{BlockRow, Judge, Row, Tally, first_line, first_section, titled};
use std::alloc::{AllocError, Global};

// Reads one text more.
fn add(alloc: Global, tally: &mut Tally, text: &[u8]) -> Result<(), AllocError> {
    let end = end_of(alloc, text)?;
    tally.add(end.as_bytes())
}

// The ends of the fronts of a text.
fn fronts(alloc: Global, tally: &mut Tally, text: &[u8]) -> Result<(), AllocError> {
    for at in 0..text.len() {
        add(alloc, tally, &text[..at])?;
    }
    Ok(())
}

// The ends of a text with each of its lines changed.
fn lines(alloc: Global, tally: &mut Tally, way: Way, text: &[u8]) -> Result<(), AllocError> {
    let mut before = 0usize;
    let mut rest = text;
    while let Some(first) = first_line(rest) {
        let front = text.get(..before).unwrap_or(text);
        let other = changed(alloc, way, front, first.line, first.rest)?;
        add(alloc, tally, other.as_slice())?;
        rest = first.rest;
        before = text.len() - rest.len().min(text.len());
    }
    Ok(())
}

// The ends of the texts of a row.
fn ends(alloc: Global, way: Way, text: &[u8]) -> Result<Vec<u8>, AllocError> {
    let mut tally = Tally::new(alloc);
    match way {
        Way::Whole => add(alloc, &mut tally, text)?,
        Way::Cut => fronts(alloc, &mut tally, text)?,
        Way::Without | Way::Twice | Way::AtEnd(_) | Way::AtDigit(_) => {
            lines(alloc, &mut tally, way, text)?
        }
    }
    tally.told()
}

fn judge_block(alloc: Global, row: &BlockRow) -> Result<Option<Vec<u8>>, AllocError> {
    let Some(way) = way_of(row.words) else {
        return Ok(Some(titled(alloc, row.title, b"no such words\n")?));
    };
    let Some(wanted) = first_section(row.answers) else {
        return Ok(Some(titled(alloc, row.title, b"no answer\n")?));
    };
    let came = ends(alloc, way, row.text.body)?;
    if came.as_slice() == wanted.section.body {
        return Ok(None);
    }
    Ok(Some(titled(alloc, row.title, came.as_slice())?))
}

/// Rows say how texts end that are read as certificates.
pub struct Certificates;

impl Judge for Certificates {
    fn judge(&self, alloc: Global, row: &Row<'_>) -> Result<Option<Vec<u8>>, AllocError> {
        match row {
            Row::Block(row) => judge_block(alloc, row),
            Row::Line(row) => Ok(Some(titled(alloc, row.text, b"no block\n")?)),
            Row::Unreadable(line) => Ok(Some(titled(alloc, line, b"unreadable\n")?)),
        }
    }
}
