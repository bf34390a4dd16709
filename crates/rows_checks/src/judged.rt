//! How the lines of rows end.
use crate::draft::{Draft, follow};
use crate::ended::run_line;
use row_files::{Ended, Judge, Lines, Row, first_line, judge_row};
use std::alloc::{AllocError, Global};

/// Rows say how certificates are made and changed, and how they are checked.
pub struct Checks;

impl Judge for Checks {
    fn judge(&self, alloc: Global, row: &Row<'_>) -> Result<Option<Vec<u8>>, AllocError> {
        judge_row(alloc, self, row)
    }
}

impl Lines for Checks {
    fn end(
        &self,
        alloc: Global,
        words: &[u8],
        settings: &[u8],
        text: Vec<u8>,
    ) -> Result<Option<Ended>, AllocError> {
        let mut draft = Draft::new(alloc, text.as_slice(), b"")?;
        let made = run_line(alloc, words, text)?;
        draft.text = made.body;
        let head = made.head;
        if !followed(alloc, &mut draft, settings)? {
            return Ok(None);
        }
        Ok(Some(answer(draft, head)))
    }

    // A row in one line wants a status and a message, and that nothing is written.
    fn wanted(&self, alloc: Global, wanted: &[u8], place: &[u8]) -> Result<Ended, AllocError> {
        let mut head = Vec::from_slice(alloc, wanted)?;
        if !place.is_empty() {
            head.push(b' ')?;
            head.extend_from_slice(place)?;
        }
        let body = Vec::new(alloc);
        Ok(Ended { head, body })
    }
}

// Does what each setting says. Whether each says something.
fn followed(alloc: Global, draft: &mut Draft, settings: &[u8]) -> Result<bool, AllocError> {
    let mut rest = settings;
    while let Some(first) = first_line(rest) {
        rest = first.rest;
        if !follow(alloc, draft, first.line)? {
            return Ok(false);
        }
    }
    Ok(true)
}

// How `check` ended; where it did not run, how the certificate was made, and what is shown of it.
fn answer(draft: Draft, head: Vec<u8>) -> Ended {
    let Draft { shown, checked, .. } = draft;
    match checked {
        Some(ended) => ended,
        None => Ended { head, body: shown },
    }
}
