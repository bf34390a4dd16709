//! What is told of rows that are wrong.
ghost use Rattle.std.specs.Prelude.{◌≡◌, IfOk};
ghost use Rattle.std.specs.List.{flat_map};
ghost use Rattle.row_files.specs.Reports.{head_text, titled_text};

use crate::rows::BlockRow;
use sk_base::push_number;
use std::alloc::{AllocError, Global};

/// Bytes one after another.
pub fn joined(alloc: Global, parts: &[&[u8]]) -> Result<Vec<u8>, AllocError>
    ensures { IfOk result (λ all. all.items ≡ flat_map (λ part. part.now) parts.now) }
{
    let mut all = Vec::new(alloc);
    for part in parts {
        all.extend_from_slice(*part)?;
    }
    Ok(all)
}

/// How a line ended: its status, and behind a blank the message where there is one.
pub fn head_of(alloc: Global, status: u8, message: &[u8]) -> Result<Vec<u8>, AllocError>
    ensures { IfOk result (λ head. head.items ≡ head_text status message.now) }
{
    let mut head = Vec::new(alloc);
    push_number(&mut head, u64::from(status))?;
    if !message.is_empty() {
        head.push(b' ')?;
        head.extend_from_slice(message)?;
    }
    Ok(head)
}

/// Tells of a line that is no row.
pub fn no_row(alloc: Global, line: &[u8]) -> Result<Vec<u8>, AllocError> {
    joined(alloc, &[b"no row: ", line, b"\n"])
}

/// Tells below a title what is wrong.
pub fn titled(alloc: Global, title: &[u8], told: &[u8]) -> Result<Vec<u8>, AllocError>
    ensures { IfOk result (λ report. report.items ≡ titled_text title.now told.now) }
{
    joined(alloc, &[b"=== ", title, b"\n", told])
}

impl BlockRow<'_> {
    /// Tells what the row wants, and how its line ended.
    pub fn report(&self, alloc: Global, head: &[u8], body: &[u8]) -> Result<Vec<u8>, AllocError> {
        joined(
            alloc,
            &[
                b"=== ",
                self.title,
                b"\n",
                self.answers,
                b"came ",
                head,
                b"\n",
                body,
            ],
        )
    }
}
