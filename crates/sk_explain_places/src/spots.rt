//! What is shown of a text at a place: the line, and a mark under the bytes that are meant.
ghost use Rattle.std.specs.Prelude.{◌≡◌, ◌++◌, ◌≤◌, length, map, take, IfOk, OnOk};
ghost use Rattle.sk_explain_places.specs.Spots.{pad, marks, marked, line_text, mark_text, excerpt_text, place_text, IsSpotOf};

use crate::lines::line_of;
use crate::places::{Place, place_of};
use crate::visible::{front, push_visible};
use sk_base::{Name, push_number};
use std::alloc::{AllocError, Global};

/// A line is shown where it has at most so many bytes.
const LONGEST_SHOWN: usize = 160;

/// A place of a text, its line, and how many bytes from the place on are marked.
#[derive(Debug, Drop)]
pub struct Spot {
    pub place: Place,
    /// The line, without its end.
    pub line: Name,
    pub width: usize,
}

/// How many bytes are marked of a span of so many, where so many of the line are left: those within the line, and one at
/// least.
fn marked(span: usize, left: usize) -> usize
    ensures { result ≡ marked span left }
{
    let within = if span < left { span } else { left };
    if within == 0 { 1 } else { within }
}

/// What is shown of a span of a text.
pub fn spot_of(alloc: Global, text: &[u8], from: usize, to: usize) -> Result<Spot, AllocError>
    requires within { from ≤ length text.now }
    ensures { IfOk result (IsSpotOf text.now from to) }
{
    let place = place_of(text, from);
    let line = line_of(text, from);
    let span = to.saturating_sub(from);
    let left = (line.len() + 1).saturating_sub(place.column);
    let width = marked(span, left);
    let line = Name::from_slice(alloc, line)?;
    Ok(Spot { place, line, width })
}

/// What stands under a byte in front of the mark.
fn pad(byte: u8) -> u8
    ensures { result ≡ pad byte }
{
    if byte == b'\t' { b'\t' } else { b' ' }
}

/// Appends what stands under bytes in front of the mark.
fn push_pads(out: &mut Vec<u8>, bytes: &[u8]) -> Result<(), AllocError>
    ensures { OnOk result (out.new.items ≡ out.old.items ++ map pad bytes.now) }
{
    for byte in bytes {
        out.push(pad(*byte))?;
    }
    Ok(())
}

/// Appends the mark.
fn push_marks(out: &mut Vec<u8>, width: usize) -> Result<(), AllocError>
    ensures { OnOk result (out.new.items ≡ out.old.items ++ marks width) }
{
    for _at in 0..width {
        out.push(b'^')?;
    }
    Ok(())
}

/// Appends the line as people see it.
fn push_line(out: &mut Vec<u8>, line: &[u8]) -> Result<(), AllocError>
    ensures { OnOk result (out.new.items ≡ out.old.items ++ line_text line.now) }
{
    out.extend_from_slice(b"    ")?;
    push_visible(out, line)?;
    out.push(b'\n')?;
    Ok(())
}

/// Appends the line of the mark.
fn push_mark(out: &mut Vec<u8>, spot: &Spot) -> Result<(), AllocError>
    ensures { OnOk result (out.new.items ≡ out.old.items ++ mark_text spot.now) }
{
    let before = front(spot.line.as_bytes(), spot.place.column.saturating_sub(1));
    out.extend_from_slice(b"    ")?;
    push_pads(out, before)?;
    push_marks(out, spot.width)?;
    out.push(b'\n')?;
    Ok(())
}

/// Appends the line of a place with the mark under it, where the line has at most 160 bytes. After a refusal what was written is given
/// up with the call that writes it.
pub fn push_excerpt(out: &mut Vec<u8>, spot: &Spot) -> Result<(), AllocError>
    ensures { OnOk result (out.new.items ≡ out.old.items ++ excerpt_text spot.now) }
{
    if spot.line.as_bytes().len() > LONGEST_SHOWN {
        return Ok(());
    }
    push_line(out, spot.line.as_bytes())?;
    push_mark(out, spot)?;
    Ok(())
}

/// Appends the numbers of a place, as `LINE:COLUMN`. After a refusal what was written is given up with the call that writes it.
pub fn push_place(out: &mut Vec<u8>, place: Place) -> Result<(), AllocError>
    ensures { OnOk result (out.new.items ≡ out.old.items ++ place_text place) }
{
    push_number(out, place.line as u64)?;
    out.push(b':')?;
    push_number(out, place.column as u64)?;
    Ok(())
}
