// Which texts are made of the text of a row.
use std::alloc::{AllocError, Global};

/// Which texts are made.
#[derive(Debug, Clone, Copy)]
pub enum Way {
    Whole,
    Cut,
    Without,
    Twice,
    /// These bytes stand at the end of a line.
    AtEnd(&'static [u8]),
    /// These bytes stand before the first digit of a line.
    AtDigit(&'static [u8]),
}

/// What the words of a row say.
pub fn way_of(words: &[u8]) -> Option<Way> {
    match words {
        b"whole" => Some(Way::Whole),
        b"cut" => Some(Way::Cut),
        b"without" => Some(Way::Without),
        b"twice" => Some(Way::Twice),
        b"return" => Some(Way::AtEnd(b"\r")),
        b"blank" => Some(Way::AtEnd(b" ")),
        b"zero" => Some(Way::AtDigit(b"0")),
        b"large" => Some(Way::AtDigit(b"18446744073709551616")),
        _ => None,
    }
}

// Adds a line with bytes before its first digit.
fn push_at_digit(out: &mut Vec<u8>, line: &[u8], more: &[u8]) -> Result<(), AllocError> {
    let mut more = more;
    for b in line {
        if b.is_ascii_digit() {
            out.extend_from_slice(more)?;
            more = b"";
        }
        out.push(*b)?;
    }
    Ok(())
}

/// The text with one of its lines changed, which has these bytes before it and these behind its line feed.
pub fn changed(
    alloc: Global,
    way: Way,
    before: &[u8],
    line: &[u8],
    behind: &[u8],
) -> Result<Vec<u8>, AllocError> {
    let mut out = Vec::from_slice(alloc, before)?;
    match way {
        Way::Whole | Way::Cut => out.extend_from_slice(line)?,
        Way::Without => {
            out.extend_from_slice(behind)?;
            return Ok(out);
        }
        Way::Twice => {
            out.extend_from_slice(line)?;
            out.push(b'\n')?;
            out.extend_from_slice(line)?;
        }
        Way::AtEnd(more) => {
            out.extend_from_slice(line)?;
            out.extend_from_slice(more)?;
        }
        Way::AtDigit(more) => push_at_digit(&mut out, line, more)?,
    }
    out.push(b'\n')?;
    out.extend_from_slice(behind)?;
    Ok(out)
}
