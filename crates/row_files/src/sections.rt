//! Sections of a block: a mark, and the lines under it.
ghost use Rattle.std.specs.Prelude.{◌<◌, ◌≤◌, length, IfSome};

use crate::lines::first_line;

/// What stands in a mark behind `---`, and the lines under it up to the next mark.
#[derive(Debug, Clone, Copy, PartialEq, Eq)]
pub struct Section<'a> {
    /// Without a blank before it, and without `no line feed`.
    pub head: &'a [u8],
    /// Full lines, or without the last line feed where the mark says so.
    pub body: &'a [u8],
}

/// A section and the bytes behind it.
#[derive(Debug, Clone, Copy, PartialEq, Eq)]
pub struct FirstSection<'a> {
    pub section: Section<'a>,
    pub rest: &'a [u8],
}

/// What is told by a line that is a mark: three dashes, and then nothing or a blank and more.
pub(crate) fn marked<'a>(line: &'a [u8]) -> Option<&'a [u8]> {
    match line.strip_prefix(b"---") {
        Some([]) => Some(b""),
        Some([b' ', head @ ..]) => Some(head),
        Some(_) | None => None,
    }
}

/// Whether a line ends the block that stands before it.
pub(crate) fn ends_block(line: &[u8]) -> bool {
    line.starts_with(b"=== ") || line.starts_with(b"#")
}

/// How many bytes stand before the first mark, or before the end.
pub(crate) fn lines_before_mark(bytes: &[u8]) -> usize
    ensures { result ≤ length bytes.now }
{
    let mut rest = bytes;
    while let Some(first) = first_line(rest) {
        if marked(first.line).is_some() {
            break;
        }
        rest = first.rest;
    }
    bytes.len() - rest.len()
}

/// The first section of some bytes. There is none where they do not begin with a mark.
pub fn first_section<'a>(bytes: &'a [u8]) -> Option<FirstSection<'a>>
    ensures shorter { IfSome result (λ first. length first.rest.now < length bytes.now) }
{
    let first = first_line(bytes)?;
    let head = marked(first.line)?;
    let (body, rest) = first.rest.split_at(lines_before_mark(first.rest));
    let section = without_line_feed(head, body);
    Some(FirstSection { section, rest })
}

// A section, where the mark may say that the last line feed is not of it.
fn without_line_feed<'a>(head: &'a [u8], body: &'a [u8]) -> Section<'a> {
    let Some(before) = head.strip_suffix(b"no line feed") else {
        return Section { head, body };
    };
    let head = before.strip_suffix(b" ").unwrap_or(before);
    let body = body.strip_suffix(b"\n").unwrap_or(body);
    Section { head, body }
}
