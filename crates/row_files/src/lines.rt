//! Lines of a file.
ghost use Rattle.std.specs.Prelude.{◌<◌, ◌≤◌, length, IfSome};

/// A line without its line feed, and the bytes behind it.
#[derive(Debug, Clone, Copy, PartialEq, Eq)]
pub struct FirstLine<'a> {
    pub line: &'a [u8],
    pub rest: &'a [u8],
}

// How many bytes stand before the first line feed, or before the end.
fn line_length(bytes: &[u8]) -> usize
    ensures { result ≤ length bytes.now }
{
    for (at, byte) in bytes.iter().enumerate() {
        if *byte == b'\n' {
            return at;
        }
    }
    bytes.len()
}

/// The first line of some bytes. There is none where there are no bytes.
pub fn first_line<'a>(bytes: &'a [u8]) -> Option<FirstLine<'a>>
    ensures shorter { IfSome result (λ first. length first.rest.now < length bytes.now) }
{
    if bytes.is_empty() {
        return None;
    }
    let (line, rest) = bytes.split_at(line_length(bytes));
    match rest {
        [] => Some(FirstLine { line, rest }),
        [_, after @ ..] => Some(FirstLine { line, rest: after }),
    }
}
