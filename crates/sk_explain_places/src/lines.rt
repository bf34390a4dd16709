//! Where the line of a byte begins and ends.
ghost use Rattle.std.specs.Prelude.{◌≡◌, ◌≤◌, length, drop};
ghost use Rattle.sk_explain_places.specs.Lines.{ends_line, IsLineStart, IsLineEnd, IsLineOf};

/// Whether a line ends before these bytes, which stand behind it: at the end of the text, at a line feed, and at a carriage
/// return with a line feed behind it.
fn ends_line(bytes: &[u8]) -> bool
    ensures { result ≡ ends_line bytes.now }
{
    match bytes {
        [] => true,
        [first] => *first == b'\n',
        [first, second, ..] => *first == b'\n' || (*first == b'\r' && *second == b'\n'),
    }
}

/// The first byte of the line in which a byte stands.
pub fn line_start(text: &[u8], byte: usize) -> usize
    requires { byte ≤ length text.now }
    ensures { IsLineStart text.now byte result }
{
    let mut start = 0;
    for at in 0..byte {
        if text[at] == b'\n' {
            start = at + 1;
        }
    }
    start
}

/// The byte behind the last one of the line that begins here.
fn line_end(text: &[u8], start: usize) -> usize
    requires { start ≤ length text.now }
    ensures { IsLineEnd text.now start result }
{
    for at in start..text.len() {
        if ends_line(&text[at..]) {
            return at;
        }
    }
    text.len()
}

/// The line in which a byte stands, without its end. The end of the text stands in its last line.
pub fn line_of<'a>(text: &'a [u8], byte: usize) -> &'a [u8]
    requires { byte ≤ length text.now }
    ensures { IsLineOf text.now byte result.now }
{
    let start = line_start(text, byte);
    let end = line_end(text, start);
    &text[start..end]
}
