//! The place of a byte.
ghost use Rattle.std.specs.Prelude.{◌≡◌, ◌≤◌, length, take, count_by};
ghost use Rattle.sk_explain_places.specs.Lines.{is_feed, IsPlace};

use crate::lines::line_start;

/// Where a byte of a text stands. Both numbers count from 1.
#[derive(Debug, Drop, Clone, Copy, PartialEq, Eq)]
pub struct Place {
    /// The number of its line.
    pub line: usize,
    /// The number of the byte in its line. A tab is one byte.
    pub column: usize,
}

/// How many line feeds bytes have.
#[tactic(auto, using(std::proofs::lemmas::List::Sums::count_by_more_yes, std::proofs::lemmas::List::Sums::count_by_more_no))]
fn feeds(bytes: &[u8]) -> usize
    ensures count { result ≡ count_by is_feed bytes.now }
    ensures few { result ≤ length bytes.now }
{
    let mut count = 0;
    for byte in bytes {
        if *byte == b'\n' {
            count += 1;
        }
    }
    count
}

/// The place of a byte, or of the end of the text.
pub fn place_of(text: &[u8], byte: usize) -> Place
    requires { byte ≤ length text.now }
    ensures { IsPlace text.now byte result }
{
    let start = line_start(text, byte);
    let before = feeds(&text[..byte]);
    Place {
        line: before + 1,
        column: byte - start + 1,
    }
}
