//! Texts that stand with escapes: `\n`, `\t`, `\r` and `\\`, and `\xNN` for a byte. `\N{PIECE}` is the piece N times; in it
//! `\i` is how many times it stands before, `\j` one more, `\k` how many times it stands behind, and `\b` the byte whose
//! number is `\i`. The braces of a piece are in pairs, but for `\{` and `\}`. In a piece may stand another one, and so on, at
//! most seven deep; what is deeper is left out.
ghost use Rattle.std.specs.Prelude.{◌≤◌, ◌<◌, length, IfOk};

use sk_base::push_number;
use std::alloc::{AllocError, Global};

/// How deep pieces stand in one another.
const DEEPEST: u8 = 7;

/// How many times a piece stands before and behind.
#[derive(Clone, Copy)]
struct Turn {
    before: u64,
    behind: u64,
}

/// A piece, how often it stands, and the bytes behind it.
#[derive(Clone, Copy)]
struct Piece<'a> {
    times: u64,
    text: &'a [u8],
    rest: &'a [u8],
}

// The value of a digit in base 16.
fn digit(byte: u8) -> u8 {
    match byte {
        b'0'..=b'9' => byte - b'0',
        b'a'..=b'f' => byte - b'a' + 10,
        b'A'..=b'F' => byte - b'A' + 10,
        _ => 0,
    }
}

// How many digits stand in front.
fn digit_count(text: &[u8]) -> usize
    ensures { result ≤ length text.now }
{
    for (at, byte) in text.iter().enumerate() {
        if !byte.is_ascii_digit() {
            return at;
        }
    }
    text.len()
}

// The number that digits spell.
fn number(digits: &[u8]) -> u64 {
    let mut number = 0u64;
    for byte in digits {
        number = number
            .saturating_mul(10)
            .saturating_add(u64::from(digit(*byte)));
    }
    number
}

// How many bytes stand before the brace that ends a piece.
fn piece_length(text: &[u8]) -> usize
    ensures { result ≤ length text.now }
{
    let mut open = 0u32;
    let mut is_escape = false;
    for (at, byte) in text.iter().enumerate() {
        if is_escape {
            is_escape = false;
            continue;
        }
        match byte {
            b'\\' => is_escape = true,
            b'{' => open = open.saturating_add(1),
            b'}' if open == 0 => return at,
            b'}' => open = open.saturating_sub(1),
            _ => {}
        }
    }
    text.len()
}

// The piece whose number stands in front.
fn first_piece<'a>(text: &'a [u8]) -> Piece<'a>
    ensures shorter { length result.rest.now ≤ length text.now }
{
    let (digits, behind) = text.split_at(digit_count(text));
    let times = number(digits);
    let inside = match behind {
        [b'{', inside @ ..] => inside,
        _ => behind,
    };
    let (text, behind) = inside.split_at(piece_length(inside));
    let rest = match behind {
        [_, rest @ ..] => rest,
        [] => behind,
    };
    Piece { times, text, rest }
}

// The byte that a letter stands for behind a backslash.
fn plain(sign: u8, turn: Turn) -> u8 {
    match sign {
        b'n' => b'\n',
        b't' => b'\t',
        b'r' => b'\r',
        b'b' => (turn.before % 256) as u8,
        _ => sign,
    }
}

// Appends what a letter stands for behind a backslash.
fn push_sign(out: &mut Vec<u8>, sign: u8, turn: Turn) -> Result<(), AllocError> {
    match sign {
        b'i' => push_number(out, turn.before),
        b'j' => push_number(out, turn.before.saturating_add(1)),
        b'k' => push_number(out, turn.behind),
        _ => {
            out.push(plain(sign, turn))?;
            Ok(())
        }
    }
}

// Appends what stands behind a backslash. The rest of the text is answered.
#[cycle(escapes)]
fn push_escape<'a>(
    out: &mut Vec<u8>,
    after: &'a [u8],
    turn: Turn,
    depth: u8,
) -> Result<&'a [u8], AllocError>
    ensures shorter { IfOk result (λ rest. length rest.now ≤ length after.now) }
{
    match after {
        [b'x', high, low, rest @ ..] => {
            out.push(digit(*high).wrapping_mul(16).wrapping_add(digit(*low)))?;
            Ok(rest)
        }
        [b'0'..=b'9', ..] => {
            let piece = first_piece(after);
            push_times(out, piece.text, piece.times, depth)?;
            Ok(piece.rest)
        }
        [sign, rest @ ..] => {
            push_sign(out, *sign, turn)?;
            Ok(rest)
        }
        [] => Ok(after),
    }
}

// Appends a piece as often as it stands.
#[cycle(escapes)]
fn push_times(out: &mut Vec<u8>, piece: &[u8], times: u64, depth: u8) -> Result<(), AllocError> {
    if depth == 0 {
        return Ok(());
    }
    for before in 0..times {
        let behind = times - 1 - before;
        push_text(out, piece, Turn { before, behind }, depth - 1)?;
    }
    Ok(())
}

// Appends a text, with the pieces in it.
#[cycle(escapes)]
fn push_text(out: &mut Vec<u8>, text: &[u8], turn: Turn, depth: u8) -> Result<(), AllocError> {
    let mut rest = text;
    while let [first, after @ ..] = rest {
        if *first == b'\\' {
            rest = push_escape(out, after, turn, depth)?;
        } else {
            out.push(*first)?;
            rest = after;
        }
    }
    Ok(())
}

/// The text that stands with escapes.
pub fn unescaped(alloc: Global, text: &[u8]) -> Result<Vec<u8>, AllocError> {
    let mut out = Vec::new(alloc);
    let turn = Turn {
        before: 0,
        behind: 0,
    };
    push_text(&mut out, text, turn, DEEPEST)?;
    Ok(out)
}
