//! The longest piece at the front of a text.
ghost use Rattle.std.specs.Prelude.{◌≡◌, ◌<◌, ◌≤◌, ◌+◌, ℕ, ◌-◌, ◌∷◌, true, false, take, length, IfSome, IfNone};
ghost use Rattle.std.specs.List.{prefix_len};
ghost use Rattle.sk_tree.specs.Shapes.{is_blank, is_letter, is_digit, is_word_byte, is_line_byte, is_closed, is_quoted, slash_of, mark_of, shape_of};
ghost use Rattle.sk_tree.specs.Longest.{Longest, Stands, NoneStands, opens_comment, opens_text};
ghost use Rattle.sk_lexer.specs.Pieces.{Reaches, NoPiece, NoSlash, second_mark};

use crate::spelling::{double_mark, single_mark};
use sk_tree::{Mark, Shape};

/// A piece, and its length in bytes.
#[derive(Debug, Drop, Clone, Copy, PartialEq, Eq)]
pub struct Piece {
    pub shape: Shape,
    pub len: usize,
}

#[tactic(auto, unfolding(sk_tree::specs::Shapes::is_blank))]
fn is_blank(b: u8) -> bool
    ensures { result ≡ is_blank b }
{
    b == b' ' || b == b'\t' || b == b'\n' || b == 12 || b == b'\r'
}

#[tactic(auto, unfolding(sk_tree::specs::Shapes::is_letter))]
fn is_letter(b: u8) -> bool
    ensures { result ≡ is_letter b }
{
    (b'a' <= b && b <= b'z') || (b'A' <= b && b <= b'Z') || b == b'_'
}

#[tactic(auto, unfolding(sk_tree::specs::Shapes::is_digit))]
fn is_digit(b: u8) -> bool
    ensures { result ≡ is_digit b }
{
    b'0' <= b && b <= b'9'
}

fn blank_len(bytes: &[u8]) -> usize
    ensures within { result ≤ length bytes.now }
    ensures run { result ≡ prefix_len is_blank bytes.now }
{
    bytes.iter().take_while(|b| is_blank(**b)).count()
}

fn word_len(bytes: &[u8]) -> usize
    ensures within { result ≤ length bytes.now }
    ensures run { result ≡ prefix_len is_word_byte bytes.now }
{
    bytes
        .iter()
        .take_while(|b| is_letter(**b) || is_digit(**b))
        .count()
}

fn digits_len(bytes: &[u8]) -> usize
    ensures within { result ≤ length bytes.now }
    ensures run { result ≡ prefix_len is_digit bytes.now }
{
    bytes.iter().take_while(|b| is_digit(**b)).count()
}

fn line_len(bytes: &[u8]) -> usize
    ensures within { result ≤ length bytes.now }
    ensures run { result ≡ prefix_len is_line_byte bytes.now }
{
    bytes.iter().take_while(|b| **b != b'\n').count()
}

// How long the rest of a comment is, up to the star and slash at its end.
fn closed_len(bytes: &[u8]) -> Option<usize>
    ensures found { IfSome result (Reaches is_closed bytes.now) }
    ensures none { IfNone result ((m : ℕ) → is_closed (take m bytes.now) ≡ false) }
{
    let mut i = 0;
    while i + 1 < bytes.len() {
        if bytes[i] == b'*' && bytes[i + 1] == b'/' {
            return Some(i + 2);
        }
        i += 1;
    }
    None
}

// How long the rest of a text is, up to the quote at its end.
fn quoted_len(bytes: &[u8]) -> Option<usize>
    ensures found { IfSome result (Reaches is_quoted bytes.now) }
    ensures none { IfNone result ((m : ℕ) → is_quoted (take m bytes.now) ≡ false) }
{
    let mut i = 0;
    while i < bytes.len() {
        if bytes[i] == b'"' {
            return Some(i + 1);
        }
        if bytes[i] == b'\n' {
            return None;
        }
        i += 1;
    }
    None
}

/// Whether `/*` stands at the front.
pub fn opens_comment(bytes: &[u8]) -> bool
    ensures { result ≡ opens_comment bytes.now }
{
    bytes.len() > 1 && bytes[0] == b'/' && bytes[1] == b'*'
}

/// Whether a quote stands at the front.
pub fn opens_text(bytes: &[u8]) -> bool
    ensures { result ≡ opens_text bytes.now }
{
    !bytes.is_empty() && bytes[0] == b'"'
}

/// The longest piece at the front, or none where none stands.
pub fn longest_piece(text: &[u8]) -> Option<Piece>
    ensures found { IfSome result (λ piece. Stands text.now piece.shape piece.len) }
    ensures none { IfNone result (NoPiece text.now) }
{
    match text.split_first() {
        Some((first, after)) => match piece_of(*first, after) {
            Some(piece) => Some(piece),
            None => None,
        },
        None => None,
    }
}

fn piece_of(first: u8, after: &[u8]) -> Option<Piece>
    ensures found { IfSome result (λ piece. Stands (first ∷ after.now) piece.shape piece.len) }
    ensures none { IfNone result (NoPiece (first ∷ after.now)) }
{
    if is_blank(first) {
        let len = 1 + blank_len(after);
        Some(Piece {
            shape: Shape::Blank,
            len,
        })
    } else if is_letter(first) {
        let len = 1 + word_len(after);
        Some(Piece {
            shape: Shape::Word,
            len,
        })
    } else if is_digit(first) {
        let len = 1 + digits_len(after);
        Some(Piece {
            shape: Shape::Number,
            len,
        })
    } else if first == b'/' {
        match slash_at(after) {
            Some(piece) => Some(Piece {
                shape: piece.shape,
                len: 1 + piece.len,
            }),
            None => None,
        }
    } else if first == b'"' {
        match quoted_len(after) {
            Some(len) => Some(Piece {
                shape: Shape::Text,
                len: 1 + len,
            }),
            None => None,
        }
    } else {
        match mark_at(first, after) {
            Some(piece) => Some(Piece {
                shape: piece.shape,
                len: 1 + piece.len,
            }),
            None => None,
        }
    }
}

// The piece that a slash at the front begins, with the length without the slash; none where a comment does not end.
fn slash_at(after: &[u8]) -> Option<Piece>
    ensures found { IfSome result (λ piece. Longest slash_of after.now piece.shape piece.len) }
    ensures comment { IfSome result (λ piece. opens_comment (47 ∷ after.now) ≡ true → piece.shape ≡ Shape.Comment) }
    ensures none { IfNone result (NoSlash after.now) }
{
    match after.split_first() {
        Some((second, rest)) => match slash_before(*second, rest) {
            Some(piece) => Some(piece),
            None => None,
        },
        None => Some(Piece {
            shape: Shape::Mark(Mark::Slash),
            len: 0,
        }),
    }
}

fn slash_before(second: u8, rest: &[u8]) -> Option<Piece>
    ensures found { IfSome result (λ piece. Longest slash_of (second ∷ rest.now) piece.shape piece.len) }
    ensures comment { IfSome result (λ piece. opens_comment (47 ∷ second ∷ rest.now) ≡ true → piece.shape ≡ Shape.Comment) }
    ensures none { IfNone result (NoSlash (second ∷ rest.now)) }
{
    if second == b'/' {
        let len = 1 + line_len(rest);
        Some(Piece {
            shape: Shape::Comment,
            len,
        })
    } else if second == b'*' {
        match closed_len(rest) {
            Some(len) => Some(Piece {
                shape: Shape::Comment,
                len: 1 + len,
            }),
            None => None,
        }
    } else {
        Some(Piece {
            shape: Shape::Mark(Mark::Slash),
            len: 0,
        })
    }
}

// The mark of two bytes at the front.
fn second_mark(first: u8, after: &[u8]) -> Option<Mark>
    ensures { result ≡ second_mark first after.now }
{
    match after.split_first() {
        Some((second, _)) => double_mark(first, *second),
        None => None,
    }
}

// The longest mark at the front, with the length without its first byte.
fn mark_at(first: u8, after: &[u8]) -> Option<Piece>
    ensures found { IfSome result (λ piece. Longest (mark_of first) after.now piece.shape piece.len) }
    ensures none { IfNone result ((m : ℕ) → mark_of first (take m after.now) ≡ None) }
{
    match second_mark(first, after) {
        Some(mark) => Some(Piece {
            shape: Shape::Mark(mark),
            len: 1,
        }),
        None => match single_mark(first) {
            Some(mark) => Some(Piece {
                shape: Shape::Mark(mark),
                len: 0,
            }),
            None => None,
        },
    }
}
