//! Numbers that are not spelt by decimal digits.
use crate::context::glued;
use crate::cut::Cut;
use crate::forms::LeftOut;
use crate::seen::{is_spelt, spelling};

// The greatest number of a text.
const GREATEST: u32 = 2_147_483_647;

// The value of a digit.
fn digit(byte: u8) -> Option<u32> {
    match byte {
        b'0'..=b'9' => Some(u32::from(byte - b'0')),
        b'a'..=b'f' => Some(u32::from(byte - b'a') + 10),
        b'A'..=b'F' => Some(u32::from(byte - b'A') + 10),
        _ => None,
    }
}

// The number that digits of a base spell, where it is one of a text.
fn value_of(digits: &[u8], base: u32) -> Option<u32> {
    if digits.is_empty() {
        return None;
    }
    let mut value = 0u32;
    for byte in digits {
        let digit = digit(*byte)?;
        if digit >= base {
            return None;
        }
        value = value.checked_mul(base)?.checked_add(digit)?;
    }
    if value > GREATEST { None } else { Some(value) }
}

/// The number that a number and a word behind it spell in C.
pub fn value_at(cut: Cut<'_>) -> Option<u32> {
    let (number, word) = glued(cut)?;
    if !is_spelt(cut.text, number, b"0") {
        return None;
    }
    match spelling(cut.text, word).split_first() {
        Some((b'x', digits)) | Some((b'X', digits)) => value_of(digits, 16),
        Some((b'b', digits)) | Some((b'B', digits)) => value_of(digits, 2),
        _ => None,
    }
}

// Whether bytes say in C what type a number has.
fn is_suffix(word: &[u8]) -> bool {
    for byte in word {
        match byte {
            b'u' | b'U' | b'l' | b'L' | b'f' | b'F' => {}
            _ => return false,
        }
    }
    true
}

// Whether a word says in C of which base the digits behind it are.
fn is_based(word: &[u8]) -> bool {
    match word.first() {
        Some(b'x' | b'X' | b'b' | b'B') => true,
        _ => false,
    }
}

/// The form of a number with a word directly behind it.
pub fn number_form(cut: Cut<'_>) -> Option<LeftOut> {
    let (number, word) = glued(cut)?;
    let word = spelling(cut.text, word);
    if is_spelt(cut.text, number, b"0") && is_based(word) {
        Some(LeftOut::Base)
    } else if is_suffix(word) {
        Some(LeftOut::Suffix)
    } else {
        None
    }
}
