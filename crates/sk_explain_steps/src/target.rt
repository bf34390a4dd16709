//! To what a statement stores.
use crate::tokens::{closes, is_mark, is_word, open_behind, opens};
use sk_tree::{Mark, Token};

// Whether a statement stores at a token.
fn stores(token: &Token) -> bool {
    is_mark(token, Mark::Assign)
        || is_mark(token, Mark::AddAssign)
        || is_mark(token, Mark::SubAssign)
        || is_mark(token, Mark::Increment)
        || is_mark(token, Mark::Decrement)
}

// How many signs at which a statement stores stand in no brackets.
fn sign_count(tokens: &[Token]) -> usize {
    let mut count = 0usize;
    let mut open = 0usize;
    for token in tokens {
        if open == 0 && stores(token) {
            count = count.saturating_add(1);
        }
        open = open_behind(open, token);
    }
    count
}

// Where the one of them with a number stands.
fn sign_at(tokens: &[Token], number: usize) -> Option<usize> {
    let mut left = number;
    let mut open = 0usize;
    for (at, token) in tokens.iter().enumerate() {
        if open == 0 && stores(token) {
            if left == 0 {
                return Some(at);
            }
            left = left.saturating_sub(1);
        }
        open = open_behind(open, token);
    }
    None
}

// Whether a dot stands in front of a token.
fn is_member(tokens: &[Token], at: usize) -> bool {
    match tokens.get(at.saturating_sub(1)) {
        Some(before) => is_mark(before, Mark::Dot),
        None => false,
    }
}

// Where the place begins that some tokens end with.
fn start_of(tokens: &[Token]) -> usize {
    let mut open = 0usize;
    for (at, token) in tokens.iter().enumerate().rev() {
        if closes(token) {
            open = open.saturating_add(1);
        } else if opens(token) {
            open = open.saturating_sub(1);
        } else if open == 0 && is_word(token) && !is_member(tokens, at) {
            return at;
        }
    }
    0
}

// The tokens behind the first one, without a semicolon at the end.
fn behind_first(tokens: &[Token]) -> Option<&[Token]> {
    let (_, behind) = tokens.split_first()?;
    match behind.split_last() {
        Some((last, front)) if is_mark(last, Mark::Semicolon) => Some(front),
        _ => Some(behind),
    }
}

/// The tokens of the place to which a statement stores: of a declaration of several values that with a number, counted on from
/// the first one where the statement is run again.
pub fn target(tokens: &[Token], number: usize) -> Option<&[Token]> {
    let count = sign_count(tokens);
    if count == 0 {
        return None;
    }
    let at = sign_at(tokens, number % count)?;
    if at == 0 {
        return behind_first(tokens);
    }
    let front = tokens.get(..at)?;
    front.get(start_of(front)..)
}
