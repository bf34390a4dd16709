//! The headings of functions.
use sk_base::Span;
use sk_explain_steps::{closes, is_key, is_mark, is_word, open_behind, opens};
use sk_tree::{Key, Mark, Token};
use std::alloc::{AllocError, Global};

/// The heading of a function, in tokens.
#[derive(Drop, Clone, Copy)]
pub struct Heading<'a> {
    pub name: Span,
    pub is_generator: bool,
    pub result: &'a [Token],
    /// What stands between the parentheses.
    pub params: &'a [Token],
    /// The name of the function that it implements.
    pub implements: Option<Span>,
}

// Where the type begins that some tokens end with.
fn type_at(tokens: &[Token]) -> usize {
    let mut open = 0usize;
    for (at, token) in tokens.iter().enumerate().rev() {
        if closes(token) {
            open = open.saturating_add(1);
        } else if opens(token) {
            open = open.saturating_sub(1);
        } else if open == 0 {
            return at;
        }
    }
    0
}

// Where the parenthesis is closed inside of which some tokens begin.
fn close_at(tokens: &[Token]) -> Option<usize> {
    let mut open = 0usize;
    for (at, token) in tokens.iter().enumerate() {
        if open == 0 && closes(token) {
            return Some(at);
        }
        open = open_behind(open, token);
    }
    None
}

// The name behind `implements`, where some tokens begin with that.
fn implemented(tokens: &[Token]) -> Option<Span> {
    match tokens {
        [key, name, ..] if is_key(key, Key::Implements) => Some(name.span),
        _ => None,
    }
}

// Whether the last of some tokens is `generator`.
fn ends_by_generator(tokens: &[Token]) -> bool {
    match tokens.last() {
        Some(last) => is_key(last, Key::Generator),
        None => false,
    }
}

// The heading of the function whose name is the token at a place.
fn heading_at<'a>(tokens: &'a [Token], at: usize, name: Span) -> Option<Heading<'a>> {
    let front = tokens.get(..at)?;
    let start = type_at(front);
    let behind = tokens.get(at.saturating_add(2)..)?;
    let close = close_at(behind)?;
    Some(Heading {
        name,
        is_generator: ends_by_generator(front.get(..start)?),
        result: front.get(start..)?,
        params: behind.get(..close)?,
        implements: implemented(behind.get(close.saturating_add(1)..)?),
    })
}

/// The headings of the functions of a text, in order.
pub fn headings_of<'a>(alloc: Global, tokens: &'a [Token]) -> Result<Vec<Heading<'a>>, AllocError> {
    let mut found = Vec::new(alloc);
    let mut open = 0usize;
    for (at, two) in tokens.windows(2).enumerate() {
        if let [token, next] = two {
            if open == 0 && is_word(token) && is_mark(next, Mark::OpenParen) {
                if let Some(heading) = heading_at(tokens, at, token.span) {
                    found.push(heading)?;
                }
            }
            open = open_behind(open, token);
        }
    }
    Ok(found)
}
