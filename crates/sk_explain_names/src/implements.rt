//! Functions that implement another.
use crate::blocks::TOP;
use crate::declared::Declared;
use crate::pieces::{bytes_of, is_key, is_mark, is_word, word};
use sk_base::{Name, Span};
use sk_tree::{Key, Mark, Token};
use sk_types_names::Numbers;
use std::alloc::{AllocError, Global};

// Whether `(` stands at a place among tokens.
fn is_called(tokens: &[Token], at: usize) -> bool {
    match tokens.get(at) {
        Some(token) => is_mark(token, Mark::OpenParen),
        None => false,
    }
}

/// The names of the functions of a text.
pub fn functions<'a>(
    alloc: Global,
    text: &'a [u8],
    tokens: &[Token],
    found: &[Declared],
) -> Result<Vec<&'a [u8]>, AllocError> {
    let mut names = Vec::new(alloc);
    for it in found {
        if it.block == TOP && is_called(tokens, it.at.saturating_add(1)) {
            names.push(bytes_of(text, it.name))?;
        }
    }
    Ok(names)
}

// Notes the names of the functions of a text.
fn noted(alloc: Global, tokens: &[Token], found: &[Declared]) -> Result<Numbers, AllocError> {
    let mut known = Numbers::new(alloc);
    for it in found {
        if let Some(name) = function_at(tokens, it) {
            known.put(name, it.at)?;
        }
    }
    Ok(known)
}

// The name of a function that is declared.
fn function_at<'a>(tokens: &'a [Token], it: &Declared) -> Option<&'a Name> {
    if it.block == TOP && is_called(tokens, it.at.saturating_add(1)) {
        word(tokens.get(it.at)?)
    } else {
        None
    }
}

// Whether a token is a word that is no function of these.
fn is_unknown(known: &Numbers, token: &Token) -> bool {
    match word(token) {
        Some(name) => known.get(name).is_none(),
        None => false,
    }
}

/// The first name that is implemented and is no function.
pub fn unknown_implemented(
    alloc: Global,
    tokens: &[Token],
    found: &[Declared],
) -> Result<Option<Span>, AllocError> {
    let known = noted(alloc, tokens, found)?;
    for two in tokens.windows(2) {
        if let [first, second] = two {
            if is_key(first, Key::Implements) && is_unknown(&known, second) {
                return Ok(Some(second.span));
            }
        }
    }
    Ok(None)
}

// The name of the function whose heading these tokens end with, behind its parameters.
fn name_before(tokens: &[Token]) -> Option<Span> {
    let mut open = 0usize;
    for token in tokens.iter().rev() {
        if is_mark(token, Mark::CloseParen) {
            open = open.saturating_add(1);
        } else if is_mark(token, Mark::OpenParen) {
            open = open.saturating_sub(1);
        } else if open == 0 {
            return if is_word(token) {
                Some(token.span)
            } else {
                None
            };
        }
    }
    None
}

/// The function that implements another, and the name of that one, where there is no other such function.
pub fn only_implementation(tokens: &[Token]) -> Option<(Span, Span)> {
    let mut only = None;
    for (at, token) in tokens.iter().enumerate() {
        if is_key(token, Key::Implements) {
            if only.is_some() {
                return None;
            }
            only = Some((name_before(&tokens[..at])?, tokens.get(at + 1)?.span));
        }
    }
    only
}
