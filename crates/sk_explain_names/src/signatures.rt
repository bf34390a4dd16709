//! Signatures that a harness cannot have.
use crate::pieces::{is_base, is_key, is_mark, is_word};
use crate::types::at_type;
use sk_base::Span;
use sk_tree::{Key, Mark, Token};

/// What a harness cannot have.
#[derive(Clone, Copy)]
pub enum Broken {
    /// A parameter that is copied back.
    Copied(Span),
    /// A parameter that is a reference, or has some, and the name of its struct.
    Reference { name: Span, of: Span },
    /// A result that is a reference.
    Result(Span),
}

// The tokens of a heading: up to its first `{`.
fn heading(tokens: &[Token]) -> &[Token] {
    for (at, token) in tokens.iter().enumerate() {
        if is_mark(token, Mark::OpenBrace) {
            return &tokens[..at];
        }
    }
    tokens
}

// Whether a name is declared behind these tokens as a parameter.
fn is_param(before: &[Token], next: Option<&Token>) -> bool {
    let ends = match next {
        Some(next) => is_mark(next, Mark::Comma) || is_mark(next, Mark::CloseParen),
        None => false,
    };
    let is_typed = match before.last() {
        Some(last) => is_base(last) || is_mark(last, Mark::CloseBracket),
        None => false,
    };
    ends && is_typed
}

// Whether `ref` is the last of some tokens.
fn ends_by_ref(tokens: &[Token]) -> bool {
    match tokens.last() {
        Some(last) => is_key(last, Key::Ref),
        None => false,
    }
}

// What a harness cannot have at a parameter, with the tokens before its name.
fn broken_param(before: &[Token], name: Span) -> Option<Broken> {
    let (front, ty) = at_type(before)?;
    let base = ty.first()?;
    if ends_by_ref(front) {
        Some(Broken::Copied(name))
    } else if is_word(base) {
        Some(Broken::Reference {
            name,
            of: base.span,
        })
    } else {
        None
    }
}

// What a harness cannot have in its heading, which begins behind the keyword.
fn broken_heading(tokens: &[Token]) -> Option<Broken> {
    if let Some(first) = tokens.first() {
        if is_word(first) {
            return Some(Broken::Result(first.span));
        }
    }
    for (at, token) in tokens.iter().enumerate() {
        let before = &tokens[..at];
        if is_word(token) && is_param(before, tokens.get(at + 1)) {
            if let Some(broken) = broken_param(before, token.span) {
                return Some(broken);
            }
        }
    }
    None
}

/// The first of what a harness of a text has and cannot have.
pub fn first_broken(tokens: &[Token]) -> Option<Broken> {
    for (at, token) in tokens.iter().enumerate() {
        if is_key(token, Key::Harness) {
            if let Some(broken) = broken_heading(heading(&tokens[at + 1..])) {
                return Some(broken);
            }
        }
    }
    None
}
