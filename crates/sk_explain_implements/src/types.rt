//! Types as they are written, and parameters.
use sk_base::Span;
use sk_explain_steps::{is_key, is_mark, is_word, open_behind};
use sk_tree::{Key, Kind, Mark, Token};

/// A parameter as it is written.
#[derive(Drop, Clone, Copy)]
pub struct Param<'a> {
    pub by_ref: bool,
    pub ty: &'a [Token],
}

// Whether two tokens are the same word, number, keyword or mark.
fn are_same(one: &Token, other: &Token) -> bool {
    match (&one.kind, &other.kind) {
        (Kind::Word(one), Kind::Word(other)) => one.is(other.as_bytes()),
        (Kind::Number(one), Kind::Number(other)) => one == other,
        (Kind::Key(one), Kind::Key(other)) => one == other,
        (Kind::Mark(one), Kind::Mark(other)) => one == other,
        _ => false,
    }
}

// Whether a token may stand in a type whose lengths are numbers.
fn is_plain(token: &Token) -> bool {
    match &token.kind {
        Kind::Number(_) => true,
        Kind::Mark(_) => is_mark(token, Mark::OpenBracket) || is_mark(token, Mark::CloseBracket),
        Kind::Word(_) | Kind::Text(_) | Kind::Key(_) => false,
    }
}

// Whether the lengths of a type, with their brackets, are numbers.
fn are_plain(lengths: &[Token]) -> bool {
    lengths.iter().all(|token| is_plain(token))
}

// How many lengths a type has.
fn length_count(lengths: &[Token]) -> usize {
    let mut count = 0usize;
    let mut open = 0usize;
    for token in lengths {
        if open == 0 && is_mark(token, Mark::OpenBracket) {
            count = count.saturating_add(1);
        }
        open = open_behind(open, token);
    }
    count
}

// Whether lengths that are numbers are the same.
fn are_equal(one: &[Token], other: &[Token]) -> bool {
    one.len() == other.len()
        && one
            .iter()
            .zip(other.iter())
            .all(|(one, other)| are_same(one, other))
}

/// Whether two types differ whatever the constants in their lengths are.
pub fn differ(one: &[Token], other: &[Token]) -> bool {
    match (one.split_first(), other.split_first()) {
        (Some((base, lengths)), Some((other, others))) => {
            !are_same(base, other)
                || length_count(lengths) != length_count(others)
                || (are_plain(lengths) && are_plain(others) && !are_equal(lengths, others))
        }
        (None, None) => false,
        _ => true,
    }
}

/// The name of the struct to which a type refers.
pub fn record_of(ty: &[Token]) -> Option<Span> {
    match ty.first() {
        Some(base) if is_word(base) => Some(base.span),
        _ => None,
    }
}

/// The bytes of a type.
pub fn span_of(ty: &[Token]) -> Option<Span> {
    Some(Span {
        from: ty.first()?.span.from,
        to: ty.last()?.span.to,
    })
}

// Where the first comma outside of brackets stands, or the end.
fn comma_at(tokens: &[Token]) -> usize {
    let mut open = 0usize;
    for (at, token) in tokens.iter().enumerate() {
        if open == 0 && is_mark(token, Mark::Comma) {
            return at;
        }
        open = open_behind(open, token);
    }
    tokens.len()
}

/// How many parameters stand between two parentheses.
pub fn param_count(params: &[Token]) -> usize {
    if params.is_empty() {
        return 0;
    }
    let mut count = 1usize;
    let mut open = 0usize;
    for token in params {
        if open == 0 && is_mark(token, Mark::Comma) {
            count = count.saturating_add(1);
        }
        open = open_behind(open, token);
    }
    count
}

// The parameter that some tokens are, whose last is its name.
fn param_of(tokens: &[Token]) -> Option<Param<'_>> {
    let (_name, front) = tokens.split_last()?;
    match front.split_first() {
        Some((first, behind)) if is_key(first, Key::Ref) => Some(Param {
            by_ref: true,
            ty: behind,
        }),
        _ => Some(Param {
            by_ref: false,
            ty: front,
        }),
    }
}

/// The parameter with a number, counted from 0.
pub fn param_at(params: &[Token], number: usize) -> Option<Param<'_>> {
    let mut rest = params;
    for _param in 0..number {
        rest = rest.get(comma_at(rest).saturating_add(1)..)?;
    }
    param_of(rest.get(..comma_at(rest))?)
}
