//! Words that stand as types, and are none.
use crate::declared::Declared;
use crate::pieces::{bytes_of, is_key, is_mark, is_word, word};
use sk_base::Span;
use sk_tree::{Key, Mark, Token};
use sk_types_names::Numbers;
use std::alloc::{AllocError, Global};

// A type of C, and what to write in its place.
struct Foreign {
    name: &'static [u8],
    note: &'static [u8],
}

static FOREIGN: [Foreign; 12] = [
    Foreign {
        name: b"bool",
        note: b"bool is left out: write bit",
    },
    Foreign {
        name: b"boolean",
        note: b"boolean is left out: write bit",
    },
    Foreign {
        name: b"char",
        note: b"char is left out: write int, and numbers for characters",
    },
    Foreign {
        name: b"float",
        note: b"float is left out: int and bit are all there is",
    },
    Foreign {
        name: b"double",
        note: b"double is left out: int and bit are all there is",
    },
    Foreign {
        name: b"long",
        note: b"long is left out: write int; --int-bits sets its width",
    },
    Foreign {
        name: b"short",
        note: b"short is left out: write int; --int-bits sets its width",
    },
    Foreign {
        name: b"unsigned",
        note: b"unsigned is left out: write int",
    },
    Foreign {
        name: b"size_t",
        note: b"size_t is left out: write int",
    },
    Foreign {
        name: b"string",
        note: b"string is left out: there are no texts as values",
    },
    Foreign {
        name: b"var",
        note: b"var is left out: a declaration begins with its type",
    },
    Foreign {
        name: b"auto",
        note: b"auto is left out: a declaration begins with its type",
    },
];

/// What to write in place of a type of C, where a word is one.
pub fn foreign_note(name: &[u8]) -> Option<&'static [u8]> {
    for it in &FOREIGN {
        if it.name == name {
            return Some(it.note);
        }
    }
    None
}

// Whether the name of a struct or of an algebraic type stands behind a token.
fn is_named_type(token: &Token) -> bool {
    is_key(token, Key::Struct) || is_key(token, Key::Adt)
}

/// The names of the structs and algebraic types of a text.
pub fn structs<'a>(
    alloc: Global,
    text: &'a [u8],
    tokens: &[Token],
) -> Result<Vec<&'a [u8]>, AllocError> {
    let mut names = Vec::new(alloc);
    for two in tokens.windows(2) {
        if let [first, second] = two {
            if is_named_type(first) && is_word(second) {
                names.push(bytes_of(text, second.span))?;
            }
        }
    }
    Ok(names)
}

// Notes the names of structs and algebraic types.
fn noted(alloc: Global, tokens: &[Token]) -> Result<Numbers, AllocError> {
    let mut known = Numbers::new(alloc);
    for two in tokens.windows(2) {
        if let [first, second] = two {
            if let (true, Some(name)) = (is_named_type(first), word(second)) {
                known.put(name, 0)?;
            }
        }
    }
    Ok(known)
}

/// The tokens in front of the type that ends with the last of some tokens, and those from its first on: a word or a keyword,
/// with lengths behind it.
pub fn at_type(tokens: &[Token]) -> Option<(&[Token], &[Token])> {
    let mut open = 0usize;
    let mut count = tokens.len();
    for token in tokens.iter().rev() {
        count = count.saturating_sub(1);
        if is_mark(token, Mark::CloseBracket) {
            open = open.saturating_add(1);
        } else if open == 0 {
            return tokens.split_at_checked(count);
        } else if is_mark(token, Mark::OpenBracket) {
            open = open.saturating_sub(1);
        }
    }
    None
}

// Whether a word stands for a struct.
fn is_known(known: &Numbers, token: &Token) -> bool {
    match word(token) {
        Some(name) => known.get(name).is_some(),
        None => true,
    }
}

// Whether a span stands within another one.
fn is_inside(inner: Span, outer: Span) -> bool {
    outer.from <= inner.from && inner.to <= outer.to
}

// The word that the last type of some tokens begins with, where it is no struct and stands within a span.
fn unknown_at(known: &Numbers, before: &[Token], within: Span) -> Option<Span> {
    let (_, ty) = at_type(before)?;
    let base = ty.first()?;
    if is_known(known, base) || !is_inside(base.span, within) {
        None
    } else {
        Some(base.span)
    }
}

/// The first word within a span that stands as a type, and is no struct and no algebraic type.
pub fn first_unknown(
    alloc: Global,
    tokens: &[Token],
    found: &[Declared],
    within: Span,
) -> Result<Option<Span>, AllocError> {
    let known = noted(alloc, tokens)?;
    for it in found {
        if let Some(before) = tokens.get(..it.at) {
            if let Some(span) = unknown_at(&known, before, within) {
                return Ok(Some(span));
            }
        }
    }
    Ok(None)
}

/// Whether a span stands between the brackets of an `int` or a `bit`, as its length.
pub fn is_length(tokens: &[Token], span: Span) -> bool {
    for (at, token) in tokens.iter().enumerate() {
        if token.span.from == span.from {
            return ends_as_length(&tokens[..at]);
        }
    }
    false
}

// Whether a length of an `int` or a `bit` begins behind these tokens.
fn ends_as_length(before: &[Token]) -> bool {
    let Some((last, front)) = before.split_last() else {
        return false;
    };
    match at_type(front) {
        Some((_, ty)) => is_mark(last, Mark::OpenBracket) && begins_plain(ty),
        None => false,
    }
}

// Whether some tokens begin with `int` or `bit`.
fn begins_plain(ty: &[Token]) -> bool {
    match ty.first() {
        Some(base) => is_key(base, Key::Int) || is_key(base, Key::Bit),
        None => false,
    }
}
