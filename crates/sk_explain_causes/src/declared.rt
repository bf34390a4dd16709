//! Which names a text declares, and as what: each name behind a type, and those behind a comma in the same declaration.
ghost use Rattle.std.specs.Prelude.{◌≡◌};

use crate::pieces::{bytes_of, closes, is_key, is_mark, is_word, opens};
use sk_base::Span;
use sk_explain_notes::Told;
use sk_explain_places::place_of;
use sk_tree::{Key, Mark, Token};
use std::alloc::{AllocError, Global};

// So many words of a span are looked up.
const MOST_WORDS: usize = 64;

// So many names are told of.
const MOST_TOLD: usize = 4;

/// A name that a text declares.
#[derive(Debug, Drop, Clone, Copy, PartialEq, Eq)]
pub struct Declared {
    pub name: Span,
    /// The bytes of its type, or of the result of a function.
    pub ty: Span,
    pub is_function: bool,
}

// Whether a type begins with a token.
fn is_base(token: &Token) -> bool {
    is_word(token) || is_key(token, Key::Int) || is_key(token, Key::Bit)
}

// The type that ends with the last of some tokens. Behind a type stands a name that is declared, and a word stands behind a
// word or a `]` nowhere else.
fn type_at_end(tokens: &[Token]) -> Option<Span> {
    let last = tokens.last()?;
    let mut open = 0usize;
    for token in tokens.iter().rev() {
        if is_mark(token, Mark::CloseBracket) {
            open = open.saturating_add(1);
        } else if open > 0 {
            if is_mark(token, Mark::OpenBracket) {
                open = open.saturating_sub(1);
            }
        } else if is_base(token) {
            return Some(Span {
                from: token.span.from,
                to: last.span.to,
            });
        } else {
            return None;
        }
    }
    None
}

// The name that some tokens begin with, where it is declared behind a comma: no type and no length goes on with it.
fn listed_name(tokens: &[Token]) -> Option<Span> {
    match tokens {
        [name, next, ..] if is_word(name) && !is_word(next) && !is_mark(next, Mark::OpenBracket) =>
            { Some(name.span) }
        _ => None,
    }
}

// Adds the names behind commas in a declaration, of which these tokens stand behind the first name.
fn push_listed(found: &mut Vec<Declared>, tokens: &[Token], ty: Span) -> Result<(), AllocError> {
    let mut depth = 0usize;
    let mut rest = tokens;
    while let [token, behind @ ..] = rest {
        rest = behind;
        if opens(token) {
            depth = depth.saturating_add(1);
        } else if closes(token) {
            if depth == 0 {
                return Ok(());
            }
            depth = depth.saturating_sub(1);
        } else if depth == 0 && is_mark(token, Mark::Semicolon) {
            return Ok(());
        } else if depth == 0 && is_mark(token, Mark::Comma) {
            let Some(name) = listed_name(behind) else {
                return Ok(());
            };
            found.push(Declared {
                name,
                ty,
                is_function: false,
            })?;
        }
    }
    Ok(())
}

// Adds a name with its type, and the others of its declaration.
fn push_declared(
    found: &mut Vec<Declared>,
    name: Span,
    ty: Span,
    behind: &[Token],
) -> Result<(), AllocError> {
    let is_function = match behind.first() {
        Some(token) => is_mark(token, Mark::OpenParen),
        None => false,
    };
    found.push(Declared {
        name,
        ty,
        is_function,
    })?;
    if is_function {
        return Ok(());
    }
    push_listed(found, behind, ty)
}

/// The names that the tokens of a text declare.
pub fn declarations_of(alloc: Global, tokens: &[Token]) -> Result<Vec<Declared>, AllocError> {
    let mut found = Vec::new(alloc);
    for (at, token) in tokens.iter().enumerate() {
        if is_word(token) {
            if let Some(ty) = type_at_end(&tokens[..at]) {
                push_declared(&mut found, token.span, ty, &tokens[at + 1..])?;
            }
        }
    }
    Ok(found)
}

// The one declaration of a word, where there is no other and it is of no function.
fn only_one<'a>(found: &'a [Declared], text: &[u8], word: &[u8]) -> Option<&'a Declared> {
    let mut only = None;
    for it in found {
        if bytes_of(text, it.name) == word {
            if only.is_some() || it.is_function {
                return None;
            }
            only = Some(it);
        }
    }
    only
}

// Appends what a name is declared as, and where.
fn push_one(told: &mut Told, text: &[u8], it: &Declared) -> Result<(), AllocError>
    ensures { told.new.title ≡ told.old.title }
{
    let from = it.name.from as usize;
    if from > text.len() {
        return Ok(());
    }
    let name = bytes_of(text, it.name);
    told.notes.say(&[
        b"'",
        name,
        b"' is declared as ",
        bytes_of(text, it.ty),
        b" at ",
    ])?;
    told.notes.place(place_of(text, from))?;
    told.notes.end()
}

// Whether a word is one of these.
fn is_among(words: &[&[u8]], word: &[u8]) -> bool {
    for it in words {
        if *it == word {
            return true;
        }
    }
    false
}

// The words of a span that may be variables: no function and no struct of a `new`.
fn variables_in<'a>(
    alloc: Global,
    text: &'a [u8],
    tokens: &[Token],
    span: Span,
) -> Result<Vec<&'a [u8]>, AllocError> {
    let mut words: Vec<&'a [u8]> = Vec::new(alloc);
    let mut rest = tokens;
    let mut behind_new = false;
    while let [token, behind @ ..] = rest {
        rest = behind;
        if words.len() >= MOST_WORDS {
            return Ok(words);
        }
        let is_within = span.from <= token.span.from && token.span.to <= span.to;
        if is_within && is_word(token) && !behind_new && !is_called(behind) {
            let word = bytes_of(text, token.span);
            if !is_among(words.as_slice(), word) {
                words.push(word)?;
            }
        }
        behind_new = is_key(token, Key::New);
    }
    Ok(words)
}

// Whether `(` is the first of some tokens.
fn is_called(tokens: &[Token]) -> bool {
    match tokens.first() {
        Some(token) => is_mark(token, Mark::OpenParen),
        None => false,
    }
}

/// Tells of the words of a span, in order, as what each is declared and where: of those that are declared once in the whole
/// text, four at most. After a refusal title and notes are given up: nothing is told.
pub fn push_declarations(
    alloc: Global,
    told: &mut Told,
    text: &[u8],
    tokens: &[Token],
    span: Span,
) -> Result<(), AllocError>
    ensures { told.new.title ≡ told.old.title }
{
    let words = variables_in(alloc, text, tokens, span)?;
    let found = declarations_of(alloc, tokens)?;
    let mut count = 0usize;
    for word in words.as_slice() {
        if let Some(it) = only_one(found.as_slice(), text, *word) {
            if count < MOST_TOLD {
                push_one(told, text, it)?;
            }
            count = count.saturating_add(1);
        }
    }
    Ok(())
}
