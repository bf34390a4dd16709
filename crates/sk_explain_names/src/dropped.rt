//! Patterns with strings that name what is not there.
ghost use Rattle.std.specs.Prelude.{◌≡◌};

use crate::declared::{Declared, declarations};
use crate::pieces::{bytes_of, has_mark, is_mark, word};
use sk_base::{Name, Span};
use sk_explain_notes::{Told, nearest};
use sk_explain_places::place_of;
use sk_tree::{Mark, Token};
use sk_types_names::Numbers;
use std::alloc::{AllocError, Global};

// So many patterns are warned of.
const MOST_WARNED: usize = 20;

// A pattern, by its first bytes, a name in it, and its string that is left where there is one alone.
#[derive(Drop, Clone, Copy)]
struct Dropped {
    pattern: Span,
    name: Span,
    left: Option<Span>,
}

// The names that a text declares, and its structs.
fn names_of(alloc: Global, tokens: &[Token], found: &[Declared]) -> Result<Numbers, AllocError> {
    let mut known = Numbers::new(alloc);
    for it in found {
        if let Some(name) = word_at(tokens, it.at) {
            known.put(name, it.at)?;
        }
    }
    Ok(known)
}

// The word of a place among tokens.
fn word_at(tokens: &[Token], at: usize) -> Option<&Name> {
    word(tokens.get(at)?)
}

// Whether a token is a word that the text does not declare.
fn is_unknown(known: &Numbers, token: &Token) -> bool {
    match word(token) {
        Some(name) => known.get(name).is_none(),
        None => false,
    }
}

// The first of some tokens that is such a word.
fn unknown_in(known: &Numbers, tokens: &[Token]) -> Option<Span> {
    for token in tokens {
        if is_unknown(known, token) {
            return Some(token.span);
        }
    }
    None
}

// The bytes from the first of some tokens to the last.
fn span_of(tokens: &[Token]) -> Option<Span> {
    Some(Span {
        from: tokens.first()?.span.from,
        to: tokens.last()?.span.to,
    })
}

// The one string of a pattern that names nothing unknown, where the pattern is a list of strings.
fn left_in(known: &Numbers, inside: &[Token]) -> Option<Span> {
    if has_mark(inside, Mark::OpenParen) || has_mark(inside, Mark::Question) {
        return None;
    }
    let mut left = None;
    for string in inside.split(|token| is_mark(token, Mark::Bar)) {
        if unknown_in(known, string).is_none() {
            if left.is_some() {
                return None;
            }
            left = span_of(string);
        }
    }
    left
}

// What stands in the pattern whose first mark stands in front of some tokens.
fn inside(tokens: &[Token]) -> &[Token] {
    for (at, token) in tokens.iter().enumerate() {
        if is_mark(token, Mark::ClosePattern) {
            return &tokens[..at];
        }
    }
    tokens
}

// The patterns with names that are not there, each with the first.
fn dropping(alloc: Global, tokens: &[Token], known: &Numbers) -> Result<Vec<Dropped>, AllocError> {
    let mut found: Vec<Dropped> = Vec::new(alloc);
    for (at, token) in tokens.iter().enumerate() {
        if is_mark(token, Mark::OpenPattern) {
            let inside = inside(&tokens[at + 1..]);
            if let Some(name) = unknown_in(known, inside) {
                found.push(Dropped {
                    pattern: token.span,
                    name,
                    left: left_in(known, inside),
                })?;
            }
        }
    }
    Ok(found)
}

// A name of a text that is near another.
fn near_in<'a>(
    alloc: Global,
    text: &'a [u8],
    found: &[Declared],
    name: &[u8],
) -> Result<Option<&'a [u8]>, AllocError> {
    let mut names: Vec<&'a [u8]> = Vec::new(alloc);
    for it in found {
        names.push(bytes_of(text, it.name))?;
    }
    nearest(alloc, name, names.as_slice())
}

// Warns of one.
fn push_one(
    alloc: Global,
    told: &mut Told,
    text: &[u8],
    found: &[Declared],
    it: Dropped,
) -> Result<(), AllocError>
    ensures { told.new.title ≡ told.old.title }
{
    let from = it.pattern.from as usize;
    if from > text.len() {
        return Ok(());
    }
    let name = bytes_of(text, it.name);
    told.notes.say(&[b"warning: the pattern at "])?;
    told.notes.place(place_of(text, from))?;
    told.notes.say(&[b" drops each string with '", name, b"', which is not there"])?;
    if let Some(left) = it.left {
        told.notes
            .say(&[b", so '", bytes_of(text, left), b"' is left"])?;
    }
    match near_in(alloc, text, found, name)? {
        Some(near) => told.note(&[b"; is '", near, b"' meant?"]),
        None => told.notes.end(),
    }
}

/// Warns of each pattern of a text, 20 at most, that has a word which the text declares nowhere: its strings with that word are
/// dropped. After a refusal title and notes are given up: nothing is told.
pub fn push_dropped(
    alloc: Global,
    told: &mut Told,
    text: &[u8],
    tokens: &[Token],
) -> Result<(), AllocError>
    ensures { told.new.title ≡ told.old.title }
{
    let found = declarations(alloc, tokens)?;
    let known = names_of(alloc, tokens, found.as_slice())?;
    let dropped = dropping(alloc, tokens, &known)?;
    for it in dropped.as_slice().iter().take(MOST_WARNED) {
        push_one(alloc, told, text, found.as_slice(), *it)?;
    }
    Ok(())
}
