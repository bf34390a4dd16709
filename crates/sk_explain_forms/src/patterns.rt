//! Patterns with a string that reads as no expression, or that keep no string.
ghost use Rattle.std.specs.Prelude.{◌≡◌};

use crate::cut::cut_at;
use crate::seen::{is_spelt, is_word};
use sk_explain_notes::Told;
use sk_explain_places::place_of;
use sk_tree::Token;
use std::alloc::AllocError;

// The tokens of the pattern that some tokens begin with.
fn pattern_of<'a>(text: &[u8], tokens: &'a [Token]) -> &'a [Token] {
    for (at, token) in tokens.iter().enumerate() {
        if is_spelt(text, token, b"|}") {
            return &tokens[..at];
        }
    }
    tokens
}

// The first token of a call or a `new`.
fn first_call<'a>(text: &[u8], tokens: &'a [Token]) -> Option<&'a Token> {
    let mut before: Option<&'a Token> = None;
    for token in tokens {
        if is_spelt(text, token, b"new") {
            return Some(token);
        }
        if let Some(word) = before {
            if is_word(word) && is_spelt(text, token, b"(") {
                return Some(word);
            }
        }
        before = Some(token);
    }
    None
}

// Whether a `|` stands inside parentheses.
fn has_choice(text: &[u8], tokens: &[Token]) -> bool {
    let mut open = 0usize;
    for token in tokens {
        if is_spelt(text, token, b"(") {
            open = open.saturating_add(1);
        } else if is_spelt(text, token, b")") {
            open = open.saturating_sub(1);
        } else if open > 0 && is_spelt(text, token, b"|") {
            return true;
        }
    }
    false
}

// Tells where a pattern has a call.
fn push_call(told: &mut Told, text: &[u8], token: &Token) -> Result<(), AllocError>
    ensures { told.new.title ≡ told.old.title }
{
    told.notes.say(&[b"in {| |} stands no call and no new"])?;
    let from = token.span.from as usize;
    if from <= text.len() {
        told.notes.say(&[b", as at "])?;
        told.notes.place(place_of(text, from))?;
    }
    told.note(&[b": put it into a variable in front, or outside of {| |}"])
}

// Tells that a pattern has a choice where a bitwise or may be meant.
fn push_choice(told: &mut Told) -> Result<(), AllocError>
    ensures { told.new.title ≡ told.old.title }
{
    told.note(&[
        b"in {| |} parentheses group strings: (a | b) is a choice of a or b, and no bitwise or",
    ])
}

// The last `{|` with no `|}` behind it.
fn open_pattern<'a>(text: &[u8], tokens: &'a [Token]) -> Option<&'a Token> {
    let mut open = None;
    for token in tokens {
        if is_spelt(text, token, b"{|") {
            open = Some(token);
        } else if is_spelt(text, token, b"|}") {
            open = None;
        }
    }
    open
}

/// Tells of a pattern that is not closed; answers whether there is one. After a refusal title and notes are given up: nothing
/// is told.
pub fn push_open_pattern(told: &mut Told, text: &[u8], tokens: &[Token]) -> Result<bool, AllocError>
    ensures { told.new.title ≡ told.old.title }
{
    let Some(token) = open_pattern(text, tokens) else {
        return Ok(false);
    };
    let from = token.span.from as usize;
    if from > text.len() {
        return Ok(false);
    }
    told.notes.say(&[b"'{|' at "])?;
    told.notes.place(place_of(text, from))?;
    told.note(&[b" is not closed: |} is wanting"])?;
    Ok(true)
}

/// Tells where the pattern that begins at a byte has a call, and that `(a | b)` in it is a choice. After a refusal title and
/// notes are given up: nothing is told.
pub fn push_left_out_string(
    told: &mut Told,
    text: &[u8],
    tokens: &[Token],
    at: u32,
) -> Result<(), AllocError>
    ensures { told.new.title ≡ told.old.title }
{
    let tokens = pattern_of(text, cut_at(text, tokens, at).from);
    if let Some(token) = first_call(text, tokens) {
        push_call(told, text, token)?;
    }
    if has_choice(text, tokens) {
        push_choice(told)?;
    }
    Ok(())
}

// Whether one of some tokens is `bit`.
fn has_bit(text: &[u8], tokens: &[Token]) -> bool {
    tokens.iter().any(|token| is_spelt(text, token, b"bit"))
}

// The first pattern of some tokens that has a choice in parentheses.
fn choosing<'a>(text: &[u8], tokens: &'a [Token]) -> Option<&'a Token> {
    for (at, token) in tokens.iter().enumerate() {
        if is_spelt(text, token, b"{|") && has_choice(text, pattern_of(text, &tokens[at..])) {
            return Some(token);
        }
    }
    None
}

/// Tells of a text with bits which of its patterns is the first that has a choice in parentheses. After a refusal title and notes are
/// given up: nothing is told.
pub fn push_chosen(told: &mut Told, text: &[u8], tokens: &[Token]) -> Result<(), AllocError>
    ensures { told.new.title ≡ told.old.title }
{
    if !has_bit(text, tokens) {
        return Ok(());
    }
    match choosing(text, tokens) {
        Some(token) => push_chosen_at(told, text, token.span.from as usize),
        None => Ok(()),
    }
}

// The same of a pattern that begins at a byte.
fn push_chosen_at(told: &mut Told, text: &[u8], from: usize) -> Result<(), AllocError>
    ensures { told.new.title ≡ told.old.title }
{
    if from > text.len() {
        return Ok(());
    }
    told.notes.say(&[b"in the pattern at "])?;
    told.notes.place(place_of(text, from))?;
    told.note(&[b" (a | b) is a choice of a or b, and no bitwise or"])
}
