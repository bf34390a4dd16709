//! Words that are nearly a keyword.
ghost use Rattle.std.specs.Prelude.{◌≡◌};

use crate::context::front_of_call;
use crate::cut::Cut;
use crate::seen::{Seen, is_any, is_spelt, is_type, is_word, spelling};
use sk_explain_notes::{Told, nearest};
use sk_explain_places::place_of;
use sk_tree::Token;
use std::alloc::{AllocError, Global};

// The keywords that a statement or an item begins with, or that stand in a heading.
static KEYWORDS: [&[u8]; 20] = [
    b"assert",
    b"assume",
    b"bit",
    b"else",
    b"for",
    b"generator",
    b"harness",
    b"if",
    b"implements",
    b"int",
    b"minimize",
    b"minrepeat",
    b"pragma",
    b"reorder",
    b"repeat",
    b"return",
    b"struct",
    b"switch",
    b"void",
    b"while",
];

// Whether a statement or an item may begin behind these tokens.
fn may_begin(text: &[u8], tokens: &[Token]) -> bool {
    match tokens.last() {
        Some(last) => Seen::Start.fits(text, last),
        None => true,
    }
}

// The last of some tokens, where it is a word and a statement or an item begins with it.
fn first_word<'a>(text: &[u8], tokens: &'a [Token]) -> Option<&'a Token> {
    match tokens {
        [before @ .., word] if is_word(word) && may_begin(text, before) => Some(word),
        _ => None,
    }
}

// The word that a statement or an item begins with, where a place stands behind it, behind one word more or behind its
// parentheses; or the word at the place behind parentheses.
fn head(cut: Cut<'_>) -> Option<&Token> {
    if let Some(word) = first_word(cut.text, front_of_call(cut)) {
        return Some(word);
    }
    if let Some(word) = first_word(cut.text, cut.before) {
        return Some(word);
    }
    match cut.last() {
        Some(token) if is_word(token) => first_word(cut.text, cut.earlier().before),
        _ => behind_parameters(cut),
    }
}

// The word at a place that stands behind parentheses.
fn behind_parameters(cut: Cut<'_>) -> Option<&Token> {
    match cut.here() {
        Some(token) if is_word(token) && cut.ends(b")") => Some(token),
        _ => None,
    }
}

// Whether a type may end with a token, or a struct is declared behind it.
fn ends_type(text: &[u8], token: &Token) -> bool {
    is_word(token) || is_type(text, token) || is_any(text, token, &[b"]", b"struct"])
}

// Whether some tokens declare a word.
fn declares(text: &[u8], tokens: &[Token], word: &[u8]) -> bool {
    for two in tokens.windows(2) {
        if let [first, second] = two {
            if ends_type(text, first) && is_spelt(text, second, word) {
                return true;
            }
        }
    }
    false
}

// Whether a text declares a word.
fn is_declared(cut: Cut<'_>, word: &[u8]) -> bool {
    declares(cut.text, cut.before, word) || declares(cut.text, cut.from, word)
}

/// The keyword that a word is nearly, of those that a statement or an item begins with or that stand in a heading.
pub fn near_keyword(alloc: Global, word: &[u8]) -> Result<Option<&'static [u8]>, AllocError> {
    nearest(alloc, word, &KEYWORDS)
}

/// Tells which keyword the word is nearly with which the statement or item of a place begins, or which stands there behind
/// parentheses, where the text does not declare it; answers whether it is nearly one. After a refusal title and notes are given up: nothing is told.
pub fn push_near_keyword(alloc: Global, told: &mut Told, cut: Cut<'_>) -> Result<bool, AllocError>
    ensures { told.new.title ≡ told.old.title }
{
    let Some(token) = head(cut) else {
        return Ok(false);
    };
    let (word, from) = (spelling(cut.text, token), token.span.from as usize);
    if is_declared(cut, word) {
        return Ok(false);
    }
    let Some(near) = near_keyword(alloc, word)? else {
        return Ok(false);
    };
    told.notes.say(&[b"'", word, b"'"])?;
    if from <= cut.text.len() {
        told.notes.say(&[b" at "])?;
        told.notes.place(place_of(cut.text, from))?;
    }
    told.note(&[b" is no keyword; is ", near, b" meant?"])?;
    Ok(true)
}
