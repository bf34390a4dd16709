//! Texts that have no plain form, or whose plain form is not tagged.
ghost use Rattle.std.specs.Prelude.{◌≡◌, ◌++◌, OnOk};
ghost use Rattle.sk_explain_causes.specs.Titles.{form_notes, adt_title, adt_notes, tag_title, tag_notes};

use crate::phrases::{push_note, tell_one};
use crate::pieces::{bytes_of, has_key, is_key, some_tokens, token_from, tokens_from};
use crate::searches::push_passed_over;
use sk_adt::AdtFault;
use sk_base::Span;
use sk_explain_forms::push_colon;
use sk_explain_notes::Told;
use sk_tree::{Key, Kind, Token};
use std::alloc::{AllocError, Global};

/// What of algebraic types a span begins or ends with.
#[derive(Debug, Clone, Copy, PartialEq, Eq)]
pub enum Broken {
    /// It is a `new`.
    Build,
    /// It ends with the word `tag`.
    Tag,
    /// It is another member.
    Member,
}

// Which form a word wants.
fn push_form(told: &mut Told, word: &[u8]) -> Result<(), AllocError>
    ensures title { told.new.title ≡ told.old.title }
    ensures notes { OnOk result (told.new.notes.bytes.items ≡ told.old.notes.bytes.items ++ form_notes word.now) }
{
    if word == b"adt".as_slice() {
        push_note(
            told,
            b"its form is adt NAME { VARIANT { TYPE FIELD; .. } .. }",
        )
    } else if word == b"switch".as_slice() {
        push_note(
            told,
            b"its form is switch (VARIABLE) { case VARIANT: { .. } .. }",
        )
    } else {
        push_note(
            told,
            b"its form is case VARIANT: { .. }, in the braces of a switch",
        )
    }
}

// Tells what is wrong with a word of algebraic types.
fn tell_word(told: &mut Told, word: &[u8], fault: AdtFault) -> Result<(), AllocError>
    ensures title { OnOk result (told.new.title.bytes.items ≡ told.old.title.bytes.items ++ adt_title word.now fault) }
    ensures notes { OnOk result (told.new.notes.bytes.items ≡ told.old.notes.bytes.items ++ adt_notes word.now fault) }
{
    match fault {
        AdtFault::NoForm { at: _ } => {
            told.title(&[b"'", word, b"' does not stand in its form"])?;
            push_form(told, word)
        }
        AdtFault::Twice { at: _ } => {
            told.title(&[b"the name '", word, b"' stands twice"])?;
            push_note(
                told,
                b"types and variants have one group of names, each variant has one, and the cases of each switch",
            )
        }
        AdtFault::NoVariant { at: _ } => {
            told.title(&[
                b"'",
                word,
                b"' is no variant, or one of another type than the first case",
            ])?;
            Ok(())
        }
        AdtFault::TooMany { at: _ } => {
            told.title(&[
                b"'",
                word,
                b"' has more than 16 variants, or more than 16 fields",
            ])?;
            Ok(())
        }
        AdtFault::Memory => {
            told.title(&[b"out of memory"])?;
            Ok(())
        }
    }
}

// The first byte of the token that is at fault.
fn byte_of(fault: AdtFault) -> u32 {
    match fault {
        AdtFault::NoForm { at } | AdtFault::Twice { at } => at,
        AdtFault::NoVariant { at } | AdtFault::TooMany { at } => at,
        AdtFault::Memory => 0,
    }
}

/// Tells why a text has no plain form. Want of memory has an ending of its own. After a refusal title and notes are given up:
/// nothing is told.
pub fn tell_not_lowered(
    alloc: Global,
    told: &mut Told,
    text: &[u8],
    fault: AdtFault,
) -> Result<(), AllocError> {
    let tokens = some_tokens(alloc, text)?;
    let word = match token_from(tokens.as_slice(), byte_of(fault)) {
        Some(token) => bytes_of(text, token.span),
        None => b"",
    };
    tell_word(told, word, fault)?;
    match fault {
        AdtFault::NoForm { at: _ } => push_colon(told, text, tokens.as_slice()),
        AdtFault::Twice { .. } | AdtFault::NoVariant { .. } => Ok(()),
        AdtFault::TooMany { .. } | AdtFault::Memory => Ok(()),
    }
}

// Tells which rule of tags is broken.
fn tell_broken(told: &mut Told, broken: Broken) -> Result<(), AllocError>
    ensures title { OnOk result (told.new.title.bytes.items ≡ told.old.title.bytes.items ++ tag_title broken) }
    ensures notes { OnOk result (told.new.notes.bytes.items ≡ told.old.notes.bytes.items ++ tag_notes broken) }
{
    match broken {
        Broken::Build => tell_one(
            told,
            b"this new does not set the tag of a variant first, and then fields of that variant alone",
            b"new VARIANT(FIELD = VALUE, ..) does",
        ),
        Broken::Tag => tell_one(
            told,
            b"a tag, or a field of that name, stands where it cannot",
            b"a tag is asked in x.tag == i alone, the whole condition of an if; switch asks it",
        ),
        Broken::Member => tell_one(
            told,
            b"the field may be one of another variant than its record has here",
            b"it stands in the block of a case of its variable, which neither assigns that variable nor passes it for ref",
        ),
    }
}

// Whether a token is the word `tag`.
fn is_tag(token: &Token) -> bool {
    match &token.kind {
        Kind::Word(name) => name.is(b"tag"),
        Kind::Number(_) | Kind::Text(_) | Kind::Key(_) | Kind::Mark(_) => false,
    }
}

// What stands at a span.
fn broken_at(tokens: &[Token], span: Span) -> Broken {
    let tokens = tokens_from(tokens, span.from);
    if let Some((first, _)) = tokens.split_first() {
        if is_key(first, Key::New) {
            return Broken::Build;
        }
    }
    for token in tokens {
        if token.span.to == span.to && is_tag(token) {
            return Broken::Tag;
        }
    }
    Broken::Member
}

/// Tells which rule of tags the plain form of a text breaks at a span. After a refusal title and notes are given up: nothing
/// is told.
pub fn tell_not_tagged(
    alloc: Global,
    told: &mut Told,
    text: &[u8],
    span: Span,
) -> Result<(), AllocError> {
    let tokens = some_tokens(alloc, text)?;
    tell_broken(told, broken_at(tokens.as_slice(), span))
}

/// Tells what of a text is not written with its plain form. After a refusal title and notes are given up: nothing is told.
pub fn push_not_written(alloc: Global, told: &mut Told, text: &[u8]) -> Result<(), AllocError>
    ensures { told.new.title ≡ told.old.title }
{
    push_passed_over(alloc, told, text)?;
    let tokens = some_tokens(alloc, text)?;
    if has_key(tokens.as_slice(), Key::Pragma) {
        push_note(
            told,
            b"pragmas are not written: give their bounds on the command line of synth",
        )?;
    }
    Ok(())
}
