//! Texts that read as no tree at a form that is left out.
ghost use Rattle.std.specs.Prelude.{◌≡◌};

use crate::context::form_in_context;
use crate::cut::{Cut, cut_at};
use crate::forms::LeftOut;
use crate::keywords::push_near_keyword;
use crate::numbers::{number_form, value_at};
use crate::seen::{between, is_spelt, is_word};
use crate::table::form_in_table;
use sk_explain_notes::Told;
use sk_tree::Token;
use std::alloc::{AllocError, Global};

// The form that stands at a place.
fn form_at(cut: Cut<'_>) -> Option<LeftOut> {
    if let Some(form) = number_form(cut) {
        return Some(form);
    }
    match form_in_table(cut) {
        Some(form) => Some(form),
        None => form_in_context(cut),
    }
}

// The first token of the variable, or of the field of one, that some tokens end with.
fn target_from<'a>(text: &[u8], tokens: &'a [Token]) -> Option<&'a Token> {
    let mut first = None;
    let mut is_behind_word = false;
    for token in tokens.iter().rev() {
        if is_behind_word {
            if !is_spelt(text, token, b".") {
                return first;
            }
        } else {
            if !is_word(token) {
                return None;
            }
            first = Some(token);
        }
        is_behind_word = !is_behind_word;
    }
    if is_behind_word { first } else { None }
}

// The variable, or the field of one, that stands before a place.
fn target(cut: Cut<'_>) -> &[u8] {
    match (target_from(cut.text, cut.before), cut.last()) {
        (Some(first), Some(last)) => between(cut.text, first, last),
        _ => b"t",
    }
}

// The operator of an assignment that updates its target, and what to write.
fn push_update(told: &mut Told, cut: Cut<'_>) -> Result<(), AllocError>
    ensures { told.new.title ≡ told.old.title }
{
    let (target, mark) = (target(cut), cut.here_spelt());
    told.notes.say(&[b"'", mark, b"=' is left out: write "])?;
    told.note(&[target, b" = ", target, b" ", mark, b" (e);"])
}

// What a number is in decimal digits.
fn push_number(told: &mut Told, cut: Cut<'_>) -> Result<(), AllocError>
    ensures { told.new.title ≡ told.old.title }
{
    match value_at(cut) {
        Some(value) => {
            told.notes
                .say(&[b"a number is spelt by decimal digits alone: write "])?;
            told.notes.number(u64::from(value))?;
            told.notes.end()
        }
        None => told.note(&[LeftOut::Base.note()]),
    }
}

// A word that is left out, and what to write.
fn push_word(told: &mut Told, word: &[u8], form: LeftOut) -> Result<(), AllocError>
    ensures { told.new.title ≡ told.old.title }
{
    told.notes.say(&[b"'", word, b"' is left out: "])?;
    told.note(&[form.note()])
}

// What to write in place of a form.
fn push_form(told: &mut Told, cut: Cut<'_>, form: LeftOut) -> Result<(), AllocError>
    ensures { told.new.title ≡ told.old.title }
{
    match form {
        LeftOut::Update => push_update(told, cut),
        LeftOut::Base => push_number(told, cut),
        LeftOut::Modifier | LeftOut::Storage => push_word(told, cut.last_spelt(), form),
        LeftOut::Conjunction => push_word(told, cut.here_spelt(), form),
        _ => told.note(&[form.note()]),
    }
}

/// Tells which form of those that are left out stands where the tokens of a text read as no tree, and what to write in its
/// place, or which keyword a word nearly is; answers whether it told anything. After a refusal title and notes are given up: nothing is told.
pub fn push_left_out(
    alloc: Global,
    told: &mut Told,
    text: &[u8],
    tokens: &[Token],
    at: u32,
) -> Result<bool, AllocError>
    ensures { told.new.title ≡ told.old.title }
{
    let cut = cut_at(text, tokens, at);
    match form_at(cut) {
        Some(form) => {
            push_form(told, cut, form)?;
            Ok(true)
        }
        None => push_near_keyword(alloc, told, cut),
    }
}
