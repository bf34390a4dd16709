//! Names where a constant is wanted.
ghost use Rattle.std.specs.Prelude.{◌≡◌};

use crate::blocks::TOP;
use crate::declared::{Declared, declarations};
use crate::pieces::{bytes_of, is_word};
use crate::types::is_length;
use sk_base::Span;
use sk_explain_notes::Told;
use sk_tree::Token;
use std::alloc::{AllocError, Global};

// What a name is declared as, where it is one thing alone.
#[derive(Clone, Copy)]
enum Declares {
    Nothing,
    // At the top.
    Constant,
    Variable,
    Both,
}

// What a name is with one declaration more.
fn with(before: Declares, is_top: bool) -> Declares {
    match (before, is_top) {
        (Declares::Nothing | Declares::Constant, true) => Declares::Constant,
        (Declares::Nothing | Declares::Variable, false) => Declares::Variable,
        _ => Declares::Both,
    }
}

// What a name is declared as.
fn declared_as(text: &[u8], found: &[Declared], name: &[u8]) -> Declares {
    let mut seen = Declares::Nothing;
    for it in found {
        if bytes_of(text, it.name) == name {
            seen = with(seen, it.block == TOP);
        }
    }
    seen
}

// Whether a span is one word.
fn is_lone(tokens: &[Token], span: Span) -> bool {
    tokens.iter().any(|token| token.span.from == span.from
        && token.span.to == span.to
        && is_word(token))
}

/// Tells of a name that is no constant where one is wanted. After a refusal title and notes are given up: nothing is told.
pub fn push_not_constant(
    alloc: Global,
    told: &mut Told,
    text: &[u8],
    tokens: &[Token],
    span: Span,
) -> Result<(), AllocError>
    ensures { told.new.title ≡ told.old.title }
{
    if !is_lone(tokens, span) {
        return Ok(());
    }
    let found = declarations(alloc, tokens)?;
    let name = bytes_of(text, span);
    match declared_as(text, found.as_slice(), name) {
        Declares::Constant => told.note(&[
            b"'",
            name,
            b"' stands later: a constant is named behind its own line",
        ]),
        Declares::Variable => told.note(&[
            b"'",
            name,
            b"' is a variable: lengths and counts are constants, as int N = 8; at the top",
        ]),
        Declares::Nothing | Declares::Both => Ok(()),
    }
}

/// Tells of a name that is not there, where it is the length of an `int` or a `bit`, whether it is a variable elsewhere or
/// stands later. After a refusal title and notes are given up: nothing is told.
pub fn push_not_length(
    alloc: Global,
    told: &mut Told,
    text: &[u8],
    tokens: &[Token],
    span: Span,
) -> Result<(), AllocError>
    ensures { told.new.title ≡ told.old.title }
{
    if is_length(tokens, span) {
        push_not_constant(alloc, told, text, tokens, span)
    } else {
        Ok(())
    }
}
