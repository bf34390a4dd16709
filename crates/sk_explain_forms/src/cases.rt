//! A `case` without its colon.
ghost use Rattle.std.specs.Prelude.{◌≡◌};

use crate::seen::{is_spelt, is_word, spelling};
use sk_explain_notes::Told;
use sk_explain_places::place_of;
use sk_tree::Token;
use std::alloc::AllocError;

// The first variant of a `case` that has no `:` behind it.
fn bare_variant<'a>(text: &[u8], tokens: &'a [Token]) -> Option<&'a Token> {
    for three in tokens.windows(3) {
        if let [first, second, third] = three {
            if is_spelt(text, first, b"case") && is_word(second) && !is_spelt(text, third, b":") {
                return Some(second);
            }
        }
    }
    None
}

/// Tells where a `case` of a text wants its colon. After a refusal title and notes are given up: nothing is told.
pub fn push_colon(told: &mut Told, text: &[u8], tokens: &[Token]) -> Result<(), AllocError>
    ensures { told.new.title ≡ told.old.title }
{
    let Some(token) = bare_variant(text, tokens) else {
        return Ok(());
    };
    let to = token.span.to as usize;
    if to > text.len() {
        return Ok(());
    }
    told.notes
        .say(&[b"behind '", spelling(text, token), b"' at "])?;
    told.notes.place(place_of(text, to))?;
    told.note(&[b" a ':' is wanting"])
}
