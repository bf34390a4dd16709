//! Readers of one token, where it stands.
ghost use Rattle.std.specs.Prelude.{◌≡◌, ◌-◌, ◌≤◌, length, IfOk, option_map};
ghost use Rattle.sk_parser_laws.specs.Readers.{Gives, taken};
ghost use Rattle.sk_adt.specs.Forms.{sign_at, keyword_at, name_at, at_close};

use crate::form::Word;
use sk_base::{List, Span};
use sk_parser_exprs::token::{begins, begins_key, copy};
use sk_parser_laws::Stop;
use sk_tree::{Key, Kind, Mark, Token};
use sk_tree_spell::copy_token;
use std::alloc::{AllocError, Global};

/// The mark at the front, where it stands, and the tokens after it.
#[tactic(auto, unfolding(crate::specs::Forms::sign_at, sk_parser_laws::specs::Readers::mark_ahead))]
pub(crate) fn sign_at(tokens: &[Token], mark: Mark) -> Option<(Span, &[Token])>
    ensures { option_map (λ x. (x.0, x.1.now)) result ≡ sign_at mark tokens.now }
{
    match tokens.split_first() {
        Some((token, after)) => {
            if begins(tokens, mark) {
                Some((token.span, after))
            } else {
                None
            }
        }
        None => None,
    }
}

/// The keyword at the front, where it stands, and the tokens after it.
#[tactic(auto, unfolding(crate::specs::Forms::keyword_at, sk_parser_laws::specs::Readers::key_ahead))]
pub(crate) fn keyword_at(tokens: &[Token], key: Key) -> Option<(Span, &[Token])>
    ensures { option_map (λ x. (x.0, x.1.now)) result ≡ keyword_at key tokens.now }
{
    match tokens.split_first() {
        Some((token, after)) => {
            if begins_key(tokens, key) {
                Some((token.span, after))
            } else {
                None
            }
        }
        None => None,
    }
}

/// The word at the front, where it stands, and the tokens after it.
#[tactic(auto, unfolding(crate::specs::Forms::name_at))]
pub(crate) fn name_at(alloc: Global, tokens: &[Token]) -> Result<(Word, &[Token]), Stop>
    ensures { Gives (λ x. (x.0, x.1.now)) result (name_at tokens.now) }
{
    match tokens.split_first() {
        Some((token, after)) => match &token.kind {
            Kind::Word(name) => {
                let name = copy(alloc, name)?;
                let span = token.span;
                Ok((Word { name, span }, after))
            }
            _ => Err(Stop::NoReading(tokens.len())),
        },
        None => Err(Stop::NoReading(0)),
    }
}

/// Whether a closing brace follows.
#[tactic(auto, unfolding(crate::specs::Forms::at_close))]
pub(crate) fn at_close(tokens: &[Token]) -> bool
    ensures { result ≡ at_close tokens.now }
{
    begins(tokens, Mark::CloseBrace)
}

/// Copies of tokens.
fn copies(alloc: Global, tokens: &[Token]) -> Result<List<Token>, AllocError>
    ensures { IfOk result (λ copy. copy ≡ tokens.now) }
{
    let mut out = List::new(alloc);
    for token in tokens {
        out.push(copy_token(alloc, token)?)?;
    }
    Ok(out)
}

/// Where the tokens of the rest begin, among those of the start.
fn length_before(start: &[Token], rest: &[Token]) -> usize
    ensures at { result ≡ length start.now - length rest.now }
    ensures within { result ≤ length start.now }
{
    start.len().saturating_sub(rest.len())
}

/// The tokens from the start up to the rest.
#[tactic(auto, unfolding(sk_parser_laws::specs::Readers::taken))]
pub(crate) fn before<'a>(start: &'a [Token], rest: &[Token]) -> &'a [Token]
    ensures { result.now ≡ taken start.now rest.now }
{
    &start[..length_before(start, rest)]
}

/// Copies of the tokens from the start up to the rest.
pub(crate) fn copies_before(
    alloc: Global,
    start: &[Token],
    rest: &[Token],
) -> Result<List<Token>, AllocError>
    ensures { IfOk result (λ copy. copy ≡ taken start.now rest.now) }
{
    let copy = copies(alloc, before(start, rest))?;
    Ok(copy)
}
