//! Readers of one token, and spans of tokens in a row.
ghost use Rattle.std.specs.Prelude.{◌≡◌, ◌↔◌, IfOk, option_map};
ghost use Rattle.sk_parser_laws.specs.Readers.{mark_ahead, mark_at, key_ahead, key_at, word_at, number_at, text_at, span_between, deeper, inside};

use sk_base::{Name, Span};
use sk_tree::{Key, Kind, Mark, Token};
use std::alloc::{AllocError, Global};

/// Whether the mark stands at the front.
#[tactic(auto, unfolding(sk_parser_laws::specs::Readers::mark_ahead))]
pub fn begins(tokens: &[Token], mark: Mark) -> bool
    ensures { result ≡ mark_ahead mark tokens.now }
{
    match tokens.split_first() {
        Some((token, _)) => match token.kind {
            Kind::Mark(found) => found == mark,
            _ => false,
        },
        None => false,
    }
}

/// The tokens after the mark at the front.
#[tactic(auto, unfolding(sk_parser_laws::specs::Readers::mark_at))]
pub fn mark_at(tokens: &[Token], mark: Mark) -> Option<&[Token]>
    ensures { option_map (λ x. x.now) result ≡ mark_at mark tokens.now }
{
    match tokens.split_first() {
        Some((token, after)) => match token.kind {
            Kind::Mark(found) => { if found == mark { Some(after) } else { None } }
            _ => None,
        },
        None => None,
    }
}

/// Whether the keyword stands at the front.
#[tactic(auto, unfolding(sk_parser_laws::specs::Readers::key_ahead))]
pub fn begins_key(tokens: &[Token], key: Key) -> bool
    ensures { result ≡ key_ahead key tokens.now }
{
    match tokens.split_first() {
        Some((token, _)) => match token.kind {
            Kind::Key(found) => found == key,
            _ => false,
        },
        None => false,
    }
}

/// The tokens after the keyword at the front.
#[tactic(auto, unfolding(sk_parser_laws::specs::Readers::key_at))]
pub fn key_at(tokens: &[Token], key: Key) -> Option<&[Token]>
    ensures { option_map (λ x. x.now) result ≡ key_at key tokens.now }
{
    match tokens.split_first() {
        Some((token, after)) => match token.kind {
            Kind::Key(found) => { if found == key { Some(after) } else { None } }
            _ => None,
        },
        None => None,
    }
}

/// The word at the front, and the tokens after it.
#[tactic(auto, unfolding(sk_parser_laws::specs::Readers::word_at))]
pub fn word_at(tokens: &[Token]) -> Option<(&Name, &[Token])>
    ensures { option_map (λ x. (x.0.now, x.1.now)) result ≡ word_at tokens.now }
{
    match tokens.split_first() {
        Some((token, after)) => match &token.kind {
            Kind::Word(name) => Some((name, after)),
            _ => None,
        },
        None => None,
    }
}

/// The number at the front, and the tokens after it.
#[tactic(auto, unfolding(sk_parser_laws::specs::Readers::number_at))]
pub fn number_at(tokens: &[Token]) -> Option<(u32, &[Token])>
    ensures { option_map (λ x. (x.0, x.1.now)) result ≡ number_at tokens.now }
{
    match tokens.split_first() {
        Some((token, after)) => match token.kind {
            Kind::Number(number) => Some((number, after)),
            _ => None,
        },
        None => None,
    }
}

/// The text between quotes at the front, and the tokens after it.
#[tactic(auto, unfolding(sk_parser_laws::specs::Readers::text_at))]
pub fn text_at(tokens: &[Token]) -> Option<(&Name, &[Token])>
    ensures { option_map (λ x. (x.0.now, x.1.now)) result ≡ text_at tokens.now }
{
    match tokens.split_first() {
        Some((token, after)) => match &token.kind {
            Kind::Text(text) => Some((text, after)),
            _ => None,
        },
        None => None,
    }
}

/// The bytes from the first token up to the tokens of the rest.
pub fn span_between(start: &[Token], rest: &[Token]) -> Span
    ensures { result ≡ span_between start.now rest.now }
{
    let count = start.len().saturating_sub(rest.len());
    if count == 0 {
        return Span { from: 0, to: 0 };
    }
    Span {
        from: start[0].span.from,
        to: start[count - 1].span.to,
    }
}

/// A copy of a name.
pub fn copy(alloc: Global, name: &Name) -> Result<Name, AllocError>
    ensures { IfOk result (λ copy. copy ≡ name.now) }
{
    let copy = Name::from_slice(alloc, name.as_bytes())?;
    Ok(copy)
}

/// One level deeper, where the budget has room for it.
#[tactic(auto, unfolding(sk_parser_laws::specs::Readers::deeper))]
pub fn deeper(budget: u32, depth: u32) -> Option<u32>
    ensures { result ≡ deeper budget depth }
{
    if depth < budget {
        Some(depth + 1)
    } else {
        None
    }
}

/// The budget of what stands inside a node.
#[tactic(auto, unfolding(sk_parser_laws::specs::Readers::inside))]
pub fn inside(budget: u32) -> Option<u32>
    ensures { result ≡ inside budget }
{
    if budget == 0 { None } else { Some(budget - 1) }
}
