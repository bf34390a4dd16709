//! Patterns read from tokens: `pattern_at` of specs is the function on lists that this code computes.
ghost use Rattle.std.specs.Prelude.{◌≡◌, ◌-◌, ◌<◌, IfOk, not};
ghost use Rattle.sk_tree.specs.declared.pattern.Pattern.TheVariants as pattern;
ghost use Rattle.sk_tree.specs.Spelt.{AsChoice, AsSequence, AsPart, may_stand};
ghost use Rattle.sk_parser_laws.specs.Readers.{Gives, repeated};
ghost use Rattle.sk_parser_laws.specs.PatternReader.{formed, one_part, push_part, next_sequence, ends_choice, ends_sequence, next_part, group_at, plain_at, behind_plain, pattern_at};

use crate::token::{begins, deeper, mark_at};
use sk_base::{Boxed, List};
use sk_parser_laws::{DeepPattern, Parts, Stop};
use sk_tree::{Kind, Mark, Pattern, Token};
use sk_tree_spell::copy_token;
use std::alloc::{AllocError, Global};

// A pattern whose parts have this depth, with the tokens after it.
#[tactic(auto, unfolding(sk_parser_laws::specs::PatternReader::formed))]
fn form<'a>(
    alloc: Global,
    budget: u32,
    pattern: Pattern,
    depth: u32,
    rest: &'a [Token],
) -> Result<(DeepPattern, &'a [Token]), Stop>
    ensures { Gives (λ x. (x.0, x.1.now)) result (formed budget pattern depth rest.now) }
{
    let pattern = Boxed::new(alloc, pattern)?;
    match deeper(budget, depth) {
        Some(depth) => Ok((DeepPattern { pattern, depth }, rest)),
        None => Err(Stop::NoReading(rest.len())),
    }
}

// The first of some parts.
fn one_part(alloc: Global, part: DeepPattern) -> Result<Parts, AllocError>
    ensures { IfOk result (λ parts. parts ≡ one_part part) }
{
    let DeepPattern { pattern, depth } = part;
    let mut items = List::new(alloc);
    items.push(pattern.into_inner())?;
    Ok(Parts { items, depth })
}

// One part more.
#[tactic(auto, unfolding(sk_parser_laws::specs::PatternReader::push_part))]
fn push_part(parts: Parts, part: DeepPattern) -> Result<Parts, AllocError>
    ensures { IfOk result (λ more. more ≡ push_part parts part) }
{
    let Parts {
        mut items,
        depth: deepest,
    } = parts;
    let DeepPattern { pattern, depth } = part;
    items.push(pattern.into_inner())?;
    let depth = if deepest < depth { depth } else { deepest };
    Ok(Parts { items, depth })
}

// Whether no other sequence follows.
#[tactic(auto, unfolding(sk_parser_laws::specs::PatternReader::ends_choice))]
fn ends_choice(tokens: &[Token]) -> bool
    ensures { result ≡ ends_choice tokens.now }
{
    !begins(tokens, Mark::Bar)
}

// Whether the token may stand in a string.
fn may_stand(kind: &Kind) -> bool
    ensures { result ≡ may_stand kind.now }
{
    match kind {
        Kind::Mark(
            Mark::Bar
            | Mark::Question
            | Mark::OpenParen
            | Mark::CloseParen
            | Mark::OpenPattern
            | Mark::ClosePattern,
        ) => false,
        _ => true,
    }
}

// Whether no other part follows.
#[tactic(auto, unfolding(sk_parser_laws::specs::PatternReader::ends_sequence))]
fn ends_sequence(tokens: &[Token]) -> bool
    ensures { result ≡ ends_sequence tokens.now }
{
    match tokens.split_first() {
        Some((token, _)) => match &token.kind {
            Kind::Mark(Mark::OpenParen) => false,
            kind => !may_stand(kind),
        },
        None => true,
    }
}

// One token as a pattern.
fn one_token<'a>(
    alloc: Global,
    budget: u32,
    token: &Token,
    rest: &'a [Token],
) -> Result<(DeepPattern, &'a [Token]), Stop>
    ensures { Gives (λ x. (x.0, x.1.now)) result (formed budget (pattern.One token.now) 0 rest.now) }
{
    let token = copy_token(alloc, token)?;
    let read = form(alloc, budget, Pattern::One(token), 0, rest)?;
    Ok(read)
}

// The `?` behind a part, where it stands.
#[tactic(auto, unfolding(sk_parser_laws::specs::PatternReader::behind_plain))]
fn behind_plain<'a>(
    alloc: Global,
    budget: u32,
    part: DeepPattern,
    tokens: &'a [Token],
) -> Result<(DeepPattern, &'a [Token]), Stop>
    ensures { Gives (λ x. (x.0, x.1.now)) result (behind_plain budget part tokens.now) }
{
    if !begins(tokens, Mark::Question) {
        return Ok((part, tokens));
    }
    let Some(rest) = mark_at(tokens, Mark::Question) else {
        return Err(Stop::NoReading(tokens.len()));
    };
    let DeepPattern { pattern, depth } = part;
    let read = form(alloc, budget, Pattern::Maybe(pattern), depth, rest)?;
    Ok(read)
}

// Sequences with `|` between them.
#[cycle(patterns)]
#[tactic(auto, unfolding(sk_parser_laws::specs::PatternReader::choice_at), using(sk_parser_laws::proofs::Budgets::choice_none, sk_parser_laws::proofs::Budgets::choice_more))]
pub fn pattern_at<'a>(
    alloc: Global,
    budget: u32,
    tokens: &'a [Token],
) -> Result<(DeepPattern, &'a [Token]), Stop>
    ensures { Gives (λ x. (x.0, x.1.now)) result (pattern_at budget AsChoice tokens.now) }
{
    if budget == 0 {
        return Err(Stop::NoReading(tokens.len()));
    }
    let (first, rest) = sequence_at(alloc, budget - 1, tokens)?;
    let parts = one_part(alloc, first)?;
    let (parts, rest) = more_sequences(alloc, budget - 1, parts, rest)?;
    let read = form(
        alloc,
        budget,
        Pattern::Choice(parts.items),
        parts.depth,
        rest,
    )?;
    Ok(read)
}

// The other sequences.
#[cycle(patterns)]
fn more_sequences<'a>(
    alloc: Global,
    inner: u32,
    parts: Parts,
    tokens: &'a [Token],
) -> Result<(Parts, &'a [Token]), Stop>
    ensures { Gives (λ x. (x.0, x.1.now)) result (repeated ends_choice (next_sequence (pattern_at inner)) parts tokens.now) }
{
    let mut so_far = parts;
    let mut rest = tokens;
    while !ends_choice(rest) {
        let (more, behind) = next_sequence(alloc, inner, so_far, rest)?;
        so_far = more;
        rest = behind;
    }
    Ok((so_far, rest))
}

// A sequence behind a `|`.
#[cycle(patterns)]
#[tactic(auto, unfolding(sk_parser_laws::specs::PatternReader::next_sequence))]
fn next_sequence<'a>(
    alloc: Global,
    inner: u32,
    parts: Parts,
    tokens: &'a [Token],
) -> Result<(Parts, &'a [Token]), Stop>
    ensures { Gives (λ x. (x.0, x.1.now)) result (next_sequence (pattern_at inner) parts tokens.now) }
{
    let Some(after) = mark_at(tokens, Mark::Bar) else {
        return Err(Stop::NoReading(tokens.len()));
    };
    let (part, rest) = sequence_at(alloc, inner, after)?;
    let parts = push_part(parts, part)?;
    Ok((parts, rest))
}

// Parts that follow each other.
#[cycle(patterns)]
#[tactic(auto, unfolding(sk_parser_laws::specs::PatternReader::sequence_at), using(sk_parser_laws::proofs::Budgets::sequence_none, sk_parser_laws::proofs::Budgets::sequence_more))]
fn sequence_at<'a>(
    alloc: Global,
    budget: u32,
    tokens: &'a [Token],
) -> Result<(DeepPattern, &'a [Token]), Stop>
    ensures { Gives (λ x. (x.0, x.1.now)) result (pattern_at budget AsSequence tokens.now) }
{
    if budget == 0 {
        return Err(Stop::NoReading(tokens.len()));
    }
    let (first, rest) = part_at(alloc, budget - 1, tokens)?;
    let parts = one_part(alloc, first)?;
    let (parts, rest) = more_parts(alloc, budget - 1, parts, rest)?;
    let read = form(alloc, budget, Pattern::Seq(parts.items), parts.depth, rest)?;
    Ok(read)
}

// The other parts.
#[cycle(patterns)]
fn more_parts<'a>(
    alloc: Global,
    inner: u32,
    parts: Parts,
    tokens: &'a [Token],
) -> Result<(Parts, &'a [Token]), Stop>
    ensures { Gives (λ x. (x.0, x.1.now)) result (repeated ends_sequence (next_part (pattern_at inner)) parts tokens.now) }
{
    let mut so_far = parts;
    let mut rest = tokens;
    while !ends_sequence(rest) {
        let (more, behind) = next_part(alloc, inner, so_far, rest)?;
        so_far = more;
        rest = behind;
    }
    Ok((so_far, rest))
}

// One part more.
#[cycle(patterns)]
#[tactic(auto, unfolding(sk_parser_laws::specs::PatternReader::next_part))]
fn next_part<'a>(
    alloc: Global,
    inner: u32,
    parts: Parts,
    tokens: &'a [Token],
) -> Result<(Parts, &'a [Token]), Stop>
    ensures { Gives (λ x. (x.0, x.1.now)) result (next_part (pattern_at inner) parts tokens.now) }
{
    let (part, rest) = part_at(alloc, inner, tokens)?;
    let parts = push_part(parts, part)?;
    Ok((parts, rest))
}

// A part, with the `?` behind it.
#[cycle(patterns)]
#[tactic(auto, unfolding(sk_parser_laws::specs::PatternReader::part_at), using(sk_parser_laws::proofs::Budgets::part_none, sk_parser_laws::proofs::Budgets::part_more))]
fn part_at<'a>(
    alloc: Global,
    budget: u32,
    tokens: &'a [Token],
) -> Result<(DeepPattern, &'a [Token]), Stop>
    ensures { Gives (λ x. (x.0, x.1.now)) result (pattern_at budget AsPart tokens.now) }
{
    if budget == 0 {
        return Err(Stop::NoReading(tokens.len()));
    }
    let (part, rest) = plain_at(alloc, budget, tokens)?;
    let read = behind_plain(alloc, budget, part, rest)?;
    Ok(read)
}

// A token, or a choice in parentheses.
#[cycle(patterns)]
#[tactic(auto, unfolding(sk_parser_laws::specs::PatternReader::plain_at))]
fn plain_at<'a>(
    alloc: Global,
    budget: u32,
    tokens: &'a [Token],
) -> Result<(DeepPattern, &'a [Token]), Stop>
    requires { 0 < budget }
    ensures { Gives (λ x. (x.0, x.1.now)) result (plain_at (pattern_at (budget - 1)) budget tokens.now) }
{
    let Some((token, after)) = tokens.split_first() else {
        return Err(Stop::NoReading(tokens.len()));
    };
    match &token.kind {
        Kind::Mark(Mark::OpenParen) => group_at(alloc, budget, after),
        kind => {
            if may_stand(kind) {
                one_token(alloc, budget, token, after)
            } else {
                Err(Stop::NoReading(tokens.len()))
            }
        }
    }
}

// A choice in parentheses, behind the opening one.
#[cycle(patterns)]
#[tactic(auto, unfolding(sk_parser_laws::specs::PatternReader::group_at))]
fn group_at<'a>(
    alloc: Global,
    budget: u32,
    tokens: &'a [Token],
) -> Result<(DeepPattern, &'a [Token]), Stop>
    requires { 0 < budget }
    ensures { Gives (λ x. (x.0, x.1.now)) result (group_at (pattern_at (budget - 1)) budget tokens.now) }
{
    let (choice, after) = pattern_at(alloc, budget - 1, tokens)?;
    let Some(rest) = mark_at(after, Mark::CloseParen) else {
        return Err(Stop::NoReading(after.len()));
    };
    let read = form(
        alloc,
        budget,
        Pattern::Group(choice.pattern),
        choice.depth,
        rest,
    )?;
    Ok(read)
}
