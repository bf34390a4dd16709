//! How many strings a pattern has.
ghost use Rattle.std.specs.Prelude.{◌≡◌, ◌≤◌, length, map, min};
ghost use Rattle.sk_tree.specs.Strings.{strings_of};
ghost use Rattle.sk_explain_causes.specs.Counts.{most_counted, plus, times, sum_from, product_from, count_of};

use crate::pieces::{is_mark, tokens_from};
use sk_parser_exprs::{ANY_LEVEL, expr_at};
use sk_parser_laws::Stop;
use sk_tree::{EForm, Expr, Mark, Pattern, Token};
use std::alloc::{AllocError, Global};

/// The greatest number that is counted to. One that is greater is counted as this one.
pub const MOST_COUNTED: u64 = u64::MAX;

// The deepest that an expression is nested.
const MOST_LEVELS: u32 = 256;

/// How many strings a pattern has, or the greatest number that is counted to. No string is made.
#[tactic(auto, using(crate::proofs::CountLaws::counts_strings))]
pub fn string_count(pattern: &Pattern) -> u64
    ensures { result ≡ min (length (strings_of pattern.now)) most_counted }
{
    count(pattern)
}

// The same, by the function that the code computes.
#[cycle(string_count)]
fn count(pattern: &Pattern) -> u64
    ensures { result ≡ count_of pattern.now }
{
    match pattern {
        Pattern::Choice(parts) => sum(parts.as_slice()),
        Pattern::Seq(parts) => product(parts.as_slice()),
        Pattern::Maybe(part) => sum_of_two(1, count(part.get())),
        Pattern::Group(part) => count(part.get()),
        Pattern::One(_) => 1,
    }
}

// The sum of the counts of patterns.
#[cycle(string_count)]
fn sum(parts: &[Pattern]) -> u64
    ensures { result ≡ sum_from 0 (map count_of parts.now) }
{
    let mut total = 0;
    for part in parts {
        total = sum_of_two(total, count(part));
    }
    total
}

// The product of the counts of patterns.
#[cycle(string_count)]
fn product(parts: &[Pattern]) -> u64
    ensures { result ≡ product_from 1 (map count_of parts.now) }
{
    let mut total = 1;
    for part in parts {
        total = product_of_two(total, count(part));
    }
    total
}

fn sum_of_two(a: u64, b: u64) -> u64
    ensures { result ≡ plus a b }
{
    a.saturating_add(b)
}

fn product_of_two(a: u64, b: u64) -> u64
    ensures { result ≡ times a b }
{
    a.saturating_mul(b)
}

// The tokens up to the first `|}`, with it.
fn through_pattern(tokens: &[Token]) -> &[Token] {
    for (at, token) in tokens.iter().enumerate() {
        if is_mark(token, Mark::ClosePattern) {
            return &tokens[..at + 1];
        }
    }
    tokens
}

// How many strings an expression has that is a pattern.
fn count_in(expr: &Expr) -> Option<u64> {
    match &expr.form {
        EForm::Pattern { pattern, .. } => Some(string_count(pattern)),
        _ => None,
    }
}

/// How many strings the pattern has whose `{|` stands at a byte, where one does. Inside of a pattern stands no other.
pub fn strings_at(alloc: Global, tokens: &[Token], at: u32) -> Result<Option<u64>, AllocError> {
    let tokens = through_pattern(tokens_from(tokens, at));
    match expr_at(alloc, true, MOST_LEVELS, ANY_LEVEL, tokens) {
        Ok((read, _)) => Ok(count_in(read.expr.get())),
        Err(Stop::NoReading(_)) => Ok(None),
        Err(Stop::NoMemory) => Err(AllocError),
    }
}
