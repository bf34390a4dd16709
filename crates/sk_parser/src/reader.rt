//! The tree of a text, from its tokens.
ghost use Rattle.std.specs.Prelude.{◌≡◌, ◌≤◌, IfOk, IfErr, MatchResult, IsTrue};
ghost use Rattle.sk_parser.specs.Parses.{IsTreeOf, ReadsAsNone, ReadsWithTooMany, ReadsWithBad, Exactly, is_memory, is_no_reading, is_too_many, is_bad, place_of, greatest_end, Checks, Answers};

use crate::fault::ParseFault;
use crate::item::tree_at;
use crate::walk::faults_of;
use sk_parser_laws::Stop;
use sk_tree::{Token, Tree};
use std::alloc::Global;

/// The tree as which the tokens read, at most 256 deep, with the trees of the strings of its patterns. No
/// other tree of that depth reads.
///
/// # Errors
///
/// `NoReading` where no such tree reads, with the first byte of the first token that cannot go on. Else
/// `TooManyStrings` where a pattern has more than 128 strings. Else `BadAlternative` where a string of a
/// pattern reads as no expression of depth at most 256. Both name the first byte of the first such pattern.
pub fn parse(alloc: Global, tokens: &[Token]) -> Result<Tree, ParseFault>
    ensures found { IfOk result (IsTreeOf tokens.now) }
    // Any such tree is the answer.
    ensures only { (tree : Tree) → IsTreeOf tokens.now tree → MatchResult result (λ answer. answer ≡ tree) (λ e. IsTrue (is_memory e)) }
    ensures no_reading { Exactly is_no_reading (ReadsAsNone tokens.now) result }
    ensures too_many { Exactly is_too_many (ReadsWithTooMany tokens.now) result }
    ensures bad { Exactly is_bad (ReadsWithBad tokens.now) result }
    ensures place { IfErr result (λ e. place_of e ≤ greatest_end tokens.now) }
{
    read(alloc, tokens)
}

// The same, against the function on lists that the code computes.
fn read(alloc: Global, tokens: &[Token]) -> Result<Tree, ParseFault>
    ensures answers { Answers tokens.now result }
    ensures place { IfErr result (λ e. place_of e ≤ greatest_end tokens.now) }
{
    match tree_at(alloc, tokens) {
        Ok(tree) => checked(alloc, tokens, tree),
        Err(Stop::NoReading(left)) => Err(ParseFault::NoReading {
            at: stopped(tokens, left),
        }),
        Err(Stop::NoMemory) => Err(ParseFault::Memory),
    }
}

// The tree, if its patterns have no fault.
#[tactic(auto, unfolding(sk_parser_laws::specs::Faults::tally_of))]
fn checked(alloc: Global, tokens: &[Token], tree: Tree) -> Result<Tree, ParseFault>
    ensures checks { Checks tree result }
    ensures place { IfErr result (λ e. place_of e ≤ greatest_end tokens.now) }
{
    let met = faults_of(alloc, &tree)?;
    match met.too_many {
        Some(at) => Err(ParseFault::TooManyStrings {
            at: within(tokens, at),
        }),
        None => match met.bad {
            Some(at) => Err(ParseFault::BadAlternative {
                at: within(tokens, at),
            }),
            None => Ok(tree),
        },
    }
}

// The greatest end of a token.
fn greatest_end(tokens: &[Token]) -> u32
    ensures { result ≡ greatest_end tokens.now }
{
    let mut greatest = 0;
    for token in tokens {
        if greatest < token.span.to {
            greatest = token.span.to;
        }
    }
    greatest
}

// A place that is not behind the last token.
fn within(tokens: &[Token], at: u32) -> u32
    ensures { result ≤ greatest_end tokens.now }
{
    let end = greatest_end(tokens);
    if at < end { at } else { end }
}

// Where the tokens begin of which so many are left; the end of the last where none is.
fn stopped(tokens: &[Token], left: usize) -> u32
    ensures { result ≤ greatest_end tokens.now }
{
    match tokens.get(tokens.len().saturating_sub(left)) {
        Some(token) => within(tokens, token.span.from),
        None => greatest_end(tokens),
    }
}
