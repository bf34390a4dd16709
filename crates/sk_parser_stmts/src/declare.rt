//! Types and declared names.
ghost use Rattle.std.specs.Prelude.{◌≡◌, [], ◌∷◌, IfOk};
ghost use Rattle.sk_parser_laws.specs.Readers.{Gives, repeated};
ghost use Rattle.sk_parser_laws.specs.ExprReader.{ends_row};
ghost use Rattle.sk_parser_laws.specs.StmtReader.{value_at, base_at, base_type_at, length_at, next_length, lengths_at, ty_at, init_at, declared_at, next_declared, names_at};

use sk_base::{Boxed, List};
use sk_parser_exprs::token::{begins, copy, inside, mark_at, word_at};
use sk_parser_exprs::{ANY_LEVEL, ends_row, expr_at};
use sk_parser_laws::Stop;
use sk_tree::{Base, Declared, Expr, Key, Kind, Mark, Token, TyTree};
use std::alloc::{AllocError, Global};

/// Any expression of a text.
#[tactic(auto, unfolding(sk_parser_laws::specs::StmtReader::value_at))]
pub fn value_at<'a>(
    alloc: Global,
    budget: u32,
    tokens: &'a [Token],
) -> Result<(Boxed<Expr>, &'a [Token]), Stop>
    ensures { Gives (λ x. (x.0, x.1.now)) result (value_at budget tokens.now) }
{
    let (read, rest) = expr_at(alloc, true, budget, ANY_LEVEL, tokens)?;
    Ok((read.expr, rest))
}

// An expression of level 1.
#[tactic(auto, unfolding(sk_parser_laws::specs::StmtReader::base_at))]
pub fn base_at<'a>(
    alloc: Global,
    budget: u32,
    tokens: &'a [Token],
) -> Result<(Boxed<Expr>, &'a [Token]), Stop>
    ensures { Gives (λ x. (x.0, x.1.now)) result (base_at budget tokens.now) }
{
    let (read, rest) = expr_at(alloc, true, budget, 1, tokens)?;
    Ok((read.expr, rest))
}

// The base of a type.
#[tactic(auto, unfolding(sk_parser_laws::specs::StmtReader::base_type_at))]
fn base_type_at<'a>(alloc: Global, tokens: &'a [Token]) -> Result<(Base, &'a [Token]), Stop>
    ensures { Gives (λ x. (x.0, x.1.now)) result (base_type_at tokens.now) }
{
    let Some((token, after)) = tokens.split_first() else {
        return Err(Stop::NoReading(tokens.len()));
    };
    match &token.kind {
        Kind::Key(Key::Int) => Ok((Base::Int, after)),
        Kind::Key(Key::Bit) => Ok((Base::Bit, after)),
        Kind::Word(x) => {
            let name = copy(alloc, x)?;
            Ok((Base::Named(name), after))
        }
        _ => Err(Stop::NoReading(tokens.len())),
    }
}

// One length more.
#[tactic(auto, unfolding(sk_parser_laws::specs::StmtReader::length_at))]
fn length_at<'a>(
    alloc: Global,
    budget: u32,
    lengths: List<Expr>,
    tokens: &'a [Token],
) -> Result<(List<Expr>, &'a [Token]), Stop>
    ensures { Gives (λ x. (x.0, x.1.now)) result (length_at budget lengths tokens.now) }
{
    let mut lengths = lengths;
    let Some(after) = mark_at(tokens, Mark::OpenBracket) else {
        return Err(Stop::NoReading(tokens.len()));
    };
    let (length, behind) = value_at(alloc, budget, after)?;
    let Some(rest) = mark_at(behind, Mark::CloseBracket) else {
        return Err(Stop::NoReading(behind.len()));
    };
    lengths.push(length.into_inner())?;
    Ok((lengths, rest))
}

// One length more, where it stands.
#[tactic(auto, unfolding(sk_parser_laws::specs::StmtReader::next_length))]
fn next_length<'a>(
    alloc: Global,
    budget: u32,
    lengths: List<Expr>,
    tokens: &'a [Token],
) -> Result<(List<Expr>, &'a [Token]), Stop>
    ensures { Gives (λ x. (x.0, x.1.now)) result (next_length budget lengths tokens.now) }
{
    if begins(tokens, Mark::OpenBracket) {
        length_at(alloc, budget, lengths, tokens)
    } else {
        Ok((lengths, tokens))
    }
}

// At most two lengths.
#[tactic(auto, unfolding(sk_parser_laws::specs::StmtReader::lengths_at))]
fn lengths_at<'a>(
    alloc: Global,
    budget: u32,
    tokens: &'a [Token],
) -> Result<(List<Expr>, &'a [Token]), Stop>
    ensures { Gives (λ x. (x.0, x.1.now)) result (lengths_at budget tokens.now) }
{
    let (lengths, rest) = next_length(alloc, budget, List::new(alloc), tokens)?;
    let read = next_length(alloc, budget, lengths, rest)?;
    Ok(read)
}

/// The type at the front.
#[tactic(auto, unfolding(sk_parser_laws::specs::StmtReader::ty_at))]
pub fn ty_at<'a>(
    alloc: Global,
    budget: u32,
    tokens: &'a [Token],
) -> Result<(TyTree, &'a [Token]), Stop>
    ensures { Gives (λ x. (x.0, x.1.now)) result (ty_at budget tokens.now) }
{
    let Some(inner) = inside(budget) else {
        return Err(Stop::NoReading(tokens.len()));
    };
    let (base, rest) = base_type_at(alloc, tokens)?;
    let (lengths, rest) = lengths_at(alloc, inner, rest)?;
    Ok((TyTree { base, lengths }, rest))
}

// `= value`, where it stands.
#[tactic(auto, unfolding(sk_parser_laws::specs::StmtReader::init_at))]
fn init_at<'a>(
    alloc: Global,
    budget: u32,
    tokens: &'a [Token],
) -> Result<(Option<Expr>, &'a [Token]), Stop>
    ensures { Gives (λ x. (x.0, x.1.now)) result (init_at budget tokens.now) }
{
    if !begins(tokens, Mark::Assign) {
        return Ok((None, tokens));
    }
    let Some(after) = mark_at(tokens, Mark::Assign) else {
        return Err(Stop::NoReading(tokens.len()));
    };
    let (value, rest) = value_at(alloc, budget, after)?;
    Ok((Some(value.into_inner()), rest))
}

// A declared name, with its value where it has one.
#[tactic(auto, unfolding(sk_parser_laws::specs::StmtReader::declared_at))]
fn declared_at<'a>(
    alloc: Global,
    budget: u32,
    tokens: &'a [Token],
) -> Result<(Declared, &'a [Token]), Stop>
    ensures { Gives (λ x. (x.0, x.1.now)) result (declared_at budget tokens.now) }
{
    let Some(inner) = inside(budget) else {
        return Err(Stop::NoReading(tokens.len()));
    };
    let Some((name, after)) = word_at(tokens) else {
        return Err(Stop::NoReading(tokens.len()));
    };
    let name = copy(alloc, name)?;
    let (value, rest) = init_at(alloc, inner, after)?;
    Ok((Declared { name, value }, rest))
}

// A name behind a comma.
#[tactic(auto, unfolding(sk_parser_laws::specs::StmtReader::next_declared))]
fn next_declared<'a>(
    alloc: Global,
    budget: u32,
    names: List<Declared>,
    tokens: &'a [Token],
) -> Result<(List<Declared>, &'a [Token]), Stop>
    ensures { Gives (λ x. (x.0, x.1.now)) result (next_declared budget names tokens.now) }
{
    let mut names = names;
    let Some(after) = mark_at(tokens, Mark::Comma) else {
        return Err(Stop::NoReading(tokens.len()));
    };
    let (declared, rest) = declared_at(alloc, budget, after)?;
    names.push(declared)?;
    Ok((names, rest))
}

fn more_names<'a>(
    alloc: Global,
    budget: u32,
    names: List<Declared>,
    tokens: &'a [Token],
) -> Result<(List<Declared>, &'a [Token]), Stop>
    ensures { Gives (λ x. (x.0, x.1.now)) result (repeated ends_row (next_declared budget) names tokens.now) }
{
    let mut so_far = names;
    let mut rest = tokens;
    while !ends_row(rest) {
        let (more, behind) = next_declared(alloc, budget, so_far, rest)?;
        so_far = more;
        rest = behind;
    }
    Ok((so_far, rest))
}

fn one_name(alloc: Global, declared: Declared) -> Result<List<Declared>, AllocError>
    ensures { IfOk result (λ names. names ≡ declared ∷ []) }
{
    let mut names = List::new(alloc);
    names.push(declared)?;
    Ok(names)
}

// The names of a declaration, with commas between them.
#[tactic(auto, unfolding(sk_parser_laws::specs::StmtReader::names_at))]
pub fn names_at<'a>(
    alloc: Global,
    budget: u32,
    tokens: &'a [Token],
) -> Result<(List<Declared>, &'a [Token]), Stop>
    ensures { Gives (λ x. (x.0, x.1.now)) result (names_at budget tokens.now) }
{
    let (first, rest) = declared_at(alloc, budget, tokens)?;
    let names = one_name(alloc, first)?;
    let read = more_names(alloc, budget, names, rest)?;
    Ok(read)
}
