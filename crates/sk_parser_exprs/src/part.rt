//! The parts of an expression that hold no expression still to be read: each is made of what was read, or
//! of tokens alone.
ghost use Rattle.std.specs.Prelude.{◌≡◌, max, IfOk};
ghost use Rattle.sk_tree.specs.declared.expr.EForm.TheVariants as eform;
ghost use Rattle.sk_parser_laws.specs.Readers.{Gives};
ghost use Rattle.sk_parser_laws.specs.ExprReader.{made, one_expr, push_expr, ends_row, no_fields, push_field, wide_hole_at, hole_at, ends_base, member_at, element_at};

use crate::token::{begins, copy, deeper, mark_at, number_at, span_between, word_at};
use sk_base::{Boxed, List, Name};
use sk_parser_laws::{Deep, Fields, Row, Stop};
use sk_tree::{EForm, Expr, Mark, NewField, Token};
use std::alloc::{AllocError, Global};

pub fn larger(a: u32, b: u32) -> u32
    ensures { result ≡ max a b }
{
    if a < b { b } else { a }
}

// An expression of this form, from the start up to the rest.
#[tactic(auto, unfolding(sk_parser_laws::specs::ExprReader::made))]
pub fn make<'a>(
    alloc: Global,
    budget: u32,
    start: &[Token],
    form: EForm,
    depth: u32,
    rest: &'a [Token],
) -> Result<(Deep, &'a [Token]), Stop>
    ensures { Gives (λ x. (x.0, x.1.now)) result (made budget start.now form depth rest.now) }
{
    let span = span_between(start, rest);
    let expr = Boxed::new(alloc, Expr { span, form })?;
    match deeper(budget, depth) {
        Some(depth) => Ok((Deep { expr, depth }, rest)),
        None => Err(Stop::NoReading(rest.len())),
    }
}

pub fn make_word<'a>(
    alloc: Global,
    budget: u32,
    start: &[Token],
    name: &Name,
    rest: &'a [Token],
) -> Result<(Deep, &'a [Token]), Stop>
    ensures { Gives (λ x. (x.0, x.1.now)) result (made budget start.now (eform.Word name.now) 0 rest.now) }
{
    let name = copy(alloc, name)?;
    let read = make(alloc, budget, start, EForm::Word(name), 0, rest)?;
    Ok(read)
}

// `(n)` behind `??`.
#[tactic(auto, unfolding(sk_parser_laws::specs::ExprReader::wide_hole_at))]
fn wide_hole_at<'a>(
    alloc: Global,
    budget: u32,
    start: &[Token],
    tokens: &'a [Token],
) -> Result<(Deep, &'a [Token]), Stop>
    ensures { Gives (λ x. (x.0, x.1.now)) result (wide_hole_at budget start.now tokens.now) }
{
    let Some(after) = mark_at(tokens, Mark::OpenParen) else {
        return Err(Stop::NoReading(tokens.len()));
    };
    let Some((width, after)) = number_at(after) else {
        return Err(Stop::NoReading(after.len()));
    };
    let Some(rest) = mark_at(after, Mark::CloseParen) else {
        return Err(Stop::NoReading(after.len()));
    };
    let read = make(alloc, budget, start, EForm::Hole(Some(width)), 0, rest)?;
    Ok(read)
}

// A hole, behind its `??`.
#[tactic(auto, unfolding(sk_parser_laws::specs::ExprReader::hole_at))]
pub fn hole_at<'a>(
    alloc: Global,
    budget: u32,
    start: &[Token],
    tokens: &'a [Token],
) -> Result<(Deep, &'a [Token]), Stop>
    ensures { Gives (λ x. (x.0, x.1.now)) result (hole_at budget start.now tokens.now) }
{
    if begins(tokens, Mark::OpenParen) {
        wide_hole_at(alloc, budget, start, tokens)
    } else {
        make(alloc, budget, start, EForm::Hole(None), 0, tokens)
    }
}

// `.x` behind a base.
#[tactic(auto, unfolding(sk_parser_laws::specs::ExprReader::member_at))]
pub fn member_at<'a>(
    alloc: Global,
    budget: u32,
    start: &[Token],
    base: Deep,
    tokens: &'a [Token],
) -> Result<(Deep, &'a [Token]), Stop>
    ensures { Gives (λ x. (x.0, x.1.now)) result (member_at budget start.now base tokens.now) }
{
    let Some(after) = mark_at(tokens, Mark::Dot) else {
        return Err(Stop::NoReading(tokens.len()));
    };
    let Some((name, rest)) = word_at(after) else {
        return Err(Stop::NoReading(after.len()));
    };
    let name = copy(alloc, name)?;
    let Deep { expr: base, depth } = base;
    let read = make(
        alloc,
        budget,
        start,
        EForm::Member { base, name },
        depth,
        rest,
    )?;
    Ok(read)
}

// `]` behind an index.
#[tactic(auto, unfolding(sk_parser_laws::specs::ExprReader::element_at))]
pub fn element_at<'a>(
    alloc: Global,
    budget: u32,
    start: &[Token],
    base: Deep,
    index: Deep,
    tokens: &'a [Token],
) -> Result<(Deep, &'a [Token]), Stop>
    ensures { Gives (λ x. (x.0, x.1.now)) result (element_at budget start.now base index tokens.now) }
{
    let Some(rest) = mark_at(tokens, Mark::CloseBracket) else {
        return Err(Stop::NoReading(tokens.len()));
    };
    let depth = larger(base.depth, index.depth);
    let form = EForm::Index {
        base: base.expr,
        index: index.expr,
    };
    let read = make(alloc, budget, start, form, depth, rest)?;
    Ok(read)
}

pub fn one_expr(alloc: Global, expr: Deep) -> Result<Row, AllocError>
    ensures { IfOk result (λ row. row ≡ one_expr expr) }
{
    let Deep { expr, depth } = expr;
    let mut items = List::new(alloc);
    items.push(expr.into_inner())?;
    Ok(Row { items, depth })
}

#[tactic(auto, unfolding(sk_parser_laws::specs::ExprReader::push_expr))]
pub fn push_expr(row: Row, expr: Deep) -> Result<Row, AllocError>
    ensures { IfOk result (λ more. more ≡ push_expr row expr) }
{
    let Row {
        mut items,
        depth: deepest,
    } = row;
    let Deep { expr, depth } = expr;
    items.push(expr.into_inner())?;
    let depth = larger(deepest, depth);
    Ok(Row { items, depth })
}

pub fn no_fields(alloc: Global) -> Fields
    ensures { result ≡ no_fields }
{
    Fields {
        items: List::new(alloc),
        depth: 0,
    }
}

#[tactic(auto, unfolding(sk_parser_laws::specs::ExprReader::push_field))]
pub fn push_field(
    alloc: Global,
    fields: Fields,
    name: &Name,
    value: Deep,
    depth: u32,
) -> Result<Fields, AllocError>
    ensures { IfOk result (λ more. more ≡ push_field fields name.now value depth) }
{
    let name = copy(alloc, name)?;
    let Fields {
        mut items,
        depth: deepest,
    } = fields;
    items.push(NewField {
        name,
        value: value.expr.into_inner(),
    })?;
    let depth = larger(deepest, depth);
    Ok(Fields { items, depth })
}

// Whether no comma follows.
#[tactic(auto, unfolding(sk_parser_laws::specs::ExprReader::ends_row))]
pub fn ends_row(tokens: &[Token]) -> bool
    ensures { result ≡ ends_row tokens.now }
{
    !begins(tokens, Mark::Comma)
}

// Whether neither `.` nor `[` follows.
#[tactic(auto, unfolding(sk_parser_laws::specs::ExprReader::ends_base))]
pub fn ends_base(tokens: &[Token]) -> bool
    ensures { result ≡ ends_base tokens.now }
{
    !(begins(tokens, Mark::Dot) || begins(tokens, Mark::OpenBracket))
}
