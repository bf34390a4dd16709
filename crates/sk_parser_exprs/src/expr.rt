//! Expressions read from tokens: `expr_at` of specs is the function on lists that this code computes.
ghost use Rattle.std.specs.Prelude.{◌≡◌, ◌-◌, ◌<◌, [], IfOk};
ghost use Rattle.sk_parser_laws.specs.Readers.{Gives, repeated};
ghost use Rattle.sk_parser_laws.specs.ExprReader.{ends_row, next_expr, exprs_at, args_at, no_fields, field_at, next_field, some_fields_at, fields_at, paren_at, call_at, named_at, new_at, braces_at, offer_at, primary_at, ends_base, slice_at, bracket_at, behind_base, ends_chain, behind_operand, choice_at, behind_cond, base_at, signed_at, operand_at, expr_at};
ghost use Rattle.sk_parser_laws.specs.StringReader.{offers, trees_of, or_nothing, strings_at, string_at};

use crate::operator::{ends_chain, level_of, operator_at, sign_at};
use crate::part::{
    element_at, ends_base, ends_row, hole_at, larger, make, make_word, member_at, no_fields,
    one_expr, push_expr, push_field,
};
use crate::pattern::pattern_at;
use crate::token::{begins, copy, deeper, mark_at, word_at};
use sk_base::{Boxed, List, Name};
use sk_parser_laws::{Deep, Fields, Row, Stop};
use sk_tree::{EForm, Expr, Key, Kind, Mark, Pattern, Token};
use sk_tree_spell::{PatternFault, strings};
use std::alloc::{AllocError, Global};

/// The level of any expression: level 13 is that of `c ? a : b`, the least tight.
pub const ANY_LEVEL: u32 = 13;

/// The greatest depth of a tree that is read, and of a string of a pattern.
const MOST_LEVELS: u32 = 256;

/// The expression of at most this level at the front, at most so deep, with the tokens after it.
#[cycle(exprs)]
#[tactic(auto, unfolding(sk_parser_laws::specs::ExprReader::level_at), using(sk_parser_laws::proofs::Budgets::expr_none, sk_parser_laws::proofs::Budgets::expr_more))]
pub fn expr_at<'a>(
    alloc: Global,
    in_text: bool,
    budget: u32,
    level: u32,
    tokens: &'a [Token],
) -> Result<(Deep, &'a [Token]), Stop>
    ensures { Gives (λ x. (x.0, x.1.now)) result (expr_at (offers in_text) budget level tokens.now) }
{
    if budget == 0 {
        return Err(Stop::NoReading(tokens.len()));
    }
    let (first, rest) = operand_at(alloc, in_text, budget, level, tokens)?;
    let (left, rest) = chain_at(alloc, in_text, budget, level, tokens, first, rest)?;
    let read = behind_cond(alloc, in_text, budget, level, tokens, left, rest)?;
    Ok(read)
}

// An expression of level 1, or of level 2 where that may stand.
#[cycle(exprs)]
#[tactic(auto, unfolding(sk_parser_laws::specs::ExprReader::operand_at))]
fn operand_at<'a>(
    alloc: Global,
    in_text: bool,
    budget: u32,
    level: u32,
    tokens: &'a [Token],
) -> Result<(Deep, &'a [Token]), Stop>
    requires { 0 < budget }
    ensures { Gives (λ x. (x.0, x.1.now)) result (operand_at (offers in_text) (expr_at (offers in_text) (budget - 1)) budget level tokens.now) }
{
    if level < 2 {
        return base_at(alloc, in_text, budget, tokens);
    }
    match sign_at(tokens) {
        Some((op, after)) => signed_at(alloc, in_text, budget, tokens, op, after),
        None => base_at(alloc, in_text, budget, tokens),
    }
}

// An operand of level 2 behind a unary operator.
#[cycle(exprs)]
#[tactic(auto, unfolding(sk_parser_laws::specs::ExprReader::signed_at))]
fn signed_at<'a>(
    alloc: Global,
    in_text: bool,
    budget: u32,
    start: &[Token],
    op: Mark,
    tokens: &'a [Token],
) -> Result<(Deep, &'a [Token]), Stop>
    requires { 0 < budget }
    ensures { Gives (λ x. (x.0, x.1.now)) result (signed_at (expr_at (offers in_text) (budget - 1)) budget start.now op tokens.now) }
{
    let (of, rest) = expr_at(alloc, in_text, budget - 1, 2, tokens)?;
    let Deep { expr: of, depth } = of;
    let read = make(alloc, budget, start, EForm::Unary { op, of }, depth, rest)?;
    Ok(read)
}

// What stands by itself, and what stands behind it.
#[cycle(exprs)]
#[tactic(auto, unfolding(sk_parser_laws::specs::ExprReader::base_at))]
fn base_at<'a>(
    alloc: Global,
    in_text: bool,
    budget: u32,
    tokens: &'a [Token],
) -> Result<(Deep, &'a [Token]), Stop>
    requires { 0 < budget }
    ensures { Gives (λ x. (x.0, x.1.now)) result (base_at (offers in_text) (expr_at (offers in_text) (budget - 1)) budget tokens.now) }
{
    let (base, rest) = primary_at(alloc, in_text, budget, tokens)?;
    let read = behind_bases(alloc, in_text, budget, tokens, base, rest)?;
    Ok(read)
}

#[cycle(exprs)]
fn behind_bases<'a>(
    alloc: Global,
    in_text: bool,
    budget: u32,
    start: &[Token],
    base: Deep,
    tokens: &'a [Token],
) -> Result<(Deep, &'a [Token]), Stop>
    requires { 0 < budget }
    ensures { Gives (λ x. (x.0, x.1.now)) result (repeated ends_base (behind_base (expr_at (offers in_text) (budget - 1)) budget start.now) base tokens.now) }
{
    let mut so_far = base;
    let mut rest = tokens;
    while !ends_base(rest) {
        let (more, behind) = behind_base(alloc, in_text, budget, start, so_far, rest)?;
        so_far = more;
        rest = behind;
    }
    Ok((so_far, rest))
}

// `.x`, `[i]` or `[i::n]` behind a base.
#[cycle(exprs)]
#[tactic(auto, unfolding(sk_parser_laws::specs::ExprReader::behind_base))]
fn behind_base<'a>(
    alloc: Global,
    in_text: bool,
    budget: u32,
    start: &[Token],
    base: Deep,
    tokens: &'a [Token],
) -> Result<(Deep, &'a [Token]), Stop>
    requires { 0 < budget }
    ensures { Gives (λ x. (x.0, x.1.now)) result (behind_base (expr_at (offers in_text) (budget - 1)) budget start.now base tokens.now) }
{
    if begins(tokens, Mark::Dot) {
        member_at(alloc, budget, start, base, tokens)
    } else {
        bracket_at(alloc, in_text, budget, start, base, tokens)
    }
}

// `[i]` or `[i::n]` behind a base.
#[cycle(exprs)]
#[tactic(auto, unfolding(sk_parser_laws::specs::ExprReader::bracket_at))]
fn bracket_at<'a>(
    alloc: Global,
    in_text: bool,
    budget: u32,
    start: &[Token],
    base: Deep,
    tokens: &'a [Token],
) -> Result<(Deep, &'a [Token]), Stop>
    requires { 0 < budget }
    ensures { Gives (λ x. (x.0, x.1.now)) result (bracket_at (expr_at (offers in_text) (budget - 1)) budget start.now base tokens.now) }
{
    let Some(after) = mark_at(tokens, Mark::OpenBracket) else {
        return Err(Stop::NoReading(tokens.len()));
    };
    let (index, behind) = expr_at(alloc, in_text, budget - 1, ANY_LEVEL, after)?;
    if begins(behind, Mark::DoubleColon) {
        slice_at(alloc, in_text, budget, start, base, index, behind)
    } else {
        element_at(alloc, budget, start, base, index, behind)
    }
}

// `::n]` behind where a slice begins.
#[cycle(exprs)]
#[tactic(auto, unfolding(sk_parser_laws::specs::ExprReader::slice_at))]
fn slice_at<'a>(
    alloc: Global,
    in_text: bool,
    budget: u32,
    start: &[Token],
    base: Deep,
    from: Deep,
    tokens: &'a [Token],
) -> Result<(Deep, &'a [Token]), Stop>
    requires { 0 < budget }
    ensures { Gives (λ x. (x.0, x.1.now)) result (slice_at (expr_at (offers in_text) (budget - 1)) budget start.now base from tokens.now) }
{
    let Some(after) = mark_at(tokens, Mark::DoubleColon) else {
        return Err(Stop::NoReading(tokens.len()));
    };
    let (length, behind) = expr_at(alloc, in_text, budget - 1, ANY_LEVEL, after)?;
    let Some(rest) = mark_at(behind, Mark::CloseBracket) else {
        return Err(Stop::NoReading(behind.len()));
    };
    let depth = larger(base.depth, larger(from.depth, length.depth));
    let form = EForm::Slice {
        base: base.expr,
        from: from.expr,
        length: length.expr,
    };
    let read = make(alloc, budget, start, form, depth, rest)?;
    Ok(read)
}

// Operators of at most this level with their right operands.
#[cycle(exprs)]
fn chain_at<'a>(
    alloc: Global,
    in_text: bool,
    budget: u32,
    level: u32,
    start: &[Token],
    left: Deep,
    tokens: &'a [Token],
) -> Result<(Deep, &'a [Token]), Stop>
    requires { 0 < budget }
    ensures { Gives (λ x. (x.0, x.1.now)) result (repeated (ends_chain level) (behind_operand (expr_at (offers in_text) (budget - 1)) budget start.now) left tokens.now) }
{
    let mut so_far = left;
    let mut rest = tokens;
    while !ends_chain(level, rest) {
        let (more, behind) = behind_operand(alloc, in_text, budget, start, so_far, rest)?;
        so_far = more;
        rest = behind;
    }
    Ok((so_far, rest))
}

// An operator and its right operand, which binds more tightly.
#[cycle(exprs)]
#[tactic(auto, unfolding(sk_parser_laws::specs::ExprReader::behind_operand))]
fn behind_operand<'a>(
    alloc: Global,
    in_text: bool,
    budget: u32,
    start: &[Token],
    left: Deep,
    tokens: &'a [Token],
) -> Result<(Deep, &'a [Token]), Stop>
    requires { 0 < budget }
    ensures { Gives (λ x. (x.0, x.1.now)) result (behind_operand (expr_at (offers in_text) (budget - 1)) budget start.now left tokens.now) }
{
    let Some((op, after)) = operator_at(tokens) else {
        return Err(Stop::NoReading(tokens.len()));
    };
    let (right, rest) = expr_at(
        alloc,
        in_text,
        budget - 1,
        level_of(op).saturating_sub(1),
        after,
    )?;
    let depth = larger(left.depth, right.depth);
    let form = EForm::Binary {
        op,
        left: left.expr,
        right: right.expr,
    };
    let read = make(alloc, budget, start, form, depth, rest)?;
    Ok(read)
}

// What a condition chooses, where a `?` follows.
#[cycle(exprs)]
#[tactic(auto, unfolding(sk_parser_laws::specs::ExprReader::behind_cond))]
fn behind_cond<'a>(
    alloc: Global,
    in_text: bool,
    budget: u32,
    level: u32,
    start: &[Token],
    cond: Deep,
    tokens: &'a [Token],
) -> Result<(Deep, &'a [Token]), Stop>
    requires { 0 < budget }
    ensures { Gives (λ x. (x.0, x.1.now)) result (behind_cond (expr_at (offers in_text) (budget - 1)) budget level start.now cond tokens.now) }
{
    if ANY_LEVEL <= level && begins(tokens, Mark::Question) {
        choice_at(alloc, in_text, budget, start, cond, tokens)
    } else {
        Ok((cond, tokens))
    }
}

// `? then : other` behind a condition.
#[cycle(exprs)]
#[tactic(auto, unfolding(sk_parser_laws::specs::ExprReader::choice_at))]
fn choice_at<'a>(
    alloc: Global,
    in_text: bool,
    budget: u32,
    start: &[Token],
    cond: Deep,
    tokens: &'a [Token],
) -> Result<(Deep, &'a [Token]), Stop>
    requires { 0 < budget }
    ensures { Gives (λ x. (x.0, x.1.now)) result (choice_at (expr_at (offers in_text) (budget - 1)) budget start.now cond tokens.now) }
{
    let Some(after) = mark_at(tokens, Mark::Question) else {
        return Err(Stop::NoReading(tokens.len()));
    };
    let (then, behind) = expr_at(alloc, in_text, budget - 1, ANY_LEVEL, after)?;
    let Some(after) = mark_at(behind, Mark::Colon) else {
        return Err(Stop::NoReading(behind.len()));
    };
    let (other, rest) = expr_at(alloc, in_text, budget - 1, ANY_LEVEL, after)?;
    let depth = larger(cond.depth, larger(then.depth, other.depth));
    let form = EForm::Cond {
        cond: cond.expr,
        then: then.expr,
        other: other.expr,
    };
    let read = make(alloc, budget, start, form, depth, rest)?;
    Ok(read)
}

// What stands by itself.
#[cycle(exprs)]
#[tactic(auto, unfolding(sk_parser_laws::specs::ExprReader::primary_at))]
fn primary_at<'a>(
    alloc: Global,
    in_text: bool,
    budget: u32,
    tokens: &'a [Token],
) -> Result<(Deep, &'a [Token]), Stop>
    requires { 0 < budget }
    ensures { Gives (λ x. (x.0, x.1.now)) result (primary_at (offers in_text) (expr_at (offers in_text) (budget - 1)) budget tokens.now) }
{
    let Some((token, after)) = tokens.split_first() else {
        return Err(Stop::NoReading(tokens.len()));
    };
    match &token.kind {
        Kind::Number(n) => make(alloc, budget, tokens, EForm::Number(*n), 0, after),
        Kind::Word(x) => named_at(alloc, in_text, budget, tokens, x, after),
        Kind::Key(Key::True) => make(alloc, budget, tokens, EForm::True, 0, after),
        Kind::Key(Key::False) => make(alloc, budget, tokens, EForm::False, 0, after),
        Kind::Key(Key::Null) => make(alloc, budget, tokens, EForm::Null, 0, after),
        Kind::Key(Key::New) => new_at(alloc, in_text, budget, tokens, after),
        Kind::Mark(Mark::Hole) => hole_at(alloc, budget, tokens, after),
        Kind::Mark(Mark::OpenParen) => paren_at(alloc, in_text, budget, tokens, after),
        Kind::Mark(Mark::OpenBrace) => braces_at(alloc, in_text, budget, tokens, after),
        Kind::Mark(Mark::OpenPattern) => offer_at(alloc, in_text, budget, tokens, after),
        _ => Err(Stop::NoReading(tokens.len())),
    }
}

// An expression in parentheses, behind the opening one.
#[cycle(exprs)]
#[tactic(auto, unfolding(sk_parser_laws::specs::ExprReader::paren_at))]
fn paren_at<'a>(
    alloc: Global,
    in_text: bool,
    budget: u32,
    start: &[Token],
    tokens: &'a [Token],
) -> Result<(Deep, &'a [Token]), Stop>
    requires { 0 < budget }
    ensures { Gives (λ x. (x.0, x.1.now)) result (paren_at (expr_at (offers in_text) (budget - 1)) budget start.now tokens.now) }
{
    let (inner, behind) = expr_at(alloc, in_text, budget - 1, ANY_LEVEL, tokens)?;
    let Some(rest) = mark_at(behind, Mark::CloseParen) else {
        return Err(Stop::NoReading(behind.len()));
    };
    let Deep { expr, depth } = inner;
    let read = make(alloc, budget, start, EForm::Paren(expr), depth, rest)?;
    Ok(read)
}

// A word, or a call where a parenthesis follows.
#[cycle(exprs)]
#[tactic(auto, unfolding(sk_parser_laws::specs::ExprReader::named_at))]
fn named_at<'a>(
    alloc: Global,
    in_text: bool,
    budget: u32,
    start: &[Token],
    name: &Name,
    tokens: &'a [Token],
) -> Result<(Deep, &'a [Token]), Stop>
    requires { 0 < budget }
    ensures { Gives (λ x. (x.0, x.1.now)) result (named_at (expr_at (offers in_text) (budget - 1)) budget start.now name.now tokens.now) }
{
    if begins(tokens, Mark::OpenParen) {
        call_at(alloc, in_text, budget, start, name, tokens)
    } else {
        make_word(alloc, budget, start, name, tokens)
    }
}

// The arguments of a call, in parentheses.
#[cycle(exprs)]
#[tactic(auto, unfolding(sk_parser_laws::specs::ExprReader::call_at))]
fn call_at<'a>(
    alloc: Global,
    in_text: bool,
    budget: u32,
    start: &[Token],
    name: &Name,
    tokens: &'a [Token],
) -> Result<(Deep, &'a [Token]), Stop>
    requires { 0 < budget }
    ensures { Gives (λ x. (x.0, x.1.now)) result (call_at (expr_at (offers in_text) (budget - 1)) budget start.now name.now tokens.now) }
{
    let Some(after) = mark_at(tokens, Mark::OpenParen) else {
        return Err(Stop::NoReading(tokens.len()));
    };
    let (args, behind) = args_at(alloc, in_text, budget - 1, after)?;
    let Some(rest) = mark_at(behind, Mark::CloseParen) else {
        return Err(Stop::NoReading(behind.len()));
    };
    let name = copy(alloc, name)?;
    let Row { items: args, depth } = args;
    let read = make(
        alloc,
        budget,
        start,
        EForm::Call { name, args },
        depth,
        rest,
    )?;
    Ok(read)
}

// Any number of expressions, up to a closing parenthesis.
#[cycle(exprs)]
#[tactic(auto, unfolding(sk_parser_laws::specs::ExprReader::args_at))]
fn args_at<'a>(
    alloc: Global,
    in_text: bool,
    inner: u32,
    tokens: &'a [Token],
) -> Result<(Row, &'a [Token]), Stop>
    ensures { Gives (λ x. (x.0, x.1.now)) result (args_at (expr_at (offers in_text) inner) tokens.now) }
{
    if begins(tokens, Mark::CloseParen) {
        let items = List::new(alloc);
        Ok((Row { items, depth: 0 }, tokens))
    } else {
        exprs_at(alloc, in_text, inner, tokens)
    }
}

// Expressions with commas between them.
#[cycle(exprs)]
#[tactic(auto, unfolding(sk_parser_laws::specs::ExprReader::exprs_at))]
fn exprs_at<'a>(
    alloc: Global,
    in_text: bool,
    inner: u32,
    tokens: &'a [Token],
) -> Result<(Row, &'a [Token]), Stop>
    ensures { Gives (λ x. (x.0, x.1.now)) result (exprs_at (expr_at (offers in_text) inner) tokens.now) }
{
    let (first, rest) = expr_at(alloc, in_text, inner, ANY_LEVEL, tokens)?;
    let row = one_expr(alloc, first)?;
    let read = more_exprs(alloc, in_text, inner, row, rest)?;
    Ok(read)
}

#[cycle(exprs)]
fn more_exprs<'a>(
    alloc: Global,
    in_text: bool,
    inner: u32,
    row: Row,
    tokens: &'a [Token],
) -> Result<(Row, &'a [Token]), Stop>
    ensures { Gives (λ x. (x.0, x.1.now)) result (repeated ends_row (next_expr (expr_at (offers in_text) inner)) row tokens.now) }
{
    let mut so_far = row;
    let mut rest = tokens;
    while !ends_row(rest) {
        let (more, behind) = next_expr(alloc, in_text, inner, so_far, rest)?;
        so_far = more;
        rest = behind;
    }
    Ok((so_far, rest))
}

// An expression behind a comma.
#[cycle(exprs)]
#[tactic(auto, unfolding(sk_parser_laws::specs::ExprReader::next_expr))]
fn next_expr<'a>(
    alloc: Global,
    in_text: bool,
    inner: u32,
    row: Row,
    tokens: &'a [Token],
) -> Result<(Row, &'a [Token]), Stop>
    ensures { Gives (λ x. (x.0, x.1.now)) result (next_expr (expr_at (offers in_text) inner) row tokens.now) }
{
    let Some(after) = mark_at(tokens, Mark::Comma) else {
        return Err(Stop::NoReading(tokens.len()));
    };
    let (expr, rest) = expr_at(alloc, in_text, inner, ANY_LEVEL, after)?;
    let row = push_expr(row, expr)?;
    Ok((row, rest))
}

// Expressions in braces, behind the opening one.
#[cycle(exprs)]
#[tactic(auto, unfolding(sk_parser_laws::specs::ExprReader::braces_at))]
fn braces_at<'a>(
    alloc: Global,
    in_text: bool,
    budget: u32,
    start: &[Token],
    tokens: &'a [Token],
) -> Result<(Deep, &'a [Token]), Stop>
    requires { 0 < budget }
    ensures { Gives (λ x. (x.0, x.1.now)) result (braces_at (expr_at (offers in_text) (budget - 1)) budget start.now tokens.now) }
{
    let (row, behind) = exprs_at(alloc, in_text, budget - 1, tokens)?;
    let Some(rest) = mark_at(behind, Mark::CloseBrace) else {
        return Err(Stop::NoReading(behind.len()));
    };
    let Row { items, depth } = row;
    let read = make(alloc, budget, start, EForm::Braces(items), depth, rest)?;
    Ok(read)
}

// `new` with its fields, behind its keyword.
#[cycle(exprs)]
#[tactic(auto, unfolding(sk_parser_laws::specs::ExprReader::new_at))]
fn new_at<'a>(
    alloc: Global,
    in_text: bool,
    budget: u32,
    start: &[Token],
    tokens: &'a [Token],
) -> Result<(Deep, &'a [Token]), Stop>
    requires { 0 < budget }
    ensures { Gives (λ x. (x.0, x.1.now)) result (new_at (expr_at (offers in_text) (budget - 1)) budget start.now tokens.now) }
{
    let Some((name, after)) = word_at(tokens) else {
        return Err(Stop::NoReading(tokens.len()));
    };
    let Some(after) = mark_at(after, Mark::OpenParen) else {
        return Err(Stop::NoReading(after.len()));
    };
    let (fields, behind) = fields_at(alloc, in_text, budget, after)?;
    let Some(rest) = mark_at(behind, Mark::CloseParen) else {
        return Err(Stop::NoReading(behind.len()));
    };
    let name = copy(alloc, name)?;
    let Fields {
        items: fields,
        depth,
    } = fields;
    let read = make(
        alloc,
        budget,
        start,
        EForm::New { name, fields },
        depth,
        rest,
    )?;
    Ok(read)
}

// Any number of fields, up to a closing parenthesis.
#[cycle(exprs)]
#[tactic(auto, unfolding(sk_parser_laws::specs::ExprReader::fields_at))]
fn fields_at<'a>(
    alloc: Global,
    in_text: bool,
    budget: u32,
    tokens: &'a [Token],
) -> Result<(Fields, &'a [Token]), Stop>
    requires { 0 < budget }
    ensures { Gives (λ x. (x.0, x.1.now)) result (fields_at (expr_at (offers in_text) (budget - 1)) budget tokens.now) }
{
    let none = no_fields(alloc);
    if begins(tokens, Mark::CloseParen) {
        Ok((none, tokens))
    } else {
        some_fields_at(alloc, in_text, budget, none, tokens)
    }
}

// Fields with commas between them.
#[cycle(exprs)]
#[tactic(auto, unfolding(sk_parser_laws::specs::ExprReader::some_fields_at))]
fn some_fields_at<'a>(
    alloc: Global,
    in_text: bool,
    budget: u32,
    none: Fields,
    tokens: &'a [Token],
) -> Result<(Fields, &'a [Token]), Stop>
    requires some { 0 < budget }
    requires none { none ≡ no_fields }
    ensures { Gives (λ x. (x.0, x.1.now)) result (some_fields_at (expr_at (offers in_text) (budget - 1)) budget tokens.now) }
{
    let (fields, rest) = field_at(alloc, in_text, budget, none, tokens)?;
    let read = more_fields(alloc, in_text, budget, fields, rest)?;
    Ok(read)
}

#[cycle(exprs)]
fn more_fields<'a>(
    alloc: Global,
    in_text: bool,
    budget: u32,
    fields: Fields,
    tokens: &'a [Token],
) -> Result<(Fields, &'a [Token]), Stop>
    requires { 0 < budget }
    ensures { Gives (λ x. (x.0, x.1.now)) result (repeated ends_row (next_field (expr_at (offers in_text) (budget - 1)) budget) fields tokens.now) }
{
    let mut so_far = fields;
    let mut rest = tokens;
    while !ends_row(rest) {
        let (more, behind) = next_field(alloc, in_text, budget, so_far, rest)?;
        so_far = more;
        rest = behind;
    }
    Ok((so_far, rest))
}

// A field behind a comma.
#[cycle(exprs)]
#[tactic(auto, unfolding(sk_parser_laws::specs::ExprReader::next_field))]
fn next_field<'a>(
    alloc: Global,
    in_text: bool,
    budget: u32,
    fields: Fields,
    tokens: &'a [Token],
) -> Result<(Fields, &'a [Token]), Stop>
    requires { 0 < budget }
    ensures { Gives (λ x. (x.0, x.1.now)) result (next_field (expr_at (offers in_text) (budget - 1)) budget fields tokens.now) }
{
    let Some(after) = mark_at(tokens, Mark::Comma) else {
        return Err(Stop::NoReading(tokens.len()));
    };
    field_at(alloc, in_text, budget, fields, after)
}

// A field: a name, `=` and a value.
#[cycle(exprs)]
#[tactic(auto, unfolding(sk_parser_laws::specs::ExprReader::field_at))]
fn field_at<'a>(
    alloc: Global,
    in_text: bool,
    budget: u32,
    fields: Fields,
    tokens: &'a [Token],
) -> Result<(Fields, &'a [Token]), Stop>
    requires { 0 < budget }
    ensures { Gives (λ x. (x.0, x.1.now)) result (field_at (expr_at (offers in_text) (budget - 1)) budget fields tokens.now) }
{
    let Some((name, after)) = word_at(tokens) else {
        return Err(Stop::NoReading(tokens.len()));
    };
    let Some(after) = mark_at(after, Mark::Assign) else {
        return Err(Stop::NoReading(after.len()));
    };
    let (value, rest) = expr_at(alloc, in_text, budget - 1, ANY_LEVEL, after)?;
    let Some(depth) = deeper(budget, value.depth) else {
        return Err(Stop::NoReading(rest.len()));
    };
    let fields = push_field(alloc, fields, name, value, depth)?;
    Ok((fields, rest))
}

// A pattern, behind its `{|`.
#[cycle(exprs)]
#[tactic(auto, unfolding(sk_parser_laws::specs::ExprReader::offer_at))]
fn offer_at<'a>(
    alloc: Global,
    in_text: bool,
    budget: u32,
    start: &[Token],
    tokens: &'a [Token],
) -> Result<(Deep, &'a [Token]), Stop>
    requires { 0 < budget }
    ensures { Gives (λ x. (x.0, x.1.now)) result (offer_at (offers in_text) budget start.now tokens.now) }
{
    let (read, behind) = pattern_at(alloc, budget, tokens)?;
    let Some(rest) = mark_at(behind, Mark::ClosePattern) else {
        return Err(Stop::NoReading(behind.len()));
    };
    let strings = offers(alloc, in_text, read.pattern.get())?;
    let form = EForm::Pattern {
        pattern: read.pattern.into_inner(),
        strings,
    };
    let read = make(alloc, budget, start, form, read.depth, rest)?;
    Ok(read)
}

// The trees that a pattern node holds; in a string no pattern may stand.
#[cycle(exprs)]
#[tactic(auto, unfolding(sk_parser_laws::specs::StringReader::offers))]
fn offers(alloc: Global, in_text: bool, pattern: &Pattern) -> Result<List<Expr>, Stop>
    ensures { Gives (λ es. es) result (offers in_text pattern.now) }
{
    if in_text {
        let trees = trees_of(alloc, pattern)?;
        Ok(trees)
    } else {
        Err(Stop::NoReading(0))
    }
}

// The trees of the strings of a pattern, or none where there are too many or one does not read.
#[cycle(exprs)]
#[tactic(auto, unfolding(sk_parser_laws::specs::StringReader::trees_of))]
fn trees_of(alloc: Global, pattern: &Pattern) -> Result<List<Expr>, AllocError>
    ensures { IfOk result (λ es. es ≡ trees_of pattern.now) }
{
    match strings(alloc, pattern) {
        Ok(found) => or_nothing(alloc, found.as_slice()),
        Err(PatternFault::TooManyStrings) => Ok(List::new(alloc)),
        Err(PatternFault::Memory) => Err(AllocError),
    }
}

#[cycle(exprs)]
fn or_nothing(alloc: Global, found: &[List<Token>]) -> Result<List<Expr>, AllocError>
    ensures { IfOk result (λ es. es ≡ or_nothing (strings_at [] found.now)) }
{
    match strings_at(alloc, List::new(alloc), found) {
        Ok(trees) => Ok(trees),
        Err(Stop::NoReading(_)) => Ok(List::new(alloc)),
        Err(Stop::NoMemory) => Err(AllocError),
    }
}

// The trees of strings, behind those of the strings before them. There are at most 128.
#[cycle(exprs)]
#[tactic(auto, unfolding(sk_parser_laws::specs::StringReader::strings_at))]
pub fn strings_at(
    alloc: Global,
    trees: List<Expr>,
    found: &[List<Token>],
) -> Result<List<Expr>, Stop>
    ensures { Gives (λ es. es) result (strings_at trees found.now) }
{
    match found.split_first() {
        Some((string, others)) => {
            let mut trees = trees;
            let tree = string_at(alloc, string.as_slice())?;
            trees.push(tree.into_inner())?;
            let trees = strings_at(alloc, trees, others)?;
            Ok(trees)
        }
        None => Ok(trees),
    }
}

// The tree of a string.
#[cycle(exprs)]
#[tactic(auto, unfolding(sk_parser_laws::specs::StringReader::string_at, sk_parser_laws::specs::StringReader::offers))]
fn string_at(alloc: Global, string: &[Token]) -> Result<Boxed<Expr>, Stop>
    ensures { Gives (λ e. e) result (string_at string.now) }
{
    let (read, rest) = expr_at(alloc, false, MOST_LEVELS, ANY_LEVEL, string)?;
    if rest.is_empty() {
        Ok(read.expr)
    } else {
        Err(Stop::NoReading(rest.len()))
    }
}
