//! Statements that hold no statement.
ghost use Rattle.std.specs.Prelude.{◌≡◌, IfOk};
ghost use Rattle.sk_parser_laws.specs.Readers.{Gives};
ghost use Rattle.sk_parser_laws.specs.StmtReader.{stmt_of, declare_at, assign_at, turn_at, add_at, call_at, behind_target, simple_at, before_at, named_at, parens_at, return_value_at, return_at, assert_at, assume_at, minimize_at, between_semicolons};
ghost use Rattle.sk_parser_stmts.specs.Roles.{role_of};

use crate::declare::{base_at, names_at, ty_at, value_at};
use crate::place::{Place, end_at, is_call, is_target, is_whole, may_declare, may_step};
use sk_base::Boxed;
use sk_parser_exprs::token::{begins, mark_at, span_between};
use sk_parser_laws::Stop;
use sk_tree::{Expr, Form, Kind, Mark, StepKind, Stmt, Token};
use std::alloc::{AllocError, Global};

// A statement of this form, from the start up to the rest.
#[tactic(auto, unfolding(sk_parser_laws::specs::StmtReader::stmt_of))]
pub fn make<'a>(
    alloc: Global,
    start: &[Token],
    form: Form,
    rest: &'a [Token],
) -> Result<(Boxed<Stmt>, &'a [Token]), AllocError>
    ensures { IfOk result (λ x. (x.0, x.1.now) ≡ stmt_of start.now form rest.now) }
{
    let span = span_between(start, rest);
    let stmt = Boxed::new(alloc, Stmt { span, form })?;
    Ok((stmt, rest))
}

// A declaration.
#[tactic(auto, unfolding(sk_parser_laws::specs::StmtReader::declare_at))]
pub fn declare_at<'a>(
    alloc: Global,
    place: Place,
    budget: u32,
    tokens: &'a [Token],
) -> Result<(Boxed<Stmt>, &'a [Token]), Stop>
    ensures { Gives (λ x. (x.0, x.1.now)) result (declare_at (role_of place) budget tokens.now) }
{
    let (ty, rest) = ty_at(alloc, budget, tokens)?;
    let (names, rest) = names_at(alloc, budget, rest)?;
    if !may_declare(place, names.as_slice()) {
        return Err(Stop::NoReading(tokens.len()));
    }
    let Some(rest) = end_at(place, rest) else {
        return Err(Stop::NoReading(rest.len()));
    };
    let read = make(alloc, tokens, Form::Declare { ty, names }, rest)?;
    Ok(read)
}

// `=` and a value behind a target.
#[tactic(auto, unfolding(sk_parser_laws::specs::StmtReader::assign_at))]
fn assign_at<'a>(
    alloc: Global,
    place: Place,
    budget: u32,
    start: &[Token],
    target: Boxed<Expr>,
    tokens: &'a [Token],
) -> Result<(Boxed<Stmt>, &'a [Token]), Stop>
    ensures { Gives (λ x. (x.0, x.1.now)) result (assign_at (role_of place) budget start.now target tokens.now) }
{
    if !is_target(target.get()) {
        return Err(Stop::NoReading(tokens.len().saturating_add(1)));
    }
    let (value, behind) = value_at(alloc, budget, tokens)?;
    let Some(rest) = end_at(place, behind) else {
        return Err(Stop::NoReading(behind.len()));
    };
    let form = Form::Assign {
        target: target.into_inner(),
        value: value.into_inner(),
    };
    let read = make(alloc, start, form, rest)?;
    Ok(read)
}

// `++` or `--` behind a target.
#[tactic(auto, unfolding(sk_parser_laws::specs::StmtReader::turn_at))]
fn turn_at<'a>(
    alloc: Global,
    place: Place,
    kind: StepKind,
    start: &[Token],
    target: Boxed<Expr>,
    tokens: &'a [Token],
) -> Result<(Boxed<Stmt>, &'a [Token]), Stop>
    ensures { Gives (λ x. (x.0, x.1.now)) result (turn_at (role_of place) kind start.now target tokens.now) }
{
    if !(may_step(place) && is_target(target.get())) {
        return Err(Stop::NoReading(tokens.len().saturating_add(1)));
    }
    let Some(rest) = end_at(place, tokens) else {
        return Err(Stop::NoReading(tokens.len()));
    };
    let form = Form::Step {
        kind,
        target: target.into_inner(),
        by: None,
    };
    let read = make(alloc, start, form, rest)?;
    Ok(read)
}

// `+=` or `-=` behind a target, and what is added or taken.
#[tactic(auto, unfolding(sk_parser_laws::specs::StmtReader::add_at))]
fn add_at<'a>(
    alloc: Global,
    place: Place,
    budget: u32,
    kind: StepKind,
    start: &[Token],
    target: Boxed<Expr>,
    tokens: &'a [Token],
) -> Result<(Boxed<Stmt>, &'a [Token]), Stop>
    ensures { Gives (λ x. (x.0, x.1.now)) result (add_at (role_of place) budget kind start.now target tokens.now) }
{
    if !(may_step(place) && is_target(target.get())) {
        return Err(Stop::NoReading(tokens.len().saturating_add(1)));
    }
    let (by, behind) = value_at(alloc, budget, tokens)?;
    let Some(rest) = end_at(place, behind) else {
        return Err(Stop::NoReading(behind.len()));
    };
    let form = Form::Step {
        kind,
        target: target.into_inner(),
        by: Some(by.into_inner()),
    };
    let read = make(alloc, start, form, rest)?;
    Ok(read)
}

// `;` behind a call.
#[tactic(auto, unfolding(sk_parser_laws::specs::StmtReader::call_at))]
fn call_at<'a>(
    alloc: Global,
    place: Place,
    start: &[Token],
    call: Boxed<Expr>,
    rest: &'a [Token],
) -> Result<(Boxed<Stmt>, &'a [Token]), Stop>
    ensures { Gives (λ x. (x.0, x.1.now)) result (call_at (role_of place) start.now call rest.now) }
{
    if !(is_whole(place) && is_call(call.get())) {
        return Err(Stop::NoReading(rest.len().saturating_add(1)));
    }
    let read = make(alloc, start, Form::Call(call.into_inner()), rest)?;
    Ok(read)
}

// What stands behind an expression of level 1 in a statement.
#[tactic(auto, unfolding(sk_parser_laws::specs::StmtReader::behind_target))]
fn behind_target<'a>(
    alloc: Global,
    place: Place,
    budget: u32,
    start: &[Token],
    base: Boxed<Expr>,
    tokens: &'a [Token],
) -> Result<(Boxed<Stmt>, &'a [Token]), Stop>
    ensures { Gives (λ x. (x.0, x.1.now)) result (behind_target (role_of place) budget start.now base tokens.now) }
{
    let Some((token, after)) = tokens.split_first() else {
        return Err(Stop::NoReading(tokens.len()));
    };
    match &token.kind {
        Kind::Mark(Mark::Assign) => assign_at(alloc, place, budget, start, base, after),
        Kind::Mark(Mark::Increment) => {
            turn_at(alloc, place, StepKind::PostInc, start, base, after)
        }
        Kind::Mark(Mark::Decrement) => {
            turn_at(alloc, place, StepKind::PostDec, start, base, after)
        }
        Kind::Mark(Mark::AddAssign) => {
            add_at(alloc, place, budget, StepKind::Add, start, base, after)
        }
        Kind::Mark(Mark::SubAssign) => {
            add_at(alloc, place, budget, StepKind::Sub, start, base, after)
        }
        Kind::Mark(Mark::Semicolon) => call_at(alloc, place, start, base, after),
        _ => Err(Stop::NoReading(tokens.len())),
    }
}

// An assignment, a step behind its target, or a call.
#[tactic(auto, unfolding(sk_parser_laws::specs::StmtReader::simple_at))]
pub fn simple_at<'a>(
    alloc: Global,
    place: Place,
    budget: u32,
    tokens: &'a [Token],
) -> Result<(Boxed<Stmt>, &'a [Token]), Stop>
    ensures { Gives (λ x. (x.0, x.1.now)) result (simple_at (role_of place) budget tokens.now) }
{
    let (base, rest) = base_at(alloc, budget, tokens)?;
    let read = behind_target(alloc, place, budget, tokens, base, rest)?;
    Ok(read)
}

// `++` or `--` before a target.
#[tactic(auto, unfolding(sk_parser_laws::specs::StmtReader::before_at))]
pub fn before_at<'a>(
    alloc: Global,
    place: Place,
    budget: u32,
    kind: StepKind,
    start: &[Token],
    tokens: &'a [Token],
) -> Result<(Boxed<Stmt>, &'a [Token]), Stop>
    ensures { Gives (λ x. (x.0, x.1.now)) result (before_at (role_of place) budget kind start.now tokens.now) }
{
    let (target, behind) = base_at(alloc, budget, tokens)?;
    if !(may_step(place) && is_target(target.get())) {
        return Err(Stop::NoReading(tokens.len()));
    }
    let Some(rest) = end_at(place, behind) else {
        return Err(Stop::NoReading(behind.len()));
    };
    let form = Form::Step {
        kind,
        target: target.into_inner(),
        by: None,
    };
    let read = make(alloc, start, form, rest)?;
    Ok(read)
}

// What begins with a word: a declaration where it reads as one.
#[tactic(auto, unfolding(sk_parser_laws::specs::StmtReader::named_at))]
pub fn named_at<'a>(
    alloc: Global,
    place: Place,
    budget: u32,
    tokens: &'a [Token],
) -> Result<(Boxed<Stmt>, &'a [Token]), Stop>
    ensures { Gives (λ x. (x.0, x.1.now)) result (named_at (role_of place) budget tokens.now) }
{
    match declare_at(alloc, place, budget, tokens) {
        Ok(read) => Ok(read),
        Err(Stop::NoReading(left)) => match simple_at(alloc, place, budget, tokens) {
            Ok(read) => Ok(read),
            Err(Stop::NoReading(other)) => Err(Stop::NoReading(fewer(left, other))),
            Err(Stop::NoMemory) => Err(Stop::NoMemory),
        },
        Err(Stop::NoMemory) => Err(Stop::NoMemory),
    }
}

// Of two readings that stopped, what the one that came further left.
fn fewer(left: usize, other: usize) -> usize {
    if left < other { left } else { other }
}

// An expression in parentheses.
#[tactic(auto, unfolding(sk_parser_laws::specs::StmtReader::parens_at))]
pub fn parens_at<'a>(
    alloc: Global,
    budget: u32,
    tokens: &'a [Token],
) -> Result<(Boxed<Expr>, &'a [Token]), Stop>
    ensures { Gives (λ x. (x.0, x.1.now)) result (parens_at budget tokens.now) }
{
    let Some(after) = mark_at(tokens, Mark::OpenParen) else {
        return Err(Stop::NoReading(tokens.len()));
    };
    let (expr, behind) = value_at(alloc, budget, after)?;
    let Some(rest) = mark_at(behind, Mark::CloseParen) else {
        return Err(Stop::NoReading(behind.len()));
    };
    Ok((expr, rest))
}

// The value that is returned.
#[tactic(auto, unfolding(sk_parser_laws::specs::StmtReader::return_value_at))]
fn return_value_at<'a>(
    alloc: Global,
    budget: u32,
    start: &[Token],
    tokens: &'a [Token],
) -> Result<(Boxed<Stmt>, &'a [Token]), Stop>
    ensures { Gives (λ x. (x.0, x.1.now)) result (return_value_at budget start.now tokens.now) }
{
    let (expr, behind) = value_at(alloc, budget, tokens)?;
    let Some(rest) = mark_at(behind, Mark::Semicolon) else {
        return Err(Stop::NoReading(behind.len()));
    };
    let read = make(alloc, start, Form::Return(Some(expr.into_inner())), rest)?;
    Ok(read)
}

// Behind `return`.
#[tactic(auto, unfolding(sk_parser_laws::specs::StmtReader::return_at))]
pub fn return_at<'a>(
    alloc: Global,
    budget: u32,
    start: &[Token],
    tokens: &'a [Token],
) -> Result<(Boxed<Stmt>, &'a [Token]), Stop>
    ensures { Gives (λ x. (x.0, x.1.now)) result (return_at budget start.now tokens.now) }
{
    if !begins(tokens, Mark::Semicolon) {
        return return_value_at(alloc, budget, start, tokens);
    }
    let Some(rest) = mark_at(tokens, Mark::Semicolon) else {
        return Err(Stop::NoReading(tokens.len()));
    };
    let read = make(alloc, start, Form::Return(None), rest)?;
    Ok(read)
}

// Behind `assert`.
#[tactic(auto, unfolding(sk_parser_laws::specs::StmtReader::assert_at))]
pub fn assert_at<'a>(
    alloc: Global,
    budget: u32,
    start: &[Token],
    tokens: &'a [Token],
) -> Result<(Boxed<Stmt>, &'a [Token]), Stop>
    ensures { Gives (λ x. (x.0, x.1.now)) result (assert_at budget start.now tokens.now) }
{
    let (expr, behind) = value_at(alloc, budget, tokens)?;
    let Some(rest) = mark_at(behind, Mark::Semicolon) else {
        return Err(Stop::NoReading(behind.len()));
    };
    let read = make(alloc, start, Form::Assert(expr.into_inner()), rest)?;
    Ok(read)
}

// Behind `assume`.
#[tactic(auto, unfolding(sk_parser_laws::specs::StmtReader::assume_at))]
pub fn assume_at<'a>(
    alloc: Global,
    budget: u32,
    start: &[Token],
    tokens: &'a [Token],
) -> Result<(Boxed<Stmt>, &'a [Token]), Stop>
    ensures { Gives (λ x. (x.0, x.1.now)) result (assume_at budget start.now tokens.now) }
{
    let (expr, behind) = value_at(alloc, budget, tokens)?;
    let Some(rest) = mark_at(behind, Mark::Semicolon) else {
        return Err(Stop::NoReading(behind.len()));
    };
    let read = make(alloc, start, Form::Assume(expr.into_inner()), rest)?;
    Ok(read)
}

// Behind `minimize`.
#[tactic(auto, unfolding(sk_parser_laws::specs::StmtReader::minimize_at))]
pub fn minimize_at<'a>(
    alloc: Global,
    budget: u32,
    start: &[Token],
    tokens: &'a [Token],
) -> Result<(Boxed<Stmt>, &'a [Token]), Stop>
    ensures { Gives (λ x. (x.0, x.1.now)) result (minimize_at budget start.now tokens.now) }
{
    let (expr, behind) = parens_at(alloc, budget, tokens)?;
    let Some(rest) = mark_at(behind, Mark::Semicolon) else {
        return Err(Stop::NoReading(behind.len()));
    };
    let read = make(alloc, start, Form::Minimize(expr.into_inner()), rest)?;
    Ok(read)
}

// The condition of a `for`, between its semicolons.
#[tactic(auto, unfolding(sk_parser_laws::specs::StmtReader::between_semicolons))]
pub fn between_semicolons<'a>(
    alloc: Global,
    budget: u32,
    tokens: &'a [Token],
) -> Result<(Boxed<Expr>, &'a [Token]), Stop>
    ensures { Gives (λ x. (x.0, x.1.now)) result (between_semicolons budget tokens.now) }
{
    let Some(after) = mark_at(tokens, Mark::Semicolon) else {
        return Err(Stop::NoReading(tokens.len()));
    };
    let (expr, behind) = value_at(alloc, budget, after)?;
    let Some(rest) = mark_at(behind, Mark::Semicolon) else {
        return Err(Stop::NoReading(behind.len()));
    };
    Ok((expr, rest))
}
