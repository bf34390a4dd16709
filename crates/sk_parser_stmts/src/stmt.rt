//! Statements: `stmt_at` of specs is the function on lists that this code computes.
ghost use Rattle.std.specs.Prelude.{◌≡◌};
ghost use Rattle.sk_parser_laws.specs.Readers.{Gives, repeated};
ghost use Rattle.sk_parser_laws.specs.StmtReader.{next_stmt, ends_block, stmts_at, block_at, reorder_at, behind_if, if_at, while_at, repeat_at, minrepeat_at, for_body_at, for_at, whole_at, stmt_at};
ghost use Rattle.sk_parser_stmts.specs.Roles.{role_of};

use crate::place::{Place, is_whole};
use crate::simple::{
    assert_at, assume_at, before_at, between_semicolons, declare_at, make, minimize_at, named_at,
    parens_at, return_at, simple_at,
};
use sk_base::{Boxed, List};
use sk_parser_exprs::token::{begins, begins_key, key_at, mark_at};
use sk_parser_laws::Stop;
use sk_tree::{Expr, Form, Key, Kind, Mark, StepKind, Stmt, Token};
use std::alloc::Global;

/// Whether a closing brace follows.
#[tactic(auto, unfolding(sk_parser_laws::specs::StmtReader::ends_block))]
pub fn ends_block(tokens: &[Token]) -> bool
    ensures { result ≡ ends_block tokens.now }
{
    begins(tokens, Mark::CloseBrace)
}

/// The statement at the front in its place, at most so deep, with the tokens after it.
#[cycle(stmts)]
#[tactic(auto, unfolding(sk_parser_laws::specs::StmtReader::form_at), using(sk_parser_laws::proofs::Budgets::stmt_none, sk_parser_laws::proofs::Budgets::stmt_more))]
pub fn stmt_at<'a>(
    alloc: Global,
    budget: u32,
    place: Place,
    tokens: &'a [Token],
) -> Result<(Boxed<Stmt>, &'a [Token]), Stop>
    ensures { Gives (λ x. (x.0, x.1.now)) result (stmt_at budget (role_of place) tokens.now) }
{
    if budget == 0 {
        return Err(Stop::NoReading(tokens.len()));
    }
    let Some((token, after)) = tokens.split_first() else {
        return Err(Stop::NoReading(tokens.len()));
    };
    match &token.kind {
        Kind::Key(Key::Int) => declare_at(alloc, place, budget - 1, tokens),
        Kind::Key(Key::Bit) => declare_at(alloc, place, budget - 1, tokens),
        Kind::Mark(Mark::Increment) => {
            before_at(alloc, place, budget - 1, StepKind::PreInc, tokens, after)
        }
        Kind::Mark(Mark::Decrement) => {
            before_at(alloc, place, budget - 1, StepKind::PreDec, tokens, after)
        }
        Kind::Word(_) => named_at(alloc, place, budget - 1, tokens),
        Kind::Mark(Mark::OpenPattern) => simple_at(alloc, place, budget - 1, tokens),
        kind => {
            if is_whole(place) {
                whole_at(alloc, budget - 1, kind, tokens, after)
            } else {
                Err(Stop::NoReading(tokens.len()))
            }
        }
    }
}

// A statement that only stands whole, behind its first token.
#[cycle(stmts)]
#[tactic(auto, unfolding(sk_parser_laws::specs::StmtReader::whole_at))]
fn whole_at<'a>(
    alloc: Global,
    inner: u32,
    kind: &Kind,
    start: &[Token],
    tokens: &'a [Token],
) -> Result<(Boxed<Stmt>, &'a [Token]), Stop>
    ensures { Gives (λ x. (x.0, x.1.now)) result (whole_at (stmt_at inner) inner start.now kind.now tokens.now) }
{
    match kind {
        Kind::Mark(Mark::OpenBrace) => block_at(alloc, inner, start, tokens),
        Kind::Mark(Mark::Semicolon) => {
            let read = make(alloc, start, Form::Empty, tokens)?;
            Ok(read)
        }
        Kind::Key(Key::If) => if_at(alloc, inner, start, tokens),
        Kind::Key(Key::While) => while_at(alloc, inner, start, tokens),
        Kind::Key(Key::For) => for_at(alloc, inner, start, tokens),
        Kind::Key(Key::Return) => return_at(alloc, inner, start, tokens),
        Kind::Key(Key::Assert) => assert_at(alloc, inner, start, tokens),
        Kind::Key(Key::Assume) => assume_at(alloc, inner, start, tokens),
        Kind::Key(Key::Minimize) => minimize_at(alloc, inner, start, tokens),
        Kind::Key(Key::Repeat) => repeat_at(alloc, inner, start, tokens),
        Kind::Key(Key::Minrepeat) => minrepeat_at(alloc, inner, start, tokens),
        Kind::Key(Key::Reorder) => reorder_at(alloc, inner, start, tokens),
        _ => Err(Stop::NoReading(start.len())),
    }
}

// A statement of a block.
#[cycle(stmts)]
#[tactic(auto, unfolding(sk_parser_laws::specs::StmtReader::next_stmt))]
fn next_stmt<'a>(
    alloc: Global,
    inner: u32,
    stmts: List<Stmt>,
    tokens: &'a [Token],
) -> Result<(List<Stmt>, &'a [Token]), Stop>
    ensures { Gives (λ x. (x.0, x.1.now)) result (next_stmt (stmt_at inner) stmts tokens.now) }
{
    let mut stmts = stmts;
    let (stmt, rest) = stmt_at(alloc, inner, Place::Block, tokens)?;
    stmts.push(stmt.into_inner())?;
    Ok((stmts, rest))
}

#[cycle(stmts)]
fn more_stmts<'a>(
    alloc: Global,
    inner: u32,
    stmts: List<Stmt>,
    tokens: &'a [Token],
) -> Result<(List<Stmt>, &'a [Token]), Stop>
    ensures { Gives (λ x. (x.0, x.1.now)) result (repeated ends_block (next_stmt (stmt_at inner)) stmts tokens.now) }
{
    let mut so_far = stmts;
    let mut rest = tokens;
    while !ends_block(rest) {
        let (more, behind) = next_stmt(alloc, inner, so_far, rest)?;
        so_far = more;
        rest = behind;
    }
    Ok((so_far, rest))
}

/// Statements up to a closing brace, and the tokens after it.
#[cycle(stmts)]
#[tactic(auto, unfolding(sk_parser_laws::specs::StmtReader::stmts_at))]
pub fn stmts_at<'a>(
    alloc: Global,
    inner: u32,
    tokens: &'a [Token],
) -> Result<(List<Stmt>, &'a [Token]), Stop>
    ensures { Gives (λ x. (x.0, x.1.now)) result (stmts_at (stmt_at inner) tokens.now) }
{
    let (stmts, behind) = more_stmts(alloc, inner, List::new(alloc), tokens)?;
    let Some(rest) = mark_at(behind, Mark::CloseBrace) else {
        return Err(Stop::NoReading(behind.len()));
    };
    Ok((stmts, rest))
}

// A block, behind its opening brace.
#[cycle(stmts)]
#[tactic(auto, unfolding(sk_parser_laws::specs::StmtReader::block_at))]
fn block_at<'a>(
    alloc: Global,
    inner: u32,
    start: &[Token],
    tokens: &'a [Token],
) -> Result<(Boxed<Stmt>, &'a [Token]), Stop>
    ensures { Gives (λ x. (x.0, x.1.now)) result (block_at (stmt_at inner) start.now tokens.now) }
{
    let (stmts, rest) = stmts_at(alloc, inner, tokens)?;
    let read = make(alloc, start, Form::Block(stmts), rest)?;
    Ok(read)
}

// Behind `reorder`.
#[cycle(stmts)]
#[tactic(auto, unfolding(sk_parser_laws::specs::StmtReader::reorder_at))]
fn reorder_at<'a>(
    alloc: Global,
    inner: u32,
    start: &[Token],
    tokens: &'a [Token],
) -> Result<(Boxed<Stmt>, &'a [Token]), Stop>
    ensures { Gives (λ x. (x.0, x.1.now)) result (reorder_at (stmt_at inner) start.now tokens.now) }
{
    let Some(after) = mark_at(tokens, Mark::OpenBrace) else {
        return Err(Stop::NoReading(tokens.len()));
    };
    let (stmts, rest) = stmts_at(alloc, inner, after)?;
    let read = make(alloc, start, Form::Reorder(stmts), rest)?;
    Ok(read)
}

// Behind `if`.
#[cycle(stmts)]
#[tactic(auto, unfolding(sk_parser_laws::specs::StmtReader::if_at))]
fn if_at<'a>(
    alloc: Global,
    inner: u32,
    start: &[Token],
    tokens: &'a [Token],
) -> Result<(Boxed<Stmt>, &'a [Token]), Stop>
    ensures { Gives (λ x. (x.0, x.1.now)) result (if_at (stmt_at inner) inner start.now tokens.now) }
{
    let (cond, rest) = parens_at(alloc, inner, tokens)?;
    let (then, rest) = stmt_at(alloc, inner, Place::Body, rest)?;
    let read = behind_if(alloc, inner, start, cond, then, rest)?;
    Ok(read)
}

// `else` and its statement, where it stands.
#[cycle(stmts)]
#[tactic(auto, unfolding(sk_parser_laws::specs::StmtReader::behind_if))]
fn behind_if<'a>(
    alloc: Global,
    inner: u32,
    start: &[Token],
    cond: Boxed<Expr>,
    then: Boxed<Stmt>,
    tokens: &'a [Token],
) -> Result<(Boxed<Stmt>, &'a [Token]), Stop>
    ensures { Gives (λ x. (x.0, x.1.now)) result (behind_if (stmt_at inner) start.now cond then tokens.now) }
{
    if !begins_key(tokens, Key::Else) {
        let form = Form::If {
            cond: cond.into_inner(),
            then,
            other: None,
        };
        let read = make(alloc, start, form, tokens)?;
        return Ok(read);
    }
    let Some(after) = key_at(tokens, Key::Else) else {
        return Err(Stop::NoReading(tokens.len()));
    };
    let (other, rest) = stmt_at(alloc, inner, Place::Body, after)?;
    let form = Form::If {
        cond: cond.into_inner(),
        then,
        other: Some(other),
    };
    let read = make(alloc, start, form, rest)?;
    Ok(read)
}

// Behind `while`.
#[cycle(stmts)]
#[tactic(auto, unfolding(sk_parser_laws::specs::StmtReader::while_at))]
fn while_at<'a>(
    alloc: Global,
    inner: u32,
    start: &[Token],
    tokens: &'a [Token],
) -> Result<(Boxed<Stmt>, &'a [Token]), Stop>
    ensures { Gives (λ x. (x.0, x.1.now)) result (while_at (stmt_at inner) inner start.now tokens.now) }
{
    let (cond, rest) = parens_at(alloc, inner, tokens)?;
    let (body, rest) = stmt_at(alloc, inner, Place::Body, rest)?;
    let form = Form::While {
        cond: cond.into_inner(),
        body,
    };
    let read = make(alloc, start, form, rest)?;
    Ok(read)
}

// Behind `repeat`.
#[cycle(stmts)]
#[tactic(auto, unfolding(sk_parser_laws::specs::StmtReader::repeat_at))]
fn repeat_at<'a>(
    alloc: Global,
    inner: u32,
    start: &[Token],
    tokens: &'a [Token],
) -> Result<(Boxed<Stmt>, &'a [Token]), Stop>
    ensures { Gives (λ x. (x.0, x.1.now)) result (repeat_at (stmt_at inner) inner start.now tokens.now) }
{
    let (count, rest) = parens_at(alloc, inner, tokens)?;
    let (body, rest) = stmt_at(alloc, inner, Place::Body, rest)?;
    let form = Form::Repeat {
        count: count.into_inner(),
        body,
    };
    let read = make(alloc, start, form, rest)?;
    Ok(read)
}

// Behind `minrepeat`.
#[cycle(stmts)]
#[tactic(auto, unfolding(sk_parser_laws::specs::StmtReader::minrepeat_at))]
fn minrepeat_at<'a>(
    alloc: Global,
    inner: u32,
    start: &[Token],
    tokens: &'a [Token],
) -> Result<(Boxed<Stmt>, &'a [Token]), Stop>
    ensures { Gives (λ x. (x.0, x.1.now)) result (minrepeat_at (stmt_at inner) start.now tokens.now) }
{
    let (body, rest) = stmt_at(alloc, inner, Place::Body, tokens)?;
    let read = make(alloc, start, Form::MinRepeat(body), rest)?;
    Ok(read)
}

// Behind `for`.
#[cycle(stmts)]
#[tactic(auto, unfolding(sk_parser_laws::specs::StmtReader::for_at))]
fn for_at<'a>(
    alloc: Global,
    inner: u32,
    start: &[Token],
    tokens: &'a [Token],
) -> Result<(Boxed<Stmt>, &'a [Token]), Stop>
    ensures { Gives (λ x. (x.0, x.1.now)) result (for_at (stmt_at inner) inner start.now tokens.now) }
{
    let Some(after) = mark_at(tokens, Mark::OpenParen) else {
        return Err(Stop::NoReading(tokens.len()));
    };
    let (first, rest) = stmt_at(alloc, inner, Place::First, after)?;
    let (cond, rest) = between_semicolons(alloc, inner, rest)?;
    let read = for_body_at(alloc, inner, start, first, cond, rest)?;
    Ok(read)
}

// The next of a `for`, and its body.
#[cycle(stmts)]
#[tactic(auto, unfolding(sk_parser_laws::specs::StmtReader::for_body_at))]
fn for_body_at<'a>(
    alloc: Global,
    inner: u32,
    start: &[Token],
    first: Boxed<Stmt>,
    cond: Boxed<Expr>,
    tokens: &'a [Token],
) -> Result<(Boxed<Stmt>, &'a [Token]), Stop>
    ensures { Gives (λ x. (x.0, x.1.now)) result (for_body_at (stmt_at inner) start.now first cond tokens.now) }
{
    let (next, behind) = stmt_at(alloc, inner, Place::Next, tokens)?;
    let Some(after) = mark_at(behind, Mark::CloseParen) else {
        return Err(Stop::NoReading(behind.len()));
    };
    let (body, rest) = stmt_at(alloc, inner, Place::Body, after)?;
    let form = Form::For {
        first,
        cond: cond.into_inner(),
        next,
        body,
    };
    let read = make(alloc, start, form, rest)?;
    Ok(read)
}
