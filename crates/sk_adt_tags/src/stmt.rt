//! Statements that break a rule of tags.
ghost use Rattle.std.specs.Prelude.{◌≡◌, IfOk, map, option_map};
ghost use Rattle.std.specs.List.{list_any};
ghost use Rattle.sk_adt_tags.specs.Tags.{first, part, work, any_part, all_of, or_idle, tests_within, tested};

use crate::expr::{broken as expr_broken, condition_broken, may_be, passes, test_of};
use crate::ground::Ground;
use crate::role::Test;
use sk_base::{Boxed, Span};
use sk_prog::{PExpr, PForm, PStmt};
use std::alloc::{AllocError, Global};

// Whether an expression, where there is one, passes a variable.
fn any_passes(ground: &Ground, e: &Option<PExpr>, x: u32) -> bool
    ensures { result ≡ (any_part ground.now.types.now ground.now.prog.now e.now).touches x }
{
    match e {
        None => false,
        Some(e) => passes(ground, e, x),
    }
}

// Whether statements assign or declare a variable or pass it to a `ref` parameter.
#[cycle(touches)]
fn any_touches(ground: &Ground, stmts: &[PStmt], x: u32) -> bool
    ensures { result ≡ list_any (λ w. w.touches x) (map (work ground.now.types.now ground.now.prog.now) stmts.now) }
{
    for stmt in stmts {
        if touches(ground, stmt, x) {
            return true;
        }
    }
    false
}

#[cycle(touches)]
fn other_touches(ground: &Ground, other: &Option<Boxed<PStmt>>, x: u32) -> bool
    ensures { result ≡ (or_idle (option_map (work ground.now.types.now ground.now.prog.now) other.now)).touches x }
{
    match other {
        None => false,
        Some(stmt) => touches(ground, stmt.get(), x),
    }
}

// Whether a statement assigns or declares a variable or passes it to a `ref` parameter.
#[cycle(touches)]
#[tactic(auto, unfolding(crate::specs::Tags::tested))]
fn touches(ground: &Ground, stmt: &PStmt, x: u32) -> bool
    ensures { result ≡ (work ground.now.types.now ground.now.prog.now stmt.now).touches x }
{
    match &stmt.form {
        PForm::Block(stmts) | PForm::Reorder(stmts) | PForm::MinRepeat(stmts) => any_touches(
            ground,
            stmts.as_slice(),
            x,
        ),
        PForm::Declare {
            slot,
            name: _,
            ty: _,
            value,
        } => x == *slot || any_passes(ground, value, x),
        PForm::Return(value) => any_passes(ground, value, x),
        PForm::Assign { target, value } => may_be(ground, target, x)
            || (passes(ground, target, x) || passes(ground, value, x)),
        PForm::Call(e) | PForm::Assert(e) | PForm::Assume(e) | PForm::Minimize(e) => passes(
            ground, e, x,
        ),
        PForm::If { cond, then, other } => passes(ground, cond, x)
            || touches(ground, then.get(), x)
            || other_touches(ground, other, x),
        PForm::While { cond, body } => passes(ground, cond, x) || touches(ground, body.get(), x),
        PForm::Repeat { count, copies } => passes(ground, count, x)
            || any_touches(ground, copies.as_slice(), x),
    }
}

// The first span in an expression, where there is one.
fn any_broken(ground: &Ground, tests: &[Test], e: &Option<PExpr>) -> Option<Span>
    ensures { result ≡ first ((any_part ground.now.types.now ground.now.prog.now e.now).breaks tests.now) }
{
    match e {
        None => None,
        Some(e) => expr_broken(ground, tests, e),
    }
}

// The tests in whose first branches the first branch of an `if` stands: its own too, where that branch keeps the variable.
fn tests_within(
    alloc: Global,
    ground: &Ground,
    tests: &[Test],
    test: Option<Test>,
    then: &PStmt,
) -> Result<Vec<Test>, AllocError>
    ensures { IfOk result (λ within. within.items ≡ tests_within test (work ground.now.types.now ground.now.prog.now then.now) tests.now) }
{
    let mut within = Vec::new(alloc);
    if let Some(test) = test {
        if !touches(ground, then, test.slot) {
            within.push(test)?;
        }
    }
    within.extend_from_slice(tests)?;
    Ok(within)
}

/// The first span in statements that breaks a rule, in the first branches of these tests. Want of memory is the only error.
#[cycle(breaks)]
#[tactic(auto, using(crate::proofs::Firsts::first_both))]
pub(crate) fn all_broken(
    alloc: Global,
    ground: &Ground,
    tests: &[Test],
    stmts: &[PStmt],
) -> Result<Option<Span>, AllocError>
    ensures { IfOk result (λ span. span ≡ first ((all_of (map (work ground.now.types.now ground.now.prog.now) stmts.now)).breaks tests.now)) }
{
    for stmt in stmts {
        if let Some(span) = broken(alloc, ground, tests, stmt)? {
            return Ok(Some(span));
        }
    }
    Ok(None)
}

#[cycle(breaks)]
#[tactic(auto, using(crate::proofs::Firsts::first_both))]
fn other_broken(
    alloc: Global,
    ground: &Ground,
    tests: &[Test],
    other: &Option<Boxed<PStmt>>,
) -> Result<Option<Span>, AllocError>
    ensures { IfOk result (λ span. span ≡ first ((or_idle (option_map (work ground.now.types.now ground.now.prog.now) other.now)).breaks tests.now)) }
{
    match other {
        None => Ok(None),
        Some(stmt) => broken(alloc, ground, tests, stmt.get()),
    }
}

// The first span in the condition of an `if` and in its first branch.
#[cycle(breaks)]
#[tactic(auto, using(crate::proofs::Firsts::first_both), unfolding(crate::specs::Tags::tested))]
fn first_broken(
    alloc: Global,
    ground: &Ground,
    tests: &[Test],
    then: &PStmt,
    cond: &PExpr,
) -> Result<Option<Span>, AllocError>
    ensures { IfOk result (λ span. span ≡ first ((tested (part ground.now.types.now ground.now.prog.now cond.now) (work ground.now.types.now ground.now.prog.now then.now)).breaks tests.now)) }
{
    let within = tests_within(alloc, ground, tests, test_of(ground, cond), then)?;
    let inner = broken(alloc, ground, within.as_slice(), then)?;
    Ok(condition_broken(ground, tests, cond).or(inner))
}

// The first span in a statement.
#[cycle(breaks)]
#[tactic(auto, using(crate::proofs::Firsts::first_both))]
fn broken(
    alloc: Global,
    ground: &Ground,
    tests: &[Test],
    stmt: &PStmt,
) -> Result<Option<Span>, AllocError>
    ensures { IfOk result (λ span. span ≡ first ((work ground.now.types.now ground.now.prog.now stmt.now).breaks tests.now)) }
{
    match &stmt.form {
        PForm::Block(stmts) | PForm::Reorder(stmts) | PForm::MinRepeat(stmts) => all_broken(
            alloc,
            ground,
            tests,
            stmts.as_slice(),
        ),
        PForm::Declare {
            slot: _,
            name: _,
            ty: _,
            value,
        }
        | PForm::Return(value) => Ok(any_broken(ground, tests, value)),
        PForm::Assign { target, value } => Ok(expr_broken(ground, tests, target).or(expr_broken(
            ground, tests, value,
        ))),
        PForm::Call(e) | PForm::Assert(e) | PForm::Assume(e) | PForm::Minimize(e) => Ok(expr_broken(
            ground, tests, e,
        )),
        PForm::If { cond, then, other } => {
            let first = first_broken(alloc, ground, tests, then.get(), cond)?;
            let second = other_broken(alloc, ground, tests, other)?;
            Ok(first.or(second))
        }
        PForm::While { cond, body } => {
            let inner = broken(alloc, ground, tests, body.get())?;
            Ok(expr_broken(ground, tests, cond).or(inner))
        }
        PForm::Repeat { count, copies } => {
            let inner = all_broken(alloc, ground, tests, copies.as_slice())?;
            Ok(expr_broken(ground, tests, count).or(inner))
        }
    }
}
