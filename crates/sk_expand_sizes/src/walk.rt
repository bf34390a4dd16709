//! Counts expressions, statements and bodies.
ghost use Rattle.std.specs.Prelude.{◌≡◌, ◌≤◌, OnOk};
ghost use Rattle.sk_model.specs.Limits.{most_steps};
ghost use Rattle.sk_expand_sizes.specs.Count.{expr_counted, field_counted, exprs_counted, fields_counted, value_counted, stmt_counted, stmts_counted, branch_counted, body_counted};

use crate::count::Count;
use sk_base::Boxed;
use sk_prog::{PEForm, PExpr, PField, PForm, PStmt};
use std::alloc::AllocError;

#[cycle(expr)]
fn exprs(es: &[PExpr], times: u128, count: &mut Count) -> Result<(), AllocError>
    ensures { OnOk result (count.new ≡ exprs_counted times es.now count.old) }
{
    for e in es {
        expr(e, times, count)?;
    }
    Ok(())
}

#[cycle(expr)]
fn fields(given: &[PField], times: u128, count: &mut Count) -> Result<(), AllocError>
    ensures { OnOk result (count.new ≡ fields_counted times given.now count.old) }
{
    for x in given {
        expr(&x.value, times, count)?;
    }
    Ok(())
}

/// Counts an expression that is done so many times.
#[cycle(expr)]
fn expr(e: &PExpr, times: u128, count: &mut Count) -> Result<(), AllocError>
    ensures { OnOk result (count.new ≡ expr_counted times e.now count.old) }
{
    match &e.form {
        PEForm::ToInt(of) | PEForm::Pad(of) => {
            expr(of.get(), times, count)?;
            Ok(())
        }
        PEForm::Call { f, args } => {
            count.call(f.index, times)?;
            exprs(args.as_slice(), times, count)?;
            Ok(())
        }
        PEForm::New {
            s: _,
            fields: given,
        } => {
            count.charge(times, times);
            fields(given.as_slice(), times, count)?;
            Ok(())
        }
        PEForm::Pattern(es) | PEForm::Braces(es) => {
            count.charge(times, 0);
            exprs(es.as_slice(), times, count)?;
            Ok(())
        }
        PEForm::Paren(of)
        | PEForm::Member {
            base: of,
            s: _,
            field: _,
        }
        | PEForm::Unary { op: _, of } => {
            count.charge(times, 0);
            expr(of.get(), times, count)?;
            Ok(())
        }
        PEForm::Index { base: a, index: b }
        | PEForm::Slice {
            base: a,
            from: b,
            length: _,
        }
        | PEForm::Binary {
            op: _,
            left: a,
            right: b,
        } => {
            count.charge(times, 0);
            expr(a.get(), times, count)?;
            expr(b.get(), times, count)?;
            Ok(())
        }
        PEForm::Cond { cond, then, other } => {
            count.charge(times, 0);
            expr(cond.get(), times, count)?;
            expr(then.get(), times, count)?;
            expr(other.get(), times, count)?;
            Ok(())
        }
        PEForm::Number(_)
        | PEForm::True
        | PEForm::False
        | PEForm::Null
        | PEForm::Var { slot: _, name: _ }
        | PEForm::Const(_)
        | PEForm::Hole(_) => {
            count.charge(times, 0);
            Ok(())
        }
    }
}

fn value(e: &Option<PExpr>, times: u128, count: &mut Count) -> Result<(), AllocError>
    ensures { OnOk result (count.new ≡ value_counted times e.now count.old) }
{
    match e {
        None => Ok(()),
        Some(e) => {
            expr(e, times, count)?;
            Ok(())
        }
    }
}

#[cycle(stmt)]
fn branch(
    other: &Option<Boxed<PStmt>>,
    turns: u32,
    times: u128,
    count: &mut Count,
) -> Result<(), AllocError>
    ensures { OnOk result (count.new ≡ branch_counted turns other.now times count.old) }
{
    match other {
        None => Ok(()),
        Some(s) => {
            stmt(s.get(), turns, times, count)?;
            Ok(())
        }
    }
}

/// The body of a loop that is reached so many times.
#[cycle(stmt)]
fn body(s: &PStmt, turns: u32, times: u128, count: &mut Count) -> Result<(), AllocError>
    requires { times ≤ most_steps }
    ensures { OnOk result (count.new ≡ body_counted turns (stmt_counted turns s.now) times count.old) }
{
    if turns == 0 {
        return Ok(());
    }
    stmt(s, turns, times * turns as u128, count)?;
    Ok(())
}

/// Statements that are done so many times, where no loop makes more than so many turns.
#[cycle(stmt)]
pub fn stmts(ss: &[PStmt], turns: u32, times: u128, count: &mut Count) -> Result<(), AllocError>
    ensures { OnOk result (count.new ≡ stmts_counted turns ss.now times count.old) }
{
    for s in ss {
        stmt(s, turns, times, count)?;
    }
    Ok(())
}

#[cycle(stmt)]
fn stmt(s: &PStmt, turns: u32, times: u128, count: &mut Count) -> Result<(), AllocError>
    ensures { OnOk result (count.new ≡ stmt_counted turns s.now times count.old) }
{
    let within = count.charge(times, 0);
    match &s.form {
        PForm::Block(ss)
        | PForm::Repeat {
            count: _,
            copies: ss,
        }
        | PForm::MinRepeat(ss) => {
            stmts(ss.as_slice(), turns, times, count)?;
            Ok(())
        }
        PForm::Declare {
            slot: _,
            name: _,
            ty: _,
            value: given,
        }
        | PForm::Return(given) => {
            value(given, times, count)?;
            Ok(())
        }
        PForm::Assign {
            target,
            value: given,
        } => {
            expr(target, times, count)?;
            expr(given, times, count)?;
            Ok(())
        }
        PForm::Call(e) | PForm::Assert(e) | PForm::Assume(e) | PForm::Minimize(e) => {
            expr(e, times, count)?;
            Ok(())
        }
        PForm::If { cond, then, other } => {
            expr(cond, times, count)?;
            stmt(then.get(), turns, times, count)?;
            branch(other, turns, times, count)?;
            Ok(())
        }
        PForm::While { cond, body: of } => {
            if !within {
                return Ok(());
            }
            expr(cond, times * (turns as u128 + 1), count)?;
            body(of.get(), turns, times, count)?;
            Ok(())
        }
        PForm::Reorder(ss) => {
            if !within {
                return Ok(());
            }
            stmts(ss.as_slice(), turns, times * ss.len() as u128, count)?;
            Ok(())
        }
    }
}
