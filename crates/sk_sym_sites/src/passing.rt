//! Passes the sites of parts that are not run.

ghost use Rattle.std.specs.Prelude.{◌≡◌, ◌+◌, ◌-◌, OnOk, length, map, option_map};
ghost use Rattle.sk_model.specs.Stands.{hole_count};
ghost use Rattle.sk_sym_sites.specs.Counts.{expr_count, exprs_count, fields_count, value_count, stmt_count, stmts_count, copies_count, any_count};

use sk_base::Boxed;
use sk_limits::too_many;
use sk_prog::{Elem, PEForm, PExpr, PField, PForm, PStmt, Ty};
use std::alloc::AllocError;

/// Passes so many sites.
fn pass(at: &mut usize, count: usize) -> Result<(), AllocError>
    ensures { OnOk result (at.new ≡ at.old + count) }
{
    match at.checked_add(count) {
        None => Err(too_many()),
        Some(next) => {
            *at = next;
            Ok(())
        }
    }
}

/// How many sites a hole of this type has.
fn hole_count(ty: Option<Ty>) -> usize
    ensures { result ≡ hole_count ty }
{
    match ty {
        Some(Ty::Array(Elem::Bit, count)) => count as usize,
        _ => 1,
    }
}

/// Passes the sites of expressions. After a refusal the place is given up with the walk that holds it.
#[cycle(pass_expr)]
pub fn pass_exprs(at: &mut usize, es: &[PExpr]) -> Result<(), AllocError>
    ensures { OnOk result (at.new ≡ at.old + exprs_count es.now) }
{
    for e in es {
        pass_expr(at, e)?;
    }
    Ok(())
}

#[cycle(pass_expr)]
fn pass_fields(at: &mut usize, given: &[PField]) -> Result<(), AllocError>
    ensures { OnOk result (at.new ≡ at.old + fields_count given.now) }
{
    for x in given {
        pass_expr(at, &x.value)?;
    }
    Ok(())
}

#[cycle(pass_expr)]
fn pass_pattern(at: &mut usize, es: &[PExpr]) -> Result<(), AllocError>
    ensures { OnOk result (at.new ≡ at.old + (1 + exprs_count es.now)) }
{
    pass(at, 1)?;
    pass_exprs(at, es)?;
    Ok(())
}

/// Passes the sites of an expression.
///
/// # Errors
///
/// The place behind them has no room in a count (`too_many`). After a refusal the place is given up with the walk that holds it.
#[cycle(pass_expr)]
pub fn pass_expr(at: &mut usize, e: &PExpr) -> Result<(), AllocError>
    ensures { OnOk result (at.new ≡ at.old + expr_count e.now) }
{
    match &e.form {
        PEForm::Number(_) => Ok(()),
        PEForm::True => Ok(()),
        PEForm::False => Ok(()),
        PEForm::Null => Ok(()),
        PEForm::Var { slot: _, name: _ } => Ok(()),
        PEForm::Const(_) => Ok(()),
        PEForm::Hole(_) => pass(at, hole_count(e.ty)),
        PEForm::Pattern(strings) => pass_pattern(at, strings.as_slice()),
        PEForm::Call { f: _, args } => pass_exprs(at, args.as_slice()),
        PEForm::New { s: _, fields } => pass_fields(at, fields.as_slice()),
        PEForm::Braces(es) => pass_exprs(at, es.as_slice()),
        PEForm::Index { base, index } => {
            pass_expr(at, base.get())?;
            pass_expr(at, index.get())
        }
        PEForm::Slice {
            base,
            from,
            length: _,
        } => {
            pass_expr(at, base.get())?;
            pass_expr(at, from.get())
        }
        PEForm::Binary { op: _, left, right } => {
            pass_expr(at, left.get())?;
            pass_expr(at, right.get())
        }
        PEForm::Cond { cond, then, other } => {
            pass_expr(at, cond.get())?;
            pass_expr(at, then.get())?;
            pass_expr(at, other.get())
        }
        PEForm::Member {
            base,
            s: _,
            field: _,
        } => pass_expr(at, base.get()),
        PEForm::Unary { op: _, of } => pass_expr(at, of.get()),
        PEForm::Paren(of) => pass_expr(at, of.get()),
        PEForm::ToInt(of) => pass_expr(at, of.get()),
        PEForm::Pad(of) => pass_expr(at, of.get()),
    }
}

fn pass_value(at: &mut usize, e: &Option<PExpr>) -> Result<(), AllocError>
    ensures { OnOk result (at.new ≡ at.old + value_count e.now) }
{
    match e {
        Some(e) => pass_expr(at, e),
        None => Ok(()),
    }
}

/// Passes the sites of statements. After a refusal the place is given up with the walk that holds it.
#[cycle(pass_stmt)]
pub fn pass_stmts(at: &mut usize, ss: &[PStmt]) -> Result<(), AllocError>
    ensures { OnOk result (at.new ≡ at.old + stmts_count ss.now) }
{
    for s in ss {
        pass_stmt(at, s)?;
    }
    Ok(())
}

#[cycle(pass_stmt)]
fn pass_copies(at: &mut usize, ss: &[PStmt]) -> Result<(), AllocError>
    ensures { OnOk result (at.new ≡ at.old + (1 + stmts_count ss.now)) }
{
    pass(at, 1)?;
    pass_stmts(at, ss)?;
    Ok(())
}

#[cycle(pass_stmt)]
fn pass_repeat(at: &mut usize, ss: &[PStmt], count: &PExpr) -> Result<(), AllocError>
    ensures { OnOk result (at.new ≡ at.old + copies_count count.now (map stmt_count ss.now)) }
{
    match &count.form {
        PEForm::Hole(_) => pass_copies(at, ss),
        _ => pass_stmts(at, ss),
    }
}

#[cycle(pass_stmt)]
#[tactic(auto, using(crate::proofs::Lengths::mapped))]
fn pass_reorder(at: &mut usize, ss: &[PStmt]) -> Result<(), AllocError>
    ensures { OnOk result (at.new ≡ at.old + ((length (map stmt_count ss.now) - 1) + stmts_count ss.now)) }
{
    pass(at, ss.len().saturating_sub(1))?;
    pass_stmts(at, ss)?;
    Ok(())
}

#[cycle(pass_stmt)]
fn pass_other(at: &mut usize, other: &Option<Boxed<PStmt>>) -> Result<(), AllocError>
    ensures { OnOk result (at.new ≡ at.old + any_count (option_map stmt_count other.now)) }
{
    match other {
        Some(s) => pass_stmt(at, s.get()),
        None => Ok(()),
    }
}

fn pass_assign(at: &mut usize, target: &PExpr, value: &PExpr) -> Result<(), AllocError>
    ensures { OnOk result (at.new ≡ at.old + (expr_count target.now + expr_count value.now)) }
{
    pass_expr(at, target)?;
    pass_expr(at, value)?;
    Ok(())
}

/// Passes the sites of a statement.
///
/// # Errors
///
/// The place behind them has no room in a count (`too_many`). After a refusal the place is given up with the walk that holds it.
#[cycle(pass_stmt)]
pub fn pass_stmt(at: &mut usize, s: &PStmt) -> Result<(), AllocError>
    ensures { OnOk result (at.new ≡ at.old + stmt_count s.now) }
{
    match &s.form {
        PForm::Block(ss) => pass_stmts(at, ss.as_slice()),
        PForm::Declare {
            slot: _,
            name: _,
            ty: _,
            value,
        } => pass_value(at, value),
        PForm::Assign { target, value } => pass_assign(at, target, value),
        PForm::Call(e) => pass_expr(at, e),
        PForm::If { cond, then, other } => {
            pass_expr(at, cond)?;
            pass_stmt(at, then.get())?;
            pass_other(at, other)
        }
        PForm::While { cond, body } => {
            pass_expr(at, cond)?;
            pass_stmt(at, body.get())
        }
        PForm::Return(e) => pass_value(at, e),
        PForm::Assert(e) => pass_expr(at, e),
        PForm::Assume(e) => pass_expr(at, e),
        PForm::Minimize(e) => pass_expr(at, e),
        PForm::Repeat { count, copies } => pass_repeat(at, copies.as_slice(), count),
        PForm::MinRepeat(copies) => pass_copies(at, copies.as_slice()),
        PForm::Reorder(ss) => pass_reorder(at, ss.as_slice()),
    }
}
