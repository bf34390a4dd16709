//! Lists the sites of the parts of a program.
ghost use Rattle.sk_model.specs.Sites.{expr_sites, value_sites, stmt_sites, stmts_sites};
ghost use Rattle.sk_expand_sites.specs.Listed.{Lists, exprs_sites, fields_sites, branch_sites};

use crate::fault::SitesFault;
use crate::listed::Listed;
use sk_base::{Bounds, Boxed};
use sk_prog::{PEForm, PExpr, PField, PForm, PStmt};

#[cycle(expr)]
fn push_exprs(bounds: &Bounds, out: &mut Listed, es: &[PExpr]) -> Result<(), SitesFault>
    ensures { Lists result out.old out.new (exprs_sites bounds.now es.now) }
{
    for e in es {
        push_expr(bounds, out, e)?;
    }
    Ok(())
}

#[cycle(expr)]
fn push_fields(bounds: &Bounds, out: &mut Listed, given: &[PField]) -> Result<(), SitesFault>
    ensures { Lists result out.old out.new (fields_sites bounds.now given.now) }
{
    for x in given {
        push_expr(bounds, out, &x.value)?;
    }
    Ok(())
}

/// The sites of an expression.
#[cycle(expr)]
fn push_expr(bounds: &Bounds, out: &mut Listed, e: &PExpr) -> Result<(), SitesFault>
    ensures { Lists result out.old out.new (expr_sites bounds.now e.now) }
{
    match &e.form {
        PEForm::Number(_) => Ok(()),
        PEForm::True => Ok(()),
        PEForm::False => Ok(()),
        PEForm::Null => Ok(()),
        PEForm::Var { slot: _, name: _ } => Ok(()),
        PEForm::Const(_) => Ok(()),
        PEForm::Hole(width) => {
            out.push_hole(bounds, *width, e.ty, e.span)?;
            Ok(())
        }
        PEForm::Pattern(strings) => {
            out.push(strings.as_slice().len() as u64, e.span)?;
            push_exprs(bounds, out, strings.as_slice())?;
            Ok(())
        }
        PEForm::Paren(of) => {
            push_expr(bounds, out, of.get())?;
            Ok(())
        }
        PEForm::Call { f: _, args } => {
            push_exprs(bounds, out, args.as_slice())?;
            Ok(())
        }
        PEForm::New { s: _, fields } => {
            push_fields(bounds, out, fields.as_slice())?;
            Ok(())
        }
        PEForm::Braces(es) => {
            push_exprs(bounds, out, es.as_slice())?;
            Ok(())
        }
        PEForm::Member {
            base,
            s: _,
            field: _,
        } => {
            push_expr(bounds, out, base.get())?;
            Ok(())
        }
        PEForm::Index { base, index } => {
            push_expr(bounds, out, base.get())?;
            push_expr(bounds, out, index.get())?;
            Ok(())
        }
        PEForm::Slice {
            base,
            from,
            length: _,
        } => {
            push_expr(bounds, out, base.get())?;
            push_expr(bounds, out, from.get())?;
            Ok(())
        }
        PEForm::Unary { op: _, of } => {
            push_expr(bounds, out, of.get())?;
            Ok(())
        }
        PEForm::Binary { op: _, left, right } => {
            push_expr(bounds, out, left.get())?;
            push_expr(bounds, out, right.get())?;
            Ok(())
        }
        PEForm::Cond { cond, then, other } => {
            push_expr(bounds, out, cond.get())?;
            push_expr(bounds, out, then.get())?;
            push_expr(bounds, out, other.get())?;
            Ok(())
        }
        PEForm::ToInt(of) => {
            push_expr(bounds, out, of.get())?;
            Ok(())
        }
        PEForm::Pad(of) => {
            push_expr(bounds, out, of.get())?;
            Ok(())
        }
    }
}

fn push_value(bounds: &Bounds, out: &mut Listed, e: &Option<PExpr>) -> Result<(), SitesFault>
    ensures { Lists result out.old out.new (value_sites bounds.now e.now) }
{
    match e {
        Some(e) => {
            push_expr(bounds, out, e)?;
            Ok(())
        }
        None => Ok(()),
    }
}

#[cycle(stmt)]
fn push_branch(
    bounds: &Bounds,
    out: &mut Listed,
    other: &Option<Boxed<PStmt>>,
) -> Result<(), SitesFault>
    ensures { Lists result out.old out.new (branch_sites bounds.now other.now) }
{
    match other {
        Some(s) => {
            push_stmt(bounds, out, s.get())?;
            Ok(())
        }
        None => Ok(()),
    }
}

/// The sites of statements, one after another.
#[cycle(stmt)]
pub fn push_stmts(bounds: &Bounds, out: &mut Listed, ss: &[PStmt]) -> Result<(), SitesFault>
    ensures { Lists result out.old out.new (stmts_sites bounds.now ss.now) }
{
    for s in ss {
        push_stmt(bounds, out, s)?;
    }
    Ok(())
}

/// The sites of a statement.
#[cycle(stmt)]
fn push_stmt(bounds: &Bounds, out: &mut Listed, s: &PStmt) -> Result<(), SitesFault>
    ensures { Lists result out.old out.new (stmt_sites bounds.now s.now) }
{
    match &s.form {
        PForm::Block(ss) => {
            push_stmts(bounds, out, ss.as_slice())?;
            Ok(())
        }
        PForm::Declare {
            slot: _,
            name: _,
            ty: _,
            value,
        } => {
            push_value(bounds, out, value)?;
            Ok(())
        }
        PForm::Assign { target, value } => {
            push_expr(bounds, out, target)?;
            push_expr(bounds, out, value)?;
            Ok(())
        }
        PForm::Call(e) => {
            push_expr(bounds, out, e)?;
            Ok(())
        }
        PForm::If { cond, then, other } => {
            push_expr(bounds, out, cond)?;
            push_stmt(bounds, out, then.get())?;
            push_branch(bounds, out, other)?;
            Ok(())
        }
        PForm::While { cond, body } => {
            push_expr(bounds, out, cond)?;
            push_stmt(bounds, out, body.get())?;
            Ok(())
        }
        PForm::Return(e) => {
            push_value(bounds, out, e)?;
            Ok(())
        }
        PForm::Assert(e) => {
            push_expr(bounds, out, e)?;
            Ok(())
        }
        PForm::Assume(e) => {
            push_expr(bounds, out, e)?;
            Ok(())
        }
        PForm::Minimize(e) => {
            push_expr(bounds, out, e)?;
            Ok(())
        }
        PForm::Repeat { count, copies } => {
            out.push_repeat(count, copies.as_slice(), s.span)?;
            push_stmts(bounds, out, copies.as_slice())?;
            Ok(())
        }
        PForm::MinRepeat(copies) => {
            out.push(copies.as_slice().len() as u64 + 1, s.span)?;
            push_stmts(bounds, out, copies.as_slice())?;
            Ok(())
        }
        PForm::Reorder(ss) => {
            out.push_places(ss.as_slice(), s.span)?;
            push_stmts(bounds, out, ss.as_slice())?;
            Ok(())
        }
    }
}
