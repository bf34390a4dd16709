//! Which functions statements call.
ghost use Rattle.std.specs.Prelude.{◌≡◌, ◌++◌, OnOk, option_map, map};
ghost use Rattle.sk_model.specs.Parts.{joined};
ghost use Rattle.sk_prune.specs.Called.{expr_called, value_called, any_called, stmt_called, called};
ghost use Rattle.sk_prune.specs.Words.{exprs_called, fields_called};

use sk_base::Boxed;
use sk_prog::{PEForm, PExpr, PField, PForm, PStmt};
use std::alloc::AllocError;

#[cycle(expr)]
fn exprs_called(found: &mut Vec<u32>, es: &[PExpr]) -> Result<(), AllocError>
    ensures { OnOk result (found.new.items ≡ found.old.items ++ exprs_called es.now) }
{
    for e in es {
        expr_called(found, e)?;
    }
    Ok(())
}

#[cycle(expr)]
fn fields_called(found: &mut Vec<u32>, given: &[PField]) -> Result<(), AllocError>
    ensures { OnOk result (found.new.items ≡ found.old.items ++ fields_called given.now) }
{
    for x in given {
        expr_called(found, &x.value)?;
    }
    Ok(())
}

#[cycle(expr)]
fn expr_called(found: &mut Vec<u32>, e: &PExpr) -> Result<(), AllocError>
    ensures { OnOk result (found.new.items ≡ found.old.items ++ expr_called e.now) }
{
    match &e.form {
        PEForm::Number(_) => Ok(()),
        PEForm::True => Ok(()),
        PEForm::False => Ok(()),
        PEForm::Null => Ok(()),
        PEForm::Var { slot: _, name: _ } => Ok(()),
        PEForm::Const(_) => Ok(()),
        PEForm::Hole(_) => Ok(()),
        PEForm::Pattern(strings) => {
            exprs_called(found, strings.as_slice())?;
            Ok(())
        }
        PEForm::Paren(of) => {
            expr_called(found, of.get())?;
            Ok(())
        }
        PEForm::Call { f, args } => {
            found.push(f.index)?;
            exprs_called(found, args.as_slice())?;
            Ok(())
        }
        PEForm::New { s: _, fields } => {
            fields_called(found, fields.as_slice())?;
            Ok(())
        }
        PEForm::Braces(es) => {
            exprs_called(found, es.as_slice())?;
            Ok(())
        }
        PEForm::Member {
            base,
            s: _,
            field: _,
        } => {
            expr_called(found, base.get())?;
            Ok(())
        }
        PEForm::Index { base, index } => {
            expr_called(found, base.get())?;
            expr_called(found, index.get())?;
            Ok(())
        }
        PEForm::Slice {
            base,
            from,
            length: _,
        } => {
            expr_called(found, base.get())?;
            expr_called(found, from.get())?;
            Ok(())
        }
        PEForm::Unary { op: _, of } => {
            expr_called(found, of.get())?;
            Ok(())
        }
        PEForm::Binary { op: _, left, right } => {
            expr_called(found, left.get())?;
            expr_called(found, right.get())?;
            Ok(())
        }
        PEForm::Cond { cond, then, other } => {
            expr_called(found, cond.get())?;
            expr_called(found, then.get())?;
            expr_called(found, other.get())?;
            Ok(())
        }
        PEForm::ToInt(of) => {
            expr_called(found, of.get())?;
            Ok(())
        }
        PEForm::Pad(of) => {
            expr_called(found, of.get())?;
            Ok(())
        }
    }
}

fn value_called(found: &mut Vec<u32>, e: &Option<PExpr>) -> Result<(), AllocError>
    ensures { OnOk result (found.new.items ≡ found.old.items ++ value_called e.now) }
{
    match e {
        Some(e) => {
            expr_called(found, e)?;
            Ok(())
        }
        None => Ok(()),
    }
}

#[cycle(stmt)]
fn other_called(found: &mut Vec<u32>, other: &Option<Boxed<PStmt>>) -> Result<(), AllocError>
    ensures { OnOk result (found.new.items ≡ found.old.items ++ any_called (option_map stmt_called other.now)) }
{
    match other {
        Some(s) => {
            stmt_called(found, s.get())?;
            Ok(())
        }
        None => Ok(()),
    }
}

/// Adds the functions that statements call. After a refusal what was found is given up with the walk that holds it.
#[cycle(stmt)]
pub fn called(found: &mut Vec<u32>, ss: &[PStmt]) -> Result<(), AllocError>
    ensures { OnOk result (found.new.items ≡ found.old.items ++ called ss.now) }
{
    for s in ss {
        stmt_called(found, s)?;
    }
    Ok(())
}

#[cycle(stmt)]
fn stmt_called(found: &mut Vec<u32>, s: &PStmt) -> Result<(), AllocError>
    ensures { OnOk result (found.new.items ≡ found.old.items ++ stmt_called s.now) }
{
    match &s.form {
        PForm::Block(ss) => {
            called(found, ss.as_slice())?;
            Ok(())
        }
        PForm::Declare {
            slot: _,
            name: _,
            ty: _,
            value,
        } => {
            value_called(found, value)?;
            Ok(())
        }
        PForm::Assign { target, value } => {
            expr_called(found, target)?;
            expr_called(found, value)?;
            Ok(())
        }
        PForm::Call(e) => {
            expr_called(found, e)?;
            Ok(())
        }
        PForm::If { cond, then, other } => {
            expr_called(found, cond)?;
            stmt_called(found, then.get())?;
            other_called(found, other)?;
            Ok(())
        }
        PForm::While { cond, body } => {
            expr_called(found, cond)?;
            stmt_called(found, body.get())?;
            Ok(())
        }
        PForm::Return(e) => {
            value_called(found, e)?;
            Ok(())
        }
        PForm::Assert(e) => {
            expr_called(found, e)?;
            Ok(())
        }
        PForm::Assume(e) => {
            expr_called(found, e)?;
            Ok(())
        }
        PForm::Minimize(e) => {
            expr_called(found, e)?;
            Ok(())
        }
        PForm::Repeat { count: _, copies } => {
            called(found, copies.as_slice())?;
            Ok(())
        }
        PForm::MinRepeat(copies) => {
            called(found, copies.as_slice())?;
            Ok(())
        }
        PForm::Reorder(ss) => {
            called(found, ss.as_slice())?;
            Ok(())
        }
    }
}
