//! Takes the nodes of what an expansion keeps as it is.
ghost use Rattle.sk_model.specs.Nodes.{expr_nodes, consts_nodes};
ghost use Rattle.sk_expand.specs.Made.{Taken};
ghost use Rattle.sk_expand.specs.Nodes.{exprs_nodes, fields_nodes};

use crate::building::Building;
use crate::stop::Stop;
use sk_prog::{ConstDef, PEForm, PExpr, PField};

#[cycle(nodes)]
fn take_exprs(made: &mut Building, es: &[PExpr]) -> Result<(), Stop>
    ensures { Taken result (exprs_nodes es.now) made.old made.new }
{
    for e in es {
        take_expr(made, e)?;
    }
    Ok(())
}

#[cycle(nodes)]
fn take_fields(made: &mut Building, given: &[PField]) -> Result<(), Stop>
    ensures { Taken result (fields_nodes given.now) made.old made.new }
{
    for x in given {
        take_expr(made, &x.value)?;
    }
    Ok(())
}

/// Takes the nodes of an expression.
#[cycle(nodes)]
pub fn take_expr(made: &mut Building, e: &PExpr) -> Result<(), Stop>
    ensures { Taken result (expr_nodes e.now) made.old made.new }
{
    match &e.form {
        PEForm::Number(_) => made.take(1),
        PEForm::True => made.take(1),
        PEForm::False => made.take(1),
        PEForm::Null => made.take(1),
        PEForm::Var { slot: _, name: _ } => made.take(1),
        PEForm::Const(_) => made.take(1),
        PEForm::Hole(_) => made.take(1),
        PEForm::Pattern(strings) => {
            made.take(1)?;
            take_exprs(made, strings.as_slice())?;
            Ok(())
        }
        PEForm::Paren(of) => {
            made.take(1)?;
            take_expr(made, of.get())?;
            Ok(())
        }
        PEForm::Call { f: _, args } => {
            made.take(1)?;
            take_exprs(made, args.as_slice())?;
            Ok(())
        }
        PEForm::New { s: _, fields } => {
            made.take(1)?;
            take_fields(made, fields.as_slice())?;
            Ok(())
        }
        PEForm::Braces(es) => {
            made.take(1)?;
            take_exprs(made, es.as_slice())?;
            Ok(())
        }
        PEForm::Member {
            base,
            s: _,
            field: _,
        } => {
            made.take(1)?;
            take_expr(made, base.get())?;
            Ok(())
        }
        PEForm::Index { base, index } => {
            made.take(1)?;
            take_expr(made, base.get())?;
            take_expr(made, index.get())?;
            Ok(())
        }
        PEForm::Slice {
            base,
            from,
            length: _,
        } => {
            made.take(1)?;
            take_expr(made, base.get())?;
            take_expr(made, from.get())?;
            Ok(())
        }
        PEForm::Unary { op: _, of } => {
            made.take(1)?;
            take_expr(made, of.get())?;
            Ok(())
        }
        PEForm::Binary { op: _, left, right } => {
            made.take(1)?;
            take_expr(made, left.get())?;
            take_expr(made, right.get())?;
            Ok(())
        }
        PEForm::Cond { cond, then, other } => {
            made.take(1)?;
            take_expr(made, cond.get())?;
            take_expr(made, then.get())?;
            take_expr(made, other.get())?;
            Ok(())
        }
        PEForm::ToInt(of) => take_expr(made, of.get()),
        PEForm::Pad(of) => take_expr(made, of.get()),
    }
}

/// Takes the nodes of constants.
pub fn take_consts(made: &mut Building, consts: &[ConstDef]) -> Result<(), Stop>
    ensures { Taken result (consts_nodes consts.now) made.old made.new }
{
    for c in consts {
        take_expr(made, &c.value)?;
    }
    Ok(())
}
