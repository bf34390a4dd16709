//! How many variables are in scope at most at one place of a function.
ghost use Rattle.std.specs.Prelude.{◌≡◌, ◌+◌, max, map, option_map};
ghost use Rattle.sk_types_rules.specs.Types.{most_of, any_most, room};
ghost use Rattle.sk_types_names.specs.Gives.{Makes};
ghost use Rattle.sk_types_stmts.specs.Rooms.{form_room_of};

use sk_base::Boxed;
use sk_prog::{PForm, PStmt};
use sk_types_laws::Typing;

fn larger(a: usize, b: usize) -> usize
    ensures { result ≡ max a b }
{
    if a < b { b } else { a }
}

/// A sum, or want of memory where it cannot be counted.
fn plus(a: usize, b: usize) -> Result<usize, Typing>
    ensures { Makes result (a + b) }
{
    match a.checked_add(b) {
        None => Err(Typing::Memory),
        Some(sum) => Ok(sum),
    }
}

/// How many variables a statement adds to its block.
fn adds(stmt: &PStmt) -> usize
    ensures { result ≡ (room stmt.now).adds }
{
    match &stmt.form {
        PForm::Declare {
            slot: _,
            name: _,
            ty: _,
            value: _,
        } => 1,
        _ => 0,
    }
}

/// The greatest number of variables in scope at one place of statements, from the number before them.
#[cycle(room)]
#[tactic(auto, using(crate::proofs::RoomLaws::rooms))]
pub fn most(stmts: &[PStmt], before: usize) -> Result<usize, Typing>
    ensures { Makes result (most_of (map room stmts.now) before) }
{
    let mut greatest = 0;
    let mut count = before;
    for stmt in stmts {
        let here = stmt_most(stmt, count)?;
        greatest = larger(greatest, here);
        count = plus(adds(stmt), count)?;
    }
    Ok(larger(greatest, count))
}

#[cycle(room)]
fn any_most(stmt: &Option<Boxed<PStmt>>, before: usize) -> Result<usize, Typing>
    ensures { Makes result (any_most (option_map room stmt.now) before) }
{
    match stmt {
        None => Ok(before),
        Some(stmt) => {
            let most = stmt_most(stmt.get(), before)?;
            Ok(most)
        }
    }
}

#[cycle(room)]
fn stmt_most(stmt: &PStmt, before: usize) -> Result<usize, Typing>
    ensures { Makes result ((room stmt.now).most before) }
{
    let most = form_most(&stmt.form, before)?;
    Ok(most)
}

#[cycle(room)]
fn form_most(form: &PForm, before: usize) -> Result<usize, Typing>
    ensures { Makes result ((form_room_of form.now).most before) }
{
    match form {
        PForm::Declare {
            slot: _,
            name: _,
            ty: _,
            value: _,
        } => {
            let most = plus(before, 1)?;
            Ok(most)
        }
        PForm::Block(stmts) | PForm::MinRepeat(stmts) | PForm::Reorder(stmts) => {
            let most = most(stmts.as_slice(), before)?;
            Ok(most)
        }
        PForm::Repeat { count: _, copies } => {
            let most = most(copies.as_slice(), before)?;
            Ok(most)
        }
        PForm::If {
            cond: _,
            then,
            other,
        } => {
            let here = stmt_most(then.get(), before)?;
            let there = any_most(other, before)?;
            Ok(larger(here, there))
        }
        PForm::While { cond: _, body } => {
            let most = stmt_most(body.get(), before)?;
            Ok(most)
        }
        PForm::Assign {
            target: _,
            value: _,
        }
        | PForm::Call(_)
        | PForm::Return(_)
        | PForm::Assert(_)
        | PForm::Assume(_)
        | PForm::Minimize(_) => Ok(before),
    }
}
