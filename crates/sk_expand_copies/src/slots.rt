//! How many slots functions need.
ghost use Rattle.std.specs.Prelude.{◌≡◌, suc, max, IfOk, option_map};
ghost use Rattle.sk_model.specs.Slots.{any_slots, stmt_slots, stmts_slots};

use sk_base::Boxed;
use sk_limits::{behind, number_of};
use sk_prog::{PForm, PStmt};
use std::alloc::AllocError;

/// The larger of two numbers.
fn larger(a: u32, b: u32) -> u32
    ensures { result ≡ max a b }
{
    if a < b { b } else { a }
}

#[cycle(slots)]
fn slots_of_other(other: &Option<Boxed<PStmt>>) -> Result<u32, AllocError>
    ensures { IfOk result (λ n. n ≡ any_slots (option_map stmt_slots other.now)) }
{
    match other {
        Some(s) => {
            let slots = slots_of(s.get())?;
            Ok(slots)
        }
        None => Ok(0),
    }
}

#[cycle(slots)]
fn slots_of(s: &PStmt) -> Result<u32, AllocError>
    ensures { IfOk result (λ n. n ≡ stmt_slots s.now) }
{
    match &s.form {
        PForm::Declare {
            slot,
            name: _,
            ty: _,
            value: _,
        } => {
            let slots = behind(*slot)?;
            Ok(slots)
        }
        PForm::Block(ss) => {
            let slots = slots_of_all(ss.as_slice())?;
            Ok(slots)
        }
        PForm::If {
            cond: _,
            then,
            other,
        } => {
            let then = slots_of(then.get())?;
            let other = slots_of_other(other)?;
            Ok(larger(then, other))
        }
        PForm::While { cond: _, body } => {
            let slots = slots_of(body.get())?;
            Ok(slots)
        }
        PForm::Repeat { count: _, copies } => {
            let slots = slots_of_all(copies.as_slice())?;
            Ok(slots)
        }
        PForm::MinRepeat(copies) => {
            let slots = slots_of_all(copies.as_slice())?;
            Ok(slots)
        }
        PForm::Reorder(ss) => {
            let slots = slots_of_all(ss.as_slice())?;
            Ok(slots)
        }
        PForm::Assign {
            target: _,
            value: _,
        } => Ok(0),
        PForm::Call(_) => Ok(0),
        PForm::Return(_) => Ok(0),
        PForm::Assert(_) => Ok(0),
        PForm::Assume(_) => Ok(0),
        PForm::Minimize(_) => Ok(0),
    }
}

#[cycle(slots)]
fn slots_of_all(ss: &[PStmt]) -> Result<u32, AllocError>
    ensures { IfOk result (λ n. n ≡ stmts_slots ss.now) }
{
    let mut most = 0;
    for s in ss {
        let slots = slots_of(s)?;
        most = larger(most, slots);
    }
    Ok(most)
}

/// How many slots a function with so many parameters and this body needs.
pub fn slots_needed(params: usize, body: &[PStmt]) -> Result<u32, AllocError>
    ensures { IfOk result (λ n. n ≡ max params (stmts_slots body.now)) }
{
    let params = number_of(params)?;
    let slots = slots_of_all(body)?;
    Ok(larger(params, slots))
}
