//! Where the sites of a function begin.

ghost use Rattle.std.specs.Prelude.{◌≡◌, IfOk, take};
ghost use Rattle.sk_sym_sites.specs.Places.{funs_count, BeginsAt};

use crate::passing::pass_stmts;
use sk_prog::{Fun, Prog};
use std::alloc::AllocError;

/// How many sites functions have.
fn sites_of(funs: &[Fun]) -> Result<usize, AllocError>
    ensures { IfOk result (λ n. n ≡ funs_count funs.now) }
{
    let mut at = 0;
    for fun in funs {
        pass_stmts(&mut at, fun.body.as_slice())?;
    }
    Ok(at)
}

/// The functions before a number; all of them, where it is past them.
fn functions_before(funs: &[Fun], f: u32) -> &[Fun]
    ensures { result.now ≡ take f funs.now }
{
    let count = f as usize;
    if count > funs.len() {
        return funs;
    }
    &funs[..count]
}

/// The place of the first site of a function.
///
/// # Errors
///
/// The place has no room in a count (`too_many`).
pub fn start_of(prog: &Prog, f: u32) -> Result<usize, AllocError>
    ensures { IfOk result (λ i. BeginsAt prog.now f i) }
{
    let before = functions_before(prog.funs.as_slice(), f);
    let at = sites_of(before)?;
    Ok(at)
}
