//! Whether a program is tagged.
ghost use Rattle.std.specs.Prelude.{◌≡◌, map, IfOk};
ghost use Rattle.sk_adt.specs.Words.{each};
ghost use Rattle.sk_adt_tags.specs.Tags.{first, fun_breaks, breaks, Answers};

use crate::fault::TagFault;
use crate::ground::Ground;
use crate::stmt::all_broken;
use sk_adt::Algebraic;
use sk_base::{List, Span};
use sk_prog::{Fun, Prog};
use std::alloc::{AllocError, Global};

// The first span of some functions.
#[tactic(auto, using(crate::proofs::Firsts::first_both))]
fn funs_broken(alloc: Global, ground: &Ground, funs: &[Fun]) -> Result<Option<Span>, AllocError>
    ensures { IfOk result (λ span. span ≡ first (each (map (fun_breaks ground.now.types.now ground.now.prog.now) funs.now))) }
{
    let none = Vec::new(alloc);
    for fun in funs {
        if let Some(span) = all_broken(alloc, ground, none.as_slice(), fun.body.as_slice())? {
            return Ok(Some(span));
        }
    }
    Ok(None)
}

/// Whether the program uses its algebraic types only as `switch` and `new V` do: `Tagged` says what that is. Else the answer is the first span that breaks
/// a rule, in the order of the text, that of an expression before those of its parts. Want of memory is an answer of its own.
#[tactic(auto, unfolding(crate::specs::Tags::breaks), using(crate::proofs::Firsts::none_first))]
pub fn tagged(alloc: Global, prog: &Prog, types: &List<Algebraic>) -> Result<(), TagFault>
    ensures { Answers result (breaks types.now prog.now) }
{
    let ground = Ground::new(alloc, prog, types.as_slice())?;
    match funs_broken(alloc, &ground, prog.funs.as_slice())? {
        None => Ok(()),
        Some(span) => Err(TagFault::NotTagged { span }),
    }
}
