//! Programs without what no run of them can reach.
ghost use Rattle.std.specs.Prelude.{◌≡◌, ◌≤◌, ◌++◌, ◌∷◌, [], IfOk, OnOk, map, if◌then◌else◌};
ghost use Rattle.sk_model.specs.Parts.{rank};
ghost use Rattle.sk_prune.specs.Numbered.{number};
ghost use Rattle.sk_prune.specs.Pruned.{trimmed_fun, renamed_fun, kept_funs, AreKept, IsPruned};

use crate::constant::Constants;
use crate::reached::marks;
use crate::renamer::Renamer;
use crate::trimmer::Trimmer;
use sk_base::{Bounds, List};
use sk_expand_copies::{
    copy_consts, copy_name, copy_params, copy_structs, number_functions, slots_needed,
};
use sk_prog::{Fun, Prog};
use std::alloc::{AllocError, Global};

impl Trimmer<'_> {
    /// A function with its body trimmed.
    fn fun(&self, f: &Fun) -> Result<Fun, AllocError>
        requires bits_low { 2 ≤ self.now.constants.width }
        requires bits_high { self.now.constants.width ≤ 32 }
        ensures { IfOk result (λ made. made ≡ trimmed_fun self.now.constants.consts.now self.now.constants.width f.now) }
    {
        let body = self.body(f.body.as_slice())?;
        let name = copy_name(self.alloc, &f.name)?;
        let params = copy_params(self.alloc, f.params.as_slice())?;
        Ok(Fun {
            name,
            kind: f.kind,
            result: f.result,
            params,
            slots: f.slots,
            implements: f.implements,
            body,
        })
    }

    fn funs(&self, funs: &[Fun]) -> Result<Vec<Fun>, AllocError>
        requires bits_low { 2 ≤ self.now.constants.width }
        requires bits_high { self.now.constants.width ≤ 32 }
        ensures { IfOk result (λ made. made.items ≡ map (trimmed_fun self.now.constants.consts.now self.now.constants.width) funs.now) }
    {
        let mut made = Vec::new(self.alloc);
        for f in funs {
            let f = self.fun(f)?;
            made.push(f)?;
        }
        Ok(made)
    }
}

impl Renamer<'_> {
    /// A function with the new numbers, and as many slots as it needs.
    fn fun(&self, f: &Fun) -> Result<Fun, AllocError>
        ensures { IfOk result (λ made. made ≡ renamed_fun (number self.now) f.now) }
    {
        let body = self.stmts(f.body.as_slice())?;
        let slots = slots_needed(f.params.len(), body.as_slice())?;
        let name = copy_name(self.alloc, &f.name)?;
        let params = copy_params(self.alloc, f.params.as_slice())?;
        Ok(Fun {
            name,
            kind: f.kind,
            result: f.result,
            params,
            slots,
            implements: self.any_id(f.implements),
            body,
        })
    }

    /// Adds a function, where it is marked.
    fn add(&self, kept: &mut Vec<Fun>, marked: bool, f: &Fun) -> Result<(), AllocError>
        ensures { OnOk result (kept.new.items ≡ kept.old.items ++ (if marked then renamed_fun (number self.now) f.now ∷ [] else [])) }
    {
        if marked {
            let f = self.fun(f)?;
            kept.push(f)?;
        }
        Ok(())
    }

    /// The functions that are marked.
    #[tactic(auto, using(crate::proofs::Keeping::keeping))]
    fn funs(&self, marks: &[bool], funs: &[Fun]) -> Result<Vec<Fun>, AllocError>
        ensures { IfOk result (λ made. made.items ≡ kept_funs (number self.now) marks.now funs.now) }
    {
        let mut kept = Vec::new(self.alloc);
        let mut left = marks;
        for f in funs {
            if let Some((marked, after)) = left.split_first() {
                self.add(&mut kept, *marked, f)?;
                left = after;
            }
        }
        Ok(kept)
    }
}

/// The functions of a program that are marked, with new numbers.
#[tactic(auto, using(crate::proofs::Keeping::kept_by))]
fn kept(alloc: Global, marks: &[bool], funs: &[Fun]) -> Result<List<Fun>, AllocError>
    ensures { IfOk result (λ made. made ≡ kept_funs (rank marks.now) marks.now funs.now) }
{
    let ranks = number_functions(alloc, marks)?;
    let renamer = Renamer {
        alloc,
        table: ranks.table.as_slice(),
        last: ranks.last,
    };
    let kept = renamer.funs(marks, funs)?;
    Ok(List::from_vec(kept))
}

/// The functions of a program without what no run can reach.
#[tactic(auto, using(crate::proofs::Keeping::are_kept))]
fn pruned_funs(alloc: Global, prog: &Prog, width: u32) -> Result<List<Fun>, AllocError>
    requires bits_low { 2 ≤ width }
    requires bits_high { width ≤ 32 }
    ensures { IfOk result (AreKept prog.now width) }
{
    let constants = Constants {
        consts: prog.consts.as_slice(),
        width,
    };
    let trimmer = Trimmer { alloc, constants };
    let trimmed = trimmer.funs(prog.funs.as_slice())?;
    let marks = marks(alloc, trimmed.as_slice())?;
    let kept = kept(alloc, marks.as_slice(), trimmed.as_slice())?;
    Ok(kept)
}

/// A program without what no run of it can reach: branches under a constant condition, statements behind a `return`, and
/// functions that nothing calls, but for harnesses, references and their implementations.
///
/// # Errors
///
/// Want of memory.
#[tactic(auto, using(crate::proofs::Keeping::is_pruned))]
pub fn prune(alloc: Global, prog: &Prog, bounds: &Bounds) -> Result<Prog, AllocError>
    requires bits_low { 2 ≤ bounds.now.int_bits }
    requires bits_high { bounds.now.int_bits ≤ 32 }
    ensures { IfOk result (IsPruned bounds.now prog.now) }
{
    let funs = pruned_funs(alloc, prog, bounds.int_bits)?;
    let structs = copy_structs(alloc, prog.structs.as_slice())?;
    let consts = copy_consts(alloc, prog.consts.as_slice())?;
    Ok(Prog {
        structs,
        consts,
        funs,
    })
}
