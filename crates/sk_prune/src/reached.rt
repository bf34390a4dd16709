//! Which functions stay.
ghost use Rattle.std.specs.Prelude.{◌≡◌, ◌<◌, ◌++◌, true, false, IfOk, OnOk, length, slice_get, slice_index_or};
ghost use Rattle.sk_prune.specs.Reached.{mark, mark_all, of_kind, of_implements, roots_from, called_in, visit};
ghost use Rattle.sk_prune.specs.Stays.{AreMarks};
ghost use Rattle.sk_prune.specs.Found.{as_reached};

use crate::called::called;
use sk_limits::number_of;
use sk_prog::{Fun, FunId, FunKind};
use std::alloc::{AllocError, Global};

/// Marks of functions, and the functions that were marked, in order.
#[derive(Drop)]
pub struct Reach {
    pub marks: Vec<bool>,
    pub found: Vec<u32>,
}

/// Whether a function is marked, or is not there.
#[tactic(auto, using(crate::proofs::Numbers::looked_up))]
fn is_marked(marks: &[bool], f: u32) -> bool
    ensures marked { result ≡ slice_index_or marks.now f true }
    ensures within { result ≡ false → f < length marks.now }
{
    match sk_base::at(marks, f as usize) {
        Some(marked) => *marked,
        None => true,
    }
}

/// What a function calls, where it is there.
fn called_by(alloc: Global, funs: &[Fun], n: u32) -> Result<Vec<u32>, AllocError>
    ensures { IfOk result (λ fs. fs.items ≡ called_in (slice_get funs.now n)) }
{
    let mut next = Vec::new(alloc);
    match sk_base::at(funs, n as usize) {
        Some(f) => {
            called(&mut next, f.body.as_slice())?;
            Ok(next)
        }
        None => Ok(next),
    }
}

impl Reach {
    /// Marks a function, where it is there. After a refusal the marks are given up with the search that holds them.
    fn mark(&mut self, f: u32) -> Result<(), AllocError>
        ensures { OnOk result (as_reached self.new ≡ mark (as_reached self.old) f) }
    {
        if is_marked(self.marks.as_slice(), f) {
            return Ok(());
        }
        self.found.push(f)?;
        self.marks[f as usize] = true;
        Ok(())
    }

    fn mark_all(&mut self, fs: &[u32]) -> Result<(), AllocError>
        ensures { OnOk result (as_reached self.new ≡ mark_all (as_reached self.old) fs.now) }
    {
        for f in fs {
            self.mark(*f)?;
        }
        Ok(())
    }

    /// The function that was found as number i.
    fn found_at(&self, i: usize) -> Option<u32>
        ensures { result ≡ slice_get self.now.found.items i }
    {
        match sk_base::at(self.found.as_slice(), i) {
            Some(n) => Some(*n),
            None => None,
        }
    }

    /// Marks what the function that was found as number i calls.
    fn visit(&mut self, alloc: Global, funs: &[Fun], i: usize) -> Result<(), AllocError>
        ensures { OnOk result (as_reached self.new ≡ visit funs.now (as_reached self.old) i) }
    {
        match self.found_at(i) {
            Some(n) => {
                let next = called_by(alloc, funs, n)?;
                self.mark_all(next.as_slice())?;
                Ok(())
            }
            None => Ok(()),
        }
    }
}

fn of_kind(found: &mut Vec<u32>, n: u32, kind: FunKind) -> Result<(), AllocError>
    ensures { OnOk result (found.new.items ≡ found.old.items ++ of_kind n kind) }
{
    match kind {
        FunKind::Harness => {
            found.push(n)?;
            Ok(())
        }
        FunKind::Plain => Ok(()),
        FunKind::Generator => Ok(()),
    }
}

fn of_implements(found: &mut Vec<u32>, n: u32, f: Option<FunId>) -> Result<(), AllocError>
    ensures { OnOk result (found.new.items ≡ found.old.items ++ of_implements n f) }
{
    match f {
        Some(g) => {
            found.push(n)?;
            found.push(g.index)?;
            Ok(())
        }
        None => Ok(()),
    }
}

/// The functions that stay whatever is called.
fn roots(alloc: Global, funs: &[Fun]) -> Result<Vec<u32>, AllocError>
    ensures { IfOk result (λ found. found.items ≡ roots_from 0 funs.now) }
{
    let mut found = Vec::new(alloc);
    for (n, f) in funs.iter().enumerate() {
        let number = number_of(n)?;
        of_kind(&mut found, number, f.kind)?;
        of_implements(&mut found, number, f.implements)?;
    }
    Ok(found)
}

/// For each function whether it stays.
#[tactic(auto, using(crate::proofs::Finding::searching))]
pub fn marks(alloc: Global, funs: &[Fun]) -> Result<Vec<bool>, AllocError>
    ensures { IfOk result (λ marks. AreMarks funs.now marks.items) }
{
    let mut reach = Reach {
        marks: vec![in alloc; false; funs.len()]?,
        found: Vec::new(alloc),
    };
    let roots = roots(alloc, funs)?;
    reach.mark_all(roots.as_slice())?;
    for i in 0..funs.len() {
        reach.visit(alloc, funs, i)?;
    }
    Ok(reach.marks)
}
