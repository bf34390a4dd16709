//! Counts calls.
ghost use Rattle.std.specs.Prelude.{◌≡◌, ◌==◌, ◌++◌, ◌∷◌, [], OnOk, IfOk, Some, count_by};
ghost use Rattle.sk_expand_sizes.specs.Calls.{called, each_called, entered};

use crate::count::{Count, Due};
use crate::tally::Tally;
use crate::walk::stmts;
use sk_base::Bounds;
use sk_prog::Fun;
use std::alloc::{AllocError, Global};

/// These functions and one more.
fn with_function(alloc: Global, active: &[usize], f: usize) -> Result<Vec<usize>, AllocError>
    ensures { IfOk result (λ all. all.items ≡ active.now ++ f ∷ []) }
{
    let mut all = Vec::from_slice(alloc, active)?;
    all.push(f)?;
    Ok(all)
}

/// How many of the active calls are of a function.
fn count_of(active: &[usize], f: usize) -> usize
    ensures { result ≡ count_by (λ g. g == f) active.now }
{
    active.iter().filter(|g| **g == f).count()
}

/// The functions of a program, and the bounds of its runs.
#[derive(Drop, Clone, Copy)]
pub struct Caller<'a> {
    pub alloc: Global,
    pub funs: &'a [Fun],
    pub bounds: Bounds,
}

impl Caller<'_> {
    /// Counts a call that is made so many times, where calls of these functions are active and so many more may be.
    #[cycle(call)]
    #[tactic(auto, unfolding(crate::specs::Calls::called))]
    pub fn call(
        &self,
        left: u32,
        active: &[usize],
        f: usize,
        times: u32,
        tally: &mut Tally,
    ) -> Result<(), AllocError>
        ensures { OnOk result (tally.new ≡ called self.now.bounds self.now.funs.now left active.now f times tally.old) }
    {
        if left == 0 || tally.is_over() {
            return Ok(());
        }
        if count_of(active, f) >= self.bounds.inline_amnt as usize {
            return Ok(());
        }
        let Some(fun) = self.funs.get(f) else {
            return Ok(());
        };
        let active = with_function(self.alloc, active, f)?;
        self.enter(left - 1, active.as_slice(), fun, times, tally)?;
        Ok(())
    }

    #[cycle(call)]
    fn enter(
        &self,
        left: u32,
        active: &[usize],
        fun: &Fun,
        times: u32,
        tally: &mut Tally,
    ) -> Result<(), AllocError>
        ensures { OnOk result (tally.new ≡ entered self.now.bounds.unroll (called self.now.bounds self.now.funs.now left active.now) (Some fun.now) times tally.old) }
    {
        let mut count = Count::new(self.alloc, *tally);
        count.charge(times as u128, 0);
        stmts(
            fun.body.as_slice(),
            self.bounds.unroll,
            times as u128,
            &mut count,
        )?;
        *tally = count.tally;
        self.each(left, active, count.due.as_slice(), tally)?;
        Ok(())
    }

    #[cycle(call)]
    fn each(
        &self,
        left: u32,
        active: &[usize],
        due: &[Due],
        tally: &mut Tally,
    ) -> Result<(), AllocError>
        ensures { OnOk result (tally.new ≡ each_called (called self.now.bounds self.now.funs.now left active.now) due.now tally.old) }
    {
        for d in due {
            self.call(left, active, d.callee as usize, d.times, tally)?;
        }
        Ok(())
    }
}
