//! Completions of a sketch.

ghost use Rattle.std.specs.Prelude.{◌≡◌, ◌≤◌, length, IsTrue, IfOk};
ghost use Rattle.sk_model.specs.Fill.{fill};
ghost use Rattle.sk_expand_sites.specs.Needs.{HasItsSites, are_narrow};

use sk_holes::{FillFault, fill};
use sk_limits::never;
use sk_model::{Choice, Expanded};
use sk_prog::Prog;
use std::alloc::{AllocError, Global};

/// A completion of a sketch, with the greatest cost of a run of it.
#[derive(Debug, Drop)]
pub struct Completion {
    pub choice: Choice,
    pub filled: Prog,
    pub value: u64,
}

/// The filling of a choice. Where it is in range, nothing but memory can be wanting.
pub fn filling(alloc: Global, expanded: &Expanded, choice: &Choice) -> Result<Prog, AllocError>
    requires sites { HasItsSites expanded.now }
    requires narrow { IsTrue (are_narrow expanded.now.sites) }
    requires few { length expanded.now.sites ≤ 4294967296 }
    ensures { IfOk result (λ filled. filled ≡ fill expanded.now choice.now) }
{
    match fill(alloc, expanded, choice) {
        Ok(filled) => Ok(filled),
        Err(FillFault::Memory) => Err(AllocError),
        Err(_) => Err(never()),
    }
}
