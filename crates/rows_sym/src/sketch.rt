//! The sketch of a row.

ghost use Rattle.std.specs.Prelude.{◌≡◌, ◌≤◌, length, IfSome, IsTrue};
ghost use Rattle.sk_expand_sites.specs.Needs.{are_narrow};
ghost use Rattle.sk_model.specs.Sites.{sites};
ghost use Rattle.sk_oblig.specs.Formulas.{IsAskable};
ghost use Rattle.sk_opts.specs.Ranges.{IsInRanges};

use sk_base::{Bounds, Name};
use sk_front::{Expansion, expansion_of};
use sk_model::Expanded;
use sk_opts::Set;
use sk_prog::FunId;
use std::alloc::{AllocError, Global};

/// The expansion of a sketch, and its bounds.
#[derive(Drop)]
pub struct Sketch {
    pub bounds: Bounds,
    pub expanded: Expanded,
    ghost low: { 2 ≤ bounds.int_bits },
    ghost high: { bounds.int_bits ≤ 32 },
    ghost listed: { expanded.sites ≡ sites bounds expanded.prog },
    ghost narrow: { IsTrue (are_narrow expanded.sites) },
    ghost few: { length expanded.sites ≤ 4294967296 },
}

/// A text, and how many bits an `int` has in it.
#[derive(Clone, Copy)]
pub struct Source<'a> {
    pub text: &'a [u8],
    pub width: u32,
    ghost low: { 6 ≤ width },
    ghost high: { width ≤ 32 },
}

/// The longest text of a sketch, in bytes.
pub const LONGEST: usize = 1_048_576;

/// The options under which a text means what its own pragmas say.
pub fn set_of(source: &Source<'_>) -> Set
    ensures { IsInRanges result }
{
    Set {
        cbits: None,
        inbits: None,
        unroll: None,
        inline_amnt: None,
        int_bits: Some(source.width),
    }
}

/// The sketch that a text means. There is nothing where it means none.
#[tactic(auto, using(crate::proofs::Fillable::fillable))]
pub fn sketch_of(alloc: Global, source: &Source<'_>) -> Option<Sketch> {
    if source.text.len() > LONGEST {
        return None;
    }
    match expansion_of(alloc, &set_of(source), source.text) {
        Ok(it) => Some(Sketch {
            bounds: it.bounds,
            expanded: it.expanded,
        }),
        Err(_) => None,
    }
}

/// What a text expands to, of which queries can be put. There is nothing where it means no sketch.
#[tactic(auto, using(crate::proofs::Fillable::fillable))]
pub fn expansion_in(alloc: Global, source: &Source<'_>) -> Option<Expansion>
    ensures askable { IfSome result (λ it. IsAskable it.expanded it.bounds) }
    ensures few { IfSome result (λ it. length it.expanded.sites ≤ 4294967296) }
{
    if source.text.len() > LONGEST {
        return None;
    }
    match expansion_of(alloc, &set_of(source), source.text) {
        Ok(it) => Some(it),
        Err(_) => None,
    }
}

/// The function of a sketch with this name.
pub fn function_named(expanded: &Expanded, name: &str) -> Option<FunId> {
    let mut index = 0u32;
    for fun in expanded.prog.funs.as_slice() {
        if fun.name.as_bytes() == name.as_bytes() {
            return Some(FunId { index });
        }
        index = index.checked_add(1)?;
    }
    None
}
