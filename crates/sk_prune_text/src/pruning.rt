//! What a line `prune` does for a text.

ghost use Rattle.std.specs.Prelude.{ℕ, ◌≤◌, List, length, IfOk, IfErr, MatchResult};
ghost use Rattle.sk_opts.specs.Ranges.{IsInRanges, AreInRanges};
ghost use Rattle.sk_front.specs.Texts.{most_bytes};
ghost use Rattle.sk_front.specs.declared.fault.SketchFault.{SketchFault};
ghost use Rattle.sk_front.specs.Front.{IsFaultOfExpansion, IsPlacedFault, IsCause, IsToldAs, IsMemory};
ghost use Rattle.sk_prune_text.specs.PrunedTexts.{IsAnswer, IsOpenText, IsPrunedText, IsPruning, IsOpenAs, IsWrittenAs};
ghost use Rattle.sk_prune_text.specs.Kept.{IsKept};

use sk_base::Bounds;
use sk_front::{SketchFault, expansion_of};
use sk_model::Expanded;
use sk_opts::Set;
use sk_print::print;
use sk_prune::prune;
use std::alloc::{AllocError, Global};

/// What a text comes to with a line `prune`.
#[derive(Drop)]
pub enum Pruning {
    /// Its expansion has a site.
    Unfilled,
    /// The text of what is left of its expansion.
    Pruned(Vec<u8>),
}

/// The text of what is left of an expansion, or that it has a site.
#[tactic(auto, using(crate::proofs::TextLaws::text_is))]
fn answer(alloc: Global, bounds: &Bounds, expanded: &Expanded) -> Result<Pruning, AllocError>
    requires { AreInRanges bounds.now }
    ensures { IfOk result (IsAnswer bounds.now expanded.now) }
{
    if !expanded.sites.is_empty() {
        return Ok(Pruning::Unfilled);
    }
    let left = prune(alloc, &expanded.prog, bounds)?;
    let out = print(alloc, &left)?;
    Ok(Pruning::Pruned(out))
}

/// The text of the program that a text means with the options of a line, without what no run can reach: its expansion, trimmed, with the functions that
/// stay.
///
/// # Errors
///
/// As `expansion_of`. Of a text that expands, `Unfilled` says that its expansion has a site.
pub fn pruned_text(alloc: Global, set: &Set, text: &[u8]) -> Result<Pruning, SketchFault>
    requires short { length text.now ≤ most_bytes }
    requires set { IsInRanges set.now }
    ensures found { IfOk result (IsPruning set.now text.now) }
    ensures fault { IfErr result (IsFaultOfExpansion set.now text.now) }
    ensures place { IfErr result (IsPlacedFault text.now) }
    // Each function that stays runs as before, and a text that is written shows the program that is left.
    ensures kept { IfOk result (IsKept set.now text.now) }
    // The other direction: what holds of a text is what is answered.
    ensures only { (told : SketchFault) → IsCause (IsFaultOfExpansion set.now text.now) told → MatchResult result (λ _. ⊥) (IsToldAs told) }
    ensures unfilled { IsOpenText set.now text.now → MatchResult result IsOpenAs IsMemory }
    ensures pruned { (out : List ℕ) → IsPrunedText set.now text.now out → MatchResult result (IsWrittenAs out) IsMemory }
{
    let it = match expansion_of(alloc, set, text) {
        Ok(it) => it,
        Err(fault) => return Err(fault),
    };
    match answer(alloc, &it.bounds, &it.expanded) {
        Ok(pruning) => Ok(pruning),
        Err(_) => Err(SketchFault::Memory),
    }
}
