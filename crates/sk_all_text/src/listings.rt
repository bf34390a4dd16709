//! What a line `all` does for a text.

ghost use Rattle.std.specs.Prelude.{◌<◌, ◌≤◌, length, IfOk, IfErr, MatchResult};
ghost use Rattle.sk_base.specs.declared.bounds.Bounds.{Bounds};
ghost use Rattle.sk_model.specs.declared.expanded.Expanded.{Expanded};
ghost use Rattle.sk_all_listing.specs.Formulas.{IsAskable};
ghost use Rattle.sk_opts.specs.Ranges.{IsInRanges};
ghost use Rattle.sk_front.specs.declared.fault.SketchFault.{SketchFault};
ghost use Rattle.sk_front.specs.Texts.{most_bytes};
ghost use Rattle.sk_front.specs.Front.{IsFaultOfSizes, IsPlacedFault, IsCause, IsToldAs, IsMemory};
ghost use Rattle.sk_built_laws.specs.Built.{IsBuilt};
ghost use Rattle.sk_all_text.specs.AllTexts.{TellsAll, TellsMore, TellsListing, HasAtMost, IsListing};

use crate::lines::listing_text;
use sk_all_listing::all;
use sk_base::Bounds;
use sk_front::{SketchFault, sized_expansion_of};
use sk_model::Expanded;
use sk_opts::Set;
use sk_watch::Watch;
use std::alloc::{AllocError, Global};

/// What is told of an expansion.
fn told<W: Watch>(
    alloc: Global,
    expanded: &Expanded,
    bounds: &Bounds,
    most: u32,
    watch: &mut W,
) -> Result<Vec<u8>, AllocError>
    requires askable { IsAskable expanded.now bounds.now }
    requires some { 0 < most }
    ensures { IfOk result (λ out. TellsListing most out.items bounds.now expanded.now) }
{
    let listing = all(alloc, expanded, bounds, most as usize, watch)?;
    let out = listing_text(alloc, &listing)?;
    Ok(out)
}

/// The same as `all_text`, with the causes of what is answered alone.
fn listed<W: Watch>(
    alloc: Global,
    set: &Set,
    most: u32,
    text: &[u8],
    watch: &mut W,
) -> Result<Vec<u8>, SketchFault>
    requires short { length text.now ≤ most_bytes }
    requires set { IsInRanges set.now }
    requires some { 0 < most }
    ensures found { IfOk result (λ out. IsListing set.now most text.now out.items) }
    ensures fault { IfErr result (IsFaultOfSizes set.now text.now) }
    ensures place { IfErr result (IsPlacedFault text.now) }
{
    let expansion = match sized_expansion_of(alloc, set, text) {
        Ok(expansion) => expansion,
        Err(fault) => return Err(fault),
    };
    match told(alloc, &expansion.expanded, &expansion.bounds, most, watch) {
        Ok(out) => Ok(out),
        Err(_) => Err(SketchFault::Memory),
    }
}

/// The completions of a text with the options of a line, at most so many, of which no two agree where the sites of one stand; and whether
/// these are all. Nothing is said of costs.
///
/// # Errors
///
/// As `sized_expansion_of`: `NotText`, `NotTyped` and `TooLarge` where the text is not taken, and `Memory` where memory is wanting.
pub fn all_text<W: Watch>(
    alloc: Global,
    set: &Set,
    most: u32,
    text: &[u8],
    watch: &mut W,
) -> Result<Vec<u8>, SketchFault>
    requires short { length text.now ≤ most_bytes }
    requires set { IsInRanges set.now }
    requires some { 0 < most }
    ensures found { IfOk result (λ out. IsListing set.now most text.now out.items) }
    ensures fault { IfErr result (IsFaultOfSizes set.now text.now) }
    ensures place { IfErr result (IsPlacedFault text.now) }
    // The other direction: a text with a cause is refused for it, and of one that is taken the completions are told.
    ensures only { (told : SketchFault) → IsCause (IsFaultOfSizes set.now text.now) told → MatchResult result (λ _. ⊥) (IsToldAs told) }
    ensures all { (bounds : Bounds) (e : Expanded) → IsBuilt set.now text.now bounds e → HasAtMost most bounds e → MatchResult result (λ out. TellsAll most out.items bounds e) IsMemory }
    ensures more { (bounds : Bounds) (e : Expanded) → IsBuilt set.now text.now bounds e → (HasAtMost most bounds e → ⊥) → MatchResult result (λ out. TellsMore most out.items bounds e) IsMemory }
{
    listed(alloc, set, most, text, watch)
}
