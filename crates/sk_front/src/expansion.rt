//! The expansion of the program that a text means.

ghost use Rattle.std.specs.Prelude.{◌≡◌, ◌≤◌, length, IfOk, IfErr, MatchResult};
ghost use Rattle.sk_base.specs.declared.bounds.Bounds.{Bounds};
ghost use Rattle.sk_tree.specs.declared.item.Tree.{Tree};
ghost use Rattle.sk_prog.specs.declared.prog.Prog.{Prog};
ghost use Rattle.sk_model.specs.declared.expanded.Expanded.{Expanded};
ghost use Rattle.sk_opts.specs.Ranges.{IsInRanges};
ghost use Rattle.sk_front.specs.declared.fault.SketchFault.{SketchFault};
ghost use Rattle.sk_front.specs.Texts.{most_bytes};
ghost use Rattle.sk_front.specs.Front.{IsExpandedTo, IsSizedTo, IsExpansion, Expands, ExpandsWithin, IsFaultOfExpansion, IsFaultOfSizes, IsPlacedFault, IsCause, IsToldAs, IsMemory, too_large};

use crate::fault::SketchFault;
use crate::program::program_of;
use sk_base::Bounds;
use sk_expand::expand;
use sk_expand_sizes::{SizeFault, sizes};
use sk_model::Expanded;
use sk_opts::Set;
use sk_prog::Prog;
use sk_tree::Tree;
use std::alloc::Global;

/// The tree of a text, its bounds, the program that it means, and the expansion of that.
#[derive(Drop)]
pub struct Expansion {
    pub tree: Tree,
    pub bounds: Bounds,
    pub prog: Prog,
    pub expanded: Expanded,
}

/// The fault of a text, for a fault of sizes.
fn too_large(fault: SizeFault) -> SketchFault
    ensures { result ≡ too_large fault }
{
    match fault {
        SizeFault::Memory => SketchFault::Memory,
        SizeFault::Copies | SizeFault::Sites | SizeFault::Steps | SizeFault::News => {
            SketchFault::TooLarge(fault)
        }
    }
}

/// What a text expands to with the options of a line.
///
/// # Errors
///
/// As `program_of`; else `TooLarge(Copies)` where the expansion has more than 262,144 nodes, else `TooLarge(Sites)` where
/// it has more than 4,096 sites.
pub fn expansion_of(alloc: Global, set: &Set, text: &[u8]) -> Result<Expansion, SketchFault>
    requires short { length text.now ≤ most_bytes }
    requires set { IsInRanges set.now }
    ensures found { IfOk result (Expands set.now text.now) }
    ensures fault { IfErr result (IsFaultOfExpansion set.now text.now) }
    ensures place { IfErr result (IsPlacedFault text.now) }
    ensures only { (told : SketchFault) → IsCause (IsFaultOfExpansion set.now text.now) told → MatchResult result (λ _. ⊥) (IsToldAs told) }
    ensures taken { (t : Tree) (b : Bounds) (p : Prog) (e : Expanded) → IsExpandedTo set.now text.now t b p e → MatchResult result (IsExpansion t b p e) IsMemory }
{
    expanded(alloc, set, text)
}

/// The same, with the causes of what is answered alone.
fn expanded(alloc: Global, set: &Set, text: &[u8]) -> Result<Expansion, SketchFault>
    requires short { length text.now ≤ most_bytes }
    requires set { IsInRanges set.now }
    ensures found { IfOk result (Expands set.now text.now) }
    ensures fault { IfErr result (IsFaultOfExpansion set.now text.now) }
    ensures place { IfErr result (IsPlacedFault text.now) }
{
    let typed = match program_of(alloc, set, text) {
        Ok(typed) => typed,
        Err(fault) => return Err(fault),
    };
    match expand(alloc, &typed.prog, &typed.bounds) {
        Ok(expanded) => Ok(Expansion {
            tree: typed.tree,
            bounds: typed.bounds,
            prog: typed.prog,
            expanded,
        }),
        Err(fault) => Err(too_large(fault)),
    }
}

/// The same as `expansion_of`, with the work of the obligations within the limits.
///
/// # Errors
///
/// As `expansion_of`; else `TooLarge(Steps)` where the runs of all obligations may take more than 262,144 steps, else
/// `TooLarge(News)` where the runs of one may make more than 256 records.
pub fn sized_expansion_of(alloc: Global, set: &Set, text: &[u8]) -> Result<Expansion, SketchFault>
    requires short { length text.now ≤ most_bytes }
    requires set { IsInRanges set.now }
    ensures found { IfOk result (ExpandsWithin set.now text.now) }
    ensures fault { IfErr result (IsFaultOfSizes set.now text.now) }
    ensures place { IfErr result (IsPlacedFault text.now) }
    ensures only { (told : SketchFault) → IsCause (IsFaultOfSizes set.now text.now) told → MatchResult result (λ _. ⊥) (IsToldAs told) }
    ensures taken { (t : Tree) (b : Bounds) (p : Prog) (e : Expanded) → IsSizedTo set.now text.now t b p e → MatchResult result (IsExpansion t b p e) IsMemory }
{
    sized(alloc, set, text)
}

/// The same, with the causes of what is answered alone.
fn sized(alloc: Global, set: &Set, text: &[u8]) -> Result<Expansion, SketchFault>
    requires short { length text.now ≤ most_bytes }
    requires set { IsInRanges set.now }
    ensures found { IfOk result (ExpandsWithin set.now text.now) }
    ensures fault { IfErr result (IsFaultOfSizes set.now text.now) }
    ensures place { IfErr result (IsPlacedFault text.now) }
{
    let expansion = match expansion_of(alloc, set, text) {
        Ok(expansion) => expansion,
        Err(fault) => return Err(fault),
    };
    match sizes(alloc, &expansion.expanded, &expansion.bounds) {
        Ok(_sizes) => Ok(expansion),
        Err(fault) => Err(too_large(fault)),
    }
}
