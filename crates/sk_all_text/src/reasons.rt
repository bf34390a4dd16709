//! What a line `why` does for a text.

ghost use Rattle.std.specs.Prelude.{◌≤◌, length, IfOk, IfErr, MatchResult};
ghost use Rattle.sk_base.specs.declared.bounds.Bounds.{Bounds};
ghost use Rattle.sk_model.specs.declared.expanded.Choice.{Choice};
ghost use Rattle.sk_model.specs.declared.expanded.Expanded.{Expanded};
ghost use Rattle.sk_min_laws.specs.Best.{Meeting};
ghost use Rattle.sk_all_listing.specs.Formulas.{IsAskable};
ghost use Rattle.sk_opts.specs.Ranges.{IsInRanges};
ghost use Rattle.sk_front.specs.declared.fault.SketchFault.{SketchFault};
ghost use Rattle.sk_front.specs.Texts.{most_bytes};
ghost use Rattle.sk_front.specs.Front.{IsFaultOfSizes, IsPlacedFault, IsCause, IsToldAs, IsMemory};
ghost use Rattle.sk_built_laws.specs.Built.{IsBuilt};
ghost use Rattle.sk_all_text.specs.AllTexts.{NoneMeets, TellsReasons, IsReasons, IsExplained, IsMet};

use crate::lines::{inputs_text, met_text};
use sk_all_listing::causes::{Why, why};
use sk_base::Bounds;
use sk_front::{SketchFault, sized_expansion_of};
use sk_model::Expanded;
use sk_opts::Set;
use sk_watch::Watch;
use std::alloc::{AllocError, Global};

/// The lines that a line `why` writes.
#[derive(Drop)]
pub enum Reasons {
    /// There is no completion: inputs that explain it.
    Explained { out: Vec<u8> },
    /// There is a completion: the values of one.
    Met { out: Vec<u8> },
}

/// What is told of an expansion.
#[tactic(auto, using(crate::proofs::Answering::tells_inputs, crate::proofs::Answering::tells_meeting))]
fn told<W: Watch>(
    alloc: Global,
    expanded: &Expanded,
    bounds: &Bounds,
    watch: &mut W,
) -> Result<Reasons, AllocError>
    requires askable { IsAskable expanded.now bounds.now }
    ensures { IfOk result (λ reasons. TellsReasons reasons bounds.now expanded.now) }
{
    match why(alloc, expanded, bounds, watch)? {
        Why::Inputs(inputs) => {
            let out = inputs_text(alloc, inputs.as_slice())?;
            Ok(Reasons::Explained { out })
        }
        Why::Met(choice) => {
            let out = met_text(alloc, &choice)?;
            Ok(Reasons::Met { out })
        }
    }
}

/// The same as `why_text`, with the causes of what is answered alone.
fn explained<W: Watch>(
    alloc: Global,
    set: &Set,
    text: &[u8],
    watch: &mut W,
) -> Result<Reasons, SketchFault>
    requires short { length text.now ≤ most_bytes }
    requires set { IsInRanges set.now }
    ensures found { IfOk result (IsReasons set.now text.now) }
    ensures fault { IfErr result (IsFaultOfSizes set.now text.now) }
    ensures place { IfErr result (IsPlacedFault text.now) }
{
    let expansion = match sized_expansion_of(alloc, set, text) {
        Ok(expansion) => expansion,
        Err(fault) => return Err(fault),
    };
    match told(alloc, &expansion.expanded, &expansion.bounds, watch) {
        Ok(reasons) => Ok(reasons),
        Err(_) => Err(SketchFault::Memory),
    }
}

/// Why a text has no completion with the options of a line: inputs that no choice passes, none of them too many. Where it has one, the
/// values of one. Nothing is said of costs.
///
/// # Errors
///
/// As `sized_expansion_of`: `NotText`, `NotTyped` and `TooLarge` where the text is not taken, and `Memory` where memory is wanting.
pub fn why_text<W: Watch>(
    alloc: Global,
    set: &Set,
    text: &[u8],
    watch: &mut W,
) -> Result<Reasons, SketchFault>
    requires short { length text.now ≤ most_bytes }
    requires set { IsInRanges set.now }
    ensures found { IfOk result (IsReasons set.now text.now) }
    ensures fault { IfErr result (IsFaultOfSizes set.now text.now) }
    ensures place { IfErr result (IsPlacedFault text.now) }
    // The other direction: a text with a cause is refused for it, and one that is taken is told what holds of it.
    ensures only { (told : SketchFault) → IsCause (IsFaultOfSizes set.now text.now) told → MatchResult result (λ _. ⊥) (IsToldAs told) }
    ensures met { (bounds : Bounds) (e : Expanded) → IsBuilt set.now text.now bounds e → (c : Choice) → Meeting e bounds c → MatchResult result IsMet IsMemory }
    ensures explained { (bounds : Bounds) (e : Expanded) → IsBuilt set.now text.now bounds e → NoneMeets e bounds → MatchResult result IsExplained IsMemory }
{
    explained(alloc, set, text, watch)
}
