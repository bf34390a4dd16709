//! The program that a text means.

ghost use Rattle.std.specs.Prelude.{ℕ, ◌≡◌, ◌≤◌, ◌⊎◌, length, IfOk, IfErr, MatchResult};
ghost use Rattle.sk_base.specs.declared.bounds.Bounds.{Bounds};
ghost use Rattle.sk_types.specs.Places.{nowhere};
ghost use Rattle.sk_tree.specs.declared.item.Tree.{Tree};
ghost use Rattle.sk_prog.specs.declared.prog.Prog.{Prog};
ghost use Rattle.sk_opts.specs.Ranges.{IsInRanges};
ghost use Rattle.sk_front.specs.declared.fault.SketchFault.{SketchFault};
ghost use Rattle.sk_front.specs.Texts.{most_bytes};
ghost use Rattle.sk_front.specs.Front.{IsTypedAs, IsTyped, Means, IsFaultOfProgram, IsPlacedFault, IsCause, IsToldAs, IsMemory};

use crate::fault::SketchFault;
use crate::tree::tree_of;
use sk_base::{Bounds, Span};
use sk_opts::{Set, bounds};
use sk_prog::Prog;
use sk_tree::Tree;
use sk_types::check;
use sk_types_laws::{TypeFault, Typing};
use std::alloc::Global;

/// The tree of a text, its bounds, and the program that it means.
#[derive(Drop)]
pub struct Typed {
    pub tree: Tree,
    pub bounds: Bounds,
    pub prog: Prog,
}

/// What a text means with the options of a line: the one tree as which it reads, the bounds that the options and the
/// pragmas of the tree give, and the one program that the tree means under them.
///
/// # Errors
///
/// `NotText` where the text reads as no tree, `NotTyped` where its tree means no program, with the span of an expression or
/// a statement of the text, or 0 to 0 where what breaks a rule has none; `Memory` where memory is wanting.
pub fn program_of(alloc: Global, set: &Set, text: &[u8]) -> Result<Typed, SketchFault>
    requires short { length text.now ≤ most_bytes }
    requires set { IsInRanges set.now }
    ensures found { IfOk result (Means set.now text.now) }
    ensures fault { IfErr result (IsFaultOfProgram set.now text.now) }
    ensures place { IfErr result (IsPlacedFault text.now) }
    // The other direction: a text with a cause is refused for it, and one that means a program is told as that.
    ensures only { (told : SketchFault) → IsCause (IsFaultOfProgram set.now text.now) told → MatchResult result (λ _. ⊥) (IsToldAs told) }
    ensures taken { (t : Tree) (b : Bounds) (p : Prog) → IsTypedAs set.now text.now t b p → MatchResult result (IsTyped t b p) IsMemory }
{
    meant(alloc, set, text)
}

/// The same fault, with its place where that lies within so many bytes, and else with none.
fn placed(fault: TypeFault, bytes: usize) -> TypeFault
    ensures place { (result.span ≡ fault.span) ⊎ (result.span ≡ nowhere) }
    ensures order { result.span.from ≤ result.span.to }
    ensures within { result.span.to ≤ bytes }
{
    let TypeFault { rule, span } = fault;
    if span.from <= span.to && span.to as usize <= bytes {
        return fault;
    }
    TypeFault {
        rule,
        span: Span { from: 0, to: 0 },
    }
}

/// The same, with the causes of what is answered alone.
fn meant(alloc: Global, set: &Set, text: &[u8]) -> Result<Typed, SketchFault>
    requires short { length text.now ≤ most_bytes }
    requires set { IsInRanges set.now }
    ensures found { IfOk result (Means set.now text.now) }
    ensures fault { IfErr result (IsFaultOfProgram set.now text.now) }
    ensures place { IfErr result (IsPlacedFault text.now) }
{
    let tree = match tree_of(alloc, text) {
        Ok(tree) => tree,
        Err(fault) => return Err(fault),
    };
    let bounds = bounds(set, &tree);
    match check(alloc, &tree, &bounds) {
        Ok(prog) => Ok(Typed { tree, bounds, prog }),
        Err(Typing::Fault(fault)) => Err(SketchFault::NotTyped(placed(fault, text.len()))),
        Err(Typing::Memory) => Err(SketchFault::Memory),
    }
}
