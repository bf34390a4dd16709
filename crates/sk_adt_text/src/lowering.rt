//! What a line `lower` does for a text.

ghost use Rattle.std.specs.Prelude.{ℕ, ◌≡◌, ◌≤◌, List, length, IfOk, IfErr, MatchResult};
ghost use Rattle.sk_base.specs.declared.span.Span.{Span};
ghost use Rattle.sk_opts.specs.Ranges.{IsInRanges};
ghost use Rattle.sk_adt.specs.declared.algebraic.AdtFault.{AdtFault};
ghost use Rattle.sk_front.specs.Texts.{most_bytes};
ghost use Rattle.sk_front.specs.declared.fault.SketchFault.{SketchFault};
ghost use Rattle.sk_front.specs.Front.{IsCause, IsToldAs, IsMemory};
ghost use Rattle.sk_adt_text.specs.PlainTexts.{HasNoPlainForm, IsNotTagged, IsLoweredText, IsLowering, IsFaultOfPlain, IsFaultOfLowering, IsPlacedIn, IsPlacedFault, IsWritten, IsOfForm, IsWrittenAs};
ghost use Rattle.sk_adt_text.specs.Kept.{IsKept};

use crate::form::plain_form;
use crate::meaning::meaning_of;
use sk_adt::{AdtFault, Algebraic, Lowered};
use sk_adt_tags::{TagFault, tagged};
use sk_base::{List, Span};
use sk_front::SketchFault;
use sk_opts::Set;
use sk_print::print;
use sk_prog::Prog;
use std::alloc::{AllocError, Global};

/// What a text comes to with a line `lower`.
#[derive(Drop)]
pub enum Lowering {
    /// Its tokens have no plain form, for this reason.
    NotLowered(AdtFault),
    /// The program of its plain form is not tagged: the first span that breaks a rule.
    NotTagged { span: Span },
    /// The text of the program of its plain form.
    Plain(Vec<u8>),
}

/// The text of a program with these algebraic types, or the first span that breaks a rule of tags.
fn written(alloc: Global, types: &List<Algebraic>, prog: &Prog) -> Result<Lowering, AllocError>
    ensures { IfOk result (IsWritten types.now prog.now) }
{
    match tagged(alloc, prog, types) {
        Ok(()) => {
            let text = print(alloc, prog)?;
            Ok(Lowering::Plain(text))
        }
        Err(TagFault::NotTagged { span }) => Ok(Lowering::NotTagged { span }),
        Err(TagFault::Memory) => Err(AllocError),
    }
}

/// The same, of the plain form of a text of so many bytes.
#[tactic(auto, using(crate::proofs::Answering::of_program))]
fn of_form(alloc: Global, set: &Set, form: &Lowered, bytes: usize) -> Result<Lowering, SketchFault>
    requires { IsInRanges set.now }
    ensures found { IfOk result (IsOfForm set.now form.now) }
    ensures fault { IfErr result (λ fault. IsFaultOfPlain set.now fault form.now.tokens) }
    ensures place { IfErr result (λ fault. IsPlacedIn bytes fault form.now.tokens) }
{
    let typed = match meaning_of(alloc, set, form.tokens.as_slice(), bytes) {
        Ok(typed) => typed,
        Err(fault) => return Err(fault),
    };
    match written(alloc, &form.types, &typed.prog) {
        Ok(lowering) => Ok(lowering),
        Err(_) => Err(SketchFault::Memory),
    }
}

/// The same as `lowered_text`, with the causes of what is answered alone.
#[tactic(auto, using(crate::proofs::Answering::answered, crate::proofs::Answering::refused, crate::proofs::Answering::placed, crate::proofs::Answering::undivided, crate::proofs::Answering::undivided_at))]
fn lowered(alloc: Global, set: &Set, text: &[u8]) -> Result<Lowering, SketchFault>
    requires short { length text.now ≤ most_bytes }
    requires set { IsInRanges set.now }
    ensures found { IfOk result (IsLowering set.now text.now) }
    ensures fault { IfErr result (IsFaultOfLowering set.now text.now) }
    ensures place { IfErr result (IsPlacedFault text.now) }
{
    match plain_form(alloc, text) {
        Ok(Ok(form)) => match of_form(alloc, set, &form, text.len()) {
            Ok(lowering) => Ok(lowering),
            Err(fault) => Err(fault),
        },
        Ok(Err(reason)) => Ok(Lowering::NotLowered(reason)),
        Err(fault) => Err(fault),
    }
}

/// What a text comes to whose algebraic types are lowered: the text of the program that its plain form means with the options of a line, where that program
/// is tagged.
///
/// # Errors
///
/// `NotText` where the text has no tokens, or those of its plain form read as no tree; `NotTyped` where that tree means no program, with the span of an
/// expression or a statement of it, or 0 to 0 where what breaks a rule has none; `Memory` where memory is wanting. `NotLowered` and `NotTagged` are answers.
pub fn lowered_text(alloc: Global, set: &Set, text: &[u8]) -> Result<Lowering, SketchFault>
    requires short { length text.now ≤ most_bytes }
    requires set { IsInRanges set.now }
    ensures found { IfOk result (IsLowering set.now text.now) }
    ensures fault { IfErr result (IsFaultOfLowering set.now text.now) }
    ensures place { IfErr result (IsPlacedFault text.now) }
    // The program of a text that is written does what the algebraic types say, and the text shows it.
    ensures kept { IfOk result (IsKept set.now text.now) }
    // The other direction: what holds of a text is what is answered.
    ensures only { (told : SketchFault) → IsCause (IsFaultOfLowering set.now text.now) told → MatchResult result (λ _. ⊥) (IsToldAs told) }
    ensures not_lowered { (reason : AdtFault) → HasNoPlainForm text.now reason → MatchResult result (λ told. told ≡ Lowering.NotLowered reason) IsMemory }
    ensures not_tagged { (span : Span) → IsNotTagged set.now text.now span → MatchResult result (λ told. told ≡ Lowering.NotTagged span) IsMemory }
    ensures plain { (out : List ℕ) → IsLoweredText set.now text.now out → MatchResult result (IsWrittenAs out) IsMemory }
{
    lowered(alloc, set, text)
}
