//! What a line `check` says of its input.

ghost use Rattle.std.specs.Prelude.{◌≡◌, ◌≤◌, ◌<◌, length, IfOk, IfErr, MatchResult};
ghost use Rattle.sk_check.specs.Formulas.{IsAskable};
ghost use Rattle.sk_cert.specs.declared.fault.CertFault.{CertFault};
ghost use Rattle.sk_check_laws.specs.declared.reason.Reason.{Reason};
ghost use Rattle.sk_check_laws.specs.Rejected.{part_number};
ghost use Rattle.sk_opts.specs.Ranges.{IsInRanges};
ghost use Rattle.sk_front.specs.Texts.{most_bytes};
ghost use Rattle.sk_front.specs.Front.{IsFaultOfSizes};
ghost use Rattle.sk_built_laws.specs.Built.{ForBuilt};
ghost use Rattle.sk_check_text.specs.declared.fault.CheckFault.{CheckFault};
ghost use Rattle.sk_check_text.specs.Checking.{IsSaid, IsSomeCertificate, IsRejectedFor, IsAccepted, IsNone, TakesSketch, IsChecked, IsFaultOfCheck, IsPlacedIn, IsPlacedFault, IsCause, IsMemory, IsToldAs, IsVerdict, IsAcceptedButFormulas};

use crate::fault::CheckFault;
use crate::splitting::{Parts, split};
use sk_base::Bounds;
use sk_cert::{CertFault, read};
use sk_check::{Verdict, accepts};
use sk_check_laws::Reason;
use sk_front::{SketchFault, sized_expansion_of};
use sk_model::Expanded;
use sk_opts::Set;
use std::alloc::{AllocError, Global};

/// The greatest number of bytes of a sketch.
const MOST_BYTES: usize = 1_048_576;

/// What is said of an input.
#[derive(Debug, Drop)]
pub enum Checked {
    /// Behind the mark stands a certificate that is right.
    Accepted,
    /// There stands one that is rejected, for this reason.
    Rejected(Reason),
    /// What stands there is no certificate, for this reason.
    NotCertificate(CertFault),
}

/// What is said of a text as the certificate of an expansion.
#[tactic(auto, using(crate::proofs::Answering::form_of, crate::proofs::Answering::accepted, crate::proofs::Answering::rejected))]
fn said_of_text(
    alloc: Global,
    expanded: &Expanded,
    bounds: &Bounds,
    text: &[u8],
) -> Result<Checked, AllocError>
    requires askable { IsAskable expanded.now bounds.now }
    requires few { length expanded.now.sites ≤ 4294967296 }
    requires short { length text.now ≤ 67108864 }
    ensures { IfOk result (λ said. IsSaid said text.now bounds.now expanded.now) }
{
    let certificate = match read(alloc, text) {
        Ok(certificate) => certificate,
        Err(CertFault::NoForm { line }) => {
            return Ok(Checked::NotCertificate(CertFault::NoForm { line }));
        }
        Err(CertFault::Version { line }) => {
            return Ok(Checked::NotCertificate(CertFault::Version { line }));
        }
        Err(CertFault::Memory) => return Err(AllocError),
    };
    match accepts(alloc, expanded, bounds, &certificate) {
        Ok(Verdict::Accepted) => Ok(Checked::Accepted),
        Ok(Verdict::Rejected(reason)) => Ok(Checked::Rejected(reason)),
        Err(_) => Err(AllocError),
    }
}

/// What is said of a text as the certificate of a sketch.
#[tactic(auto, using(crate::proofs::Answering::askable, crate::proofs::Answering::few, crate::proofs::Answering::said, crate::proofs::Answering::placed))]
fn said_of_parts(
    alloc: Global,
    set: &Set,
    sketch: &[u8],
    text: &[u8],
) -> Result<Checked, SketchFault>
    requires short { length sketch.now ≤ most_bytes }
    requires behind { length text.now ≤ 67108864 }
    requires set { IsInRanges set.now }
    ensures found { IfOk result (λ said. ForBuilt set.now sketch.now (IsSaid said text.now)) }
    ensures fault { IfErr result (IsFaultOfSizes set.now sketch.now) }
    ensures place { IfErr result (λ fault. IsPlacedIn fault sketch.now) }
{
    let expansion = match sized_expansion_of(alloc, set, sketch) {
        Ok(expansion) => expansion,
        Err(fault) => return Err(fault),
    };
    match said_of_text(alloc, &expansion.expanded, &expansion.bounds, text) {
        Ok(said) => Ok(said),
        Err(_) => Err(SketchFault::Memory),
    }
}

/// The same as `checked_text`, with the causes of what is answered alone.
#[tactic(auto, using(crate::proofs::FirstMark::behind_within, crate::proofs::Answering::checked_is, crate::proofs::Answering::too_long, crate::proofs::Answering::refused, crate::proofs::Answering::placed_in))]
fn said_of_input(alloc: Global, set: &Set, input: &[u8]) -> Result<Checked, CheckFault>
    requires short { length input.now ≤ 67108864 }
    requires set { IsInRanges set.now }
    ensures found { IfOk result (IsChecked set.now input.now) }
    ensures fault { IfErr result (IsFaultOfCheck set.now input.now) }
    ensures place { IfErr result (IsPlacedFault input.now) }
{
    let Parts { sketch, behind } = split(input);
    if sketch.len() > MOST_BYTES {
        return Err(CheckFault::TooLong);
    }
    match said_of_parts(alloc, set, sketch, behind) {
        Ok(said) => Ok(said),
        Err(fault) => Err(CheckFault::Sketch(fault)),
    }
}

/// What a line `check` says of its input: whether what stands behind the first line `//%%` is a certificate, and a right one of the
/// sketch before it. Without such a line all is sketch, and nothing is no certificate.
///
/// # Errors
///
/// `TooLong` where the sketch has more than 1,048,576 bytes; `Sketch` with the fault where it is refused as `sized_expansion_of`
/// refuses it, or memory is wanting. `Rejected` and `NotCertificate` are answers.
pub fn checked_text(alloc: Global, set: &Set, input: &[u8]) -> Result<Checked, CheckFault>
    requires short { length input.now ≤ 67108864 }
    requires set { IsInRanges set.now }
    ensures found { IfOk result (IsChecked set.now input.now) }
    ensures fault { IfErr result (IsFaultOfCheck set.now input.now) }
    ensures place { IfErr result (IsPlacedFault input.now) }
    // The other direction: what holds of an input is what is answered.
    ensures only { (told : CheckFault) → IsCause set.now input.now told → MatchResult result (λ _. ⊥) (IsToldAs told) }
    ensures certificate { TakesSketch set.now input.now IsSomeCertificate → MatchResult result IsVerdict IsMemory }
    ensures accepted { TakesSketch set.now input.now IsAccepted → MatchResult result IsAcceptedButFormulas IsMemory }
    ensures rejected { (reason : Reason) → part_number reason < 6 → TakesSketch set.now input.now (IsRejectedFor reason) → MatchResult result (λ said. said ≡ Checked.Rejected reason) IsMemory }
    ensures not_certificate { (told : CertFault) → TakesSketch set.now input.now (IsNone told) → MatchResult result (λ said. said ≡ Checked.NotCertificate told) IsMemory }
{
    said_of_input(alloc, set, input)
}
