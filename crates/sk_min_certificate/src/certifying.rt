//! Certificates of answers.

ghost use Rattle.std.specs.Prelude.{◌≡◌, ◌≤◌, length, None, Some, IfOk};
ghost use Rattle.std.specs.Option.{option_copied};
ghost use Rattle.sk_model.specs.declared.expanded.Choice.{Choice};
ghost use Rattle.sk_oblig_queries.specs.Queries.{IsWanted};
ghost use Rattle.sk_min.specs.Formulas.{IsAskable};
ghost use Rattle.sk_loop_laws.specs.Honest.{Honest, inputs_of};
ghost use Rattle.sk_min_laws.specs.Best.{IsBest, NoneBelow};
ghost use Rattle.sk_cert.specs.Certificates.{HasForm, IsCertificate};
ghost use Rattle.sk_min_certificate.specs.Certifications.{FillingsFit, IsCertification, ListsPairs};
ghost use Rattle.sk_min_certificate.specs.Claims.{Claims, IsKnown, with_proofs};

use crate::certification::Certification;
use crate::claims::{best_claim, none_claim};
use crate::listing::inputs_of;
use crate::numbers::numbers_are_small;
use sk_base::{Bounds, List, Name};
use sk_cert::{Certificate, Proof, write};
use sk_min_certify::{Certified, certify};
use sk_model::{Choice, Expanded, Input, Pair};
use sk_watch::Watch;
use std::alloc::{AllocError, Global};

// The certificate with these proofs.
fn with_proofs(claim: Certificate, upper: List<Proof>, lower: Option<Proof>) -> Certificate
    ensures { result ≡ with_proofs claim upper lower }
{
    let mut certificate = claim;
    certificate.upper = upper;
    certificate.lower = lower;
    certificate
}

// The text of a certificate.
fn written(alloc: Global, certificate: Certificate) -> Result<Name, AllocError>
    requires { HasForm certificate }
    ensures { IfOk result (λ text. IsCertificate text certificate) }
{
    numbers_are_small(&certificate);
    let text = write(alloc, &certificate)?;
    Ok(text)
}

// Its bytes.
fn text_of(alloc: Global, certificate: Certificate) -> Result<Vec<u8>, AllocError>
    requires { HasForm certificate }
    ensures { IfOk result (λ out. IsCertificate out.items certificate) }
{
    let text = written(alloc, certificate)?;
    let out = Vec::from_slice(alloc, text.as_bytes())?;
    Ok(out)
}

// The certificate of what is known: its proofs are made, and it is written.
fn certification<W: Watch>(
    alloc: Global,
    expanded: &Expanded,
    bounds: &Bounds,
    choice: Option<&Choice>,
    value: u64,
    pairs: &[Pair],
    inputs: &[Input],
    claim: Certificate,
    conflicts: u64,
    watch: &mut W,
) -> Result<Certification, AllocError>
    requires askable { IsAskable expanded.now bounds.now }
    requires honest { Honest expanded.now bounds.now pairs.now }
    requires inputs { inputs.now ≡ inputs_of pairs.now }
    requires known { IsKnown expanded.now bounds.now (option_copied choice) value pairs.now }
    requires claims { Claims expanded.now (option_copied choice) value pairs.now claim }
    ensures is { IfOk result (IsCertification expanded.now bounds.now (option_copied choice.entry) value pairs.now conflicts) }
    ensures lists { IfOk result (ListsPairs pairs.now) }
{
    match certify(
        alloc, expanded, bounds, choice, value, inputs, conflicts, watch,
    )? {
        Certified::Proofs { upper, lower } => {
            let certificate = with_proofs(claim, upper, lower);
            let out = text_of(alloc, certificate)?;
            Ok(Certification::Text { out })
        }
        Certified::Spent {
            query,
            formula,
            log,
        } => Ok(Certification::Spent {
            query,
            formula,
            log,
        }),
    }
}

/// The text of the certificate of a best choice, with its value and the pairs of the search that found it: the completed
/// program, the lines of the completion, and behind them the inputs of the pairs, a proof for each obligation that no input of
/// it speaks against the choice within the value and, where the value is above 0, one that no choice passes the inputs within
/// less. Each formula is put to a solver of its own, which may learn fewer clauses than the budget says; 0 is none. The watcher is told
/// before each.
///
/// # Errors
///
/// Memory is wanting, or what `certify` and `listed` count as that.
pub fn best_certification<W: Watch>(
    alloc: Global,
    expanded: &Expanded,
    bounds: &Bounds,
    choice: &Choice,
    value: u64,
    pairs: &[Pair],
    conflicts: u64,
    watch: &mut W,
) -> Result<Certification, AllocError>
    requires askable { IsAskable expanded.now bounds.now }
    requires few { length expanded.now.sites ≤ 4294967296 }
    requires fits { FillingsFit expanded.now }
    requires honest { Honest expanded.now bounds.now pairs.now }
    requires best { IsBest expanded.now bounds.now choice.now value }
    requires below { NoneBelow expanded.now bounds.now (inputs_of pairs.now) value }
    ensures is { IfOk result (IsCertification expanded.now bounds.now (Some choice.now) value pairs.now conflicts) }
    ensures lists { IfOk result (ListsPairs pairs.now) }
{
    let inputs = inputs_of(alloc, pairs)?;
    let claim = best_claim(
        alloc,
        expanded,
        bounds,
        choice,
        value,
        pairs,
        inputs.as_slice(),
    )?;
    let answer = certification(
        alloc,
        expanded,
        bounds,
        Some(choice),
        value,
        pairs,
        inputs.as_slice(),
        claim,
        conflicts,
        watch,
    )?;
    Ok(answer)
}

/// The text of the certificate that no choice passes the inputs of the pairs, and so none completes: the line that says so, and
/// behind it the inputs and a proof of it. The budget is that of `best_certification`.
///
/// # Errors
///
/// Memory is wanting, or what `certify` and `listed` count as that.
pub fn none_certification<W: Watch>(
    alloc: Global,
    expanded: &Expanded,
    bounds: &Bounds,
    pairs: &[Pair],
    conflicts: u64,
    watch: &mut W,
) -> Result<Certification, AllocError>
    requires askable { IsAskable expanded.now bounds.now }
    requires honest { Honest expanded.now bounds.now pairs.now }
    requires none { (choice : Choice) → IsWanted expanded.now bounds.now (inputs_of pairs.now) None choice → ⊥ }
    ensures is { IfOk result (IsCertification expanded.now bounds.now None 0 pairs.now conflicts) }
    ensures lists { IfOk result (ListsPairs pairs.now) }
{
    let inputs = inputs_of(alloc, pairs)?;
    let claim = none_claim(alloc, expanded, bounds, pairs, inputs.as_slice())?;
    let answer = certification(
        alloc,
        expanded,
        bounds,
        None,
        0,
        pairs,
        inputs.as_slice(),
        claim,
        conflicts,
        watch,
    )?;
    Ok(answer)
}
