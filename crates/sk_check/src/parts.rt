//! The parts of a certificate but its formulas.

ghost use Rattle.std.specs.Prelude.{◌≡◌, ◌↔◌, ◌≤◌, length, IfErr, IfOk, IfSome, IsTrue, MatchOption, OnOk};
ghost use Rattle.sk_print.specs.Layout.{layout};
ghost use Rattle.sk_model.specs.Fill.{InRange, fill};
ghost use Rattle.sk_model.specs.Obligations.{obligations};
ghost use Rattle.sk_oblig.specs.Formulas.{IsAskable};
ghost use Rattle.sk_cert_inputs.specs.Inputs.{AreListed};
ghost use Rattle.sk_check_laws.specs.Parts.{HasInputs, HasLayout, HasLower, HasUpper, HasValues, is_layout, Refuting};
ghost use Rattle.sk_check.specs.Verdicts.{IsStop};

use crate::refuting::{are_refuted, is_refuted};
use crate::stop::Stop;
use sk_base::{Bounds, List, Name};
use sk_cert::{Certificate, Proof};
use sk_cert_inputs::{are_apart, inputs_listed};
use sk_check_laws::Reason;
use sk_holes::{FillFault, fill};
use sk_model::{Choice, Expanded, Input};
use sk_oblig_queries::obligations;
use sk_print::print;
use std::alloc::{AllocError, Global};

// The layout of the filling; none where the choice is out of range.
#[tactic(auto, using(crate::proofs::Rejecting::ranges))]
fn layout_of(
    alloc: Global,
    expanded: &Expanded,
    bounds: &Bounds,
    choice: &Choice,
) -> Result<Option<Name>, AllocError>
    requires askable { IsAskable expanded.now bounds.now }
    requires few { length expanded.now.sites ≤ 4294967296 }
    ensures { IfOk result (λ found. MatchOption found (InRange expanded.now choice.now → ⊥) (λ text. InRange expanded.now choice.now × (text ≡ layout (fill expanded.now choice.now)))) }
{
    match fill(alloc, expanded, choice) {
        Ok(filled) => {
            let printed = print(alloc, &filled);
            drop(filled);
            let text = printed?;
            Ok(Some(Name::from_vec(text)))
        }
        Err(FillFault::WrongLength) => Ok(None),
        Err(FillFault::OutOfRange { .. }) => Ok(None),
        Err(FillFault::Memory) => Err(AllocError),
    }
}

/// Its values are one for each site, each below its site's size. Hands out the text that it is to have.
pub(crate) fn test_values(
    alloc: Global,
    expanded: &Expanded,
    bounds: &Bounds,
    certificate: &Certificate,
) -> Result<Name, Stop>
    requires askable { IsAskable expanded.now bounds.now }
    requires few { length expanded.now.sites ≤ 4294967296 }
    ensures values { OnOk result (HasValues expanded.now bounds.now certificate.now) }
    ensures text { IfOk result (λ text. is_layout expanded.now bounds.now certificate.now certificate.now.choice text) }
    ensures stops { IfErr result (IsStop expanded.now bounds.now certificate.now) }
{
    match &certificate.choice {
        None => Ok(Name::from_vec(Vec::new(alloc))),
        Some(choice) => match layout_of(alloc, expanded, bounds, choice)? {
            Some(text) => Ok(text),
            None => Err(Stop::Rejected(Reason::Values)),
        },
    }
}

/// Its inputs are inputs of the program, and none stands twice.
pub(crate) fn test_inputs(
    alloc: Global,
    expanded: &Expanded,
    bounds: &Bounds,
    certificate: &Certificate,
) -> Result<List<Input>, Stop>
    requires values { HasValues expanded.now bounds.now certificate.now }
    ensures inputs { OnOk result (HasInputs expanded.now bounds.now certificate.now) }
    ensures listed { IfOk result (AreListed expanded.now.prog bounds.now certificate.now.inputs) }
    ensures stops { IfErr result (IsStop expanded.now bounds.now certificate.now) }
{
    let listed = certificate.inputs.as_slice();
    let apart = are_apart(alloc, listed)?;
    if !apart {
        return Err(Stop::Rejected(Reason::Inputs));
    }
    match inputs_listed(alloc, &expanded.prog, bounds, listed)? {
        Some(inputs) => Ok(inputs),
        None => Err(Stop::Rejected(Reason::Inputs)),
    }
}

// Whether there are as many upper parts as obligations, where there is a choice and the version is 2.
fn are_counted(
    alloc: Global,
    expanded: &Expanded,
    certificate: &Certificate,
) -> Result<bool, AllocError>
    ensures { IfOk result (λ counted. IsTrue counted ↔ IfSome certificate.now.choice (λ a. certificate.now.version ≡ 2 → length certificate.now.upper ≡ length (obligations expanded.now.prog))) }
{
    match &certificate.choice {
        None => Ok(true),
        Some(_) => {
            if certificate.version != 2 {
                return Ok(true);
            }
            let all = obligations(alloc, &expanded.prog)?;
            Ok(certificate.upper.len() == all.len())
        }
    }
}

/// Each upper part refutes its formula, and there are as many as there are to be.
pub(crate) fn test_upper(
    alloc: Global,
    expanded: &Expanded,
    bounds: &Bounds,
    certificate: &Certificate,
) -> Result<(), Stop>
    requires values { HasValues expanded.now bounds.now certificate.now }
    requires inputs { HasInputs expanded.now bounds.now certificate.now }
    ensures upper { OnOk result (HasUpper expanded.now bounds.now certificate.now) }
    ensures stops { IfErr result (IsStop expanded.now bounds.now certificate.now) }
{
    let counted = are_counted(alloc, expanded, certificate)?;
    if !counted {
        return Err(Stop::Rejected(Reason::Upper));
    }
    let upper = certificate.upper.as_slice();
    let refuted = are_refuted(alloc, upper)?;
    if !refuted {
        return Err(Stop::Rejected(Reason::Upper));
    }
    Ok(())
}

// Whether the lower part refutes its formula, where there is one.
fn is_lower_refuted(alloc: Global, lower: &Option<Proof>) -> Result<bool, AllocError>
    ensures { IfOk result (λ refuted. IsTrue refuted ↔ IfSome lower.now Refuting) }
{
    match lower {
        None => Ok(true),
        Some(proof) => {
            let refuted = is_refuted(alloc, proof)?;
            Ok(refuted)
        }
    }
}

/// The lower part, where there is one, refutes its formula.
pub(crate) fn test_lower(
    alloc: Global,
    expanded: &Expanded,
    bounds: &Bounds,
    certificate: &Certificate,
) -> Result<(), Stop>
    requires values { HasValues expanded.now bounds.now certificate.now }
    requires inputs { HasInputs expanded.now bounds.now certificate.now }
    requires upper { HasUpper expanded.now bounds.now certificate.now }
    ensures lower { OnOk result (HasLower expanded.now bounds.now certificate.now) }
    ensures stops { IfErr result (IsStop expanded.now bounds.now certificate.now) }
{
    let refuted = is_lower_refuted(alloc, &certificate.lower)?;
    if !refuted {
        return Err(Stop::Rejected(Reason::Lower));
    }
    Ok(())
}

/// Its text is the one that it is to have.
pub(crate) fn test_text(
    expanded: &Expanded,
    bounds: &Bounds,
    certificate: &Certificate,
    text: &Name,
) -> Result<(), Stop>
    requires values { HasValues expanded.now bounds.now certificate.now }
    requires inputs { HasInputs expanded.now bounds.now certificate.now }
    requires upper { HasUpper expanded.now bounds.now certificate.now }
    requires lower { HasLower expanded.now bounds.now certificate.now }
    requires text { is_layout expanded.now bounds.now certificate.now certificate.now.choice text.now }
    ensures layout { OnOk result (HasLayout expanded.now bounds.now certificate.now) }
    ensures stops { IfErr result (IsStop expanded.now bounds.now certificate.now) }
{
    let bytes = text.as_bytes();
    let same = certificate.text.is(bytes);
    if !same {
        return Err(Stop::Rejected(Reason::Text));
    }
    Ok(())
}
