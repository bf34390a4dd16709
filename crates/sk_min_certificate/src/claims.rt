//! Certificates without their proofs.

ghost use Rattle.std.specs.Prelude.{◌≡◌, ◌≤◌, length, None, Some, IfOk};
ghost use Rattle.sk_print.specs.Layout.{layout};
ghost use Rattle.sk_model.specs.Fill.{InRange, fill};
ghost use Rattle.sk_min.specs.Formulas.{IsAskable};
ghost use Rattle.sk_loop_laws.specs.Honest.{Honest, inputs_of};
ghost use Rattle.sk_cert.specs.Certificates.{IsProgramText};
ghost use Rattle.sk_min_certificate.specs.Certifications.{FillingsFit};
ghost use Rattle.sk_min_certificate.specs.Claims.{Claims};

use crate::listing::listed_apart;
use sk_base::{Bounds, List, Name};
use sk_cert::{CertInput, Certificate};
use sk_cert_layouts::layouts_are_program_texts;
use sk_holes::{FillFault, fill};
use sk_limits::never;
use sk_loop_copies::copy_choice;
use sk_model::{Choice, Expanded, Input, Pair};
use sk_print::print;
use std::alloc::{AllocError, Global};

// The layout of a filling, which is a text that a certificate may hold.
fn layout_of(
    alloc: Global,
    expanded: &Expanded,
    bounds: &Bounds,
    choice: &Choice,
) -> Result<Name, AllocError>
    requires askable { IsAskable expanded.now bounds.now }
    requires few { length expanded.now.sites ≤ 4294967296 }
    requires fits { FillingsFit expanded.now }
    requires range { InRange expanded.now choice.now }
    ensures is { IfOk result (λ text. text ≡ layout (fill expanded.now choice.now)) }
    ensures program { IfOk result IsProgramText }
{
    layouts_are_program_texts();
    match fill(alloc, expanded, choice) {
        Ok(filled) => {
            let printed = print(alloc, &filled);
            drop(filled);
            let text = printed?;
            Ok(Name::from_vec(text))
        }
        Err(FillFault::Memory) => Err(AllocError),
        Err(_) => Err(never()),
    }
}

// A certificate of these parts, without proofs.
fn claim_of(
    alloc: Global,
    text: Name,
    choice: Option<Choice>,
    value: u64,
    inputs: List<CertInput>,
) -> Certificate
    ensures version { result.version ≡ 2 }
    ensures text { result.text ≡ text }
    ensures choice { result.choice ≡ choice }
    ensures value { result.value ≡ value }
    ensures inputs { result.inputs ≡ inputs }
{
    Certificate {
        version: 2,
        text,
        choice,
        value,
        inputs,
        upper: List::new(alloc),
        lower: None,
    }
}

/// What a certificate says of a choice and its value.
pub(crate) fn best_claim(
    alloc: Global,
    expanded: &Expanded,
    bounds: &Bounds,
    choice: &Choice,
    value: u64,
    pairs: &[Pair],
    inputs: &[Input],
) -> Result<Certificate, AllocError>
    requires askable { IsAskable expanded.now bounds.now }
    requires few { length expanded.now.sites ≤ 4294967296 }
    requires fits { FillingsFit expanded.now }
    requires range { InRange expanded.now choice.now }
    requires honest { Honest expanded.now bounds.now pairs.now }
    requires inputs { inputs.now ≡ inputs_of pairs.now }
    ensures { IfOk result (Claims expanded.now (Some choice.now) value pairs.now) }
{
    let text = layout_of(alloc, expanded, bounds, choice)?;
    let inputs = listed_apart(alloc, expanded, bounds, pairs, inputs)?;
    let choice = copy_choice(alloc, choice)?;
    let claim = claim_of(alloc, text, Some(choice), value, inputs);
    Ok(claim)
}

/// What a certificate says where there is no choice.
pub(crate) fn none_claim(
    alloc: Global,
    expanded: &Expanded,
    bounds: &Bounds,
    pairs: &[Pair],
    inputs: &[Input],
) -> Result<Certificate, AllocError>
    requires honest { Honest expanded.now bounds.now pairs.now }
    requires inputs { inputs.now ≡ inputs_of pairs.now }
    ensures { IfOk result (Claims expanded.now None 0 pairs.now) }
{
    let inputs = listed_apart(alloc, expanded, bounds, pairs, inputs)?;
    let text = Name::from_vec(Vec::new(alloc));
    let claim = claim_of(alloc, text, None, 0, inputs);
    Ok(claim)
}
