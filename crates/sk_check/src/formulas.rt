//! Whether each formula of a certificate is the one that is made for its query.

ghost use Rattle.std.specs.Prelude.{◌≡◌, ◌≢◌, length, IfErr, IfOk, MatchOption, OnOk, slice_get, Some};
ghost use Rattle.sk_model.specs.declared.expanded.Choice.{Choice as AChoice};
ghost use Rattle.sk_oblig_queries.specs.Queries.{AsksFor};
ghost use Rattle.sk_oblig.specs.Formulas.{IsAskable, IsAsked};
ghost use Rattle.sk_cert.specs.Certificates.{HasForm};
ghost use Rattle.sk_cert_inputs.specs.Inputs.{AreListed};
ghost use Rattle.sk_check_laws.specs.Parts.{HasFormulas};
ghost use Rattle.sk_check.specs.Verdicts.{AskAbove, AsksAt, AsksBelow, FiveHold, IsStop};

use crate::queries::{lower_query, upper_query};
use crate::same::is_same;
use crate::stop::Stop;
use sk_base::{Bounds, List};
use sk_cert::{Certificate, Proof};
use sk_check_laws::Reason;
use sk_cnf::Encoded;
use sk_model::{Choice, Expanded, Input};
use sk_oblig::formula;
use sk_oblig_queries::Query;
use std::alloc::{AllocError, Global};

// The formula that is made for a query, where it is another than the listed one.
fn other_formula(
    alloc: Global,
    expanded: &Expanded,
    bounds: &Bounds,
    query: &Query,
    listed: &Encoded,
) -> Result<Option<Encoded>, AllocError>
    requires askable { IsAskable expanded.now bounds.now }
    requires asked { IsAsked expanded.now query.now }
    ensures { IfOk result (λ found. MatchOption found (AsksFor listed.now expanded.now bounds.now query.now) (λ own. AsksFor own expanded.now bounds.now query.now × (own ≢ listed.now))) }
{
    let own = formula(alloc, expanded, bounds, query)?;
    let same = is_same(&own, listed);
    if same {
        return Ok(None);
    }
    Ok(Some(own))
}

// The formula of the upper part at a place asks for its query.
fn test_upper_formula(
    alloc: Global,
    expanded: &Expanded,
    bounds: &Bounds,
    certificate: &Certificate,
    choice: &Choice,
    place: usize,
    part: &Proof,
) -> Result<(), Stop>
    requires askable { IsAskable expanded.now bounds.now }
    requires form { HasForm certificate.now }
    requires five { FiveHold expanded.now bounds.now certificate.now }
    requires choice { certificate.now.choice ≡ Some choice.now }
    requires part { slice_get certificate.now.upper place ≡ Some part.now }
    ensures asks { OnOk result (AsksAt expanded.now bounds.now certificate.now choice.now place) }
    ensures stops { IfErr result (IsStop expanded.now bounds.now certificate.now) }
{
    let query = upper_query(alloc, certificate.version, choice, certificate.value, place)?;
    match other_formula(alloc, expanded, bounds, &query, &part.formula)? {
        Some(own) => Err(Stop::Rejected(Reason::Formula { own })),
        None => Ok(()),
    }
}

// The formula of each upper part does.
fn test_upper_formulas(
    alloc: Global,
    expanded: &Expanded,
    bounds: &Bounds,
    certificate: &Certificate,
    choice: &Choice,
) -> Result<(), Stop>
    requires askable { IsAskable expanded.now bounds.now }
    requires form { HasForm certificate.now }
    requires five { FiveHold expanded.now bounds.now certificate.now }
    requires choice { certificate.now.choice ≡ Some choice.now }
    ensures asks { OnOk result (AskAbove expanded.now bounds.now certificate.now choice.now (length certificate.now.upper)) }
    ensures stops { IfErr result (IsStop expanded.now bounds.now certificate.now) }
{
    for (place, part) in certificate.upper.as_slice().iter().enumerate() {
        test_upper_formula(alloc, expanded, bounds, certificate, choice, place, part)?;
    }
    Ok(())
}

// The formula of each upper part does, where there is a choice.
#[tactic(auto, using(crate::proofs::Asked::above_none))]
fn test_above(
    alloc: Global,
    expanded: &Expanded,
    bounds: &Bounds,
    certificate: &Certificate,
) -> Result<(), Stop>
    requires askable { IsAskable expanded.now bounds.now }
    requires form { HasForm certificate.now }
    requires five { FiveHold expanded.now bounds.now certificate.now }
    ensures asks { OnOk result ((a : AChoice) → certificate.now.choice ≡ Some a → AskAbove expanded.now bounds.now certificate.now a (length certificate.now.upper)) }
    ensures stops { IfErr result (IsStop expanded.now bounds.now certificate.now) }
{
    match &certificate.choice {
        None => Ok(()),
        Some(choice) => {
            test_upper_formulas(alloc, expanded, bounds, certificate, choice)?;
            Ok(())
        }
    }
}

// The formula of the lower part asks for its query.
fn test_lower_part(
    alloc: Global,
    expanded: &Expanded,
    bounds: &Bounds,
    certificate: &Certificate,
    part: &Proof,
    inputs: List<Input>,
) -> Result<(), Stop>
    requires askable { IsAskable expanded.now bounds.now }
    requires five { FiveHold expanded.now bounds.now certificate.now }
    requires listed { AreListed expanded.now.prog bounds.now certificate.now.inputs inputs }
    requires part { certificate.now.lower ≡ Some part.now }
    ensures asks { OnOk result (AsksBelow expanded.now bounds.now certificate.now inputs) }
    ensures stops { IfErr result (IsStop expanded.now bounds.now certificate.now) }
{
    let query = lower_query(certificate, inputs);
    match other_formula(alloc, expanded, bounds, &query, &part.formula)? {
        Some(own) => Err(Stop::Rejected(Reason::Formula { own })),
        None => Ok(()),
    }
}

// That of the lower part does, where there is one.
#[tactic(auto, using(crate::proofs::Asked::below_none))]
fn test_below(
    alloc: Global,
    expanded: &Expanded,
    bounds: &Bounds,
    certificate: &Certificate,
    inputs: List<Input>,
) -> Result<(), Stop>
    requires askable { IsAskable expanded.now bounds.now }
    requires five { FiveHold expanded.now bounds.now certificate.now }
    requires listed { AreListed expanded.now.prog bounds.now certificate.now.inputs inputs }
    ensures asks { OnOk result (AsksBelow expanded.now bounds.now certificate.now inputs) }
    ensures stops { IfErr result (IsStop expanded.now bounds.now certificate.now) }
{
    match &certificate.lower {
        None => Ok(()),
        Some(part) => {
            test_lower_part(alloc, expanded, bounds, certificate, part, inputs)?;
            Ok(())
        }
    }
}

/// Each formula asks for its query.
pub(crate) fn test_formulas(
    alloc: Global,
    expanded: &Expanded,
    bounds: &Bounds,
    certificate: &Certificate,
    inputs: List<Input>,
) -> Result<(), Stop>
    requires askable { IsAskable expanded.now bounds.now }
    requires form { HasForm certificate.now }
    requires five { FiveHold expanded.now bounds.now certificate.now }
    requires listed { AreListed expanded.now.prog bounds.now certificate.now.inputs inputs }
    ensures formulas { OnOk result (HasFormulas expanded.now bounds.now certificate.now) }
    ensures stops { IfErr result (IsStop expanded.now bounds.now certificate.now) }
{
    test_above(alloc, expanded, bounds, certificate)?;
    test_below(alloc, expanded, bounds, certificate, inputs)?;
    Ok(())
}
