//! Proofs that no choice passes some inputs.

ghost use Rattle.std.specs.Prelude.{◌≡◌, IfErr, IfOk};
ghost use Rattle.std.specs.Option.{option_copied};
ghost use Rattle.sk_oblig.specs.Formulas.{IsAskable};
ghost use Rattle.sk_oblig_queries.specs.declared.query.Query.TheVariants as query;
ghost use Rattle.sk_min_certify.specs.Certified.{IsLower, IsLowerQuery, NonePassesBelow};
ghost use Rattle.sk_min_certify.specs.Proves.{NoneIsWanted, Proves};
ghost use Rattle.sk_min_certify.specs.Stops.{IsStop};

use crate::proving::proof_of;
use crate::stop::Stop;
use sk_base::{Bounds, List};
use sk_cert::Proof;
use sk_loop_copies::copy_input;
use sk_model::{Choice, Expanded, Input};
use sk_oblig_queries::Query;
use sk_watch::Watch;
use std::alloc::{AllocError, Global};

// Inputs as these.
fn copy_inputs(alloc: Global, inputs: &[Input]) -> Result<List<Input>, AllocError>
    ensures { IfOk result (λ copies. copies ≡ inputs.now) }
{
    let mut copies = List::new(alloc);
    for input in inputs {
        let copy = copy_input(alloc, input)?;
        copies.push(copy)?;
    }
    Ok(copies)
}

// A proof that no choice passes the inputs within a limit.
#[tactic(auto, using(crate::proofs::Below::within))]
fn none_within<W: Watch>(
    alloc: Global,
    expanded: &Expanded,
    bounds: &Bounds,
    inputs: &[Input],
    limit: Option<u64>,
    conflicts: u64,
    watch: &mut W,
) -> Result<Proof, Stop>
    requires askable { IsAskable expanded.now bounds.now }
    requires none { NoneIsWanted expanded.now bounds.now inputs.now limit }
    ensures proves { IfOk result (Proves expanded.now bounds.now (query.Wanted inputs.now limit)) }
    ensures stops { IfErr result (IsStop expanded.now bounds.now (λ q. q ≡ query.Wanted inputs.now limit) conflicts) }
{
    let inputs = copy_inputs(alloc, inputs)?;
    let query = Query::Wanted { inputs, limit };
    let proof = proof_of(alloc, expanded, bounds, query, conflicts, watch)?;
    Ok(proof)
}

// The lower proof, where one is made.
pub(crate) fn lower_proof<W: Watch>(
    alloc: Global,
    expanded: &Expanded,
    bounds: &Bounds,
    choice: Option<&Choice>,
    value: u64,
    inputs: &[Input],
    conflicts: u64,
    watch: &mut W,
) -> Result<Option<Proof>, Stop>
    requires askable { IsAskable expanded.now bounds.now }
    requires none { NonePassesBelow expanded.now bounds.now (option_copied choice) value inputs.now }
    ensures lower { IfOk result (IsLower expanded.now bounds.now (option_copied choice.entry) value inputs.now) }
    ensures stops { IfErr result (IsStop expanded.now bounds.now (IsLowerQuery (option_copied choice.entry) value inputs.now) conflicts) }
{
    match choice {
        None => {
            let proof = none_within(alloc, expanded, bounds, inputs, None, conflicts, watch)?;
            Ok(Some(proof))
        }
        Some(_) => match value.checked_sub(1) {
            None => Ok(None),
            Some(most) => {
                let proof = none_within(
                    alloc,
                    expanded,
                    bounds,
                    inputs,
                    Some(most),
                    conflicts,
                    watch,
                )?;
                Ok(Some(proof))
            }
        },
    }
}
