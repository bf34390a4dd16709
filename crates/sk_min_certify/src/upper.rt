//! Proofs that a choice completes.

ghost use Rattle.std.specs.Prelude.{◌≡◌, ◌<◌, Some, length, IfErr, IfOk};
ghost use Rattle.sk_model.specs.Obligations.{obligations};
ghost use Rattle.sk_oblig.specs.Formulas.{IsAskable};
ghost use Rattle.sk_oblig_queries.specs.declared.query.Query.TheVariants as query;
ghost use Rattle.sk_loop_laws.specs.Shown.{Completes};
ghost use Rattle.sk_min_certify.specs.Certified.{AreUpper, IsUpperQuery};
ghost use Rattle.sk_min_certify.specs.Proves.{Proves};
ghost use Rattle.sk_min_certify.specs.Stops.{IsStop};

use crate::proving::proof_of;
use crate::stop::Stop;
use sk_base::{Bounds, List};
use sk_cert::Proof;
use sk_limits::number_of;
use sk_loop_copies::copy_choice;
use sk_model::{Choice, Expanded};
use sk_oblig_queries::{Query, obligations};
use sk_watch::Watch;
use std::alloc::{AllocError, Global};

// A proof that no input of the obligation at a place speaks against the choice.
#[tactic(auto, using(crate::proofs::Above::above))]
fn upper_proof<W: Watch>(
    alloc: Global,
    expanded: &Expanded,
    bounds: &Bounds,
    choice: &Choice,
    value: u64,
    place: usize,
    conflicts: u64,
    watch: &mut W,
) -> Result<Proof, Stop>
    requires askable { IsAskable expanded.now bounds.now }
    requires completes { Completes expanded.now bounds.now (Some value) choice.now }
    requires place { place < length (obligations expanded.now.prog) }
    ensures proves { IfOk result (Proves expanded.now bounds.now (query.BadAt choice.now place value)) }
    ensures stops { IfErr result (IsStop expanded.now bounds.now (IsUpperQuery expanded.now choice.now value) conflicts) }
{
    let obligation = number_of(place)?;
    let copy = copy_choice(alloc, choice)?;
    let query = Query::BadAt {
        choice: copy,
        obligation,
        limit: value,
    };
    let proof = proof_of(alloc, expanded, bounds, query, conflicts, watch)?;
    Ok(proof)
}

// A proof for each obligation, in order.
#[tactic(auto, using(crate::proofs::Above::firsts))]
pub(crate) fn upper_proofs<W: Watch>(
    alloc: Global,
    expanded: &Expanded,
    bounds: &Bounds,
    choice: &Choice,
    value: u64,
    conflicts: u64,
    watch: &mut W,
) -> Result<List<Proof>, Stop>
    requires askable { IsAskable expanded.now bounds.now }
    requires completes { Completes expanded.now bounds.now (Some value) choice.now }
    ensures upper { IfOk result (AreUpper expanded.now bounds.now choice.now value) }
    ensures stops { IfErr result (IsStop expanded.now bounds.now (IsUpperQuery expanded.now choice.now value) conflicts) }
{
    let count = obligations(alloc, &expanded.prog)?.len();
    let mut upper = List::new(alloc);
    for place in 0..count {
        let proof = upper_proof(
            alloc, expanded, bounds, choice, value, place, conflicts, watch,
        )?;
        upper.push(proof)?;
    }
    Ok(upper)
}
