//! All proofs of a certificate.

ghost use Rattle.std.specs.Prelude.{◌≡◌, [], Some, All, IfErr, IfOk, IfSome};
ghost use Rattle.std.specs.Option.{option_copied};
ghost use Rattle.sk_model.specs.Inputs.{IsInput};
ghost use Rattle.sk_oblig.specs.Formulas.{IsAskable};
ghost use Rattle.sk_loop_laws.specs.Shown.{Completes};
ghost use Rattle.sk_min_certify.specs.Certified.{AreUpperOf, IsCertified, IsLower, IsPut, IsUpperQueryOf, NonePassesBelow};
ghost use Rattle.sk_min_certify.specs.Stops.{IsStop};

use crate::certified::Certified;
use crate::lower::lower_proof;
use crate::stop::Stop;
use crate::upper::upper_proofs;
use sk_base::{Bounds, List};
use sk_cert::Proof;
use sk_model::{Choice, Expanded, Input};
use sk_watch::Watch;
use std::alloc::{AllocError, Global};

// The upper proofs; none without a choice.
fn upper_of<W: Watch>(
    alloc: Global,
    expanded: &Expanded,
    bounds: &Bounds,
    choice: Option<&Choice>,
    value: u64,
    conflicts: u64,
    watch: &mut W,
) -> Result<List<Proof>, Stop>
    requires askable { IsAskable expanded.now bounds.now }
    requires completes { IfSome (option_copied choice) (Completes expanded.now bounds.now (Some value)) }
    ensures upper { IfOk result (AreUpperOf expanded.now bounds.now (option_copied choice.entry) value) }
    ensures stops { IfErr result (IsStop expanded.now bounds.now (IsUpperQueryOf expanded.now (option_copied choice.entry) value) conflicts) }
{
    match choice {
        None => Ok(List::new(alloc)),
        Some(choice) => {
            let upper = upper_proofs(alloc, expanded, bounds, choice, value, conflicts, watch)?;
            Ok(upper)
        }
    }
}

// The upper proofs and the lower one.
fn proofs<W: Watch>(
    alloc: Global,
    expanded: &Expanded,
    bounds: &Bounds,
    choice: Option<&Choice>,
    value: u64,
    inputs: &[Input],
    conflicts: u64,
    watch: &mut W,
) -> Result<(List<Proof>, Option<Proof>), Stop>
    requires askable { IsAskable expanded.now bounds.now }
    requires completes { IfSome (option_copied choice) (Completes expanded.now bounds.now (Some value)) }
    requires inputs { All (IsInput expanded.now.prog bounds.now) inputs.now }
    requires none { NonePassesBelow expanded.now bounds.now (option_copied choice) value inputs.now }
    ensures upper { IfOk result (λ r. AreUpperOf expanded.now bounds.now (option_copied choice.entry) value r.0) }
    ensures lower { IfOk result (λ r. IsLower expanded.now bounds.now (option_copied choice.entry) value inputs.now r.1) }
    ensures stops { IfErr result (IsStop expanded.now bounds.now (IsPut expanded.now bounds.now (option_copied choice.entry) value inputs.now) conflicts) }
{
    let upper = upper_of(alloc, expanded, bounds, choice, value, conflicts, watch)?;
    let lower = lower_proof(
        alloc, expanded, bounds, choice, value, inputs, conflicts, watch,
    )?;
    Ok((upper, lower))
}

/// Makes the proofs of a certificate of a choice and its value, its greatest cost: one for each obligation that no input
/// of it speaks against the choice within the value and, where the value is above 0, one that no choice passes the inputs
/// within less. Without a choice, one that no choice passes the inputs, and the value does not matter. Each formula is made
/// anew and put to a solver of its own, which may learn fewer clauses than the budget says; 0 is none. The watcher is told before
/// each.
///
/// # Errors
///
/// Memory is wanting, or what `formula` and `refuted` count as that, or there are more obligations than 32 bits number.
pub fn certify<W: Watch>(
    alloc: Global,
    expanded: &Expanded,
    bounds: &Bounds,
    choice: Option<&Choice>,
    value: u64,
    inputs: &[Input],
    conflicts: u64,
    watch: &mut W,
) -> Result<Certified, AllocError>
    requires askable { IsAskable expanded.now bounds.now }
    requires completes { IfSome (option_copied choice) (Completes expanded.now bounds.now (Some value)) }
    requires inputs { All (IsInput expanded.now.prog bounds.now) inputs.now }
    requires none { NonePassesBelow expanded.now bounds.now (option_copied choice) value inputs.now }
    ensures { IfOk result (IsCertified expanded.now bounds.now (option_copied choice.entry) value inputs.now conflicts) }
{
    match proofs(
        alloc, expanded, bounds, choice, value, inputs, conflicts, watch,
    ) {
        Ok((upper, lower)) => Ok(Certified::Proofs { upper, lower }),
        Err(
            Stop::Spent {
                query,
                formula,
                log,
            },
        ) => Ok(Certified::Spent {
            query,
            formula,
            log,
        }),
        Err(Stop::Memory) => Err(AllocError),
    }
}
