//! The inputs of pairs.

ghost use Rattle.std.specs.Prelude.{◌≡◌, All, IfOk, map};
ghost use Rattle.sk_loop_laws.specs.Honest.{Honest, inputs_of};
ghost use Rattle.sk_cert.specs.Certificates.{HasScalars};
ghost use Rattle.sk_cert_inputs.specs.Inputs.{as_listed, AreApart};

use sk_base::{Bounds, List};
use sk_cert::CertInput;
use sk_cert_inputs::{listed, listed_again};
use sk_loop_copies::copy_input;
use sk_model::{Expanded, Input, Pair};
use std::alloc::{AllocError, Global};

/// The inputs of pairs.
#[tactic(auto, using(crate::proofs::Inputs::input_steps))]
pub(crate) fn inputs_of(alloc: Global, pairs: &[Pair]) -> Result<List<Input>, AllocError>
    ensures { IfOk result (λ inputs. inputs ≡ inputs_of pairs.now) }
{
    let mut inputs = List::new(alloc);
    for i in 0..pairs.len() {
        let input = copy_input(alloc, &pairs[i].input)?;
        inputs.push(input)?;
    }
    Ok(inputs)
}

// Inputs as a certificate lists them.
fn all_listed(alloc: Global, inputs: &[Input]) -> Result<List<CertInput>, AllocError>
    ensures are { IfOk result (λ list. list ≡ map as_listed inputs.now) }
    ensures scalars { IfOk result (All HasScalars) }
{
    let mut list = List::new(alloc);
    for input in inputs {
        let next = listed(alloc, input)?;
        list.push(next)?;
    }
    Ok(list)
}

/// The inputs of honest pairs as a certificate lists them, where no input stands twice.
pub(crate) fn listed_apart(
    alloc: Global,
    expanded: &Expanded,
    bounds: &Bounds,
    pairs: &[Pair],
    inputs: &[Input],
) -> Result<List<CertInput>, AllocError>
    requires honest { Honest expanded.now bounds.now pairs.now }
    requires inputs { inputs.now ≡ inputs_of pairs.now }
    ensures are { IfOk result (λ list. list ≡ map as_listed (inputs_of pairs.now)) }
    ensures scalars { IfOk result (All HasScalars) }
    ensures apart { IfOk result AreApart }
{
    listed_again();
    let list = all_listed(alloc, inputs)?;
    Ok(list)
}
