//! Whether a certificate is right.

ghost use Rattle.std.specs.Prelude.{◌≤◌, length, IfErr, IfOk, OnOk};
ghost use Rattle.sk_oblig.specs.Formulas.{IsAskable};
ghost use Rattle.sk_cert.specs.Certificates.{HasForm};
ghost use Rattle.sk_check_laws.specs.Parts.{Certifies};
ghost use Rattle.sk_check.specs.Verdicts.{IsStop, IsVerdict};

use crate::formulas::test_formulas;
use crate::parts::{test_inputs, test_lower, test_text, test_upper, test_values};
use crate::stop::Stop;
use crate::verdict::Verdict;
use sk_base::Bounds;
use sk_cert::Certificate;
use sk_model::Expanded;
use std::alloc::{AllocError, Global};

// Each part holds, looked at in their order.
fn test_parts(
    alloc: Global,
    expanded: &Expanded,
    bounds: &Bounds,
    certificate: &Certificate,
) -> Result<(), Stop>
    requires askable { IsAskable expanded.now bounds.now }
    requires few { length expanded.now.sites ≤ 4294967296 }
    requires form { HasForm certificate.now }
    ensures certifies { OnOk result (Certifies expanded.now bounds.now certificate.now) }
    ensures stops { IfErr result (IsStop expanded.now bounds.now certificate.now) }
{
    let text = test_values(alloc, expanded, bounds, certificate)?;
    let inputs = test_inputs(alloc, expanded, bounds, certificate)?;
    test_upper(alloc, expanded, bounds, certificate)?;
    test_lower(alloc, expanded, bounds, certificate)?;
    test_text(expanded, bounds, certificate, &text)?;
    test_formulas(alloc, expanded, bounds, certificate, inputs)?;
    Ok(())
}

/// Whether a certificate is right. Its parts are looked at in their order, and it is rejected for the first that does not
/// hold: its values, its inputs, the refutations of its upper parts, that of its lower part, its text, its formulas. A
/// formula is made anew for the query of each part. Where it is another than the listed one, the certificate is rejected,
/// and it is handed out.
///
/// # Errors
///
/// Memory is wanting, or what `formula` counts as that; a formula or its log names a variable past 65,536, past all names and past all
/// literals; or there are more obligations than 32 bits number.
pub fn accepts(
    alloc: Global,
    expanded: &Expanded,
    bounds: &Bounds,
    certificate: &Certificate,
) -> Result<Verdict, AllocError>
    requires askable { IsAskable expanded.now bounds.now }
    requires few { length expanded.now.sites ≤ 4294967296 }
    requires form { HasForm certificate.now }
    ensures { IfOk result (IsVerdict expanded.now bounds.now certificate.now) }
{
    match test_parts(alloc, expanded, bounds, certificate) {
        Ok(()) => Ok(Verdict::Accepted),
        Err(Stop::Rejected(reason)) => Ok(Verdict::Rejected(reason)),
        Err(Stop::Memory) => Err(AllocError),
    }
}
