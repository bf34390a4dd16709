//! The summary of the completion of the sketch of a line `self`.

ghost use Rattle.std.specs.Prelude.{◌≡◌, ◌++◌, ◌≤◌, codes, decimal, length, IfOk, OnOk};
ghost use Rattle.sk_model.specs.Steps.{steps};
ghost use Rattle.sk_app_texts.specs.SelfTexts.{summary_of, self_text};

use sk_base::{Bounds, push_number};
use sk_expand_sizes::sizes;
use sk_limits::never;
use sk_model::Expanded;
use std::alloc::{AllocError, Global};

/// The steps of the runs of an expansion within the limits of sizes.
fn steps(alloc: Global, expanded: &Expanded, bounds: &Bounds) -> Result<u64, AllocError>
    ensures { IfOk result (λ count. count ≡ steps bounds.now expanded.now) }
{
    match sizes(alloc, expanded, bounds) {
        Ok(found) => Ok(u64::from(found.steps)),
        Err(_) => Err(never()),
    }
}

/// Appends a line of a word and a number.
fn push_line(out: &mut Vec<u8>, word: &[u8], number: u64) -> Result<(), AllocError>
    ensures { OnOk result (out.new.items ≡ out.old.items ++ word.now ++ decimal number ++ codes "\n") }
{
    out.extend_from_slice(word)?;
    push_number(out, number)?;
    out.push(b'\n')?;
    Ok(())
}

/// A summary of these numbers.
fn summary(
    alloc: Global,
    n: u32,
    functions: u64,
    sites: u64,
    total: u64,
    value: u64,
) -> Result<Vec<u8>, AllocError>
    ensures { IfOk result (λ out. out.items ≡ summary_of n functions sites total value) }
{
    let mut out = Vec::new(alloc);
    push_line(&mut out, b"self ", u64::from(n))?;
    push_line(&mut out, b"functions ", functions)?;
    push_line(&mut out, b"sites ", sites)?;
    push_line(&mut out, b"steps ", total)?;
    push_line(&mut out, b"value ", value)?;
    out.extend_from_slice(b"status 0\n")?;
    Ok(out)
}

/// The summary of the expansion of the sketch with this number, which is completed with this value.
///
/// # Errors
///
/// Memory is wanting; runs of more steps than there may be, which no text that is taken has, count as that.
pub fn self_text(
    alloc: Global,
    n: u32,
    bounds: &Bounds,
    expanded: &Expanded,
    value: u64,
) -> Result<Vec<u8>, AllocError>
    ensures { IfOk result (λ out. out.items ≡ self_text n bounds.now expanded.now value) }
{
    let total = steps(alloc, expanded, bounds)?;
    let functions = expanded.prog.funs.len() as u64;
    let sites = expanded.sites.len() as u64;
    let out = summary(alloc, n, functions, sites, total, value)?;
    Ok(out)
}
