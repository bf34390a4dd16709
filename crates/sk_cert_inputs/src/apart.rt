//! Whether an input is listed twice. Words that are put together here are given up where memory is wanting.
ghost use Rattle.std.specs.Prelude.{◌≡◌, ◌++◌, ◌↔◌, ◌∷◌, [], IfOk, IsTrue, OnOk, map, not};
ghost use Rattle.std.specs.BTreeSet.{insert_key};
ghost use Rattle.std.specs.Cmp.Lexicographic.{slice_cmp};
ghost use Rattle.std.specs.List.{flat_map};
ghost use Rattle.std.specs.Ordering.{nat_cmp};
ghost use Rattle.sk_cert_inputs.specs.Inputs.{AreApart};
ghost use Rattle.sk_cert_inputs.specs.Words.{all_new, among, argument_words, scalar_words, words};

use sk_base::List;
use sk_cert::CertInput;
use std::alloc::{AllocError, Global};
use std::collections::BTreeSet;

fn push_scalar(words: &mut Vec<u64>, scalar: i64) -> Result<(), AllocError>
    ensures { OnOk result (words.new.items ≡ words.old.items ++ scalar_words scalar) }
{
    if scalar < 0 {
        words.push(2)?;
        words.push(-(scalar + 1) as u64)?;
        return Ok(());
    }
    words.push(1)?;
    words.push(scalar as u64)?;
    Ok(())
}

fn push_argument(words: &mut Vec<u64>, scalars: &[i64]) -> Result<(), AllocError>
    ensures { OnOk result (words.new.items ≡ words.old.items ++ argument_words scalars.now) }
{
    for scalar in scalars {
        push_scalar(words, *scalar)?;
    }
    words.push(0)?;
    Ok(())
}

fn push_arguments(words: &mut Vec<u64>, args: &[List<i64>]) -> Result<(), AllocError>
    ensures { OnOk result (words.new.items ≡ words.old.items ++ flat_map argument_words args.now) }
{
    for arg in args {
        push_argument(words, arg.as_slice())?;
    }
    Ok(())
}

fn words_of(alloc: Global, input: &CertInput) -> Result<Vec<u64>, AllocError>
    ensures { IfOk result (λ made. made.items ≡ words input.now) }
{
    let mut made = Vec::new(alloc);
    made.push(input.obligation)?;
    push_arguments(&mut made, input.args.as_slice())?;
    Ok(made)
}

// Puts the words of an input beside those that were seen, and tells whether it is new.
fn put(alloc: Global, seen: &mut BTreeSet<Vec<u64>>, input: &CertInput) -> Result<bool, AllocError>
    ensures new { IfOk result (λ new. new ≡ not (among (words input.now) (map (λ key. key.items) seen.old.keys))) }
    ensures seen { OnOk result (map (λ key. key.items) seen.new.keys ≡ insert_key (slice_cmp nat_cmp) (map (λ key. key.items) seen.old.keys) (words input.now)) }
{
    let words = words_of(alloc, input)?;
    let new = seen.insert(words)?;
    Ok(new)
}

fn all_new(alloc: Global, inputs: &[CertInput]) -> Result<bool, AllocError>
    ensures { IfOk result (λ new. new ≡ all_new [] inputs.now) }
{
    let mut seen = BTreeSet::new(alloc);
    for input in inputs {
        if !put(alloc, &mut seen, input)? {
            return Ok(false);
        }
    }
    Ok(true)
}

/// Whether no input stands at two places.
pub fn are_apart(alloc: Global, inputs: &[CertInput]) -> Result<bool, AllocError>
    ensures { IfOk result (λ apart. IsTrue apart ↔ AreApart inputs.now) }
{
    let apart = all_new(alloc, inputs)?;
    Ok(apart)
}
