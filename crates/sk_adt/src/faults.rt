//! What is wrong with the names of a text whose forms are right.
ghost use Rattle.std.specs.Prelude.{◌≡◌, ◌++◌, [], map, IfOk, OnOk, option_map};
ghost use Rattle.sk_adt.specs.declared.algebraic.AdtFault.TheVariants as fault;
ghost use Rattle.sk_adt.specs.Words.{known_in};
ghost use Rattle.sk_adt.specs.Faults.{sooner, soonest, at_word, first_again, declared_of, declared_in, fields_again, twice, type_of, same_type, first_stray, stray, no_variant, crowded, crowded_variant, crowded_type, too_many, or_fault, fault_of};

use crate::algebraic::AdtFault;
use crate::form::{Known, TypeWords, VariantWords, Word};
use crate::words::{copy_word, variant_named};
use sk_base::{List, Name};
use sk_types_names::Listed;
use std::alloc::{AllocError, Global};

// No type has more variants, and no variant more fields.
const MOST: usize = 16;

// The first of two bytes, where there are any.
fn sooner(a: Option<u32>, b: Option<u32>) -> Option<u32>
    ensures { result ≡ sooner a b }
{
    match (a, b) {
        (None, b) => b,
        (Some(a), None) => Some(a),
        (Some(a), Some(b)) => Some(if a < b { a } else { b }),
    }
}

// The first byte of the first word whose name stands before it.
#[tactic(auto, unfolding(crate::specs::Faults::first_again))]
fn first_again(alloc: Global, words: &[Word]) -> Result<Option<u32>, AllocError>
    ensures { IfOk result (λ at. at ≡ first_again [] words.now) }
{
    let mut seen = Listed::new(alloc);
    for word in words {
        if seen.place(&word.name).is_some() {
            return Ok(Some(word.span.from));
        }
        seen.push(copy_word(alloc, word)?)?;
    }
    Ok(None)
}

// Appends the name of a type and those of its variants.
fn push_declared(alloc: Global, out: &mut List<Word>, ty: &TypeWords) -> Result<(), AllocError>
    ensures { OnOk result (out.new ≡ out.old ++ declared_of ty.now) }
{
    out.push(copy_word(alloc, &ty.word)?)?;
    push_variants(alloc, out, ty.variants.as_slice())?;
    Ok(())
}

// Appends the names of variants.
fn push_variants(
    alloc: Global,
    out: &mut List<Word>,
    variants: &[VariantWords],
) -> Result<(), AllocError>
    ensures { OnOk result (out.new ≡ out.old ++ map (λ v. v.word) variants.now) }
{
    for variant in variants {
        out.push(copy_word(alloc, &variant.word)?)?;
    }
    Ok(())
}

// The names of types and variants.
fn declared_in(alloc: Global, types: &[TypeWords]) -> Result<List<Word>, AllocError>
    ensures { IfOk result (λ words. words ≡ declared_in types.now) }
{
    let mut out = List::new(alloc);
    for ty in types {
        push_declared(alloc, &mut out, ty)?;
    }
    Ok(out)
}

// Where a name stands twice among the fields of a variant.
#[tactic(auto, using(crate::proofs::Sooner::sooner_assoc, crate::proofs::Sooner::sooner_none))]
fn fields_again(alloc: Global, ty: &TypeWords) -> Result<Option<u32>, AllocError>
    ensures { IfOk result (λ at. at ≡ fields_again ty.now) }
{
    let mut best = None;
    for variant in ty.variants.as_slice() {
        best = sooner(best, first_again(alloc, variant.fields.as_slice())?);
    }
    Ok(best)
}

// The same, of all types.
#[tactic(auto, using(crate::proofs::Sooner::sooner_assoc, crate::proofs::Sooner::sooner_none))]
fn all_fields_again(alloc: Global, types: &[TypeWords]) -> Result<Option<u32>, AllocError>
    ensures { IfOk result (λ at. at ≡ soonest (map fields_again types.now)) }
{
    let mut best = None;
    for ty in types {
        best = sooner(best, fields_again(alloc, ty)?);
    }
    Ok(best)
}

// Where a name stands twice among the cases of a switch.
#[tactic(auto, using(crate::proofs::Sooner::sooner_assoc, crate::proofs::Sooner::sooner_none))]
fn cases_again(alloc: Global, switches: &[List<Word>]) -> Result<Option<u32>, AllocError>
    ensures { IfOk result (λ at. at ≡ soonest (map (first_again []) switches.now)) }
{
    let mut best = None;
    for cases in switches {
        best = sooner(best, first_again(alloc, cases.as_slice())?);
    }
    Ok(best)
}

// Where a name stands twice.
fn twice(
    alloc: Global,
    types: &[TypeWords],
    switches: &[List<Word>],
) -> Result<Option<u32>, AllocError>
    ensures { IfOk result (λ at. at ≡ twice types.now switches.now) }
{
    let declared = declared_in(alloc, types)?;
    let names = first_again(alloc, declared.as_slice())?;
    let fields = all_fields_again(alloc, types)?;
    let cases = cases_again(alloc, switches)?;
    Ok(sooner(names, sooner(fields, cases)))
}

// The name of the type of a variant.
fn type_of(variant: Option<&Known>) -> Option<&Name>
    ensures { option_map (λ x. x.now) result ≡ type_of (option_map (λ k. k.now) variant.entry) }
{
    match variant {
        None => None,
        Some(known) => Some(&known.ty),
    }
}

// Whether both are there and are the same.
fn same_type(a: Option<&Name>, b: Option<&Name>) -> bool
    ensures { result ≡ same_type (option_map (λ x. x.now) a.entry) (option_map (λ x. x.now) b.entry) }
{
    match (a, b) {
        (Some(a), Some(b)) => a.as_bytes() == b.as_bytes(),
        _ => false,
    }
}

// The first byte of the first word that names no variant of this type.
#[tactic(auto, unfolding(crate::specs::Faults::first_stray))]
fn first_stray(known: &Listed<Known>, ty: Option<&Name>, words: &[Word]) -> Option<u32>
    ensures { result ≡ first_stray known.now (option_map (λ x. x.now) ty.entry) words.now }
{
    for word in words {
        if !same_type(ty, type_of(variant_named(known, &word.name))) {
            return Some(word.span.from);
        }
    }
    None
}

// The first byte of the first case that names no variant, or one of another type than the first.
#[tactic(auto, unfolding(crate::specs::Faults::stray))]
fn stray(known: &Listed<Known>, words: &[Word]) -> Option<u32>
    ensures { result ≡ stray known.now words.now }
{
    match words.split_first() {
        None => None,
        Some((first, _)) => first_stray(known, type_of(variant_named(known, &first.name)), words),
    }
}

// The same, of all switches.
#[tactic(auto, using(crate::proofs::Sooner::sooner_assoc, crate::proofs::Sooner::sooner_none))]
fn no_variant(known: &Listed<Known>, switches: &[List<Word>]) -> Option<u32>
    ensures { result ≡ no_variant known.now switches.now }
{
    let mut best = None;
    for cases in switches {
        best = sooner(best, stray(known, cases.as_slice()));
    }
    best
}

// The first byte of a word that has too much.
fn crowded(word: &Word, count: usize) -> Option<u32>
    ensures { result ≡ crowded word.now count }
{
    if MOST < count {
        Some(word.span.from)
    } else {
        None
    }
}

// Where a type has more than 16 variants, or a variant of it more than 16 fields.
#[tactic(auto, using(crate::proofs::Sooner::sooner_assoc, crate::proofs::Sooner::sooner_none))]
fn crowded_type(ty: &TypeWords) -> Option<u32>
    ensures { result ≡ crowded_type ty.now }
{
    let mut best = crowded(&ty.word, ty.variants.len());
    for variant in ty.variants.as_slice() {
        best = sooner(best, crowded(&variant.word, variant.fields.len()));
    }
    best
}

// The same, of all types.
#[tactic(auto, using(crate::proofs::Sooner::sooner_assoc, crate::proofs::Sooner::sooner_none))]
fn too_many(types: &[TypeWords]) -> Option<u32>
    ensures { result ≡ too_many types.now }
{
    let mut best = None;
    for ty in types {
        best = sooner(best, crowded_type(ty));
    }
    best
}

/// The first fault of the names, where there is one. Want of memory is the only error.
pub(crate) fn fault_of(
    alloc: Global,
    types: &[TypeWords],
    known: &Listed<Known>,
    switches: &[List<Word>],
) -> Result<Option<AdtFault>, AllocError>
    requires { known.now ≡ known_in types.now }
    ensures { IfOk result (λ f. f ≡ fault_of types.now switches.now) }
{
    match twice(alloc, types, switches)? {
        Some(at) => Ok(Some(AdtFault::Twice { at })),
        None => Ok(later_fault(types, known, switches)),
    }
}

// The first fault behind names that stand twice.
fn later_fault(
    types: &[TypeWords],
    known: &Listed<Known>,
    switches: &[List<Word>],
) -> Option<AdtFault>
    requires { known.now ≡ known_in types.now }
    ensures { result ≡ or_fault fault.NoVariant (no_variant (known_in types.now) switches.now) (or_fault fault.TooMany (too_many types.now) None) }
{
    match no_variant(known, switches) {
        Some(at) => Some(AdtFault::NoVariant { at }),
        None => match too_many(types) {
            Some(at) => Some(AdtFault::TooMany { at }),
            None => None,
        },
    }
}
