//! The first guessed input that speaks against a choice.

ghost use Rattle.std.specs.Prelude.{◌≡◌, IfOk, IfSome};
ghost use Rattle.sk_model.specs.Fill.{InRange};
ghost use Rattle.sk_oblig_queries.specs.declared.query.Query.TheVariants as query_form;
ghost use Rattle.sk_oblig_queries.specs.Queries.{IsBad};
ghost use Rattle.sk_oblig_asking.specs.Formulas.{IsAskable};

use crate::pattern::{Pattern, patterns};
use sk_base::{Bounds, List};
use sk_loop_copies::copy_choice;
use sk_model::{Choice, Expanded, Input, Obligation};
use sk_oblig_asking::oblig::bad_said;
use sk_oblig_queries::{Query, obligations};
use sk_prog::{Elem, FunId, ParamDef, Prog, Ty};
use std::alloc::{AllocError, Global};

/// Nothing is guessed for programs of more obligations: each guess runs all of them, and each run walks the whole program.
const MOST_OBLIGATIONS: usize = 64;

// By how many bits an element is said.
fn bits_of_elem(elem: Elem, inbits: u32) -> u64 {
    match elem {
        Elem::Int => u64::from(inbits),
        Elem::Bit => 1,
        Elem::Reference(_) => 0,
    }
}

// By how many bits a value of a type is said.
fn bits_of_type(ty: Ty, inbits: u32) -> u64 {
    match ty {
        Ty::One(elem) => bits_of_elem(elem, inbits),
        Ty::Array(elem, n) => bits_of_elem(elem, inbits).saturating_mul(u64::from(n)),
        Ty::Grid(elem, n, m) => bits_of_elem(elem, inbits)
            .saturating_mul(u64::from(n))
            .saturating_mul(u64::from(m)),
    }
}

// By how many bits values of parameters are said.
fn bits_of_params(params: &[ParamDef], inbits: u32) -> u64 {
    let mut count = 0u64;
    for param in params {
        count = count.saturating_add(bits_of_type(param.ty, inbits));
    }
    count
}

// The function of an obligation.
fn fun_of(obligation: Obligation) -> FunId {
    match obligation {
        Obligation::Harness(f) => f,
        Obligation::Implements { f, .. } => f,
    }
}

// By how many bits an input of an obligation is said.
fn bits_of(prog: &Prog, inbits: u32, obligation: Obligation) -> u64 {
    match prog.funs.get(fun_of(obligation).index as usize) {
        Some(fun) => bits_of_params(fun.params.as_slice(), inbits),
        None => 0,
    }
}

// The number of bits of each of the obligations.
fn counts_of(
    alloc: Global,
    prog: &Prog,
    inbits: u32,
    listed: &[Obligation],
) -> Result<List<u64>, AllocError> {
    let mut counts = List::new(alloc);
    for obligation in listed {
        counts.push(bits_of(prog, inbits, *obligation))?;
    }
    Ok(counts)
}

// The greatest of some numbers.
fn greatest(numbers: &[u64]) -> u64 {
    let mut most = 0;
    for number in numbers {
        if most < *number {
            most = *number;
        }
    }
    most
}

// The bits of a guess, those of each obligation behind those of the one before it.
fn bits_of_guess(
    alloc: Global,
    pattern: Pattern,
    counts: &[u64],
) -> Result<List<bool>, AllocError> {
    let mut bits = List::new(alloc);
    for count in counts {
        pattern.push_bits(&mut bits, *count)?;
    }
    Ok(bits)
}

// The first of the patterns whose bits say an input that speaks against the choice, and that input.
fn first_said(
    alloc: Global,
    expanded: &Expanded,
    bounds: &Bounds,
    query: &Query,
    patterns: &[Pattern],
    counts: &[u64],
    choice: &Choice,
    limit: Option<u64>,
) -> Result<Option<Input>, AllocError>
    requires askable { IsAskable expanded.now bounds.now }
    requires range { InRange expanded.now choice.now }
    requires query { query.now ≡ query_form.Bad choice.now limit }
    ensures { IfOk result (λ found. IfSome found (λ input. IsBad expanded.now bounds.now choice.now limit input)) }
{
    for pattern in patterns {
        let bits = bits_of_guess(alloc, *pattern, counts)?;
        let bits = bits.as_slice();
        let said = bad_said(alloc, expanded, bounds, query, bits, choice, limit)?;
        if let Some(input) = said {
            return Ok(Some(input));
        }
    }
    Ok(None)
}

/// The first guessed input that speaks against a choice within a limit, if one does.
///
/// # Errors
///
/// Memory is wanting, or what `execute` counts as that.
pub fn guess(
    alloc: Global,
    expanded: &Expanded,
    bounds: &Bounds,
    choice: &Choice,
    limit: Option<u64>,
) -> Result<Option<Input>, AllocError>
    requires askable { IsAskable expanded.now bounds.now }
    requires range { InRange expanded.now choice.now }
    ensures { IfOk result (λ found. IfSome found (λ input. IsBad expanded.now bounds.now choice.now limit input)) }
{
    let copy = copy_choice(alloc, choice)?;
    let query = Query::Bad {
        choice: copy,
        limit,
    };
    let all = obligations(alloc, &expanded.prog)?;
    if all.as_slice().len() > MOST_OBLIGATIONS {
        return Ok(None);
    }
    let counts = counts_of(alloc, &expanded.prog, bounds.inbits, all.as_slice())?;
    let counts = counts.as_slice();
    let tried = patterns(alloc, greatest(counts))?;
    let found = first_said(
        alloc,
        expanded,
        bounds,
        &query,
        tried.as_slice(),
        counts,
        choice,
        limit,
    )?;
    Ok(found)
}
