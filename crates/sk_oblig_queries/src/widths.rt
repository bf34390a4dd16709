//! Of how many bits the numbers of a query are. A list that is made here is given up where memory is wanting.

ghost use Rattle.std.specs.Prelude.{◌≡◌, ◌++◌, ◌<◌, ◌^◌, IfOk, OnOk, replicate, take};
ghost use Rattle.sk_model.specs.Inputs.{fun_of};
ghost use Rattle.sk_model.specs.Obligations.{obligations};
ghost use Rattle.sk_oblig_queries.specs.Numbers.{bits_of_size};
ghost use Rattle.sk_oblig_queries.specs.Queries.{first_number, widths_of_query};
ghost use Rattle.sk_oblig_queries.specs.Widths.{elem_of, elem_width, numbers_of, obligations_widths, params_at, params_of, params_widths, sites_widths, ty_widths};

use crate::listing::obligations;
use crate::query::Query;
use crate::slices::front;
use sk_base::{Bounds, List};
use sk_model::{Expanded, Obligation, Site};
use sk_prog::{Elem, FunId, ParamDef, Prog, Ty};
use std::alloc::{AllocError, Global};

// The power of 2 with an exponent.
#[tactic(auto, using(crate::proofs::Powers::room))]
fn power(exponent: u32) -> u64
    requires { exponent < 64 }
    ensures { result ≡ 2 ^ exponent }
{
    1 << exponent
}

/// The least number of bits that say each number below a size.
#[tactic(auto, using(crate::proofs::Powers::powers))]
pub fn bits_of_size(size: u64) -> u32
    ensures { result ≡ bits_of_size size }
{
    for bits in 0..64 {
        if size <= power(bits) {
            return bits;
        }
    }
    64
}

fn elem_width(inbits: u32, elem: Elem) -> u32
    ensures { result ≡ elem_width inbits elem }
{
    match elem {
        Elem::Int => inbits,
        Elem::Bit => 1,
        Elem::Reference(_) => 0,
    }
}

fn elem_of(ty: Ty) -> Elem
    ensures { result ≡ elem_of ty }
{
    match ty {
        Ty::One(elem) => elem,
        Ty::Array(elem, _) => elem,
        Ty::Grid(elem, _, _) => elem,
    }
}

/// How many numbers a value of a type has.
pub fn numbers_of(ty: Ty) -> u64
    ensures { result ≡ numbers_of ty }
{
    match ty {
        Ty::One(_) => 1,
        Ty::Array(_, n) => u64::from(n),
        Ty::Grid(_, n, m) => u64::from(n) * u64::from(m),
    }
}

fn push_same(widths: &mut List<u32>, width: u32, count: u64) -> Result<(), AllocError>
    ensures { OnOk result (widths.new ≡ widths.old ++ replicate count width) }
{
    for _place in 0..count {
        widths.push(width)?;
    }
    Ok(())
}

fn push_ty(widths: &mut List<u32>, inbits: u32, ty: Ty) -> Result<(), AllocError>
    ensures { OnOk result (widths.new ≡ widths.old ++ ty_widths inbits ty) }
{
    push_same(widths, elem_width(inbits, elem_of(ty)), numbers_of(ty))
}

fn push_params(widths: &mut List<u32>, inbits: u32, params: &[ParamDef]) -> Result<(), AllocError>
    ensures { OnOk result (widths.new ≡ widths.old ++ params_widths inbits params.now) }
{
    for param in params {
        push_ty(widths, inbits, param.ty)?;
    }
    Ok(())
}

// The function of an obligation.
fn fun_of(obligation: Obligation) -> FunId
    ensures { result ≡ fun_of obligation }
{
    match obligation {
        Obligation::Harness(f) => f,
        Obligation::Implements { f, .. } => f,
    }
}

/// What the function of an obligation takes.
pub fn params_of(prog: &Prog, obligation: Obligation) -> &[ParamDef]
    ensures { result.now ≡ params_of prog.now obligation }
{
    match prog.funs.get(fun_of(obligation).index as usize) {
        Some(fun) => fun.params.as_slice(),
        None => &[],
    }
}

/// What the function takes of the obligation with a number.
pub fn params_at<'a>(
    alloc: Global,
    prog: &'a Prog,
    obligation: u32,
) -> Result<&'a [ParamDef], AllocError>
    ensures { IfOk result (λ params. params.now ≡ params_at prog.now obligation) }
{
    let all = obligations(alloc, prog)?;
    let found = all.get(obligation as usize);
    match found {
        Some(o) => Ok(params_of(prog, *o)),
        None => Ok(&[]),
    }
}

fn push_obligations(
    widths: &mut List<u32>,
    inbits: u32,
    prog: &Prog,
    obligations: &[Obligation],
) -> Result<(), AllocError>
    ensures { OnOk result (widths.new ≡ widths.old ++ obligations_widths inbits prog.now obligations.now) }
{
    for obligation in obligations {
        push_params(widths, inbits, params_of(prog, *obligation))?;
    }
    Ok(())
}

/// Of how many bits the values of sites are.
pub fn site_widths(alloc: Global, sites: &[Site]) -> Result<List<u32>, AllocError>
    ensures { IfOk result (λ widths. widths ≡ sites_widths sites.now) }
{
    let mut widths = List::new(alloc);
    for site in sites {
        widths.push(bits_of_size(site.size))?;
    }
    Ok(widths)
}

// The widths of the inputs of the first so many obligations.
fn front_widths(
    alloc: Global,
    inbits: u32,
    prog: &Prog,
    count: usize,
) -> Result<List<u32>, AllocError>
    ensures { IfOk result (λ widths. widths ≡ obligations_widths inbits prog.now (take count (obligations prog.now))) }
{
    let all = obligations(alloc, prog)?;
    let mut widths = List::new(alloc);
    push_obligations(&mut widths, inbits, prog, front(all.as_slice(), count))?;
    Ok(widths)
}

fn all_widths(alloc: Global, inbits: u32, prog: &Prog) -> Result<List<u32>, AllocError>
    ensures { IfOk result (λ widths. widths ≡ obligations_widths inbits prog.now (obligations prog.now)) }
{
    let all = obligations(alloc, prog)?;
    let mut widths = List::new(alloc);
    push_obligations(&mut widths, inbits, prog, all.as_slice())?;
    Ok(widths)
}

fn widths_at(
    alloc: Global,
    inbits: u32,
    prog: &Prog,
    obligation: u32,
) -> Result<List<u32>, AllocError>
    ensures { IfOk result (λ widths. widths ≡ params_widths inbits (params_at prog.now obligation)) }
{
    let params = params_at(alloc, prog, obligation)?;
    let mut widths = List::new(alloc);
    push_params(&mut widths, inbits, params)?;
    Ok(widths)
}

/// Of how many bits the numbers of a query are.
pub fn widths_of(
    alloc: Global,
    expanded: &Expanded,
    bounds: &Bounds,
    query: &Query,
) -> Result<List<u32>, AllocError>
    ensures { IfOk result (λ widths. widths ≡ widths_of_query expanded.now bounds.now query.now) }
{
    match query {
        Query::Bad { .. } => all_widths(alloc, bounds.inbits, &expanded.prog),
        Query::BadAt { obligation, .. } => {
            widths_at(alloc, bounds.inbits, &expanded.prog, *obligation)
        }
        Query::Wanted { .. } => site_widths(alloc, expanded.sites.as_slice()),
    }
}

/// How many numbers stand before those of the input of the obligation with a number.
pub fn first_number(
    alloc: Global,
    expanded: &Expanded,
    bounds: &Bounds,
    query: &Query,
    obligation: u32,
) -> Result<usize, AllocError>
    ensures { IfOk result (λ n. n ≡ first_number expanded.now bounds.now query.now obligation) }
{
    match query {
        Query::Bad { .. } => {
            let before = front_widths(alloc, bounds.inbits, &expanded.prog, obligation as usize)?;
            Ok(before.len())
        }
        Query::BadAt { .. } => Ok(0),
        Query::Wanted { .. } => Ok(0),
    }
}
