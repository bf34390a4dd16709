//! The arguments of a function, read from words.
ghost use Rattle.std.specs.Prelude.{◌≡◌, ◌≢◌, ◌≤◌, Ok, Err, IfOk, IfErr};
ghost use Rattle.std.specs.List.{list_any};
ghost use Rattle.sk_exec_values.specs.Arguments.{is_reference, type_refers, result_refers, refers, values_from, arguments};
ghost use Rattle.sk_exec_values.specs.declared.fault.ArgumentFault.TheVariants.{Memory};

use crate::fault::ArgumentFault;
use crate::value::read_value;
use sk_base::{Bounds, List, Name};
use sk_prog::{Elem, Fun, ParamDef, Ty, Value};
use std::alloc::Global;

fn is_reference(e: Elem) -> bool
    ensures { result ≡ is_reference e }
{
    match e {
        Elem::Bit => false,
        Elem::Int => false,
        Elem::Reference(_) => true,
    }
}

fn type_refers(ty: Ty) -> bool
    ensures { result ≡ type_refers ty }
{
    match ty {
        Ty::One(e) => is_reference(e),
        Ty::Array(e, _) => is_reference(e),
        Ty::Grid(e, _, _) => is_reference(e),
    }
}

fn result_refers(result_type: Option<Ty>) -> bool
    ensures { result ≡ result_refers result_type }
{
    match result_type {
        None => false,
        Some(ty) => type_refers(ty),
    }
}

fn params_refer(params: &[ParamDef]) -> bool
    ensures { result ≡ list_any (λ param. type_refers param.ty) params.now }
{
    let mut rest = params;
    while let [param, after @ ..] = rest {
        if type_refers(param.ty) {
            return true;
        }
        rest = after;
    }
    false
}

/// Whether the type of a parameter or of the result holds a reference.
fn refers(fun: &Fun) -> bool
    ensures { result ≡ refers fun.now }
{
    params_refer(fun.params.as_slice()) || result_refers(fun.result)
}

/// The values that the words spell, one for each parameter as far as both go.
#[tactic(auto, using(crate::proofs::Values::steps))]
fn read_values(
    alloc: Global,
    bounds: &Bounds,
    params: &[ParamDef],
    words: &[Name],
) -> Result<List<Value>, ArgumentFault>
    requires bits_low { 2 ≤ bounds.now.int_bits }
    requires bits_high { bounds.now.int_bits ≤ 32 }
    ensures ok { IfOk result (λ values. values_from 0 bounds.now params.now words.now ≡ Ok values) }
    ensures err { IfErr result (λ fault. fault ≢ Memory → values_from 0 bounds.now params.now words.now ≡ Err fault) }
{
    let mut values = List::new(alloc);
    let mut rest = words;
    for param in params {
        let [word, after @ ..] = rest else {
            return Ok(values);
        };
        match read_value(alloc, bounds, &param.ty, word.as_bytes())? {
            None => return Err(ArgumentFault::Value {
                index: values.len(),
            }),
            Some(value) => values.push(value)?,
        }
        rest = after;
    }
    Ok(values)
}

/// The values of the parameters of a function that words spell, one word for each.
///
/// # Errors
///
/// `References` where the type of a parameter or of the result holds a reference; else `Count` where there are not as
/// many words as parameters; else `Value` with the index of the first word that spells no value of its parameter's
/// type. `Memory` may come in the place of any answer.
pub fn read_arguments(
    alloc: Global,
    bounds: &Bounds,
    fun: &Fun,
    words: &[Name],
) -> Result<List<Value>, ArgumentFault>
    requires bits_low { 2 ≤ bounds.now.int_bits }
    requires bits_high { bounds.now.int_bits ≤ 32 }
    ensures ok { IfOk result (λ values. arguments bounds.now fun.now words.now ≡ Ok values) }
    ensures err { IfErr result (λ fault. fault ≢ Memory → arguments bounds.now fun.now words.now ≡ Err fault) }
{
    if refers(fun) {
        return Err(ArgumentFault::References);
    }
    if words.len() != fun.params.len() {
        return Err(ArgumentFault::Count);
    }
    let values = read_values(alloc, bounds, fun.params.as_slice(), words)?;
    Ok(values)
}
