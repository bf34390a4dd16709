//! What calls give, and how statements end.

ghost use Rattle.std.specs.Prelude.{◌≡◌, ◌-◌, ◌==◌, ◌++◌, ◌∷◌, [], IfOk, count_by};
ghost use Rattle.std.specs.Option.{option_copied};
ghost use Rattle.sk_model.specs.Eval.{result_value, params_of};
ghost use Rattle.sk_model.specs.Run.{first_slots, most_calls, refs_from, result_of};
ghost use Rattle.sk_interp.specs.Calling.{called_of, flow_of};

use crate::memory::{add_blanks, copy_at};
use crate::row::Row;
use crate::value::zero_of;
use sk_base::List;
use sk_prog::{Fun, ParamDef, Ty, Value};
use std::alloc::{AllocError, Global};

/// The most calls that are active at a time.
pub const MOST_CALLS: u32 = 128;

/// Whether a statement goes on to the next one, or returns from its function.
#[derive(Drop)]
pub enum Flow {
    Onward,
    Returns(Option<Value>),
}

/// What a call gives: its result, and the final values of its `ref` parameters in order.
#[derive(Drop)]
pub struct Called {
    pub result: Option<Value>,
    pub refs: List<Value>,
}

/// How many calls are active where so many more may be.
pub fn depth_over(left: u32) -> u32
    ensures { result ≡ most_calls - left }
{
    MOST_CALLS.saturating_sub(left)
}

/// These functions and one more.
#[inline(never)]
pub fn with_function(alloc: Global, active: &[u32], f: u32) -> Result<Vec<u32>, AllocError>
    ensures { IfOk result (λ all. all.items ≡ active.now ++ f ∷ []) }
{
    let mut all = Vec::from_slice(alloc, active)?;
    all.push(f)?;
    Ok(all)
}

/// How many of the active calls are of a function.
pub fn count_of(active: &[u32], f: u32) -> usize
    ensures { result ≡ count_by (λ g. g == f) active.now }
{
    active.iter().filter(|g| **g == f).count()
}

/// The variables at the start of a call: the arguments, and those that are not declared yet.
#[inline(never)]
pub fn first_slots(fun: &Fun, args: Row<Value>) -> Result<Row<Value>, AllocError>
    ensures { IfOk result (λ slots. slots ≡ first_slots fun.now args) }
{
    let count = (fun.slots as usize).saturating_sub(args.len());
    let mut slots = args;
    add_blanks(&mut slots, count)?;
    Ok(slots)
}

/// The result of a function whose body ended so.
pub fn result_of(alloc: Global, ty: Option<Ty>, flow: Flow) -> Result<Option<Value>, AllocError>
    ensures { IfOk result (λ v. v ≡ result_of ty (flow_of flow)) }
{
    let Some(t) = ty else {
        return Ok(None);
    };
    if let Flow::Returns(Some(v)) = flow {
        return Ok(Some(v));
    }
    let zero = zero_of(alloc, t)?;
    Ok(Some(zero))
}

/// The values of the `ref` parameters in order.
pub fn refs_of(
    alloc: Global,
    params: &[ParamDef],
    slots: &[Value],
) -> Result<List<Value>, AllocError>
    ensures { IfOk result (λ refs. refs ≡ refs_from 0 params.now slots.now) }
{
    let mut refs = List::new(alloc);
    let mut slot = 0;
    for p in params {
        if p.by_ref {
            let v = copy_at(alloc, slots, slot)?;
            refs.push(v)?;
        }
        slot += 1;
    }
    Ok(refs)
}

/// What a call gives whose body ended so, with these values in its variables.
#[inline(never)]
pub fn finished(alloc: Global, fun: &Fun, flow: Flow, slots: &[Value]) -> Result<Called, AllocError>
    ensures { IfOk result (λ made. called_of made ≡ record { result = result_of fun.now.result (flow_of flow); refs = refs_from 0 fun.now.params slots.now }) }
{
    let result = result_of(alloc, fun.result, flow)?;
    let refs = refs_of(alloc, fun.params.as_slice(), slots)?;
    Ok(Called { result, refs })
}

/// The value of a call.
pub fn result_value(found: Option<Value>) -> Value
    ensures { result ≡ result_value found }
{
    match found {
        None => Value::Int(0),
        Some(v) => v,
    }
}

/// The parameters of a function, where it is there.
pub fn params_of(found: Option<&Fun>) -> &[ParamDef]
    ensures { result.now ≡ params_of (option_copied found.entry) }
{
    match found {
        None => &[],
        Some(fun) => fun.params.as_slice(),
    }
}
