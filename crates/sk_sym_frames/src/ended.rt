//! What a call gives that has returned, or whose body has ended.

ghost use Rattle.std.specs.Prelude.{◌≡◌, IfOk, Some, None};
ghost use Rattle.sk_dag.specs.Graph.{HasBool};
ghost use Rattle.sk_dag.specs.Eval.{Keeps};
ghost use Rattle.sk_arr.specs.Shapes.{AllStand};
ghost use Rattle.sk_sym_state.specs.Stands.{AnyStands, AnyEndedStands, EndedStands};
ghost use Rattle.sk_sym_frames.specs.Ended.{AreRefs, IsResult, IsEnd, IsEitherResult, AreEither, IsEither, IsLatest, IsGiven};

use sk_arr::copy_shape;
use sk_base::List;
use sk_dag::{BoolId, Dag, Shape};
use sk_limits::never;
use sk_prog::{Fun, ParamDef, Ty};
use sk_sym_folds::known_bool;
use sk_sym_literals::zero_of;
use sk_sym_state::{Ended, join_shapes};
use std::alloc::{AllocError, Global};

/// What the `ref` parameters hold, in order. The parameters of a typed program are in scope (`never`).
fn refs_of(alloc: Global, params: &[ParamDef], slots: &[Shape]) -> Result<List<Shape>, AllocError>
    ensures { IfOk result (λ made. AreRefs params.now slots.now made) }
{
    let mut made = List::new(alloc);
    let mut slot = 0;
    for p in params {
        if p.by_ref {
            if slot >= slots.len() {
                return Err(never());
            }
            let one = copy_shape(alloc, &slots[slot])?;
            made.push(one)?;
        }
        slot += 1;
    }
    Ok(made)
}

/// The result of a function that returns this value. Where it has a result and there is no value, it is 0.
#[tactic(auto, using(crate::proofs::Results::results))]
fn result_of(
    alloc: Global,
    dag: &mut Dag,
    ty: Option<Ty>,
    value: Option<Shape>,
) -> Result<Option<Shape>, AllocError>
    requires value { AnyStands dag.old value }
    ensures keeps { Keeps dag.old dag.new }
    ensures result { IfOk result (λ r. IsResult dag.new ty value r) }
{
    let Some(t) = ty else {
        return Ok(None);
    };
    match value {
        Some(v) => Ok(Some(v)),
        None => {
            let zero = zero_of(alloc, dag, t)?;
            Ok(Some(zero))
        }
    }
}

/// What a call gives that ends with these variables, and returns this value where there is one.
pub(crate) fn end_of(
    alloc: Global,
    dag: &mut Dag,
    fun: &Fun,
    slots: &[Shape],
    value: Option<Shape>,
) -> Result<Ended, AllocError>
    requires slots { AllStand dag.old slots.now }
    requires value { AnyStands dag.old value }
    ensures keeps { Keeps dag.old dag.new }
    ensures end { IfOk result (λ r. IsEnd dag.new fun.now slots.now value r) }
{
    let refs = refs_of(alloc, fun.params.as_slice(), slots)?;
    let result = result_of(alloc, dag, fun.result, value)?;
    Ok(Ended { result, refs })
}

/// The one result or the other by a condition. Where one is not there, it is the other.
#[tactic(auto, using(crate::proofs::Results::eithers))]
fn either_result(
    alloc: Global,
    dag: &mut Dag,
    cond: BoolId,
    a: Option<Shape>,
    b: Option<Shape>,
) -> Result<Option<Shape>, AllocError>
    requires cond { HasBool dag.old.nodes cond }
    requires a { AnyStands dag.old a }
    requires b { AnyStands dag.old b }
    ensures keeps { Keeps dag.old dag.new }
    ensures either { IfOk result (λ r. IsEitherResult dag.new cond a b r) }
{
    match a {
        None => Ok(b),
        Some(a) => match b {
            None => Ok(Some(a)),
            Some(b) => {
                let r = join_shapes(alloc, dag, cond, &a, &b)?;
                Ok(Some(r))
            }
        },
    }
}

/// The one list or the other by a condition.
fn either_list(
    alloc: Global,
    dag: &mut Dag,
    cond: BoolId,
    a: List<Shape>,
    b: List<Shape>,
) -> Result<List<Shape>, AllocError>
    requires cond { HasBool dag.old.nodes cond }
    requires a { AllStand dag.old a }
    requires b { AllStand dag.old b }
    ensures keeps { Keeps dag.old dag.new }
    ensures either { IfOk result (λ made. AreEither dag.new cond a b made) }
{
    let first = Shape::Array(a);
    let second = Shape::Array(b);
    let r = join_shapes(alloc, dag, cond, &first, &second)?;
    match r {
        Shape::Array(made) => Ok(made),
        _ => unreachable!(),
    }
}

/// What the one call gives or the other, by a condition.
fn either_ended(
    alloc: Global,
    dag: &mut Dag,
    cond: BoolId,
    a: Ended,
    b: Ended,
) -> Result<Ended, AllocError>
    requires cond { HasBool dag.old.nodes cond }
    requires a { EndedStands dag.old a }
    requires b { EndedStands dag.old b }
    ensures keeps { Keeps dag.old dag.new }
    ensures either { IfOk result (λ r. IsEither dag.new cond a b r) }
{
    let result = either_result(alloc, dag, cond, a.result, b.result)?;
    let refs = either_list(alloc, dag, cond, a.refs, b.refs)?;
    Ok(Ended { result, refs })
}

/// What is given where a condition holds, and else what was given before.
#[tactic(auto, using(crate::proofs::Results::latests))]
pub(crate) fn latest(
    alloc: Global,
    dag: &mut Dag,
    cond: BoolId,
    now: Ended,
    before: Option<Ended>,
) -> Result<Ended, AllocError>
    requires cond { HasBool dag.old.nodes cond }
    requires now { EndedStands dag.old now }
    requires before { AnyEndedStands dag.old before }
    ensures keeps { Keeps dag.old dag.new }
    ensures latest { IfOk result (λ r. IsLatest dag.new cond now before r) }
{
    match before {
        None => Ok(now),
        Some(before) => {
            let r = either_ended(alloc, dag, cond, now, before)?;
            Ok(r)
        }
    }
}

/// What a call gives whose body goes on to its end under a path, with these variables, and has returned before where
/// `returned` holds.
pub(crate) fn given(
    alloc: Global,
    dag: &mut Dag,
    fun: &Fun,
    path: BoolId,
    slots: &[Shape],
    returned: BoolId,
    ended: Option<Ended>,
) -> Result<Ended, AllocError>
    requires path { HasBool dag.old.nodes path }
    requires slots { AllStand dag.old slots.now }
    requires returned { HasBool dag.old.nodes returned }
    requires ended { AnyEndedStands dag.old ended }
    ensures keeps { Keeps dag.old dag.new }
    ensures given { IfOk result (λ r. IsGiven dag.new fun.now path slots.now returned ended r) }
{
    let Some(ended) = ended else {
        let last = end_of(alloc, dag, fun, slots, None)?;
        return Ok(last);
    };
    if let Some(false) = known_bool(dag, path) {
        return Ok(ended);
    }
    let last = end_of(alloc, dag, fun, slots, None)?;
    let r = either_ended(alloc, dag, returned, ended, last)?;
    Ok(r)
}
