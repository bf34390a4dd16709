//! Fields of the slot that a reference is at.

ghost use Rattle.std.specs.Prelude.{◌≡◌, IfOk, Some, not, is_some, is_none};
ghost use Rattle.sk_dag.specs.declared.env.Env.{Env};
ghost use Rattle.sk_dag.specs.Graph.{Graph, Grows, HasBool};
ghost use Rattle.sk_dag.specs.Eval.{bool_value, Keeps};
ghost use Rattle.sk_dag.specs.EvalShape.{held_slot};
ghost use Rattle.sk_arr.specs.Held.{AllIn};
ghost use Rattle.sk_heap.specs.Types.{form_of};
ghost use Rattle.sk_heap.specs.Fields.{FieldsFit};
ghost use Rattle.sk_heap.specs.Steps.{IsReadOf};

use crate::front::front_of;
use crate::slot::{Slot, field_of};
use crate::zero::zero_of;
use sk_arr::{choose, copy_shape, either, flag_of};
use sk_dag::{BoolId, Dag, Shape};
use sk_prog::Ty;
use std::alloc::{AllocError, Global};

/// The negation of a truth value.
#[tactic(auto, using(sk_arr::proofs::Makers::staying))]
fn negated(dag: &mut Dag, a: BoolId) -> Result<BoolId, AllocError>
    requires { HasBool dag.old.nodes a }
    ensures keeps { Keeps dag.old dag.new }
    ensures there { IfOk result (λ r. HasBool dag.new.nodes r) }
    ensures value { IfOk result (λ r. (h : Graph) → Grows dag.new h → (e : Env) → bool_value h e r ≡ not (bool_value h e a)) }
{
    match flag_of(dag, a) {
        Some(b) => {
            let r = dag.flag(!b)?;
            Ok(r)
        }
        None => {
            let r = dag.not(a)?;
            Ok(r)
        }
    }
}

/// Whether a target holds.
#[tactic(auto, using(crate::proofs::ReadLaws::somes))]
fn any_of(dag: &mut Dag, targets: &[(u32, BoolId)]) -> Result<BoolId, AllocError>
    requires { AllIn dag.old targets.now }
    ensures keeps { Keeps dag.old dag.new }
    ensures there { IfOk result (λ r. HasBool dag.new.nodes r) }
    ensures value { IfOk result (λ r. (h : Graph) → Grows dag.new h → (e : Env) → bool_value h e r ≡ is_some (held_slot h e targets.now)) }
{
    match targets {
        [] => {
            let r = dag.flag(false)?;
            Ok(r)
        }
        [(_, guard), more @ ..] => {
            let rest = any_of(dag, more)?;
            let r = either(dag, *guard, rest)?;
            Ok(r)
        }
    }
}

/// Whether no target holds.
pub(crate) fn none_of(dag: &mut Dag, targets: &[(u32, BoolId)]) -> Result<BoolId, AllocError>
    requires { AllIn dag.old targets.now }
    ensures keeps { Keeps dag.old dag.new }
    ensures there { IfOk result (λ r. HasBool dag.new.nodes r) }
    ensures value { IfOk result (λ r. (h : Graph) → Grows dag.new h → (e : Env) → bool_value h e r ≡ is_none (held_slot h e targets.now)) }
{
    let any = any_of(dag, targets)?;
    let r = negated(dag, any)?;
    Ok(r)
}

/// A field of the slot whose target holds. Where there is one target alone, it is that of its slot; where there is none,
/// it is 0.
#[tactic(auto, using(crate::proofs::ReadLaws::reading))]
pub(crate) fn read_targets(
    alloc: Global,
    dag: &mut Dag,
    slots: &[Slot],
    targets: &[(u32, BoolId)],
    ty: Ty,
    field: u32,
) -> Result<Shape, AllocError>
    requires guards { AllIn dag.old targets.now }
    requires fields { FieldsFit dag.old slots.now targets.now field (form_of ty) }
    ensures keeps { Keeps dag.old dag.new }
    ensures read { IfOk result (λ r. IsReadOf dag.new slots.now targets.now (form_of ty) field r) }
{
    let Some(front) = front_of(targets) else {
        let r = zero_of(alloc, dag, ty)?;
        return Ok(r);
    };
    let Some(_) = front_of(front.more) else {
        let r = copy_shape(alloc, field_of(slots, front.slot, field))?;
        return Ok(r);
    };
    let rest = read_targets(alloc, dag, slots, front.more, ty, field)?;
    let r = choose(
        alloc,
        dag,
        front.guard,
        field_of(slots, front.slot, field),
        &rest,
    )?;
    Ok(r)
}
