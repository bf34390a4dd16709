//! Writes to the fields of the slot that a reference is at.

ghost use Rattle.std.specs.Prelude.{◌≡◌, IfOk, OnOk, OnErr};
ghost use Rattle.sk_dag.specs.declared.env.Env.{Env};
ghost use Rattle.sk_dag.specs.Graph.{Graph, Grows, HasBool};
ghost use Rattle.sk_dag.specs.Eval.{bool_value, Keeps};
ghost use Rattle.sk_arr.specs.Held.{AllIn, held_in, is_among};
ghost use Rattle.sk_arr.specs.Shapes.{blank, Stands};
ghost use Rattle.sk_heap.specs.Fields.{FieldFits, FieldsFit};
ghost use Rattle.sk_heap.specs.Steps.{IsRewritten, AreWritten};

use crate::front::front_of;
use crate::slot::{Slot, field_of, put};
use sk_arr::{both, choose, either};
use sk_dag::{BoolId, Dag, Shape, Targets};
use std::alloc::{AllocError, Global};

/// Whether a target at this slot holds.
fn holds_at(dag: &mut Dag, targets: &[(u32, BoolId)], slot: u32) -> Result<BoolId, AllocError>
    requires { AllIn dag.old targets.now }
    ensures keeps { Keeps dag.old dag.new }
    ensures there { IfOk result (λ r. HasBool dag.new.nodes r) }
    ensures value { IfOk result (λ r. (h : Graph) → Grows dag.new h → (e : Env) → bool_value h e r ≡ is_among slot (held_in h e targets.now)) }
{
    match targets {
        [] => {
            let r = dag.flag(false)?;
            Ok(r)
        }
        [(other, guard), more @ ..] => {
            let rest = holds_at(dag, more, slot)?;
            if *other == slot {
                let r = either(dag, *guard, rest)?;
                return Ok(r);
            }
            Ok(rest)
        }
    }
}

/// The value where the guard holds and a target at this slot does, and else the field as it is.
fn rewritten(
    alloc: Global,
    dag: &mut Dag,
    guard: BoolId,
    slots: &[Slot],
    target: &Targets,
    slot: u32,
    field: u32,
    value: &Shape,
) -> Result<Shape, AllocError>
    requires guard { HasBool dag.old.nodes guard }
    requires targets { AllIn dag.old target.now.slots.items }
    requires field { FieldFits dag.old slots.now slot field (blank value.now) }
    requires value { Stands dag.old value.now }
    ensures keeps { Keeps dag.old dag.new }
    ensures rewritten { IfOk result (λ r. IsRewritten dag.new guard slots.now target.now slot field value.now r) }
{
    let at = holds_at(dag, target.slots.as_slice(), slot)?;
    let c = both(dag, guard, at)?;
    let r = choose(alloc, dag, c, value, field_of(slots, slot, field))?;
    Ok(r)
}

/// Writes to the slots of these targets of a reference. What is to be written is made whole before the first slot is
/// changed.
#[tactic(auto, using(crate::proofs::WriteLaws::writing))]
pub(crate) fn write_targets(
    alloc: Global,
    dag: &mut Dag,
    guard: BoolId,
    slots: &mut Vec<Slot>,
    target: &Targets,
    targets: &[(u32, BoolId)],
    field: u32,
    value: &Shape,
) -> Result<(), AllocError>
    requires guard { HasBool dag.old.nodes guard }
    requires targets { AllIn dag.old target.now.slots.items }
    requires fields { FieldsFit dag.old slots.old.items targets.now field (blank value.now) }
    requires value { Stands dag.old value.now }
    ensures keeps { Keeps dag.old dag.new }
    ensures err { OnErr result (slots.new.items ≡ slots.old.items) }
    ensures written { OnOk result (AreWritten dag.new guard target.now targets.now field value.now slots.old.items slots.new.items) }
{
    let Some(front) = front_of(targets) else {
        return Ok(());
    };
    let r = rewritten(
        alloc,
        dag,
        guard,
        slots.as_slice(),
        target,
        front.slot,
        field,
        value,
    )?;
    write_targets(alloc, dag, guard, slots, target, front.more, field, value)?;
    put(slots, front.slot, field, r);
    Ok(())
}
