//! Records that are made with given fields.

ghost use Rattle.std.specs.Prelude.{◌≡◌, [], IfOk, OnOk, MatchOption, ⊤};
ghost use Rattle.sk_dag.specs.Eval.{Keeps};
ghost use Rattle.sk_arr.specs.Shapes.{Stands};
ghost use Rattle.sk_model.specs.Heap.{allocate as allocates};
ghost use Rattle.sk_sym_state.specs.Stands.{StateStands};
ghost use Rattle.sk_sym_state.specs.Meaning.{DoesOn};
ghost use Rattle.sk_sym_steps.specs.Steps.{EvaluatesOn};
ghost use Rattle.sk_sym_stores.specs.Records.{InitsAre, InitsStand, AreSet, set_all, IsFirstInit};

use crate::storing::write_field;
use sk_base::Span;
use sk_dag::{Dag, Shape};
use sk_prog::StructId;
use sk_sym_state::{Setting, SymState};
use sk_sym_steps::allocate;
use std::alloc::AllocError;

/// A field of a new record, and what it is set to.
#[derive(Drop)]
pub struct Init {
    pub field: u32,
    pub value: Shape,
}

/// The first of a list, and those behind it.
#[derive(Clone, Copy)]
struct First<'a> {
    field: u32,
    value: &'a Shape,
    more: &'a [Init],
}

/// The first of a list, where there is one.
fn first_init<'a>(inits: &'a [Init]) -> Option<First<'a>>
    ensures { MatchOption result (inits.now ≡ []) (λ first. IsFirstInit inits.now first.field first.value.now first.more.now) }
{
    match inits {
        [] => None,
        [init, more @ ..] => Some(First {
            field: init.field,
            value: &init.value,
            more,
        }),
    }
}

/// Sets fields of the record that a reference is at, one after another.
fn set_fields(
    setting: &Setting<'_>,
    dag: &mut Dag,
    state: &mut SymState,
    span: Span,
    s: StructId,
    reference: &Shape,
    inits: &[Init],
) -> Result<(), AllocError>
    requires stands { StateStands dag.old setting.now.expanded.now.prog state.old }
    requires reference { Stands dag.old reference.now }
    requires inits { InitsStand dag.old inits.now }
    ensures keeps { Keeps dag.old dag.new }
    ensures sets { OnOk result (DoesOn setting.now dag.old dag.new state.old state.new (AreSet state.old.heap reference.now inits.now) (λ g e (u : Unit {0}). ⊤) (λ e p. set_all span p.0 p.1)) }
{
    let Some(first) = first_init(inits) else {
        return Ok(());
    };
    write_field(
        setting,
        dag,
        state,
        span,
        reference,
        s,
        first.field,
        first.value,
    )?;
    set_fields(setting, dag, state, span, s, reference, first.more)?;
    Ok(())
}

/// A new record of a struct, in which these fields are set one after another and each other one is 0, and a reference to
/// it.
///
/// # Errors
///
/// Memory is wanting, the heap is full, or the shapes are not of the forms and structs of the fields. After a refusal the
/// graph has all nodes that it had (`keeps`); the state is given up with the walk that holds it.
pub fn make(
    setting: &Setting<'_>,
    dag: &mut Dag,
    state: &mut SymState,
    span: Span,
    s: StructId,
    inits: &[Init],
) -> Result<Shape, AllocError>
    requires stands { StateStands dag.old setting.now.expanded.now.prog state.old }
    requires inits { InitsStand dag.old inits.now }
    ensures keeps { Keeps dag.old dag.new }
    ensures evaluates { IfOk result (λ r. EvaluatesOn setting.now dag.old dag.new state.old state.new (λ g e. InitsAre g e state.old.heap inits.now) r (λ e. allocates setting.now.expanded.now.prog s)) }
{
    let reference = allocate(setting, dag, state, s)?;
    set_fields(setting, dag, state, span, s, &reference, inits)?;
    Ok(reference)
}
