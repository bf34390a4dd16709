//! Stores at the locations that targets name.

ghost use Rattle.std.specs.Prelude.{◌≤◌, OnOk, length, []};
ghost use Rattle.sk_arr.specs.Shapes.{Stands};
ghost use Rattle.sk_sym_state.specs.Stands.{StateStands};
ghost use Rattle.sk_dag.specs.declared.shape.Shape.TheVariants.{Reference};
ghost use Rattle.sk_dag.specs.Eval.{Keeps};
ghost use Rattle.sk_heap.specs.Heaps.{RefersTo};
ghost use Rattle.sk_sym_stores.specs.declared.location.Root.TheVariants.{Variable, Field};
ghost use Rattle.sk_sym_stores.specs.Kinds.{MayHold, FitsField};
ghost use Rattle.sk_sym_stores.specs.Locations.{AreWords, LocationStands};
ghost use Rattle.sk_sym_stores.specs.Stores.{Stores};

use crate::kind::{fits_field, may_hold};
use crate::location::{Location, Root};
use crate::replacement::replaced;
use sk_arr::copy_shape;
use sk_base::Span;
use sk_dag::{Dag, Shape, Targets, WordId};
use sk_limits::never;
use sk_prog::StructId;
use sk_sym_folds::or;
use sk_sym_state::{Setting, SymState};
use sk_sym_steps::{are_kind, fail_now};
use std::alloc::AllocError;

/// Stores a value in a whole variable.
fn write_variable(
    setting: &Setting<'_>,
    dag: &Dag,
    state: &mut SymState,
    span: Span,
    slot: u32,
    value: &Shape,
) -> Result<(), AllocError>
    requires stands { StateStands dag.now setting.now.expanded.now.prog state.old }
    requires value { Stands dag.now value.now }
    ensures { OnOk result (Stores setting.now dag.now dag.now state.old state.new span (record { root = Variable slot; indexes = [] }) value.now) }
{
    let _graph = dag.int_bits();
    let again = copy_shape(setting.alloc, value)?;
    state.assign(slot, again);
    Ok(())
}

/// Stores a value in a variable, or in a part of it.
fn store_variable(
    setting: &Setting<'_>,
    dag: &mut Dag,
    state: &mut SymState,
    span: Span,
    slot: u32,
    indexes: &[WordId],
    value: &Shape,
) -> Result<(), AllocError>
    requires stands { StateStands dag.old setting.now.expanded.now.prog state.old }
    requires indexes { AreWords dag.old indexes.now }
    requires value { Stands dag.old value.now }
    ensures keeps { Keeps dag.old dag.new }
    ensures stores { OnOk result (Stores setting.now dag.old dag.new state.old state.new span (record { root = Variable slot; indexes = indexes.now }) value.now) }
{
    if indexes.is_empty() {
        return write_variable(setting, dag, state, span, slot, value);
    }
    let whole = state.read(setting.alloc, slot)?;
    let made = replaced(setting.alloc, dag, indexes, &whole, value)?;
    state.fail_where(setting, dag, made.fails)?;
    state.assign(slot, made.value);
    Ok(())
}

/// Stores a value in a part of a field of the slot that a reference is at.
fn store_target(
    setting: &Setting<'_>,
    dag: &mut Dag,
    state: &mut SymState,
    span: Span,
    target: &Targets,
    kind: StructId,
    field: u32,
    indexes: &[WordId],
    value: &Shape,
) -> Result<(), AllocError>
    requires stands { StateStands dag.old setting.now.expanded.now.prog state.old }
    requires target { RefersTo dag.old state.old.heap kind target.now }
    requires may { MayHold setting.now.expanded.now.prog state.old.structs kind field value.now }
    requires some { 1 ≤ length indexes.now }
    requires indexes { AreWords dag.old indexes.now }
    requires value { Stands dag.old value.now }
    ensures keeps { Keeps dag.old dag.new }
    ensures stores { OnOk result (Stores setting.now dag.old dag.new state.old state.new span (record { root = Field (Reference target.now) kind field; indexes = indexes.now }) value.now) }
{
    let prog = &setting.expanded.prog;
    let (whole, null) = state
        .heap
        .read_field(setting.alloc, dag, prog, kind, target, field)?;
    let made = replaced(setting.alloc, dag, indexes, &whole, value)?;
    let fails = or(dag, null, made.fails)?;
    state.fail_where(setting, dag, fails)?;
    let path = state.path;
    state
        .heap
        .write_field_under(setting.alloc, dag, path, target, field, &made.value)?;
    Ok(())
}

/// Stores a value in a whole field of the slot that a reference is at.
fn write_target(
    setting: &Setting<'_>,
    dag: &mut Dag,
    state: &mut SymState,
    span: Span,
    target: &Targets,
    kind: StructId,
    field: u32,
    value: &Shape,
) -> Result<(), AllocError>
    requires stands { StateStands dag.old setting.now.expanded.now.prog state.old }
    requires target { RefersTo dag.old state.old.heap kind target.now }
    requires fits { FitsField setting.now.expanded.now.prog state.old.structs kind field value.now }
    requires value { Stands dag.old value.now }
    ensures keeps { Keeps dag.old dag.new }
    ensures stores { OnOk result (Stores setting.now dag.old dag.new state.old state.new span (record { root = Field (Reference target.now) kind field; indexes = [] }) value.now) }
{
    let path = state.path;
    let null = state
        .heap
        .write_field_under(setting.alloc, dag, path, target, field, value)?;
    state.fail_where(setting, dag, null)?;
    Ok(())
}

/// Stores a value in a whole field of what a reference stands for. It fails where the reference is null, and where it is none.
pub(crate) fn write_field(
    setting: &Setting<'_>,
    dag: &mut Dag,
    state: &mut SymState,
    span: Span,
    reference: &Shape,
    kind: StructId,
    field: u32,
    value: &Shape,
) -> Result<(), AllocError>
    requires stands { StateStands dag.old setting.now.expanded.now.prog state.old }
    requires reference { Stands dag.old reference.now }
    requires value { Stands dag.old value.now }
    ensures keeps { Keeps dag.old dag.new }
    ensures stores { OnOk result (Stores setting.now dag.old dag.new state.old state.new span (record { root = Field reference.now kind field; indexes = [] }) value.now) }
{
    let prog = &setting.expanded.prog;
    let Shape::Reference(target) = reference else {
        fail_now(setting, dag, state)?;
        return Ok(());
    };
    if !fits_field(prog, state.structs.as_slice(), kind, field, value)
        || !are_kind(state.structs.as_slice(), kind, target.slots.as_slice())
    {
        return Err(never());
    }
    write_target(setting, dag, state, span, target, kind, field, value)
}

/// Stores a value in a field of what a reference stands for, or in a part of it. It fails where the reference is null, and
/// where it is none.
fn store_field(
    setting: &Setting<'_>,
    dag: &mut Dag,
    state: &mut SymState,
    span: Span,
    reference: &Shape,
    kind: StructId,
    field: u32,
    indexes: &[WordId],
    value: &Shape,
) -> Result<(), AllocError>
    requires stands { StateStands dag.old setting.now.expanded.now.prog state.old }
    requires reference { Stands dag.old reference.now }
    requires indexes { AreWords dag.old indexes.now }
    requires value { Stands dag.old value.now }
    ensures keeps { Keeps dag.old dag.new }
    ensures stores { OnOk result (Stores setting.now dag.old dag.new state.old state.new span (record { root = Field reference.now kind field; indexes = indexes.now }) value.now) }
{
    if indexes.is_empty() {
        return write_field(setting, dag, state, span, reference, kind, field, value);
    }
    let prog = &setting.expanded.prog;
    let Shape::Reference(target) = reference else {
        fail_now(setting, dag, state)?;
        return Ok(());
    };
    if !may_hold(prog, state.structs.as_slice(), kind, field, value)
        || !are_kind(state.structs.as_slice(), kind, target.slots.as_slice())
    {
        return Err(never());
    }
    store_target(
        setting, dag, state, span, target, kind, field, indexes, value,
    )
}

/// Stores a value at a location. It fails where the location begins at a field of null, and where an index leaves its
/// array.
///
/// # Errors
///
/// Memory is wanting, or shapes are not of the forms and structs that a typed program has there (`never`). After a refusal the graph
/// has all nodes that it had (`keeps`); the state is given up with the walk that holds it.
pub fn store(
    setting: &Setting<'_>,
    dag: &mut Dag,
    state: &mut SymState,
    span: Span,
    location: &Location,
    value: &Shape,
) -> Result<(), AllocError>
    requires stands { StateStands dag.old setting.now.expanded.now.prog state.old }
    requires location { LocationStands dag.old location.now }
    requires value { Stands dag.old value.now }
    ensures keeps { Keeps dag.old dag.new }
    ensures stores { OnOk result (Stores setting.now dag.old dag.new state.old state.new span location.now value.now) }
{
    let indexes = location.indexes.as_slice();
    match &location.root {
        Root::Variable(slot) => store_variable(setting, dag, state, span, *slot, indexes, value),
        Root::Field {
            reference,
            kind,
            field,
        } => store_field(
            setting, dag, state, span, reference, *kind, *field, indexes, value,
        ),
    }
}
