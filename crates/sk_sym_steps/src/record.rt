//! Records and their fields.

ghost use Rattle.std.specs.Prelude.{◌≡◌, ◌↔◌, ◌+◌, ◌<◌, length, IfOk, IsTrue, MatchOption, []};
ghost use Rattle.sk_dag.specs.Eval.{Keeps};
ghost use Rattle.sk_arr.specs.Held.{AllPass};
ghost use Rattle.sk_arr.specs.Shapes.{Stands};
ghost use Rattle.sk_prog.specs.Fits.{has_struct as has_struct_of, has_field as has_field_of};
ghost use Rattle.sk_model.specs.Heap.{read_field as reads, allocate as allocates};
ghost use Rattle.sk_sym_state.specs.Seen.{IsWorth};
ghost use Rattle.sk_sym_state.specs.Stands.{StateStands};
ghost use Rattle.sk_sym_state.specs.Meaning.{Evaluates};
ghost use Rattle.sk_sym_steps.specs.Steps.{is_kind, IsNextOf, HasNoneFrom, EvaluatesOn};

use crate::failure::fail_now;
use sk_base::Span;
use sk_dag::{BoolId, Dag, Shape};
use sk_limits::never;
use sk_prog::{Prog, StructId};
use sk_sym_state::{Setting, SymState};
use std::alloc::AllocError;

/// The most slots that a heap has.
const MOST_SLOTS: u32 = 256;

/// Whether a program has a struct.
fn has_struct(prog: &Prog, s: StructId) -> bool
    ensures { result ≡ has_struct_of prog.now s }
{
    (s.index as usize) < prog.structs.len()
}

/// Whether a program has a field of a struct.
fn has_field(prog: &Prog, s: StructId, field: u32) -> bool
    ensures { result ≡ has_field_of prog.now s field }
{
    match prog.structs.as_slice().get(s.index as usize) {
        None => false,
        Some(found) => (field as usize) < found.fields.len(),
    }
}

/// Whether the slot at a place is of a struct.
fn is_kind_at(structs: &[StructId], s: StructId, place: usize) -> bool
    ensures { result ≡ is_kind structs.now s place }
{
    match structs.get(place) {
        None => false,
        Some(kind) => kind.index == s.index,
    }
}

/// Whether a slot is of a struct.
fn is_kind(structs: &[StructId], s: StructId, slot: u32) -> bool
    ensures { result ≡ is_kind structs.now s slot }
{
    is_kind_at(structs, s, slot as usize)
}

/// The first slot of a struct from a place on.
fn next_of(structs: &[StructId], s: StructId, from: usize) -> Option<usize>
    ensures { MatchOption result (HasNoneFrom structs.now s from) (λ slot. IsNextOf structs.now s from slot) }
{
    for slot in from..structs.len() {
        if is_kind_at(structs, s, slot) {
            return Some(slot);
        }
    }
    None
}

/// The place behind one of a list.
fn behind(structs: &[StructId], place: usize) -> usize
    requires { place < length structs.now }
    ensures { result ≡ place + 1 }
{
    place + 1
}

/// Whether each target is a slot of a struct.
#[tactic(auto, using(crate::proofs::Records::other_kind))]
pub fn are_kind(structs: &[StructId], s: StructId, targets: &[(u32, BoolId)]) -> bool
    ensures { IsTrue result ↔ AllPass (is_kind structs.now s) targets.now }
{
    for (slot, _) in targets {
        if !is_kind(structs, s, *slot) {
            return false;
        }
    }
    true
}

/// A new record at one slot more. The heap of a program within the limit on allocations is not full, and its structs are
/// there (`never`).
fn allocate_more(
    setting: &Setting<'_>,
    dag: &mut Dag,
    state: &mut SymState,
    s: StructId,
) -> Result<Shape, AllocError>
    requires stands { StateStands dag.old setting.now.expanded.now.prog state.old }
    ensures keeps { Keeps dag.old dag.new }
    ensures evaluates { IfOk result (λ r. Evaluates setting.now dag.old dag.new state.old state.new r (λ e. allocates setting.now.expanded.now.prog s [])) }
{
    let prog = &setting.expanded.prog;
    if state.heap.slots() >= MOST_SLOTS || !has_struct(prog, s) {
        return Err(never());
    }
    let path = state.path;
    let target = state.heap.alloc_under(setting.alloc, dag, prog, path, s)?;
    state.structs.push(s)?;
    state.cursor = state.structs.len();
    Ok(Shape::Reference(target))
}

/// A new record at the next slot of its struct. The structs of a program are there (`never`).
fn allocate_again(
    setting: &Setting<'_>,
    dag: &mut Dag,
    state: &mut SymState,
    s: StructId,
    place: usize,
) -> Result<Shape, AllocError>
    requires stands { StateStands dag.old setting.now.expanded.now.prog state.old }
    requires next { IsNextOf state.old.structs s state.old.cursor place }
    ensures keeps { Keeps dag.old dag.new }
    ensures evaluates { IfOk result (λ r. Evaluates setting.now dag.old dag.new state.old state.new r (λ e. allocates setting.now.expanded.now.prog s [])) }
{
    let prog = &setting.expanded.prog;
    if !has_struct(prog, s) {
        return Err(never());
    }
    let path = state.path;
    let target = state
        .heap
        .retake_under(setting.alloc, dag, prog, path, s, place)?;
    state.cursor = behind(state.structs.as_slice(), place);
    Ok(Shape::Reference(target))
}

/// A new record of a struct in which each field is 0, and a reference to it. It is at the next slot of the struct from the
/// cursor on, where there is one, and else at one more. After a refusal the graph has all nodes that it had (`keeps`); the
/// state is given up with the walk that holds it.
pub fn allocate(
    setting: &Setting<'_>,
    dag: &mut Dag,
    state: &mut SymState,
    s: StructId,
) -> Result<Shape, AllocError>
    requires stands { StateStands dag.old setting.now.expanded.now.prog state.old }
    ensures keeps { Keeps dag.old dag.new }
    ensures evaluates { IfOk result (λ r. Evaluates setting.now dag.old dag.new state.old state.new r (λ e. allocates setting.now.expanded.now.prog s [])) }
{
    match next_of(state.structs.as_slice(), s, state.cursor) {
        Some(place) => {
            let r = allocate_again(setting, dag, state, s, place)?;
            Ok(r)
        }
        None => {
            let r = allocate_more(setting, dag, state, s)?;
            Ok(r)
        }
    }
}

/// A field of the record that a reference is at. It fails where the reference is null, and wherever the run goes on where the
/// shape is no reference. A reference of a typed program is at records of the struct, which has the field (`never`). After a refusal the graph has all nodes
/// that it had (`keeps`); the state is given up with the walk that holds it.
pub fn read_field(
    setting: &Setting<'_>,
    dag: &mut Dag,
    state: &mut SymState,
    span: Span,
    s: StructId,
    field: u32,
    reference: &Shape,
) -> Result<Shape, AllocError>
    requires stands { StateStands dag.old setting.now.expanded.now.prog state.old }
    requires reference { Stands dag.old reference.now }
    ensures keeps { Keeps dag.old dag.new }
    ensures evaluates { IfOk result (λ r. EvaluatesOn setting.now dag.old dag.new state.old state.new (λ g e. IsWorth g e state.old.heap reference.now) r (λ e. reads span field)) }
{
    let prog = &setting.expanded.prog;
    let Shape::Reference(target) = reference else {
        let always = fail_now(setting, dag, state)?;
        return Ok(Shape::Bit(always));
    };
    if !has_field(prog, s, field)
        || !are_kind(state.structs.as_slice(), s, target.slots.as_slice())
    {
        return Err(never());
    }
    let (r, null) = state
        .heap
        .read_field(setting.alloc, dag, prog, s, target, field)?;
    state.fail_where(setting, dag, null)?;
    Ok(r)
}
