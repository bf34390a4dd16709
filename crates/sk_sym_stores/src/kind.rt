//! Which slots a shape names, by their structs.

ghost use Rattle.std.specs.Prelude.{◌≡◌, IsTrue, MatchOption, ⊤};
ghost use Rattle.sk_arr.specs.Held.{AllPass};
ghost use Rattle.sk_arr.specs.Shapes.{SlotsPass, AllSlotsPass};
ghost use Rattle.sk_heap.specs.Types.{elem_of};
ghost use Rattle.sk_sym_stores.specs.Kinds.{may_name_kind, IsFieldElem, IsFieldForm, MayHold, FitsField};

use crate::form::has_form;
use sk_dag::{BoolId, Shape};
use sk_prog::{Elem, Prog, StructId, Ty};
use sk_sym_steps::are_kind;

/// The type of the single values in a type.
fn elem_in(t: &Ty) -> Elem
    ensures { result ≡ elem_of t.now }
{
    match t {
        Ty::One(elem) => *elem,
        Ty::Array(elem, _) => *elem,
        Ty::Grid(elem, _, _) => *elem,
    }
}

/// The type of the single values in a field of a struct, where a program has it.
fn field_elem(prog: &Prog, s: StructId, field: u32) -> Option<Elem>
    ensures { MatchOption result ⊤ (λ elem. IsFieldElem prog.now s field elem) }
{
    match prog.structs.as_slice().get(s.index as usize) {
        None => None,
        Some(found) => match found.fields.as_slice().get(field as usize) {
            None => None,
            Some(def) => Some(elem_in(&def.ty)),
        },
    }
}

/// Whether a value of a type may refer to each of these.
fn targets_kind(structs: &[StructId], elem: Elem, targets: &[(u32, BoolId)]) -> bool
    ensures { IsTrue result → AllPass (may_name_kind structs.now elem) targets.now }
{
    match elem {
        Elem::Reference(s) => are_kind(structs, s, targets),
        _ => targets.is_empty(),
    }
}

/// Whether a value of a type may refer to each slot that a shape names.
#[cycle(kind)]
fn names_kind(structs: &[StructId], elem: Elem, r: &Shape) -> bool
    ensures { IsTrue result → SlotsPass (may_name_kind structs.now elem) r.now }
{
    match r {
        Shape::Bit(_) => true,
        Shape::Int(_) => true,
        Shape::Reference(target) => targets_kind(structs, elem, target.slots.as_slice()),
        Shape::Array(list) => all_name_kind(structs, elem, list.as_slice()),
    }
}

/// So of each of these.
#[cycle(kind)]
fn all_name_kind(structs: &[StructId], elem: Elem, list: &[Shape]) -> bool
    ensures { IsTrue result → AllSlotsPass (may_name_kind structs.now elem) list.now }
{
    for r in list {
        if !names_kind(structs, elem, r) {
            return false;
        }
    }
    true
}

/// Whether a program has a field of a struct, and it may refer to each slot that a shape names.
pub(crate) fn may_hold(
    prog: &Prog,
    structs: &[StructId],
    s: StructId,
    field: u32,
    r: &Shape,
) -> bool
    ensures { IsTrue result → MayHold prog.now structs.now s field r.now }
{
    match field_elem(prog, s, field) {
        None => false,
        Some(elem) => names_kind(structs, elem, r),
    }
}

/// Whether a shape is of the form of the values of a field of a struct, where a program has it.
fn has_field_form(prog: &Prog, s: StructId, field: u32, r: &Shape) -> bool
    ensures { IsTrue result → IsFieldForm prog.now s field r.now }
{
    match prog.structs.as_slice().get(s.index as usize) {
        None => false,
        Some(found) => match found.fields.as_slice().get(field as usize) {
            None => false,
            Some(def) => has_form(&def.ty, r),
        },
    }
}

/// Whether a program has a field of a struct, a shape is of the form of its values, and it may refer to each slot that the
/// shape names.
pub(crate) fn fits_field(
    prog: &Prog,
    structs: &[StructId],
    s: StructId,
    field: u32,
    r: &Shape,
) -> bool
    ensures { IsTrue result → FitsField prog.now structs.now s field r.now }
{
    may_hold(prog, structs, s, field, r) && has_field_form(prog, s, field, r)
}
