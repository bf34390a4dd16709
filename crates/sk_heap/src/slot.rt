//! The slots of a heap.

ghost use Rattle.std.specs.Prelude.{◌≡◌, ◌<◌, Some, length, slice_get, slice_set};
ghost use Rattle.sk_heap.specs.Fields.{field_at, HasField, with_field};

use sk_base::List;
use sk_dag::{BoolId, Shape};
use sk_prog::StructId;

/// What an allocation made: a record of a struct where the guard holds, and nothing where it does not.
#[derive(Debug, Drop)]
pub struct Slot {
    pub guard: BoolId,
    pub of: StructId,
    pub fields: List<Shape>,
}

/// A field of a slot.
pub(crate) fn field_of(slots: &[Slot], slot: u32, field: u32) -> &Shape
    requires { HasField slots.now slot field }
    ensures { field_at slots.now slot field ≡ Some result.now }
{
    &slots[slot as usize].fields.as_slice()[field as usize]
}

/// Puts another shape in the place of a field.
pub(crate) fn put(slots: &mut Vec<Slot>, slot: u32, field: u32, shape: Shape)
    requires { HasField slots.old.items slot field }
    ensures { slots.new.items ≡ with_field slots.old.items slot field shape }
{
    let found = &mut slots[slot as usize];
    found.fields.set(field as usize, shape);
}

/// The slot at a place.
pub(crate) fn slot_at(slots: &[Slot], place: usize) -> &Slot
    requires { place < length slots.now }
    ensures { slice_get slots.now place ≡ Some result.now }
{
    &slots[place]
}

/// Puts another slot in the place of one.
pub(crate) fn put_slot(slots: &mut Vec<Slot>, place: usize, slot: Slot)
    requires { place < length slots.old.items }
    ensures { slots.new.items ≡ slice_set slots.old.items place slot }
{
    slots[place] = slot;
}

/// The number of the slot at a place, of so many.
pub(crate) fn number_of(count: u32, place: usize) -> u32
    requires { place < count }
    ensures { result ≡ place }
{
    place as u32
}
