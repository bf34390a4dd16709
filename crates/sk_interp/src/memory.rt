//! The state of a run: the heap, the variables of the active call and the cost.

ghost use Rattle.std.specs.Prelude.{◌≡◌, ◌+◌, ◌-◌, ◌^◌, ◌++◌, ◌∷◌, [], pos, min, map, length, replicate, IfOk, OnOk, slice_index_or, slice_set};
ghost use Rattle.sk_prog.specs.declared.value.Value.TheVariants as value;
ghost use Rattle.sk_model.specs.Values.{zero_of};
ghost use Rattle.sk_model.specs.Heap.{blank, read, written, record_at, read_field, store, Variable, Field};
ghost use Rattle.sk_model.specs.Eval.{or_fail};
ghost use Rattle.sk_interp.specs.Gives.{Gives, Finds};
ghost use Rattle.sk_interp.specs.Paths.{part, load};

use crate::row::Row;
use crate::stop::Stop;
use crate::value::{copy, part, replaced, zero_of};
use sk_base::Span;
use sk_prog::{FieldDef, Value};
use std::alloc::{AllocError, Global};
use std::marker::Model;

/// A copy of the value with this number, the blank where there is none.
pub fn copy_at(alloc: Global, vs: &[Value], i: usize) -> Result<Value, AllocError>
    ensures { IfOk result (λ v. v ≡ slice_index_or vs.now i blank) }
{
    match vs.get(i) {
        Some(v) => {
            let made = copy(alloc, v)?;
            Ok(made)
        }
        None => Ok(Value::Int(0)),
    }
}

/// Copies of values in a row.
pub fn copy_row(alloc: Global, vs: &[Value]) -> Result<Row<Value>, AllocError>
    ensures { IfOk result (λ made. made ≡ vs.now) }
{
    let mut made = Row::new(alloc);
    for v in vs {
        let one = copy(alloc, v)?;
        made.push(one)?;
    }
    Ok(made)
}

/// So many blanks behind.
#[tactic(auto, using(crate::proofs::Ripples::copy_on))]
pub fn add_blanks(slots: &mut Row<Value>, count: usize) -> Result<(), AllocError>
    ensures { OnOk result (slots.new ≡ slots.old ++ replicate count blank) }
{
    for _ in 0..count {
        slots.push(Value::Int(0))?;
    }
    Ok(())
}

/// Puts a value into a slot. Those before it that are not there come to be.
#[tactic(auto, using(crate::proofs::Memories::writing))]
fn write_at(slots: &mut Row<Value>, slot: u32, v: Value) -> Result<(), AllocError>
    ensures { OnOk result (slots.new ≡ written slots.old slot v) }
{
    let at = slot as usize;
    if at < slots.len() {
        slots.replace(at, v);
        return Ok(());
    }
    add_blanks(slots, at - slots.len())?;
    slots.push(v)?;
    Ok(())
}

/// Takes the value out of a slot, and leaves null in its place. One that is not there is blank.
#[tactic(auto, using(crate::proofs::Memories::taking))]
fn take_at(slots: &mut Row<Value>, slot: u32) -> Value
    ensures value { result ≡ slice_index_or slots.old slot blank }
    ensures rest { slots.new ≡ slice_set slots.old slot value.Null }
{
    let at = slot as usize;
    if at < slots.len() {
        return slots.replace(at, Value::Null);
    }
    Value::Int(0)
}

/// A copy of the part of a value that the indexes name.
fn copy_part(alloc: Global, span: Span, v: &Value, indexes: &[i64]) -> Result<Value, Stop>
    ensures { Finds result (or_fail span (part indexes.now v.now)) }
{
    match part(v, indexes) {
        None => Err(Stop::Failed { span }),
        Some(found) => {
            let made = copy(alloc, found)?;
            Ok(made)
        }
    }
}

/// A copy of the part that the indexes name of the value with this number.
fn copy_part_at(
    alloc: Global,
    span: Span,
    vs: &[Value],
    i: u32,
    indexes: &[i64],
) -> Result<Value, Stop>
    ensures { Finds result (or_fail span (part indexes.now (slice_index_or vs.now i blank))) }
{
    match vs.get(i as usize) {
        Some(v) => copy_part(alloc, span, v, indexes),
        None => copy_part(alloc, span, &Value::Int(0), indexes),
    }
}

/// A record in which each field is unset.
pub fn zeros(alloc: Global, fields: &[FieldDef]) -> Result<Row<Value>, AllocError>
    ensures { IfOk result (λ made. made ≡ map (λ f. zero_of f.ty) fields.now) }
{
    let mut made = Row::new(alloc);
    for field in fields {
        let zero = zero_of(alloc, field.ty)?;
        made.push(zero)?;
    }
    Ok(made)
}

/// Sets a field of a record that has it.
#[tactic(auto, using(crate::proofs::Memories::set_past))]
pub fn set_field(fields: &mut Row<Value>, field: u32, v: Value)
    ensures { fields.new ≡ slice_set fields.old field v }
{
    if (field as usize) < fields.len() {
        fields.replace(field as usize, v);
    }
}

#[derive(Drop)]
pub struct Memory {
    heap: Vec<Row<Value>>,
    slots: Row<Value>,
    cost: u64,
}

impl Model for Memory {
    ghost use Rattle.sk_model.specs.Step.{State};
    ghost use Rattle.std.specs.Coded.{codes};
    ghost use Rattle.sk_prog.specs.contracts.value.Value as held;

    ghost Value = { State };

    ghost coded = { Prim.hlevel (codes, held.the_row.coded) };

    ghost view = { λ m. record { heap = m.heap.items; slots = m.slots; cost = m.cost } };
}

impl Memory {
    /// The state before a run.
    pub fn new(alloc: Global) -> Memory
        ensures { result ≡ record { heap = []; slots = []; cost = 0 } }
    {
        Memory {
            heap: Vec::new(alloc),
            slots: Row::new(alloc),
            cost: 0,
        }
    }

    pub fn cost(&self) -> u64
        ensures { result ≡ self.now.cost }
    {
        self.cost
    }

    /// The value in a slot.
    pub fn read(&self, alloc: Global, slot: u32) -> Result<Value, AllocError>
        ensures { IfOk result (λ v. v ≡ slice_index_or self.now.slots slot blank) }
    {
        let made = copy_at(alloc, self.slots.as_slice(), slot as usize)?;
        Ok(made)
    }

    /// The value of a variable.
    #[inline(never)]
    pub fn variable(&self, alloc: Global, slot: u32) -> Result<Value, Stop>
        ensures { Gives result self.now (read slot self.now) }
    {
        let v = self.read(alloc, slot)?;
        Ok(v)
    }

    pub fn write(&mut self, slot: u32, v: Value) -> Result<(), AllocError>
        ensures { OnOk result (self.new ≡ record self.old { slots = written self.old.slots slot v }) }
    {
        write_at(&mut self.slots, slot, v)?;
        Ok(())
    }

    /// Puts other variables in the place of all, and hands these out.
    pub fn exchange(&mut self, slots: Row<Value>) -> Row<Value>
        ensures before { result ≡ self.old.slots }
        ensures now { self.new ≡ record self.old { slots = slots } }
    {
        std::mem::replace(&mut self.slots, slots)
    }

    /// Adds a record to the heap.
    pub fn push(&mut self, fields: Row<Value>) -> Result<Value, AllocError>
        ensures place { IfOk result (λ v. v ≡ value.Place (length self.old.heap)) }
        ensures record { OnOk result (self.new ≡ record self.old { heap = self.old.heap ++ fields ∷ [] }) }
    {
        let place = self.heap.len();
        self.heap.push(fields)?;
        Ok(Value::Place(place))
    }

    /// Adds to the cost, which stays at its greatest.
    pub fn pay(&mut self, cost: u64)
        ensures { self.new ≡ record self.old { cost = min (self.old.cost + cost) (2 ^ 64 - 1) } }
    {
        self.cost = self.cost.saturating_add(cost);
    }

    fn field(&self, alloc: Global, place: usize, field: u32) -> Result<Value, AllocError>
        ensures { IfOk result (λ v. v ≡ slice_index_or (record_at self.now place) field blank) }
    {
        let made = copy_at(alloc, self.fields(place), field as usize)?;
        Ok(made)
    }

    /// The field of the record that a reference stands for.
    #[inline(never)]
    pub fn read_field(
        &self,
        alloc: Global,
        span: Span,
        field: u32,
        v: &Value,
    ) -> Result<Value, Stop>
        ensures { Gives result self.now (read_field span field v.now self.now) }
    {
        match v {
            Value::Place(place) => {
                let made = self.field(alloc, *place, field)?;
                Ok(made)
            }
            _ => Err(Stop::Failed { span }),
        }
    }

    /// The fields of the record at a place.
    fn fields(&self, place: usize) -> &[Value]
        ensures { result.now ≡ record_at self.now place }
    {
        match self.heap.get(place) {
            Some(fields) => fields.as_slice(),
            None => &[],
        }
    }

    /// The part of a variable that the indexes name.
    pub fn load_variable(
        &self,
        alloc: Global,
        span: Span,
        slot: u32,
        indexes: &[i64],
    ) -> Result<Value, Stop>
        ensures { Gives result self.now (load span (record { root = Variable slot; indexes = indexes.now }) self.now) }
    {
        copy_part_at(alloc, span, self.slots.as_slice(), slot, indexes)
    }

    /// The part of a field that the indexes name.
    pub fn load_field(
        &self,
        alloc: Global,
        span: Span,
        reference: &Value,
        field: u32,
        indexes: &[i64],
    ) -> Result<Value, Stop>
        ensures { Gives result self.now (load span (record { root = Field reference.now field; indexes = indexes.now }) self.now) }
    {
        match reference {
            Value::Place(place) => copy_part_at(alloc, span, self.fields(*place), field, indexes),
            _ => Err(Stop::Failed { span }),
        }
    }

    /// Takes the value out of a variable, and leaves null in its place.
    fn take(&mut self, slot: u32) -> Value
        ensures value { result ≡ slice_index_or self.old.slots slot blank }
        ensures rest { self.new ≡ record self.old { slots = slice_set self.old.slots slot value.Null } }
    {
        take_at(&mut self.slots, slot)
    }

    /// Takes the value out of a field of the record at a place, and leaves null there.
    #[tactic(auto, using(crate::proofs::Memories::taking))]
    fn take_field(&mut self, place: usize, field: u32) -> Value
        ensures value { result ≡ slice_index_or (record_at self.old place) field blank }
        ensures rest { self.new ≡ record self.old { heap = slice_set self.old.heap place (slice_set (record_at self.old place) field value.Null) } }
    {
        if place >= self.heap.len() {
            return Value::Int(0);
        }
        take_at(&mut self.heap[place], field)
    }

    /// Sets a field of the record at a place.
    #[tactic(auto, using(crate::proofs::Memories::set_past))]
    fn set(&mut self, place: usize, field: u32, v: Value)
        ensures { self.new ≡ record self.old { heap = slice_set self.old.heap place (slice_set (record_at self.old place) field v) } }
    {
        if place >= self.heap.len() {
            return;
        }
        set_field(&mut self.heap[place], field, v);
    }

    /// Puts a value into a variable, or into the part of it that the indexes name.
    #[tactic(auto, using(crate::proofs::Memories::written_twice))]
    pub fn store_variable(
        &mut self,
        alloc: Global,
        span: Span,
        slot: u32,
        indexes: &[i64],
        v: Value,
    ) -> Result<(), Stop>
        ensures { Gives result self.new (store span (record { root = Variable slot; indexes = indexes.now }) v self.old) }
    {
        let whole = self.take(slot);
        let Some(made) = replaced(alloc, indexes, whole, v)? else {
            return Err(Stop::Failed { span });
        };
        self.write(slot, made)?;
        Ok(())
    }

    /// Puts a value into a field of the record at a place, or into the part of it that the indexes name.
    #[tactic(auto, using(crate::proofs::Memories::set_twice_there))]
    fn store_at(
        &mut self,
        alloc: Global,
        span: Span,
        place: usize,
        field: u32,
        indexes: &[i64],
        v: Value,
    ) -> Result<(), Stop>
        ensures { Gives result self.new (store span (record { root = Field (value.Place place) field; indexes = indexes.now }) v self.old) }
    {
        let whole = self.take_field(place, field);
        let Some(made) = replaced(alloc, indexes, whole, v)? else {
            return Err(Stop::Failed { span });
        };
        self.set(place, field, made);
        Ok(())
    }

    /// Puts a value into a field, or into the part of it that the indexes name.
    pub fn store_field(
        &mut self,
        alloc: Global,
        span: Span,
        reference: &Value,
        field: u32,
        indexes: &[i64],
        v: Value,
    ) -> Result<(), Stop>
        ensures { Gives result self.new (store span (record { root = Field reference.now field; indexes = indexes.now }) v self.old) }
    {
        match reference {
            Value::Place(place) => self.store_at(alloc, span, *place, field, indexes, v),
            _ => Err(Stop::Failed { span }),
        }
    }
}
