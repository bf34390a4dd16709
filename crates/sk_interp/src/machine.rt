//! What a run works on: its memory, and the log of its steps.

ghost use Rattle.std.specs.Prelude.{◌≡◌, IfOk};
ghost use Rattle.sk_interp_laws.specs.declared.step.What.TheVariants as what;
ghost use Rattle.sk_model.specs.Step.{pure};
ghost use Rattle.sk_model.specs.Values.{zero_of};
ghost use Rattle.sk_model.specs.Heap.{read, read_field, write, store, allocate};
ghost use Rattle.sk_model.specs.Exec.{onward};
ghost use Rattle.sk_model.specs.Run.{start};
ghost use Rattle.sk_interp_laws.specs.Recording.{lift};
ghost use Rattle.sk_interp_laws.specs.Exec.{truth, stored, going, pay};
ghost use Rattle.sk_interp_laws.specs.Kept.{empty_log, kept};
ghost use Rattle.sk_interp.specs.Records.{Records, RecordsAs};
ghost use Rattle.sk_interp.specs.Calling.{flow_of};
ghost use Rattle.sk_interp.specs.Paths.{load};
ghost use Rattle.sk_interp.specs.Places.{location_of};

use crate::call::Flow;
use crate::location::Location;
use crate::memory::Memory;
use crate::record;
use crate::row::Row;
use crate::stop::Stop;
use crate::value::{copy, zero_of};
use sk_base::Span;
use sk_interp_laws::{Log, Step, What};
use sk_prog::{Prog, StructId, Ty, Value};
use std::alloc::{AllocError, Global};
use std::marker::Model;

/// The step of a statement that stores a value. The value is copied only where the log keeps it.
#[tactic(auto, using(crate::proofs::Machines::full))]
fn store_step(
    alloc: Global,
    log: &Log,
    span: Span,
    active: u32,
    v: &Value,
) -> Result<Step, AllocError>
    ensures { IfOk result (λ step. kept log.now step ≡ kept log.now (record { span = span; active = active; what = what.Store v.now })) }
{
    if !log.has_room() {
        let what = What::Go;
        return Ok(Step { span, active, what });
    }
    let what = What::Store(copy(alloc, v)?);
    Ok(Step { span, active, what })
}

#[derive(Drop)]
pub struct Machine {
    memory: Memory,
    log: Log,
}

impl Model for Machine {
    ghost use Rattle.sk_interp_laws.specs.Recording.{Recorded};
    ghost use Rattle.sk_interp_laws.specs.declared.log.Log as logs;
    ghost use Rattle.std.specs.Coded.{codes};
    ghost use Rattle.sk_prog.specs.contracts.value.Value as held;

    ghost Value = { Recorded logs.Log };

    ghost coded = { Prim.hlevel (codes, held.the_row.coded) };

    ghost view = { λ m. record { memory = m.memory; log = m.log } };
}

#[tactic(auto, using(crate::proofs::Machines::lifts))]
impl Machine {
    /// The machine before a run, whose log keeps so many steps.
    pub fn new(alloc: Global, most: usize) -> Machine
        ensures { result ≡ record { memory = start; log = empty_log most } }
    {
        Machine {
            memory: Memory::new(alloc),
            log: Log::new(alloc, most),
        }
    }

    pub fn cost(&self) -> u64
        ensures { result ≡ self.now.memory.cost }
    {
        self.memory.cost()
    }

    /// The log alone.
    pub fn into_log(self) -> Log
        ensures { result ≡ self.log }
    {
        self.log
    }

    /// The value of a variable.
    pub fn variable(&self, alloc: Global, slot: u32) -> Result<Value, Stop>
        ensures { Records result self.now (lift (read slot) self.now) }
    {
        let v = self.memory.variable(alloc, slot)?;
        Ok(v)
    }

    /// The field of the record that a reference stands for.
    pub fn read_field(
        &self,
        alloc: Global,
        span: Span,
        field: u32,
        v: &Value,
    ) -> Result<Value, Stop>
        ensures { Records result self.now (lift (read_field span field v.now) self.now) }
    {
        let v = self.memory.read_field(alloc, span, field, v)?;
        Ok(v)
    }

    /// A copy of what stands at a location.
    pub fn load(&self, alloc: Global, span: Span, location: &Location) -> Result<Value, Stop>
        ensures { Records result self.now (lift (load span (location_of location.now)) self.now) }
    {
        let v = location.load(alloc, &self.memory, span)?;
        Ok(v)
    }

    /// Puts a value to a location.
    pub fn store(
        &mut self,
        alloc: Global,
        span: Span,
        location: &Location,
        v: Value,
    ) -> Result<(), Stop>
        ensures { Records result self.new (lift (store span (location_of location.now) v) self.old) }
    {
        location.store(alloc, &mut self.memory, span, v)?;
        Ok(())
    }

    /// Makes a record with these fields set.
    pub fn allocate(
        &mut self,
        alloc: Global,
        prog: &Prog,
        s: StructId,
        set: Vec<(u32, Value)>,
    ) -> Result<Value, Stop>
        ensures { Records result self.new (lift (allocate prog.now s set.items) self.old) }
    {
        let place = record::allocate(alloc, &mut self.memory, prog, s, set)?;
        Ok(place)
    }

    /// Puts other variables in the place of all, and hands these out.
    pub fn exchange(&mut self, slots: Row<Value>) -> Row<Value>
        ensures before { result ≡ self.old.memory.slots }
        ensures now { self.new ≡ record self.old { memory = record self.old.memory { slots = slots } } }
    {
        self.memory.exchange(slots)
    }

    /// Gives a variable the value of its type that is unset.
    #[inline(never)]
    pub fn declare(&mut self, alloc: Global, slot: u32, ty: Ty) -> Result<Flow, Stop>
        ensures { RecordsAs flow_of result self.new (lift (onward (write slot (zero_of ty))) self.old) }
    {
        let zero = zero_of(alloc, ty)?;
        self.memory.write(slot, zero)?;
        Ok(Flow::Onward)
    }

    /// Gives a variable its first value, which is a step.
    #[inline(never)]
    pub fn set(
        &mut self,
        alloc: Global,
        span: Span,
        active: u32,
        slot: u32,
        v: Value,
    ) -> Result<Flow, Stop>
        ensures { RecordsAs flow_of result self.new (stored kept active span (write slot v) v self.old) }
    {
        let step = store_step(alloc, &self.log, span, active, &v)?;
        self.memory.write(slot, v)?;
        self.log.keep(step)?;
        Ok(Flow::Onward)
    }

    /// Puts a value to a location, which is a step.
    #[inline(never)]
    pub fn assign(
        &mut self,
        alloc: Global,
        span: Span,
        active: u32,
        location: &Location,
        v: Value,
    ) -> Result<Flow, Stop>
        ensures { RecordsAs flow_of result self.new (stored kept active span (store span (location_of location.now) v) v self.old) }
    {
        let step = store_step(alloc, &self.log, span, active, &v)?;
        location.store(alloc, &mut self.memory, span, v)?;
        self.log.keep(step)?;
        Ok(Flow::Onward)
    }

    /// Whether a condition is true, which is a step.
    #[inline(never)]
    pub fn decide(&mut self, span: Span, active: u32, v: &Value) -> Result<bool, Stop>
        ensures { Records result self.new (truth kept active span v.now self.old) }
    {
        let Value::Bit(b) = v else {
            return Err(Stop::Failed { span });
        };
        let what = What::Truth(*b);
        self.log.keep(Step { span, active, what })?;
        Ok(*b)
    }

    /// Goes on or returns so, which is a step.
    #[inline(never)]
    pub fn go(&mut self, span: Span, active: u32, flow: Flow) -> Result<Flow, Stop>
        ensures { RecordsAs flow_of result self.new (going kept active span (flow_of flow) self.old) }
    {
        let what = What::Go;
        self.log.keep(Step { span, active, what })?;
        Ok(flow)
    }

    /// Adds a number to the cost, which is a step, also where the number is negative.
    #[inline(never)]
    pub fn pay(&mut self, span: Span, active: u32, v: &Value) -> Result<Flow, Stop>
        ensures { RecordsAs flow_of result self.new (pay kept active span v.now self.old) }
    {
        let Value::Int(n) = v else {
            return Err(Stop::Failed { span });
        };
        let what = What::Cost(*n);
        self.log.keep(Step { span, active, what })?;
        if *n < 0 {
            return Err(Stop::Failed { span });
        }
        self.memory.pay(*n as u64);
        Ok(Flow::Onward)
    }
}
