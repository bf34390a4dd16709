//! The variables in scope.

ghost use Rattle.std.specs.Prelude.{◌≡◌, IfOk, OnOk, take, slice_set};
ghost use Rattle.sk_sym_state.specs.Variables.{with_slots, IsVariable, IsDeclared};

use crate::state::SymState;
use sk_arr::copy_shape;
use sk_base::List;
use sk_dag::Shape;
use sk_limits::never;
use std::alloc::{AllocError, Global};

/// Leaves the first so many of a list.
fn cut(list: &mut List<Shape>, count: usize)
    ensures { list.new ≡ take count list.old }
{
    while list.len() > count {
        list.pop();
    }
}

impl SymState {
    /// What a variable holds. One that is not in scope is what no typed program reads (`never`).
    pub fn read(&self, alloc: Global, slot: u32) -> Result<Shape, AllocError>
        ensures { IfOk result (λ r. IsVariable self.now slot r) }
    {
        match self.frame.slots.get(slot as usize) {
            Some(held) => {
                let r = copy_shape(alloc, held)?;
                Ok(r)
            }
            None => Err(never()),
        }
    }

    /// Brings a variable into scope. Those from its slot on leave it. Where its slot is past the variables in scope, which no
    /// typed program declares, they stay: of what stands behind them nothing is shown. After a refusal the state is given up
    /// with the walk that holds it.
    pub fn declare(&mut self, slot: u32, value: Shape) -> Result<(), AllocError>
        ensures { OnOk result (IsDeclared self.old self.new slot value) }
    {
        if slot as usize > self.frame.slots.len() {
            return Ok(());
        }
        cut(&mut self.frame.slots, slot as usize);
        self.frame.slots.push(value)?;
        Ok(())
    }

    /// Puts another value into a variable. Where that is not in scope, which no typed program assigns to, those in scope stay.
    pub fn assign(&mut self, slot: u32, value: Shape)
        ensures { self.new ≡ with_slots self.old (slice_set self.old.frame.slots slot value) }
    {
        if (slot as usize) < self.frame.slots.len() {
            self.frame.slots.set(slot as usize, value);
        }
    }

    /// Leaves the first so many variables in scope.
    pub fn forget(&mut self, count: usize)
        ensures { self.new ≡ with_slots self.old (take count self.old.frame.slots) }
    {
        cut(&mut self.frame.slots, count);
    }
}
