//! The variables in scope.
ghost use Rattle.std.specs.Prelude.{◌≡◌, [], ◌∷◌, ◌++◌, ◌-◌, length, take, OnOk, OnErr};
ghost use Rattle.sk_types_rules.specs.Scope.{lookup};

use crate::numbers::Numbers;
use sk_base::{Name, at};
use sk_prog::Ty;
use sk_types_rules::{Place, Variable};
use std::alloc::{AllocError, Global};
use std::marker::Model;

/// A variable in scope, and the slot of the variable of its name that it hides.
#[derive(Drop)]
struct Entered {
    variable: Variable,
    hides: Option<usize>,
}

/// The variables in scope, oldest first, with a table of the nearest of each name. Contracts see the list of them.
#[derive(Drop)]
pub struct Scope {
    entered: Vec<Entered>,
    slots: Numbers,
}

impl Model for Scope {
    ghost use Rattle.std.specs.Prelude.{List, map};
    ghost use Rattle.sk_types_rules.specs.declared.scope.Variable.{Variable};
    ghost use Rattle.sk_types_names.specs.Slots.{variables, AreSlots};

    ghost Value = { List Variable };

    ghost view = { λ scope. variables scope.entered.items };

    ghost invariant = { λ scope. AreSlots scope.entered.items scope.slots };
}

impl Scope {
    /// No variables. It takes no memory.
    #[tactic(auto, using(crate::proofs::SlotLaws::no_slots))]
    pub fn new(alloc: Global) -> Scope
        ensures { result ≡ [] }
    {
        Scope {
            entered: Vec::new(alloc),
            slots: Numbers::new(alloc),
        }
    }

    /// How many variables are in scope, which is the slot of the next.
    pub fn len(&self) -> usize
        ensures { result ≡ length self.now }
    {
        self.entered.len()
    }

    /// The nearest visible variable of this name.
    #[tactic(auto, using(crate::proofs::SlotLaws::looked))]
    pub fn lookup(&self, name: &Name) -> Option<Place>
        ensures { result ≡ lookup self.now name.now }
    {
        let slot = self.slots.get(name)?;
        let entered = at(self.entered.as_slice(), slot)?;
        Some(Place {
            slot,
            ty: entered.variable.ty,
        })
    }

    /// One more variable. Where memory is wanting, the scope stays as it was.
    #[tactic(auto, using(crate::proofs::SlotLaws::entered_slots))]
    pub fn enter(&mut self, variable: Variable) -> Result<(), AllocError>
        ensures ok { OnOk result (self.new ≡ self.old ++ variable ∷ []) }
        ensures err { OnErr result (self.new ≡ self.old) }
    {
        self.entered.reserve(1)?;
        let hides = self.slots.get(&variable.name);
        self.slots.put(&variable.name, self.entered.len())?;
        self.entered.push_reserved(Entered { variable, hides });
        Ok(())
    }

    /// Leaves the oldest `count` variables in scope.
    #[tactic(auto, using(crate::proofs::SlotLaws::left_more, crate::proofs::SlotLaws::left_all))]
    pub fn leave(&mut self, count: usize)
        ensures { self.new ≡ take count self.old }
    {
        while count < self.entered.len() {
            self.leave_last();
        }
    }

    /// The newest variable is no longer in scope.
    #[tactic(auto, using(crate::proofs::SlotLaws::left_slots, crate::proofs::SlotLaws::has_slot))]
    fn leave_last(&mut self)
        ensures { self.new ≡ take (length self.old - 1) self.old }
    {
        if let Some(Entered { variable, hides }) = self.entered.pop() {
            self.slots.set(&variable.name, hides);
        }
    }
}
