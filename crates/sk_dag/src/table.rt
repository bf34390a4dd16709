//! A table of the values of some nodes.

ghost use Rattle.std.specs.Prelude.{◌≡◌, ℕ, List, OnOk, IfSome, IsSome, None, Contains, nat_eq, option_copied, unwrap_or, false};
ghost use Rattle.std.specs.HashMap.{get};
ghost use Rattle.sk_dag.specs.declared.value.Value.{Value};
ghost use Rattle.sk_dag.specs.declared.value.Value.TheVariants.{Bit};
ghost use Rattle.sk_dag.specs.Eval.{value_at};
ghost use Rattle.sk_dag.specs.Reach.{Each};
ghost use Rattle.sk_dag.specs.Below.{HoldsValues, IsKnown, entry_of};

use crate::value::Value;
use crate::values::Values;
use std::alloc::{AllocError, Global};
use std::collections::HashMap;

// The values of some nodes, by the nodes' numbers.
#[derive(Drop)]
pub(crate) struct Table {
    pub(crate) values: HashMap<usize, Value>,
}

impl Values for Table {
    ghost value_for = { λ table i. unwrap_or (entry_of table i) (Bit false) };

    fn value(&self, index: usize) -> Value {
        self.get(index).unwrap_or(Value::Bit(false))
    }
}

impl Table {
    pub(crate) fn new(alloc: Global) -> Table
        ensures { (vs : List Value) → HoldsValues result vs }
    {
        Table {
            values: HashMap::new(alloc),
        }
    }

    // The value of the node with this number, if it is there.
    pub(crate) fn get(&self, index: usize) -> Option<Value>
        ensures { result ≡ entry_of self.now index }
    {
        self.values.get(&index).copied()
    }

    // The first of these numbers for which there is no value.
    pub(crate) fn absent(&self, indices: &[usize]) -> Option<usize>
        ensures some { IfSome result (Contains indices.now) }
        ensures none { result ≡ None → Each (IsKnown self.now) indices.now }
    {
        for index in indices {
            if !self.values.contains_key(index) {
                return Some(*index);
            }
        }
        None
    }

    // Notes the value of a node.
    pub(crate) fn insert(&mut self, index: usize, value: Value) -> Result<(), AllocError>
        ensures { OnOk result ((vs : List Value) → HoldsValues self.old vs → value ≡ value_at vs index → HoldsValues self.new vs) }
    {
        self.values.insert(index, value)?;
        Ok(())
    }
}
