//! Values of nodes, by the nodes' numbers.

ghost use Rattle.std.specs.Prelude.{◌≡◌, ℕ, List, OnOk, nat_eq, unwrap_or};
ghost use Rattle.std.specs.HashMap.{get};
ghost use Rattle.sk_dag.specs.declared.value.Value.{Value};
ghost use Rattle.sk_dag.specs.Eval.{value_at};

use crate::value::Value;
use std::alloc::{AllocError, Global};
use std::collections::HashMap;

// The values of nodes, by their numbers. Where a node has none, its value is false.
pub(crate) trait Values {
    ghost value_for: { Self → ℕ → Value };

    fn value(&self, index: usize) -> Value
        ensures { result ≡ value_for self.now index };
}

impl Values for Vec<Value> {
    ghost value_for = { λ vs i. value_at vs.items i };

    fn value(&self, index: usize) -> Value {
        self.get(index).copied().unwrap_or(Value::Bit(false))
    }
}
