//! What values are in an environment.

use row_tables::{Fault, expect, has_bool, has_word};
use sk_dag::{BoolId, Dag, Env, Shape, WordId};

/// A single value.
#[derive(Clone, Copy, PartialEq, Eq, Debug)]
pub enum Leaf {
    Bit(bool),
    Int(i64),
    Slot(u32),
    Null,
}

fn holds(dag: &Dag, a: BoolId, env: &Env) -> Result<bool, Fault> {
    expect(has_bool(dag, a))?;
    Ok(dag.eval_bool(a, env)?)
}

fn number(dag: &Dag, a: WordId, env: &Env) -> Result<i64, Fault> {
    expect(has_word(dag, a))?;
    Ok(dag.eval_word(a, env)?)
}

/// The slot of the target that holds. At most one may hold.
fn slot(dag: &Dag, targets: &[(u32, BoolId)], env: &Env) -> Result<Leaf, Fault> {
    let mut found = Leaf::Null;
    for (slot, guard) in targets {
        if holds(dag, *guard, env)? {
            expect(found == Leaf::Null)?;
            found = Leaf::Slot(*slot);
        }
    }
    Ok(found)
}

/// A shape that is a single value.
fn leaf_of(dag: &Dag, shape: &Shape, env: &Env) -> Result<Leaf, Fault> {
    match shape {
        Shape::Bit(id) => Ok(Leaf::Bit(holds(dag, *id, env)?)),
        Shape::Int(id) => Ok(Leaf::Int(number(dag, *id, env)?)),
        Shape::Reference(targets) => slot(dag, targets.slots.as_slice(), env),
        // An array of arrays of arrays.
        Shape::Array(_) => Err(Fault::Wrong),
    }
}

/// Adds a single value, or those of an array.
fn add_row(dag: &Dag, shape: &Shape, env: &Env, leaves: &mut Vec<Leaf>) -> Result<(), Fault> {
    let Shape::Array(parts) = shape else {
        leaves.push(leaf_of(dag, shape, env)?)?;
        return Ok(());
    };
    for part in parts.as_slice() {
        leaves.push(leaf_of(dag, part, env)?)?;
    }
    Ok(())
}

/// Adds the single values of a shape, in order.
pub fn add_leaves(
    dag: &Dag,
    shape: &Shape,
    env: &Env,
    leaves: &mut Vec<Leaf>,
) -> Result<(), Fault> {
    let Shape::Array(parts) = shape else {
        return add_row(dag, shape, env, leaves);
    };
    for part in parts.as_slice() {
        add_row(dag, part, env, leaves)?;
    }
    Ok(())
}
