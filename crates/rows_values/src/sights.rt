//! What shapes are seen as: each bit as 0 or 1, each reference as its slot, or -1 where it is null.

use row_tables::{Fault, expect, has_bool, has_word};
use sk_base::List;
use sk_dag::{BoolId, Dag, Env, Shape, WordId};
use std::alloc::Global;

/// An environment without holes.
pub fn env_of(alloc: Global, input: &[i64]) -> Result<Env, Fault> {
    Ok(Env {
        choice: List::new(alloc),
        input: List::from_slice(alloc, input)?,
    })
}

/// A truth value of the graph.
pub fn holds(dag: &Dag, env: &Env, a: BoolId) -> Result<bool, Fault> {
    expect(has_bool(dag, a))?;
    let value = dag.eval_bool(a, env)?;
    Ok(value)
}

/// A word of the graph.
fn number(dag: &Dag, env: &Env, a: WordId) -> Result<i64, Fault> {
    expect(has_word(dag, a))?;
    let value = dag.eval_word(a, env)?;
    Ok(value)
}

/// The slot of the target that holds. No other may hold.
fn slot(dag: &Dag, env: &Env, targets: &[(u32, BoolId)]) -> Result<i64, Fault> {
    let mut found = -1;
    for (slot, guard) in targets {
        if holds(dag, env, *guard)? {
            expect(found == -1)?;
            found = *slot as i64;
        }
    }
    Ok(found)
}

/// Adds what a shape is seen as.
#[cycle(see)]
fn see(dag: &Dag, env: &Env, a: &Shape, made: &mut Vec<i64>) -> Result<(), Fault> {
    match a {
        Shape::Bit(id) => made.push(holds(dag, env, *id)? as i64)?,
        Shape::Int(id) => made.push(number(dag, env, *id)?)?,
        Shape::Reference(targets) => made.push(slot(dag, env, targets.slots.as_slice())?)?,
        Shape::Array(parts) => see_all(dag, env, parts.as_slice(), made)?,
    }
    Ok(())
}

/// Adds what shapes are seen as.
#[cycle(see)]
pub fn see_all(dag: &Dag, env: &Env, list: &[Shape], made: &mut Vec<i64>) -> Result<(), Fault> {
    for a in list {
        see(dag, env, a, made)?;
    }
    Ok(())
}
