//! How a run ends, as text: by its outcome, and by an outcome over nodes in an environment.

ghost use Rattle.std.specs.Option.{option_copied};
ghost use Rattle.sk_dag.specs.Graph.{HasBool, HasCost};
ghost use Rattle.sk_arr.specs.Shapes.{Stands, AllStand};
ghost use Rattle.sk_sym_state.specs.Stands.{AnyStands};

use sk_base::{List, Span};
use sk_dag::{Dag, Env, Shape};
use sk_exec_values::run_text;
use sk_model::Outcome;
use sk_prog::{Fun, Value};
use sk_sym::SymOutcome;
use std::alloc::{AllocError, Global};

/// What a shape is worth in an environment. One that may name a record counts as null.
#[cycle(worth)]
fn worth(alloc: Global, dag: &Dag, env: &Env, shape: &Shape) -> Result<Value, AllocError>
    requires { Stands dag.now shape.now }
{
    match shape {
        Shape::Bit(id) => {
            let bit = dag.eval_bool(*id, env)?;
            Ok(Value::Bit(bit))
        }
        Shape::Int(id) => {
            let number = dag.eval_word(*id, env)?;
            Ok(Value::Int(number))
        }
        Shape::Reference(_) => Ok(Value::Null),
        Shape::Array(parts) => {
            let values = all_worth(alloc, dag, env, parts.as_slice())?;
            Ok(Value::Array(values))
        }
    }
}

#[cycle(worth)]
fn all_worth(
    alloc: Global,
    dag: &Dag,
    env: &Env,
    shapes: &[Shape],
) -> Result<List<Value>, AllocError>
    requires { AllStand dag.now shapes.now }
{
    let mut values = List::new(alloc);
    for shape in shapes {
        let value = worth(alloc, dag, env, shape)?;
        values.push(value)?;
    }
    Ok(values)
}

fn any_worth(
    alloc: Global,
    dag: &Dag,
    env: &Env,
    shape: Option<&Shape>,
) -> Result<Option<Value>, AllocError>
    requires { AnyStands dag.now (option_copied shape) }
{
    match shape {
        None => Ok(None),
        Some(shape) => {
            let value = worth(alloc, dag, env, shape)?;
            Ok(Some(value))
        }
    }
}

// A run that is done, at this cost.
fn done_of(
    alloc: Global,
    dag: &Dag,
    env: &Env,
    made: &SymOutcome,
    cost: u64,
) -> Result<Outcome, AllocError>
    requires result { AnyStands dag.now made.now.result }
    requires refs { AllStand dag.now made.now.refs }
{
    let refs = all_worth(alloc, dag, env, made.refs.as_slice())?;
    let result = any_worth(alloc, dag, env, made.result.as_ref())?;
    Ok(Outcome::Done { result, refs, cost })
}

/// How a run ends, as an outcome over nodes says in an environment, with no place in a text.
pub fn ending_of(
    alloc: Global,
    dag: &Dag,
    env: &Env,
    made: &SymOutcome,
) -> Result<Outcome, AllocError>
    requires failed { HasBool dag.now.nodes made.now.failed }
    requires skipped { HasBool dag.now.nodes made.now.skipped }
    requires cost { HasCost dag.now.nodes made.now.cost }
    requires result { AnyStands dag.now made.now.result }
    requires refs { AllStand dag.now made.now.refs }
{
    let span = Span { from: 0, to: 0 };
    if dag.eval_bool(made.failed, env)? {
        return Ok(Outcome::Failed { span });
    }
    if dag.eval_bool(made.skipped, env)? {
        return Ok(Outcome::Skipped { span });
    }
    let cost = dag.eval_cost(made.cost, env)?;
    done_of(alloc, dag, env, made, cost)
}

/// A run that is done in the words of `exec` on one line; of another `failed` or `skipped`.
pub fn ending_text(alloc: Global, fun: &Fun, outcome: &Outcome) -> Result<Vec<u8>, AllocError> {
    match outcome {
        Outcome::Failed { .. } => Vec::from_slice(alloc, b"failed"),
        Outcome::Skipped { .. } => Vec::from_slice(alloc, b"skipped"),
        Outcome::Done { .. } => {
            let lines = run_text(alloc, fun, outcome)?;
            on_one_line(alloc, lines.as_slice())
        }
    }
}

// Lines with a blank in place of each line feed but the last.
fn on_one_line(alloc: Global, lines: &[u8]) -> Result<Vec<u8>, AllocError> {
    let lines = lines.strip_suffix(b"\n").unwrap_or(lines);
    let mut line = Vec::new(alloc);
    for b in lines {
        line.push(if *b == b'\n' { b' ' } else { *b })?;
    }
    Ok(line)
}
