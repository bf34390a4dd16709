//! Values as shapes that are the same in each environment.

ghost use Rattle.std.specs.Prelude.{◌≡◌, IfOk};
ghost use Rattle.sk_dag.specs.declared.env.Env.{Env};
ghost use Rattle.sk_dag.specs.Graph.{Graph, Grows, HasWord};
ghost use Rattle.sk_dag.specs.Eval.{Keeps, word_value};
ghost use Rattle.sk_oblig_arguments.specs.Constants.{AreConstant, IsConstant};
ghost use Rattle.sk_prog.specs.declared.value.Value.TheVariants as value;

use sk_base::{List, wrap};
use sk_dag::{Dag, Shape, Targets, WordId};
use sk_limits::never;
use sk_prog::Value;
use sk_sym_folds::{flag, word};
use smallvec::SmallVec;
use std::alloc::{AllocError, Global};

// A word that is given. Each `int` of an input in range is one of the width.
fn word_if(dag: &mut Dag, number: i64) -> Result<WordId, AllocError>
    ensures keeps { Keeps dag.old dag.new }
    ensures there { IfOk result (λ r. HasWord dag.new.nodes r) }
    ensures value { IfOk result (λ r. (g : Graph) → Grows dag.new g → (e : Env) → word_value g e r ≡ number) }
{
    let wrapped = wrap(dag.int_bits(), number);
    if wrapped != number {
        return Err(never());
    }
    let r = word(dag, wrapped)?;
    Ok(r)
}

fn constant_bit(dag: &mut Dag, bit: bool) -> Result<Shape, AllocError>
    ensures keeps { Keeps dag.old dag.new }
    ensures constant { IfOk result (λ r. IsConstant dag.new (value.Bit bit) r) }
{
    let id = flag(dag, bit)?;
    Ok(Shape::Bit(id))
}

fn constant_int(dag: &mut Dag, number: i64) -> Result<Shape, AllocError>
    ensures keeps { Keeps dag.old dag.new }
    ensures constant { IfOk result (λ r. IsConstant dag.new (value.Int number) r) }
{
    let id = word_if(dag, number)?;
    Ok(Shape::Int(id))
}

pub(crate) fn constant_null(alloc: Global) -> Shape
    ensures { (d : Graph) → IsConstant d value.Null result }
{
    Shape::Reference(Targets {
        slots: SmallVec::new(alloc),
    })
}

/// A value as a shape. No value of an input names a record.
#[cycle(constant)]
#[tactic(auto, using(crate::proofs::Shaping::arrays))]
pub(crate) fn constant(alloc: Global, dag: &mut Dag, value: &Value) -> Result<Shape, AllocError>
    ensures keeps { Keeps dag.old dag.new }
    ensures constant { IfOk result (λ r. IsConstant dag.new value.now r) }
{
    match value {
        Value::Bit(bit) => {
            let r = constant_bit(dag, *bit)?;
            Ok(r)
        }
        Value::Int(number) => {
            let r = constant_int(dag, *number)?;
            Ok(r)
        }
        Value::Null => Ok(constant_null(alloc)),
        Value::Place(_) => Err(never()),
        Value::Array(values) => {
            let parts = constants(alloc, dag, values.as_slice())?;
            Ok(Shape::Array(parts))
        }
    }
}

/// Values as shapes, one by one.
#[cycle(constant)]
#[tactic(auto, using(crate::proofs::Shaping::arrays))]
pub fn constants(alloc: Global, dag: &mut Dag, values: &[Value]) -> Result<List<Shape>, AllocError>
    ensures keeps { Keeps dag.old dag.new }
    ensures constants { IfOk result (λ made. AreConstant dag.new values.now made) }
{
    let mut made = List::new(alloc);
    for value in values {
        let one = constant(alloc, dag, value)?;
        made.push(one)?;
    }
    Ok(made)
}
