//! Single values that are given.

ghost use Rattle.std.specs.Prelude.{◌≡◌, IfOk};
ghost use Rattle.sk_base.specs.Word.{IsWord};
ghost use Rattle.sk_dag.specs.Graph.{Graph};
ghost use Rattle.sk_dag.specs.Eval.{Keeps};
ghost use Rattle.sk_model.specs.Values.{zero_of_elem as zero_of_elem_of};
ghost use Rattle.sk_model.specs.Eval.{number_at as number_at_of};
ghost use Rattle.sk_prog.specs.declared.value.Value.TheVariants as value;
ghost use Rattle.sk_prog.specs.declared.ty.Elem.TheVariants as elem;
ghost use Rattle.sk_sym_literals.specs.Given.{IsGiven};

use sk_dag::word::wrap_unsigned;
use sk_dag::{Dag, Shape, Targets};
use sk_prog::Elem;
use sk_sym_folds::{flag, word};
use smallvec::SmallVec;
use std::alloc::{AllocError, Global};

/// A bit.
///
/// # Errors
///
/// Memory is wanting. After a refusal the graph has all nodes that it had (`keeps`).
pub fn bit(dag: &mut Dag, b: bool) -> Result<Shape, AllocError>
    ensures keeps { Keeps dag.old dag.new }
    ensures given { IfOk result (λ r. IsGiven dag.new (value.Bit b) r) }
{
    let id = flag(dag, b)?;
    Ok(Shape::Bit(id))
}

/// A word in range of the width.
pub(crate) fn int(dag: &mut Dag, z: i64) -> Result<Shape, AllocError>
    requires { IsWord dag.old.bits z }
    ensures keeps { Keeps dag.old dag.new }
    ensures given { IfOk result (λ r. IsGiven dag.new (value.Int z) r) }
{
    let id = word(dag, z)?;
    Ok(Shape::Int(id))
}

/// The reference to nothing. It adds no node.
pub fn null(alloc: Global) -> Shape
    ensures { (g : Graph) → IsGiven g value.Null result }
{
    Shape::Reference(Targets {
        slots: SmallVec::new(alloc),
    })
}

/// The 0 of a type of single values: false, 0 or null.
#[tactic(auto, using(crate::proofs::Values::single))]
pub(crate) fn zero_of_elem(alloc: Global, dag: &mut Dag, elem: Elem) -> Result<Shape, AllocError>
    ensures keeps { Keeps dag.old dag.new }
    ensures given { IfOk result (λ r. IsGiven dag.new (zero_of_elem_of elem) r) }
{
    match elem {
        Elem::Bit => {
            let r = bit(dag, false)?;
            Ok(r)
        }
        Elem::Int => {
            let r = int(dag, 0)?;
            Ok(r)
        }
        Elem::Reference(_) => Ok(null(alloc)),
    }
}

/// A written number as a word.
#[tactic(auto, using(sk_sym_folds::proofs::Makers::arithmetic))]
fn number(dag: &mut Dag, n: u32) -> Result<Shape, AllocError>
    ensures keeps { Keeps dag.old dag.new }
    ensures given { IfOk result (λ r. IsGiven dag.new (number_at_of dag.old.bits elem.Int n) r) }
{
    let bits = dag.int_bits();
    let r = int(dag, wrap_unsigned(bits, u64::from(n)))?;
    Ok(r)
}

/// A written number at a type of single values.
#[tactic(auto, using(crate::proofs::Values::single))]
pub(crate) fn number_at(
    alloc: Global,
    dag: &mut Dag,
    elem: Elem,
    n: u32,
) -> Result<Shape, AllocError>
    ensures keeps { Keeps dag.old dag.new }
    ensures given { IfOk result (λ r. IsGiven dag.new (number_at_of dag.old.bits elem n) r) }
{
    match elem {
        Elem::Int => {
            let r = number(dag, n)?;
            Ok(r)
        }
        Elem::Bit => {
            let r = bit(dag, n != 0)?;
            Ok(r)
        }
        Elem::Reference(_) => Ok(null(alloc)),
    }
}
