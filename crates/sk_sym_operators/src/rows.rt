//! The operators on arrays of bits.

ghost use Rattle.std.specs.Prelude.{◌≡◌, ◌≢◌, ◌∷◌, [], length, IfOk, if◌then◌else◌};
ghost use Rattle.sk_dag.specs.declared.shape.Shape.TheVariants.{Array, Int};
ghost use Rattle.sk_dag.specs.Graph.{HasWord};
ghost use Rattle.sk_dag.specs.Eval.{Keeps};
ghost use Rattle.sk_arr.specs.Shapes.{Stands, AllStand};
ghost use Rattle.sk_arr.specs.Bits.{AreBits};
ghost use Rattle.sk_prog.specs.declared.expr.BinOp.TheVariants as op_is;
ghost use Rattle.sk_model.specs.Operators.{operand, on_operands};
ghost use Rattle.sk_sym_operators.specs.Worth.{worth};
ghost use Rattle.sk_sym_operators.specs.Fitting.{IsSmaller};
ghost use Rattle.sk_sym_operators.specs.Answers.{IsOperated};

use crate::bitwise::on_pairs;
use crate::fitting::{are_bits, are_even, fitted, smaller};
use crate::operated::Operated;
use crate::reading::meaningless;
use sk_arr::{add_bits, shift};
use sk_base::List;
use sk_dag::{Dag, Shape, WordId};
use sk_prog::BinOp;
use sk_sym_folds::flag;
use std::alloc::{AllocError, Global};

/// The sum of two numbers, bit 0 first, modulo 2 to the length of the first.
fn sum(
    alloc: Global,
    dag: &mut Dag,
    x: &List<Shape>,
    y: &List<Shape>,
) -> Result<Operated, AllocError>
    requires x { AllStand dag.old x.now }
    requires y { AllStand dag.old y.now }
    requires x_bits { AreBits x.now }
    requires y_bits { AreBits y.now }
    requires long { length x.now ≡ length y.now }
    ensures keeps { Keeps dag.old dag.new }
    ensures operated { IfOk result (λ made. IsOperated dag.new (Array x.now ∷ Array y.now ∷ []) (λ h e holds span.
        on_operands dag.old.bits span op_is.Add (operand (worth holds h e (Array x.now))) (operand (worth holds h e (Array y.now)))) made.value made.fails) }
{
    let made = add_bits(alloc, dag, x, y)?;
    let fails = flag(dag, false)?;
    Ok(Operated {
        value: Shape::Array(made),
        fails,
    })
}

/// Bits moved by a count: to higher places, or to lower ones.
fn moved(
    alloc: Global,
    dag: &mut Dag,
    left: bool,
    x: &List<Shape>,
    by: WordId,
) -> Result<Operated, AllocError>
    requires x { AllStand dag.old x.now }
    requires bits { AreBits x.now }
    requires by { HasWord dag.old.nodes by }
    ensures keeps { Keeps dag.old dag.new }
    ensures operated { IfOk result (λ made. IsOperated dag.new (Array x.now ∷ Int by ∷ []) (λ h e holds span.
        on_operands dag.old.bits span (if left then op_is.Shl else op_is.Shr) (operand (worth holds h e (Array x.now))) (operand (worth holds h e (Int by)))) made.value made.fails) }
{
    let moved = shift(alloc, dag, left, x, by)?;
    let (made, fails) = moved;
    Ok(Operated {
        value: Shape::Array(made),
        fails,
    })
}

/// An operator on two arrays of bits that are as long as each other.
fn on_even(
    alloc: Global,
    dag: &mut Dag,
    op: BinOp,
    x: &List<Shape>,
    y: &List<Shape>,
) -> Result<Operated, AllocError>
    requires x { AllStand dag.old x.now }
    requires y { AllStand dag.old y.now }
    requires x_bits { AreBits x.now }
    requires y_bits { AreBits y.now }
    requires long { length x.now ≡ length y.now }
    ensures keeps { Keeps dag.old dag.new }
    ensures operated { IfOk result (λ made. IsOperated dag.new (Array x.now ∷ Array y.now ∷ []) (λ h e holds span.
        on_operands dag.old.bits span op (operand (worth holds h e (Array x.now))) (operand (worth holds h e (Array y.now)))) made.value made.fails) }
{
    match op {
        BinOp::Add => {
            let made = sum(alloc, dag, x, y)?;
            Ok(made)
        }
        _ => {
            let made = on_pairs(alloc, dag, op, x, y)?;
            Ok(made)
        }
    }
}

/// How many bits an operator sees of two arrays of these lengths.
fn seen_length(op: BinOp, x: usize, y: usize) -> usize
    ensures sums { op ≡ op_is.Add → result ≡ x }
    ensures others { op ≢ op_is.Add → IsSmaller x y result }
{
    match op {
        BinOp::Add => x,
        _ => smaller(x, y),
    }
}

/// An operator on two arrays, of which so many bits are seen.
#[tactic(auto, using(sk_arr::proofs::Standing::inside))]
fn on_uneven(
    alloc: Global,
    dag: &mut Dag,
    op: BinOp,
    x: &List<Shape>,
    y: &List<Shape>,
) -> Result<Operated, AllocError>
    requires x { AllStand dag.old x.now }
    requires y { AllStand dag.old y.now }
    ensures keeps { Keeps dag.old dag.new }
    ensures operated { IfOk result (λ made. IsOperated dag.new (Array x.now ∷ Array y.now ∷ []) (λ h e holds span.
        on_operands dag.old.bits span op (operand (worth holds h e (Array x.now))) (operand (worth holds h e (Array y.now)))) made.value made.fails) }
{
    let count = seen_length(op, x.len(), y.len());
    let first = fitted(alloc, dag, x, count)?;
    let second = fitted(alloc, dag, y, count)?;
    let made = on_even(alloc, dag, op, &first, &second)?;
    Ok(made)
}

/// An operator on two arrays, the first of bits.
fn on_arrays(
    alloc: Global,
    dag: &mut Dag,
    op: BinOp,
    x: &List<Shape>,
    y: &List<Shape>,
) -> Result<Operated, AllocError>
    requires x { AllStand dag.old x.now }
    requires y { AllStand dag.old y.now }
    requires bits { AreBits x.now }
    ensures keeps { Keeps dag.old dag.new }
    ensures operated { IfOk result (λ made. IsOperated dag.new (Array x.now ∷ Array y.now ∷ []) (λ h e holds span.
        on_operands dag.old.bits span op (operand (worth holds h e (Array x.now))) (operand (worth holds h e (Array y.now)))) made.value made.fails) }
{
    let first = x.as_slice();
    let second = y.as_slice();
    if !are_even(first, second) {
        let made = on_uneven(alloc, dag, op, x, y)?;
        return Ok(made);
    }
    let made = on_even(alloc, dag, op, x, y)?;
    Ok(made)
}

/// An operator on an array of bits and a count.
fn on_count(
    alloc: Global,
    dag: &mut Dag,
    op: BinOp,
    x: &List<Shape>,
    by: WordId,
) -> Result<Operated, AllocError>
    requires x { AllStand dag.old x.now }
    requires bits { AreBits x.now }
    requires by { HasWord dag.old.nodes by }
    ensures keeps { Keeps dag.old dag.new }
    ensures operated { IfOk result (λ made. IsOperated dag.new (Array x.now ∷ Int by ∷ []) (λ h e holds span.
        on_operands dag.old.bits span op (operand (worth holds h e (Array x.now))) (operand (worth holds h e (Int by)))) made.value made.fails) }
{
    match op {
        BinOp::Shl => {
            let made = moved(alloc, dag, true, x, by)?;
            Ok(made)
        }
        BinOp::Shr => {
            let made = moved(alloc, dag, false, x, by)?;
            Ok(made)
        }
        _ => {
            let made = meaningless(dag)?;
            Ok(made)
        }
    }
}

/// An operator on an array of bits and what stands on the other side.
#[tactic(auto, using(sk_arr::proofs::Standing::inside))]
fn on_bits_and(
    alloc: Global,
    dag: &mut Dag,
    op: BinOp,
    x: &List<Shape>,
    b: &Shape,
) -> Result<Operated, AllocError>
    requires x { AllStand dag.old x.now }
    requires bits { AreBits x.now }
    requires b { Stands dag.old b.now }
    ensures keeps { Keeps dag.old dag.new }
    ensures operated { IfOk result (λ made. IsOperated dag.new (Array x.now ∷ b.now ∷ []) (λ h e holds span.
        on_operands dag.old.bits span op (operand (worth holds h e (Array x.now))) (operand (worth holds h e b.now))) made.value made.fails) }
{
    match b {
        Shape::Array(y) => {
            let made = on_arrays(alloc, dag, op, x, y)?;
            Ok(made)
        }
        Shape::Int(by) => {
            let made = on_count(alloc, dag, op, x, *by)?;
            Ok(made)
        }
        _ => {
            let made = meaningless(dag)?;
            Ok(made)
        }
    }
}

/// An operator on an array of shapes that are not all bits, and what stands on the other side.
#[tactic(auto, using(sk_arr::proofs::Standing::inside))]
fn on_others(
    alloc: Global,
    dag: &mut Dag,
    op: BinOp,
    x: &List<Shape>,
    b: &Shape,
) -> Result<Operated, AllocError>
    requires x { AllStand dag.old x.now }
    requires b { Stands dag.old b.now }
    ensures keeps { Keeps dag.old dag.new }
    ensures operated { IfOk result (λ made. IsOperated dag.new (Array x.now ∷ b.now ∷ []) (λ h e holds span.
        on_operands dag.old.bits span op (operand (worth holds h e (Array x.now))) (operand (worth holds h e b.now))) made.value made.fails) }
{
    let row = fitted(alloc, dag, x, x.len())?;
    let made = on_bits_and(alloc, dag, op, &row, b)?;
    Ok(made)
}

/// An operator on an array and what stands on the other side.
pub(crate) fn on_row(
    alloc: Global,
    dag: &mut Dag,
    op: BinOp,
    x: &List<Shape>,
    b: &Shape,
) -> Result<Operated, AllocError>
    requires x { AllStand dag.old x.now }
    requires b { Stands dag.old b.now }
    ensures keeps { Keeps dag.old dag.new }
    ensures operated { IfOk result (λ made. IsOperated dag.new (Array x.now ∷ b.now ∷ []) (λ h e holds span.
        on_operands dag.old.bits span op (operand (worth holds h e (Array x.now))) (operand (worth holds h e b.now))) made.value made.fails) }
{
    if !are_bits(x.as_slice()) {
        let made = on_others(alloc, dag, op, x, b)?;
        return Ok(made);
    }
    let made = on_bits_and(alloc, dag, op, x, b)?;
    Ok(made)
}
