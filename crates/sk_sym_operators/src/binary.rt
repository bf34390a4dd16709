//! The operators of a program on shapes.

ghost use Rattle.std.specs.Prelude.{◌≡◌, ◌∷◌, [], IfOk};
ghost use Rattle.sk_dag.specs.declared.shape.Shape.TheVariants.{Bit, Int};
ghost use Rattle.sk_dag.specs.Graph.{HasBool, HasWord};
ghost use Rattle.sk_dag.specs.Eval.{Keeps};
ghost use Rattle.sk_arr.specs.Answers.{IsEquality};
ghost use Rattle.sk_arr.specs.Shapes.{Stands};
ghost use Rattle.sk_model.specs.Operators.{operand, on_operands, operator as operator_of};
ghost use Rattle.sk_sym_operators.specs.Worth.{worth};
ghost use Rattle.sk_sym_operators.specs.Answers.{IsOperated};

use crate::form::alike;
use crate::operated::{Operated, whole_bit};
use crate::reading::meaningless;
use crate::rows::on_row;
use crate::words::{on_bits, on_words};
use sk_arr::same;
use sk_dag::{BoolId, Dag, Shape, WordId};
use sk_prog::BinOp;
use sk_sym_folds::{flag, not};
use std::alloc::{AllocError, Global};

/// Whether two shapes are equal. Those of different forms are not.
fn compare(dag: &mut Dag, a: &Shape, b: &Shape) -> Result<BoolId, AllocError>
    requires a { Stands dag.old a.now }
    requires b { Stands dag.old b.now }
    ensures keeps { Keeps dag.old dag.new }
    ensures equality { IfOk result (λ r. IsEquality dag.new a.now b.now r) }
{
    if !alike(a, b) {
        let r = flag(dag, false)?;
        return Ok(r);
    }
    let r = same(dag, a, b)?;
    Ok(r)
}

/// An operator on a word and what stands on the other side.
#[tactic(auto, using(sk_arr::proofs::Standing::inside))]
fn on_word(dag: &mut Dag, op: BinOp, x: WordId, b: &Shape) -> Result<Operated, AllocError>
    requires x { HasWord dag.old.nodes x }
    requires b { Stands dag.old b.now }
    ensures keeps { Keeps dag.old dag.new }
    ensures operated { IfOk result (λ made. IsOperated dag.new (Int x ∷ b.now ∷ []) (λ h e holds span.
        on_operands dag.old.bits span op (operand (worth holds h e (Int x))) (operand (worth holds h e b.now))) made.value made.fails) }
{
    match b {
        Shape::Int(y) => {
            let made = on_words(dag, op, x, *y)?;
            Ok(made)
        }
        _ => {
            let made = meaningless(dag)?;
            Ok(made)
        }
    }
}

/// An operator on a bit and what stands on the other side.
#[tactic(auto, using(sk_arr::proofs::Standing::inside))]
fn on_bit(dag: &mut Dag, op: BinOp, x: BoolId, b: &Shape) -> Result<Operated, AllocError>
    requires x { HasBool dag.old.nodes x }
    requires b { Stands dag.old b.now }
    ensures keeps { Keeps dag.old dag.new }
    ensures operated { IfOk result (λ made. IsOperated dag.new (Bit x ∷ b.now ∷ []) (λ h e holds span.
        on_operands dag.old.bits span op (operand (worth holds h e (Bit x))) (operand (worth holds h e b.now))) made.value made.fails) }
{
    match b {
        Shape::Bit(y) => {
            let made = on_bits(dag, op, x, *y)?;
            Ok(made)
        }
        _ => {
            let made = meaningless(dag)?;
            Ok(made)
        }
    }
}

/// An operator on two shapes, but for comparisons.
#[tactic(auto, using(sk_arr::proofs::Standing::inside))]
fn on_forms(
    alloc: Global,
    dag: &mut Dag,
    op: BinOp,
    a: &Shape,
    b: &Shape,
) -> Result<Operated, AllocError>
    requires a { Stands dag.old a.now }
    requires b { Stands dag.old b.now }
    ensures keeps { Keeps dag.old dag.new }
    ensures operated { IfOk result (λ made. IsOperated dag.new (a.now ∷ b.now ∷ []) (λ h e holds span.
        on_operands dag.old.bits span op (operand (worth holds h e a.now)) (operand (worth holds h e b.now))) made.value made.fails) }
{
    match a {
        Shape::Int(x) => {
            let made = on_word(dag, op, *x, b)?;
            Ok(made)
        }
        Shape::Bit(x) => {
            let made = on_bit(dag, op, *x, b)?;
            Ok(made)
        }
        Shape::Array(x) => {
            let made = on_row(alloc, dag, op, x, b)?;
            Ok(made)
        }
        Shape::Reference(_) => {
            let made = meaningless(dag)?;
            Ok(made)
        }
    }
}

/// An operator on two shapes. It fails on those of forms for which it has no meaning.
///
/// # Errors
///
/// Memory is wanting. After a refusal the graph has all nodes that it had (`keeps`).
pub fn operator(
    alloc: Global,
    dag: &mut Dag,
    op: BinOp,
    a: &Shape,
    b: &Shape,
) -> Result<Operated, AllocError>
    requires a { Stands dag.old a.now }
    requires b { Stands dag.old b.now }
    ensures keeps { Keeps dag.old dag.new }
    ensures operated { IfOk result (λ made. IsOperated dag.new (a.now ∷ b.now ∷ []) (λ h e holds span.
        operator_of dag.old.bits span op (worth holds h e a.now) (worth holds h e b.now)) made.value made.fails) }
{
    match op {
        BinOp::Eq => {
            let r = compare(dag, a, b)?;
            let made = whole_bit(dag, r)?;
            Ok(made)
        }
        BinOp::Ne => {
            let r = compare(dag, a, b)?;
            let n = not(dag, r)?;
            let made = whole_bit(dag, n)?;
            Ok(made)
        }
        _ => {
            let made = on_forms(alloc, dag, op, a, b)?;
            Ok(made)
        }
    }
}
