//! The operators that go bit by bit.

ghost use Rattle.std.specs.Prelude.{◌≡◌, ◌≢◌, ◌∷◌, [], length, IfOk, true};
ghost use Rattle.sk_dag.specs.declared.env.Env.{Env};
ghost use Rattle.sk_dag.specs.declared.shape.Shape.TheVariants.{Array};
ghost use Rattle.sk_dag.specs.Graph.{Graph, Grows, HasBool};
ghost use Rattle.sk_dag.specs.Eval.{bool_value, Keeps};
ghost use Rattle.sk_arr.specs.Forms.{IsBit};
ghost use Rattle.sk_arr.specs.Shapes.{Stands, AllStand};
ghost use Rattle.sk_arr.specs.Bits.{AreBits};
ghost use Rattle.sk_prog.specs.declared.expr.BinOp.TheVariants as op_is;
ghost use Rattle.sk_prog.specs.declared.expr.UnOp.TheVariants as unary_is;
ghost use Rattle.sk_model.specs.Operators.{operand, on_operands, unary_operator};
ghost use Rattle.sk_sym_operators.specs.Worth.{worth};
ghost use Rattle.sk_sym_operators.specs.Answers.{IsOperated};
ghost use Rattle.sk_sym_operators.specs.Bitwise.{is_bitwise, bitwise, IsPair, ArePairs, IsNegation, AreNegations};

use crate::fitting::{are_bits, fitted};
use crate::operated::Operated;
use crate::reading::{bit_in, meaningless};
use sk_base::List;
use sk_dag::{BoolId, Dag, Shape};
use sk_prog::BinOp;
use sk_sym_folds::{and, flag, not, or, xor};
use std::alloc::{AllocError, Global};

/// Whether an operator goes bit by bit.
fn is_bitwise(op: BinOp) -> bool
    ensures { result ≡ is_bitwise op }
{
    match op {
        BinOp::And => true,
        BinOp::Or => true,
        BinOp::Xor => true,
        _ => false,
    }
}

/// What an operator makes of two bits, where it goes bit by bit.
fn joined_bit(dag: &mut Dag, op: BinOp, x: BoolId, y: BoolId) -> Result<BoolId, AllocError>
    requires x { HasBool dag.old.nodes x }
    requires y { HasBool dag.old.nodes y }
    ensures keeps { Keeps dag.old dag.new }
    ensures there { IfOk result (λ r. HasBool dag.new.nodes r) }
    ensures value { IfOk result (λ r. (h : Graph) → Grows dag.new h → (e : Env) →
        bool_value h e r ≡ bitwise op (bool_value h e x) (bool_value h e y)) }
{
    match op {
        BinOp::And => {
            let r = and(dag, x, y)?;
            Ok(r)
        }
        BinOp::Or => {
            let r = or(dag, x, y)?;
            Ok(r)
        }
        BinOp::Xor => {
            let r = xor(dag, x, y)?;
            Ok(r)
        }
        _ => {
            let r = flag(dag, false)?;
            Ok(r)
        }
    }
}

/// What an operator makes of two shapes of bits.
#[tactic(auto, using(sk_arr::proofs::Standing::inside))]
fn pair(dag: &mut Dag, op: BinOp, a: &Shape, b: &Shape) -> Result<BoolId, AllocError>
    requires a { Stands dag.old a.now }
    requires b { Stands dag.old b.now }
    requires a_bit { IsBit a.now }
    requires b_bit { IsBit b.now }
    ensures keeps { Keeps dag.old dag.new }
    ensures pair { IfOk result (λ r. IsPair dag.new (bitwise op) a.now b.now r) }
{
    let r = joined_bit(dag, op, bit_in(a), bit_in(b))?;
    Ok(r)
}

/// What an operator makes of the bits of two lists that are as long as each other, one by one.
#[tactic(auto, using(crate::proofs::EachBit::going))]
fn pairs(
    alloc: Global,
    dag: &mut Dag,
    op: BinOp,
    x: &[Shape],
    y: &[Shape],
) -> Result<List<Shape>, AllocError>
    requires x { AllStand dag.old x.now }
    requires y { AllStand dag.old y.now }
    requires x_bits { AreBits x.now }
    requires y_bits { AreBits y.now }
    requires long { length x.now ≡ length y.now }
    ensures keeps { Keeps dag.old dag.new }
    ensures pairs { IfOk result (λ made. ArePairs dag.new (bitwise op) x.now y.now made) }
{
    let mut made = List::new(alloc);
    let mut i = 0;
    for a in x {
        let one = pair(dag, op, a, &y[i])?;
        made.push(Shape::Bit(one))?;
        i += 1;
    }
    Ok(made)
}

/// An operator on two arrays of bits that are as long as each other, bit by bit.
fn joined(
    alloc: Global,
    dag: &mut Dag,
    op: BinOp,
    x: &List<Shape>,
    y: &List<Shape>,
) -> Result<Operated, AllocError>
    requires x { AllStand dag.old x.now }
    requires y { AllStand dag.old y.now }
    requires x_bits { AreBits x.now }
    requires y_bits { AreBits y.now }
    requires long { length x.now ≡ length y.now }
    requires goes { is_bitwise op ≡ true }
    ensures keeps { Keeps dag.old dag.new }
    ensures operated { IfOk result (λ made. IsOperated dag.new (Array x.now ∷ Array y.now ∷ []) (λ h e holds span.
        on_operands dag.old.bits span op (operand (worth holds h e (Array x.now))) (operand (worth holds h e (Array y.now)))) made.value made.fails) }
{
    let made = pairs(alloc, dag, op, x.as_slice(), y.as_slice())?;
    let fails = flag(dag, false)?;
    Ok(Operated {
        value: Shape::Array(made),
        fails,
    })
}

/// An operator but `+` on two arrays of bits that are as long as each other.
pub(crate) fn on_pairs(
    alloc: Global,
    dag: &mut Dag,
    op: BinOp,
    x: &List<Shape>,
    y: &List<Shape>,
) -> Result<Operated, AllocError>
    requires x { AllStand dag.old x.now }
    requires y { AllStand dag.old y.now }
    requires x_bits { AreBits x.now }
    requires y_bits { AreBits y.now }
    requires long { length x.now ≡ length y.now }
    requires no_sum { op ≢ op_is.Add }
    ensures keeps { Keeps dag.old dag.new }
    ensures operated { IfOk result (λ made. IsOperated dag.new (Array x.now ∷ Array y.now ∷ []) (λ h e holds span.
        on_operands dag.old.bits span op (operand (worth holds h e (Array x.now))) (operand (worth holds h e (Array y.now)))) made.value made.fails) }
{
    if !is_bitwise(op) {
        let made = meaningless(dag)?;
        return Ok(made);
    }
    let made = joined(alloc, dag, op, x, y)?;
    Ok(made)
}

/// The negation of a shape that is a bit.
#[tactic(auto, using(sk_arr::proofs::Standing::inside))]
fn negation(dag: &mut Dag, a: &Shape) -> Result<BoolId, AllocError>
    requires stands { Stands dag.old a.now }
    requires bit { IsBit a.now }
    ensures keeps { Keeps dag.old dag.new }
    ensures negation { IfOk result (λ r. IsNegation dag.new a.now r) }
{
    let r = not(dag, bit_in(a))?;
    Ok(r)
}

/// The negations of the bits of a list, one by one.
#[tactic(auto, using(crate::proofs::EachBit::going))]
fn negations(alloc: Global, dag: &mut Dag, x: &[Shape]) -> Result<List<Shape>, AllocError>
    requires stand { AllStand dag.old x.now }
    requires bits { AreBits x.now }
    ensures keeps { Keeps dag.old dag.new }
    ensures negations { IfOk result (λ made. AreNegations dag.new x.now made) }
{
    let mut made = List::new(alloc);
    for a in x {
        let one = negation(dag, a)?;
        made.push(Shape::Bit(one))?;
    }
    Ok(made)
}

/// An array of bits with each bit negated.
fn negated(alloc: Global, dag: &mut Dag, x: &List<Shape>) -> Result<Operated, AllocError>
    requires stand { AllStand dag.old x.now }
    requires bits { AreBits x.now }
    ensures keeps { Keeps dag.old dag.new }
    ensures operated { IfOk result (λ made. IsOperated dag.new (Array x.now ∷ []) (λ h e holds span.
        unary_operator dag.old.bits span unary_is.Flip (worth holds h e (Array x.now))) made.value made.fails) }
{
    let made = negations(alloc, dag, x.as_slice())?;
    let fails = flag(dag, false)?;
    Ok(Operated {
        value: Shape::Array(made),
        fails,
    })
}

/// An array of shapes that are not all bits with the bit of each negated; one that is no bit counts as false.
fn others_negated(alloc: Global, dag: &mut Dag, x: &List<Shape>) -> Result<Operated, AllocError>
    requires { AllStand dag.old x.now }
    ensures keeps { Keeps dag.old dag.new }
    ensures operated { IfOk result (λ made. IsOperated dag.new (Array x.now ∷ []) (λ h e holds span.
        unary_operator dag.old.bits span unary_is.Flip (worth holds h e (Array x.now))) made.value made.fails) }
{
    let row = fitted(alloc, dag, x, x.len())?;
    let made = negated(alloc, dag, &row)?;
    Ok(made)
}

/// An array with the bit of each element negated.
pub(crate) fn flipped(alloc: Global, dag: &mut Dag, x: &List<Shape>) -> Result<Operated, AllocError>
    requires { AllStand dag.old x.now }
    ensures keeps { Keeps dag.old dag.new }
    ensures operated { IfOk result (λ made. IsOperated dag.new (Array x.now ∷ []) (λ h e holds span.
        unary_operator dag.old.bits span unary_is.Flip (worth holds h e (Array x.now))) made.value made.fails) }
{
    if !are_bits(x.as_slice()) {
        let made = others_negated(alloc, dag, x)?;
        return Ok(made);
    }
    let made = negated(alloc, dag, x)?;
    Ok(made)
}
