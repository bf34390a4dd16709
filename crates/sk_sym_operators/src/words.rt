//! The operators on words and on bits.

ghost use Rattle.std.specs.Prelude.{◌≡◌, ◌≢◌, int_div, int_rem, IfOk};
ghost use Rattle.sk_base.specs.Word.{wrapped};
ghost use Rattle.sk_dag.specs.Graph.{HasBool, HasWord};
ghost use Rattle.sk_dag.specs.Eval.{bool_value, word_value, Keeps};
ghost use Rattle.sk_prog.specs.declared.expr.BinOp.TheVariants as op_is;
ghost use Rattle.sk_model.specs.Operators.{number_operator, bit_operator, divided};
ghost use Rattle.sk_sym_operators.specs.Answers.{IsComputed};

use crate::operated::{Operated, whole_bit, whole_word};
use crate::reading::meaningless;
use sk_dag::{BoolId, Dag, Shape, WordId};
use sk_prog::BinOp;
use sk_sym_folds::{add, and, div, eq, le, lt, mul, or, rem, sub, word, xor};
use std::alloc::AllocError;

/// An operator on two words, but for quotients.
fn on_ring(dag: &mut Dag, op: BinOp, x: WordId, y: WordId) -> Result<Operated, AllocError>
    requires x { HasWord dag.old.nodes x }
    requires y { HasWord dag.old.nodes y }
    requires no_quotient { op ≢ op_is.Div }
    requires no_rest { op ≢ op_is.Rem }
    ensures keeps { Keeps dag.old dag.new }
    ensures computed { IfOk result (λ made. IsComputed dag.new (λ h e span. number_operator dag.old.bits span op (word_value h e x) (word_value h e y)) made.value made.fails) }
{
    match op {
        BinOp::Add => {
            let r = add(dag, x, y)?;
            let made = whole_word(dag, r)?;
            Ok(made)
        }
        BinOp::Sub => {
            let r = sub(dag, x, y)?;
            let made = whole_word(dag, r)?;
            Ok(made)
        }
        BinOp::Mul => {
            let r = mul(dag, x, y)?;
            let made = whole_word(dag, r)?;
            Ok(made)
        }
        BinOp::Lt => {
            let r = lt(dag, x, y)?;
            let made = whole_bit(dag, r)?;
            Ok(made)
        }
        BinOp::Le => {
            let r = le(dag, x, y)?;
            let made = whole_bit(dag, r)?;
            Ok(made)
        }
        BinOp::Gt => {
            let r = lt(dag, y, x)?;
            let made = whole_bit(dag, r)?;
            Ok(made)
        }
        BinOp::Ge => {
            let r = le(dag, y, x)?;
            let made = whole_bit(dag, r)?;
            Ok(made)
        }
        _ => {
            let made = meaningless(dag)?;
            Ok(made)
        }
    }
}

/// The quotient of two words.
#[tactic(auto, using(crate::proofs::Computing::dividing))]
fn quotient(dag: &mut Dag, x: WordId, y: WordId) -> Result<Operated, AllocError>
    requires x { HasWord dag.old.nodes x }
    requires y { HasWord dag.old.nodes y }
    ensures keeps { Keeps dag.old dag.new }
    ensures computed { IfOk result (λ made. IsComputed dag.new (λ h e span. divided span (word_value h e y) (wrapped dag.old.bits (int_div (word_value h e x) (word_value h e y)))) made.value made.fails) }
{
    let r = div(dag, x, y)?;
    let zero = word(dag, 0)?;
    let fails = eq(dag, y, zero)?;
    Ok(Operated {
        value: Shape::Int(r),
        fails,
    })
}

/// What that leaves over.
#[tactic(auto, using(crate::proofs::Computing::dividing))]
fn left_over(dag: &mut Dag, x: WordId, y: WordId) -> Result<Operated, AllocError>
    requires x { HasWord dag.old.nodes x }
    requires y { HasWord dag.old.nodes y }
    ensures keeps { Keeps dag.old dag.new }
    ensures computed { IfOk result (λ made. IsComputed dag.new (λ h e span. divided span (word_value h e y) (wrapped dag.old.bits (int_rem (word_value h e x) (word_value h e y)))) made.value made.fails) }
{
    let r = rem(dag, x, y)?;
    let zero = word(dag, 0)?;
    let fails = eq(dag, y, zero)?;
    Ok(Operated {
        value: Shape::Int(r),
        fails,
    })
}

/// An operator on two words.
pub(crate) fn on_words(
    dag: &mut Dag,
    op: BinOp,
    x: WordId,
    y: WordId,
) -> Result<Operated, AllocError>
    requires x { HasWord dag.old.nodes x }
    requires y { HasWord dag.old.nodes y }
    ensures keeps { Keeps dag.old dag.new }
    ensures computed { IfOk result (λ made. IsComputed dag.new (λ h e span. number_operator dag.old.bits span op (word_value h e x) (word_value h e y)) made.value made.fails) }
{
    match op {
        BinOp::Div => {
            let made = quotient(dag, x, y)?;
            Ok(made)
        }
        BinOp::Rem => {
            let made = left_over(dag, x, y)?;
            Ok(made)
        }
        _ => {
            let made = on_ring(dag, op, x, y)?;
            Ok(made)
        }
    }
}

/// An operator on two bits.
pub(crate) fn on_bits(
    dag: &mut Dag,
    op: BinOp,
    a: BoolId,
    b: BoolId,
) -> Result<Operated, AllocError>
    requires a { HasBool dag.old.nodes a }
    requires b { HasBool dag.old.nodes b }
    ensures keeps { Keeps dag.old dag.new }
    ensures computed { IfOk result (λ made. IsComputed dag.new (λ h e span. bit_operator span op (bool_value h e a) (bool_value h e b)) made.value made.fails) }
{
    match op {
        BinOp::And => {
            let r = and(dag, a, b)?;
            let made = whole_bit(dag, r)?;
            Ok(made)
        }
        BinOp::Or => {
            let r = or(dag, a, b)?;
            let made = whole_bit(dag, r)?;
            Ok(made)
        }
        BinOp::Xor => {
            let r = xor(dag, a, b)?;
            let made = whole_bit(dag, r)?;
            Ok(made)
        }
        _ => {
            let made = meaningless(dag)?;
            Ok(made)
        }
    }
}
