//! The operators of one operand, and the coercion of a bit to a word.

ghost use Rattle.std.specs.Prelude.{◌≡◌, ◌∷◌, [], pos, IfOk, if◌then◌else◌};
ghost use Rattle.sk_dag.specs.declared.env.Env.{Env};
ghost use Rattle.sk_dag.specs.declared.shape.Shape.TheVariants.{Bit};
ghost use Rattle.sk_dag.specs.Graph.{Graph, Grows, HasBool, HasWord};
ghost use Rattle.sk_dag.specs.Eval.{bool_value, word_value, Keeps};
ghost use Rattle.sk_arr.specs.Shapes.{Stands};
ghost use Rattle.sk_prog.specs.declared.expr.UnOp.TheVariants as unary_is;
ghost use Rattle.sk_model.specs.Operators.{unary_operator, to_int as to_int_of};
ghost use Rattle.sk_sym_operators.specs.Worth.{worth};
ghost use Rattle.sk_sym_operators.specs.Answers.{IsOperated};

use crate::bitwise::flipped;
use crate::operated::{Operated, whole_bit, whole_word};
use crate::reading::meaningless;
use sk_dag::{BoolId, Dag, Shape, WordId};
use sk_prog::UnOp;
use sk_sym_folds::{mux, neg, not, word};
use std::alloc::{AllocError, Global};

/// The operator `~`.
#[tactic(auto, using(sk_arr::proofs::Standing::inside))]
fn flip(alloc: Global, dag: &mut Dag, a: &Shape) -> Result<Operated, AllocError>
    requires a { Stands dag.old a.now }
    ensures keeps { Keeps dag.old dag.new }
    ensures operated { IfOk result (λ made. IsOperated dag.new (a.now ∷ []) (λ h e holds span.
        unary_operator dag.old.bits span unary_is.Flip (worth holds h e a.now)) made.value made.fails) }
{
    match a {
        Shape::Bit(x) => {
            let r = not(dag, *x)?;
            let made = whole_bit(dag, r)?;
            Ok(made)
        }
        Shape::Array(x) => {
            let made = flipped(alloc, dag, x)?;
            Ok(made)
        }
        _ => {
            let made = meaningless(dag)?;
            Ok(made)
        }
    }
}

/// The operator `!`.
#[tactic(auto, using(sk_arr::proofs::Standing::inside))]
fn opposite(dag: &mut Dag, a: &Shape) -> Result<Operated, AllocError>
    requires a { Stands dag.old a.now }
    ensures keeps { Keeps dag.old dag.new }
    ensures operated { IfOk result (λ made. IsOperated dag.new (a.now ∷ []) (λ h e holds span.
        unary_operator dag.old.bits span unary_is.Not (worth holds h e a.now)) made.value made.fails) }
{
    match a {
        Shape::Bit(x) => {
            let r = not(dag, *x)?;
            let made = whole_bit(dag, r)?;
            Ok(made)
        }
        _ => {
            let made = meaningless(dag)?;
            Ok(made)
        }
    }
}

/// The operator `-`.
#[tactic(auto, using(sk_arr::proofs::Standing::inside))]
fn negative(dag: &mut Dag, a: &Shape) -> Result<Operated, AllocError>
    requires a { Stands dag.old a.now }
    ensures keeps { Keeps dag.old dag.new }
    ensures operated { IfOk result (λ made. IsOperated dag.new (a.now ∷ []) (λ h e holds span.
        unary_operator dag.old.bits span unary_is.Neg (worth holds h e a.now)) made.value made.fails) }
{
    match a {
        Shape::Int(x) => {
            let r = neg(dag, *x)?;
            let made = whole_word(dag, r)?;
            Ok(made)
        }
        _ => {
            let made = meaningless(dag)?;
            Ok(made)
        }
    }
}

/// An operator on one shape. It fails on one of a form for which it has no meaning.
///
/// # Errors
///
/// Memory is wanting. After a refusal the graph has all nodes that it had (`keeps`).
#[tactic(auto, using(sk_arr::proofs::Standing::inside))]
pub fn unary(alloc: Global, dag: &mut Dag, op: UnOp, a: &Shape) -> Result<Operated, AllocError>
    requires a { Stands dag.old a.now }
    ensures keeps { Keeps dag.old dag.new }
    ensures operated { IfOk result (λ made. IsOperated dag.new (a.now ∷ []) (λ h e holds span.
        unary_operator dag.old.bits span op (worth holds h e a.now)) made.value made.fails) }
{
    match op {
        UnOp::Not => {
            let made = opposite(dag, a)?;
            Ok(made)
        }
        UnOp::Flip => {
            let made = flip(alloc, dag, a)?;
            Ok(made)
        }
        UnOp::Neg => {
            let made = negative(dag, a)?;
            Ok(made)
        }
    }
}

/// 1 where the bit holds, and else 0.
#[tactic(auto, using(crate::proofs::Operating::digits))]
fn digit(dag: &mut Dag, x: BoolId) -> Result<WordId, AllocError>
    requires { HasBool dag.old.nodes x }
    ensures keeps { Keeps dag.old dag.new }
    ensures there { IfOk result (λ r. HasWord dag.new.nodes r) }
    ensures value { IfOk result (λ r. (h : Graph) → Grows dag.new h → (e : Env) → word_value h e r ≡ pos (if bool_value h e x then 1 else 0)) }
{
    let _width = dag.int_bits();
    let one = word(dag, 1)?;
    let zero = word(dag, 0)?;
    let r = mux(dag, x, one, zero)?;
    Ok(r)
}

/// A bit as a word.
fn as_word(dag: &mut Dag, x: BoolId) -> Result<Operated, AllocError>
    requires { HasBool dag.old.nodes x }
    ensures keeps { Keeps dag.old dag.new }
    ensures operated { IfOk result (λ made. IsOperated dag.new (Bit x ∷ []) (λ h e holds span. to_int_of span (worth holds h e (Bit x))) made.value made.fails) }
{
    let r = digit(dag, x)?;
    let made = whole_word(dag, r)?;
    Ok(made)
}

/// The coercion of a bit to a word. It fails on a shape that is no bit.
///
/// # Errors
///
/// Memory is wanting. After a refusal the graph has all nodes that it had (`keeps`).
#[tactic(auto, using(sk_arr::proofs::Standing::inside))]
pub fn to_int(dag: &mut Dag, a: &Shape) -> Result<Operated, AllocError>
    requires a { Stands dag.old a.now }
    ensures keeps { Keeps dag.old dag.new }
    ensures operated { IfOk result (λ made. IsOperated dag.new (a.now ∷ []) (λ h e holds span. to_int_of span (worth holds h e a.now)) made.value made.fails) }
{
    match a {
        Shape::Bit(x) => {
            let made = as_word(dag, *x)?;
            Ok(made)
        }
        _ => {
            let made = meaningless(dag)?;
            Ok(made)
        }
    }
}
