//! Words, and tests of them.

ghost use Rattle.std.specs.Prelude.{◌≡◌, ◌≤◌, ◌+ℤ◌, ◌-ℤ◌, ◌*ℤ◌, neg_ℤ, pos, int_lt, int_le, IfOk, if◌then◌else◌};
ghost use Rattle.std.specs.Ordering.{int_eq};
ghost use Rattle.sk_base.specs.Word.{IsWord, wrapped};
ghost use Rattle.sk_dag.specs.declared.env.Env.{Env};
ghost use Rattle.sk_dag.specs.Word.{quotient as quotient_of, remainder as remainder_of};
ghost use Rattle.sk_dag.specs.Graph.{Graph, Grows, HasBool, HasWord};
ghost use Rattle.sk_dag.specs.Eval.{bool_value, word_value, Keeps};

use crate::bits::not;
use crate::reading::{is_number, known_bool, known_words};
use sk_dag::word::{difference, product, quotient, remainder, sum};
use sk_dag::{BoolId, Dag, WordId};
use std::alloc::AllocError;

/// A word that is given, which is in range of the width.
pub fn word(dag: &mut Dag, value: i64) -> Result<WordId, AllocError>
    requires { IsWord dag.old.bits value }
    ensures keeps { Keeps dag.old dag.new }
    ensures there { IfOk result (λ r. HasWord dag.new.nodes r) }
    ensures value { IfOk result (λ r. (g : Graph) → Grows dag.new g → (e : Env) → word_value g e r ≡ value) }
{
    let r = dag.word(value)?;
    Ok(r)
}

/// `a` where `c` holds, else `b`.
#[tactic(auto, using(crate::proofs::Makers::staying))]
pub fn mux(dag: &mut Dag, c: BoolId, a: WordId, b: WordId) -> Result<WordId, AllocError>
    requires c { HasBool dag.old.nodes c }
    requires a { HasWord dag.old.nodes a }
    requires b { HasWord dag.old.nodes b }
    ensures keeps { Keeps dag.old dag.new }
    ensures there { IfOk result (λ r. HasWord dag.new.nodes r) }
    ensures value { IfOk result (λ r. (g : Graph) → Grows dag.new g → (e : Env) →
        word_value g e r ≡ (if bool_value g e c then word_value g e a else word_value g e b)) }
{
    match known_bool(dag, c) {
        Some(true) => return Ok(a),
        Some(false) => return Ok(b),
        None => {}
    }
    if a.index == b.index {
        return Ok(a);
    }
    let r = dag.mux(c, a, b)?;
    Ok(r)
}

// The sum of two words that are given.
#[tactic(auto, using(crate::proofs::Makers::arithmetic))]
fn given_sum(dag: &mut Dag, x: i64, y: i64) -> Result<WordId, AllocError>
    requires x { IsWord dag.old.bits x }
    requires y { IsWord dag.old.bits y }
    ensures keeps { Keeps dag.old dag.new }
    ensures there { IfOk result (λ r. HasWord dag.new.nodes r) }
    ensures value { IfOk result (λ r. (g : Graph) → Grows dag.new g → (e : Env) → word_value g e r ≡ wrapped dag.old.bits (x +ℤ y)) }
{
    let bits = dag.int_bits();
    let r = dag.word(sum(bits, x, y))?;
    Ok(r)
}

/// The sum, wrapped to the width.
#[tactic(auto, using(crate::proofs::Makers::arithmetic))]
pub fn add(dag: &mut Dag, a: WordId, b: WordId) -> Result<WordId, AllocError>
    requires a { HasWord dag.old.nodes a }
    requires b { HasWord dag.old.nodes b }
    ensures keeps { Keeps dag.old dag.new }
    ensures there { IfOk result (λ r. HasWord dag.new.nodes r) }
    ensures value { IfOk result (λ r. (g : Graph) → Grows dag.new g → (e : Env) →
        word_value g e r ≡ wrapped dag.old.bits (word_value g e a +ℤ word_value g e b)) }
{
    if let Some((x, y)) = known_words(dag, a, b) {
        let r = given_sum(dag, x, y)?;
        return Ok(r);
    }
    if is_number(dag, a, 0) {
        return Ok(b);
    }
    if is_number(dag, b, 0) {
        return Ok(a);
    }
    let r = dag.add(a, b)?;
    Ok(r)
}

// The difference of two words that are given.
#[tactic(auto, using(crate::proofs::Makers::arithmetic))]
fn given_difference(dag: &mut Dag, x: i64, y: i64) -> Result<WordId, AllocError>
    requires x { IsWord dag.old.bits x }
    requires y { IsWord dag.old.bits y }
    ensures keeps { Keeps dag.old dag.new }
    ensures there { IfOk result (λ r. HasWord dag.new.nodes r) }
    ensures value { IfOk result (λ r. (g : Graph) → Grows dag.new g → (e : Env) → word_value g e r ≡ wrapped dag.old.bits (x -ℤ y)) }
{
    let bits = dag.int_bits();
    let r = dag.word(difference(bits, x, y))?;
    Ok(r)
}

/// The difference, wrapped to the width.
#[tactic(auto, using(crate::proofs::Makers::arithmetic))]
pub fn sub(dag: &mut Dag, a: WordId, b: WordId) -> Result<WordId, AllocError>
    requires a { HasWord dag.old.nodes a }
    requires b { HasWord dag.old.nodes b }
    ensures keeps { Keeps dag.old dag.new }
    ensures there { IfOk result (λ r. HasWord dag.new.nodes r) }
    ensures value { IfOk result (λ r. (g : Graph) → Grows dag.new g → (e : Env) →
        word_value g e r ≡ wrapped dag.old.bits (word_value g e a -ℤ word_value g e b)) }
{
    if let Some((x, y)) = known_words(dag, a, b) {
        let r = given_difference(dag, x, y)?;
        return Ok(r);
    }
    if is_number(dag, b, 0) {
        return Ok(a);
    }
    if a.index == b.index {
        let r = dag.word(0)?;
        return Ok(r);
    }
    let r = dag.sub(a, b)?;
    Ok(r)
}

// The product of two words that are given.
#[tactic(auto, using(crate::proofs::Makers::arithmetic))]
fn given_product(dag: &mut Dag, x: i64, y: i64) -> Result<WordId, AllocError>
    requires x { IsWord dag.old.bits x }
    requires y { IsWord dag.old.bits y }
    ensures keeps { Keeps dag.old dag.new }
    ensures there { IfOk result (λ r. HasWord dag.new.nodes r) }
    ensures value { IfOk result (λ r. (g : Graph) → Grows dag.new g → (e : Env) → word_value g e r ≡ wrapped dag.old.bits (x *ℤ y)) }
{
    let bits = dag.int_bits();
    let r = dag.word(product(bits, x, y))?;
    Ok(r)
}

/// The product, wrapped to the width.
#[tactic(auto, using(crate::proofs::Makers::arithmetic))]
pub fn mul(dag: &mut Dag, a: WordId, b: WordId) -> Result<WordId, AllocError>
    requires a { HasWord dag.old.nodes a }
    requires b { HasWord dag.old.nodes b }
    ensures keeps { Keeps dag.old dag.new }
    ensures there { IfOk result (λ r. HasWord dag.new.nodes r) }
    ensures value { IfOk result (λ r. (g : Graph) → Grows dag.new g → (e : Env) →
        word_value g e r ≡ wrapped dag.old.bits (word_value g e a *ℤ word_value g e b)) }
{
    if let Some((x, y)) = known_words(dag, a, b) {
        let r = given_product(dag, x, y)?;
        return Ok(r);
    }
    if is_number(dag, a, 0) || is_number(dag, b, 1) {
        return Ok(a);
    }
    if is_number(dag, b, 0) || is_number(dag, a, 1) {
        return Ok(b);
    }
    let r = dag.mul(a, b)?;
    Ok(r)
}

// The quotient of two words that are given.
#[tactic(auto, using(crate::proofs::Makers::arithmetic))]
fn given_quotient(dag: &mut Dag, x: i64, y: i64) -> Result<WordId, AllocError>
    requires x { IsWord dag.old.bits x }
    requires y { IsWord dag.old.bits y }
    ensures keeps { Keeps dag.old dag.new }
    ensures there { IfOk result (λ r. HasWord dag.new.nodes r) }
    ensures value { IfOk result (λ r. (g : Graph) → Grows dag.new g → (e : Env) → word_value g e r ≡ quotient_of dag.old.bits x y) }
{
    let bits = dag.int_bits();
    let r = dag.word(quotient(bits, x, y))?;
    Ok(r)
}

/// The quotient, rounded toward zero and wrapped to the width; 0 where `b` is 0.
#[tactic(auto, using(crate::proofs::Makers::arithmetic))]
pub fn div(dag: &mut Dag, a: WordId, b: WordId) -> Result<WordId, AllocError>
    requires a { HasWord dag.old.nodes a }
    requires b { HasWord dag.old.nodes b }
    ensures keeps { Keeps dag.old dag.new }
    ensures there { IfOk result (λ r. HasWord dag.new.nodes r) }
    ensures value { IfOk result (λ r. (g : Graph) → Grows dag.new g → (e : Env) →
        word_value g e r ≡ quotient_of dag.old.bits (word_value g e a) (word_value g e b)) }
{
    if let Some((x, y)) = known_words(dag, a, b) {
        let r = given_quotient(dag, x, y)?;
        return Ok(r);
    }
    let r = dag.div(a, b)?;
    Ok(r)
}

// The remainder of two words that are given.
#[tactic(auto, using(crate::proofs::Makers::arithmetic))]
fn given_remainder(dag: &mut Dag, x: i64, y: i64) -> Result<WordId, AllocError>
    requires x { IsWord dag.old.bits x }
    requires y { IsWord dag.old.bits y }
    ensures keeps { Keeps dag.old dag.new }
    ensures there { IfOk result (λ r. HasWord dag.new.nodes r) }
    ensures value { IfOk result (λ r. (g : Graph) → Grows dag.new g → (e : Env) → word_value g e r ≡ remainder_of dag.old.bits x y) }
{
    let bits = dag.int_bits();
    let r = dag.word(remainder(bits, x, y))?;
    Ok(r)
}

/// What that quotient leaves of `a`, with the sign of `a`; 0 where `b` is 0.
#[tactic(auto, using(crate::proofs::Makers::arithmetic))]
pub fn rem(dag: &mut Dag, a: WordId, b: WordId) -> Result<WordId, AllocError>
    requires a { HasWord dag.old.nodes a }
    requires b { HasWord dag.old.nodes b }
    ensures keeps { Keeps dag.old dag.new }
    ensures there { IfOk result (λ r. HasWord dag.new.nodes r) }
    ensures value { IfOk result (λ r. (g : Graph) → Grows dag.new g → (e : Env) →
        word_value g e r ≡ remainder_of dag.old.bits (word_value g e a) (word_value g e b)) }
{
    if let Some((x, y)) = known_words(dag, a, b) {
        let r = given_remainder(dag, x, y)?;
        return Ok(r);
    }
    let r = dag.rem(a, b)?;
    Ok(r)
}

/// The negation, wrapped to the width.
#[tactic(auto, using(crate::proofs::Makers::negating))]
pub fn neg(dag: &mut Dag, a: WordId) -> Result<WordId, AllocError>
    requires { HasWord dag.old.nodes a }
    ensures keeps { Keeps dag.old dag.new }
    ensures there { IfOk result (λ r. HasWord dag.new.nodes r) }
    ensures value { IfOk result (λ r. (g : Graph) → Grows dag.new g → (e : Env) →
        word_value g e r ≡ wrapped dag.old.bits (neg_ℤ (word_value g e a))) }
{
    let zero = dag.word(0)?;
    let r = sub(dag, zero, a)?;
    Ok(r)
}

/// Whether `a` is below `b`, as signed numbers.
#[tactic(auto, using(crate::proofs::Makers::staying))]
pub fn lt(dag: &mut Dag, a: WordId, b: WordId) -> Result<BoolId, AllocError>
    requires a { HasWord dag.old.nodes a }
    requires b { HasWord dag.old.nodes b }
    ensures keeps { Keeps dag.old dag.new }
    ensures there { IfOk result (λ r. HasBool dag.new.nodes r) }
    ensures value { IfOk result (λ r. (g : Graph) → Grows dag.new g → (e : Env) →
        bool_value g e r ≡ int_lt (word_value g e a) (word_value g e b)) }
{
    if let Some((x, y)) = known_words(dag, a, b) {
        let r = dag.flag(x < y)?;
        return Ok(r);
    }
    if a.index == b.index {
        let r = dag.flag(false)?;
        return Ok(r);
    }
    let r = dag.lt(a, b)?;
    Ok(r)
}

/// Whether `a` is at most `b`, as signed numbers.
#[tactic(auto, using(crate::proofs::Makers::staying))]
pub fn le(dag: &mut Dag, a: WordId, b: WordId) -> Result<BoolId, AllocError>
    requires a { HasWord dag.old.nodes a }
    requires b { HasWord dag.old.nodes b }
    ensures keeps { Keeps dag.old dag.new }
    ensures there { IfOk result (λ r. HasBool dag.new.nodes r) }
    ensures value { IfOk result (λ r. (g : Graph) → Grows dag.new g → (e : Env) →
        bool_value g e r ≡ int_le (word_value g e a) (word_value g e b)) }
{
    let above = lt(dag, b, a)?;
    let r = not(dag, above)?;
    Ok(r)
}

/// Whether two words are equal.
#[tactic(auto, using(crate::proofs::Makers::staying))]
pub fn eq(dag: &mut Dag, a: WordId, b: WordId) -> Result<BoolId, AllocError>
    requires a { HasWord dag.old.nodes a }
    requires b { HasWord dag.old.nodes b }
    ensures keeps { Keeps dag.old dag.new }
    ensures there { IfOk result (λ r. HasBool dag.new.nodes r) }
    ensures value { IfOk result (λ r. (g : Graph) → Grows dag.new g → (e : Env) →
        bool_value g e r ≡ int_eq (word_value g e a) (word_value g e b)) }
{
    if let Some((x, y)) = known_words(dag, a, b) {
        let r = dag.flag(x == y)?;
        return Ok(r);
    }
    if a.index == b.index {
        let r = dag.flag(true)?;
        return Ok(r);
    }
    let r = dag.eq(a, b)?;
    Ok(r)
}
