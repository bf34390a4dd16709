//! What is known of a node by itself.

ghost use Rattle.std.specs.Prelude.{◌≡◌, ◌&&◌, ◌↔◌, ℤ, Bool, Some, IfSome, IsTrue, false, not as opposite, slice_get};
ghost use Rattle.sk_base.specs.Word.{IsWord};
ghost use Rattle.sk_dag.specs.declared.env.Env.{Env};
ghost use Rattle.sk_dag.specs.declared.node.Node.TheVariants as node;
ghost use Rattle.sk_dag.specs.Graph.{Graph, Grows, HasBool, HasWord};
ghost use Rattle.sk_dag.specs.Eval.{bool_value, word_value};

use sk_dag::{BoolId, Dag, Node, WordId};

/// The truth value that a node has in every environment, where its node says so.
#[tactic(auto, using(crate::proofs::Makers::reading), unfolding(sk_dag::specs::Eval::value_of, sk_dag::specs::Eval::bool_value))]
pub fn known_bool(dag: &Dag, a: BoolId) -> Option<bool>
    requires { HasBool dag.now.nodes a }
    ensures value { IfSome result (λ b. (g : Graph) → Grows dag.now g → (e : Env) → bool_value g e a ≡ b) }
    ensures says { (b : Bool) → (result ≡ Some b) ↔ (slice_get dag.now.nodes a.index ≡ Some (node.Flag b)) }
{
    match *dag.node(a.index) {
        Node::Flag(b) => Some(b),
        _ => None,
    }
}

/// The word that a node has in every environment, where its node says so. Each word is in range of the width.
#[tactic(auto, using(crate::proofs::Makers::reading), unfolding(sk_dag::specs::Eval::value_of, sk_dag::specs::Eval::word_value))]
pub fn known_word(dag: &Dag, a: WordId) -> Option<i64>
    requires { HasWord dag.now.nodes a }
    ensures value { IfSome result (λ z. (g : Graph) → Grows dag.now g → (e : Env) → word_value g e a ≡ z) }
    ensures says { (z : ℤ) → (result ≡ Some z) ↔ (slice_get dag.now.nodes a.index ≡ Some (node.Word z)) }
    ensures given { IfSome result (λ z. IsWord dag.now.bits z) }
    ensures range { (g : Graph) → Grows dag.now g → (e : Env) → IsWord dag.now.bits (word_value g e a) }
{
    match *dag.node(a.index) {
        Node::Word(z) => Some(z),
        _ => None,
    }
}

/// Whether the node is the word `n`.
pub(crate) fn is_number(dag: &Dag, a: WordId, n: i64) -> bool
    requires { HasWord dag.now.nodes a }
    ensures value { IsTrue result → (g : Graph) → Grows dag.now g → (e : Env) → word_value g e a ≡ n }
    ensures range { (g : Graph) → Grows dag.now g → (e : Env) → IsWord dag.now.bits (word_value g e a) }
{
    match known_word(dag, a) {
        Some(z) => z == n,
        None => false,
    }
}

/// The words that two nodes are, where both are given.
pub(crate) fn known_words(dag: &Dag, a: WordId, b: WordId) -> Option<(i64, i64)>
    requires a { HasWord dag.now.nodes a }
    requires b { HasWord dag.now.nodes b }
    ensures first { IfSome result (λ p. (g : Graph) → Grows dag.now g → (e : Env) → word_value g e a ≡ p.0) }
    ensures second { IfSome result (λ p. (g : Graph) → Grows dag.now g → (e : Env) → word_value g e b ≡ p.1) }
    ensures given { IfSome result (λ p. IsWord dag.now.bits p.0 × IsWord dag.now.bits p.1) }
    ensures first_range { (g : Graph) → Grows dag.now g → (e : Env) → IsWord dag.now.bits (word_value g e a) }
    ensures second_range { (g : Graph) → Grows dag.now g → (e : Env) → IsWord dag.now.bits (word_value g e b) }
{
    let first = known_word(dag, a);
    let second = known_word(dag, b);
    let x = first?;
    let y = second?;
    Some((x, y))
}

/// The node that this one is the negation of.
#[tactic(auto, using(crate::proofs::Makers::reading), unfolding(sk_dag::specs::Eval::value_of, sk_dag::specs::Eval::bool_value))]
pub(crate) fn negated(dag: &Dag, a: BoolId) -> Option<BoolId>
    requires { HasBool dag.now.nodes a }
    ensures there { IfSome result (λ b. HasBool dag.now.nodes b) }
    ensures value { IfSome result (λ b. (g : Graph) → Grows dag.now g → (e : Env) →
        bool_value g e a ≡ opposite (bool_value g e b)) }
{
    match *dag.node(a.index) {
        Node::Not(b) => Some(b),
        _ => None,
    }
}

/// Whether the first node is the negation of the second.
#[tactic(auto, using(crate::proofs::Makers::reading), unfolding(sk_dag::specs::Eval::value_of, sk_dag::specs::Eval::bool_value))]
fn is_not_of(dag: &Dag, a: BoolId, b: BoolId) -> bool
    requires { HasBool dag.now.nodes a }
    ensures { IsTrue result → (g : Graph) → Grows dag.now g → (e : Env) →
        bool_value g e a ≡ opposite (bool_value g e b) }
{
    match negated(dag, a) {
        Some(c) => c.index == b.index,
        None => false,
    }
}

/// Whether one node is the negation of the other.
pub(crate) fn are_opposite(dag: &Dag, a: BoolId, b: BoolId) -> bool
    requires a { HasBool dag.now.nodes a }
    requires b { HasBool dag.now.nodes b }
    ensures { IsTrue result → (g : Graph) → Grows dag.now g → (e : Env) →
        bool_value g e a ≡ opposite (bool_value g e b) }
{
    is_not_of(dag, a, b) || is_not_of(dag, b, a)
}

/// The two nodes that this one is the conjunction of.
#[tactic(auto, using(crate::proofs::Makers::reading), unfolding(sk_dag::specs::Eval::value_of, sk_dag::specs::Eval::bool_value))]
fn conjuncts(dag: &Dag, a: BoolId) -> Option<(BoolId, BoolId)>
    requires { HasBool dag.now.nodes a }
    ensures first { IfSome result (λ p. HasBool dag.now.nodes p.0) }
    ensures second { IfSome result (λ p. HasBool dag.now.nodes p.1) }
    ensures value { IfSome result (λ p. (g : Graph) → Grows dag.now g → (e : Env) →
        bool_value g e a ≡ (bool_value g e p.0 && bool_value g e p.1)) }
{
    match *dag.node(a.index) {
        Node::And(x, y) => Some((x, y)),
        _ => None,
    }
}

/// Whether the first node is the conjunction of the second with another, and so holds only where the second does.
#[tactic(auto, using(crate::proofs::Makers::absorbing), unfolding(sk_dag::specs::Eval::bool_value))]
pub(crate) fn implies(dag: &Dag, a: BoolId, b: BoolId) -> bool
    requires { HasBool dag.now.nodes a }
    ensures { IsTrue result → (g : Graph) → Grows dag.now g → (e : Env) →
        (bool_value g e a && bool_value g e b) ≡ bool_value g e a }
{
    match conjuncts(dag, a) {
        Some((x, y)) => x.index == b.index || y.index == b.index,
        None => false,
    }
}

/// Whether the first node is the conjunction of another with the negation of the second, or with what the second
/// negates, and so never holds with it.
#[tactic(auto, using(crate::proofs::Makers::absorbing))]
pub(crate) fn excludes(dag: &Dag, a: BoolId, b: BoolId) -> bool
    requires a { HasBool dag.now.nodes a }
    requires b { HasBool dag.now.nodes b }
    ensures { IsTrue result → (g : Graph) → Grows dag.now g → (e : Env) →
        (bool_value g e a && bool_value g e b) ≡ false }
{
    match conjuncts(dag, a) {
        Some((x, y)) => are_opposite(dag, x, b) || are_opposite(dag, y, b),
        None => false,
    }
}
