//! What the rules read of the operands of a node.

ghost use Rattle.std.specs.Prelude.{◌≡◌, IfSome, IsTrue, true, false, not, is_some, slice_get};
ghost use Rattle.sk_base.specs.Word.{IsWord};
ghost use Rattle.sk_dag.specs.declared.env.Env.{Env};
ghost use Rattle.sk_dag.specs.Graph.{Graph, Grows, HasBool, HasWord, HasCost};
ghost use Rattle.sk_dag.specs.Eval.{bool_value, word_value, cost_value};
ghost use Rattle.sk_simplify.specs.Rules.{true_at, false_at, number_at, word_at, negated_at, are_words, are_opposite as opposite, is_not_of as negates, is_cost_zero as cost_zero_in};

use sk_dag::{BoolId, CostId, Dag, Node, WordId};

/// Whether the node is the truth value true.
#[tactic(auto, using(crate::proofs::RuleLemmas::reading), unfolding(sk_dag::specs::Eval::value_of, sk_dag::specs::Eval::bool_value, sk_dag::specs::Eval::word_value, sk_dag::specs::Eval::cost_value))]
pub(crate) fn is_true(dag: &Dag, a: BoolId) -> bool
    requires { HasBool dag.now.nodes a }
    ensures test { result ≡ true_at dag.now.nodes a }
    ensures value { IsTrue result → (g : Graph) → Grows dag.now g → (e : Env) → bool_value g e a ≡ true }
{
    match *dag.node(a.index) {
        Node::Flag(b) => b,
        _ => false,
    }
}

/// Whether the node is the truth value false.
#[tactic(auto, using(crate::proofs::RuleLemmas::reading), unfolding(sk_dag::specs::Eval::value_of, sk_dag::specs::Eval::bool_value, sk_dag::specs::Eval::word_value, sk_dag::specs::Eval::cost_value))]
pub(crate) fn is_false(dag: &Dag, a: BoolId) -> bool
    requires { HasBool dag.now.nodes a }
    ensures test { result ≡ false_at dag.now.nodes a }
    ensures value { IsTrue result → (g : Graph) → Grows dag.now g → (e : Env) → bool_value g e a ≡ false }
{
    match *dag.node(a.index) {
        Node::Flag(b) => !b,
        _ => false,
    }
}

/// The node that this one is the negation of.
#[tactic(auto, using(crate::proofs::RuleLemmas::reading), unfolding(sk_dag::specs::Eval::value_of, sk_dag::specs::Eval::bool_value, sk_dag::specs::Eval::word_value, sk_dag::specs::Eval::cost_value))]
pub(crate) fn negated(dag: &Dag, a: BoolId) -> Option<BoolId>
    requires { HasBool dag.now.nodes a }
    ensures inside { result ≡ negated_at dag.now.nodes a }
    ensures there { IfSome result (λ b. HasBool dag.now.nodes b) }
    ensures value { IfSome result (λ b. (g : Graph) → Grows dag.now g → (e : Env) →
        bool_value g e a ≡ not (bool_value g e b)) }
{
    match *dag.node(a.index) {
        Node::Not(b) => Some(b),
        _ => None,
    }
}

/// Whether the first node is the negation of the second.
#[tactic(auto, using(crate::proofs::RuleLemmas::reading), unfolding(sk_dag::specs::Eval::value_of, sk_dag::specs::Eval::bool_value, sk_dag::specs::Eval::word_value, sk_dag::specs::Eval::cost_value))]
pub(crate) fn is_not_of(dag: &Dag, a: BoolId, b: BoolId) -> bool
    requires { HasBool dag.now.nodes a }
    ensures test { result ≡ negates b (negated_at dag.now.nodes a) }
    ensures value { IsTrue result → (g : Graph) → Grows dag.now g → (e : Env) →
        bool_value g e a ≡ not (bool_value g e b) }
{
    match negated(dag, a) {
        Some(c) => c.index == b.index,
        None => false,
    }
}

/// Whether one node is the negation of the other.
#[tactic(auto, using(crate::proofs::RuleLemmas::reading), unfolding(sk_dag::specs::Eval::value_of, sk_dag::specs::Eval::bool_value, sk_dag::specs::Eval::word_value, sk_dag::specs::Eval::cost_value))]
pub(crate) fn are_opposite(dag: &Dag, a: BoolId, b: BoolId) -> bool
    requires a { HasBool dag.now.nodes a }
    requires b { HasBool dag.now.nodes b }
    ensures test { result ≡ opposite dag.now.nodes a b }
    ensures value { IsTrue result → (g : Graph) → Grows dag.now g → (e : Env) →
        bool_value g e a ≡ not (bool_value g e b) }
{
    is_not_of(dag, a, b) || is_not_of(dag, b, a)
}

/// The word that the node is.
#[tactic(auto, using(crate::proofs::RuleLemmas::reading), unfolding(sk_dag::specs::Eval::value_of, sk_dag::specs::Eval::bool_value, sk_dag::specs::Eval::word_value, sk_dag::specs::Eval::cost_value))]
pub(crate) fn word_of(dag: &Dag, a: WordId) -> Option<i64>
    requires { HasWord dag.now.nodes a }
    ensures word { result ≡ word_at dag.now.nodes a }
    ensures value { IfSome result (λ z. (g : Graph) → Grows dag.now g → (e : Env) → word_value g e a ≡ z) }
    ensures given { IfSome result (λ z. IsWord dag.now.bits z) }
    ensures range { (g : Graph) → Grows dag.now g → (e : Env) → IsWord dag.now.bits (word_value g e a) }
{
    match *dag.node(a.index) {
        Node::Word(z) => Some(z),
        _ => None,
    }
}

/// Whether the node is the word `n`.
#[tactic(auto, using(crate::proofs::RuleLemmas::reading), unfolding(sk_dag::specs::Eval::value_of, sk_dag::specs::Eval::bool_value, sk_dag::specs::Eval::word_value, sk_dag::specs::Eval::cost_value))]
pub(crate) fn is_number(dag: &Dag, a: WordId, n: i64) -> bool
    requires { HasWord dag.now.nodes a }
    ensures test { result ≡ number_at dag.now.nodes n a }
    ensures value { IsTrue result → (g : Graph) → Grows dag.now g → (e : Env) → word_value g e a ≡ n }
    ensures range { (g : Graph) → Grows dag.now g → (e : Env) → IsWord dag.now.bits (word_value g e a) }
{
    match word_of(dag, a) {
        Some(z) => z == n,
        None => false,
    }
}

/// The words that two nodes are, where both are given.
#[tactic(auto, using(crate::proofs::RuleLemmas::reading), unfolding(sk_dag::specs::Eval::value_of, sk_dag::specs::Eval::bool_value, sk_dag::specs::Eval::word_value, sk_dag::specs::Eval::cost_value))]
pub(crate) fn words_of(dag: &Dag, a: WordId, b: WordId) -> Option<(i64, i64)>
    requires a { HasWord dag.now.nodes a }
    requires b { HasWord dag.now.nodes b }
    ensures test { is_some result ≡ are_words dag.now.nodes a b }
    ensures first { IfSome result (λ p. (g : Graph) → Grows dag.now g → (e : Env) → word_value g e a ≡ p.0) }
    ensures second { IfSome result (λ p. (g : Graph) → Grows dag.now g → (e : Env) → word_value g e b ≡ p.1) }
    ensures given { IfSome result (λ p. IsWord dag.now.bits p.0 × IsWord dag.now.bits p.1) }
    ensures first_range { (g : Graph) → Grows dag.now g → (e : Env) → IsWord dag.now.bits (word_value g e a) }
    ensures second_range { (g : Graph) → Grows dag.now g → (e : Env) → IsWord dag.now.bits (word_value g e b) }
{
    let first = word_of(dag, a);
    let second = word_of(dag, b);
    let x = first?;
    let y = second?;
    Some((x, y))
}

/// Whether the node is a cost of 0.
#[tactic(auto, using(crate::proofs::RuleLemmas::reading), unfolding(sk_dag::specs::Eval::value_of, sk_dag::specs::Eval::bool_value, sk_dag::specs::Eval::word_value, sk_dag::specs::Eval::cost_value))]
pub(crate) fn is_cost_zero(dag: &Dag, a: CostId) -> bool
    requires { HasCost dag.now.nodes a }
    ensures test { result ≡ cost_zero_in (slice_get dag.now.nodes a.index) }
    ensures value { IsTrue result → (g : Graph) → Grows dag.now g → (e : Env) → cost_value g e a ≡ 0 }
{
    match *dag.node(a.index) {
        Node::CostZero => true,
        _ => false,
    }
}
