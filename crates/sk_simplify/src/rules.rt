//! The rules: what each node becomes, so that no rule fits what is new.

ghost use Rattle.std.specs.Prelude.{◌≡◌, ◌≤◌, true};
ghost use Rattle.sk_dag.specs.declared.env.Env.{Env};
ghost use Rattle.sk_dag.specs.Graph.{Graph, Grows, HasBool, HasWord, HasCost};
ghost use Rattle.sk_dag.specs.Eval.{bool_value};
ghost use Rattle.sk_dag.specs.declared.node.Node.TheVariants.{Not, And, Or, Xor, BoolMux, Mux, Add, Sub, Mul, Div, Rem, Lt, Eq, CostAdd, CostLe};
ghost use Rattle.sk_simplify.specs.Reduct.{IsReduct};

use crate::reading::{are_opposite, is_cost_zero, is_false, is_number, is_true, negated, words_of};
use crate::reduced::Reduced::{self, Fresh, Known};
use sk_dag::word::{difference, product, quotient, remainder, sum};
use sk_dag::{BoolId, CostId, Dag, Node, WordId};

#[tactic(auto, using(crate::proofs::RuleLemmas::ruling), unfolding(sk_dag::specs::Eval::value_of, sk_dag::specs::Eval::bool_value, sk_dag::specs::Eval::word_value, sk_dag::specs::Eval::cost_value, crate::specs::Rules::left_side))]
pub(crate) fn reduce_not(dag: &Dag, a: BoolId) -> Reduced
    requires { HasBool dag.now.nodes a }
    ensures { IsReduct dag.now (Not a) result }
{
    if is_true(dag, a) {
        return Fresh(Node::Flag(false));
    }
    if is_false(dag, a) {
        return Fresh(Node::Flag(true));
    }
    match negated(dag, a) {
        Some(b) => Known(b.index),
        None => Fresh(Node::Not(a)),
    }
}

#[tactic(auto, using(crate::proofs::RuleLemmas::ruling), unfolding(sk_dag::specs::Eval::value_of, sk_dag::specs::Eval::bool_value, sk_dag::specs::Eval::word_value, sk_dag::specs::Eval::cost_value, crate::specs::Rules::left_side))]
pub(crate) fn reduce_and(dag: &Dag, a: BoolId, b: BoolId) -> Reduced
    requires a { HasBool dag.now.nodes a }
    requires b { HasBool dag.now.nodes b }
    requires order { a.index ≤ b.index }
    ensures { IsReduct dag.now (And a b) result }
{
    if is_true(dag, a) || is_false(dag, b) {
        return Known(b.index);
    }
    if is_false(dag, a) || is_true(dag, b) || a.index == b.index {
        return Known(a.index);
    }
    if are_opposite(dag, a, b) {
        return Fresh(Node::Flag(false));
    }
    Fresh(Node::And(a, b))
}

#[tactic(auto, using(crate::proofs::RuleLemmas::ruling), unfolding(sk_dag::specs::Eval::value_of, sk_dag::specs::Eval::bool_value, sk_dag::specs::Eval::word_value, sk_dag::specs::Eval::cost_value, crate::specs::Rules::left_side))]
pub(crate) fn reduce_or(dag: &Dag, a: BoolId, b: BoolId) -> Reduced
    requires a { HasBool dag.now.nodes a }
    requires b { HasBool dag.now.nodes b }
    requires order { a.index ≤ b.index }
    ensures { IsReduct dag.now (Or a b) result }
{
    if is_false(dag, a) || is_true(dag, b) {
        return Known(b.index);
    }
    if is_true(dag, a) || is_false(dag, b) || a.index == b.index {
        return Known(a.index);
    }
    if are_opposite(dag, a, b) {
        return Fresh(Node::Flag(true));
    }
    Fresh(Node::Or(a, b))
}

// `xor` of true and a node is its negation.
#[tactic(auto, using(crate::proofs::RuleLemmas::ruling), unfolding(sk_dag::specs::Eval::value_of, sk_dag::specs::Eval::bool_value, sk_dag::specs::Eval::word_value, sk_dag::specs::Eval::cost_value, crate::specs::Rules::left_side))]
fn xor_true(dag: &Dag, a: BoolId, b: BoolId) -> Reduced
    requires a { HasBool dag.now.nodes a }
    requires b { HasBool dag.now.nodes b }
    requires known { (g : Graph) → Grows dag.now g → (e : Env) → bool_value g e a ≡ true }
    ensures left { IsReduct dag.now (Xor a b) result }
    ensures right { IsReduct dag.now (Xor b a) result }
{
    match reduce_not(dag, b) {
        Known(i) => Known(i),
        Fresh(node) => Fresh(node),
    }
}

#[tactic(auto, using(crate::proofs::RuleLemmas::ruling), unfolding(sk_dag::specs::Eval::value_of, sk_dag::specs::Eval::bool_value, sk_dag::specs::Eval::word_value, sk_dag::specs::Eval::cost_value, crate::specs::Rules::left_side))]
pub(crate) fn reduce_xor(dag: &Dag, a: BoolId, b: BoolId) -> Reduced
    requires a { HasBool dag.now.nodes a }
    requires b { HasBool dag.now.nodes b }
    requires order { a.index ≤ b.index }
    ensures { IsReduct dag.now (Xor a b) result }
{
    if is_false(dag, a) {
        return Known(b.index);
    }
    if is_false(dag, b) {
        return Known(a.index);
    }
    if a.index == b.index {
        return Fresh(Node::Flag(false));
    }
    if is_true(dag, a) {
        return xor_true(dag, a, b);
    }
    if is_true(dag, b) {
        return xor_true(dag, b, a);
    }
    Fresh(Node::Xor(a, b))
}

#[tactic(auto, using(crate::proofs::RuleLemmas::ruling), unfolding(sk_dag::specs::Eval::value_of, sk_dag::specs::Eval::bool_value, sk_dag::specs::Eval::word_value, sk_dag::specs::Eval::cost_value, crate::specs::Rules::left_side))]
pub(crate) fn reduce_bool_mux(dag: &Dag, c: BoolId, a: BoolId, b: BoolId) -> Reduced
    requires c { HasBool dag.now.nodes c }
    requires a { HasBool dag.now.nodes a }
    requires b { HasBool dag.now.nodes b }
    ensures { IsReduct dag.now (BoolMux c a b) result }
{
    if is_true(dag, c) || a.index == b.index {
        return Known(a.index);
    }
    if is_false(dag, c) {
        return Known(b.index);
    }
    if is_true(dag, a) && is_false(dag, b) {
        return Known(c.index);
    }
    Fresh(Node::BoolMux(c, a, b))
}

#[tactic(auto, using(crate::proofs::RuleLemmas::ruling), unfolding(sk_dag::specs::Eval::value_of, sk_dag::specs::Eval::bool_value, sk_dag::specs::Eval::word_value, sk_dag::specs::Eval::cost_value, crate::specs::Rules::left_side))]
pub(crate) fn reduce_mux(dag: &Dag, c: BoolId, a: WordId, b: WordId) -> Reduced
    requires c { HasBool dag.now.nodes c }
    requires a { HasWord dag.now.nodes a }
    requires b { HasWord dag.now.nodes b }
    ensures { IsReduct dag.now (Mux c a b) result }
{
    if is_true(dag, c) || a.index == b.index {
        return Known(a.index);
    }
    if is_false(dag, c) {
        return Known(b.index);
    }
    Fresh(Node::Mux(c, a, b))
}

#[tactic(auto, using(crate::proofs::RuleLemmas::ruling), unfolding(sk_dag::specs::Eval::value_of, sk_dag::specs::Eval::bool_value, sk_dag::specs::Eval::word_value, sk_dag::specs::Eval::cost_value, crate::specs::Rules::left_side))]
pub(crate) fn reduce_add(dag: &Dag, bits: u32, a: WordId, b: WordId) -> Reduced
    requires width { bits ≡ dag.now.bits }
    requires bits_low { 2 ≤ bits }
    requires bits_high { bits ≤ 32 }
    requires a { HasWord dag.now.nodes a }
    requires b { HasWord dag.now.nodes b }
    requires order { a.index ≤ b.index }
    ensures { IsReduct dag.now (Add a b) result }
{
    if let Some((x, y)) = words_of(dag, a, b) {
        return Fresh(Node::Word(sum(bits, x, y)));
    }
    if is_number(dag, a, 0) {
        return Known(b.index);
    }
    if is_number(dag, b, 0) {
        return Known(a.index);
    }
    Fresh(Node::Add(a, b))
}

#[tactic(auto, using(crate::proofs::RuleLemmas::ruling), unfolding(sk_dag::specs::Eval::value_of, sk_dag::specs::Eval::bool_value, sk_dag::specs::Eval::word_value, sk_dag::specs::Eval::cost_value, crate::specs::Rules::left_side))]
pub(crate) fn reduce_sub(dag: &Dag, bits: u32, a: WordId, b: WordId) -> Reduced
    requires width { bits ≡ dag.now.bits }
    requires bits_low { 2 ≤ bits }
    requires bits_high { bits ≤ 32 }
    requires a { HasWord dag.now.nodes a }
    requires b { HasWord dag.now.nodes b }
    ensures { IsReduct dag.now (Sub a b) result }
{
    if let Some((x, y)) = words_of(dag, a, b) {
        return Fresh(Node::Word(difference(bits, x, y)));
    }
    if is_number(dag, b, 0) {
        return Known(a.index);
    }
    if a.index == b.index {
        return Fresh(Node::Word(0));
    }
    Fresh(Node::Sub(a, b))
}

#[tactic(auto, using(crate::proofs::RuleLemmas::ruling), unfolding(sk_dag::specs::Eval::value_of, sk_dag::specs::Eval::bool_value, sk_dag::specs::Eval::word_value, sk_dag::specs::Eval::cost_value, crate::specs::Rules::left_side))]
pub(crate) fn reduce_mul(dag: &Dag, bits: u32, a: WordId, b: WordId) -> Reduced
    requires width { bits ≡ dag.now.bits }
    requires bits_low { 2 ≤ bits }
    requires bits_high { bits ≤ 32 }
    requires a { HasWord dag.now.nodes a }
    requires b { HasWord dag.now.nodes b }
    requires order { a.index ≤ b.index }
    ensures { IsReduct dag.now (Mul a b) result }
{
    if let Some((x, y)) = words_of(dag, a, b) {
        return Fresh(Node::Word(product(bits, x, y)));
    }
    if is_number(dag, a, 0) || is_number(dag, b, 1) {
        return Known(a.index);
    }
    if is_number(dag, b, 0) || is_number(dag, a, 1) {
        return Known(b.index);
    }
    Fresh(Node::Mul(a, b))
}

#[tactic(auto, using(crate::proofs::RuleLemmas::ruling), unfolding(sk_dag::specs::Eval::value_of, sk_dag::specs::Eval::bool_value, sk_dag::specs::Eval::word_value, sk_dag::specs::Eval::cost_value, crate::specs::Rules::left_side))]
pub(crate) fn reduce_div(dag: &Dag, bits: u32, a: WordId, b: WordId) -> Reduced
    requires width { bits ≡ dag.now.bits }
    requires bits_low { 2 ≤ bits }
    requires bits_high { bits ≤ 32 }
    requires a { HasWord dag.now.nodes a }
    requires b { HasWord dag.now.nodes b }
    ensures { IsReduct dag.now (Div a b) result }
{
    match words_of(dag, a, b) {
        Some((x, y)) => Fresh(Node::Word(quotient(bits, x, y))),
        None => Fresh(Node::Div(a, b)),
    }
}

#[tactic(auto, using(crate::proofs::RuleLemmas::ruling), unfolding(sk_dag::specs::Eval::value_of, sk_dag::specs::Eval::bool_value, sk_dag::specs::Eval::word_value, sk_dag::specs::Eval::cost_value, crate::specs::Rules::left_side))]
pub(crate) fn reduce_rem(dag: &Dag, bits: u32, a: WordId, b: WordId) -> Reduced
    requires width { bits ≡ dag.now.bits }
    requires bits_low { 2 ≤ bits }
    requires bits_high { bits ≤ 32 }
    requires a { HasWord dag.now.nodes a }
    requires b { HasWord dag.now.nodes b }
    ensures { IsReduct dag.now (Rem a b) result }
{
    match words_of(dag, a, b) {
        Some((x, y)) => Fresh(Node::Word(remainder(bits, x, y))),
        None => Fresh(Node::Rem(a, b)),
    }
}

#[tactic(auto, using(crate::proofs::RuleLemmas::ruling), unfolding(sk_dag::specs::Eval::value_of, sk_dag::specs::Eval::bool_value, sk_dag::specs::Eval::word_value, sk_dag::specs::Eval::cost_value, crate::specs::Rules::left_side))]
pub(crate) fn reduce_lt(dag: &Dag, a: WordId, b: WordId) -> Reduced
    requires a { HasWord dag.now.nodes a }
    requires b { HasWord dag.now.nodes b }
    ensures { IsReduct dag.now (Lt a b) result }
{
    if let Some((x, y)) = words_of(dag, a, b) {
        return Fresh(Node::Flag(x < y));
    }
    if a.index == b.index {
        return Fresh(Node::Flag(false));
    }
    Fresh(Node::Lt(a, b))
}

#[tactic(auto, using(crate::proofs::RuleLemmas::ruling), unfolding(sk_dag::specs::Eval::value_of, sk_dag::specs::Eval::bool_value, sk_dag::specs::Eval::word_value, sk_dag::specs::Eval::cost_value, crate::specs::Rules::left_side))]
pub(crate) fn reduce_eq(dag: &Dag, a: WordId, b: WordId) -> Reduced
    requires a { HasWord dag.now.nodes a }
    requires b { HasWord dag.now.nodes b }
    requires order { a.index ≤ b.index }
    ensures { IsReduct dag.now (Eq a b) result }
{
    if let Some((x, y)) = words_of(dag, a, b) {
        return Fresh(Node::Flag(x == y));
    }
    if a.index == b.index {
        return Fresh(Node::Flag(true));
    }
    Fresh(Node::Eq(a, b))
}

#[tactic(auto, using(crate::proofs::RuleLemmas::ruling), unfolding(sk_dag::specs::Eval::value_of, sk_dag::specs::Eval::bool_value, sk_dag::specs::Eval::word_value, sk_dag::specs::Eval::cost_value, crate::specs::Rules::left_side))]
pub(crate) fn reduce_cost_add(dag: &Dag, cost: CostId, when: BoolId, amount: WordId) -> Reduced
    requires cost { HasCost dag.now.nodes cost }
    requires when { HasBool dag.now.nodes when }
    requires amount { HasWord dag.now.nodes amount }
    ensures { IsReduct dag.now (CostAdd cost when amount) result }
{
    if is_false(dag, when) || is_number(dag, amount, 0) {
        return Known(cost.index);
    }
    Fresh(Node::CostAdd(cost, when, amount))
}

#[tactic(auto, using(crate::proofs::RuleLemmas::ruling), unfolding(sk_dag::specs::Eval::value_of, sk_dag::specs::Eval::bool_value, sk_dag::specs::Eval::word_value, sk_dag::specs::Eval::cost_value, crate::specs::Rules::left_side))]
pub(crate) fn reduce_cost_le(dag: &Dag, cost: CostId, limit: u64) -> Reduced
    requires { HasCost dag.now.nodes cost }
    ensures { IsReduct dag.now (CostLe cost limit) result }
{
    if is_cost_zero(dag, cost) {
        return Fresh(Node::Flag(true));
    }
    Fresh(Node::CostLe(cost, limit))
}
