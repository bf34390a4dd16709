//! The bits of a node, whatever it is.

ghost use Rattle.std.specs.Prelude.{◌≡◌, ◌≤◌, ◌<◌, ℕ, List, Option, length, All, IfOk, OnErr, ℤ};
ghost use Rattle.sk_base.specs.Word.{IsWord};
ghost use Rattle.sk_dag.specs.declared.node.Node.TheVariants.{Flag, Word, HoleBit, HoleWord, InputBit, InputWord, Not, CostZero};
ghost use Rattle.sk_clause.specs.Problem.{Problem};
ghost use Rattle.sk_cnf.specs.declared.leaf.Leaf.{Leaf as LeafOf};
ghost use Rattle.sk_cnf.specs.declared.code.Code.{Code as CodeOf};
ghost use Rattle.sk_gates.specs.Extension.{Continues};
ghost use Rattle.sk_cnf.specs.Codes.{Computes, IsCode, TableFits};

use crate::code::{Code, truth_of};
use crate::leaf::Leaf;
use crate::leaves::{leaf_literal, leaf_word};
use crate::nodes;
use crate::signed::{apart, given_word};
use indexmap::IndexSet;
use sk_dag::{BoolId, Node};
use sk_gates::{Bit, SharedGates, zeros};
use std::alloc::{AllocError, Global};

// A truth value that is given.
fn flag(value: bool) -> Code
    ensures { (leaves : List LeafOf) (names : List ℕ) (w : ℕ) (codes : List (Option CodeOf)) (p : Problem) → IsCode w leaves names codes (Flag value) p p result }
{
    Code::Truth(Bit::Constant(value))
}

// A word that is given.
fn word(alloc: Global, width: u32, value: i64) -> Result<Code, AllocError>
    requires low { 2 ≤ width }
    requires high { width ≤ 32 }
    requires word { IsWord width value }
    ensures { IfOk result (λ r. (leaves : List LeafOf) (names : List ℕ) (codes : List (Option CodeOf)) (p : Problem) → IsCode width leaves names codes (Word value) p p r) }
{
    let r = given_word(alloc, value, width)?;
    Ok(Code::Word(r))
}

// Bit k of a hole. A hole has no bits above the lowest 32.
fn hole_bit(leaves: &IndexSet<Leaf>, names: &[usize], site: u32, k: u32) -> Code
    requires { length names.now ≡ length leaves.now.keys }
    ensures { (w : ℕ) (codes : List (Option CodeOf)) (p : Problem) → All (λ x. x < p.vars) names.now → IsCode w leaves.now.keys names.now codes (HoleBit site k) p p result }
{
    if k < 32 {
        Code::Truth(leaf_literal(leaves, names, Leaf::Hole { site, k }))
    } else {
        Code::Truth(Bit::Constant(false))
    }
}

// The lowest bits of a hole, as a word.
fn hole_word(
    alloc: Global,
    leaves: &IndexSet<Leaf>,
    names: &[usize],
    width: u32,
    site: u32,
) -> Result<Code, AllocError>
    requires low { 2 ≤ width }
    requires high { width ≤ 32 }
    requires names { length names.now ≡ length leaves.now.keys }
    ensures { IfOk result (λ r. (codes : List (Option CodeOf)) (p : Problem) → All (λ x. x < p.vars) names.now → IsCode width leaves.now.keys names.now codes (HoleWord site) p p r) }
{
    let bits = leaf_word(alloc, leaves, names, Leaf::Hole { site, k: 0 }, width)?;
    Ok(Code::Word(bits))
}

// The lowest bits of a scalar of the input, as a word.
fn input_word(
    alloc: Global,
    leaves: &IndexSet<Leaf>,
    names: &[usize],
    width: u32,
    scalar: u32,
) -> Result<Code, AllocError>
    requires low { 2 ≤ width }
    requires high { width ≤ 32 }
    requires names { length names.now ≡ length leaves.now.keys }
    ensures { IfOk result (λ r. (codes : List (Option CodeOf)) (p : Problem) → All (λ x. x < p.vars) names.now → IsCode width leaves.now.keys names.now codes (InputWord scalar) p p r) }
{
    let bits = leaf_word(alloc, leaves, names, Leaf::Input { scalar, k: 0 }, width)?;
    Ok(Code::Word(bits))
}

// Whether a scalar of the input is not 0.
#[tactic(auto, using(sk_gates::proofs::ExtensionLaws::growing))]
fn input_bit(
    alloc: Global,
    to: &mut SharedGates,
    leaves: &IndexSet<Leaf>,
    names: &[usize],
    width: u32,
    codes: &[Option<Code>],
    scalar: u32,
) -> Result<Code, AllocError>
    requires names { length names.now ≡ length leaves.now.keys }
    requires within { All (λ x. x < to.old.vars) names.now }
    ensures code { IfOk result (IsCode width leaves.now.keys names.now codes.now (InputBit scalar) to.old to.new) }
    ensures err { OnErr result (Continues to.old to.new) }
{
    let bits = leaf_word(alloc, leaves, names, Leaf::Input { scalar, k: 0 }, 32)?;
    let none = zeros(alloc, 32)?;
    let r = apart(to, bits.as_slice(), none.as_slice())?;
    Ok(Code::Truth(r))
}

// The negation of a truth value.
fn not(codes: &[Option<Code>], a: BoolId) -> Code
    ensures { (w : ℕ) (p : Problem) → TableFits w p.vars codes.now → Computes w codes.now (Not a) p p result }
{
    Code::Truth(truth_of(codes, a).negate())
}

// A cost of 0.
fn cost_zero(alloc: Global) -> Result<Code, AllocError>
    ensures { IfOk result (λ r. (w : ℕ) (codes : List (Option CodeOf)) (p : Problem) → Computes w codes CostZero p p r) }
{
    let bits = zeros(alloc, 64)?;
    Ok(Code::Cost(bits))
}

// The bits that stand for the value of a node, where the table has those of the nodes that it names.
#[tactic(auto, using(crate::proofs::CodeLaws::coding))]
pub fn encode_node(
    alloc: Global,
    to: &mut SharedGates,
    leaves: &IndexSet<Leaf>,
    names: &[usize],
    width: u32,
    codes: &[Option<Code>],
    node: Node,
) -> Result<Code, AllocError>
    requires low { 2 ≤ width }
    requires high { width ≤ 32 }
    requires names { length names.now ≡ length leaves.now.keys }
    requires within { All (λ x. x < to.old.vars) names.now }
    requires table { TableFits width to.old.vars codes.now }
    requires word { (z : ℤ) → node ≡ Word z → IsWord width z }
    ensures code { IfOk result (IsCode width leaves.now.keys names.now codes.now node to.old to.new) }
    ensures err { OnErr result (Continues to.old to.new) }
{
    let size = width as usize;
    match node {
        Node::Flag(value) => Ok(flag(value)),
        Node::Word(value) => Ok(word(alloc, width, value)?),
        Node::HoleBit(site, k) => Ok(hole_bit(leaves, names, site, k)),
        Node::HoleWord(site) => Ok(hole_word(alloc, leaves, names, width, site)?),
        Node::InputBit(scalar) => Ok(input_bit(alloc, to, leaves, names, width, codes, scalar)?),
        Node::InputWord(scalar) => Ok(input_word(alloc, leaves, names, width, scalar)?),
        Node::Not(a) => Ok(not(codes, a)),
        Node::And(a, b) => Ok(nodes::and(to, size, codes, a, b)?),
        Node::Or(a, b) => Ok(nodes::or(to, size, codes, a, b)?),
        Node::Xor(a, b) => Ok(nodes::xor(to, size, codes, a, b)?),
        Node::BoolMux(c, a, b) => Ok(nodes::bool_mux(to, size, codes, c, a, b)?),
        Node::Mux(c, a, b) => Ok(nodes::mux(alloc, to, size, codes, c, a, b)?),
        Node::Add(a, b) => Ok(nodes::add(alloc, to, size, codes, a, b)?),
        Node::Sub(a, b) => Ok(nodes::sub(alloc, to, size, codes, a, b)?),
        Node::Mul(a, b) => Ok(nodes::mul(alloc, to, size, codes, a, b)?),
        Node::Div(a, b) => Ok(nodes::div(alloc, to, size, codes, a, b)?),
        Node::Rem(a, b) => Ok(nodes::rem(alloc, to, size, codes, a, b)?),
        Node::Lt(a, b) => Ok(nodes::lt(to, size, codes, a, b)?),
        Node::Eq(a, b) => Ok(nodes::eq(to, size, codes, a, b)?),
        Node::CostZero => Ok(cost_zero(alloc)?),
        Node::CostAdd(cost, g, x) => Ok(nodes::cost_add(alloc, to, size, codes, cost, g, x)?),
        Node::CostLe(cost, limit) => Ok(nodes::cost_le(alloc, to, size, codes, cost, limit)?),
    }
}
