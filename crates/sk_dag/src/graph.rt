//! The graph, and the makers of its nodes.

use crate::below::value_below;
use crate::env::Env;
use crate::eval::values_of;
use crate::node::{BoolId, CostId, Node, WordId};
use crate::reach::{mark_reached, new_bool_id};
use crate::value::Value;
use crate::values::Values;
use indexmap::IndexSet;
use sk_base::List;
use std::alloc::{AllocError, Global};
use std::marker::Model;

// An evaluation takes one step for so many nodes up to the root to find what it stands on. A step costs some three times
// as much as the evaluation of one of all nodes in order.
const NODES_A_STEP: usize = 8;

/// A graph of expressions, in which equal nodes are one.
#[derive(Drop)]
pub struct Dag {
    alloc: Global,
    int_bits: u32,
    nodes: IndexSet<Node>,
}

impl Model for Dag {
    ghost use Rattle.sk_dag.specs.Graph.{Graph, IsWellFormed};

    ghost Value = { Graph };

    ghost view = { λ d. record { bits = d.int_bits; nodes = d.nodes.keys } };

    ghost invariant = { λ d. IsWellFormed d.int_bits d.nodes.keys };
}

#[tactic(auto, using(crate::proofs::EvalLemmas::made), unfolding(crate::specs::Eval::value_of, crate::specs::Eval::bool_value, crate::specs::Eval::word_value, crate::specs::Eval::cost_value))]
impl Dag {
    ghost use Rattle.std.specs.Prelude.{All, ◌≡◌, ◌+◌, ◌%◌, ◌^◌, ◌<◌, ◌≤◌, [], length, take, slice_index, IfOk, IfSome, IsTrue, ◌↔◌, slice_get, OnErr, not, ◌&&◌, ◌||◌, if◌then◌else◌, pos, ◌+ℤ◌, ◌-ℤ◌, ◌*ℤ◌, int_lt, nat_lt, nat_le};
    ghost use Rattle.std.specs.Ordering.{int_eq};
    ghost use Rattle.sk_dag.specs.declared.env.Env.{Env};
    ghost use Rattle.sk_base.specs.Word.{IsWord, wrapped};
    ghost use Rattle.sk_dag.specs.Word.{quotient, remainder, bit_of};
    ghost use Rattle.sk_dag.specs.Graph.{Graph, Grows, IsWellFormed, MayFollow, HasBool, HasWord, HasCost};
    ghost use Rattle.sk_dag.specs.Eval.{entry, Makes, Keeps, IsNode, IsMade, charge, values, value_at, graph_values, bool_value, word_value, cost_value};
    ghost use Rattle.sk_dag.specs.Reach.{children, Each, IsClosed, MarksReached, StandForMarked, renumbered, AddsAtMost, CopiesMarked, OnlyMarked, IsGrafted};
    ghost use Rattle.sk_dag.specs.declared.node.Node.TheVariants.{Flag, Word, HoleBit, HoleWord, InputBit, InputWord, Not, And, Or, Xor, BoolMux, Mux, Add, Sub, Mul, Div, Rem, Lt, Eq, CostZero, CostAdd, CostLe};

    /// An empty graph, which takes no memory.
    pub fn new(alloc: Global, int_bits: u32) -> Dag
        requires low { 2 ≤ int_bits }
        requires high { int_bits ≤ 32 }
        ensures bits { result.bits ≡ int_bits }
        ensures nodes { result.nodes ≡ [] }
    {
        Dag {
            alloc,
            int_bits,
            nodes: IndexSet::new(alloc),
        }
    }

    /// The number of a node, whichever maker it is named after: its own where an equal node is
    /// there, and else that of a new last node.
    #[tactic(auto)]
    pub fn intern(&mut self, node: Node) -> Result<usize, AllocError>
        requires { MayFollow self.old.bits self.old.nodes node }
        ensures makes { IfOk result (λ i. Makes self.old self.new i node) }
        ensures keeps { Keeps self.old self.new }
        ensures err { OnErr result (self.new ≡ self.old) }
    {
        let (index, _) = self.nodes.insert_full(node)?;
        Ok(index)
    }

    /// A truth value that is given.
    pub fn flag(&mut self, value: bool) -> Result<BoolId, AllocError>
        ensures value { IfOk result (λ made. (g : Graph) → Grows self.new g → (e : Env) →
            bool_value g e made ≡ value) }
        ensures there { IfOk result (λ made. HasBool self.new.nodes made) }
        ensures keeps { Keeps self.old self.new }
        ensures made { IfOk result (λ made. IsMade self.old self.new made.index (Flag value)) }
        ensures err { OnErr result (self.new ≡ self.old) }
    {
        let index = self.intern(Node::Flag(value))?;
        Ok(BoolId { index })
    }

    /// A word that is given, which is in range of the width.
    pub fn word(&mut self, value: i64) -> Result<WordId, AllocError>
        requires { IsWord self.old.bits value }
        ensures value { IfOk result (λ made. (g : Graph) → Grows self.new g → (e : Env) →
            word_value g e made ≡ value) }
        ensures there { IfOk result (λ made. HasWord self.new.nodes made) }
        ensures keeps { Keeps self.old self.new }
        ensures made { IfOk result (λ made. IsMade self.old self.new made.index (Word value)) }
        ensures err { OnErr result (self.new ≡ self.old) }
    {
        let index = self.intern(Node::Word(value))?;
        Ok(WordId { index })
    }

    /// Bit `k` of the value of the hole at `site`. Bit 0 is the lowest; a value has 64 bits.
    pub fn hole_bit(&mut self, site: u32, k: u32) -> Result<BoolId, AllocError>
        ensures value { IfOk result (λ made. (g : Graph) → Grows self.new g → (e : Env) →
            bool_value g e made ≡ (nat_lt k 64 && bit_of (slice_index e.choice site) k)) }
        ensures there { IfOk result (λ made. HasBool self.new.nodes made) }
        ensures keeps { Keeps self.old self.new }
        ensures made { IfOk result (λ made. IsMade self.old self.new made.index (HoleBit site k)) }
        ensures err { OnErr result (self.new ≡ self.old) }
    {
        let index = self.intern(Node::HoleBit(site, k))?;
        Ok(BoolId { index })
    }

    /// The value of the hole at `site`, wrapped to the width.
    pub fn hole_word(&mut self, site: u32) -> Result<WordId, AllocError>
        ensures value { IfOk result (λ made. (g : Graph) → Grows self.new g → (e : Env) →
            word_value g e made ≡ wrapped self.old.bits (pos (slice_index e.choice site))) }
        ensures there { IfOk result (λ made. HasWord self.new.nodes made) }
        ensures keeps { Keeps self.old self.new }
        ensures made { IfOk result (λ made. IsMade self.old self.new made.index (HoleWord site)) }
        ensures err { OnErr result (self.new ≡ self.old) }
    {
        let index = self.intern(Node::HoleWord(site))?;
        Ok(WordId { index })
    }

    /// Whether scalar `i` of the input is not 0.
    pub fn input_bit(&mut self, i: u32) -> Result<BoolId, AllocError>
        ensures value { IfOk result (λ made. (g : Graph) → Grows self.new g → (e : Env) →
            bool_value g e made ≡ not (int_eq (entry e.input i) (pos 0))) }
        ensures there { IfOk result (λ made. HasBool self.new.nodes made) }
        ensures keeps { Keeps self.old self.new }
        ensures made { IfOk result (λ made. IsMade self.old self.new made.index (InputBit i)) }
        ensures err { OnErr result (self.new ≡ self.old) }
    {
        let index = self.intern(Node::InputBit(i))?;
        Ok(BoolId { index })
    }

    /// Scalar `i` of the input, wrapped to the width.
    pub fn input_word(&mut self, i: u32) -> Result<WordId, AllocError>
        ensures value { IfOk result (λ made. (g : Graph) → Grows self.new g → (e : Env) →
            word_value g e made ≡ wrapped self.old.bits (entry e.input i)) }
        ensures there { IfOk result (λ made. HasWord self.new.nodes made) }
        ensures keeps { Keeps self.old self.new }
        ensures made { IfOk result (λ made. IsMade self.old self.new made.index (InputWord i)) }
        ensures err { OnErr result (self.new ≡ self.old) }
    {
        let index = self.intern(Node::InputWord(i))?;
        Ok(WordId { index })
    }

    /// The negation of a truth value.
    pub fn not(&mut self, a: BoolId) -> Result<BoolId, AllocError>
        requires { HasBool self.old.nodes a }
        ensures value { IfOk result (λ made. (g : Graph) → Grows self.new g → (e : Env) →
            bool_value g e made ≡ not (bool_value g e a)) }
        ensures there { IfOk result (λ made. HasBool self.new.nodes made) }
        ensures keeps { Keeps self.old self.new }
        ensures made { IfOk result (λ made. IsMade self.old self.new made.index (Not a)) }
        ensures err { OnErr result (self.new ≡ self.old) }
    {
        let index = self.intern(Node::Not(a))?;
        Ok(BoolId { index })
    }

    /// Whether both hold.
    pub fn and(&mut self, a: BoolId, b: BoolId) -> Result<BoolId, AllocError>
        requires a { HasBool self.old.nodes a }
        requires b { HasBool self.old.nodes b }
        ensures value { IfOk result (λ made. (g : Graph) → Grows self.new g → (e : Env) →
            bool_value g e made ≡ (bool_value g e a && bool_value g e b)) }
        ensures there { IfOk result (λ made. HasBool self.new.nodes made) }
        ensures keeps { Keeps self.old self.new }
        ensures made { IfOk result (λ made. IsMade self.old self.new made.index (And a b)) }
        ensures err { OnErr result (self.new ≡ self.old) }
    {
        let index = self.intern(Node::And(a, b))?;
        Ok(BoolId { index })
    }

    /// Whether at least one holds.
    pub fn or(&mut self, a: BoolId, b: BoolId) -> Result<BoolId, AllocError>
        requires a { HasBool self.old.nodes a }
        requires b { HasBool self.old.nodes b }
        ensures value { IfOk result (λ made. (g : Graph) → Grows self.new g → (e : Env) →
            bool_value g e made ≡ (bool_value g e a || bool_value g e b)) }
        ensures there { IfOk result (λ made. HasBool self.new.nodes made) }
        ensures keeps { Keeps self.old self.new }
        ensures made { IfOk result (λ made. IsMade self.old self.new made.index (Or a b)) }
        ensures err { OnErr result (self.new ≡ self.old) }
    {
        let index = self.intern(Node::Or(a, b))?;
        Ok(BoolId { index })
    }

    /// Whether exactly one holds.
    pub fn xor(&mut self, a: BoolId, b: BoolId) -> Result<BoolId, AllocError>
        requires a { HasBool self.old.nodes a }
        requires b { HasBool self.old.nodes b }
        ensures value { IfOk result (λ made. (g : Graph) → Grows self.new g → (e : Env) →
            bool_value g e made ≡ (if bool_value g e a then not (bool_value g e b) else bool_value g e b)) }
        ensures there { IfOk result (λ made. HasBool self.new.nodes made) }
        ensures keeps { Keeps self.old self.new }
        ensures made { IfOk result (λ made. IsMade self.old self.new made.index (Xor a b)) }
        ensures err { OnErr result (self.new ≡ self.old) }
    {
        let index = self.intern(Node::Xor(a, b))?;
        Ok(BoolId { index })
    }

    /// `a` where `c` holds, else `b`.
    pub fn bool_mux(&mut self, c: BoolId, a: BoolId, b: BoolId) -> Result<BoolId, AllocError>
        requires c { HasBool self.old.nodes c }
        requires a { HasBool self.old.nodes a }
        requires b { HasBool self.old.nodes b }
        ensures value { IfOk result (λ made. (g : Graph) → Grows self.new g → (e : Env) →
            bool_value g e made ≡ (if bool_value g e c then bool_value g e a else bool_value g e b)) }
        ensures there { IfOk result (λ made. HasBool self.new.nodes made) }
        ensures keeps { Keeps self.old self.new }
        ensures made { IfOk result (λ made. IsMade self.old self.new made.index (BoolMux c a b)) }
        ensures err { OnErr result (self.new ≡ self.old) }
    {
        let index = self.intern(Node::BoolMux(c, a, b))?;
        Ok(BoolId { index })
    }

    /// `a` where `c` holds, else `b`.
    pub fn mux(&mut self, c: BoolId, a: WordId, b: WordId) -> Result<WordId, AllocError>
        requires c { HasBool self.old.nodes c }
        requires a { HasWord self.old.nodes a }
        requires b { HasWord self.old.nodes b }
        ensures value { IfOk result (λ made. (g : Graph) → Grows self.new g → (e : Env) →
            word_value g e made ≡ (if bool_value g e c then word_value g e a else word_value g e b)) }
        ensures there { IfOk result (λ made. HasWord self.new.nodes made) }
        ensures keeps { Keeps self.old self.new }
        ensures made { IfOk result (λ made. IsMade self.old self.new made.index (Mux c a b)) }
        ensures err { OnErr result (self.new ≡ self.old) }
    {
        let index = self.intern(Node::Mux(c, a, b))?;
        Ok(WordId { index })
    }

    /// The sum, wrapped to the width.
    pub fn add(&mut self, a: WordId, b: WordId) -> Result<WordId, AllocError>
        requires a { HasWord self.old.nodes a }
        requires b { HasWord self.old.nodes b }
        ensures value { IfOk result (λ made. (g : Graph) → Grows self.new g → (e : Env) →
            word_value g e made ≡ wrapped self.old.bits (word_value g e a +ℤ word_value g e b)) }
        ensures there { IfOk result (λ made. HasWord self.new.nodes made) }
        ensures keeps { Keeps self.old self.new }
        ensures made { IfOk result (λ made. IsMade self.old self.new made.index (Add a b)) }
        ensures err { OnErr result (self.new ≡ self.old) }
    {
        let index = self.intern(Node::Add(a, b))?;
        Ok(WordId { index })
    }

    /// The difference, wrapped to the width.
    pub fn sub(&mut self, a: WordId, b: WordId) -> Result<WordId, AllocError>
        requires a { HasWord self.old.nodes a }
        requires b { HasWord self.old.nodes b }
        ensures value { IfOk result (λ made. (g : Graph) → Grows self.new g → (e : Env) →
            word_value g e made ≡ wrapped self.old.bits (word_value g e a -ℤ word_value g e b)) }
        ensures there { IfOk result (λ made. HasWord self.new.nodes made) }
        ensures keeps { Keeps self.old self.new }
        ensures made { IfOk result (λ made. IsMade self.old self.new made.index (Sub a b)) }
        ensures err { OnErr result (self.new ≡ self.old) }
    {
        let index = self.intern(Node::Sub(a, b))?;
        Ok(WordId { index })
    }

    /// The product, wrapped to the width.
    pub fn mul(&mut self, a: WordId, b: WordId) -> Result<WordId, AllocError>
        requires a { HasWord self.old.nodes a }
        requires b { HasWord self.old.nodes b }
        ensures value { IfOk result (λ made. (g : Graph) → Grows self.new g → (e : Env) →
            word_value g e made ≡ wrapped self.old.bits (word_value g e a *ℤ word_value g e b)) }
        ensures there { IfOk result (λ made. HasWord self.new.nodes made) }
        ensures keeps { Keeps self.old self.new }
        ensures made { IfOk result (λ made. IsMade self.old self.new made.index (Mul a b)) }
        ensures err { OnErr result (self.new ≡ self.old) }
    {
        let index = self.intern(Node::Mul(a, b))?;
        Ok(WordId { index })
    }

    /// The quotient, rounded toward zero and wrapped to the width; 0 where `b` is 0.
    pub fn div(&mut self, a: WordId, b: WordId) -> Result<WordId, AllocError>
        requires a { HasWord self.old.nodes a }
        requires b { HasWord self.old.nodes b }
        ensures value { IfOk result (λ made. (g : Graph) → Grows self.new g → (e : Env) →
            word_value g e made ≡ quotient self.old.bits (word_value g e a) (word_value g e b)) }
        ensures there { IfOk result (λ made. HasWord self.new.nodes made) }
        ensures keeps { Keeps self.old self.new }
        ensures made { IfOk result (λ made. IsMade self.old self.new made.index (Div a b)) }
        ensures err { OnErr result (self.new ≡ self.old) }
    {
        let index = self.intern(Node::Div(a, b))?;
        Ok(WordId { index })
    }

    /// What that quotient leaves of `a`, with the sign of `a`; 0 where `b` is 0.
    pub fn rem(&mut self, a: WordId, b: WordId) -> Result<WordId, AllocError>
        requires a { HasWord self.old.nodes a }
        requires b { HasWord self.old.nodes b }
        ensures value { IfOk result (λ made. (g : Graph) → Grows self.new g → (e : Env) →
            word_value g e made ≡ remainder self.old.bits (word_value g e a) (word_value g e b)) }
        ensures there { IfOk result (λ made. HasWord self.new.nodes made) }
        ensures keeps { Keeps self.old self.new }
        ensures made { IfOk result (λ made. IsMade self.old self.new made.index (Rem a b)) }
        ensures err { OnErr result (self.new ≡ self.old) }
    {
        let index = self.intern(Node::Rem(a, b))?;
        Ok(WordId { index })
    }

    /// Whether `a` is below `b`, as signed numbers.
    pub fn lt(&mut self, a: WordId, b: WordId) -> Result<BoolId, AllocError>
        requires a { HasWord self.old.nodes a }
        requires b { HasWord self.old.nodes b }
        ensures value { IfOk result (λ made. (g : Graph) → Grows self.new g → (e : Env) →
            bool_value g e made ≡ int_lt (word_value g e a) (word_value g e b)) }
        ensures there { IfOk result (λ made. HasBool self.new.nodes made) }
        ensures keeps { Keeps self.old self.new }
        ensures made { IfOk result (λ made. IsMade self.old self.new made.index (Lt a b)) }
        ensures err { OnErr result (self.new ≡ self.old) }
    {
        let index = self.intern(Node::Lt(a, b))?;
        Ok(BoolId { index })
    }

    /// Whether two words are equal.
    pub fn eq(&mut self, a: WordId, b: WordId) -> Result<BoolId, AllocError>
        requires a { HasWord self.old.nodes a }
        requires b { HasWord self.old.nodes b }
        ensures value { IfOk result (λ made. (g : Graph) → Grows self.new g → (e : Env) →
            bool_value g e made ≡ int_eq (word_value g e a) (word_value g e b)) }
        ensures there { IfOk result (λ made. HasBool self.new.nodes made) }
        ensures keeps { Keeps self.old self.new }
        ensures made { IfOk result (λ made. IsMade self.old self.new made.index (Eq a b)) }
        ensures err { OnErr result (self.new ≡ self.old) }
    {
        let index = self.intern(Node::Eq(a, b))?;
        Ok(BoolId { index })
    }

    /// A cost of 0.
    pub fn cost_zero(&mut self) -> Result<CostId, AllocError>
        ensures value { IfOk result (λ made. (g : Graph) → Grows self.new g → (e : Env) →
            cost_value g e made ≡ 0) }
        ensures there { IfOk result (λ made. HasCost self.new.nodes made) }
        ensures keeps { Keeps self.old self.new }
        ensures made { IfOk result (λ made. IsMade self.old self.new made.index CostZero) }
        ensures err { OnErr result (self.new ≡ self.old) }
    {
        let index = self.intern(Node::CostZero)?;
        Ok(CostId { index })
    }

    /// `c`, and the word `w` more where `g` holds and `w` is above 0; at most 2^64 - 1.
    pub fn cost_add(
        &mut self,
        cost: CostId,
        when: BoolId,
        amount: WordId,
    ) -> Result<CostId, AllocError>
        requires cost { HasCost self.old.nodes cost }
        requires when { HasBool self.old.nodes when }
        requires amount { HasWord self.old.nodes amount }
        ensures value { IfOk result (λ made. (g : Graph) → Grows self.new g → (e : Env) →
            cost_value g e made ≡ charge (cost_value g e cost) (bool_value g e when) (word_value g e amount)) }
        ensures there { IfOk result (λ made. HasCost self.new.nodes made) }
        ensures keeps { Keeps self.old self.new }
        ensures made { IfOk result (λ made. IsMade self.old self.new made.index (CostAdd cost when amount)) }
        ensures err { OnErr result (self.new ≡ self.old) }
    {
        let index = self.intern(Node::CostAdd(cost, when, amount))?;
        Ok(CostId { index })
    }

    /// Whether a cost is at most the limit.
    pub fn cost_le(&mut self, cost: CostId, limit: u64) -> Result<BoolId, AllocError>
        requires { HasCost self.old.nodes cost }
        ensures value { IfOk result (λ made. (g : Graph) → Grows self.new g → (e : Env) →
            bool_value g e made ≡ nat_le (cost_value g e cost) limit) }
        ensures there { IfOk result (λ made. HasBool self.new.nodes made) }
        ensures keeps { Keeps self.old self.new }
        ensures made { IfOk result (λ made. IsMade self.old self.new made.index (CostLe cost limit)) }
        ensures err { OnErr result (self.new ≡ self.old) }
    {
        let index = self.intern(Node::CostLe(cost, limit))?;
        Ok(BoolId { index })
    }

    /// The width of a word, in bits. In each graph children stand before parents, sorts fit, and no
    /// two nodes are equal.
    pub fn int_bits(&self) -> u32
        ensures width { result ≡ self.now.bits }
        ensures well_formed { IsWellFormed self.now.bits self.now.nodes }
    {
        self.int_bits
    }

    /// The number of nodes.
    pub fn len(&self) -> usize
        ensures { result ≡ length self.now.nodes }
    {
        self.nodes.len()
    }

    /// Whether the graph has no node.
    pub fn is_empty(&self) -> bool
        ensures { IsTrue result ↔ (length self.now.nodes ≡ 0) }
    {
        self.nodes.is_empty()
    }

    /// The node with this number.
    pub fn node(&self, index: usize) -> &Node
        requires { index < length self.now.nodes }
        ensures { IsNode self.now index result.now }
    {
        &self.nodes.as_slice()[index]
    }

    // The value of a node, for which each node up to it is evaluated.
    fn value_among(&self, index: usize, env: &Env) -> Result<Value, AllocError>
        requires { index < length self.now.nodes }
        ensures { IfOk result (λ value. value ≡ value_at (graph_values self.now env.now) index) }
    {
        let nodes = &self.nodes.as_slice()[..index + 1];
        let values = values_of(self.alloc, self.int_bits, nodes, env)?;
        Ok(values.value(index))
    }

    // The value of a node. Those on which it stands are evaluated alone if they are few beside all up to it. Else all up
    // to it are, in their order, which looks nothing up: they are no more than some multiple of what it stands on.
    fn value(&self, index: usize, env: &Env) -> Result<Value, AllocError>
        requires { index < length self.now.nodes }
        ensures { IfOk result (λ value. value ≡ value_at (graph_values self.now env.now) index) }
    {
        let nodes = self.nodes.as_slice();
        let steps = index / NODES_A_STEP;
        let found = value_below(self.alloc, self.int_bits, nodes, index, env, steps)?;
        match found {
            Some(value) => Ok(value),
            None => self.value_among(index, env),
        }
    }

    /// The value of a node in an environment. The nodes on which it stands are evaluated once each, from children to
    /// parents, and time and memory grow with their number alone.
    pub fn eval_bool(&self, a: BoolId, env: &Env) -> Result<bool, AllocError>
        requires { HasBool self.now.nodes a }
        ensures { IfOk result (λ value. value ≡ bool_value self.now env.now a) }
    {
        match self.value(a.index, env)? {
            Value::Bit(bit) => Ok(bit),
            _ => Ok(false),
        }
    }

    /// The value of a node in an environment. The nodes on which it stands are evaluated once each, from children to
    /// parents, and time and memory grow with their number alone.
    pub fn eval_word(&self, a: WordId, env: &Env) -> Result<i64, AllocError>
        requires { HasWord self.now.nodes a }
        ensures { IfOk result (λ value. value ≡ word_value self.now env.now a) }
    {
        match self.value(a.index, env)? {
            Value::Int(number) => Ok(number),
            _ => Ok(0),
        }
    }

    /// The value of a node in an environment. The nodes on which it stands are evaluated once each, from children to
    /// parents, and time and memory grow with their number alone.
    pub fn eval_cost(&self, a: CostId, env: &Env) -> Result<u64, AllocError>
        requires { HasCost self.now.nodes a }
        ensures { IfOk result (λ value. value ≡ cost_value self.now env.now a) }
    {
        match self.value(a.index, env)? {
            Value::Cost(cost) => Ok(cost),
            _ => Ok(0),
        }
    }

    /// A mark for each node: whether it is one of the roots or stands below one.
    pub fn reached(&self, roots: &[BoolId]) -> Result<List<bool>, AllocError>
        requires { All (HasBool self.now.nodes) roots.now }
        ensures { IfOk result (λ marks. MarksReached self.now.nodes roots.now marks) }
    {
        let mut marks = vec![in self.alloc; false; self.len()]?;
        mark_reached(self.nodes.as_slice(), roots, &mut marks);
        Ok(List::from_vec(marks))
    }

    // The number of a copy of a node over these numbers, where it is wanted.
    fn copy_wanted(
        &mut self,
        wanted: bool,
        node: Node,
        numbers: &[usize],
    ) -> Result<usize, AllocError>
        requires within { Each (λ c. c < length numbers.now) (children node) }
        requires follows { IsTrue wanted → MayFollow self.old.bits self.old.nodes (renumbered numbers.now node) }
        ensures keeps { Keeps self.old self.new }
        ensures copied { IsTrue wanted → IfOk result (λ i. Makes self.old self.new i (renumbered numbers.now node)) }
        ensures only { IfOk result (λ i. AddsAtMost wanted self.old self.new i) }
    {
        if !wanted {
            return Ok(0);
        }
        let number = self.intern(node.renumbered(numbers))?;
        Ok(number)
    }

    // Copies the marked nodes of another graph, children first: the number of each copy.
    fn copy_marked(&mut self, other: &Dag, marks: &[bool]) -> Result<Vec<usize>, AllocError>
        requires width { other.now.bits ≡ self.old.bits }
        requires closed { IsClosed other.now.nodes marks.now }
        ensures keeps { Keeps self.old self.new }
        ensures copied { IfOk result (λ numbers. StandForMarked other.now self.new marks.now numbers.items (length other.now.nodes)) }
        ensures copies { IfOk result (λ numbers. CopiesMarked other.now self.new marks.now numbers.items (length other.now.nodes)) }
        ensures only { IfOk result (λ numbers. OnlyMarked self.old self.new marks.now numbers.items (length other.now.nodes)) }
    {
        let mut numbers = Vec::with_capacity(self.alloc, other.len())?;
        for i in 0..other.len() {
            let number = self.copy_wanted(marks[i], *other.node(i), &numbers)?;
            numbers.push(number)?;
        }
        Ok(numbers)
    }

    /// A node with the value of a root of another graph of the same width, in every environment.
    /// The nodes below the root are copied, and those that are here already are shared.
    pub fn graft(&mut self, other: &Dag, root: BoolId) -> Result<BoolId, AllocError>
        requires width { other.now.bits ≡ self.old.bits }
        requires root { HasBool other.now.nodes root }
        ensures value { IfOk result (λ made. (g : Graph) → Grows self.new g → (e : Env) →
            bool_value g e made ≡ bool_value other.now e root) }
        ensures there { IfOk result (λ made. HasBool self.new.nodes made) }
        ensures copied { IfOk result (λ made. IsGrafted other.now self.old self.new root made) }
        ensures keeps { Keeps self.old self.new }
    {
        let marks = other.reached(&[root])?;
        let numbers = self.copy_marked(other, marks.as_slice())?;
        Ok(new_bool_id(&numbers, root))
    }
}
