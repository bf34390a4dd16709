//! The literals of leaves.

ghost use Rattle.std.specs.Prelude.{◌≡◌, ℕ, ◌≤◌, ◌<◌, Bool, length, map, position, All, IfSome, IfOk, IsTrue, ◌↔◌};
ghost use Rattle.sk_cnf.specs.Formula.{AreLeaves};
ghost use Rattle.sk_gates.specs.Bits.{bit_true, reach, AreOver};
ghost use Rattle.sk_gates.specs.Words.{bits_word};
ghost use Rattle.sk_cnf.specs.Leaves.{same_leaf, leaf_bit, with_bit, number_of};

use crate::leaf::Leaf;
use indexmap::IndexSet;
use sk_base::List;
use sk_clause::Lit;
use sk_gates::Bit;
use std::alloc::{AllocError, Global};

// The place of a leaf among others.
fn place(leaves: &IndexSet<Leaf>, leaf: Leaf) -> Option<usize>
    ensures place { result ≡ position (same_leaf leaf) leaves.now.keys }
    ensures within { IfSome result (λ i. i < length leaves.now.keys) }
{
    leaves.get_index_of(&leaf)
}

// The literal of a leaf's bit, or false where it is not among the leaves.
pub fn leaf_literal(leaves: &IndexSet<Leaf>, names: &[usize], leaf: Leaf) -> Bit
    requires { length names.now ≡ length leaves.now.keys }
    ensures value { (v : ℕ → Bool) → bit_true v result ≡ leaf_bit leaves.now.keys (map v names.now) leaf }
    ensures within { (n : ℕ) → All (λ x. x < n) names.now → reach result ≤ n }
{
    match place(leaves, leaf) {
        Some(i) => Bit::Literal(Lit {
            var: names[i],
            neg: false,
        }),
        None => Bit::Constant(false),
    }
}

/// Whether no leaf stands twice.
pub fn are_distinct(alloc: Global, leaves: &[Leaf]) -> Result<bool, AllocError>
    ensures { IfOk result (λ yes. IsTrue yes ↔ AreLeaves leaves.now) }
{
    let mut seen = IndexSet::new(alloc);
    for i in 0..leaves.len() {
        let (_, is_new) = seen.insert_full(leaves[i])?;
        if !is_new {
            return Ok(false);
        }
    }
    Ok(true)
}

// Another bit of the same hole or scalar.
fn at_bit(leaf: Leaf, k: u32) -> Leaf
    ensures { result ≡ with_bit leaf k }
{
    match leaf {
        Leaf::Hole { site, .. } => Leaf::Hole { site, k },
        Leaf::Input { scalar, .. } => Leaf::Input { scalar, k },
    }
}

// The lowest bits of the hole or scalar of a leaf.
pub fn leaf_word(
    alloc: Global,
    leaves: &IndexSet<Leaf>,
    names: &[usize],
    leaf: Leaf,
    len: u32,
) -> Result<List<Bit>, AllocError>
    requires { length names.now ≡ length leaves.now.keys }
    ensures length { IfOk result (λ r. length r ≡ len) }
    ensures within { IfOk result (λ r. (n : ℕ) → All (λ x. x < n) names.now → AreOver n r) }
    ensures value { IfOk result (λ r. (v : ℕ → Bool) → bits_word v r ≡ number_of len (λ k. leaf_bit leaves.now.keys (map v names.now) (with_bit leaf k))) }
{
    let mut bits = List::new(alloc);
    for k in 0..len {
        let bit = leaf_literal(leaves, names, at_bit(leaf, k));
        bits.push(bit)?;
    }
    Ok(bits)
}
