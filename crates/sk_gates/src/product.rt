ghost use Rattle.std.specs.Prelude.{◌≡◌, ℕ, ◌+◌, ◌-◌, ◌*◌, ◌%◌, ◌^◌, ◌≤◌, ◌<◌, Bool, length, take, IfOk, OnErr};
ghost use Rattle.sk_gates.specs.Bits.{bit_true, reach, AreOver};
ghost use Rattle.sk_gates.specs.Extension.{Continues};
ghost use Rattle.sk_gates.specs.Sharing.{Builds};
ghost use Rattle.sk_gates.specs.Words.{digit, bits_word};

use crate::bit::Bit;
use crate::each::zeros;
use crate::shared::SharedGates;
use crate::words::{add_bits, bit_at};
use sk_base::List;
use std::alloc::{AllocError, Global};

// One row of a product: the word, moved up by so many bits, where the bit is true, else 0. Bits that would stand above
// the length are dropped.
#[tactic(auto, using(crate::proofs::ExtensionLaws::growing))]
fn row(
    alloc: Global,
    to: &mut SharedGates,
    a: &[Bit],
    bit: Bit,
    shift: usize,
) -> Result<List<Bit>, AllocError>
    requires shift { shift ≤ length a.now }
    requires a { AreOver to.old.vars a.now }
    requires bit { reach bit ≤ to.old.vars }
    ensures length { IfOk result (λ r. length r ≡ length a.now) }
    ensures within { IfOk result (λ r. AreOver to.new.vars r) }
    ensures gate { IfOk result (λ r. Builds to.old to.new (λ v.
        bits_word v r ≡ 2 ^ shift * (digit (bit_true v bit) * bits_word v (take (length a.now - shift) a.now)))) }
    ensures err { OnErr result (Continues to.old to.new) }
{
    let mut moved = zeros(alloc, shift)?;
    for i in 0..a.len() - shift {
        let x = bit_at(a, i);
        let both = to.and(x, bit)?;
        moved.push(both)?;
    }
    Ok(moved)
}

// The sum of a row for each bit of b. The row of a constant 0 is 0, and to add it makes no variable.
#[tactic(auto, using(crate::proofs::ExtensionLaws::growing))]
fn add_rows(
    alloc: Global,
    to: &mut SharedGates,
    a: &[Bit],
    b: &[Bit],
) -> Result<List<Bit>, AllocError>
    requires some { 1 ≤ length a.now }
    requires lengths { length a.now ≡ length b.now }
    requires a { AreOver to.old.vars a.now }
    requires b { AreOver to.old.vars b.now }
    ensures length { IfOk result (λ r. length r ≡ length a.now) }
    ensures within { IfOk result (λ r. AreOver to.new.vars r) }
    ensures gate { IfOk result (λ r. Builds to.old to.new (λ v. bits_word v r ≡ (bits_word v a.now * bits_word v b.now) % 2 ^ length a.now)) }
    ensures err { OnErr result (Continues to.old to.new) }
{
    let mut sum = zeros(alloc, a.len())?;
    for i in 0..b.len() {
        let bit = bit_at(b, i);
        let more = row(alloc, to, a, bit, i)?;
        let next = add_bits(
            alloc,
            to,
            sum.as_slice(),
            more.as_slice(),
            Bit::Constant(false),
        )?;
        sum = next;
    }
    Ok(sum)
}

// How many of the bits are no constants.
fn literals(bits: &[Bit]) -> usize {
    let mut count = 0;
    for i in 0..bits.len() {
        if let Bit::Literal(_) = bits[i] {
            count += 1;
        }
    }
    count
}

/// The product of two words, of their length: what is above is dropped. There is a row for each bit of the word with
/// fewer literals, and none for a bit that is a constant 0.
#[tactic(auto, using(crate::proofs::ExtensionLaws::growing))]
pub fn mul_bits(
    alloc: Global,
    to: &mut SharedGates,
    a: &[Bit],
    b: &[Bit],
) -> Result<List<Bit>, AllocError>
    requires some { 1 ≤ length a.now }
    requires lengths { length a.now ≡ length b.now }
    requires a { AreOver to.old.vars a.now }
    requires b { AreOver to.old.vars b.now }
    ensures length { IfOk result (λ r. length r ≡ length a.now) }
    ensures within { IfOk result (λ r. AreOver to.new.vars r) }
    ensures gate { IfOk result (λ r. Builds to.old to.new (λ v. bits_word v r ≡ (bits_word v a.now * bits_word v b.now) % 2 ^ length a.now)) }
    ensures err { OnErr result (Continues to.old to.new) }
{
    if literals(a) < literals(b) {
        let r = add_rows(alloc, to, b, a)?;
        return Ok(r);
    }
    let r = add_rows(alloc, to, a, b)?;
    Ok(r)
}
