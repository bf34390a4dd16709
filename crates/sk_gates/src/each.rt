ghost use Rattle.std.specs.Prelude.{◌≡◌, ℕ, ◌+◌, ◌*◌, ◌^◌, ◌≤◌, ◌<◌, Bool, length, if◌then◌else◌, IfOk, OnErr};
ghost use Rattle.sk_gates.specs.Bits.{bit_true, reach, AreOver};
ghost use Rattle.sk_gates.specs.Extension.{Continues};
ghost use Rattle.sk_gates.specs.Sharing.{Builds};
ghost use Rattle.sk_gates.specs.Words.{digit, bits_word};

use crate::bit::Bit;
use crate::shared::SharedGates;
use crate::words::bit_at;
use sk_base::List;
use std::alloc::{AllocError, Global};

/// The same number in more bits: those above are false.
pub fn padded(bits: List<Bit>, len: usize) -> Result<List<Bit>, AllocError>
    requires { length bits ≤ len }
    ensures length { IfOk result (λ r. length r ≡ len) }
    ensures within { IfOk result (λ r. (n : ℕ) → AreOver n bits → AreOver n r) }
    ensures value { IfOk result (λ r. (v : ℕ → Bool) → bits_word v r ≡ bits_word v bits) }
{
    let mut padded = bits;
    for _ in padded.len()..len {
        padded.push(Bit::Constant(false))?;
    }
    Ok(padded)
}

/// The number 0 in so many bits.
pub fn zeros(alloc: Global, len: usize) -> Result<List<Bit>, AllocError>
    ensures length { IfOk result (λ r. length r ≡ len) }
    ensures within { IfOk result (λ r. (n : ℕ) → AreOver n r) }
    ensures value { IfOk result (λ r. (v : ℕ → Bool) → bits_word v r ≡ 0) }
{
    let r = padded(List::new(alloc), len)?;
    Ok(r)
}

/// The bits that are true where these are false.
pub fn not_each(alloc: Global, bits: &[Bit]) -> Result<List<Bit>, AllocError>
    ensures length { IfOk result (λ r. length r ≡ length bits.now) }
    ensures within { IfOk result (λ r. (n : ℕ) → AreOver n bits.now → AreOver n r) }
    ensures value { IfOk result (λ r. (v : ℕ → Bool) → bits_word v r + bits_word v bits.now + 1 ≡ 2 ^ length bits.now) }
{
    let mut opposite = List::new(alloc);
    for i in 0..bits.len() {
        let bit = bit_at(bits, i);
        opposite.push(bit.negate())?;
    }
    Ok(opposite)
}

/// The word where the bit is true, else 0.
#[tactic(auto, using(crate::proofs::ExtensionLaws::growing))]
pub fn and_each(
    alloc: Global,
    to: &mut SharedGates,
    bits: &[Bit],
    bit: Bit,
) -> Result<List<Bit>, AllocError>
    requires bits { AreOver to.old.vars bits.now }
    requires bit { reach bit ≤ to.old.vars }
    ensures length { IfOk result (λ r. length r ≡ length bits.now) }
    ensures within { IfOk result (λ r. AreOver to.new.vars r) }
    ensures gate { IfOk result (λ r. Builds to.old to.new (λ v. bits_word v r ≡ digit (bit_true v bit) * bits_word v bits.now)) }
    ensures err { OnErr result (Continues to.old to.new) }
{
    let mut kept = List::new(alloc);
    for i in 0..bits.len() {
        let x = bit_at(bits, i);
        let both = to.and(x, bit)?;
        kept.push(both)?;
    }
    Ok(kept)
}

/// The first word where the condition is true, else the second.
#[tactic(auto, using(crate::proofs::ExtensionLaws::growing))]
pub fn mux_each(
    alloc: Global,
    to: &mut SharedGates,
    condition: Bit,
    a: &[Bit],
    b: &[Bit],
) -> Result<List<Bit>, AllocError>
    requires lengths { length a.now ≡ length b.now }
    requires condition { reach condition ≤ to.old.vars }
    requires a { AreOver to.old.vars a.now }
    requires b { AreOver to.old.vars b.now }
    ensures length { IfOk result (λ r. length r ≡ length a.now) }
    ensures within { IfOk result (λ r. AreOver to.new.vars r) }
    ensures gate { IfOk result (λ r. Builds to.old to.new (λ v. bits_word v r ≡ (if bit_true v condition then bits_word v a.now else bits_word v b.now))) }
    ensures err { OnErr result (Continues to.old to.new) }
{
    let mut chosen = List::new(alloc);
    for i in 0..a.len() {
        let x = bit_at(a, i);
        let y = bit_at(b, i);
        let either = to.mux(condition, x, y)?;
        chosen.push(either)?;
    }
    Ok(chosen)
}
