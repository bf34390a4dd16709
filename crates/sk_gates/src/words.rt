ghost use Rattle.std.specs.Prelude.{◌≡◌, ℕ, ◌+◌, ◌*◌, ◌%◌, ◌^◌, ◌≤◌, ◌<◌, Bool, false, length, take, nat_lt, if◌then◌else◌, IfOk, OnErr, slice_index_or};
ghost use Rattle.sk_gates.specs.Bits.{bit_true, reach, AreOver};
ghost use Rattle.sk_gates.specs.Extension.{Continues};
ghost use Rattle.sk_gates.specs.Sharing.{Builds};
ghost use Rattle.sk_gates.specs.Words.{digit, bits_word, is_less};
ghost use Rattle.sk_gates.specs.declared.bit.Bit.TheVariants.{Constant};

use crate::bit::Bit;
use crate::shared::SharedGates;
use sk_base::List;
use std::alloc::{AllocError, Global};

// The bit of number i.
pub fn bit_at(bits: &[Bit], i: usize) -> Bit
    requires { i < length bits.now }
    ensures bit { result ≡ slice_index_or bits.now i (Constant false) }
    ensures within { (n : ℕ) → AreOver n bits.now → reach result ≤ n }
{
    bits[i]
}

// The lowest n bits.
pub fn lowest(bits: &[Bit], n: usize) -> &[Bit]
    requires { n ≤ length bits.now }
    ensures bits { result.now ≡ take n bits.now }
    ensures within { (vars : ℕ) → AreOver vars bits.now → AreOver vars result.now }
{
    &bits[..n]
}

// The first bit where the condition holds, else the second.
fn pick(condition: bool, a: Bit, b: Bit) -> Bit
    ensures { result ≡ (if condition then a else b) }
{
    if condition { a } else { b }
}

/// The sum of two words and a carry, and the carry that it leaves.
#[tactic(auto, using(crate::proofs::ExtensionLaws::growing))]
pub fn add_carry(
    alloc: Global,
    to: &mut SharedGates,
    a: &[Bit],
    b: &[Bit],
    carry: Bit,
) -> Result<(List<Bit>, Bit), AllocError>
    requires lengths { length a.now ≡ length b.now }
    requires a { AreOver to.old.vars a.now }
    requires b { AreOver to.old.vars b.now }
    requires carry { reach carry ≤ to.old.vars }
    ensures length { IfOk result (λ r. length r.0 ≡ length a.now) }
    ensures sum_within { IfOk result (λ r. AreOver to.new.vars r.0) }
    ensures carry_within { IfOk result (λ r. reach r.1 ≤ to.new.vars) }
    ensures gate { IfOk result (λ r. Builds to.old to.new (λ v.
        bits_word v r.0 + 2 ^ length a.now * digit (bit_true v r.1) ≡ bits_word v a.now + bits_word v b.now + digit (bit_true v carry))) }
    ensures err { OnErr result (Continues to.old to.new) }
{
    let mut sum = List::new(alloc);
    let mut next = carry;
    for i in 0..a.len() {
        let x = bit_at(a, i);
        let y = bit_at(b, i);
        let (digit, after) = to.full_adder(x, y, next)?;
        sum.push(digit)?;
        next = after;
    }
    Ok((sum, next))
}

/// The sum of two words and a carry, of their length: the carry that it leaves is not made.
#[tactic(auto, using(crate::proofs::ExtensionLaws::growing))]
pub fn add_bits(
    alloc: Global,
    to: &mut SharedGates,
    a: &[Bit],
    b: &[Bit],
    carry: Bit,
) -> Result<List<Bit>, AllocError>
    requires some { 1 ≤ length a.now }
    requires lengths { length a.now ≡ length b.now }
    requires a { AreOver to.old.vars a.now }
    requires b { AreOver to.old.vars b.now }
    requires carry { reach carry ≤ to.old.vars }
    ensures length { IfOk result (λ r. length r ≡ length a.now) }
    ensures within { IfOk result (λ r. AreOver to.new.vars r) }
    ensures gate { IfOk result (λ r. Builds to.old to.new (λ v.
        bits_word v r ≡ (bits_word v a.now + bits_word v b.now + digit (bit_true v carry)) % 2 ^ length a.now)) }
    ensures err { OnErr result (Continues to.old to.new) }
{
    let low = a.len() - 1;
    let a_low = lowest(a, low);
    let b_low = lowest(b, low);
    let (mut sum, next) = add_carry(alloc, to, a_low, b_low, carry)?;
    let x = bit_at(a, low);
    let y = bit_at(b, low);
    let top = to.sum(x, y, next)?;
    sum.push(top)?;
    Ok(sum)
}

// Whether the first number is below the second.
#[tactic(auto, using(crate::proofs::ExtensionLaws::growing))]
fn less_low(to: &mut SharedGates, a: &[Bit], b: &[Bit]) -> Result<Bit, AllocError>
    requires lengths { length a.now ≡ length b.now }
    requires a { AreOver to.old.vars a.now }
    requires b { AreOver to.old.vars b.now }
    ensures within { IfOk result (λ r. reach r ≤ to.new.vars) }
    ensures gate { IfOk result (λ r. Builds to.old to.new (λ v. bit_true v r ≡ nat_lt (bits_word v a.now) (bits_word v b.now))) }
    ensures err { OnErr result (Continues to.old to.new) }
{
    let mut below = Bit::Constant(false);
    for i in 0..a.len() {
        let x = bit_at(a, i);
        let y = bit_at(b, i);
        let apart = to.xor(x, y)?;
        below = to.mux(apart, y, below)?;
    }
    Ok(below)
}

/// Whether the first word is below the second, read in two's complement where `signed`.
#[tactic(auto, using(crate::proofs::ExtensionLaws::growing))]
pub fn less_bits(
    to: &mut SharedGates,
    a: &[Bit],
    b: &[Bit],
    signed: bool,
) -> Result<Bit, AllocError>
    requires some { 1 ≤ length a.now }
    requires lengths { length a.now ≡ length b.now }
    requires a { AreOver to.old.vars a.now }
    requires b { AreOver to.old.vars b.now }
    ensures within { IfOk result (λ r. reach r ≤ to.new.vars) }
    ensures gate { IfOk result (λ r. Builds to.old to.new (λ v. bit_true v r ≡ is_less signed (length a.now) (bits_word v a.now) (bits_word v b.now))) }
    ensures err { OnErr result (Continues to.old to.new) }
{
    let low = a.len() - 1;
    let a_low = lowest(a, low);
    let b_low = lowest(b, low);
    let below = less_low(to, a_low, b_low)?;
    let x = bit_at(a, low);
    let y = bit_at(b, low);
    let apart = to.xor(x, y)?;
    let top = pick(signed, x, y);
    let r = to.mux(apart, top, below)?;
    Ok(r)
}
