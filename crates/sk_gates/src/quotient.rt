ghost use Rattle.std.specs.Prelude.{◌≡◌, ℕ, ◌+◌, ◌-◌, ◌*◌, ◌^◌, ◌≤◌, ◌<◌, Bool, false, length, take, min, slice_index_or, IsTrue, IfOk, OnErr};
ghost use Rattle.sk_gates.specs.Bits.{bit_true, reach, AreOver};
ghost use Rattle.sk_gates.specs.Extension.{Continues};
ghost use Rattle.sk_gates.specs.Sharing.{Builds};
ghost use Rattle.sk_gates.specs.Words.{digit, bits_word, quotient_of, remainder_of};
ghost use Rattle.sk_gates.specs.Division.{AreTops, IsDivided};
ghost use Rattle.sk_gates.specs.declared.bit.Bit.TheVariants.{Constant};

use crate::bit::Bit;
use crate::each::{and_each, mux_each, not_each, padded, zeros};
use crate::shared::SharedGates;
use crate::words::{add_carry, bit_at, lowest};
use sk_base::List;
use std::alloc::{AllocError, Global};

/// The difference of two words, of their length, and whether the second is at most the first. Where it is not, the
/// difference is greater by the number of all words of that length.
#[tactic(auto, using(crate::proofs::ExtensionLaws::growing))]
pub fn subtract_bits(
    alloc: Global,
    to: &mut SharedGates,
    a: &[Bit],
    b: &[Bit],
) -> Result<(List<Bit>, Bit), AllocError>
    requires lengths { length a.now ≡ length b.now }
    requires a { AreOver to.old.vars a.now }
    requires b { AreOver to.old.vars b.now }
    ensures length { IfOk result (λ r. length r.0 ≡ length a.now) }
    ensures difference_within { IfOk result (λ r. AreOver to.new.vars r.0) }
    ensures fits_within { IfOk result (λ r. reach r.1 ≤ to.new.vars) }
    ensures gate { IfOk result (λ r. Builds to.old to.new (λ v.
        bits_word v r.0 + 2 ^ length a.now * digit (bit_true v r.1) + bits_word v b.now ≡ bits_word v a.now + 2 ^ length a.now)) }
    ensures err { OnErr result (Continues to.old to.new) }
{
    let opposite = not_each(alloc, b)?;
    let r = add_carry(alloc, to, a, opposite.as_slice(), Bit::Constant(true))?;
    Ok(r)
}

// For each j up to the length whether the j highest bits are all false.
#[tactic(auto, using(crate::proofs::ExtensionLaws::growing))]
fn tops_of(alloc: Global, to: &mut SharedGates, bits: &[Bit]) -> Result<List<Bit>, AllocError>
    requires { AreOver to.old.vars bits.now }
    ensures length { IfOk result (λ r. length r ≡ length bits.now + 1) }
    ensures within { IfOk result (λ r. AreOver to.new.vars r) }
    ensures gate { IfOk result (λ r. Builds to.old to.new (λ v. AreTops v bits.now r)) }
    ensures err { OnErr result (Continues to.old to.new) }
{
    let mut tops = List::new(alloc);
    let mut clear = Bit::Constant(true);
    tops.push(clear)?;
    for k in 0..bits.len() {
        let x = bit_at(bits, bits.len() - 1 - k);
        let more = to.and(clear, x.negate())?;
        tops.push(more)?;
        clear = more;
    }
    Ok(tops)
}

// The bit, and above it the others.
fn with_lowest(alloc: Global, lowest: Bit, others: &[Bit]) -> Result<List<Bit>, AllocError>
    ensures length { IfOk result (λ r. length r ≡ length others.now + 1) }
    ensures within { IfOk result (λ r. (n : ℕ) → reach lowest ≤ n → AreOver n others.now → AreOver n r) }
    ensures value { IfOk result (λ r. (v : ℕ → Bool) → bits_word v r ≡ digit (bit_true v lowest) + 2 * bits_word v others.now) }
{
    let mut r = List::new(alloc);
    r.push(lowest)?;
    let more = List::from_slice(alloc, others)?;
    r.append(more)?;
    Ok(r)
}

// The bit of number i, false where there is none.
fn bit_or_false(bits: &[Bit], i: usize) -> Bit
    ensures bit { result ≡ slice_index_or bits.now i (Constant false) }
    ensures within { (n : ℕ) → AreOver n bits.now → reach result ≤ n }
{
    if i < bits.len() {
        bits[i]
    } else {
        Bit::Constant(false)
    }
}

// The lesser of two lengths.
fn lesser(m: usize, n: usize) -> usize
    ensures { result ≡ min m n }
{
    if m < n { m } else { n }
}

// Whether a bit is known to be false.
fn is_false(bit: Bit) -> bool
    ensures { IsTrue result → bit ≡ Constant false }
{
    match bit {
        Bit::Constant(known) => !known,
        Bit::Literal(_) => false,
    }
}

// One step of a division: the digit of the quotient, and what is left of twice what was left before and the next bit.
// Where the divisor is not 0 that has no more bits than the divisor. Where its upper bits are known not to be false the
// step adds nothing.
#[tactic(auto, using(crate::proofs::ExtensionLaws::growing))]
fn divide_step(
    alloc: Global,
    to: &mut SharedGates,
    next: Bit,
    left: &[Bit],
    divisor: &[Bit],
    tops: &[Bit],
) -> Result<(Bit, List<Bit>), AllocError>
    requires short { length left.now ≤ length divisor.now }
    requires long { length tops.now ≡ length divisor.now + 1 }
    requires next { reach next ≤ to.old.vars }
    requires left { AreOver to.old.vars left.now }
    requires divisor { AreOver to.old.vars divisor.now }
    requires tops { AreOver to.old.vars tops.now }
    ensures short { IfOk result (λ r. length r.1 ≤ length divisor.now) }
    ensures one { IfOk result (λ r. length r.1 ≤ length left.now + 1) }
    ensures digit_within { IfOk result (λ r. reach r.0 ≤ to.new.vars) }
    ensures left_within { IfOk result (λ r. AreOver to.new.vars r.1) }
    ensures gate { IfOk result (λ r. Builds to.old to.new (λ v. AreTops v divisor.now tops.now → bits_word v left.now < bits_word v divisor.now
        → IsDivided (digit (bit_true v next) + 2 * bits_word v left.now) (bits_word v divisor.now) (digit (bit_true v r.0)) (bits_word v r.1))) }
    ensures err { OnErr result (Continues to.old to.new) }
{
    let taken = with_lowest(alloc, next, left)?;
    let low = lesser(taken.len(), divisor.len());
    let from = lowest(taken.as_slice(), low);
    let clear = bit_at(tops, divisor.len() - low);
    if is_false(clear) {
        let unchanged = List::from_slice(alloc, from)?;
        return Ok((clear, unchanged));
    }
    let lower = lowest(divisor, low);
    let (difference, fits) = subtract_bits(alloc, to, from, lower)?;
    let over = bit_or_false(taken.as_slice(), low);
    let enough = to.or(fits, over)?;
    let digit = to.and(enough, clear)?;
    let rest = mux_each(alloc, to, digit, difference.as_slice(), from)?;
    Ok((digit, rest))
}

// The quotient and what is left, where the divisor is not 0: bit by bit from the top.
#[tactic(auto, using(crate::proofs::ExtensionLaws::growing))]
fn divide(
    alloc: Global,
    to: &mut SharedGates,
    a: &[Bit],
    divisor: &[Bit],
    tops: &[Bit],
) -> Result<(List<Bit>, List<Bit>), AllocError>
    requires long { length tops.now ≡ length divisor.now + 1 }
    requires a { AreOver to.old.vars a.now }
    requires divisor { AreOver to.old.vars divisor.now }
    requires tops { AreOver to.old.vars tops.now }
    ensures quotient_length { IfOk result (λ r. length r.0 ≡ length a.now) }
    ensures left_length { IfOk result (λ r. length r.1 ≤ length a.now) }
    ensures quotient_within { IfOk result (λ r. AreOver to.new.vars r.0) }
    ensures left_within { IfOk result (λ r. AreOver to.new.vars r.1) }
    ensures gate { IfOk result (λ r. Builds to.old to.new (λ v. AreTops v divisor.now tops.now → 1 ≤ bits_word v divisor.now
        → IsDivided (bits_word v a.now) (bits_word v divisor.now) (bits_word v r.0) (bits_word v r.1))) }
    ensures err { OnErr result (Continues to.old to.new) }
{
    let mut quotient = zeros(alloc, a.len())?;
    let mut left = List::new(alloc);
    for k in 0..a.len() {
        let i = a.len() - 1 - k;
        let x = bit_at(a, i);
        let (digit, rest) = divide_step(alloc, to, x, left.as_slice(), divisor, tops)?;
        quotient.set(i, digit);
        left = rest;
    }
    Ok((quotient, left))
}

// How many bits hold the number if the bit of number i counts too: i + 1, unless that bit is known to be false.
fn counted(bit: Bit, i: usize, below: usize) -> usize
    requires most { below ≤ i }
    requires fits { i + 1 < 2 ^ 64 }
    ensures most { result ≤ i + 1 }
    ensures least { below ≤ result }
    ensures kept { result < i + 1 → (result ≡ below) × (bit ≡ Constant false) }
{
    match bit {
        Bit::Constant(false) => below,
        _ => i + 1,
    }
}

// The lowest bits that hold the number: those above are known to be false.
fn trimmed(bits: &[Bit]) -> &[Bit]
    ensures most { length result.now ≤ length bits.now }
    ensures within { (n : ℕ) → AreOver n bits.now → AreOver n result.now }
    ensures value { (v : ℕ → Bool) → bits_word v result.now ≡ bits_word v bits.now }
{
    let mut count = 0;
    for i in 0..bits.len() {
        let bit = bit_at(bits, i);
        count = counted(bit, i, count);
    }
    lowest(bits, count)
}

/// The quotient and the remainder of two numbers, both of their length, and both 0 where the divisor is 0. Bits that are
/// known to be false above the others make no variable.
#[tactic(auto, using(crate::proofs::ExtensionLaws::growing))]
pub fn div_bits(
    alloc: Global,
    to: &mut SharedGates,
    a: &[Bit],
    b: &[Bit],
) -> Result<(List<Bit>, List<Bit>), AllocError>
    requires lengths { length a.now ≡ length b.now }
    requires a { AreOver to.old.vars a.now }
    requires b { AreOver to.old.vars b.now }
    ensures quotient_length { IfOk result (λ r. length r.0 ≡ length a.now) }
    ensures remainder_length { IfOk result (λ r. length r.1 ≡ length a.now) }
    ensures quotient_within { IfOk result (λ r. AreOver to.new.vars r.0) }
    ensures remainder_within { IfOk result (λ r. AreOver to.new.vars r.1) }
    ensures gate { IfOk result (λ r. Builds to.old to.new (λ v.
        (bits_word v r.0 ≡ quotient_of (bits_word v a.now) (bits_word v b.now)) × (bits_word v r.1 ≡ remainder_of (bits_word v a.now) (bits_word v b.now)))) }
    ensures err { OnErr result (Continues to.old to.new) }
{
    let x = trimmed(a);
    let y = trimmed(b);
    let tops = tops_of(alloc, to, y)?;
    let some = bit_at(tops.as_slice(), y.len()).negate();
    let (quotient, left) = divide(alloc, to, x, y, tops.as_slice())?;
    let kept = and_each(alloc, to, quotient.as_slice(), some)?;
    let rest = and_each(alloc, to, left.as_slice(), some)?;
    let q = padded(kept, a.len())?;
    let r = padded(rest, a.len())?;
    Ok((q, r))
}
