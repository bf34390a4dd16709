//! Arithmetic of words in two's complement, over bits: the least is first.

ghost use Rattle.std.specs.Prelude.{◌≡◌, ℕ, ◌+◌, ◌-◌, ◌%◌, ◌^◌, ◌≤◌, ◌<◌, Bool, false, not, ◌&&◌, length, if◌then◌else◌, nat_eq, nat_lt, pos, ◌+ℤ◌, ◌-ℤ◌, ◌*ℤ◌, slice_index_or, IfOk, OnErr};
ghost use Rattle.sk_base.specs.Word.{half, pattern, signed, wrapped, IsWord};
ghost use Rattle.sk_dag.specs.Eval.{charge as charge_of};
ghost use Rattle.sk_dag.specs.Word.{bit_of, quotient, remainder};
ghost use Rattle.sk_gates.specs.Bits.{bit_true, reach, AreOver, differ};
ghost use Rattle.sk_gates.specs.Extension.{Continues};
ghost use Rattle.sk_gates.specs.Sharing.{Builds};
ghost use Rattle.sk_gates.specs.Words.{digit, bits_word, quotient_of, remainder_of};
ghost use Rattle.sk_cnf.specs.Signed.{HasSign};
ghost use Rattle.sk_gates.specs.declared.bit.Bit.TheVariants.{Constant};

use sk_base::List;
use sk_gates::{
    Bit, SharedGates, add_bits, add_carry, and_each, div_bits, mul_bits, mux_each, not_each,
    padded, zeros,
};
use std::alloc::{AllocError, Global};

// The bit of number i.
pub fn bit_at(bits: &[Bit], i: usize) -> Bit
    requires { i < length bits.now }
    ensures bit { result ≡ slice_index_or bits.now i (Constant false) }
    ensures within { (n : ℕ) → AreOver n bits.now → reach result ≤ n }
{
    bits[i]
}

// Bit k of a number.
fn digit_at(number: u64, k: usize) -> bool
    requires { k < 64 }
    ensures { result ≡ bit_of number k }
{
    number >> k & 1 == 1
}

// The lowest digits of a number, as constants.
pub fn constant(alloc: Global, number: u64, len: usize) -> Result<List<Bit>, AllocError>
    requires { len ≤ 64 }
    ensures length { IfOk result (λ r. length r ≡ len) }
    ensures within { IfOk result (λ r. (n : ℕ) → AreOver n r) }
    ensures value { IfOk result (λ r. (v : ℕ → Bool) → bits_word v r ≡ number % 2 ^ len) }
{
    let mut bits = List::new(alloc);
    for k in 0..len {
        let digit = digit_at(number, k);
        bits.push(Bit::Constant(digit))?;
    }
    Ok(bits)
}

// The number whose digits are the bits of a word.
fn pattern_of(value: i64, width: u32) -> u64
    requires low { 2 ≤ width }
    requires high { width ≤ 32 }
    ensures { result ≡ pattern width value }
{
    value.rem_euclid((1u64 << width) as i64) as u64
}

// The bits of a word that is given.
pub fn given_word(alloc: Global, value: i64, width: u32) -> Result<List<Bit>, AllocError>
    requires low { 2 ≤ width }
    requires high { width ≤ 32 }
    requires word { IsWord width value }
    ensures length { IfOk result (λ r. length r ≡ width) }
    ensures within { IfOk result (λ r. (n : ℕ) → AreOver n r) }
    ensures value { IfOk result (λ r. (v : ℕ → Bool) → signed width (bits_word v r) ≡ value) }
{
    let r = constant(alloc, pattern_of(value, width), width as usize)?;
    Ok(r)
}

// Whether two words are not the same.
#[tactic(auto, using(sk_gates::proofs::ExtensionLaws::growing))]
pub fn apart(to: &mut SharedGates, a: &[Bit], b: &[Bit]) -> Result<Bit, AllocError>
    requires lengths { length a.now ≡ length b.now }
    requires a { AreOver to.old.vars a.now }
    requires b { AreOver to.old.vars b.now }
    ensures within { IfOk result (λ r. reach r ≤ to.new.vars) }
    ensures gate { IfOk result (λ r. Builds to.old to.new (λ v. bit_true v r ≡ not (nat_eq (bits_word v a.now) (bits_word v b.now)))) }
    ensures err { OnErr result (Continues to.old to.new) }
{
    let mut some = Bit::Constant(false);
    for i in 0..a.len() {
        let x = bit_at(a, i);
        let y = bit_at(b, i);
        let here = to.xor(x, y)?;
        some = to.or(some, here)?;
    }
    Ok(some)
}

// The bits, each turned where the condition is true.
#[tactic(auto, using(sk_gates::proofs::ExtensionLaws::growing))]
fn flip_each(
    alloc: Global,
    to: &mut SharedGates,
    bits: &[Bit],
    when: Bit,
) -> Result<List<Bit>, AllocError>
    requires bits { AreOver to.old.vars bits.now }
    requires when { reach when ≤ to.old.vars }
    ensures length { IfOk result (λ r. length r ≡ length bits.now) }
    ensures within { IfOk result (λ r. AreOver to.new.vars r) }
    ensures gate { IfOk result (λ r. Builds to.old to.new (λ v. bits_word v r ≡ (if bit_true v when then 2 ^ length bits.now - 1 - bits_word v bits.now else bits_word v bits.now))) }
    ensures err { OnErr result (Continues to.old to.new) }
{
    let mut flipped = List::new(alloc);
    for i in 0..bits.len() {
        let x = bit_at(bits, i);
        let either = to.xor(x, when)?;
        flipped.push(either)?;
    }
    Ok(flipped)
}

// The word, negated where the condition is true.
#[tactic(auto, using(sk_gates::proofs::ExtensionLaws::growing))]
fn negate_if(
    alloc: Global,
    to: &mut SharedGates,
    bits: &[Bit],
    when: Bit,
) -> Result<List<Bit>, AllocError>
    requires some { 1 ≤ length bits.now }
    requires bits { AreOver to.old.vars bits.now }
    requires when { reach when ≤ to.old.vars }
    ensures length { IfOk result (λ r. length r ≡ length bits.now) }
    ensures within { IfOk result (λ r. AreOver to.new.vars r) }
    ensures gate { IfOk result (λ r. Builds to.old to.new (λ v. bits_word v r ≡ (if bit_true v when then (2 ^ length bits.now - bits_word v bits.now) % 2 ^ length bits.now else bits_word v bits.now))) }
    ensures err { OnErr result (Continues to.old to.new) }
{
    let flipped = flip_each(alloc, to, bits, when)?;
    let none = zeros(alloc, bits.len())?;
    let r = add_bits(alloc, to, flipped.as_slice(), none.as_slice(), when)?;
    Ok(r)
}

// The top bit: whether the word is negative.
fn sign(bits: &[Bit]) -> Bit
    requires { 1 ≤ length bits.now }
    ensures within { (n : ℕ) → AreOver n bits.now → reach result ≤ n }
    ensures value { (v : ℕ → Bool) → bit_true v result ≡ not (nat_lt (bits_word v bits.now) (half (length bits.now))) }
{
    bit_at(bits, bits.len() - 1)
}

// The sum of two words.
#[tactic(auto, using(sk_gates::proofs::ExtensionLaws::growing))]
pub fn add_words(
    alloc: Global,
    to: &mut SharedGates,
    a: &[Bit],
    b: &[Bit],
) -> Result<List<Bit>, AllocError>
    requires some { 1 ≤ length a.now }
    requires lengths { length a.now ≡ length b.now }
    requires a { AreOver to.old.vars a.now }
    requires b { AreOver to.old.vars b.now }
    ensures length { IfOk result (λ r. length r ≡ length a.now) }
    ensures within { IfOk result (λ r. AreOver to.new.vars r) }
    ensures gate { IfOk result (λ r. Builds to.old to.new (λ v.
        signed (length a.now) (bits_word v r) ≡ wrapped (length a.now) (signed (length a.now) (bits_word v a.now) +ℤ signed (length a.now) (bits_word v b.now)))) }
    ensures err { OnErr result (Continues to.old to.new) }
{
    let r = add_bits(alloc, to, a, b, Bit::Constant(false))?;
    Ok(r)
}

// The difference of two words.
#[tactic(auto, using(sk_gates::proofs::ExtensionLaws::growing))]
pub fn subtract_words(
    alloc: Global,
    to: &mut SharedGates,
    a: &[Bit],
    b: &[Bit],
) -> Result<List<Bit>, AllocError>
    requires some { 1 ≤ length a.now }
    requires lengths { length a.now ≡ length b.now }
    requires a { AreOver to.old.vars a.now }
    requires b { AreOver to.old.vars b.now }
    ensures length { IfOk result (λ r. length r ≡ length a.now) }
    ensures within { IfOk result (λ r. AreOver to.new.vars r) }
    ensures gate { IfOk result (λ r. Builds to.old to.new (λ v.
        signed (length a.now) (bits_word v r) ≡ wrapped (length a.now) (signed (length a.now) (bits_word v a.now) -ℤ signed (length a.now) (bits_word v b.now)))) }
    ensures err { OnErr result (Continues to.old to.new) }
{
    let opposite = not_each(alloc, b)?;
    let r = add_bits(alloc, to, a, opposite.as_slice(), Bit::Constant(true))?;
    Ok(r)
}

// The product of two words.
#[tactic(auto, using(sk_gates::proofs::ExtensionLaws::growing))]
pub fn multiply_words(
    alloc: Global,
    to: &mut SharedGates,
    a: &[Bit],
    b: &[Bit],
) -> Result<List<Bit>, AllocError>
    requires some { 1 ≤ length a.now }
    requires lengths { length a.now ≡ length b.now }
    requires a { AreOver to.old.vars a.now }
    requires b { AreOver to.old.vars b.now }
    ensures length { IfOk result (λ r. length r ≡ length a.now) }
    ensures within { IfOk result (λ r. AreOver to.new.vars r) }
    ensures gate { IfOk result (λ r. Builds to.old to.new (λ v.
        signed (length a.now) (bits_word v r) ≡ wrapped (length a.now) (signed (length a.now) (bits_word v a.now) *ℤ signed (length a.now) (bits_word v b.now)))) }
    ensures err { OnErr result (Continues to.old to.new) }
{
    let r = mul_bits(alloc, to, a, b)?;
    Ok(r)
}

// The absolute value of a word, as a number from 0, and whether the word is negative.
#[tactic(auto, using(sk_gates::proofs::ExtensionLaws::growing))]
fn absolute(
    alloc: Global,
    to: &mut SharedGates,
    bits: &[Bit],
) -> Result<(List<Bit>, Bit), AllocError>
    requires some { 1 ≤ length bits.now }
    requires bits { AreOver to.old.vars bits.now }
    ensures length { IfOk result (λ r. length r.0 ≡ length bits.now) }
    ensures within { IfOk result (λ r. AreOver to.new.vars r.0) }
    ensures sign_within { IfOk result (λ r. reach r.1 ≤ to.new.vars) }
    ensures gate { IfOk result (λ r. Builds to.old to.new (λ v. HasSign (signed (length bits.now) (bits_word v bits.now)) (bit_true v r.1) (bits_word v r.0))) }
    ensures err { OnErr result (Continues to.old to.new) }
{
    let negative = sign(bits);
    let size = negate_if(alloc, to, bits, negative)?;
    Ok((size, negative))
}

// The quotient of two words, rounded toward zero; 0 where the divisor is 0.
#[tactic(auto, using(sk_gates::proofs::ExtensionLaws::growing))]
pub fn divide_words(
    alloc: Global,
    to: &mut SharedGates,
    a: &[Bit],
    b: &[Bit],
) -> Result<List<Bit>, AllocError>
    requires some { 1 ≤ length a.now }
    requires lengths { length a.now ≡ length b.now }
    requires a { AreOver to.old.vars a.now }
    requires b { AreOver to.old.vars b.now }
    ensures length { IfOk result (λ r. length r ≡ length a.now) }
    ensures within { IfOk result (λ r. AreOver to.new.vars r) }
    ensures gate { IfOk result (λ r. Builds to.old to.new (λ v.
        signed (length a.now) (bits_word v r) ≡ quotient (length a.now) (signed (length a.now) (bits_word v a.now)) (signed (length a.now) (bits_word v b.now)))) }
    ensures err { OnErr result (Continues to.old to.new) }
{
    let (dividend, first) = absolute(alloc, to, a)?;
    let (divisor, second) = absolute(alloc, to, b)?;
    let (whole, _) = div_bits(alloc, to, dividend.as_slice(), divisor.as_slice())?;
    let negative = to.xor(first, second)?;
    let r = negate_if(alloc, to, whole.as_slice(), negative)?;
    Ok(r)
}

// What that quotient leaves of the first word, with its sign; 0 where the divisor is 0.
#[tactic(auto, using(sk_gates::proofs::ExtensionLaws::growing))]
pub fn remainder_words(
    alloc: Global,
    to: &mut SharedGates,
    a: &[Bit],
    b: &[Bit],
) -> Result<List<Bit>, AllocError>
    requires some { 1 ≤ length a.now }
    requires lengths { length a.now ≡ length b.now }
    requires a { AreOver to.old.vars a.now }
    requires b { AreOver to.old.vars b.now }
    ensures length { IfOk result (λ r. length r ≡ length a.now) }
    ensures within { IfOk result (λ r. AreOver to.new.vars r) }
    ensures gate { IfOk result (λ r. Builds to.old to.new (λ v.
        signed (length a.now) (bits_word v r) ≡ remainder (length a.now) (signed (length a.now) (bits_word v a.now)) (signed (length a.now) (bits_word v b.now)))) }
    ensures err { OnErr result (Continues to.old to.new) }
{
    let (dividend, negative) = absolute(alloc, to, a)?;
    let (divisor, _) = absolute(alloc, to, b)?;
    let (_, left) = div_bits(alloc, to, dividend.as_slice(), divisor.as_slice())?;
    let r = negate_if(alloc, to, left.as_slice(), negative)?;
    Ok(r)
}

// The cost, and the word more where the condition holds and the word is above 0; at most 2^64 - 1.
#[tactic(auto, using(sk_gates::proofs::ExtensionLaws::growing))]
pub fn charge(
    alloc: Global,
    to: &mut SharedGates,
    cost: &[Bit],
    when: Bit,
    amount: &[Bit],
) -> Result<List<Bit>, AllocError>
    requires cost_length { length cost.now ≡ 64 }
    requires some { 1 ≤ length amount.now }
    requires most { length amount.now ≤ 64 }
    requires cost { AreOver to.old.vars cost.now }
    requires when { reach when ≤ to.old.vars }
    requires amount { AreOver to.old.vars amount.now }
    ensures length { IfOk result (λ r. length r ≡ 64) }
    ensures within { IfOk result (λ r. AreOver to.new.vars r) }
    ensures gate { IfOk result (λ r. Builds to.old to.new (λ v.
        bits_word v r ≡ charge_of (bits_word v cost.now) (bit_true v when) (signed (length amount.now) (bits_word v amount.now)))) }
    ensures err { OnErr result (Continues to.old to.new) }
{
    let counts = to.and(when, sign(amount).negate())?;
    let more = and_each(alloc, to, amount, counts)?;
    let wide = padded(more, 64)?;
    let (sum, over) = add_carry(alloc, to, cost, wide.as_slice(), Bit::Constant(false))?;
    let most = constant(alloc, u64::MAX, 64)?;
    let r = mux_each(alloc, to, over, most.as_slice(), sum.as_slice())?;
    Ok(r)
}
