ghost use Rattle.std.specs.Prelude.{◌≡◌, ℕ, ◌+◌, ◌*◌, ◌%◌, ◌^◌, ◌<◌, ◌≤◌, Bool, ◌&&◌, length, IfOk, OnErr};
ghost use Rattle.sk_clause.specs.Meaning.{lit_true};
ghost use Rattle.sk_clause.specs.Problem.{IsWithin};
ghost use Rattle.sk_gates.specs.Bits.{differ, choose};
ghost use Rattle.sk_gates.specs.Extension.{Adds, Continues};
ghost use Rattle.sk_gates.specs.Words.{digit, word, is_less, quotient_of, remainder_of};

use crate::bit::Bit;
use crate::bits::{and_bits, mux_bits, xor_bits};
use crate::convert::{apart, append, as_bits, as_literals, literal};
use crate::product::mul_bits;
use crate::quotient::div_bits;
use crate::words::{add_bits, less_bits};
use sk_base::List;
use sk_clause::{Clauses, Lit};
use std::alloc::{AllocError, Global};

/// A literal that is true where both are.
///
/// Each assignment of the old variables has exactly one extension that meets the added clauses. For want of memory
/// variables and clauses may have been added behind the old ones; the same holds of every gate.
#[tactic(auto, using(crate::proofs::ExtensionLaws::growing))]
pub fn and(to: &mut Clauses, a: Lit, b: Lit) -> Result<Lit, AllocError>
    requires a { a.var < to.old.vars }
    requires b { b.var < to.old.vars }
    ensures within { IfOk result (λ r. r.var < to.new.vars) }
    ensures gate { IfOk result (λ r. Adds to.old to.new (λ v. lit_true v r ≡ (lit_true v a && lit_true v b))) }
    ensures err { OnErr result (Continues to.old to.new) }
{
    let bit = and_bits(to, Bit::Literal(a), Bit::Literal(b))?;
    let r = literal(to, bit)?;
    Ok(r)
}

/// A literal that is true where one of the two is, and not both.
#[tactic(auto, using(crate::proofs::ExtensionLaws::growing))]
pub fn xor(to: &mut Clauses, a: Lit, b: Lit) -> Result<Lit, AllocError>
    requires a { a.var < to.old.vars }
    requires b { b.var < to.old.vars }
    ensures within { IfOk result (λ r. r.var < to.new.vars) }
    ensures gate { IfOk result (λ r. Adds to.old to.new (λ v. lit_true v r ≡ differ (lit_true v a) (lit_true v b))) }
    ensures err { OnErr result (Continues to.old to.new) }
{
    let bit = xor_bits(to, Bit::Literal(a), Bit::Literal(b))?;
    let r = literal(to, bit)?;
    Ok(r)
}

/// A literal that is true where a is, if c is true, and where b is, if c is false.
#[tactic(auto, using(crate::proofs::ExtensionLaws::growing))]
pub fn mux(to: &mut Clauses, c: Lit, a: Lit, b: Lit) -> Result<Lit, AllocError>
    requires c { c.var < to.old.vars }
    requires a { a.var < to.old.vars }
    requires b { b.var < to.old.vars }
    ensures within { IfOk result (λ r. r.var < to.new.vars) }
    ensures gate { IfOk result (λ r. Adds to.old to.new (λ v. lit_true v r ≡ choose (lit_true v c) (lit_true v a) (lit_true v b))) }
    ensures err { OnErr result (Continues to.old to.new) }
{
    let bit = mux_bits(to, Bit::Literal(c), Bit::Literal(a), Bit::Literal(b))?;
    let r = literal(to, bit)?;
    Ok(r)
}

/// The sum of two numbers and a carry, in as many bits as they have: what is above is dropped. The least bit is first.
#[tactic(auto, using(crate::proofs::ExtensionLaws::growing))]
pub fn adder(
    alloc: Global,
    to: &mut Clauses,
    a: &[Lit],
    b: &[Lit],
    carry: Lit,
) -> Result<List<Lit>, AllocError>
    requires some { 1 ≤ length a.now }
    requires most { length a.now ≤ 64 }
    requires lengths { length a.now ≡ length b.now }
    requires a { IsWithin to.old.vars a.now }
    requires b { IsWithin to.old.vars b.now }
    requires carry { carry.var < to.old.vars }
    ensures length { IfOk result (λ r. length r ≡ length a.now) }
    ensures within { IfOk result (λ r. IsWithin to.new.vars r) }
    ensures gate { IfOk result (λ r. Adds to.old to.new (λ v.
        word v r ≡ (word v a.now + word v b.now + digit (lit_true v carry)) % 2 ^ length a.now)) }
    ensures err { OnErr result (Continues to.old to.new) }
{
    let x = as_bits(alloc, a)?;
    let y = as_bits(alloc, b)?;
    let mut gates = apart(alloc, to.vars())?;
    let sum = add_bits(
        alloc,
        &mut gates,
        x.as_slice(),
        y.as_slice(),
        Bit::Literal(carry),
    )?;
    append(to, gates.clauses())?;
    let r = as_literals(alloc, to, sum.as_slice())?;
    Ok(r)
}

/// A literal that is true where the first number is below the second: in two's complement where `signed`, else as numbers
/// from 0. The least bit is first.
#[tactic(auto, using(crate::proofs::ExtensionLaws::growing))]
pub fn less(
    alloc: Global,
    to: &mut Clauses,
    a: &[Lit],
    b: &[Lit],
    signed: bool,
) -> Result<Lit, AllocError>
    requires some { 1 ≤ length a.now }
    requires most { length a.now ≤ 64 }
    requires lengths { length a.now ≡ length b.now }
    requires a { IsWithin to.old.vars a.now }
    requires b { IsWithin to.old.vars b.now }
    ensures within { IfOk result (λ r. r.var < to.new.vars) }
    ensures gate { IfOk result (λ r. Adds to.old to.new (λ v. lit_true v r ≡ is_less signed (length a.now) (word v a.now) (word v b.now))) }
    ensures err { OnErr result (Continues to.old to.new) }
{
    let x = as_bits(alloc, a)?;
    let y = as_bits(alloc, b)?;
    let mut gates = apart(alloc, to.vars())?;
    let below = less_bits(&mut gates, x.as_slice(), y.as_slice(), signed)?;
    append(to, gates.clauses())?;
    let r = literal(to, below)?;
    Ok(r)
}

/// The product of two numbers, in as many bits as they have: what is above is dropped. The least bit is first.
#[tactic(auto, using(crate::proofs::ExtensionLaws::growing))]
pub fn multiplier(
    alloc: Global,
    to: &mut Clauses,
    a: &[Lit],
    b: &[Lit],
) -> Result<List<Lit>, AllocError>
    requires some { 1 ≤ length a.now }
    requires most { length a.now ≤ 64 }
    requires lengths { length a.now ≡ length b.now }
    requires a { IsWithin to.old.vars a.now }
    requires b { IsWithin to.old.vars b.now }
    ensures length { IfOk result (λ r. length r ≡ length a.now) }
    ensures within { IfOk result (λ r. IsWithin to.new.vars r) }
    ensures gate { IfOk result (λ r. Adds to.old to.new (λ v. word v r ≡ (word v a.now * word v b.now) % 2 ^ length a.now)) }
    ensures err { OnErr result (Continues to.old to.new) }
{
    let x = as_bits(alloc, a)?;
    let y = as_bits(alloc, b)?;
    let mut gates = apart(alloc, to.vars())?;
    let product = mul_bits(alloc, &mut gates, x.as_slice(), y.as_slice())?;
    append(to, gates.clauses())?;
    let r = as_literals(alloc, to, product.as_slice())?;
    Ok(r)
}

/// The quotient and the remainder of two numbers from 0, in as many bits as they have, and both 0 where the divisor is 0.
/// The least bit is first.
#[tactic(auto, using(crate::proofs::ExtensionLaws::growing))]
pub fn divider(
    alloc: Global,
    to: &mut Clauses,
    a: &[Lit],
    b: &[Lit],
) -> Result<(List<Lit>, List<Lit>), AllocError>
    requires some { 1 ≤ length a.now }
    requires most { length a.now ≤ 64 }
    requires lengths { length a.now ≡ length b.now }
    requires a { IsWithin to.old.vars a.now }
    requires b { IsWithin to.old.vars b.now }
    ensures quotient_length { IfOk result (λ r. length r.0 ≡ length a.now) }
    ensures remainder_length { IfOk result (λ r. length r.1 ≡ length a.now) }
    ensures quotient_within { IfOk result (λ r. IsWithin to.new.vars r.0) }
    ensures remainder_within { IfOk result (λ r. IsWithin to.new.vars r.1) }
    ensures gate { IfOk result (λ r. Adds to.old to.new (λ v.
        (word v r.0 ≡ quotient_of (word v a.now) (word v b.now)) × (word v r.1 ≡ remainder_of (word v a.now) (word v b.now)))) }
    ensures err { OnErr result (Continues to.old to.new) }
{
    let x = as_bits(alloc, a)?;
    let y = as_bits(alloc, b)?;
    let mut gates = apart(alloc, to.vars())?;
    let (quotient, remainder) = div_bits(alloc, &mut gates, x.as_slice(), y.as_slice())?;
    append(to, gates.clauses())?;
    let q = as_literals(alloc, to, quotient.as_slice())?;
    let r = as_literals(alloc, to, remainder.as_slice())?;
    Ok((q, r))
}
