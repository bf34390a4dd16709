ghost use Rattle.std.specs.Prelude.{◌≡◌, ℕ, ◌≤◌, ◌<◌, Bool, ◌&&◌, ◌||◌, IfOk, OnErr};
ghost use Rattle.sk_clause.specs.Meaning.{lit_true};
ghost use Rattle.sk_gates.specs.Bits.{bit_true, reach, differ, choose};
ghost use Rattle.sk_gates.specs.Extension.{Adds, Continues};

use crate::bit::Bit;
use crate::fold::{Folded, fold_and, fold_xor};
use crate::gate::{and_gate, mux_gate, xor_gate};
use sk_clause::{Clauses, Lit};
use std::alloc::AllocError;

/// Both of two bits. Constants and equal or opposite literals make no variable.
#[tactic(auto, using(crate::proofs::ExtensionLaws::continuing))]
pub fn and_bits(to: &mut Clauses, a: Bit, b: Bit) -> Result<Bit, AllocError>
    requires a { reach a ≤ to.old.vars }
    requires b { reach b ≤ to.old.vars }
    ensures within { IfOk result (λ r. reach r ≤ to.new.vars) }
    ensures gate { IfOk result (λ r. Adds to.old to.new (λ v. bit_true v r ≡ (bit_true v a && bit_true v b))) }
    ensures err { OnErr result (Continues to.old to.new) }
{
    match fold_and(a, b) {
        Folded::Done(bit) => Ok(bit),
        Folded::Gate(x, y) => {
            let r = and_gate(to, x, y)?;
            Ok(Bit::Literal(r))
        }
    }
}

/// One of two bits, or both. Constants and equal or opposite literals make no variable.
#[tactic(auto, using(crate::proofs::ExtensionLaws::continuing))]
pub fn or_bits(to: &mut Clauses, a: Bit, b: Bit) -> Result<Bit, AllocError>
    requires a { reach a ≤ to.old.vars }
    requires b { reach b ≤ to.old.vars }
    ensures within { IfOk result (λ r. reach r ≤ to.new.vars) }
    ensures gate { IfOk result (λ r. Adds to.old to.new (λ v. bit_true v r ≡ (bit_true v a || bit_true v b))) }
    ensures err { OnErr result (Continues to.old to.new) }
{
    let neither = and_bits(to, a.negate(), b.negate())?;
    Ok(neither.negate())
}

/// One of two bits, and not both. Constants and equal or opposite literals make no variable.
#[tactic(auto, using(crate::proofs::ExtensionLaws::continuing))]
pub fn xor_bits(to: &mut Clauses, a: Bit, b: Bit) -> Result<Bit, AllocError>
    requires a { reach a ≤ to.old.vars }
    requires b { reach b ≤ to.old.vars }
    ensures within { IfOk result (λ r. reach r ≤ to.new.vars) }
    ensures gate { IfOk result (λ r. Adds to.old to.new (λ v. bit_true v r ≡ differ (bit_true v a) (bit_true v b))) }
    ensures err { OnErr result (Continues to.old to.new) }
{
    match fold_xor(a, b) {
        Folded::Done(bit) => Ok(bit),
        Folded::Gate(x, y) => {
            let r = xor_gate(to, x, y)?;
            Ok(Bit::Literal(r))
        }
    }
}

// `mux_bits` of three literals.
#[tactic(auto, using(crate::proofs::ExtensionLaws::continuing))]
fn mux_lits(to: &mut Clauses, c: Lit, a: Lit, b: Lit) -> Result<Bit, AllocError>
    requires c { c.var < to.old.vars }
    requires a { a.var < to.old.vars }
    requires b { b.var < to.old.vars }
    ensures within { IfOk result (λ r. reach r ≤ to.new.vars) }
    ensures gate { IfOk result (λ r. Adds to.old to.new (λ v. bit_true v r ≡ choose (lit_true v c) (lit_true v a) (lit_true v b))) }
    ensures err { OnErr result (Continues to.old to.new) }
{
    if a.is(b) {
        return Ok(Bit::Literal(a));
    }
    if a.is(b.negate()) {
        let r = xor_bits(to, Bit::Literal(c), Bit::Literal(b))?;
        return Ok(r);
    }
    let r = mux_gate(to, c, a, b)?;
    Ok(Bit::Literal(r))
}

// `mux_bits` where the condition is a literal, which neither of the others speaks of.
#[tactic(auto, using(crate::proofs::ExtensionLaws::continuing))]
fn mux_by(to: &mut Clauses, c: Lit, a: Bit, b: Bit) -> Result<Bit, AllocError>
    requires c { c.var < to.old.vars }
    requires a { reach a ≤ to.old.vars }
    requires b { reach b ≤ to.old.vars }
    ensures within { IfOk result (λ r. reach r ≤ to.new.vars) }
    ensures gate { IfOk result (λ r. Adds to.old to.new (λ v. bit_true v r ≡ choose (lit_true v c) (bit_true v a) (bit_true v b))) }
    ensures err { OnErr result (Continues to.old to.new) }
{
    let yes = Bit::Literal(c);
    let r = match (a, b) {
        (Bit::Constant(true), _) => or_bits(to, yes, b)?,
        (Bit::Constant(false), _) => and_bits(to, yes.negate(), b)?,
        (Bit::Literal(_), Bit::Constant(true)) => or_bits(to, yes.negate(), a)?,
        (Bit::Literal(_), Bit::Constant(false)) => and_bits(to, yes, a)?,
        (Bit::Literal(x), Bit::Literal(y)) => mux_lits(to, c, x, y)?,
    };
    Ok(r)
}

/// The second bit where the first is true, else the third. Constants and equal or opposite literals make no variable,
/// or the variable of a smaller gate.
#[tactic(auto, using(crate::proofs::ExtensionLaws::continuing))]
pub fn mux_bits(to: &mut Clauses, c: Bit, a: Bit, b: Bit) -> Result<Bit, AllocError>
    requires c { reach c ≤ to.old.vars }
    requires a { reach a ≤ to.old.vars }
    requires b { reach b ≤ to.old.vars }
    ensures within { IfOk result (λ r. reach r ≤ to.new.vars) }
    ensures gate { IfOk result (λ r. Adds to.old to.new (λ v. bit_true v r ≡ choose (bit_true v c) (bit_true v a) (bit_true v b))) }
    ensures err { OnErr result (Continues to.old to.new) }
{
    match c {
        Bit::Constant(known) => Ok(if known { a } else { b }),
        Bit::Literal(lit) => {
            let r = mux_by(to, lit, a.given(lit, true), b.given(lit, false))?;
            Ok(r)
        }
    }
}
