//! The gates that are shared.

ghost use Rattle.std.specs.Prelude.{◌≡◌, ℕ, ◌+◌, ◌*◌, ◌<◌, ◌≤◌, Bool, ◌&&◌, ◌||◌, IfOk, OnErr};
ghost use Rattle.sk_clause.specs.Meaning.{lit_true};
ghost use Rattle.sk_gates.specs.Bits.{bit_true, reach, differ, choose};
ghost use Rattle.sk_gates.specs.Words.{digit};
ghost use Rattle.sk_gates.specs.Extension.{Continues};
ghost use Rattle.sk_gates.specs.Sharing.{Builds};

use crate::bit::Bit;
use crate::key::{differs, flipped, ordered, positive};
use crate::shared::SharedGates;
use sk_clause::Lit;
use std::alloc::AllocError;

#[tactic(auto, using(crate::proofs::SharingLaws::sharing))]
impl SharedGates {
    /// Both of two bits. Constants and equal or opposite literals make no variable, and a gate that was made before, its
    /// operands in whichever order, makes none again. So it is with all gates.
    ///
    /// Each assignment of the old variables has exactly one extension that meets the added clauses. For want of memory
    /// variables and clauses may have been added behind the old ones.
    pub fn and(&mut self, a: Bit, b: Bit) -> Result<Bit, AllocError>
        requires a { reach a ≤ self.old.vars }
        requires b { reach b ≤ self.old.vars }
        ensures within { IfOk result (λ r. reach r ≤ self.new.vars) }
        ensures gate { IfOk result (λ r. Builds self.old self.new (λ v. bit_true v r ≡ (bit_true v a && bit_true v b))) }
        ensures err { OnErr result (Continues self.old self.new) }
    {
        match (a, b) {
            (Bit::Literal(x), Bit::Literal(y)) => {
                let (p, q) = ordered(x, y);
                let r = self.and_lits(p, q)?;
                Ok(r)
            }
            _ => {
                let r = self.make_and(a, b)?;
                Ok(r)
            }
        }
    }

    /// One of two bits, or both.
    pub fn or(&mut self, a: Bit, b: Bit) -> Result<Bit, AllocError>
        requires a { reach a ≤ self.old.vars }
        requires b { reach b ≤ self.old.vars }
        ensures within { IfOk result (λ r. reach r ≤ self.new.vars) }
        ensures gate { IfOk result (λ r. Builds self.old self.new (λ v. bit_true v r ≡ (bit_true v a || bit_true v b))) }
        ensures err { OnErr result (Continues self.old self.new) }
    {
        let neither = self.and(a.negate(), b.negate())?;
        Ok(neither.negate())
    }

    // `xor` of two literals: a gate of their variables, whose bit is negated where one of them is.
    fn xor_vars(&mut self, x: Lit, y: Lit) -> Result<Bit, AllocError>
        requires x { x.var < self.old.vars }
        requires y { y.var < self.old.vars }
        ensures within { IfOk result (λ r. reach r ≤ self.new.vars) }
        ensures gate { IfOk result (λ r. Builds self.old self.new (λ v. bit_true v r ≡ differ (lit_true v x) (lit_true v y))) }
        ensures err { OnErr result (Continues self.old self.new) }
    {
        let (p, q) = ordered(positive(x), positive(y));
        let r = self.xor_lits(p, q)?;
        Ok(flipped(r, differs(x.neg, y.neg)))
    }

    /// One of two bits, and not both.
    pub fn xor(&mut self, a: Bit, b: Bit) -> Result<Bit, AllocError>
        requires a { reach a ≤ self.old.vars }
        requires b { reach b ≤ self.old.vars }
        ensures within { IfOk result (λ r. reach r ≤ self.new.vars) }
        ensures gate { IfOk result (λ r. Builds self.old self.new (λ v. bit_true v r ≡ differ (bit_true v a) (bit_true v b))) }
        ensures err { OnErr result (Continues self.old self.new) }
    {
        match (a, b) {
            (Bit::Literal(x), Bit::Literal(y)) => {
                let r = self.xor_vars(x, y)?;
                Ok(r)
            }
            _ => {
                let r = self.make_xor(a, b)?;
                Ok(r)
            }
        }
    }

    // `mux` of three literals, of which the last two are not equal and not opposite.
    fn mux_apart(&mut self, c: Lit, a: Lit, b: Lit) -> Result<Bit, AllocError>
        requires c { c.var < self.old.vars }
        requires a { a.var < self.old.vars }
        requires b { b.var < self.old.vars }
        ensures within { IfOk result (λ r. reach r ≤ self.new.vars) }
        ensures gate { IfOk result (λ r. Builds self.old self.new (λ v. bit_true v r ≡ choose (lit_true v c) (lit_true v a) (lit_true v b))) }
        ensures err { OnErr result (Continues self.old self.new) }
    {
        if c.neg {
            let r = self.mux_lits(c.negate(), b, a)?;
            return Ok(r);
        }
        let r = self.mux_lits(c, a, b)?;
        Ok(r)
    }

    // `mux` of three literals.
    fn mux_vars(&mut self, c: Lit, a: Lit, b: Lit) -> Result<Bit, AllocError>
        requires c { c.var < self.old.vars }
        requires a { a.var < self.old.vars }
        requires b { b.var < self.old.vars }
        ensures within { IfOk result (λ r. reach r ≤ self.new.vars) }
        ensures gate { IfOk result (λ r. Builds self.old self.new (λ v. bit_true v r ≡ choose (lit_true v c) (lit_true v a) (lit_true v b))) }
        ensures err { OnErr result (Continues self.old self.new) }
    {
        if a.is(b) {
            return Ok(Bit::Literal(a));
        }
        if a.is(b.negate()) {
            let r = self.xor(Bit::Literal(c), Bit::Literal(b))?;
            return Ok(r);
        }
        let r = self.mux_apart(c, a, b)?;
        Ok(r)
    }

    // `mux` where the condition is a literal, which neither of the others speaks of.
    fn mux_by(&mut self, c: Lit, a: Bit, b: Bit) -> Result<Bit, AllocError>
        requires c { c.var < self.old.vars }
        requires a { reach a ≤ self.old.vars }
        requires b { reach b ≤ self.old.vars }
        ensures within { IfOk result (λ r. reach r ≤ self.new.vars) }
        ensures gate { IfOk result (λ r. Builds self.old self.new (λ v. bit_true v r ≡ choose (lit_true v c) (bit_true v a) (bit_true v b))) }
        ensures err { OnErr result (Continues self.old self.new) }
    {
        let yes = Bit::Literal(c);
        let r = match (a, b) {
            (Bit::Constant(true), _) => self.or(yes, b)?,
            (Bit::Constant(false), _) => self.and(yes.negate(), b)?,
            (Bit::Literal(_), Bit::Constant(true)) => self.or(yes.negate(), a)?,
            (Bit::Literal(_), Bit::Constant(false)) => self.and(yes, a)?,
            (Bit::Literal(x), Bit::Literal(y)) => self.mux_vars(c, x, y)?,
        };
        Ok(r)
    }

    /// The second bit where the first is true, else the third.
    pub fn mux(&mut self, c: Bit, a: Bit, b: Bit) -> Result<Bit, AllocError>
        requires c { reach c ≤ self.old.vars }
        requires a { reach a ≤ self.old.vars }
        requires b { reach b ≤ self.old.vars }
        ensures within { IfOk result (λ r. reach r ≤ self.new.vars) }
        ensures gate { IfOk result (λ r. Builds self.old self.new (λ v. bit_true v r ≡ choose (bit_true v c) (bit_true v a) (bit_true v b))) }
        ensures err { OnErr result (Continues self.old self.new) }
    {
        match c {
            Bit::Constant(known) => Ok(if known { a } else { b }),
            Bit::Literal(lit) => {
                let r = self.mux_by(lit, a.given(lit, true), b.given(lit, false))?;
                Ok(r)
            }
        }
    }

    /// The lower digit of the sum of three bits: whether one or all three are true.
    pub fn sum(&mut self, a: Bit, b: Bit, c: Bit) -> Result<Bit, AllocError>
        requires a { reach a ≤ self.old.vars }
        requires b { reach b ≤ self.old.vars }
        requires c { reach c ≤ self.old.vars }
        ensures within { IfOk result (λ r. reach r ≤ self.new.vars) }
        ensures gate { IfOk result (λ r. Builds self.old self.new (λ v. bit_true v r ≡ differ (differ (bit_true v a) (bit_true v b)) (bit_true v c))) }
        ensures err { OnErr result (Continues self.old self.new) }
    {
        let either = self.xor(a, b)?;
        let r = self.xor(either, c)?;
        Ok(r)
    }

    /// The sum of three bits: its digit, and the carry.
    pub fn full_adder(&mut self, a: Bit, b: Bit, c: Bit) -> Result<(Bit, Bit), AllocError>
        requires a { reach a ≤ self.old.vars }
        requires b { reach b ≤ self.old.vars }
        requires c { reach c ≤ self.old.vars }
        ensures sum_within { IfOk result (λ r. reach r.0 ≤ self.new.vars) }
        ensures carry_within { IfOk result (λ r. reach r.1 ≤ self.new.vars) }
        ensures gate { IfOk result (λ r. Builds self.old self.new (λ v.
            digit (bit_true v r.0) + 2 * digit (bit_true v r.1) ≡ digit (bit_true v a) + digit (bit_true v b) + digit (bit_true v c))) }
        ensures err { OnErr result (Continues self.old self.new) }
    {
        let either = self.xor(a, b)?;
        let sum = self.xor(either, c)?;
        let carry = self.mux(either, c, a)?;
        Ok((sum, carry))
    }
}
