//! Clauses, with a table of the gates that were made of them.

use crate::bit::Bit;
use crate::bits::{and_bits, mux_bits, xor_bits};
use crate::key::{Gate, operand_of};
use indexmap::IndexMap;
use sk_clause::{Clauses, Lit};
use std::alloc::{AllocError, Global};
use std::marker::Model;

/// Gates, each with the bit that was made for it. Contracts see them as a list.
#[derive(Drop)]
pub struct Made {
    bits: IndexMap<Gate, Bit>,
}

impl Model for Made {
    ghost use Rattle.std.specs.Prelude.{List};
    ghost use Rattle.sk_gates.specs.declared.bit.Bit.{Bit as BitOf};
    ghost use Rattle.sk_gates.specs.declared.key.Gate.{Gate as GateOf};

    ghost Value = { List (GateOf × BitOf) };

    ghost view = { λ m. m.bits.entries };
}

impl Made {
    ghost use Rattle.std.specs.Prelude.{◌≡◌, []};

    /// No gates. It takes no memory.
    pub fn new(alloc: Global) -> Made
        ensures { result ≡ [] }
    {
        Made {
            bits: IndexMap::new(alloc),
        }
    }
}

/// Clauses that grow by gates, each of which is made once. Contracts see the clauses.
#[derive(Drop)]
pub struct SharedGates {
    clauses: Clauses,
    made: IndexMap<Gate, Bit>,
}

impl Model for SharedGates {
    ghost use Rattle.sk_clause.specs.Problem.{Problem};
    ghost use Rattle.sk_gates.specs.Sharing.{AreMade};

    ghost Value = { Problem };

    ghost view = { λ s. s.clauses };

    ghost invariant = { λ s. AreMade s.clauses s.made.entries };
}

#[tactic(auto, using(crate::proofs::SharingLaws::sharing))]
impl SharedGates {
    ghost use Rattle.std.specs.Prelude.{◌≡◌, ℕ, ◌+◌, ◌<◌, ◌≤◌, ◌++◌, [], ◌∷◌, Bool, ◌&&◌, ◌||◌, IfOk, IfSome, OnOk, OnErr};
    ghost use Rattle.sk_clause.specs.Meaning.{lit_true};
    ghost use Rattle.sk_clause.specs.Problem.{IsWithin};
    ghost use Rattle.sk_gates.specs.Bits.{bit_true, reach, differ, choose};
    ghost use Rattle.sk_gates.specs.Extension.{Adds, Continues};
    ghost use Rattle.sk_gates.specs.Sharing.{Stands, AreMade, Builds};

    /// The clauses, with no gates yet. It takes no memory.
    pub fn new(alloc: Global, clauses: Clauses) -> SharedGates
        ensures { result ≡ clauses }
    {
        SharedGates {
            clauses,
            made: IndexMap::new(alloc),
        }
    }

    /// The clauses.
    pub fn clauses(&self) -> &Clauses
        ensures { result.now ≡ self.now }
    {
        &self.clauses
    }

    /// The clauses, with the gates that were made of them.
    pub fn from_parts(clauses: Clauses, made: Made) -> SharedGates
        requires { AreMade clauses made }
        ensures { result ≡ clauses }
    {
        SharedGates {
            clauses,
            made: made.bits,
        }
    }

    /// The clauses, and the gates that were made of them.
    pub fn into_parts(self) -> (Clauses, Made)
        ensures clauses { result.0 ≡ self }
        ensures made { AreMade result.0 result.1 }
    {
        (self.clauses, Made { bits: self.made })
    }

    /// Makes a new variable, and gives its number, which is the number of variables before. For want of memory all stays
    /// as it was.
    pub fn fresh(&mut self) -> Result<usize, AllocError>
        ensures number { IfOk result (λ var. var ≡ self.old.vars) }
        ensures ok { OnOk result (self.new ≡ record self.old { vars = self.old.vars + 1 }) }
        ensures err { OnErr result (self.new ≡ self.old) }
    {
        let var = self.clauses.fresh()?;
        Ok(var)
    }

    /// Adds a clause over the variables that are there, at the end. For want of memory all stays as it was.
    pub fn push(&mut self, clause: &[Lit]) -> Result<(), AllocError>
        requires { IsWithin self.old.vars clause.now }
        ensures ok { OnOk result (self.new ≡ record self.old { clauses = self.old.clauses ++ clause.now ∷ [] }) }
        ensures err { OnErr result (self.new ≡ self.old) }
    {
        self.clauses.push(clause)?;
        Ok(())
    }

    // The bit that was made for a gate.
    fn known(&self, gate: Gate) -> Option<Bit>
        ensures { IfSome result (λ bit. Stands self.now gate bit) }
    {
        self.made.get(&gate).copied()
    }

    // Notes the bit that was made for a gate.
    fn note(&mut self, gate: Gate, bit: Bit) -> Result<(), AllocError>
        requires { Stands self.old gate bit }
        ensures { self.new ≡ self.old }
    {
        self.made.insert(gate, bit)?;
        Ok(())
    }

    // A new gate.
    pub(crate) fn make_and(&mut self, a: Bit, b: Bit) -> Result<Bit, AllocError>
        requires a { reach a ≤ self.old.vars }
        requires b { reach b ≤ self.old.vars }
        ensures within { IfOk result (λ r. reach r ≤ self.new.vars) }
        ensures gate { IfOk result (λ r. Adds self.old self.new (λ v. bit_true v r ≡ (bit_true v a && bit_true v b))) }
        ensures err { OnErr result (Continues self.old self.new) }
    {
        let r = and_bits(&mut self.clauses, a, b)?;
        Ok(r)
    }

    // A new gate.
    pub(crate) fn make_xor(&mut self, a: Bit, b: Bit) -> Result<Bit, AllocError>
        requires a { reach a ≤ self.old.vars }
        requires b { reach b ≤ self.old.vars }
        ensures within { IfOk result (λ r. reach r ≤ self.new.vars) }
        ensures gate { IfOk result (λ r. Adds self.old self.new (λ v. bit_true v r ≡ differ (bit_true v a) (bit_true v b))) }
        ensures err { OnErr result (Continues self.old self.new) }
    {
        let r = xor_bits(&mut self.clauses, a, b)?;
        Ok(r)
    }

    // A new gate.
    pub(crate) fn make_mux(&mut self, c: Bit, a: Bit, b: Bit) -> Result<Bit, AllocError>
        requires c { reach c ≤ self.old.vars }
        requires a { reach a ≤ self.old.vars }
        requires b { reach b ≤ self.old.vars }
        ensures within { IfOk result (λ r. reach r ≤ self.new.vars) }
        ensures gate { IfOk result (λ r. Adds self.old self.new (λ v. bit_true v r ≡ choose (bit_true v c) (bit_true v a) (bit_true v b))) }
        ensures err { OnErr result (Continues self.old self.new) }
    {
        let r = mux_bits(&mut self.clauses, c, a, b)?;
        Ok(r)
    }

    // `and` of two literals, in this order.
    pub(crate) fn and_lits(&mut self, a: Lit, b: Lit) -> Result<Bit, AllocError>
        requires a { a.var < self.old.vars }
        requires b { b.var < self.old.vars }
        ensures within { IfOk result (λ r. reach r ≤ self.new.vars) }
        ensures gate { IfOk result (λ r. Builds self.old self.new (λ v. bit_true v r ≡ (lit_true v a && lit_true v b))) }
        ensures err { OnErr result (Continues self.old self.new) }
    {
        let gate = Gate::And(operand_of(a), operand_of(b));
        match self.known(gate) {
            Some(bit) => Ok(bit),
            None => {
                let bit = self.make_and(Bit::Literal(a), Bit::Literal(b))?;
                self.note(gate, bit)?;
                Ok(bit)
            }
        }
    }

    // `xor` of two literals, in this order.
    pub(crate) fn xor_lits(&mut self, a: Lit, b: Lit) -> Result<Bit, AllocError>
        requires a { a.var < self.old.vars }
        requires b { b.var < self.old.vars }
        ensures within { IfOk result (λ r. reach r ≤ self.new.vars) }
        ensures gate { IfOk result (λ r. Builds self.old self.new (λ v. bit_true v r ≡ differ (lit_true v a) (lit_true v b))) }
        ensures err { OnErr result (Continues self.old self.new) }
    {
        let gate = Gate::Xor(operand_of(a), operand_of(b));
        match self.known(gate) {
            Some(bit) => Ok(bit),
            None => {
                let bit = self.make_xor(Bit::Literal(a), Bit::Literal(b))?;
                self.note(gate, bit)?;
                Ok(bit)
            }
        }
    }

    // `mux` of three literals, as they are.
    pub(crate) fn mux_lits(&mut self, c: Lit, a: Lit, b: Lit) -> Result<Bit, AllocError>
        requires c { c.var < self.old.vars }
        requires a { a.var < self.old.vars }
        requires b { b.var < self.old.vars }
        ensures within { IfOk result (λ r. reach r ≤ self.new.vars) }
        ensures gate { IfOk result (λ r. Builds self.old self.new (λ v. bit_true v r ≡ choose (lit_true v c) (lit_true v a) (lit_true v b))) }
        ensures err { OnErr result (Continues self.old self.new) }
    {
        let gate = Gate::Mux(operand_of(c), operand_of(a), operand_of(b));
        match self.known(gate) {
            Some(bit) => Ok(bit),
            None => {
                let bit = self.make_mux(Bit::Literal(c), Bit::Literal(a), Bit::Literal(b))?;
                self.note(gate, bit)?;
                Ok(bit)
            }
        }
    }
}
