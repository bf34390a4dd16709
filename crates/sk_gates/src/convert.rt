ghost use Rattle.std.specs.Prelude.{◌≡◌, ℕ, ◌+◌, ◌<◌, ◌≤◌, ◌++◌, [], Bool, length, map, IfOk, OnOk, OnErr};
ghost use Rattle.sk_clause.specs.Meaning.{lit_true};
ghost use Rattle.sk_clause.specs.Problem.{IsWithin};
ghost use Rattle.sk_gates.specs.Bits.{bit_true, reach, AreOver};
ghost use Rattle.sk_gates.specs.Extension.{Adds, Continues};
ghost use Rattle.sk_gates.specs.Words.{word, bits_word};
ghost use Rattle.sk_gates.specs.declared.bit.Bit.TheVariants.{Literal};

use crate::bit::Bit;
use crate::gate::known_gate;
use crate::shared::SharedGates;
use crate::words::bit_at;
use sk_base::List;
use sk_clause::{Clauses, Lit};
use std::alloc::{AllocError, Global};

/// A literal that is true where the bit is: its own, or that of a new variable for a constant.
#[tactic(auto, using(crate::proofs::ExtensionLaws::growing))]
pub fn literal(to: &mut Clauses, bit: Bit) -> Result<Lit, AllocError>
    requires { reach bit ≤ to.old.vars }
    ensures within { IfOk result (λ r. r.var < to.new.vars) }
    ensures gate { IfOk result (λ r. Adds to.old to.new (λ v. lit_true v r ≡ bit_true v bit)) }
    ensures err { OnErr result (Continues to.old to.new) }
{
    match bit {
        Bit::Constant(known) => {
            let r = known_gate(to, known)?;
            Ok(r)
        }
        Bit::Literal(lit) => Ok(lit),
    }
}

// The literals as bits.
pub fn as_bits(alloc: Global, lits: &[Lit]) -> Result<List<Bit>, AllocError>
    ensures length { IfOk result (λ r. length r ≡ length lits.now) }
    ensures within { IfOk result (λ r. (n : ℕ) → IsWithin n lits.now → AreOver n r) }
    ensures value { IfOk result (λ r. (v : ℕ → Bool) → bits_word v r ≡ word v lits.now) }
{
    let mut bits = List::new(alloc);
    for i in 0..lits.len() {
        bits.push(Bit::Literal(lits[i]))?;
    }
    Ok(bits)
}

// The bits as literals, of new variables where they are constants.
#[tactic(auto, using(crate::proofs::ExtensionLaws::growing))]
pub fn as_literals(alloc: Global, to: &mut Clauses, bits: &[Bit]) -> Result<List<Lit>, AllocError>
    requires { AreOver to.old.vars bits.now }
    ensures length { IfOk result (λ r. length r ≡ length bits.now) }
    ensures within { IfOk result (λ r. IsWithin to.new.vars r) }
    ensures gate { IfOk result (λ r. Adds to.old to.new (λ v. word v r ≡ bits_word v bits.now)) }
    ensures err { OnErr result (Continues to.old to.new) }
{
    let mut lits = List::new(alloc);
    for i in 0..bits.len() {
        let bit = bit_at(bits, i);
        let lit = literal(to, bit)?;
        lits.push(lit)?;
    }
    Ok(lits)
}

// So many variables, and no clauses: gates are made there to be put behind other clauses.
pub fn apart(alloc: Global, vars: usize) -> Result<SharedGates, AllocError>
    ensures { IfOk result (λ r. r ≡ record { vars = vars; clauses = [] }) }
{
    let mut clauses = Clauses::new(alloc);
    for _ in 0..vars {
        clauses.fresh()?;
    }
    Ok(SharedGates::new(alloc, clauses))
}

// Makes variables up to this number.
fn lengthen(to: &mut Clauses, vars: usize) -> Result<(), AllocError>
    requires { to.old.vars ≤ vars }
    ensures ok { OnOk result (to.new ≡ record to.old { vars = vars }) }
    ensures err { OnErr result (Continues to.old to.new) }
{
    for _ in to.vars()..vars {
        to.fresh()?;
    }
    Ok(())
}

// Puts clauses behind others. They were made over the same variables, where there were none.
#[tactic(auto, using(crate::proofs::ExtensionLaws::growing))]
pub fn append(to: &mut Clauses, more: &Clauses) -> Result<(), AllocError>
    requires { Continues (record { vars = to.old.vars; clauses = [] }) more.now }
    ensures vars { OnOk result (to.new.vars ≡ more.now.vars) }
    ensures clauses { OnOk result (to.new.clauses ≡ to.old.clauses ++ more.now.clauses) }
    ensures err { OnErr result (Continues to.old to.new) }
{
    lengthen(to, more.vars())?;
    for i in 0..more.len() {
        to.push(more.get(i))?;
    }
    Ok(())
}
