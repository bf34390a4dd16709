//! Gates by their operands.

ghost use Rattle.std.specs.Prelude.{◌≡◌, ℕ, ◌<◌, Bool, false, ◌&&◌};
ghost use Rattle.sk_clause.specs.Meaning.{lit_true};
ghost use Rattle.sk_gates.specs.Bits.{bit_true, reach, differ};

use crate::bit::Bit;
use sk_clause::Lit;

/// A literal, as a part of a key.
#[derive(Clone, Copy, PartialEq, Eq, Hash, Debug)]
pub struct Operand {
    pub var: usize,
    pub neg: bool,
}

/// A gate of which a table can have one.
#[derive(Clone, Copy, PartialEq, Eq, Hash, Debug)]
pub enum Gate {
    And(Operand, Operand),
    Xor(Operand, Operand),
    Mux(Operand, Operand, Operand),
}

// The literal as an operand.
pub(crate) fn operand_of(lit: Lit) -> Operand
    ensures { result ≡ record { var = lit.var; neg = lit.neg } }
{
    Operand {
        var: lit.var,
        neg: lit.neg,
    }
}

// The literal of the variable itself.
pub(crate) fn positive(lit: Lit) -> Lit
    ensures { result ≡ record { var = lit.var; neg = false } }
{
    Lit {
        var: lit.var,
        neg: false,
    }
}

// The two literals, that of the lower variable first, for gates that do not ask for an order.
pub(crate) fn ordered(a: Lit, b: Lit) -> (Lit, Lit)
    ensures within { (n : ℕ) → a.var < n → b.var < n → (result.0.var < n) × (result.1.var < n) }
    ensures and { (v : ℕ → Bool) → (lit_true v result.0 && lit_true v result.1) ≡ (lit_true v a && lit_true v b) }
    ensures xor { (v : ℕ → Bool) → differ (lit_true v result.0) (lit_true v result.1) ≡ differ (lit_true v a) (lit_true v b) }
{
    if a.var <= b.var { (a, b) } else { (b, a) }
}

// Whether one of the two is true, and not both.
pub(crate) fn differs(a: bool, b: bool) -> bool
    ensures { result ≡ differ a b }
{
    if a { !b } else { b }
}

// The bit, or its negation where `flip` is true.
pub(crate) fn flipped(bit: Bit, flip: bool) -> Bit
    ensures value { (v : ℕ → Bool) → bit_true v result ≡ differ flip (bit_true v bit) }
    ensures within { reach result ≡ reach bit }
{
    if flip { bit.negate() } else { bit }
}
