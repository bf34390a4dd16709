ghost use Rattle.std.specs.Prelude.{◌≡◌, ℕ, ◌≤◌, Bool, not};
ghost use Rattle.sk_clause.specs.Meaning.{lit_true};
ghost use Rattle.sk_gates.specs.Bits.{bit_true, reach};

use sk_clause::Lit;

/// A truth value that is known, or a literal.
#[derive(Clone, Copy, PartialEq, Eq, Debug, Drop)]
pub enum Bit {
    /// True or false under every assignment, with no variable.
    Constant(bool),
    /// A variable, or its negation.
    Literal(Lit),
}

impl Bit {
    /// The bit that is true where this one is false.
    pub fn negate(self) -> Bit
        ensures value { (v : ℕ → Bool) → bit_true v result ≡ not (bit_true v self) }
        ensures within { reach result ≡ reach self }
    {
        match self {
            Bit::Constant(known) => Bit::Constant(!known),
            Bit::Literal(lit) => Bit::Literal(lit.negate()),
        }
    }

    /// What the bit is where the literal is known to have this value.
    pub fn given(self, lit: Lit, value: bool) -> Bit
        ensures value { (v : ℕ → Bool) → lit_true v lit ≡ value → bit_true v result ≡ bit_true v self }
        ensures within { reach result ≤ reach self }
    {
        match self {
            Bit::Constant(known) => Bit::Constant(known),
            Bit::Literal(own) => {
                if own.is(lit) {
                    Bit::Constant(value)
                } else if own.is(lit.negate()) {
                    Bit::Constant(!value)
                } else {
                    Bit::Literal(own)
                }
            }
        }
    }
}
