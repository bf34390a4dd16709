ghost use Rattle.std.specs.Prelude.{◌≡◌, ◌↔◌, IsTrue, not};

/// A variable, or its negation.
#[derive(Clone, Copy, PartialEq, Eq, Debug, Drop)]
pub struct Lit {
    /// The number of the variable.
    pub var: usize,
    /// Whether this is the negation: it is true where the variable is false.
    pub neg: bool,
}

impl Lit {
    /// The literal that is true where this one is false.
    pub fn negate(self) -> Lit
        ensures { result ≡ record { var = self.var; neg = (not self.neg) } }
    {
        Lit {
            var: self.var,
            neg: !self.neg,
        }
    }

    /// Whether the two are one literal.
    pub fn is(self, other: Lit) -> bool
        ensures { IsTrue result ↔ (self ≡ other) }
    {
        self.var == other.var && self.neg == other.neg
    }
}
