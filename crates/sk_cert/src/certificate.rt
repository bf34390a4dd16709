use sk_base::{List, Name};
use sk_clause::Log;
use sk_cnf::Encoded;
use sk_model::Choice;

/// A formula, and clauses that follow one after another from it, of which the last is empty.
#[derive(Debug)]
pub struct Proof {
    /// The formula, and the variables of the bits that it speaks of.
    pub formula: Encoded,
    /// The clauses, in the order in which they follow.
    pub log: Log,
}

impl Drop for Proof {
    fn drop(self) {
        let Proof { formula: _, log: _ } = self;
    }
}

/// An input of an obligation.
#[derive(Debug, Drop)]
pub struct CertInput {
    /// The number of the obligation, from 0.
    pub obligation: u64,
    /// The scalars of each argument.
    pub args: List<List<i64>>,
}

/// A completion with its value, or that there is none, and what shows that this is right.
#[derive(Debug)]
pub struct Certificate {
    /// The version of its form: 1 or 2.
    pub version: u32,
    /// The filled program; `synth` leaves it empty where there is no choice.
    pub text: Name,
    /// The values of the places that were left open, or none where no completion is right.
    pub choice: Option<Choice>,
    /// The value of the choice, and 0 where there is none.
    pub value: u64,
    /// The inputs that no better choice passes.
    pub inputs: List<CertInput>,
    /// That the choice meets the obligations within the value: in version 1 one proof of all obligations, in version 2
    /// one of each, in their order.
    pub upper: List<Proof>,
    /// That no choice passes the inputs within less than the value, or at all where there is none.
    pub lower: Option<Proof>,
}

impl Drop for Certificate {
    fn drop(self) {
        let Certificate {
            version: _,
            text: _,
            choice: _,
            value: _,
            inputs: _,
            upper: _,
            lower: _,
        } = self;
    }
}
