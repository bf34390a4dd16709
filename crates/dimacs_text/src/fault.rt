// What may be wrong with a text.
ghost use Rattle.std.specs.Prelude.{◌≡◌};

use std::alloc::{AllocError, AllocFailed};
use thiserror::Error;

/// Why a text is none of the format.
#[derive(Clone, Copy, Debug, PartialEq, Eq, Drop, Error)]
pub enum Flaw {
    /// Want of memory, which says nothing of the text.
    #[error("out of memory")]
    Memory,
    /// The first line that says something is no header, or none says anything.
    #[error("a header is wanted, `p cnf VARIABLES CLAUSES`")]
    Header,
    /// A word is no number.
    #[error("a word that is no number")]
    NoNumber,
    /// A variable is past the number in the header.
    #[error("a variable past the number in the header")]
    TooLarge,
    /// A clause is not ended.
    #[error("a clause that no 0 ends")]
    NoEnd,
    /// The clauses are not as many as the header says.
    #[error("not as many clauses as the header says")]
    Count,
}

impl From<AllocError> for Flaw {
    ghost use Rattle.dimacs_text.specs.declared.fault.Flaw.TheVariants.{Memory};

    ghost from_gives = { λ _ flaw. flaw ≡ Memory };

    fn from(_: AllocError) -> Flaw {
        Flaw::Memory
    }
}

impl<T: Drop> From<AllocFailed<T>> for Flaw {
    ghost use Rattle.dimacs_text.specs.declared.fault.Flaw.TheVariants.{Memory};

    ghost from_gives = { λ _ flaw. flaw ≡ Memory };

    fn from(_: AllocFailed<T>) -> Flaw {
        Flaw::Memory
    }
}

/// What is wrong, and in which line, from 1. What shows only at the end of a text is in its last line.
#[derive(Clone, Copy, Debug, Drop, Error)]
#[error("{line}: {flaw}")]
pub struct Fault {
    pub line: usize,
    pub flaw: Flaw,
}

impl From<AllocError> for Fault {
    ghost use Rattle.dimacs_text.specs.declared.fault.Flaw.TheVariants.{Memory};

    ghost from_gives = { λ _ fault. fault ≡ record { line = 1; flaw = Memory } };

    fn from(_: AllocError) -> Fault {
        Fault {
            line: 1,
            flaw: Flaw::Memory,
        }
    }
}
