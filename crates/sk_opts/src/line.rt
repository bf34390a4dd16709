ghost use Rattle.std.specs.Prelude.{◌≡◌};
ghost use Rattle.sk_opts.specs.declared.line.Usage.TheVariants.{Memory};

use sk_base::{Budget, List, Name};
use std::alloc::{AllocError, AllocFailed};
use thiserror::Error;

/// The bounds that options give; none where no option gives one.
#[derive(Debug, Drop, Clone, Copy)]
pub struct Set {
    /// The width of a hole that names none, in bits.
    pub cbits: Option<u32>,
    /// The width of an integer input, in bits.
    pub inbits: Option<u32>,
    /// How many turns a loop may make.
    pub unroll: Option<u32>,
    /// How many calls of one function may be active at once.
    pub inline_amnt: Option<u32>,
    /// The width of `int`, in bits.
    pub int_bits: Option<u32>,
}

/// A command line.
#[derive(Debug, Drop)]
pub enum Line {
    /// Complete a sketch.
    Synth {
        set: Set,
        budget: Budget,
        cert: bool,
    },
    /// Run a function of a program.
    Exec {
        set: Set,
        name: Name,
        values: List<Name>,
    },
    /// Run a function of a filled sketch, and show the run step by step.
    Trace {
        set: Set,
        name: Name,
        values: List<Name>,
        /// The numbers that the sketch is filled with; none where no option gives them.
        holes: Option<List<u64>>,
    },
    /// Write the plain sketch of a text with algebraic types.
    Lower {
        set: Set,
    },
    /// Write a program without what no run can reach.
    Prune {
        set: Set,
    },
    /// Check a certificate.
    Check {
        set: Set,
    },
    /// List completions of a sketch.
    All {
        set: Set,
        /// How many to list at most.
        most: u32,
    },
    /// Show inputs that no completion of a sketch passes together.
    Why {
        set: Set,
    },
    /// Complete the text of this number that the program makes itself.
    Itself {
        n: u32,
    },
    Help,
    Version,
}

/// Why words are no line.
#[derive(Debug, Drop, Clone, Copy, PartialEq, Eq, Error)]
pub enum Usage {
    /// The words spell no line.
    #[error("not a command line")]
    NotALine,
    /// There was not enough memory.
    #[error("not enough memory")]
    Memory,
}

impl From<AllocError> for Usage {
    ghost from_gives = { λ _ e. e ≡ Memory };

    fn from(_: AllocError) -> Usage {
        Usage::Memory
    }
}

impl<T: Drop> From<AllocFailed<T>> for Usage {
    ghost from_gives = { λ _ e. e ≡ Memory };

    fn from(_: AllocFailed<T>) -> Usage {
        Usage::Memory
    }
}
