// Lines of a certificate, one by one.
ghost use Rattle.std.specs.Prelude.{◌≡◌};
ghost use Rattle.sk_cert.specs.declared.lines.Halt.TheVariants.{NoMemory};

use std::alloc::{AllocError, AllocFailed};

/// Why reading stopped.
#[derive(Debug, Drop, Clone, Copy)]
pub enum Halt {
    NoMemory,
    /// A line departs from the form, where so many bytes are left from it on.
    Departs(usize),
}

impl From<AllocError> for Halt {
    ghost from_gives = { λ _ e. e ≡ NoMemory };

    fn from(_: AllocError) -> Halt {
        Halt::NoMemory
    }
}

impl<T: Drop> From<AllocFailed<T>> for Halt {
    ghost from_gives = { λ _ e. e ≡ NoMemory };

    fn from(_: AllocFailed<T>) -> Halt {
        Halt::NoMemory
    }
}

/// The sizes of a part.
#[derive(Debug, Drop, Clone, Copy)]
pub struct Sizes {
    /// How many variables the formula has.
    pub vars: u64,
    /// How many clauses it has.
    pub clauses: u64,
    /// How many clauses the log has.
    pub log: u64,
}

/// What a line among those of the program is.
#[derive(Debug, Drop, Clone, Copy)]
pub enum Front {
    /// A line of the program.
    Program,
    /// The line that ends it: that there is a completion, or that there is none.
    Ends(bool),
}
