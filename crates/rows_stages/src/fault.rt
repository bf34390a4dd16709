//! Why a text does not come to a stage.
use sk_expand_sizes::SizeFault;
use sk_holes::FillFault;
use sk_lexer::LexFault;
use sk_parser::ParseFault;
use sk_tree_spell::PatternFault;
use sk_types_laws::{Rule, Typing};
use std::alloc::{AllocError, AllocFailed};
use thiserror::Error;

/// Why a text does not come to a stage. It is written in place of what the stage would write: its name, and a place or
/// a number where it has one.
#[derive(Debug, Drop, Clone, Copy, PartialEq, Eq, Error)]
pub enum Fault {
    /// The words of the row say no stage, or not what it asks for.
    #[error("Words")]
    Words,
    #[error("TooLong")]
    TooLong,
    #[error("BadByte {at}")]
    BadByte { at: u32 },
    #[error("OpenComment {at}")]
    OpenComment { at: u32 },
    #[error("LiteralTooLarge {at}")]
    LiteralTooLarge { at: u32 },
    #[error("OpenString {at}")]
    OpenString { at: u32 },
    #[error("NoReading {at}")]
    NoReading { at: u32 },
    #[error("BadAlternative {at}")]
    BadAlternative { at: u32 },
    #[error("TooManyStrings {at}")]
    TooManyStrings { at: u32 },
    /// A rule of types is broken, at this place.
    #[error("{rule:?}")]
    Breaks { rule: Rule, from: u32, to: u32 },
    #[error("Copies")]
    Copies,
    #[error("Sites")]
    Sites,
    #[error("Steps")]
    Steps,
    #[error("News")]
    News,
    #[error("WrongLength")]
    WrongLength,
    #[error("OutOfRange {site}")]
    OutOfRange { site: u32 },
    #[error("not enough memory")]
    Memory,
}

impl From<AllocError> for Fault {
    fn from(_: AllocError) -> Fault {
        Fault::Memory
    }
}

impl<T: Drop> From<AllocFailed<T>> for Fault {
    fn from(_: AllocFailed<T>) -> Fault {
        Fault::Memory
    }
}

impl From<LexFault> for Fault {
    fn from(fault: LexFault) -> Fault {
        match fault {
            LexFault::BadByte { at } => Fault::BadByte { at },
            LexFault::OpenComment { at } => Fault::OpenComment { at },
            LexFault::LiteralTooLarge { at } => Fault::LiteralTooLarge { at },
            LexFault::OpenString { at } => Fault::OpenString { at },
            LexFault::Memory => Fault::Memory,
        }
    }
}

impl From<ParseFault> for Fault {
    fn from(fault: ParseFault) -> Fault {
        match fault {
            ParseFault::NoReading { at } => Fault::NoReading { at },
            ParseFault::BadAlternative { at } => Fault::BadAlternative { at },
            ParseFault::TooManyStrings { at } => Fault::TooManyStrings { at },
            ParseFault::Memory => Fault::Memory,
        }
    }
}

impl From<PatternFault> for Fault {
    fn from(fault: PatternFault) -> Fault {
        match fault {
            PatternFault::TooManyStrings => Fault::TooManyStrings { at: 0 },
            PatternFault::Memory => Fault::Memory,
        }
    }
}

impl From<Typing> for Fault {
    fn from(why: Typing) -> Fault {
        match why {
            Typing::Fault(fault) => Fault::Breaks {
                rule: fault.rule,
                from: fault.span.from,
                to: fault.span.to,
            },
            Typing::Memory => Fault::Memory,
        }
    }
}

impl From<SizeFault> for Fault {
    fn from(fault: SizeFault) -> Fault {
        match fault {
            SizeFault::Copies => Fault::Copies,
            SizeFault::Sites => Fault::Sites,
            SizeFault::Steps => Fault::Steps,
            SizeFault::News => Fault::News,
            SizeFault::Memory => Fault::Memory,
        }
    }
}

impl From<FillFault> for Fault {
    fn from(fault: FillFault) -> Fault {
        match fault {
            FillFault::WrongLength => Fault::WrongLength,
            FillFault::OutOfRange { site } => Fault::OutOfRange { site },
            FillFault::Memory => Fault::Memory,
        }
    }
}
