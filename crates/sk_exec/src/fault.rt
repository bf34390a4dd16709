//! Why no function of a text is run.

use thiserror::Error;

/// Why no function of a text is run.
#[derive(Debug, Drop, Clone, Copy, PartialEq, Eq, Error)]
pub enum ExecFault {
    /// No function that the text declares has the name.
    #[error("no function has this name")]
    NoFunction,
    /// The program has a site, or the function is a generator.
    #[error("the program is not filled, or the function is a generator")]
    Unfilled,
    /// A parameter or the result holds a reference.
    #[error("a parameter or the result holds a reference")]
    References,
    /// There are not as many values as parameters.
    #[error("there are not as many values as parameters")]
    Count,
    /// The value with this index, from 0, is the first that spells none of its parameter's type.
    #[error("value {index} spells none of its parameter's type")]
    Value { index: usize },
}
