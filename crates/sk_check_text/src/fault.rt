//! Why nothing is said of a certificate.

use sk_front::SketchFault;
use thiserror::Error;

/// Why nothing is said of an input but that it is refused.
#[derive(Debug, Drop, Clone, Copy, PartialEq, Eq, Error)]
pub enum CheckFault {
    /// The sketch has more than 1,048,576 bytes.
    #[error("the sketch is too long")]
    TooLong,
    /// The sketch is not taken, or there was not enough memory.
    #[error(transparent)]
    Sketch(SketchFault),
}
