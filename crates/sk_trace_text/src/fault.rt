//! Why no function of a text is run step by step.

use sk_exec::ExecFault;
use sk_holes::FillFault;
use thiserror::Error;

/// Why no function of a text is run step by step.
#[derive(Debug, Drop, Clone, Copy, PartialEq, Eq, Error)]
pub enum TraceFault {
    /// There is no function of the name, or it is a generator, or the values are none of it.
    #[error("{0}")]
    NotRun(ExecFault),
    /// The numbers fill no sketch.
    #[error("{0}")]
    NotFilled(FillFault),
}
