//! What is said of a certificate.

use sk_check_laws::Reason;

/// What is said of a certificate.
#[derive(Debug, Drop)]
pub enum Verdict {
    /// Each of its parts holds.
    Accepted,
    /// The first of its parts that does not hold, or a formula that is another than the listed one.
    Rejected(Reason),
}
