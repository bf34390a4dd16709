//! What a program pays.

use sk_base::Span;
use sk_dag::BoolId;

/// A `minrepeat`, which pays the value of its site where a node holds.
#[derive(Debug, Drop, Clone, Copy)]
pub struct Payment {
    pub span: Span,
    pub site: usize,
    pub when: BoolId,
}
