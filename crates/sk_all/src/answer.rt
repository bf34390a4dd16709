//! What is answered of all completions.

use sk_base::List;
use sk_model::{Choice, Input};

/// Why there is no completion.
#[derive(Debug, Drop)]
pub enum Why {
    /// No choice passes these inputs, and without any one of them some choice passes the rest.
    Inputs(List<Input>),
    /// There is one.
    Met(Choice),
}
