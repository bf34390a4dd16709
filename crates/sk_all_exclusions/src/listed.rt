//! Choices that are listed.

use sk_base::List;
use sk_model::Choice;

/// A choice that is listed.
#[derive(Debug, Drop)]
pub struct Listed {
    pub choice: Choice,
    /// For each site, in order, whether it stands under the choice.
    pub marks: List<bool>,
}
