//! What is answered of all completions.

use sk_base::List;
use sk_model::Choice;

/// Choices whose fillings meet their obligations, no two of which agree where the sites of one of them stand, each 0 where its
/// sites do not stand, in the order of their lists of values.
#[derive(Debug, Drop)]
pub enum Listing {
    /// Each choice that meets its obligations agrees with one of these.
    All(List<Choice>),
    /// So many as were asked for, and some choice that meets its obligations agrees with none of them.
    More(List<Choice>),
}
