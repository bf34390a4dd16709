use crate::token::Token;
use sk_base::{Boxed, List};

/// What stands between `{|` and `|}`: a regular expression over tokens, whose strings are the
/// alternatives of the programmer.
#[derive(Debug, Drop)]
pub enum Pattern {
    /// Sequences with `|` between them.
    Choice(List<Pattern>),
    /// Parts that follow each other.
    Seq(List<Pattern>),
    /// A part with `?` behind it.
    Maybe(Boxed<Pattern>),
    /// A choice in parentheses.
    Group(Boxed<Pattern>),
    /// One token.
    One(Token),
}
