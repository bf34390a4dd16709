use crate::token::Mark;

/// What one piece of a text is. A text is a row of pieces; blanks and comments are no tokens.
#[derive(Debug, Drop, Clone, Copy, PartialEq, Eq)]
pub enum Shape {
    /// Spaces, tabs and ends of lines.
    Blank,
    Comment,
    /// A word, which may be a keyword.
    Word,
    /// Digits.
    Number,
    /// Bytes between two quotes.
    Text,
    Mark(Mark),
}
