use sk_base::{Name, Span};

/// A keyword. Each is spelt in small letters.
#[derive(Debug, Drop, Clone, Copy, PartialEq, Eq)]
pub enum Key {
    Adt,
    Assert,
    Assume,
    Bit,
    Case,
    Else,
    False,
    For,
    Generator,
    Harness,
    If,
    Implements,
    Int,
    Minimize,
    Minrepeat,
    New,
    Null,
    Pragma,
    Ref,
    Reorder,
    Repeat,
    Return,
    Struct,
    Switch,
    True,
    Void,
    While,
}

/// A mark of one or two bytes.
#[derive(Debug, Drop, Clone, Copy, PartialEq, Eq)]
pub enum Mark {
    /// `{|`
    OpenPattern,
    /// `|}`
    ClosePattern,
    /// `??`
    Hole,
    /// `::`
    DoubleColon,
    /// `==`
    Equal,
    /// `!=`
    NotEqual,
    /// `<=`
    AtMost,
    /// `>=`
    AtLeast,
    /// `<<`
    ShiftLeft,
    /// `>>`
    ShiftRight,
    /// `&&`
    AndThen,
    /// `||`
    OrElse,
    /// `++`
    Increment,
    /// `--`
    Decrement,
    /// `+=`
    AddAssign,
    /// `-=`
    SubAssign,
    /// `+`
    Plus,
    /// `-`
    Minus,
    /// `*`
    Star,
    /// `/`
    Slash,
    /// `%`
    Percent,
    /// `~`
    Tilde,
    /// `!`
    Bang,
    /// `&`
    Ampersand,
    /// `|`
    Bar,
    /// `^`
    Caret,
    /// `<`
    Less,
    /// `>`
    Greater,
    /// `=`
    Assign,
    /// `(`
    OpenParen,
    /// `)`
    CloseParen,
    /// `{`
    OpenBrace,
    /// `}`
    CloseBrace,
    /// `[`
    OpenBracket,
    /// `]`
    CloseBracket,
    /// `,`
    Comma,
    /// `;`
    Semicolon,
    /// `.`
    Dot,
    /// `?`
    Question,
    /// `:`
    Colon,
}

/// What a token is, apart from where it stands.
#[derive(Debug, Drop)]
pub enum Kind {
    /// A word that is no keyword.
    Word(Name),
    /// Digits, with their value.
    Number(u32),
    /// The bytes between two quotes.
    Text(Name),
    Key(Key),
    Mark(Mark),
}

/// A piece of the text that is neither blank nor comment.
#[derive(Debug, Drop)]
pub struct Token {
    pub kind: Kind,
    pub span: Span,
}
