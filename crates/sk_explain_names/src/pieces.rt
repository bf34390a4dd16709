//! Tokens and bytes of a text.
use sk_base::{Name, Span};
use sk_tree::{Key, Kind, Mark, Token};

/// The bytes of a span; none where it does not lie in the text.
pub fn bytes_of(text: &[u8], span: Span) -> &[u8] {
    let (from, to) = (span.from as usize, span.to as usize);
    if from <= to && to <= text.len() {
        &text[from..to]
    } else {
        b""
    }
}

/// The word that a token is, where it is no keyword.
pub fn word(token: &Token) -> Option<&Name> {
    match &token.kind {
        Kind::Word(name) => Some(name),
        Kind::Number(_) | Kind::Text(_) | Kind::Key(_) | Kind::Mark(_) => None,
    }
}

/// Whether a token is a word that is no keyword.
pub fn is_word(token: &Token) -> bool {
    word(token).is_some()
}

/// Whether a token is this keyword.
pub fn is_key(token: &Token, key: Key) -> bool {
    match &token.kind {
        Kind::Key(found) => *found == key,
        Kind::Word(_) | Kind::Number(_) | Kind::Text(_) | Kind::Mark(_) => false,
    }
}

/// Whether a token is this mark.
pub fn is_mark(token: &Token, mark: Mark) -> bool {
    match &token.kind {
        Kind::Mark(found) => *found == mark,
        Kind::Word(_) | Kind::Number(_) | Kind::Text(_) | Kind::Key(_) => false,
    }
}

/// Whether a type begins with a token.
pub fn is_base(token: &Token) -> bool {
    is_word(token) || is_key(token, Key::Int) || is_key(token, Key::Bit)
}

/// Whether a type may end with a token, or `void` or `struct` stands there: a word behind it is declared.
pub fn ends_type(token: &Token) -> bool {
    is_base(token)
        || is_mark(token, Mark::CloseBracket)
        || is_key(token, Key::Void)
        || is_key(token, Key::Struct)
}

/// Whether one of these tokens is spelt by the mark.
pub fn has_mark(tokens: &[Token], mark: Mark) -> bool {
    tokens.iter().any(|token| is_mark(token, mark))
}

/// Whether one of these tokens is this keyword.
pub fn has_key(tokens: &[Token], key: Key) -> bool {
    tokens.iter().any(|token| is_key(token, key))
}
