//! What a token is, as it is spelt.
use sk_tree::{Kind, Token};

/// What is asked of a token.
#[derive(Debug, Clone, Copy)]
pub enum Seen {
    Spelt(&'static [u8]),
    /// `int`, `bit` or `void`.
    TypeKey,
    /// A word that is no keyword.
    Word,
    Number,
    /// Bytes between quotes.
    Quoted,
    /// Behind it a statement may stand.
    Start,
    /// An operator that C joins with `=`, and this language does not.
    Updating,
}

const STARTS: [&[u8]; 5] = [b"{", b"}", b";", b")", b"else"];

const UPDATING: [&[u8]; 8] = [b"*", b"/", b"%", b"&", b"|", b"^", b"<<", b">>"];

// The bytes from one byte to another; none where they do not lie in the text.
fn bytes_at(text: &[u8], from: u32, to: u32) -> &[u8] {
    let (from, to) = (from as usize, to as usize);
    if from <= to && to <= text.len() {
        &text[from..to]
    } else {
        b""
    }
}

/// The bytes of a token; none where it does not lie in the text.
pub fn spelling<'a>(text: &'a [u8], token: &Token) -> &'a [u8] {
    bytes_at(text, token.span.from, token.span.to)
}

/// The bytes from a token to another; none where they do not lie in the text.
pub fn between<'a>(text: &'a [u8], first: &Token, last: &Token) -> &'a [u8] {
    bytes_at(text, first.span.from, last.span.to)
}

/// Whether a token is spelt so.
pub fn is_spelt(text: &[u8], token: &Token, word: &[u8]) -> bool {
    spelling(text, token) == word
}

/// Whether a token is spelt as one of these.
pub fn is_any(text: &[u8], token: &Token, words: &[&[u8]]) -> bool {
    for word in words {
        if is_spelt(text, token, *word) {
            return true;
        }
    }
    false
}

/// Whether a token is a word that is no keyword.
pub fn is_word(token: &Token) -> bool {
    match &token.kind {
        Kind::Word(_) => true,
        Kind::Number(_) | Kind::Text(_) | Kind::Key(_) | Kind::Mark(_) => false,
    }
}

/// Whether a token is a number.
pub fn is_number(token: &Token) -> bool {
    match &token.kind {
        Kind::Number(_) => true,
        Kind::Word(_) | Kind::Text(_) | Kind::Key(_) | Kind::Mark(_) => false,
    }
}

/// Whether a token is bytes between quotes.
pub fn is_quoted(token: &Token) -> bool {
    match &token.kind {
        Kind::Text(_) => true,
        Kind::Word(_) | Kind::Number(_) | Kind::Key(_) | Kind::Mark(_) => false,
    }
}

/// Whether a token is `int`, `bit` or `void`.
pub fn is_type(text: &[u8], token: &Token) -> bool {
    is_spelt(text, token, b"int") || is_spelt(text, token, b"bit") || is_spelt(text, token, b"void")
}

impl Seen {
    /// Whether a token of a text is so.
    pub fn fits(self, text: &[u8], token: &Token) -> bool {
        match self {
            Seen::Spelt(word) => is_spelt(text, token, word),
            Seen::TypeKey => is_type(text, token),
            Seen::Word => is_word(token),
            Seen::Number => is_number(token),
            Seen::Quoted => is_quoted(token),
            Seen::Start => is_any(text, token, &STARTS),
            Seen::Updating => is_any(text, token, &UPDATING),
        }
    }
}
