//! Tokens and bytes of a text.
use sk_base::Span;
use sk_tree::{Kind, Token};

/// The bytes of a span; none where it does not lie in the text.
pub fn bytes_of(text: &[u8], span: Span) -> &[u8] {
    let (from, to) = (span.from as usize, span.to as usize);
    if from <= to && to <= text.len() {
        &text[from..to]
    } else {
        b""
    }
}

/// The first token that begins at a byte, or behind it.
pub fn token_from(tokens: &[Token], byte: u32) -> Option<&Token> {
    for token in tokens {
        if byte <= token.span.from {
            return Some(token);
        }
    }
    None
}

/// The bytes of a span, where they are one word that is no keyword.
pub fn lone_word<'a>(text: &'a [u8], tokens: &[Token], span: Span) -> Option<&'a [u8]> {
    let token = token_from(tokens, span.from)?;
    match &token.kind {
        Kind::Word(_) if token.span == span => Some(bytes_of(text, span)),
        _ => None,
    }
}
