//! Tokens and bytes of a text.
use sk_base::{List, Span};
use sk_lexer::{LexFault, tokens};
use sk_tree::{Key, Kind, Mark, Token};
use std::alloc::{AllocError, Global};

/// The greatest number of bytes of a text.
const MOST_BYTES: usize = 1_048_576;

/// The tokens of a text; none where it has none.
pub fn tokens_of(alloc: Global, text: &[u8]) -> Result<List<Token>, AllocError> {
    if text.len() > MOST_BYTES {
        return Ok(List::new(alloc));
    }
    match tokens(alloc, text) {
        Ok(tokens) => Ok(tokens),
        Err(LexFault::Memory) => Err(AllocError),
        Err(_) => Ok(List::new(alloc)),
    }
}

/// The bytes of a span; none where it does not lie in the text.
pub fn bytes_of(text: &[u8], span: Span) -> &[u8] {
    let (from, to) = (span.from as usize, span.to as usize);
    if from <= to && to <= text.len() {
        &text[from..to]
    } else {
        b""
    }
}

/// Whether a token is a word that is no keyword.
pub fn is_word(token: &Token) -> bool {
    match &token.kind {
        Kind::Word(_) => true,
        Kind::Number(_) | Kind::Text(_) | Kind::Key(_) | Kind::Mark(_) => false,
    }
}

/// Whether a token is this keyword.
pub fn is_key(token: &Token, key: Key) -> bool {
    match &token.kind {
        Kind::Key(found) => *found == key,
        Kind::Word(_) | Kind::Number(_) | Kind::Text(_) | Kind::Mark(_) => false,
    }
}

/// Whether a token is this mark.
pub fn is_mark(token: &Token, mark: Mark) -> bool {
    match &token.kind {
        Kind::Mark(found) => *found == mark,
        Kind::Word(_) | Kind::Number(_) | Kind::Text(_) | Kind::Key(_) => false,
    }
}

/// Whether a token is a mark that opens something.
pub fn opens(token: &Token) -> bool {
    is_mark(token, Mark::OpenParen)
        || is_mark(token, Mark::OpenBrace)
        || is_mark(token, Mark::OpenBracket)
        || is_mark(token, Mark::OpenPattern)
}

/// Whether a token is a mark that closes what another opens.
pub fn closes(token: &Token) -> bool {
    is_mark(token, Mark::CloseParen)
        || is_mark(token, Mark::CloseBrace)
        || is_mark(token, Mark::CloseBracket)
        || is_mark(token, Mark::ClosePattern)
}

/// How many marks are open behind a token, where so many are in front of it.
pub fn open_behind(open: usize, token: &Token) -> usize {
    if opens(token) {
        open.saturating_add(1)
    } else if closes(token) {
        open.saturating_sub(1)
    } else {
        open
    }
}

/// The tokens of a span.
pub fn tokens_in(tokens: &[Token], span: Span) -> &[Token] {
    let from = tokens
        .iter()
        .filter(|token| token.span.from < span.from)
        .count();
    let to = tokens
        .iter()
        .filter(|token| token.span.from < span.to)
        .count();
    match tokens.get(from..to) {
        Some(found) => found,
        None => &[],
    }
}

/// The name of the function in whose text a byte stands: the last one at the top that begins in front of it.
pub fn function_at(tokens: &[Token], byte: u32) -> Option<Span> {
    let mut found = None;
    let mut open = 0usize;
    for two in tokens.windows(2) {
        if let [token, next] = two {
            if byte < token.span.from {
                return found;
            }
            if open == 0 && is_word(token) && is_mark(next, Mark::OpenParen) {
                found = Some(token.span);
            }
            open = open_behind(open, token);
        }
    }
    found
}
