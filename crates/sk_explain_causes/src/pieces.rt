//! The tokens of a text, and the bytes of them.
ghost use Rattle.std.specs.Prelude.{◌≡◌, ◌≤◌, length, option_map, count_by, IfOk, IfSome};
ghost use Rattle.std.specs.List.{list_any};
ghost use Rattle.sk_tree.specs.declared.token.Token.{Token};
ghost use Rattle.sk_tree.specs.Tokens.{AreTokens};
ghost use Rattle.sk_parser_laws.specs.Readers.{is_key, is_mark};
ghost use Rattle.sk_explain_causes.specs.Tokens.{ArePlain, AreTokensRead, bytes_of, tokens_from, first_of, begins_before, is_word, opens, closes};

use sk_adt::{AdtFault, lower};
use sk_base::{List, Span};
use sk_lexer::{LexFault, tokens};
use sk_parser_exprs::token::{begins, begins_key};
use sk_tree::{Key, Kind, Mark, Token};
use std::alloc::{AllocError, Global};
use std::slice;

/// The greatest number of bytes of a text.
const MOST_BYTES: usize = 1_048_576;

/// The tokens of a text, where it has some.
pub fn tokens_of(alloc: Global, text: &[u8]) -> Result<Option<List<Token>>, AllocError>
    ensures { IfOk result (λ found. IfSome found (AreTokens text.now)) }
{
    if text.len() > MOST_BYTES {
        return Ok(None);
    }
    match tokens(alloc, text) {
        Ok(tokens) => Ok(Some(tokens)),
        Err(LexFault::Memory) => Err(AllocError),
        Err(_) => Ok(None),
    }
}

/// The tokens of a text; none where it has none.
pub fn some_tokens(alloc: Global, text: &[u8]) -> Result<List<Token>, AllocError> {
    match tokens_of(alloc, text)? {
        Some(tokens) => Ok(tokens),
        None => Ok(List::new(alloc)),
    }
}

/// The tokens that a line reads of a text, where it has some: for a line that takes the plain form of a text, those of that form.
pub fn tokens_read(
    alloc: Global,
    text: &[u8],
    lowers: bool,
) -> Result<Option<List<Token>>, AllocError>
    ensures { IfOk result (λ found. IfSome found (AreTokensRead lowers text.now)) }
{
    match tokens_of(alloc, text)? {
        Some(tokens) => {
            if lowers {
                plain_of(alloc, tokens.as_slice())
            } else {
                Ok(Some(tokens))
            }
        }
        None => Ok(None),
    }
}

// The tokens of the plain form, where there is one.
fn plain_of(alloc: Global, tokens: &[Token]) -> Result<Option<List<Token>>, AllocError>
    ensures { IfOk result (λ found. IfSome found (ArePlain tokens.now)) }
{
    match lower(alloc, tokens) {
        Ok(lowered) => Ok(Some(lowered.tokens)),
        Err(AdtFault::Memory) => Err(AllocError),
        Err(_) => Ok(None),
    }
}

/// The bytes of a span; none where it does not lie in the text.
pub fn bytes_of(text: &[u8], span: Span) -> &[u8]
    ensures { result.now ≡ bytes_of text.now span }
{
    let (from, to) = (span.from as usize, span.to as usize);
    if from <= to && to <= text.len() {
        &text[from..to]
    } else {
        b""
    }
}

/// The tokens from the first on that begins at a byte, or behind it.
pub fn tokens_from(tokens: &[Token], byte: u32) -> &[Token]
    ensures { result.now ≡ tokens_from byte tokens.now }
{
    let mut rest = tokens;
    while let [first, behind @ ..] = rest {
        if byte <= first.span.from {
            break;
        }
        rest = behind;
    }
    rest
}

/// The first token that begins at a byte, or behind it.
pub fn token_from(tokens: &[Token], byte: u32) -> Option<&Token>
    ensures { option_map (λ token. token.now) result ≡ first_of (tokens_from byte tokens.now) }
{
    match tokens_from(tokens, byte).split_first() {
        Some((first, _)) => Some(first),
        None => None,
    }
}

/// How many tokens begin before a byte.
#[tactic(auto, using(std::proofs::lemmas::List::Sums::count_by_more_yes, std::proofs::lemmas::List::Sums::count_by_more_no))]
pub fn tokens_before(tokens: &[Token], byte: u32) -> usize
    ensures count { result ≡ count_by (begins_before byte) tokens.now }
    ensures few { result ≤ length tokens.now }
{
    let mut count = 0;
    for token in tokens {
        if token.span.from < byte {
            count += 1;
        }
    }
    count
}

/// Whether a token is this keyword.
#[tactic(auto, unfolding(sk_parser_laws::specs::Readers::key_ahead))]
pub fn is_key(token: &Token, key: Key) -> bool
    ensures { result ≡ is_key key token.now.kind }
{
    begins_key(slice::from_ref(token), key)
}

/// Whether a token is this mark.
#[tactic(auto, unfolding(sk_parser_laws::specs::Readers::mark_ahead))]
pub fn is_mark(token: &Token, mark: Mark) -> bool
    ensures { result ≡ is_mark mark token.now.kind }
{
    begins(slice::from_ref(token), mark)
}

/// Whether a token is a mark that opens something.
pub fn opens(token: &Token) -> bool
    ensures { result ≡ opens token.now.kind }
{
    is_mark(token, Mark::OpenParen)
        || is_mark(token, Mark::OpenBrace)
        || is_mark(token, Mark::OpenBracket)
        || is_mark(token, Mark::OpenPattern)
}

/// Whether a token is a mark that closes what another opens.
pub fn closes(token: &Token) -> bool
    ensures { result ≡ closes token.now.kind }
{
    is_mark(token, Mark::CloseParen)
        || is_mark(token, Mark::CloseBrace)
        || is_mark(token, Mark::CloseBracket)
        || is_mark(token, Mark::ClosePattern)
}

/// Whether a token is a word that is no keyword.
pub fn is_word(token: &Token) -> bool
    ensures { result ≡ is_word token.now.kind }
{
    match &token.kind {
        Kind::Word(_) => true,
        Kind::Number(_) | Kind::Text(_) | Kind::Key(_) | Kind::Mark(_) => false,
    }
}

/// Whether some token is this keyword.
pub fn has_key(tokens: &[Token], key: Key) -> bool
    ensures { result ≡ list_any (λ (token : Token). is_key key token.kind) tokens.now }
{
    let mut rest = tokens;
    while let [token, behind @ ..] = rest {
        if is_key(token, key) {
            return true;
        }
        rest = behind;
    }
    false
}
