//! A text cut into its pieces.
ghost use Rattle.std.specs.Prelude.{◌≡◌, ◌<◌, ◌≤◌, ◌+◌, ℕ, ◌++◌, List, Some, None, length, IfOk, IfErr, OnOk, MatchResult, if◌then◌else◌, nat_le, take};
ghost use Rattle.sk_tree.specs.declared.token.Token.{Token};
ghost use Rattle.sk_tree.specs.Longest.{opens_comment};
ghost use Rattle.sk_tree.specs.Tokens.{AreTokens, Fault, IsFirstFault, IsWithin, IsWrong, token_of, number_of, inner, greatest_number};
ghost use Rattle.sk_lexer.specs.Lexing.{Tells, IsMemory, IsFaultOrMemory, IsTooLarge, IsWrongAt};
ghost use Rattle.sk_lexer.specs.Pieces.{NoPiece};

use crate::fault::LexFault;
use crate::piece::{Piece, longest_piece, opens_comment, opens_text};
use crate::spelling::key_of;
use sk_base::{List, Name, Span};
use sk_tree::{Kind, Shape, Token};
use std::alloc::{AllocError, Global};

/// The tokens of a text: it is cut from the left into the longest pieces that can stand, and each that is neither
/// blank nor comment is a token. A text in which no piece can stand at some place, or in which a number is too large,
/// has a fault there, and the first one is answered.
pub fn tokens(alloc: Global, text: &[u8]) -> Result<List<Token>, LexFault>
    requires { length text.now ≤ 1048576 }
    ensures found { IfOk result (AreTokens text.now) }
    ensures fault { IfErr result (Tells text.now) }
    // No other tokens are the text's, and no other fault is its first.
    ensures only { (tokens : List Token) → AreTokens text.now tokens → MatchResult result (λ found. found ≡ tokens) IsMemory }
    ensures only_fault { (fault : Fault) (at : ℕ) → IsFirstFault text.now fault at → MatchResult result (λ _. ⊥) (IsFaultOrMemory fault at) }
{
    match divide(alloc, text) {
        Ok(tokens) => Ok(tokens),
        Err(fault) => Err(fault),
    }
}

fn divide(alloc: Global, text: &[u8]) -> Result<List<Token>, LexFault>
    requires { length text.now ≤ 1048576 }
    ensures found { IfOk result (AreTokens text.now) }
    ensures fault { IfErr result (Tells text.now) }
{
    let mut out = List::new(alloc);
    let mut rest = text;
    let mut at: u32 = 0;
    while !rest.is_empty() {
        match longest_piece(rest) {
            Some(piece) => {
                let (bytes, after) = rest.split_at(piece.len);
                push_token(alloc, &mut out, piece.shape, at, bytes)?;
                at += piece.len as u32;
                rest = after;
            }
            None => return Err(fault_of(rest, at)),
        }
    }
    Ok(out)
}

// What is wrong at the front of a text where no piece stands.
fn fault_of(rest: &[u8], at: u32) -> LexFault
    requires some { 0 < length rest.now }
    requires none { NoPiece rest.now }
    ensures { IsWrongAt rest.now at result }
{
    if opens_comment(rest) {
        LexFault::OpenComment { at }
    } else if opens_text(rest) {
        LexFault::OpenString { at }
    } else {
        LexFault::BadByte { at }
    }
}

// The piece's token at the end, if it has one.
fn push_token(
    alloc: Global,
    out: &mut List<Token>,
    shape: Shape,
    at: u32,
    bytes: &[u8],
) -> Result<(), LexFault>
    requires { at + length bytes.now ≤ 1048576 }
    ensures within { OnOk result (IsWithin (Some shape) bytes.now) }
    ensures pushed { OnOk result (out.new ≡ out.old ++ token_of (Some shape) at bytes.now) }
    ensures fault { IfErr result (IsTooLarge shape at bytes.now) }
{
    let span = Span {
        from: at,
        to: at + bytes.len() as u32,
    };
    let kind = match shape {
        Shape::Blank => return Ok(()),
        Shape::Comment => return Ok(()),
        Shape::Word => match key_of(bytes) {
            Some(key) => Kind::Key(key),
            None => Kind::Word(Name::from_slice(alloc, bytes)?),
        },
        Shape::Number => match number_of(bytes) {
            Some(number) => Kind::Number(number),
            None => return Err(LexFault::LiteralTooLarge { at }),
        },
        Shape::Text => Kind::Text(Name::from_slice(alloc, inner(bytes))?),
        Shape::Mark(mark) => Kind::Mark(mark),
    };
    out.push(Token { kind, span })?;
    Ok(())
}

// What stands between the quotes.
fn inner(bytes: &[u8]) -> &[u8]
    ensures { result.now ≡ inner bytes.now }
{
    if bytes.len() < 2 {
        &[]
    } else {
        &bytes[1..bytes.len() - 1]
    }
}

// The number that the digits spell, where it is not too large.
fn number_of(bytes: &[u8]) -> Option<u32>
    ensures { result ≡ (if nat_le (number_of bytes.now) greatest_number then Some (number_of bytes.now) else None) }
{
    let mut number: u64 = 0;
    for b in bytes {
        number = 10 * number + b.saturating_sub(48) as u64;
        if number > 2147483647 {
            return None;
        }
    }
    Some(number as u32)
}
