//! The plain form of a text with algebraic types.

ghost use Rattle.std.specs.Prelude.{◌≡◌, ◌≤◌, length, IfOk, IfErr};
ghost use Rattle.sk_tree.specs.Tokens.{AreTokens};
ghost use Rattle.sk_front.specs.Texts.{most_bytes};
ghost use Rattle.sk_front.specs.Front.{IsMemory};
ghost use Rattle.sk_adt.specs.Lowering.{lowered};
ghost use Rattle.sk_adt_text.specs.PlainTexts.{IsForm, IsFaultOfBytes};

use sk_adt::{AdtFault, Lowered, lower};
use sk_base::List;
use sk_front::{SketchFault, TextFault};
use sk_lexer::{LexFault, tokens};
use sk_tree::Token;
use std::alloc::Global;

fn undivided(fault: LexFault) -> SketchFault
    ensures { result ≡ SketchFault.NotText (TextFault.Lex fault) }
{
    SketchFault::NotText(TextFault::Lex(fault))
}

/// The tokens of a text.
fn tokens_of(alloc: Global, text: &[u8]) -> Result<List<Token>, SketchFault>
    requires { length text.now ≤ most_bytes }
    ensures found { IfOk result (AreTokens text.now) }
    ensures fault { IfErr result (IsFaultOfBytes text.now) }
{
    match tokens(alloc, text) {
        Ok(tokens) => Ok(tokens),
        Err(LexFault::BadByte { at }) => Err(undivided(LexFault::BadByte { at })),
        Err(LexFault::OpenComment { at }) => Err(undivided(LexFault::OpenComment { at })),
        Err(LexFault::LiteralTooLarge { at }) => Err(undivided(LexFault::LiteralTooLarge { at })),
        Err(LexFault::OpenString { at }) => Err(undivided(LexFault::OpenString { at })),
        Err(LexFault::Memory) => Err(SketchFault::Memory),
    }
}

/// The plain form of tokens, or why they have none.
fn form_of(alloc: Global, tokens: &[Token]) -> Result<Result<Lowered, AdtFault>, SketchFault>
    ensures found { IfOk result (λ form. lowered tokens.now ≡ form) }
    ensures fault { IfErr result IsMemory }
{
    match lower(alloc, tokens) {
        Ok(form) => Ok(Ok(form)),
        Err(AdtFault::Memory) => Err(SketchFault::Memory),
        Err(AdtFault::NoForm { at }) => Ok(Err(AdtFault::NoForm { at })),
        Err(AdtFault::Twice { at }) => Ok(Err(AdtFault::Twice { at })),
        Err(AdtFault::NoVariant { at }) => Ok(Err(AdtFault::NoVariant { at })),
        Err(AdtFault::TooMany { at }) => Ok(Err(AdtFault::TooMany { at })),
    }
}

/// The plain form of a text, or why its tokens have none.
#[tactic(auto, using(crate::proofs::Answering::formed))]
pub(crate) fn plain_form(
    alloc: Global,
    text: &[u8],
) -> Result<Result<Lowered, AdtFault>, SketchFault>
    requires { length text.now ≤ most_bytes }
    ensures found { IfOk result (IsForm text.now) }
    ensures fault { IfErr result (IsFaultOfBytes text.now) }
{
    let tokens = match tokens_of(alloc, text) {
        Ok(tokens) => tokens,
        Err(fault) => return Err(fault),
    };
    match form_of(alloc, tokens.as_slice()) {
        Ok(form) => Ok(form),
        Err(_) => Err(SketchFault::Memory),
    }
}
