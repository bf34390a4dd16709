//! The tree as which a text reads, or what is wrong with the text.

ghost use Rattle.std.specs.Prelude.{◌≡◌, ◌≤◌, length, IfOk, IfErr};
ghost use Rattle.sk_parser.specs.Parses.{IsTreeOf};
ghost use Rattle.sk_front.specs.Texts.{most_bytes, HasTree};
ghost use Rattle.sk_front.specs.Reading.{IsFaultOfTokens};
ghost use Rattle.sk_front.specs.Front.{IsFaultOfTree};

use crate::fault::{SketchFault, TextFault};
use sk_lexer::{LexFault, tokens};
use sk_parser::{ParseFault, parse};
use sk_tree::{Token, Tree};
use std::alloc::Global;

fn refused(fault: ParseFault) -> SketchFault
    ensures { result ≡ SketchFault.NotText (TextFault.Parse fault) }
{
    SketchFault::NotText(TextFault::Parse(fault))
}

fn undivided(fault: LexFault) -> SketchFault
    ensures { result ≡ SketchFault.NotText (TextFault.Lex fault) }
{
    SketchFault::NotText(TextFault::Lex(fault))
}

/// The one tree as which tokens read.
fn read(alloc: Global, tokens: &[Token]) -> Result<Tree, SketchFault>
    ensures found { IfOk result (IsTreeOf tokens.now) }
    ensures fault { IfErr result (IsFaultOfTokens tokens.now) }
{
    match parse(alloc, tokens) {
        Ok(tree) => Ok(tree),
        Err(ParseFault::NoReading { at }) => Err(refused(ParseFault::NoReading { at })),
        Err(ParseFault::TooManyStrings { at }) => Err(refused(ParseFault::TooManyStrings { at })),
        Err(ParseFault::BadAlternative { at }) => Err(refused(ParseFault::BadAlternative { at })),
        Err(ParseFault::Memory) => Err(SketchFault::Memory),
    }
}

/// The one tree as which a text reads.
pub fn tree_of(alloc: Global, text: &[u8]) -> Result<Tree, SketchFault>
    requires { length text.now ≤ most_bytes }
    ensures found { IfOk result (HasTree text.now) }
    ensures fault { IfErr result (IsFaultOfTree text.now) }
{
    match tokens(alloc, text) {
        Ok(tokens) => match read(alloc, tokens.as_slice()) {
            Ok(tree) => Ok(tree),
            Err(fault) => Err(fault),
        },
        Err(LexFault::BadByte { at }) => Err(undivided(LexFault::BadByte { at })),
        Err(LexFault::OpenComment { at }) => Err(undivided(LexFault::OpenComment { at })),
        Err(LexFault::LiteralTooLarge { at }) => Err(undivided(LexFault::LiteralTooLarge { at })),
        Err(LexFault::OpenString { at }) => Err(undivided(LexFault::OpenString { at })),
        Err(LexFault::Memory) => Err(SketchFault::Memory),
    }
}
