//! The program that the tokens of a plain form mean.

ghost use Rattle.std.specs.Prelude.{◌≡◌, ◌≤◌, ◌⊎◌, IfOk, IfErr};
ghost use Rattle.sk_parser.specs.Parses.{IsTreeOf};
ghost use Rattle.sk_types.specs.Places.{nowhere};
ghost use Rattle.sk_opts.specs.Ranges.{IsInRanges};
ghost use Rattle.sk_front.specs.Reading.{IsFaultOfTokens};
ghost use Rattle.sk_adt_text.specs.PlainTexts.{IsMeaning, IsFaultOfPlain, IsPlacedIn};

use sk_base::Span;
use sk_front::{SketchFault, TextFault, Typed};
use sk_opts::{Set, bounds};
use sk_parser::{ParseFault, parse};
use sk_tree::{Token, Tree};
use sk_types::check;
use sk_types_laws::{TypeFault, Typing};
use std::alloc::Global;

fn refused(fault: ParseFault) -> SketchFault
    ensures { result ≡ SketchFault.NotText (TextFault.Parse fault) }
{
    SketchFault::NotText(TextFault::Parse(fault))
}

/// The byte, where there are so many, and else the first.
fn within(at: u32, bytes: usize) -> u32
    ensures low { result ≤ at }
    ensures within { result ≤ bytes }
{
    if at as usize <= bytes { at } else { 0 }
}

/// The one tree as which tokens read.
fn read(alloc: Global, tokens: &[Token], bytes: usize) -> Result<Tree, SketchFault>
    ensures found { IfOk result (IsTreeOf tokens.now) }
    ensures fault { IfErr result (IsFaultOfTokens tokens.now) }
    ensures place { IfErr result (λ fault. IsPlacedIn bytes fault tokens.now) }
{
    match parse(alloc, tokens) {
        Ok(tree) => Ok(tree),
        Err(ParseFault::NoReading { at }) => {
            let at = within(at, bytes);
            Err(refused(ParseFault::NoReading { at }))
        }
        Err(ParseFault::TooManyStrings { at }) => {
            let at = within(at, bytes);
            Err(refused(ParseFault::TooManyStrings { at }))
        }
        Err(ParseFault::BadAlternative { at }) => {
            let at = within(at, bytes);
            Err(refused(ParseFault::BadAlternative { at }))
        }
        Err(ParseFault::Memory) => Err(SketchFault::Memory),
    }
}

/// The same fault, with its place where that lies within so many bytes, and else with none.
fn placed(fault: TypeFault, bytes: usize) -> TypeFault
    ensures place { (result.span ≡ fault.span) ⊎ (result.span ≡ nowhere) }
    ensures order { result.span.from ≤ result.span.to }
    ensures within { result.span.to ≤ bytes }
{
    let TypeFault { rule, span } = fault;
    if span.from <= span.to && span.to as usize <= bytes {
        return fault;
    }
    TypeFault {
        rule,
        span: Span { from: 0, to: 0 },
    }
}

/// What the tokens of the plain form of a text of so many bytes mean with the options of a line.
#[tactic(auto, using(crate::proofs::Answering::unread))]
pub(crate) fn meaning_of(
    alloc: Global,
    set: &Set,
    tokens: &[Token],
    bytes: usize,
) -> Result<Typed, SketchFault>
    requires { IsInRanges set.now }
    ensures found { IfOk result (IsMeaning set.now tokens.now) }
    ensures fault { IfErr result (λ fault. IsFaultOfPlain set.now fault tokens.now) }
    ensures place { IfErr result (λ fault. IsPlacedIn bytes fault tokens.now) }
{
    let tree = match read(alloc, tokens, bytes) {
        Ok(tree) => tree,
        Err(fault) => return Err(fault),
    };
    let bounds = bounds(set, &tree);
    match check(alloc, &tree, &bounds) {
        Ok(prog) => Ok(Typed { tree, bounds, prog }),
        Err(Typing::Fault(fault)) => Err(SketchFault::NotTyped(placed(fault, bytes))),
        Err(Typing::Memory) => Err(SketchFault::Memory),
    }
}
