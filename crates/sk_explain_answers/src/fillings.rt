//! The text of a line as a program, and its filling with zeros.
ghost use Rattle.std.specs.Prelude.{◌≡◌, IfOk, IfSome};
ghost use Rattle.sk_front.specs.Front.{Expands};
ghost use Rattle.sk_opts.specs.Ranges.{IsInRanges, LineIsInRanges};
ghost use Rattle.sk_explain_answers.specs.Fillings.{IsFillable, IsFilling, IsKnown, zeros};

use sk_base::List;
use sk_front::{Expansion, SketchFault, expansion_of};
use sk_holes::{FillFault, fill};
use sk_model::{Choice, Expanded, Site};
use sk_opts::{Line, Set, Usage, options};
use sk_prog::Prog;
use std::alloc::{AllocError, Global};

/// The greatest number of bytes of a text.
const MOST_BYTES: usize = 1_048_576;

// The options of a line that searches.
fn set_of(line: &Line) -> Option<Set>
    requires { LineIsInRanges line.now }
    ensures { IfSome result IsInRanges }
{
    match line {
        Line::Synth { set, .. } | Line::All { set, .. } | Line::Why { set } => Some(*set),
        Line::Exec { .. } | Line::Trace { .. } | Line::Lower { .. } => None,
        Line::Prune { .. } | Line::Check { .. } | Line::Itself { .. } => None,
        Line::Help | Line::Version => None,
    }
}

// What a text expands to with these options, where it does.
fn expanded(alloc: Global, set: &Set, text: &[u8]) -> Result<Option<Expansion>, AllocError>
    requires { IsInRanges set.now }
    ensures { IfOk result (λ found. IfSome found (Expands set.now text.now)) }
{
    if text.len() > MOST_BYTES {
        return Ok(None);
    }
    match expansion_of(alloc, set, text) {
        Ok(expansion) => Ok(Some(expansion)),
        Err(SketchFault::Memory) => Err(AllocError),
        Err(_) => Ok(None),
    }
}

/// What the text of a line that searches expands to.
#[tactic(auto, using(crate::proofs::Fillable::known_is))]
pub fn expansion(
    alloc: Global,
    words: &[String],
    text: &[u8],
) -> Result<Option<Expansion>, AllocError>
    ensures { IfOk result (λ found. IfSome found (IsKnown text.now)) }
{
    match options(alloc, words) {
        Ok(line) => match set_of(&line) {
            Some(set) => expanded(alloc, &set, text),
            None => Ok(None),
        },
        Err(Usage::NotALine) => Ok(None),
        Err(Usage::Memory) => Err(AllocError),
    }
}

// A zero for each site.
fn zeros(alloc: Global, sites: &[Site]) -> Result<Choice, AllocError>
    ensures { IfOk result (λ choice. choice.values ≡ zeros sites.now) }
{
    let mut values = List::new(alloc);
    let mut rest = sites;
    while let [_, others @ ..] = rest {
        values.push(0)?;
        rest = others;
    }
    Ok(Choice { values })
}

/// A program with 0 for each open part. There is none where memory is wanting.
#[tactic(auto, using(crate::proofs::Fillable::filling_is))]
pub fn filling(alloc: Global, expanded: &Expanded) -> Option<Prog>
    requires { IsFillable expanded.now }
    ensures { IfSome result (IsFilling expanded.now) }
{
    let Ok(choice) = zeros(alloc, expanded.sites.as_slice()) else {
        return None;
    };
    match fill(alloc, expanded, &choice) {
        Ok(prog) => Some(prog),
        Err(FillFault::WrongLength | FillFault::OutOfRange { .. } | FillFault::Memory) => None,
    }
}
