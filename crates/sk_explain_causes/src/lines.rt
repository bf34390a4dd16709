//! What a line asks for.
ghost use Rattle.std.specs.Prelude.{◌≡◌, ◌≤◌, length, map, IfOk, IfSome};
ghost use Rattle.std.specs.String.{string_bytes};
ghost use Rattle.sk_opts.specs.CommandLine.{IsLine};
ghost use Rattle.sk_front.specs.Front.{Expands};
ghost use Rattle.sk_opts.specs.Ranges.{IsInRanges};
ghost use Rattle.sk_explain_causes.specs.Lines.{set_of, lowers};

use sk_front::{Expansion, SketchFault, expansion_of};
use sk_opts::{Line, Set, Usage, options};
use std::alloc::{AllocError, Global};

/// The greatest number of bytes of a text.
const MOST_BYTES: usize = 1_048_576;

/// The line that words are, where they are one.
pub fn line_of(alloc: Global, words: &[String]) -> Result<Option<Line>, AllocError>
    ensures { IfOk result (λ found. IfSome found (IsLine (map string_bytes words.now))) }
{
    match options(alloc, words) {
        Ok(line) => Ok(Some(line)),
        Err(Usage::NotALine) => Ok(None),
        Err(Usage::Memory) => Err(AllocError),
    }
}

/// The bounds that the options of a line give, where it is one that takes a text.
pub fn set_of(line: &Option<Line>) -> Option<Set>
    ensures { result ≡ set_of line.now }
{
    match line {
        Some(Line::Synth { set, .. }) => Some(*set),
        Some(Line::Exec { set, .. } | Line::Trace { set, .. }) => Some(*set),
        Some(Line::Lower { set } | Line::Prune { set }) => Some(*set),
        Some(Line::All { set, .. } | Line::Why { set }) => Some(*set),
        Some(Line::Check { .. } | Line::Itself { .. } | Line::Help | Line::Version) => None,
        None => None,
    }
}

/// Whether a line takes the plain form of a text.
pub fn lowers(line: &Option<Line>) -> bool
    ensures { result ≡ lowers line.now }
{
    match line {
        Some(Line::Lower { .. }) => true,
        Some(Line::Synth { .. } | Line::Exec { .. } | Line::Trace { .. }) => false,
        Some(Line::Prune { .. } | Line::All { .. } | Line::Why { .. }) => false,
        Some(Line::Check { .. } | Line::Itself { .. } | Line::Help | Line::Version) => false,
        None => false,
    }
}

/// What a text expands to with these bounds, where it does.
pub fn expanded(alloc: Global, set: &Set, text: &[u8]) -> Result<Option<Expansion>, AllocError>
    requires { IsInRanges set.now }
    ensures { IfOk result (λ found. IfSome found (Expands set.now text.now)) }
{
    if text.len() > MOST_BYTES {
        return Ok(None);
    }
    match expansion_of(alloc, set, text) {
        Ok(expansion) => Ok(Some(expansion)),
        Err(SketchFault::Memory) => Err(AllocError),
        Err(_) => Ok(None),
    }
}
