//! The words of a call: the options of a line `check`.

ghost use Rattle.std.specs.Prelude.{◌≡◌, ◌∷◌, map, string_bytes, codes, IfOk, IfErr, MatchOption};
ghost use Rattle.sk_opts.specs.declared.line.Set.{Set};
ghost use Rattle.sk_opts.specs.declared.line.Line.TheVariants as line;
ghost use Rattle.sk_opts.specs.Ranges.{IsInRanges};
ghost use Rattle.sk_opts.specs.Told.{IsTold};
ghost use Rattle.sk_check_app.specs.Call.{IsWords, IsToldOfWords};

use sk_opts::{Line, Set, Usage, options};
use std::alloc::{AllocError, Global};

/// These words behind the word `check`.
#[tactic(auto, using(crate::proofs::WordLaws::pushed))]
fn behind_check(alloc: Global, words: &[String]) -> Result<Vec<String>, AllocError>
    ensures { IfOk result (λ all. map string_bytes all.items ≡ codes "check" ∷ map string_bytes words.now) }
{
    let mut all = Vec::new(alloc);
    all.push(String::from_str(alloc, "check")?)?;
    let mut rest = words;
    while let [word, after @ ..] = rest {
        all.push(String::from_str(alloc, word.as_str())?)?;
        rest = after;
    }
    Ok(all)
}

/// The options of a line, where it is a line `check`.
fn options_of(found: Line) -> Option<Set>
    ensures { MatchOption result ((set : Set) → found ≡ line.Check set → ⊥) (λ set. found ≡ line.Check set) }
{
    match found {
        Line::Check { set } => Some(set),
        Line::Synth { .. } | Line::Exec { .. } | Line::Trace { .. } | Line::Lower { .. } => None,
        Line::Prune { .. } | Line::All { .. } | Line::Why { .. } => None,
        Line::Itself { .. } => None,
        Line::Help | Line::Version => None,
    }
}

/// The options that the words are.
#[tactic(auto, using(crate::proofs::WordLaws::are_words, crate::proofs::WordLaws::other_words, crate::proofs::WordLaws::in_ranges))]
pub(crate) fn set_of(alloc: Global, words: &[String]) -> Result<Set, Usage>
    ensures found { IfOk result (IsWords (map string_bytes words.now)) }
    ensures usage { IfErr result (IsToldOfWords (map string_bytes words.now)) }
    ensures ranges { IfOk result IsInRanges }
{
    let all = behind_check(alloc, words)?;
    match options(alloc, all.as_slice()) {
        Ok(found) => match options_of(found) {
            Some(set) => Ok(set),
            None => Err(Usage::NotALine),
        },
        Err(Usage::NotALine) => Err(Usage::NotALine),
        Err(Usage::Memory) => Err(Usage::Memory),
    }
}
