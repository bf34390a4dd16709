//! The line that words spell.
ghost use Rattle.std.specs.Prelude.{◌≡◌, [], ◌∷◌, ℕ, None, map, unwrap_or, IfOk, IfErr, if◌then◌else◌};
ghost use Rattle.std.specs.String.{string_bytes};
ghost use Rattle.sk_opts.specs.Settings.{is_of, number_given, numbers_given, last_of, last_list, of_bounds, of_synth, of_trace};
ghost use Rattle.sk_opts.specs.CommandLine.{set_of, budget_of, IsLine};
ghost use Rattle.sk_opts.specs.Reader.{if_none, synth_line, exec_with, exec_line, trace_with, trace_line, lower_line, prune_line, check_line, all_with, all_line, why_line, self_with, self_line, words_of, line_of};
ghost use Rattle.sk_opts.specs.Ranges.{LineIsInRanges};
ghost use Rattle.sk_opts.specs.Told.{IsTold};
ghost use Rattle.sk_opts.specs.declared.line.Line.{Line};

use crate::line::{Line, Set, Usage};
use crate::number::number_in;
use crate::setting::{Given, GivenValue, Setting, setting_bytes};
use crate::words::{Words, words_of};
use sk_base::{Budget, List, Name};
use std::alloc::{AllocError, Global};

const OF_BOUNDS: [Setting; 5] = [
    Setting::IntBits,
    Setting::HoleBits,
    Setting::InputBits,
    Setting::Turns,
    Setting::Calls,
];

const OF_SYNTH: [Setting; 8] = [
    Setting::Rounds,
    Setting::Conflicts,
    Setting::Certificate,
    Setting::IntBits,
    Setting::HoleBits,
    Setting::InputBits,
    Setting::Turns,
    Setting::Calls,
];

const OF_TRACE: [Setting; 6] = [
    Setting::Holes,
    Setting::IntBits,
    Setting::HoleBits,
    Setting::InputBits,
    Setting::Turns,
    Setting::Calls,
];

fn later(found: Option<u32>, setting: Setting, given: &Given) -> Option<u32>
    ensures { result ≡ (if is_of setting given.now then number_given given.now.value else found) }
{
    if setting_bytes(setting) != setting_bytes(given.setting) {
        return found;
    }
    match given.value {
        GivenValue::Number(number) => Some(number),
        GivenValue::Numbers(_) => None,
    }
}

// The number that is the last value of a setting.
#[tactic(auto, using(crate::proofs::LastValues::last_number))]
fn last_of(setting: Setting, settings: &[Given]) -> Option<u32>
    ensures { result ≡ last_of setting settings.now }
{
    let mut found = None;
    let mut rest = settings;
    while let [given, after @ ..] = rest {
        found = later(found, setting, given);
        rest = after;
    }
    found
}

fn later_list(found: Option<List<u64>>, setting: Setting, given: Given) -> Option<List<u64>>
    ensures { result ≡ (if is_of setting given then numbers_given given.value else found) }
{
    if setting_bytes(setting) != setting_bytes(given.setting) {
        return found;
    }
    match given.value {
        GivenValue::Number(_) => None,
        GivenValue::Numbers(numbers) => Some(numbers),
    }
}

// The list that is the last value of a setting.
#[tactic(auto, using(crate::proofs::LastValues::last_numbers))]
fn last_list(setting: Setting, settings: List<Given>) -> Option<List<u64>>
    ensures { result ≡ last_list setting settings }
{
    let mut found = None;
    let mut rest = settings;
    while !rest.is_empty() {
        let given = rest.remove(0);
        found = later_list(found, setting, given);
    }
    found
}

fn set_of(settings: &[Given]) -> Set
    ensures { result ≡ set_of settings.now }
{
    Set {
        cbits: last_of(Setting::HoleBits, settings),
        inbits: last_of(Setting::InputBits, settings),
        unroll: last_of(Setting::Turns, settings),
        inline_amnt: last_of(Setting::Calls, settings),
        int_bits: last_of(Setting::IntBits, settings),
    }
}

fn or_none(number: Option<u32>) -> u64
    ensures { result ≡ unwrap_or number 0 }
{
    match number {
        Some(number) => number as u64,
        None => 0,
    }
}

fn budget_of(settings: &[Given]) -> Budget
    ensures { result ≡ budget_of settings.now }
{
    Budget {
        rounds: or_none(last_of(Setting::Rounds, settings)),
        conflicts: or_none(last_of(Setting::Conflicts, settings)),
    }
}

// The line, where there are no positionals.
fn if_none(positionals: &[Name], line: Line) -> Option<Line>
    ensures { result ≡ if_none positionals.now line }
{
    match positionals {
        [] => Some(line),
        _ => None,
    }
}

fn synth_line(words: Option<Words>) -> Option<Line>
    ensures { result ≡ synth_line words }
{
    match words {
        None => None,
        Some(words) => {
            let settings = words.settings.as_slice();
            let line = Line::Synth {
                set: set_of(settings),
                budget: budget_of(settings),
                cert: last_of(Setting::Certificate, settings).is_some(),
            };
            if_none(words.positionals.as_slice(), line)
        }
    }
}

fn lower_line(words: Option<Words>) -> Option<Line>
    ensures { result ≡ lower_line words }
{
    match words {
        None => None,
        Some(words) => {
            let line = Line::Lower {
                set: set_of(words.settings.as_slice()),
            };
            if_none(words.positionals.as_slice(), line)
        }
    }
}

fn prune_line(words: Option<Words>) -> Option<Line>
    ensures { result ≡ prune_line words }
{
    match words {
        None => None,
        Some(words) => {
            let line = Line::Prune {
                set: set_of(words.settings.as_slice()),
            };
            if_none(words.positionals.as_slice(), line)
        }
    }
}

fn check_line(words: Option<Words>) -> Option<Line>
    ensures { result ≡ check_line words }
{
    match words {
        None => None,
        Some(words) => {
            let line = Line::Check {
                set: set_of(words.settings.as_slice()),
            };
            if_none(words.positionals.as_slice(), line)
        }
    }
}

fn exec_with(set: Set, positionals: List<Name>) -> Option<Line>
    ensures { result ≡ exec_with set positionals }
{
    let mut values = positionals;
    if values.is_empty() {
        return None;
    }
    let name = values.remove(0);
    Some(Line::Exec { set, name, values })
}

fn exec_line(words: Option<Words>) -> Option<Line>
    ensures { result ≡ exec_line words }
{
    match words {
        None => None,
        Some(words) => {
            let Words {
                settings,
                positionals,
            } = words;
            let set = set_of(settings.as_slice());
            exec_with(set, positionals)
        }
    }
}

fn trace_with(set: Set, holes: Option<List<u64>>, positionals: List<Name>) -> Option<Line>
    ensures { result ≡ trace_with set holes positionals }
{
    let mut values = positionals;
    if values.is_empty() {
        return None;
    }
    let name = values.remove(0);
    Some(Line::Trace {
        set,
        name,
        values,
        holes,
    })
}

fn trace_line(words: Option<Words>) -> Option<Line>
    ensures { result ≡ trace_line words }
{
    match words {
        None => None,
        Some(words) => {
            let Words {
                settings,
                positionals,
            } = words;
            let set = set_of(settings.as_slice());
            let holes = last_list(Setting::Holes, settings);
            trace_with(set, holes, positionals)
        }
    }
}

fn all_with(set: Set, positionals: &[Name]) -> Option<Line>
    ensures { result ≡ all_with set positionals.now }
{
    match positionals {
        [name] => match number_in(1, 100, name.as_bytes()) {
            Some(most) => Some(Line::All { set, most }),
            None => None,
        },
        _ => None,
    }
}

fn all_line(words: Option<Words>) -> Option<Line>
    ensures { result ≡ all_line words }
{
    match words {
        None => None,
        Some(words) => {
            let set = set_of(words.settings.as_slice());
            all_with(set, words.positionals.as_slice())
        }
    }
}

fn why_line(words: Option<Words>) -> Option<Line>
    ensures { result ≡ why_line words }
{
    match words {
        None => None,
        Some(words) => {
            let line = Line::Why {
                set: set_of(words.settings.as_slice()),
            };
            if_none(words.positionals.as_slice(), line)
        }
    }
}

fn self_with(positionals: &[Name]) -> Option<Line>
    ensures { result ≡ self_with positionals.now }
{
    match positionals {
        [name] => match number_in(0, 60, name.as_bytes()) {
            Some(n) => Some(Line::Itself { n }),
            None => None,
        },
        _ => None,
    }
}

fn self_line(words: Option<Words>) -> Option<Line>
    ensures { result ≡ self_line words }
{
    match words {
        None => None,
        Some(words) => self_with(words.positionals.as_slice()),
    }
}

#[tactic(auto, using(crate::proofs::SameLines::synth_same))]
fn synth_of(alloc: Global, words: &[String]) -> Result<Option<Line>, AllocError>
    ensures { IfOk result (λ line. line ≡ synth_line (words_of of_synth (map string_bytes words.now))) }
{
    Ok(synth_line(words_of(alloc, &OF_SYNTH, words)?))
}

#[tactic(auto, using(crate::proofs::SameLines::exec_same))]
fn exec_of(alloc: Global, words: &[String]) -> Result<Option<Line>, AllocError>
    ensures { IfOk result (λ line. line ≡ exec_line (words_of of_bounds (map string_bytes words.now))) }
{
    Ok(exec_line(words_of(alloc, &OF_BOUNDS, words)?))
}

#[tactic(auto, using(crate::proofs::SameLines::trace_same))]
fn trace_of(alloc: Global, words: &[String]) -> Result<Option<Line>, AllocError>
    ensures { IfOk result (λ line. line ≡ trace_line (words_of of_trace (map string_bytes words.now))) }
{
    Ok(trace_line(words_of(alloc, &OF_TRACE, words)?))
}

#[tactic(auto, using(crate::proofs::SameLines::lower_same))]
fn lower_of(alloc: Global, words: &[String]) -> Result<Option<Line>, AllocError>
    ensures { IfOk result (λ line. line ≡ lower_line (words_of of_bounds (map string_bytes words.now))) }
{
    Ok(lower_line(words_of(alloc, &OF_BOUNDS, words)?))
}

#[tactic(auto, using(crate::proofs::SameLines::prune_same))]
fn prune_of(alloc: Global, words: &[String]) -> Result<Option<Line>, AllocError>
    ensures { IfOk result (λ line. line ≡ prune_line (words_of of_bounds (map string_bytes words.now))) }
{
    Ok(prune_line(words_of(alloc, &OF_BOUNDS, words)?))
}

#[tactic(auto, using(crate::proofs::SameLines::check_same))]
fn check_of(alloc: Global, words: &[String]) -> Result<Option<Line>, AllocError>
    ensures { IfOk result (λ line. line ≡ check_line (words_of of_bounds (map string_bytes words.now))) }
{
    Ok(check_line(words_of(alloc, &OF_BOUNDS, words)?))
}

#[tactic(auto, using(crate::proofs::SameLines::all_same))]
fn all_of(alloc: Global, words: &[String]) -> Result<Option<Line>, AllocError>
    ensures { IfOk result (λ line. line ≡ all_line (words_of of_bounds (map string_bytes words.now))) }
{
    Ok(all_line(words_of(alloc, &OF_BOUNDS, words)?))
}

#[tactic(auto, using(crate::proofs::SameLines::why_same))]
fn why_of(alloc: Global, words: &[String]) -> Result<Option<Line>, AllocError>
    ensures { IfOk result (λ line. line ≡ why_line (words_of of_bounds (map string_bytes words.now))) }
{
    Ok(why_line(words_of(alloc, &OF_BOUNDS, words)?))
}

#[tactic(auto, using(crate::proofs::SameLines::self_same))]
fn self_of(alloc: Global, words: &[String]) -> Result<Option<Line>, AllocError>
    ensures { IfOk result (λ line. line ≡ self_line (words_of [] (map string_bytes words.now))) }
{
    Ok(self_line(words_of(alloc, &[], words)?))
}

// A line that is one word alone.
fn alone(words: &[String], line: Line) -> Option<Line>
    ensures { result ≡ if_none (map string_bytes words.now) line }
{
    match words {
        [] => Some(line),
        _ => None,
    }
}

// The line of a command and the words behind it.
#[tactic(auto, unfolding(crate::specs::Reader::line_of))]
fn line_behind(alloc: Global, command: &[u8], words: &[String]) -> Result<Option<Line>, AllocError>
    ensures { IfOk result (λ line. line ≡ line_of (command.now ∷ map string_bytes words.now)) }
{
    if command == b"synth".as_slice() {
        Ok(synth_of(alloc, words)?)
    } else if command == b"exec".as_slice() {
        Ok(exec_of(alloc, words)?)
    } else if command == b"trace".as_slice() {
        Ok(trace_of(alloc, words)?)
    } else if command == b"lower".as_slice() {
        Ok(lower_of(alloc, words)?)
    } else if command == b"prune".as_slice() {
        Ok(prune_of(alloc, words)?)
    } else if command == b"check".as_slice() {
        Ok(check_of(alloc, words)?)
    } else if command == b"all".as_slice() {
        Ok(all_of(alloc, words)?)
    } else if command == b"why".as_slice() {
        Ok(why_of(alloc, words)?)
    } else if command == b"self".as_slice() {
        Ok(self_of(alloc, words)?)
    } else if command == b"--help".as_slice() {
        Ok(alone(words, Line::Help))
    } else if command == b"--version".as_slice() {
        Ok(alone(words, Line::Version))
    } else {
        Ok(None)
    }
}

// The line that the words come to, where they come to one.
#[tactic(auto, unfolding(crate::specs::Reader::line_of))]
fn line_of(alloc: Global, words: &[String]) -> Result<Option<Line>, AllocError>
    ensures { IfOk result (λ line. line ≡ line_of (map string_bytes words.now)) }
{
    match words.split_first() {
        None => Ok(None),
        Some((command, after)) => Ok(line_behind(alloc, command.as_bytes(), after)?),
    }
}

/// The line that the words behind the program's own name spell: they spell no other. `NotALine` comes exactly where they
/// spell none, or in want of memory `Memory`.
pub fn options(alloc: Global, words: &[String]) -> Result<Line, Usage>
    ensures found { IfOk result (IsLine (map string_bytes words.now)) }
    ensures only { IfOk result (λ line. (other : Line) → IsLine (map string_bytes words.now) other → other ≡ line) }
    ensures usage { IfErr result (IsTold (map string_bytes words.now)) }
    // `bounds` takes the set of the line.
    ensures ranges { IfOk result LineIsInRanges }
{
    match line_of(alloc, words) {
        Err(_) => Err(Usage::Memory),
        Ok(found) => match found {
            Some(line) => Ok(line),
            None => Err(Usage::NotALine),
        },
    }
}
