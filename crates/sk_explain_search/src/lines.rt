//! The lines that tell people of a search.
ghost use Rattle.std.specs.Prelude.{◌≡◌, ◌++◌, ◌∷◌, codes, take, IfOk, OnOk};
ghost use Rattle.std.specs.List.{flat_map};
ghost use Rattle.sk_explain_search.specs.Lines.{behind_blank, best_text, better_text, both_text, count_lines, counted_text, finding_lines, number_line, progress_text, seconds_line, seconds_text, shown_text, time_lines, width};

use crate::statistics::Statistics;
use crate::times::Times;
use sk_explain_notes::Note;
use std::alloc::{AllocError, Global};

/// So many bytes of the line that shows that a search goes on are written.
const WIDTH: usize = 79;

/// Brings the cursor to the beginning of its line, and keeps it in this line, also where the terminal is narrower than what follows.
const BEGINS: &[u8] = b"\r\x1b[?7l";

/// Erases what stands behind the cursor in its line, and lets it go on to the next line again.
const ENDS: &[u8] = b"\x1b[K\x1b[?7h";

// Appends a number, and a word behind it.
#[tactic(auto, unfolding(crate::specs::Lines::counted_text))]
fn push_count(note: &mut Note, count: u64, word: &[u8]) -> Result<(), AllocError>
    ensures { OnOk result (note.new.bytes.items ≡ note.old.bytes.items ++ counted_text count word.now) }
{
    note.number(count)?;
    note.word(word)?;
    Ok(())
}

// Appends the value of the last completion, where one was found with a value.
fn push_best(note: &mut Note, best: Option<u64>) -> Result<(), AllocError>
    ensures { OnOk result (note.new.bytes.items ≡ note.old.bytes.items ++ best_text best) }
{
    match best {
        None => Ok(()),
        Some(value) => {
            note.word(b"best value ")?;
            push_count(note, value, b", ")?;
            Ok(())
        }
    }
}

// Appends two numbers, each with a word behind it.
fn push_both(
    note: &mut Note,
    first: u64,
    after: &[u8],
    second: u64,
    behind: &[u8],
) -> Result<(), AllocError>
    ensures { OnOk result (note.new.bytes.items ≡ note.old.bytes.items ++ both_text first after.now second behind.now) }
{
    push_count(note, first, after)?;
    push_count(note, second, behind)?;
    Ok(())
}

// The line that shows that a search goes on, without its end, after so many seconds.
fn progress_line(alloc: Global, statistics: &Statistics, seconds: u64) -> Result<Note, AllocError>
    ensures { IfOk result (λ note. note.bytes.items ≡ progress_text statistics.now seconds) }
{
    let mut note = Note::new(alloc);
    let Statistics {
        rounds,
        inputs,
        conflicts,
        formula,
        ..
    } = *statistics;
    push_both(&mut note, rounds, b" rounds, ", inputs, b" inputs, ")?;
    let clauses = formula.clauses;
    push_both(
        &mut note,
        conflicts,
        b" conflicts, ",
        clauses,
        b" clauses, ",
    )?;
    push_best(&mut note, statistics.best)?;
    push_count(&mut note, seconds, b" s")?;
    Ok(note)
}

// The front of some bytes: so many, or all where there are fewer.
fn front(bytes: &[u8], count: usize) -> &[u8]
    ensures { result.now ≡ take count bytes.now }
{
    if count < bytes.len() {
        &bytes[..count]
    } else {
        bytes
    }
}

// What of such a line is written: its front, where it is long.
fn fitted(line: &[u8]) -> &[u8]
    ensures { result.now ≡ take width line.now }
{
    front(line, WIDTH)
}

// Appends what stands in front of a line, the line, and what stands behind it.
fn push_shown(out: &mut Vec<u8>, line: &[u8]) -> Result<(), AllocError>
    ensures { OnOk result (out.new.items ≡ out.old.items ++ (13 ∷ 27 ∷ codes "[?7l" ++ line.now ++ 27 ∷ codes "[K" ++ 27 ∷ codes "[?7h")) }
{
    out.extend_from_slice(BEGINS)?;
    out.extend_from_slice(line)?;
    out.extend_from_slice(ENDS)?;
    Ok(())
}

/// What is written to a terminal, at once, to show that a search goes on.
pub fn shown_line(
    alloc: Global,
    statistics: &Statistics,
    seconds: u64,
) -> Result<Vec<u8>, AllocError>
    ensures { IfOk result (λ out. out.items ≡ shown_text statistics.now seconds) }
{
    let line = progress_line(alloc, statistics, seconds)?;
    let mut out = Vec::new(alloc);
    push_shown(&mut out, fitted(line.as_bytes()))?;
    Ok(out)
}

// Appends each number behind a blank.
fn push_holes(note: &mut Note, holes: &[u64]) -> Result<(), AllocError>
    ensures { OnOk result (note.new.bytes.items ≡ note.old.bytes.items ++ flat_map behind_blank holes.now) }
{
    let mut rest = holes;
    while let [hole, others @ ..] = rest {
        note.word(b" ")?;
        note.number(*hole)?;
        rest = others;
    }
    Ok(())
}

/// The line of a completion that was found with a value.
pub fn better_line(alloc: Global, value: u64, holes: &[u64]) -> Result<Note, AllocError>
    ensures { IfOk result (λ note. note.bytes.items ≡ better_text value holes.now) }
{
    let mut note = Note::new(alloc);
    note.word(b"best so far: value ")?;
    push_count(&mut note, value, b", holes")?;
    push_holes(&mut note, holes)?;
    note.end()?;
    Ok(note)
}

// Appends the line of a number with a name.
fn push_number(note: &mut Note, name: &[u8], number: u64) -> Result<(), AllocError>
    ensures { OnOk result (note.new.bytes.items ≡ note.old.bytes.items ++ number_line name.now number) }
{
    note.word(name)?;
    note.word(b": ")?;
    note.number(number)?;
    note.end()?;
    Ok(())
}

/// Appends how often a choice was looked for, and how many inputs were found.
pub fn push_findings(note: &mut Note, statistics: &Statistics) -> Result<(), AllocError>
    ensures { OnOk result (note.new.bytes.items ≡ note.old.bytes.items ++ finding_lines statistics.now) }
{
    push_number(note, b"rounds", statistics.rounds)?;
    push_number(note, b"inputs", statistics.inputs)?;
    Ok(())
}

/// Appends the sizes of the largest graph and of the largest formula, and what the solver did.
pub fn push_counts(note: &mut Note, statistics: &Statistics) -> Result<(), AllocError>
    ensures { OnOk result (note.new.bytes.items ≡ note.old.bytes.items ++ count_lines statistics.now) }
{
    push_number(note, b"nodes", statistics.nodes)?;
    push_number(note, b"variables", statistics.largest.variables)?;
    push_number(note, b"clauses", statistics.largest.clauses)?;
    push_number(note, b"conflicts", statistics.conflicts)?;
    push_number(note, b"restarts", statistics.restarts)?;
    Ok(())
}

// Appends milliseconds as seconds.
fn push_seconds(note: &mut Note, time: u64) -> Result<(), AllocError>
    ensures { OnOk result (note.new.bytes.items ≡ note.old.bytes.items ++ seconds_text time) }
{
    note.number(time / 1000)?;
    note.word(b".")?;
    note.number(time / 100 % 10)?;
    note.number(time / 10 % 10)?;
    note.number(time % 10)?;
    Ok(())
}

// Appends the line of a time with a name.
#[tactic(auto, unfolding(crate::specs::Lines::seconds_line))]
fn push_time(note: &mut Note, name: &[u8], time: u64) -> Result<(), AllocError>
    ensures { OnOk result (note.new.bytes.items ≡ note.old.bytes.items ++ seconds_line name.now time) }
{
    note.word(b"seconds ")?;
    note.word(name)?;
    note.word(b": ")?;
    push_seconds(note, time)?;
    note.end()?;
    Ok(())
}

/// Appends how long the parts of a search took, and all together.
pub fn push_times(note: &mut Note, times: &Times) -> Result<(), AllocError>
    ensures { OnOk result (note.new.bytes.items ≡ note.old.bytes.items ++ time_lines times.now) }
{
    push_time(note, b"before the search", times.before)?;
    push_time(note, b"of looking for choices", times.proposing)?;
    push_time(note, b"of looking for inputs", times.countering)?;
    push_time(note, b"of proofs", times.proving)?;
    push_time(note, b"in all", times.at)?;
    Ok(())
}
