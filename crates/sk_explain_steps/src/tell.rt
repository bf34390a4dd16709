//! What is told of the steps of a run.
ghost use Rattle.std.specs.Prelude.{◌≡◌};

use crate::line::{Step, Steps, What, steps_of};
use crate::parts::{push_place, shown};
use crate::target::target;
use crate::tokens::{bytes_of, function_at, is_key, tokens_in, tokens_of};
use sk_base::Span;
use sk_explain_notes::{Command, Note, Told};
use sk_tree::{Key, Token};
use std::alloc::{AllocError, Global};

// A text, and its tokens.
#[derive(Drop, Clone, Copy)]
struct Source<'a> {
    text: &'a [u8],
    tokens: &'a [Token],
}

// Where a step is: the name of its function, and how many calls are active.
#[derive(Drop, Clone, Copy)]
struct Place {
    function: Span,
    active: u32,
}

// Where no step is.
const NOWHERE: Place = Place {
    function: Span { from: 0, to: 0 },
    active: 0,
};

// Where a step is.
fn place_of_step(source: Source<'_>, step: &Step<'_>) -> Place {
    match function_at(source.tokens, step.span.from) {
        Some(function) => Place {
            function,
            active: step.active,
        },
        None => NOWHERE,
    }
}

// A line with the function of a step and how many calls are active, where the step before it is elsewhere.
fn push_function(
    told: &mut Told,
    text: &[u8],
    before: Place,
    place: Place,
) -> Result<(), AllocError>
    ensures { told.new.title ≡ told.old.title }
{
    if before.function.from == place.function.from && before.active == place.active {
        return Ok(());
    }
    told.notes.say(&[b"in ", bytes_of(text, place.function)])?;
    if place.active > 1 {
        told.notes.word(b", ")?;
        told.notes.number(u64::from(place.active))?;
        told.notes.word(b" calls deep")?;
    }
    told.note(&[b":"])
}

// The place to which the statement of a step stores, where it can be shown.
fn target_of<'a>(source: Source<'a>, tokens: &[Token], number: usize) -> Option<&'a [u8]> {
    let of = target(tokens, number)?;
    let span = Span {
        from: of.first()?.span.from,
        to: of.last()?.span.to,
    };
    shown(source.text, span)
}

// Appends what was stored.
fn push_store(
    note: &mut Note,
    source: Source<'_>,
    tokens: &[Token],
    number: usize,
    value: &[u8],
) -> Result<(), AllocError> {
    match target_of(source, tokens, number) {
        Some(place) => note.say(&[place, b" = ", value]),
        None => note.say(&[b"stores ", value]),
    }
}

// Appends that a call is done, or that a function returns.
fn push_go(note: &mut Note, source: Source<'_>, tokens: &[Token]) -> Result<(), AllocError> {
    match tokens.first() {
        Some(first) if is_key(first, Key::Return) => note.word(b"return"),
        Some(first) => note.say(&[bytes_of(source.text, first.span), b" has returned"]),
        None => Ok(()),
    }
}

// Appends the word that a statement begins with.
fn push_key(note: &mut Note, source: Source<'_>, tokens: &[Token]) -> Result<(), AllocError> {
    match tokens.first() {
        Some(first) => note.word(bytes_of(source.text, first.span)),
        None => Ok(()),
    }
}

// Appends what a step did.
fn push_what(note: &mut Note, source: Source<'_>, step: &Step<'_>) -> Result<(), AllocError> {
    let tokens = tokens_in(source.tokens, step.span);
    match step.what {
        What::Store(value) => push_store(note, source, tokens, step.stored, value),
        What::Go => push_go(note, source, tokens),
        What::Truth(truth) => {
            push_key(note, source, tokens)?;
            note.say(&[b" ", truth])
        }
        What::Cost(number) => {
            push_key(note, source, tokens)?;
            note.say(&[b" pays ", number])
        }
    }
}

// A line for a step: its place, and what it did.
fn push_step(told: &mut Told, source: Source<'_>, step: &Step<'_>) -> Result<(), AllocError>
    ensures { told.new.title ≡ told.old.title }
{
    push_place(&mut told.notes, source.text, step.span.from)?;
    told.notes.word(b" ")?;
    push_what(&mut told.notes, source, step)?;
    told.notes.end()
}

// The lines of steps, each behind that of its function where the step before is elsewhere.
fn push_first(told: &mut Told, source: Source<'_>, steps: &[Step<'_>]) -> Result<(), AllocError>
    ensures { told.new.title ≡ told.old.title }
{
    let mut before = NOWHERE;
    for step in steps {
        let place = place_of_step(source, step);
        push_function(told, source.text, before, place)?;
        push_step(told, source, step)?;
        before = place;
    }
    Ok(())
}

// A line with how many steps are not told, where there are some.
fn push_others(told: &mut Told, steps: &Steps<'_>) -> Result<(), AllocError>
    ensures { told.new.title ≡ told.old.title }
{
    if steps.others == 0 {
        return Ok(());
    }
    told.notes.word(b"and ")?;
    if steps.more {
        told.notes.word(b"more than ")?;
    }
    told.notes.number(steps.others as u64)?;
    told.note(&[b" more steps"])
}

// Whether the words are a line `trace`.
fn is_trace(words: &[String]) -> bool {
    match words.first() {
        Some(first) => match Command::of(first.as_bytes()) {
            Some(command) => command == Command::Trace,
            None => false,
        },
        None => false,
    }
}

/// Tells of the answer of a line `trace` each step with its place and its function, 200 at most, and how many more there are.
/// After a refusal title and notes are given up: nothing is told.
pub fn push_steps(
    alloc: Global,
    told: &mut Told,
    words: &[String],
    text: &[u8],
    answer: &[u8],
) -> Result<(), AllocError>
    ensures { told.new.title ≡ told.old.title }
{
    if !is_trace(words) {
        return Ok(());
    }
    let tokens = tokens_of(alloc, text)?;
    let steps = steps_of(alloc, answer)?;
    let source = Source {
        text,
        tokens: tokens.as_slice(),
    };
    push_first(told, source, steps.first.as_slice())?;
    push_others(told, &steps)
}
