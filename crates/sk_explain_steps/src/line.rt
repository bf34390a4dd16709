//! The lines of an answer that tell a step.
use sk_base::Span;
use std::alloc::{AllocError, Global};

/// So many steps are told.
const MOST_TOLD: usize = 200;

/// What a statement did.
#[derive(Drop, Clone, Copy)]
pub enum What<'a> {
    /// It stored a value, which is spelt so.
    Store(&'a [u8]),
    /// It found its condition to be this.
    Truth(&'a [u8]),
    /// It paid a number, which is spelt so.
    Cost(&'a [u8]),
    /// It made its call, or returns.
    Go,
}

/// A step of a run.
#[derive(Drop, Clone, Copy)]
pub struct Step<'a> {
    /// How many calls are active, from 1.
    pub active: u32,
    /// The statement.
    pub span: Span,
    pub what: What<'a>,
    /// How many values the statement stored directly before.
    pub stored: usize,
}

/// The first steps of an answer, and what is known of the others.
#[derive(Drop)]
pub struct Steps<'a> {
    pub first: Vec<Step<'a>>,
    /// How many others the answer has.
    pub others: usize,
    /// Whether the run had more than the answer has.
    pub more: bool,
}

// What stands in front of the first blank, and what behind it.
fn cut(bytes: &[u8]) -> Option<(&[u8], &[u8])> {
    for (at, byte) in bytes.iter().enumerate() {
        if *byte == b' ' {
            return Some((bytes.get(..at)?, bytes.get(at.saturating_add(1)..)?));
        }
    }
    None
}

// The number that digits spell.
fn number(word: &[u8]) -> Option<u32> {
    let mut value = 0u32;
    for byte in word {
        let digit = match byte {
            b'0'..=b'9' => u32::from(byte - b'0'),
            _ => return None,
        };
        value = value.checked_mul(10)?.checked_add(digit)?;
    }
    Some(value)
}

// What a step did, in the words of its line.
fn what_of(words: &[u8]) -> What<'_> {
    match cut(words) {
        Some((front, value)) if front == b"store".as_slice() => What::Store(value),
        Some((_, value)) => What::Cost(value),
        None if words == b"go".as_slice() => What::Go,
        None => What::Truth(words),
    }
}

// How many values the statement that begins at a byte stored directly behind these steps, where so many calls are active.
fn stored_before(steps: &[Step<'_>], active: u32, byte: u32) -> usize {
    let mut count = 0usize;
    for step in steps.iter().rev() {
        if step.active == active && step.span.from == byte {
            if let What::Store(_) = step.what {
                count = count.saturating_add(1);
            }
        } else if step.active <= active {
            return count;
        }
    }
    count
}

// The step that a line tells behind others, where it tells one.
fn step_of<'a>(before: &[Step<'_>], line: &'a [u8]) -> Option<Step<'a>> {
    let (active, behind) = cut(line)?;
    let (from, behind) = cut(behind)?;
    let (to, words) = cut(behind)?;
    let active = number(active)?;
    let from = number(from)?;
    Some(Step {
        active,
        span: Span {
            from,
            to: number(to)?,
        },
        what: what_of(words),
        stored: stored_before(before, active, from),
    })
}

/// The steps of an answer.
pub fn steps_of(alloc: Global, answer: &[u8]) -> Result<Steps<'_>, AllocError> {
    let mut steps = Steps {
        first: Vec::new(alloc),
        others: 0,
        more: false,
    };
    for line in answer.split(|byte| *byte == b'\n') {
        match step_of(steps.first.as_slice(), line) {
            Some(step) if steps.first.len() < MOST_TOLD => steps.first.push(step)?,
            Some(_) => steps.others = steps.others.saturating_add(1),
            None if line == b"more".as_slice() => steps.more = true,
            None => {}
        }
    }
    Ok(steps)
}
