// The clauses as the watches read them, each in one block of memory.
ghost use Rattle.std.specs.Prelude.{◌≤◌, length};

use crate::codes::{NONE, is_false, place_of};
use crate::packed::Packed;
use std::alloc::{AllocError, Global};

/// So many numbers of a block are its head.
const HEAD: usize = 4;

/// The place in a block of the number that a use of its clause changes.
const UNTIL: usize = 2;

/// Learnt clauses of so many literals always watch.
const SHORT: usize = 3;

/// Learnt clauses whose literals had so many levels always watch.
const CLOSE: u32 = 2;

/// Learnt clauses whose literals had so many levels rest late.
const NEAR: u32 = 6;

/// A learnt clause whose literals had few levels stops watching when so many more were learnt since it was of use. It
/// stays in the list of clauses, and can be a reason.
const LATE: u32 = 10_000;

/// The same of other learnt clauses.
const EARLY: u32 = 1000;

/// How long a clause watches.
#[derive(Clone, Copy, Drop)]
pub struct Term {
    /// Until more than so many clauses have been learnt.
    until: u32,
    /// Each use puts that off, until so many more were learnt; 0 where it always watches.
    more: u32,
}

impl Term {
    /// That of a clause which always watches.
    pub fn always() -> Term {
        Term {
            until: NONE,
            more: 0,
        }
    }

    /// That of a clause which has just been learnt.
    pub fn of_learnt(len: usize, glue: u32, now: u32) -> Term {
        if len <= SHORT || glue <= CLOSE {
            return Term::always();
        }
        let more = if glue <= NEAR { LATE } else { EARLY };
        Term {
            until: now.saturating_add(more),
            more,
        }
    }
}

/// What stands at the head of a block.
#[derive(Clone, Copy, Drop)]
struct Head {
    /// The number of the clause.
    number: u32,
    /// Where the block ends.
    end: u32,
    term: Term,
}

/// The blocks of the clauses, one behind another: in each its head, and then the literals, the watched ones
/// first. No contract says that they are right: wrong ones would only make the search slower.
#[derive(Drop)]
pub struct Blocks {
    numbers: Vec<u32>,
}

// Puts a literal that is not false into the second place, if there is one that is not watched.
fn replace(codes: &mut [u32], values: &[Option<bool>], other: u32) -> Option<u32> {
    for p in 2..codes.len() {
        let code = codes[p];
        if !is_false(values, code) && code != other {
            codes.swap(p, 1);
            return Some(code);
        }
    }
    None
}

// Brings a watched literal to the second place. The other watched one.
fn turn_over(codes: &mut [u32], gone: u32) -> u32 {
    if codes.len() < 2 {
        return NONE;
    }
    if codes[0] == gone {
        codes.swap(0, 1);
    }
    codes[0]
}

// Brings a literal to a place.
fn bring(codes: &mut [u32], code: u32, place: usize) {
    for p in place..codes.len() {
        if codes[p] == code {
            codes.swap(p, place);
            return;
        }
    }
}

impl Blocks {
    /// None. It takes no memory.
    pub fn new(alloc: Global) -> Blocks {
        Blocks {
            numbers: Vec::new(alloc),
        }
    }

    /// Makes the block of clause i. Its place.
    pub fn push(&mut self, i: usize, clause: &[Packed], term: Term) -> Result<u32, AllocError> {
        let start = self.numbers.len();
        let end = start.saturating_add(HEAD).saturating_add(clause.len());
        self.numbers.push(place_of(i))?;
        self.numbers.push(place_of(end))?;
        self.numbers.push(term.until)?;
        self.numbers.push(term.more)?;
        for packed in clause {
            self.numbers.push(packed.code())?;
        }
        Ok(place_of(start))
    }

    // The head of the block at a place.
    fn head(&self, start: usize) -> Head {
        if start < self.numbers.len() {
            if let [number, end, until, more, ..] = &self.numbers[start..] {
                return Head {
                    number: *number,
                    end: *end,
                    term: Term {
                        until: *until,
                        more: *more,
                    },
                };
            }
        }
        Head {
            number: NONE,
            end: 0,
            term: Term::always(),
        }
    }

    // Where the literals of a block begin and end.
    fn range(&self, start: usize) -> (usize, usize)
        ensures order { result.0 ≤ result.1 }
        ensures within { result.1 ≤ length self.now.numbers.items }
    {
        let first = start.saturating_add(HEAD);
        let end = self.head(start).end as usize;
        if first <= end && end <= self.numbers.len() {
            (first, end)
        } else {
            (0, 0)
        }
    }

    // Writes a number to a place.
    fn put(&mut self, place: usize, number: u32) {
        if place < self.numbers.len() {
            self.numbers[place] = number;
        }
    }

    /// The number of a block's clause.
    pub fn number(&self, start: usize) -> usize {
        self.head(start).number as usize
    }

    /// The literals of a block.
    pub fn literals(&self, start: usize) -> &[u32] {
        let (first, end) = self.range(start);
        &self.numbers[first..end]
    }

    /// Whether a clause has stopped watching when so many have been learnt.
    pub fn is_over(&self, start: usize, now: u32) -> bool {
        self.head(start).term.until < now
    }

    /// A clause has been of use when so many have been learnt.
    pub fn renew(&mut self, start: usize, now: u32) {
        let more = self.head(start).term.more;
        if more > 0 {
            self.put(start.saturating_add(UNTIL), now.saturating_add(more));
        }
    }

    /// Brings two literals of a block to the front, to be watched. Whether there are no others.
    pub fn bring(&mut self, start: usize, a: u32, b: u32) -> bool {
        let (first, end) = self.range(start);
        let codes = &mut self.numbers[first..end];
        bring(codes, a, 0);
        bring(codes, b, 1);
        end - first == 2
    }

    /// Brings the watched literal of a block that became false to the second place. The other watched one.
    pub fn turned(&mut self, start: usize, gone: u32) -> u32 {
        let (first, end) = self.range(start);
        turn_over(&mut self.numbers[first..end], gone)
    }

    /// Puts a literal that is not false into the second place of a block, if there is one.
    pub fn replaced(&mut self, values: &[Option<bool>], start: usize, other: u32) -> Option<u32> {
        let (first, end) = self.range(start);
        replace(&mut self.numbers[first..end], values, other)
    }
}
