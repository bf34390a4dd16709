// What known clauses force, found through two watched literals of each.
ghost use Rattle.std.specs.Prelude.{◌≡◌, ℕ, ◌<◌, ◌≤◌, length, true, OnOk, IfOk};
ghost use Rattle.sk_clause.specs.Problem.{AreWithin};
ghost use Rattle.sk_rup.specs.Steps.{Covers, Steps};
ghost use Rattle.sk_rup.specs.Visit.{IsVisit, IsSpread};

use crate::codes::{NONE, code_of, is_false, is_true, opposite, place_of};
use crate::lists::{Lists, Watch};
use crate::look::{Look, look_at};
use crate::packed::Packed;
use crate::store::Store;
use crate::trail::Trail;
use sk_clause::Lit;
use std::alloc::{AllocError, Global};

/// A clause rests once so many more were taken in since it was of use, and a share of all.
const LONGEST_USE: u32 = 500;

/// The share of all is one of so many.
const SHARES: u32 = 32;

/// Those that are to rest are looked for each time that so many more were taken in, and a share of all.
const PAUSE: u32 = 250;

/// The share of all is one of so many.
const PAUSE_SHARES: u32 = 64;

/// Clauses of so many literals never rest.
const SHORT: usize = 4;

/// Before the literals of a clause stand numbers. The first is its own.
const NUMBER: usize = 0;

/// How many clauses had been taken in when it was last of use.
const LAST: usize = 1;

/// How many literals it has.
const LEN: usize = 2;

/// So many numbers are these.
const HEAD: usize = 3;

/// For each literal the watches of it. A clause that has long been of no use rests: its watches pass into lists of
/// their own, which are followed up only where the others lead to no false clause. No contract says that all this is
/// right: wrong watches would only make the checker slower.
#[derive(Drop)]
pub struct Watches {
    /// Of each literal the watches of clauses that do not rest.
    busy: Lists,
    /// Of each literal the watches of clauses that rest.
    idle: Lists,
    /// The clauses, one behind another: the numbers of each, and its literals, the watched ones first.
    codes: Vec<u32>,
    /// How many clauses have been taken in.
    taken: u32,
    /// How many clauses will have been taken in when those that are to rest are next looked for.
    sweep_at: u32,
    /// How many literals of the trail have been followed up through clauses that do not rest.
    done: usize,
    /// How many have been followed up through those that rest.
    done_idle: usize,
}

/// What a visit of a clause that watches a false literal came to.
#[derive(Clone, Copy, Debug)]
pub enum Visit {
    /// The clause goes on watching the literal, and this is another literal of it.
    Stays(u32),
    /// The same, and the clause rests no more.
    Returns(u32),
    /// It watches it no more.
    Leaves,
    /// Each literal of it is false.
    Falsified,
}

// Puts a literal that is not false into the second place, if there is one that is not watched.
fn replace(codes: &mut [u32], values: &[Option<bool>], other: u32) -> Option<u32> {
    for p in 2..codes.len() {
        let code = codes[p];
        if !is_false(values, code) && code != other {
            codes.swap(p, 1);
            return Some(code);
        }
    }
    None
}

// Brings a watched literal to the second place. The other watched one.
fn turn_over(codes: &mut [u32], gone: u32) -> u32 {
    if codes.len() < 2 {
        return NONE;
    }
    if codes[0] == gone {
        codes.swap(0, 1);
    }
    codes[0]
}

// Brings a literal to a place.
fn bring(codes: &mut [u32], code: u32, place: usize) {
    for p in place..codes.len() {
        if codes[p] == code {
            codes.swap(p, place);
            return;
        }
    }
}

impl Watches {
    /// Lists for so many variables, and no watches.
    pub fn new(alloc: Global, vars: usize) -> Result<Watches, AllocError> {
        let busy = Lists::new(alloc, vars)?;
        let idle = Lists::new(alloc, vars)?;
        Ok(Watches {
            busy,
            idle,
            codes: Vec::new(alloc),
            taken: 0,
            sweep_at: LONGEST_USE,
            done: 0,
            done_idle: 0,
        })
    }

    // A number of a clause that stands at a place.
    fn number(&self, place: usize, which: usize) -> usize {
        let at = place.saturating_add(which);
        if at < self.codes.len() {
            self.codes[at] as usize
        } else {
            0
        }
    }

    // Where the literals of a clause begin and end.
    fn range(&self, place: usize) -> (usize, usize)
        ensures order { result.0 ≤ result.1 }
        ensures within { result.1 ≤ length self.now.codes.items }
    {
        let start = place.saturating_add(HEAD);
        let end = start.saturating_add(self.number(place, LEN));
        if end <= self.codes.len() {
            (start, end)
        } else {
            (0, 0)
        }
    }

    // Whether a clause has long been of no use, and may rest.
    fn is_resting(&self, place: usize) -> bool {
        let last = place_of(self.number(place, LAST));
        let longest = LONGEST_USE.saturating_add(self.taken / SHARES);
        self.number(place, LEN) > SHORT && last.saturating_add(longest) < self.taken
    }

    // A clause has been of use.
    fn renew(&mut self, place: usize) {
        let at = place.saturating_add(LAST);
        if at < self.codes.len() {
            self.codes[at] = self.taken;
        }
    }

    // Has the clauses rest that watch a literal and have long been of no use.
    fn sweep_list(&mut self, code: u32) -> Result<(), AllocError> {
        let (start, end) = self.busy.range(code);
        let mut kept = start;
        for at in start..end {
            let watch = self.busy.get(at);
            if !watch.is_pair() && self.is_resting(watch.place()) {
                self.idle.push(code, watch)?;
            } else {
                self.busy.put(kept, watch);
                kept = kept.saturating_add(1);
            }
        }
        self.busy.cut(code, kept);
        Ok(())
    }

    // Has the clauses rest that have long been of no use, where these were not looked for of late.
    fn sweep(&mut self) -> Result<(), AllocError> {
        if self.taken < self.sweep_at {
            return Ok(());
        }
        let pause = PAUSE.saturating_add(self.taken / PAUSE_SHARES);
        self.sweep_at = self.taken.saturating_add(pause);
        for code in 0..self.busy.codes() {
            self.sweep_list(code)?;
        }
        Ok(())
    }

    // Keeps the literals of clause i, two of which are to stand first. The place of the clause.
    fn keep(&mut self, i: usize, clause: &[Packed], a: u32, b: u32) -> Result<usize, AllocError> {
        let place = self.codes.len();
        self.codes.push(place_of(i))?;
        self.codes.push(self.taken)?;
        self.codes.push(place_of(clause.len()))?;
        for l in clause {
            self.codes.push(code_of(l.lit()))?;
        }
        let (start, end) = self.range(place);
        let codes = &mut self.codes[start..end];
        bring(codes, a, 0);
        bring(codes, b, 1);
        Ok(place)
    }

    /// Has clause i watch two literals of it, if they are two. After a refusal the watches are given up with the checker that
    /// holds them.
    pub fn add(&mut self, i: usize, clause: &[Packed], a: Lit, b: Lit) -> Result<(), AllocError> {
        if a.is(b) {
            return Ok(());
        }
        self.sweep()?;
        self.taken = self.taken.saturating_add(1);
        let (a, b) = (code_of(a), code_of(b));
        let place = self.keep(i, clause, a, b)?;
        let is_pair = clause.len() == 2;
        self.busy.push(a, Watch::new(place, is_pair, b))?;
        self.busy.push(b, Watch::new(place, is_pair, a))?;
        Ok(())
    }

    // Brings the watched literal of a clause that became false to the second place. The other watched one.
    fn turned(&mut self, place: usize, gone: u32) -> u32 {
        let (start, end) = self.range(place);
        turn_over(&mut self.codes[start..end], gone)
    }

    // Puts a literal that is not false into the second place of a clause, if there is one.
    fn replaced(&mut self, values: &[Option<bool>], place: usize, other: u32) -> Option<u32> {
        let (start, end) = self.range(place);
        replace(&mut self.codes[start..end], values, other)
    }

    // The lists of the clauses that rest, or of the others.
    fn lists(&mut self, rests: bool) -> &mut Lists {
        if rests {
            &mut self.idle
        } else {
            &mut self.busy
        }
    }

    // Has a clause watch a literal.
    fn push(&mut self, rests: bool, code: u32, watch: Watch) -> Result<(), AllocError> {
        self.lists(rests).push(code, watch)
    }

    // The watch at a place of the lists.
    fn watch(&self, rests: bool, place: usize) -> Watch {
        if rests {
            self.idle.get(place)
        } else {
            self.busy.get(place)
        }
    }

    // Deals with a clause that watches a literal which became false, where no other literal is there to watch.
    #[tactic(auto, using(crate::proofs::WatchLemmas::visits))]
    fn look(
        &mut self,
        trail: &mut Trail,
        known: &Store,
        place: usize,
        rests: bool,
        other: u32,
    ) -> Result<Visit, AllocError>
        requires covers { Covers trail.old.values.items trail.old.lits.items }
        requires within { AreWithin (length trail.old.values.items) known.now }
        ensures steps { OnOk result (Steps known.now trail.old trail.new) }
        ensures visit { IfOk result (IsVisit known.now trail.new) }
    {
        let i = self.number(place, NUMBER);
        if i >= known.len() {
            return Ok(Visit::Leaves);
        }
        match look_at(trail, known, i)? {
            Look::Falsified => {
                self.renew(place);
                Ok(Visit::Falsified)
            }
            Look::Forced => {
                self.renew(place);
                Ok(if rests {
                    Visit::Returns(other)
                } else {
                    Visit::Stays(other)
                })
            }
            Look::Settled(_, _) => Ok(Visit::Stays(other)),
        }
    }

    // Deals with a clause of more than two literals that watches a literal which became false.
    #[tactic(auto, using(crate::proofs::WatchLemmas::visits))]
    fn visit(
        &mut self,
        trail: &mut Trail,
        known: &Store,
        gone: u32,
        rests: bool,
        watch: Watch,
    ) -> Result<Visit, AllocError>
        requires covers { Covers trail.old.values.items trail.old.lits.items }
        requires within { AreWithin (length trail.old.values.items) known.now }
        ensures steps { OnOk result (Steps known.now trail.old trail.new) }
        ensures visit { IfOk result (IsVisit known.now trail.new) }
    {
        let place = watch.place();
        let other = self.turned(place, gone);
        if is_true(&trail.values, other) {
            return Ok(Visit::Stays(other));
        }
        if let Some(code) = self.replaced(&trail.values, place, other) {
            self.push(rests, code, watch.beside(other))?;
            return Ok(Visit::Leaves);
        }
        let seen = self.look(trail, known, place, rests, other)?;
        Ok(seen)
    }

    // Deals with a clause that watches a literal which became false.
    #[tactic(auto, using(crate::proofs::WatchLemmas::visits))]
    fn meet(
        &mut self,
        trail: &mut Trail,
        known: &Store,
        gone: u32,
        rests: bool,
        watch: Watch,
    ) -> Result<Visit, AllocError>
        requires covers { Covers trail.old.values.items trail.old.lits.items }
        requires within { AreWithin (length trail.old.values.items) known.now }
        ensures steps { OnOk result (Steps known.now trail.old trail.new) }
        ensures visit { IfOk result (IsVisit known.now trail.new) }
    {
        if is_true(&trail.values, watch.other) {
            return Ok(Visit::Stays(watch.other));
        }
        if watch.is_pair() {
            let seen = self.look(trail, known, watch.place(), false, watch.other)?;
            return Ok(seen);
        }
        let seen = self.visit(trail, known, gone, rests, watch)?;
        Ok(seen)
    }

    // Visits the clauses that watch a literal which became false. Whether one of them is false.
    #[tactic(auto, using(crate::proofs::WatchLemmas::spreads))]
    fn spread(
        &mut self,
        trail: &mut Trail,
        known: &Store,
        gone: u32,
        rests: bool,
    ) -> Result<bool, AllocError>
        requires covers { Covers trail.old.values.items trail.old.lits.items }
        requires within { AreWithin (length trail.old.values.items) known.now }
        ensures steps { OnOk result (Steps known.now trail.old trail.new) }
        ensures conflict { IfOk result (IsSpread known.now trail.new) }
    {
        let (start, end) = self.lists(rests).range(gone);
        let mut kept = start;
        for at in start..end {
            let watch = self.watch(rests, at);
            match self.meet(trail, known, gone, rests, watch)? {
                Visit::Stays(other) => {
                    self.lists(rests).put(kept, watch.beside(other));
                    kept = kept.saturating_add(1);
                }
                Visit::Returns(other) => self.push(false, gone, watch.beside(other))?,
                Visit::Leaves => {}
                Visit::Falsified => {
                    self.lists(rests).close(gone, kept, at);
                    return Ok(true);
                }
            }
        }
        self.lists(rests).cut(gone, kept);
        Ok(false)
    }

    /// The trail has been taken back to so many literals, all of which had been followed up.
    pub fn back_to(&mut self, len: usize) {
        self.done = len;
        self.done_idle = len;
    }

    /// Makes literals true that clauses force, as far as the watches show it. Whether a false clause was found. After a
    /// refusal the watches and the trail are given up with the checker that holds them.
    #[tactic(auto, using(crate::proofs::WatchLemmas::spreads))]
    pub fn propagate(&mut self, trail: &mut Trail, known: &Store) -> Result<bool, AllocError>
        requires covers { Covers trail.old.values.items trail.old.lits.items }
        requires within { AreWithin (length trail.old.values.items) known.now }
        ensures steps { OnOk result (Steps known.now trail.old trail.new) }
        ensures conflict { IfOk result (IsSpread known.now trail.new) }
    {
        let mut done = self.done;
        let mut done_idle = self.done_idle;
        'queue: while done < trail.lits.len() || done_idle < trail.lits.len() {
            let rests = done >= trail.lits.len();
            let l = trail.lits[if rests { done_idle } else { done }];
            if rests {
                done_idle += 1;
            } else {
                done += 1;
            }
            if self.spread(trail, known, opposite(code_of(l)), rests)? {
                return Ok(true);
            }
        }
        self.back_to(trail.lits.len());
        Ok(false)
    }
}
