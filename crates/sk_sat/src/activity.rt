// How much each variable was met in conflicts, and its signs.
ghost use Rattle.std.specs.Prelude.{◌≡◌, ◌<◌, length, None, true, IfSome, slice_index_or};

use sk_clause::Lit;
use std::alloc::{AllocError, Global};

/// No place in the heap.
const NONE: u32 = u32::MAX;

/// Weights are scaled down where the step passes this.
const LARGEST_STEP: u64 = 1 << 52;

/// The binary digits that weights lose then.
const SCALE: u32 = 32;

/// The step before the first conflict.
const FIRST_STEP: u64 = 1 << 20;

/// Weights and signs of the variables, and a heap of variables with the heaviest first. No contract speaks of
/// them: they only order the decisions. A variable that is not in the heap is found by looking at all.
#[derive(Drop)]
pub struct Activity {
    weights: Vec<u64>,
    negative: Vec<bool>,
    /// The signs in the longest trail without a conflict since they were last taken over, and its length.
    target: Vec<Option<bool>>,
    longest: usize,
    /// Whether decisions take these signs where there are some.
    aims: bool,
    step: u64,
    heap: Vec<u32>,
    /// Of each variable its place in the heap, or `NONE`.
    places: Vec<u32>,
    /// Of each variable whether it is never decided.
    hidden: Vec<bool>,
    /// Of each variable whether it is not to be hidden.
    lasting: Vec<bool>,
}

// A sixteenth more, at least 1.
fn grown(step: u64) -> u64 {
    step.saturating_add(step / 16).saturating_add(1)
}

/// Whether a variable is there and has no value.
pub fn is_free(values: &[Option<bool>], v: usize) -> bool
    ensures { result ≡ true → (v < length values.now) × (slice_index_or values.now v None ≡ None) }
{
    if v >= values.len() {
        return false;
    }
    values[v].is_none()
}

impl Activity {
    /// No variables. It takes no memory.
    pub fn new(alloc: Global) -> Activity {
        Activity {
            weights: Vec::new(alloc),
            negative: Vec::new(alloc),
            target: Vec::new(alloc),
            longest: 0,
            aims: false,
            step: FIRST_STEP,
            heap: Vec::new(alloc),
            places: Vec::new(alloc),
            hidden: Vec::new(alloc),
            lasting: Vec::new(alloc),
        }
    }

    /// Makes the number of variables at least n. The new ones have no weight, and are in the heap.
    pub fn grow(&mut self, n: usize) -> Result<(), AllocError> {
        let first = self.weights.len();
        for _ in first..n {
            self.weights.push(0)?;
            self.negative.push(true)?;
            self.target.push(None)?;
            self.places.push(NONE)?;
            self.hidden.push(false)?;
            self.lasting.push(false)?;
        }
        self.heap.reserve(n.saturating_sub(self.heap.len()))?;
        for v in first..n {
            self.put(v);
        }
        Ok(())
    }

    /// The weight of a variable.
    pub fn weight(&self, v: usize) -> u64 {
        if v < self.weights.len() {
            self.weights[v]
        } else {
            0
        }
    }

    /// Whether a decision makes the variable false.
    pub fn is_negative(&self, v: usize) -> bool {
        if self.aims && v < self.target.len() {
            if let Some(neg) = self.target[v] {
                return neg;
            }
        }
        if v < self.negative.len() {
            self.negative[v]
        } else {
            true
        }
    }

    // The variable at a place of the heap.
    fn at(&self, place: usize) -> u32 {
        if place < self.heap.len() {
            self.heap[place]
        } else {
            NONE
        }
    }

    // Writes a variable to a place of the heap.
    fn set_at(&mut self, place: usize, v: u32) {
        if place < self.heap.len() && place < NONE as usize {
            self.heap[place] = v;
            self.set_place(v, place as u32);
        }
    }

    // The place of a variable.
    fn place(&self, v: usize) -> u32 {
        if v < self.places.len() {
            self.places[v]
        } else {
            NONE
        }
    }

    fn set_place(&mut self, v: u32, place: u32) {
        let v = v as usize;
        if v < self.places.len() {
            self.places[v] = place;
        }
    }

    // Moves the variable at a place up to where none above it is lighter.
    fn rise(&mut self, place: usize) {
        let v = self.at(place);
        let weight = self.weight(v as usize);
        let mut hole = place;
        'up: while hole > 0 {
            let above = (hole - 1) / 2;
            let u = self.at(above);
            if self.weight(u as usize) >= weight {
                break;
            }
            self.set_at(hole, u);
            hole = above;
        }
        self.set_at(hole, v);
    }

    // Of the two places below one the place of the heavier variable.
    fn heavier_below(&self, place: usize) -> usize {
        let left = place.saturating_mul(2).saturating_add(1);
        let right = left.saturating_add(1);
        if right < self.heap.len()
            && self.weight(self.at(left) as usize) < self.weight(self.at(right) as usize)
        {
            right
        } else {
            left
        }
    }

    // Moves the variable at the front down to where none below it is heavier.
    fn sink(&mut self) {
        let v = self.at(0);
        let weight = self.weight(v as usize);
        let mut hole = 0;
        for _ in 0..self.heap.len() {
            let below = self.heavier_below(hole);
            let u = self.at(below);
            if below >= self.heap.len() || self.weight(u as usize) <= weight {
                break;
            }
            self.set_at(hole, u);
            hole = below;
        }
        self.set_at(hole, v);
    }

    /// Whether a variable is hidden.
    pub fn is_hidden(&self, v: usize) -> bool {
        v < self.hidden.len() && self.hidden[v]
    }

    /// A variable leaves the heap when it is met there, and comes into it no more.
    pub fn hide(&mut self, v: usize) {
        if v < self.hidden.len() {
            self.hidden[v] = true;
        }
    }

    /// Whether a variable is hidden, or is not to be hidden.
    pub fn is_fixed(&self, v: usize) -> bool {
        self.is_hidden(v) || v < self.lasting.len() && self.lasting[v]
    }

    /// Added clauses name a variable: where it was hidden, it is hidden no more, and is not to be hidden again.
    pub fn name(&mut self, v: usize) {
        if self.is_hidden(v) {
            self.show(v);
            if v < self.lasting.len() {
                self.lasting[v] = true;
            }
        }
    }

    /// A variable is hidden no more.
    pub fn show(&mut self, v: usize) {
        if v < self.hidden.len() && self.hidden[v] {
            self.hidden[v] = false;
            self.put(v);
        }
    }

    // Puts a variable into the heap, if it is not there or hidden, and there is room.
    fn put(&mut self, v: usize) {
        if v >= NONE as usize || self.place(v) != NONE || self.is_hidden(v) {
            return;
        }
        let place = self.heap.len();
        if self.heap.push(v as u32).is_ok() {
            self.set_at(place, v as u32);
            self.rise(place);
        }
    }

    // Takes the heaviest variable from the heap.
    fn take(&mut self) -> Option<usize> {
        let first = self.at(0);
        let last = self.heap.pop()?;
        self.set_place(first, NONE);
        if !self.heap.is_empty() {
            self.set_at(0, last);
            self.sink();
        }
        Some(first as usize)
    }

    /// The heaviest variable of the heap that has no value. It and those before it leave the heap.
    pub fn take_free(&mut self, values: &[Option<bool>]) -> Option<usize>
        ensures { IfSome result (λ v. (v < length values.now) × (slice_index_or values.now v None ≡ None)) }
    {
        for _ in 0..self.heap.len() {
            let v = self.take()?;
            if is_free(values, v) && !self.is_hidden(v) {
                return Some(v);
            }
        }
        None
    }

    // Takes variables that have values, or are hidden, from the front of the heap.
    fn skip(&mut self, values: &[Option<bool>]) {
        for _ in 0..self.heap.len() {
            let v = self.at(0) as usize;
            if is_free(values, v) && !self.is_hidden(v) || self.take().is_none() {
                return;
            }
        }
    }

    /// How many levels, from the first on, begin with a decision that is heavier than each variable of the heap that has
    /// no value: a search that begins anew would come to them again.
    pub fn levels_kept(&mut self, values: &[Option<bool>], lits: &[Lit], lims: &[usize]) -> usize {
        self.skip(values);
        let least = self.weight(self.at(0) as usize);
        let mut level: usize = 0;
        for begin in lims {
            if *begin >= lits.len() || self.weight(lits[*begin].var) <= least {
                return level;
            }
            level = level.saturating_add(1);
        }
        level
    }

    // Takes over the signs of the longest trail as those of later decisions, and begins to look for a longer one anew.
    fn take_over(&mut self) {
        self.longest = 0;
        for v in 0..self.target.len() {
            if let Some(neg) = self.target[v] {
                if v < self.negative.len() {
                    self.negative[v] = neg;
                }
                self.target[v] = None;
            }
        }
    }

    /// Has decisions take the signs of the longest trail, or the last ones. Where this changes, or where it is wanted,
    /// those of the longest trail become the last ones, and none is the longest.
    pub fn aim(&mut self, aims: bool, anew: bool) {
        if anew || self.aims != aims {
            self.take_over();
        }
        self.aims = aims;
    }

    // The first so many literals were true with no conflict: their signs are kept where there were never more.
    fn note(&mut self, lits: &[Lit], len: usize) {
        if len <= self.longest || len > lits.len() {
            return;
        }
        self.longest = len;
        for i in 0..len {
            let l = lits[i];
            if l.var < self.target.len() {
                self.target[l.var] = Some(l.neg);
            }
        }
    }

    /// The literals from a place on lose their values: their signs are kept for later decisions, and their variables
    /// are in the heap again. There may be a conflict at the last level, but not before.
    pub fn release(&mut self, lits: &[Lit], lims: &[usize], begin: usize) {
        if let [.., last] = lims {
            self.note(lits, *last);
        }
        for i in begin..lits.len() {
            let l = lits[i];
            if l.var < self.negative.len() {
                self.negative[l.var] = l.neg;
            }
            self.put(l.var);
        }
    }

    /// The variable was met in a conflict.
    pub fn bump(&mut self, v: usize) {
        if v < self.weights.len() {
            self.weights[v] = self.weights[v].saturating_add(self.step);
            let place = self.place(v);
            if place != NONE {
                self.rise(place as usize);
            }
        }
    }

    /// A conflict is over: later ones will count for more.
    pub fn end_conflict(&mut self) {
        self.step = grown(self.step);
        if self.step > LARGEST_STEP {
            for w in self.weights.iter_mut() {
                *w = *w >> SCALE;
            }
            self.step = self.step >> SCALE;
        }
    }
}
