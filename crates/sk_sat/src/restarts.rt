// When the search begins anew.
ghost use Rattle.std.specs.Prelude.{◌≡◌, ℕ, ◌+◌, ◌≤◌, List, length, true, false};
ghost use Rattle.sk_clause.specs.declared.lit.Lit.{Lit};
ghost use Rattle.sk_sat.specs.Trail.{IsTrail, effort};

use crate::activity::Activity;
use crate::eliminated::Eliminated;
use crate::trail::Trail;

/// So many restarts at most, so that each search ends.
const TOTAL: u64 = 1 << 32;

/// The unit of the steady times: so many conflicts stand before the first restart.
const UNIT: u64 = 100;

/// In the other times so many conflicts stand between restarts at least.
const LEAST: u64 = 2;

/// The means of glue are kept in parts of a level.
const PARTS: u64 = 1 << 20;

/// So many conflicts count for the mean of the last ones.
const LAST: u64 = 50;

/// So many conflicts count for the mean of all.
const MANY: u64 = 8192;

/// So many conflicts stand before the first steady time.
const FIRST_TURN: u64 = 1000;

/// After so many conflicts the signs of the longest trail are taken over.
const AIM: u64 = 1000;

/// When the search begins anew. The glue of a learnt clause is the number of levels that its literals had. At times a
/// restart comes when the glue of the last clauses is a tenth more than that of all; in between are steady times, where
/// the conflicts between restarts follow Luby's sequence, 1 1 2 1 1 2 4 and so on, times a unit.
#[derive(Drop)]
pub struct Restarts {
    /// How many may still come.
    pub left: u64,
    /// How many have come. No clause speaks of it: a watcher is told.
    pub done: u64,
    /// The conflicts so far, and since the last restart.
    conflicts: u64,
    passed: u64,
    /// The place in the sequence, and its number there.
    place: u64,
    factor: u64,
    /// The mean glue of the last clauses, and of all.
    last: u64,
    all: u64,
    /// Whether this is a steady time, and when the other begins.
    steady: bool,
    turn: u64,
}

// A mean of so many numbers with one more, which takes the place of an average one.
fn mean(before: u64, glue: u64, count: u64) -> u64 {
    let share = if count == 0 { 1 } else { count };
    before
        .saturating_sub(before / share)
        .saturating_add(glue.saturating_mul(PARTS) / share)
}

// The lesser of two numbers.
fn lesser(a: u64, b: u64) -> u64 {
    if a < b { a } else { b }
}

impl Restarts {
    /// None has come.
    pub fn new() -> Restarts {
        Restarts {
            left: TOTAL,
            done: 0,
            conflicts: 0,
            passed: 0,
            place: 1,
            factor: 1,
            last: 0,
            all: 0,
            steady: false,
            turn: FIRST_TURN,
        }
    }

    // The next number of the sequence: it is doubled until it is the largest power of two that divides the place.
    fn advance(&mut self)
        ensures { self.new.left ≡ self.old.left }
    {
        self.passed = 0;
        if self.place & self.place.wrapping_neg() == self.factor {
            self.place = self.place.saturating_add(1);
            self.factor = 1;
        } else {
            self.factor = self.factor.saturating_mul(2);
        }
    }

    // Counts a conflict whose clause has this glue.
    fn note(&mut self, glue: u64)
        ensures { self.new.left ≡ self.old.left }
    {
        self.conflicts = self.conflicts.saturating_add(1);
        self.passed = self.passed.saturating_add(1);
        self.last = mean(self.last, glue, lesser(self.conflicts, LAST));
        self.all = mean(self.all, glue, lesser(self.conflicts, MANY));
    }

    // Begins a steady time, or ends it, where it is time for that: each lasts half as long as all before it.
    fn take_turn(&mut self)
        ensures { self.new.left ≡ self.old.left }
    {
        if self.conflicts >= self.turn {
            self.turn = self.turn.saturating_add(self.turn / 2);
            self.steady = !self.steady;
            self.passed = 0;
            self.place = 1;
            self.factor = 1;
        }
    }

    // Whether the search is to begin anew.
    fn is_due(&self) -> bool {
        if self.steady {
            return self.passed >= self.factor.saturating_mul(UNIT);
        }
        self.passed >= LEAST && self.last > self.all.saturating_add(self.all / 10)
    }

    // Has decisions take the signs of the longest trail in a steady time, and the last ones in the other.
    fn aim(&self, activity: &mut Activity) {
        activity.aim(self.steady, self.conflicts % AIM == 0);
    }

    /// Counts a conflict whose clause has this glue. Whether the search is to begin anew.
    pub fn count(&mut self, glue: u32) -> bool
        ensures due { result ≡ true → self.new.left + 1 ≡ self.old.left }
        ensures same { result ≡ false → self.new.left ≡ self.old.left }
    {
        self.note(glue as u64);
        self.take_turn();
        if self.left == 0 || !self.is_due() {
            return false;
        }
        self.advance();
        self.done = self.done.saturating_add(1);
        self.left -= 1;
        true
    }

    /// Counts a conflict. Whether it is time for an elimination, which takes one of the restarts that may still come.
    pub fn eliminates(&mut self, eliminated: &mut Eliminated) -> bool
        ensures due { result ≡ true → self.new.left + 1 ≡ self.old.left }
        ensures same { result ≡ false → self.new.left ≡ self.old.left }
    {
        if self.left == 0 || !eliminated.count() {
            return false;
        }
        self.left -= 1;
        true
    }
}

// Goes back to the first level whose decision is no heavier than the variable that would be decided first.
fn to_start(trail: &mut Trail, activity: &mut Activity)
    requires { (known : List (List Lit)) × IsTrail known trail.old }
    ensures trail { (known : List (List Lit)) → IsTrail known trail.old → IsTrail known trail.new }
    ensures long { length trail.new.values.items ≡ length trail.old.values.items }
{
    let level = activity.levels_kept(&trail.values, &trail.lits, &trail.lims);
    if level < trail.lims.len() {
        trail.cancel(level, activity);
    }
}

/// Counts a conflict whose clause has this glue, and goes back if the search is to begin anew.
#[tactic(auto, using(crate::proofs::SearchLemmas::restarts))]
pub fn begin_anew(trail: &mut Trail, activity: &mut Activity, restarts: &mut Restarts, glue: u32)
    requires { (known : List (List Lit)) × IsTrail known trail.old }
    ensures trail { (known : List (List Lit)) → IsTrail known trail.old → IsTrail known trail.new }
    ensures long { length trail.new.values.items ≡ length trail.old.values.items }
    ensures less { effort restarts.new.left trail.new ≤ effort restarts.old.left trail.old }
{
    let due = restarts.count(glue);
    restarts.aim(activity);
    if due {
        to_start(trail, activity);
    }
}
