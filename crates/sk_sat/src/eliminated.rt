// The variables that were eliminated, and what gives their values back.
ghost use Rattle.std.specs.Prelude.{◌≡◌, ◌<◌, length, None, IfSome, slice_index_or};

use crate::activity::{Activity, is_free};
use crate::codes::is_true;
use crate::known::Known;
use crate::packed::Packed;
use crate::watches::Watches;
use sk_clause::Lit;
use std::alloc::{AllocError, Global};

/// So many conflicts, of whichever searches, stand before each elimination of variables.
const WAIT: u64 = 300;

/// A literal of an eliminated variable, which of the clauses kept have it, and which known clauses are its resolvents.
#[derive(Clone, Copy, Drop)]
struct Removed {
    lit: Lit,
    /// Here begin the clauses with the literal, then those with its negation, and here they end.
    start: usize,
    middle: usize,
    end: usize,
    /// The numbers of the first resolvent, and of the first clause behind the last one.
    first: usize,
    last: usize,
}

/// The eliminated variables in the order in which they went. No contract says that their values are right: wrong ones
/// would only make the search slower.
#[derive(Drop)]
pub struct Eliminated {
    removed: Vec<Removed>,
    clauses: Vec<usize>,
    /// So many of them, from the first on, may have no value.
    left: usize,
    /// Whether there are clauses that no elimination has seen.
    grown: bool,
    /// How many conflicts came since the last one.
    passed: u64,
}

/// Whether a clause has a true literal.
pub fn is_met(values: &[Option<bool>], clause: &[Packed]) -> bool {
    for packed in clause {
        if is_true(values, packed.code()) {
            return true;
        }
    }
    false
}

// Whether there is a clause of number i that has no true literal.
fn is_unmet(values: &[Option<bool>], known: &Known, i: usize) -> bool {
    i < known.len() && !is_met(values, known.get(i))
}

// The variables of a known clause are hidden no more.
fn show(activity: &mut Activity, clause: &[Packed]) {
    for packed in clause {
        activity.show(packed.lit().var);
    }
}

impl Eliminated {
    /// None. It takes no memory.
    pub fn new(alloc: Global) -> Eliminated {
        Eliminated {
            removed: Vec::new(alloc),
            clauses: Vec::new(alloc),
            left: 0,
            grown: true,
            passed: 0,
        }
    }

    /// Counts a conflict. Whether it is time for an elimination.
    pub fn count(&mut self) -> bool {
        self.passed = self.passed.saturating_add(1);
        self.grown && self.passed >= WAIT
    }

    /// There are clauses that no elimination has seen.
    pub fn expect(&mut self) {
        self.grown = true;
    }

    /// An elimination has seen all clauses.
    pub fn finish(&mut self) {
        self.grown = false;
        self.passed = 0;
        self.rewind();
    }

    // Puts clauses behind those kept.
    fn extend(&mut self, clauses: &[usize]) -> Result<(), AllocError> {
        for i in clauses {
            self.clauses.push(*i)?;
        }
        Ok(())
    }

    /// Takes a variable: a literal of it, the clauses that have it, those that have its negation, and the numbers of its
    /// first resolvent and of the first clause behind the last one.
    pub fn push(
        &mut self,
        lit: Lit,
        clauses: &[usize],
        others: &[usize],
        first: usize,
        last: usize,
    ) -> Result<(), AllocError> {
        let start = self.clauses.len();
        self.extend(clauses)?;
        let middle = self.clauses.len();
        self.extend(others)?;
        self.removed.push(Removed {
            lit,
            start,
            middle,
            end: self.clauses.len(),
            first,
            last,
        })?;
        Ok(())
    }

    // Moves the clauses of a variable down to a place. Where they end there.
    fn shift(&mut self, removed: Removed, start: usize) -> usize {
        let mut end = start;
        for p in removed.start..removed.end {
            if p < self.clauses.len() && end < self.clauses.len() {
                self.clauses[end] = self.clauses[p];
                end += 1;
            }
        }
        end
    }

    // Moves a variable and its clauses down to places. Where the clauses end there.
    fn keep(&mut self, removed: Removed, place: usize, start: usize) -> usize {
        let end = self.shift(removed, start);
        if place < self.removed.len() {
            self.removed[place] = Removed {
                start,
                middle: start.saturating_add(removed.middle.saturating_sub(removed.start)),
                end,
                ..removed
            };
        }
        end
    }

    // The clauses of a variable are back, and so are their variables.
    fn bring_back(
        &self,
        removed: Removed,
        known: &Known,
        watches: &mut Watches,
        activity: &mut Activity,
    ) {
        for p in removed.start..removed.end {
            if p < self.clauses.len() && self.clauses[p] < known.len() {
                watches.bring_back(self.clauses[p]);
                show(activity, known.get(self.clauses[p]));
            }
        }
        watches.retire(removed.first, removed.last);
    }

    /// Brings back the variables that are not hidden any more, and each later one that their clauses name. The watches
    /// are to be made anew, if there were some.
    pub fn restore(&mut self, known: &Known, watches: &mut Watches, activity: &mut Activity) {
        let mut kept: usize = 0;
        let mut end = 0;
        for n in 0..self.removed.len() {
            if n >= self.removed.len() {
                break;
            }
            let removed = self.removed[n];
            if activity.is_hidden(removed.lit.var) {
                end = self.keep(removed, kept, end);
                kept = kept.saturating_add(1);
            } else {
                self.bring_back(removed, known, watches, activity);
            }
        }
        if kept < self.removed.len() {
            self.removed.truncate(kept);
            self.clauses.truncate(end);
            watches.begin_anew();
        }
    }

    /// Each of them may have no value.
    pub fn rewind(&mut self) {
        self.left = self.removed.len();
    }

    // The literal of a variable that its clauses want: the one kept where one of them has no true literal, or else its
    // negation.
    fn wanted(&self, removed: Removed, values: &[Option<bool>], known: &Known) -> Lit
        ensures { result.var ≡ removed.lit.var }
    {
        for p in removed.start..removed.middle {
            if p < self.clauses.len() && is_unmet(values, known, self.clauses[p]) {
                return removed.lit;
            }
        }
        removed.lit.negate()
    }

    /// The variable that was eliminated last of those with no value, as the literal that its clauses want.
    pub fn next(&mut self, values: &[Option<bool>], known: &Known) -> Option<Lit>
        ensures { IfSome result (λ l. (l.var < length values.now) × (slice_index_or values.now l.var None ≡ None)) }
    {
        'back: while self.left > 0 {
            self.left -= 1;
            if self.left < self.removed.len() {
                let removed = self.removed[self.left];
                if is_free(values, removed.lit.var) {
                    return Some(self.wanted(removed, values, known));
                }
            }
        }
        None
    }
}
