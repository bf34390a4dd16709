// Elimination of variables: once all resolvents on a variable are known, the clauses with it are left out of the search,
// and it gets its value from them at the end.
ghost use Rattle.std.specs.Prelude.{◌≡◌, true, IfOk, OnOk};
ghost use Rattle.sk_clause.specs.Meaning.{IsConsistent};
ghost use Rattle.sk_sat.specs.Elimination.{IsRest, PutsOut, IsResolvent, Gathers};

use crate::activity::Activity;
use crate::codes::{NONE, code_of};
use crate::eliminated::{Eliminated, is_met};
use crate::known::{Known, has};
use crate::lists::{Lists, Watch};
use crate::packed::Packed;
use crate::watches::Watches;
use sk_clause::{ClauseList, Lit};
use std::alloc::{AllocError, Global};

/// A variable with more clauses of one sign stays.
const CLAUSES: usize = 10;

/// A variable with a longer resolvent stays.
const LITERALS: usize = 20;

/// The variables are gone through so many times. Those go whose numbers of clauses of either sign have a small product,
/// each time up to twice as much.
const PASSES: usize = 6;

/// The largest product of the first time.
const FIRST_COST: usize = 4;

// Puts out the literals of a clause but p. Not all, where the negation of one of them stands there too.
#[tactic(auto, using(crate::proofs::GatherLemmas::rests))]
fn put_rest(clause: &[Packed], p: Lit, out: &mut Vec<Lit>) -> Result<bool, AllocError>
    requires { IsConsistent out.old.items }
    ensures put { OnOk result (PutsOut clause.now out.old.items out.new.items) }
    ensures rest { IfOk result (λ b. b ≡ true → IsRest clause.now p out.new.items) }
{
    for packed in clause {
        let l = packed.lit();
        if l.is(p) || has(out, l) {
            continue;
        }
        if l.var == p.var || has(out, l.negate()) {
            return Ok(false);
        }
        out.push(l)?;
    }
    Ok(true)
}

// Puts the resolvent of two clauses on a literal into the list. False where it has a literal beside its negation.
#[tactic(auto, using(crate::proofs::GatherLemmas::resolvents))]
fn resolve(
    known: &Known,
    i: usize,
    j: usize,
    p: Lit,
    out: &mut Vec<Lit>,
) -> Result<bool, AllocError>
    ensures { IfOk result (λ b. b ≡ true → IsResolvent known.now out.new.items) }
{
    out.clear();
    if i >= known.len() || j >= known.len() {
        return Ok(false);
    }
    if !put_rest(known.get(i), p, out)? {
        return Ok(false);
    }
    let whole = put_rest(known.get(j), p.negate(), out)?;
    Ok(whole)
}

// Whether the resolvents of two kinds of clauses on a literal are short, and fewer than the clauses, if there are some.
fn is_cheap(
    known: &Known,
    positive: &[usize],
    negative: &[usize],
    p: Lit,
    out: &mut Vec<Lit>,
) -> Result<bool, AllocError> {
    let clauses = positive.len().saturating_add(negative.len());
    let mut left = clauses.saturating_sub(1);
    for i in positive {
        for j in negative {
            if resolve(known, *i, *j, p, out)? {
                if left == 0 || out.len() > LITERALS {
                    return Ok(false);
                }
                left -= 1;
            }
        }
    }
    Ok(true)
}

// Has each literal of clause i know it.
fn note(lists: &mut Lists, i: usize, clause: &[Packed]) -> Result<(), AllocError> {
    for packed in clause {
        lists.push(packed.code(), Watch::new(i, true, NONE))?;
    }
    Ok(())
}

// Adds the resolvent of two clauses on a literal, if there is one.
#[tactic(auto, using(crate::proofs::GatherLemmas::gathers))]
fn add(
    known: &mut Known,
    fresh: &mut ClauseList,
    watches: &mut Watches,
    lists: &mut Lists,
    i: usize,
    j: usize,
    p: Lit,
    out: &mut Vec<Lit>,
) -> Result<(), AllocError>
    ensures { OnOk result (Gathers known.old known.new fresh.old fresh.new) }
{
    if !resolve(known, i, j, p, out)? {
        return Ok(());
    }
    let number = known.len();
    known.push(out)?;
    fresh.push(out)?;
    watches.resolvent(known.get(number))?;
    note(lists, number, known.get(number))
}

// Adds all resolvents of two kinds of clauses on a literal.
#[tactic(auto, using(crate::proofs::GatherLemmas::gathers))]
fn add_all(
    known: &mut Known,
    fresh: &mut ClauseList,
    watches: &mut Watches,
    lists: &mut Lists,
    positive: &[usize],
    negative: &[usize],
    p: Lit,
    out: &mut Vec<Lit>,
) -> Result<(), AllocError>
    ensures { OnOk result (Gathers known.old known.new fresh.old fresh.new) }
{
    for i in positive {
        for j in negative {
            add(known, fresh, watches, lists, *i, *j, p, out)?;
        }
    }
    Ok(())
}

// Leaves a variable and its clauses out of the search. The clauses of one sign will give its value. Its resolvents are
// the clauses from one number up to another.
fn leave_out(
    watches: &mut Watches,
    activity: &mut Activity,
    eliminated: &mut Eliminated,
    positive: &[usize],
    negative: &[usize],
    p: Lit,
    first: usize,
    last: usize,
) -> Result<(), AllocError> {
    if positive.len() <= negative.len() {
        eliminated.push(p, positive, negative, first, last)?;
    } else {
        eliminated.push(p.negate(), negative, positive, first, last)?;
    }
    watches.put_out(positive);
    watches.put_out(negative);
    activity.hide(p.var);
    Ok(())
}

/// For each literal its clauses, of those that an elimination counts, and those with a variable and with its negation.
#[derive(Drop)]
struct Occurrences {
    lists: Lists,
    positive: Vec<usize>,
    negative: Vec<usize>,
    out: Vec<Lit>,
}

// The clauses of a literal, if they are few.
fn find(
    lists: &Lists,
    watches: &Watches,
    l: Lit,
    found: &mut Vec<usize>,
) -> Result<bool, AllocError> {
    found.clear();
    let (start, end) = lists.range(code_of(l));
    for at in start..end {
        let i = lists.get(at).target();
        if watches.is_counted(i) {
            if found.len() >= CLAUSES {
                return Ok(false);
            }
            found.push(i)?;
        }
    }
    Ok(true)
}

impl Occurrences {
    // Those of the known clauses that have no true literal.
    fn new(
        alloc: Global,
        values: &[Option<bool>],
        known: &Known,
        watches: &Watches,
    ) -> Result<Occurrences, AllocError> {
        let mut lists = Lists::new(alloc);
        lists.grow(values.len())?;
        for i in 0..known.len() {
            if watches.is_counted(i) && !is_met(values, known.get(i)) {
                note(&mut lists, i, known.get(i))?;
            }
        }
        Ok(Occurrences {
            lists,
            positive: Vec::new(alloc),
            negative: Vec::new(alloc),
            out: Vec::new(alloc),
        })
    }

    // Finds the clauses with a literal and with its negation. Whether the product of their numbers is at most this, and
    // their resolvents cost no more than they do.
    fn is_cheap(
        &mut self,
        known: &Known,
        watches: &Watches,
        p: Lit,
        most: usize,
    ) -> Result<bool, AllocError> {
        if !find(&self.lists, watches, p, &mut self.positive)?
            || !find(&self.lists, watches, p.negate(), &mut self.negative)?
            || self.positive.len().saturating_mul(self.negative.len()) > most
        {
            return Ok(false);
        }
        is_cheap(known, &self.positive, &self.negative, p, &mut self.out)
    }
}

// Eliminates the variable of a literal, if that costs little.
#[tactic(auto, using(crate::proofs::GatherLemmas::gathers))]
fn eliminate_one(
    known: &mut Known,
    fresh: &mut ClauseList,
    watches: &mut Watches,
    activity: &mut Activity,
    eliminated: &mut Eliminated,
    found: &mut Occurrences,
    p: Lit,
    most: usize,
) -> Result<(), AllocError>
    ensures { OnOk result (Gathers known.old known.new fresh.old fresh.new) }
{
    if !found.is_cheap(known, watches, p, most)? {
        return Ok(());
    }
    let first = known.len();
    add_all(
        known,
        fresh,
        watches,
        &mut found.lists,
        &found.positive,
        &found.negative,
        p,
        &mut found.out,
    )?;
    leave_out(
        watches,
        activity,
        eliminated,
        &found.positive,
        &found.negative,
        p,
        first,
        known.len(),
    )
}

// Goes through the variables once.
#[tactic(auto, using(crate::proofs::GatherLemmas::gathers))]
fn pass(
    values: &[Option<bool>],
    known: &mut Known,
    fresh: &mut ClauseList,
    watches: &mut Watches,
    activity: &mut Activity,
    eliminated: &mut Eliminated,
    found: &mut Occurrences,
    most: usize,
) -> Result<(), AllocError>
    ensures { OnOk result (Gathers known.old known.new fresh.old fresh.new) }
{
    for var in 0..values.len() {
        if values[var].is_none() && !activity.is_fixed(var) {
            let p = Lit { var, neg: false };
            eliminate_one(known, fresh, watches, activity, eliminated, found, p, most)?;
        }
    }
    Ok(())
}

/// Eliminates variables with no value where that costs little, and adds their resolvents to both lists. No level may be
/// open. The watches are to be made anew, as far as clauses are left.
#[tactic(auto, using(crate::proofs::GatherLemmas::gathers))]
pub fn eliminate(
    alloc: Global,
    values: &[Option<bool>],
    known: &mut Known,
    fresh: &mut ClauseList,
    watches: &mut Watches,
    activity: &mut Activity,
    eliminated: &mut Eliminated,
) -> Result<(), AllocError>
    ensures { OnOk result (Gathers known.old known.new fresh.old fresh.new) }
{
    let mut found = Occurrences::new(alloc, values, known, watches)?;
    let mut most = FIRST_COST;
    for _ in 0..PASSES {
        pass(
            values, known, fresh, watches, activity, eliminated, &mut found, most,
        )?;
        most = most.saturating_mul(2);
    }
    watches.drop_lessons(activity);
    watches.begin_anew();
    eliminated.finish();
    Ok(())
}
