// What known clauses force, found through two watched literals of each.
ghost use Rattle.std.specs.Prelude.{◌≡◌, ℕ, ◌<◌, ◌≤◌, length, OnOk, IfOk, IfSome};
ghost use Rattle.sk_clause.specs.Problem.{AreWithin};
ghost use Rattle.sk_sat.specs.Trail.{IsTrail, Extends};
ghost use Rattle.sk_sat.specs.Analysis.{IsFalsified};
ghost use Rattle.sk_sat.specs.declared.watches.Visit.TheVariants.{Falsified};

use crate::activity::Activity;
use crate::blocks::{Blocks, Term};
use crate::codes::{NONE, code_of, is_true, opposite};
use crate::known::Known;
use crate::lists::{Lists, Watch};
use crate::packed::Packed;
use crate::propagate::{Look, look_at};
use crate::trail::Trail;
use sk_clause::Lit;
use std::alloc::{AllocError, Global};

/// Whether a clause watches.
#[derive(Clone, Copy, Drop)]
enum Use {
    /// It was added, and always does.
    Added,
    /// It is a resolvent that stands for eliminated clauses, and always does.
    Resolvent,
    /// It was learnt, and does until it rests.
    Learnt,
    /// It was added, and does not before its eliminated variable is back.
    Asleep,
    /// The same of a resolvent.
    Waiting,
    /// It never does again.
    Over,
}

impl Use {
    // Whether a clause watches, if it does not rest.
    fn is_awake(self) -> bool {
        matches!(self, Use::Added | Use::Resolvent | Use::Learnt)
    }

    // Whether an elimination has to do with the clause: the others follow from those.
    fn is_counted(self) -> bool {
        matches!(self, Use::Added | Use::Resolvent)
    }

    // The use of a clause with an eliminated variable.
    fn put_out(self) -> Use {
        match self {
            Use::Added => Use::Asleep,
            Use::Resolvent => Use::Waiting,
            _ => Use::Over,
        }
    }

    // The use once its eliminated variable is back.
    fn woken(self) -> Use {
        match self {
            Use::Asleep => Use::Added,
            Use::Waiting => Use::Resolvent,
            other => other,
        }
    }
}

/// Where the block of a clause begins, and whether it watches.
#[derive(Clone, Copy, Drop)]
struct Row {
    start: u32,
    used: Use,
}

/// For each literal the watches of it. No contract says that they are right: wrong ones would only make the search
/// slower.
#[derive(Drop)]
pub struct Watches {
    lists: Lists,
    blocks: Blocks,
    rows: Vec<Row>,
    /// So many clauses, from the first on, have their watches.
    ready: usize,
    /// How many clauses have been learnt.
    learnt: u32,
    /// How many literals of the trail have been followed up.
    done: usize,
    /// Of each level the number of the last clause that had a literal of it, where the levels of clauses were counted.
    stamps: Vec<u64>,
    counted: u64,
}

/// What a visit of a clause that watches a false literal came to.
#[derive(Clone, Copy, Debug)]
pub enum Visit {
    /// The clause goes on watching the literal, and this is another literal of it.
    Stays(u32),
    /// It watches it no more.
    Leaves,
    /// Each literal of the clause of this number is false.
    Falsified(usize),
}

// The level of a literal's variable.
fn level_of(level: &[usize], l: Lit) -> usize {
    if l.var < level.len() { level[l.var] } else { 0 }
}

// A deepest literal of a clause, or else the last of them.
fn deepest_of(level: &[usize], clause: &[Packed], other: Lit) -> Lit {
    let mut best = other;
    let mut depth = 0;
    for packed in clause {
        let l = packed.lit();
        let at = level_of(level, l);
        if at >= depth {
            best = l;
            depth = at;
        }
    }
    best
}

// Looks at clause i, of which no other literal is left to watch.
#[tactic(auto, using(crate::proofs::PropagateLemmas::passes))]
fn look(trail: &mut Trail, known: &Known, i: usize, other: u32) -> Result<Visit, AllocError>
    requires trail { IsTrail known.now trail.old }
    requires within { AreWithin (length trail.old.values.items) known.now }
    ensures trail { OnOk result (IsTrail known.now trail.new) }
    ensures extends { OnOk result (Extends trail.old trail.new) }
    ensures falsified { IfOk result (λ seen. (j : ℕ) → seen ≡ Falsified j → IsFalsified known.now trail.new.values.items j) }
{
    if i >= known.len() {
        return Ok(Visit::Leaves);
    }
    match look_at(trail, known, i)? {
        Look::Falsified => Ok(Visit::Falsified(i)),
        Look::Forced => Ok(Visit::Stays(other)),
        Look::Settled(_, _) => Ok(Visit::Stays(other)),
    }
}

impl Watches {
    /// No variables, and no watches. It takes no memory.
    pub fn new(alloc: Global) -> Watches {
        Watches {
            lists: Lists::new(alloc),
            blocks: Blocks::new(alloc),
            rows: Vec::new(alloc),
            ready: 0,
            learnt: 0,
            done: 0,
            stamps: Vec::new(alloc),
            counted: 0,
        }
    }

    /// Makes the number of variables at least n.
    pub fn grow(&mut self, n: usize) -> Result<(), AllocError> {
        self.lists.grow(n)?;
        for _ in self.stamps.len()..n {
            self.stamps.push(0)?;
        }
        Ok(())
    }

    /// The trail was cut to so many literals, of which the last may not have been followed up.
    pub fn go_back(&mut self, len: usize) {
        let last = len.saturating_sub(1);
        if self.done > last {
            self.done = last;
        }
    }

    // The number of clauses that have watches.
    fn len(&self) -> usize {
        self.rows.len()
    }

    // Makes the block of the next clause, which watches nothing.
    fn make(&mut self, clause: &[Packed], used: Use, term: Term) -> Result<(), AllocError> {
        let start = self.blocks.push(self.rows.len(), clause, term)?;
        self.rows.push(Row { start, used })?;
        Ok(())
    }

    // The place of a clause's block.
    fn start(&self, i: usize) -> usize {
        if i < self.rows.len() {
            self.rows[i].start as usize
        } else {
            NONE as usize
        }
    }

    // Has a clause watch two literals of it, if they are two. Where it has no others, its watches have its number.
    fn set(&mut self, i: usize, a: Lit, b: Lit) -> Result<(), AllocError> {
        if a.is(b) {
            return Ok(());
        }
        let (a, b) = (code_of(a), code_of(b));
        let start = self.start(i);
        let is_pair = self.blocks.bring(start, a, b);
        let target = if is_pair { i } else { start };
        self.lists.push(a, Watch::new(target, is_pair, b))?;
        self.lists.push(b, Watch::new(target, is_pair, a))?;
        Ok(())
    }

    // Whether a clause has stopped watching. Where it rests, its watches leave the lists when they are next met; the others
    // are gone once all watches are made anew.
    fn is_forgotten(&self, i: usize) -> bool {
        i < self.rows.len()
            && (!self.rows[i].used.is_awake() || self.blocks.is_over(self.start(i), self.learnt))
    }

    // Whether a level is met for the first time since the count began.
    fn is_new(&mut self, level: usize) -> bool {
        if level < self.stamps.len() && self.stamps[level] != self.counted {
            self.stamps[level] = self.counted;
            return true;
        }
        false
    }

    // How many levels the literals have.
    fn glue_of(&mut self, clause: &[Packed], level: &[usize]) -> u32 {
        self.counted = self.counted.saturating_add(1);
        let mut glue: u32 = 0;
        for packed in clause {
            if self.is_new(level_of(level, packed.lit())) {
                glue = glue.saturating_add(1);
            }
        }
        glue
    }

    /// Makes the watches of a clause that was learnt: its last literal, which it forces, and a deepest other one. How
    /// many levels its literals had when it was false.
    pub fn learn(&mut self, clause: &[Packed], level: &[usize]) -> Result<u32, AllocError> {
        let i = self.len();
        self.learnt = self.learnt.saturating_add(1);
        let mut glue = 0;
        if let [front @ .., _] = clause {
            glue = self.glue_of(front, level).saturating_add(1);
        }
        let term = Term::of_learnt(clause.len(), glue, self.learnt);
        self.make(clause, Use::Learnt, term)?;
        self.ready = self.len();
        if let [front @ .., turn] = clause {
            let turn = turn.lit();
            self.set(i, turn, deepest_of(level, front, turn))?;
        }
        Ok(glue)
    }

    /// Makes the watches of a resolvent that was added, which watch nothing yet.
    pub fn resolvent(&mut self, clause: &[Packed]) -> Result<(), AllocError> {
        self.make(clause, Use::Resolvent, Term::always())
    }

    /// Whether an elimination counts a clause: it was added, or is a resolvent, and has no eliminated variable.
    pub fn is_counted(&self, i: usize) -> bool {
        i < self.rows.len() && self.rows[i].used.is_counted()
    }

    /// These clauses have an eliminated variable.
    pub fn put_out(&mut self, clauses: &[usize]) {
        for i in clauses {
            if *i < self.rows.len() {
                self.rows[*i].used = self.rows[*i].used.put_out();
            }
        }
    }

    // Whether a clause has a hidden variable.
    fn is_hidden(&self, i: usize, activity: &Activity) -> bool {
        for code in self.blocks.literals(self.start(i)) {
            if activity.is_hidden((*code / 2) as usize) {
                return true;
            }
        }
        false
    }

    /// Learnt clauses with a hidden variable watch no more.
    pub fn drop_lessons(&mut self, activity: &Activity) {
        for i in 0..self.rows.len() {
            if !self.is_forgotten(i) && !self.is_counted(i) && self.is_hidden(i, activity) {
                self.rows[i].used = Use::Over;
            }
        }
    }

    /// The watches of all clauses are to be made anew.
    pub fn begin_anew(&mut self) {
        self.lists.clear();
        self.ready = 0;
        self.done = 0;
    }

    /// The eliminated variable of a clause is back: it watches again once its watches are made anew.
    pub fn bring_back(&mut self, i: usize) {
        if i < self.rows.len() {
            self.rows[i].used = self.rows[i].used.woken();
        }
    }

    /// The variable of these resolvents is back: they watch no more.
    pub fn retire(&mut self, first: usize, last: usize) {
        for i in first..last {
            if i < self.rows.len() {
                self.rows[i].used = Use::Over;
            }
        }
    }

    // Makes the block of clause i, which watches nothing, if it has none.
    fn open(&mut self, i: usize, clause: &[Packed]) -> Result<(), AllocError> {
        if i < self.rows.len() {
            return Ok(());
        }
        self.make(clause, Use::Added, Term::always())
    }

    // Makes the watches of the clauses that have none yet, and makes literals true that they force. A false one.
    #[tactic(auto, using(crate::proofs::PropagateLemmas::passes))]
    fn take_in(&mut self, trail: &mut Trail, known: &Known) -> Result<Option<usize>, AllocError>
        requires trail { IsTrail known.now trail.old }
        requires within { AreWithin (length trail.old.values.items) known.now }
        ensures trail { OnOk result (IsTrail known.now trail.new) }
        ensures extends { OnOk result (Extends trail.old trail.new) }
        ensures falsified { IfOk result (λ found. IfSome found (IsFalsified known.now trail.new.values.items)) }
    {
        for i in self.ready..known.len() {
            self.open(i, known.get(i))?;
            if self.is_forgotten(i) {
                continue;
            }
            match look_at(trail, known, i)? {
                Look::Falsified => return Ok(Some(i)),
                Look::Forced => {}
                Look::Settled(a, b) => self.set(i, a, b)?,
            }
        }
        self.ready = known.len();
        Ok(None)
    }

    // Deals with the clause whose block is at a place, and which watches a literal that became false.
    #[tactic(auto, using(crate::proofs::PropagateLemmas::passes))]
    fn visit(
        &mut self,
        trail: &mut Trail,
        known: &Known,
        gone: u32,
        watch: Watch,
    ) -> Result<Visit, AllocError>
        requires trail { IsTrail known.now trail.old }
        requires within { AreWithin (length trail.old.values.items) known.now }
        ensures trail { OnOk result (IsTrail known.now trail.new) }
        ensures extends { OnOk result (Extends trail.old trail.new) }
        ensures falsified { IfOk result (λ seen. (i : ℕ) → seen ≡ Falsified i → IsFalsified known.now trail.new.values.items i) }
    {
        let start = watch.target();
        if self.blocks.is_over(start, self.learnt) {
            return Ok(Visit::Leaves);
        }
        let other = self.blocks.turned(start, gone);
        if is_true(&trail.values, other) {
            return Ok(Visit::Stays(other));
        }
        if let Some(code) = self.blocks.replaced(&trail.values, start, other) {
            self.lists.push(code, watch.beside(other))?;
            return Ok(Visit::Leaves);
        }
        self.blocks.renew(start, self.learnt);
        let i = self.blocks.number(start);
        let seen = look(trail, known, i, other)?;
        Ok(seen)
    }

    // Deals with a clause that may have two literals, and watches a literal that became false.
    #[tactic(auto, using(crate::proofs::PropagateLemmas::passes))]
    fn meet(
        &mut self,
        trail: &mut Trail,
        known: &Known,
        gone: u32,
        watch: Watch,
    ) -> Result<Visit, AllocError>
        requires trail { IsTrail known.now trail.old }
        requires within { AreWithin (length trail.old.values.items) known.now }
        ensures trail { OnOk result (IsTrail known.now trail.new) }
        ensures extends { OnOk result (Extends trail.old trail.new) }
        ensures falsified { IfOk result (λ seen. (i : ℕ) → seen ≡ Falsified i → IsFalsified known.now trail.new.values.items i) }
    {
        if is_true(&trail.values, watch.other) {
            return Ok(Visit::Stays(watch.other));
        }
        if watch.is_number() {
            let seen = look(trail, known, watch.target(), watch.other)?;
            return Ok(seen);
        }
        let seen = self.visit(trail, known, gone, watch)?;
        Ok(seen)
    }

    // Deals with the clauses that watch a literal which became false. A false one.
    #[tactic(auto, using(crate::proofs::PropagateLemmas::passes))]
    fn spread(
        &mut self,
        trail: &mut Trail,
        known: &Known,
        gone: u32,
    ) -> Result<Option<usize>, AllocError>
        requires trail { IsTrail known.now trail.old }
        requires within { AreWithin (length trail.old.values.items) known.now }
        ensures trail { OnOk result (IsTrail known.now trail.new) }
        ensures extends { OnOk result (Extends trail.old trail.new) }
        ensures falsified { IfOk result (λ found. IfSome found (IsFalsified known.now trail.new.values.items)) }
    {
        let (start, end) = self.lists.range(gone);
        let mut kept = start;
        for at in start..end {
            let watch = self.lists.get(at);
            match self.meet(trail, known, gone, watch)? {
                Visit::Stays(other) => {
                    self.lists.put(kept, watch.beside(other));
                    kept = kept.saturating_add(1);
                }
                Visit::Leaves => {}
                Visit::Falsified(i) => {
                    self.lists.close(gone, kept, at);
                    return Ok(Some(i));
                }
            }
        }
        self.lists.cut(gone, kept);
        Ok(None)
    }

    /// Makes literals true that clauses force, as far as the watches show it. A clause that is false, if one was found.
    #[tactic(auto, using(crate::proofs::PropagateLemmas::passes))]
    pub fn propagate(
        &mut self,
        trail: &mut Trail,
        known: &Known,
    ) -> Result<Option<usize>, AllocError>
        requires trail { IsTrail known.now trail.old }
        requires within { AreWithin (length trail.old.values.items) known.now }
        ensures trail { OnOk result (IsTrail known.now trail.new) }
        ensures extends { OnOk result (Extends trail.old trail.new) }
        ensures falsified { IfOk result (λ found. IfSome found (IsFalsified known.now trail.new.values.items)) }
    {
        if let Some(i) = self.take_in(trail, known)? {
            return Ok(Some(i));
        }
        let found = self.follow(trail, known)?;
        Ok(found)
    }

    // Follows up the literals of the trail. A false clause.
    #[tactic(auto, using(crate::proofs::PropagateLemmas::passes))]
    fn follow(&mut self, trail: &mut Trail, known: &Known) -> Result<Option<usize>, AllocError>
        requires trail { IsTrail known.now trail.old }
        requires within { AreWithin (length trail.old.values.items) known.now }
        ensures trail { OnOk result (IsTrail known.now trail.new) }
        ensures extends { OnOk result (Extends trail.old trail.new) }
        ensures falsified { IfOk result (λ found. IfSome found (IsFalsified known.now trail.new.values.items)) }
    {
        let mut done = self.done;
        if done >= trail.lits.len() {
            done = trail.lits.len().saturating_sub(1);
        }
        'queue: while done < trail.lits.len() {
            let l = trail.lits[done];
            done += 1;
            let found = self.spread(trail, known, opposite(code_of(l)))?;
            if found.is_some() {
                self.done = done;
                return Ok(found);
            }
        }
        self.done = done;
        Ok(None)
    }
}
