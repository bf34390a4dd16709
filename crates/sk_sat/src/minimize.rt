// Literals of a lesson that its other literals force.
ghost use Rattle.std.specs.Prelude.{◌≡◌, ◌≢◌, ◌⊎◌, ◌<◌, ◌++◌, [], List, Bool, true, length, IfOk, OnOk, slice_index_or};
ghost use Rattle.sk_clause.specs.declared.lit.Lit.{Lit};
ghost use Rattle.sk_clause.specs.Values.{Fails};
ghost use Rattle.sk_sat.specs.Trail.{IsTrailOf};
ghost use Rattle.sk_sat.specs.Analysis.{IsKept, IsOnly, IsTurn, AreCovered, IsImplied, level_at, is_open};
ghost use Rattle.sk_sat.specs.Marks.{MarksMore};

use crate::known::Known;
use crate::values::value;
use sk_clause::Lit;
use std::alloc::{AllocError, Global};

/// A chain of reasons is followed up so far.
const DEPTH: usize = 32;

/// The levels of a lesson, and the variables that were found not to be forced by its literals. No contract speaks of
/// them: they only save tries.
#[derive(Drop)]
pub struct Tried {
    levels: Vec<u64>,
    failed: Vec<u64>,
    lesson: u64,
}

// Writes a number to a place.
fn stamp(stamps: &mut [u64], i: usize, lesson: u64) {
    if i < stamps.len() {
        stamps[i] = lesson;
    }
}

// Whether this number stands at a place.
fn is_stamped(stamps: &[u64], i: usize, lesson: u64) -> bool {
    i < stamps.len() && stamps[i] == lesson
}

impl Tried {
    /// Nothing was tried.
    pub fn new(alloc: Global, vars: usize) -> Result<Tried, AllocError> {
        let levels = vec![in alloc; 0; vars]?;
        let failed = vec![in alloc; 0; vars]?;
        Ok(Tried {
            levels,
            failed,
            lesson: 0,
        })
    }

    // Begins a lesson of these literals.
    fn begin(&mut self, level: &[usize], out: &[Lit]) {
        self.lesson = self.lesson.saturating_add(1);
        for l in out {
            if l.var < level.len() {
                stamp(&mut self.levels, level[l.var], self.lesson);
            }
        }
    }

    // Whether there is no use in a try.
    fn is_vain(&self, v: usize, at: usize) -> bool {
        is_stamped(&self.failed, v, self.lesson) || !is_stamped(&self.levels, at, self.lesson)
    }

    // A variable is not forced.
    fn fail(&mut self, v: usize) {
        stamp(&mut self.failed, v, self.lesson);
    }
}

// Whether a false literal has a reason: then it is implied once the reason's other literals are covered.
fn has_reason(
    values: &[Option<bool>],
    level: &[usize],
    reason: &[usize],
    lits: &[Lit],
    lims: &[usize],
    known: &Known,
    l: Lit,
) -> bool
    requires trail { IsTrailOf known.now values.now level.now reason.now lits.now lims.now }
    ensures there { result ≡ true → (l.var < length reason.now) × (slice_index_or reason.now l.var 0 < length known.now) }
    ensures implied { result ≡ true → (kept : List Bool) → AreCovered level.now kept (slice_index_or known.now (slice_index_or reason.now l.var 0) []) l → IsImplied known.now reason.now level.now lits.now kept l }
{
    if l.var >= level.len() || l.var >= reason.len() {
        return false;
    }
    let at = level[l.var];
    if at == 0 || at > lims.len() {
        return false;
    }
    let begin = lims[at - 1];
    if begin >= lits.len() || lits[begin].var == l.var {
        return false;
    }
    reason[l.var] < known.len()
}

// Marks a literal.
#[tactic(auto, using(crate::proofs::MarkLemmas::marking))]
fn mark(
    values: &[Option<bool>],
    level: &[usize],
    reason: &[usize],
    lits: &[Lit],
    known: &Known,
    kept: &mut [bool],
    extra: &mut Vec<Lit>,
    l: Lit,
) -> Result<(), AllocError>
    requires within { l.var < length kept.old }
    requires fails { Fails values.now l }
    requires implied { IsImplied known.now reason.now level.now lits.now kept.old l }
    ensures more { OnOk result (MarksMore known.now values.now reason.now level.now lits.now kept.old extra.old.items kept.new extra.new.items) }
    ensures open { is_open kept.new l ≡ true }
    ensures long { length kept.new ≡ length kept.old }
{
    kept[l.var] = true;
    extra.push(l)?;
    Ok(())
}

// Whether a literal of the reason of l is l's own, of level 0, marked, or forced by marked ones, and then marks it.
#[cycle(forced)]
#[tactic(auto, using(crate::proofs::MarkLemmas::marking))]
fn is_covered(
    values: &[Option<bool>],
    level: &[usize],
    reason: &[usize],
    lits: &[Lit],
    lims: &[usize],
    known: &Known,
    kept: &mut [bool],
    extra: &mut Vec<Lit>,
    tried: &mut Tried,
    fuel: usize,
    l: Lit,
    m: Lit,
) -> Result<bool, AllocError>
    requires trail { IsTrailOf known.now values.now level.now reason.now lits.now lims.now }
    requires long { length kept.old ≡ length values.now }
    ensures more { OnOk result (MarksMore known.now values.now reason.now level.now lits.now kept.old extra.old.items kept.new extra.new.items) }
    ensures long { length kept.new ≡ length kept.old }
    ensures covered { IfOk result (λ b. b ≡ true → m.var ≢ l.var → (level_at level.now m ≡ 0) ⊎ (is_open kept.new m ≡ true)) }
{
    if m.var == l.var {
        return Ok(true);
    }
    if m.var >= level.len() || m.var >= values.len() {
        return Ok(false);
    }
    let at = level[m.var];
    if at == 0 || kept[m.var] {
        return Ok(true);
    }
    if tried.is_vain(m.var, at) {
        return Ok(false);
    }
    if value(values, m) != Some(false) {
        return Ok(false);
    }
    let forced = is_forced(
        values, level, reason, lits, lims, known, kept, extra, tried, fuel, m,
    )?;
    if !forced {
        tried.fail(m.var);
        return Ok(false);
    }
    mark(values, level, reason, lits, known, kept, extra, m)?;
    Ok(true)
}

/// Whether marked literals and those of level 0 force the negation of a false literal, through so many reasons; marks
/// others that they force.
#[cycle(forced)]
#[tactic(auto, using(crate::proofs::MarkLemmas::forcing))]
fn is_forced(
    values: &[Option<bool>],
    level: &[usize],
    reason: &[usize],
    lits: &[Lit],
    lims: &[usize],
    known: &Known,
    kept: &mut [bool],
    extra: &mut Vec<Lit>,
    tried: &mut Tried,
    fuel: usize,
    l: Lit,
) -> Result<bool, AllocError>
    requires trail { IsTrailOf known.now values.now level.now reason.now lits.now lims.now }
    requires long { length kept.old ≡ length values.now }
    ensures more { OnOk result (MarksMore known.now values.now reason.now level.now lits.now kept.old extra.old.items kept.new extra.new.items) }
    ensures long { length kept.new ≡ length kept.old }
    ensures implied { IfOk result (λ b. b ≡ true → IsImplied known.now reason.now level.now lits.now kept.new l) }
{
    if fuel == 0 {
        return Ok(false);
    }
    if !has_reason(values, level, reason, lits, lims, known, l) {
        return Ok(false);
    }
    let clause = known.get(reason[l.var]);
    for packed in clause {
        let covered = is_covered(
            values,
            level,
            reason,
            lits,
            lims,
            known,
            kept,
            extra,
            tried,
            fuel - 1,
            l,
            packed.lit(),
        )?;
        if !covered {
            return Ok(false);
        }
    }
    Ok(true)
}

/// The literals put out but for those that the others force. Marks literals that are forced, which `extra` gets.
#[tactic(auto, using(crate::proofs::ShortenLemmas::trims))]
pub fn trim(
    values: &[Option<bool>],
    level: &[usize],
    reason: &[usize],
    lits: &[Lit],
    lims: &[usize],
    known: &Known,
    kept: &mut [bool],
    out: &[Lit],
    extra: &mut Vec<Lit>,
    tried: &mut Tried,
    slim: &mut Vec<Lit>,
    turn: Lit,
) -> Result<(), AllocError>
    requires trail { IsTrailOf known.now values.now level.now reason.now lits.now lims.now }
    requires kept { IsKept values.now kept.old out.now }
    requires long { length kept.old ≡ length values.now }
    requires turn { IsTurn known.now values.now level.now (length lims.now) out.now turn }
    ensures turn { OnOk result (IsTurn known.now values.now level.now (length lims.now) slim.new.items turn) }
    ensures only { OnOk result (IsOnly kept.new (out.now ++ extra.new.items)) }
{
    slim.clear();
    extra.clear();
    tried.begin(level, out);
    for l in out {
        let forced = is_forced(
            values, level, reason, lits, lims, known, kept, extra, tried, DEPTH, *l,
        )?;
        if forced {
            continue;
        }
        slim.push(*l)?;
    }
    Ok(())
}
