//! What a line `trace` does for a text.

ghost use Rattle.std.specs.Prelude.{ℕ, ◌≡◌, ◌≤◌, List, length, IfOk, IfErr, MatchResult, IsTrue};
ghost use Rattle.sk_model.specs.declared.outcome.Outcome.{Outcome};
ghost use Rattle.sk_expand_sites.specs.Needs.{HasItsSites, are_narrow};
ghost use Rattle.sk_opts.specs.Ranges.{IsInRanges, AreInRanges};
ghost use Rattle.sk_front.specs.Texts.{most_bytes};
ghost use Rattle.sk_front.specs.declared.fault.SketchFault.{SketchFault};
ghost use Rattle.sk_front.specs.Front.{IsFaultOfExpansion, IsPlacedFault, IsCause, IsToldAs, IsMemory};
ghost use Rattle.sk_trace_text.specs.declared.fault.TraceFault.{TraceFault};
ghost use Rattle.sk_trace_text.specs.Traced.{choice_of, IsRunIn, IsCalled, IsAnswer, IsNotTraced, IsTraceText, IsTraced, IsRefusedAs, IsRunAs};

use crate::fault::TraceFault;
use crate::shown::shown_text;
use sk_base::{Bounds, List, Name};
use sk_exec::{ExecFault, callee_of, is_ordinary};
use sk_exec_values::{ArgumentFault, read_arguments};
use sk_front::{Expansion, SketchFault, expansion_of};
use sk_holes::{FillFault, fill};
use sk_model::{Choice, Expanded, Outcome};
use sk_opts::Set;
use sk_prog::{Fun, FunId, Prog};
use sk_trace::trace;
use std::alloc::{AllocError, Global};

/// What a text comes to with a line `trace`.
#[derive(Drop)]
pub enum Traced {
    /// No function is run, for this reason.
    NotTraced(TraceFault),
    /// How the run ends, and what is written of its steps and of its end.
    Run { outcome: Outcome, out: Vec<u8> },
}

fn not_run(reason: ExecFault) -> Traced
    ensures { result ≡ Traced.NotTraced (TraceFault.NotRun reason) }
{
    Traced::NotTraced(TraceFault::NotRun(reason))
}

/// The choice that a line gives, in which no number stands where the line gives none.
fn choice_of(alloc: Global, holes: &Option<List<u64>>) -> Result<Choice, AllocError>
    ensures { IfOk result (λ choice. choice ≡ choice_of holes.now) }
{
    match holes {
        None => Ok(Choice {
            values: List::new(alloc),
        }),
        Some(numbers) => Ok(Choice {
            values: List::from_slice(alloc, numbers.as_slice())?,
        }),
    }
}

/// Runs a function of a filled program on the arguments that words spell.
fn run_in(
    alloc: Global,
    bounds: &Bounds,
    filled: &Prog,
    f: FunId,
    fun: &Fun,
    words: &[Name],
) -> Result<Traced, AllocError>
    requires { AreInRanges bounds.now }
    ensures { IfOk result (IsRunIn bounds.now filled.now f fun.now words.now) }
{
    match read_arguments(alloc, bounds, fun, words) {
        Ok(args) => {
            let trace = trace(alloc, filled, f, args.as_slice(), bounds)?;
            let out = shown_text(alloc, fun, &trace)?;
            let outcome = trace.outcome;
            Ok(Traced::Run { outcome, out })
        }
        Err(ArgumentFault::References) => Ok(not_run(ExecFault::References)),
        Err(ArgumentFault::Count) => Ok(not_run(ExecFault::Count)),
        Err(ArgumentFault::Value { index }) => Ok(not_run(ExecFault::Value { index })),
        Err(ArgumentFault::Memory) => Err(AllocError),
    }
}

/// Fills the sketch, and runs a function of the filling, which has this number there.
fn called(
    alloc: Global,
    bounds: &Bounds,
    expanded: &Expanded,
    choice: &Choice,
    f: FunId,
    fun: &Fun,
    words: &[Name],
) -> Result<Traced, AllocError>
    requires ranges { AreInRanges bounds.now }
    requires sites { HasItsSites expanded.now }
    requires narrow { IsTrue (are_narrow expanded.now.sites) }
    requires few { length expanded.now.sites ≤ 4294967296 }
    ensures { IfOk result (IsCalled bounds.now expanded.now choice.now f fun.now words.now) }
{
    if !is_ordinary(fun) {
        return Ok(not_run(ExecFault::Unfilled));
    }
    match fill(alloc, expanded, choice) {
        Ok(filled) => {
            let traced = run_in(alloc, bounds, &filled, f, fun, words)?;
            Ok(traced)
        }
        Err(FillFault::Memory) => Err(AllocError),
        Err(reason) => Ok(Traced::NotTraced(TraceFault::NotFilled(reason))),
    }
}

/// Runs the function of this name of a program with its expansion, or says why none is run.
fn answer(
    alloc: Global,
    bounds: &Bounds,
    prog: &Prog,
    expanded: &Expanded,
    choice: &Choice,
    name: &Name,
    words: &[Name],
) -> Result<Traced, AllocError>
    requires ranges { AreInRanges bounds.now }
    requires sites { HasItsSites expanded.now }
    requires narrow { IsTrue (are_narrow expanded.now.sites) }
    requires few { length expanded.now.sites ≤ 4294967296 }
    ensures { IfOk result (IsAnswer bounds.now prog.now expanded.now choice.now name.now words.now) }
{
    let Some(callee) = callee_of(prog, name)? else {
        return Ok(not_run(ExecFault::NoFunction));
    };
    let fun = &prog.funs.as_slice()[callee.place];
    let traced = called(alloc, bounds, expanded, choice, callee.id, fun, words)?;
    Ok(traced)
}

/// The same, of an expansion and the numbers of a line.
fn of_expansion(
    alloc: Global,
    it: &Expansion,
    holes: &Option<List<u64>>,
    name: &Name,
    words: &[Name],
) -> Result<Traced, AllocError>
    requires ranges { AreInRanges it.now.bounds }
    requires sites { HasItsSites it.now.expanded }
    requires narrow { IsTrue (are_narrow it.now.expanded.sites) }
    requires few { length it.now.expanded.sites ≤ 4294967296 }
    ensures { IfOk result (IsAnswer it.now.bounds it.now.prog it.now.expanded (choice_of holes.now) name.now words.now) }
{
    let choice = choice_of(alloc, holes)?;
    let traced = answer(
        alloc,
        &it.bounds,
        &it.prog,
        &it.expanded,
        &choice,
        name,
        words,
    )?;
    Ok(traced)
}

/// Fills the sketch of a text with numbers, or with none, and runs the function of this name of the filling step by step
/// on the values that the words spell, with the options of a line.
///
/// # Errors
///
/// As `expansion_of`. Of a text that expands, `NotTraced` says why no function is run.
pub fn trace_text(
    alloc: Global,
    set: &Set,
    holes: &Option<List<u64>>,
    name: &Name,
    words: &[Name],
    text: &[u8],
) -> Result<Traced, SketchFault>
    requires short { length text.now ≤ most_bytes }
    requires set { IsInRanges set.now }
    ensures found { IfOk result (IsTraced set.now holes.now name.now words.now text.now) }
    ensures fault { IfErr result (IsFaultOfExpansion set.now text.now) }
    ensures place { IfErr result (IsPlacedFault text.now) }
    ensures only { (told : SketchFault) → IsCause (IsFaultOfExpansion set.now text.now) told → MatchResult result (λ _. ⊥) (IsToldAs told) }
    ensures not_traced { (reason : TraceFault) → IsNotTraced set.now holes.now name.now words.now text.now reason → MatchResult result (IsRefusedAs reason) IsMemory }
    ensures run { (outcome : Outcome) (out : List ℕ) → IsTraceText set.now holes.now name.now words.now text.now outcome out → MatchResult result (IsRunAs outcome out) IsMemory }
{
    let it = match expansion_of(alloc, set, text) {
        Ok(it) => it,
        Err(fault) => return Err(fault),
    };
    match of_expansion(alloc, &it, holes, name, words) {
        Ok(traced) => Ok(traced),
        Err(_) => Err(SketchFault::Memory),
    }
}
