//! What a line `exec` does for a text.

ghost use Rattle.std.specs.Prelude.{ℕ, ◌≤◌, List, length, IfOk, IfErr, MatchResult, IsTrue, ◌↔◌};
ghost use Rattle.sk_model.specs.declared.outcome.Outcome.{Outcome};
ghost use Rattle.sk_opts.specs.Ranges.{IsInRanges, AreInRanges};
ghost use Rattle.sk_front.specs.Texts.{most_bytes};
ghost use Rattle.sk_front.specs.declared.fault.SketchFault.{SketchFault};
ghost use Rattle.sk_front.specs.Front.{IsFaultOfExpansion, IsPlacedFault, IsCause, IsToldAs, IsMemory};
ghost use Rattle.sk_exec.specs.declared.fault.ExecFault.{ExecFault};
ghost use Rattle.sk_exec.specs.Direct.{IsFilled, IsCalled, IsAnswer, IsNotRun, IsRunText, IsExecuted, IsRefusedAs, IsRunAs};

use crate::fault::ExecFault;
use crate::names::{callee_of, is_ordinary};
use sk_base::{Bounds, Name};
use sk_exec_values::{ArgumentFault, read_arguments, run_text};
use sk_front::{SketchFault, expansion_of};
use sk_interp::exec;
use sk_model::{Expanded, Outcome};
use sk_opts::Set;
use sk_prog::{Fun, FunId, Prog};
use std::alloc::{AllocError, Global};

/// What a text comes to with a line `exec`.
#[derive(Drop)]
pub enum Executed {
    /// No function is run, for this reason.
    NotRun(ExecFault),
    /// How the run ends, and what is written of it.
    Run { outcome: Outcome, out: Vec<u8> },
}

/// Whether a function can be run: nothing of the expansion is open, and it is no generator.
fn is_filled(expanded: &Expanded, fun: &Fun) -> bool
    ensures { IsTrue result ↔ IsFilled expanded.now fun.now }
{
    expanded.sites.is_empty() && is_ordinary(fun)
}

/// Runs a function, which has this number in the expansion, on the arguments that words spell.
fn called(
    alloc: Global,
    bounds: &Bounds,
    expanded: &Expanded,
    f: FunId,
    fun: &Fun,
    words: &[Name],
) -> Result<Executed, AllocError>
    requires { AreInRanges bounds.now }
    ensures { IfOk result (IsCalled bounds.now expanded.now f fun.now words.now) }
{
    if !is_filled(expanded, fun) {
        return Ok(Executed::NotRun(ExecFault::Unfilled));
    }
    match read_arguments(alloc, bounds, fun, words) {
        Ok(args) => {
            let outcome = exec(alloc, &expanded.prog, f, args.as_slice(), bounds)?;
            let out = run_text(alloc, fun, &outcome)?;
            Ok(Executed::Run { outcome, out })
        }
        Err(ArgumentFault::References) => Ok(Executed::NotRun(ExecFault::References)),
        Err(ArgumentFault::Count) => Ok(Executed::NotRun(ExecFault::Count)),
        Err(ArgumentFault::Value { index }) => Ok(Executed::NotRun(ExecFault::Value { index })),
        Err(ArgumentFault::Memory) => Err(AllocError),
    }
}

/// Runs the function of this name of a program with its expansion, or says why none is run.
fn answer(
    alloc: Global,
    bounds: &Bounds,
    prog: &Prog,
    expanded: &Expanded,
    name: &Name,
    words: &[Name],
) -> Result<Executed, AllocError>
    requires { AreInRanges bounds.now }
    ensures { IfOk result (IsAnswer bounds.now prog.now expanded.now name.now words.now) }
{
    let Some(callee) = callee_of(prog, name)? else {
        return Ok(Executed::NotRun(ExecFault::NoFunction));
    };
    let fun = &prog.funs.as_slice()[callee.place];
    let executed = called(alloc, bounds, expanded, callee.id, fun, words)?;
    Ok(executed)
}

/// Runs the function of this name of a text on the values that the words spell, with the options of a line.
///
/// # Errors
///
/// As `expansion_of`. Of a text that expands, `NotRun` says why no function is run.
pub fn execute(
    alloc: Global,
    set: &Set,
    name: &Name,
    words: &[Name],
    text: &[u8],
) -> Result<Executed, SketchFault>
    requires short { length text.now ≤ most_bytes }
    requires set { IsInRanges set.now }
    ensures found { IfOk result (IsExecuted set.now name.now words.now text.now) }
    ensures fault { IfErr result (IsFaultOfExpansion set.now text.now) }
    ensures place { IfErr result (IsPlacedFault text.now) }
    ensures only { (told : SketchFault) → IsCause (IsFaultOfExpansion set.now text.now) told → MatchResult result (λ _. ⊥) (IsToldAs told) }
    ensures not_run { (reason : ExecFault) → IsNotRun set.now name.now words.now text.now reason → MatchResult result (IsRefusedAs reason) IsMemory }
    ensures run { (outcome : Outcome) (out : List ℕ) → IsRunText set.now name.now words.now text.now outcome out → MatchResult result (IsRunAs outcome out) IsMemory }
{
    let it = match expansion_of(alloc, set, text) {
        Ok(it) => it,
        Err(fault) => return Err(fault),
    };
    match answer(alloc, &it.bounds, &it.prog, &it.expanded, name, words) {
        Ok(executed) => Ok(executed),
        Err(_) => Err(SketchFault::Memory),
    }
}
