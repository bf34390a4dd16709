//! The lines `exec` and `trace`: they run a function of the text of a source.

ghost use Rattle.std.specs.Prelude.{◌≡◌, ◌≤◌, length, IfOk, IfErr};
ghost use Rattle.sk_types_laws.specs.declared.fault.TypeFault.{TypeFault};
ghost use Rattle.sk_opts.specs.Ranges.{IsInRanges};
ghost use Rattle.sk_front.specs.Texts.{most_bytes, HasSpan};
ghost use Rattle.sk_front.specs.Front.{IsFaultOfExpansion, IsPlacedFault};
ghost use Rattle.sk_app.specs.Ends.{ending_of, stopped};
ghost use Rattle.sk_app.specs.Jobs.{as_traced, IsDone};
ghost use Rattle.sk_app.specs.Call.{effect};
ghost use Rattle.sk_app.specs.Effects.{refusal, RunsText, Executes};

use crate::ending::Ending;
use crate::limits::MOST_BYTES;
use crate::output::deliver;
use sk_app_reading::{Reading, read_text};
use sk_base::{List, Name, Sink, Source};
use sk_exec::{Executed, execute};
use sk_front::SketchFault;
use sk_model::Outcome;
use sk_opts::Set;
use sk_trace_text::{TraceFault, Traced, trace_text};
use std::alloc::Global;

/// How a function is run.
#[derive(Debug, Drop)]
pub enum Way {
    /// As the text stands.
    Exec,
    /// Step by step, in the text filled with these numbers, or with none.
    Trace(Option<List<u64>>),
}

/// What a line asks to be run.
#[derive(Debug, Drop)]
pub struct Job {
    /// The name of the function.
    pub name: Name,
    /// The words that spell its arguments.
    pub values: List<Name>,
    pub way: Way,
}

/// The ending of a text that has no expansion within the limits.
pub(crate) fn refusal(fault: SketchFault) -> Ending
    ensures { result ≡ refusal fault }
{
    match fault {
        SketchFault::NotText(fault) => Ending::NotText(fault),
        SketchFault::NotTyped(fault) => Ending::NotTyped(fault),
        SketchFault::TooLarge(reason) => Ending::TooLarge(reason),
        SketchFault::Memory => Ending::Memory,
    }
}

/// The ending of a run whose text is written.
fn ending_of(outcome: &Outcome) -> Ending
    ensures { result ≡ ending_of outcome.now }
{
    match outcome {
        Outcome::Done { .. } => Ending::ExecDone,
        Outcome::Failed { span } => Ending::ExecFailed { span: *span },
        Outcome::Skipped { span } => Ending::ExecSkipped { span: *span },
    }
}

/// The ending of a line that runs no function.
fn stopped(fault: TraceFault) -> Ending
    ensures { result ≡ stopped fault }
{
    match fault {
        TraceFault::NotRun(reason) => Ending::NotRun(reason),
        TraceFault::NotFilled(reason) => Ending::NotFilled(reason),
    }
}

/// What a line `exec` comes to, as a line `trace` tells it.
fn as_traced(executed: Executed) -> Traced
    ensures { result ≡ as_traced executed }
{
    match executed {
        Executed::NotRun(reason) => Traced::NotTraced(TraceFault::NotRun(reason)),
        Executed::Run { outcome, out } => Traced::Run { outcome, out },
    }
}

/// What a job comes to for a text.
fn done(alloc: Global, set: &Set, job: &Job, text: &[u8]) -> Result<Traced, SketchFault>
    requires short { length text.now ≤ most_bytes }
    requires set { IsInRanges set.now }
    ensures found { IfOk result (IsDone set.now job.now text.now) }
    ensures fault { IfErr result (IsFaultOfExpansion set.now text.now) }
    ensures place { IfErr result (IsPlacedFault text.now) }
{
    let values = job.values.as_slice();
    match &job.way {
        Way::Exec => match execute(alloc, set, &job.name, values, text) {
            Ok(executed) => Ok(as_traced(executed)),
            Err(fault) => Err(fault),
        },
        Way::Trace(holes) => match trace_text(alloc, set, holes, &job.name, values, text) {
            Ok(traced) => Ok(traced),
            Err(fault) => Err(fault),
        },
    }
}

/// Does a job for a text, and writes what comes of it.
fn run_text<K: Sink>(alloc: Global, set: &Set, job: &Job, text: &[u8], sink: &mut K) -> Ending
    requires short { length text.now ≤ most_bytes }
    requires set { IsInRanges set.now }
    ensures runs { RunsText set.now job.now text.now result (K.faults sink.old) (K.faults sink.new) (K.held sink.old) (K.held sink.new) }
    ensures place { (fault : TypeFault) → result ≡ Ending.NotTyped fault → HasSpan text.now fault.span }
{
    match done(alloc, set, job, text) {
        Err(fault) => refusal(fault),
        Ok(Traced::NotTraced(fault)) => stopped(fault),
        Ok(Traced::Run { outcome, out }) => {
            let done = ending_of(&outcome);
            deliver(sink, out.as_slice(), done)
        }
    }
}

/// Does a job for the text of the source, with the options of a line, and writes what comes of it to the sink.
pub fn run_source<S: Source, K: Sink>(
    alloc: Global,
    set: &Set,
    job: &Job,
    source: &mut S,
    sink: &mut K,
) -> Ending
    requires { IsInRanges set.now }
    ensures { Executes set.now job.now result (effect S.Source K.Sink source sink) }
{
    match read_text(alloc, source, MOST_BYTES) {
        Err(_) => Ending::Memory,
        Ok(Reading::Failed) => Ending::ReadFault,
        Ok(Reading::Long) => Ending::TooLong,
        Ok(Reading::Whole(text)) => run_text(alloc, set, job, text.as_slice(), sink),
    }
}
