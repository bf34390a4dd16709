//! A run, step by step.
#![tactic(auto)]

mod shown;

ghost use Rattle.std.specs.Prelude.{◌≡◌, ◌≤◌, IfOk, length, nat_lt, take};
ghost use Rattle.sk_model.specs.Run.{run};
ghost use Rattle.sk_interp_laws.specs.Path.{path};
ghost use Rattle.sk_trace.specs.Most.{most_steps};

pub use shown::Trace;
use sk_base::Bounds;
use sk_interp::{Logged, run_with_log};
use sk_interp_laws::Log;
use sk_prog::{FunId, Prog, Value};
use std::alloc::{AllocError, Global};

/// The most steps that are shown.
const MOST_STEPS: usize = 65_536;

/// Runs a function of a program on arguments, one for each of its parameters. The outcome is that of the run. The steps are
/// the first 65,536 of the run, or all where there are fewer.
///
/// # Errors
///
/// Where memory is wanting, and where statements and expressions nest more than 4,096 deep over all active calls.
pub fn trace(
    alloc: Global,
    prog: &Prog,
    f: FunId,
    args: &[Value],
    bounds: &Bounds,
) -> Result<Trace, AllocError>
    requires bits_low { 2 ≤ bounds.now.int_bits }
    requires bits_high { bounds.now.int_bits ≤ 32 }
    ensures outcome { IfOk result (λ trace. trace.outcome ≡ run prog.now f args.now bounds.now) }
    ensures steps { IfOk result (λ trace. trace.steps ≡ take most_steps (path prog.now f args.now bounds.now)) }
    ensures more { IfOk result (λ trace. trace.more ≡ nat_lt most_steps (length (path prog.now f args.now bounds.now))) }
{
    let Logged { outcome, log } = run_with_log(alloc, prog, f, args, bounds, MOST_STEPS)?;
    let Log { steps, more, .. } = log;
    Ok(Trace {
        steps,
        more,
        outcome,
    })
}
