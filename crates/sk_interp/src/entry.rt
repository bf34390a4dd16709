//! Runs a function of a program.

ghost use Rattle.std.specs.Prelude.{◌≡◌, ◌≤◌, IfOk};
ghost use Rattle.sk_model.specs.Run.{run};
ghost use Rattle.sk_interp_laws.specs.Path.{path};
ghost use Rattle.sk_interp_laws.specs.Kept.{log_of_steps};

use crate::activation::Activation;
use crate::call::MOST_CALLS;
use crate::machine::Machine;
use crate::memory::copy_row;
use crate::stop::Stop;
use sk_base::{Bounds, Span};
use sk_interp_laws::Log;
use sk_model::Outcome;
use sk_prog::{FunId, Prog, Value};
use std::alloc::{AllocError, Global};

/// How deep statements and expressions may nest, over all active calls. A run that needs more ends as by want of
/// memory, before its stack does.
const MOST_LEVELS: u32 = 4096;

/// How a run ended, and the first of its steps.
#[derive(Debug, Drop)]
pub struct Logged {
    pub outcome: Outcome,
    pub log: Log,
}

/// Runs a function of a program on arguments, one for each of its parameters, and keeps so many of its first steps. The
/// outcome is that of the run, whatever is kept of its steps.
///
/// # Errors
///
/// Where memory is wanting, and where statements and expressions nest more than 4,096 deep over all active calls.
#[tactic(auto, using(crate::proofs::Running::runs))]
pub fn run_with_log(
    alloc: Global,
    prog: &Prog,
    f: FunId,
    args: &[Value],
    bounds: &Bounds,
    most: usize,
) -> Result<Logged, AllocError>
    requires bits_low { 2 ≤ bounds.now.int_bits }
    requires bits_high { bounds.now.int_bits ≤ 32 }
    ensures outcome { IfOk result (λ logged. logged.outcome ≡ run prog.now f args.now bounds.now) }
    ensures log { IfOk result (λ logged. logged.log ≡ log_of_steps most (path prog.now f args.now bounds.now)) }
{
    let given = copy_row(alloc, args)?;
    let first = Activation {
        alloc,
        prog,
        bounds: *bounds,
        left: MOST_CALLS,
        depth: 0,
        active: &[],
    };
    let mut machine = Machine::new(alloc, most);
    let nowhere = Span { from: 0, to: 0 };
    let outcome = match first.call(MOST_LEVELS, &mut machine, nowhere, f.index, given) {
        Ok(called) => Outcome::Done {
            result: called.result,
            refs: called.refs,
            cost: machine.cost(),
        },
        Err(Stop::Failed { span }) => Outcome::Failed { span },
        Err(Stop::Skipped { span }) => Outcome::Skipped { span },
        Err(Stop::NoMemory) => return Err(AllocError),
    };
    let log = machine.into_log();
    Ok(Logged { outcome, log })
}

/// Runs a function of a program on arguments, one for each of its parameters. The answer is the run: its result, the
/// final values of its `ref` parameters in order and its cost, or the span at which it failed or was skipped.
///
/// # Errors
///
/// Where memory is wanting, and where statements and expressions nest more than 4,096 deep over all active calls.
pub fn exec(
    alloc: Global,
    prog: &Prog,
    f: FunId,
    args: &[Value],
    bounds: &Bounds,
) -> Result<Outcome, AllocError>
    requires bits_low { 2 ≤ bounds.now.int_bits }
    requires bits_high { bounds.now.int_bits ≤ 32 }
    ensures ok { IfOk result (λ outcome. outcome ≡ run prog.now f args.now bounds.now) }
{
    let run = run_with_log(alloc, prog, f, args, bounds, 0)?;
    Ok(run.outcome)
}
