//! What the runs of an obligation come to.
ghost use Rattle.std.specs.Prelude.{◌≤◌, IfOk};
ghost use Rattle.sk_explain_answers.specs.Fates.{IsFate};

use sk_base::Bounds;
use sk_interp::exec;
use sk_model::{Obligation, Outcome};
use sk_prog::{Prog, Value};
use std::alloc::{AllocError, Global};

/// What the runs of an obligation come to on an input.
#[derive(Debug, Drop)]
pub enum Fate {
    /// That of a harness.
    Harness(Outcome),
    /// That of an implementation, and that of its reference.
    Implements { of_f: Outcome, of_g: Outcome },
}

/// What the runs of an obligation of a program come to on arguments.
pub fn fate_of(
    alloc: Global,
    prog: &Prog,
    bounds: &Bounds,
    obligation: Obligation,
    args: &[Value],
) -> Result<Fate, AllocError>
    requires low { 2 ≤ bounds.now.int_bits }
    requires high { bounds.now.int_bits ≤ 32 }
    ensures { IfOk result (IsFate prog.now bounds.now args.now obligation) }
{
    match obligation {
        Obligation::Harness(f) => {
            let outcome = exec(alloc, prog, f, args, bounds)?;
            Ok(Fate::Harness(outcome))
        }
        Obligation::Implements { f, g } => {
            let of_f = exec(alloc, prog, f, args, bounds)?;
            let of_g = exec(alloc, prog, g, args, bounds)?;
            Ok(Fate::Implements { of_f, of_g })
        }
    }
}
