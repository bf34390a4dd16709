//! The sizes of an expanded program.
ghost use Rattle.std.specs.Prelude.{◌≡◌, ◌<◌, ◌≤◌, OnOk, IfOk, IfErr, IsTrue, not, ◌||◌, max};
ghost use Rattle.sk_model.specs.Limits.{most_steps, most_news};
ghost use Rattle.sk_model.specs.Obligations.{of_fun, of_kind, of_reference, obligations_from};
ghost use Rattle.sk_model.specs.Steps.{steps};
ghost use Rattle.sk_model.specs.News.{news};
ghost use Rattle.sk_expand_sizes.specs.Tally.{news_in};
ghost use Rattle.sk_expand_sizes.specs.Sums.{all_summed, run_counted, no_sum};
ghost use Rattle.sk_expand_sizes.specs.Sizes.{Answers, Exactly, IsSizesOf, is_copies, is_sites, is_steps, is_news};

use crate::answer::Sizes;
use crate::caller::Caller;
use crate::fault::SizeFault;
use crate::tally::Tally;
use sk_base::Bounds;
use sk_model::Expanded;
use sk_prog::{Fun, FunId, FunKind};
use std::alloc::{AllocError, Global};

/// How many calls may be active at a time.
const MOST_CALLS: u32 = 128;

/// The most records that an obligation may make.
const MOST_NEWS: u32 = 256;

/// What is counted of the obligations so far, and the most records of one of them.
#[derive(Drop, Clone, Copy)]
struct Sum {
    tally: Tally,
    most: u32,
}

fn larger(a: u32, b: u32) -> u32
    ensures { result ≡ max a b }
{
    if a < b { b } else { a }
}

/// The sum with one more obligation, behind which the tally stands so.
fn with_obligation(sum: Sum, tally: Tally) -> Sum
    ensures { result ≡ record { tally = tally; most = max sum.most (news_in tally) } }
{
    Sum {
        tally,
        most: larger(sum.most, tally.news()),
    }
}

/// Counts a run of the function with a number.
fn run(caller: &Caller, f: usize, tally: &mut Tally) -> Result<(), AllocError>
    ensures { OnOk result (tally.new ≡ run_counted caller.now.bounds caller.now.funs.now f tally.old) }
{
    caller.call(MOST_CALLS, &[], f, 1, tally)?;
    Ok(())
}

/// The sum with the function of a number, if it is a harness.
fn with_harness(caller: &Caller, f: usize, kind: FunKind, sum: Sum) -> Result<Sum, AllocError>
    ensures { IfOk result (λ all. all ≡ all_summed caller.now.bounds caller.now.funs.now (of_kind (record { index = f }) kind) sum) }
{
    match kind {
        FunKind::Plain => Ok(sum),
        FunKind::Generator => Ok(sum),
        FunKind::Harness => {
            let mut tally = sum.tally.begun();
            run(caller, f, &mut tally)?;
            Ok(with_obligation(sum, tally))
        }
    }
}

/// The sum with the function of a number, if it implements another.
fn with_reference(
    caller: &Caller,
    f: usize,
    implements: Option<FunId>,
    sum: Sum,
) -> Result<Sum, AllocError>
    ensures { IfOk result (λ all. all ≡ all_summed caller.now.bounds caller.now.funs.now (of_reference (record { index = f }) implements) sum) }
{
    match implements {
        None => Ok(sum),
        Some(g) => {
            let mut tally = sum.tally.begun();
            run(caller, f, &mut tally)?;
            run(caller, g.index as usize, &mut tally)?;
            Ok(with_obligation(sum, tally))
        }
    }
}

/// The sum with the obligations of the function with a number.
#[tactic(auto, using(crate::proofs::SumLaws::summed_both))]
fn with_fun(caller: &Caller, f: usize, fun: &Fun, sum: Sum) -> Result<Sum, AllocError>
    ensures { IfOk result (λ all. all ≡ all_summed caller.now.bounds caller.now.funs.now (of_fun (record { index = f }) fun.now) sum) }
{
    let first = with_harness(caller, f, fun.kind, sum)?;
    let both = with_reference(caller, f, fun.implements, first)?;
    Ok(both)
}

/// The sum of all obligations.
fn summed(caller: &Caller, funs: &[Fun]) -> Result<Sum, AllocError>
    ensures { IfOk result (λ all. all ≡ all_summed caller.now.bounds caller.now.funs.now (obligations_from 0 funs.now) no_sum) }
{
    let mut sum = Sum {
        tally: Tally::Within { steps: 0, news: 0 },
        most: 0,
    };
    for (f, fun) in funs.iter().enumerate() {
        sum = with_fun(caller, f, fun, sum)?;
    }
    Ok(sum)
}

/// How many steps the runs of all obligations of an expanded program may take, and how many records the runs of one
/// may make at the most.
///
/// # Errors
///
/// `Steps` where there are more than 262,144 steps. Else `News` where the runs of an obligation may make more than 256
/// records.
pub fn sizes(alloc: Global, expanded: &Expanded, bounds: &Bounds) -> Result<Sizes, SizeFault>
    ensures found { IfOk result (IsSizesOf bounds.now expanded.now) }
    ensures steps { Exactly is_steps (most_steps < steps bounds.now expanded.now) result }
    ensures news { Exactly is_news ((steps bounds.now expanded.now ≤ most_steps) × (most_news < news bounds.now expanded.now)) result }
    ensures others { IfErr result (λ fault. IsTrue (not (is_copies fault || is_sites fault))) }
{
    sized(alloc, expanded, bounds)
}

// The same, fault by fault.
#[tactic(auto, using(crate::proofs::SumLaws::answers))]
fn sized(alloc: Global, expanded: &Expanded, bounds: &Bounds) -> Result<Sizes, SizeFault>
    ensures { Answers bounds.now expanded.now result }
{
    let funs = expanded.prog.funs.as_slice();
    let caller = Caller {
        alloc,
        funs,
        bounds: *bounds,
    };
    let sum = summed(&caller, funs)?;
    match sum.tally {
        Tally::Over => Err(SizeFault::Steps),
        Tally::Within { steps, news: _ } => {
            if sum.most > MOST_NEWS {
                return Err(SizeFault::News);
            }
            Ok(Sizes {
                steps,
                news: sum.most,
            })
        }
    }
}
