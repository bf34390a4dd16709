//! Runs of a harness of a completion.
ghost use Rattle.sk_opts.specs.Ranges.{AreInRanges};

use crate::inputs::{are_few, arguments, count};
use sk_base::Bounds;
use sk_interp::exec;
use sk_model::Outcome;
use sk_prog::{Fun, FunId, Prog};
use std::alloc::{AllocError, Global};

/// A program without open parts, and the bounds of its runs.
#[derive(Drop, Clone, Copy)]
pub struct Completion<'a> {
    pub prog: &'a Prog,
    pub bounds: &'a Bounds,
}

/// A harness, with its number.
#[derive(Drop, Clone, Copy)]
pub struct Harness<'a> {
    pub id: FunId,
    pub fun: &'a Fun,
}

// The run on the input with a number.
fn run(
    alloc: Global,
    of: Completion<'_>,
    harness: Harness<'_>,
    number: u64,
) -> Result<Outcome, AllocError>
    requires { AreInRanges of.bounds.now }
{
    let params = harness.fun.params.as_slice();
    let args = arguments(alloc, of.bounds.inbits, params, number)?;
    exec(alloc, of.prog, harness.id, args.as_slice(), of.bounds)
}

/// Whether a harness has few inputs, and its runs on all are skipped.
pub fn is_skipped(
    alloc: Global,
    of: Completion<'_>,
    harness: Harness<'_>,
) -> Result<bool, AllocError>
    requires { AreInRanges of.bounds.now }
{
    let params = harness.fun.params.as_slice();
    if !are_few(of.bounds.inbits, params) {
        return Ok(false);
    }
    for number in 0..count(of.bounds.inbits, params) {
        match run(alloc, of, harness, number)? {
            Outcome::Skipped { .. } => {}
            Outcome::Done { .. } | Outcome::Failed { .. } => return Ok(false),
        }
    }
    Ok(true)
}

/// The first input that is tried on which the run of a harness costs so much, by its number.
pub fn costing(
    alloc: Global,
    of: Completion<'_>,
    harness: Harness<'_>,
    value: u64,
) -> Result<Option<u64>, AllocError>
    requires { AreInRanges of.bounds.now }
{
    for number in 0..count(of.bounds.inbits, harness.fun.params.as_slice()) {
        match run(alloc, of, harness, number)? {
            Outcome::Done { cost, .. } if cost == value => return Ok(Some(number)),
            Outcome::Done { .. } | Outcome::Failed { .. } | Outcome::Skipped { .. } => {}
        }
    }
    Ok(None)
}

/// The greatest cost of the runs of harnesses, where all their inputs are tried.
#[derive(Drop, Clone, Copy)]
pub enum Dearest<'a> {
    /// Not all are tried, or a run fails.
    Unknown,
    /// No run costs anything.
    Nothing,
    /// The first run that costs so much: of a harness, on the input with a number.
    Of {
        harness: Harness<'a>,
        number: u64,
        cost: u64,
    },
}

impl<'a> Dearest<'a> {
    // What is the greatest cost with a run more.
    fn with(self, harness: Harness<'a>, number: u64, outcome: &Outcome) -> Dearest<'a> {
        let most = match self {
            Dearest::Unknown => return self,
            Dearest::Nothing => 0,
            Dearest::Of { cost, .. } => cost,
        };
        match outcome {
            Outcome::Done { cost, .. } if *cost > most => Dearest::Of {
                harness,
                number,
                cost: *cost,
            },
            Outcome::Done { .. } | Outcome::Skipped { .. } => self,
            Outcome::Failed { .. } => Dearest::Unknown,
        }
    }
}

// The same with the runs of a harness on all inputs.
fn dearest_with<'a>(
    alloc: Global,
    of: Completion<'_>,
    harness: Harness<'a>,
    before: Dearest<'a>,
) -> Result<Dearest<'a>, AllocError>
    requires { AreInRanges of.bounds.now }
{
    let params = harness.fun.params.as_slice();
    if !are_few(of.bounds.inbits, params) {
        return Ok(Dearest::Unknown);
    }
    let mut dearest = before;
    for number in 0..count(of.bounds.inbits, params) {
        let outcome = run(alloc, of, harness, number)?;
        dearest = dearest.with(harness, number, &outcome);
    }
    Ok(dearest)
}

/// The greatest cost of the runs of some harnesses.
pub fn dearest_of<'a>(
    alloc: Global,
    of: Completion<'_>,
    harnesses: &[Harness<'a>],
) -> Result<Dearest<'a>, AllocError>
    requires { AreInRanges of.bounds.now }
{
    let mut dearest = Dearest::Nothing;
    for harness in harnesses {
        match dearest_with(alloc, of, *harness, dearest)? {
            Dearest::Unknown => return Ok(Dearest::Unknown),
            found => dearest = found,
        }
    }
    Ok(dearest)
}
