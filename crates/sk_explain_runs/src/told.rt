//! What is told of runs of a completion.
ghost use Rattle.std.specs.Prelude.{◌≡◌};
ghost use Rattle.sk_opts.specs.Ranges.{AreInRanges, IsInRanges};
ghost use Rattle.sk_explain_answers.specs.Fillings.{IsFillable, IsKnown};

use crate::answer::{choice_in, value_in};
use crate::inputs::arguments;
use crate::reached::push_unreached;
use crate::runs::{Completion, Dearest, Harness, costing, dearest_of, is_skipped};
use crate::unused::push_unused;
use sk_exec_values::push_value;
use sk_explain_notes::{Note, Told};
use sk_front::{Expansion, SketchFault, expansion_of};
use sk_holes::{FillFault, fill};
use sk_model::Obligation;
use sk_oblig_queries::obligations;
use sk_opts::{Line, Set, Usage, options};
use sk_prog::{ParamDef, Value};
use std::alloc::{AllocError, Global};

/// The greatest number of bytes of a text.
const MOST_BYTES: usize = 1_048_576;

// Appends each parameter with its value.
fn push_params(
    alloc: Global,
    note: &mut Note,
    params: &[ParamDef],
    args: &[Value],
) -> Result<(), AllocError> {
    let mut between: &[u8] = b"";
    for (param, value) in params.iter().zip(args.iter()) {
        let mut spelt = Vec::new(alloc);
        push_value(&mut spelt, value)?;
        note.say(&[between, param.name.as_bytes(), b" = ", spelt.as_slice()])?;
        between = b", ";
    }
    Ok(())
}

// Tells an input on which a harness costs the most.
fn push_cost(
    alloc: Global,
    told: &mut Told,
    of: Completion<'_>,
    harness: Harness<'_>,
    number: u64,
    value: u64,
) -> Result<(), AllocError>
    ensures { told.new.title ≡ told.old.title }
{
    let params = harness.fun.params.as_slice();
    let args = arguments(alloc, of.bounds.inbits, params, number)?;
    told.notes.say(&[harness.fun.name.as_bytes(), b"("])?;
    push_params(alloc, &mut told.notes, params, args.as_slice())?;
    told.notes.word(b") costs ")?;
    told.notes.number(value)?;
    told.note(&[b", and no input costs more"])
}

// Warns of a harness whose runs are skipped.
fn push_skipped(
    alloc: Global,
    told: &mut Told,
    of: Completion<'_>,
    harness: Harness<'_>,
) -> Result<(), AllocError>
    requires { AreInRanges of.bounds.now }
    ensures { told.new.title ≡ told.old.title }
{
    if !is_skipped(alloc, of, harness)? {
        return Ok(());
    }
    told.note(&[
        b"warning: each run of the harness '",
        harness.fun.name.as_bytes(),
        b"' is skipped: it asks nothing",
    ])
}

// The harnesses of a completion.
fn harnesses<'a>(alloc: Global, of: Completion<'a>) -> Result<Vec<Harness<'a>>, AllocError> {
    let mut found = Vec::new(alloc);
    let asked = obligations(alloc, of.prog)?;
    for obligation in asked.as_slice() {
        if let Obligation::Harness(id) = obligation {
            if let Some(fun) = of.prog.funs.as_slice().get(id.index as usize) {
                found.push(Harness { id: *id, fun })?;
            }
        }
    }
    Ok(found)
}

// The first of the inputs that are tried on which one of some harnesses costs so much, with that harness.
fn dearest<'a>(
    alloc: Global,
    of: Completion<'_>,
    harnesses: &[Harness<'a>],
    value: u64,
) -> Result<Option<(Harness<'a>, u64)>, AllocError>
    requires { AreInRanges of.bounds.now }
{
    for harness in harnesses {
        if let Some(number) = costing(alloc, of, *harness, value)? {
            return Ok(Some((*harness, number)));
        }
    }
    Ok(None)
}

// Tells an input on which some harnesses cost so much, where one of those that are tried is.
fn push_costs(
    alloc: Global,
    told: &mut Told,
    of: Completion<'_>,
    harnesses: &[Harness<'_>],
    value: u64,
) -> Result<(), AllocError>
    requires { AreInRanges of.bounds.now }
    ensures { told.new.title ≡ told.old.title }
{
    match dearest(alloc, of, harnesses, value)? {
        Some((harness, number)) => push_cost(alloc, told, of, harness, number, value),
        None => Ok(()),
    }
}

// Tells of the runs of a completion with a value.
fn push_completion(
    alloc: Global,
    told: &mut Told,
    of: Completion<'_>,
    text: &[u8],
    value: u64,
) -> Result<(), AllocError>
    requires { AreInRanges of.bounds.now }
    ensures { told.new.title ≡ told.old.title }
{
    let harnesses = harnesses(alloc, of)?;
    for harness in harnesses.as_slice() {
        push_skipped(alloc, told, of, *harness)?;
    }
    push_unreached(alloc, told, text, of)?;
    if value == 0 {
        return Ok(());
    }
    push_costs(alloc, told, of, harnesses.as_slice(), value)
}

// Tells what a completion without a value costs, where all inputs of its harnesses are tried.
fn push_best(alloc: Global, told: &mut Told, of: Completion<'_>) -> Result<(), AllocError>
    requires { AreInRanges of.bounds.now }
    ensures { told.new.title ≡ told.old.title }
{
    let harnesses = harnesses(alloc, of)?;
    match dearest_of(alloc, of, harnesses.as_slice())? {
        Dearest::Of {
            harness,
            number,
            cost,
        } => push_cost(alloc, told, of, harness, number, cost),
        Dearest::Nothing => told.note(&[b"what is written costs 0 on each input"]),
        Dearest::Unknown => Ok(()),
    }
}

// Tells of the runs of what an answer has.
fn push_answer(
    alloc: Global,
    told: &mut Told,
    of: Completion<'_>,
    text: &[u8],
    answer: &[u8],
) -> Result<(), AllocError>
    requires { AreInRanges of.bounds.now }
    ensures { told.new.title ≡ told.old.title }
{
    match value_in(answer) {
        Some(value) => push_completion(alloc, told, of, text, value),
        None => push_best(alloc, told, of),
    }
}

// The same of the expansion of a sketch.
fn push_expansion(
    alloc: Global,
    told: &mut Told,
    expansion: &Expansion,
    text: &[u8],
    answer: &[u8],
) -> Result<(), AllocError>
    requires ranges { AreInRanges expansion.now.bounds }
    requires fillable { IsFillable expansion.now.expanded }
    ensures { told.new.title ≡ told.old.title }
{
    let Some(choice) = choice_in(alloc, answer)? else {
        return Ok(());
    };
    match fill(alloc, &expansion.expanded, &choice) {
        Ok(prog) => {
            let of = Completion {
                prog: &prog,
                bounds: &expansion.bounds,
            };
            push_answer(alloc, told, of, text, answer)?;
            push_unused(alloc, told, text, &expansion.expanded, &choice)
        }
        Err(FillFault::Memory) => Err(AllocError),
        Err(FillFault::WrongLength | FillFault::OutOfRange { .. }) => Ok(()),
    }
}

// The same of what a text expands to.
#[tactic(auto, using(sk_explain_answers::proofs::Fillable::known_ranges))]
fn push_known(
    alloc: Global,
    told: &mut Told,
    expansion: &Expansion,
    text: &[u8],
    answer: &[u8],
) -> Result<(), AllocError>
    requires { IsKnown text.now expansion.now }
    ensures { told.new.title ≡ told.old.title }
{
    push_expansion(alloc, told, expansion, text, answer)
}

// The same of the options of a line.
#[tactic(auto, using(sk_explain_answers::proofs::Fillable::known_is))]
fn push_set(
    alloc: Global,
    told: &mut Told,
    set: &Set,
    text: &[u8],
    answer: &[u8],
) -> Result<(), AllocError>
    requires { IsInRanges set.now }
    ensures { told.new.title ≡ told.old.title }
{
    if text.len() > MOST_BYTES {
        return Ok(());
    }
    match expansion_of(alloc, set, text) {
        Ok(expansion) => push_known(alloc, told, &expansion, text, answer),
        Err(SketchFault::Memory) => Err(AllocError),
        Err(_) => Ok(()),
    }
}

/// Tells of the answer of a line `synth` with a completion which harness has only runs that are skipped, an input on which the completion
/// costs the most, which assertions no input reaches, and which numbers play no part. After a refusal title and notes are given up:
/// nothing is told.
pub fn push_runs(
    alloc: Global,
    told: &mut Told,
    words: &[String],
    text: &[u8],
    answer: &[u8],
) -> Result<(), AllocError>
    ensures { told.new.title ≡ told.old.title }
{
    match options(alloc, words) {
        Ok(Line::Synth { set, .. }) => push_set(alloc, told, &set, text, answer),
        Ok(_) | Err(Usage::NotALine) => Ok(()),
        Err(Usage::Memory) => Err(AllocError),
    }
}
