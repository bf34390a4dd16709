//! Assertions that no input reaches.
ghost use Rattle.std.specs.Prelude.{◌≡◌};
ghost use Rattle.sk_opts.specs.Ranges.{AreInRanges};

use crate::inputs::{are_few, arguments, count};
use crate::runs::{Completion, Harness};
use sk_explain_notes::Told;
use sk_explain_steps::{bytes_of, function_at, is_key, push_place, tokens_of};
use sk_interp::run_with_log;
use sk_interp_laws::{Log, What};
use sk_model::Obligation;
use sk_oblig_queries::obligations;
use sk_prog::FunId;
use sk_tree::{Key, Token};
use std::alloc::{AllocError, Global};

/// So many assertions of a text are looked for.
const MOST_ASSERTIONS: usize = 100;

/// Of a run so many steps are looked at: where one has more, nothing is told.
const MOST_STEPS: usize = 4_096;

// Where the assertions of a text begin.
fn assertions(alloc: Global, tokens: &[Token]) -> Result<Vec<u32>, AllocError> {
    let mut found = Vec::new(alloc);
    for token in tokens {
        if is_key(token, Key::Assert) {
            found.push(token.span.from)?;
        }
    }
    Ok(found)
}

// Puts a function behind others, where the program has it.
fn push_fun<'a>(
    found: &mut Vec<Harness<'a>>,
    of: Completion<'a>,
    id: FunId,
) -> Result<(), AllocError> {
    if let Some(fun) = of.prog.funs.as_slice().get(id.index as usize) {
        found.push(Harness { id, fun })?;
    }
    Ok(())
}

// The functions that are run for what is asked of a completion.
fn asked<'a>(alloc: Global, of: Completion<'a>) -> Result<Vec<Harness<'a>>, AllocError> {
    let mut found = Vec::new(alloc);
    let asked = obligations(alloc, of.prog)?;
    for obligation in asked.as_slice() {
        match obligation {
            Obligation::Harness(f) => push_fun(&mut found, of, *f)?,
            Obligation::Implements { f, g } => {
                push_fun(&mut found, of, *f)?;
                push_fun(&mut found, of, *g)?;
            }
        }
    }
    Ok(found)
}

// Whether a run came to the statement that begins at a byte, which finds a condition.
fn has_truth(log: &Log, byte: u32) -> bool {
    for step in log.steps.as_slice() {
        if step.span.from == byte {
            match &step.what {
                What::Truth(_) => return true,
                What::Store(_) | What::Cost(_) | What::Go => {}
            }
        }
    }
    false
}

// Those of some assertions to which a run did not come.
fn left_by(alloc: Global, log: &Log, assertions: &[u32]) -> Result<Vec<u32>, AllocError> {
    let mut left = Vec::new(alloc);
    for byte in assertions {
        if !has_truth(log, *byte) {
            left.push(*byte)?;
        }
    }
    Ok(left)
}

// The first steps of the run on the input with a number.
fn steps(
    alloc: Global,
    of: Completion<'_>,
    fun: Harness<'_>,
    number: u64,
) -> Result<Log, AllocError>
    requires { AreInRanges of.bounds.now }
{
    let params = fun.fun.params.as_slice();
    let args = arguments(alloc, of.bounds.inbits, params, number)?;
    let logged = run_with_log(
        alloc,
        of.prog,
        fun.id,
        args.as_slice(),
        of.bounds,
        MOST_STEPS,
    )?;
    Ok(logged.log)
}

// Those of some assertions to which no run of a function came, where all steps of its runs are known.
fn left_behind(
    alloc: Global,
    of: Completion<'_>,
    fun: Harness<'_>,
    assertions: Vec<u32>,
) -> Result<Option<Vec<u32>>, AllocError>
    requires { AreInRanges of.bounds.now }
{
    let mut left = assertions;
    for number in 0..count(of.bounds.inbits, fun.fun.params.as_slice()) {
        if left.is_empty() {
            return Ok(Some(left));
        }
        let log = steps(alloc, of, fun, number)?;
        if log.more {
            return Ok(None);
        }
        left = left_by(alloc, &log, left.as_slice())?;
    }
    Ok(Some(left))
}

// Those of some assertions to which no run of some functions came, where that is known.
fn left_of(
    alloc: Global,
    of: Completion<'_>,
    funs: &[Harness<'_>],
    assertions: Vec<u32>,
) -> Result<Option<Vec<u32>>, AllocError>
    requires { AreInRanges of.bounds.now }
{
    let mut left = assertions;
    for fun in funs {
        match left_behind(alloc, of, *fun, left)? {
            Some(others) => left = others,
            None => return Ok(None),
        }
    }
    Ok(Some(left))
}

// Whether all inputs of some functions are tried.
fn are_all_few(inbits: u32, funs: &[Harness<'_>]) -> bool {
    funs.iter()
        .all(|fun| are_few(inbits, fun.fun.params.as_slice()))
}

// Warns of an assertion.
fn push_assertion(
    told: &mut Told,
    text: &[u8],
    tokens: &[Token],
    byte: u32,
) -> Result<(), AllocError>
    ensures { told.new.title ≡ told.old.title }
{
    told.notes
        .word(b"warning: no input reaches the assert at ")?;
    push_place(&mut told.notes, text, byte)?;
    match function_at(tokens, byte) {
        Some(name) => told.note(&[b", in '", bytes_of(text, name), b"'"]),
        None => told.notes.end(),
    }
}

// Warns of assertions, one after another.
fn push_assertions(
    told: &mut Told,
    text: &[u8],
    tokens: &[Token],
    assertions: &[u32],
) -> Result<(), AllocError>
    ensures { told.new.title ≡ told.old.title }
{
    for byte in assertions {
        push_assertion(told, text, tokens, *byte)?;
    }
    Ok(())
}

/// Warns of the assertions of a text to which no run of a completion comes, where something is asked and each function that is
/// run for it has few inputs: all of them are tried.
pub fn push_unreached(
    alloc: Global,
    told: &mut Told,
    text: &[u8],
    of: Completion<'_>,
) -> Result<(), AllocError>
    requires { AreInRanges of.bounds.now }
    ensures { told.new.title ≡ told.old.title }
{
    let tokens = tokens_of(alloc, text)?;
    let assertions = assertions(alloc, tokens.as_slice())?;
    let funs = asked(alloc, of)?;
    if assertions.len() > MOST_ASSERTIONS
        || funs.is_empty()
        || !are_all_few(of.bounds.inbits, funs.as_slice())
    {
        return Ok(());
    }
    match left_of(alloc, of, funs.as_slice(), assertions)? {
        Some(left) => push_assertions(told, text, tokens.as_slice(), left.as_slice()),
        None => Ok(()),
    }
}
