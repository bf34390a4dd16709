//! How runs of a filling end, in words.
use crate::fates::Fate;
use crate::places::push_statement;
use sk_base::{Name, Span};
use sk_exec_values::push_value;
use sk_explain_notes::Note;
use sk_model::{Obligation, Outcome};
use sk_prog::{Fun, FunId, ParamDef, Prog, Value};
use std::alloc::{AllocError, Global};

// Appends that a run ends at a statement.
fn push_end(note: &mut Note, text: &[u8], words: &[&[u8]], span: Span) -> Result<(), AllocError> {
    note.say(words)?;
    push_statement(note, text, span)
}

// Appends how the run of a harness ends.
fn push_run(note: &mut Note, text: &[u8], outcome: &Outcome) -> Result<(), AllocError> {
    match outcome {
        Outcome::Done { .. } => note.word(b"the run passes"),
        Outcome::Failed { span } => push_end(note, text, &[b"the run fails"], *span),
        Outcome::Skipped { span } => push_end(note, text, &[b"the run is skipped"], *span),
    }
}

// Appends what stands between two things that a run gives, where something stands before.
fn push_and(out: &mut Vec<u8>) -> Result<(), AllocError> {
    if out.is_empty() {
        return Ok(());
    }
    out.extend_from_slice(b" and ")
}

// Appends the name and the last value of each `ref` parameter.
fn push_refs(out: &mut Vec<u8>, params: &[ParamDef], refs: &[Value]) -> Result<(), AllocError> {
    let mut rest = refs;
    for param in params {
        if param.by_ref {
            let [value, others @ ..] = rest else {
                return Ok(());
            };
            push_and(out)?;
            out.extend_from_slice(param.name.as_bytes())?;
            out.extend_from_slice(b" = ")?;
            push_value(out, value)?;
            rest = others;
        }
    }
    Ok(())
}

// What a run that is done gives: its result, where it has one, and what the `ref` parameters hold at its end, by these names.
// There is nothing of another run.
fn gift(alloc: Global, params: &[ParamDef], outcome: &Outcome) -> Result<Option<Name>, AllocError> {
    match outcome {
        Outcome::Done { result, refs, .. } => {
            let mut out = Vec::new(alloc);
            if let Some(value) = result {
                push_value(&mut out, value)?;
            }
            push_refs(&mut out, params, refs.as_slice())?;
            Ok(Some(Name::from_vec(out)))
        }
        Outcome::Failed { .. } | Outcome::Skipped { .. } => Ok(None),
    }
}

// Appends how the run of this function ends, which is not done.
fn push_stop(note: &mut Note, text: &[u8], fun: &Fun, outcome: &Outcome) -> Result<(), AllocError> {
    let name = fun.name.as_bytes();
    match outcome {
        Outcome::Done { .. } => Ok(()),
        Outcome::Failed { span } => {
            push_end(note, text, &[b"the run of ", name, b" fails"], *span)
        }
        Outcome::Skipped { span } => {
            push_end(note, text, &[b"the run of ", name, b" is skipped"], *span)
        }
    }
}

// Appends what two functions give.
fn push_gifts(
    note: &mut Note,
    f: &Fun,
    of_f: &Name,
    g: &Fun,
    of_g: &Name,
) -> Result<(), AllocError> {
    let f = f.name.as_bytes();
    let g = g.name.as_bytes();
    if !of_f.is(of_g.as_bytes()) {
        note.say(&[f, b" gives ", of_f.as_bytes()])?;
        return note.say(&[b", ", g, b" gives ", of_g.as_bytes()]);
    }
    if of_f.as_bytes().is_empty() {
        return note.say(&[f, b" and ", g, b" are done"]);
    }
    note.say(&[f, b" and ", g, b" give ", of_f.as_bytes()])
}

// Appends how the runs of an implementation and its reference end: that of the reference first, where it is not done.
fn push_runs(
    alloc: Global,
    note: &mut Note,
    text: &[u8],
    f: &Fun,
    of_f: &Outcome,
    g: &Fun,
    of_g: &Outcome,
) -> Result<(), AllocError> {
    let params = f.params.as_slice();
    let Some(asked) = gift(alloc, params, of_g)? else {
        return push_stop(note, text, g, of_g);
    };
    match gift(alloc, params, of_f)? {
        Some(given) => push_gifts(note, f, &given, g, &asked),
        None => push_stop(note, text, f, of_f),
    }
}

// Appends how the runs of two functions of a program end.
fn push_both(
    alloc: Global,
    note: &mut Note,
    text: &[u8],
    prog: &Prog,
    f: FunId,
    of_f: &Outcome,
    g: FunId,
    of_g: &Outcome,
) -> Result<(), AllocError> {
    let funs = prog.funs.as_slice();
    match (funs.get(f.index as usize), funs.get(g.index as usize)) {
        (Some(f), Some(g)) => push_runs(alloc, note, text, f, of_f, g, of_g),
        _ => Ok(()),
    }
}

// Appends how the runs of an obligation end.
fn push_fate(
    alloc: Global,
    note: &mut Note,
    text: &[u8],
    prog: &Prog,
    obligation: Obligation,
    fate: &Fate,
) -> Result<(), AllocError> {
    match fate {
        Fate::Harness(outcome) => push_run(note, text, outcome),
        Fate::Implements { of_f, of_g } => match obligation {
            Obligation::Implements { f, g } => {
                push_both(alloc, note, text, prog, f, of_f, g, of_g)
            }
            Obligation::Harness(_) => Ok(()),
        },
    }
}

/// How the runs of an obligation of a program end, behind a colon.
pub fn fate_text(
    alloc: Global,
    text: &[u8],
    prog: &Prog,
    obligation: Obligation,
    fate: &Fate,
) -> Result<Name, AllocError> {
    let mut note = Note::new(alloc);
    note.word(b": ")?;
    push_fate(alloc, &mut note, text, prog, obligation, fate)?;
    Name::from_slice(alloc, note.as_bytes())
}
