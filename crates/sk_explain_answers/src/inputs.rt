//! Inputs that explain why there is no completion, and what a filling does on them.
ghost use Rattle.std.specs.Prelude.{◌≡◌, ◌++◌, ◌∷◌, [], codes, map, option_map, OnOk};
ghost use Rattle.sk_model.specs.Obligations.{obligations};
ghost use Rattle.sk_opts.specs.Ranges.{AreInRanges};
ghost use Rattle.sk_explain_notes.specs.Notes.{plain};
ghost use Rattle.sk_explain_answers.specs.Calls.{call_of, call_text, taker};
ghost use Rattle.sk_explain_answers.specs.Fillings.{IsFillable, IsKnown};
ghost use Rattle.sk_explain_answers.specs.Inputs.{AreTold, IsTold, TellsInputs, TellsRows, inputs_title};
ghost use Rattle.sk_explain_answers.specs.Rows.{rows_of, words_of};

use crate::calls::{obligation_of, push_call, taker};
use crate::fates::fate_of;
use crate::fillings::{expansion, filling};
use crate::more::{first_told, push_more};
use crate::rows::{Row, rows_of};
use crate::runs::fate_text;
use sk_base::{Bounds, Name};
use sk_exec_values::read_arguments;
use sk_explain_notes::{Note, Told};
use sk_front::Expansion;
use sk_model::{Obligation, Site};
use sk_oblig_queries::obligations;
use sk_prog::{Fun, Prog, Value};
use std::alloc::{AllocError, Global};

// What a filling does on arguments; nothing where there is no memory for its run.
fn done_with(
    alloc: Global,
    bounds: &Bounds,
    text: &[u8],
    filled: &Prog,
    obligation: Obligation,
    args: &[Value],
) -> Result<Name, AllocError>
    requires { AreInRanges bounds.now }
{
    match fate_of(alloc, filled, bounds, obligation, args) {
        Ok(fate) => fate_text(alloc, text, filled, obligation, &fate),
        Err(_) => Name::from_slice(alloc, b""),
    }
}

// What a filling does on the values of an input; nothing where there is no filling.
fn done_on(
    alloc: Global,
    bounds: &Bounds,
    text: &[u8],
    filled: Option<&Prog>,
    fun: &Fun,
    obligation: Obligation,
    values: &[Name],
) -> Result<Name, AllocError>
    requires { AreInRanges bounds.now }
{
    let Some(filled) = filled else {
        return Name::from_slice(alloc, b"");
    };
    match read_arguments(alloc, bounds, fun, values) {
        Ok(args) => done_with(alloc, bounds, text, filled, obligation, args.as_slice()),
        Err(_) => Name::from_slice(alloc, b""),
    }
}

/// Appends a line: the call, and what is done on it.
pub fn push_input(
    note: &mut Note,
    fun: &Fun,
    values: &[Name],
    done: &Name,
) -> Result<(), AllocError>
    ensures { OnOk result (note.new.bytes.items ≡ note.old.bytes.items ++ call_text fun.now values.now ++ map plain done.now ++ 10 ∷ []) }
{
    push_call(note, fun, values)?;
    note.word(done.as_bytes())?;
    note.end()?;
    Ok(())
}

// Tells an input of an obligation.
#[tactic(auto, using(crate::proofs::Telling::input_told, crate::proofs::Telling::none_told))]
fn tell_obligation(
    alloc: Global,
    note: &mut Note,
    bounds: &Bounds,
    text: &[u8],
    filled: Option<&Prog>,
    prog: &Prog,
    obligation: Obligation,
    values: &[Name],
) -> Result<(), AllocError>
    requires { AreInRanges bounds.now }
    ensures { OnOk result (IsTold (option_map (λ fun. call_text fun values.now) (taker prog.now obligation)) note.old.bytes.items note.new.bytes.items) }
{
    match taker(prog, obligation) {
        Some(fun) => {
            let done = done_on(alloc, bounds, text, filled, fun, obligation, values)?;
            push_input(note, fun, values, &done)?;
            Ok(())
        }
        None => Ok(()),
    }
}

// Tells the input of a line.
fn tell_row(
    alloc: Global,
    note: &mut Note,
    bounds: &Bounds,
    text: &[u8],
    filled: Option<&Prog>,
    prog: &Prog,
    obligations: &[Obligation],
    words: &[Name],
) -> Result<(), AllocError>
    requires { AreInRanges bounds.now }
    ensures { OnOk result (IsTold (call_of prog.now obligations.now words.now) note.old.bytes.items note.new.bytes.items) }
{
    let [word, values @ ..] = words else {
        return Ok(());
    };
    match obligation_of(obligations, word) {
        Some(obligation) => {
            tell_obligation(alloc, note, bounds, text, filled, prog, obligation, values)?;
            Ok(())
        }
        None => Ok(()),
    }
}

// Tells the inputs of lines.
#[tactic(auto, using(crate::proofs::Telling::inputs_told))]
fn tell_rows(
    alloc: Global,
    note: &mut Note,
    bounds: &Bounds,
    text: &[u8],
    filled: Option<&Prog>,
    prog: &Prog,
    obligations: &[Obligation],
    rows: &[Row],
) -> Result<(), AllocError>
    requires { AreInRanges bounds.now }
    ensures { OnOk result (AreTold (map (call_of prog.now obligations.now) (map words_of rows.now)) note.old.bytes.items note.new.bytes.items) }
{
    let [row, others @ ..] = rows else {
        return Ok(());
    };
    tell_row(
        alloc,
        note,
        bounds,
        text,
        filled,
        prog,
        obligations,
        row.words(),
    )?;
    tell_rows(alloc, note, bounds, text, filled, prog, obligations, others)?;
    Ok(())
}

// Tells the inputs of the first 20 lines, and how many more there are.
#[tactic(auto, using(crate::proofs::Telling::rows_told))]
fn tell_first(
    alloc: Global,
    note: &mut Note,
    bounds: &Bounds,
    text: &[u8],
    filled: Option<&Prog>,
    prog: &Prog,
    obligations: &[Obligation],
    rows: &[Row],
) -> Result<(), AllocError>
    requires { AreInRanges bounds.now }
    ensures { OnOk result (TellsRows prog.now obligations.now (map words_of rows.now) note.old.bytes.items note.new.bytes.items) }
{
    let first = first_told(rows);
    tell_rows(alloc, note, bounds, text, filled, prog, obligations, first)?;
    push_more(note, rows.len())?;
    Ok(())
}

// Tells the inputs of an answer, and how many more there are.
fn tell_answer(
    alloc: Global,
    note: &mut Note,
    bounds: &Bounds,
    text: &[u8],
    filled: Option<&Prog>,
    prog: &Prog,
    obligations: &[Obligation],
    answer: &[u8],
) -> Result<(), AllocError>
    requires { AreInRanges bounds.now }
    ensures { OnOk result (TellsRows prog.now obligations.now (rows_of (codes "input") answer.now) note.old.bytes.items note.new.bytes.items) }
{
    let rows = rows_of(alloc, b"input", answer)?;
    let listed = rows.as_slice();
    tell_first(alloc, note, bounds, text, filled, prog, obligations, listed)
}

// Tells the inputs of an answer for a program.
fn tell_prog(
    alloc: Global,
    note: &mut Note,
    bounds: &Bounds,
    text: &[u8],
    filled: Option<&Prog>,
    prog: &Prog,
    answer: &[u8],
) -> Result<(), AllocError>
    requires { AreInRanges bounds.now }
    ensures { OnOk result (TellsRows prog.now (obligations prog.now) (rows_of (codes "input") answer.now) note.old.bytes.items note.new.bytes.items) }
{
    let obligations = obligations(alloc, prog)?;
    let listed = obligations.as_slice();
    tell_answer(alloc, note, bounds, text, filled, prog, listed, answer)
}

// The title, by the open parts of the program.
fn inputs_title(sites: &[Site]) -> &'static [u8]
    ensures { result.now ≡ inputs_title sites.now }
{
    match sites {
        [] => b"the program does not pass this input:",
        [_, ..] => b"no filling passes all of these inputs; with each open part 0:",
    }
}

// Tells the inputs of an answer for an expansion, and what its filling with zeros does on them.
fn tell_expansion(
    alloc: Global,
    note: &mut Note,
    expansion: &Expansion,
    text: &[u8],
    answer: &[u8],
) -> Result<(), AllocError>
    requires ranges { AreInRanges expansion.now.bounds }
    requires fillable { IsFillable expansion.now.expanded }
    ensures { OnOk result (TellsRows expansion.now.expanded.prog (obligations expansion.now.expanded.prog) (rows_of (codes "input") answer.now) note.old.bytes.items note.new.bytes.items) }
{
    let bounds = &expansion.bounds;
    let prog = &expansion.expanded.prog;
    match filling(alloc, &expansion.expanded) {
        Some(filled) => tell_prog(alloc, note, bounds, text, Some(&filled), prog, answer),
        None => tell_prog(alloc, note, bounds, text, None, prog, answer),
    }
}

// The same, with a title.
#[tactic(auto, using(crate::proofs::Fillable::known_ranges, crate::proofs::Telling::answer_told))]
fn tell_known(
    alloc: Global,
    told: &mut Told,
    expansion: &Expansion,
    text: &[u8],
    answer: &[u8],
) -> Result<(), AllocError>
    requires { IsKnown text.now expansion.now }
    ensures { OnOk result (TellsInputs text.now answer.now told.old told.new) }
{
    let title = inputs_title(expansion.expanded.sites.as_slice());
    told.title(&[title])?;
    tell_expansion(alloc, &mut told.notes, expansion, text, answer)?;
    Ok(())
}

/// Tells of the answer of a line `why` that has inputs: each of them with the names of its parameters, and what the filling with
/// zeros does on it. At most 20 are told, and how many more there are. After a refusal what is told is given up.
#[tactic(auto, using(crate::proofs::Telling::nothing_told))]
pub fn tell_inputs(
    alloc: Global,
    told: &mut Told,
    words: &[String],
    text: &[u8],
    answer: &[u8],
) -> Result<(), AllocError>
    ensures { OnOk result (TellsInputs text.now answer.now told.old told.new) }
{
    match expansion(alloc, words, text)? {
        Some(it) => tell_known(alloc, told, &it, text, answer),
        None => Ok(()),
    }
}
