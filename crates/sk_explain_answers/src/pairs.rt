//! Inputs that no values of the open parts pass together, and what the values that each was found for do on it.
ghost use Rattle.std.specs.Prelude.{◌≡◌, Some, map, IfOk, OnOk};
ghost use Rattle.sk_app_texts.specs.ValueTexts.{value_text};
ghost use Rattle.sk_model.specs.Obligations.{obligations};
ghost use Rattle.sk_opts.specs.Ranges.{AreInRanges};
ghost use Rattle.sk_explain_answers.specs.Calls.{call_text, taker};
ghost use Rattle.sk_explain_answers.specs.Fillings.{IsFillable, IsKnown};
ghost use Rattle.sk_explain_answers.specs.Inputs.{AreTold, IsTold};
ghost use Rattle.sk_explain_answers.specs.Pairs.{TellsListed, TellsPairs, call_at, call_for, pairs_title};

use crate::calls::taker;
use crate::fates::fate_of;
use crate::fillings::expansion;
use crate::inputs::push_input;
use crate::more::{first_told, push_more};
use crate::runs::fate_text;
use sk_base::{List, Name};
use sk_exec_values::push_value;
use sk_explain_notes::{Note, Told};
use sk_front::Expansion;
use sk_holes::fill;
use sk_model::{Obligation, Pair, Site};
use sk_oblig_queries::obligations;
use sk_prog::{Fun, Value};
use std::alloc::{AllocError, Global};

// How a value is spelt.
fn word_of(alloc: Global, value: &Value) -> Result<Name, AllocError>
    ensures { IfOk result (λ word. word ≡ value_text value.now) }
{
    let mut out = Vec::new(alloc);
    push_value(&mut out, value)?;
    Ok(Name::from_vec(out))
}

// How values are spelt.
fn words_of(alloc: Global, values: &[Value]) -> Result<List<Name>, AllocError>
    ensures { IfOk result (λ words. words ≡ map value_text values.now) }
{
    let mut words = List::new(alloc);
    let mut rest = values;
    while let [value, others @ ..] = rest {
        let word = word_of(alloc, value)?;
        words.push(word)?;
        rest = others;
    }
    Ok(words)
}

// What the values of a pair do on its input; nothing where there is no filling, or no memory for its run.
fn done_on(
    alloc: Global,
    text: &[u8],
    expansion: &Expansion,
    obligation: Obligation,
    pair: &Pair,
) -> Result<Name, AllocError>
    requires ranges { AreInRanges expansion.now.bounds }
    requires fillable { IsFillable expansion.now.expanded }
{
    let Ok(filled) = fill(alloc, &expansion.expanded, &pair.choice) else {
        return Name::from_slice(alloc, b"");
    };
    let args = pair.input.args.as_slice();
    match fate_of(alloc, &filled, &expansion.bounds, obligation, args) {
        Ok(fate) => fate_text(alloc, text, &filled, obligation, &fate),
        Err(_) => Name::from_slice(alloc, b""),
    }
}

// Tells the input of a pair, of an obligation whose function is this one.
#[tactic(auto, using(crate::proofs::Telling::input_told))]
fn tell_call(
    alloc: Global,
    note: &mut Note,
    text: &[u8],
    expansion: &Expansion,
    obligation: Obligation,
    fun: &Fun,
    pair: &Pair,
) -> Result<(), AllocError>
    requires ranges { AreInRanges expansion.now.bounds }
    requires fillable { IsFillable expansion.now.expanded }
    ensures { OnOk result (IsTold (Some (call_text fun.now (map value_text pair.now.input.args))) note.old.bytes.items note.new.bytes.items) }
{
    let words = words_of(alloc, pair.input.args.as_slice())?;
    let done = done_on(alloc, text, expansion, obligation, pair)?;
    push_input(note, fun, words.as_slice(), &done)?;
    Ok(())
}

// Tells the input of a pair, of an obligation.
#[tactic(auto, using(crate::proofs::Telling::none_told))]
fn tell_obligation(
    alloc: Global,
    note: &mut Note,
    text: &[u8],
    expansion: &Expansion,
    obligation: Obligation,
    pair: &Pair,
) -> Result<(), AllocError>
    requires ranges { AreInRanges expansion.now.bounds }
    requires fillable { IsFillable expansion.now.expanded }
    ensures { OnOk result (IsTold (call_for expansion.now.expanded.prog pair.now.input obligation) note.old.bytes.items note.new.bytes.items) }
{
    match taker(&expansion.expanded.prog, obligation) {
        Some(fun) => {
            tell_call(alloc, note, text, expansion, obligation, fun, pair)?;
            Ok(())
        }
        None => Ok(()),
    }
}

// Tells the input of a pair.
#[tactic(auto, using(crate::proofs::Telling::none_told))]
fn tell_pair(
    alloc: Global,
    note: &mut Note,
    text: &[u8],
    expansion: &Expansion,
    obligations: &[Obligation],
    pair: &Pair,
) -> Result<(), AllocError>
    requires ranges { AreInRanges expansion.now.bounds }
    requires fillable { IsFillable expansion.now.expanded }
    ensures { OnOk result (IsTold (call_at expansion.now.expanded.prog obligations.now pair.now) note.old.bytes.items note.new.bytes.items) }
{
    match obligations.get(pair.input.obligation as usize) {
        Some(obligation) => {
            tell_obligation(alloc, note, text, expansion, *obligation, pair)?;
            Ok(())
        }
        None => Ok(()),
    }
}

// Tells the inputs of pairs.
#[tactic(auto, using(crate::proofs::Telling::inputs_told))]
fn tell_all(
    alloc: Global,
    note: &mut Note,
    text: &[u8],
    expansion: &Expansion,
    obligations: &[Obligation],
    pairs: &[Pair],
) -> Result<(), AllocError>
    requires ranges { AreInRanges expansion.now.bounds }
    requires fillable { IsFillable expansion.now.expanded }
    ensures { OnOk result (AreTold (map (call_at expansion.now.expanded.prog obligations.now) pairs.now) note.old.bytes.items note.new.bytes.items) }
{
    let [pair, others @ ..] = pairs else {
        return Ok(());
    };
    tell_pair(alloc, note, text, expansion, obligations, pair)?;
    tell_all(alloc, note, text, expansion, obligations, others)?;
    Ok(())
}

// Tells the inputs of the first 20 pairs, and how many more there are.
#[tactic(auto, using(crate::proofs::Telling::pairs_told))]
fn tell_first(
    alloc: Global,
    note: &mut Note,
    text: &[u8],
    expansion: &Expansion,
    obligations: &[Obligation],
    pairs: &[Pair],
) -> Result<(), AllocError>
    requires ranges { AreInRanges expansion.now.bounds }
    requires fillable { IsFillable expansion.now.expanded }
    ensures { OnOk result (TellsListed expansion.now.expanded.prog obligations.now pairs.now note.old.bytes.items note.new.bytes.items) }
{
    let first = first_told(pairs);
    tell_all(alloc, note, text, expansion, obligations, first)?;
    push_more(note, pairs.len())?;
    Ok(())
}

// Tells the inputs of pairs for an expansion.
fn tell_listed(
    alloc: Global,
    note: &mut Note,
    text: &[u8],
    expansion: &Expansion,
    pairs: &[Pair],
) -> Result<(), AllocError>
    requires ranges { AreInRanges expansion.now.bounds }
    requires fillable { IsFillable expansion.now.expanded }
    ensures { OnOk result (TellsListed expansion.now.expanded.prog (obligations expansion.now.expanded.prog) pairs.now note.old.bytes.items note.new.bytes.items) }
{
    let obligations = obligations(alloc, &expansion.expanded.prog)?;
    let listed = obligations.as_slice();
    tell_first(alloc, note, text, expansion, listed, pairs)
}

// The line in front of the inputs, by the open parts of the program.
fn pairs_title(sites: &[Site]) -> &'static [u8]
    ensures { result.now ≡ pairs_title sites.now }
{
    match sites {
        [] => b"the program does not pass this input:",
        [_, ..] => b"no values pass all of these inputs; with the values that each was found for:",
    }
}

// The same, with the line in front.
#[tactic(auto, using(crate::proofs::Fillable::known_ranges, crate::proofs::Telling::known_pairs_told))]
fn tell_known(
    alloc: Global,
    note: &mut Note,
    text: &[u8],
    expansion: &Expansion,
    pairs: &[Pair],
) -> Result<(), AllocError>
    requires { IsKnown text.now expansion.now }
    ensures { OnOk result (TellsPairs text.now pairs.now note.old.bytes.items note.new.bytes.items) }
{
    let title = pairs_title(expansion.expanded.sites.as_slice());
    note.line(&[title])?;
    tell_listed(alloc, note, text, expansion, pairs)?;
    Ok(())
}

// Tells of pairs, where the text has an expansion.
#[tactic(auto, using(crate::proofs::Telling::no_pairs_told))]
fn tell_some(
    alloc: Global,
    note: &mut Note,
    words: &[String],
    text: &[u8],
    pairs: &[Pair],
) -> Result<(), AllocError>
    ensures { OnOk result (TellsPairs text.now pairs.now note.old.bytes.items note.new.bytes.items) }
{
    match expansion(alloc, words, text)? {
        Some(it) => tell_known(alloc, note, text, &it, pairs),
        None => Ok(()),
    }
}

/// Tells the inputs of pairs that no values of the open parts of a text pass together: each with the names of its parameters, and what the
/// values that it was found for do on it. At most 20 are told, and how many more there are. After a refusal what is told is given
/// up.
#[tactic(auto, using(crate::proofs::Telling::no_pairs_told))]
pub fn tell_pairs(
    alloc: Global,
    told: &mut Told,
    words: &[String],
    text: &[u8],
    pairs: &[Pair],
) -> Result<(), AllocError>
    ensures title { told.new.title ≡ told.old.title }
    ensures notes { OnOk result (TellsPairs text.now pairs.now told.old.notes.bytes.items told.new.notes.bytes.items) }
{
    if pairs.is_empty() {
        return Ok(());
    }
    tell_some(alloc, &mut told.notes, words, text, pairs)?;
    Ok(())
}
