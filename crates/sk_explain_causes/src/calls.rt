//! Functions that are not run.
ghost use Rattle.std.specs.Prelude.{◌≡◌};
ghost use Rattle.sk_opts.specs.Ranges.{IsInRanges};

use crate::lines::expanded;
use sk_base::{Name, Span};
use sk_exec::ExecFault;
use sk_explain_notes::{Told, near_by};
use sk_explain_places::place_of;
use sk_front::Expansion;
use sk_model::Site;
use sk_opts::{Line, Set, Usage, options};
use sk_prog::{Elem, Fun, ParamDef, StructDef, Ty};
use std::alloc::{AllocError, Global};

// An array of zeros is spelt where it has at most so many values.
const MOST_ZEROS: u64 = 16;

// The function of this name.
fn fun_of<'a>(funs: &'a [Fun], name: &[u8]) -> Option<&'a Fun> {
    for fun in funs {
        if fun.name.is(name) {
            return Some(fun);
        }
    }
    None
}

// The first of the functions whose names are nearest to a word.
fn nearest_fun<'a>(
    alloc: Global,
    funs: &'a [Fun],
    word: &[u8],
) -> Result<Option<&'a Fun>, AllocError> {
    let mut found = None;
    let mut least = usize::MAX;
    for fun in funs {
        if let Some(count) = near_by(alloc, word, fun.name.as_bytes())? {
            if count < least {
                least = count;
                found = Some(fun);
            }
        }
    }
    Ok(found)
}

fn tell_no_function(
    alloc: Global,
    told: &mut Told,
    funs: &[Fun],
    name: &[u8],
) -> Result<(), AllocError> {
    told.title(&[b"no function of the text has the name '", name, b"'"])?;
    match nearest_fun(alloc, funs, name)? {
        Some(fun) => told.title(&[b"; is '", fun.name.as_bytes(), b"' meant?"]),
        None => Ok(()),
    }
}

/// Appends words and the place of a part of a text to the notes. After a refusal title and notes are given up: nothing is
/// told.
pub fn push_part(told: &mut Told, text: &[u8], words: &[u8], span: Span) -> Result<(), AllocError>
    ensures { told.new.title ≡ told.old.title }
{
    let from = span.from as usize;
    if from > text.len() {
        return Ok(());
    }
    told.notes.word(words)?;
    told.notes.place(place_of(text, from))
}

fn tell_unfilled(
    told: &mut Told,
    text: &[u8],
    sites: &[Site],
    name: &[u8],
) -> Result<(), AllocError> {
    match sites.first() {
        Some(site) => {
            told.title(&[b"the program has open parts, and exec runs none that has"])?;
            push_part(told, text, b"the first stands at ", site.span)?;
            told.note(&[b"; sketch synth completes a sketch, sketch trace runs a filling"])
        }
        None => told.title(&[b"'", name, b"' is a generator, which is not run"]),
    }
}

// Appends a word for a number of things.
fn push_count(told: &mut Told, count: usize, one: &[u8], more: &[u8]) -> Result<(), AllocError> {
    told.title.number(count as u64)?;
    told.title(&[b" ", if count == 1 { one } else { more }])
}

fn tell_count(told: &mut Told, fun: &Fun, values: usize) -> Result<(), AllocError> {
    told.title(&[b"'", fun.name.as_bytes(), b"' has "])?;
    push_count(told, fun.params.len(), b"parameter", b"parameters")?;
    told.title(&[b", and the line has "])?;
    push_count(told, values, b"value", b"values")
}

// The type of single values.
fn elem_name<'a>(structs: &'a [StructDef], elem: Elem) -> &'a [u8] {
    match elem {
        Elem::Bit => b"bit",
        Elem::Int => b"int",
        Elem::Reference(id) => match structs.get(id.index as usize) {
            Some(of) => of.name.as_bytes(),
            None => b"struct",
        },
    }
}

// Appends a length in brackets to the title.
fn push_length(told: &mut Told, length: u32) -> Result<(), AllocError> {
    told.title(&[b"["])?;
    told.title.number(u64::from(length))?;
    told.title(&[b"]"])
}

// Appends a type to the title.
fn push_type(told: &mut Told, structs: &[StructDef], ty: Ty) -> Result<(), AllocError> {
    match ty {
        Ty::One(elem) => told.title(&[elem_name(structs, elem)]),
        Ty::Array(elem, count) => {
            told.title(&[elem_name(structs, elem)])?;
            push_length(told, count)
        }
        Ty::Grid(elem, count, rows) => {
            told.title(&[elem_name(structs, elem)])?;
            push_length(told, count)?;
            push_length(told, rows)
        }
    }
}

// Half of how many ints of so many bits there are.
fn half(bits: u32) -> u64 {
    let mut half = 1u64;
    for _bit in 1..bits {
        half = half.saturating_mul(2);
    }
    half
}

// Appends what spells a single value to the notes.
fn push_scalar(told: &mut Told, elem: Elem, bits: u32) -> Result<(), AllocError> {
    match elem {
        Elem::Bit => told.notes.say(&[b"0 or 1"]),
        Elem::Int | Elem::Reference(_) => {
            told.notes.say(&[b"digits with an optional - in front, -"])?;
            told.notes.number(half(bits))?;
            told.notes.say(&[b" to "])?;
            told.notes.number(half(bits).saturating_sub(1))
        }
    }
}

// Appends what spells a value of a type to the notes.
fn push_spelling(told: &mut Told, ty: Ty, bits: u32) -> Result<(), AllocError> {
    let (elem, count) = match ty {
        Ty::One(elem) => {
            push_scalar(told, elem, bits)?;
            return told.notes.end();
        }
        Ty::Array(elem, count) => (elem, u64::from(count)),
        Ty::Grid(elem, count, rows) => (elem, u64::from(count).saturating_mul(u64::from(rows))),
    };
    told.notes.number(count)?;
    told.notes
        .say(&[b" values with commas between them, each "])?;
    push_scalar(told, elem, bits)?;
    push_zeros(told, count)?;
    told.notes.end()
}

// Appends what spells an array of zeros, where it is not long.
fn push_zeros(told: &mut Told, count: u64) -> Result<(), AllocError> {
    if count > MOST_ZEROS {
        return Ok(());
    }
    told.notes.say(&[b", as 0"])?;
    for _zero in 1..count {
        told.notes.say(&[b",0"])?;
    }
    Ok(())
}

// Tells which value spells none of the type of its parameter.
fn tell_param(
    told: &mut Told,
    expansion: &Expansion,
    param: &ParamDef,
    index: usize,
    word: &[u8],
) -> Result<(), AllocError> {
    told.title(&[b"value "])?;
    told.title.number((index as u64).saturating_add(1))?;
    told.title(&[b", '", word, b"', spells no "])?;
    push_type(told, expansion.prog.structs.as_slice(), param.ty)?;
    told.title(&[b" for the parameter '", param.name.as_bytes(), b"'"])?;
    told.notes.say(&[b"it is "])?;
    push_spelling(told, param.ty, expansion.bounds.int_bits)
}

fn tell_value(
    told: &mut Told,
    expansion: &Expansion,
    fun: &Fun,
    values: &[Name],
    index: usize,
) -> Result<(), AllocError> {
    match (fun.params.as_slice().get(index), values.get(index)) {
        (Some(param), Some(word)) => tell_param(told, expansion, param, index, word.as_bytes()),
        _ => told.title(&[b"a value spells none of the type of its parameter"]),
    }
}

// What of a text is called.
#[derive(Clone, Copy)]
struct Called<'a> {
    name: &'a [u8],
    values: &'a [Name],
    // Whether a filling is run, which has no open parts.
    is_filled: bool,
}

// The open parts of what is run.
fn open_parts<'a>(expansion: &'a Expansion, called: &Called<'_>) -> &'a [Site] {
    if called.is_filled {
        &[]
    } else {
        expansion.expanded.sites.as_slice()
    }
}

// Tells why a function of a program is not run.
fn tell_fun(
    told: &mut Told,
    expansion: &Expansion,
    fun: &Fun,
    called: &Called<'_>,
    text: &[u8],
    reason: ExecFault,
) -> Result<(), AllocError> {
    let name = fun.name.as_bytes();
    let values = called.values;
    match reason {
        ExecFault::NoFunction => Ok(()),
        ExecFault::Unfilled => tell_unfilled(told, text, open_parts(expansion, called), name),
        ExecFault::References => told.title(&[
            b"a parameter or the result of '",
            name,
            b"' holds a reference, which no word spells",
        ]),
        ExecFault::Count => tell_count(told, fun, values.len()),
        ExecFault::Value { index } => tell_value(told, expansion, fun, values, index),
    }
}

// The same of the function of this name of a text.
fn tell_call(
    alloc: Global,
    told: &mut Told,
    set: &Set,
    called: &Called<'_>,
    text: &[u8],
    reason: ExecFault,
) -> Result<(), AllocError>
    requires { IsInRanges set.now }
{
    let Some(expansion) = expanded(alloc, set, text)? else {
        return told.title(&[b"the function is not run"]);
    };
    let funs = expansion.prog.funs.as_slice();
    match fun_of(funs, called.name) {
        Some(fun) => tell_fun(told, &expansion, fun, called, text, reason),
        None => tell_no_function(alloc, told, funs, called.name),
    }
}

// What a line calls.
fn call_of<'a>(name: &'a Name, values: &'a [Name], is_filled: bool) -> Called<'a> {
    Called {
        name: name.as_bytes(),
        values,
        is_filled,
    }
}

/// Tells why no function of a text is run. After a refusal title and notes are given up: nothing is told.
pub fn tell_not_run(
    alloc: Global,
    told: &mut Told,
    words: &[String],
    text: &[u8],
    reason: ExecFault,
) -> Result<(), AllocError> {
    match options(alloc, words) {
        Ok(Line::Exec { set, name, values }) => {
            let called = call_of(&name, values.as_slice(), false);
            tell_call(alloc, told, &set, &called, text, reason)
        }
        Ok(
            Line::Trace {
                set,
                name,
                values,
                ..
            },
        ) => {
            let called = call_of(&name, values.as_slice(), true);
            tell_call(alloc, told, &set, &called, text, reason)
        }
        Ok(Line::Synth { .. } | Line::Lower { .. } | Line::Check { .. } | Line::Itself { .. }) => {
            told.title(&[b"the function is not run"])
        }
        Ok(Line::Prune { .. }) => told.title(&[b"prune takes no program with an open part"]),
        Ok(Line::All { .. } | Line::Why { .. } | Line::Help | Line::Version) => {
            told.title(&[b"the function is not run"])
        }
        Err(Usage::NotALine) => told.title(&[b"the function is not run"]),
        Err(Usage::Memory) => Err(AllocError),
    }
}
