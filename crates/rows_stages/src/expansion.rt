//! Stages of expansion: sizes, sites and fillings.
use crate::fault::Fault;
use crate::front::program_of;
use crate::reading::push_span;
use crate::task::numbers_of;
use sk_base::{Bounds, List, at, push_number};
use sk_expand::expand;
use sk_expand_sizes::{Sizes, sizes};
use sk_holes::fill;
use sk_model::{Choice, Expanded};
use sk_print::print;
use sk_prog::{PEForm, PExpr, PForm, PStmt, Prog};
use std::alloc::{AllocError, Global};

fn expansion_of(alloc: Global, text: &[u8], bounds: &Bounds) -> Result<Expanded, Fault> {
    let prog = program_of(alloc, text, bounds)?;
    let expanded = expand(alloc, &prog, bounds)?;
    Ok(expanded)
}

fn push_part(shown: &mut Vec<u8>, word: &[u8], number: u64) -> Result<(), AllocError> {
    shown.extend_from_slice(word)?;
    push_number(shown, number)
}

// Appends the numbers of functions, steps, records and sites.
fn push_sizes(shown: &mut Vec<u8>, expanded: &Expanded, sizes: &Sizes) -> Result<(), AllocError> {
    push_part(shown, b"functions ", expanded.prog.funs.len() as u64)?;
    push_part(shown, b" steps ", u64::from(sizes.steps))?;
    push_part(shown, b" records ", u64::from(sizes.news))?;
    push_part(shown, b" sites ", expanded.sites.len() as u64)
}

/// Appends how large the expansion of a text is, and how many values each site has where they are wanted.
pub fn push_sizes_of(
    shown: &mut Vec<u8>,
    alloc: Global,
    text: &[u8],
    bounds: &Bounds,
    each: bool,
) -> Result<(), Fault> {
    let expanded = expansion_of(alloc, text, bounds)?;
    let found = sizes(alloc, &expanded, bounds)?;
    push_sizes(shown, &expanded, &found)?;
    if each {
        for site in expanded.sites.as_slice() {
            push_part(shown, b" ", site.size)?;
        }
    }
    Ok(())
}

/// Appends how many functions of an expansion are no copies, and its layout.
pub fn push_expansion(
    shown: &mut Vec<u8>,
    alloc: Global,
    text: &[u8],
    bounds: &Bounds,
) -> Result<(), Fault> {
    let expanded = expansion_of(alloc, text, bounds)?;
    push_part(shown, b"ordinary ", u64::from(expanded.ordinary))?;
    shown.push(b'\n')?;
    let layout = print(alloc, &expanded.prog)?;
    shown.extend_from_slice(layout.as_slice())?;
    Ok(())
}

/// Appends how many values each site of an expansion has, and its place.
pub fn push_sites(
    shown: &mut Vec<u8>,
    alloc: Global,
    text: &[u8],
    bounds: &Bounds,
) -> Result<(), Fault> {
    let expanded = expansion_of(alloc, text, bounds)?;
    for site in expanded.sites.as_slice() {
        push_part(shown, b"", site.size)?;
        shown.push(b' ')?;
        push_span(shown, site.span)?;
        shown.push(b'\n')?;
    }
    Ok(())
}

// The filling of an expansion with these values.
#[tactic(auto, using(crate::proofs::Fillable::fillable))]
fn filled(alloc: Global, prog: &Prog, bounds: &Bounds, values: List<u64>) -> Result<Prog, Fault> {
    match expand(alloc, prog, bounds) {
        Ok(expanded) => match fill(alloc, &expanded, &Choice { values }) {
            Ok(filling) => Ok(filling),
            Err(fault) => Err(Fault::from(fault)),
        },
        Err(fault) => Err(Fault::from(fault)),
    }
}

// The filling of a text with the values that words give.
fn filling_of(
    alloc: Global,
    text: &[u8],
    bounds: &Bounds,
    words: &[String],
) -> Result<Prog, Fault> {
    let values = numbers_of(alloc, words)?;
    let prog = program_of(alloc, text, bounds)?;
    filled(alloc, &prog, bounds, List::from_vec(values))
}

/// Appends the layout of a filling.
pub fn push_filling(
    shown: &mut Vec<u8>,
    alloc: Global,
    text: &[u8],
    bounds: &Bounds,
    words: &[String],
) -> Result<(), Fault> {
    let filling = filling_of(alloc, text, bounds, words)?;
    let layout = print(alloc, &filling)?;
    shown.extend_from_slice(layout.as_slice())?;
    Ok(())
}

// The expression of a statement that has one alone.
fn expression(s: &PStmt) -> Option<&PExpr> {
    match &s.form {
        PForm::Declare {
            slot: _,
            name: _,
            ty: _,
            value: Some(e),
        } => Some(e),
        PForm::Assert(e) => Some(e),
        PForm::Minimize(e) => Some(e),
        _ => None,
    }
}

// Appends the spans of what stands in parentheses or braces.
fn push_inner(shown: &mut Vec<u8>, e: &PExpr) -> Result<(), AllocError> {
    match &e.form {
        PEForm::Paren(of) => {
            shown.push(b' ')?;
            push_span(shown, of.get().span)
        }
        PEForm::Braces(es) => {
            for e in es.as_slice() {
                shown.push(b' ')?;
                push_span(shown, e.span)?;
            }
            Ok(())
        }
        _ => Ok(()),
    }
}

fn push_statement(shown: &mut Vec<u8>, s: &PStmt) -> Result<(), AllocError> {
    push_span(shown, s.span)?;
    if let Some(e) = expression(s) {
        shown.push(b' ')?;
        push_span(shown, e.span)?;
        push_inner(shown, e)?;
    }
    shown.push(b'\n')?;
    Ok(())
}

/// Appends the spans of what stands in a function of a filling.
pub fn push_spans(
    shown: &mut Vec<u8>,
    alloc: Global,
    text: &[u8],
    bounds: &Bounds,
    words: &[String],
) -> Result<(), Fault> {
    let [which, values @ ..] = words else {
        return Err(Fault::Words);
    };
    let Ok(which) = which.as_str().parse::<usize>() else {
        return Err(Fault::Words);
    };
    let filling = filling_of(alloc, text, bounds, values)?;
    if let Some(f) = at(filling.funs.as_slice(), which) {
        for s in f.body.as_slice() {
            push_statement(shown, s)?;
        }
    }
    Ok(())
}
