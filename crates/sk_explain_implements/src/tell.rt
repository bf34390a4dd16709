//! What is told of a function that cannot implement another one.
ghost use Rattle.std.specs.Prelude.{◌≡◌};

use crate::differences::{Difference, first_difference};
use crate::headings::{Heading, headings_of};
use sk_base::Span;
use sk_explain_notes::{Note, Told};
use sk_explain_steps::{bytes_of, push_place, tokens_of};
use sk_types_laws::{Rule, TypeFault};
use std::alloc::{AllocError, Global};

// The function with a name.
fn named<'a>(text: &[u8], headings: &[Heading<'a>], name: Span) -> Option<Heading<'a>> {
    for heading in headings {
        if bytes_of(text, heading.name) == bytes_of(text, name) {
            return Some(*heading);
        }
    }
    None
}

// A function that implements another one, the other one, and in what it surely departs from it.
#[derive(Drop, Clone, Copy)]
struct Departing<'a> {
    of: Heading<'a>,
    reference: Heading<'a>,
    difference: Difference,
}

// In what a function surely departs from the one that it implements.
fn departing_of<'a>(
    text: &[u8],
    headings: &[Heading<'a>],
    of: Heading<'a>,
) -> Option<Departing<'a>> {
    let reference = named(text, headings, of.implements?)?;
    let difference = first_difference(reference, of)?;
    Some(Departing {
        of,
        reference,
        difference,
    })
}

// The first function that surely departs from the one that it implements.
fn first_departing<'a>(text: &[u8], headings: &[Heading<'a>]) -> Option<Departing<'a>> {
    for heading in headings {
        if let Some(found) = departing_of(text, headings, *heading) {
            return Some(found);
        }
    }
    None
}

// Appends a name with its place.
fn push_name(note: &mut Note, text: &[u8], name: Span) -> Result<(), AllocError> {
    note.say(&[b"'", bytes_of(text, name), b"' at "])?;
    push_place(note, text, name.from)
}

// Appends how many parameters a function has.
fn push_count(note: &mut Note, count: usize) -> Result<(), AllocError> {
    note.word(b" has ")?;
    note.number(count as u64)?;
    if count == 1 {
        note.word(b" parameter")
    } else {
        note.word(b" parameters")
    }
}

// Appends which parameter of a function is meant.
fn push_param(note: &mut Note, text: &[u8], number: usize, name: Span) -> Result<(), AllocError> {
    note.word(b"parameter ")?;
    note.number(number as u64)?;
    note.word(b" of ")?;
    push_name(note, text, name)
}

// Appends two types, that of a reference first.
fn push_types(
    note: &mut Note,
    text: &[u8],
    of: Span,
    name: Span,
    not: Span,
) -> Result<(), AllocError> {
    note.say(&[b" is ", bytes_of(text, of), b", that of "])?;
    push_name(note, text, name)?;
    note.say(&[b" is ", bytes_of(text, not)])
}

// Appends in what parameters differ by `ref`.
fn push_refs(
    note: &mut Note,
    text: &[u8],
    number: usize,
    with: Span,
    without: Span,
) -> Result<(), AllocError> {
    push_param(note, text, number, with)?;
    note.word(b" is ref, that of ")?;
    push_name(note, text, without)?;
    note.word(b" is not")
}

// Appends that a struct stands where none can.
fn push_record(note: &mut Note, text: &[u8], of: Span) -> Result<(), AllocError> {
    note.say(&[
        b" is of the struct '",
        bytes_of(text, of),
        b"': references cannot be compared",
    ])
}

// Appends in what results and counts differ.
fn push_results(note: &mut Note, text: &[u8], it: Departing<'_>) -> Result<(), AllocError> {
    let (of, reference) = (it.of.name, it.reference.name);
    match it.difference {
        Difference::Result { of: ty, not } => {
            note.word(b"the result of ")?;
            push_name(note, text, reference)?;
            push_types(note, text, ty, of, not)
        }
        Difference::ResultRecord { of } => {
            note.word(b"the result of ")?;
            push_name(note, text, reference)?;
            push_record(note, text, of)
        }
        Difference::Count { of: count, not } => {
            push_name(note, text, reference)?;
            push_count(note, count)?;
            note.word(b", ")?;
            push_name(note, text, of)?;
            push_count(note, not)
        }
        _ => Ok(()),
    }
}

// Appends in what a function departs from the one that it implements.
fn push_difference(note: &mut Note, text: &[u8], it: Departing<'_>) -> Result<(), AllocError> {
    let (of, reference) = (it.of.name, it.reference.name);
    match it.difference {
        Difference::ReferenceGenerates => {
            push_name(note, text, reference)?;
            note.word(b" is a generator, which nothing implements")
        }
        Difference::Generates => {
            push_name(note, text, of)?;
            note.word(b" is a generator, which implements nothing")
        }
        Difference::ByRef { number } => push_refs(note, text, number, reference, of),
        Difference::NotByRef { number } => push_refs(note, text, number, of, reference),
        Difference::Param {
            number,
            of: ty,
            not,
        } => {
            push_param(note, text, number, reference)?;
            push_types(note, text, ty, of, not)
        }
        Difference::ParamRecord { number, of } => {
            push_param(note, text, number, reference)?;
            push_record(note, text, of)
        }
        Difference::Result { .. } | Difference::ResultRecord { .. } | Difference::Count { .. } => {
            push_results(note, text, it)
        }
    }
}

// Whether a fault is one of headings.
fn is_of_heading(fault: &TypeFault) -> bool {
    fault.span.to == 0
        && match fault.rule {
            Rule::BadSignature => true,
            Rule::UnknownName | Rule::Twice | Rule::Mismatch | Rule::NotTarget => false,
            Rule::NotConstant | Rule::LiteralRange | Rule::LengthRange => false,
            Rule::NoAlternative | Rule::ReorderForm | Rule::NameKept | Rule::HoleWidth => false,
        }
}

/// Tells of a fault of headings the first function that surely departs from the one that it implements, in what, and where both
/// stand. After a refusal title and notes are given up: nothing is told.
pub fn push_implemented(
    alloc: Global,
    told: &mut Told,
    text: &[u8],
    fault: &TypeFault,
) -> Result<(), AllocError>
    ensures { told.new.title ≡ told.old.title }
{
    if !is_of_heading(fault) {
        return Ok(());
    }
    let tokens = tokens_of(alloc, text)?;
    let headings = headings_of(alloc, tokens.as_slice())?;
    match first_departing(text, headings.as_slice()) {
        Some(it) => {
            push_difference(&mut told.notes, text, it)?;
            told.notes.end()
        }
        None => Ok(()),
    }
}
