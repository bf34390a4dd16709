//! What is told of a rule that is broken at the top, in fields or in headings.
use crate::declared::{Declared, declarations};
use crate::implements::{functions, only_implementation, unknown_implemented};
use crate::pieces::bytes_of;
use crate::signatures::{Broken, first_broken};
use crate::twice::{Twice, first_twice};
use crate::types::{first_unknown, foreign_note, structs};
use sk_base::Span;
use sk_explain_forms::near_keyword;
use sk_explain_notes::{Told, nearest};
use sk_explain_places::place_of;
use sk_tree::Token;
use sk_types_laws::Rule;
use std::alloc::{AllocError, Global};

// All bytes of a text.
const WHOLE: Span = Span {
    from: 0,
    to: u32::MAX,
};

// Where a span begins.
fn push_at(told: &mut Told, text: &[u8], span: Span) -> Result<(), AllocError> {
    let from = span.from as usize;
    if from > text.len() {
        return Ok(());
    }
    told.title.word(b" at ")?;
    told.title.place(place_of(text, from))
}

// A name and where it stands.
fn push_name(told: &mut Told, text: &[u8], span: Span) -> Result<(), AllocError> {
    told.title(&[b"'", bytes_of(text, span), b"'"])?;
    push_at(told, text, span)
}

// What was meant by the name of a type, or what to write in its place.
fn push_meant(
    alloc: Global,
    told: &mut Told,
    text: &[u8],
    tokens: &[Token],
    name: &[u8],
) -> Result<(), AllocError> {
    if let Some(note) = foreign_note(name) {
        return told.note(&[note]);
    }
    let names = structs(alloc, text, tokens)?;
    if push_near(alloc, told, names.as_slice(), name)? {
        return Ok(());
    }
    match near_keyword(alloc, name)? {
        Some(near) => told.title(&[b"; is ", near, b" meant?"]),
        None => Ok(()),
    }
}

// The name that is near another; answers whether there is one.
fn push_near(
    alloc: Global,
    told: &mut Told,
    names: &[&[u8]],
    name: &[u8],
) -> Result<bool, AllocError> {
    let Some(near) = nearest(alloc, name, names)? else {
        return Ok(false);
    };
    told.title(&[b"; is '", near, b"' meant?"])?;
    Ok(true)
}

// A function that is not there, and is implemented.
fn tell_implemented(
    alloc: Global,
    told: &mut Told,
    text: &[u8],
    tokens: &[Token],
    found: &[Declared],
) -> Result<bool, AllocError> {
    let Some(span) = unknown_implemented(alloc, tokens, found)? else {
        return Ok(false);
    };
    let functions = functions(alloc, text, tokens, found)?;
    told.title(&[b"unknown function "])?;
    push_name(told, text, span)?;
    let _is_near = push_near(alloc, told, functions.as_slice(), bytes_of(text, span))?;
    Ok(true)
}

// A type that is not there.
fn tell_type(
    alloc: Global,
    told: &mut Told,
    text: &[u8],
    tokens: &[Token],
) -> Result<bool, AllocError> {
    let found = declarations(alloc, tokens)?;
    let Some(span) = first_unknown(alloc, tokens, found.as_slice(), WHOLE)? else {
        return tell_implemented(alloc, told, text, tokens, found.as_slice());
    };
    told.title(&[b"unknown type "])?;
    push_name(told, text, span)?;
    push_meant(alloc, told, text, tokens, bytes_of(text, span))?;
    Ok(true)
}

// Both places of a name.
fn push_twice(told: &mut Told, text: &[u8], twice: Twice) -> Result<(), AllocError> {
    told.title(&[b"the name "])?;
    push_name(told, text, twice.first)?;
    told.title(&[b" stands again"])?;
    push_at(told, text, twice.second)
}

// A name that stands twice.
fn tell_twice(
    alloc: Global,
    told: &mut Told,
    text: &[u8],
    tokens: &[Token],
) -> Result<bool, AllocError> {
    let found = declarations(alloc, tokens)?;
    let Some(twice) = first_twice(alloc, text, found.as_slice())? else {
        return Ok(false);
    };
    push_twice(told, text, twice)?;
    Ok(true)
}

// What a harness cannot have.
fn tell_signature(told: &mut Told, text: &[u8], tokens: &[Token]) -> Result<bool, AllocError> {
    match first_broken(tokens) {
        Some(Broken::Copied(name)) => {
            told.title(&[b"a harness cannot have the parameter "])?;
            push_name(told, text, name)?;
            told.title(&[b", which is copied back"])?;
        }
        Some(Broken::Reference { name, of }) => {
            told.title(&[b"a harness cannot have the parameter "])?;
            push_name(told, text, name)?;
            told.title(&[b", which is a reference"])?;
            told.note(&[
                b"make each '",
                bytes_of(text, of),
                b"' in the harness, by new, from parameters that are int or bit",
            ])?;
        }
        Some(Broken::Result(name)) => {
            told.title(&[b"a harness cannot have the result "])?;
            push_name(told, text, name)?;
            told.title(&[b", which is a reference"])?;
        }
        None => return tell_implementation(told, text, tokens),
    }
    Ok(true)
}

// A function that implements another one of another kind, where it is the only one that implements.
fn tell_implementation(told: &mut Told, text: &[u8], tokens: &[Token]) -> Result<bool, AllocError> {
    let Some((name, of)) = only_implementation(tokens) else {
        return Ok(false);
    };
    told.title(&[b"the function "])?;
    push_name(told, text, name)?;
    told.title(&[b" cannot implement '", bytes_of(text, of), b"'"])?;
    Ok(true)
}

/// Tells which type that stands within a span is not there, by the title and a line; answers whether one is not. After a refusal
/// title and notes are given up: nothing is told.
pub fn tell_type_at(
    alloc: Global,
    told: &mut Told,
    text: &[u8],
    tokens: &[Token],
    span: Span,
) -> Result<bool, AllocError> {
    let found = declarations(alloc, tokens)?;
    let Some(span) = first_unknown(alloc, tokens, found.as_slice(), span)? else {
        return Ok(false);
    };
    let name = bytes_of(text, span);
    told.title(&[b"unknown type '", name, b"'"])?;
    push_meant(alloc, told, text, tokens, name)?;
    Ok(true)
}

/// Tells which name stands twice, where it does so the second time within a span, by the title; answers whether it does. After a
/// refusal title and notes are given up: nothing is told.
pub fn tell_twice_at(
    alloc: Global,
    told: &mut Told,
    text: &[u8],
    tokens: &[Token],
    span: Span,
) -> Result<bool, AllocError> {
    let found = declarations(alloc, tokens)?;
    match first_twice(alloc, text, found.as_slice())? {
        Some(twice) if span.from <= twice.second.from && twice.second.to <= span.to => {
            push_twice(told, text, twice)?;
            Ok(true)
        }
        _ => Ok(false),
    }
}

/// Tells which name breaks a rule and where it stands, by the title and lines, of a fault that has no place; answers whether
/// that is known. After a refusal title and notes are given up: nothing is told.
pub fn tell_nowhere(
    alloc: Global,
    told: &mut Told,
    text: &[u8],
    tokens: &[Token],
    rule: Rule,
) -> Result<bool, AllocError> {
    match rule {
        Rule::UnknownName => tell_type(alloc, told, text, tokens),
        Rule::Twice => tell_twice(alloc, told, text, tokens),
        Rule::BadSignature => tell_signature(told, text, tokens),
        Rule::Mismatch | Rule::NotTarget | Rule::NotConstant | Rule::LiteralRange => Ok(false),
        Rule::LengthRange | Rule::NoAlternative | Rule::ReorderForm => Ok(false),
        Rule::NameKept | Rule::HoleWidth => Ok(false),
    }
}
