//! What is told of a type that cannot stand where it does.
use crate::advice::push_advice;
use crate::finding::{Finding, Stands, What};
use crate::own::Class;
use crate::pieces::{bytes_of, lone_word, token_from};
use crate::top::Scope;
use crate::types::{INT, Type};
use sk_base::Span;
use sk_explain_notes::{Told, nearest};
use sk_explain_places::place_of;
use sk_parser::{ParseFault, parse};
use sk_tree::{Token, Tree};
use std::alloc::{AllocError, Global};

// A text that was refused, and where.
#[derive(Clone, Copy)]
struct Refused<'a> {
    text: &'a [u8],
    tokens: &'a [Token],
    span: Span,
}

// Braces with so many elements.
fn push_elements(told: &mut Told, count: usize) -> Result<(), AllocError> {
    let word: &[u8] = if count == 1 {
        b" element"
    } else {
        b" elements"
    };
    told.notes.word(b"braces with ")?;
    told.notes.number(count as u64)?;
    told.notes.word(word)
}

// What stands somewhere.
fn push_stands(told: &mut Told, stands: Stands<'_>) -> Result<(), AllocError> {
    match stands {
        Stands::Is(ty) => ty.push(&mut told.notes),
        Stands::Number(_) => INT.push(&mut told.notes),
        Stands::Hole => told.notes.word(b"a hole"),
        Stands::Null => told.notes.word(b"null"),
        Stands::Braces(count) => push_elements(told, count),
    }
}

// What is wanted, and what stands there.
fn push_unfit<'a>(told: &mut Told, wanted: Type<'a>, stands: Stands<'a>) -> Result<(), AllocError> {
    told.notes.word(b"wanted ")?;
    wanted.push(&mut told.notes)?;
    told.notes.word(b", found ")?;
    push_stands(told, stands)?;
    told.notes.end()
}

// What is wanted for `ref`, and what stands there.
fn push_exact<'a>(told: &mut Told, wanted: Type<'a>, found: Type<'a>) -> Result<(), AllocError> {
    told.notes.word(b"wanted a variable of ")?;
    wanted.push(&mut told.notes)?;
    told.notes.word(b" for ref, found ")?;
    found.push(&mut told.notes)?;
    told.notes.end()
}

// What operands are wanted.
fn class_name(class: Class) -> &'static [u8] {
    match class {
        Class::Numbers => b"int",
        Class::Sums => b"int or bit[n]",
        Class::Bits => b"bit or bit[n]",
        Class::Truths => b"bit",
        Class::Shifts => b"bit[n] on its left",
        Class::Any => b"two of one type",
    }
}

// The operator behind these bytes, and where it stands.
fn push_operator(told: &mut Told, refused: Refused<'_>, behind: u32) -> Result<(), AllocError> {
    let Some(token) = token_from(refused.tokens, behind) else {
        return Ok(());
    };
    let from = token.span.from as usize;
    told.notes
        .say(&[b"'", bytes_of(refused.text, token.span), b"'"])?;
    if from > refused.text.len() {
        return Ok(());
    }
    told.notes.word(b" at ")?;
    told.notes.place(place_of(refused.text, from))
}

// An operator with what it wants and what it has.
fn push_operand(
    told: &mut Told,
    refused: Refused<'_>,
    class: Class,
    stands: Stands<'_>,
    behind: u32,
) -> Result<(), AllocError> {
    push_operator(told, refused, behind)?;
    told.notes
        .say(&[b" wants ", class_name(class), b", found "])?;
    push_stands(told, stands)?;
    told.notes.end()
}

// An operator with two operands that do not join.
fn push_apart<'a>(
    told: &mut Told,
    refused: Refused<'_>,
    left: Stands<'a>,
    right: Stands<'a>,
    behind: u32,
) -> Result<(), AllocError> {
    push_operator(told, refused, behind)?;
    told.notes.word(b" has ")?;
    push_stands(told, left)?;
    told.notes.word(b" on its left and ")?;
    push_stands(told, right)?;
    told.note(&[b" on its right"])
}

// How many arguments are wanted, and how many stand there.
fn push_count(told: &mut Told, wanted: usize, found: usize) -> Result<(), AllocError> {
    let word: &[u8] = if wanted == 1 {
        b" argument"
    } else {
        b" arguments"
    };
    told.notes.word(b"wanted ")?;
    told.notes.number(wanted as u64)?;
    told.notes.say(&[word, b", found "])?;
    told.notes.number(found as u64)?;
    told.notes.end()
}

// The line of what is found.
fn push_line(
    told: &mut Told,
    refused: Refused<'_>,
    finding: Finding<'_>,
) -> Result<(), AllocError> {
    match finding {
        Finding::Unfit { wanted, stands } => push_unfit(told, wanted, stands),
        Finding::Exact { wanted, found } => push_exact(told, wanted, found),
        Finding::Operand {
            class,
            stands,
            behind,
        } => { push_operand(told, refused, class, stands, behind) }
        Finding::Apart {
            left,
            right,
            behind,
        } => push_apart(told, refused, left, right, behind),
        Finding::Count { wanted, found } => push_count(told, wanted, found),
        Finding::Base { wanted, found } => {
            told.notes.say(&[b"wanted ", wanted, b", found "])?;
            found.push(&mut told.notes)?;
            told.notes.end()
        }
        Finding::Unknown { .. } => Ok(()),
        Finding::NoResult => told.note(&[b"the function has no result: return; stands alone"]),
        Finding::WantsResult(ty) => {
            told.notes.word(b"wanted ")?;
            ty.push(&mut told.notes)?;
            told.note(&[b" behind return"])
        }
    }
}

// The title.
fn title_of(finding: Finding<'_>) -> &'static [u8] {
    match finding {
        Finding::Count { .. } => b"a call has another number of arguments than its function",
        _ => b"a type cannot stand where it does",
    }
}

// The title of a name that is not there, with one that is near.
fn tell_unknown<'a>(
    alloc: Global,
    told: &mut Told,
    scope: &Scope<'a>,
    what: What<'a>,
    name: &[u8],
) -> Result<(), AllocError> {
    match what {
        What::Function => told.title(&[b"unknown function '", name, b"'"])?,
        What::Struct => told.title(&[b"unknown struct '", name, b"'"])?,
        What::Field(of) => {
            told.title(&[b"unknown field '", name])?;
            told.title(&[b"' of '", of, b"'"])?;
        }
    }
    let names = scope.names(alloc, what)?;
    match nearest(alloc, name, names.as_slice())? {
        Some(near) => told.title(&[b"; is '", near, b"' meant?"]),
        None => Ok(()),
    }
}

// All that is told of what is found.
fn tell_found<'a>(
    alloc: Global,
    told: &mut Told,
    refused: Refused<'_>,
    scope: &Scope<'a>,
    finding: Finding<'a>,
) -> Result<(), AllocError> {
    if let Finding::Unknown { what, name } = finding {
        return tell_unknown(alloc, told, scope, what, name);
    }
    let name = lone_word(refused.text, refused.tokens, refused.span).unwrap_or(b"e".as_slice());
    told.title(&[title_of(finding)])?;
    push_line(told, refused, finding)?;
    push_advice(told, name, finding)
}

// The same, of the tree of a text.
fn tell_in(
    alloc: Global,
    told: &mut Told,
    refused: Refused<'_>,
    tree: &Tree,
) -> Result<bool, AllocError> {
    let mut scope = Scope::of_tree(alloc, tree, refused.span)?;
    match scope.found()? {
        Some(finding) => {
            tell_found(alloc, told, refused, &scope, finding)?;
            Ok(true)
        }
        None => Ok(false),
    }
}

/// Tells what is wanted at a span where a type cannot stand, and what stands there, by the title and lines; answers whether
/// that is known. After a refusal title and notes are given up: nothing is told.
pub fn tell_finding(
    alloc: Global,
    told: &mut Told,
    text: &[u8],
    tokens: &[Token],
    span: Span,
) -> Result<bool, AllocError> {
    let refused = Refused { text, tokens, span };
    match parse(alloc, tokens) {
        Ok(tree) => tell_in(alloc, told, refused, &tree),
        Err(ParseFault::Memory) => Err(AllocError),
        Err(_) => Ok(false),
    }
}
