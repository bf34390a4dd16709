//! Open parts that play no part in a completion.
ghost use Rattle.std.specs.Prelude.{◌≡◌, IsTrue};
ghost use Rattle.sk_expand_sites.specs.Needs.{HasItsSites, are_narrow};
ghost use Rattle.sk_model.specs.Fill.{InRange};

use sk_base::Span;
use sk_explain_notes::Told;
use sk_explain_steps::push_part;
use sk_holes_marks::marks_of;
use sk_model::{Choice, Expanded, Site};
use std::alloc::{AllocError, Global};

/// So many open parts are told of, and so many numbers of each.
const MOST_TOLD: usize = 20;

// Whether one of some spans is this one.
fn has(spans: &[Span], span: Span) -> bool {
    spans
        .iter()
        .any(|it| it.from == span.from && it.to == span.to)
}

// The numbers, from 1, of the sites of an open part that do not stand.
fn numbers_of(
    alloc: Global,
    sites: &[Site],
    marks: &[bool],
    span: Span,
) -> Result<Vec<u64>, AllocError> {
    let mut found = Vec::new(alloc);
    let mut number = 0u64;
    for (site, stands) in sites.iter().zip(marks.iter()) {
        number = number.saturating_add(1);
        if !*stands && site.span.from == span.from && site.span.to == span.to {
            found.push(number)?;
        }
    }
    Ok(found)
}

// Those of a list that are told.
fn first_told<T>(items: &[T]) -> &[T] {
    if items.len() > MOST_TOLD {
        &items[..MOST_TOLD]
    } else {
        items
    }
}

// Appends numbers with commas between them, the first 20, and how many more there are.
fn push_numbers(told: &mut Told, numbers: &[u64]) -> Result<(), AllocError>
    ensures { told.new.title ≡ told.old.title }
{
    let mut between: &[u8] = b"";
    for number in first_told(numbers) {
        told.notes.word(between)?;
        told.notes.number(*number)?;
        between = b", ";
    }
    if numbers.len() > MOST_TOLD {
        told.notes.word(b" and ")?;
        told.notes.number((numbers.len() - MOST_TOLD) as u64)?;
        told.notes.word(b" more")?;
    }
    Ok(())
}

// The word for one number, or that for several.
fn plural<'a>(numbers: &[u64], one: &'a [u8], several: &'a [u8]) -> &'a [u8] {
    if numbers.len() == 1 { one } else { several }
}

// Tells which numbers of an open part play no part.
fn push_site(told: &mut Told, text: &[u8], numbers: &[u64], span: Span) -> Result<(), AllocError>
    ensures { told.new.title ≡ told.old.title }
{
    told.notes.word(plural(numbers, b"number ", b"numbers "))?;
    push_numbers(told, numbers)?;
    told.notes.word(b" of //@ holes ")?;
    told.notes.word(plural(numbers, b"plays", b"play"))?;
    told.notes.word(b" no part: ")?;
    push_part(&mut told.notes, text, span)?;
    told.notes.end()
}

// The open parts some of whose sites do not stand, each once.
fn spans_of(alloc: Global, sites: &[Site], marks: &[bool]) -> Result<Vec<Span>, AllocError> {
    let mut spans = Vec::new(alloc);
    for (site, stands) in sites.iter().zip(marks.iter()) {
        if !*stands && spans.len() <= MOST_TOLD && !has(spans.as_slice(), site.span) {
            spans.push(site.span)?;
        }
    }
    Ok(spans)
}

// Tells of each of some open parts which of its numbers play no part.
fn push_sites(
    alloc: Global,
    told: &mut Told,
    text: &[u8],
    sites: &[Site],
    marks: &[bool],
    spans: &[Span],
) -> Result<(), AllocError>
    ensures { told.new.title ≡ told.old.title }
{
    for span in spans {
        let numbers = numbers_of(alloc, sites, marks, *span)?;
        push_site(told, text, numbers.as_slice(), *span)?;
    }
    Ok(())
}

// The same of the first 20, and that there are others.
fn push_spans(
    alloc: Global,
    told: &mut Told,
    text: &[u8],
    sites: &[Site],
    marks: &[bool],
) -> Result<(), AllocError>
    ensures { told.new.title ≡ told.old.title }
{
    let spans = spans_of(alloc, sites, marks)?;
    push_sites(
        alloc,
        told,
        text,
        sites,
        marks,
        first_told(spans.as_slice()),
    )?;
    if spans.len() > MOST_TOLD {
        return told.note(&[b"and so do numbers of other open parts"]);
    }
    Ok(())
}

/// Tells of a completion which of its numbers play no part, and where their open parts stand: those in strings that are not
/// chosen, in copies that are not kept, and in generators that are called there alone. Of 20 open parts at most.
pub fn push_unused(
    alloc: Global,
    told: &mut Told,
    text: &[u8],
    expanded: &Expanded,
    choice: &Choice,
) -> Result<(), AllocError>
    requires sites { HasItsSites expanded.now }
    requires narrow { IsTrue (are_narrow expanded.now.sites) }
    requires range { InRange expanded.now choice.now }
    ensures { told.new.title ≡ told.old.title }
{
    let marks = marks_of(alloc, expanded, choice)?;
    push_spans(
        alloc,
        told,
        text,
        expanded.sites.as_slice(),
        marks.as_slice(),
    )
}
