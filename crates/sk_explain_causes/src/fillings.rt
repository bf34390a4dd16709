//! Sketches that are not filled.
use crate::calls::push_part;
use crate::lines::expanded;
use sk_base::List;
use sk_explain_notes::Told;
use sk_holes::FillFault;
use sk_model::Site;
use sk_opts::{Line, Usage, options};
use std::alloc::{AllocError, Global};

// Tells where the first open part stands, and what a filling wants.
fn push_first(told: &mut Told, text: &[u8], sites: &[Site]) -> Result<(), AllocError> {
    if let Some(site) = sites.first() {
        push_part(told, text, b"the first stands at ", site.span)?;
        told.notes.end()?;
    }
    told.note(&[b"--holes has a number for each, in the order of a line //@ holes"])
}

// Tells that there are not as many numbers as open parts.
fn tell_length(
    told: &mut Told,
    text: &[u8],
    sites: &[Site],
    numbers: usize,
) -> Result<(), AllocError> {
    told.title(&[b"open parts of the sketch: "])?;
    told.title.number(sites.len() as u64)?;
    told.title(&[b"; numbers of --holes: "])?;
    told.title.number(numbers as u64)?;
    push_first(told, text, sites)
}

// Tells which number is none of its open part.
fn tell_number(
    told: &mut Told,
    text: &[u8],
    place: usize,
    site: &Site,
    number: u64,
) -> Result<(), AllocError> {
    told.title(&[b"number "])?;
    told.title.number((place as u64).saturating_add(1))?;
    told.title(&[b" of --holes is 0 to "])?;
    told.title.number(site.size.saturating_sub(1))?;
    told.title(&[b", not "])?;
    told.title.number(number)?;
    push_part(told, text, b"it is for the open part at ", site.span)?;
    told.notes.end()
}

// Tells why numbers do not fill the open parts of a text.
fn tell_fault(
    told: &mut Told,
    text: &[u8],
    sites: &[Site],
    numbers: &[u64],
    fault: FillFault,
) -> Result<(), AllocError> {
    match fault {
        FillFault::WrongLength => tell_length(told, text, sites, numbers.len()),
        FillFault::OutOfRange { site } => {
            let place = site as usize;
            match (sites.get(place), numbers.get(place)) {
                (Some(site), Some(number)) => tell_number(told, text, place, site, *number),
                _ => told.title(&[b"a number of --holes is none of its open part"]),
            }
        }
        FillFault::Memory => told.title(&[b"out of memory"]),
    }
}

/// Tells why the numbers of a line do not fill the sketch of a text. Want of memory has an ending of its own. After a refusal
/// title and notes are given up: nothing is told.
pub fn tell_not_filled(
    alloc: Global,
    told: &mut Told,
    words: &[String],
    text: &[u8],
    fault: FillFault,
) -> Result<(), AllocError> {
    match options(alloc, words) {
        Ok(Line::Trace { set, holes, .. }) => {
            let numbers = holes.unwrap_or(List::new(alloc));
            match expanded(alloc, &set, text)? {
                Some(it) => {
                    let sites = it.expanded.sites.as_slice();
                    tell_fault(told, text, sites, numbers.as_slice(), fault)
                }
                None => told.title(&[b"the numbers do not fill the sketch"]),
            }
        }
        Ok(Line::Synth { .. } | Line::Exec { .. } | Line::Lower { .. } | Line::Check { .. }) => {
            told.title(&[b"the numbers do not fill the sketch"])
        }
        Ok(Line::Prune { .. } | Line::All { .. } | Line::Why { .. } | Line::Itself { .. }) => {
            told.title(&[b"the numbers do not fill the sketch"])
        }
        Ok(Line::Help | Line::Version) | Err(Usage::NotALine) => {
            told.title(&[b"the numbers do not fill the sketch"])
        }
        Err(Usage::Memory) => Err(AllocError),
    }
}
