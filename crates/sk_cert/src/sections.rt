// What a certificate is made of: its program, its result, its parts, and the whole.
ghost use Rattle.std.specs.Prelude.{◌≡◌, ◌-◌, ◌≤◌, [], length, take, nat_lt, Option, Some};
ghost use Rattle.std.specs.List.{list_all};
ghost use Rattle.std.specs.Option.{option_map};
ghost use Rattle.sk_cert.specs.declared.certificate.Proof.{Proof};
ghost use Rattle.sk_cert.specs.Readers.{Gives, one, ended, tail, uppers, most_parts, upper_parts, needs_below, front_of, program, result_behind, certificate, whole};
ghost use Rattle.sk_cert.specs.Steps.{upper, parts_behind, certificate_with};

use crate::certificate::{Certificate, Proof};
use crate::lines::{Front, Halt};
use crate::parse::{after, before};
use crate::reader::{
    inputs_at, line_end, number_at, numbers_at, part_at, rows_at, sizes_at, version_at,
};
use sk_base::{List, Name};
use sk_model::Choice;
use std::alloc::{AllocError, Global};

// The last line.
#[tactic(auto, unfolding(crate::specs::Readers::one))]
fn end_at<'a>(text: &'a [u8]) -> Result<&'a [u8], Halt>
    ensures { (lower : Option Proof) → Gives (λ x. (lower, x.now)) result (one (ended lower) text.now) }
{
    let Some(end) = line_end(text) else {
        return Err(Halt::Departs(text.len()));
    };
    if before(text, end) != b"//@ end".as_slice() {
        return Err(Halt::Departs(text.len()));
    }
    Ok(after(text, end))
}

// The lower part, where one is needed, and the last line.
fn tail_at<'a>(
    alloc: Global,
    needs: bool,
    text: &'a [u8],
) -> Result<(Option<Proof>, &'a [u8]), Halt>
    ensures { Gives (λ x. (x.0, x.1.now)) result (tail needs text.now) }
{
    if needs {
        let (part, rest) = part_at(alloc, b"lower", None, text)?;
        let rest = end_at(rest)?;
        return Ok((Some(part), rest));
    }
    let rest = end_at(text)?;
    Ok((None, rest))
}

// The upper part with this number, or none where its first line is not there.
#[tactic(auto, unfolding(crate::specs::Steps::upper))]
fn upper_at<'a>(
    alloc: Global,
    number: u64,
    text: &'a [u8],
) -> Result<Option<(Proof, &'a [u8])>, Halt>
    ensures { Gives (λ o. option_map (λ x. (x.0, x.1.now)) o) result (upper number text.now) }
{
    match sizes_at(alloc, b"upper", Some(number), text) {
        Ok((sizes, rest)) => {
            let (part, rest) = rows_at(alloc, sizes, rest)?;
            Ok(Some((part, rest)))
        }
        Err(Halt::Departs(_)) => Ok(None),
        Err(Halt::NoMemory) => Err(Halt::NoMemory),
    }
}

// The upper parts, numbered from 0.
#[tactic(auto, using(crate::proofs::Numbered::steps))]
fn upper_rows<'a>(alloc: Global, text: &'a [u8]) -> Result<(List<Proof>, &'a [u8]), Halt>
    ensures { Gives (λ x. (x.0, x.1.now)) result (uppers most_parts 0 text.now) }
{
    let mut parts = List::new(alloc);
    let mut rest = text;
    for i in 0..u64::MAX {
        let Some((part, behind)) = upper_at(alloc, i, rest)? else {
            return Ok((parts, rest));
        };
        parts.push(part)?;
        rest = behind;
    }
    Ok((parts, rest))
}

// The one upper part of version 1.
fn single_at<'a>(alloc: Global, text: &'a [u8]) -> Result<(List<Proof>, &'a [u8]), Halt>
    ensures { Gives (λ x. (x.0, x.1.now)) result (upper_parts 1 (Some (record { values = [] })) text.now) }
{
    let (part, rest) = part_at(alloc, b"upper", None, text)?;
    let mut parts = List::new(alloc);
    parts.push(part)?;
    Ok((parts, rest))
}

// The upper parts of a certificate of this version, with a choice or without one.
fn uppers_at<'a>(
    alloc: Global,
    version: u32,
    choice: &Option<Choice>,
    text: &'a [u8],
) -> Result<(List<Proof>, &'a [u8]), Halt>
    ensures { Gives (λ x. (x.0, x.1.now)) result (upper_parts version choice.now text.now) }
{
    if choice.is_none() {
        return Ok((List::new(alloc), text));
    }
    if version == 1 {
        let (parts, rest) = single_at(alloc, text)?;
        return Ok((parts, rest));
    }
    let (parts, rest) = upper_rows(alloc, text)?;
    Ok((parts, rest))
}

// Whether a result needs a lower part.
fn needs_below(choice: &Option<Choice>, value: u64) -> bool
    ensures { result ≡ needs_below choice.now value }
{
    match choice {
        None => true,
        Some(_) => 0 < value,
    }
}

fn are_ascii(line: &[u8]) -> bool
    ensures { result ≡ list_all (λ b. nat_lt b 128) line.now }
{
    let mut rest = line;
    while let [b, after @ ..] = rest {
        if *b >= 128 {
            return false;
        }
        rest = after;
    }
    true
}

// What a line among those of the program is.
fn front_of(line: &[u8]) -> Option<Front>
    ensures { result ≡ front_of line.now }
{
    if !line.starts_with(b"//@") {
        if are_ascii(line) {
            return Some(Front::Program);
        }
        return None;
    }
    if line == b"//@ completion".as_slice() {
        return Some(Front::Ends(true));
    }
    if line == b"//@ none".as_slice() {
        return Some(Front::Ends(false));
    }
    None
}

// What stands before the rest of a text.
fn front_before<'a>(text: &'a [u8], rest: &[u8]) -> &'a [u8]
    requires { length rest.now ≤ length text.now }
    ensures { result.now ≡ take (length text.now - length rest.now) text.now }
{
    &text[..text.len() - rest.len()]
}

// The program, and whether a completion is behind it.
fn program_at<'a>(text: &'a [u8]) -> Result<((&'a [u8], bool), &'a [u8]), Halt>
    ensures { Gives (λ x. ((x.0.0.now, x.0.1), x.1.now)) result (program text.now) }
{
    let mut rest = text;
    while let Some(end) = line_end(rest) {
        match front_of(before(rest, end)) {
            Some(Front::Program) => rest = after(rest, end),
            Some(Front::Ends(done)) => {
                return Ok(((front_before(text, rest), done), after(rest, end)));
            }
            None => return Err(Halt::Departs(rest.len())),
        }
    }
    Err(Halt::Departs(rest.len()))
}

// The choice and its value, where there is one.
fn result_at<'a>(
    alloc: Global,
    done: bool,
    text: &'a [u8],
) -> Result<((Option<Choice>, u64), &'a [u8]), Halt>
    ensures { Gives (λ x. (x.0, x.1.now)) result (result_behind done text.now) }
{
    if !done {
        return Ok(((None, 0), text));
    }
    let (value, rest) = number_at(alloc, b"value", text)?;
    let (values, rest) = numbers_at(alloc, b"holes", rest)?;
    Ok(((Some(Choice { values }), value), rest))
}

// The parts of a certificate of this version and result.
fn parts_at<'a>(
    alloc: Global,
    version: u32,
    choice: &Option<Choice>,
    value: u64,
    text: &'a [u8],
) -> Result<((List<Proof>, Option<Proof>), &'a [u8]), Halt>
    ensures { Gives (λ x. (x.0, x.1.now)) result (parts_behind version (choice.now, value) text.now) }
{
    let (upper, rest) = uppers_at(alloc, version, choice, text)?;
    let (lower, rest) = tail_at(alloc, needs_below(choice, value), rest)?;
    Ok(((upper, lower), rest))
}

// The certificate with this program and result.
#[tactic(auto, unfolding(crate::specs::Steps::certificate_with))]
fn certificate_with<'a>(
    alloc: Global,
    program: &[u8],
    choice: Option<Choice>,
    value: u64,
    text: &'a [u8],
) -> Result<(Certificate, &'a [u8]), Halt>
    ensures { Gives (λ x. (x.0, x.1.now)) result (certificate_with program.now choice value text.now) }
{
    let (version, rest) = version_at(alloc, text)?;
    let (inputs, rest) = inputs_at(alloc, rest)?;
    let ((upper, lower), rest) = parts_at(alloc, version, &choice, value, rest)?;
    let text = Name::from_slice(alloc, program)?;
    let certificate = Certificate {
        version,
        text,
        choice,
        value,
        inputs,
        upper,
        lower,
    };
    Ok((certificate, rest))
}

// A certificate.
#[tactic(auto, unfolding(crate::specs::Readers::certificate, crate::specs::Steps::certificate_with))]
fn certificate_at<'a>(alloc: Global, text: &'a [u8]) -> Result<(Certificate, &'a [u8]), Halt>
    ensures { Gives (λ x. (x.0, x.1.now)) result (certificate text.now) }
{
    let ((program, done), rest) = program_at(text)?;
    let ((choice, value), rest) = result_at(alloc, done, rest)?;
    let (certificate, rest) = certificate_with(alloc, program, choice, value, rest)?;
    Ok((certificate, rest))
}

// The certificate that a text is.
#[tactic(auto, unfolding(crate::specs::Readers::whole))]
pub fn whole(alloc: Global, text: &[u8]) -> Result<Certificate, Halt>
    ensures { Gives (λ c. c) result (whole text.now) }
{
    let (certificate, rest) = certificate_at(alloc, text)?;
    match rest {
        [] => Ok(certificate),
        [_, ..] => Err(Halt::Departs(rest.len())),
    }
}
