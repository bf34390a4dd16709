// What stands in a text line by line.
ghost use Rattle.std.specs.Prelude.{◌≡◌, ◌<◌, [], length, codes, IfOk, IfSome};
ghost use Rattle.std.specs.List.{position};
ghost use Rattle.sk_cert.specs.Words.{number_in, numbers_in, version_in, input_in, sizes_in, names_in, clause_in};
ghost use Rattle.sk_cert.specs.Readers.{Gives, one, is_feed, repeated, inputs, rows, part};

use crate::certificate::{CertInput, Proof};
use crate::lines::{Halt, Sizes};
use crate::parse::{
    after, before, clause_in, input_in, names_in, number_in, numbers_in, place_of, sizes_in,
    version_in,
};
use sk_base::List;
use sk_clause::{ClauseList, Clauses, Lit};
use sk_cnf::Encoded;
use std::alloc::Global;

// Where the first line of a text ends.
pub fn line_end(text: &[u8]) -> Option<usize>
    ensures place { result ≡ position is_feed text.now }
    ensures within { IfSome result (λ at. at < length text.now) }
{
    place_of(b'\n', text)
}

// The one number of a line of this kind.
#[tactic(auto, unfolding(crate::specs::Readers::one))]
pub fn number_at<'a>(alloc: Global, kind: &[u8], text: &'a [u8]) -> Result<(u64, &'a [u8]), Halt>
    ensures { Gives (λ x. (x.0, x.1.now)) result (one (number_in kind.now) text.now) }
{
    let Some(end) = line_end(text) else {
        return Err(Halt::Departs(text.len()));
    };
    let Some(found) = number_in(alloc, kind, before(text, end))? else {
        return Err(Halt::Departs(text.len()));
    };
    Ok((found, after(text, end)))
}

// The numbers of a line of this kind.
#[tactic(auto, unfolding(crate::specs::Readers::one))]
pub fn numbers_at<'a>(
    alloc: Global,
    kind: &[u8],
    text: &'a [u8],
) -> Result<(List<u64>, &'a [u8]), Halt>
    ensures { Gives (λ x. (x.0, x.1.now)) result (one (numbers_in kind.now) text.now) }
{
    let Some(end) = line_end(text) else {
        return Err(Halt::Departs(text.len()));
    };
    let Some(found) = numbers_in(alloc, kind, before(text, end))? else {
        return Err(Halt::Departs(text.len()));
    };
    Ok((found, after(text, end)))
}

// The version of a certificate.
#[tactic(auto, unfolding(crate::specs::Readers::one))]
pub fn version_at<'a>(alloc: Global, text: &'a [u8]) -> Result<(u32, &'a [u8]), Halt>
    ensures { Gives (λ x. (x.0, x.1.now)) result (one (version_in) text.now) }
{
    let Some(end) = line_end(text) else {
        return Err(Halt::Departs(text.len()));
    };
    let Some(found) = version_in(alloc, before(text, end))? else {
        return Err(Halt::Departs(text.len()));
    };
    Ok((found, after(text, end)))
}

// An input.
#[tactic(auto, unfolding(crate::specs::Readers::one))]
fn input_at<'a>(alloc: Global, text: &'a [u8]) -> Result<(CertInput, &'a [u8]), Halt>
    ensures { Gives (λ x. (x.0, x.1.now)) result (one (input_in) text.now) }
{
    let Some(end) = line_end(text) else {
        return Err(Halt::Departs(text.len()));
    };
    let Some(found) = input_in(alloc, before(text, end))? else {
        return Err(Halt::Departs(text.len()));
    };
    Ok((found, after(text, end)))
}

// The sizes of a part.
#[tactic(auto, unfolding(crate::specs::Readers::one))]
pub fn sizes_at<'a>(
    alloc: Global,
    kind: &[u8],
    number: Option<u64>,
    text: &'a [u8],
) -> Result<(Sizes, &'a [u8]), Halt>
    ensures { Gives (λ x. (x.0, x.1.now)) result (one (sizes_in kind.now number) text.now) }
{
    let Some(end) = line_end(text) else {
        return Err(Halt::Departs(text.len()));
    };
    let Some(found) = sizes_in(alloc, kind, number, before(text, end))? else {
        return Err(Halt::Departs(text.len()));
    };
    Ok((found, after(text, end)))
}

// The names of a part.
#[tactic(auto, unfolding(crate::specs::Readers::one))]
fn names_at<'a>(alloc: Global, vars: u64, text: &'a [u8]) -> Result<(List<usize>, &'a [u8]), Halt>
    ensures { Gives (λ x. (x.0, x.1.now)) result (one (names_in vars) text.now) }
{
    let Some(end) = line_end(text) else {
        return Err(Halt::Departs(text.len()));
    };
    let Some(found) = names_in(alloc, vars, before(text, end))? else {
        return Err(Halt::Departs(text.len()));
    };
    Ok((found, after(text, end)))
}

// A clause of this kind.
#[tactic(auto, unfolding(crate::specs::Readers::one))]
fn clause_at<'a>(
    alloc: Global,
    kind: &[u8],
    vars: u64,
    text: &'a [u8],
) -> Result<(List<Lit>, &'a [u8]), Halt>
    ensures { Gives (λ x. (x.0, x.1.now)) result (one (clause_in kind.now vars) text.now) }
{
    let Some(end) = line_end(text) else {
        return Err(Halt::Departs(text.len()));
    };
    let Some(found) = clause_in(alloc, kind, vars, before(text, end))? else {
        return Err(Halt::Departs(text.len()));
    };
    Ok((found, after(text, end)))
}

// So many inputs.
#[tactic(auto, using(crate::proofs::Repeated::steps))]
fn input_rows<'a>(
    alloc: Global,
    count: u64,
    text: &'a [u8],
) -> Result<(List<CertInput>, &'a [u8]), Halt>
    ensures { Gives (λ x. (x.0, x.1.now)) result (repeated (one input_in) count text.now) }
{
    let mut inputs = List::new(alloc);
    let mut rest = text;
    for i in 0..count {
        let (input, behind) = input_at(alloc, rest)?;
        inputs.push(input)?;
        rest = behind;
    }
    Ok((inputs, rest))
}

// The inputs, behind their number.
#[tactic(auto, unfolding(crate::specs::Readers::inputs))]
pub fn inputs_at<'a>(alloc: Global, text: &'a [u8]) -> Result<(List<CertInput>, &'a [u8]), Halt>
    ensures { Gives (λ x. (x.0, x.1.now)) result (inputs text.now) }
{
    let (count, rest) = number_at(alloc, b"inputs", text)?;
    let (inputs, behind) = input_rows(alloc, count, rest)?;
    Ok((inputs, behind))
}

// So many clauses of this kind.
#[tactic(auto, using(crate::proofs::Repeated::steps))]
fn clause_rows<'a>(
    alloc: Global,
    kind: &[u8],
    vars: u64,
    count: u64,
    text: &'a [u8],
) -> Result<(ClauseList, &'a [u8]), Halt>
    ensures { Gives (λ x. (x.0, x.1.now)) result (repeated (one (clause_in kind.now vars)) count text.now) }
{
    let mut clauses = ClauseList::new(alloc);
    let mut rest = text;
    for i in 0..count {
        let (clause, behind) = clause_at(alloc, kind, vars, rest)?;
        clauses.push(clause.as_slice())?;
        rest = behind;
    }
    Ok((clauses, rest))
}

// The formula of so many clauses over so many variables.
#[tactic(auto, using(crate::proofs::Repeated::steps))]
fn formula_rows<'a>(
    alloc: Global,
    vars: u64,
    count: u64,
    text: &'a [u8],
) -> Result<(Clauses, &'a [u8]), Halt>
    ensures rows { Gives (λ x. (x.0.clauses, x.1.now)) result (repeated (one (clause_in (codes "c") vars)) count text.now) }
    ensures vars { IfOk result (λ x. x.0.vars ≡ vars) }
{
    let mut clauses = Clauses::with_vars(alloc, vars as usize);
    let mut rest = text;
    for i in 0..count {
        let (clause, behind) = clause_at(alloc, b"c", vars, rest)?;
        clauses.push(clause.as_slice())?;
        rest = behind;
    }
    Ok((clauses, rest))
}

// The lines of a part of these sizes.
#[tactic(auto, unfolding(crate::specs::Readers::rows))]
pub fn rows_at<'a>(alloc: Global, sizes: Sizes, text: &'a [u8]) -> Result<(Proof, &'a [u8]), Halt>
    ensures { Gives (λ x. (x.0, x.1.now)) result (rows sizes text.now) }
{
    let (names, rest) = names_at(alloc, sizes.vars, text)?;
    let (clauses, rest) = formula_rows(alloc, sizes.vars, sizes.clauses, rest)?;
    let (log, rest) = clause_rows(alloc, b"l", sizes.vars, sizes.log, rest)?;
    let formula = Encoded { clauses, names };
    Ok((Proof { formula, log }, rest))
}

// A part.
#[tactic(auto, unfolding(crate::specs::Readers::part))]
pub fn part_at<'a>(
    alloc: Global,
    kind: &[u8],
    number: Option<u64>,
    text: &'a [u8],
) -> Result<(Proof, &'a [u8]), Halt>
    ensures { Gives (λ x. (x.0, x.1.now)) result (part kind.now number text.now) }
{
    let (sizes, rest) = sizes_at(alloc, kind, number, text)?;
    let (part, rest) = rows_at(alloc, sizes, rest)?;
    Ok((part, rest))
}
