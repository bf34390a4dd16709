// What the words of a line write.
ghost use Rattle.std.specs.Prelude.{◌≡◌, ◌==◌, ◌&&◌, codes, ◌∷◌, [], ◌+◌, ◌<◌, length, take, drop, map, IfOk, IfSome};
ghost use Rattle.std.specs.List.{position, slice_split};
ghost use Rattle.std.specs.Option.{option_map};
ghost use Rattle.std.specs.Str.{all_ascii_digits, bytes_eq};
ghost use Rattle.sk_cert.specs.Words.{all_of, below_limit, is_numeral, number_from, number_of, variable_of, literal_of, positive, negative, scalar_of, argument_of, behind, numbers_in, only, number_in, version_in, pieces, words, input_from, input_in, sizes_from, sizes_behind, sizes_in, names_in, clause_in};

use crate::certificate::CertInput;
use crate::lines::Sizes;
use sk_base::List;
use sk_clause::Lit;
use std::alloc::{AllocError, Global};

fn are_digits(word: &[u8]) -> bool
    ensures { result ≡ all_ascii_digits word.now }
{
    let mut rest = word;
    while let [b, after @ ..] = rest {
        if !b.is_ascii_digit() {
            return false;
        }
        rest = after;
    }
    true
}

// Whether a word is digits without a zero before them.
#[tactic(auto, unfolding(crate::specs::Words::is_numeral))]
pub fn is_numeral(word: &[u8]) -> bool
    ensures { result ≡ is_numeral word.now }
{
    match word {
        [] => false,
        [b] => b.is_ascii_digit(),
        [b, _, ..] => *b != b'0' && are_digits(word),
    }
}

// The number that digits write, where it has 64 bits.
fn number_from(digits: &[u8]) -> Option<u64>
    ensures { result ≡ below_limit (number_from 0 digits.now) }
{
    let mut number: u64 = 0;
    for b in digits {
        let Some(tens) = number.checked_mul(10) else {
            return None;
        };
        let Some(next) = tens.checked_add(b.saturating_sub(48) as u64) else {
            return None;
        };
        number = next;
    }
    Some(number)
}

// The number that a word writes.
#[tactic(auto, unfolding(crate::specs::Words::number_of))]
fn number_of(word: &[u8]) -> Option<u64>
    ensures { result ≡ number_of word.now }
{
    if !is_numeral(word) {
        return None;
    }
    number_from(word)
}

// The variable that a word writes, of so many.
#[tactic(auto, unfolding(crate::specs::Words::variable_of))]
fn variable_of(vars: u64, word: &[u8]) -> Option<usize>
    ensures { result ≡ variable_of vars word.now }
{
    match number_of(word) {
        None => None,
        Some(n) => {
            if 0 < n && n <= vars {
                Some((n - 1) as usize)
            } else {
                None
            }
        }
    }
}

// The literal that a word writes, of so many variables.
#[tactic(auto, unfolding(crate::specs::Words::literal_of))]
fn literal_of(vars: u64, word: &[u8]) -> Option<Lit>
    ensures { result ≡ literal_of vars word.now }
{
    match word {
        [] => None,
        [b'-', digits @ ..] => match variable_of(vars, digits) {
            None => None,
            Some(var) => Some(Lit { var, neg: true }),
        },
        [_, ..] => match variable_of(vars, word) {
            None => None,
            Some(var) => Some(Lit { var, neg: false }),
        },
    }
}

fn positive(digits: &[u8]) -> Option<i64>
    ensures { result ≡ positive (number_of digits.now) }
{
    match number_of(digits) {
        None => None,
        Some(n) => {
            if n < 9223372036854775808 {
                Some(n as i64)
            } else {
                None
            }
        }
    }
}

fn negative(digits: &[u8]) -> Option<i64>
    ensures { result ≡ negative (number_of digits.now) }
{
    match number_of(digits) {
        None => None,
        Some(n) => {
            if 0 < n && n <= 9223372036854775808 {
                Some(-1 - (n - 1) as i64)
            } else {
                None
            }
        }
    }
}

// The scalar that a word writes.
#[tactic(auto, unfolding(crate::specs::Words::scalar_of))]
fn scalar_of(word: &[u8]) -> Option<i64>
    ensures { result ≡ scalar_of word.now }
{
    match word {
        [] => None,
        [b'-', digits @ ..] => negative(digits),
        [_, ..] => positive(word),
    }
}

// Where this byte stands first.
#[tactic(auto, using(crate::proofs::Gathered::places))]
pub fn place_of(mark: u8, text: &[u8]) -> Option<usize>
    ensures place { result ≡ position (λ b. b == mark) text.now }
    ensures within { IfSome result (λ at. at < length text.now) }
{
    text.iter().position(|b| *b == mark)
}

// What stands before a place.
pub fn before(text: &[u8], at: usize) -> &[u8]
    requires { at < length text.now }
    ensures { result.now ≡ take at text.now }
{
    &text[..at]
}

// What stands behind a place.
pub fn after(text: &[u8], at: usize) -> &[u8]
    requires { at < length text.now }
    ensures { result.now ≡ drop (at + 1) text.now }
{
    &text[at + 1..]
}

// How many pieces a text has between these bytes.
fn count_of(mark: u8, text: &[u8]) -> usize {
    let mut count: usize = 1;
    for b in text {
        if *b == mark {
            count = count.saturating_add(1);
        }
    }
    count
}

// An empty list, with room for a thing for each piece that is left.
fn room_for<T>(alloc: Global, mark: u8, left: Option<&[u8]>) -> Result<List<T>, AllocError>
    ensures { IfOk result (λ list. list ≡ []) }
{
    let count = match left {
        Some(text) => count_of(mark, text),
        None => 0,
    };
    let room = Vec::with_capacity(alloc, count)?;
    Ok(List::from_vec(room))
}

// The first piece of a text between these bytes, and the text that is left behind it, if one is.
#[tactic(auto, using(crate::proofs::Gathered::pieces))]
fn first_piece(mark: u8, text: &[u8]) -> (&[u8], Option<&[u8]>)
    ensures pieces { slice_split (λ b. b == mark) text.now ≡ result.0.now ∷ pieces mark (option_map (λ x. x.now) result.1) }
    ensures less { IfSome result.1 (λ rest. length rest.now < length text.now) }
{
    match place_of(mark, text) {
        Some(at) => (before(text, at), Some(after(text, at))),
        None => (text, None),
    }
}

// The scalars that the pieces between commas write, if each writes one.
#[tactic(auto, using(crate::proofs::Gathered::steps))]
fn scalars_of(alloc: Global, left: Option<&[u8]>) -> Result<Option<List<i64>>, AllocError>
    ensures { IfOk result (λ o. o ≡ all_of scalar_of (pieces 44 (option_map (λ x. x.now) left.entry))) }
{
    let mut scalars = room_for(alloc, b',', left)?;
    let mut rest = left;
    while let Some(text) = rest {
        let (piece, more) = first_piece(b',', text);
        let Some(found) = scalar_of(piece) else {
            return Ok(None);
        };
        scalars.push(found)?;
        rest = more;
    }
    Ok(Some(scalars))
}

// The argument that a word writes.
#[tactic(auto, unfolding(crate::specs::Words::argument_of))]
fn argument_of(alloc: Global, word: &[u8]) -> Result<Option<List<i64>>, AllocError>
    ensures { IfOk result (λ o. o ≡ argument_of word.now) }
{
    let scalars = scalars_of(alloc, Some(word))?;
    Ok(scalars)
}

// The arguments that words write, if each writes one.
#[tactic(auto, using(crate::proofs::Gathered::steps))]
fn arguments_of(alloc: Global, left: Option<&[u8]>) -> Result<Option<List<List<i64>>>, AllocError>
    ensures { IfOk result (λ o. o ≡ all_of argument_of (pieces 32 (option_map (λ x. x.now) left.entry))) }
{
    let mut args = room_for(alloc, b' ', left)?;
    let mut rest = left;
    while let Some(text) = rest {
        let (piece, more) = first_piece(b' ', text);
        let Some(found) = argument_of(alloc, piece)? else {
            return Ok(None);
        };
        args.push(found)?;
        rest = more;
    }
    Ok(Some(args))
}

// The numbers that words write, if each writes one.
#[tactic(auto, using(crate::proofs::Gathered::steps))]
fn numbers_of(alloc: Global, left: Option<&[u8]>) -> Result<Option<List<u64>>, AllocError>
    ensures { IfOk result (λ o. o ≡ all_of number_of (pieces 32 (option_map (λ x. x.now) left.entry))) }
{
    let mut numbers = room_for(alloc, b' ', left)?;
    let mut rest = left;
    while let Some(text) = rest {
        let (piece, more) = first_piece(b' ', text);
        let Some(found) = number_of(piece) else {
            return Ok(None);
        };
        numbers.push(found)?;
        rest = more;
    }
    Ok(Some(numbers))
}

// The variables that words write, if each writes one.
#[tactic(auto, using(crate::proofs::Gathered::steps))]
fn variables_of(
    alloc: Global,
    vars: u64,
    left: Option<&[u8]>,
) -> Result<Option<List<usize>>, AllocError>
    ensures { IfOk result (λ o. o ≡ all_of (variable_of vars) (pieces 32 (option_map (λ x. x.now) left.entry))) }
{
    let mut names = room_for(alloc, b' ', left)?;
    let mut rest = left;
    while let Some(text) = rest {
        let (piece, more) = first_piece(b' ', text);
        let Some(found) = variable_of(vars, piece) else {
            return Ok(None);
        };
        names.push(found)?;
        rest = more;
    }
    Ok(Some(names))
}

// The literals that words write, if each writes one.
#[tactic(auto, using(crate::proofs::Gathered::steps))]
fn literals_of(
    alloc: Global,
    vars: u64,
    left: Option<&[u8]>,
) -> Result<Option<List<Lit>>, AllocError>
    ensures { IfOk result (λ o. o ≡ all_of (literal_of vars) (pieces 32 (option_map (λ x. x.now) left.entry))) }
{
    let mut lits = room_for(alloc, b' ', left)?;
    let mut rest = left;
    while let Some(text) = rest {
        let (piece, more) = first_piece(b' ', text);
        let Some(found) = literal_of(vars, piece) else {
            return Ok(None);
        };
        lits.push(found)?;
        rest = more;
    }
    Ok(Some(lits))
}

// Whether two words begin a line of this kind.
fn are_mark(first: &[u8], second: &[u8], kind: &[u8]) -> bool
    ensures { result ≡ (bytes_eq first.now (codes "//@") && bytes_eq second.now kind.now) }
{
    first == b"//@".as_slice() && second == kind
}

// The words behind the first of a line and the kind, where this one begins what is left behind the first.
fn behind_first<'a>(kind: &[u8], first: &[u8], rest: &'a [u8]) -> Option<Option<&'a [u8]>>
    ensures { option_map (λ left. pieces 32 (option_map (λ x. x.now) left)) result ≡ behind kind.now (first.now ∷ slice_split (λ b. b == 32) rest.now) }
{
    let (second, left) = first_piece(b' ', rest);
    if are_mark(first, second, kind) {
        Some(left)
    } else {
        None
    }
}

// The words behind the kind, in a line of this kind: what is left of the line, or nothing.
fn behind<'a>(kind: &[u8], line: &'a [u8]) -> Option<Option<&'a [u8]>>
    ensures { option_map (λ left. pieces 32 (option_map (λ x. x.now) left)) result ≡ behind kind.now (words line.now) }
{
    match place_of(b' ', line) {
        None => None,
        Some(at) => behind_first(kind, before(line, at), after(line, at)),
    }
}

// The numbers of a line of this kind.
#[tactic(auto, unfolding(crate::specs::Words::numbers_in))]
pub fn numbers_in(alloc: Global, kind: &[u8], line: &[u8]) -> Result<Option<List<u64>>, AllocError>
    ensures { IfOk result (λ o. o ≡ numbers_in kind.now line.now) }
{
    let Some(left) = behind(kind, line) else {
        return Ok(None);
    };
    let numbers = numbers_of(alloc, left)?;
    Ok(numbers)
}

// The one number.
fn only(numbers: &[u64]) -> Option<u64>
    ensures { result ≡ only numbers.now }
{
    match numbers {
        [n] => Some(*n),
        _ => None,
    }
}

// The one number of a line of this kind.
#[tactic(auto, unfolding(crate::specs::Words::number_in))]
pub fn number_in(alloc: Global, kind: &[u8], line: &[u8]) -> Result<Option<u64>, AllocError>
    ensures { IfOk result (λ o. o ≡ number_in kind.now line.now) }
{
    let Some(numbers) = numbers_in(alloc, kind, line)? else {
        return Ok(None);
    };
    let number = only(numbers.as_slice());
    Ok(number)
}

// The version of a line of a certificate.
#[tactic(auto, unfolding(crate::specs::Words::version_in))]
pub fn version_in(alloc: Global, line: &[u8]) -> Result<Option<u32>, AllocError>
    ensures { IfOk result (λ o. o ≡ version_in line.now) }
{
    match number_in(alloc, b"certificate", line)? {
        Some(1) => Ok(Some(1)),
        Some(2) => Ok(Some(2)),
        _ => Ok(None),
    }
}

// The input that the words behind its kind write.
fn input_from(alloc: Global, left: Option<&[u8]>) -> Result<Option<CertInput>, AllocError>
    ensures { IfOk result (λ o. o ≡ input_from (pieces 32 (option_map (λ x. x.now) left.entry))) }
{
    let Some(text) = left else {
        return Ok(None);
    };
    let (first, more) = first_piece(b' ', text);
    let Some(obligation) = number_of(first) else {
        return Ok(None);
    };
    let Some(args) = arguments_of(alloc, more)? else {
        return Ok(None);
    };
    Ok(Some(CertInput { obligation, args }))
}

// The input of a line.
#[tactic(auto, unfolding(crate::specs::Words::input_in))]
pub fn input_in(alloc: Global, line: &[u8]) -> Result<Option<CertInput>, AllocError>
    ensures { IfOk result (λ o. o ≡ input_in line.now) }
{
    let Some(left) = behind(b"input", line) else {
        return Ok(None);
    };
    let input = input_from(alloc, left)?;
    Ok(input)
}

// The sizes that three numbers are.
fn sizes_from(numbers: &[u64]) -> Option<Sizes>
    ensures { result ≡ sizes_from numbers.now }
{
    match numbers {
        [vars, clauses, log] => Some(Sizes {
            vars: *vars,
            clauses: *clauses,
            log: *log,
        }),
        _ => None,
    }
}

// The sizes behind the number of a part, if it has one.
fn sizes_behind(number: Option<u64>, numbers: &[u64]) -> Option<Sizes>
    ensures { result ≡ sizes_behind number numbers.now }
{
    let Some(number) = number else {
        return sizes_from(numbers);
    };
    match numbers {
        [] => None,
        [first, rest @ ..] => {
            if *first == number {
                sizes_from(rest)
            } else {
                None
            }
        }
    }
}

// The sizes in the first line of a part.
#[tactic(auto, unfolding(crate::specs::Words::sizes_in))]
pub fn sizes_in(
    alloc: Global,
    kind: &[u8],
    number: Option<u64>,
    line: &[u8],
) -> Result<Option<Sizes>, AllocError>
    ensures { IfOk result (λ o. o ≡ sizes_in kind.now number line.now) }
{
    let Some(numbers) = numbers_in(alloc, kind, line)? else {
        return Ok(None);
    };
    let sizes = sizes_behind(number, numbers.as_slice());
    Ok(sizes)
}

// The names of a line.
#[tactic(auto, unfolding(crate::specs::Words::names_in))]
pub fn names_in(alloc: Global, vars: u64, line: &[u8]) -> Result<Option<List<usize>>, AllocError>
    ensures { IfOk result (λ o. o ≡ names_in vars line.now) }
{
    let Some(left) = behind(b"names", line) else {
        return Ok(None);
    };
    let names = variables_of(alloc, vars, left)?;
    Ok(names)
}

// The clause of a line of this kind.
#[tactic(auto, unfolding(crate::specs::Words::clause_in))]
pub fn clause_in(
    alloc: Global,
    kind: &[u8],
    vars: u64,
    line: &[u8],
) -> Result<Option<List<Lit>>, AllocError>
    ensures { IfOk result (λ o. o ≡ clause_in kind.now vars line.now) }
{
    let Some(left) = behind(kind, line) else {
        return Ok(None);
    };
    let lits = literals_of(alloc, vars, left)?;
    Ok(lits)
}
