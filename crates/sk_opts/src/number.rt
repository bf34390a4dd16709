//! Numbers as they are spelt on a command line and in a pragma.
ghost use Rattle.std.specs.Prelude.{◌≡◌, ◌≤◌, nat_le, ◌&&◌, if◌then◌else◌, map, IfOk, IfSome};
ghost use Rattle.std.specs.List.{list_all};
ghost use Rattle.sk_tree.specs.Shapes.{is_digit};
ghost use Rattle.sk_tree.specs.Tokens.{number_of};
ghost use Rattle.sk_opts.specs.Settings.{is_number, number_in};
ghost use Rattle.sk_opts.specs.SpeltValues.{between_commas};
ghost use Rattle.sk_opts.specs.GivenValues.{long_number, long_numbers};
ghost use Rattle.sk_opts.specs.Ranges.{IsBetween};

use sk_base::List;
use std::alloc::{AllocError, Global};

#[tactic(auto, unfolding(sk_tree::specs::Shapes::is_digit))]
fn is_digit(b: u8) -> bool
    ensures { result ≡ is_digit b }
{
    b'0' <= b && b <= b'9'
}

fn are_digits(word: &[u8]) -> bool
    ensures { result ≡ list_all is_digit word.now }
{
    let mut rest = word;
    while let [b, after @ ..] = rest {
        if !is_digit(*b) {
            return false;
        }
        rest = after;
    }
    true
}

/// Whether a word is 1 to 10 digits.
fn is_number(word: &[u8]) -> bool
    ensures { result ≡ is_number word.now }
{
    1 <= word.len() && word.len() <= 10 && are_digits(word)
}

// The number that the digits spell, where it is at most this.
fn number_to(most: u64, digits: &[u8]) -> Option<u64>
    requires { most ≤ 9999999999 }
    ensures value { result ≡ (if nat_le (number_of digits.now) most then Some (number_of digits.now) else None) }
    ensures within { IfSome result (λ number. number ≤ most) }
{
    let mut number: u64 = 0;
    for b in digits {
        number = 10 * number + b.saturating_sub(48) as u64;
        if number > most {
            return None;
        }
    }
    Some(number)
}

/// The number that a word spells, where it lies between these two.
pub fn number_in(low: u32, high: u32, word: &[u8]) -> Option<u32>
    requires { high ≤ 2147483647 }
    ensures value { result ≡ number_in low high word.now }
    ensures between { IsBetween low high result }
{
    if !is_number(word) {
        return None;
    }
    match number_to(2_147_483_647, word) {
        Some(number) => if_between(low, high, number as u32),
        None => None,
    }
}

fn if_between(low: u32, high: u32, number: u32) -> Option<u32>
    ensures value { result ≡ (if nat_le low number && nat_le number high then Some number else None) }
    ensures between { IsBetween low high result }
{
    if low <= number && number <= high {
        Some(number)
    } else {
        None
    }
}

/// The number that a word of 1 to 10 digits spells.
fn long_number(word: &[u8]) -> Option<u64>
    ensures { result ≡ long_number word.now }
{
    if !is_number(word) {
        return None;
    }
    number_to(9_999_999_999, word)
}

/// What stands between the commas of a word.
pub fn pieces_of(alloc: Global, word: &[u8]) -> Result<Vec<&[u8]>, AllocError>
    ensures { IfOk result (λ pieces. map (λ piece. piece.now) pieces.items ≡ between_commas word.now) }
{
    word.split(|b| *b == b',').collect(alloc)
}

// The numbers that these words spell, if each spells one.
#[tactic(auto, using(crate::proofs::Lists::steps))]
fn long_numbers(alloc: Global, words: &[&[u8]]) -> Result<Option<List<u64>>, AllocError>
    ensures { IfOk result (λ found. found ≡ long_numbers (map (λ word. word.now) words.now)) }
{
    let mut numbers = List::new(alloc);
    for word in words {
        match long_number(word) {
            None => return Ok(None),
            Some(number) => numbers.push(number)?,
        }
    }
    Ok(Some(numbers))
}

/// The numbers of 1 to 10 digits that a word spells with commas between them.
pub fn numbers_in(alloc: Global, word: &[u8]) -> Result<Option<List<u64>>, AllocError>
    ensures { IfOk result (λ found. found ≡ long_numbers (between_commas word.now)) }
{
    let pieces = pieces_of(alloc, word)?;
    let numbers = long_numbers(alloc, pieces.as_slice())?;
    Ok(numbers)
}
