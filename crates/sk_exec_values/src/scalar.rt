//! Single values as words spell them.
ghost use Rattle.std.specs.Prelude.{◌≡◌, ◌<◌, ◌≤◌};
ghost use Rattle.sk_opts.specs.SpeltValues.{half, spells_positive, spells_negative, spells_int, spells_bit, spells_scalar};

use crate::number::{is_number, number_below};
use sk_base::Bounds;
use sk_prog::{Elem, Value};

/// The least number of an `int`, without its sign.
fn half(bounds: &Bounds) -> u64
    requires bits_low { 2 ≤ bounds.now.int_bits }
    requires bits_high { bounds.now.int_bits ≤ 32 }
    ensures value { result ≡ half bounds.now }
    ensures low { 0 < result }
    ensures high { result ≤ 2147483648 }
{
    1u64 << (bounds.int_bits - 1)
}

fn read_positive(bounds: &Bounds, digits: &[u8]) -> Option<Value>
    requires bits_low { 2 ≤ bounds.now.int_bits }
    requires bits_high { bounds.now.int_bits ≤ 32 }
    ensures { result ≡ spells_positive bounds.now digits.now }
{
    if !is_number(digits) {
        return None;
    }
    match number_below(half(bounds), digits) {
        Some(number) => Some(Value::Int(number as i64)),
        None => None,
    }
}

#[tactic(auto, using(crate::proofs::Numbers::below_or_at))]
fn read_negative(bounds: &Bounds, digits: &[u8]) -> Option<Value>
    requires bits_low { 2 ≤ bounds.now.int_bits }
    requires bits_high { bounds.now.int_bits ≤ 32 }
    ensures { result ≡ spells_negative bounds.now digits.now }
{
    if !is_number(digits) {
        return None;
    }
    match number_below(half(bounds) + 1, digits) {
        Some(number) => Some(Value::Int(0 - number as i64)),
        None => None,
    }
}

fn read_int(bounds: &Bounds, word: &[u8]) -> Option<Value>
    requires bits_low { 2 ≤ bounds.now.int_bits }
    requires bits_high { bounds.now.int_bits ≤ 32 }
    ensures { result ≡ spells_int bounds.now word.now }
{
    match word {
        [] => None,
        [b'-', digits @ ..] => read_negative(bounds, digits),
        [_, ..] => read_positive(bounds, word),
    }
}

fn read_bit(word: &[u8]) -> Option<Value>
    ensures { result ≡ spells_bit word.now }
{
    if word == b"0".as_slice() {
        Some(Value::Bit(false))
    } else if word == b"1".as_slice() {
        Some(Value::Bit(true))
    } else {
        None
    }
}

/// The single value that a word spells.
pub fn read_scalar(bounds: &Bounds, e: Elem, word: &[u8]) -> Option<Value>
    requires bits_low { 2 ≤ bounds.now.int_bits }
    requires bits_high { bounds.now.int_bits ≤ 32 }
    ensures { result ≡ spells_scalar bounds.now e word.now }
{
    match e {
        Elem::Int => read_int(bounds, word),
        Elem::Bit => read_bit(word),
        Elem::Reference(_) => None,
    }
}
