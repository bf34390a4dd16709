//! Numbers that bits say.

ghost use Rattle.std.specs.Prelude.{◌≡◌, ◌+◌, ◌*◌, ◌^◌, ◌<◌, ◌≤◌, All, IfOk, length, take};
ghost use Rattle.sk_gates.specs.Words.{digit, number};
ghost use Rattle.sk_oblig_queries.specs.Numbers.{numbers_said};

use crate::slices::{behind, front};
use sk_base::List;
use std::alloc::{AllocError, Global};

// A number with one more bit before its greatest.
#[tactic(auto, using(crate::proofs::Powers::room))]
fn with_bit(number: u64, bit: bool, place: usize) -> u64
    requires place { place < 64 }
    requires number { number < 2 ^ place }
    ensures { result ≡ number + 2 ^ place * digit bit }
{
    if bit {
        return number + (1 << place);
    }
    number
}

// The number that bits say, the least bit first.
#[tactic(auto, using(crate::proofs::Steps::number_steps))]
fn number(bits: &[bool]) -> u64
    requires { length bits.now ≤ 64 }
    ensures { result ≡ number bits.now }
{
    let mut number = 0;
    for i in 0..bits.len() {
        number = with_bit(number, bits[i], i);
    }
    number
}

// The number that the first so many bits say.
fn number_of_front(bits: &[bool], width: u32) -> u64
    requires { width ≤ 64 }
    ensures { result ≡ number (take width bits.now) }
{
    number(front(bits, width as usize))
}

/// The numbers of these widths that bits say.
#[tactic(auto, using(crate::proofs::Steps::numbers_steps))]
pub fn numbers_of_bits(
    alloc: Global,
    widths: &[u32],
    bits: &[bool],
) -> Result<List<u64>, AllocError>
    requires { All (λ w. w ≤ 64) widths.now }
    ensures { IfOk result (λ numbers. numbers ≡ numbers_said widths.now bits.now) }
{
    let mut numbers = List::new(alloc);
    let mut rest = bits;
    for width in widths {
        numbers.push(number_of_front(rest, *width))?;
        rest = behind(rest, *width as usize);
    }
    Ok(numbers)
}
