//! The arithmetic of words: signed numbers of 2 to 32 bits, which wrap around.

ghost use Rattle.std.specs.Prelude.{◌≡◌, ◌≤◌, ◌+ℤ◌, ◌-ℤ◌, ◌*ℤ◌, pos};
ghost use Rattle.sk_base.specs.Word.{wrapped};
ghost use Rattle.sk_dag.specs.Word.{IsMachineWord, quotient as quotient_of, remainder as remainder_of};

use sk_base::wrap;

// The word that differs from a number by a multiple of 2^`bits`.
fn in_width(bits: u32, number: i64) -> i64
    requires bits_low { 2 ≤ bits }
    requires bits_high { bits ≤ 32 }
    ensures { result ≡ wrapped bits number }
{
    wrap(bits, number)
}

/// The word that differs from a number of 64 bits, without a sign, by a multiple of 2^`bits`.
pub fn wrap_unsigned(bits: u32, number: u64) -> i64
    requires bits_low { 2 ≤ bits }
    requires bits_high { bits ≤ 32 }
    ensures { result ≡ wrapped bits (pos number) }
{
    let pattern = number % (1 << bits);
    in_width(bits, pattern as i64)
}

/// The sum of two words, wrapped.
pub fn sum(bits: u32, x: i64, y: i64) -> i64
    requires bits_low { 2 ≤ bits }
    requires bits_high { bits ≤ 32 }
    requires x { IsMachineWord x }
    requires y { IsMachineWord y }
    ensures { result ≡ wrapped bits (x +ℤ y) }
{
    in_width(bits, x + y)
}

/// The difference of two words, wrapped.
pub fn difference(bits: u32, x: i64, y: i64) -> i64
    requires bits_low { 2 ≤ bits }
    requires bits_high { bits ≤ 32 }
    requires x { IsMachineWord x }
    requires y { IsMachineWord y }
    ensures { result ≡ wrapped bits (x -ℤ y) }
{
    in_width(bits, x - y)
}

/// The product of two words, wrapped.
pub fn product(bits: u32, x: i64, y: i64) -> i64
    requires bits_low { 2 ≤ bits }
    requires bits_high { bits ≤ 32 }
    requires x { IsMachineWord x }
    requires y { IsMachineWord y }
    ensures { result ≡ wrapped bits (x *ℤ y) }
{
    in_width(bits, x * y)
}

/// The quotient of two words, rounded toward zero and wrapped; 0 where the divisor is 0.
pub fn quotient(bits: u32, x: i64, y: i64) -> i64
    requires bits_low { 2 ≤ bits }
    requires bits_high { bits ≤ 32 }
    requires x { IsMachineWord x }
    requires y { IsMachineWord y }
    ensures { result ≡ quotient_of bits x y }
{
    if y == 0 { 0 } else { in_width(bits, x / y) }
}

/// What that quotient leaves of the dividend, with the dividend's sign; 0 where the divisor is 0.
pub fn remainder(bits: u32, x: i64, y: i64) -> i64
    requires bits_low { 2 ≤ bits }
    requires bits_high { bits ≤ 32 }
    requires x { IsMachineWord x }
    requires y { IsMachineWord y }
    ensures { result ≡ remainder_of bits x y }
{
    if y == 0 { 0 } else { in_width(bits, x % y) }
}
