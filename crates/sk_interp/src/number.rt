//! Arithmetic of `int`, at a width of so many bits. What does not fit into 64 bits wraps there first, which leaves
//! the lowest bits as they are.

ghost use Rattle.std.specs.Prelude.{◌≡◌, ◌≤◌, false, ◌+ℤ◌, ◌-ℤ◌, ◌*ℤ◌, neg_ℤ, int_div, int_rem, pos};
ghost use Rattle.std.specs.Ordering.{int_eq};
ghost use Rattle.sk_base.specs.Word.{wrapped};

use sk_base::wrap;

pub fn add(bits: u32, x: i64, y: i64) -> i64
    requires bits_low { 2 ≤ bits }
    requires bits_high { bits ≤ 32 }
    ensures { result ≡ wrapped bits (x +ℤ y) }
{
    wrap(bits, x.wrapping_add(y))
}

pub fn subtract(bits: u32, x: i64, y: i64) -> i64
    requires bits_low { 2 ≤ bits }
    requires bits_high { bits ≤ 32 }
    ensures { result ≡ wrapped bits (x -ℤ y) }
{
    wrap(bits, x.wrapping_sub(y))
}

pub fn multiply(bits: u32, x: i64, y: i64) -> i64
    requires bits_low { 2 ≤ bits }
    requires bits_high { bits ≤ 32 }
    ensures { result ≡ wrapped bits (x *ℤ y) }
{
    wrap(bits, x.wrapping_mul(y))
}

pub fn negate(bits: u32, x: i64) -> i64
    requires bits_low { 2 ≤ bits }
    requires bits_high { bits ≤ 32 }
    ensures { result ≡ wrapped bits (neg_ℤ x) }
{
    wrap(bits, x.wrapping_neg())
}

#[tactic(auto, using(crate::proofs::Numbers::over_found))]
/// The quotient, truncated toward zero.
pub fn divide(bits: u32, x: i64, y: i64) -> i64
    requires bits_low { 2 ≤ bits }
    requires bits_high { bits ≤ 32 }
    requires some { int_eq y (pos 0) ≡ false }
    ensures { result ≡ wrapped bits (int_div x y) }
{
    if y == -1 {
        return negate(bits, x);
    }
    wrap(bits, x / y)
}

/// What is left over of a quotient that is truncated toward zero.
pub fn remainder(bits: u32, x: i64, y: i64) -> i64
    requires bits_low { 2 ≤ bits }
    requires bits_high { bits ≤ 32 }
    requires some { int_eq y (pos 0) ≡ false }
    ensures { result ≡ wrapped bits (int_rem x y) }
{
    if y == -1 {
        return wrap(bits, 0);
    }
    wrap(bits, x % y)
}
