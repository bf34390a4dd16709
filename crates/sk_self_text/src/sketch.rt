//! The sketch of a line `self`.

ghost use Rattle.std.specs.Prelude.{◌≡◌, ◌++◌, ◌+◌, ◌%◌, ◌*◌, ◌<◌, decimal, IfOk, OnOk};
ghost use Rattle.sk_app_texts.specs.SelfTexts.{factor, offset, sum_harness, sum_harnesses, least_harness, self_sketch};

use sk_base::push_number;
use std::alloc::{AllocError, Global};

/// What is left of a number by 32.
fn below(number: u64) -> u64
    ensures is { result ≡ number % 32 }
    ensures low { result < 32 }
{
    number % 32
}

/// What a harness multiplies its input by.
fn factor(i: u32) -> u64
    ensures { result ≡ factor i }
{
    4 * below(7 * u64::from(i) + 3)
}

/// What it adds.
fn offset(i: u32) -> u64
    ensures { result ≡ offset i }
{
    below(11 * u64::from(i) + 5)
}

/// Appends a number.
fn push_count(out: &mut Vec<u8>, number: u32) -> Result<(), AllocError>
    ensures { OnOk result (out.new.items ≡ out.old.items ++ decimal number) }
{
    push_number(out, u64::from(number))?;
    Ok(())
}

/// Appends what a harness multiplies its input by.
fn push_factor(out: &mut Vec<u8>, i: u32) -> Result<(), AllocError>
    ensures { OnOk result (out.new.items ≡ out.old.items ++ decimal (factor i)) }
{
    push_number(out, factor(i))?;
    Ok(())
}

/// Appends what it adds.
fn push_offset(out: &mut Vec<u8>, i: u32) -> Result<(), AllocError>
    ensures { OnOk result (out.new.items ≡ out.old.items ++ decimal (offset i)) }
{
    push_number(out, offset(i))?;
    Ok(())
}

/// Appends the harness with this number.
fn push_sum_harness(out: &mut Vec<u8>, i: u32) -> Result<(), AllocError>
    ensures { OnOk result (out.new.items ≡ out.old.items ++ sum_harness i) }
{
    out.extend_from_slice(b"harness void h")?;
    push_count(out, i)?;
    out.extend_from_slice(
        b"(int x) {
    int s = 0;
    int i = 0;
    while (i < 4) {
        s = s + x * ??;
        i = i + 1;
    }
    assert s + ?? == x * ",
    )?;
    push_factor(out, i)?;
    out.extend_from_slice(b" + ")?;
    push_offset(out, i)?;
    out.extend_from_slice(b";\n}\n")?;
    Ok(())
}

/// Appends the harnesses with numbers below so many.
fn push_sum_harnesses(out: &mut Vec<u8>, count: u32) -> Result<(), AllocError>
    ensures { OnOk result (out.new.items ≡ out.old.items ++ sum_harnesses count) }
{
    let mut i = 0;
    'pushing: while i < count {
        push_sum_harness(out, i)?;
        i += 1;
    }
    Ok(())
}

/// Appends the harness whose cost is a hole.
fn push_least_harness(out: &mut Vec<u8>, n: u32) -> Result<(), AllocError>
    ensures { OnOk result (out.new.items ≡ out.old.items ++ least_harness n) }
{
    out.extend_from_slice(
        b"harness void least(int x) {
    int n = ??;
    assert n * 2 >= ",
    )?;
    push_count(out, n)?;
    out.extend_from_slice(b";\n    minimize(n);\n}\n")?;
    Ok(())
}

/// The sketch that a line `self` with this number completes.
///
/// # Errors
///
/// Memory is wanting.
pub fn self_sketch(alloc: Global, n: u32) -> Result<Vec<u8>, AllocError>
    ensures { IfOk result (λ text. text.items ≡ self_sketch n) }
{
    let mut text = Vec::new(alloc);
    push_sum_harnesses(&mut text, n)?;
    push_sum_harness(&mut text, n)?;
    push_least_harness(&mut text, n)?;
    Ok(text)
}
