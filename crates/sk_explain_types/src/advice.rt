//! What to write where a type cannot stand.
ghost use Rattle.std.specs.Prelude.{◌≡◌};

use crate::finding::{Finding, Stands};
use crate::own::Class;
use crate::types::{BIT, INT, Type};
use sk_explain_notes::Told;
use std::alloc::AllocError;

// So many holes are written out.
const MOST_HOLES: i64 = 8;

// The bits of a number above 1 as a `bit[n]`.
fn push_bits(told: &mut Told, number: u32) -> Result<(), AllocError>
    ensures { told.new.title ≡ told.old.title }
{
    told.notes.say(&[b"a number above 1 is no bit[n]: "])?;
    told.notes.number(u64::from(number))?;
    told.notes.say(&[b" is {"])?;
    push_digits(told, number)?;
    told.note(&[b"}, the least bit first"])
}

// The bits of a number above 1, from the least on.
fn push_digits(told: &mut Told, number: u32) -> Result<(), AllocError>
    ensures { told.new.title ≡ told.old.title }
{
    let mut rest = number;
    while rest > 1 {
        told.notes.number(u64::from(rest % 2))?;
        told.notes.say(&[b", "])?;
        rest = rest / 2;
    }
    told.notes.number(u64::from(rest))
}

// As many holes as an array has elements.
fn push_holes(told: &mut Told, count: i64) -> Result<(), AllocError>
    ensures { told.new.title ≡ told.old.title }
{
    told.notes
        .say(&[b"a hole is an int, a bit or a bit[n]: write {??"])?;
    if count > MOST_HOLES {
        return told.note(&[b", .. ??}, a hole for each element"]);
    }
    for _at in 1..count {
        told.notes.say(&[b", ??"])?;
    }
    told.note(&[b"}"])
}

// A hole where none can stand.
fn push_hole(told: &mut Told, wanted: Type<'_>) -> Result<(), AllocError>
    ensures { told.new.title ≡ told.old.title }
{
    match wanted.element() {
        Some(element) if element == INT || element.is_bits() => push_holes(told, wanted.outer),
        _ => told.note(&[b"a hole is an int, a bit or a bit[n]"]),
    }
}

// The front of a longer array.
fn push_front(told: &mut Told, name: &[u8], wanted: Type<'_>) -> Result<(), AllocError>
    ensures { told.new.title ≡ told.old.title }
{
    let count = u64::try_from(wanted.outer).unwrap_or(0);
    told.notes.say(&[
        b"a longer array does not stand for a shorter one: ",
        name,
        b"[0::",
    ])?;
    told.notes.number(count)?;
    told.notes.say(&[b"] is its first "])?;
    told.notes.number(count)?;
    told.notes.end()
}

// Where another type is wanted.
fn push_unfit<'a>(
    told: &mut Told,
    name: &[u8],
    wanted: Type<'a>,
    stands: Stands<'a>,
) -> Result<(), AllocError>
    ensures { told.new.title ≡ told.old.title }
{
    match stands {
        Stands::Number(number) if wanted.is_word() => push_bits(told, number),
        Stands::Hole => push_hole(told, wanted),
        Stands::Is(ty) if ty == INT && wanted == BIT => {
            told.note(&[b"an int is no bit: write ", name, b" != 0"])
        }
        Stands::Is(ty) if ty.is_word() && wanted == INT => {
            told.note(&[b"a bit[n] is no int: it has + ~ & | ^ << >>, and for -a write ~a + 1"])
        }
        Stands::Is(ty) if ty.is_longer(wanted) => push_front(told, name, wanted),
        _ => Ok(()),
    }
}

// Where an int is shifted.
fn push_shift(told: &mut Told) -> Result<(), AllocError>
    ensures { told.new.title ≡ told.old.title }
{
    told.note(&[b"an int has no shifts: x * 2 is for x << 1, and x / 2 for x >> 1 where x >= 0"])
}

// Where an operand is none for its operator.
fn push_operand(told: &mut Told, class: Class, stands: Stands<'_>) -> Result<(), AllocError>
    ensures { told.new.title ≡ told.old.title }
{
    match (class, stands) {
        (Class::Bits, Stands::Number(number)) => push_bits(told, number),
        (Class::Bits, Stands::Is(ty)) if ty == INT => {
            told.note(&[b"an int has no & | ^ ~: keep bits in a bit[n], or reckon with * / %"])
        }
        (Class::Shifts, Stands::Number(_)) => push_shift(told),
        (Class::Shifts, Stands::Is(ty)) if ty == INT => push_shift(told),
        (Class::Numbers, Stands::Is(ty)) if ty.is_word() => {
            told.note(&[b"a bit[n] has no - * / % and no order: a - b is a + ~b + 1"])
        }
        _ => Ok(()),
    }
}

/// Tells what to write, where that is known. The bytes are those of the place. After a refusal title and notes are given up:
/// nothing is told.
pub fn push_advice(told: &mut Told, name: &[u8], finding: Finding<'_>) -> Result<(), AllocError>
    ensures { told.new.title ≡ told.old.title }
{
    match finding {
        Finding::Unfit { wanted, stands } => push_unfit(told, name, wanted, stands),
        Finding::Operand {
            class,
            stands,
            behind: _,
        } => push_operand(told, class, stands),
        Finding::Apart {
            left: Stands::Is(ty),
            right: Stands::Number(number),
            behind: _,
        } if ty.is_word() => push_bits(told, number),
        Finding::Apart {
            left: Stands::Number(number),
            right: Stands::Is(ty),
            behind: _,
        } if ty.is_word() => push_bits(told, number),
        Finding::Apart { .. } | Finding::Count { .. } | Finding::Unknown { .. } => Ok(()),
        Finding::NoResult | Finding::WantsResult(_) => Ok(()),
        Finding::Base { .. } | Finding::Exact { .. } => Ok(()),
    }
}
