//! Under which bounds a completion holds.
ghost use Rattle.std.specs.Prelude.{◌≡◌, ◌<◌, ◌++◌, ◌-◌, ◌^◌, OnOk};
ghost use Rattle.sk_opts.specs.Ranges.{AreInRanges, IsInRanges};
ghost use Rattle.sk_explain_notes.specs.Notes.{one_line};
ghost use Rattle.sk_explain_causes.specs.Holding.{bounds_between, bounds_text, counted};

use crate::phrases::push_note;
use crate::pieces::{has_key, some_tokens};
use sk_base::Bounds;
use sk_explain_notes::Told;
use sk_opts::{Line, Set, Usage, bounds, options};
use sk_parser::{ParseFault, parse};
use sk_tree::Key;
use std::alloc::{AllocError, Global};

// The greatest number of so many bits.
#[tactic(auto, using(crate::proofs::Powers::room, crate::proofs::Powers::positive))]
fn greatest(bits: u32) -> u32
    requires { bits < 32 }
    ensures { result ≡ 2 ^ bits - 1 }
{
    (1 << bits) - 1
}

// Appends words with a number behind them.
fn push_counted(told: &mut Told, words: &[u8], number: u64) -> Result<(), AllocError>
    ensures notes { OnOk result (told.new.notes.bytes.items ≡ told.old.notes.bytes.items ++ counted words.now number) }
    ensures title { told.new.title ≡ told.old.title }
{
    told.notes.say(&[words])?;
    told.notes.number(number)?;
    Ok(())
}

// The same of two words.
fn push_pair(told: &mut Told, first: &[u8], m: u32, second: &[u8], n: u32) -> Result<(), AllocError>
    ensures notes { OnOk result (told.new.notes.bytes.items ≡ told.old.notes.bytes.items ++ (counted first.now m ++ counted second.now n)) }
    ensures title { told.new.title ≡ told.old.title }
{
    push_counted(told, first, u64::from(m))?;
    push_counted(told, second, u64::from(n))?;
    Ok(())
}

// The same, with words that end the line.
fn push_last(
    told: &mut Told,
    first: &[u8],
    m: u32,
    second: &[u8],
    n: u32,
    last: &[u8],
) -> Result<(), AllocError>
    ensures notes { OnOk result (told.new.notes.bytes.items ≡ told.old.notes.bytes.items ++ ((counted first.now m ++ counted second.now n) ++ one_line last.now)) }
    ensures title { told.new.title ≡ told.old.title }
{
    push_pair(told, first, m, second, n)?;
    push_note(told, last)?;
    Ok(())
}

// The same of two words, the number of the first being the greatest of so many bits.
fn push_inputs(
    told: &mut Told,
    first: &[u8],
    bits: u32,
    second: &[u8],
    n: u32,
) -> Result<(), AllocError>
    requires { bits < 32 }
    ensures notes { OnOk result (told.new.notes.bytes.items ≡ told.old.notes.bytes.items ++ (counted first.now (2 ^ bits - 1) ++ counted second.now n)) }
    ensures title { told.new.title ≡ told.old.title }
{
    push_pair(told, first, greatest(bits), second, n)?;
    Ok(())
}

// Both, one behind another.
fn push_all(
    told: &mut Told,
    bounds: &Bounds,
    inputs: &[u8],
    turns: &[u8],
    calls: &[u8],
    bits: &[u8],
    last: &[u8],
) -> Result<(), AllocError>
    requires { AreInRanges bounds.now }
    ensures notes { OnOk result (told.new.notes.bytes.items ≡ told.old.notes.bytes.items ++ bounds_between inputs.now turns.now calls.now bits.now last.now bounds.now) }
    ensures title { told.new.title ≡ told.old.title }
{
    push_inputs(told, inputs, bounds.inbits, turns, bounds.unroll)?;
    push_last(told, calls, bounds.inline_amnt, bits, bounds.int_bits, last)?;
    Ok(())
}

// Tells the bounds.
fn push_bounds(told: &mut Told, bounds: &Bounds) -> Result<(), AllocError>
    requires { AreInRanges bounds.now }
    ensures notes { OnOk result (told.new.notes.bytes.items ≡ told.old.notes.bytes.items ++ bounds_text bounds.now) }
    ensures title { told.new.title ≡ told.old.title }
{
    push_all(
        told,
        bounds,
        b"it holds for inputs 0 to ",
        b", loops to ",
        b" turns, calls to ",
        b" deep, int of ",
        b" bits",
    )
}

// The same of the bounds that options give together with the pragmas of a text in which something is asked.
fn push_set(alloc: Global, told: &mut Told, set: &Set, text: &[u8]) -> Result<(), AllocError>
    requires { IsInRanges set.now }
    ensures { told.new.title ≡ told.old.title }
{
    let tokens = some_tokens(alloc, text)?;
    if !has_key(tokens.as_slice(), Key::Harness) && !has_key(tokens.as_slice(), Key::Implements) {
        return Ok(());
    }
    match parse(alloc, tokens.as_slice()) {
        Ok(tree) => push_bounds(told, &bounds(set, &tree)),
        Err(ParseFault::Memory) => Err(AllocError),
        Err(_) => Ok(()),
    }
}

/// Tells under which bounds the completion of a line `synth` holds. After a refusal title and notes are given up: nothing is
/// told.
pub fn push_holding(
    alloc: Global,
    told: &mut Told,
    words: &[String],
    text: &[u8],
) -> Result<(), AllocError>
    ensures { told.new.title ≡ told.old.title }
{
    match options(alloc, words) {
        Ok(Line::Synth { set, .. }) => push_set(alloc, told, &set, text),
        Ok(_) | Err(Usage::NotALine) => Ok(()),
        Err(Usage::Memory) => Err(AllocError),
    }
}
