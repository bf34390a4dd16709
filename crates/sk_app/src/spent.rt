//! The result texts of a search that ended as its budget was spent.

ghost use Rattle.std.specs.Prelude.{◌≡◌, ◌++◌, codes, decimal, IfOk, OnOk};
ghost use Rattle.std.specs.List.{flat_map};
ghost use Rattle.sk_app.specs.ResultText.{spaced};
ghost use Rattle.sk_app.specs.SpentText.{argument_text, choice_line, input_line, pair_lines, spent_lines, best_lines, OfRounds, OfConflicts};

use sk_base::push_number;
use sk_exec_values::push_value;
use sk_model::{Choice, Input, Pair};
use sk_prog::Value;
use std::alloc::{AllocError, Global};

/// Appends each number with a space before it.
pub fn push_spaced(out: &mut Vec<u8>, numbers: &[u64]) -> Result<(), AllocError>
    ensures { OnOk result (out.new.items ≡ out.old.items ++ spaced numbers.now) }
{
    let mut rest = numbers;
    while let [number, after @ ..] = rest {
        out.push(b' ')?;
        push_number(out, *number)?;
        rest = after;
    }
    Ok(())
}

/// Appends each argument with a space before it.
fn push_args(out: &mut Vec<u8>, args: &[Value]) -> Result<(), AllocError>
    ensures { OnOk result (out.new.items ≡ out.old.items ++ flat_map argument_text args.now) }
{
    let mut rest = args;
    while let [value, after @ ..] = rest {
        out.push(b' ')?;
        push_value(out, value)?;
        rest = after;
    }
    Ok(())
}

/// Appends the line of a choice.
fn push_choice(out: &mut Vec<u8>, choice: &Choice) -> Result<(), AllocError>
    ensures { OnOk result (out.new.items ≡ out.old.items ++ choice_line choice.now) }
{
    out.extend_from_slice(b"//@ choice")?;
    push_spaced(out, choice.values.as_slice())?;
    out.push(b'\n')?;
    Ok(())
}

/// Appends the line of an input.
fn push_input(out: &mut Vec<u8>, input: &Input) -> Result<(), AllocError>
    ensures { OnOk result (out.new.items ≡ out.old.items ++ input_line input.now) }
{
    out.extend_from_slice(b"//@ input ")?;
    push_number(out, u64::from(input.obligation))?;
    push_args(out, input.args.as_slice())?;
    out.push(b'\n')?;
    Ok(())
}

/// Appends the lines of each pair.
fn push_pairs(out: &mut Vec<u8>, pairs: &[Pair]) -> Result<(), AllocError>
    ensures { OnOk result (out.new.items ≡ out.old.items ++ flat_map pair_lines pairs.now) }
{
    let mut rest = pairs;
    while let [pair, after @ ..] = rest {
        push_choice(out, &pair.choice)?;
        push_input(out, &pair.input)?;
        rest = after;
    }
    Ok(())
}

/// Appends the lines of a spent budget of rounds.
pub fn push_rounds(out: &mut Vec<u8>, rounds: u64, pairs: &[Pair]) -> Result<(), AllocError>
    ensures { OnOk result (out.new.items ≡ out.old.items ++ spent_lines (OfRounds rounds pairs.now)) }
{
    out.extend_from_slice(b"//@ spent rounds ")?;
    push_number(out, rounds)?;
    out.push(b'\n')?;
    push_pairs(out, pairs)?;
    Ok(())
}

/// Appends the line of a spent budget of conflicts.
pub fn push_conflicts(out: &mut Vec<u8>, conflicts: u64) -> Result<(), AllocError>
    ensures { OnOk result (out.new.items ≡ out.old.items ++ spent_lines (OfConflicts conflicts)) }
{
    out.extend_from_slice(b"//@ spent conflicts ")?;
    push_number(out, conflicts)?;
    out.push(b'\n')?;
    Ok(())
}

/// Appends the lines of the last choice that is known to meet every obligation.
pub fn push_best(out: &mut Vec<u8>, choice: &Choice) -> Result<(), AllocError>
    ensures { OnOk result (out.new.items ≡ out.old.items ++ best_lines choice.now) }
{
    out.extend_from_slice(b"//@ completion\n//@ holes")?;
    push_spaced(out, choice.values.as_slice())?;
    out.push(b'\n')?;
    Ok(())
}
