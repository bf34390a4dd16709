//! The lines that tell inputs and choices.

ghost use Rattle.std.specs.Prelude.{◌≡◌, ◌++◌, IfOk, OnOk};
ghost use Rattle.std.specs.List.{flat_map};
ghost use Rattle.sk_all_text.specs.AllLines.{spaced, argument_text, holes_line, input_line, inputs_text, met_text, listing_text};

use sk_all_listing::Listing;
use sk_base::push_number;
use sk_exec_values::push_value;
use sk_model::{Choice, Input};
use sk_prog::Value;
use std::alloc::{AllocError, Global};

/// Appends each number with a space before it.
fn push_spaced(out: &mut Vec<u8>, numbers: &[u64]) -> Result<(), AllocError>
    ensures { OnOk result (out.new.items ≡ out.old.items ++ spaced numbers.now) }
{
    let mut rest = numbers;
    while let [number, after @ ..] = rest {
        out.push(b' ')?;
        push_number(out, *number)?;
        rest = after;
    }
    Ok(())
}

/// Appends each argument with a space before it.
fn push_args(out: &mut Vec<u8>, args: &[Value]) -> Result<(), AllocError>
    ensures { OnOk result (out.new.items ≡ out.old.items ++ flat_map argument_text args.now) }
{
    let mut rest = args;
    while let [value, after @ ..] = rest {
        out.push(b' ')?;
        push_value(out, value)?;
        rest = after;
    }
    Ok(())
}

/// Appends the line of a choice.
fn push_choice(out: &mut Vec<u8>, choice: &Choice) -> Result<(), AllocError>
    ensures { OnOk result (out.new.items ≡ out.old.items ++ holes_line choice.now) }
{
    out.extend_from_slice(b"//@ holes")?;
    push_spaced(out, choice.values.as_slice())?;
    out.push(b'\n')?;
    Ok(())
}

/// Appends the line of an input.
fn push_input(out: &mut Vec<u8>, input: &Input) -> Result<(), AllocError>
    ensures { OnOk result (out.new.items ≡ out.old.items ++ input_line input.now) }
{
    out.extend_from_slice(b"//@ input ")?;
    push_number(out, u64::from(input.obligation))?;
    push_args(out, input.args.as_slice())?;
    out.push(b'\n')?;
    Ok(())
}

/// Appends the line of each choice.
fn push_choices(out: &mut Vec<u8>, choices: &[Choice]) -> Result<(), AllocError>
    ensures { OnOk result (out.new.items ≡ out.old.items ++ flat_map holes_line choices.now) }
{
    let mut rest = choices;
    while let [choice, after @ ..] = rest {
        push_choice(out, choice)?;
        rest = after;
    }
    Ok(())
}

/// Appends the line of each input.
fn push_inputs(out: &mut Vec<u8>, inputs: &[Input]) -> Result<(), AllocError>
    ensures { OnOk result (out.new.items ≡ out.old.items ++ flat_map input_line inputs.now) }
{
    let mut rest = inputs;
    while let [input, after @ ..] = rest {
        push_input(out, input)?;
        rest = after;
    }
    Ok(())
}

/// The lines that tell inputs, and how many they are.
pub(crate) fn inputs_text(alloc: Global, inputs: &[Input]) -> Result<Vec<u8>, AllocError>
    ensures { IfOk result (λ out. out.items ≡ inputs_text inputs.now) }
{
    let mut out = Vec::new(alloc);
    push_inputs(&mut out, inputs)?;
    out.extend_from_slice(b"//@ why ")?;
    push_number(&mut out, inputs.len() as u64)?;
    out.push(b'\n')?;
    Ok(out)
}

/// The lines that tell a completion.
pub(crate) fn met_text(alloc: Global, choice: &Choice) -> Result<Vec<u8>, AllocError>
    ensures { IfOk result (λ out. out.items ≡ met_text choice.now) }
{
    let mut out = Vec::from_slice(alloc, b"//@ met\n")?;
    push_choice(&mut out, choice)?;
    Ok(out)
}

/// The lines that tell completions, and whether these are all.
pub(crate) fn listing_text(alloc: Global, listing: &Listing) -> Result<Vec<u8>, AllocError>
    ensures { IfOk result (λ out. out.items ≡ listing_text listing.now) }
{
    let mut out = Vec::new(alloc);
    match listing {
        Listing::All(choices) => {
            push_choices(&mut out, choices.as_slice())?;
            out.extend_from_slice(b"//@ all\n")?;
            Ok(out)
        }
        Listing::More(choices) => {
            push_choices(&mut out, choices.as_slice())?;
            out.extend_from_slice(b"//@ more\n")?;
            Ok(out)
        }
    }
}
