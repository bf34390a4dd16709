//! The text of a trace.

ghost use Rattle.std.specs.Prelude.{◌≡◌, ◌++◌, codes, decimal, IfOk, OnOk};
ghost use Rattle.std.specs.List.{flat_map};
ghost use Rattle.sk_app_texts.specs.RunTexts.{span_text};
ghost use Rattle.sk_trace_text.specs.StepTexts.{truth_word, what_text, step_line, more_line, shown_text};

use sk_base::{push_number, push_signed};
use sk_exec_values::{push_run, push_value};
use sk_interp_laws::{Step, What};
use sk_prog::Fun;
use sk_trace::Trace;
use std::alloc::{AllocError, Global};

fn truth_word(truth: bool) -> &'static [u8]
    ensures { result.now ≡ truth_word truth }
{
    if truth { b"true" } else { b"false" }
}

fn push_what(out: &mut Vec<u8>, what: &What) -> Result<(), AllocError>
    ensures { OnOk result (out.new.items ≡ out.old.items ++ what_text what.now) }
{
    match what {
        What::Store(value) => {
            out.extend_from_slice(b"store ")?;
            push_value(out, value)?;
            Ok(())
        }
        What::Truth(truth) => {
            out.extend_from_slice(truth_word(*truth))?;
            Ok(())
        }
        What::Cost(number) => {
            out.extend_from_slice(b"cost ")?;
            push_signed(out, *number)?;
            Ok(())
        }
        What::Go => {
            out.extend_from_slice(b"go")?;
            Ok(())
        }
    }
}

/// Appends how many calls are active, and the bytes of the statement.
fn push_place(out: &mut Vec<u8>, step: &Step) -> Result<(), AllocError>
    ensures { OnOk result (out.new.items ≡ out.old.items ++ (decimal step.now.active ++ codes " " ++ span_text step.now.span ++ codes " ")) }
{
    push_number(out, u64::from(step.active))?;
    out.push(b' ')?;
    push_number(out, u64::from(step.span.from))?;
    out.push(b' ')?;
    push_number(out, u64::from(step.span.to))?;
    out.push(b' ')?;
    Ok(())
}

fn push_step(out: &mut Vec<u8>, step: &Step) -> Result<(), AllocError>
    ensures { OnOk result (out.new.items ≡ out.old.items ++ step_line step.now) }
{
    push_place(out, step)?;
    push_what(out, &step.what)?;
    out.push(b'\n')?;
    Ok(())
}

fn push_steps(out: &mut Vec<u8>, steps: &[Step]) -> Result<(), AllocError>
    ensures { OnOk result (out.new.items ≡ out.old.items ++ flat_map step_line steps.now) }
{
    let mut rest = steps;
    while let [step, after @ ..] = rest {
        push_step(out, step)?;
        rest = after;
    }
    Ok(())
}

fn push_more(out: &mut Vec<u8>, more: bool) -> Result<(), AllocError>
    ensures { OnOk result (out.new.items ≡ out.old.items ++ more_line more) }
{
    if more {
        out.extend_from_slice(b"more\n")?;
    }
    Ok(())
}

/// What is written of a trace of a function.
pub fn shown_text(alloc: Global, fun: &Fun, trace: &Trace) -> Result<Vec<u8>, AllocError>
    ensures { IfOk result (λ out. out.items ≡ shown_text fun.now trace.now.steps trace.now.more trace.now.outcome) }
{
    let mut out = Vec::new(alloc);
    push_steps(&mut out, trace.steps.as_slice())?;
    push_more(&mut out, trace.more)?;
    push_run(&mut out, fun, &trace.outcome)?;
    Ok(out)
}
