//! The text of a run.
ghost use Rattle.std.specs.Prelude.{◌≡◌, ◌++◌, map, codes, decimal, OnOk, IfOk};
ghost use Rattle.std.specs.Option.{option_copied};
ghost use Rattle.std.specs.List.{flat_map, zip, join_by};
ghost use Rattle.sk_model.specs.declared.outcome.Outcome.TheVariants as outcome;
ghost use Rattle.sk_app_texts.specs.ValueTexts.{bit_text, value_text};
ghost use Rattle.sk_app_texts.specs.RunTexts.{result_text, ref_names, ref_line, span_text, run_text};

use sk_base::{Span, push_number, push_signed};
use sk_model::Outcome;
use sk_prog::{Fun, ParamDef, Value};
use std::alloc::{AllocError, Global};

fn push_bit(out: &mut Vec<u8>, bit: bool) -> Result<(), AllocError>
    ensures { OnOk result (out.new.items ≡ out.old.items ++ bit_text bit) }
{
    out.push(if bit { b'1' } else { b'0' })?;
    Ok(())
}

/// Appends how a value is spelt. After a refusal what was written is given up with the call that writes it.
#[cycle(push_value)]
pub fn push_value(out: &mut Vec<u8>, value: &Value) -> Result<(), AllocError>
    ensures { OnOk result (out.new.items ≡ out.old.items ++ value_text value.now) }
{
    match value {
        Value::Bit(bit) => {
            push_bit(out, *bit)?;
            Ok(())
        }
        Value::Int(n) => {
            push_signed(out, *n)?;
            Ok(())
        }
        Value::Null => {
            out.extend_from_slice(b"null")?;
            Ok(())
        }
        Value::Place(_) => {
            out.extend_from_slice(b"ref")?;
            Ok(())
        }
        Value::Array(values) => {
            push_values(out, values.as_slice())?;
            Ok(())
        }
    }
}

/// The values with commas between them.
#[cycle(push_value)]
#[tactic(auto, using(crate::proofs::Joined::joined_first))]
fn push_values(out: &mut Vec<u8>, values: &[Value]) -> Result<(), AllocError>
    ensures { OnOk result (out.new.items ≡ out.old.items ++ join_by (λ t. t) (codes ",") (map value_text values.now)) }
{
    let mut between: &[u8] = b"";
    for value in values {
        out.extend_from_slice(between)?;
        push_value(out, value)?;
        between = b",";
    }
    Ok(())
}

fn push_result(out: &mut Vec<u8>, value: Option<&Value>) -> Result<(), AllocError>
    ensures { OnOk result (out.new.items ≡ out.old.items ++ result_text (option_copied value.entry)) }
{
    match value {
        None => {
            out.push(b'-')?;
            Ok(())
        }
        Some(value) => {
            push_value(out, value)?;
            Ok(())
        }
    }
}

fn push_ref(out: &mut Vec<u8>, name: &[u8], value: &Value) -> Result<(), AllocError>
    ensures { OnOk result (out.new.items ≡ out.old.items ++ ref_line (name.now, value.now)) }
{
    out.extend_from_slice(b"ref ")?;
    out.extend_from_slice(name)?;
    out.push(b' ')?;
    push_value(out, value)?;
    out.push(b'\n')?;
    Ok(())
}

/// A line for each `ref` parameter, as far as there are values.
fn push_refs(out: &mut Vec<u8>, params: &[ParamDef], values: &[Value]) -> Result<(), AllocError>
    ensures { OnOk result (out.new.items ≡ out.old.items ++ flat_map ref_line (zip (ref_names params.now) values.now)) }
{
    let mut values = values;
    for param in params {
        if !param.by_ref {
            continue;
        }
        let [value, after @ ..] = values else {
            return Ok(());
        };
        push_ref(out, param.name.as_bytes(), value)?;
        values = after;
    }
    Ok(())
}

/// The line of a run that is not done, which begins with this word.
fn push_end(out: &mut Vec<u8>, word: &[u8], span: Span) -> Result<(), AllocError>
    ensures { OnOk result (out.new.items ≡ out.old.items ++ (word.now ++ span_text span ++ codes "\n")) }
{
    out.extend_from_slice(word)?;
    push_number(out, span.from as u64)?;
    out.push(b' ')?;
    push_number(out, span.to as u64)?;
    out.push(b'\n')?;
    Ok(())
}

fn push_cost(out: &mut Vec<u8>, cost: u64) -> Result<(), AllocError>
    ensures { OnOk result (out.new.items ≡ out.old.items ++ (codes "cost " ++ decimal cost ++ codes "\n")) }
{
    out.extend_from_slice(b"cost ")?;
    push_number(out, cost)?;
    out.push(b'\n')?;
    Ok(())
}

/// What is written of a run that is done.
fn push_done(
    out: &mut Vec<u8>,
    fun: &Fun,
    value: Option<&Value>,
    refs: &[Value],
    cost: u64,
) -> Result<(), AllocError>
    ensures { OnOk result (out.new.items ≡ out.old.items ++ run_text fun.now (outcome.Done (option_copied value.entry) refs.now cost)) }
{
    out.extend_from_slice(b"result ")?;
    push_result(out, value)?;
    out.push(b'\n')?;
    push_refs(out, fun.params.as_slice(), refs)?;
    push_cost(out, cost)?;
    Ok(())
}

/// Appends what is written of a run of a function. After a refusal what was written is given up with the call that writes it.
pub fn push_run(out: &mut Vec<u8>, fun: &Fun, outcome: &Outcome) -> Result<(), AllocError>
    ensures { OnOk result (out.new.items ≡ out.old.items ++ run_text fun.now outcome.now) }
{
    match outcome {
        Outcome::Done {
            result: value,
            refs,
            cost,
        } => push_done(out, fun, value.as_ref(), refs.as_slice(), *cost),
        Outcome::Failed { span } => push_end(out, b"failed ", *span),
        Outcome::Skipped { span } => push_end(out, b"skipped ", *span),
    }
}

/// What is written of a run of a function.
pub fn run_text(alloc: Global, fun: &Fun, outcome: &Outcome) -> Result<Vec<u8>, AllocError>
    ensures { IfOk result (λ out. out.items ≡ run_text fun.now outcome.now) }
{
    let mut out = Vec::new(alloc);
    push_run(&mut out, fun, outcome)?;
    Ok(out)
}
