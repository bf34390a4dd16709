// Values and logs as text.
ghost use Rattle.std.specs.Prelude.{◌≡◌, ◌++◌, OnOk, IfOk};
ghost use Rattle.std.specs.String.{string_bytes};
ghost use Rattle.dimacs_text.specs.Written.{sign_text, lit_text, clause_text, log_lines, value_line};

use itoa::Buffer;
use sk_clause::{Lit, Log};
use std::alloc::{AllocError, Global};

// Adds a minus in front of a negation.
fn put_sign(text: &mut String, neg: bool) -> Result<(), AllocError>
    ensures { OnOk result (string_bytes text.new ≡ string_bytes text.old ++ sign_text neg) }
{
    if neg {
        text.push_str("-")?;
        return Ok(());
    }
    Ok(())
}

// Adds a literal as a number of the format, and a blank.
fn put(text: &mut String, l: Lit) -> Result<(), AllocError>
    ensures { OnOk result (string_bytes text.new ≡ string_bytes text.old ++ lit_text l) }
{
    let number = l.var.saturating_add(1);
    put_sign(text, l.neg)?;
    let mut buffer = Buffer::new();
    text.push_str(buffer.format(number))?;
    text.push_str(" ")?;
    Ok(())
}

// Adds a clause, ended by 0, as a line.
#[tactic(auto, using(crate::proofs::TextLemmas::texts))]
fn put_clause(text: &mut String, clause: &[Lit]) -> Result<(), AllocError>
    ensures { OnOk result (string_bytes text.new ≡ string_bytes text.old ++ clause_text clause.now) }
{
    for l in clause {
        put(text, *l)?;
    }
    text.push_str("0\n")?;
    Ok(())
}

/// The values as one line `v`, ended by 0.
#[tactic(auto, using(crate::proofs::TextLemmas::texts))]
pub fn value_text(alloc: Global, values: &[bool]) -> Result<String, AllocError>
    ensures { IfOk result (λ text. string_bytes text ≡ value_line values.now) }
{
    let mut text = String::from_str(alloc, "v ")?;
    for v in 0..values.len() {
        let l = Lit {
            var: v,
            neg: !values[v],
        };
        put(&mut text, l)?;
    }
    text.push_str("0")?;
    Ok(text)
}

/// The log, a clause a line, each ended by 0.
#[tactic(auto, using(crate::proofs::TextLemmas::texts))]
pub fn log_text(alloc: Global, log: &Log) -> Result<String, AllocError>
    ensures { IfOk result (λ text. string_bytes text ≡ log_lines log.now) }
{
    let mut text = String::new(alloc);
    for i in 0..log.len() {
        put_clause(&mut text, log.get(i))?;
    }
    Ok(text)
}
