// Certificates as text.
ghost use Rattle.std.specs.Prelude.{All, ◌≡◌, ◌++◌, ◌+◌, ◌∷◌, [], ◌<◌, codes, map, length, IfOk, OnOk, IfSome, Some};
ghost use Rattle.std.specs.Fmt.{decimal, signed_decimal};
ghost use Rattle.std.specs.List.{flat_map};
ghost use Rattle.std.specs.Option.{option_copied};
ghost use Rattle.sk_clause.specs.Problem.{IsWithin, AreWithin};
ghost use Rattle.sk_cert.specs.Certificates.{number_line, mark_line, result_lines, argument_text, input_line, input_lines, literal_text, clause_line, names_line, part_lines, part_number, upper_from, lower_lines, certificate_lines, certificate_text, HasForm, HasItsVariables};

use crate::certificate::{CertInput, Certificate, Proof};
use sk_base::{Name, push_number, push_signed};
use sk_clause::{ClauseList, Lit};
use sk_model::Choice;
use std::alloc::{AllocError, Global};

// Adds a blank and a number.
fn push_word(out: &mut Vec<u8>, number: u64) -> Result<(), AllocError>
    ensures { OnOk result (out.new.items ≡ out.old.items ++ (codes " " ++ decimal number)) }
{
    out.push(b' ')?;
    push_number(out, number)?;
    Ok(())
}

// Adds a blank and a number for each.
fn push_words(out: &mut Vec<u8>, numbers: &[u64]) -> Result<(), AllocError>
    ensures { OnOk result (out.new.items ≡ out.old.items ++ flat_map (λ w. codes " " ++ w) (map decimal numbers.now)) }
{
    for number in numbers {
        push_word(out, *number)?;
    }
    Ok(())
}

// Adds the mark and the kind of a line.
fn push_mark(out: &mut Vec<u8>, kind: &[u8]) -> Result<(), AllocError>
    ensures { OnOk result (out.new.items ≡ out.old.items ++ (codes "//@ " ++ kind.now)) }
{
    out.extend_from_slice(b"//@ ")?;
    out.extend_from_slice(kind)?;
    Ok(())
}

// Adds a line of this kind, with numbers behind it.
fn push_number_line(out: &mut Vec<u8>, kind: &[u8], numbers: &[u64]) -> Result<(), AllocError>
    ensures { OnOk result (out.new.items ≡ out.old.items ++ number_line kind.now numbers.now) }
{
    push_mark(out, kind)?;
    push_words(out, numbers)?;
    out.push(b'\n')?;
    Ok(())
}

// Adds the line of the values of a choice.
fn push_holes(out: &mut Vec<u8>, choice: &Choice) -> Result<(), AllocError>
    ensures { OnOk result (out.new.items ≡ out.old.items ++ number_line (codes "holes") choice.now.values) }
{
    push_number_line(out, b"holes", choice.values.as_slice())?;
    Ok(())
}

// Adds the lines of a choice and its value.
fn push_choice(out: &mut Vec<u8>, choice: &Choice, value: u64) -> Result<(), AllocError>
    ensures { OnOk result (out.new.items ≡ out.old.items ++ result_lines (Some choice.now) value) }
{
    push_number_line(out, b"completion", &[])?;
    push_number_line(out, b"value", &[value])?;
    push_holes(out, choice)?;
    Ok(())
}

// Adds the lines of a result.
fn push_result(out: &mut Vec<u8>, choice: Option<&Choice>, value: u64) -> Result<(), AllocError>
    ensures { OnOk result (out.new.items ≡ out.old.items ++ result_lines (option_copied choice.entry) value) }
{
    match choice {
        None => {
            push_number_line(out, b"none", &[])?;
            Ok(())
        }
        Some(choice) => {
            push_choice(out, choice, value)?;
            Ok(())
        }
    }
}

// Adds a scalar.
fn push_scalar(out: &mut Vec<u8>, scalar: &i64) -> Result<(), AllocError>
    ensures { OnOk result (out.new.items ≡ out.old.items ++ signed_decimal scalar.now) }
{
    push_signed(out, *scalar)?;
    Ok(())
}

// Adds the scalars with commas between them.
#[tactic(auto, using(crate::proofs::Joined::joined_first))]
fn push_argument(out: &mut Vec<u8>, scalars: &[i64]) -> Result<(), AllocError>
    ensures { OnOk result (out.new.items ≡ out.old.items ++ argument_text scalars.now) }
{
    let mut between: &[u8] = b"";
    for scalar in scalars {
        out.extend_from_slice(between)?;
        push_scalar(out, scalar)?;
        between = b",";
    }
    Ok(())
}

// Adds a blank and the text of each argument.
fn push_arguments(out: &mut Vec<u8>, args: &[sk_base::List<i64>]) -> Result<(), AllocError>
    ensures { OnOk result (out.new.items ≡ out.old.items ++ flat_map (λ w. codes " " ++ w) (map argument_text args.now)) }
{
    for scalars in args {
        out.push(b' ')?;
        push_argument(out, scalars.as_slice())?;
    }
    Ok(())
}

// Adds the line of an input.
fn push_input(out: &mut Vec<u8>, input: &CertInput) -> Result<(), AllocError>
    ensures { OnOk result (out.new.items ≡ out.old.items ++ input_line input.now) }
{
    push_mark(out, b"input")?;
    push_word(out, input.obligation)?;
    push_arguments(out, input.args.as_slice())?;
    out.push(b'\n')?;
    Ok(())
}

// Adds the lines of the inputs.
fn push_inputs(out: &mut Vec<u8>, inputs: &[CertInput]) -> Result<(), AllocError>
    ensures { OnOk result (out.new.items ≡ out.old.items ++ input_lines inputs.now) }
{
    push_number_line(out, b"inputs", &[inputs.len() as u64])?;
    for input in inputs {
        push_input(out, input)?;
    }
    Ok(())
}

// Adds a blank and a literal.
fn push_literal(out: &mut Vec<u8>, lit: Lit, vars: usize) -> Result<(), AllocError>
    requires { lit.var < vars }
    ensures { OnOk result (out.new.items ≡ out.old.items ++ (codes " " ++ literal_text lit)) }
{
    out.push(b' ')?;
    if lit.neg {
        out.push(b'-')?;
        push_number(out, lit.var as u64 + 1)?;
        return Ok(());
    }
    push_number(out, lit.var as u64 + 1)?;
    Ok(())
}

// Adds the line of a clause.
fn push_clause(
    out: &mut Vec<u8>,
    kind: &[u8],
    clause: &[Lit],
    vars: usize,
) -> Result<(), AllocError>
    requires { IsWithin vars clause.now }
    ensures { OnOk result (out.new.items ≡ out.old.items ++ clause_line kind.now clause.now) }
{
    push_mark(out, kind)?;
    for lit in clause {
        push_literal(out, *lit, vars)?;
    }
    out.push(b'\n')?;
    Ok(())
}

// Adds the lines of clauses.
fn push_clauses(
    out: &mut Vec<u8>,
    kind: &[u8],
    clauses: &ClauseList,
    vars: usize,
) -> Result<(), AllocError>
    requires { AreWithin vars clauses.now }
    ensures { OnOk result (out.new.items ≡ out.old.items ++ flat_map (clause_line kind.now) clauses.now) }
{
    for i in 0..clauses.len() {
        push_clause(out, kind, clauses.get(i), vars)?;
    }
    Ok(())
}

// Adds the line of the names.
fn push_names(out: &mut Vec<u8>, names: &[usize], vars: usize) -> Result<(), AllocError>
    requires { All (λ v. v < vars) names.now }
    ensures { OnOk result (out.new.items ≡ out.old.items ++ names_line names.now) }
{
    push_mark(out, b"names")?;
    for name in names {
        push_word(out, *name as u64 + 1)?;
    }
    out.push(b'\n')?;
    Ok(())
}

// Adds the sizes of a part: the number of variables, of clauses of the formula and of clauses of the log.
fn push_sizes(out: &mut Vec<u8>, part: &Proof) -> Result<(), AllocError>
    ensures { OnOk result (out.new.items ≡ out.old.items ++ flat_map (λ w. codes " " ++ w) (map decimal (part.now.formula.clauses.vars ∷ length part.now.formula.clauses.clauses ∷ length part.now.log ∷ []))) }
{
    push_word(out, part.formula.clauses.vars() as u64)?;
    push_word(out, part.formula.clauses.len() as u64)?;
    push_word(out, part.log.len() as u64)?;
    Ok(())
}

// Adds the first line of a part, with these numbers before its sizes.
#[tactic(auto, using(crate::proofs::Written::headers))]
fn push_header(
    out: &mut Vec<u8>,
    kind: &[u8],
    before: &[u64],
    part: &Proof,
) -> Result<(), AllocError>
    ensures { OnOk result (out.new.items ≡ out.old.items ++ number_line kind.now (before.now ++ part.now.formula.clauses.vars ∷ length part.now.formula.clauses.clauses ∷ length part.now.log ∷ [])) }
{
    push_mark(out, kind)?;
    push_words(out, before)?;
    push_sizes(out, part)?;
    out.push(b'\n')?;
    Ok(())
}

// Adds the lines of a part, with these numbers before its sizes.
fn push_part(out: &mut Vec<u8>, kind: &[u8], before: &[u64], part: &Proof) -> Result<(), AllocError>
    requires { HasItsVariables part.now }
    ensures { OnOk result (out.new.items ≡ out.old.items ++ part_lines kind.now before.now part.now) }
{
    let vars = part.formula.clauses.vars();
    push_header(out, kind, before, part)?;
    push_names(out, part.formula.names.as_slice(), vars)?;
    push_clauses(out, b"c", part.formula.clauses.list(), vars)?;
    push_clauses(out, b"l", &part.log, vars)?;
    Ok(())
}

// Adds the lines of the upper part with this number.
fn push_upper(out: &mut Vec<u8>, version: u32, number: u64, part: &Proof) -> Result<(), AllocError>
    requires { HasItsVariables part.now }
    ensures { OnOk result (out.new.items ≡ out.old.items ++ part_lines (codes "upper") (part_number version number) part.now) }
{
    if version == 1 {
        push_part(out, b"upper", &[], part)?;
        return Ok(());
    }
    push_part(out, b"upper", &[number], part)?;
    Ok(())
}

// Adds the lines of the upper parts.
fn push_uppers(out: &mut Vec<u8>, version: u32, parts: &[Proof]) -> Result<(), AllocError>
    requires { All HasItsVariables parts.now }
    ensures { OnOk result (out.new.items ≡ out.old.items ++ upper_from version 0 parts.now) }
{
    for i in 0..parts.len() {
        push_upper(out, version, i as u64, &parts[i])?;
    }
    Ok(())
}

// Adds the lines of the lower part, if there is one.
fn push_lower(out: &mut Vec<u8>, part: Option<&Proof>) -> Result<(), AllocError>
    requires { IfSome (option_copied part) HasItsVariables }
    ensures { OnOk result (out.new.items ≡ out.old.items ++ lower_lines (option_copied part.entry)) }
{
    match part {
        None => Ok(()),
        Some(part) => {
            push_part(out, b"lower", &[], part)?;
            Ok(())
        }
    }
}

// Adds the lines of the version and of the inputs.
fn push_claim(out: &mut Vec<u8>, certificate: &Certificate) -> Result<(), AllocError>
    ensures { OnOk result (out.new.items ≡ out.old.items ++ (number_line (codes "certificate") (certificate.now.version ∷ []) ++ input_lines certificate.now.inputs)) }
{
    push_number_line(out, b"certificate", &[certificate.version as u64])?;
    push_inputs(out, certificate.inputs.as_slice())?;
    Ok(())
}

// Adds the lines of the parts.
fn push_parts(out: &mut Vec<u8>, certificate: &Certificate) -> Result<(), AllocError>
    requires { HasForm certificate.now }
    ensures { OnOk result (out.new.items ≡ out.old.items ++ (upper_from certificate.now.version 0 certificate.now.upper ++ lower_lines certificate.now.lower)) }
{
    push_uppers(out, certificate.version, certificate.upper.as_slice())?;
    push_lower(out, certificate.lower.as_ref())?;
    Ok(())
}

// Adds the lines behind the result.
fn push_proofs(out: &mut Vec<u8>, certificate: &Certificate) -> Result<(), AllocError>
    requires { HasForm certificate.now }
    ensures { OnOk result (out.new.items ≡ out.old.items ++ certificate_lines certificate.now) }
{
    push_claim(out, certificate)?;
    push_parts(out, certificate)?;
    push_number_line(out, b"end", &[])?;
    Ok(())
}

/// The text of a certificate: its program, the lines of the result, and what shows that the result is right.
pub fn write(alloc: Global, certificate: &Certificate) -> Result<Name, AllocError>
    requires { HasForm certificate.now }
    ensures { IfOk result (λ text. text ≡ certificate_text certificate.now) }
{
    let mut out = Vec::new(alloc);
    out.extend_from_slice(certificate.text.as_bytes())?;
    push_result(&mut out, certificate.choice.as_ref(), certificate.value)?;
    push_proofs(&mut out, certificate)?;
    Ok(Name::from_vec(out))
}
