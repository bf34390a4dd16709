//! Texts that break a rule of names and types.
ghost use Rattle.std.specs.Prelude.{◌≡◌};

use crate::declared::push_declarations;
use crate::lines::{line_of, lowers, set_of};
use crate::operands::push_operands;
use crate::pieces::{bytes_of, is_mark, is_word, some_tokens};
use sk_base::Span;
use sk_explain_forms::push_left_out_string;
use sk_explain_names::{
    push_not_constant, push_not_length, tell_nowhere, tell_twice_at, tell_type_at,
};
use sk_explain_notes::{Told, near_by};
use sk_explain_types::tell_finding;
use sk_tree::{Mark, Token};
use sk_types_laws::{Rule, TypeFault};
use std::alloc::{AllocError, Global};

// What is refused.
fn rule_title(rule: Rule) -> &'static [u8] {
    match rule {
        Rule::UnknownName => b"a name is not there",
        Rule::Twice => b"a name stands twice in one block, struct, new or at the top",
        Rule::Mismatch => b"a type cannot stand where it does",
        Rule::NotTarget => b"it cannot be assigned",
        Rule::BadSignature => b"a function cannot have this signature, or a harness is called",
        Rule::NotConstant => b"it is no constant expression",
        Rule::LiteralRange => b"the number is above the greatest int",
        Rule::LengthRange => b"a length or a count is out of range",
        Rule::NoAlternative => b"the pattern keeps no string",
        Rule::ReorderForm => b"a reorder holds a declaration, or more than six statements",
        Rule::NameKept => b"a name ends with __ and digits",
        Rule::HoleWidth => b"the width of the hole is out of range",
    }
}

// What is accepted.
fn rule_note(rule: Rule) -> &'static [u8] {
    match rule {
        Rule::UnknownName => {
            b"a name is a variable in scope, a constant, a struct, a function, or a field of its struct"
        }
        Rule::Twice => b"an inner block may declare a name of an outer one again",
        Rule::Mismatch => {
            b"a bit stands for an int, an element or a shorter array for an array, and nothing else converts"
        }
        Rule::NotTarget => {
            b"a target is a variable, field or element; one for ref is a variable; a step has no call, hole or pattern"
        }
        Rule::BadSignature => {
            b"a harness has no ref and no reference; implements wants two like signatures without references, and no generator"
        }
        Rule::NotConstant => {
            b"it has numbers, names of earlier constants, parentheses, + - and *; a count may be a hole"
        }
        Rule::LiteralRange => b"--int-bits sets the width of int",
        Rule::LengthRange => {
            b"a length is 1 to 64, a product of two at most 256, a slice no longer than its array, a count 0 to 64"
        }
        Rule::NoAlternative => {
            b"it keeps the strings whose own type is wanted, and loose ones that can have it"
        }
        Rule::ReorderForm => b"declare before it, or in a block inside it",
        Rule::NameKept => b"copies of generators have such names, and the text has a generator",
        Rule::HoleWidth => b"it is from 1 to one less than --int-bits",
    }
}

// Whether a span has a call: a word with `(` behind it.
fn has_call(tokens: &[Token], span: Span) -> bool {
    let mut behind_word = false;
    for token in tokens {
        if span.from <= token.span.from && token.span.to <= span.to {
            if behind_word && is_mark(token, Mark::OpenParen) {
                return true;
            }
            behind_word = is_word(token);
        }
    }
    false
}

// Whether a span is one word, and no keyword.
fn is_lone_word(tokens: &[Token], span: Span) -> bool {
    for token in tokens {
        if token.span == span {
            return is_word(token);
        }
    }
    false
}

// The first of the other words of a text that are nearest to a word.
fn nearest_word<'a>(
    alloc: Global,
    text: &'a [u8],
    tokens: &[Token],
    word: &[u8],
) -> Result<Option<&'a [u8]>, AllocError> {
    let mut found = None;
    let mut least = usize::MAX;
    for token in tokens {
        if is_word(token) {
            let name = bytes_of(text, token.span);
            if let Some(count) = near_by(alloc, word, name)? {
                if count < least {
                    least = count;
                    found = Some(name);
                }
            }
        }
    }
    Ok(found)
}

// Tells of a name that is not there, at a span that is no word.
fn tell_unknown(
    alloc: Global,
    told: &mut Told,
    text: &[u8],
    tokens: &[Token],
    span: Span,
) -> Result<(), AllocError> {
    if tell_finding(alloc, told, text, tokens, span)? {
        return Ok(());
    }
    if tell_type_at(alloc, told, text, tokens, span)? {
        return Ok(());
    }
    told.title(&[rule_title(Rule::UnknownName)])
}

fn tell_unknown_name(
    alloc: Global,
    told: &mut Told,
    text: &[u8],
    tokens: &[Token],
    span: Span,
) -> Result<(), AllocError> {
    if !is_lone_word(tokens, span) {
        return tell_unknown(alloc, told, text, tokens, span);
    }
    let word = bytes_of(text, span);
    told.title(&[b"unknown name '", word, b"'"])?;
    push_not_length(alloc, told, text, tokens, span)?;
    match nearest_word(alloc, text, tokens, word)? {
        Some(near) => told.title(&[b"; is '", near, b"' meant?"]),
        None => Ok(()),
    }
}

// The greatest number of so many bits, one of them the sign.
fn greatest_int(bits: u32) -> u64 {
    let mut half = 1u64;
    for _bit in 1..bits {
        half = half.saturating_mul(2);
    }
    half.saturating_sub(1)
}

fn tell_number(alloc: Global, told: &mut Told, words: &[String]) -> Result<(), AllocError> {
    let line = line_of(alloc, words)?;
    told.title(&[rule_title(Rule::LiteralRange)])?;
    match set_of(&line) {
        Some(set) => {
            told.title(&[b", "])?;
            told.title.number(greatest_int(set.int_bits.unwrap_or(16)))
        }
        None => Ok(()),
    }
}

// Tells of a type that cannot stand where it does: what is wanted and found, or the other cause that there may be, and what is
// declared there.
fn tell_mismatch(
    alloc: Global,
    told: &mut Told,
    text: &[u8],
    tokens: &[Token],
    span: Span,
) -> Result<(), AllocError> {
    if !tell_finding(alloc, told, text, tokens, span)? {
        told.title(&[rule_title(Rule::Mismatch)])?;
        if has_call(tokens, span) {
            told.title(&[b", or a call has another number of arguments than its function"])?;
        }
        push_operands(told, text, tokens, span)?;
    }
    push_declarations(alloc, told, text, tokens, span)
}

// Tells where fields of variants have their names.
fn push_field(alloc: Global, told: &mut Told, words: &[String]) -> Result<(), AllocError> {
    let line = line_of(alloc, words)?;
    if lowers(&line) {
        told.note(&[b"a field of a variant has its name as x.f, in the block of a case of x"])?;
    }
    Ok(())
}

// Tells which rule a text breaks, and where, at a place that has no span.
fn tell_rule_nowhere(
    alloc: Global,
    told: &mut Told,
    text: &[u8],
    tokens: &[Token],
    rule: Rule,
) -> Result<(), AllocError> {
    if tell_nowhere(alloc, told, text, tokens, rule)? {
        return Ok(());
    }
    told.title(&[rule_title(rule)])?;
    told.note(&[b"what breaks the rule is a name at the top, a field, a parameter or a result"])
}

// Tells of a name that stands twice.
fn tell_twice(
    alloc: Global,
    told: &mut Told,
    text: &[u8],
    tokens: &[Token],
    span: Span,
) -> Result<(), AllocError> {
    if tell_twice_at(alloc, told, text, tokens, span)? {
        return Ok(());
    }
    told.title(&[rule_title(Rule::Twice)])
}

// Tells what else there is to say of a rule that a text breaks at a span.
fn push_more(
    alloc: Global,
    told: &mut Told,
    text: &[u8],
    tokens: &[Token],
    fault: &TypeFault,
) -> Result<(), AllocError>
    ensures { told.new.title ≡ told.old.title }
{
    match fault.rule {
        Rule::NotConstant => push_not_constant(alloc, told, text, tokens, fault.span),
        Rule::NoAlternative => push_left_out_string(told, text, tokens, fault.span.from),
        _ => Ok(()),
    }
}

// Tells which rule a text breaks at a span.
fn tell_rule_at(
    alloc: Global,
    told: &mut Told,
    words: &[String],
    text: &[u8],
    tokens: &[Token],
    fault: &TypeFault,
) -> Result<(), AllocError> {
    match fault.rule {
        Rule::UnknownName => tell_unknown_name(alloc, told, text, tokens, fault.span),
        Rule::LiteralRange => tell_number(alloc, told, words),
        Rule::Twice => tell_twice(alloc, told, text, tokens, fault.span),
        Rule::Mismatch => tell_mismatch(alloc, told, text, tokens, fault.span),
        rule => {
            told.title(&[rule_title(rule)])?;
            push_more(alloc, told, text, tokens, fault)
        }
    }
}

/// Tells which rule a text breaks. After a refusal title and notes are given up: nothing is told.
pub fn tell_type(
    alloc: Global,
    told: &mut Told,
    words: &[String],
    text: &[u8],
    fault: &TypeFault,
) -> Result<(), AllocError> {
    let tokens = some_tokens(alloc, text)?;
    if fault.span.to == 0 {
        tell_rule_nowhere(alloc, told, text, tokens.as_slice(), fault.rule)?;
    } else {
        tell_rule_at(alloc, told, words, text, tokens.as_slice(), fault)?;
    }
    told.note(&[rule_note(fault.rule)])?;
    if fault.rule == Rule::UnknownName {
        push_field(alloc, told, words)?;
    }
    Ok(())
}
