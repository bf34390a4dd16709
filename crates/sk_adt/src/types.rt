//! The item `adt` read from tokens.
ghost use Rattle.std.specs.Prelude.{◌≡◌, [], option_map};
ghost use Rattle.sk_parser_laws.specs.Readers.{Gives, repeated};
ghost use Rattle.sk_adt.specs.Forms.{is_base, is_length, behind_one, behind_length, behind_any_length, behind_type, field_at, next_field, variant_at, next_variant, variants_at, type_at, at_close};

use crate::form::{FieldForm, TypeForm, VariantForm};
use crate::token::{at_close, copies_before, keyword_at, name_at, sign_at};
use sk_base::List;
use sk_parser_exprs::token::{begins, mark_at};
use sk_parser_laws::Stop;
use sk_tree::{Key, Kind, Mark, Token};
use std::alloc::Global;

// What is left behind the base of a type.
#[tactic(auto, unfolding(crate::specs::Forms::behind_one))]
fn behind_base(tokens: &[Token]) -> Option<&[Token]>
    ensures { option_map (λ x. x.now) result ≡ behind_one is_base tokens.now }
{
    match tokens.split_first() {
        Some((token, after)) => match &token.kind {
            Kind::Key(Key::Int | Key::Bit) | Kind::Word(_) => Some(after),
            _ => None,
        },
        None => None,
    }
}

// What is left behind a number or a word.
#[tactic(auto, unfolding(crate::specs::Forms::behind_one))]
fn behind_number(tokens: &[Token]) -> Option<&[Token]>
    ensures { option_map (λ x. x.now) result ≡ behind_one is_length tokens.now }
{
    match tokens.split_first() {
        Some((token, after)) => match &token.kind {
            Kind::Number(_) | Kind::Word(_) => Some(after),
            _ => None,
        },
        None => None,
    }
}

// What is left behind a length in brackets.
#[tactic(auto, unfolding(crate::specs::Forms::behind_length))]
fn behind_length(tokens: &[Token]) -> Option<&[Token]>
    ensures { option_map (λ x. x.now) result ≡ behind_length tokens.now }
{
    let inner = mark_at(tokens, Mark::OpenBracket)?;
    let after = behind_number(inner)?;
    mark_at(after, Mark::CloseBracket)
}

// What is left behind a length, where one stands.
#[tactic(auto, unfolding(crate::specs::Forms::behind_any_length))]
fn behind_any_length(tokens: &[Token]) -> Option<&[Token]>
    ensures { option_map (λ x. x.now) result ≡ behind_any_length tokens.now }
{
    if begins(tokens, Mark::OpenBracket) {
        behind_length(tokens)
    } else {
        Some(tokens)
    }
}

// What is left behind a type.
#[tactic(auto, unfolding(crate::specs::Forms::behind_type))]
fn behind_type(tokens: &[Token]) -> Option<&[Token]>
    ensures { option_map (λ x. x.now) result ≡ behind_type tokens.now }
{
    let base = behind_base(tokens)?;
    let first = behind_any_length(base)?;
    behind_any_length(first)
}

// A field.
#[tactic(auto, unfolding(crate::specs::Forms::field_at))]
fn field_at(alloc: Global, tokens: &[Token]) -> Result<(FieldForm, &[Token]), Stop>
    ensures { Gives (λ x. (x.0, x.1.now)) result (field_at tokens.now) }
{
    let Some(behind) = behind_type(tokens) else {
        return Err(Stop::NoReading(tokens.len()));
    };
    let (word, after) = name_at(alloc, behind)?;
    let Some((end, rest)) = sign_at(after, Mark::Semicolon) else {
        return Err(Stop::NoReading(after.len()));
    };
    let ty = copies_before(alloc, tokens, behind)?;
    Ok((FieldForm { ty, word, end }, rest))
}

// One field more.
#[tactic(auto, unfolding(crate::specs::Forms::next_field))]
fn next_field(
    alloc: Global,
    fields: List<FieldForm>,
    tokens: &[Token],
) -> Result<(List<FieldForm>, &[Token]), Stop>
    ensures { Gives (λ x. (x.0, x.1.now)) result (next_field fields tokens.now) }
{
    let mut fields = fields;
    let (field, rest) = field_at(alloc, tokens)?;
    fields.push(field)?;
    Ok((fields, rest))
}

// Fields up to a closing brace.
fn fields_at(alloc: Global, tokens: &[Token]) -> Result<(List<FieldForm>, &[Token]), Stop>
    ensures { Gives (λ x. (x.0, x.1.now)) result (repeated at_close next_field [] tokens.now) }
{
    let mut so_far = List::new(alloc);
    let mut rest = tokens;
    while !at_close(rest) {
        let (more, behind) = next_field(alloc, so_far, rest)?;
        so_far = more;
        rest = behind;
    }
    Ok((so_far, rest))
}

// A variant.
#[tactic(auto, unfolding(crate::specs::Forms::variant_at))]
fn variant_at(alloc: Global, tokens: &[Token]) -> Result<(VariantForm, &[Token]), Stop>
    ensures { Gives (λ x. (x.0, x.1.now)) result (variant_at tokens.now) }
{
    let (word, after) = name_at(alloc, tokens)?;
    let Some(inner) = mark_at(after, Mark::OpenBrace) else {
        return Err(Stop::NoReading(after.len()));
    };
    let (fields, behind) = fields_at(alloc, inner)?;
    let Some(rest) = mark_at(behind, Mark::CloseBrace) else {
        return Err(Stop::NoReading(behind.len()));
    };
    Ok((VariantForm { word, fields }, rest))
}

// One variant more.
#[tactic(auto, unfolding(crate::specs::Forms::next_variant))]
fn next_variant(
    alloc: Global,
    variants: List<VariantForm>,
    tokens: &[Token],
) -> Result<(List<VariantForm>, &[Token]), Stop>
    ensures { Gives (λ x. (x.0, x.1.now)) result (next_variant variants tokens.now) }
{
    let mut variants = variants;
    let (variant, rest) = variant_at(alloc, tokens)?;
    variants.push(variant)?;
    Ok((variants, rest))
}

// The other variants, up to a closing brace.
fn more_variants(
    alloc: Global,
    variants: List<VariantForm>,
    tokens: &[Token],
) -> Result<(List<VariantForm>, &[Token]), Stop>
    ensures { Gives (λ x. (x.0, x.1.now)) result (repeated at_close next_variant variants tokens.now) }
{
    let mut so_far = variants;
    let mut rest = tokens;
    while !at_close(rest) {
        let (more, behind) = next_variant(alloc, so_far, rest)?;
        so_far = more;
        rest = behind;
    }
    Ok((so_far, rest))
}

// One or more variants.
#[tactic(auto, unfolding(crate::specs::Forms::variants_at))]
fn variants_at(alloc: Global, tokens: &[Token]) -> Result<(List<VariantForm>, &[Token]), Stop>
    ensures { Gives (λ x. (x.0, x.1.now)) result (variants_at tokens.now) }
{
    let (first, rest) = next_variant(alloc, List::new(alloc), tokens)?;
    let read = more_variants(alloc, first, rest)?;
    Ok(read)
}

/// The item `adt` at the front, and the tokens after it.
#[tactic(auto, unfolding(crate::specs::Forms::type_at))]
pub(crate) fn type_at(alloc: Global, tokens: &[Token]) -> Result<(TypeForm, &[Token]), Stop>
    ensures { Gives (λ x. (x.0, x.1.now)) result (type_at tokens.now) }
{
    let Some((at, after)) = keyword_at(tokens, Key::Adt) else {
        return Err(Stop::NoReading(tokens.len()));
    };
    let (word, after) = name_at(alloc, after)?;
    let Some((open, after)) = sign_at(after, Mark::OpenBrace) else {
        return Err(Stop::NoReading(after.len()));
    };
    let (variants, after) = variants_at(alloc, after)?;
    let Some((close, rest)) = sign_at(after, Mark::CloseBrace) else {
        return Err(Stop::NoReading(after.len()));
    };
    Ok((
        TypeForm {
            at,
            word,
            open,
            variants,
            close,
        },
        rest,
    ))
}
