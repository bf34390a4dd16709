//! What takes the place of `adt` and `switch`.
ghost use Rattle.std.specs.Prelude.{◌≡◌, ◌++◌, map, IfOk, OnOk, option_map, option_and_then, if◌then◌else◌};
ghost use Rattle.std.specs.Str.{bytes_eq};
ghost use Rattle.sk_types_rules.specs.Scope.{place_of};
ghost use Rattle.sk_adt.specs.declared.form.CaseForm.{out-CaseForm};
ghost use Rattle.sk_adt.specs.Words.{variant_named};
ghost use Rattle.sk_adt.specs.Branches.{field_tokens, member_tokens, behind_tokens, test_tokens, tag_field, fields_from, variants_from, struct_of, innermost, made_field, or_name, member_name, all_at, number_of_variant, condition, refusal, last_close, block_of, otherwise, branch, chain, switch_tokens, branched_case, branched_piece, branched};
ghost use Rattle.sk_adt.specs.Chains.{heads, closers};

use crate::form::{
    CaseForm, FieldForm, Inside, Known, Piece, Spots, SwitchHead, TypeForm, VariantForm, Word,
};
use crate::push::{
    made_name, push_copies, push_copy, push_count, push_keyword, push_name, push_sign, push_tag,
    push_token, same,
};
use crate::words::variant_named;
use sk_base::{Name, Span};
use sk_parser_exprs::token::copy;
use sk_tree::{Key, Mark, Token};
use sk_types_names::Listed;
use std::alloc::{AllocError, Global};

// Appends the field of the tag.
fn push_tag_field(alloc: Global, out: &mut Vec<Token>, span: Span) -> Result<(), AllocError>
    ensures { OnOk result (out.new.items ≡ out.old.items ++ tag_field span) }
{
    push_keyword(out, Key::Int, span)?;
    push_tag(alloc, out, span)?;
    push_sign(out, Mark::Semicolon, span)?;
    Ok(())
}

// Appends a field under its made name.
fn push_field(
    alloc: Global,
    out: &mut Vec<Token>,
    variant: usize,
    number: usize,
    field: &FieldForm,
) -> Result<(), AllocError>
    ensures { OnOk result (out.new.items ≡ out.old.items ++ field_tokens variant number field.now) }
{
    let word = made_name(alloc, variant, number)?;
    push_copies(alloc, out, field.ty.as_slice())?;
    push_name(out, word, field.word.span)?;
    push_sign(out, Mark::Semicolon, field.end)?;
    Ok(())
}

// Appends the fields of a variant.
#[tactic(auto, unfolding(crate::specs::Branches::fields_from))]
fn push_fields(
    alloc: Global,
    out: &mut Vec<Token>,
    variant: usize,
    fields: &[FieldForm],
) -> Result<(), AllocError>
    ensures { OnOk result (out.new.items ≡ out.old.items ++ fields_from variant 0 fields.now) }
{
    for (j, field) in fields.iter().enumerate() {
        push_field(alloc, out, variant, j, field)?;
    }
    Ok(())
}

// Appends the fields of all variants.
#[tactic(auto, unfolding(crate::specs::Branches::variants_from))]
fn push_variants(
    alloc: Global,
    out: &mut Vec<Token>,
    variants: &[VariantForm],
) -> Result<(), AllocError>
    ensures { OnOk result (out.new.items ≡ out.old.items ++ variants_from 0 variants.now) }
{
    for (i, variant) in variants.iter().enumerate() {
        push_fields(alloc, out, i, variant.fields.as_slice())?;
    }
    Ok(())
}

// Appends the struct that takes the place of a type.
fn push_struct(alloc: Global, out: &mut Vec<Token>, form: &TypeForm) -> Result<(), AllocError>
    ensures { OnOk result (out.new.items ≡ out.old.items ++ struct_of form.now) }
{
    push_keyword(out, Key::Struct, form.at)?;
    push_copy(alloc, out, &form.word.name, form.word.span)?;
    push_sign(out, Mark::OpenBrace, form.open)?;
    push_tag_field(alloc, out, form.open)?;
    push_variants(alloc, out, form.variants.as_slice())?;
    push_sign(out, Mark::CloseBrace, form.close)?;
    Ok(())
}

// The variant of the innermost case of x.
#[tactic(auto, unfolding(crate::specs::Branches::innermost))]
fn innermost<'a>(inside: &'a [Inside], x: &Name) -> Option<&'a Name>
    ensures { option_map (λ v. v.now) result ≡ innermost None inside.now x.now }
{
    let mut found = None;
    for case in inside {
        found = either(&case.on, x, &case.variant, found);
    }
    found
}

// The variant, where the names are the same, or else what was found before.
fn either<'a>(on: &Name, x: &Name, variant: &'a Name, found: Option<&'a Name>) -> Option<&'a Name>
    ensures { option_map (λ v. v.now) result ≡ (if bytes_eq on.now x.now then Some variant.now else option_map (λ v. v.now) found.entry) }
{
    if same(on, x) { Some(variant) } else { found }
}

// The place of a name.
#[tactic(auto, using(sk_types_names::proofs::Places::past_next, crate::proofs::Places::past_none))]
fn place_of(names: &[Name], x: &Name) -> Option<usize>
    ensures { result ≡ place_of names.now x.now }
{
    for (i, name) in names.iter().enumerate() {
        if same(name, x) {
            return Some(i);
        }
    }
    None
}

/// The made name of a field of a variant, or the field's own where the variant has none of this name.
pub(crate) fn field_name(
    alloc: Global,
    variant: Option<&Known>,
    f: &Name,
) -> Result<Name, AllocError>
    ensures { IfOk result (λ x. x ≡ or_name f.now (option_and_then (λ k. made_field k f.now) (option_map (λ k. k.now) variant.entry))) }
{
    let Some(known) = variant else {
        let name = copy(alloc, f)?;
        return Ok(name);
    };
    match place_of(known.fields.as_slice(), f) {
        Some(place) => {
            let name = made_name(alloc, known.number, place)?;
            Ok(name)
        }
        None => {
            let name = copy(alloc, f)?;
            Ok(name)
        }
    }
}

/// The variant of a name, where there is one.
pub(crate) fn variant_where<'a>(known: &'a Listed<Known>, name: Option<&Name>) -> Option<&'a Known>
    ensures { option_map (λ k. k.now) result ≡ option_and_then (variant_named known.now) (option_map (λ x. x.now) name.entry) }
{
    match name {
        None => None,
        Some(name) => variant_named(known, name),
    }
}

// Appends `x.f`, where f is the made name in a case of x.
#[tactic(auto, unfolding(crate::specs::Branches::member_name))]
fn push_member(
    alloc: Global,
    known: &Listed<Known>,
    inside: &[Inside],
    out: &mut Vec<Token>,
    on: &Word,
    dot: Span,
    field: &Word,
) -> Result<(), AllocError>
    ensures { OnOk result (out.new.items ≡ out.old.items ++ member_tokens known.now inside.now on.now dot field.now) }
{
    let name = field_name(
        alloc,
        variant_where(known, innermost(inside, &on.name)),
        &field.name,
    )?;
    push_copy(alloc, out, &on.name, on.span)?;
    push_sign(out, Mark::Dot, dot)?;
    push_name(out, name, field.span)?;
    Ok(())
}

// Appends `.f`.
fn push_behind(
    alloc: Global,
    out: &mut Vec<Token>,
    dot: Span,
    field: &Word,
) -> Result<(), AllocError>
    ensures { OnOk result (out.new.items ≡ out.old.items ++ behind_tokens dot field.now) }
{
    push_sign(out, Mark::Dot, dot)?;
    push_copy(alloc, out, &field.name, field.span)?;
    Ok(())
}

/// The number of a variant, or 0 where there is none.
pub(crate) fn number_of(variant: Option<&Known>) -> usize
    ensures { result ≡ number_of_variant (option_map (λ k. k.now) variant.entry) }
{
    match variant {
        None => 0,
        Some(known) => known.number,
    }
}

// Appends `x.tag == i`.
fn push_test(
    alloc: Global,
    out: &mut Vec<Token>,
    span: Span,
    x: &Name,
    number: usize,
) -> Result<(), AllocError>
    ensures { OnOk result (out.new.items ≡ out.old.items ++ test_tokens span x.now number) }
{
    push_copy(alloc, out, x, span)?;
    push_sign(out, Mark::Dot, span)?;
    push_tag(alloc, out, span)?;
    push_sign(out, Mark::Equal, span)?;
    push_count(out, number, span)?;
    Ok(())
}

// Appends `if (x.tag == i)`.
fn push_condition(
    alloc: Global,
    out: &mut Vec<Token>,
    spots: Spots,
    x: &Name,
    number: usize,
) -> Result<(), AllocError>
    ensures { OnOk result (out.new.items ≡ out.old.items ++ condition spots x.now number) }
{
    push_keyword(out, Key::If, spots.at)?;
    push_sign(out, Mark::OpenParen, spots.opening)?;
    push_test(alloc, out, spots.on, x, number)?;
    push_sign(out, Mark::CloseParen, spots.closing)?;
    Ok(())
}

// Appends `else` and the brace behind it.
fn push_otherwise(out: &mut Vec<Token>, span: Span) -> Result<(), AllocError>
    ensures { OnOk result (out.new.items ≡ out.old.items ++ otherwise span) }
{
    push_keyword(out, Key::Else, span)?;
    push_sign(out, Mark::OpenBrace, span)?;
    Ok(())
}

// Appends `assert false;`.
fn push_refusal(out: &mut Vec<Token>, span: Span) -> Result<(), AllocError>
    ensures { OnOk result (out.new.items ≡ out.old.items ++ refusal span) }
{
    push_keyword(out, Key::Assert, span)?;
    push_keyword(out, Key::False, span)?;
    push_sign(out, Mark::Semicolon, span)?;
    Ok(())
}

// Appends so many closing braces.
#[tactic(auto, unfolding(crate::specs::Chains::closers), using(crate::proofs::Chaining::closers_more))]
fn push_closers(out: &mut Vec<Token>, span: Span, count: usize) -> Result<(), AllocError>
    ensures { OnOk result (out.new.items ≡ out.old.items ++ closers span count) }
{
    let mut left = count;
    while left > 0 {
        push_sign(out, Mark::CloseBrace, span)?;
        left -= 1;
    }
    Ok(())
}

// Where the last case closes.
#[tactic(auto, unfolding(crate::specs::Branches::last_close))]
fn last_close(span: Span, cases: &[CaseForm]) -> Span
    ensures { result ≡ last_close span (map (λ c. (out-CaseForm c).head) cases.now) }
{
    let mut last = span;
    for case in cases {
        last = case.head.close;
    }
    last
}

// One place for all tokens.
fn all_at(span: Span) -> Spots
    ensures { result ≡ all_at span }
{
    Spots {
        at: span,
        opening: span,
        on: span,
        closing: span,
    }
}

// Appends the end of a switch: `assert false;`, and a brace for each case.
fn push_end(out: &mut Vec<Token>, span: Span, count: usize) -> Result<(), AllocError>
    ensures { OnOk result (out.new.items ≡ out.old.items ++ (refusal span ++ closers span count)) }
{
    push_refusal(out, span)?;
    push_closers(out, span, count)?;
    Ok(())
}

/// Appends what takes the place of pieces, in the blocks of these cases. Want of memory is the only error.
#[cycle(branches)]
pub(crate) fn push_pieces(
    alloc: Global,
    known: &Listed<Known>,
    inside: &mut Vec<Inside>,
    out: &mut Vec<Token>,
    pieces: &[Piece],
) -> Result<(), AllocError>
    ensures tokens { OnOk result (out.new.items ≡ out.old.items ++ branched known.now inside.old.items pieces.now) }
    ensures same { OnOk result (inside.new.items ≡ inside.old.items) }
{
    for piece in pieces {
        push_piece(alloc, known, inside, out, piece)?;
    }
    Ok(())
}

// Appends what takes the place of a piece.
#[cycle(branches)]
fn push_piece(
    alloc: Global,
    known: &Listed<Known>,
    inside: &mut Vec<Inside>,
    out: &mut Vec<Token>,
    piece: &Piece,
) -> Result<(), AllocError>
    ensures tokens { OnOk result (out.new.items ≡ out.old.items ++ branched_piece known.now piece.now inside.old.items) }
    ensures same { OnOk result (inside.new.items ≡ inside.old.items) }
{
    match piece {
        Piece::Type(form) => push_struct(alloc, out, form),
        Piece::Switch { head, cases } => push_switch(
            alloc,
            known,
            inside,
            out,
            head,
            cases.as_slice(),
        ),
        Piece::Member { on, dot, field } => push_member(
            alloc,
            known,
            inside.as_slice(),
            out,
            on,
            *dot,
            field,
        ),
        Piece::Behind { dot, field } => push_behind(alloc, out, *dot, field),
        Piece::Plain(token) => push_token(alloc, out, token),
    }
}

// Appends what takes the place of a switch.
#[cycle(branches)]
fn push_switch(
    alloc: Global,
    known: &Listed<Known>,
    inside: &mut Vec<Inside>,
    out: &mut Vec<Token>,
    head: &SwitchHead,
    cases: &[CaseForm],
) -> Result<(), AllocError>
    ensures tokens { OnOk result (out.new.items ≡ out.old.items ++ switch_tokens known.now head.now (map (branched_case known.now) cases.now) inside.old.items) }
    ensures same { OnOk result (inside.new.items ≡ inside.old.items) }
{
    let spots = Spots {
        at: head.at,
        opening: head.open,
        on: head.on.span,
        closing: head.close,
    };
    push_branches(alloc, known, inside, out, &head.on.name, spots, cases)?;
    push_end(out, last_close(head.close, cases), cases.len())?;
    Ok(())
}

// Appends each case up to its further block.
#[cycle(branches)]
#[tactic(auto, unfolding(crate::specs::Chains::heads))]
fn push_branches(
    alloc: Global,
    known: &Listed<Known>,
    inside: &mut Vec<Inside>,
    out: &mut Vec<Token>,
    x: &Name,
    spots: Spots,
    cases: &[CaseForm],
) -> Result<(), AllocError>
    ensures tokens { OnOk result (out.new.items ≡ out.old.items ++ heads known.now inside.old.items x.now spots (map (branched_case known.now) cases.now)) }
    ensures same { OnOk result (inside.new.items ≡ inside.old.items) }
{
    let mut spots = spots;
    for case in cases {
        push_branch(alloc, known, inside, out, x, spots, case)?;
        spots = all_at(case.head.close);
    }
    Ok(())
}

// Appends a case up to its further block.
#[cycle(branches)]
fn push_branch(
    alloc: Global,
    known: &Listed<Known>,
    inside: &mut Vec<Inside>,
    out: &mut Vec<Token>,
    x: &Name,
    spots: Spots,
    case: &CaseForm,
) -> Result<(), AllocError>
    ensures tokens { OnOk result (out.new.items ≡ out.old.items ++ branch known.now inside.old.items x.now spots (branched_case known.now case.now)) }
    ensures same { OnOk result (inside.new.items ≡ inside.old.items) }
{
    let number = number_of(variant_named(known, &case.head.word.name));
    push_condition(alloc, out, spots, x, number)?;
    push_block(alloc, known, inside, out, x, case)?;
    push_otherwise(out, case.head.close)?;
    Ok(())
}

// Appends the block of a case.
#[cycle(branches)]
fn push_block(
    alloc: Global,
    known: &Listed<Known>,
    inside: &mut Vec<Inside>,
    out: &mut Vec<Token>,
    x: &Name,
    case: &CaseForm,
) -> Result<(), AllocError>
    ensures tokens { OnOk result (out.new.items ≡ out.old.items ++ block_of (branched_case known.now case.now) inside.old.items x.now) }
    ensures same { OnOk result (inside.new.items ≡ inside.old.items) }
{
    let depth = inside.len();
    let on = copy(alloc, x)?;
    let variant = copy(alloc, &case.head.word.name)?;
    inside.push(Inside { on, variant })?;
    push_sign(out, Mark::OpenBrace, case.head.open)?;
    push_pieces(alloc, known, inside, out, case.body.as_slice())?;
    push_sign(out, Mark::CloseBrace, case.head.close)?;
    inside.truncate(depth);
    Ok(())
}
