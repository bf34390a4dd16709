//! What takes the place of `new V ( .. )`.
ghost use Rattle.std.specs.Prelude.{◌≡◌, ◌++◌, [], IfOk, OnOk, option_map};
ghost use Rattle.sk_adt.specs.Builds.{innermost_list, behind_new, set_name, new_name, gap, tag_set, opening, word_built, token_built, variant_before, next_before, list_behind, next_lists, built};

use crate::branch::{field_name, number_of, variant_where};
use crate::form::{Before, Known};
use crate::push::{push_count, push_name, push_sign, push_tag, push_token};
use crate::words::variant_named;
use sk_base::{Name, Span};
use sk_parser_exprs::token::{begins, copy};
use sk_tree::{Key, Kind, Mark, Token};
use sk_types_names::Listed;
use std::alloc::{AllocError, Global};

// The variant that the innermost list builds.
#[tactic(auto, unfolding(crate::specs::Builds::innermost_list))]
fn innermost_list(lists: &[Option<Name>]) -> Option<&Name>
    ensures { option_map (λ x. x.now) result ≡ innermost_list lists.now }
{
    match lists.last() {
        Some(Some(name)) => Some(name),
        Some(None) | None => None,
    }
}

// The variant that a word names, between `new` and `(`.
#[tactic(auto, unfolding(crate::specs::Builds::behind_new))]
fn behind_new<'a>(
    known: &'a Listed<Known>,
    before: &Before,
    x: &Name,
    after: &[Token],
) -> Option<&'a Known>
    ensures { option_map (λ k. k.now) result ≡ behind_new known.now before.now x.now after.now }
{
    match before {
        Before::New => {
            if begins(after, Mark::OpenParen) {
                variant_named(known, x)
            } else {
                None
            }
        }
        Before::Other | Before::Variant(_) => None,
    }
}

// The field that a word names, before `=` in the list of a `new V (`.
#[tactic(auto, unfolding(crate::specs::Builds::set_name))]
fn set_name(
    alloc: Global,
    known: &Listed<Known>,
    lists: &[Option<Name>],
    x: &Name,
    after: &[Token],
) -> Result<Name, AllocError>
    ensures { IfOk result (λ name. name ≡ set_name known.now lists.now x.now after.now) }
{
    if begins(after, Mark::Assign) {
        field_name(alloc, variant_where(known, innermost_list(lists)), x)
    } else {
        copy(alloc, x)
    }
}

// What a word becomes.
fn new_name(
    alloc: Global,
    known: &Listed<Known>,
    lists: &[Option<Name>],
    x: &Name,
    after: &[Token],
    built: Option<&Known>,
) -> Result<Name, AllocError>
    ensures { IfOk result (λ name. name ≡ new_name known.now lists.now x.now after.now (option_map (λ k. k.now) built.entry)) }
{
    match built {
        None => set_name(alloc, known, lists, x, after),
        Some(variant) => copy(alloc, &variant.ty),
    }
}

// Appends the comma behind a tag, where a field follows.
fn push_gap(out: &mut Vec<Token>, after: &[Token], span: Span) -> Result<(), AllocError>
    ensures { OnOk result (out.new.items ≡ out.old.items ++ gap after.now span) }
{
    if begins(after, Mark::CloseParen) {
        Ok(())
    } else {
        push_sign(out, Mark::Comma, span)
    }
}

// Appends the field that sets a tag.
fn push_tag_set(
    alloc: Global,
    out: &mut Vec<Token>,
    number: usize,
    span: Span,
) -> Result<(), AllocError>
    ensures { OnOk result (out.new.items ≡ out.old.items ++ tag_set number span) }
{
    push_tag(alloc, out, span)?;
    push_sign(out, Mark::Assign, span)?;
    push_count(out, number, span)?;
    Ok(())
}

// Appends what takes the place of `(`.
fn push_opening(
    alloc: Global,
    known: &Listed<Known>,
    out: &mut Vec<Token>,
    before: &Before,
    span: Span,
    after: &[Token],
) -> Result<(), AllocError>
    ensures { OnOk result (out.new.items ≡ out.old.items ++ opening known.now before.now span after.now) }
{
    push_sign(out, Mark::OpenParen, span)?;
    match before {
        Before::Variant(name) => {
            push_tag_set(alloc, out, number_of(variant_named(known, name)), span)?;
            push_gap(out, after, span)?;
            Ok(())
        }
        Before::Other | Before::New => Ok(()),
    }
}

// Appends what takes the place of a word.
fn push_word(
    alloc: Global,
    known: &Listed<Known>,
    lists: &[Option<Name>],
    out: &mut Vec<Token>,
    before: &Before,
    x: &Name,
    span: Span,
    after: &[Token],
) -> Result<(), AllocError>
    ensures { OnOk result (out.new.items ≡ out.old.items ++ word_built known.now before.now lists.now x.now span after.now) }
{
    let name = new_name(
        alloc,
        known,
        lists,
        x,
        after,
        behind_new(known, before, x, after),
    )?;
    push_name(out, name, span)?;
    Ok(())
}

// Appends what a token becomes.
#[tactic(auto, unfolding(crate::specs::Builds::token_built))]
fn push_built(
    alloc: Global,
    known: &Listed<Known>,
    lists: &[Option<Name>],
    out: &mut Vec<Token>,
    before: &Before,
    token: &Token,
    after: &[Token],
) -> Result<(), AllocError>
    ensures { OnOk result (out.new.items ≡ out.old.items ++ token_built known.now before.now lists.now token.now after.now) }
{
    match &token.kind {
        Kind::Word(x) => push_word(alloc, known, lists, out, before, x, token.span, after),
        Kind::Mark(Mark::OpenParen) => push_opening(alloc, known, out, before, token.span, after),
        _ => push_token(alloc, out, token),
    }
}

// What stands behind a word.
fn variant_before(alloc: Global, x: &Name, variant: Option<&Known>) -> Result<Before, AllocError>
    ensures { IfOk result (λ before. before ≡ variant_before x.now (option_map (λ k. k.now) variant.entry)) }
{
    match variant {
        None => Ok(Before::Other),
        Some(_) => {
            let name = copy(alloc, x)?;
            Ok(Before::Variant(name))
        }
    }
}

// What stands before the next token.
#[tactic(auto, unfolding(crate::specs::Builds::next_before))]
fn next_before(
    alloc: Global,
    known: &Listed<Known>,
    before: &Before,
    token: &Token,
    after: &[Token],
) -> Result<Before, AllocError>
    ensures { IfOk result (λ next. next ≡ next_before known.now before.now token.now after.now) }
{
    match &token.kind {
        Kind::Key(Key::New) => Ok(Before::New),
        Kind::Word(x) => {
            let next = variant_before(alloc, x, behind_new(known, before, x, after))?;
            Ok(next)
        }
        _ => Ok(Before::Other),
    }
}

// The variant that a list builds.
fn list_behind(alloc: Global, before: &Before) -> Result<Option<Name>, AllocError>
    ensures { IfOk result (λ variant. variant ≡ list_behind before.now) }
{
    match before {
        Before::Variant(name) => {
            let name = copy(alloc, name)?;
            Ok(Some(name))
        }
        Before::Other | Before::New => Ok(None),
    }
}

// Opens and closes lists behind a token.
#[tactic(auto, unfolding(crate::specs::Builds::next_lists))]
fn turn_lists(
    alloc: Global,
    before: &Before,
    lists: &mut Vec<Option<Name>>,
    token: &Token,
) -> Result<(), AllocError>
    ensures { OnOk result (lists.new.items ≡ next_lists before.now lists.old.items token.now) }
{
    match &token.kind {
        Kind::Mark(Mark::OpenParen) => {
            let variant = list_behind(alloc, before)?;
            lists.push(variant)?;
            Ok(())
        }
        Kind::Mark(Mark::OpenBrace | Mark::OpenBracket | Mark::OpenPattern) => {
            lists.push(None)?;
            Ok(())
        }
        Kind::Mark(Mark::CloseParen | Mark::CloseBrace | Mark::CloseBracket | Mark::ClosePattern) =>
            {
                lists.pop();
                Ok(())
            }
        _ => Ok(()),
    }
}

/// Tokens in which each `new V ( .. )` with a variant V makes the struct of its type. Want of memory is the only error.
#[tactic(auto, unfolding(crate::specs::Builds::built_from))]
pub(crate) fn built(
    alloc: Global,
    known: &Listed<Known>,
    tokens: &[Token],
) -> Result<Vec<Token>, AllocError>
    ensures { IfOk result (λ out. out.items ≡ built known.now tokens.now) }
{
    let mut out = Vec::new(alloc);
    let mut before = Before::Other;
    let mut lists = Vec::new(alloc);
    let mut rest = tokens;
    while let Some((token, after)) = rest.split_first() {
        push_built(
            alloc,
            known,
            lists.as_slice(),
            &mut out,
            &before,
            token,
            after,
        )?;
        turn_lists(alloc, &before, &mut lists, token)?;
        before = next_before(alloc, known, &before, token, after)?;
        rest = after;
    }
    Ok(out)
}
