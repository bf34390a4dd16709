//! The kinds that an expression is spelt by.
ghost use Rattle.std.specs.Prelude.{◌≡◌, ◌++◌, map, Option, OnOk};
ghost use Rattle.sk_tree.specs.declared.token.Mark.TheVariants as mark;
ghost use Rattle.sk_tree.specs.declared.token.Key.TheVariants as key;
ghost use Rattle.sk_tree.specs.Spell.{sign, word, number, between, spell_pattern, spell_expr};
ghost use Rattle.sk_tree_spell.specs.Separated.{hole_kinds, spell_set};

use crate::pattern::push_pattern;
use crate::push::{push_gap, push_key, push_mark, push_number, push_word};
use sk_base::Name;
use sk_tree::{EForm, Expr, Key, Kind, Mark, NewField, Pattern};
use std::alloc::{AllocError, Global};

/// Appends a hole, with its width where it has one.
fn push_hole(out: &mut Vec<Kind>, width: Option<u32>) -> Result<(), AllocError>
    ensures { OnOk result (out.new.items ≡ out.old.items ++ hole_kinds width) }
{
    push_mark(out, Mark::Hole)?;
    match width {
        None => Ok(()),
        Some(n) => {
            push_mark(out, Mark::OpenParen)?;
            push_number(out, n)?;
            push_mark(out, Mark::CloseParen)?;
            Ok(())
        }
    }
}

/// Appends a pattern between its marks.
fn push_offer(alloc: Global, out: &mut Vec<Kind>, pattern: &Pattern) -> Result<(), AllocError>
    ensures { OnOk result (out.new.items ≡ out.old.items ++ sign mark.OpenPattern ++ spell_pattern pattern.now ++ sign mark.ClosePattern) }
{
    push_mark(out, Mark::OpenPattern)?;
    push_pattern(alloc, out, pattern)?;
    push_mark(out, Mark::ClosePattern)?;
    Ok(())
}

/// Appends a word, and a mark behind it.
pub fn push_word_mark(
    alloc: Global,
    out: &mut Vec<Kind>,
    x: &Name,
    mark: Mark,
) -> Result<(), AllocError>
    ensures { OnOk result (out.new.items ≡ out.old.items ++ word x.now ++ sign mark) }
{
    push_word(alloc, out, x)?;
    push_mark(out, mark)?;
    Ok(())
}

/// Appends the kinds of an expression.
#[cycle(expr_kinds)]
pub fn push_expr(alloc: Global, out: &mut Vec<Kind>, e: &Expr) -> Result<(), AllocError>
    ensures { OnOk result (out.new.items ≡ out.old.items ++ spell_expr e.now) }
{
    match &e.form {
        EForm::Number(n) => {
            push_number(out, *n)?;
            Ok(())
        }
        EForm::True => {
            push_key(out, Key::True)?;
            Ok(())
        }
        EForm::False => {
            push_key(out, Key::False)?;
            Ok(())
        }
        EForm::Null => {
            push_key(out, Key::Null)?;
            Ok(())
        }
        EForm::Word(x) => {
            push_word(alloc, out, x)?;
            Ok(())
        }
        EForm::Hole(width) => {
            push_hole(out, *width)?;
            Ok(())
        }
        EForm::Pattern { pattern, .. } => {
            push_offer(alloc, out, pattern)?;
            Ok(())
        }
        EForm::Paren(of) => {
            push_enclosed(alloc, out, Mark::OpenParen, of.get(), Mark::CloseParen)?;
            Ok(())
        }
        EForm::Call { name, args } => {
            push_word_mark(alloc, out, name, Mark::OpenParen)?;
            push_exprs(alloc, out, args.as_slice())?;
            push_mark(out, Mark::CloseParen)?;
            Ok(())
        }
        EForm::New { name, fields } => {
            push_key(out, Key::New)?;
            push_word_mark(alloc, out, name, Mark::OpenParen)?;
            push_sets(alloc, out, fields.as_slice())?;
            push_mark(out, Mark::CloseParen)?;
            Ok(())
        }
        EForm::Braces(elements) => {
            push_mark(out, Mark::OpenBrace)?;
            push_exprs(alloc, out, elements.as_slice())?;
            push_mark(out, Mark::CloseBrace)?;
            Ok(())
        }
        EForm::Member { base, name } => {
            push_expr(alloc, out, base.get())?;
            push_mark(out, Mark::Dot)?;
            push_word(alloc, out, name)?;
            Ok(())
        }
        EForm::Index { base, index } => {
            push_expr(alloc, out, base.get())?;
            push_enclosed(
                alloc,
                out,
                Mark::OpenBracket,
                index.get(),
                Mark::CloseBracket,
            )?;
            Ok(())
        }
        EForm::Slice { base, from, length } => {
            push_expr(alloc, out, base.get())?;
            push_enclosed(alloc, out, Mark::OpenBracket, from.get(), Mark::DoubleColon)?;
            push_expr(alloc, out, length.get())?;
            push_mark(out, Mark::CloseBracket)?;
            Ok(())
        }
        EForm::Unary { op, of } => {
            push_mark(out, *op)?;
            push_expr(alloc, out, of.get())?;
            Ok(())
        }
        EForm::Binary { op, left, right } => {
            push_expr(alloc, out, left.get())?;
            push_mark(out, *op)?;
            push_expr(alloc, out, right.get())?;
            Ok(())
        }
        EForm::Cond { cond, then, other } => {
            push_expr(alloc, out, cond.get())?;
            push_enclosed(alloc, out, Mark::Question, then.get(), Mark::Colon)?;
            push_expr(alloc, out, other.get())?;
            Ok(())
        }
    }
}

/// Appends an expression between two marks.
#[cycle(expr_kinds)]
pub fn push_enclosed(
    alloc: Global,
    out: &mut Vec<Kind>,
    before: Mark,
    e: &Expr,
    behind: Mark,
) -> Result<(), AllocError>
    ensures { OnOk result (out.new.items ≡ out.old.items ++ sign before ++ spell_expr e.now ++ sign behind) }
{
    push_mark(out, before)?;
    push_expr(alloc, out, e)?;
    push_mark(out, behind)?;
    Ok(())
}

/// Appends the kinds of expressions, with a comma between two.
#[cycle(expr_kinds)]
fn push_exprs(alloc: Global, out: &mut Vec<Kind>, es: &[Expr]) -> Result<(), AllocError>
    ensures { OnOk result (out.new.items ≡ out.old.items ++ between (sign mark.Comma) (map spell_expr es.now)) }
{
    let mut is_first = true;
    for e in es {
        push_gap(out, is_first, Mark::Comma)?;
        push_expr(alloc, out, e)?;
        is_first = false;
    }
    Ok(())
}

/// Appends a field that `new` sets.
#[cycle(expr_kinds)]
fn push_set(alloc: Global, out: &mut Vec<Kind>, field: &NewField) -> Result<(), AllocError>
    ensures { OnOk result (out.new.items ≡ out.old.items ++ spell_set field.now) }
{
    push_word_mark(alloc, out, &field.name, Mark::Assign)?;
    push_expr(alloc, out, &field.value)?;
    Ok(())
}

/// Appends the fields that `new` sets, with a comma between two.
#[cycle(expr_kinds)]
fn push_sets(alloc: Global, out: &mut Vec<Kind>, fields: &[NewField]) -> Result<(), AllocError>
    ensures { OnOk result (out.new.items ≡ out.old.items ++ between (sign mark.Comma) (map spell_set fields.now)) }
{
    let mut is_first = true;
    for field in fields {
        push_gap(out, is_first, Mark::Comma)?;
        push_set(alloc, out, field)?;
        is_first = false;
    }
    Ok(())
}
