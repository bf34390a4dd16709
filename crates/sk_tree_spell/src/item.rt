//! The kinds that items and whole trees are spelt by.
ghost use Rattle.std.specs.Prelude.{◌≡◌, ◌++◌, map, IfOk, OnOk};
ghost use Rattle.sk_tree.specs.declared.token.Mark.TheVariants as mark;
ghost use Rattle.sk_tree.specs.declared.token.Key.TheVariants as key;
ghost use Rattle.sk_tree.specs.Spelt.{InBlock};
ghost use Rattle.sk_tree.specs.Spell.{sign, word, text, keyword, each, between, perhaps, spell_field, spell_ref, spell_param, spell_kind, spell_result, spell_stmt, spell_expr, spell_fun, spell_item, spell};
ghost use Rattle.sk_tree_spell.specs.Separated.{spell_implements};

use crate::expr::{push_enclosed, push_word_mark};
use crate::push::{push_gap, push_key, push_mark, push_text, push_word};
use crate::stmt::{push_row, push_ty};
use sk_base::{List, Name};
use sk_tree::{Expr, Field, FunItem, FunKind, Item, Key, Kind, Mark, Param, Tree, TyTree};
use std::alloc::{AllocError, Global};

/// Appends a field of a struct.
fn push_field(alloc: Global, out: &mut Vec<Kind>, field: &Field) -> Result<(), AllocError>
    ensures { OnOk result (out.new.items ≡ out.old.items ++ spell_field field.now) }
{
    push_ty(alloc, out, &field.ty)?;
    push_word_mark(alloc, out, &field.name, Mark::Semicolon)?;
    Ok(())
}

/// Appends the fields of a struct.
fn push_fields(alloc: Global, out: &mut Vec<Kind>, fields: &[Field]) -> Result<(), AllocError>
    ensures { OnOk result (out.new.items ≡ out.old.items ++ each (map spell_field fields.now)) }
{
    for field in fields {
        push_field(alloc, out, field)?;
    }
    Ok(())
}

/// Appends the mark of a parameter that is handed over by reference.
fn push_ref(out: &mut Vec<Kind>, by_ref: bool) -> Result<(), AllocError>
    ensures { OnOk result (out.new.items ≡ out.old.items ++ spell_ref by_ref) }
{
    if by_ref {
        push_key(out, Key::Ref)?;
        Ok(())
    } else {
        Ok(())
    }
}

/// Appends a parameter.
fn push_param(alloc: Global, out: &mut Vec<Kind>, param: &Param) -> Result<(), AllocError>
    ensures { OnOk result (out.new.items ≡ out.old.items ++ spell_param param.now) }
{
    push_ref(out, param.by_ref)?;
    push_ty(alloc, out, &param.ty)?;
    push_word(alloc, out, &param.name)?;
    Ok(())
}

/// Appends parameters, with a comma between two.
fn push_params(alloc: Global, out: &mut Vec<Kind>, params: &[Param]) -> Result<(), AllocError>
    ensures { OnOk result (out.new.items ≡ out.old.items ++ between (sign mark.Comma) (map spell_param params.now)) }
{
    let mut is_first = true;
    for param in params {
        push_gap(out, is_first, Mark::Comma)?;
        push_param(alloc, out, param)?;
        is_first = false;
    }
    Ok(())
}

/// Appends the mark of a harness or a generator.
fn push_fun_kind(out: &mut Vec<Kind>, kind: FunKind) -> Result<(), AllocError>
    ensures { OnOk result (out.new.items ≡ out.old.items ++ spell_kind kind) }
{
    match kind {
        FunKind::Plain => Ok(()),
        FunKind::Harness => {
            push_key(out, Key::Harness)?;
            Ok(())
        }
        FunKind::Generator => {
            push_key(out, Key::Generator)?;
            Ok(())
        }
    }
}

/// Appends the type of a result.
fn push_result(alloc: Global, out: &mut Vec<Kind>, ty: &Option<TyTree>) -> Result<(), AllocError>
    ensures { OnOk result (out.new.items ≡ out.old.items ++ spell_result ty.now) }
{
    match ty {
        None => {
            push_key(out, Key::Void)?;
            Ok(())
        }
        Some(ty) => {
            push_ty(alloc, out, ty)?;
            Ok(())
        }
    }
}

/// Appends the name of the function that is implemented, where there is one.
fn push_implements(
    alloc: Global,
    out: &mut Vec<Kind>,
    name: &Option<Name>,
) -> Result<(), AllocError>
    ensures { OnOk result (out.new.items ≡ out.old.items ++ perhaps spell_implements name.now) }
{
    match name {
        None => Ok(()),
        Some(g) => {
            push_key(out, Key::Implements)?;
            push_word(alloc, out, g)?;
            Ok(())
        }
    }
}

/// Appends parameters in their parentheses.
fn push_signature(alloc: Global, out: &mut Vec<Kind>, params: &[Param]) -> Result<(), AllocError>
    ensures { OnOk result (out.new.items ≡ out.old.items ++ sign mark.OpenParen ++ between (sign mark.Comma) (map spell_param params.now) ++ sign mark.CloseParen) }
{
    push_mark(out, Mark::OpenParen)?;
    push_params(alloc, out, params)?;
    push_mark(out, Mark::CloseParen)?;
    Ok(())
}

/// Appends what a function begins with, up to its name.
fn push_front(alloc: Global, out: &mut Vec<Kind>, f: &FunItem) -> Result<(), AllocError>
    ensures { OnOk result (out.new.items ≡ out.old.items ++ spell_kind f.now.kind ++ spell_result f.now.result ++ word f.now.name) }
{
    push_fun_kind(out, f.kind)?;
    push_result(alloc, out, &f.result)?;
    push_word(alloc, out, &f.name)?;
    Ok(())
}

/// Appends a body in its braces.
#[tactic(auto, using(crate::proofs::Bodies::each_stmt))]
fn push_body(alloc: Global, out: &mut Vec<Kind>, f: &FunItem) -> Result<(), AllocError>
    ensures { OnOk result (out.new.items ≡ out.old.items ++ sign mark.OpenBrace ++ each (map (λ s. spell_stmt s InBlock) f.now.body) ++ sign mark.CloseBrace) }
{
    push_mark(out, Mark::OpenBrace)?;
    push_row(alloc, out, f.body.as_slice())?;
    push_mark(out, Mark::CloseBrace)?;
    Ok(())
}

/// Appends a function.
fn push_fun(alloc: Global, out: &mut Vec<Kind>, f: &FunItem) -> Result<(), AllocError>
    ensures { OnOk result (out.new.items ≡ out.old.items ++ spell_fun f.now) }
{
    push_front(alloc, out, f)?;
    push_signature(alloc, out, f.params.as_slice())?;
    push_implements(alloc, out, &f.implements)?;
    push_body(alloc, out, f)?;
    Ok(())
}

/// Appends a pragma.
fn push_pragma(
    alloc: Global,
    out: &mut Vec<Kind>,
    name: &Name,
    bytes: &Name,
) -> Result<(), AllocError>
    ensures { OnOk result (out.new.items ≡ out.old.items ++ keyword key.Pragma ++ word name.now ++ text bytes.now ++ sign mark.Semicolon) }
{
    push_key(out, Key::Pragma)?;
    push_word(alloc, out, name)?;
    push_text(alloc, out, bytes)?;
    push_mark(out, Mark::Semicolon)?;
    Ok(())
}

/// Appends a struct.
fn push_struct(
    alloc: Global,
    out: &mut Vec<Kind>,
    name: &Name,
    fields: &[Field],
) -> Result<(), AllocError>
    ensures { OnOk result (out.new.items ≡ out.old.items ++ keyword key.Struct ++ word name.now ++ sign mark.OpenBrace ++ each (map spell_field fields.now) ++ sign mark.CloseBrace) }
{
    push_key(out, Key::Struct)?;
    push_word_mark(alloc, out, name, Mark::OpenBrace)?;
    push_fields(alloc, out, fields)?;
    push_mark(out, Mark::CloseBrace)?;
    Ok(())
}

/// Appends a constant.
fn push_const(
    alloc: Global,
    out: &mut Vec<Kind>,
    name: &Name,
    value: &Expr,
) -> Result<(), AllocError>
    ensures { OnOk result (out.new.items ≡ out.old.items ++ keyword key.Int ++ word name.now ++ sign mark.Assign ++ spell_expr value.now ++ sign mark.Semicolon) }
{
    push_key(out, Key::Int)?;
    push_word(alloc, out, name)?;
    push_enclosed(alloc, out, Mark::Assign, value, Mark::Semicolon)?;
    Ok(())
}

/// Appends an item.
fn push_item(alloc: Global, out: &mut Vec<Kind>, item: &Item) -> Result<(), AllocError>
    ensures { OnOk result (out.new.items ≡ out.old.items ++ spell_item item.now) }
{
    match item {
        Item::Pragma { word, text } => {
            push_pragma(alloc, out, word, text)?;
            Ok(())
        }
        Item::Struct { name, fields } => {
            push_struct(alloc, out, name, fields.as_slice())?;
            Ok(())
        }
        Item::Const { name, value } => {
            push_const(alloc, out, name, value)?;
            Ok(())
        }
        Item::Fun(f) => {
            push_fun(alloc, out, f)?;
            Ok(())
        }
    }
}

/// Appends items.
fn push_items(alloc: Global, out: &mut Vec<Kind>, items: &[Item]) -> Result<(), AllocError>
    ensures { OnOk result (out.new.items ≡ out.old.items ++ each (map spell_item items.now)) }
{
    for item in items {
        push_item(alloc, out, item)?;
    }
    Ok(())
}

/// The kinds of the tokens that spell a tree, in order; of a pattern those between `{|` and `|}`, and
/// not its strings. Want of memory is the only error.
pub fn spell(alloc: Global, tree: &Tree) -> Result<List<Kind>, AllocError>
    ensures { IfOk result (λ kinds. kinds ≡ spell tree.now) }
{
    let mut out = Vec::new(alloc);
    push_items(alloc, &mut out, tree.items.as_slice())?;
    Ok(List::from_vec(out))
}
