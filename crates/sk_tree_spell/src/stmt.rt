//! The kinds that types and statements are spelt by.
ghost use Rattle.std.specs.Prelude.{◌≡◌, ◌++◌, map, option_map, OnOk};
ghost use Rattle.sk_tree.specs.declared.token.Mark.TheVariants as mark;
ghost use Rattle.sk_tree.specs.declared.token.Key.TheVariants as key;
ghost use Rattle.sk_tree.specs.Spelt.{InBlock, AsBody};
ghost use Rattle.sk_tree.specs.Spell.{sign, keyword, each, between, perhaps, ending, spell_base, spell_length, spell_ty, spell_expr, spell_declared, spell_step, spell_parens, spell_stmt};
ghost use Rattle.sk_tree_spell.specs.Separated.{role_of, spell_value, spell_other};

use crate::expr::{push_enclosed, push_expr};
use crate::push::{push_gap, push_key, push_mark, push_word};
use sk_base::Boxed;
use sk_tree::{Base, Declared, Expr, Form, Key, Kind, Mark, StepKind, Stmt, TyTree};
use std::alloc::{AllocError, Global};

/// Where a statement stands.
#[derive(Debug, Drop, Clone, Copy, PartialEq, Eq)]
pub enum Place {
    /// In a block, or in a function.
    Block,
    /// As the body of another statement.
    Body,
    /// As the first of a `for`.
    First,
    /// As the next of a `for`.
    Next,
}

/// Appends the kinds of the base of a type.
fn push_base(alloc: Global, out: &mut Vec<Kind>, base: &Base) -> Result<(), AllocError>
    ensures { OnOk result (out.new.items ≡ out.old.items ++ spell_base base.now) }
{
    match base {
        Base::Int => {
            push_key(out, Key::Int)?;
            Ok(())
        }
        Base::Bit => {
            push_key(out, Key::Bit)?;
            Ok(())
        }
        Base::Named(x) => {
            push_word(alloc, out, x)?;
            Ok(())
        }
    }
}

/// Appends the kinds of lengths, each in its brackets.
fn push_lengths(alloc: Global, out: &mut Vec<Kind>, lengths: &[Expr]) -> Result<(), AllocError>
    ensures { OnOk result (out.new.items ≡ out.old.items ++ each (map spell_length lengths.now)) }
{
    for length in lengths {
        push_enclosed(alloc, out, Mark::OpenBracket, length, Mark::CloseBracket)?;
    }
    Ok(())
}

/// Appends the kinds of a type.
pub fn push_ty(alloc: Global, out: &mut Vec<Kind>, ty: &TyTree) -> Result<(), AllocError>
    ensures { OnOk result (out.new.items ≡ out.old.items ++ spell_ty ty.now) }
{
    push_base(alloc, out, &ty.base)?;
    push_lengths(alloc, out, ty.lengths.as_slice())?;
    Ok(())
}

/// Appends the value of a declared name, where it has one.
fn push_value(alloc: Global, out: &mut Vec<Kind>, value: &Option<Expr>) -> Result<(), AllocError>
    ensures { OnOk result (out.new.items ≡ out.old.items ++ perhaps spell_value value.now) }
{
    match value {
        None => Ok(()),
        Some(e) => {
            push_mark(out, Mark::Assign)?;
            push_expr(alloc, out, e)?;
            Ok(())
        }
    }
}

/// Appends a declared name.
fn push_declared(alloc: Global, out: &mut Vec<Kind>, declared: &Declared) -> Result<(), AllocError>
    ensures { OnOk result (out.new.items ≡ out.old.items ++ spell_declared declared.now) }
{
    push_word(alloc, out, &declared.name)?;
    push_value(alloc, out, &declared.value)?;
    Ok(())
}

/// Appends declared names, with a comma between two.
fn push_names(alloc: Global, out: &mut Vec<Kind>, names: &[Declared]) -> Result<(), AllocError>
    ensures { OnOk result (out.new.items ≡ out.old.items ++ between (sign mark.Comma) (map spell_declared names.now)) }
{
    let mut is_first = true;
    for name in names {
        push_gap(out, is_first, Mark::Comma)?;
        push_declared(alloc, out, name)?;
        is_first = false;
    }
    Ok(())
}

/// Appends an expression, where there is one.
fn push_perhaps(alloc: Global, out: &mut Vec<Kind>, e: &Option<Expr>) -> Result<(), AllocError>
    ensures { OnOk result (out.new.items ≡ out.old.items ++ perhaps spell_expr e.now) }
{
    match e {
        None => Ok(()),
        Some(e) => {
            push_expr(alloc, out, e)?;
            Ok(())
        }
    }
}

/// Appends a step without its end.
fn push_step(
    alloc: Global,
    out: &mut Vec<Kind>,
    kind: StepKind,
    target: &Expr,
    by: &Option<Expr>,
) -> Result<(), AllocError>
    ensures { OnOk result (out.new.items ≡ out.old.items ++ spell_step kind (spell_expr target.now) (perhaps spell_expr by.now)) }
{
    match kind {
        StepKind::PostInc => {
            push_expr(alloc, out, target)?;
            push_mark(out, Mark::Increment)?;
            Ok(())
        }
        StepKind::PostDec => {
            push_expr(alloc, out, target)?;
            push_mark(out, Mark::Decrement)?;
            Ok(())
        }
        StepKind::PreInc => {
            push_mark(out, Mark::Increment)?;
            push_expr(alloc, out, target)?;
            Ok(())
        }
        StepKind::PreDec => {
            push_mark(out, Mark::Decrement)?;
            push_expr(alloc, out, target)?;
            Ok(())
        }
        StepKind::Add => {
            push_expr(alloc, out, target)?;
            push_mark(out, Mark::AddAssign)?;
            push_perhaps(alloc, out, by)?;
            Ok(())
        }
        StepKind::Sub => {
            push_expr(alloc, out, target)?;
            push_mark(out, Mark::SubAssign)?;
            push_perhaps(alloc, out, by)?;
            Ok(())
        }
    }
}

/// Appends the end of a statement, where it has one in its place.
fn push_end(out: &mut Vec<Kind>, place: Place) -> Result<(), AllocError>
    ensures { OnOk result (out.new.items ≡ out.old.items ++ ending (role_of place)) }
{
    match place {
        Place::Block => {
            push_mark(out, Mark::Semicolon)?;
            Ok(())
        }
        Place::Body => {
            push_mark(out, Mark::Semicolon)?;
            Ok(())
        }
        Place::First => Ok(()),
        Place::Next => Ok(()),
    }
}

/// Appends a keyword and an expression in parentheses.
fn push_head(alloc: Global, out: &mut Vec<Kind>, key: Key, e: &Expr) -> Result<(), AllocError>
    ensures { OnOk result (out.new.items ≡ out.old.items ++ keyword key ++ spell_parens e.now) }
{
    push_key(out, key)?;
    push_enclosed(alloc, out, Mark::OpenParen, e, Mark::CloseParen)?;
    Ok(())
}

/// Appends a keyword and an expression with a semicolon.
fn push_claim(alloc: Global, out: &mut Vec<Kind>, key: Key, e: &Expr) -> Result<(), AllocError>
    ensures { OnOk result (out.new.items ≡ out.old.items ++ keyword key ++ spell_expr e.now ++ sign mark.Semicolon) }
{
    push_key(out, key)?;
    push_expr(alloc, out, e)?;
    push_mark(out, Mark::Semicolon)?;
    Ok(())
}

/// Appends an assignment without its end.
fn push_assignment(
    alloc: Global,
    out: &mut Vec<Kind>,
    target: &Expr,
    value: &Expr,
) -> Result<(), AllocError>
    ensures { OnOk result (out.new.items ≡ out.old.items ++ spell_expr target.now ++ sign mark.Assign ++ spell_expr value.now) }
{
    push_expr(alloc, out, target)?;
    push_mark(out, Mark::Assign)?;
    push_expr(alloc, out, value)?;
    Ok(())
}

/// Appends an expression between two semicolons.
fn push_turn_test(alloc: Global, out: &mut Vec<Kind>, e: &Expr) -> Result<(), AllocError>
    ensures { OnOk result (out.new.items ≡ out.old.items ++ sign mark.Semicolon ++ spell_expr e.now ++ sign mark.Semicolon) }
{
    push_enclosed(alloc, out, Mark::Semicolon, e, Mark::Semicolon)?;
    Ok(())
}

/// Appends the kinds of a statement in its place.
#[cycle(stmt_kinds)]
fn push_stmt(alloc: Global, out: &mut Vec<Kind>, place: Place, s: &Stmt) -> Result<(), AllocError>
    ensures { OnOk result (out.new.items ≡ out.old.items ++ spell_stmt s.now (role_of place)) }
{
    match &s.form {
        Form::Block(stmts) => {
            push_mark(out, Mark::OpenBrace)?;
            push_row(alloc, out, stmts.as_slice())?;
            push_mark(out, Mark::CloseBrace)?;
            Ok(())
        }
        Form::Empty => {
            push_mark(out, Mark::Semicolon)?;
            Ok(())
        }
        Form::Declare { ty, names } => {
            push_ty(alloc, out, ty)?;
            push_names(alloc, out, names.as_slice())?;
            push_end(out, place)?;
            Ok(())
        }
        Form::Assign { target, value } => {
            push_assignment(alloc, out, target, value)?;
            push_end(out, place)?;
            Ok(())
        }
        Form::Call(e) => {
            push_expr(alloc, out, e)?;
            push_mark(out, Mark::Semicolon)?;
            Ok(())
        }
        Form::Step { kind, target, by } => {
            push_step(alloc, out, *kind, target, by)?;
            push_end(out, place)?;
            Ok(())
        }
        Form::If { cond, then, other } => {
            push_head(alloc, out, Key::If, cond)?;
            push_stmt(alloc, out, Place::Body, then.get())?;
            push_else(alloc, out, other)?;
            Ok(())
        }
        Form::While { cond, body } => {
            push_head(alloc, out, Key::While, cond)?;
            push_stmt(alloc, out, Place::Body, body.get())?;
            Ok(())
        }
        Form::For {
            first,
            cond,
            next,
            body,
        } => {
            push_key(out, Key::For)?;
            push_mark(out, Mark::OpenParen)?;
            push_stmt(alloc, out, Place::First, first.get())?;
            push_turn_test(alloc, out, cond)?;
            push_stmt(alloc, out, Place::Next, next.get())?;
            push_mark(out, Mark::CloseParen)?;
            push_stmt(alloc, out, Place::Body, body.get())?;
            Ok(())
        }
        Form::Return(value) => {
            push_key(out, Key::Return)?;
            push_perhaps(alloc, out, value)?;
            push_mark(out, Mark::Semicolon)?;
            Ok(())
        }
        Form::Assert(e) => {
            push_claim(alloc, out, Key::Assert, e)?;
            Ok(())
        }
        Form::Assume(e) => {
            push_claim(alloc, out, Key::Assume, e)?;
            Ok(())
        }
        Form::Minimize(e) => {
            push_head(alloc, out, Key::Minimize, e)?;
            push_mark(out, Mark::Semicolon)?;
            Ok(())
        }
        Form::Repeat { count, body } => {
            push_head(alloc, out, Key::Repeat, count)?;
            push_stmt(alloc, out, Place::Body, body.get())?;
            Ok(())
        }
        Form::MinRepeat(body) => {
            push_key(out, Key::Minrepeat)?;
            push_stmt(alloc, out, Place::Body, body.get())?;
            Ok(())
        }
        Form::Reorder(stmts) => {
            push_key(out, Key::Reorder)?;
            push_mark(out, Mark::OpenBrace)?;
            push_row(alloc, out, stmts.as_slice())?;
            push_mark(out, Mark::CloseBrace)?;
            Ok(())
        }
    }
}

/// Appends an `else` with its body, where there is one.
#[cycle(stmt_kinds)]
fn push_else(
    alloc: Global,
    out: &mut Vec<Kind>,
    other: &Option<Boxed<Stmt>>,
) -> Result<(), AllocError>
    ensures { OnOk result (out.new.items ≡ out.old.items ++ perhaps spell_other (option_map spell_stmt other.now)) }
{
    match other {
        None => Ok(()),
        Some(s) => {
            push_key(out, Key::Else)?;
            push_stmt(alloc, out, Place::Body, s.get())?;
            Ok(())
        }
    }
}

/// Appends the kinds of statements that follow each other.
#[cycle(stmt_kinds)]
pub fn push_row(alloc: Global, out: &mut Vec<Kind>, stmts: &[Stmt]) -> Result<(), AllocError>
    ensures { OnOk result (out.new.items ≡ out.old.items ++ each (map (λ s. s InBlock) (map spell_stmt stmts.now))) }
{
    for s in stmts {
        push_stmt(alloc, out, Place::Block, s)?;
    }
    Ok(())
}
