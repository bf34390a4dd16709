//! Functions that may end without a result.
ghost use Rattle.std.specs.Prelude.{◌≡◌};

use sk_explain_notes::Told;
use sk_parser::{ParseFault, parse};
use sk_tree::{Form, FunItem, Item, Stmt, Token, Tree};
use std::alloc::{AllocError, Global};

// Whether runs go on behind a statement: one that is no return, and has no statements inside.
fn passes(form: &Form) -> bool {
    match form {
        Form::Empty | Form::Declare { .. } | Form::Assign { .. } | Form::Call(_) => true,
        Form::Step { .. } | Form::Assert(_) | Form::Assume(_) | Form::Minimize(_) => true,
        Form::Return(_) | Form::Block(_) | Form::Reorder(_) | Form::If { .. } => false,
        Form::While { .. } | Form::For { .. } | Form::Repeat { .. } | Form::MinRepeat(_) => false,
    }
}

// Whether runs come to the end of a body.
fn ends(body: &[Stmt]) -> bool {
    match body.last() {
        Some(last) => passes(&last.form),
        None => true,
    }
}

// Warns of a function with a result, where runs come to the end of its body.
fn push_fun(told: &mut Told, fun: &FunItem) -> Result<(), AllocError>
    ensures { told.new.title ≡ told.old.title }
{
    if fun.result.is_none() || !ends(fun.body.as_slice()) {
        return Ok(());
    }
    told.note(&[
        b"warning: '",
        fun.name.as_bytes(),
        b"' does not end with a return; at its end the result is 0, null or an array of these",
    ])
}

fn push_item(told: &mut Told, item: &Item) -> Result<(), AllocError>
    ensures { told.new.title ≡ told.old.title }
{
    match item {
        Item::Fun(fun) => push_fun(told, fun),
        Item::Pragma { .. } | Item::Struct { .. } | Item::Const { .. } => Ok(()),
    }
}

fn push_items(told: &mut Told, tree: &Tree) -> Result<(), AllocError>
    ensures { told.new.title ≡ told.old.title }
{
    for item in tree.items.as_slice() {
        push_item(told, item)?;
    }
    Ok(())
}

/// Warns of each function with a result whose runs can come to the end of its body. After a refusal title and notes are given
/// up: nothing is told.
pub fn push_unreturned(alloc: Global, told: &mut Told, tokens: &[Token]) -> Result<(), AllocError>
    ensures { told.new.title ≡ told.old.title }
{
    match parse(alloc, tokens) {
        Ok(tree) => push_items(told, &tree),
        Err(ParseFault::Memory) => Err(AllocError),
        Err(_) => Ok(()),
    }
}
