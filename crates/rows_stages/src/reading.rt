//! Stages of reading: tokens, trees, strings of patterns, spellings and plain trees.
use crate::fault::Fault;
use crate::front::{tokens_of, tree_of};
use crate::shown_expr::push_expr;
use crate::shown_item::push_tree;
use crate::shown_stmt::push_block;
use crate::spelled::push_kind;
use row_files::joined;
use sk_base::{Span, push_number};
use sk_tree::{EForm, Expr, Item, Kind, Token, Tree};
use sk_tree_spell::{spell, strings};
use sk_types_plain::{plain, unsteady_step};
use std::alloc::{AllocError, Global};

/// Appends a span.
pub fn push_span(shown: &mut Vec<u8>, span: Span) -> Result<(), AllocError> {
    push_number(shown, u64::from(span.from))?;
    shown.push(b' ')?;
    push_number(shown, u64::from(span.to))
}

fn push_token(shown: &mut Vec<u8>, token: &Token) -> Result<(), AllocError> {
    let letter = match &token.kind {
        Kind::Word(_) => b'W',
        Kind::Number(_) => b'N',
        Kind::Text(_) => b'T',
        Kind::Key(_) => b'K',
        Kind::Mark(_) => b'M',
    };
    shown.push(letter)?;
    if let Kind::Number(number) = &token.kind {
        shown.push(b' ')?;
        push_number(shown, u64::from(*number))?;
    }
    shown.push(b' ')?;
    push_span(shown, token.span)
}

/// Appends the tokens of a text.
pub fn push_tokens(shown: &mut Vec<u8>, alloc: Global, text: &[u8]) -> Result<(), Fault> {
    let found = tokens_of(alloc, text)?;
    for token in found.as_slice() {
        if !shown.is_empty() {
            shown.extend_from_slice(b", ")?;
        }
        push_token(shown, token)?;
    }
    Ok(())
}

/// Appends the tree of a text.
pub fn push_tree_of(shown: &mut Vec<u8>, alloc: Global, text: &[u8]) -> Result<(), Fault> {
    let tree = tree_of(alloc, text)?;
    push_tree(shown, &tree)?;
    Ok(())
}

// The tree of a text between two others.
fn tree_between(alloc: Global, before: &[u8], text: &[u8], behind: &[u8]) -> Result<Tree, Fault> {
    let whole = joined(alloc, [before, text, behind].as_slice())?;
    tree_of(alloc, whole.as_slice())
}

// The value of the first item, a constant.
fn first_value(tree: &Tree) -> Option<&Expr> {
    match tree.items.get(0) {
        Some(Item::Const { name: _, value }) => Some(value),
        _ => None,
    }
}

/// Appends the tree of an expression.
pub fn push_expression(shown: &mut Vec<u8>, alloc: Global, text: &[u8]) -> Result<(), Fault> {
    let tree = tree_between(alloc, b"int N = ", text, b";")?;
    if tree.items.len() != 1 {
        return Err(Fault::Words);
    }
    if let Some(value) = first_value(&tree) {
        push_expr(shown, value)?;
    }
    Ok(())
}

fn push_body(shown: &mut Vec<u8>, item: Option<&Item>) -> Result<(), AllocError> {
    match item {
        Some(Item::Fun(fun)) => push_block(shown, b"", fun.body.as_slice()),
        _ => Ok(()),
    }
}

/// Appends the trees of statements.
pub fn push_statements(shown: &mut Vec<u8>, alloc: Global, text: &[u8]) -> Result<(), Fault> {
    let tree = tree_between(alloc, b"void f() { ", text, b" }")?;
    if tree.items.len() != 1 {
        return Err(Fault::Words);
    }
    push_body(shown, tree.items.get(0))?;
    Ok(())
}

/// Appends the numbers of bytes after which the text up to there reads.
pub fn push_fronts(shown: &mut Vec<u8>, alloc: Global, text: &[u8]) -> Result<(), Fault> {
    for end in 0..=text.len() {
        if tree_of(alloc, &text[..end]).is_ok() {
            if !shown.is_empty() {
                shown.push(b' ')?;
            }
            push_number(shown, end as u64)?;
        }
    }
    Ok(())
}

// The tree of a text, or its fault.
fn tree_or_fault(alloc: Global, text: &[u8]) -> Result<Vec<u8>, Fault> {
    let mut shown = Vec::new(alloc);
    match push_tree_of(&mut shown, alloc, text) {
        Ok(()) => Ok(shown),
        Err(fault) => {
            let name = fault.to_string(alloc)?;
            Ok(name.into_bytes())
        }
    }
}

/// Appends the tree or fault of each byte; equal ones behind one another once.
pub fn push_bytes(shown: &mut Vec<u8>, alloc: Global, text: &[u8]) -> Result<(), Fault> {
    let mut last = Vec::new(alloc);
    for byte in text {
        let next = tree_or_fault(alloc, [*byte].as_slice())?;
        if next.as_slice() != last.as_slice() {
            shown.extend_from_slice(next.as_slice())?;
            shown.push(b'\n')?;
        }
        last = next;
    }
    Ok(())
}

// Appends kinds with blanks between them.
fn push_string(shown: &mut Vec<u8>, string: &[Token]) -> Result<(), AllocError> {
    let mut is_first = true;
    for token in string {
        if !is_first {
            shown.push(b' ')?;
        }
        is_first = false;
        push_kind(shown, &token.kind)?;
    }
    shown.push(b'\n')?;
    Ok(())
}

fn push_pattern(shown: &mut Vec<u8>, alloc: Global, value: &Expr) -> Result<(), Fault> {
    if let EForm::Pattern {
        pattern,
        strings: _,
    } = &value.form
    {
        let found = strings(alloc, pattern)?;
        for string in found.as_slice() {
            push_string(shown, string.as_slice())?;
        }
    }
    Ok(())
}

/// Appends the strings of a pattern, a line each.
pub fn push_strings(shown: &mut Vec<u8>, alloc: Global, text: &[u8]) -> Result<(), Fault> {
    let tree = tree_between(alloc, b"int N = {| ", text, b" |};")?;
    if let Some(value) = first_value(&tree) {
        push_pattern(shown, alloc, value)?;
    }
    Ok(())
}

/// Appends the kinds that spell the tree of a text.
pub fn push_spelling(shown: &mut Vec<u8>, alloc: Global, text: &[u8]) -> Result<(), Fault> {
    let tree = tree_of(alloc, text)?;
    let kinds = spell(alloc, &tree)?;
    for kind in kinds.as_slice() {
        if !shown.is_empty() {
            shown.push(b' ')?;
        }
        push_kind(shown, kind)?;
    }
    Ok(())
}

/// Appends the plain tree of a text, or the place of the step whose target is none.
pub fn push_plain(shown: &mut Vec<u8>, alloc: Global, text: &[u8]) -> Result<(), Fault> {
    let tree = tree_of(alloc, text)?;
    if let Some(span) = unsteady_step(&tree) {
        shown.extend_from_slice(b"unsteady ")?;
        push_span(shown, span)?;
        return Ok(());
    }
    let made = plain(alloc, &tree)?;
    push_tree(shown, &made)?;
    Ok(())
}
