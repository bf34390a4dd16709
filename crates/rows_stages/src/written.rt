//! What is written of a row: what its stage shows of its text.
use crate::expansion::{push_expansion, push_filling, push_sites, push_sizes_of, push_spans};
use crate::fault::Fault;
use crate::front::tree_of;
use crate::reading::{
    push_bytes, push_expression, push_fronts, push_plain, push_spelling, push_statements,
    push_strings, push_tokens, push_tree_of,
};
use crate::task::{Stage, Task, task_of};
use crate::typing::{
    push_layout, push_literal, push_operators, push_rule, push_stands, push_typed,
};
use row_files::words_of;
use std::alloc::{AllocError, Global};

fn push_reading(shown: &mut Vec<u8>, alloc: Global, task: &Task, text: &[u8]) -> Result<(), Fault> {
    match task.stage {
        Stage::Tokens => push_tokens(shown, alloc, text),
        Stage::Tree => push_tree_of(shown, alloc, text),
        Stage::Expression => push_expression(shown, alloc, text),
        Stage::Statements => push_statements(shown, alloc, text),
        Stage::Reads => {
            let _tree = tree_of(alloc, text)?;
            shown.extend_from_slice(b"reads")?;
            Ok(())
        }
        Stage::Fronts => push_fronts(shown, alloc, text),
        Stage::Bytes => push_bytes(shown, alloc, text),
        Stage::Strings => push_strings(shown, alloc, text),
        Stage::Spelling => push_spelling(shown, alloc, text),
        Stage::Plain => push_plain(shown, alloc, text),
        _ => push_typing(shown, alloc, task, text),
    }
}

fn push_typing(shown: &mut Vec<u8>, alloc: Global, task: &Task, text: &[u8]) -> Result<(), Fault> {
    let bounds = &task.bounds;
    let words = task.others.as_slice();
    match task.stage {
        Stage::Stands => push_stands(shown, alloc, words, text, bounds),
        Stage::Operators => push_operators(shown, alloc, words, text, bounds),
        Stage::Typed => push_typed(shown, alloc, text, bounds),
        Stage::Rule => push_rule(shown, alloc, text, bounds),
        Stage::Literal => push_literal(shown, alloc, text, bounds),
        Stage::Layout => push_layout(shown, alloc, text, bounds),
        _ => push_expanding(shown, alloc, task, text),
    }
}

fn push_expanding(
    shown: &mut Vec<u8>,
    alloc: Global,
    task: &Task,
    text: &[u8],
) -> Result<(), Fault> {
    let bounds = &task.bounds;
    let words = task.others.as_slice();
    match task.stage {
        Stage::Sizes => push_sizes_of(shown, alloc, text, bounds, true),
        Stage::Totals => push_sizes_of(shown, alloc, text, bounds, false),
        Stage::Expansion => push_expansion(shown, alloc, text, bounds),
        Stage::Sites => push_sites(shown, alloc, text, bounds),
        Stage::Filling => push_filling(shown, alloc, text, bounds, words),
        Stage::Spans => push_spans(shown, alloc, text, bounds, words),
        _ => Err(Fault::Words),
    }
}

fn push_written(
    shown: &mut Vec<u8>,
    alloc: Global,
    words: &[u8],
    text: &[u8],
) -> Result<(), Fault> {
    let words = words_of(alloc, words)?;
    let task = task_of(alloc, words.as_slice())?;
    push_reading(shown, alloc, &task, text)
}

// Ends the last line.
fn end_line(shown: &mut Vec<u8>) -> Result<(), AllocError> {
    if !shown.is_empty() && !shown.as_slice().ends_with(b"\n") {
        shown.push(b'\n')?;
    }
    Ok(())
}

/// What is written of a text by the stage that the words of its row name, in full lines: what the stage shows of it, or
/// the name of the fault for which it does not come there.
pub fn written(alloc: Global, words: &[u8], text: &[u8]) -> Result<Vec<u8>, AllocError> {
    let mut shown = Vec::new(alloc);
    match push_written(&mut shown, alloc, words, text) {
        Ok(()) => {
            end_line(&mut shown)?;
            Ok(shown)
        }
        Err(Fault::Memory) => Err(AllocError),
        Err(fault) => {
            let mut name = fault.to_string(alloc)?.into_bytes();
            name.push(b'\n')?;
            Ok(name)
        }
    }
}
