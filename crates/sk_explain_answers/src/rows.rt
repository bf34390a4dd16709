//! The lines of an answer.
ghost use Rattle.std.specs.Prelude.{◌≡◌, ◌++◌, map, IfOk, OnOk};
ghost use Rattle.std.specs.List.{flat_map};
ghost use Rattle.sk_explain_answers.specs.Rows.{is_row, words_of, row_if, row_of, rows_of};

use crate::pieces::pieces;
use sk_base::{List, Name};
use std::alloc::{AllocError, Global};

/// A line of an answer, as its words.
#[derive(Debug, Drop)]
pub struct Row {
    words: List<Name>,
}

// Whether the words of a line begin with `//@` and this kind.
fn is_row(kind: &[u8], words: &[Name]) -> bool
    ensures { result ≡ is_row kind.now words.now }
{
    match words {
        [] => false,
        [_] => false,
        [mark, word, ..] => mark.as_bytes() == b"//@".as_slice() && word.as_bytes() == kind,
    }
}

impl Row {
    /// The words behind the kind.
    pub fn words(&self) -> &[Name]
        ensures { result.now ≡ words_of self.now }
    {
        match self.words.as_slice() {
            [] => &[],
            [_] => &[],
            [_, _, behind @ ..] => behind,
        }
    }
}

// Puts the words of a line behind rows, where it is of this kind.
#[tactic(auto, using(crate::proofs::RowLemmas::row_pushed))]
fn push_words(rows: &mut List<Row>, kind: &[u8], words: List<Name>) -> Result<(), AllocError>
    ensures { OnOk result (map words_of rows.new ≡ map words_of rows.old ++ row_if kind.now words) }
{
    if is_row(kind, words.as_slice()) {
        rows.push(Row { words })?;
        return Ok(());
    }
    Ok(())
}

// Puts the words of each line of this kind behind rows.
fn push_rows(
    alloc: Global,
    rows: &mut List<Row>,
    kind: &[u8],
    lines: &[Name],
) -> Result<(), AllocError>
    ensures { OnOk result (map words_of rows.new ≡ map words_of rows.old ++ flat_map (row_of kind.now) lines.now) }
{
    let mut rest = lines;
    while let [line, others @ ..] = rest {
        let words = pieces(alloc, b' ', line.as_bytes())?;
        push_words(rows, kind, words)?;
        rest = others;
    }
    Ok(())
}

/// Each line of this kind, in order.
pub fn rows_of(alloc: Global, kind: &[u8], answer: &[u8]) -> Result<List<Row>, AllocError>
    ensures { IfOk result (λ rows. map words_of rows ≡ rows_of kind.now answer.now) }
{
    let lines = pieces(alloc, b'\n', answer)?;
    let mut rows = List::new(alloc);
    push_rows(alloc, &mut rows, kind, lines.as_slice())?;
    Ok(rows)
}
