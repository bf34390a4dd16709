//! Reads files of rows, which people write: what programs of tests run a text with, and what they want of it.
//!
//! A row in one line is a text, ` => ` and what is wanted; the words of the nearest line `words ..` above it say what
//! is done with the text. Lines `before ..` and `behind ..` put the same bytes round the texts of the rows that follow,
//! up to the next line `words`, and a line `escaped` says that the whole texts up to there stand with escapes. A block row is a
//! line `=== TITLE`, a line of words, a line `escaped` where the text and what is wanted stand with escapes, lines of settings, a
//! mark `---`, the text in full lines, and for each answer that is right a mark `--- WANTED` and the wanted output in full lines.
//! A mark that ends in `no line feed` says that the last line under it has none. A block ends before a line that begins with `===` or
//! `#`, and blank lines before that line are not of the block. Between rows, blank lines and lines that begin with
//! `#` say nothing.
//!
//! Marks of places: a text may have a range between `«` and `»`, and is read without these two.
//!
//! Escapes are `\n`, `\t`, `\r`, `\\` and `\xNN`, and `\N{PIECE}` for a piece that stands N times.
//!
//! A program of rows is a `Judge` with a call of `judge_files`. Where its rows say how lines end, it has `Lines`, and judges by
//! `judge_row`.
#![tactic(auto)]

mod comparing;
mod escapes;
mod judging;
mod lines;
mod places;
mod reports;
mod rows;
mod sections;
mod tally;
mod words;

pub use comparing::{Ended, Lines, judge_row};
pub use judging::{Judge, judge_files};
pub use lines::{FirstLine, first_line};
pub use reports::{head_of, joined, titled};
pub use rows::{Around, BlockRow, LineRow, Row, read_rows};
pub use sections::{FirstSection, Section, first_section};
pub use tally::Tally;
pub use words::words_of;
