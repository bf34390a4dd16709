//! How a line ends on many texts that are made of one: the first two words of its messages, without places.
use crate::ended::run_line;
use crate::settings::calm_settings;
use row_files::{Ended, Tally};
use std::alloc::{AllocError, Global};

// Up to the third blank: a status, and the first two words of a message.
fn three_words(head: &[u8]) -> &[u8] {
    let mut blanks = 0u8;
    for (at, byte) in head.iter().enumerate() {
        if *byte == b' ' {
            if blanks == 2 {
                return &head[..at];
            }
            blanks = blanks.saturating_add(1);
        }
    }
    head
}

// Adds how the line ends on a text.
fn add(alloc: Global, tally: &mut Tally, words: &[u8], text: &[u8]) -> Result<(), AllocError> {
    let text = Vec::from_slice(alloc, text)?;
    let came = run_line(alloc, words, text, calm_settings(alloc))?;
    tally.add(three_words(came.head.as_slice()))
}

fn told(alloc: Global, tally: Tally) -> Result<Ended, AllocError> {
    let head = Vec::from_slice(alloc, b"ends")?;
    let body = tally.told()?;
    Ok(Ended { head, body })
}

/// How the line ends on each front of a text, from the empty one to the whole.
pub fn front_fates(alloc: Global, words: &[u8], text: &[u8]) -> Result<Ended, AllocError> {
    let mut tally = Tally::new(alloc);
    for end in 0..=text.len() {
        add(alloc, &mut tally, words, &text[..end])?;
    }
    told(alloc, tally)
}

/// How the line ends on each byte of a text.
pub fn byte_fates(alloc: Global, words: &[u8], text: &[u8]) -> Result<Ended, AllocError> {
    let mut tally = Tally::new(alloc);
    for byte in text {
        add(alloc, &mut tally, words, &[*byte])?;
    }
    told(alloc, tally)
}
