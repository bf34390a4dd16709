//! Words of a command line.
use std::alloc::{AllocError, Global};

/// The words of a line, between its blanks. `␣` stands for a blank in a word, `␛` for the byte 27, `␡` for the byte 127, and `''`
/// for a word without bytes. A line that is not UTF-8 has no words.
pub fn words_of(alloc: Global, line: &[u8]) -> Result<Vec<String>, AllocError> {
    let mut words = Vec::new(alloc);
    let Ok(line) = str::from_utf8(line) else {
        return Ok(words);
    };
    for word in line.split_ascii_whitespace() {
        let spelt = if word == "''" { "" } else { word };
        words.push(without_signs(alloc, spelt)?)?;
    }
    Ok(words)
}

// A word with what its signs stand for.
fn without_signs(alloc: Global, word: &str) -> Result<String, AllocError> {
    let mut found = String::new(alloc);
    for letter in word.chars() {
        found.push(meant(letter))?;
    }
    Ok(found)
}

// What a letter of a word stands for.
fn meant(letter: char) -> char {
    match letter {
        '␣' => ' ',
        '␛' => '\x1b',
        '␡' => '\x7f',
        _ => letter,
    }
}
