//! The numbers of an answer.
use sk_base::List;
use sk_model::Choice;
use std::alloc::{AllocError, Global};

// What stands in the first line of an answer that begins with these bytes, behind them.
fn behind<'a>(answer: &'a [u8], begin: &[u8]) -> Option<&'a [u8]> {
    for line in answer.split(|byte| *byte == b'\n') {
        if let Some((front, rest)) = line.split_at_checked(begin.len()) {
            if front == begin {
                return Some(rest);
            }
        }
    }
    None
}

// The number that digits spell.
fn number(word: &[u8]) -> Option<u64> {
    let mut value = 0u64;
    for byte in word {
        let digit = match byte {
            b'0'..=b'9' => u64::from(byte - b'0'),
            _ => return None,
        };
        value = value.checked_mul(10)?.checked_add(digit)?;
    }
    Some(value)
}

/// The value of a completion.
pub fn value_in(answer: &[u8]) -> Option<u64> {
    number(behind(answer, b"//@ value ")?)
}

/// The numbers of a completion.
pub fn choice_in(alloc: Global, answer: &[u8]) -> Result<Option<Choice>, AllocError> {
    let Some(line) = behind(answer, b"//@ holes") else {
        return Ok(None);
    };
    let mut values = List::new(alloc);
    for word in line.split(|byte| *byte == b' ') {
        if !word.is_empty() {
            let Some(value) = number(word) else {
                return Ok(None);
            };
            values.push(value)?;
        }
    }
    Ok(Some(Choice { values }))
}
