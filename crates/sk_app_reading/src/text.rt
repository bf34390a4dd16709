//! The bytes of a source, up to a limit.

ghost use Rattle.std.specs.Prelude.{◌≡◌, ◌≤◌, ◌<◌, ◌+◌, length, IfOk};
ghost use Rattle.sk_app_reading.specs.Streams.{IsRead, TakesFew};
ghost use Rattle.sk_app_reading.specs.ReadStep.{IsStep};

use sk_base::{Got, Source};
use std::alloc::{AllocError, Global};

/// What a source gave.
#[derive(Drop)]
pub enum Reading {
    /// All its bytes.
    Whole(Vec<u8>),
    /// More bytes than the limit.
    Long,
    /// It failed.
    Failed,
}

/// How many bytes to ask for, where so many were read of at most so many.
fn room(have: usize, most: usize) -> usize
    requires limit { most < 18446744073709551615 }
    requires have { have ≤ most }
    ensures some { 0 < result }
    ensures within { have + result ≤ most + 1 }
    ensures chunk { result ≤ 4096 }
{
    let left = most - have;
    if left < 4095 { left + 1 } else { 4096 }
}

/// Whether there may be more to read.
enum Step {
    More,
    End,
    Failed,
}

/// Reads the next bytes behind those that were read.
fn read_more<S: Source>(
    source: &mut S,
    text: &mut Vec<u8>,
    into: &mut [u8],
) -> Result<Step, AllocError>
    requires some { 0 < length into.old }
    ensures step { IsStep result text.old.items text.new.items (length into.old) (S.faults source.old) (S.faults source.new) (S.left source.old) (S.left source.new) }
{
    match source.read(into) {
        Got::Bytes(0) | Got::End => Ok(Step::End),
        Got::Bytes(count) => {
            text.extend_from_slice(&into[..count])?;
            Ok(Step::More)
        }
        Got::Failed => Ok(Step::Failed),
    }
}

/// Reads a source to its end, or to the first byte past the limit, which is a number of bytes. At most 4,096 are asked for at once.
///
/// # Errors
///
/// Memory is wanting. What was read then is gone.
pub fn read_text<S: Source>(
    alloc: Global,
    source: &mut S,
    most: usize,
) -> Result<Reading, AllocError>
    requires limit { most < 18446744073709551615 }
    ensures count { S.faults source.old ≤ S.faults source.new }
    ensures read { IfOk result (λ reading. IsRead most reading (S.faults source.old) (S.faults source.new) (S.left source.old)) }
    ensures few { TakesFew most (S.left source.old) (S.left source.new) }
{
    let mut text = Vec::new(alloc);
    let mut chunk = [0u8; 4096];
    'reading: while text.len() <= most {
        let room = room(text.len(), most);
        match read_more(source, &mut text, &mut chunk[..room])? {
            Step::More => {}
            Step::End => return Ok(Reading::Whole(text)),
            Step::Failed => return Ok(Reading::Failed),
        }
    }
    Ok(Reading::Long)
}
