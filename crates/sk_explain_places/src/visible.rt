//! A line as people see it: a question mark for each byte that controls a terminal, and for each that is no part of a character of
//! UTF-8.
ghost use Rattle.std.specs.Prelude.{◌≡◌, ◌++◌, ◌+◌, take, OnOk};
ghost use Rattle.std.specs.Str.{continuation_len, is_utf8};
ghost use Rattle.sk_explain_places.specs.Visible.{is_control, begins_control, first_character, width, left_of, visible_byte, visible};

use std::alloc::AllocError;

/// What stands for a byte that is not shown.
const HIDDEN: u8 = b'?';

/// Whether a byte controls a terminal by itself, and is no tab.
fn is_control(byte: u8) -> bool
    ensures { result ≡ is_control byte }
{
    (byte < 32 && byte != b'\t') || byte == 127
}

/// Whether bytes begin with one of the control characters U+0080 to U+009F.
fn begins_control(bytes: &[u8]) -> bool
    ensures { result ≡ begins_control bytes.now }
{
    match bytes {
        [] => false,
        [_] => false,
        [first, second, ..] => *first == 194 && *second < 160,
    }
}

/// How many bytes a character has that begins with this one.
fn character_length(first: u8) -> usize
    ensures { result ≡ continuation_len first + 1 }
{
    if first < 128 {
        1
    } else if first < 224 {
        2
    } else if first < 240 {
        3
    } else {
        4
    }
}

/// The front of bytes: so many, or all where there are fewer.
pub fn front<'a>(bytes: &'a [u8], count: usize) -> &'a [u8]
    ensures { result.now ≡ take count bytes.now }
{
    if count < bytes.len() {
        &bytes[..count]
    } else {
        bytes
    }
}

/// As many bytes as a character has that begins with the first of them.
fn first_character<'a>(bytes: &'a [u8]) -> &'a [u8]
    ensures { result.now ≡ first_character bytes.now }
{
    match bytes {
        [] => bytes,
        [first, ..] => front(bytes, character_length(*first)),
    }
}

/// Whether bytes are characters of UTF-8.
#[tactic(auto, using(crate::proofs::VisibleLaws::utf8_yes, crate::proofs::VisibleLaws::utf8_no))]
fn is_utf8(bytes: &[u8]) -> bool
    ensures { result ≡ is_utf8 bytes.now }
{
    match str::from_utf8(bytes) {
        Ok(_) => true,
        Err(_) => false,
    }
}

/// How many bytes, from the first one, are a character that is shown as it stands.
#[tactic(auto, unfolding(crate::specs::Visible::width))]
fn width(bytes: &[u8]) -> usize
    ensures { result ≡ width bytes.now }
{
    let character = first_character(bytes);
    if is_utf8(character) && !begins_control(bytes) {
        character.len()
    } else {
        0
    }
}

/// How many bytes, from the first one, are of a character, where so many are of one that began before them.
fn left_of(left: usize, bytes: &[u8]) -> usize
    ensures { result ≡ left_of left bytes.now }
{
    let width = width(bytes);
    if left < width { width } else { left }
}

/// A byte as it is shown, where so many from it on are of a character.
fn visible_byte(left: usize, byte: u8) -> u8
    ensures { result ≡ visible_byte left byte }
{
    if is_control(byte) || left == 0 {
        HIDDEN
    } else {
        byte
    }
}

/// Appends a line as people see it.
pub fn push_visible(out: &mut Vec<u8>, line: &[u8]) -> Result<(), AllocError>
    ensures { OnOk result (out.new.items ≡ out.old.items ++ visible line.now) }
{
    let mut left = 0;
    for at in 0..line.len() {
        left = left_of(left, &line[at..]);
        out.push(visible_byte(left, line[at]))?;
        left = left.saturating_sub(1);
    }
    Ok(())
}
