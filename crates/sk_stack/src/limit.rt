// The limit of the stack in a text of the form of `/proc/self/limits`.
ghost use Rattle.std.specs.Prelude.{◌≡◌, ◌++◌, ◌+◌, ◌-◌, ◌*◌, ◌<◌, ◌^◌, drop, codes, IfOk, IfSome, MatchOption, OnOk};
ghost use Rattle.std.specs.Fmt.{decimal};
ghost use Rattle.sk_stack.specs.Limits.{below_limit, digits_from, number_at, is_titled, stack_limit, short_limit, least_message};

use sk_base::push_number;
use std::alloc::{AllocError, Global};

/// The least stack in bytes with which a run is begun: the deepest texts, runs and expansions that are let pass take less.
const LEAST: u64 = 7_340_032;

// The number with a digit behind it, where it has 64 bits.
fn one_more(number: u64, digit: u8) -> Option<u64>
    ensures { result ≡ below_limit (10 * number + (digit - 48)) }
{
    let tens = number.checked_mul(10)?;
    tens.checked_add(u64::from(digit.saturating_sub(48)))
}

// The number of the digits at the front, where it has 64 bits.
fn number_of(digits: &[u8]) -> Option<u64>
    ensures { result ≡ below_limit (digits_from 0 digits.now) }
{
    let mut number: u64 = 0;
    let mut rest = digits;
    while let [digit, after @ ..] = rest {
        if !digit.is_ascii_digit() {
            return Some(number);
        }
        let Some(next) = one_more(number, *digit) else {
            return None;
        };
        number = next;
        rest = after;
    }
    Some(number)
}

// The number that stands first behind spaces, if one does.
#[tactic(auto, unfolding(crate::specs::Limits::number_at))]
fn number_at(text: &[u8]) -> Option<u64>
    ensures { result ≡ number_at text.now }
{
    let mut rest = text;
    while let [first, after @ ..] = rest {
        if *first != b' ' {
            return if first.is_ascii_digit() {
                number_of(rest)
            } else {
                None
            };
        }
        rest = after;
    }
    None
}

// Whether the text begins with the line of the stack.
fn is_titled(text: &[u8]) -> bool
    ensures { result ≡ is_titled text.now }
{
    text.starts_with(b"Max stack size")
}

// What stands behind the title of the line.
fn behind_title(text: &[u8]) -> &[u8]
    ensures { result.now ≡ drop 14 text.now }
{
    match text.get(14..) {
        Some(rest) => rest,
        None => &[],
    }
}

/// The soft limit of the stack in bytes that a text of the form of `/proc/self/limits` tells, if it tells one.
#[tactic(auto, unfolding(crate::specs::Limits::limit_from))]
pub fn stack_limit(text: &[u8]) -> Option<u64>
    ensures { result ≡ stack_limit text.now }
{
    let mut begins = true;
    let mut rest = text;
    while let [first, after @ ..] = rest {
        if begins && is_titled(rest) {
            return number_at(behind_title(rest));
        }
        begins = *first == b'\n';
        rest = after;
    }
    None
}

/// The limit that a text tells, if it is less than a run needs.
pub fn short_limit(text: &[u8]) -> Option<u64>
    ensures { result ≡ short_limit text.now }
{
    match stack_limit(text) {
        Some(limit) if limit < LEAST => Some(limit),
        _ => None,
    }
}

/// The line that says that a stack may take no more than this, and what a run needs.
pub fn least_message(alloc: Global, limit: u64) -> Result<Vec<u8>, AllocError>
    ensures { IfOk result (λ line. line.items ≡ least_message limit) }
{
    let mut out = Vec::from_slice(alloc, b"small stack ")?;
    push_number(&mut out, limit)?;
    out.push(b' ')?;
    push_number(&mut out, LEAST)?;
    Ok(out)
}
