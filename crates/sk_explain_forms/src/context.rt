//! The forms that what stands farther from a place tells: the statement in which it stands, what is open round it.
use crate::cut::Cut;
use crate::forms::LeftOut;
use crate::seen::{is_any, is_number, is_quoted, is_spelt, is_type, is_word};
use sk_tree::Token;

const OPENING: [&[u8]; 3] = [b"(", b"[", b"{"];

const CLOSING: [&[u8]; 3] = [b")", b"]", b"}"];

const ENDING: [&[u8]; 3] = [b"{", b"}", b";"];

/// How many of some tokens stand before the last mark that opens something and is not closed.
fn last_open(text: &[u8], tokens: &[Token]) -> Option<usize> {
    let mut closed = 0usize;
    let mut count = tokens.len();
    for token in tokens.iter().rev() {
        count = count.saturating_sub(1);
        if is_any(text, token, &CLOSING) {
            closed = closed.saturating_add(1);
        } else if is_any(text, token, &OPENING) {
            if closed == 0 {
                return Some(count);
            }
            closed = closed.saturating_sub(1);
        }
    }
    None
}

// The tokens in front of the last mark that opens something and is not closed, and the mark with those behind it.
fn at_open<'a>(text: &[u8], tokens: &'a [Token]) -> Option<(&'a [Token], &'a [Token])> {
    tokens.split_at_checked(last_open(text, tokens)?)
}

/// Whether nothing is open at a place.
pub fn is_at_top(cut: Cut<'_>) -> bool {
    last_open(cut.text, cut.before).is_none()
}

// The tokens before a place from the first one of its statement on.
fn statement_before<'a>(cut: Cut<'a>) -> &'a [Token] {
    for (at, token) in cut.before.iter().enumerate().rev() {
        if is_any(cut.text, token, &ENDING) {
            return &cut.before[at + 1..];
        }
    }
    cut.before
}

// Whether the statement of a place begins with one of these words.
fn is_within(cut: Cut<'_>, words: &[&[u8]]) -> bool {
    match statement_before(cut).first() {
        Some(first) => is_any(cut.text, first, words),
        None => false,
    }
}

// A text behind what is asserted.
fn is_message(cut: Cut<'_>) -> bool {
    let is_text = match cut.from {
        [first, second, ..] => is_quoted(first)
            || (is_any(cut.text, first, &[b":", b","]) && is_quoted(second)),
        [first] => is_quoted(first),
        [] => false,
    };
    is_text && is_within(cut, &[b"assert", b"assume"])
}

// Whether one of these words stands in front of the mark that is open at a place.
fn is_headed(cut: Cut<'_>, words: &[&[u8]]) -> bool {
    let Some((front, _)) = at_open(cut.text, cut.before) else {
        return false;
    };
    match front.last() {
        Some(word) => is_any(cut.text, word, words),
        None => false,
    }
}

// `=` in a condition.
fn is_equals(cut: Cut<'_>) -> bool {
    if !cut.begins(b"=") {
        return false;
    }
    if is_within(cut, &[b"assert", b"assume"]) {
        return true;
    }
    is_headed(cut, &[b"if", b"while"])
}

// Whether what stands in parentheses from their `(` on has no `=`.
fn is_unnamed_behind(text: &[u8], inside: &[Token]) -> bool {
    for token in inside {
        if is_spelt(text, token, b"=") {
            return false;
        }
    }
    true
}

// A field of `new` without its name.
fn is_unnamed(cut: Cut<'_>) -> bool {
    let Some((front, inside)) = at_open(cut.text, cut.before) else {
        return false;
    };
    match front {
        [.., first, second] => {
            is_spelt(cut.text, first, b"new")
                && is_word(second)
                && is_unnamed_behind(cut.text, inside)
        }
        _ => false,
    }
}

// The tokens behind the lengths of a type.
fn behind_lengths<'a>(text: &[u8], tokens: &'a [Token]) -> &'a [Token] {
    let mut open = 0usize;
    for (at, token) in tokens.iter().enumerate() {
        if is_spelt(text, token, b"[") {
            open = open.saturating_add(1);
        } else if is_spelt(text, token, b"]") {
            open = open.saturating_sub(1);
        } else if open == 0 {
            return &tokens[at..];
        }
    }
    &[]
}

// A type in parentheses, where no name stands in front of them.
fn is_cast(cut: Cut<'_>) -> bool {
    let [first, behind @ ..] = cut.from else {
        return false;
    };
    if !is_type(cut.text, first) || !cut.ends(b"(") {
        return false;
    }
    let is_called = match cut.earlier().last() {
        Some(word) => is_word(word),
        None => true,
    };
    match behind_lengths(cut.text, behind).first() {
        Some(token) => !is_called && is_spelt(cut.text, token, b")"),
        None => false,
    }
}

// Whether `::` is one of some tokens.
fn has_slice(text: &[u8], tokens: &[Token]) -> bool {
    for token in tokens {
        if is_spelt(text, token, b"::") {
            return true;
        }
    }
    false
}

// Whether some tokens declare a struct of a name.
fn has_struct(text: &[u8], tokens: &[Token], name: &[u8]) -> bool {
    for two in tokens.windows(2) {
        if let [first, second] = two {
            if is_spelt(text, first, b"struct") && is_spelt(text, second, name) {
                return true;
            }
        }
    }
    false
}

// `*` behind the name of a struct.
fn is_pointer(cut: Cut<'_>) -> bool {
    let name = cut.last_spelt();
    cut.begins(b"*")
        && (has_struct(cut.text, cut.before, name) || has_struct(cut.text, cut.from, name))
}

// A slice in front of an assignment or a step.
fn is_slice_target(cut: Cut<'_>) -> bool {
    let is_assigned = match cut.here() {
        Some(token) => is_any(cut.text, token, &[b"=", b"+=", b"-=", b"++", b"--"]),
        None => false,
    };
    match at_open(cut.text, cut.earlier().before) {
        Some((_, inside)) => is_assigned && cut.ends(b"]") && has_slice(cut.text, inside),
        None => false,
    }
}

// A keyword behind a type, a name or parameters, in front of which it stands.
fn is_late(cut: Cut<'_>, word: &[u8]) -> bool {
    match cut.last() {
        Some(last) => {
            let ends_part = is_word(last)
                || is_type(cut.text, last)
                || is_any(cut.text, last, &[b")", b"]"]);
            cut.begins(word) && ends_part
        }
        None => false,
    }
}

// Whether a parameter list ends at a place, and a `;` follows it, at the top.
fn is_prototype(cut: Cut<'_>) -> bool {
    cut.begins(b";") && cut.ends(b")") && is_at_top(cut)
}

// Whether a name with no value, or of another type than `int`, stands at the top.
fn is_global(cut: Cut<'_>) -> bool {
    let goes_on = cut.begins(b";") || cut.begins(b",") || cut.begins(b"=");
    match cut.before {
        [.., first, second] => {
            let is_declared = is_type(cut.text, first)
                || is_spelt(cut.text, first, b"]")
                || is_word(first);
            goes_on && is_declared && is_word(second) && is_at_top(cut)
        }
        _ => false,
    }
}

// Whether an item ends at a place, and a `;` stands there.
fn is_ended(cut: Cut<'_>) -> bool {
    cut.begins(b";") && cut.ends(b"}") && is_at_top(cut)
}

/// The tokens in front of parentheses that end at a place; none where none end there.
pub fn front_of_call<'a>(cut: Cut<'a>) -> &'a [Token] {
    if !cut.ends(b")") {
        return &[];
    }
    match at_open(cut.text, cut.earlier().before) {
        Some((front, _)) => front,
        None => &[],
    }
}

// The word in front of parentheses that end at a place.
fn called_before<'a>(cut: Cut<'a>) -> Option<&'a Token> {
    if !cut.ends(b")") {
        return None;
    }
    let (front, _) = at_open(cut.text, cut.earlier().before)?;
    front.last()
}

// `loop (n)` with a statement behind it.
fn is_loop(cut: Cut<'_>) -> bool {
    match called_before(cut) {
        Some(word) => is_spelt(cut.text, word, b"loop"),
        None => false,
    }
}

// Two parts in one of the three of a `for`.
fn is_listed_in_for(cut: Cut<'_>) -> bool {
    cut.begins(b",") && is_headed(cut, &[b"for"])
}

/// The form that what stands round a place tells.
pub fn form_in_context(cut: Cut<'_>) -> Option<LeftOut> {
    if is_message(cut) {
        Some(LeftOut::Message)
    } else if is_cast(cut) {
        Some(LeftOut::Cast)
    } else if is_equals(cut) {
        Some(LeftOut::Equals)
    } else if is_unnamed(cut) {
        Some(LeftOut::Unnamed)
    } else if is_slice_target(cut) {
        Some(LeftOut::SliceTarget)
    } else if is_pointer(cut) {
        Some(LeftOut::Pointer)
    } else if is_loop(cut) {
        Some(LeftOut::Loop)
    } else {
        item_form(cut)
    }
}

// The same of what stands in items, and what is left.
fn item_form(cut: Cut<'_>) -> Option<LeftOut> {
    if is_late(cut, b"generator") {
        Some(LeftOut::LateGenerator)
    } else if is_late(cut, b"harness") {
        Some(LeftOut::LateHarness)
    } else if is_prototype(cut) {
        Some(LeftOut::Prototype)
    } else if is_global(cut) {
        Some(LeftOut::Global)
    } else if is_ended(cut) {
        Some(LeftOut::EndedItem)
    } else if is_listed_in_for(cut) {
        Some(LeftOut::PartOfFor)
    } else {
        quoted_form(cut)
    }
}

// A text in quotes where none stands.
fn quoted_form(cut: Cut<'_>) -> Option<LeftOut> {
    match cut.here() {
        Some(token) if is_quoted(token) => Some(LeftOut::Quoted),
        _ => None,
    }
}

/// The number that a place stands behind, where a word follows it with nothing between them, as in `0x55`.
pub fn glued<'a>(cut: Cut<'a>) -> Option<(&'a Token, &'a Token)> {
    let number = cut.last()?;
    let word = cut.here()?;
    if is_number(number) && is_word(word) && number.span.to == word.span.from {
        Some((number, word))
    } else {
        None
    }
}
