//! Searches that ended: what was asked, and what of the pragmas was passed over.
ghost use Rattle.std.specs.Prelude.{◌≡◌, ◌++◌, OnOk};
ghost use Rattle.sk_explain_notes.specs.Notes.{one_line};
ghost use Rattle.sk_explain_causes.specs.Titles.{none_title, none_notes, spent_title, known_notes, spent_notes};

use crate::phrases::{push_note, tell_three};
use crate::pieces::{has_key, is_key, some_tokens};
use crate::results::push_unreturned;
use sk_explain_forms::push_chosen;
use sk_explain_names::{push_dropped, push_unasked};
use sk_explain_notes::{CHOICES, Choice, Range, Told, nearest};
use sk_explain_places::place_of;
use sk_tree::{Key, Kind, Token};
use std::alloc::{AllocError, Global};

// What was seen of the text of a pragma: the option whose number comes next.
type Waiting = Option<(Choice, Range)>;

// The option of a pragma that a word is.
fn choice_of(word: &[u8]) -> Waiting {
    match Choice::of(word) {
        Some(choice) if choice.is_of_pragmas() => match choice.range() {
            Some(range) => Some((choice, range)),
            None => None,
        },
        _ => None,
    }
}

// Begins the line of a word that is passed over.
fn begin(told: &mut Told, text: &[u8], at: usize) -> Result<(), AllocError>
    ensures { told.new.title ≡ told.old.title }
{
    told.notes.say(&[b"warning: the pragma at "])?;
    if at <= text.len() {
        told.notes.place(place_of(text, at))?;
    }
    Ok(())
}

// Tells of an option without a number in its range.
fn push_unset(
    told: &mut Told,
    text: &[u8],
    at: usize,
    unset: (Choice, Range),
) -> Result<(), AllocError>
    ensures { told.new.title ≡ told.old.title }
{
    let (choice, range) = unset;
    begin(told, text, at)?;
    told.notes
        .say(&[b" does not set ", choice.name(), b", which is "])?;
    told.notes.number(range.low)?;
    told.notes.say(&[b" to "])?;
    told.notes.number(range.high)?;
    told.notes.end()
}

// The options of pragmas.
fn names(alloc: Global) -> Result<Vec<&'static [u8]>, AllocError> {
    let mut names = Vec::new(alloc);
    for choice in CHOICES {
        if choice.is_of_pragmas() {
            names.push(choice.name())?;
        }
    }
    Ok(names)
}

// Tells of a word that is passed over.
fn push_passed(
    alloc: Global,
    told: &mut Told,
    text: &[u8],
    at: usize,
    word: &[u8],
) -> Result<(), AllocError>
    ensures { told.new.title ≡ told.old.title }
{
    begin(told, text, at)?;
    told.notes.say(&[b" passes over ", word])?;
    let names = names(alloc)?;
    match nearest(alloc, word, names.as_slice())? {
        Some(near) => told.note(&[b"; is ", near, b" meant?"]),
        None => told.notes.end(),
    }
}

// Goes on by a word of a pragma.
fn see_word(
    alloc: Global,
    told: &mut Told,
    text: &[u8],
    at: usize,
    waiting: Waiting,
    word: &[u8],
) -> Result<Waiting, AllocError>
    ensures { told.new.title ≡ told.old.title }
{
    if let Some((choice, range)) = waiting {
        if range.has(word) {
            return Ok(None);
        }
        push_unset(told, text, at, (choice, range))?;
    }
    let choice = choice_of(word);
    if choice.is_none() && word.starts_with(b"--") {
        push_passed(alloc, told, text, at, word)?;
    }
    Ok(choice)
}

fn is_blank(byte: u8) -> bool {
    byte == b' ' || byte == b'\t' || byte == b'\r' || byte == 12
}

// Goes through the words of a pragma, which stands at a byte.
fn see_options(
    alloc: Global,
    told: &mut Told,
    text: &[u8],
    at: usize,
    options: &[u8],
) -> Result<(), AllocError>
    ensures { told.new.title ≡ told.old.title }
{
    let mut waiting: Waiting = None;
    for word in options.split(|byte| is_blank(*byte)) {
        if !word.is_empty() {
            waiting = see_word(alloc, told, text, at, waiting, word)?;
        }
    }
    match waiting {
        Some(unset) => push_unset(told, text, at, unset),
        None => Ok(()),
    }
}

// Whether a token is the word of pragmas that set bounds.
fn is_options(token: &Token) -> bool {
    match &token.kind {
        Kind::Word(name) => name.is(b"options"),
        Kind::Number(_) | Kind::Text(_) | Kind::Key(_) | Kind::Mark(_) => false,
    }
}

// Tells what the pragmas of a text pass over.
fn push_pragmas(
    alloc: Global,
    told: &mut Told,
    text: &[u8],
    tokens: &[Token],
) -> Result<(), AllocError>
    ensures { told.new.title ≡ told.old.title }
{
    for three in tokens.windows(3) {
        if let [first, second, third] = three {
            if let Kind::Text(options) = &third.kind {
                if is_key(first, Key::Pragma) && is_options(second) {
                    let at = first.span.from as usize;
                    see_options(alloc, told, text, at, options.as_bytes())?;
                }
            }
        }
    }
    Ok(())
}

/// Warns of a text that was run or searched: what its pragmas pass over, and which functions end without a result. After a
/// refusal title and notes are given up: nothing is told.
pub fn push_passed_over(alloc: Global, told: &mut Told, text: &[u8]) -> Result<(), AllocError>
    ensures { told.new.title ≡ told.old.title }
{
    let tokens = some_tokens(alloc, text)?;
    push_pragmas(alloc, told, text, tokens.as_slice())?;
    push_unreturned(alloc, told, tokens.as_slice())
}

/// Warns of a text that a search ended on: that nothing was asked at all or of a function, what it passes over, and which
/// patterns drop strings. After a refusal title and notes are given up: nothing is told.
pub fn push_warnings(alloc: Global, told: &mut Told, text: &[u8]) -> Result<(), AllocError>
    ensures { told.new.title ≡ told.old.title }
{
    let tokens = some_tokens(alloc, text)?;
    let tokens = tokens.as_slice();
    if has_key(tokens, Key::Harness) || has_key(tokens, Key::Implements) {
        push_unasked(alloc, told, text, tokens)?;
    } else {
        told.note(&[b"warning: nothing is asked: the text has no harness and no implements"])?;
    }
    push_passed_over(alloc, told, text)?;
    push_dropped(alloc, told, text, tokens)
}

/// Tells of a text without a completion that has bits which of its patterns has a choice where a bitwise or may be meant. After
/// a refusal title and notes are given up: nothing is told.
pub fn push_choices(alloc: Global, told: &mut Told, text: &[u8]) -> Result<(), AllocError>
    ensures { told.new.title ≡ told.old.title }
{
    let tokens = some_tokens(alloc, text)?;
    push_chosen(told, text, tokens.as_slice())
}

/// Tells that no completion meets what is asked. After a refusal title and notes are given up: nothing is told.
pub fn tell_none(told: &mut Told) -> Result<(), AllocError>
    ensures title { OnOk result (told.new.title.bytes.items ≡ told.old.title.bytes.items ++ none_title) }
    ensures notes { OnOk result (told.new.notes.bytes.items ≡ told.old.notes.bytes.items ++ none_notes) }
{
    tell_three(
        told,
        b"no values of the open parts meet all that is asked on every input",
        b"a passed bound is a failed run: --bnd-unroll-amnt and --bnd-inline-amnt are part of what is asked",
        b"--bnd-cbits is the width of a hole, --bnd-inbits that of an input",
        b"sketch why writes inputs that no values pass together, none of which can be left out",
    )
}

// What there is to know where a budget is spent.
fn spent_phrase(is_known: bool) -> &'static [u8]
    ensures { one_line result.now ≡ known_notes is_known }
{
    if is_known {
        b"what is written meets all that is asked, and may not be of least value"
    } else {
        b"no completion is known, and there may be one"
    }
}

/// Tells that a budget is spent, with so many inputs that broke a choice each. After a refusal title and notes are given up:
/// nothing is told.
pub fn tell_spent(
    told: &mut Told,
    option: &[u8],
    count: usize,
    is_known: bool,
) -> Result<(), AllocError>
    ensures title { OnOk result (told.new.title.bytes.items ≡ told.old.title.bytes.items ++ spent_title option.now) }
    ensures notes { OnOk result (told.new.notes.bytes.items ≡ told.old.notes.bytes.items ++ spent_notes count is_known) }
{
    told.title(&[b"the budget of ", option, b" is spent"])?;
    push_note(told, spent_phrase(is_known))?;
    told.notes.say(&[b"inputs that broke a choice: "])?;
    told.notes.number(count as u64)?;
    told.notes
        .line(&[b"; with a larger number the search goes on"])?;
    Ok(())
}
