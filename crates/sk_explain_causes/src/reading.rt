//! Texts that have no tokens, or read as no tree.
ghost use Rattle.std.specs.Prelude.{◌≡◌, ◌++◌, OnOk};
ghost use Rattle.sk_explain_causes.specs.Titles.{lex_title, byte_at, bad_byte_title};

use crate::lines::{line_of, lowers};
use crate::pieces::{
    bytes_of, closes, is_key, opens, some_tokens, token_from, tokens_before, tokens_read,
};
use crate::strings::{MOST_COUNTED, strings_at};
use sk_explain_forms::{
    push_left_out, push_left_out_byte, push_left_out_string, push_open_pattern,
};
use sk_explain_notes::Told;
use sk_explain_places::place_of;
use sk_front::TextFault;
use sk_lexer::LexFault;
use sk_parser::{ParseFault, parse};
use sk_tree::{Key, Token};
use std::alloc::{AllocError, Global};

// A word that is tried in front of a token that cannot go on, and what it is called.
#[derive(Clone, Copy)]
struct Tried {
    word: &'static [u8],
    called: &'static [u8],
}

const TRIED: [Tried; 9] = [
    Tried {
        word: b";",
        called: b"';'",
    },
    Tried {
        word: b",",
        called: b"','",
    },
    Tried {
        word: b")",
        called: b"')'",
    },
    Tried {
        word: b"]",
        called: b"']'",
    },
    Tried {
        word: b"}",
        called: b"'}'",
    },
    Tried {
        word: b"(",
        called: b"'('",
    },
    Tried {
        word: b"{",
        called: b"'{'",
    },
    Tried {
        word: b"=",
        called: b"'='",
    },
    Tried {
        word: b"0",
        called: b"a value",
    },
];

// A name stands where no value can.
const NAME: Tried = Tried {
    word: b"a",
    called: b"a name",
};

// The most bytes of a text in which that is tried.
const MOST_TRIED: usize = 65_536;

// Parts nest 256 deep with more tokens than these alone.
const FEW_TOKENS: usize = 50;

/// Tells of a fault of the bytes of a text. Want of memory has an ending of its own. After a refusal the notes are as they
/// were (`notes`), and the title is given up: nothing is told.
pub fn tell_lex(told: &mut Told, text: &[u8], fault: &LexFault) -> Result<(), AllocError>
    ensures title { OnOk result (told.new.title.bytes.items ≡ told.old.title.bytes.items ++ lex_title text.now fault.now) }
    ensures notes { told.new.notes ≡ told.old.notes }
{
    match fault {
        LexFault::BadByte { at } => {
            tell_bad_byte(told, byte_at(text, *at as usize))?;
            Ok(())
        }
        LexFault::OpenComment { at: _ } => {
            told.title(&[b"the comment has no end: */ is wanting"])?;
            Ok(())
        }
        LexFault::LiteralTooLarge { at: _ } => {
            told.title(&[b"the number is above 2147483647"])?;
            Ok(())
        }
        LexFault::OpenString { at: _ } => {
            told.title(&[b"the text has no end on its line: \" is wanting"])?;
            Ok(())
        }
        LexFault::Memory => {
            told.title(&[b"out of memory"])?;
            Ok(())
        }
    }
}

// The byte at a place of a text.
fn byte_at(text: &[u8], at: usize) -> Option<u8>
    ensures { result ≡ byte_at text.now at }
{
    if at < text.len() {
        Some(text[at])
    } else {
        None
    }
}

// Tells of a byte that begins no token.
fn tell_bad_byte(told: &mut Told, byte: Option<u8>) -> Result<(), AllocError>
    ensures title { OnOk result (told.new.title.bytes.items ≡ told.old.title.bytes.items ++ bad_byte_title byte) }
    ensures notes { told.new.notes ≡ told.old.notes }
{
    match byte {
        Some(byte) => {
            if 32 <= byte && byte <= 126 {
                told.title(&[b"no token begins with '", &[byte], b"'"])?;
                Ok(())
            } else {
                told.title(&[b"no token begins with the byte "])?;
                told.title.number(u64::from(byte))?;
                Ok(())
            }
        }
        None => {
            told.title(&[b"no token begins here"])?;
            Ok(())
        }
    }
}

// Tells which form begins with a byte that begins no token.
fn push_byte(told: &mut Told, text: &[u8], fault: &LexFault) -> Result<(), AllocError> {
    match fault {
        LexFault::BadByte { at } => push_left_out_byte(told, text, *at as usize),
        LexFault::OpenComment { .. } | LexFault::LiteralTooLarge { .. } => Ok(()),
        LexFault::OpenString { .. } | LexFault::Memory => Ok(()),
    }
}

// A text, and whether its plain form is read.
#[derive(Clone, Copy)]
struct Reads<'a> {
    text: &'a [u8],
    lowers: bool,
}

// Whether a text with words put in at a byte reads on past what stood there.
fn reads_on(alloc: Global, reads: Reads<'_>, at: usize, word: &[u8]) -> Result<bool, AllocError> {
    let Some((front, rest)) = reads.text.split_at_checked(at) else {
        return Ok(false);
    };
    let mut tried = Vec::from_slice(alloc, front)?;
    tried.extend_from_slice(b" ")?;
    tried.extend_from_slice(word)?;
    tried.extend_from_slice(b" ")?;
    let behind = tried.len();
    tried.extend_from_slice(rest)?;
    let Some(tokens) = tokens_read(alloc, tried.as_slice(), reads.lowers)? else {
        return Ok(false);
    };
    match parse(alloc, tokens.as_slice()) {
        Ok(_) => Ok(true),
        Err(ParseFault::NoReading { at }) => Ok(at as usize > behind),
        Err(ParseFault::BadAlternative { at: _ } | ParseFault::TooManyStrings { at: _ }) => Ok(
            true,
        ),
        Err(ParseFault::Memory) => Err(AllocError),
    }
}

// What of the tried words lets the text read on.
fn helpful(alloc: Global, reads: Reads<'_>, at: usize) -> Result<Vec<&'static [u8]>, AllocError> {
    let mut found = Vec::new(alloc);
    if reads.text.len() > MOST_TRIED {
        return Ok(found);
    }
    for tried in TRIED {
        if reads_on(alloc, reads, at, tried.word)? {
            found.push(tried.called)?;
        }
    }
    if found.is_empty() && reads_on(alloc, reads, at, NAME.word)? {
        found.push(NAME.called)?;
    }
    Ok(found)
}

// Tells which words would let the text read on.
fn push_helpful(told: &mut Told, found: &[&'static [u8]], is_end: bool) -> Result<(), AllocError> {
    let Some((first, others)) = found.split_first() else {
        return Ok(());
    };
    told.notes.say(&[b"with ", *first])?;
    for other in others {
        told.notes.say(&[b" or ", *other])?;
    }
    if is_end {
        told.note(&[b" at the end the text reads"])
    } else {
        told.note(&[b" in front of it the text reads on"])
    }
}

// The last mark that opens something and is not closed.
fn last_open(tokens: &[Token]) -> Option<&Token> {
    let mut closed = 0usize;
    for token in tokens.iter().rev() {
        if closes(token) {
            closed = closed.saturating_add(1);
        } else if opens(token) {
            if closed == 0 {
                return Some(token);
            }
            closed = closed.saturating_sub(1);
        }
    }
    None
}

// Tells what is open where the text ends.
fn push_open(told: &mut Told, text: &[u8], tokens: &[Token]) -> Result<(), AllocError> {
    let Some(token) = last_open(tokens) else {
        return Ok(());
    };
    let from = token.span.from as usize;
    if from > text.len() {
        return Ok(());
    }
    told.notes
        .say(&[b"'", bytes_of(text, token.span), b"' at "])?;
    told.notes.place(place_of(text, from))?;
    told.note(&[b" is not closed"])
}

// The title of a place where nothing reads.
fn push_no_reading(told: &mut Told, text: &[u8], token: Option<&Token>) -> Result<(), AllocError> {
    match token {
        Some(token) => told.title(&[b"'", bytes_of(text, token.span), b"' cannot stand here"]),
        None => told.title(&[b"the text ends too early"]),
    }
}

// Names the other cause that there can be where no word in front of the place helps.
fn push_depth(told: &mut Told, tokens: &[Token], at: u32) -> Result<(), AllocError> {
    if tokens_before(tokens, at) > FEW_TOKENS {
        told.title(&[b", or parts nest deeper than 256"])
    } else {
        Ok(())
    }
}

// Whether a token is a word of algebraic types.
fn is_algebraic(token: Option<&Token>) -> bool {
    match token {
        Some(token) => {
            is_key(token, Key::Adt) || is_key(token, Key::Switch) || is_key(token, Key::Case)
        }
        None => false,
    }
}

fn tell_no_reading(
    alloc: Global,
    told: &mut Told,
    reads: Reads<'_>,
    at: u32,
) -> Result<(), AllocError> {
    let text = reads.text;
    let tokens = some_tokens(alloc, text)?;
    let token = token_from(tokens.as_slice(), at);
    push_no_reading(told, text, token)?;
    if push_open_pattern(told, text, tokens.as_slice())? {
        return Ok(());
    }
    if push_left_out(alloc, told, text, tokens.as_slice(), at)? {
        return Ok(());
    }
    if is_algebraic(token) && !reads.lowers {
        return told.note(&[b"sketch lower makes a plain sketch of a text with algebraic types"]);
    }
    let found = helpful(alloc, reads, at as usize)?;
    if found.is_empty() {
        push_depth(told, tokens.as_slice(), at)?;
    }
    push_helpful(told, found.as_slice(), token.is_none())?;
    match token {
        Some(_) => Ok(()),
        None => push_open(told, text, tokens.as_slice()),
    }
}

// Appends how many strings a pattern has.
fn push_strings(told: &mut Told, count: Option<u64>) -> Result<(), AllocError> {
    match count {
        Some(MOST_COUNTED) => {
            told.title(&[b"more than "])?;
            told.title.number(MOST_COUNTED - 1)
        }
        Some(count) => told.title.number(count),
        None => told.title(&[b"too many"]),
    }
}

// Tells how many strings a pattern has that has too many.
fn tell_strings(alloc: Global, told: &mut Told, text: &[u8], at: u32) -> Result<(), AllocError> {
    let tokens = some_tokens(alloc, text)?;
    let count = strings_at(alloc, tokens.as_slice(), at)?;
    told.title(&[b"the pattern has "])?;
    push_strings(told, count)?;
    told.title(&[b" strings, and 128 is the most"])?;
    told.note(&[
        b"a sequence has the product of the numbers of its parts, a choice the sum, a part with ? one more",
    ])
}

// Tells of a pattern with a string that reads as no expression.
fn tell_string(alloc: Global, told: &mut Told, text: &[u8], at: u32) -> Result<(), AllocError> {
    let tokens = some_tokens(alloc, text)?;
    told.title(&[b"a string of the pattern reads as no expression"])?;
    told.note(&[b"a string has no call, no new, no ??(n), no ?: and no parentheses"])?;
    push_left_out_string(told, text, tokens.as_slice(), at)
}

// Tells why the tokens of a text read as no tree. Want of memory has an ending of its own.
fn tell_parse(
    alloc: Global,
    told: &mut Told,
    reads: Reads<'_>,
    fault: &ParseFault,
) -> Result<(), AllocError> {
    match fault {
        ParseFault::NoReading { at } => tell_no_reading(alloc, told, reads, *at),
        ParseFault::BadAlternative { at } => tell_string(alloc, told, reads.text, *at),
        ParseFault::TooManyStrings { at } => tell_strings(alloc, told, reads.text, *at),
        ParseFault::Memory => told.title(&[b"out of memory"]),
    }
}

/// Tells what is wrong with a text, for a line with these words. After a refusal title and notes are given up: nothing is
/// told.
pub fn tell_text(
    alloc: Global,
    told: &mut Told,
    words: &[String],
    text: &[u8],
    fault: &TextFault,
) -> Result<(), AllocError> {
    match fault {
        TextFault::Lex(fault) => {
            tell_lex(told, text, fault)?;
            push_byte(told, text, fault)
        }
        TextFault::Parse(fault) => {
            let line = line_of(alloc, words)?;
            let lowers = lowers(&line);
            tell_parse(alloc, told, Reads { text, lowers }, fault)
        }
    }
}
