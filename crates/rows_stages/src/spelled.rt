//! Kinds of tokens, as they are written.
use sk_base::push_number;
use sk_tree::{Key, Kind, Mark};
use std::alloc::AllocError;

/// The bytes of a mark.
pub fn mark_bytes(mark: Mark) -> &'static [u8] {
    match mark {
        Mark::OpenPattern => b"{|",
        Mark::ClosePattern => b"|}",
        Mark::Hole => b"??",
        Mark::DoubleColon => b"::",
        Mark::Equal => b"==",
        Mark::NotEqual => b"!=",
        Mark::AtMost => b"<=",
        Mark::AtLeast => b">=",
        Mark::ShiftLeft => b"<<",
        Mark::ShiftRight => b">>",
        Mark::AndThen => b"&&",
        Mark::OrElse => b"||",
        Mark::Increment => b"++",
        Mark::Decrement => b"--",
        Mark::AddAssign => b"+=",
        Mark::SubAssign => b"-=",
        Mark::Plus => b"+",
        Mark::Minus => b"-",
        Mark::Star => b"*",
        Mark::Slash => b"/",
        Mark::Percent => b"%",
        Mark::Tilde => b"~",
        Mark::Bang => b"!",
        Mark::Ampersand => b"&",
        Mark::Bar => b"|",
        Mark::Caret => b"^",
        Mark::Less => b"<",
        Mark::Greater => b">",
        Mark::Assign => b"=",
        Mark::OpenParen => b"(",
        Mark::CloseParen => b")",
        Mark::OpenBrace => b"{",
        Mark::CloseBrace => b"}",
        Mark::OpenBracket => b"[",
        Mark::CloseBracket => b"]",
        Mark::Comma => b",",
        Mark::Semicolon => b";",
        Mark::Dot => b".",
        Mark::Question => b"?",
        Mark::Colon => b":",
    }
}

fn key_bytes(key: Key) -> &'static [u8] {
    match key {
        Key::Adt => b"adt",
        Key::Assert => b"assert",
        Key::Assume => b"assume",
        Key::Bit => b"bit",
        Key::Case => b"case",
        Key::Else => b"else",
        Key::False => b"false",
        Key::For => b"for",
        Key::Generator => b"generator",
        Key::Harness => b"harness",
        Key::If => b"if",
        Key::Implements => b"implements",
        Key::Int => b"int",
        Key::Minimize => b"minimize",
        Key::Minrepeat => b"minrepeat",
        Key::New => b"new",
        Key::Null => b"null",
        Key::Pragma => b"pragma",
        Key::Ref => b"ref",
        Key::Reorder => b"reorder",
        Key::Repeat => b"repeat",
        Key::Return => b"return",
        Key::Struct => b"struct",
        Key::Switch => b"switch",
        Key::True => b"true",
        Key::Void => b"void",
        Key::While => b"while",
    }
}

/// Appends a kind. A text stands without its quotes.
pub fn push_kind(shown: &mut Vec<u8>, kind: &Kind) -> Result<(), AllocError> {
    match kind {
        Kind::Word(word) => shown.extend_from_slice(word.as_bytes()),
        Kind::Number(number) => push_number(shown, u64::from(*number)),
        Kind::Text(text) => shown.extend_from_slice(text.as_bytes()),
        Kind::Key(key) => shown.extend_from_slice(key_bytes(*key)),
        Kind::Mark(mark) => shown.extend_from_slice(mark_bytes(*mark)),
    }
}
