//! Which bytes are keywords and marks.
ghost use Rattle.std.specs.Prelude.{◌≡◌, ◌&&◌, ◌==◌};
ghost use Rattle.sk_tree.specs.Spelling.{key_bytes, key_among, key_of, single_mark, double_mark};

use sk_tree::{Key, Mark};

const KEYS: [Key; 27] = [
    Key::Adt,
    Key::Assert,
    Key::Assume,
    Key::Bit,
    Key::Case,
    Key::Else,
    Key::False,
    Key::For,
    Key::Generator,
    Key::Harness,
    Key::If,
    Key::Implements,
    Key::Int,
    Key::Minimize,
    Key::Minrepeat,
    Key::New,
    Key::Null,
    Key::Pragma,
    Key::Ref,
    Key::Reorder,
    Key::Repeat,
    Key::Return,
    Key::Struct,
    Key::Switch,
    Key::True,
    Key::Void,
    Key::While,
];

fn key_bytes(key: Key) -> &'static [u8]
    ensures { result.now ≡ key_bytes key }
{
    match key {
        Key::Adt => b"adt",
        Key::Assert => b"assert",
        Key::Assume => b"assume",
        Key::Bit => b"bit",
        Key::Case => b"case",
        Key::Else => b"else",
        Key::False => b"false",
        Key::For => b"for",
        Key::Generator => b"generator",
        Key::Harness => b"harness",
        Key::If => b"if",
        Key::Implements => b"implements",
        Key::Int => b"int",
        Key::Minimize => b"minimize",
        Key::Minrepeat => b"minrepeat",
        Key::New => b"new",
        Key::Null => b"null",
        Key::Pragma => b"pragma",
        Key::Ref => b"ref",
        Key::Reorder => b"reorder",
        Key::Repeat => b"repeat",
        Key::Return => b"return",
        Key::Struct => b"struct",
        Key::Switch => b"switch",
        Key::True => b"true",
        Key::Void => b"void",
        Key::While => b"while",
    }
}

fn key_among(keys: &[Key], bytes: &[u8]) -> Option<Key>
    ensures { result ≡ key_among keys.now bytes.now }
{
    let mut rest = keys;
    while let [key, others @ ..] = rest {
        if bytes == key_bytes(*key) {
            return Some(*key);
        }
        rest = others;
    }
    None
}

/// The keyword that is spelt so.
#[tactic(auto, unfolding(sk_tree::specs::Spelling::key_of))]
pub fn key_of(bytes: &[u8]) -> Option<Key>
    ensures { result ≡ key_of bytes.now }
{
    key_among(&KEYS, bytes)
}

/// The mark that is this byte.
#[tactic(auto, unfolding(sk_tree::specs::Spelling::single_mark))]
pub fn single_mark(b: u8) -> Option<Mark>
    ensures { result ≡ single_mark b }
{
    match b {
        b'+' => Some(Mark::Plus),
        b'-' => Some(Mark::Minus),
        b'*' => Some(Mark::Star),
        b'/' => Some(Mark::Slash),
        b'%' => Some(Mark::Percent),
        b'~' => Some(Mark::Tilde),
        b'!' => Some(Mark::Bang),
        b'&' => Some(Mark::Ampersand),
        b'|' => Some(Mark::Bar),
        b'^' => Some(Mark::Caret),
        b'<' => Some(Mark::Less),
        b'>' => Some(Mark::Greater),
        b'=' => Some(Mark::Assign),
        b'(' => Some(Mark::OpenParen),
        b')' => Some(Mark::CloseParen),
        b'{' => Some(Mark::OpenBrace),
        b'}' => Some(Mark::CloseBrace),
        b'[' => Some(Mark::OpenBracket),
        b']' => Some(Mark::CloseBracket),
        b',' => Some(Mark::Comma),
        b';' => Some(Mark::Semicolon),
        b'.' => Some(Mark::Dot),
        b'?' => Some(Mark::Question),
        b':' => Some(Mark::Colon),
        _ => None,
    }
}

// Whether two bytes are these two.
fn are(b: u8, c: u8, first: u8, second: u8) -> bool
    ensures { result ≡ (b == first && c == second) }
{
    b == first && c == second
}

/// The mark that is these two bytes.
#[tactic(auto, unfolding(sk_tree::specs::Spelling::double_mark))]
pub fn double_mark(b: u8, c: u8) -> Option<Mark>
    ensures { result ≡ double_mark b c }
{
    if are(b, c, b'{', b'|') {
        Some(Mark::OpenPattern)
    } else if are(b, c, b'|', b'}') {
        Some(Mark::ClosePattern)
    } else if are(b, c, b'?', b'?') {
        Some(Mark::Hole)
    } else if are(b, c, b':', b':') {
        Some(Mark::DoubleColon)
    } else if are(b, c, b'=', b'=') {
        Some(Mark::Equal)
    } else if are(b, c, b'!', b'=') {
        Some(Mark::NotEqual)
    } else if are(b, c, b'<', b'=') {
        Some(Mark::AtMost)
    } else if are(b, c, b'>', b'=') {
        Some(Mark::AtLeast)
    } else if are(b, c, b'<', b'<') {
        Some(Mark::ShiftLeft)
    } else if are(b, c, b'>', b'>') {
        Some(Mark::ShiftRight)
    } else if are(b, c, b'&', b'&') {
        Some(Mark::AndThen)
    } else if are(b, c, b'|', b'|') {
        Some(Mark::OrElse)
    } else if are(b, c, b'+', b'+') {
        Some(Mark::Increment)
    } else if are(b, c, b'-', b'-') {
        Some(Mark::Decrement)
    } else if are(b, c, b'+', b'=') {
        Some(Mark::AddAssign)
    } else if are(b, c, b'-', b'=') {
        Some(Mark::SubAssign)
    } else {
        None
    }
}
