//! A place among the tokens of a text.
use crate::seen::{Seen, is_spelt, spelling};
use sk_tree::Token;

/// The tokens of a text before a place and those from it on.
#[derive(Clone, Copy)]
pub struct Cut<'a> {
    pub text: &'a [u8],
    pub before: &'a [Token],
    pub from: &'a [Token],
}

/// The place in front of the first token that begins at a byte, or behind it.
pub fn cut_at<'a>(text: &'a [u8], tokens: &'a [Token], byte: u32) -> Cut<'a> {
    for (at, token) in tokens.iter().enumerate() {
        if byte <= token.span.from {
            return Cut {
                text,
                before: &tokens[..at],
                from: &tokens[at..],
            };
        }
    }
    Cut {
        text,
        before: tokens,
        from: &[],
    }
}

// Whether the first of some tokens are as they are asked to be.
fn begin_so(text: &[u8], tokens: &[Token], asked: &[Seen]) -> bool {
    let mut rest = tokens;
    for seen in asked {
        let Some((first, behind)) = rest.split_first() else {
            return false;
        };
        if !seen.fits(text, first) {
            return false;
        }
        rest = behind;
    }
    true
}

// Whether the last of some tokens are as they are asked to be.
fn end_so(text: &[u8], tokens: &[Token], asked: &[Seen]) -> bool {
    if asked.len() > tokens.len() {
        return false;
    }
    begin_so(text, &tokens[tokens.len() - asked.len()..], asked)
}

impl<'a> Cut<'a> {
    /// Whether the tokens before the place end so, and those from it on begin so.
    pub fn is_between(self, before: &[Seen], from: &[Seen]) -> bool {
        end_so(self.text, self.before, before) && begin_so(self.text, self.from, from)
    }

    /// The token at the place.
    pub fn here(self) -> Option<&'a Token> {
        self.from.first()
    }

    /// The last token before the place.
    pub fn last(self) -> Option<&'a Token> {
        self.before.last()
    }

    /// The place one token earlier.
    pub fn earlier(self) -> Cut<'a> {
        let count = self.before.len();
        if count == 0 {
            return self;
        }
        Cut {
            text: self.text,
            before: &self.before[..count - 1],
            from: self.from,
        }
    }

    /// Whether the token at the place is spelt so.
    pub fn begins(self, word: &[u8]) -> bool {
        match self.here() {
            Some(token) => is_spelt(self.text, token, word),
            None => false,
        }
    }

    /// Whether the last token before the place is spelt so.
    pub fn ends(self, word: &[u8]) -> bool {
        match self.last() {
            Some(token) => is_spelt(self.text, token, word),
            None => false,
        }
    }

    /// The bytes of the token at the place; none where it is the end.
    pub fn here_spelt(self) -> &'a [u8] {
        match self.here() {
            Some(token) => spelling(self.text, token),
            None => b"",
        }
    }

    /// The bytes of the last token before the place; none where there is none.
    pub fn last_spelt(self) -> &'a [u8] {
        match self.last() {
            Some(token) => spelling(self.text, token),
            None => b"",
        }
    }
}
