//! The blocks of a text: the top, the fields of a struct, the parameters and the body of a function, and blocks inside.
use crate::pieces::{is_key, is_mark};
use sk_tree::{Key, Mark, Token};
use std::alloc::{AllocError, Global};

/// The block of the top.
pub const TOP: usize = 0;

/// Where a walk over the tokens of a text is.
#[derive(Drop)]
pub struct Blocks {
    // The block in each mark that is open.
    open: Vec<usize>,
    // How many blocks there are.
    count: usize,
    // The block of the function whose body comes next.
    body: Option<usize>,
}

fn opens(token: &Token) -> bool {
    is_mark(token, Mark::OpenParen)
        || is_mark(token, Mark::OpenBrace)
        || is_mark(token, Mark::OpenBracket)
        || is_mark(token, Mark::OpenPattern)
}

fn closes(token: &Token) -> bool {
    is_mark(token, Mark::CloseParen)
        || is_mark(token, Mark::CloseBrace)
        || is_mark(token, Mark::CloseBracket)
        || is_mark(token, Mark::ClosePattern)
}

impl Blocks {
    /// In front of a text.
    pub fn new(alloc: Global) -> Blocks {
        Blocks {
            open: Vec::new(alloc),
            count: 1,
            body: None,
        }
    }

    /// The block of the place.
    pub fn now(&self) -> usize {
        match self.open.as_slice().last() {
            Some(block) => *block,
            None => TOP,
        }
    }

    /// Whether the place is in front of the body of a function, behind the `(` of its parameters.
    pub fn is_heading(&self) -> bool {
        self.body.is_some()
    }

    // Whether the place is at the top.
    fn is_top(&self) -> bool {
        self.open.is_empty()
    }

    /// How many marks are open.
    pub fn depth(&self) -> usize {
        self.open.len()
    }

    fn fresh(&mut self) -> usize {
        let block = self.count;
        self.count = self.count.saturating_add(1);
        block
    }

    // The block in a mark that opens behind a token.
    fn opened(&mut self, before: Option<&Token>, token: &Token) -> usize {
        if is_mark(token, Mark::OpenBrace) {
            return match self.body {
                Some(block) if self.is_top() => {
                    self.body = None;
                    block
                }
                _ => self.fresh(),
            };
        }
        let is_for = match before {
            Some(before) => is_key(before, Key::For),
            None => false,
        };
        if is_for {
            return self.fresh();
        }
        if self.is_top() && is_mark(token, Mark::OpenParen) {
            let block = self.fresh();
            self.body = Some(block);
            return block;
        }
        self.now()
    }

    /// Goes on behind a token, which stands behind another one.
    pub fn see(&mut self, before: Option<&Token>, token: &Token) -> Result<(), AllocError> {
        if opens(token) {
            let block = self.opened(before, token);
            self.open.push(block)?;
        } else if closes(token) {
            let _ = self.open.pop();
        }
        Ok(())
    }
}
