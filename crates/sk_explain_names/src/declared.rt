//! The names that a text declares, each with its block.
use crate::blocks::Blocks;
use crate::pieces::{ends_type, is_mark, is_word};
use sk_base::Span;
use sk_tree::{Mark, Token};
use std::alloc::{AllocError, Global};

/// A name that a text declares.
#[derive(Drop, Clone, Copy)]
pub struct Declared {
    /// The number of its token.
    pub at: usize,
    pub name: Span,
    pub block: usize,
}

// A declaration of several names: how many marks are open in it.
type Listing = Option<usize>;

// A walk over the tokens of a text.
#[derive(Drop)]
struct Walk {
    blocks: Blocks,
    listing: Listing,
    found: Vec<Declared>,
}

// Whether a declaration of variables goes on behind a name with such a token.
fn goes_on(next: Option<&Token>) -> bool {
    match next {
        Some(next) => is_mark(next, Mark::Comma) || is_mark(next, Mark::Assign),
        None => false,
    }
}

impl Walk {
    // Whether a name that stands behind such a token is declared.
    fn is_declared(&self, before: Option<&Token>) -> bool {
        match before {
            Some(before) if is_mark(before, Mark::Comma) => self.listing
                == Some(self.blocks.depth()),
            Some(before) => ends_type(before),
            None => false,
        }
    }

    // Goes on behind a name that is declared.
    fn declare(
        &mut self,
        at: usize,
        token: &Token,
        next: Option<&Token>,
    ) -> Result<(), AllocError> {
        if goes_on(next) && !self.blocks.is_heading() {
            self.listing = Some(self.blocks.depth());
        }
        self.found.push(Declared {
            at,
            name: token.span,
            block: self.blocks.now(),
        })?;
        Ok(())
    }

    // Goes on behind a token.
    fn see(
        &mut self,
        at: usize,
        before: Option<&Token>,
        token: &Token,
        next: Option<&Token>,
    ) -> Result<(), AllocError> {
        if is_word(token) && self.is_declared(before) {
            self.declare(at, token, next)?;
        }
        if is_mark(token, Mark::Semicolon) {
            self.listing = None;
        }
        self.blocks.see(before, token)
    }
}

/// The names that a text declares, in its order.
pub fn declarations(alloc: Global, tokens: &[Token]) -> Result<Vec<Declared>, AllocError> {
    let mut walk = Walk {
        blocks: Blocks::new(alloc),
        listing: None,
        found: Vec::new(alloc),
    };
    let mut before = None;
    for (at, token) in tokens.iter().enumerate() {
        walk.see(at, before, token, tokens.get(at + 1))?;
        before = Some(token);
    }
    Ok(walk.found)
}
