//! What must be chosen for a part of a program to stand.

use sk_base::{List, Span};

/// A test of what is chosen for a site. A site has the number of its place.
#[derive(Debug, Drop, Clone, Copy, PartialEq, Eq)]
pub(crate) enum Test {
    /// The value is this number, as that of a pattern whose string with the number stands.
    Takes { site: usize, number: usize },
    /// The value is above this number, as that of a repeat whose copy with the number stands.
    Exceeds { site: usize, number: usize },
}

/// A function that is called, and what must be chosen for the call to stand.
#[derive(Debug, Drop)]
pub(crate) struct Called {
    pub f: u32,
    pub tests: List<Test>,
}

/// A `minrepeat`, which pays what is chosen for its site, and what must be chosen for it to stand.
#[derive(Debug, Drop)]
pub(crate) struct Owed {
    pub span: Span,
    pub site: usize,
    pub tests: List<Test>,
}
