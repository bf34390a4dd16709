use sk_base::{List, Span};
use sk_prog::{FunId, Prog, Value};

/// A place of a program that is left open: how many values it may have, and the bytes of its
/// construct.
#[derive(Debug, Drop, Clone, Copy, PartialEq, Eq)]
pub struct Site {
    pub size: u64,
    pub span: Span,
}

/// One value for each site.
#[derive(Debug, Drop)]
pub struct Choice {
    pub values: List<u64>,
}

/// A program in which each call of a generator has its own copy, and each repeat its copies. The
/// first `ordinary` functions are those of the text; all later ones are copies of generators.
#[derive(Debug, Drop)]
pub struct Expanded {
    pub prog: Prog,
    pub ordinary: u32,
    pub sites: List<Site>,
}

/// What must hold on every input.
#[derive(Debug, Drop, Clone, Copy, PartialEq, Eq)]
pub enum Obligation {
    /// The function's run does not fail.
    Harness(FunId),
    /// The run of `f` ends as that of `g`.
    Implements { f: FunId, g: FunId },
}

/// An input of the obligation with this number.
#[derive(Debug, Drop)]
pub struct Input {
    pub obligation: u32,
    pub args: List<Value>,
}

/// A choice, and an input that speaks against it.
#[derive(Debug, Drop)]
pub struct Pair {
    pub choice: Choice,
    pub input: Input,
}
