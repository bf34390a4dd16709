//! From a text to its tokens, its tree and its program.
use crate::fault::Fault;
use sk_base::{Bounds, List};
use sk_lexer::tokens;
use sk_parser::parse;
use sk_prog::Prog;
use sk_tree::{Token, Tree};
use sk_types::check;
use std::alloc::Global;

/// The longest text that is divided into tokens, in bytes.
const LONGEST: usize = 1_048_576;

/// The tokens of a text.
pub fn tokens_of(alloc: Global, text: &[u8]) -> Result<List<Token>, Fault> {
    if text.len() > LONGEST {
        return Err(Fault::TooLong);
    }
    let found = tokens(alloc, text)?;
    Ok(found)
}

/// The tree as which a text reads.
pub fn tree_of(alloc: Global, text: &[u8]) -> Result<Tree, Fault> {
    let found = tokens_of(alloc, text)?;
    let tree = parse(alloc, found.as_slice())?;
    Ok(tree)
}

/// The program that a tree means. The width of `int` is from 2 to 32.
pub fn meant(alloc: Global, tree: &Tree, bounds: &Bounds) -> Result<Prog, Fault> {
    if bounds.int_bits < 2 || bounds.int_bits > 32 {
        return Err(Fault::Words);
    }
    let prog = check(alloc, tree, bounds)?;
    Ok(prog)
}

/// The program that a text means.
pub fn program_of(alloc: Global, text: &[u8], bounds: &Bounds) -> Result<Prog, Fault> {
    let tree = tree_of(alloc, text)?;
    meant(alloc, &tree, bounds)
}
