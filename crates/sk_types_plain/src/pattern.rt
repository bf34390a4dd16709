//! Copies of patterns. Want of memory is the only error.
ghost use Rattle.std.specs.Prelude.{◌≡◌, IfOk};

use sk_base::{Boxed, List};
use sk_tree::Pattern;
use sk_tree_spell::copy_token;
use std::alloc::{AllocError, Global};

#[cycle(pattern)]
fn copy_boxed_pattern(alloc: Global, pattern: &Pattern) -> Result<Boxed<Pattern>, AllocError>
    ensures { IfOk result (λ copy. copy ≡ pattern.now) }
{
    let copy = copy_pattern(alloc, pattern)?;
    let copy = Boxed::new(alloc, copy)?;
    Ok(copy)
}

#[cycle(pattern)]
fn copy_patterns(alloc: Global, patterns: &[Pattern]) -> Result<List<Pattern>, AllocError>
    ensures { IfOk result (λ copy. copy ≡ patterns.now) }
{
    let mut copies = List::new(alloc);
    for pattern in patterns {
        let copy = copy_pattern(alloc, pattern)?;
        copies.push(copy)?;
    }
    Ok(copies)
}

/// A copy of a pattern.
#[cycle(pattern)]
pub fn copy_pattern(alloc: Global, pattern: &Pattern) -> Result<Pattern, AllocError>
    ensures { IfOk result (λ copy. copy ≡ pattern.now) }
{
    match pattern {
        Pattern::Choice(parts) => {
            let parts = copy_patterns(alloc, parts.as_slice())?;
            Ok(Pattern::Choice(parts))
        }
        Pattern::Seq(parts) => {
            let parts = copy_patterns(alloc, parts.as_slice())?;
            Ok(Pattern::Seq(parts))
        }
        Pattern::Maybe(part) => {
            let part = copy_boxed_pattern(alloc, part.get())?;
            Ok(Pattern::Maybe(part))
        }
        Pattern::Group(part) => {
            let part = copy_boxed_pattern(alloc, part.get())?;
            Ok(Pattern::Group(part))
        }
        Pattern::One(token) => {
            let token = copy_token(alloc, token)?;
            Ok(Pattern::One(token))
        }
    }
}
