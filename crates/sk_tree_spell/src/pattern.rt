//! The kinds that a pattern is spelt by.
ghost use Rattle.std.specs.Prelude.{◌≡◌, ◌++◌, map, OnOk};
ghost use Rattle.sk_tree.specs.declared.token.Mark.TheVariants as mark;
ghost use Rattle.sk_tree.specs.Spell.{sign, each, between, spell_pattern};

use crate::push::{push_copy, push_gap, push_mark};
use sk_tree::{Kind, Mark, Pattern};
use std::alloc::{AllocError, Global};

/// Appends the kinds of a pattern.
#[cycle(pattern_kinds)]
pub fn push_pattern(alloc: Global, out: &mut Vec<Kind>, p: &Pattern) -> Result<(), AllocError>
    ensures { OnOk result (out.new.items ≡ out.old.items ++ spell_pattern p.now) }
{
    match p {
        Pattern::Choice(parts) => {
            push_choices(alloc, out, parts.as_slice())?;
            Ok(())
        }
        Pattern::Seq(parts) => {
            push_parts(alloc, out, parts.as_slice())?;
            Ok(())
        }
        Pattern::Maybe(part) => {
            push_pattern(alloc, out, part.get())?;
            push_mark(out, Mark::Question)?;
            Ok(())
        }
        Pattern::Group(part) => {
            push_mark(out, Mark::OpenParen)?;
            push_pattern(alloc, out, part.get())?;
            push_mark(out, Mark::CloseParen)?;
            Ok(())
        }
        Pattern::One(token) => {
            push_copy(alloc, out, &token.kind)?;
            Ok(())
        }
    }
}

/// Appends the kinds of sequences, with a bar between two.
#[cycle(pattern_kinds)]
fn push_choices(alloc: Global, out: &mut Vec<Kind>, parts: &[Pattern]) -> Result<(), AllocError>
    ensures { OnOk result (out.new.items ≡ out.old.items ++ between (sign mark.Bar) (map spell_pattern parts.now)) }
{
    let mut is_first = true;
    for part in parts {
        push_gap(out, is_first, Mark::Bar)?;
        push_pattern(alloc, out, part)?;
        is_first = false;
    }
    Ok(())
}

/// Appends the kinds of parts that follow each other.
#[cycle(pattern_kinds)]
fn push_parts(alloc: Global, out: &mut Vec<Kind>, parts: &[Pattern]) -> Result<(), AllocError>
    ensures { OnOk result (out.new.items ≡ out.old.items ++ each (map spell_pattern parts.now)) }
{
    for part in parts {
        push_pattern(alloc, out, part)?;
    }
    Ok(())
}
