//! Kinds of tokens, appended one at a time.
ghost use Rattle.std.specs.Prelude.{◌≡◌, ◌++◌, [], ◌∷◌, OnOk};
ghost use Rattle.sk_tree.specs.Spell.{word, number, text, sign, keyword};
ghost use Rattle.sk_tree_spell.specs.Separated.{gap};

use crate::copy::copy_kind;
use sk_base::Name;
use sk_tree::{Key, Kind, Mark};
use std::alloc::{AllocError, Global};

/// Appends a mark.
pub fn push_mark(out: &mut Vec<Kind>, mark: Mark) -> Result<(), AllocError>
    ensures { OnOk result (out.new.items ≡ out.old.items ++ sign mark) }
{
    out.push(Kind::Mark(mark))?;
    Ok(())
}

/// Appends a keyword.
pub fn push_key(out: &mut Vec<Kind>, key: Key) -> Result<(), AllocError>
    ensures { OnOk result (out.new.items ≡ out.old.items ++ keyword key) }
{
    out.push(Kind::Key(key))?;
    Ok(())
}

/// Appends a number.
pub fn push_number(out: &mut Vec<Kind>, n: u32) -> Result<(), AllocError>
    ensures { OnOk result (out.new.items ≡ out.old.items ++ number n) }
{
    out.push(Kind::Number(n))?;
    Ok(())
}

/// Appends a word.
pub fn push_word(alloc: Global, out: &mut Vec<Kind>, x: &Name) -> Result<(), AllocError>
    ensures { OnOk result (out.new.items ≡ out.old.items ++ word x.now) }
{
    let name = Name::from_slice(alloc, x.as_bytes())?;
    out.push(Kind::Word(name))?;
    Ok(())
}

/// Appends the bytes between two quotes.
pub fn push_text(alloc: Global, out: &mut Vec<Kind>, bytes: &Name) -> Result<(), AllocError>
    ensures { OnOk result (out.new.items ≡ out.old.items ++ text bytes.now) }
{
    let name = Name::from_slice(alloc, bytes.as_bytes())?;
    out.push(Kind::Text(name))?;
    Ok(())
}

/// Appends what a token is.
pub fn push_copy(alloc: Global, out: &mut Vec<Kind>, kind: &Kind) -> Result<(), AllocError>
    ensures { OnOk result (out.new.items ≡ out.old.items ++ kind.now ∷ []) }
{
    let copy = copy_kind(alloc, kind)?;
    out.push(copy)?;
    Ok(())
}

/// Appends the mark between two things, or nothing before the first.
pub fn push_gap(out: &mut Vec<Kind>, is_first: bool, mark: Mark) -> Result<(), AllocError>
    ensures { OnOk result (out.new.items ≡ out.old.items ++ gap is_first (sign mark)) }
{
    if is_first {
        Ok(())
    } else {
        push_mark(out, mark)?;
        Ok(())
    }
}
