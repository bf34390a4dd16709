//! Lists that are not told to their end.
ghost use Rattle.std.specs.Prelude.{◌≡◌, ◌++◌, take, OnOk};
ghost use Rattle.sk_explain_answers.specs.More.{more_text, most_told, rest_text};

use sk_explain_notes::Note;
use std::alloc::AllocError;

/// So many items of a list are told at most.
const MOST_TOLD: usize = 20;

/// The items of a list that are told.
pub fn first_told<T>(items: &[T]) -> &[T]
    ensures { result.now ≡ take most_told items.now }
{
    if items.len() > MOST_TOLD {
        &items[..MOST_TOLD]
    } else {
        items
    }
}

/// Appends how many items of so many are not told, where there are some.
pub fn push_rest(note: &mut Note, count: usize) -> Result<(), AllocError>
    ensures { OnOk result (note.new.bytes.items ≡ note.old.bytes.items ++ rest_text count) }
{
    if count <= MOST_TOLD {
        return Ok(());
    }
    note.word(b" and ")?;
    note.number((count - MOST_TOLD) as u64)?;
    note.word(b" more")?;
    Ok(())
}

/// Appends a line of it.
pub fn push_more(note: &mut Note, count: usize) -> Result<(), AllocError>
    ensures { OnOk result (note.new.bytes.items ≡ note.old.bytes.items ++ more_text count) }
{
    if count <= MOST_TOLD {
        return Ok(());
    }
    note.word(b"and ")?;
    note.number((count - MOST_TOLD) as u64)?;
    note.word(b" more")?;
    note.end()?;
    Ok(())
}
