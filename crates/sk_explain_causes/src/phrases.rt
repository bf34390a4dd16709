//! A title and the lines behind it, a phrase each.
ghost use Rattle.std.specs.Prelude.{◌≡◌, ◌++◌, OnOk};
ghost use Rattle.sk_explain_notes.specs.Notes.{one, one_line};

use sk_explain_notes::Told;
use std::alloc::AllocError;

/// Appends a phrase to the title. After a refusal the notes are as they were (`notes`), and the title is given up: nothing is
/// told.
pub fn push_title(told: &mut Told, phrase: &[u8]) -> Result<(), AllocError>
    ensures title { OnOk result (told.new.title.bytes.items ≡ told.old.title.bytes.items ++ one phrase.now) }
    ensures notes { told.new.notes ≡ told.old.notes }
{
    told.title(&[phrase])?;
    Ok(())
}

/// Appends a line of one phrase. After a refusal the title is as it was (`title`), and the notes are given up: nothing is
/// told.
pub fn push_note(told: &mut Told, phrase: &[u8]) -> Result<(), AllocError>
    ensures notes { OnOk result (told.new.notes.bytes.items ≡ told.old.notes.bytes.items ++ one_line phrase.now) }
    ensures title { told.new.title ≡ told.old.title }
{
    told.note(&[phrase])?;
    Ok(())
}

/// Appends to the title, and a line. After a refusal title and notes are given up: nothing is told.
pub fn tell_one(told: &mut Told, title: &[u8], note: &[u8]) -> Result<(), AllocError>
    ensures title { OnOk result (told.new.title.bytes.items ≡ told.old.title.bytes.items ++ one title.now) }
    ensures notes { OnOk result (told.new.notes.bytes.items ≡ told.old.notes.bytes.items ++ one_line note.now) }
{
    push_title(told, title)?;
    push_note(told, note)?;
    Ok(())
}

/// Appends to the title, and two lines. After a refusal title and notes are given up: nothing is told.
pub fn tell_two(
    told: &mut Told,
    title: &[u8],
    first: &[u8],
    second: &[u8],
) -> Result<(), AllocError>
    ensures title { OnOk result (told.new.title.bytes.items ≡ told.old.title.bytes.items ++ one title.now) }
    ensures notes { OnOk result (told.new.notes.bytes.items ≡ told.old.notes.bytes.items ++ (one_line first.now ++ one_line second.now)) }
{
    tell_one(told, title, first)?;
    push_note(told, second)?;
    Ok(())
}

/// Appends to the title, and three lines. After a refusal title and notes are given up: nothing is told.
pub fn tell_three(
    told: &mut Told,
    title: &[u8],
    first: &[u8],
    second: &[u8],
    third: &[u8],
) -> Result<(), AllocError>
    ensures title { OnOk result (told.new.title.bytes.items ≡ told.old.title.bytes.items ++ one title.now) }
    ensures notes { OnOk result (told.new.notes.bytes.items ≡ told.old.notes.bytes.items ++ ((one_line first.now ++ one_line second.now) ++ one_line third.now)) }
{
    tell_two(told, title, first, second)?;
    push_note(told, third)?;
    Ok(())
}
