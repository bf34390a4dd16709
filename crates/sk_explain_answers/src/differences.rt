//! In which numbers listed completions differ.
ghost use Rattle.std.specs.Prelude.{◌≡◌, ◌++◌, ◌-◌, length, map, slice_get, Some, IfOk, OnOk};
ghost use Rattle.std.specs.List.{flat_map};
ghost use Rattle.sk_explain_answers.specs.Fillings.{IsKnown};
ghost use Rattle.sk_explain_answers.specs.Rows.{words_of};
ghost use Rattle.sk_explain_answers.specs.Differences.{AreSitesTold, IsSiteTold, TellsDifferences, TellsList, TellsSites, behind_comma, differing, has, number_if, site_line, told_values, values_of, values_text, with_value};

use crate::fillings::expansion;
use crate::more::{first_told, push_more, push_rest};
use crate::places::part_text;
use crate::rows::{Row, rows_of};
use sk_base::{List, Name};
use sk_explain_notes::{Note, Told};
use sk_front::Expansion;
use sk_model::Site;
use std::alloc::{AllocError, Global};

// Whether one of some words is this one.
fn has(words: &[Name], word: &[u8]) -> bool
    ensures { result ≡ has words.now word.now }
{
    let mut rest = words;
    while let [it, others @ ..] = rest {
        if it.as_bytes() == word {
            return true;
        }
        rest = others;
    }
    false
}

// Puts a copy of a word behind others, where it is none of them.
fn push_word(alloc: Global, found: &mut List<Name>, word: &Name) -> Result<(), AllocError>
    ensures { OnOk result (found.new ≡ with_value found.old (Some word.now)) }
{
    if has(found.as_slice(), word.as_bytes()) {
        return Ok(());
    }
    let copy = Name::from_slice(alloc, word.as_bytes())?;
    found.push(copy)?;
    Ok(())
}

// The same of the word with a number, where there is one.
fn push_value(
    alloc: Global,
    found: &mut List<Name>,
    words: &[Name],
    site: usize,
) -> Result<(), AllocError>
    ensures { OnOk result (found.new ≡ with_value found.old (slice_get words.now site)) }
{
    match words.get(site) {
        Some(word) => {
            push_word(alloc, found, word)?;
            Ok(())
        }
        None => Ok(()),
    }
}

// The words that rows have for a site, each once, in the order of the rows.
fn values_of(alloc: Global, rows: &[Row], site: usize) -> Result<List<Name>, AllocError>
    ensures { IfOk result (λ values. values ≡ values_of site (map words_of rows.now)) }
{
    let mut found = List::new(alloc);
    let mut rest = rows;
    while let [row, others @ ..] = rest {
        push_value(alloc, &mut found, row.words(), site)?;
        rest = others;
    }
    Ok(found)
}

// Puts a number behind others, where there are two values or more.
fn push_if(numbers: &mut List<usize>, number: usize, values: usize) -> Result<(), AllocError>
    ensures { OnOk result (numbers.new ≡ numbers.old ++ number_if number values) }
{
    if values < 2 {
        return Ok(());
    }
    numbers.push(number)?;
    Ok(())
}

// The numbers, from 1, of the sites in which rows differ, of so many sites.
#[tactic(auto, using(crate::proofs::DifferenceLemmas::one_more))]
fn differing(alloc: Global, rows: &[Row], sites: usize) -> Result<List<usize>, AllocError>
    ensures { IfOk result (λ numbers. numbers ≡ differing (map words_of rows.now) sites) }
{
    let mut numbers = List::new(alloc);
    for site in 0..sites {
        let values = values_of(alloc, rows, site)?;
        push_if(&mut numbers, site + 1, values.len())?;
    }
    Ok(numbers)
}

// Appends each value behind a comma.
fn push_others(note: &mut Note, values: &[Name]) -> Result<(), AllocError>
    ensures { OnOk result (note.new.bytes.items ≡ note.old.bytes.items ++ flat_map behind_comma values.now) }
{
    let mut rest = values;
    while let [value, others @ ..] = rest {
        note.say(&[b", ", value.as_bytes()])?;
        rest = others;
    }
    Ok(())
}

// Appends values with commas between them.
fn push_values(note: &mut Note, values: &[Name]) -> Result<(), AllocError>
    ensures { OnOk result (note.new.bytes.items ≡ note.old.bytes.items ++ values_text values.now) }
{
    match values {
        [] => Ok(()),
        [first, others @ ..] => {
            note.say(&[first.as_bytes()])?;
            push_others(note, others)?;
            Ok(())
        }
    }
}

// Appends values with commas between them, the first 20, and how many more there are.
fn push_first(note: &mut Note, values: &[Name]) -> Result<(), AllocError>
    ensures { OnOk result (note.new.bytes.items ≡ note.old.bytes.items ++ told_values values.now) }
{
    push_values(note, first_told(values))?;
    push_rest(note, values.len())?;
    Ok(())
}

// Appends the line of the site with a number, of which a part of a text is shown.
fn push_site(note: &mut Note, number: usize, part: &Name, values: &[Name]) -> Result<(), AllocError>
    ensures { OnOk result (note.new.bytes.items ≡ note.old.bytes.items ++ site_line number part.now values.now) }
{
    note.word(b"number ")?;
    note.number(number as u64)?;
    note.say(&[b", ", part.as_bytes(), b": "])?;
    push_first(note, values)?;
    note.end()?;
    Ok(())
}

// Tells of the site with a number that it has these values, and where it stands in a text.
#[tactic(auto, using(crate::proofs::Telling::site_told))]
fn tell_values(
    alloc: Global,
    note: &mut Note,
    text: &[u8],
    site: Option<&Site>,
    number: usize,
    values: &[Name],
) -> Result<(), AllocError>
    ensures { OnOk result (IsSiteTold number values.now note.old.bytes.items note.new.bytes.items) }
{
    let part = part_text(alloc, text, site)?;
    push_site(note, number, &part, values)?;
    Ok(())
}

// Tells of the site with a number which values rows have for it.
fn tell_site(
    alloc: Global,
    note: &mut Note,
    text: &[u8],
    sites: &[Site],
    rows: &[Row],
    number: usize,
) -> Result<(), AllocError>
    ensures { OnOk result (IsSiteTold number (values_of (number - 1) (map words_of rows.now)) note.old.bytes.items note.new.bytes.items) }
{
    let site = number.saturating_sub(1);
    let values = values_of(alloc, rows, site)?;
    tell_values(
        alloc,
        note,
        text,
        sites.get(site),
        number,
        values.as_slice(),
    )
}

// The same of sites, one after another.
#[tactic(auto, using(crate::proofs::Telling::sites_told))]
fn tell_sites(
    alloc: Global,
    note: &mut Note,
    text: &[u8],
    sites: &[Site],
    rows: &[Row],
    numbers: &[usize],
) -> Result<(), AllocError>
    ensures { OnOk result (AreSitesTold (map words_of rows.now) numbers.now note.old.bytes.items note.new.bytes.items) }
{
    let [number, others @ ..] = numbers else {
        return Ok(());
    };
    tell_site(alloc, note, text, sites, rows, *number)?;
    tell_sites(alloc, note, text, sites, rows, others)?;
    Ok(())
}

// Tells in which sites rows differ, and how many more there are.
#[tactic(auto, using(crate::proofs::Telling::all_told))]
fn tell_rows(
    alloc: Global,
    note: &mut Note,
    text: &[u8],
    sites: &[Site],
    rows: &[Row],
) -> Result<(), AllocError>
    ensures { OnOk result (TellsSites (length sites.now) (map words_of rows.now) note.old.bytes.items note.new.bytes.items) }
{
    let numbers = differing(alloc, rows, sites.len())?;
    let told = first_told(numbers.as_slice());
    tell_sites(alloc, note, text, sites, rows, told)?;
    push_more(note, numbers.len())?;
    Ok(())
}

// The same for an expansion, with a title.
#[tactic(auto, using(crate::proofs::Telling::list_told))]
fn tell_known(
    alloc: Global,
    told: &mut Told,
    expansion: &Expansion,
    text: &[u8],
    rows: &[Row],
) -> Result<(), AllocError>
    requires { IsKnown text.now expansion.now }
    ensures { OnOk result (TellsList text.now (map words_of rows.now) told.old told.new) }
{
    told.title(&[b"the listed completions differ in these numbers of //@ holes:"])?;
    let sites = expansion.expanded.sites.as_slice();
    tell_rows(alloc, &mut told.notes, text, sites, rows)?;
    Ok(())
}

// Tells in which sites rows differ, where there are two or more.
#[tactic(auto, using(crate::proofs::Telling::no_list_told))]
fn tell_list(
    alloc: Global,
    told: &mut Told,
    words: &[String],
    text: &[u8],
    rows: &[Row],
) -> Result<(), AllocError>
    ensures { OnOk result (TellsList text.now (map words_of rows.now) told.old told.new) }
{
    if rows.len() < 2 {
        return Ok(());
    }
    match expansion(alloc, words, text)? {
        Some(it) => tell_known(alloc, told, &it, text, rows),
        None => Ok(()),
    }
}

/// Tells of the answer of a line `all`, where it lists two completions or more: in which numbers these differ, where their open parts
/// stand in the text, and which values they have. At most 20 numbers are told, and how many more there are, and so of the values. After a
/// refusal what is told is given up.
pub fn tell_differences(
    alloc: Global,
    told: &mut Told,
    words: &[String],
    text: &[u8],
    answer: &[u8],
) -> Result<(), AllocError>
    ensures { OnOk result (TellsDifferences text.now answer.now told.old told.new) }
{
    let rows = rows_of(alloc, b"holes", answer)?;
    tell_list(alloc, told, words, text, rows.as_slice())
}
