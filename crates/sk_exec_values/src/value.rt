//! The value of a type that a word spells.
ghost use Rattle.std.specs.Prelude.{◌≡◌, ◌≤◌, ◌*◌, map, take, drop, IfOk, option_map};
ghost use Rattle.std.specs.Vec.Iter.{into_iter_items};
ghost use Rattle.sk_prog.specs.declared.value.Value.TheVariants as value;
ghost use Rattle.sk_opts.specs.SpeltValues.{between_commas, spell_scalars, spells_row, rows_of, spells_value};

use crate::scalar::read_scalar;
use sk_base::{Bounds, List};
use sk_opts::pieces_of;
use sk_prog::{Elem, Ty, Value};
use std::alloc::{AllocError, Global};
use std::vec::IntoIter;

/// The scalars that these words spell, if each spells one.
#[tactic(auto, using(sk_opts::proofs::Lists::steps))]
fn read_scalars(
    alloc: Global,
    bounds: &Bounds,
    e: Elem,
    words: &[&[u8]],
) -> Result<Option<Vec<Value>>, AllocError>
    requires bits_low { 2 ≤ bounds.now.int_bits }
    requires bits_high { bounds.now.int_bits ≤ 32 }
    ensures { IfOk result (λ found. option_map (λ values. values.items) found ≡ spell_scalars bounds.now e (map (λ word. word.now) words.now)) }
{
    let mut values = Vec::new(alloc);
    for word in words {
        match read_scalar(bounds, e, word) {
            None => return Ok(None),
            Some(value) => values.push(value)?,
        }
    }
    Ok(Some(values))
}

/// Exactly so many scalars, with commas between them.
fn read_row(
    alloc: Global,
    bounds: &Bounds,
    e: Elem,
    count: usize,
    word: &[u8],
) -> Result<Option<Vec<Value>>, AllocError>
    requires bits_low { 2 ≤ bounds.now.int_bits }
    requires bits_high { bounds.now.int_bits ≤ 32 }
    ensures { IfOk result (λ found. option_map (λ values. values.items) found ≡ spells_row bounds.now e count (between_commas word.now)) }
{
    let pieces = pieces_of(alloc, word)?;
    if pieces.len() != count {
        return Ok(None);
    }
    let values = read_scalars(alloc, bounds, e, pieces.as_slice())?;
    Ok(values)
}

/// The next values, as many as there are of so many.
fn take_row(
    alloc: Global,
    count: usize,
    rest: &mut IntoIter<Value>,
) -> Result<List<Value>, AllocError>
    ensures row { IfOk result (λ row. row ≡ take count (into_iter_items rest.old)) }
    ensures rest { IfOk result (λ row. into_iter_items rest.new ≡ drop count (into_iter_items rest.old)) }
{
    let mut row = List::new(alloc);
    for _ in 0..count {
        match rest.next() {
            None => return Ok(row),
            Some(value) => row.push(value)?,
        }
    }
    Ok(row)
}

/// The values in rows, so many in each.
fn rows_of(
    alloc: Global,
    count: usize,
    rows: usize,
    values: Vec<Value>,
) -> Result<List<Value>, AllocError>
    ensures { IfOk result (λ made. made ≡ rows_of count rows values.items) }
{
    let mut rest = values.into_iter();
    let mut made = List::new(alloc);
    for _ in 0..rows {
        let row = take_row(alloc, count, &mut rest)?;
        made.push(Value::Array(row))?;
    }
    Ok(made)
}

fn read_array(
    alloc: Global,
    bounds: &Bounds,
    e: Elem,
    count: usize,
    word: &[u8],
) -> Result<Option<Value>, AllocError>
    requires bits_low { 2 ≤ bounds.now.int_bits }
    requires bits_high { bounds.now.int_bits ≤ 32 }
    ensures { IfOk result (λ found. found ≡ option_map value.Array (spells_row bounds.now e count (between_commas word.now))) }
{
    match read_row(alloc, bounds, e, count, word)? {
        None => Ok(None),
        Some(values) => Ok(Some(Value::Array(List::from_vec(values)))),
    }
}

fn read_grid(
    alloc: Global,
    bounds: &Bounds,
    e: Elem,
    count: u32,
    rows: u32,
    word: &[u8],
) -> Result<Option<Value>, AllocError>
    requires bits_low { 2 ≤ bounds.now.int_bits }
    requires bits_high { bounds.now.int_bits ≤ 32 }
    ensures { IfOk result (λ found. found ≡ option_map (λ values. value.Array (rows_of count rows values)) (spells_row bounds.now e (count * rows) (between_commas word.now))) }
{
    match read_row(alloc, bounds, e, count as usize * rows as usize, word)? {
        None => Ok(None),
        Some(values) => {
            let made = rows_of(alloc, count as usize, rows as usize, values)?;
            Ok(Some(Value::Array(made)))
        }
    }
}

/// The value of a type that a word spells, where it spells one.
#[tactic(auto, unfolding(sk_opts::specs::SpeltValues::spells_value))]
pub fn read_value(
    alloc: Global,
    bounds: &Bounds,
    ty: &Ty,
    word: &[u8],
) -> Result<Option<Value>, AllocError>
    requires bits_low { 2 ≤ bounds.now.int_bits }
    requires bits_high { bounds.now.int_bits ≤ 32 }
    ensures { IfOk result (λ found. found ≡ spells_value bounds.now ty.now word.now) }
{
    match *ty {
        Ty::One(e) => Ok(read_scalar(bounds, e, word)),
        Ty::Array(e, count) => {
            let found = read_array(alloc, bounds, e, count as usize, word)?;
            Ok(found)
        }
        Ty::Grid(e, count, rows) => {
            let found = read_grid(alloc, bounds, e, count, rows, word)?;
            Ok(found)
        }
    }
}
