//! Records that `new` makes.

ghost use Rattle.std.specs.Prelude.{◌≡◌, IfOk, map};
ghost use Rattle.std.specs.Option.{option_copied};
ghost use Rattle.sk_model.specs.Heap.{zeros_of, with_fields, allocate};
ghost use Rattle.sk_interp.specs.Gives.{Gives};

use crate::memory::{Memory, set_field, zeros};
use crate::row::Row;
use crate::stop::Stop;
use sk_prog::{Prog, StructDef, StructId, Value};
use std::alloc::{AllocError, Global};

/// A record of this struct in which each field is unset.
fn zeros_of(alloc: Global, found: Option<&StructDef>) -> Result<Row<Value>, AllocError>
    ensures { IfOk result (λ made. made ≡ zeros_of (option_copied found.entry)) }
{
    match found {
        None => Ok(Row::new(alloc)),
        Some(d) => {
            let made = zeros(alloc, d.fields.as_slice())?;
            Ok(made)
        }
    }
}

/// The record with these fields set, one after another.
fn with_fields(fields: Row<Value>, set: Vec<(u32, Value)>) -> Row<Value>
    ensures { result ≡ with_fields fields set.items }
{
    let mut made = fields;
    for (field, v) in set {
        set_field(&mut made, field, v);
    }
    made
}

/// Makes a record with these fields set.
#[inline(never)]
pub fn allocate(
    alloc: Global,
    memory: &mut Memory,
    prog: &Prog,
    s: StructId,
    set: Vec<(u32, Value)>,
) -> Result<Value, Stop>
    ensures { Gives result memory.new (allocate prog.now s set.items memory.old) }
{
    let unset = zeros_of(alloc, prog.structs.get(s.index as usize))?;
    let place = memory.push(with_fields(unset, set))?;
    Ok(place)
}
