//! What the target of an assignment names.

ghost use Rattle.std.specs.Prelude.{◌≡◌, OnOk, []};
ghost use Rattle.sk_sym_stores.specs.declared.location.Root.TheVariants.{Variable, Field};
ghost use Rattle.sk_sym_stores.specs.Locations.{IsIndexed};

use sk_base::List;
use sk_dag::{Shape, WordId};
use sk_limits::never;
use sk_prog::StructId;
use std::alloc::{AllocError, Global};

/// Where a target begins.
#[derive(Drop)]
pub enum Root {
    /// A variable, by its slot.
    Variable(u32),
    /// A field of what a reference to records of a struct stands for.
    Field {
        reference: Shape,
        kind: StructId,
        field: u32,
    },
}

/// What a target names: where it begins, and the indexes from there on, from the outside in.
#[derive(Drop)]
pub struct Location {
    pub root: Root,
    pub indexes: List<WordId>,
}

impl Location {
    /// A variable.
    pub fn variable(alloc: Global, slot: u32) -> Location
        ensures { result ≡ record { root = Variable slot; indexes = [] } }
    {
        Location {
            root: Root::Variable(slot),
            indexes: List::new(alloc),
        }
    }

    /// A field of what a reference stands for.
    pub fn field(alloc: Global, reference: Shape, kind: StructId, field: u32) -> Location
        ensures { result ≡ record { root = Field reference kind field; indexes = [] } }
    {
        Location {
            root: Root::Field {
                reference,
                kind,
                field,
            },
            indexes: List::new(alloc),
        }
    }

    /// The element of it that an index names. An index of a typed program is a word (`never`). After a refusal the location is
    /// given up with the walk that holds it.
    pub fn push_index(&mut self, index: &Shape) -> Result<(), AllocError>
        ensures { OnOk result (IsIndexed self.old self.new index.now) }
    {
        match index {
            Shape::Int(word) => {
                self.indexes.push(*word)?;
                Ok(())
            }
            _ => Err(never()),
        }
    }
}
