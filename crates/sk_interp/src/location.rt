//! What the target of an assignment names.

ghost use Rattle.std.specs.Prelude.{◌≡◌, ◌++◌, ◌∷◌, [], IfOk};
ghost use Rattle.sk_model.specs.Heap.{store};
ghost use Rattle.sk_model.specs.Eval.{add_index};
ghost use Rattle.sk_interp.specs.Gives.{Gives};
ghost use Rattle.sk_interp.specs.Records.{ComputesAs};
ghost use Rattle.sk_interp.specs.Paths.{load};
ghost use Rattle.sk_interp.specs.Places.{location_of, root_of};

use crate::memory::Memory;
use crate::stop::Stop;
use sk_base::Span;
use sk_prog::Value;
use std::alloc::{AllocError, Global};

/// Where a target begins.
#[derive(Drop)]
pub enum Root {
    Variable { slot: u32 },
    Field { reference: Value, field: u32 },
}

/// What a target names: where it begins, and the indexes from there on, from the outside in.
#[derive(Drop)]
pub struct Location {
    root: Root,
    indexes: Vec<i64>,
}

impl Location {
    pub fn new(alloc: Global, root: Root) -> Location
        ensures { location_of result ≡ record { root = root_of root; indexes = [] } }
    {
        Location {
            root,
            indexes: Vec::new(alloc),
        }
    }

    fn with_number(self, i: &i64) -> Result<Location, AllocError>
        ensures { IfOk result (λ made. location_of made ≡ record { root = root_of self.root; indexes = self.indexes.items ++ i.now ∷ [] }) }
    {
        let mut made = self;
        made.indexes.push(*i)?;
        Ok(made)
    }

    /// The element with this index of what is named.
    #[inline(never)]
    pub fn with_index(self, span: Span, i: &Value) -> Result<Location, Stop>
        ensures { ComputesAs location_of result (add_index span (location_of self) i.now) }
    {
        let Value::Int(i) = i else {
            return Err(Stop::Failed { span });
        };
        let made = self.with_number(i)?;
        Ok(made)
    }

    /// A copy of what stands there.
    #[inline(never)]
    pub fn load(&self, alloc: Global, memory: &Memory, span: Span) -> Result<Value, Stop>
        ensures { Gives result memory.now (load span (location_of self.now) memory.now) }
    {
        let indexes = self.indexes.as_slice();
        match &self.root {
            Root::Variable { slot } => memory.load_variable(alloc, span, *slot, indexes),
            Root::Field { reference, field } => {
                memory.load_field(alloc, span, reference, *field, indexes)
            }
        }
    }

    /// Puts a value there.
    #[inline(never)]
    pub fn store(
        &self,
        alloc: Global,
        memory: &mut Memory,
        span: Span,
        v: Value,
    ) -> Result<(), Stop>
        ensures { Gives result memory.new (store span (location_of self.now) v memory.old) }
    {
        let indexes = self.indexes.as_slice();
        match &self.root {
            Root::Variable { slot } => memory.store_variable(alloc, span, *slot, indexes, v),
            Root::Field { reference, field } => {
                memory.store_field(alloc, span, reference, *field, indexes, v)
            }
        }
    }
}
