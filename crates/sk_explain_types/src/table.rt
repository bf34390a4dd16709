//! Numbers by names.
use std::alloc::{AllocError, Global};
use std::collections::BTreeMap;

/// Numbers by names.
#[derive(Drop)]
pub struct Table {
    alloc: Global,
    rows: BTreeMap<Vec<u8>, usize>,
}

impl Table {
    /// No numbers. It takes no memory.
    pub fn new(alloc: Global) -> Table {
        Table {
            alloc,
            rows: BTreeMap::new(alloc),
        }
    }

    /// The number of a name, where it has one.
    pub fn get(&self, name: &[u8]) -> Option<usize> {
        self.rows.get(name).copied()
    }

    /// Gives a name a number, in place of the one that it has.
    pub fn put(&mut self, name: &[u8], number: usize) -> Result<(), AllocError> {
        let name = Vec::from_slice(self.alloc, name)?;
        self.rows.insert(name, number)?;
        Ok(())
    }
}
