//! Numbers by names.
ghost use Rattle.std.specs.Prelude.{◌≡◌, [], None, Some, IsSome, OnOk, OnErr};
ghost use Rattle.sk_types_names.specs.Tables.{number_of, Sets};

use sk_base::Name;
use std::alloc::{AllocError, Global};
use std::collections::BTreeMap;
use std::marker::Model;

/// Numbers by names, in a table that is ordered by the names. Contracts see a list of its rows, each a name and its
/// number.
#[derive(Drop)]
pub struct Numbers {
    alloc: Global,
    rows: BTreeMap<Vec<u8>, usize>,
}

impl Model for Numbers {
    ghost use Rattle.std.specs.Prelude.{ℕ, List, map};

    ghost Value = { List (List ℕ × ℕ) };

    ghost view = { λ numbers. map (λ row. (row.0.items, row.1)) numbers.rows.entries };
}

impl Numbers {
    /// No numbers. It takes no memory.
    pub fn new(alloc: Global) -> Numbers
        ensures { result ≡ [] }
    {
        Numbers {
            alloc,
            rows: BTreeMap::new(alloc),
        }
    }

    /// The number of a name, where it has one.
    pub fn get(&self, name: &Name) -> Option<usize>
        ensures { result ≡ number_of self.now name.now }
    {
        self.rows.get(name.as_bytes()).copied()
    }

    /// Gives a name a number, in place of the one that it has. Where memory is wanting, the table stays as it was.
    pub fn put(&mut self, name: &Name, number: usize) -> Result<(), AllocError>
        ensures ok { OnOk result (Sets self.old self.new name.now (Some number)) }
        ensures err { OnErr result (self.new ≡ self.old) }
    {
        let name = Vec::from_slice(self.alloc, name.as_bytes())?;
        self.rows.insert(name, number)?;
        Ok(())
    }

    /// Gives a name that has a number another one, or none. It takes no memory.
    pub fn set(&mut self, name: &Name, number: Option<usize>)
        requires { IsSome (number_of self.old name.now) }
        ensures { Sets self.old self.new name.now number }
    {
        match number {
            None => self.remove(name),
            Some(number) => self.replace(name, number),
        }
    }

    fn replace(&mut self, name: &Name, number: usize)
        requires { IsSome (number_of self.old name.now) }
        ensures { Sets self.old self.new name.now (Some number) }
    {
        if let Some(place) = self.rows.get_mut(name.as_bytes()) {
            *place = number;
        }
    }

    fn remove(&mut self, name: &Name)
        ensures { Sets self.old self.new name.now None }
    {
        self.rows.remove(name.as_bytes());
    }
}
