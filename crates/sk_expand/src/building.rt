//! What an expansion has made so far.
ghost use Rattle.std.specs.Prelude.{◌≡◌, ◌<◌, ◌++◌, [], length, slice_set, IfOk};
ghost use Rattle.sk_expand.specs.Made.{Taken, Pushed};

use crate::stop::Stop;
use sk_base::List;
use sk_limits::number_of;
use sk_prog::Fun;
use std::alloc::{AllocError, Global};
use std::marker::Model;

/// The copies of generators so far, and how many more nodes there may be.
#[derive(Drop)]
pub struct Building {
    copies: Vec<Fun>,
    room: usize,
}

impl Model for Building {
    ghost use Rattle.sk_expand.specs.Made.{State};
    ghost use Rattle.sk_prog.specs.contracts.stmt.PForm as form;
    ghost use Rattle.sk_prog.specs.contracts.expr.PEForm as eform;
    ghost use Rattle.std.specs.Coded.{codes};

    ghost Value = { State };

    ghost coded = { Prim.hlevel (codes, form.the_row.coded, eform.the_row.coded) };

    ghost view = { λ b. record { copies = b.copies.items; room = b.room } };
}

impl Building {
    pub fn new(alloc: Global, room: usize) -> Building
        ensures { result ≡ record { copies = []; room = room } }
    {
        Building {
            copies: Vec::new(alloc),
            room,
        }
    }

    /// Takes so many nodes, if there may be so many more.
    pub fn take(&mut self, nodes: usize) -> Result<(), Stop>
        ensures { Taken result nodes self.old self.new }
    {
        if self.room < nodes {
            return Err(Stop::TooLarge);
        }
        self.room -= nodes;
        Ok(())
    }

    /// How many copies there are. No memory holds so many that they cannot be numbered.
    pub fn count(&self) -> Result<u32, AllocError>
        ensures { IfOk result (λ n. n ≡ length self.now.copies) }
    {
        let count = number_of(self.copies.len())?;
        Ok(count)
    }

    /// One copy more.
    pub fn push(&mut self, copy: Fun) -> Result<(), AllocError>
        ensures { Pushed result self.old self.new copy }
    {
        self.copies.push(copy)?;
        Ok(())
    }

    /// Puts a copy into the place with a number.
    pub fn set(&mut self, number: usize, copy: Fun)
        requires { number < length self.old.copies }
        ensures { self.new ≡ record self.old { copies = slice_set self.old.copies number copy } }
    {
        self.copies[number] = copy;
    }

    /// These functions, and then the copies.
    pub fn behind(self, funs: Vec<Fun>) -> Result<List<Fun>, AllocError>
        ensures { IfOk result (λ all. all ≡ funs.items ++ self.copies) }
    {
        let mut all = funs;
        let Building {
            mut copies,
            room: _,
        } = self;
        all.append(&mut copies)?;
        Ok(List::from_vec(all))
    }
}
