//! What is counted of a body: its own steps and records, and the calls in it.
ghost use Rattle.std.specs.Prelude.{◌≡◌, ◌≤◌, [], OnOk, IsTrue, not};
ghost use Rattle.sk_model.specs.Limits.{most_steps};
ghost use Rattle.sk_expand_sizes.specs.Tally.{is_over};
ghost use Rattle.sk_expand_sizes.specs.Count.{charged, unless_over, with_call};

use crate::tally::Tally;
use sk_base::List;
use std::alloc::{AllocError, Global};

/// A call that is still to be counted, and how many times it is made.
#[derive(Drop, Clone, Copy)]
pub struct Due {
    pub callee: u32,
    pub times: u32,
}

/// What is counted, and what is still to be counted.
#[derive(Drop)]
pub struct Count {
    pub tally: Tally,
    pub due: List<Due>,
}

impl Count {
    /// Counting goes on from here.
    pub fn new(alloc: Global, tally: Tally) -> Count
        ensures { result ≡ record { tally = tally; due = [] } }
    {
        Count {
            tally,
            due: List::new(alloc),
        }
    }

    /// Adds steps and records, and says whether there are not too many steps.
    #[tactic(auto, unfolding(crate::specs::Count::charged), using(crate::proofs::Tallies::steps_are_few))]
    pub fn charge(&mut self, steps: u128, news: u128) -> bool
        ensures count { self.new ≡ charged steps news self.old }
        ensures within { is_over self.new.tally ≡ not result }
        ensures few { IsTrue result → steps ≤ most_steps }
    {
        self.tally = self.tally.added(steps, news);
        !self.tally.is_over()
    }

    /// Adds the step of a call, which is still to be counted.
    pub fn call(&mut self, callee: u32, times: u128) -> Result<(), AllocError>
        ensures { OnOk result (self.new ≡ unless_over (with_call callee times) (charged times 0 self.old)) }
    {
        let within = self.charge(times, 0);
        if !within {
            return Ok(());
        }
        let times = times as u32;
        self.due.push(Due { callee, times })?;
        Ok(())
    }
}
