ghost use Rattle.std.specs.Prelude.{◌≡◌, OnOk};
ghost use Rattle.sk_interp_laws.specs.Kept.{empty_log, has_room, kept};

use crate::step::Step;
use sk_base::List;
use std::alloc::{AllocError, Global};

/// The first steps of a run, and whether there are others.
#[derive(Debug, Drop)]
pub struct Log {
    /// How many steps it keeps at most.
    pub most: usize,
    /// The steps that it keeps, oldest first.
    pub steps: List<Step>,
    /// Whether there were others after them.
    pub more: bool,
}

impl Log {
    /// A log of no steps, which keeps so many at most.
    pub fn new(alloc: Global, most: usize) -> Log
        ensures { result ≡ empty_log most }
    {
        Log {
            most,
            steps: List::new(alloc),
            more: false,
        }
    }

    /// Whether it keeps one more step.
    pub fn has_room(&self) -> bool
        ensures { result ≡ has_room self.now }
    {
        self.steps.len() < self.most
    }

    /// Takes in a step.
    ///
    /// # Errors
    ///
    /// Where memory is wanting. After a refusal the log is given up with the run that it is of.
    pub fn keep(&mut self, step: Step) -> Result<(), AllocError>
        ensures { OnOk result (self.new ≡ kept self.old step) }
    {
        if self.steps.len() < self.most {
            self.steps.push(step)?;
        } else {
            self.more = true;
        }
        Ok(())
    }
}
