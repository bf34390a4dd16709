//! How the texts of a row end, in order, with the number of those in a row that end alike.
use sk_base::push_number;
use std::alloc::{AllocError, Global};

/// The ends of texts so far.
#[derive(Debug, Drop)]
pub struct Tally {
    alloc: Global,
    out: Vec<u8>,
    last: Vec<u8>,
    count: u64,
}

impl Tally {
    /// No ends.
    pub fn new(alloc: Global) -> Tally {
        Tally {
            alloc,
            out: Vec::new(alloc),
            last: Vec::new(alloc),
            count: 0,
        }
    }

    // Adds the line of the texts that ended alike.
    fn push_line(&mut self) -> Result<(), AllocError> {
        if self.count > 0 {
            push_number(&mut self.out, self.count)?;
            self.out.push(b' ')?;
            self.out.extend_from_slice(self.last.as_slice())?;
            self.out.push(b'\n')?;
        }
        Ok(())
    }

    /// Adds how one text more ends.
    pub fn add(&mut self, end: &[u8]) -> Result<(), AllocError> {
        if end == self.last.as_slice() {
            self.count = self.count.saturating_add(1);
            return Ok(());
        }
        self.push_line()?;
        self.last = Vec::from_slice(self.alloc, end)?;
        self.count = 1;
        Ok(())
    }

    /// A line for each row of texts that ended alike: how many, a blank, and the end.
    pub fn told(mut self) -> Result<Vec<u8>, AllocError> {
        self.push_line()?;
        let Tally { out, .. } = self;
        Ok(out)
    }
}
