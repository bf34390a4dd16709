use crate::fault::Fault;
use sk_base::push_number;
use std::alloc::{AllocError, Global};

/// What there is to tell of tables, and of the one that is gone through.
#[derive(Debug, Drop)]
pub struct Report {
    lines: Vec<u8>,
    rows: u64,
    is_wrong: bool,
}

impl Report {
    /// Of no tables.
    pub fn new(alloc: Global) -> Report {
        Report {
            lines: Vec::new(alloc),
            rows: 0,
            is_wrong: false,
        }
    }

    /// Counts a row, and tells its number in the table where it is wrong.
    pub fn row(&mut self, outcome: Result<(), Fault>) -> Result<(), AllocError> {
        self.rows = self.rows.saturating_add(1);
        match outcome {
            Ok(()) => Ok(()),
            Err(Fault::Wrong) => self.wrong_row(),
            Err(Fault::Memory) => Err(AllocError),
        }
    }

    fn wrong_row(&mut self) -> Result<(), AllocError> {
        self.is_wrong = true;
        self.lines.extend_from_slice(b"wrong: row ")?;
        push_number(&mut self.lines, self.rows)?;
        self.lines.push(b'\n')?;
        Ok(())
    }

    /// Tells how many rows the table had, behind those that are wrong. The next row is the first of another table.
    pub fn end(&mut self, table: &str) -> Result<(), AllocError> {
        self.lines.extend_from_slice(table.as_bytes())?;
        self.lines.extend_from_slice(b": ")?;
        push_number(&mut self.lines, self.rows)?;
        self.lines.extend_from_slice(b" rows\n")?;
        self.rows = 0;
        Ok(())
    }

    /// The lines.
    pub fn lines(&self) -> &[u8] {
        self.lines.as_slice()
    }

    /// Whether some row was wrong.
    pub fn is_wrong(&self) -> bool {
        self.is_wrong
    }
}
