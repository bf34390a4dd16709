//! A watcher that keeps the lines of better completions, and counts rounds, inputs and nodes.
use sk_explain_notes::Note;
use sk_explain_search::{Statistics, better_line, push_findings};
use sk_watch::{News, Watch};
use std::alloc::{AllocError, Global};

/// What was told of a search.
#[derive(Drop)]
pub struct Counting {
    alloc: Global,
    statistics: Statistics,
    better: Vec<u8>,
    /// Whether there was no memory for a line.
    is_short: bool,
}

impl Counting {
    /// Nothing was told.
    pub fn new(alloc: Global) -> Counting {
        Counting {
            alloc,
            statistics: Statistics::new(),
            better: Vec::new(alloc),
            is_short: false,
        }
    }

    // Keeps the line of a better completion.
    fn keep(&mut self, value: u64, holes: &[u64]) -> Result<(), AllocError> {
        let line = better_line(self.alloc, value, holes)?;
        self.better.extend_from_slice(line.as_bytes())
    }

    /// The lines of better completions, those of rounds and inputs, and whether nodes were counted.
    pub fn told(self) -> Result<Vec<u8>, AllocError> {
        let Counting {
            alloc,
            statistics,
            better: mut lines,
            is_short,
        } = self;
        if is_short {
            return Err(AllocError);
        }
        let mut counts = Note::new(alloc);
        push_findings(&mut counts, &statistics)?;
        counts.line(&[nodes_text(&statistics)])?;
        lines.extend_from_slice(counts.as_bytes())?;
        Ok(lines)
    }
}

// Whether nodes were counted: how many depends on how runs are written as nodes.
fn nodes_text(statistics: &Statistics) -> &'static [u8] {
    if statistics.nodes > 0 {
        b"some nodes"
    } else {
        b"no nodes"
    }
}

impl Watch for Counting {
    fn tell(&mut self, news: News<'_>) {
        self.statistics.tell(news);
        if let News::Better { value, holes } = news {
            if self.keep(value, holes).is_err() {
                self.is_short = true;
            }
        }
    }
}
