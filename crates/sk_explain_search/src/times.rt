//! How long the parts of a search took.
ghost use Rattle.std.specs.Prelude.{◌≡◌};
ghost use Rattle.sk_explain_search.specs.Spent.{no_time, passed, spent_in, with_more};

use sk_watch::Phase;

/// How long the parts of a search took, in milliseconds: each from its beginning to that of the next.
#[derive(Clone, Copy, Debug, Drop)]
pub struct Times {
    /// In front of the first part.
    pub before: u64,
    pub proposing: u64,
    pub countering: u64,
    pub proving: u64,
    /// The part that goes on; none in front of the first.
    pub phase: Option<Phase>,
    /// When the time was last taken.
    pub at: u64,
}

// A time with more.
fn with_more(time: u64, more: u64) -> u64
    ensures { result ≡ with_more time more }
{
    time.saturating_add(more)
}

impl Times {
    /// The beginning of a run, at 0.
    pub fn new() -> Times
        ensures { result ≡ no_time }
    {
        Times {
            before: 0,
            proposing: 0,
            countering: 0,
            proving: 0,
            phase: None,
            at: 0,
        }
    }

    // The part that goes on took so much longer.
    fn spend(&mut self, more: u64)
        ensures { self.new ≡ spent_in self.old self.old.phase more }
    {
        match self.phase {
            None => self.before = with_more(self.before, more),
            Some(Phase::Proposing) => self.proposing = with_more(self.proposing, more),
            Some(Phase::Countering) => self.countering = with_more(self.countering, more),
            Some(Phase::Proving) => self.proving = with_more(self.proving, more),
        }
    }

    /// It is so late: what has passed since the time was last taken belongs to the part that goes on. Then this part goes on.
    pub fn pass(&mut self, now: u64, phase: Option<Phase>)
        ensures { self.new ≡ passed self.old now phase }
    {
        self.spend(now.saturating_sub(self.at));
        self.at = now;
        self.phase = phase;
    }
}
