//! What is counted of a search.
ghost use Rattle.std.specs.Prelude.{◌≡◌};
ghost use Rattle.sk_explain_search.specs.Counts.{counted, larger, most, nothing_counted, of_phase, one_more, with_conflict, with_formula, with_restarts};

use sk_watch::{News, Phase, Watch};

/// A formula: how many variables and clauses it has.
#[derive(Clone, Copy, Debug, Drop)]
pub struct Formula {
    pub variables: u64,
    pub clauses: u64,
}

/// What is counted of a search. A count stays where it is the greatest number of 64 bits.
#[derive(Clone, Copy, Debug, Drop)]
pub struct Statistics {
    /// How often a choice was looked for.
    pub rounds: u64,
    /// How many inputs were found.
    pub inputs: u64,
    /// The nodes of the graph with the most of them, of which a formula was made.
    pub nodes: u64,
    /// How many clauses the solver has learnt, one from each conflict.
    pub conflicts: u64,
    /// How often the solver began anew.
    pub restarts: u64,
    /// Those of them in the call of the solver that goes on.
    pub lately: u64,
    /// The formula that was last put to the solver.
    pub formula: Formula,
    /// The first of those with the most clauses.
    pub largest: Formula,
    /// The value of the last completion that was found with one.
    pub best: Option<u64>,
}

// A count with one more.
fn one_more(count: u64) -> u64
    ensures { result ≡ one_more count }
{
    count.saturating_add(1)
}

// The greater of two numbers.
fn most(first: u64, second: u64) -> u64
    ensures { result ≡ most first second }
{
    if first < second {
        return second;
    }
    first
}

// Of two formulas the one with more clauses, and the first where they have as many.
fn larger(first: Formula, second: Formula) -> Formula
    ensures { result ≡ larger first second }
{
    if first.clauses < second.clauses {
        second
    } else {
        first
    }
}

// All restarts, where so many were counted, so many of them in a call that has come to so many.
fn with_restarts(all: u64, lately: u64, now: u64) -> u64
    ensures { result ≡ with_restarts all lately now }
{
    all.saturating_add(now.saturating_sub(lately))
}

impl Statistics {
    /// Nothing is counted.
    pub fn new() -> Statistics
        ensures { result ≡ nothing_counted }
    {
        let formula = Formula {
            variables: 0,
            clauses: 0,
        };
        Statistics {
            rounds: 0,
            inputs: 0,
            nodes: 0,
            conflicts: 0,
            restarts: 0,
            lately: 0,
            formula,
            largest: formula,
            best: None,
        }
    }

    // A part begins.
    fn begin(&mut self, phase: Phase)
        ensures { self.new ≡ of_phase self.old phase }
    {
        match phase {
            Phase::Proposing => self.rounds = one_more(self.rounds),
            Phase::Countering | Phase::Proving => {}
        }
    }

    // A formula is put to a solver.
    fn take(&mut self, formula: Formula)
        ensures { self.new ≡ with_formula self.old formula }
    {
        self.largest = larger(self.largest, formula);
        self.formula = formula;
        self.lately = 0;
    }

    // A clause is learnt.
    fn learn(&mut self, restarts: u64)
        ensures { self.new ≡ with_conflict self.old restarts }
    {
        self.restarts = with_restarts(self.restarts, self.lately, restarts);
        self.lately = restarts;
        self.conflicts = one_more(self.conflicts);
    }
}

impl Watch for Statistics {
    /// Counts what is told.
    fn tell(&mut self, news: News<'_>)
        ensures { self.new ≡ counted self.old news.entry }
    {
        match news {
            News::Phase(phase) => self.begin(phase),
            News::Graph { nodes } => self.nodes = most(self.nodes, nodes as u64),
            News::Formula { variables, clauses } => self.take(Formula {
                variables: variables as u64,
                clauses: clauses as u64,
            }),
            News::Conflict { restarts } => self.learn(restarts),
            News::Input { count: _ } => self.inputs = one_more(self.inputs),
            News::Better { value, holes: _ } => self.best = Some(value),
        }
    }
}
