//! What a search tells of itself while it goes on. No clause speaks of what a watcher does, so nothing that is proved of a search
//! rests on it.
#![tactic(auto)]

/// A part of a search.
#[derive(Clone, Copy, Debug)]
pub enum Phase {
    /// It looks for a choice that passes all inputs that were found.
    Proposing,
    /// It looks for an input that speaks against a choice, or costs it more.
    Countering,
    /// It makes the proofs of a certificate, or of a list.
    Proving,
}

/// What a search tells.
#[derive(Clone, Copy, Debug)]
pub enum News<'a> {
    /// A part of it begins.
    Phase(Phase),
    /// A graph is made, of which a formula is to be made: so many nodes it has.
    Graph { nodes: usize },
    /// A formula is put to a solver: its variables and clauses.
    Formula { variables: usize, clauses: usize },
    /// The solver has learnt a clause, from a conflict, after so many restarts in this call.
    Conflict { restarts: u64 },
    /// An input was found that speaks against a choice: so many there are now.
    Input { count: usize },
    /// A completion was found whose greatest cost is this value: the value of each hole, in the order of a result text.
    Better { value: u64, holes: &'a [u64] },
}

/// What is told of a search. It promises nothing, and a search does the same whatever it does.
pub trait Watch {
    /// Tells it.
    fn tell(&mut self, news: News<'_>);
}

/// A watcher that does nothing.
#[derive(Clone, Copy, Debug)]
pub struct Silent;

impl Watch for Silent {
    fn tell(&mut self, _news: News<'_>) {}
}
