ghost use Rattle.std.specs.Prelude.{◌≡◌, ℕ, ◌<◌, ◌++◌, [], ◌∷◌, length, OnOk, OnErr, slice_index_or};
ghost use Rattle.sk_clause.specs.Split.{parts, EndsAt};

use crate::lit::Lit;
use std::alloc::{AllocError, Global};
use std::marker::Model;

// The i-th part of a flat list.
#[tactic(auto, using(crate::proofs::SplitLemmas::store))]
fn part<'a>(flat: &'a [Lit], ends: &[usize], i: usize) -> &'a [Lit]
    requires ends { EndsAt 0 ends.now (length flat.now) }
    requires within { i < length ends.now }
    ensures { result.now ≡ slice_index_or (parts 0 ends.now flat.now) i [] }
{
    let end = ends[i];
    let start = if i == 0 { 0 } else { ends[i - 1] };
    prove!(start <= end);
    prove!(end <= flat.len());
    &flat[start..end]
}

/// A list of clauses, whose literals lie one after another in memory. Contracts see the list of them.
#[derive(Debug, Drop)]
pub struct ClauseList {
    lits: Vec<Lit>,
    ends: Vec<usize>,
}

impl Model for ClauseList {
    ghost use Rattle.std.specs.Prelude.{List, length};
    ghost use Rattle.sk_clause.specs.Code.{coded_clauses};
    ghost use Rattle.sk_clause.specs.declared.lit.Lit.{Lit};
    ghost use Rattle.sk_clause.specs.Split.{parts, EndsAt};

    ghost Value = { List (List Lit) };

    ghost coded = { coded_clauses };

    ghost view = { λ a. parts 0 a.ends.items a.lits.items };

    ghost invariant = { λ a. EndsAt 0 a.ends.items (length a.lits.items) };
}

#[tactic(auto, using(crate::proofs::SplitLemmas::store))]
impl ClauseList {
    /// No clauses. It takes no memory.
    pub fn new(alloc: Global) -> ClauseList
        ensures { result ≡ [] }
    {
        ClauseList {
            lits: Vec::new(alloc),
            ends: Vec::new(alloc),
        }
    }

    /// The number of clauses.
    pub fn len(&self) -> usize
        ensures { result ≡ length self.now }
    {
        self.ends.len()
    }

    /// The clause of number i, from 0.
    pub fn get(&self, i: usize) -> &[Lit]
        requires { i < length self.now }
        ensures { result.now ≡ slice_index_or self.now i [] }
    {
        part(&self.lits, &self.ends, i)
    }

    /// Adds a clause at the end. For want of memory the list stays as it was.
    pub fn push(&mut self, clause: &[Lit]) -> Result<(), AllocError>
        ensures ok { OnOk result (self.new ≡ self.old ++ clause.now ∷ []) }
        ensures err { OnErr result (self.new ≡ self.old) }
    {
        self.lits.reserve(clause.len())?;
        self.ends.reserve(1)?;
        self.lits.extend_from_slice(clause)?;
        self.ends.push(self.lits.len())?;
        Ok(())
    }
}
