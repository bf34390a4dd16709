ghost use Rattle.std.specs.Prelude.{◌≡◌, ℕ, ◌+◌, ◌<◌, ◌++◌, [], ◌∷◌, length, IfOk, OnOk, OnErr, slice_index_or};
ghost use Rattle.sk_clause.specs.Problem.{IsWithin, AreWithin};

use crate::list::ClauseList;
use crate::lit::Lit;
use std::alloc::{AllocError, Global};
use std::marker::Model;

/// Variables, numbered from 0, and clauses over them. Contracts see the number of variables and the list of clauses.
///
/// The variables take no memory: they are counted, up to `usize::MAX`.
#[derive(Debug, Drop)]
pub struct Clauses {
    vars: usize,
    list: ClauseList,
}

impl Model for Clauses {
    ghost use Rattle.sk_clause.specs.Code.{coded_problem};
    ghost use Rattle.sk_clause.specs.Problem.{Problem, AreWithin};

    ghost Value = { Problem };

    ghost coded = { coded_problem };

    ghost view = { λ a. record { vars = a.vars; clauses = a.list } };

    ghost invariant = { λ a. AreWithin a.vars a.list };
}

#[tactic(auto, using(crate::proofs::ProblemLemmas::problem))]
impl Clauses {
    /// No variables, and no clauses. It takes no memory.
    pub fn new(alloc: Global) -> Clauses
        ensures vars { result.vars ≡ 0 }
        ensures clauses { result.clauses ≡ [] }
    {
        Clauses {
            vars: 0,
            list: ClauseList::new(alloc),
        }
    }

    /// So many variables, and no clauses. It takes no memory.
    pub fn with_vars(alloc: Global, vars: usize) -> Clauses
        ensures vars { result.vars ≡ vars }
        ensures clauses { result.clauses ≡ [] }
    {
        Clauses {
            vars,
            list: ClauseList::new(alloc),
        }
    }

    /// Makes a new variable, and gives its number, which is the number of variables before. Where there are
    /// `usize::MAX` of them already, the answer is want of memory, and all stays as it was.
    pub fn fresh(&mut self) -> Result<usize, AllocError>
        ensures ok { IfOk result (λ var. (var ≡ self.old.vars) × (self.new ≡ record self.old { vars = self.old.vars + 1 })) }
        ensures err { OnErr result (self.new ≡ self.old) }
    {
        let var = self.vars;
        let Some(more) = var.checked_add(1) else {
            return Err(AllocError);
        };
        self.vars = more;
        Ok(var)
    }

    /// Adds a clause over the variables that are there, at the end. For want of memory all stays as it was.
    pub fn push(&mut self, clause: &[Lit]) -> Result<(), AllocError>
        requires { IsWithin self.old.vars clause.now }
        ensures ok { OnOk result (self.new ≡ record self.old { clauses = self.old.clauses ++ clause.now ∷ [] }) }
        ensures err { OnErr result (self.new ≡ self.old) }
    {
        self.list.push(clause)
    }

    /// The number of variables.
    pub fn vars(&self) -> usize
        ensures { result ≡ self.now.vars }
    {
        self.vars
    }

    /// The number of clauses.
    pub fn len(&self) -> usize
        ensures { result ≡ length self.now.clauses }
    {
        self.list.len()
    }

    /// The clause of number i, from 0.
    pub fn get(&self, i: usize) -> &[Lit]
        requires { i < length self.now.clauses }
        ensures clause { result.now ≡ slice_index_or self.now.clauses i [] }
        ensures within { IsWithin self.now.vars result.now }
    {
        self.list.get(i)
    }

    /// The clauses as a list of their own, each over the variables.
    pub fn list(&self) -> &ClauseList
        ensures list { result.now ≡ self.now.clauses }
        ensures within { AreWithin self.now.vars self.now.clauses }
    {
        &self.list
    }
}
