// The known clauses, in little memory.
ghost use Rattle.std.specs.Prelude.{◌≡◌, ℕ, ◌<◌, ◌++◌, [], ◌∷◌, length, take, OnOk, OnErr, slice_index_or};
ghost use Rattle.sk_clause.specs.Split.{parts, EndsAt};

use crate::packed::Packed;
use sk_clause::Lit;
use std::alloc::{AllocError, Global};
use std::marker::Model;

// The i-th part of a flat list.
#[tactic(auto, using(sk_clause::proofs::SplitLemmas::store))]
fn part<'a>(flat: &'a [Packed], ends: &[usize], i: usize) -> &'a [Packed]
    requires ends { EndsAt 0 ends.now (length flat.now) }
    requires within { i < length ends.now }
    ensures { result.now ≡ slice_index_or (parts 0 ends.now flat.now) i [] }
{
    let end = ends[i];
    let start = if i == 0 { 0 } else { ends[i - 1] };
    prove!(start <= end);
    prove!(end <= flat.len());
    &flat[start..end]
}

// Puts the literals of a clause behind others. For want of memory maybe only some of them.
fn append(flat: &mut Vec<Packed>, clause: &[Lit]) -> Result<(), AllocError>
    ensures front { take (length flat.old.items) flat.new.items ≡ flat.old.items }
    ensures ok { OnOk result (flat.new.items ≡ flat.old.items ++ clause.now) }
{
    for l in clause {
        flat.push(Packed::new(*l)?)?;
    }
    Ok(())
}

// Puts the literals of a clause behind others. For want of memory these stay as they were.
fn extend(flat: &mut Vec<Packed>, clause: &[Lit]) -> Result<(), AllocError>
    ensures ok { OnOk result (flat.new.items ≡ flat.old.items ++ clause.now) }
    ensures err { OnErr result (flat.new.items ≡ flat.old.items) }
{
    let begin = flat.len();
    match append(flat, clause) {
        Ok(()) => Ok(()),
        Err(error) => {
            flat.truncate(begin);
            Err(error)
        }
    }
}

/// A list of clauses, whose literals take four bytes each. Contracts see the list of them.
#[derive(Drop)]
pub struct Store {
    lits: Vec<Packed>,
    ends: Vec<usize>,
}

impl Model for Store {
    ghost use Rattle.std.specs.Prelude.{List, length};
    ghost use Rattle.sk_clause.specs.Code.{coded_clauses};
    ghost use Rattle.sk_clause.specs.declared.lit.Lit.{Lit};
    ghost use Rattle.sk_clause.specs.Split.{parts, EndsAt};

    ghost Value = { List (List Lit) };

    ghost coded = { coded_clauses };

    ghost view = { λ a. parts 0 a.ends.items a.lits.items };

    ghost invariant = { λ a. EndsAt 0 a.ends.items (length a.lits.items) };
}

#[tactic(auto, using(sk_clause::proofs::SplitLemmas::store))]
impl Store {
    /// No clauses. It takes no memory.
    pub fn new(alloc: Global) -> Store
        ensures { result ≡ [] }
    {
        Store {
            lits: Vec::new(alloc),
            ends: Vec::new(alloc),
        }
    }

    /// The number of clauses.
    pub fn len(&self) -> usize
        ensures { result ≡ length self.now }
    {
        self.ends.len()
    }

    /// The clause of number i, from 0.
    pub fn get(&self, i: usize) -> &[Packed]
        requires { i < length self.now }
        ensures { result.now ≡ slice_index_or self.now i [] }
    {
        part(&self.lits, &self.ends, i)
    }

    /// Adds a clause at the end. After a refusal the list stays as it was (`err`).
    pub fn push(&mut self, clause: &[Lit]) -> Result<(), AllocError>
        ensures ok { OnOk result (self.new ≡ self.old ++ clause.now ∷ []) }
        ensures err { OnErr result (self.new ≡ self.old) }
    {
        self.ends.reserve(1)?;
        extend(&mut self.lits, clause)?;
        self.ends.push(self.lits.len())?;
        Ok(())
    }
}
