// The literals that are true so far, in the order in which they became so.
ghost use Rattle.std.specs.Prelude.{◌≡◌, ℕ, ◌<◌, ◌≤◌, ◌++◌, ◌∷◌, [], take, length, IfOk, OnOk, None, replicate};
ghost use Rattle.sk_clause.specs.Values.{IsOpen, assigned};
ghost use Rattle.sk_rup.specs.Steps.{Covers};

use sk_clause::Lit;
use std::alloc::{AllocError, Global};

/// The values of the variables, and the literals that these make true, in the order in which they became so.
#[derive(Drop)]
pub struct Trail {
    pub values: Vec<Option<bool>>,
    pub lits: Vec<Lit>,
}

// No value for any of n variables.
fn nones(alloc: Global, n: usize) -> Result<Vec<Option<bool>>, AllocError>
    ensures { IfOk result (λ v. v.items ≡ replicate n None) }
{
    vec![in alloc; None; n]
}

impl Trail {
    /// No literal is true.
    #[tactic(auto, using(crate::proofs::TrailLemmas::begins))]
    pub fn new(alloc: Global, vars: usize) -> Result<Trail, AllocError>
        ensures covers { IfOk result (λ t. Covers t.values.items t.lits.items) }
        ensures long { IfOk result (λ t. length t.values.items ≡ vars) }
        ensures empty { IfOk result (λ t. t.lits.items ≡ []) }
    {
        let values = nones(alloc, vars)?;
        let lits = Vec::with_capacity(alloc, vars)?;
        Ok(Trail { values, lits })
    }

    /// Makes a literal true. After a refusal the trail is given up with the checker that holds it.
    #[tactic(auto, using(crate::proofs::TrailLemmas::forces))]
    pub fn force(&mut self, l: Lit) -> Result<(), AllocError>
        requires open { IsOpen self.old.values.items l }
        requires within { l.var < length self.old.values.items }
        requires covers { Covers self.old.values.items self.old.lits.items }
        ensures covers { OnOk result (Covers self.new.values.items self.new.lits.items) }
        ensures values { OnOk result (self.new.values.items ≡ assigned self.old.values.items l) }
        ensures lits { OnOk result (self.new.lits.items ≡ self.old.lits.items ++ l ∷ []) }
    {
        self.lits.push(l)?;
        self.values[l.var] = Some(!l.neg);
        Ok(())
    }

    /// Takes the values of the literals from a place on, and then these literals.
    #[tactic(auto, using(crate::proofs::TrailLemmas::undoes))]
    pub fn undo(&mut self, begin: usize)
        requires covers { Covers self.old.values.items self.old.lits.items }
        requires begin { begin ≤ length self.old.lits.items }
        ensures covers { Covers self.new.values.items self.new.lits.items }
        ensures lits { self.new.lits.items ≡ take begin self.old.lits.items }
        ensures long { length self.new.values.items ≡ length self.old.values.items }
    {
        clear(&mut self.values, &mut self.lits, begin);
    }
}

// Takes the values of the last literals, from a place on, and then the literals.
#[tactic(auto, using(crate::proofs::TrailLemmas::clears))]
fn clear(values: &mut [Option<bool>], lits: &mut Vec<Lit>, begin: usize)
    requires covers { Covers values.old lits.old.items }
    requires begin { begin ≤ length lits.old.items }
    ensures covers { Covers values.new lits.new.items }
    ensures lits { lits.new.items ≡ take begin lits.old.items }
{
    'pops: while lits.len() > begin {
        if let Some(l) = lits.pop() {
            if l.var < values.len() {
                values[l.var] = None;
            }
        }
    }
}
