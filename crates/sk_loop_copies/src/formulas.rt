//! Copies of formulas.

ghost use Rattle.std.specs.Prelude.{◌≡◌, IfOk};

use sk_base::List;
use sk_clause::Clauses;
use sk_cnf::Encoded;
use std::alloc::{AllocError, Global};

/// Variables and clauses as these.
#[tactic(auto, using(crate::proofs::Copies::fronts))]
pub fn copy_clauses(alloc: Global, clauses: &Clauses) -> Result<Clauses, AllocError>
    ensures { IfOk result (λ copy. copy ≡ clauses.now) }
{
    let mut copy = Clauses::with_vars(alloc, clauses.vars());
    for i in 0..clauses.len() {
        copy.push(clauses.get(i))?;
    }
    Ok(copy)
}

/// A formula as this one.
pub fn copy_encoded(alloc: Global, encoded: &Encoded) -> Result<Encoded, AllocError>
    ensures { IfOk result (λ copy. copy ≡ encoded.now) }
{
    let clauses = copy_clauses(alloc, &encoded.clauses)?;
    let names = List::from_slice(alloc, encoded.names.as_slice())?;
    Ok(Encoded { clauses, names })
}
