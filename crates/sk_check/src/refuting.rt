//! Whether the log of a part refutes its formula.

ghost use Rattle.std.specs.Prelude.{◌↔◌, All, IfOk, IsTrue};
ghost use Rattle.sk_check_laws.specs.Parts.{Refuting};

use sk_cert::Proof;
use sk_clause::{ClauseList, Lit};
use sk_limits::too_many;
use sk_rup::refutes;
use std::alloc::{AllocError, Global};

/// So many variables are followed whatever names them.
const FEW_VARS: usize = 65_536;

/// How many literals stand in clauses, and how many variables there are up to the greatest of them.
#[derive(Clone, Copy, Drop)]
struct Extent {
    lits: usize,
    vars: usize,
}

// The same with a clause more.
fn with_clause(extent: Extent, clause: &[Lit]) -> Extent {
    let mut vars = extent.vars;
    for l in clause {
        if l.var >= vars {
            vars = l.var.saturating_add(1);
        }
    }
    Extent {
        lits: extent.lits.saturating_add(clause.len()),
        vars,
    }
}

// The same with the clauses of a list more.
fn with_list(extent: Extent, list: &ClauseList) -> Extent {
    let mut extent = extent;
    for i in 0..list.len() {
        extent = with_clause(extent, list.get(i));
    }
    extent
}

// Whether a variable stands in the formula or the log whose number is greater than they have literals and the formula has
// names, and is not small. A formula that is made for a query has none: each of its variables is a name or stands in a clause.
fn is_sparse(proof: &Proof) -> bool {
    let none = Extent { lits: 0, vars: 0 };
    let formula = with_list(none, proof.formula.clauses.list());
    let whole = with_list(formula, &proof.log);
    let apart = whole.lits.saturating_add(proof.formula.names.len());
    whole.vars > FEW_VARS && whole.vars > apart
}

/// Whether the log refutes the clauses of the formula. Where a variable stands in them whose number is past 65,536, past
/// the names and past all literals, so that its number alone would take memory, this counts as want of memory.
pub(crate) fn is_refuted(alloc: Global, proof: &Proof) -> Result<bool, AllocError>
    ensures { IfOk result (λ refuted. IsTrue refuted ↔ Refuting proof.now) }
{
    if is_sparse(proof) {
        return Err(too_many());
    }
    let refuted = refutes(alloc, &proof.formula.clauses, &proof.log)?;
    Ok(refuted)
}

/// Whether each is refuted.
pub(crate) fn are_refuted(alloc: Global, proofs: &[Proof]) -> Result<bool, AllocError>
    ensures { IfOk result (λ refuted. IsTrue refuted ↔ All Refuting proofs.now) }
{
    for proof in proofs {
        let refuted = is_refuted(alloc, proof)?;
        if !refuted {
            return Ok(false);
        }
    }
    Ok(true)
}
