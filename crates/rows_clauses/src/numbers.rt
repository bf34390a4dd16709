//! Clauses by the numbers of the DIMACS format.

use sk_clause::{ClauseList, Lit};
use std::alloc::{AllocError, Global};

/// The literal that a number writes.
fn lit(n: i32) -> Lit {
    Lit {
        var: (n.unsigned_abs() as usize).wrapping_sub(1),
        neg: n < 0,
    }
}

/// The clauses that numbers write, each ended by 0.
pub fn list_of(alloc: Global, numbers: &[i32]) -> Result<ClauseList, AllocError> {
    let mut list = ClauseList::new(alloc);
    let mut clause: Vec<Lit> = Vec::new(alloc);
    for n in numbers {
        if *n == 0 {
            list.push(&clause)?;
            clause.clear();
        } else {
            clause.push(lit(*n))?;
        }
    }
    Ok(list)
}

/// Both signs of two variables.
pub const SQUARE: &[i32] = &[1, 2, 0, 1, -2, 0, -1, 2, 0, -1, -2, 0];
