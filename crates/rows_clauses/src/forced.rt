//! What clauses force, clause by clause.

use sk_clause::{Clauses, Lit};

// What is known of a literal.
fn value_of(values: &[Option<bool>], lit: Lit) -> Option<bool> {
    match values.get(lit.var) {
        Some(Some(value)) => Some(*value != lit.neg),
        _ => None,
    }
}

/// Gives the variable of a literal the value by which the literal is true, where there is such a variable.
pub fn make_true(values: &mut [Option<bool>], lit: Lit) {
    if lit.var < values.len() {
        values[lit.var] = Some(!lit.neg);
    }
}

// What a clause says: it is true or leaves a choice, or all its literals are false, or one literal alone can make it true.
#[derive(Clone, Copy)]
enum Says {
    Nothing,
    Never,
    Only(Lit),
}

fn reads(values: &[Option<bool>], clause: &[Lit]) -> Says {
    let mut left = Says::Never;
    for lit in clause {
        match value_of(values, *lit) {
            Some(true) => return Says::Nothing,
            Some(false) => {}
            None => match left {
                Says::Never => left = Says::Only(*lit),
                _ => return Says::Nothing,
            },
        }
    }
    left
}

/// Draws each conclusion that some clause forces, and says whether the clauses are met, if no variable is left open: then
/// no other values of the variables that were open meet them.
pub fn propagate(clauses: &Clauses, values: &mut [Option<bool>]) -> Option<bool> {
    for _ in 0..clauses.len() {
        let mut changed = false;
        for i in 0..clauses.len() {
            match reads(values, clauses.get(i)) {
                Says::Nothing => {}
                Says::Never => return Some(false),
                Says::Only(lit) => {
                    make_true(values, lit);
                    changed = true;
                }
            }
        }
        if !changed {
            break;
        }
    }
    if values.iter().any(|value| value.is_none()) {
        return None;
    }
    Some(true)
}
