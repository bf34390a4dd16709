// Literals as small numbers, as the watches keep them: twice the number of the variable, and one more for a negation.
use sk_clause::Lit;

/// No literal, and no number of a clause or a place.
pub const NONE: u32 = u32::MAX;

/// Variables from here on have no such numbers.
const VARS: usize = 1 << 31;

/// The number of a literal, or `NONE`.
pub fn code_of(l: Lit) -> u32 {
    if l.var >= VARS {
        return NONE;
    }
    let twice = (l.var as u32) * 2;
    if l.neg { twice + 1 } else { twice }
}

/// A number of things, where it is small enough, or `NONE`.
pub fn place_of(n: usize) -> u32 {
    if n < NONE as usize { n as u32 } else { NONE }
}

/// The number of the negation.
pub fn opposite(code: u32) -> u32 {
    code ^ 1
}

// Whether the literal has this value.
fn has_value(values: &[Option<bool>], code: u32, wanted: bool) -> bool {
    match values.get((code / 2) as usize) {
        Some(Some(b)) => (*b != (code % 2 == 1)) == wanted,
        _ => false,
    }
}

/// Whether the literal is true.
pub fn is_true(values: &[Option<bool>], code: u32) -> bool {
    has_value(values, code, true)
}

/// Whether the literal is false.
pub fn is_false(values: &[Option<bool>], code: u32) -> bool {
    has_value(values, code, false)
}
