//! Holes.
ghost use Rattle.std.specs.Prelude.{◌≡◌};
ghost use Rattle.sk_model.specs.Stands.{hole_count};

use sk_prog::{Elem, Ty};

/// How many sites a hole of this type has.
pub fn hole_count(ty: Option<Ty>) -> usize
    ensures { result ≡ hole_count ty }
{
    match ty {
        Some(Ty::Array(Elem::Bit, count)) => count as usize,
        _ => 1,
    }
}
