ghost use Rattle.std.specs.Prelude.{◌≡◌};
ghost use Rattle.std.specs.Str.{bytes_eq};
ghost use Rattle.sk_types_rules.specs.Scope.{lookup, is_taken};

use sk_base::Name;
use sk_prog::Ty;

/// A variable in scope. Its slot is its place among those in scope, oldest first.
#[derive(Debug, Drop)]
pub struct Variable {
    pub name: Name,
    pub ty: Ty,
}

/// What the name of a variable means.
#[derive(Debug, Drop, Clone, Copy)]
pub struct Place {
    pub slot: usize,
    pub ty: Ty,
}

fn is_same(a: &Name, b: &Name) -> bool
    ensures { result ≡ bytes_eq a.now b.now }
{
    a.as_bytes() == b.as_bytes()
}

/// The nearest visible variable of this name.
pub fn lookup(scope: &[Variable], name: &Name) -> Option<Place>
    ensures { result ≡ lookup scope.now name.now }
{
    let mut found = None;
    for (slot, variable) in scope.iter().enumerate() {
        if is_same(&variable.name, name) {
            found = Some(Place {
                slot,
                ty: variable.ty,
            });
        }
    }
    found
}

/// Whether a name with this meaning is declared in the block whose variables begin at this slot.
pub fn is_taken(from: usize, place: Option<Place>) -> bool
    ensures { result ≡ is_taken from place }
{
    match place {
        None => false,
        Some(place) => from <= place.slot,
    }
}
