//! Whether two shapes are of one form.

ghost use Rattle.std.specs.Prelude.{◌≡◌, ◌↔◌, IsTrue, map};
ghost use Rattle.sk_arr.specs.Shapes.{blank, Alike};

use sk_dag::Shape;

/// Whether two shapes are of one form.
#[cycle(alike)]
#[tactic(auto, using(crate::proofs::Forms::of_one_form))]
pub fn alike(a: &Shape, b: &Shape) -> bool
    ensures { IsTrue result ↔ Alike a.now b.now }
{
    match a {
        Shape::Bit(_) => match b {
            Shape::Bit(_) => true,
            _ => false,
        },
        Shape::Int(_) => match b {
            Shape::Int(_) => true,
            _ => false,
        },
        Shape::Reference(_) => match b {
            Shape::Reference(_) => true,
            _ => false,
        },
        Shape::Array(x) => match b {
            Shape::Array(y) => all_alike(x.as_slice(), y.as_slice()),
            _ => false,
        },
    }
}

/// Whether two lists of shapes are of the same forms, one by one.
#[cycle(alike)]
fn all_alike(list: &[Shape], others: &[Shape]) -> bool
    ensures { IsTrue result ↔ (map blank list.now ≡ map blank others.now) }
{
    if list.len() != others.len() {
        return false;
    }
    let mut i = 0;
    for a in list {
        if !alike(a, &others[i]) {
            return false;
        }
        i += 1;
    }
    true
}
