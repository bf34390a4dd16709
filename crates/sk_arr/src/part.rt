//! What a shape of a known form is made of.

ghost use Rattle.std.specs.Prelude.{◌≡◌};
ghost use Rattle.sk_dag.specs.declared.shape.Shape.TheVariants.{Bit, Int, Reference, Array};
ghost use Rattle.sk_arr.specs.Forms.{IsBit, IsInt, IsReference, IsArray};

use sk_dag::{BoolId, Shape, Targets, WordId};

/// The node of a bit.
pub(crate) fn bit_of(a: &Shape) -> BoolId
    requires { IsBit a.now }
    ensures { a.now ≡ Bit result }
{
    match a {
        Shape::Bit(id) => *id,
        _ => unreachable!(),
    }
}

/// The node of an integer.
pub(crate) fn word_of(a: &Shape) -> WordId
    requires { IsInt a.now }
    ensures { a.now ≡ Int result }
{
    match a {
        Shape::Int(id) => *id,
        _ => unreachable!(),
    }
}

/// The targets of a reference.
pub(crate) fn targets_of(a: &Shape) -> &Targets
    requires { IsReference a.now }
    ensures { a.now ≡ Reference result.now }
{
    match a {
        Shape::Reference(targets) => targets,
        _ => unreachable!(),
    }
}

/// The elements of an array.
pub(crate) fn parts_of(a: &Shape) -> &[Shape]
    requires { IsArray a.now }
    ensures { a.now ≡ Array result.now }
{
    match a {
        Shape::Array(parts) => parts.as_slice(),
        _ => unreachable!(),
    }
}
