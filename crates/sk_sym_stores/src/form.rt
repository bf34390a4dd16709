//! Of which form shapes are, as the values of types are.

ghost use Rattle.std.specs.Prelude.{◌≡◌, IsTrue, map, replicate};
ghost use Rattle.sk_arr.specs.Shapes.{blank};
ghost use Rattle.sk_heap.specs.Types.{form_of, form_of_elem};
ghost use Rattle.sk_prog.specs.declared.ty.Ty.TheVariants as ty;

use sk_dag::Shape;
use sk_prog::{Elem, Ty};

/// Whether a shape is seen to be of the form of a single value of a type.
fn is_single(elem: Elem, r: &Shape) -> bool
    ensures { IsTrue result → (blank r.now ≡ form_of_elem elem) }
{
    match elem {
        Elem::Bit => match r {
            Shape::Bit(_) => true,
            _ => false,
        },
        Elem::Int => match r {
            Shape::Int(_) => true,
            _ => false,
        },
        Elem::Reference(_) => match r {
            Shape::Reference(_) => true,
            _ => false,
        },
    }
}

/// Whether shapes are seen to be of the forms of so many single values of a type.
fn are_singles(elem: Elem, count: u32, list: &[Shape]) -> bool
    ensures { IsTrue result → (map blank list.now ≡ replicate count (form_of_elem elem)) }
{
    for r in list {
        if !is_single(elem, r) {
            return false;
        }
    }
    list.len() == count as usize
}

/// Whether a shape is seen to be of the form of an array of so many single values of a type.
fn is_row(elem: Elem, count: u32, r: &Shape) -> bool
    ensures { IsTrue result → (blank r.now ≡ form_of (ty.Array elem count)) }
{
    match r {
        Shape::Array(list) => are_singles(elem, count, list.as_slice()),
        _ => false,
    }
}

/// Whether shapes are seen to be of the forms of so many such arrays.
fn are_rows(elem: Elem, count: u32, rows: u32, list: &[Shape]) -> bool
    ensures { IsTrue result → (map blank list.now ≡ replicate rows (form_of (ty.Array elem count))) }
{
    for r in list {
        if !is_row(elem, count, r) {
            return false;
        }
    }
    list.len() == rows as usize
}

/// Whether a shape is seen to be of the form of an array of such arrays.
fn is_grid(elem: Elem, count: u32, rows: u32, r: &Shape) -> bool
    ensures { IsTrue result → (blank r.now ≡ form_of (ty.Grid elem count rows)) }
{
    match r {
        Shape::Array(list) => are_rows(elem, count, rows, list.as_slice()),
        _ => false,
    }
}

/// Whether a shape is seen to be of the form of the values of a type.
pub(crate) fn has_form(t: &Ty, r: &Shape) -> bool
    ensures { IsTrue result → (blank r.now ≡ form_of t.now) }
{
    match t {
        Ty::One(elem) => is_single(*elem, r),
        Ty::Array(elem, count) => is_row(*elem, *count, r),
        Ty::Grid(elem, count, rows) => is_grid(*elem, *count, *rows, r),
    }
}
