//! Lists of shapes as bits, as many as are wanted.

ghost use Rattle.std.specs.Prelude.{◌≡◌, length, slice_get, IfOk, IsTrue};
ghost use Rattle.sk_dag.specs.declared.shape.Shape.TheViews.{out-Shape};
ghost use Rattle.sk_dag.specs.Eval.{Keeps};
ghost use Rattle.sk_arr.specs.Forms.{IsBit};
ghost use Rattle.sk_arr.specs.Shapes.{AllStand};
ghost use Rattle.sk_arr.specs.Bits.{AreBits};
ghost use Rattle.sk_sym_operators.specs.Fitting.{IsSmaller, node_in, node_at, nodes_of, AreFitted};

use sk_base::List;
use sk_dag::{BoolId, Dag, Shape};
use sk_sym_folds::flag;
use std::alloc::{AllocError, Global};

/// Whether a shape is seen to be a bit.
#[tactic(auto, using(crate::proofs::BitRows::bit_form))]
fn is_bit(s: &Shape) -> bool
    ensures { IsTrue result → IsBit s.now }
{
    match s {
        Shape::Bit(_) => true,
        _ => false,
    }
}

/// Whether each of these is seen to be a bit.
pub(crate) fn are_bits(list: &[Shape]) -> bool
    ensures { IsTrue result → AreBits list.now }
{
    for s in list {
        if !is_bit(s) {
            return false;
        }
    }
    true
}

/// Whether two lists are as long as each other, and each shape of the second is seen to be a bit.
pub(crate) fn are_even(x: &[Shape], y: &[Shape]) -> bool
    ensures bits { IsTrue result → AreBits y.now }
    ensures long { IsTrue result → (length x.now ≡ length y.now) }
{
    if x.len() != y.len() {
        return false;
    }
    are_bits(y)
}

/// The smaller of two numbers.
pub(crate) fn smaller(x: usize, y: usize) -> usize
    ensures { IsSmaller x y result }
{
    if x < y { x } else { y }
}

/// The node of a bit, and `no` for any other shape.
fn node_in(no: BoolId, s: &Shape) -> BoolId
    ensures { result ≡ node_in no (out-Shape s.now) }
{
    match s {
        Shape::Bit(id) => *id,
        _ => no,
    }
}

/// That of the shape at this place, and `no` where there is none.
fn node_at(no: BoolId, list: &[Shape], i: usize) -> BoolId
    ensures { result ≡ node_at no (slice_get list.now i) }
{
    match list.get(i) {
        Some(s) => node_in(no, s),
        None => no,
    }
}

/// So many bits: those of a list, and `no` in the place of any other shape and behind the end.
fn nodes_of(
    alloc: Global,
    no: BoolId,
    list: &[Shape],
    count: usize,
) -> Result<List<Shape>, AllocError>
    ensures { IfOk result (λ made. made ≡ nodes_of no list.now count) }
{
    let mut made = List::new(alloc);
    for i in 0..count {
        made.push(Shape::Bit(node_at(no, list, i)))?;
    }
    Ok(made)
}

/// So many bits: those of a list, and false in the place of any other shape and behind the end.
pub(crate) fn fitted(
    alloc: Global,
    dag: &mut Dag,
    list: &List<Shape>,
    count: usize,
) -> Result<List<Shape>, AllocError>
    requires { AllStand dag.old list.now }
    ensures keeps { Keeps dag.old dag.new }
    ensures fitted { IfOk result (λ made. AreFitted dag.new list.now count made) }
{
    let no = flag(dag, false)?;
    let made = nodes_of(alloc, no, list.as_slice(), count)?;
    Ok(made)
}
