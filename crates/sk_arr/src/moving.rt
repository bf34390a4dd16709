//! Arrays of bits as numbers: their shifts.

ghost use Rattle.std.specs.Prelude.{◌≡◌, ◌<◌, IfOk, reverse, length};
ghost use Rattle.sk_dag.specs.Graph.{HasWord};
ghost use Rattle.sk_dag.specs.Eval.{Keeps};
ghost use Rattle.sk_arr.specs.Shapes.{AllStand};
ghost use Rattle.sk_arr.specs.Bits.{ordered, AreBits, IsRow, IsMoved, IsShifted};

use crate::copy::copy_all;
use crate::index::{element, is_below};
use sk_base::List;
use sk_dag::{BoolId, Dag, Shape, WordId};
use std::alloc::{AllocError, Global};

/// The shapes from the last to the first.
#[tactic(auto, using(crate::proofs::MoveLaws::turns))]
fn turned(alloc: Global, list: List<Shape>) -> Result<List<Shape>, AllocError>
    ensures { IfOk result (λ made. made ≡ reverse list) }
{
    let mut rest = list;
    let mut made = List::new(alloc);
    while let Some(last) = rest.pop() {
        made.push(last)?;
    }
    Ok(made)
}

/// The shapes from the last to the first where they are to be turned, and else as they are.
fn in_order(alloc: Global, turn: bool, list: List<Shape>) -> Result<List<Shape>, AllocError>
    ensures { IfOk result (λ made. made ≡ ordered turn list) }
{
    if !turn {
        return Ok(list);
    }
    let made = turned(alloc, list)?;
    Ok(made)
}

/// The bits in the order in which they move to lower places, and behind them one that is false.
#[tactic(auto, using(crate::proofs::MoveLaws::rows))]
fn row_of(alloc: Global, dag: &mut Dag, left: bool, a: &[Shape]) -> Result<List<Shape>, AllocError>
    requires a { AllStand dag.old a.now }
    requires bits { AreBits a.now }
    ensures keeps { Keeps dag.old dag.new }
    ensures row { IfOk result (λ row. IsRow dag.new left a.now row) }
{
    let no = dag.flag(false)?;
    let copied = copy_all(alloc, a)?;
    let mut row = in_order(alloc, left, copied)?;
    row.push(Shape::Bit(no))?;
    Ok(row)
}

/// What stands so many places behind each but the last of a row, which is false.
#[tactic(auto, using(crate::proofs::MoveLaws::moves))]
fn moved(alloc: Global, dag: &mut Dag, row: &[Shape], by: WordId) -> Result<List<Shape>, AllocError>
    requires by { HasWord dag.old.nodes by }
    requires row { AllStand dag.old row.now }
    requires bits { AreBits row.now }
    requires some { 0 < length row.now }
    ensures keeps { Keeps dag.old dag.new }
    ensures moved { IfOk result (λ made. IsMoved dag.new row.now by made) }
{
    let mut made = List::new(alloc);
    for place in 0..row.len() - 1 {
        let one = element(alloc, dag, &row[place..], by)?;
        made.push(one)?;
    }
    Ok(made)
}

/// The bits moved by a count to higher places, or to lower ones, where the count is not negative; zeros come in. And
/// whether the count is negative. Adds no node but flags where the count is given.
#[tactic(auto, using(crate::proofs::MoveLaws::whole))]
pub fn shift(
    alloc: Global,
    dag: &mut Dag,
    left: bool,
    a: &List<Shape>,
    by: WordId,
) -> Result<(List<Shape>, BoolId), AllocError>
    requires by { HasWord dag.old.nodes by }
    requires a { AllStand dag.old a.now }
    requires bits { AreBits a.now }
    ensures keeps { Keeps dag.old dag.new }
    ensures shifted { IfOk result (λ r. IsShifted dag.new left a.now by r.0 r.1) }
{
    let row = row_of(alloc, dag, left, a.as_slice())?;
    let lower = moved(alloc, dag, row.as_slice(), by)?;
    let outside = is_below(dag, by, 0)?;
    let made = in_order(alloc, left, lower)?;
    Ok((made, outside))
}
