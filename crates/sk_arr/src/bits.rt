//! Arrays of bits as numbers: their sums.

ghost use Rattle.std.specs.Prelude.{◌≡◌, ◌&&◌, ◌||◌, not, length, IfOk, if◌then◌else◌};
ghost use Rattle.sk_dag.specs.declared.env.Env.{Env};
ghost use Rattle.sk_dag.specs.Graph.{Graph, Grows, HasBool};
ghost use Rattle.sk_dag.specs.Eval.{bool_value, Keeps};
ghost use Rattle.sk_arr.specs.Forms.{IsBit};
ghost use Rattle.sk_arr.specs.Shapes.{Stands, AllStand};
ghost use Rattle.sk_arr.specs.Bits.{AreBits, xor, carried, IsAddedBit, IsSum};

use crate::maker::{both, either, flag_of, opposite};
use crate::part::bit_of;
use sk_base::List;
use sk_dag::{BoolId, Dag, Shape};
use std::alloc::{AllocError, Global};

/// Whether exactly one holds.
#[tactic(auto, using(crate::proofs::Makers::staying))]
pub(crate) fn differ(dag: &mut Dag, a: BoolId, b: BoolId) -> Result<BoolId, AllocError>
    requires a { HasBool dag.old.nodes a }
    requires b { HasBool dag.old.nodes b }
    ensures keeps { Keeps dag.old dag.new }
    ensures there { IfOk result (λ r. HasBool dag.new.nodes r) }
    ensures value { IfOk result (λ r. (g : Graph) → Grows dag.new g → (e : Env) →
        bool_value g e r ≡ xor (bool_value g e a) (bool_value g e b)) }
{
    match flag_of(dag, a) {
        Some(true) => {
            let r = opposite(dag, b)?;
            return Ok(r);
        }
        Some(false) => return Ok(b),
        None => {}
    }
    match flag_of(dag, b) {
        Some(true) => {
            let r = opposite(dag, a)?;
            return Ok(r);
        }
        Some(false) => return Ok(a),
        None => {}
    }
    let r = dag.xor(a, b)?;
    Ok(r)
}

/// One bit of a sum, and what is carried on.
#[derive(Clone, Copy)]
struct Added {
    sum: BoolId,
    carry: BoolId,
}

/// The sum of two bits and of what is carried to them.
#[tactic(auto, using(crate::proofs::SumLaws::adding))]
fn add_one(dag: &mut Dag, a: BoolId, b: BoolId, carry: BoolId) -> Result<Added, AllocError>
    requires a { HasBool dag.old.nodes a }
    requires b { HasBool dag.old.nodes b }
    requires carry { HasBool dag.old.nodes carry }
    ensures keeps { Keeps dag.old dag.new }
    ensures sum_there { IfOk result (λ r. HasBool dag.new.nodes r.sum) }
    ensures carry_there { IfOk result (λ r. HasBool dag.new.nodes r.carry) }
    ensures sum { IfOk result (λ r. (g : Graph) → Grows dag.new g → (e : Env) →
        bool_value g e r.sum ≡ xor (xor (bool_value g e a) (bool_value g e b)) (bool_value g e carry)) }
    ensures carried { IfOk result (λ r. (g : Graph) → Grows dag.new g → (e : Env) →
        bool_value g e r.carry ≡ carried (bool_value g e a) (bool_value g e b) (bool_value g e carry)) }
{
    let one = differ(dag, a, b)?;
    let sum = differ(dag, one, carry)?;
    let two = both(dag, a, b)?;
    let more = both(dag, one, carry)?;
    let carry = either(dag, two, more)?;
    Ok(Added { sum, carry })
}

/// The sum of two bits and of what is carried to them, as shapes.
#[tactic(auto, using(crate::proofs::SumLaws::bits))]
fn add_bit(dag: &mut Dag, a: &Shape, b: &Shape, carry: BoolId) -> Result<Added, AllocError>
    requires a { Stands dag.old a.now }
    requires b { Stands dag.old b.now }
    requires a_bit { IsBit a.now }
    requires b_bit { IsBit b.now }
    requires carry { HasBool dag.old.nodes carry }
    ensures keeps { Keeps dag.old dag.new }
    ensures added { IfOk result (λ r. IsAddedBit dag.new a.now b.now carry r.sum r.carry) }
{
    let r = add_one(dag, bit_of(a), bit_of(b), carry)?;
    Ok(r)
}

/// The sum of two numbers, bit 0 first, but for what is carried out of the last bit.
#[tactic(auto, using(crate::proofs::SumLaws::adding))]
fn sum_of(alloc: Global, dag: &mut Dag, a: &[Shape], b: &[Shape]) -> Result<List<Shape>, AllocError>
    requires a { AllStand dag.old a.now }
    requires b { AllStand dag.old b.now }
    requires a_bits { AreBits a.now }
    requires b_bits { AreBits b.now }
    requires long { length a.now ≡ length b.now }
    ensures keeps { Keeps dag.old dag.new }
    ensures sum { IfOk result (λ made. IsSum dag.new a.now b.now made) }
{
    let no = dag.flag(false)?;
    let mut made = List::new(alloc);
    let mut carry = no;
    let mut i = 0;
    for x in a {
        let next = add_bit(dag, x, &b[i], carry)?;
        made.push(Shape::Bit(next.sum))?;
        carry = next.carry;
        i += 1;
    }
    Ok(made)
}

/// The sum of two numbers, bit 0 first, modulo 2 to their length, as a ripple of carries. The two are as long as each
/// other.
pub fn add_bits(
    alloc: Global,
    dag: &mut Dag,
    a: &List<Shape>,
    b: &List<Shape>,
) -> Result<List<Shape>, AllocError>
    requires a { AllStand dag.old a.now }
    requires b { AllStand dag.old b.now }
    requires a_bits { AreBits a.now }
    requires b_bits { AreBits b.now }
    requires long { length a.now ≡ length b.now }
    ensures keeps { Keeps dag.old dag.new }
    ensures sum { IfOk result (λ made. IsSum dag.new a.now b.now made) }
{
    let made = sum_of(alloc, dag, a.as_slice(), b.as_slice())?;
    Ok(made)
}
