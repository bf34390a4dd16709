ghost use Rattle.std.specs.Prelude.{Bool, ◌&&◌};
ghost use Rattle.sk_gates.specs.Bits.{IsFolded, differ};

use crate::bit::Bit;
use sk_clause::Lit;

// What is known of a gate before it is made: a bit that is there already, or the literals of which it is to be made.
#[derive(Drop)]
pub enum Folded {
    Done(Bit),
    Gate(Lit, Lit),
}

// Both of two bits.
pub fn fold_and(a: Bit, b: Bit) -> Folded
    ensures { IsFolded (λ x y. x && y) a b result }
{
    match a {
        Bit::Constant(known) => Folded::Done(if known { b } else { a }),
        Bit::Literal(x) => match b {
            Bit::Constant(known) => Folded::Done(if known { a } else { b }),
            Bit::Literal(y) => {
                if x.is(y) {
                    Folded::Done(a)
                } else if x.is(y.negate()) {
                    Folded::Done(Bit::Constant(false))
                } else {
                    Folded::Gate(x, y)
                }
            }
        },
    }
}

// One of two bits, and not both.
pub fn fold_xor(a: Bit, b: Bit) -> Folded
    ensures { IsFolded differ a b result }
{
    match a {
        Bit::Constant(known) => Folded::Done(if known { b.negate() } else { b }),
        Bit::Literal(x) => match b {
            Bit::Constant(known) => Folded::Done(if known { a.negate() } else { a }),
            Bit::Literal(y) => {
                if x.is(y) {
                    Folded::Done(Bit::Constant(false))
                } else if x.is(y.negate()) {
                    Folded::Done(Bit::Constant(true))
                } else {
                    Folded::Gate(x, y)
                }
            }
        },
    }
}
