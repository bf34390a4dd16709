//! Gates over literals: each adds to a list of clauses new variables that the old ones fix, and answers literals of them
//! (or, in the layer over bits, constants and literals that were there) that stand for the function named.
#![tactic(auto)]

mod bit;
mod bits;
mod convert;
mod each;
mod fold;
mod gate;
mod gates;
mod key;
mod product;
mod quotient;
mod shared;
mod sharing;
mod words;

pub use bit::Bit;
pub use convert::literal;
pub use each::{and_each, mux_each, not_each, padded, zeros};
pub use gates::{adder, and, divider, less, multiplier, mux, xor};
pub use product::mul_bits;
pub use quotient::{div_bits, subtract_bits};
pub use shared::{Made, SharedGates};
pub use words::{add_bits, add_carry, less_bits};
