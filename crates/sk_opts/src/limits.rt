//! The bounds that options and pragmas give.
ghost use Rattle.std.specs.Prelude.{◌≡◌, ◌≤◌, ℕ, Some, min};
ghost use Rattle.sk_opts.specs.BoundsOf.{bounds_of, chosen, int_bits_of};
ghost use Rattle.sk_opts.specs.Ranges.{IsBetween, IsInRanges, AreInRanges};

use crate::line::Set;
use crate::pragmas::pragma_set;
use sk_base::Bounds;
use sk_tree::Tree;

fn smaller(a: u32, b: u32) -> u32
    ensures { result ≡ min a b }
{
    if a < b { a } else { b }
}

fn int_bits_of(set: &Set) -> u32
    requires { IsInRanges set.now }
    ensures value { result ≡ int_bits_of set.now }
    ensures low { 6 ≤ result }
    ensures high { result ≤ 32 }
{
    match set.int_bits {
        Some(bits) => bits,
        None => 16,
    }
}

// The option's number, else the pragma's, else the default; all between these two.
fn chosen(option: Option<u32>, pragma: Option<u32>, default: u32) -> u32
    ensures value { result ≡ chosen option pragma default }
    ensures between { (low high : ℕ) → IsBetween low high option → IsBetween low high pragma → IsBetween low high (Some default) → IsBetween low high (Some result) }
{
    match option {
        Some(number) => number,
        None => match pragma {
            Some(number) => number,
            None => default,
        },
    }
}

/// The bounds that the options and the pragmas of a text give: each is the option's number, else that of the last
/// pragma that sets it, else the default. Holes and inputs have at most as many bits as an `int` without its sign.
/// It takes no memory.
pub fn bounds(set: &Set, tree: &Tree) -> Bounds
    // Each number of the set lies in its option's range.
    requires { IsInRanges set.now }
    ensures value { result ≡ bounds_of set.now tree.now }
    ensures ranges { AreInRanges result }
{
    let pragma = pragma_set(tree);
    let int_bits = int_bits_of(set);
    let most = int_bits - 1;
    let cbits = chosen(set.cbits, pragma.cbits, 5);
    let inbits = chosen(set.inbits, pragma.inbits, 5);
    let unroll = chosen(set.unroll, pragma.unroll, 8);
    let inline_amnt = chosen(set.inline_amnt, pragma.inline_amnt, 5);
    Bounds {
        int_bits,
        cbits: smaller(cbits, most),
        inbits: smaller(inbits, most),
        unroll,
        inline_amnt,
    }
}
