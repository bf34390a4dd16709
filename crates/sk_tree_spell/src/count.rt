//! How many strings a pattern has, counted as far as it matters.
ghost use Rattle.std.specs.Prelude.{◌≡◌, map, min};
ghost use Rattle.sk_tree_spell.specs.Counts.{plus, times, sum_from, product_from, count_of};

use sk_tree::Pattern;

/// The number, or 129 where it is greater.
fn capped(n: u32) -> u32
    ensures { result ≡ min n 129 }
{
    if n < 129 { n } else { 129 }
}

/// The sum of two counts.
fn sum_of_two(a: u32, b: u32) -> u32
    ensures { result ≡ plus a b }
{
    capped(a.saturating_add(b))
}

/// The product of two counts.
fn product_of_two(a: u32, b: u32) -> u32
    ensures { result ≡ times a b }
{
    capped(a.saturating_mul(b))
}

/// The number of strings of a pattern, or 129 where there are more. No string is made.
#[cycle(string_count)]
pub fn count(p: &Pattern) -> u32
    ensures { result ≡ count_of p.now }
{
    match p {
        Pattern::Choice(parts) => sum(parts.as_slice()),
        Pattern::Seq(parts) => product(parts.as_slice()),
        Pattern::Maybe(part) => sum_of_two(1, count(part.get())),
        Pattern::Group(part) => count(part.get()),
        Pattern::One(_) => 1,
    }
}

/// The sum of the counts of patterns.
#[cycle(string_count)]
fn sum(parts: &[Pattern]) -> u32
    ensures { result ≡ sum_from 0 (map count_of parts.now) }
{
    let mut total = 0;
    for part in parts {
        total = sum_of_two(total, count(part));
    }
    total
}

/// The product of the counts of patterns.
#[cycle(string_count)]
fn product(parts: &[Pattern]) -> u32
    ensures { result ≡ product_from 1 (map count_of parts.now) }
{
    let mut total = 1;
    for part in parts {
        total = product_of_two(total, count(part));
    }
    total
}
