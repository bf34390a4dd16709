// The values that some variables have, and what they make of a clause.
ghost use Rattle.std.specs.Prelude.{◌≡◌, ℕ, ◌<◌, length, All};
ghost use Rattle.sk_clause.specs.Problem.{IsWithin};
ghost use Rattle.sk_clause.specs.Values.{value_of};
ghost use Rattle.sk_sat.specs.Scan.{IsScan};

use crate::packed::Packed;
use sk_clause::Lit;

/// What a clause comes to under the values.
#[derive(Clone, Copy, Debug)]
pub enum Scan {
    /// Each literal is false.
    Falsified,
    /// This literal has no value, and each other one is false.
    Unit(Lit),
    /// A literal is true, which is named twice, or these two have no value.
    Settled(Lit, Lit),
}

/// The value of a literal.
pub fn value(values: &[Option<bool>], l: Lit) -> Option<bool>
    requires { l.var < length values.now }
    ensures { result ≡ value_of values.now l }
{
    match values[l.var] {
        None => None,
        Some(b) => Some(if l.neg { !b } else { b }),
    }
}

/// What a known clause comes to under the values.
#[tactic(auto, using(sk_clause::proofs::ScanLemmas::scans))]
pub fn scan_of(values: &[Option<bool>], clause: &[Packed]) -> Scan
    requires { IsWithin (length values.now) clause.now }
    ensures { IsScan values.now clause.now result }
{
    let mut open: Option<Lit> = None;
    for packed in clause {
        let l = packed.lit();
        match value(values, l) {
            Some(true) => return Scan::Settled(l, l),
            Some(false) => {}
            None => match open {
                None => open = Some(l),
                Some(first) => {
                    if !first.is(l) {
                        return Scan::Settled(first, l);
                    }
                }
            },
        }
    }
    match open {
        None => Scan::Falsified,
        Some(l) => Scan::Unit(l),
    }
}
