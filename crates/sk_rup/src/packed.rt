// Literals in four bytes each.
ghost use Rattle.std.specs.Prelude.{◌≡◌, ◌<◌, ◌/◌, ◌%◌, ◌^◌, ◌==◌, IfOk};

use sk_clause::Lit;
use sk_limits::too_many;
use std::alloc::AllocError;
use std::marker::Model;

/// Variables from here on are not kept in four bytes.
const VARS: usize = 1 << 31;

/// A literal in four bytes. Contracts see the literal.
#[derive(Drop)]
pub struct Packed {
    code: u32,
}

impl Model for Packed {
    ghost use Rattle.sk_clause.specs.Code.{coded_lit};
    ghost use Rattle.sk_clause.specs.declared.lit.Lit.{Lit};
    ghost use Rattle.sk_rup.specs.Packed.{lit_of};

    ghost Value = { Lit };

    ghost coded = { coded_lit };

    ghost view = { λ a. lit_of a.code };
}

// Twice a number, and one more or not.
#[tactic(auto, using(crate::proofs::PackedLemmas::packs))]
fn twice(var: u32, more: bool) -> u32
    requires { var < 2 ^ 31 }
    ensures half { result / 2 ≡ var }
    ensures rest { (result % 2 == 1) ≡ more }
{
    if more { var * 2 + 1 } else { var * 2 }
}

impl Packed {
    /// The literal in four bytes. Where its variable has too large a number, the answer is want of memory.
    #[tactic(auto, using(crate::proofs::PackedLemmas::packs))]
    pub fn new(l: Lit) -> Result<Packed, AllocError>
        ensures { IfOk result (λ p. p ≡ l) }
    {
        if l.var >= VARS {
            return Err(too_many());
        }
        Ok(Packed {
            code: twice(l.var as u32, l.neg),
        })
    }

    /// The literal.
    pub fn lit(&self) -> Lit
        ensures { result ≡ self.now }
    {
        Lit {
            var: (self.code / 2) as usize,
            neg: self.code % 2 == 1,
        }
    }
}
