ghost use Rattle.std.specs.Prelude.{◌≡◌, ℕ, ◌+◌, ◌<◌, Bool, false, ◌&&◌, if◌then◌else◌, IfOk, OnErr};
ghost use Rattle.sk_clause.specs.Meaning.{lit_true};
ghost use Rattle.sk_gates.specs.Bits.{differ, choose};
ghost use Rattle.sk_gates.specs.Extension.{Adds, Continues};

use sk_clause::{Clauses, Lit};
use std::alloc::AllocError;

// The literal of a new variable.
fn new_literal(to: &mut Clauses) -> Result<Lit, AllocError>
    ensures made { IfOk result (λ r. r ≡ record { var = to.old.vars; neg = false }) }
    ensures ok { IfOk result (λ r. to.new ≡ record to.old { vars = to.old.vars + 1 }) }
    ensures err { OnErr result (to.new ≡ to.old) }
{
    let var = to.fresh()?;
    Ok(Lit { var, neg: false })
}

// A literal that is always true, or always false.
#[tactic(auto, using(crate::proofs::ExtensionLaws::continuing))]
pub fn known_gate(to: &mut Clauses, value: bool) -> Result<Lit, AllocError>
    ensures within { IfOk result (λ r. r.var < to.new.vars) }
    ensures gate { IfOk result (λ r. Adds to.old to.new (λ v. lit_true v r ≡ value)) }
    ensures err { OnErr result (Continues to.old to.new) }
{
    let r = new_literal(to)?;
    let fact = if value { r } else { r.negate() };
    to.push(&[fact])?;
    Ok(r)
}

// Both of two literals.
#[tactic(auto, using(crate::proofs::ExtensionLaws::continuing))]
pub fn and_gate(to: &mut Clauses, a: Lit, b: Lit) -> Result<Lit, AllocError>
    requires a { a.var < to.old.vars }
    requires b { b.var < to.old.vars }
    ensures within { IfOk result (λ r. r.var < to.new.vars) }
    ensures gate { IfOk result (λ r. Adds to.old to.new (λ v. lit_true v r ≡ (lit_true v a && lit_true v b))) }
    ensures err { OnErr result (Continues to.old to.new) }
{
    let r = new_literal(to)?;
    let not_r = r.negate();
    to.push(&[not_r, a])?;
    to.push(&[not_r, b])?;
    to.push(&[r, a.negate(), b.negate()])?;
    Ok(r)
}

// One of two literals, and not both.
#[tactic(auto, using(crate::proofs::ExtensionLaws::continuing))]
pub fn xor_gate(to: &mut Clauses, a: Lit, b: Lit) -> Result<Lit, AllocError>
    requires a { a.var < to.old.vars }
    requires b { b.var < to.old.vars }
    ensures within { IfOk result (λ r. r.var < to.new.vars) }
    ensures gate { IfOk result (λ r. Adds to.old to.new (λ v. lit_true v r ≡ differ (lit_true v a) (lit_true v b))) }
    ensures err { OnErr result (Continues to.old to.new) }
{
    let r = new_literal(to)?;
    let not_r = r.negate();
    let not_a = a.negate();
    let not_b = b.negate();
    to.push(&[not_r, a, b])?;
    to.push(&[not_r, not_a, not_b])?;
    to.push(&[r, not_a, b])?;
    to.push(&[r, a, not_b])?;
    Ok(r)
}

// The second literal where the first is true, else the third.
#[tactic(auto, using(crate::proofs::ExtensionLaws::continuing))]
pub fn mux_gate(to: &mut Clauses, c: Lit, a: Lit, b: Lit) -> Result<Lit, AllocError>
    requires c { c.var < to.old.vars }
    requires a { a.var < to.old.vars }
    requires b { b.var < to.old.vars }
    ensures within { IfOk result (λ r. r.var < to.new.vars) }
    ensures gate { IfOk result (λ r. Adds to.old to.new (λ v. lit_true v r ≡ choose (lit_true v c) (lit_true v a) (lit_true v b))) }
    ensures err { OnErr result (Continues to.old to.new) }
{
    let r = new_literal(to)?;
    let not_r = r.negate();
    let not_c = c.negate();
    to.push(&[not_r, not_c, a])?;
    to.push(&[r, not_c, a.negate()])?;
    to.push(&[not_r, c, b])?;
    to.push(&[r, c, b.negate()])?;
    Ok(r)
}
