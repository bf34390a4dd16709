//! Truth values.

ghost use Rattle.std.specs.Prelude.{◌≡◌, ◌&&◌, ◌||◌, IfOk, if◌then◌else◌, not as opposite};
ghost use Rattle.sk_dag.specs.declared.env.Env.{Env};
ghost use Rattle.sk_dag.specs.Graph.{Graph, Grows, HasBool};
ghost use Rattle.sk_dag.specs.Eval.{bool_value, Keeps};

use crate::reading::{are_opposite, excludes, implies, known_bool, negated};
use sk_dag::{BoolId, Dag};
use std::alloc::AllocError;

/// A truth value that is given.
pub fn flag(dag: &mut Dag, value: bool) -> Result<BoolId, AllocError>
    ensures keeps { Keeps dag.old dag.new }
    ensures there { IfOk result (λ r. HasBool dag.new.nodes r) }
    ensures value { IfOk result (λ r. (g : Graph) → Grows dag.new g → (e : Env) → bool_value g e r ≡ value) }
{
    let r = dag.flag(value)?;
    Ok(r)
}

/// Whether it does not hold.
#[tactic(auto, using(crate::proofs::Makers::staying))]
pub fn not(dag: &mut Dag, a: BoolId) -> Result<BoolId, AllocError>
    requires { HasBool dag.old.nodes a }
    ensures keeps { Keeps dag.old dag.new }
    ensures there { IfOk result (λ r. HasBool dag.new.nodes r) }
    ensures value { IfOk result (λ r. (g : Graph) → Grows dag.new g → (e : Env) →
        bool_value g e r ≡ opposite (bool_value g e a)) }
{
    if let Some(known) = known_bool(dag, a) {
        let r = dag.flag(!known)?;
        return Ok(r);
    }
    if let Some(inner) = negated(dag, a) {
        return Ok(inner);
    }
    let r = dag.not(a)?;
    Ok(r)
}

// The conjunction, where neither is given.
#[tactic(auto, using(crate::proofs::Makers::joining))]
fn and_open(dag: &mut Dag, a: BoolId, b: BoolId) -> Result<BoolId, AllocError>
    requires a { HasBool dag.old.nodes a }
    requires b { HasBool dag.old.nodes b }
    ensures keeps { Keeps dag.old dag.new }
    ensures there { IfOk result (λ r. HasBool dag.new.nodes r) }
    ensures value { IfOk result (λ r. (g : Graph) → Grows dag.new g → (e : Env) →
        bool_value g e r ≡ (bool_value g e a && bool_value g e b)) }
{
    if a.index == b.index || implies(dag, a, b) {
        return Ok(a);
    }
    if implies(dag, b, a) {
        return Ok(b);
    }
    if are_opposite(dag, a, b) || excludes(dag, a, b) || excludes(dag, b, a) {
        let r = dag.flag(false)?;
        return Ok(r);
    }
    let r = dag.and(a, b)?;
    Ok(r)
}

/// Whether both hold.
#[tactic(auto, using(crate::proofs::Makers::staying))]
pub fn and(dag: &mut Dag, a: BoolId, b: BoolId) -> Result<BoolId, AllocError>
    requires a { HasBool dag.old.nodes a }
    requires b { HasBool dag.old.nodes b }
    ensures keeps { Keeps dag.old dag.new }
    ensures there { IfOk result (λ r. HasBool dag.new.nodes r) }
    ensures value { IfOk result (λ r. (g : Graph) → Grows dag.new g → (e : Env) →
        bool_value g e r ≡ (bool_value g e a && bool_value g e b)) }
{
    match known_bool(dag, a) {
        Some(true) => return Ok(b),
        Some(false) => return Ok(a),
        None => {}
    }
    match known_bool(dag, b) {
        Some(true) => return Ok(a),
        Some(false) => return Ok(b),
        None => {}
    }
    let r = and_open(dag, a, b)?;
    Ok(r)
}

/// Whether the first holds, and the second does not.
#[tactic(auto, using(crate::proofs::Makers::staying))]
pub fn and_not(dag: &mut Dag, a: BoolId, b: BoolId) -> Result<BoolId, AllocError>
    requires a { HasBool dag.old.nodes a }
    requires b { HasBool dag.old.nodes b }
    ensures keeps { Keeps dag.old dag.new }
    ensures there { IfOk result (λ r. HasBool dag.new.nodes r) }
    ensures value { IfOk result (λ r. (g : Graph) → Grows dag.new g → (e : Env) →
        bool_value g e r ≡ (bool_value g e a && opposite (bool_value g e b))) }
{
    if let Some(false) = known_bool(dag, a) {
        return Ok(a);
    }
    let other = not(dag, b)?;
    let r = and(dag, a, other)?;
    Ok(r)
}

// The disjunction, where neither is given.
#[tactic(auto, using(crate::proofs::Makers::joining))]
fn or_open(dag: &mut Dag, a: BoolId, b: BoolId) -> Result<BoolId, AllocError>
    requires a { HasBool dag.old.nodes a }
    requires b { HasBool dag.old.nodes b }
    ensures keeps { Keeps dag.old dag.new }
    ensures there { IfOk result (λ r. HasBool dag.new.nodes r) }
    ensures value { IfOk result (λ r. (g : Graph) → Grows dag.new g → (e : Env) →
        bool_value g e r ≡ (bool_value g e a || bool_value g e b)) }
{
    if a.index == b.index || implies(dag, b, a) {
        return Ok(a);
    }
    if implies(dag, a, b) {
        return Ok(b);
    }
    if are_opposite(dag, a, b) {
        let r = dag.flag(true)?;
        return Ok(r);
    }
    let r = dag.or(a, b)?;
    Ok(r)
}

/// Whether at least one holds.
#[tactic(auto, using(crate::proofs::Makers::staying))]
pub fn or(dag: &mut Dag, a: BoolId, b: BoolId) -> Result<BoolId, AllocError>
    requires a { HasBool dag.old.nodes a }
    requires b { HasBool dag.old.nodes b }
    ensures keeps { Keeps dag.old dag.new }
    ensures there { IfOk result (λ r. HasBool dag.new.nodes r) }
    ensures value { IfOk result (λ r. (g : Graph) → Grows dag.new g → (e : Env) →
        bool_value g e r ≡ (bool_value g e a || bool_value g e b)) }
{
    match known_bool(dag, a) {
        Some(true) => return Ok(a),
        Some(false) => return Ok(b),
        None => {}
    }
    match known_bool(dag, b) {
        Some(true) => return Ok(b),
        Some(false) => return Ok(a),
        None => {}
    }
    let r = or_open(dag, a, b)?;
    Ok(r)
}

// Whether exactly one holds, where neither is given.
#[tactic(auto, using(crate::proofs::Makers::joining))]
fn xor_open(dag: &mut Dag, a: BoolId, b: BoolId) -> Result<BoolId, AllocError>
    requires a { HasBool dag.old.nodes a }
    requires b { HasBool dag.old.nodes b }
    ensures keeps { Keeps dag.old dag.new }
    ensures there { IfOk result (λ r. HasBool dag.new.nodes r) }
    ensures value { IfOk result (λ r. (g : Graph) → Grows dag.new g → (e : Env) →
        bool_value g e r ≡ (if bool_value g e a then opposite (bool_value g e b) else bool_value g e b)) }
{
    if a.index == b.index {
        let r = dag.flag(false)?;
        return Ok(r);
    }
    if are_opposite(dag, a, b) {
        let r = dag.flag(true)?;
        return Ok(r);
    }
    let r = dag.xor(a, b)?;
    Ok(r)
}

/// Whether exactly one holds.
#[tactic(auto, using(crate::proofs::Makers::joining))]
pub fn xor(dag: &mut Dag, a: BoolId, b: BoolId) -> Result<BoolId, AllocError>
    requires a { HasBool dag.old.nodes a }
    requires b { HasBool dag.old.nodes b }
    ensures keeps { Keeps dag.old dag.new }
    ensures there { IfOk result (λ r. HasBool dag.new.nodes r) }
    ensures value { IfOk result (λ r. (g : Graph) → Grows dag.new g → (e : Env) →
        bool_value g e r ≡ (if bool_value g e a then opposite (bool_value g e b) else bool_value g e b)) }
{
    match known_bool(dag, a) {
        Some(true) => {
            let r = not(dag, b)?;
            return Ok(r);
        }
        Some(false) => return Ok(b),
        None => {}
    }
    match known_bool(dag, b) {
        Some(true) => {
            let r = not(dag, a)?;
            return Ok(r);
        }
        Some(false) => return Ok(a),
        None => {}
    }
    let r = xor_open(dag, a, b)?;
    Ok(r)
}

// `a` where `c` holds, else `b`, where `c` is not given.
#[tactic(auto, using(crate::proofs::Makers::joining))]
fn bool_mux_open(dag: &mut Dag, c: BoolId, a: BoolId, b: BoolId) -> Result<BoolId, AllocError>
    requires c { HasBool dag.old.nodes c }
    requires a { HasBool dag.old.nodes a }
    requires b { HasBool dag.old.nodes b }
    ensures keeps { Keeps dag.old dag.new }
    ensures there { IfOk result (λ r. HasBool dag.new.nodes r) }
    ensures value { IfOk result (λ r. (g : Graph) → Grows dag.new g → (e : Env) →
        bool_value g e r ≡ (if bool_value g e c then bool_value g e a else bool_value g e b)) }
{
    match known_bool(dag, a) {
        Some(true) => {
            let r = or(dag, c, b)?;
            return Ok(r);
        }
        Some(false) => {
            let r = and_not(dag, b, c)?;
            return Ok(r);
        }
        None => {}
    }
    match known_bool(dag, b) {
        Some(true) => {
            let other = not(dag, c)?;
            let r = or(dag, a, other)?;
            return Ok(r);
        }
        Some(false) => {
            let r = and(dag, c, a)?;
            return Ok(r);
        }
        None => {}
    }
    let r = dag.bool_mux(c, a, b)?;
    Ok(r)
}

/// `a` where `c` holds, else `b`.
#[tactic(auto, using(crate::proofs::Makers::joining))]
pub fn bool_mux(dag: &mut Dag, c: BoolId, a: BoolId, b: BoolId) -> Result<BoolId, AllocError>
    requires c { HasBool dag.old.nodes c }
    requires a { HasBool dag.old.nodes a }
    requires b { HasBool dag.old.nodes b }
    ensures keeps { Keeps dag.old dag.new }
    ensures there { IfOk result (λ r. HasBool dag.new.nodes r) }
    ensures value { IfOk result (λ r. (g : Graph) → Grows dag.new g → (e : Env) →
        bool_value g e r ≡ (if bool_value g e c then bool_value g e a else bool_value g e b)) }
{
    match known_bool(dag, c) {
        Some(true) => return Ok(a),
        Some(false) => return Ok(b),
        None => {}
    }
    if a.index == b.index {
        return Ok(a);
    }
    let r = bool_mux_open(dag, c, a, b)?;
    Ok(r)
}
