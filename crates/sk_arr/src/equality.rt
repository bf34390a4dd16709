//! Whether two shapes are equal.

ghost use Rattle.std.specs.Prelude.{◌≡◌, ◌↔◌, ◌||◌, ◌&&◌, not, true, length, [], IfOk, MatchOption, All, map, if◌then◌else◌};
ghost use Rattle.std.specs.Ordering.{int_eq};
ghost use Rattle.sk_dag.specs.declared.env.Env.{Env};
ghost use Rattle.sk_dag.specs.Graph.{Graph, Grows, HasBool, HasWord};
ghost use Rattle.sk_dag.specs.Eval.{bool_value, word_value, Keeps};
ghost use Rattle.sk_arr.specs.Held.{held_in, is_some_held, is_among, have_common, AllIn};
ghost use Rattle.sk_arr.specs.Firsts.{IsFirst};
ghost use Rattle.sk_arr.specs.Shapes.{blank, Alike, Stands, AllStand};
ghost use Rattle.sk_arr.specs.Answers.{IsEquality, AreEqual};

use crate::bits::differ;
use crate::maker::{both, either, number_of, opposite};
use crate::part::{bit_of, parts_of, targets_of, word_of};
use sk_dag::{BoolId, Dag, Shape, Targets, WordId};
use std::alloc::AllocError;

/// Whether two truth values are equal.
#[tactic(auto, using(crate::proofs::Makers::staying))]
fn same_bits(dag: &mut Dag, a: BoolId, b: BoolId) -> Result<BoolId, AllocError>
    requires a { HasBool dag.old.nodes a }
    requires b { HasBool dag.old.nodes b }
    ensures keeps { Keeps dag.old dag.new }
    ensures there { IfOk result (λ r. HasBool dag.new.nodes r) }
    ensures value { IfOk result (λ r. (g : Graph) → Grows dag.new g → (e : Env) →
        bool_value g e r ≡ (if bool_value g e a then bool_value g e b else not (bool_value g e b))) }
{
    if a.index == b.index {
        let yes = dag.flag(true)?;
        return Ok(yes);
    }
    let other = differ(dag, a, b)?;
    let r = opposite(dag, other)?;
    Ok(r)
}

/// Whether two words are equal.
#[tactic(auto, using(crate::proofs::Equals::words))]
fn same_words(dag: &mut Dag, a: WordId, b: WordId) -> Result<BoolId, AllocError>
    requires a { HasWord dag.old.nodes a }
    requires b { HasWord dag.old.nodes b }
    ensures keeps { Keeps dag.old dag.new }
    ensures there { IfOk result (λ r. HasBool dag.new.nodes r) }
    ensures value { IfOk result (λ r. (g : Graph) → Grows dag.new g → (e : Env) →
        bool_value g e r ≡ int_eq (word_value g e a) (word_value g e b)) }
{
    if a.index == b.index {
        let yes = dag.flag(true)?;
        return Ok(yes);
    }
    if let Some(x) = number_of(dag, a) {
        if let Some(y) = number_of(dag, b) {
            let r = dag.flag(x == y)?;
            return Ok(r);
        }
    }
    let r = dag.eq(a, b)?;
    Ok(r)
}

/// The first target of a reference, and those behind it.
#[derive(Clone, Copy)]
struct First<'a> {
    slot: u32,
    guard: BoolId,
    more: &'a [(u32, BoolId)],
}

/// The first target, where there is one.
fn first_target<'a>(targets: &'a [(u32, BoolId)]) -> Option<First<'a>>
    ensures { MatchOption result (targets.now ≡ []) (λ first. IsFirst targets.now first.slot first.guard first.more.now) }
{
    match targets {
        [] => None,
        [(slot, guard), more @ ..] => Some(First {
            slot: *slot,
            guard: *guard,
            more,
        }),
    }
}

/// Whether one of the targets holds.
#[tactic(auto, using(crate::proofs::Equals::targets))]
fn some_holds(dag: &mut Dag, targets: &[(u32, BoolId)]) -> Result<BoolId, AllocError>
    requires { AllIn dag.old targets.now }
    ensures keeps { Keeps dag.old dag.new }
    ensures there { IfOk result (λ r. HasBool dag.new.nodes r) }
    ensures value { IfOk result (λ r. (g : Graph) → Grows dag.new g → (e : Env) →
        bool_value g e r ≡ is_some_held (held_in g e targets.now)) }
{
    let Some(first) = first_target(targets) else {
        let no = dag.flag(false)?;
        return Ok(no);
    };
    let rest = some_holds(dag, first.more)?;
    let r = either(dag, first.guard, rest)?;
    Ok(r)
}

/// Whether one of the two holds, where the test is true; else whether the second does.
#[tactic(auto, using(crate::proofs::Makers::staying))]
fn either_where(dag: &mut Dag, test: bool, a: BoolId, b: BoolId) -> Result<BoolId, AllocError>
    requires a { HasBool dag.old.nodes a }
    requires b { HasBool dag.old.nodes b }
    ensures keeps { Keeps dag.old dag.new }
    ensures there { IfOk result (λ r. HasBool dag.new.nodes r) }
    ensures value { IfOk result (λ r. (g : Graph) → Grows dag.new g → (e : Env) →
        bool_value g e r ≡ (if test then (bool_value g e a || bool_value g e b) else bool_value g e b)) }
{
    if !test {
        return Ok(b);
    }
    let r = either(dag, a, b)?;
    Ok(r)
}

/// Whether a target at this slot holds.
#[tactic(auto, using(crate::proofs::Equals::targets))]
fn slot_holds(dag: &mut Dag, slot: u32, targets: &[(u32, BoolId)]) -> Result<BoolId, AllocError>
    requires { AllIn dag.old targets.now }
    ensures keeps { Keeps dag.old dag.new }
    ensures there { IfOk result (λ r. HasBool dag.new.nodes r) }
    ensures value { IfOk result (λ r. (g : Graph) → Grows dag.new g → (e : Env) →
        bool_value g e r ≡ is_among slot (held_in g e targets.now)) }
{
    let Some(first) = first_target(targets) else {
        let no = dag.flag(false)?;
        return Ok(no);
    };
    let rest = slot_holds(dag, slot, first.more)?;
    let r = either_where(dag, first.slot == slot, first.guard, rest)?;
    Ok(r)
}

/// Whether a target of the one and a target of the other hold that are at one slot.
#[tactic(auto, using(crate::proofs::Equals::targets))]
fn meet(dag: &mut Dag, a: &[(u32, BoolId)], b: &[(u32, BoolId)]) -> Result<BoolId, AllocError>
    requires a { AllIn dag.old a.now }
    requires b { AllIn dag.old b.now }
    ensures keeps { Keeps dag.old dag.new }
    ensures there { IfOk result (λ r. HasBool dag.new.nodes r) }
    ensures value { IfOk result (λ r. (g : Graph) → Grows dag.new g → (e : Env) →
        bool_value g e r ≡ have_common (held_in g e a.now) (held_in g e b.now)) }
{
    let Some(first) = first_target(a) else {
        let no = dag.flag(false)?;
        return Ok(no);
    };
    let other = slot_holds(dag, first.slot, b)?;
    let pair = both(dag, first.guard, other)?;
    let rest = meet(dag, first.more, b)?;
    let r = either(dag, pair, rest)?;
    Ok(r)
}

/// Whether no target of either list holds.
#[tactic(auto, using(crate::proofs::Equals::targets))]
fn none_holds(dag: &mut Dag, a: &[(u32, BoolId)], b: &[(u32, BoolId)]) -> Result<BoolId, AllocError>
    requires a { AllIn dag.old a.now }
    requires b { AllIn dag.old b.now }
    ensures keeps { Keeps dag.old dag.new }
    ensures there { IfOk result (λ r. HasBool dag.new.nodes r) }
    ensures value { IfOk result (λ r. (g : Graph) → Grows dag.new g → (e : Env) →
        bool_value g e r ≡ not (is_some_held (held_in g e a.now) || is_some_held (held_in g e b.now))) }
{
    let first = some_holds(dag, a)?;
    let second = some_holds(dag, b)?;
    let some = either(dag, first, second)?;
    let r = opposite(dag, some)?;
    Ok(r)
}

/// Whether the two references are at one slot, or both null.
#[tactic(auto, using(crate::proofs::Equals::targets))]
fn same_targets(dag: &mut Dag, a: &Targets, b: &Targets) -> Result<BoolId, AllocError>
    requires a { AllIn dag.old a.now.slots.items }
    requires b { AllIn dag.old b.now.slots.items }
    ensures keeps { Keeps dag.old dag.new }
    ensures there { IfOk result (λ r. HasBool dag.new.nodes r) }
    ensures value { IfOk result (λ r. (g : Graph) → Grows dag.new g → (e : Env) →
        bool_value g e r ≡ (have_common (held_in g e a.now.slots.items) (held_in g e b.now.slots.items)
        || not (is_some_held (held_in g e a.now.slots.items) || is_some_held (held_in g e b.now.slots.items)))) }
{
    let one = meet(dag, a.slots.as_slice(), b.slots.as_slice())?;
    let none = none_holds(dag, a.slots.as_slice(), b.slots.as_slice())?;
    let r = either(dag, one, none)?;
    Ok(r)
}

/// Whether the shapes are equal: references where they are the same slot or both null, arrays where their elements are.
/// Adds no node but flags where all the nodes that they name are given.
#[cycle(same)]
#[tactic(auto, using(crate::proofs::Equals::parts))]
pub fn same(dag: &mut Dag, a: &Shape, b: &Shape) -> Result<BoolId, AllocError>
    requires a { Stands dag.old a.now }
    requires b { Stands dag.old b.now }
    requires alike { Alike a.now b.now }
    ensures keeps { Keeps dag.old dag.new }
    ensures equality { IfOk result (λ r. IsEquality dag.new a.now b.now r) }
{
    match a {
        Shape::Bit(x) => {
            let r = same_bits(dag, *x, bit_of(b))?;
            Ok(r)
        }
        Shape::Int(x) => {
            let r = same_words(dag, *x, word_of(b))?;
            Ok(r)
        }
        Shape::Reference(x) => {
            let r = same_targets(dag, x, targets_of(b))?;
            Ok(r)
        }
        Shape::Array(x) => {
            let r = same_all(dag, x.as_slice(), parts_of(b))?;
            Ok(r)
        }
    }
}

/// Whether all are equal one by one.
#[cycle(same)]
#[tactic(auto, using(crate::proofs::Equals::parts))]
fn same_all(dag: &mut Dag, list: &[Shape], others: &[Shape]) -> Result<BoolId, AllocError>
    requires list { AllStand dag.old list.now }
    requires others { AllStand dag.old others.now }
    requires alike { map blank list.now ≡ map blank others.now }
    ensures keeps { Keeps dag.old dag.new }
    ensures equal { IfOk result (λ r. AreEqual dag.new list.now others.now r) }
{
    let yes = dag.flag(true)?;
    let mut r = yes;
    let mut i = 0;
    for a in list {
        let one = same(dag, a, &others[i])?;
        let all = both(dag, r, one)?;
        r = all;
        i += 1;
    }
    Ok(r)
}
