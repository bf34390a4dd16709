//! Targets of references.

ghost use Rattle.std.specs.Prelude.{◌≡◌, ◌++◌, ◌∷◌, ◌+◌, ◌<◌, [], ℕ, Bool, length, IfOk, OnOk, IfSome, MatchOption, if◌then◌else◌};
ghost use Rattle.sk_dag.specs.declared.env.Env.{Env};
ghost use Rattle.sk_dag.specs.Graph.{Graph, Grows, HasBool};
ghost use Rattle.sk_dag.specs.Eval.{bool_value, Keeps};
ghost use Rattle.sk_arr.specs.Held.{held_in, held_by, with_target, guard_in, AllIn, AllPass, IsAdded, AreMerged, IsNext};
ghost use Rattle.sk_arr.specs.Rising.{RiseFrom, IsLeast, AddsRising};

use crate::maker::pick_bool;
use sk_dag::{BoolId, Dag, Targets};
use smallvec::SmallVec;
use std::alloc::{AllocError, Global};

/// The same targets once more.
pub(crate) fn copy_targets(alloc: Global, targets: &Targets) -> Result<Targets, AllocError>
    ensures { IfOk result (λ made. made.slots.items ≡ targets.now.slots.items) }
{
    let slots = SmallVec::from_slice(alloc, targets.slots.as_slice())?;
    Ok(Targets { slots })
}

/// The next slot of two lists of targets: the truth value that it has in each, where it stands first there, and what
/// follows it.
#[derive(Clone, Copy)]
struct Next<'a> {
    slot: u32,
    first: Option<BoolId>,
    second: Option<BoolId>,
    more: &'a [(u32, BoolId)],
    others: &'a [(u32, BoolId)],
}

/// The lesser one of the first two slots.
fn next_slot<'a>(a: &'a [(u32, BoolId)], b: &'a [(u32, BoolId)]) -> Option<Next<'a>>
    ensures next { MatchOption result ((a.now ≡ []) × (b.now ≡ [])) (λ next. IsNext a.now b.now next.slot next.first next.second next.more.now next.others.now) }
    ensures least { IfSome result (λ next. IsLeast a.now b.now next.slot next.more.now next.others.now) }
{
    match a {
        [] => match b {
            [] => None,
            [(slot, guard), others @ ..] => Some(Next {
                slot: *slot,
                first: None,
                second: Some(*guard),
                more: a,
                others,
            }),
        },
        [(slot, guard), more @ ..] => match b {
            [] => Some(Next {
                slot: *slot,
                first: Some(*guard),
                second: None,
                more,
                others: b,
            }),
            [(other, its_guard), others @ ..] => {
                if *slot < *other {
                    return Some(Next {
                        slot: *slot,
                        first: Some(*guard),
                        second: None,
                        more,
                        others: b,
                    });
                }
                if *other < *slot {
                    return Some(Next {
                        slot: *other,
                        first: None,
                        second: Some(*its_guard),
                        more: a,
                        others,
                    });
                }
                Some(Next {
                    slot: *slot,
                    first: Some(*guard),
                    second: Some(*its_guard),
                    more,
                    others,
                })
            }
        },
    }
}

/// A truth value that may be missing, and then does not hold.
#[tactic(auto, using(crate::proofs::Makers::staying))]
fn guard_of(dag: &mut Dag, guard: Option<BoolId>) -> Result<BoolId, AllocError>
    requires { guard_in dag.old guard }
    ensures keeps { Keeps dag.old dag.new }
    ensures there { IfOk result (λ r. HasBool dag.new.nodes r) }
    ensures value { IfOk result (λ r. (h : Graph) → Grows dag.new h → (e : Env) →
        bool_value h e r ≡ held_by (bool_value h e) guard) }
{
    match guard {
        Some(guard) => Ok(guard),
        None => {
            let no = dag.flag(false)?;
            Ok(no)
        }
    }
}

/// A truth value that is the first where `c` holds, and the second where it does not.
#[tactic(auto, using(crate::proofs::Makers::staying))]
fn pick_guard(
    dag: &mut Dag,
    c: BoolId,
    first: Option<BoolId>,
    second: Option<BoolId>,
) -> Result<BoolId, AllocError>
    requires c { HasBool dag.old.nodes c }
    requires first { guard_in dag.old first }
    requires second { guard_in dag.old second }
    ensures keeps { Keeps dag.old dag.new }
    ensures there { IfOk result (λ r. HasBool dag.new.nodes r) }
    ensures value { IfOk result (λ r. (h : Graph) → Grows dag.new h → (e : Env) →
        bool_value h e r ≡ (if bool_value h e c then held_by (bool_value h e) first else held_by (bool_value h e) second)) }
{
    let a = guard_of(dag, first)?;
    let b = guard_of(dag, second)?;
    let r = pick_bool(dag, c, a, b)?;
    Ok(r)
}

/// Adds a target at a slot.
#[tactic(auto, using(crate::proofs::Makers::staying))]
fn add_target(
    dag: &mut Dag,
    c: BoolId,
    slot: u32,
    first: Option<BoolId>,
    second: Option<BoolId>,
    made: &mut SmallVec<(u32, BoolId), 4>,
) -> Result<(), AllocError>
    requires c { HasBool dag.old.nodes c }
    requires first { guard_in dag.old first }
    requires second { guard_in dag.old second }
    ensures keeps { Keeps dag.old dag.new }
    ensures added { OnOk result (IsAdded dag.new c slot first second made.old.items made.new.items) }
{
    let guard = pick_guard(dag, c, first, second)?;
    made.push((slot, guard))?;
    Ok(())
}

/// Adds the targets of `a` where `c` holds, and those of `b` where it does not. Where both lists have their slots in
/// ascending order, each slot comes once, and in that order.
#[tactic(auto, using(crate::proofs::Walks::walking))]
pub(crate) fn add_targets(
    dag: &mut Dag,
    c: BoolId,
    a: &[(u32, BoolId)],
    b: &[(u32, BoolId)],
    made: &mut SmallVec<(u32, BoolId), 4>,
) -> Result<(), AllocError>
    requires c { HasBool dag.old.nodes c }
    requires a { AllIn dag.old a.now }
    requires b { AllIn dag.old b.now }
    requires made { AllIn dag.old made.old.items }
    ensures keeps { Keeps dag.old dag.new }
    ensures merged { OnOk result (AreMerged dag.new c a.now b.now made.old.items made.new.items) }
    ensures rising { OnOk result ((low : ℕ) → RiseFrom low a.now → RiseFrom low b.now → AddsRising low made.old.items made.new.items) }
{
    let Some(next) = next_slot(a, b) else {
        return Ok(());
    };
    add_target(dag, c, next.slot, next.first, next.second, made)?;
    add_targets(dag, c, next.more, next.others, made)?;
    Ok(())
}
