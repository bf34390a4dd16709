//! How runs end, as nodes.

ghost use Rattle.std.specs.Prelude.{◌≡◌, ◌&&◌, ◌||◌, IfOk, nat_le, not as opposite};
ghost use Rattle.sk_dag.specs.declared.env.Env.{Env};
ghost use Rattle.sk_dag.specs.Graph.{Graph, Grows, HasBool, HasCost};
ghost use Rattle.sk_dag.specs.Eval.{bool_value, cost_value, Keeps};
ghost use Rattle.sk_oblig_checks.specs.Checks.{FailsOrCosts, IsThere, Speaks};

use crate::agree::{agree_on_all, agree_on_results};
use sk_dag::{BoolId, CostId, Dag};
use sk_sym::SymOutcome;
use sk_sym_folds::{and, and_not, not, or};
use std::alloc::AllocError;

// Whether a run failed, or was not skipped and costs more than the limit.
fn fails_or_exceeds(
    dag: &mut Dag,
    failed: BoolId,
    skipped: BoolId,
    cost: CostId,
    limit: u64,
) -> Result<BoolId, AllocError>
    requires failed { HasBool dag.old.nodes failed }
    requires skipped { HasBool dag.old.nodes skipped }
    requires cost { HasCost dag.old.nodes cost }
    ensures keeps { Keeps dag.old dag.new }
    ensures there { IfOk result (λ r. HasBool dag.new.nodes r) }
    ensures value { IfOk result (λ r. (g : Graph) → Grows dag.new g → (e : Env) →
        bool_value g e r ≡ (bool_value g e failed || opposite (bool_value g e skipped || nat_le (cost_value g e cost) limit))) }
{
    let within = dag.cost_le(cost, limit)?;
    let fine = or(dag, skipped, within)?;
    let exceeds = not(dag, fine)?;
    let r = or(dag, failed, exceeds)?;
    Ok(r)
}

/// Whether a run failed, or was done at a cost above the limit, where there is one.
#[tactic(auto, using(crate::proofs::Endings::costing))]
pub(crate) fn fails_or_costs(
    dag: &mut Dag,
    made: &SymOutcome,
    limit: Option<u64>,
) -> Result<BoolId, AllocError>
    requires { IsThere dag.old made.now }
    ensures keeps { Keeps dag.old dag.new }
    ensures bad { IfOk result (λ r. FailsOrCosts dag.new made.now limit r) }
{
    match limit {
        None => Ok(made.failed),
        Some(most) => {
            let r = fails_or_exceeds(dag, made.failed, made.skipped, made.cost, most)?;
            Ok(r)
        }
    }
}

// Whether a run is not done, or with other values.
fn is_other(
    dag: &mut Dag,
    failed: BoolId,
    skipped: BoolId,
    same_result: BoolId,
    same_refs: BoolId,
) -> Result<BoolId, AllocError>
    requires failed { HasBool dag.old.nodes failed }
    requires skipped { HasBool dag.old.nodes skipped }
    requires same_result { HasBool dag.old.nodes same_result }
    requires same_refs { HasBool dag.old.nodes same_refs }
    ensures keeps { Keeps dag.old dag.new }
    ensures there { IfOk result (λ r. HasBool dag.new.nodes r) }
    ensures value { IfOk result (λ r. (g : Graph) → Grows dag.new g → (e : Env) →
        bool_value g e r ≡ ((bool_value g e failed || bool_value g e skipped) || opposite (bool_value g e same_result && bool_value g e same_refs))) }
{
    let ended = or(dag, failed, skipped)?;
    let same = and(dag, same_result, same_refs)?;
    let differs = not(dag, same)?;
    let r = or(dag, ended, differs)?;
    Ok(r)
}

// Whether the reference failed, or was not skipped and the other is not done as it was.
fn is_against(
    dag: &mut Dag,
    failed: BoolId,
    skipped: BoolId,
    other: BoolId,
) -> Result<BoolId, AllocError>
    requires failed { HasBool dag.old.nodes failed }
    requires skipped { HasBool dag.old.nodes skipped }
    requires other { HasBool dag.old.nodes other }
    ensures keeps { Keeps dag.old dag.new }
    ensures there { IfOk result (λ r. HasBool dag.new.nodes r) }
    ensures value { IfOk result (λ r. (g : Graph) → Grows dag.new g → (e : Env) →
        bool_value g e r ≡ (bool_value g e failed || (bool_value g e other && opposite (bool_value g e skipped)))) }
{
    let asked = and_not(dag, other, skipped)?;
    let r = or(dag, failed, asked)?;
    Ok(r)
}

/// Whether the run of a reference speaks against that of its implementation.
#[tactic(auto, using(crate::proofs::Checks::there_later))]
pub(crate) fn speaks_against(
    dag: &mut Dag,
    reference: SymOutcome,
    own: SymOutcome,
) -> Result<BoolId, AllocError>
    requires reference { IsThere dag.old reference }
    requires own { IsThere dag.old own }
    ensures keeps { Keeps dag.old dag.new }
    ensures speaks { IfOk result (λ r. Speaks dag.new reference own r) }
{
    let same_result = agree_on_results(dag, &reference.result, &own.result)?;
    let same_refs = agree_on_all(dag, reference.refs, own.refs)?;
    let other = is_other(dag, own.failed, own.skipped, same_result, same_refs)?;
    let r = is_against(dag, reference.failed, reference.skipped, other)?;
    Ok(r)
}
