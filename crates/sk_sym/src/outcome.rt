//! How a run ends, over nodes.

ghost use Rattle.std.specs.Prelude.{IfOk, IsTrue};
ghost use Rattle.sk_dag.specs.Eval.{Keeps};
ghost use Rattle.sk_sym.specs.Outcome.{NamesNone, AllNameNone, IsResultOf, IsMadeOf, AlwaysFails};

use crate::begin::make_constants;
use sk_base::List;
use sk_dag::{BoolId, CostId, Dag, Shape};
use sk_limits::never;
use sk_prog::{Fun, Ty};
use sk_sym_state::{Ended, SymState};
use std::alloc::{AllocError, Global};

/// How a run ends, in each environment: whether it fails, whether it is skipped, and where it does neither its result,
/// the final values of its `ref` parameters in order and its cost.
#[derive(Debug, Drop)]
pub struct SymOutcome {
    pub failed: BoolId,
    pub skipped: BoolId,
    pub result: Option<Shape>,
    pub refs: List<Shape>,
    pub cost: CostId,
}

/// Whether a shape is seen to name no record.
#[cycle(names)]
fn names_none(a: &Shape) -> bool
    ensures { IsTrue result → NamesNone a.now }
{
    match a {
        Shape::Bit(_) => true,
        Shape::Int(_) => true,
        Shape::Reference(targets) => targets.slots.as_slice().is_empty(),
        Shape::Array(parts) => all_name_none(parts.as_slice()),
    }
}

/// Whether shapes are seen to name no record.
#[cycle(names)]
fn all_name_none(list: &[Shape]) -> bool
    ensures { IsTrue result → AllNameNone list.now }
{
    for a in list {
        if !names_none(a) {
            return false;
        }
    }
    true
}

/// The result of a function of this result type. It names no record, as no function of an obligation has such a result.
fn result_of(ty: Option<Ty>, given: Option<Shape>) -> Result<Option<Shape>, AllocError>
    ensures { IfOk result (λ r. IsResultOf ty given r) }
{
    if ty.is_none() {
        return Ok(None);
    }
    let Some(r) = given else {
        return Ok(None);
    };
    if !names_none(&r) {
        return Err(never());
    }
    Ok(Some(r))
}

/// How a run ends whose first call gives this. It names no record.
pub(crate) fn outcome_of(
    fun: &Fun,
    state: &SymState,
    ended: Ended,
) -> Result<SymOutcome, AllocError>
    ensures { IfOk result (λ made. IsMadeOf fun.now state.now ended made) }
{
    if !all_name_none(ended.refs.as_slice()) {
        return Err(never());
    }
    let result = result_of(fun.result, ended.result)?;
    Ok(SymOutcome {
        failed: state.failed,
        skipped: state.skipped,
        result,
        refs: ended.refs,
        cost: state.cost,
    })
}

/// A run that fails in each environment.
pub(crate) fn failed_outcome(alloc: Global, dag: &mut Dag) -> Result<SymOutcome, AllocError>
    ensures keeps { Keeps dag.old dag.new }
    ensures fails { IfOk result (λ made. AlwaysFails dag.new made) }
{
    let constants = make_constants(dag)?;
    Ok(SymOutcome {
        failed: constants.on,
        skipped: constants.off,
        result: None,
        refs: List::new(alloc),
        cost: constants.free,
    })
}
