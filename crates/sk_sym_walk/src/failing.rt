//! Steps that fail where a value, a string or a target is none.

ghost use Rattle.std.specs.Prelude.{IfOk};
ghost use Rattle.sk_dag.specs.Graph.{HasBool};
ghost use Rattle.sk_dag.specs.Eval.{Keeps};
ghost use Rattle.sk_arr.specs.Shapes.{Stands};
ghost use Rattle.sk_model.specs.Step.{fail};
ghost use Rattle.sk_sym_state.specs.Seen.{IsWorth};
ghost use Rattle.sk_sym_state.specs.Stands.{StateStands};
ghost use Rattle.sk_sym_state.specs.Branching.{IsBit};
ghost use Rattle.sk_sym_state.specs.Meaning.{DoesOn, Executes, Evaluates};
ghost use Rattle.sk_sym_places.specs.Places.{Places};
ghost use Rattle.sk_sym_walk.specs.Parts.{as_bit};

use crate::calling::absent;
use sk_base::Span;
use sk_dag::{BoolId, Dag, Shape};
use sk_sym_folds::flag;
use sk_sym_forms::fail_here;
use sk_sym_places::Place;
use sk_sym_places::stores::Location;
use sk_sym_state::{Setting, SymState};
use std::alloc::AllocError;

/// Fails wherever the run goes on, with the node that is false.
fn fail_with_bit(
    setting: &Setting<'_>,
    dag: &mut Dag,
    state: &mut SymState,
    span: Span,
) -> Result<BoolId, AllocError>
    requires stands { StateStands dag.old setting.now.expanded.now.prog state.old }
    ensures keeps { Keeps dag.old dag.new }
    ensures there { IfOk result (λ c. HasBool dag.new.nodes c) }
    ensures executes { IfOk result (λ c. Executes setting.now dag.old dag.new state.old state.new (λ e. fail span)) }
{
    fail_here(setting, dag, state, span)?;
    let c = flag(dag, false)?;
    Ok(c)
}

/// The node of a value that is a bit. The run fails where it is none.
pub(crate) fn bit_of(
    setting: &Setting<'_>,
    dag: &mut Dag,
    state: &mut SymState,
    span: Span,
    v: &Shape,
) -> Result<BoolId, AllocError>
    requires stands { StateStands dag.old setting.now.expanded.now.prog state.old }
    requires v { Stands dag.old v.now }
    ensures keeps { Keeps dag.old dag.new }
    ensures there { IfOk result (λ c. HasBool dag.new.nodes c) }
    ensures does { IfOk result (λ c. DoesOn setting.now dag.old dag.new state.old state.new (λ g e. IsWorth g e state.old.heap v.now) (IsBit c) (λ e. as_bit span)) }
{
    match v {
        Shape::Bit(c) => Ok(*c),
        Shape::Int(_) => fail_with_bit(setting, dag, state, span),
        Shape::Reference(_) => fail_with_bit(setting, dag, state, span),
        Shape::Array(_) => fail_with_bit(setting, dag, state, span),
    }
}

/// Fails wherever the run goes on, with a shape that no run needs.
pub(crate) fn fail_without(
    setting: &Setting<'_>,
    dag: &mut Dag,
    state: &mut SymState,
    span: Span,
) -> Result<Shape, AllocError>
    requires stands { StateStands dag.old setting.now.expanded.now.prog state.old }
    ensures keeps { Keeps dag.old dag.new }
    ensures evaluates { IfOk result (λ r. Evaluates setting.now dag.old dag.new state.old state.new r (λ e. fail span)) }
{
    fail_here(setting, dag, state, span)?;
    let r = absent(setting.alloc, dag, None)?;
    Ok(r)
}

/// Fails wherever the run goes on, with a place that no run needs.
pub(crate) fn fail_nowhere(
    setting: &Setting<'_>,
    dag: &mut Dag,
    state: &mut SymState,
    span: Span,
) -> Result<Place, AllocError>
    requires stands { StateStands dag.old setting.now.expanded.now.prog state.old }
    ensures keeps { Keeps dag.old dag.new }
    ensures places { IfOk result (λ p. Places setting.now dag.old dag.new state.old state.new p (λ e. fail span)) }
{
    fail_here(setting, dag, state, span)?;
    Ok(Place::One(Location::variable(setting.alloc, 0)))
}
