//! Elements and slices of arrays: the run fails where an index leaves the range.

ghost use Rattle.std.specs.Prelude.{IfOk};
ghost use Rattle.sk_dag.specs.Eval.{Keeps};
ghost use Rattle.sk_arr.specs.Shapes.{Stands};
ghost use Rattle.sk_model.specs.Eval.{indexed as indexed_of, sliced as sliced_of};
ghost use Rattle.sk_sym_state.specs.Stands.{StateStands};
ghost use Rattle.sk_sym_steps.specs.Steps.{EvaluatesOn, AreTwo};

use sk_base::Span;
use sk_dag::{Dag, Shape};
use sk_sym_operators::{indexed, sliced};
use sk_sym_state::{Setting, SymState};
use std::alloc::AllocError;

/// An element of an array by an index. It fails where there is none. What the operator has of shapes that no typed program has
/// there, it hands on. After a refusal the graph has all nodes that it had (`keeps`); the state is given up with the walk that
/// holds it.
pub fn element(
    setting: &Setting<'_>,
    dag: &mut Dag,
    state: &mut SymState,
    span: Span,
    a: &Shape,
    index: &Shape,
) -> Result<Shape, AllocError>
    requires stands { StateStands dag.old setting.now.expanded.now.prog state.old }
    requires a { Stands dag.old a.now }
    requires index { Stands dag.old index.now }
    ensures keeps { Keeps dag.old dag.new }
    ensures evaluates { IfOk result (λ r. EvaluatesOn setting.now dag.old dag.new state.old state.new (AreTwo state.old.heap a.now index.now) r (λ e vs. indexed_of span vs.0 vs.1)) }
{
    let made = indexed(setting.alloc, dag, a, index)?;
    state.fail_where(setting, dag, made.fails)?;
    Ok(made.value)
}

/// So many elements of an array from an index on, as an array. It fails where they leave the range. What the operator has of
/// shapes and a count that no typed program has there, it hands on. After a refusal the graph has all nodes that it had
/// (`keeps`); the state is given up with the walk that holds it.
pub fn slice(
    setting: &Setting<'_>,
    dag: &mut Dag,
    state: &mut SymState,
    span: Span,
    count: u32,
    a: &Shape,
    index: &Shape,
) -> Result<Shape, AllocError>
    requires stands { StateStands dag.old setting.now.expanded.now.prog state.old }
    requires a { Stands dag.old a.now }
    requires index { Stands dag.old index.now }
    ensures keeps { Keeps dag.old dag.new }
    ensures evaluates { IfOk result (λ r. EvaluatesOn setting.now dag.old dag.new state.old state.new (AreTwo state.old.heap a.now index.now) r (λ e vs. sliced_of span count vs.0 vs.1)) }
{
    let made = sliced(setting.alloc, dag, count, a, index)?;
    state.fail_where(setting, dag, made.fails)?;
    Ok(made.value)
}
