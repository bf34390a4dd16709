//! Operators on shapes: the run fails where they do.

ghost use Rattle.std.specs.Prelude.{◌≡◌, IfOk, OnOk};
ghost use Rattle.sk_dag.specs.Eval.{Keeps};
ghost use Rattle.sk_arr.specs.Shapes.{Stands};
ghost use Rattle.sk_model.specs.Operators.{operator as operator_of, unary_operator, to_int as to_int_of};
ghost use Rattle.sk_sym_state.specs.Seen.{IsWorth};
ghost use Rattle.sk_sym_state.specs.Stands.{StateStands};
ghost use Rattle.sk_sym_steps.specs.Steps.{EvaluatesOn, AreTwo};

use sk_base::Span;
use sk_dag::{Dag, Shape};
use sk_limits::never;
use sk_prog::{BinOp, UnOp};
use sk_sym_operators::{operator, to_int, unary};
use sk_sym_state::{Setting, SymState};
use std::alloc::AllocError;

/// That a graph has words of so many bits. A walk over a graph has its width (`never`).
pub fn width_is(dag: &Dag, width: u32) -> Result<(), AllocError>
    ensures { OnOk result (dag.now.bits ≡ width) }
{
    if dag.int_bits() == width {
        return Ok(());
    }
    Err(never())
}

/// An operator on two shapes. It fails where the operator does. After a refusal the graph has all nodes that it had (`keeps`);
/// the state is given up with the walk that holds it.
pub fn operate(
    setting: &Setting<'_>,
    dag: &mut Dag,
    state: &mut SymState,
    width: u32,
    span: Span,
    op: BinOp,
    a: &Shape,
    b: &Shape,
) -> Result<Shape, AllocError>
    requires stands { StateStands dag.old setting.now.expanded.now.prog state.old }
    requires a { Stands dag.old a.now }
    requires b { Stands dag.old b.now }
    ensures keeps { Keeps dag.old dag.new }
    ensures evaluates { IfOk result (λ r. EvaluatesOn setting.now dag.old dag.new state.old state.new (AreTwo state.old.heap a.now b.now) r (λ e vs. operator_of width span op vs.0 vs.1)) }
{
    width_is(dag, width)?;
    let made = operator(setting.alloc, dag, op, a, b)?;
    state.fail_where(setting, dag, made.fails)?;
    Ok(made.value)
}

/// An operator before a shape. After a refusal the graph has all nodes that it had (`keeps`); the state is given up with the
/// walk that holds it.
pub fn operate_one(
    setting: &Setting<'_>,
    dag: &mut Dag,
    state: &mut SymState,
    width: u32,
    span: Span,
    op: UnOp,
    a: &Shape,
) -> Result<Shape, AllocError>
    requires stands { StateStands dag.old setting.now.expanded.now.prog state.old }
    requires a { Stands dag.old a.now }
    ensures keeps { Keeps dag.old dag.new }
    ensures evaluates { IfOk result (λ r. EvaluatesOn setting.now dag.old dag.new state.old state.new (λ g e. IsWorth g e state.old.heap a.now) r (λ e. unary_operator width span op)) }
{
    width_is(dag, width)?;
    let made = unary(setting.alloc, dag, op, a)?;
    state.fail_where(setting, dag, made.fails)?;
    Ok(made.value)
}

/// The coercion of a bit to an integer. After a refusal the graph has all nodes that it had (`keeps`); the state is given up
/// with the walk that holds it.
pub fn convert(
    setting: &Setting<'_>,
    dag: &mut Dag,
    state: &mut SymState,
    span: Span,
    a: &Shape,
) -> Result<Shape, AllocError>
    requires stands { StateStands dag.old setting.now.expanded.now.prog state.old }
    requires a { Stands dag.old a.now }
    ensures keeps { Keeps dag.old dag.new }
    ensures evaluates { IfOk result (λ r. EvaluatesOn setting.now dag.old dag.new state.old state.new (λ g e. IsWorth g e state.old.heap a.now) r (λ e. to_int_of span)) }
{
    let made = to_int(dag, a)?;
    state.fail_where(setting, dag, made.fails)?;
    Ok(made.value)
}
