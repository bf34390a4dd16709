//! Expressions of two parts.

ghost use Rattle.std.specs.Prelude.{IfOk};
ghost use Rattle.sk_dag.specs.Eval.{Keeps};
ghost use Rattle.sk_arr.specs.Shapes.{Stands};
ghost use Rattle.sk_sym_state.specs.Stands.{StateStands};
ghost use Rattle.sk_sym_steps.specs.Steps.{EvaluatesOn, AreTwo};
ghost use Rattle.sk_sym_forms.specs.Forms.{double_does};

use sk_base::Span;
use sk_dag::{Dag, Shape};
use sk_prog::BinOp;
use sk_sym_leaves::{element, operate, slice};
use sk_sym_state::{Setting, SymState};
use std::alloc::AllocError;

/// What an expression does with the values of its two parts.
#[derive(Clone, Copy)]
pub enum Double {
    /// An operator that needs both values.
    Operator(BinOp),
    /// The second is an index in the first.
    Index,
    /// So many elements of the first, from the second on.
    Slice(u32),
}

/// The value of an expression whose two parts have these values.
///
/// # Errors
///
/// Memory is wanting, or a step that this hands on ends as `never`. After a refusal the graph has all nodes that it had
/// (`keeps`); the state is given up with the walk that holds it.
pub fn apply_two(
    setting: &Setting<'_>,
    dag: &mut Dag,
    state: &mut SymState,
    width: u32,
    span: Span,
    what: Double,
    a: &Shape,
    b: &Shape,
) -> Result<Shape, AllocError>
    requires stands { StateStands dag.old setting.now.expanded.now.prog state.old }
    requires a { Stands dag.old a.now }
    requires b { Stands dag.old b.now }
    ensures keeps { Keeps dag.old dag.new }
    ensures evaluates { IfOk result (λ r. EvaluatesOn setting.now dag.old dag.new state.old state.new (AreTwo state.old.heap a.now b.now) r (λ e vs. double_does width span what vs.0 vs.1)) }
{
    match what {
        Double::Operator(op) => {
            let r = operate(setting, dag, state, width, span, op, a, b)?;
            Ok(r)
        }
        Double::Index => {
            let r = element(setting, dag, state, span, a, b)?;
            Ok(r)
        }
        Double::Slice(count) => {
            let r = slice(setting, dag, state, span, count, a, b)?;
            Ok(r)
        }
    }
}
