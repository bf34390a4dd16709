//! Expressions of one part.

ghost use Rattle.std.specs.Prelude.{◌≡◌, IfOk};
ghost use Rattle.sk_dag.specs.Eval.{Keeps};
ghost use Rattle.sk_arr.specs.Shapes.{Stands};
ghost use Rattle.sk_model.specs.Step.{pure};
ghost use Rattle.sk_model.specs.Eval.{padded_at as padded};
ghost use Rattle.sk_sym_state.specs.Stands.{StateStands};
ghost use Rattle.sk_sym_state.specs.Seen.{IsWorth};
ghost use Rattle.sk_sym_steps.specs.Steps.{EvaluatesOn};
ghost use Rattle.sk_sym_forms.specs.Forms.{single_does};

use sk_base::Span;
use sk_dag::{Dag, Shape};
use sk_prog::{StructId, Ty, UnOp};
use sk_sym_leaves::{convert, operate_one};
use sk_sym_literals::padded_at;
use sk_sym_state::{Setting, SymState};
use sk_sym_steps::read_field;
use std::alloc::AllocError;

/// What an expression does with the value of its one part.
#[derive(Clone, Copy)]
pub enum Single {
    Unary(UnOp),
    /// A bit becomes an integer.
    ToInt,
    /// An array becomes longer, at a type.
    Pad(Option<Ty>),
    /// A field of a record, by its place in the struct.
    Member(StructId, u32),
}

/// A value made longer at a type.
fn pad(
    setting: &Setting<'_>,
    dag: &mut Dag,
    state: &mut SymState,
    ty: Option<Ty>,
    a: Shape,
) -> Result<Shape, AllocError>
    requires stands { StateStands dag.old setting.now.expanded.now.prog state.old }
    requires a { Stands dag.old a }
    ensures keeps { Keeps dag.old dag.new }
    ensures evaluates { IfOk result (λ r. EvaluatesOn setting.now dag.old dag.new state.old state.new (λ g e. IsWorth g e state.old.heap a) r (λ e v. pure (padded ty v))) }
{
    let _here = state.path;
    let r = padded_at(setting.alloc, dag, ty, a)?;
    Ok(r)
}

/// The value of an expression whose one part has this value.
///
/// # Errors
///
/// Memory is wanting, or a step that this hands on ends as `never`. After a refusal the graph has all nodes that it had
/// (`keeps`); the state is given up with the walk that holds it.
pub fn apply(
    setting: &Setting<'_>,
    dag: &mut Dag,
    state: &mut SymState,
    width: u32,
    span: Span,
    what: Single,
    a: Shape,
) -> Result<Shape, AllocError>
    requires stands { StateStands dag.old setting.now.expanded.now.prog state.old }
    requires a { Stands dag.old a }
    ensures keeps { Keeps dag.old dag.new }
    ensures evaluates { IfOk result (λ r. EvaluatesOn setting.now dag.old dag.new state.old state.new (λ g e. IsWorth g e state.old.heap a) r (λ e. single_does width span what)) }
{
    match what {
        Single::Unary(op) => {
            let r = operate_one(setting, dag, state, width, span, op, &a)?;
            Ok(r)
        }
        Single::ToInt => {
            let r = convert(setting, dag, state, span, &a)?;
            Ok(r)
        }
        Single::Pad(ty) => {
            let r = pad(setting, dag, state, ty, a)?;
            Ok(r)
        }
        Single::Member(s, field) => {
            let r = read_field(setting, dag, state, span, s, field, &a)?;
            Ok(r)
        }
    }
}
