//! Statements of one expression.

ghost use Rattle.std.specs.Prelude.{◌≡◌, OnOk, Some};
ghost use Rattle.sk_dag.specs.Eval.{Keeps};
ghost use Rattle.sk_arr.specs.Shapes.{Stands};
ghost use Rattle.sk_model.specs.Step.{pure};
ghost use Rattle.sk_model.specs.Heap.{write};
ghost use Rattle.sk_model.specs.Exec.{Returns, onward, pay as pays};
ghost use Rattle.sk_sym_state.specs.Stands.{StateStands};
ghost use Rattle.sk_sym_state.specs.Seen.{IsWorth};
ghost use Rattle.sk_sym_state.specs.Meaning.{ExecutesOn};
ghost use Rattle.sk_sym_forms.specs.Forms.{act_does};

use sk_base::Span;
use sk_dag::{Dag, Shape};
use sk_sym_frames::give;
use sk_sym_state::{Setting, SymState};
use sk_sym_steps::{assert_that, assume_that, fail_now, pay};
use std::alloc::AllocError;

/// What a statement does with the value of its one expression.
#[derive(Clone, Copy)]
pub enum Act {
    Assert,
    Assume,
    Minimize,
    /// Nothing.
    Drop,
    Return,
    /// It is the first value of the variable in a slot.
    Declare(u32),
}

/// Pays a value. It fails where that is no word.
fn pay_value(
    setting: &Setting<'_>,
    dag: &mut Dag,
    state: &mut SymState,
    span: Span,
    a: &Shape,
) -> Result<(), AllocError>
    requires stands { StateStands dag.old setting.now.expanded.now.prog state.old }
    requires a { Stands dag.old a.now }
    ensures keeps { Keeps dag.old dag.new }
    ensures executes { OnOk result (ExecutesOn setting.now dag.old dag.new state.old state.new (λ g e. IsWorth g e state.old.heap a.now) (λ e. pays span)) }
{
    let Shape::Int(amount) = a else {
        fail_now(setting, dag, state)?;
        return Ok(());
    };
    pay(setting, dag, state, span, *amount)?;
    Ok(())
}

/// Returns a value.
fn return_value(
    setting: &Setting<'_>,
    dag: &mut Dag,
    state: &mut SymState,
    a: Shape,
) -> Result<(), AllocError>
    requires stands { StateStands dag.old setting.now.expanded.now.prog state.old }
    requires a { Stands dag.old a }
    ensures keeps { Keeps dag.old dag.new }
    ensures executes { OnOk result (ExecutesOn setting.now dag.old dag.new state.old state.new (λ g e. IsWorth g e state.old.heap a) (λ e v. pure (Returns (Some v)))) }
{
    give(setting, dag, state, Some(a))?;
    Ok(())
}

/// Brings a variable into scope with a value.
fn declare_value(
    setting: &Setting<'_>,
    dag: &mut Dag,
    state: &mut SymState,
    slot: u32,
    a: Shape,
) -> Result<(), AllocError>
    requires stands { StateStands dag.old setting.now.expanded.now.prog state.old }
    requires a { Stands dag.old a }
    ensures keeps { Keeps dag.old dag.new }
    ensures executes { OnOk result (ExecutesOn setting.now dag.old dag.new state.old state.new (λ g e. IsWorth g e state.old.heap a) (λ e v. onward (write slot v))) }
{
    let _graph = dag.int_bits();
    let _setting = setting.alloc;
    state.declare(slot, a)?;
    Ok(())
}

/// What a statement does with the value of its expression.
///
/// # Errors
///
/// Memory is wanting, or a step that this hands on ends as `never`. After a refusal the graph has all nodes that it had
/// (`keeps`); the state is given up with the walk that holds it.
pub fn perform(
    setting: &Setting<'_>,
    dag: &mut Dag,
    state: &mut SymState,
    span: Span,
    what: Act,
    a: Shape,
) -> Result<(), AllocError>
    requires stands { StateStands dag.old setting.now.expanded.now.prog state.old }
    requires a { Stands dag.old a }
    ensures keeps { Keeps dag.old dag.new }
    ensures executes { OnOk result (ExecutesOn setting.now dag.old dag.new state.old state.new (λ g e. IsWorth g e state.old.heap a) (λ e. act_does span what)) }
{
    match what {
        Act::Assert => {
            assert_that(setting, dag, state, span, &a)?;
            Ok(())
        }
        Act::Assume => {
            assume_that(setting, dag, state, span, &a)?;
            Ok(())
        }
        Act::Minimize => {
            pay_value(setting, dag, state, span, &a)?;
            Ok(())
        }
        Act::Drop => Ok(()),
        Act::Return => {
            return_value(setting, dag, state, a)?;
            Ok(())
        }
        Act::Declare(slot) => {
            declare_value(setting, dag, state, slot, a)?;
            Ok(())
        }
    }
}
