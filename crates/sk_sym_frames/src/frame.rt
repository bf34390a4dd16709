//! A call begins, returns and ends.

ghost use Rattle.std.specs.Prelude.{◌≡◌, ◌||◌, IfOk, OnOk, Some};
ghost use Rattle.sk_dag.specs.declared.env.Env.{Env};
ghost use Rattle.sk_dag.specs.Graph.{Graph, Grows, HasBool};
ghost use Rattle.sk_dag.specs.Eval.{bool_value, Keeps};
ghost use Rattle.sk_arr.specs.Shapes.{AllStand};
ghost use Rattle.sk_model.specs.Step.{pure};
ghost use Rattle.sk_model.specs.Exec.{Returns};
ghost use Rattle.sk_sym_state.specs.Stands.{StateStands, AnyStands};
ghost use Rattle.sk_sym_state.specs.Meaning.{ExecutesOn};
ghost use Rattle.sk_sym_frames.specs.Ended.{AnyWorth};
ghost use Rattle.sk_sym_frames.specs.Frames.{IsEntered, IsLeft, CallerStands, GoesOnBehind, IsCursorAfter};

use crate::ended::{end_of, given, latest};
use sk_base::List;
use sk_dag::{BoolId, Dag, Shape};
use sk_prog::Fun;
use sk_sym_folds::{flag, known_bool, or};
use sk_sym_state::{Ended, Frame, Setting, SymState, larger};
use std::alloc::AllocError;

/// What waits while a call is active: the state at the call.
#[derive(Drop)]
pub struct Caller {
    pub path: BoolId,
    pub failed: BoolId,
    pub skipped: BoolId,
    pub frame: Frame,
}

/// Begins a call: its variables are the arguments, and it has not returned. After a refusal the graph has all nodes that it
/// had (`keeps`); the state is given up with the walk that holds it.
pub fn enter(
    setting: &Setting<'_>,
    dag: &mut Dag,
    state: &mut SymState,
    args: List<Shape>,
) -> Result<Caller, AllocError>
    requires stands { StateStands dag.old setting.now.expanded.now.prog state.old }
    requires args { AllStand dag.old args }
    ensures keeps { Keeps dag.old dag.new }
    ensures entered { IfOk result (λ caller. IsEntered setting.now dag.old dag.new state.old state.new args caller) }
{
    let returned = flag(dag, false)?;
    let frame = Frame {
        slots: args,
        returned,
        ended: None,
        most: 0,
    };
    let frame = std::mem::replace(&mut state.frame, frame);
    Ok(Caller {
        path: state.path,
        failed: state.failed,
        skipped: state.skipped,
        frame,
    })
}

/// The path behind a call: where the call began, but where it has failed or was skipped in it. Where there is no such
/// place to be seen, it is the very node of before.
fn path_behind(dag: &mut Dag, state: &SymState, caller: &Caller) -> Result<BoolId, AllocError>
    requires path { HasBool dag.old.nodes state.now.path }
    requires returned { HasBool dag.old.nodes state.now.frame.returned }
    requires caller { HasBool dag.old.nodes caller.now.path }
    ensures keeps { Keeps dag.old dag.new }
    ensures there { IfOk result (λ r. HasBool dag.new.nodes r) }
    ensures path { IfOk result (λ r. (g : Graph) (e : Env) → Grows dag.new g → GoesOnBehind g e caller.now state.now r) }
{
    if state.failed.index == caller.failed.index && state.skipped.index == caller.skipped.index {
        return Ok(caller.path);
    }
    let r = or(dag, state.path, state.frame.returned)?;
    Ok(r)
}

/// The cursor behind a call: where its body goes on to its end under a path, with this cursor, and where it has returned
/// before, the slots from it on are free.
#[tactic(auto, using(crate::proofs::Frames::after))]
fn cursor_behind(dag: &Dag, path: BoolId, cursor: usize, most: usize) -> usize
    requires { HasBool dag.now.nodes path }
    ensures { IsCursorAfter dag.now path cursor most result }
{
    if let Some(false) = known_bool(dag, path) {
        return most;
    }
    larger(cursor, most)
}

/// Ends a call of a function, and goes on in its caller. The answer is what the call gives. After a refusal the graph has all
/// nodes that it had (`keeps`); the state is given up with the walk that holds it.
pub fn leave(
    setting: &Setting<'_>,
    dag: &mut Dag,
    state: &mut SymState,
    fun: &Fun,
    caller: Caller,
) -> Result<Ended, AllocError>
    requires stands { StateStands dag.old setting.now.expanded.now.prog state.old }
    requires caller { CallerStands dag.old caller }
    ensures keeps { Keeps dag.old dag.new }
    ensures left { IfOk result (λ r. IsLeft setting.now fun.now dag.old dag.new state.old state.new caller r) }
{
    let path = path_behind(dag, state, &caller)?;
    let cursor = cursor_behind(dag, state.path, state.cursor, state.frame.most);
    let frame = std::mem::replace(&mut state.frame, caller.frame);
    let Frame {
        slots,
        returned,
        ended,
        most: _,
    } = frame;
    let r = given(
        setting.alloc,
        dag,
        fun,
        state.path,
        slots.as_slice(),
        returned,
        ended,
    )?;
    state.cursor = cursor;
    state.path = path;
    Ok(r)
}

/// Returns from the active call, with a value where one is given. After a refusal the graph has all nodes that it had
/// (`keeps`); the state is given up with the walk that holds it.
pub fn give(
    setting: &Setting<'_>,
    dag: &mut Dag,
    state: &mut SymState,
    value: Option<Shape>,
) -> Result<(), AllocError>
    requires stands { StateStands dag.old setting.now.expanded.now.prog state.old }
    requires value { AnyStands dag.old value }
    ensures keeps { Keeps dag.old dag.new }
    ensures gives { OnOk result (ExecutesOn setting.now dag.old dag.new state.old state.new (λ g e v. AnyWorth g e state.old.heap value v) (λ e v. pure (Returns v))) }
{
    let now = end_of(
        setting.alloc,
        dag,
        setting.fun,
        state.frame.slots.as_slice(),
        value,
    )?;
    let before = std::mem::replace(&mut state.frame.ended, None);
    let ended = latest(setting.alloc, dag, state.path, now, before)?;
    let returned = or(dag, state.frame.returned, state.path)?;
    let path = flag(dag, false)?;
    state.frame.most = larger(state.frame.most, state.cursor);
    state.frame.ended = Some(ended);
    state.frame.returned = returned;
    state.path = path;
    Ok(())
}
