//! Expressions without parts.

ghost use Rattle.std.specs.Prelude.{◌≡◌, IfOk, slice_get};
ghost use Rattle.std.specs.Option.{option_copied};
ghost use Rattle.sk_dag.specs.Eval.{Keeps};
ghost use Rattle.sk_prog.specs.declared.value.Value.TheVariants as value;
ghost use Rattle.sk_model.specs.Step.{pure};
ghost use Rattle.sk_model.specs.Eval.{literal as literal_of, const_value as const_value_of};
ghost use Rattle.sk_model.specs.Open.{hole_value as hole_value_of};
ghost use Rattle.sk_sym_state.specs.Stands.{StateStands};
ghost use Rattle.sk_sym_state.specs.Meaning.{Evaluates, choice_at};

use sk_dag::{Dag, Shape};
use sk_prog::{ConstDef, ConstId, Prog, Ty};
use sk_sym_leaves::width_is;
use sk_sym_literals::{bit, const_value, hole_value, literal, null};
use sk_sym_state::{Setting, SymState};
use std::alloc::AllocError;

/// A written number at a type. After a refusal the graph has all nodes that it had (`keeps`).
pub fn number(
    setting: &Setting<'_>,
    dag: &mut Dag,
    state: &SymState,
    width: u32,
    ty: Option<Ty>,
    n: u32,
) -> Result<Shape, AllocError>
    requires stands { StateStands dag.old setting.now.expanded.now.prog state.now }
    ensures keeps { Keeps dag.old dag.new }
    ensures evaluates { IfOk result (λ r. Evaluates setting.now dag.old dag.new state.now state.now r (λ e. pure (literal_of width ty n))) }
{
    let _here = state.path;
    width_is(dag, width)?;
    let r = literal(setting.alloc, dag, ty, n)?;
    Ok(r)
}

/// A truth value. After a refusal the graph has all nodes that it had (`keeps`).
pub fn truth(
    setting: &Setting<'_>,
    dag: &mut Dag,
    state: &SymState,
    b: bool,
) -> Result<Shape, AllocError>
    requires stands { StateStands dag.old setting.now.expanded.now.prog state.now }
    ensures keeps { Keeps dag.old dag.new }
    ensures evaluates { IfOk result (λ r. Evaluates setting.now dag.old dag.new state.now state.now r (λ e. pure (value.Bit b))) }
{
    let _here = (setting.alloc, state.path);
    let r = bit(dag, b)?;
    Ok(r)
}

/// The reference to nothing.
pub fn nothing(setting: &Setting<'_>, dag: &Dag, state: &SymState) -> Shape
    requires stands { StateStands dag.now setting.now.expanded.now.prog state.now }
    ensures evaluates { Evaluates setting.now dag.now dag.now state.now state.now result (λ e. pure value.Null) }
{
    let _graph = (dag.int_bits(), state.path);
    null(setting.alloc)
}

// The constant with a number, where there is one.
fn constant_at(prog: &Prog, id: ConstId) -> Option<&ConstDef>
    ensures { option_copied result ≡ slice_get prog.now.consts id.index }
{
    prog.consts.as_slice().get(id.index as usize)
}

/// A constant of the program. After a refusal the graph has all nodes that it had (`keeps`).
pub fn constant(
    setting: &Setting<'_>,
    dag: &mut Dag,
    state: &SymState,
    id: ConstId,
) -> Result<Shape, AllocError>
    requires stands { StateStands dag.old setting.now.expanded.now.prog state.now }
    ensures keeps { Keeps dag.old dag.new }
    ensures evaluates { IfOk result (λ r. Evaluates setting.now dag.old dag.new state.now state.now r (λ e. pure (const_value_of (slice_get setting.now.expanded.now.prog.consts id.index)))) }
{
    let _here = state.path;
    let found = constant_at(&setting.expanded.prog, id);
    let r = const_value(dag, found)?;
    Ok(r)
}

/// The value of a hole at its type, of which the first site has this place. After a refusal the graph has all nodes that it
/// had (`keeps`).
pub fn hole_here(
    setting: &Setting<'_>,
    dag: &mut Dag,
    state: &SymState,
    width: u32,
    ty: Option<Ty>,
    site: usize,
) -> Result<Shape, AllocError>
    requires stands { StateStands dag.old setting.now.expanded.now.prog state.now }
    ensures keeps { Keeps dag.old dag.new }
    ensures evaluates { IfOk result (λ r. Evaluates setting.now dag.old dag.new state.now state.now r (λ e. pure (hole_value_of (choice_at setting.now e).values width ty site))) }
{
    let _here = state.path;
    width_is(dag, width)?;
    let r = hole_value(
        setting.alloc,
        dag,
        ty,
        site,
        setting.expanded,
        setting.choice,
    )?;
    Ok(r)
}
