//! What the target of an assignment may name.

ghost use Rattle.std.specs.Prelude.{◌≡◌, IfOk, OnOk};
ghost use Rattle.sk_dag.specs.Graph.{HasBool};
ghost use Rattle.sk_dag.specs.Eval.{Keeps};
ghost use Rattle.sk_arr.specs.Shapes.{Stands};
ghost use Rattle.sk_model.specs.Exec.{onward};
ghost use Rattle.sk_model.specs.Heap.{store as stored};
ghost use Rattle.sk_sym_state.specs.Stands.{StateStands};
ghost use Rattle.sk_sym_state.specs.Meaning.{ExecutesOn};
ghost use Rattle.sk_sym_places.specs.declared.place.Place.TheVariants.{Either as either_of};
ghost use Rattle.sk_sym_places.specs.Places.{PlaceStands, IsPut, Puts};

use sk_base::{Boxed, Span};
use sk_dag::{BoolId, Dag, Shape};
use sk_sym_state::{Setting, SymState};
use sk_sym_stores::{Location, store};
use std::alloc::{AllocError, Global};

/// What a target may name: a location, or one of two places by a bit.
#[derive(Drop)]
pub enum Place {
    One(Location),
    /// The first place where the bit holds, and else the second.
    Either {
        cond: BoolId,
        first: Boxed<Place>,
        second: Boxed<Place>,
    },
}

impl Place {
    /// The first place where a bit holds, and else the second.
    ///
    /// # Errors
    ///
    /// Want of memory.
    pub fn either(
        alloc: Global,
        cond: BoolId,
        first: Place,
        second: Place,
    ) -> Result<Place, AllocError>
        ensures { IfOk result (λ made. made ≡ either_of cond first second) }
    {
        let first = Boxed::new(alloc, first)?;
        let second = Boxed::new(alloc, second)?;
        Ok(Place::Either {
            cond,
            first,
            second,
        })
    }
}

/// Stores a value at the location that a place is.
#[cycle(put)]
fn put(
    setting: &Setting<'_>,
    dag: &mut Dag,
    state: &mut SymState,
    span: Span,
    place: &Place,
    value: &Shape,
) -> Result<(), AllocError>
    requires stands { StateStands dag.old setting.now.expanded.now.prog state.old }
    requires place { PlaceStands dag.old place.now }
    requires value { Stands dag.old value.now }
    ensures keeps { Keeps dag.old dag.new }
    ensures puts { OnOk result (Puts setting.now dag.old dag.new state.old state.new span place.now value.now) }
{
    match place {
        Place::One(location) => {
            store(setting, dag, state, span, location, value)?;
            Ok(())
        }
        Place::Either {
            cond,
            first,
            second,
        } => put_either(
            setting,
            dag,
            state,
            span,
            *cond,
            first.get(),
            second.get(),
            value,
        ),
    }
}

/// Stores a value at the first place where a bit holds, and else at the second.
#[cycle(put)]
fn put_either(
    setting: &Setting<'_>,
    dag: &mut Dag,
    state: &mut SymState,
    span: Span,
    cond: BoolId,
    first: &Place,
    second: &Place,
    value: &Shape,
) -> Result<(), AllocError>
    requires stands { StateStands dag.old setting.now.expanded.now.prog state.old }
    requires cond { HasBool dag.old.nodes cond }
    requires first { PlaceStands dag.old first.now }
    requires second { PlaceStands dag.old second.now }
    requires value { Stands dag.old value.now }
    ensures keeps { Keeps dag.old dag.new }
    ensures puts { OnOk result (Puts setting.now dag.old dag.new state.old state.new span (either_of cond first.now second.now) value.now) }
{
    let waits = state.fork(setting, dag, cond)?;
    put(setting, dag, state, span, first, value)?;
    let gone = state.turn(waits);
    put(setting, dag, state, span, second, value)?;
    state.join(setting, dag, cond, gone)?;
    Ok(())
}

/// An assignment of a value to a place: it is stored at the location that the place is. It fails where that begins at a field of
/// null, and where an index of it leaves its array.
///
/// # Errors
///
/// Memory is wanting, or the shapes are not of the forms and structs that a typed program has there. After a refusal the graph
/// has all nodes that it had (`keeps`); the state is given up with the walk that holds it.
pub fn assign(
    setting: &Setting<'_>,
    dag: &mut Dag,
    state: &mut SymState,
    span: Span,
    place: &Place,
    value: &Shape,
) -> Result<(), AllocError>
    requires stands { StateStands dag.old setting.now.expanded.now.prog state.old }
    requires place { PlaceStands dag.old place.now }
    requires value { Stands dag.old value.now }
    ensures keeps { Keeps dag.old dag.new }
    ensures executes { OnOk result (ExecutesOn setting.now dag.old dag.new state.old state.new (IsPut state.old.heap place.now value.now) (λ e p. onward (stored span p.0 p.1))) }
{
    put(setting, dag, state, span, place, value)?;
    Ok(())
}
