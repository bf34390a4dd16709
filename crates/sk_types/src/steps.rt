//! The first fault of a tree in which the target of a step may not be evaluated twice.
ghost use Rattle.sk_types_names.specs.Gives.{IsWidth};

use crate::bodies::bodies_of;
use crate::items::typed_top;
use crate::names::{are_distinct, is_numbered, named_top};
use crate::signature::NOWHERE;
use sk_base::{Bounds, Span};
use sk_tree::{Item, Tree};
use sk_types_laws::{Rule, Typing};
use sk_types_names::fault;
use sk_types_plain::plain;
use std::alloc::Global;

/// Whether a statement of an item ends at this place or behind it.
fn reaches(item: &Item, place: Span) -> bool {
    match item {
        Item::Fun(item) => match item.body.as_slice().last() {
            None => false,
            Some(stmt) => place.to <= stmt.span.to,
        },
        _ => false,
    }
}

/// The items up to the one in which this place is.
fn items_to(items: &[Item], place: Span) -> &[Item] {
    for (i, item) in items.iter().enumerate() {
        if reaches(item, place) {
            return &items[..i + 1];
        }
    }
    items
}

/// The first fault of plain items up to this place: of the names at the top, of signatures, of bodies.
fn judged_to(alloc: Global, bounds: &Bounds, items: &[Item], place: Span) -> Result<(), Typing>
    requires { IsWidth bounds.now }
{
    let names = named_top(alloc, items)?;
    if !are_distinct(alloc, &names)? {
        return Err(fault(Rule::Twice, NOWHERE));
    }
    if !is_numbered(&names) {
        return Err(Typing::Memory);
    }
    let top = typed_top(alloc, bounds, &names, items)?;
    if !is_numbered(&top) {
        return Err(Typing::Memory);
    }
    bodies_of(alloc, bounds, &top, items_to(items, place))?;
    Ok(())
}

/// Whether what is wrong is found before this place, or inside it. What has no place belongs to names and signatures.
fn is_met_before(why: &Typing, place: Span) -> bool {
    match why {
        Typing::Memory => true,
        Typing::Fault(found) => {
            let Span { from, to } = found.span;
            to <= place.from || (place.from <= from && to <= place.to)
        }
    }
}

/// What is wrong with a tree in which this is the first target of a step that may not be evaluated twice: what is met
/// before that, else that.
pub fn step_fault(alloc: Global, tree: &Tree, bounds: &Bounds, target: Span) -> Typing
    requires { IsWidth bounds.now }
{
    let Ok(plain) = plain(alloc, tree) else {
        return Typing::Memory;
    };
    match judged_to(alloc, bounds, plain.items.as_slice(), target) {
        Err(why) if is_met_before(&why, target) => why,
        _ => fault(Rule::NotTarget, target),
    }
}
