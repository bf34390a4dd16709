//! What stands at the top, with the types of fields and of signatures.
ghost use Rattle.std.specs.Prelude.{map, []};
ghost use Rattle.sk_tree.specs.declared.item.Item.TheVariants as item;
ghost use Rattle.sk_types_rules.specs.Constants.{constant_number};
ghost use Rattle.sk_types_laws.specs.Envs.{known};
ghost use Rattle.sk_types_laws.specs.Whole.{context_in, typed_top, struct_of, heading_of};
ghost use Rattle.sk_types_names.specs.Envs.{top_seen, IsNumbered};
ghost use Rattle.sk_types_names.specs.Gives.{Gives, IsWidth};
ghost use Rattle.sk_types_names.specs.Leaves.{GivesHeading};
ghost use Rattle.sk_types.specs.Tops.{typed_after, Steps, Knows, GivesTop};

use crate::signature::{NOWHERE, heading_of, struct_of};
use sk_base::{Bounds, Name};
use sk_tree::{Expr, Field, FunItem, Item};
use sk_types_exprs::constant_fault;
use sk_types_laws::{Constant, Heading, Rule, Typing};
use sk_types_names::{Env, Listed, Names, Scope, StructTable, copied, fault};
use std::alloc::Global;

/// What is typed of the items so far: what stands at the top, and the numbers of the constants.
#[derive(Drop)]
pub struct Typed {
    pub names: Names,
    pub known: Listed<Constant>,
}

fn struct_in(
    alloc: Global,
    bounds: &Bounds,
    top: &Names,
    earlier: &Listed<Constant>,
    name: &Name,
    fields: &[Field],
) -> Result<StructTable, Typing>
    requires width { IsWidth bounds.now }
    requires numbered { IsNumbered top.now }
    ensures { Gives result (struct_of (context_in bounds.now (top_seen top.now) (map known earlier.now)) name.now fields.now) }
{
    let env = Env {
        alloc,
        bounds: *bounds,
        top,
        known: earlier,
    };
    struct_of(&env, name, fields)
}

/// The number of a constant.
pub fn number_in(
    alloc: Global,
    bounds: &Bounds,
    top: &Names,
    earlier: &Listed<Constant>,
    value: &Expr,
) -> Result<u32, Typing>
    requires width { IsWidth bounds.now }
    requires numbered { IsNumbered top.now }
    ensures { Gives result (constant_number (context_in bounds.now (top_seen top.now) (map known earlier.now)) [] value.now) }
{
    let env = Env {
        alloc,
        bounds: *bounds,
        top,
        known: earlier,
    };
    let scope = Scope::new(alloc);
    match env.constant_number(&scope, value) {
        None => Err(constant_fault(&env, &scope, value)),
        Some(number) => Ok(number),
    }
}

/// What a function is to its callers, where these constants stand earlier.
pub fn heading_in(
    alloc: Global,
    bounds: &Bounds,
    top: &Names,
    earlier: &Listed<Constant>,
    item: &FunItem,
) -> Result<Heading, Typing>
    requires width { IsWidth bounds.now }
    requires numbered { IsNumbered top.now }
    ensures { GivesHeading result (heading_of (context_in bounds.now (top_seen top.now) (map known earlier.now)) item.now) }
{
    let env = Env {
        alloc,
        bounds: *bounds,
        top,
        known: earlier,
    };
    heading_of(&env, item)
}

/// One more constant that stands earlier.
#[tactic(auto, using(crate::proofs::ItemLaws::known_added))]
pub fn know(
    alloc: Global,
    earlier: &mut Listed<Constant>,
    name: &Name,
    number: u32,
) -> Result<(), Typing>
    ensures { Knows result (map known earlier.old) (map known earlier.new) name.now number }
{
    let name = copied(alloc, name)?;
    earlier.push(Constant { name, number })?;
    Ok(())
}

/// One more struct.
fn type_struct(
    alloc: Global,
    bounds: &Bounds,
    top: &Names,
    typed: &mut Typed,
    name: &Name,
    fields: &[Field],
) -> Result<(), Typing>
    requires width { IsWidth bounds.now }
    requires numbered { IsNumbered top.now }
    ensures { Steps result (typed_after bounds.now (top_seen top.now) typed.old) (typed_after bounds.now (top_seen top.now) typed.new) (item.Struct name.now fields.now) }
{
    let def = struct_in(alloc, bounds, top, &typed.known, name, fields)?;
    typed.names.structs.push(def)?;
    Ok(())
}

/// One more constant, which is known from then on.
fn type_const(
    alloc: Global,
    bounds: &Bounds,
    top: &Names,
    typed: &mut Typed,
    name: &Name,
    value: &Expr,
) -> Result<(), Typing>
    requires width { IsWidth bounds.now }
    requires numbered { IsNumbered top.now }
    ensures { Steps result (typed_after bounds.now (top_seen top.now) typed.old) (typed_after bounds.now (top_seen top.now) typed.new) (item.Const name.now value.now) }
{
    let number = number_in(alloc, bounds, top, &typed.known, value)?;
    let copy = copied(alloc, name)?;
    know(alloc, &mut typed.known, name, number)?;
    typed.names.consts.push(copy)?;
    Ok(())
}

/// One more function.
fn type_fun(
    alloc: Global,
    bounds: &Bounds,
    top: &Names,
    typed: &mut Typed,
    function: &FunItem,
) -> Result<(), Typing>
    requires width { IsWidth bounds.now }
    requires numbered { IsNumbered top.now }
    ensures { Steps result (typed_after bounds.now (top_seen top.now) typed.old) (typed_after bounds.now (top_seen top.now) typed.new) (item.Fun function.now) }
{
    let heading = heading_in(alloc, bounds, top, &typed.known, function)?;
    typed.names.funs.push(heading)?;
    Ok(())
}

/// One more item.
fn type_item(
    alloc: Global,
    bounds: &Bounds,
    top: &Names,
    typed: &mut Typed,
    item: &Item,
) -> Result<(), Typing>
    requires width { IsWidth bounds.now }
    requires numbered { IsNumbered top.now }
    ensures { Steps result (typed_after bounds.now (top_seen top.now) typed.old) (typed_after bounds.now (top_seen top.now) typed.new) item.now }
{
    match item {
        Item::Pragma { word: _, text: _ } => Err(fault(Rule::UnknownName, NOWHERE)),
        Item::Struct { name, fields } => {
            type_struct(alloc, bounds, top, typed, name, fields.as_slice())
        }
        Item::Const { name, value } => type_const(alloc, bounds, top, typed, name, value),
        Item::Fun(item) => type_fun(alloc, bounds, top, typed, item),
    }
}

/// What stands at the top, where the names at the top are known.
#[tactic(auto, using(crate::proofs::ItemLaws::steps))]
pub fn typed_top(
    alloc: Global,
    bounds: &Bounds,
    top: &Names,
    items: &[Item],
) -> Result<Names, Typing>
    requires width { IsWidth bounds.now }
    requires numbered { IsNumbered top.now }
    ensures { GivesTop result (typed_top bounds.now (top_seen top.now) [] items.now) }
{
    let mut typed = Typed {
        names: Names::new(alloc),
        known: Listed::new(alloc),
    };
    for item in items {
        type_item(alloc, bounds, top, &mut typed, item)?;
    }
    let Typed { names, known: _ } = typed;
    Ok(names)
}
