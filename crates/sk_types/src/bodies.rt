//! The values of constants and the bodies of functions.
ghost use Rattle.std.specs.Prelude.{map, []};
ghost use Rattle.sk_tree.specs.declared.item.Item.TheVariants as item;
ghost use Rattle.sk_types_rules.specs.Types.{parameters};
ghost use Rattle.sk_types_laws.specs.Envs.{known, signature};
ghost use Rattle.sk_types_laws.specs.Whole.{context_in, bodies_of, const_of, fun_of, implements_of};
ghost use Rattle.sk_types_names.specs.Envs.{context_of, top_seen, IsEnv, IsNumbered};
ghost use Rattle.sk_types_names.specs.Gives.{Gives, IsWidth};
ghost use Rattle.sk_types.specs.Tops.{bodies_after, Steps, GivesBodies};

use crate::items::{heading_in, know, number_in};
use crate::signature::{NOWHERE, may_implement};
use sk_base::{Bounds, List, Name, at};
use sk_prog::{ConstDef, Fun, FunId, ParamDef};
use sk_tree::{Expr, FunItem, Item};
use sk_types_laws::{Constant, Heading, Meant, Rule, Typing};
use sk_types_names::{Env, INT, Listed, Names, Scope, copied, fault, numbered};
use sk_types_stmts::{enter, make_all, most, value_at};
use std::alloc::Global;

/// What is made of the items so far: constants and functions, and the numbers of the constants.
#[derive(Drop)]
pub struct Whole {
    pub consts: List<ConstDef>,
    pub funs: List<Fun>,
    pub known: Listed<Constant>,
}

/// A constant with its number.
fn const_of(env: &Env, name: &Name, value: &Expr, number: u32) -> Result<ConstDef, Typing>
    requires { IsEnv env.now }
    ensures { Gives result (const_of (context_of env.now) name.now value.now number) }
{
    let scope = Scope::new(env.alloc);
    let name = copied(env.alloc, name)?;
    let value = value_at(env, &scope, INT, value)?;
    Ok(ConstDef {
        name,
        value,
        number: i64::from(number),
    })
}

/// The function that is implemented, where one is named.
#[tactic(auto, using(sk_types_names::proofs::Follows::get_signature))]
fn implements_of(env: &Env, heading: &Heading, name: &Option<Name>) -> Result<Option<FunId>, Typing>
    requires { IsEnv env.now }
    ensures { Gives result (implements_of (top_seen env.now.top.now) (signature heading.now) name.now) }
{
    let Some(name) = name else {
        return Ok(None);
    };
    let scope = Scope::new(env.alloc);
    let Meant::Function(f) = env.meaning(&scope, name) else {
        return Err(fault(Rule::UnknownName, NOWHERE));
    };
    let Some(other) = at(env.top.funs.as_slice(), f.index as usize) else {
        return Err(fault(Rule::UnknownName, NOWHERE));
    };
    if may_implement(heading, other) {
        Ok(Some(f))
    } else {
        Err(fault(Rule::BadSignature, NOWHERE))
    }
}

/// The parameters as the first variables of a function.
#[tactic(auto, using(sk_types_names::proofs::Places::split_at))]
fn parameters(env: &Env, params: &[ParamDef]) -> Result<Scope, Typing>
    ensures { Gives result (Some (parameters params.now)) }
{
    let mut scope = Scope::new(env.alloc);
    for param in params {
        enter(env.alloc, &mut scope, &param.name, param.ty)?;
    }
    Ok(scope)
}

/// A function with its body.
fn fun_of(env: &Env, item: &FunItem, heading: Heading) -> Result<Fun, Typing>
    requires { IsEnv env.now }
    ensures { Gives result (fun_of (context_of env.now) item.now (signature heading)) }
{
    let implements = implements_of(env, &heading, &item.implements)?;
    let mut scope = parameters(env, heading.params.as_slice())?;
    let body = make_all(env, heading.result, &mut scope, 0, item.body.as_slice())?;
    let slots = most(body.as_slice(), heading.params.len())?;
    let slots = numbered(slots)?;
    let Heading {
        name,
        kind,
        result,
        params,
    } = heading;
    Ok(Fun {
        name,
        kind,
        result,
        params,
        slots,
        implements,
        body,
    })
}

fn const_in(
    alloc: Global,
    bounds: &Bounds,
    top: &Names,
    earlier: &Listed<Constant>,
    name: &Name,
    value: &Expr,
    number: u32,
) -> Result<ConstDef, Typing>
    requires width { IsWidth bounds.now }
    requires numbered { IsNumbered top.now }
    ensures { Gives result (const_of (context_in bounds.now (top_seen top.now) (map known earlier.now)) name.now value.now number) }
{
    let env = Env {
        alloc,
        bounds: *bounds,
        top,
        known: earlier,
    };
    const_of(&env, name, value, number)
}

fn fun_in(
    alloc: Global,
    bounds: &Bounds,
    top: &Names,
    earlier: &Listed<Constant>,
    item: &FunItem,
    heading: Heading,
) -> Result<Fun, Typing>
    requires width { IsWidth bounds.now }
    requires numbered { IsNumbered top.now }
    ensures { Gives result (fun_of (context_in bounds.now (top_seen top.now) (map known earlier.now)) item.now (signature heading)) }
{
    let env = Env {
        alloc,
        bounds: *bounds,
        top,
        known: earlier,
    };
    fun_of(&env, item, heading)
}

/// One more constant, which is known from then on.
fn make_const(
    alloc: Global,
    bounds: &Bounds,
    top: &Names,
    whole: &mut Whole,
    name: &Name,
    value: &Expr,
) -> Result<(), Typing>
    requires width { IsWidth bounds.now }
    requires numbered { IsNumbered top.now }
    ensures { Steps result (bodies_after bounds.now (top_seen top.now) whole.old) (bodies_after bounds.now (top_seen top.now) whole.new) (item.Const name.now value.now) }
{
    let number = number_in(alloc, bounds, top, &whole.known, value)?;
    let def = const_in(alloc, bounds, top, &whole.known, name, value, number)?;
    know(alloc, &mut whole.known, name, number)?;
    whole.consts.push(def)?;
    Ok(())
}

/// One more function.
fn make_fun(
    alloc: Global,
    bounds: &Bounds,
    top: &Names,
    whole: &mut Whole,
    function: &FunItem,
) -> Result<(), Typing>
    requires width { IsWidth bounds.now }
    requires numbered { IsNumbered top.now }
    ensures { Steps result (bodies_after bounds.now (top_seen top.now) whole.old) (bodies_after bounds.now (top_seen top.now) whole.new) (item.Fun function.now) }
{
    let heading = heading_in(alloc, bounds, top, &whole.known, function)?;
    let fun = fun_in(alloc, bounds, top, &whole.known, function, heading)?;
    whole.funs.push(fun)?;
    Ok(())
}

/// One more item.
fn make_item(
    alloc: Global,
    bounds: &Bounds,
    top: &Names,
    whole: &mut Whole,
    item: &Item,
) -> Result<(), Typing>
    requires width { IsWidth bounds.now }
    requires numbered { IsNumbered top.now }
    ensures { Steps result (bodies_after bounds.now (top_seen top.now) whole.old) (bodies_after bounds.now (top_seen top.now) whole.new) item.now }
{
    match item {
        Item::Pragma { word: _, text: _ } => Err(fault(Rule::UnknownName, NOWHERE)),
        Item::Struct { name: _, fields: _ } => Ok(()),
        Item::Const { name, value } => make_const(alloc, bounds, top, whole, name, value),
        Item::Fun(item) => make_fun(alloc, bounds, top, whole, item),
    }
}

/// The constants and the functions of items.
#[tactic(auto, using(crate::proofs::ItemLaws::steps))]
pub fn bodies_of(
    alloc: Global,
    bounds: &Bounds,
    top: &Names,
    items: &[Item],
) -> Result<Whole, Typing>
    requires width { IsWidth bounds.now }
    requires numbered { IsNumbered top.now }
    ensures { GivesBodies result (bodies_of bounds.now (top_seen top.now) [] items.now) }
{
    let mut whole = Whole {
        consts: List::new(alloc),
        funs: List::new(alloc),
        known: Listed::new(alloc),
    };
    for item in items {
        make_item(alloc, bounds, top, &mut whole, item)?;
    }
    Ok(whole)
}
