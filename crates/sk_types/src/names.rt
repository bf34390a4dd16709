//! What stands at the top, from the names alone.
ghost use Rattle.std.specs.Prelude.{◌≡◌, [], ◌∷◌, ◌++◌, map, IsTrue, ◌↔◌, OnOk, IfOk};
ghost use Rattle.sk_types_rules.specs.Scope.{all_distinct, top_names};
ghost use Rattle.sk_types_laws.specs.Whole.{named_top};
ghost use Rattle.sk_types_names.specs.Envs.{top_seen, IsNumbered};
ghost use Rattle.sk_types.specs.Tops.{joined};

use crate::signature::kind_of;
use sk_base::{List, Name};
use sk_tree::Item;
use sk_types_laws::Heading;
use sk_types_names::{Listed, Named, Names, StructTable, are_distinct as all_distinct};
use std::alloc::{AllocError, Global};

fn copy_name(alloc: Global, name: &Name) -> Result<Name, AllocError>
    ensures { IfOk result (λ copy. copy ≡ name.now) }
{
    let copy = Name::from_slice(alloc, name.as_bytes())?;
    Ok(copy)
}

/// One more item, by its name. Want of memory is the only error.
#[tactic(auto, using(crate::proofs::TopLaws::adding))]
fn name_item(alloc: Global, names: &mut Names, item: &Item) -> Result<(), AllocError>
    ensures { OnOk result (top_seen names.new ≡ joined (top_seen names.old) (named_top (item.now ∷ []))) }
{
    match item {
        Item::Pragma { word: _, text: _ } => Ok(()),
        Item::Struct { name, fields: _ } => {
            let name = copy_name(alloc, name)?;
            let table = StructTable::new(name, Listed::new(alloc));
            names.structs.push(table)?;
            Ok(())
        }
        Item::Const { name, value: _ } => {
            let name = copy_name(alloc, name)?;
            names.consts.push(name)?;
            Ok(())
        }
        Item::Fun(item) => {
            let name = copy_name(alloc, &item.name)?;
            names.funs.push(Heading {
                name,
                kind: kind_of(item.kind),
                result: None,
                params: List::new(alloc),
            })?;
            Ok(())
        }
    }
}

/// What is at the top, with no fields and no parameters yet. Want of memory is the only error.
#[tactic(auto, using(crate::proofs::TopLaws::naming))]
pub fn named_top(alloc: Global, items: &[Item]) -> Result<Names, AllocError>
    ensures { IfOk result (λ names. top_seen names ≡ named_top items.now) }
{
    let mut names = Names::new(alloc);
    for item in items {
        name_item(alloc, &mut names, item)?;
    }
    Ok(names)
}

/// The names of things, behind others.
#[tactic(auto, using(crate::proofs::TopLaws::rows))]
fn add_names<T: Named>(alloc: Global, made: &mut List<Name>, items: &[T]) -> Result<(), AllocError>
    ensures { OnOk result (made.new ≡ made.old ++ map T.name_of items.now) }
{
    for item in items {
        let name = copy_name(alloc, item.name())?;
        made.push(name)?;
    }
    Ok(())
}

/// All names at the top. Want of memory is the only error.
fn top_names(alloc: Global, names: &Names) -> Result<List<Name>, AllocError>
    ensures { IfOk result (λ all. all ≡ top_names (top_seen names.now)) }
{
    let mut all = List::new(alloc);
    add_names(alloc, &mut all, names.structs.as_slice())?;
    add_names(alloc, &mut all, names.consts.as_slice())?;
    add_names(alloc, &mut all, names.funs.as_slice())?;
    Ok(all)
}

/// Whether no name stands at the top twice. Want of memory is the only error.
#[tactic(auto, using(crate::proofs::TopLaws::map_same))]
pub fn are_distinct(alloc: Global, names: &Names) -> Result<bool, AllocError>
    ensures { IfOk result (λ b. b ≡ all_distinct (top_names (top_seen names.now))) }
{
    let all = top_names(alloc, names)?;
    let distinct = all_distinct(alloc, all.as_slice())?;
    Ok(distinct)
}

/// Whether the numbers of structs, constants and functions fit into a program. More than that is want of memory.
pub fn is_numbered(names: &Names) -> bool
    ensures { IsTrue result ↔ IsNumbered names.now }
{
    let most = u32::MAX as usize;
    names.structs.len() <= most && (names.consts.len() <= most && names.funs.len() <= most)
}
