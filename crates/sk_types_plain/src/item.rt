//! The plain form of a tree, on which typing works.
ghost use Rattle.std.specs.Prelude.{◌≡◌, [], ◌∷◌, IfOk};
ghost use Rattle.sk_types_rules.specs.Plain.{plain_fun, plain_items, plain};
ghost use Rattle.sk_types_plain.specs.Plainer.{with_item};

use crate::copy::{copy_any_name, copy_any_ty, copy_fields, copy_params};
use crate::expr::{copy_expr, copy_name};
use crate::single::beside;
use crate::stmt::plain_stmts;
use sk_base::List;
use sk_tree::{FunItem, Item, Tree};
use std::alloc::{AllocError, Global};

fn plain_fun(alloc: Global, item: &FunItem) -> Result<FunItem, AllocError>
    ensures { IfOk result (λ made. made ≡ plain_fun item.now) }
{
    let result = copy_any_ty(alloc, &item.result)?;
    let head = beside(result, copy_name(alloc, &item.name))?;
    let head = beside(head, copy_params(alloc, item.params.as_slice()))?;
    let head = beside(head, copy_any_name(alloc, &item.implements))?;
    let (((result, name), params), implements) = head;
    plain_stmts(alloc, item.body.as_slice()).map(|body| FunItem {
        kind: item.kind,
        result,
        name,
        params,
        implements,
        body,
    })
}

/// The plain form of an item, which a pragma has not.
fn plain_item(alloc: Global, item: &Item) -> Result<Option<Item>, AllocError>
    ensures { IfOk result (λ made. plain_items (item.now ∷ []) ≡ with_item made []) }
{
    match item {
        Item::Pragma { word: _, text: _ } => Ok(None),
        Item::Struct { name, fields } => {
            let name = copy_name(alloc, name)?;
            let fields = copy_fields(alloc, fields.as_slice())?;
            Ok(Some(Item::Struct { name, fields }))
        }
        Item::Const { name, value } => {
            let name = copy_name(alloc, name)?;
            let value = copy_expr(alloc, value)?;
            Ok(Some(Item::Const { name, value }))
        }
        Item::Fun(item) => {
            let item = plain_fun(alloc, item)?;
            Ok(Some(Item::Fun(item)))
        }
    }
}

#[tactic(auto, using(crate::proofs::PlainLaws::next_item))]
fn plain_items(alloc: Global, items: &[Item]) -> Result<List<Item>, AllocError>
    ensures { IfOk result (λ made. made ≡ plain_items items.now) }
{
    let mut made = List::new(alloc);
    for item in items {
        if let Some(item) = plain_item(alloc, item)? {
            made.push(item)?;
        }
    }
    Ok(made)
}

/// The plain form of a tree, on which typing works. Want of memory is the only error.
pub fn plain(alloc: Global, tree: &Tree) -> Result<Tree, AllocError>
    ensures { IfOk result (λ made. made ≡ plain tree.now) }
{
    let items = plain_items(alloc, tree.items.as_slice())?;
    Ok(Tree { items })
}
