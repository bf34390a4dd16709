//! Items, with a line feed behind each.
use crate::shown_expr::push_expr;
use crate::shown_stmt::{push_block, push_ty};
use sk_base::Name;
use sk_tree::{Field, FunItem, FunKind, Item, Param, Tree, TyTree};
use std::alloc::AllocError;

fn push_word(shown: &mut Vec<u8>, before: &[u8], name: &Name) -> Result<(), AllocError> {
    shown.extend_from_slice(before)?;
    shown.extend_from_slice(name.as_bytes())
}

fn push_pragma(shown: &mut Vec<u8>, word: &Name, text: &Name) -> Result<(), AllocError> {
    push_word(shown, b"pragma ", word)?;
    push_word(shown, b" ", text)
}

fn push_struct(shown: &mut Vec<u8>, name: &Name, fields: &[Field]) -> Result<(), AllocError> {
    push_word(shown, b"struct ", name)?;
    shown.extend_from_slice(b"{")?;
    for field in fields {
        push_ty(shown, &field.ty)?;
        push_word(shown, b"", &field.name)?;
        shown.extend_from_slice(b",")?;
    }
    shown.extend_from_slice(b"}")
}

fn push_kind(shown: &mut Vec<u8>, kind: FunKind) -> Result<(), AllocError> {
    match kind {
        FunKind::Plain => Ok(()),
        FunKind::Harness => shown.extend_from_slice(b"harness "),
        FunKind::Generator => shown.extend_from_slice(b"generator "),
    }
}

fn push_result(shown: &mut Vec<u8>, ty: &Option<TyTree>) -> Result<(), AllocError> {
    match ty {
        None => shown.extend_from_slice(b"void "),
        Some(ty) => push_ty(shown, ty),
    }
}

fn push_param(shown: &mut Vec<u8>, param: &Param) -> Result<(), AllocError> {
    if param.by_ref {
        shown.extend_from_slice(b"ref ")?;
    }
    push_ty(shown, &param.ty)?;
    push_word(shown, b"", &param.name)
}

fn push_params(shown: &mut Vec<u8>, params: &[Param]) -> Result<(), AllocError> {
    shown.extend_from_slice(b"(")?;
    for param in params {
        push_param(shown, param)?;
        shown.extend_from_slice(b",")?;
    }
    shown.extend_from_slice(b")")
}

fn push_fun(shown: &mut Vec<u8>, fun: &FunItem) -> Result<(), AllocError> {
    push_kind(shown, fun.kind)?;
    push_result(shown, &fun.result)?;
    push_word(shown, b"", &fun.name)?;
    push_params(shown, fun.params.as_slice())?;
    if let Some(name) = &fun.implements {
        push_word(shown, b" implements ", name)?;
    }
    push_block(shown, b"", fun.body.as_slice())
}

fn push_item(shown: &mut Vec<u8>, item: &Item) -> Result<(), AllocError> {
    match item {
        Item::Pragma { word, text } => push_pragma(shown, word, text),
        Item::Struct { name, fields } => push_struct(shown, name, fields.as_slice()),
        Item::Const { name, value } => {
            push_word(shown, b"", name)?;
            shown.extend_from_slice(b"=")?;
            push_expr(shown, value)
        }
        Item::Fun(fun) => push_fun(shown, fun),
    }
}

/// The items of a tree.
pub fn push_tree(shown: &mut Vec<u8>, tree: &Tree) -> Result<(), AllocError> {
    for item in tree.items.as_slice() {
        push_item(shown, item)?;
        shown.extend_from_slice(b"\n")?;
    }
    Ok(())
}
