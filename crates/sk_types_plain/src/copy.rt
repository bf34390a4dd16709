//! Copies of types and of what is declared. Want of memory is the only error.
ghost use Rattle.std.specs.Prelude.{◌≡◌, IfOk};

use crate::expr::{copy_expr, copy_exprs, copy_name};
use sk_base::{List, Name};
use sk_tree::{Base, Declared, Expr, Field, Param, TyTree};
use std::alloc::{AllocError, Global};

pub fn copy_any(alloc: Global, e: &Option<Expr>) -> Result<Option<Expr>, AllocError>
    ensures { IfOk result (λ copy. copy ≡ e.now) }
{
    match e {
        None => Ok(None),
        Some(e) => {
            let e = copy_expr(alloc, e)?;
            Ok(Some(e))
        }
    }
}

fn copy_base(alloc: Global, base: &Base) -> Result<Base, AllocError>
    ensures { IfOk result (λ copy. copy ≡ base.now) }
{
    match base {
        Base::Int => Ok(Base::Int),
        Base::Bit => Ok(Base::Bit),
        Base::Named(name) => {
            let name = copy_name(alloc, name)?;
            Ok(Base::Named(name))
        }
    }
}

/// A copy of a type as it is written.
pub fn copy_ty(alloc: Global, ty: &TyTree) -> Result<TyTree, AllocError>
    ensures { IfOk result (λ copy. copy ≡ ty.now) }
{
    let base = copy_base(alloc, &ty.base)?;
    let lengths = copy_exprs(alloc, ty.lengths.as_slice())?;
    Ok(TyTree { base, lengths })
}

pub fn copy_any_ty(alloc: Global, ty: &Option<TyTree>) -> Result<Option<TyTree>, AllocError>
    ensures { IfOk result (λ copy. copy ≡ ty.now) }
{
    match ty {
        None => Ok(None),
        Some(ty) => {
            let ty = copy_ty(alloc, ty)?;
            Ok(Some(ty))
        }
    }
}

pub fn copy_any_name(alloc: Global, name: &Option<Name>) -> Result<Option<Name>, AllocError>
    ensures { IfOk result (λ copy. copy ≡ name.now) }
{
    match name {
        None => Ok(None),
        Some(name) => {
            let name = copy_name(alloc, name)?;
            Ok(Some(name))
        }
    }
}

/// A copy of one name of a declaration.
pub fn copy_declared(alloc: Global, declared: &Declared) -> Result<Declared, AllocError>
    ensures { IfOk result (λ copy. copy ≡ declared.now) }
{
    let name = copy_name(alloc, &declared.name)?;
    let value = copy_any(alloc, &declared.value)?;
    Ok(Declared { name, value })
}

pub fn copy_fields(alloc: Global, fields: &[Field]) -> Result<List<Field>, AllocError>
    ensures { IfOk result (λ copy. copy ≡ fields.now) }
{
    let mut copies = List::new(alloc);
    for field in fields {
        let ty = copy_ty(alloc, &field.ty)?;
        let name = copy_name(alloc, &field.name)?;
        copies.push(Field { ty, name })?;
    }
    Ok(copies)
}

pub fn copy_params(alloc: Global, params: &[Param]) -> Result<List<Param>, AllocError>
    ensures { IfOk result (λ copy. copy ≡ params.now) }
{
    let mut copies = List::new(alloc);
    for param in params {
        let ty = copy_ty(alloc, &param.ty)?;
        let name = copy_name(alloc, &param.name)?;
        copies.push(Param {
            by_ref: param.by_ref,
            ty,
            name,
        })?;
    }
    Ok(copies)
}
