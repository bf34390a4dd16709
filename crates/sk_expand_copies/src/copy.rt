//! Copies of what a program that is made of another one keeps as it is.
ghost use Rattle.std.specs.Prelude.{◌≡◌, IfOk};
ghost use Rattle.sk_prog.specs.declared.expr.PEForm.TheVariants as eform;

use sk_base::{Boxed, List, Name};
use sk_prog::{ConstDef, FieldDef, PEForm, PExpr, PField, ParamDef, StructDef};
use std::alloc::{AllocError, Global};

pub fn copy_name(alloc: Global, name: &Name) -> Result<Name, AllocError>
    ensures { IfOk result (λ copy. copy ≡ name.now) }
{
    let copy = Name::from_slice(alloc, name.as_bytes())?;
    Ok(copy)
}

fn copy_var(alloc: Global, slot: u32, name: &Name) -> Result<PEForm, AllocError>
    ensures { IfOk result (λ copy. copy ≡ eform.Var slot name.now) }
{
    let name = copy_name(alloc, name)?;
    Ok(PEForm::Var { slot, name })
}

#[cycle(copy)]
fn copy_boxed(alloc: Global, e: &PExpr) -> Result<Boxed<PExpr>, AllocError>
    ensures { IfOk result (λ copy. copy ≡ e.now) }
{
    let copy = copy_expr(alloc, e)?;
    let copy = Boxed::new(alloc, copy)?;
    Ok(copy)
}

#[cycle(copy)]
fn copy_exprs(alloc: Global, es: &[PExpr]) -> Result<List<PExpr>, AllocError>
    ensures { IfOk result (λ copy. copy ≡ es.now) }
{
    let mut copies = Vec::new(alloc);
    for e in es {
        let copy = copy_expr(alloc, e)?;
        copies.push(copy)?;
    }
    Ok(List::from_vec(copies))
}

#[cycle(copy)]
fn copy_fields(alloc: Global, given: &[PField]) -> Result<List<PField>, AllocError>
    ensures { IfOk result (λ copy. copy ≡ given.now) }
{
    let mut copies = Vec::new(alloc);
    for x in given {
        let value = copy_expr(alloc, &x.value)?;
        copies.push(PField {
            field: x.field,
            value,
        })?;
    }
    Ok(List::from_vec(copies))
}

#[cycle(copy)]
fn copy_form(alloc: Global, form: &PEForm) -> Result<PEForm, AllocError>
    ensures { IfOk result (λ copy. copy ≡ form.now) }
{
    match form {
        PEForm::Number(n) => Ok(PEForm::Number(*n)),
        PEForm::True => Ok(PEForm::True),
        PEForm::False => Ok(PEForm::False),
        PEForm::Null => Ok(PEForm::Null),
        PEForm::Var { slot, name } => {
            let copy = copy_var(alloc, *slot, name)?;
            Ok(copy)
        }
        PEForm::Const(c) => Ok(PEForm::Const(*c)),
        PEForm::Hole(width) => Ok(PEForm::Hole(*width)),
        PEForm::Pattern(strings) => Ok(PEForm::Pattern(copy_exprs(alloc, strings.as_slice())?)),
        PEForm::Paren(of) => Ok(PEForm::Paren(copy_boxed(alloc, of.get())?)),
        PEForm::Call { f, args } => {
            let args = copy_exprs(alloc, args.as_slice())?;
            Ok(PEForm::Call { f: *f, args })
        }
        PEForm::New { s, fields } => {
            let fields = copy_fields(alloc, fields.as_slice())?;
            Ok(PEForm::New { s: *s, fields })
        }
        PEForm::Braces(es) => Ok(PEForm::Braces(copy_exprs(alloc, es.as_slice())?)),
        PEForm::Member { base, s, field } => {
            let base = copy_boxed(alloc, base.get())?;
            let (s, field) = (*s, *field);
            Ok(PEForm::Member { base, s, field })
        }
        PEForm::Index { base, index } => {
            let base = copy_boxed(alloc, base.get())?;
            let index = copy_boxed(alloc, index.get())?;
            Ok(PEForm::Index { base, index })
        }
        PEForm::Slice { base, from, length } => {
            let base = copy_boxed(alloc, base.get())?;
            let from = copy_boxed(alloc, from.get())?;
            let length = *length;
            Ok(PEForm::Slice { base, from, length })
        }
        PEForm::Unary { op, of } => {
            let of = copy_boxed(alloc, of.get())?;
            Ok(PEForm::Unary { op: *op, of })
        }
        PEForm::Binary { op, left, right } => {
            let left = copy_boxed(alloc, left.get())?;
            let right = copy_boxed(alloc, right.get())?;
            let op = *op;
            Ok(PEForm::Binary { op, left, right })
        }
        PEForm::Cond { cond, then, other } => {
            let cond = copy_boxed(alloc, cond.get())?;
            let then = copy_boxed(alloc, then.get())?;
            let other = copy_boxed(alloc, other.get())?;
            Ok(PEForm::Cond { cond, then, other })
        }
        PEForm::ToInt(of) => Ok(PEForm::ToInt(copy_boxed(alloc, of.get())?)),
        PEForm::Pad(of) => Ok(PEForm::Pad(copy_boxed(alloc, of.get())?)),
    }
}

#[cycle(copy)]
pub fn copy_expr(alloc: Global, e: &PExpr) -> Result<PExpr, AllocError>
    ensures { IfOk result (λ copy. copy ≡ e.now) }
{
    let form = copy_form(alloc, &e.form)?;
    Ok(PExpr {
        span: e.span,
        ty: e.ty,
        form,
    })
}

pub fn copy_consts(alloc: Global, consts: &[ConstDef]) -> Result<List<ConstDef>, AllocError>
    ensures { IfOk result (λ copy. copy ≡ consts.now) }
{
    let mut copies = Vec::new(alloc);
    for c in consts {
        let name = copy_name(alloc, &c.name)?;
        let value = copy_expr(alloc, &c.value)?;
        let number = c.number;
        copies.push(ConstDef {
            name,
            value,
            number,
        })?;
    }
    Ok(List::from_vec(copies))
}

fn copy_field_defs(alloc: Global, fields: &[FieldDef]) -> Result<List<FieldDef>, AllocError>
    ensures { IfOk result (λ copy. copy ≡ fields.now) }
{
    let mut copies = Vec::new(alloc);
    for field in fields {
        let name = copy_name(alloc, &field.name)?;
        copies.push(FieldDef { name, ty: field.ty })?;
    }
    Ok(List::from_vec(copies))
}

pub fn copy_structs(alloc: Global, structs: &[StructDef]) -> Result<List<StructDef>, AllocError>
    ensures { IfOk result (λ copy. copy ≡ structs.now) }
{
    let mut copies = Vec::new(alloc);
    for s in structs {
        let name = copy_name(alloc, &s.name)?;
        let fields = copy_field_defs(alloc, s.fields.as_slice())?;
        copies.push(StructDef { name, fields })?;
    }
    Ok(List::from_vec(copies))
}

pub fn copy_params(alloc: Global, params: &[ParamDef]) -> Result<List<ParamDef>, AllocError>
    ensures { IfOk result (λ copy. copy ≡ params.now) }
{
    let mut copies = Vec::new(alloc);
    for param in params {
        let name = copy_name(alloc, &param.name)?;
        copies.push(ParamDef {
            name,
            ty: param.ty,
            by_ref: param.by_ref,
        })?;
    }
    Ok(List::from_vec(copies))
}
