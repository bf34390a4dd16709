//! The text of names that are numbers in the program, and of types.
ghost use Rattle.std.specs.Prelude.{◌≡◌, ◌++◌, OnOk};
ghost use Rattle.sk_print.specs.Layout.{struct_name, const_name, fun_name, field_among, field_name, elem_layout, length_layout, ty_layout};

use sk_base::push_number;
use sk_prog::{ConstId, Elem, FunId, Prog, StructDef, StructId, Ty};
use std::alloc::AllocError;

/// Appends the name of a struct.
pub fn push_struct_name(out: &mut Vec<u8>, prog: &Prog, s: StructId) -> Result<(), AllocError>
    ensures { OnOk result (out.new.items ≡ out.old.items ++ struct_name prog.now s) }
{
    match prog.structs.as_slice().get(s.index as usize) {
        None => Ok(()),
        Some(found) => {
            out.extend_from_slice(found.name.as_bytes())?;
            Ok(())
        }
    }
}

/// Appends the name of a constant.
pub fn push_const_name(out: &mut Vec<u8>, prog: &Prog, c: ConstId) -> Result<(), AllocError>
    ensures { OnOk result (out.new.items ≡ out.old.items ++ const_name prog.now c) }
{
    match prog.consts.as_slice().get(c.index as usize) {
        None => Ok(()),
        Some(found) => {
            out.extend_from_slice(found.name.as_bytes())?;
            Ok(())
        }
    }
}

/// Appends the name of a function.
pub fn push_fun_name(out: &mut Vec<u8>, prog: &Prog, f: FunId) -> Result<(), AllocError>
    ensures { OnOk result (out.new.items ≡ out.old.items ++ fun_name prog.now f) }
{
    match prog.funs.as_slice().get(f.index as usize) {
        None => Ok(()),
        Some(found) => {
            out.extend_from_slice(found.name.as_bytes())?;
            Ok(())
        }
    }
}

/// Appends the name of a field of this struct.
fn push_field_among(out: &mut Vec<u8>, field: u32, found: &StructDef) -> Result<(), AllocError>
    ensures { OnOk result (out.new.items ≡ out.old.items ++ field_among field found.now) }
{
    match found.fields.as_slice().get(field as usize) {
        None => Ok(()),
        Some(found) => {
            out.extend_from_slice(found.name.as_bytes())?;
            Ok(())
        }
    }
}

/// Appends the name of a field of a struct.
pub fn push_field_name(
    out: &mut Vec<u8>,
    prog: &Prog,
    s: StructId,
    field: u32,
) -> Result<(), AllocError>
    ensures { OnOk result (out.new.items ≡ out.old.items ++ field_name prog.now s field) }
{
    match prog.structs.as_slice().get(s.index as usize) {
        None => Ok(()),
        Some(found) => {
            push_field_among(out, field, found)?;
            Ok(())
        }
    }
}

/// Appends the text of an element type.
fn push_elem(out: &mut Vec<u8>, prog: &Prog, elem: Elem) -> Result<(), AllocError>
    ensures { OnOk result (out.new.items ≡ out.old.items ++ elem_layout prog.now elem) }
{
    match elem {
        Elem::Int => {
            out.extend_from_slice(b"int")?;
            Ok(())
        }
        Elem::Bit => {
            out.extend_from_slice(b"bit")?;
            Ok(())
        }
        Elem::Reference(s) => {
            push_struct_name(out, prog, s)?;
            Ok(())
        }
    }
}

/// Appends a length in its brackets.
fn push_length(out: &mut Vec<u8>, length: u32) -> Result<(), AllocError>
    ensures { OnOk result (out.new.items ≡ out.old.items ++ length_layout length) }
{
    out.extend_from_slice(b"[")?;
    push_number(out, length as u64)?;
    out.extend_from_slice(b"]")?;
    Ok(())
}

/// Appends the text of a type.
pub fn push_ty(out: &mut Vec<u8>, prog: &Prog, ty: Ty) -> Result<(), AllocError>
    ensures { OnOk result (out.new.items ≡ out.old.items ++ ty_layout prog.now ty) }
{
    match ty {
        Ty::One(elem) => {
            push_elem(out, prog, elem)?;
            Ok(())
        }
        Ty::Array(elem, n) => {
            push_elem(out, prog, elem)?;
            push_length(out, n)?;
            Ok(())
        }
        Ty::Grid(elem, n, m) => {
            push_elem(out, prog, elem)?;
            push_length(out, n)?;
            push_length(out, m)?;
            Ok(())
        }
    }
}
