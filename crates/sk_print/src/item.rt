//! The text of structs, constants, functions and whole programs.
ghost use Rattle.std.specs.Prelude.{◌≡◌, ◌++◌, OnOk, IfOk, codes};
ghost use Rattle.std.specs.List.{flat_map, join_by};
ghost use Rattle.sk_print.specs.Layout.{line, struct_field_layout, struct_layout, const_layout, ref_layout, param_layout, kind_layout, result_layout, implements_layout, head_layout, fun_layout, layout};

use crate::expr::{push_between, push_expr};
use crate::name::{push_fun_name, push_ty};
use crate::stmt::push_stmts;
use sk_prog::{ConstDef, FieldDef, Fun, FunId, FunKind, ParamDef, Prog, StructDef, Ty};
use std::alloc::{AllocError, Global};

/// Appends the line of a field of a struct.
fn push_struct_field(out: &mut Vec<u8>, prog: &Prog, field: &FieldDef) -> Result<(), AllocError>
    ensures { OnOk result (out.new.items ≡ out.old.items ++ struct_field_layout prog.now field.now) }
{
    out.extend_from_slice(b"    ")?;
    push_ty(out, prog, field.ty)?;
    out.extend_from_slice(b" ")?;
    out.extend_from_slice(field.name.as_bytes())?;
    out.extend_from_slice(b";\n")?;
    Ok(())
}

/// Appends the lines of fields.
fn push_struct_fields(out: &mut Vec<u8>, prog: &Prog, fields: &[FieldDef]) -> Result<(), AllocError>
    ensures { OnOk result (out.new.items ≡ out.old.items ++ flat_map (struct_field_layout prog.now) fields.now) }
{
    for field in fields {
        push_struct_field(out, prog, field)?;
    }
    Ok(())
}

/// Appends the text of a struct.
fn push_struct(out: &mut Vec<u8>, prog: &Prog, def: &StructDef) -> Result<(), AllocError>
    ensures { OnOk result (out.new.items ≡ out.old.items ++ struct_layout prog.now def.now) }
{
    out.extend_from_slice(b"struct ")?;
    out.extend_from_slice(def.name.as_bytes())?;
    out.extend_from_slice(b" {\n")?;
    push_struct_fields(out, prog, def.fields.as_slice())?;
    out.extend_from_slice(b"}\n")?;
    Ok(())
}

/// Appends the text of structs.
fn push_structs(out: &mut Vec<u8>, prog: &Prog, defs: &[StructDef]) -> Result<(), AllocError>
    ensures { OnOk result (out.new.items ≡ out.old.items ++ flat_map (struct_layout prog.now) defs.now) }
{
    for def in defs {
        push_struct(out, prog, def)?;
    }
    Ok(())
}

/// Appends the text of a constant.
fn push_const(
    alloc: Global,
    out: &mut Vec<u8>,
    prog: &Prog,
    def: &ConstDef,
) -> Result<(), AllocError>
    ensures { OnOk result (out.new.items ≡ out.old.items ++ const_layout prog.now def.now) }
{
    out.extend_from_slice(b"int ")?;
    out.extend_from_slice(def.name.as_bytes())?;
    out.extend_from_slice(b" = ")?;
    push_expr(alloc, out, prog, &def.value)?;
    out.extend_from_slice(b";\n")?;
    Ok(())
}

/// Appends the text of constants.
fn push_consts(
    alloc: Global,
    out: &mut Vec<u8>,
    prog: &Prog,
    defs: &[ConstDef],
) -> Result<(), AllocError>
    ensures { OnOk result (out.new.items ≡ out.old.items ++ flat_map (const_layout prog.now) defs.now) }
{
    for def in defs {
        push_const(alloc, out, prog, def)?;
    }
    Ok(())
}

/// Appends the mark of a parameter that is handed over by reference.
fn push_ref(out: &mut Vec<u8>, by_ref: bool) -> Result<(), AllocError>
    ensures { OnOk result (out.new.items ≡ out.old.items ++ ref_layout by_ref) }
{
    if by_ref {
        out.extend_from_slice(b"ref ")?;
        Ok(())
    } else {
        Ok(())
    }
}

/// Appends a parameter.
fn push_param(out: &mut Vec<u8>, prog: &Prog, p: &ParamDef) -> Result<(), AllocError>
    ensures { OnOk result (out.new.items ≡ out.old.items ++ param_layout prog.now p.now) }
{
    push_ref(out, p.by_ref)?;
    push_ty(out, prog, p.ty)?;
    out.extend_from_slice(b" ")?;
    out.extend_from_slice(p.name.as_bytes())?;
    Ok(())
}

/// Appends parameters, with a comma between two.
fn push_params(out: &mut Vec<u8>, prog: &Prog, params: &[ParamDef]) -> Result<(), AllocError>
    ensures { OnOk result (out.new.items ≡ out.old.items ++ join_by (param_layout prog.now) (codes ", ") params.now) }
{
    let mut is_first = true;
    for p in params {
        push_between(out, is_first, b", ")?;
        push_param(out, prog, p)?;
        is_first = false;
    }
    Ok(())
}

/// Appends the mark of a harness or a generator.
fn push_kind(out: &mut Vec<u8>, kind: FunKind) -> Result<(), AllocError>
    ensures { OnOk result (out.new.items ≡ out.old.items ++ kind_layout kind) }
{
    match kind {
        FunKind::Plain => Ok(()),
        FunKind::Harness => {
            out.extend_from_slice(b"harness ")?;
            Ok(())
        }
        FunKind::Generator => {
            out.extend_from_slice(b"generator ")?;
            Ok(())
        }
    }
}

/// Appends the type of a result.
fn push_result(out: &mut Vec<u8>, prog: &Prog, of: Option<Ty>) -> Result<(), AllocError>
    ensures { OnOk result (out.new.items ≡ out.old.items ++ result_layout prog.now of) }
{
    match of {
        None => {
            out.extend_from_slice(b"void")?;
            Ok(())
        }
        Some(ty) => {
            push_ty(out, prog, ty)?;
            Ok(())
        }
    }
}

/// Appends the reference that a function implements, where there is one.
fn push_implements(out: &mut Vec<u8>, prog: &Prog, of: Option<FunId>) -> Result<(), AllocError>
    ensures { OnOk result (out.new.items ≡ out.old.items ++ implements_layout prog.now of) }
{
    match of {
        None => Ok(()),
        Some(g) => {
            out.extend_from_slice(b" implements ")?;
            push_fun_name(out, prog, g)?;
            Ok(())
        }
    }
}

/// Appends what a function begins with, up to the parenthesis before its parameters.
fn push_front(out: &mut Vec<u8>, prog: &Prog, f: &Fun) -> Result<(), AllocError>
    ensures { OnOk result (out.new.items ≡ out.old.items ++ kind_layout f.now.kind ++ result_layout prog.now f.now.result ++ codes " " ++ f.now.name ++ codes "(") }
{
    push_kind(out, f.kind)?;
    push_result(out, prog, f.result)?;
    out.extend_from_slice(b" ")?;
    out.extend_from_slice(f.name.as_bytes())?;
    out.extend_from_slice(b"(")?;
    Ok(())
}

/// Appends the line that a function begins with.
fn push_head(out: &mut Vec<u8>, prog: &Prog, f: &Fun) -> Result<(), AllocError>
    ensures { OnOk result (out.new.items ≡ out.old.items ++ line 0 (head_layout prog.now f.now)) }
{
    push_front(out, prog, f)?;
    push_params(out, prog, f.params.as_slice())?;
    out.extend_from_slice(b")")?;
    push_implements(out, prog, f.implements)?;
    out.extend_from_slice(b" {\n")?;
    Ok(())
}

/// Appends the text of a function.
#[tactic(auto, using(crate::proofs::Mapped::each_line_of))]
fn push_fun(alloc: Global, out: &mut Vec<u8>, prog: &Prog, f: &Fun) -> Result<(), AllocError>
    ensures { OnOk result (out.new.items ≡ out.old.items ++ fun_layout prog.now f.now) }
{
    push_head(out, prog, f)?;
    push_stmts(alloc, out, prog, false, 1, f.body.as_slice())?;
    out.extend_from_slice(b"}\n")?;
    Ok(())
}

/// Appends the text of functions.
fn push_funs(alloc: Global, out: &mut Vec<u8>, prog: &Prog, funs: &[Fun]) -> Result<(), AllocError>
    ensures { OnOk result (out.new.items ≡ out.old.items ++ flat_map (fun_layout prog.now) funs.now) }
{
    for f in funs {
        push_fun(alloc, out, prog, f)?;
    }
    Ok(())
}

/// The text of a program, as `layout` says. Want of memory is the only error.
pub fn print(alloc: Global, prog: &Prog) -> Result<Vec<u8>, AllocError>
    ensures { IfOk result (λ text. text.items ≡ layout prog.now) }
{
    let mut out = Vec::new(alloc);
    push_structs(&mut out, prog, prog.structs.as_slice())?;
    push_consts(alloc, &mut out, prog, prog.consts.as_slice())?;
    push_funs(alloc, &mut out, prog, prog.funs.as_slice())?;
    Ok(out)
}
