//! The lines of a statement.
ghost use Rattle.std.specs.Prelude.{◌≡◌, ◌++◌, suc, OnOk, IfOk, codes, map, option_map};
ghost use Rattle.std.specs.List.{repeat};
ghost use Rattle.sk_print.specs.Layout.{ty_layout, expr_layout, initial_layout, returned_layout, line, each_line, else_layout, stmt_lines};

use crate::expr::push_expr;
use crate::name::push_ty;
use sk_base::Boxed;
use sk_limits::too_many;
use sk_prog::{PExpr, PForm, PStmt, Prog, Ty};
use std::alloc::{AllocError, Global};

/// Appends the indentation of a line that stands so many blocks deep.
fn push_indentation(out: &mut Vec<u8>, depth: u64) -> Result<(), AllocError>
    ensures { OnOk result (out.new.items ≡ out.old.items ++ repeat depth (codes "    ")) }
{
    for _ in 0..depth {
        out.extend_from_slice(b"    ")?;
    }
    Ok(())
}

/// Appends a line that stands so many blocks deep.
pub fn push_line(out: &mut Vec<u8>, depth: u64, text: &[u8]) -> Result<(), AllocError>
    ensures { OnOk result (out.new.items ≡ out.old.items ++ line depth text.now) }
{
    push_indentation(out, depth)?;
    out.extend_from_slice(text)?;
    out.extend_from_slice(b"\n")?;
    Ok(())
}

/// One block deeper. No memory holds the text of so many blocks that they cannot be counted.
fn deeper(depth: u64) -> Result<u64, AllocError>
    ensures { IfOk result (λ more. more ≡ suc depth) }
{
    match depth.checked_add(1) {
        Some(more) => Ok(more),
        None => Err(too_many()),
    }
}

/// Appends the first line of a form with an expression in parentheses and a body in braces.
fn push_head(
    alloc: Global,
    out: &mut Vec<u8>,
    prog: &Prog,
    depth: u64,
    word: &[u8],
    e: &PExpr,
) -> Result<(), AllocError>
    ensures { OnOk result (out.new.items ≡ out.old.items ++ line depth (word.now ++ expr_layout prog.now e.now ++ codes ") {")) }
{
    push_indentation(out, depth)?;
    out.extend_from_slice(word)?;
    push_expr(alloc, out, prog, e)?;
    out.extend_from_slice(b") {\n")?;
    Ok(())
}

/// Appends the value that a declaration gives, where it gives one.
fn push_initial(
    alloc: Global,
    out: &mut Vec<u8>,
    prog: &Prog,
    value: &Option<PExpr>,
) -> Result<(), AllocError>
    ensures { OnOk result (out.new.items ≡ out.old.items ++ initial_layout prog.now value.now) }
{
    match value {
        None => Ok(()),
        Some(e) => {
            out.extend_from_slice(b" = ")?;
            push_expr(alloc, out, prog, e)?;
            Ok(())
        }
    }
}

/// Appends the value that is returned, where there is one.
fn push_returned(
    alloc: Global,
    out: &mut Vec<u8>,
    prog: &Prog,
    value: &Option<PExpr>,
) -> Result<(), AllocError>
    ensures { OnOk result (out.new.items ≡ out.old.items ++ returned_layout prog.now value.now) }
{
    match value {
        None => Ok(()),
        Some(e) => {
            out.extend_from_slice(b" ")?;
            push_expr(alloc, out, prog, e)?;
            Ok(())
        }
    }
}

/// Appends what is declared, without a semicolon.
fn push_declared(
    alloc: Global,
    out: &mut Vec<u8>,
    prog: &Prog,
    name: &[u8],
    ty: Ty,
    value: &Option<PExpr>,
) -> Result<(), AllocError>
    ensures { OnOk result (out.new.items ≡ out.old.items ++ ty_layout prog.now ty ++ codes " " ++ name.now ++ initial_layout prog.now value.now) }
{
    push_ty(out, prog, ty)?;
    out.extend_from_slice(b" ")?;
    out.extend_from_slice(name)?;
    push_initial(alloc, out, prog, value)?;
    Ok(())
}

/// Appends the line of a declaration.
fn push_declaration(
    alloc: Global,
    out: &mut Vec<u8>,
    prog: &Prog,
    depth: u64,
    name: &[u8],
    ty: Ty,
    value: &Option<PExpr>,
) -> Result<(), AllocError>
    ensures { OnOk result (out.new.items ≡ out.old.items ++ line depth (ty_layout prog.now ty ++ codes " " ++ name.now ++ initial_layout prog.now value.now ++ codes ";")) }
{
    push_indentation(out, depth)?;
    push_declared(alloc, out, prog, name, ty, value)?;
    out.extend_from_slice(b";\n")?;
    Ok(())
}

/// Appends the line of an assignment.
fn push_assignment(
    alloc: Global,
    out: &mut Vec<u8>,
    prog: &Prog,
    depth: u64,
    target: &PExpr,
    value: &PExpr,
) -> Result<(), AllocError>
    ensures { OnOk result (out.new.items ≡ out.old.items ++ line depth (expr_layout prog.now target.now ++ codes " = " ++ expr_layout prog.now value.now ++ codes ";")) }
{
    push_indentation(out, depth)?;
    push_expr(alloc, out, prog, target)?;
    out.extend_from_slice(b" = ")?;
    push_expr(alloc, out, prog, value)?;
    out.extend_from_slice(b";\n")?;
    Ok(())
}

/// Appends the line of a form that is a word, an expression and an end.
fn push_worded(
    alloc: Global,
    out: &mut Vec<u8>,
    prog: &Prog,
    depth: u64,
    word: &[u8],
    e: &PExpr,
    end: &[u8],
) -> Result<(), AllocError>
    ensures { OnOk result (out.new.items ≡ out.old.items ++ line depth (word.now ++ expr_layout prog.now e.now ++ end.now)) }
{
    push_indentation(out, depth)?;
    out.extend_from_slice(word)?;
    push_expr(alloc, out, prog, e)?;
    out.extend_from_slice(end)?;
    out.extend_from_slice(b"\n")?;
    Ok(())
}

/// Appends the line of a `return`.
fn push_return(
    alloc: Global,
    out: &mut Vec<u8>,
    prog: &Prog,
    depth: u64,
    value: &Option<PExpr>,
) -> Result<(), AllocError>
    ensures { OnOk result (out.new.items ≡ out.old.items ++ line depth (codes "return" ++ returned_layout prog.now value.now ++ codes ";")) }
{
    push_indentation(out, depth)?;
    out.extend_from_slice(b"return")?;
    push_returned(alloc, out, prog, value)?;
    out.extend_from_slice(b";\n")?;
    Ok(())
}

/// Appends the lines of a statement that stands so many blocks deep, by itself or as the body of
/// another form.
#[cycle(stmt_text)]
fn push_stmt(
    alloc: Global,
    out: &mut Vec<u8>,
    prog: &Prog,
    is_body: bool,
    depth: u64,
    s: &PStmt,
) -> Result<(), AllocError>
    ensures { OnOk result (out.new.items ≡ out.old.items ++ stmt_lines prog.now s.now is_body depth) }
{
    match &s.form {
        PForm::Block(stmts) => {
            if is_body {
                push_stmts(alloc, out, prog, false, depth, stmts.as_slice())?;
                Ok(())
            } else {
                push_line(out, depth, b"{")?;
                push_stmts(alloc, out, prog, false, deeper(depth)?, stmts.as_slice())?;
                push_line(out, depth, b"}")?;
                Ok(())
            }
        }
        PForm::Declare {
            name,
            ty,
            value,
            ..
        } => {
            push_declaration(alloc, out, prog, depth, name.as_bytes(), *ty, value)?;
            Ok(())
        }
        PForm::Assign { target, value } => {
            push_assignment(alloc, out, prog, depth, target, value)?;
            Ok(())
        }
        PForm::Call(e) => {
            push_worded(alloc, out, prog, depth, b"", e, b";")?;
            Ok(())
        }
        PForm::If { cond, then, other } => {
            push_head(alloc, out, prog, depth, b"if (", cond)?;
            push_stmt(alloc, out, prog, true, deeper(depth)?, then.get())?;
            push_else(alloc, out, prog, depth, other)?;
            push_line(out, depth, b"}")?;
            Ok(())
        }
        PForm::While { cond, body } => {
            push_head(alloc, out, prog, depth, b"while (", cond)?;
            push_stmt(alloc, out, prog, true, deeper(depth)?, body.get())?;
            push_line(out, depth, b"}")?;
            Ok(())
        }
        PForm::Return(value) => {
            push_return(alloc, out, prog, depth, value)?;
            Ok(())
        }
        PForm::Assert(e) => {
            push_worded(alloc, out, prog, depth, b"assert ", e, b";")?;
            Ok(())
        }
        PForm::Assume(e) => {
            push_worded(alloc, out, prog, depth, b"assume ", e, b";")?;
            Ok(())
        }
        PForm::Minimize(e) => {
            push_worded(alloc, out, prog, depth, b"minimize(", e, b");")?;
            Ok(())
        }
        PForm::Repeat { count, copies } => {
            push_head(alloc, out, prog, depth, b"repeat (", count)?;
            push_stmts(alloc, out, prog, true, deeper(depth)?, copies.as_slice())?;
            push_line(out, depth, b"}")?;
            Ok(())
        }
        PForm::MinRepeat(copies) => {
            push_line(out, depth, b"minrepeat {")?;
            push_stmts(alloc, out, prog, true, deeper(depth)?, copies.as_slice())?;
            push_line(out, depth, b"}")?;
            Ok(())
        }
        PForm::Reorder(stmts) => {
            push_line(out, depth, b"reorder {")?;
            push_stmts(alloc, out, prog, false, deeper(depth)?, stmts.as_slice())?;
            push_line(out, depth, b"}")?;
            Ok(())
        }
    }
}

/// Appends what stands behind the body of an `if`.
#[cycle(stmt_text)]
fn push_else(
    alloc: Global,
    out: &mut Vec<u8>,
    prog: &Prog,
    depth: u64,
    other: &Option<Boxed<PStmt>>,
) -> Result<(), AllocError>
    ensures { OnOk result (out.new.items ≡ out.old.items ++ else_layout depth (option_map (stmt_lines prog.now) other.now)) }
{
    match other {
        None => Ok(()),
        Some(s) => {
            push_line(out, depth, b"} else {")?;
            push_stmt(alloc, out, prog, true, deeper(depth)?, s.get())?;
            Ok(())
        }
    }
}

/// Appends the lines of statements.
#[cycle(stmt_text)]
pub fn push_stmts(
    alloc: Global,
    out: &mut Vec<u8>,
    prog: &Prog,
    is_body: bool,
    depth: u64,
    stmts: &[PStmt],
) -> Result<(), AllocError>
    ensures { OnOk result (out.new.items ≡ out.old.items ++ each_line is_body depth (map (stmt_lines prog.now) stmts.now)) }
{
    for s in stmts {
        push_stmt(alloc, out, prog, is_body, depth, s)?;
    }
    Ok(())
}
