//! The text of an expression.
ghost use Rattle.std.specs.Prelude.{◌≡◌, ◌++◌, OnOk, IfOk, codes, decimal, map};
ghost use Rattle.std.specs.List.{join_by};
ghost use Rattle.sk_print.specs.Joined.{gap_between};
ghost use Rattle.sk_print.specs.Layout.{op_layout, minus_gap, unary_layout, expr_layout, set_layout};

use crate::name::{push_const_name, push_field_name, push_fun_name, push_struct_name};
use sk_base::push_number;
use sk_prog::{BinOp, PEForm, PExpr, PField, Prog, StructId, UnOp};
use std::alloc::{AllocError, Global};

/// The bytes of an operator.
#[tactic(auto, unfolding(crate::specs::Layout::op_layout))]
fn op_bytes(op: BinOp) -> &'static [u8]
    ensures { result.now ≡ op_layout op }
{
    match op {
        BinOp::Mul => b"*",
        BinOp::Div => b"/",
        BinOp::Rem => b"%",
        BinOp::Add => b"+",
        BinOp::Sub => b"-",
        BinOp::Shl => b"<<",
        BinOp::Shr => b">>",
        BinOp::Lt => b"<",
        BinOp::Le => b"<=",
        BinOp::Gt => b">",
        BinOp::Ge => b">=",
        BinOp::Eq => b"==",
        BinOp::Ne => b"!=",
        BinOp::And => b"&",
        BinOp::Xor => b"^",
        BinOp::Or => b"|",
        BinOp::AndThen => b"&&",
        BinOp::OrElse => b"||",
    }
}

/// Appends an operator with a space on each side.
fn push_op(out: &mut Vec<u8>, op: BinOp) -> Result<(), AllocError>
    ensures { OnOk result (out.new.items ≡ out.old.items ++ codes " " ++ op_layout op ++ codes " ") }
{
    out.extend_from_slice(b" ")?;
    out.extend_from_slice(op_bytes(op))?;
    out.extend_from_slice(b" ")?;
    Ok(())
}

/// Appends the text of a hole.
fn push_hole(out: &mut Vec<u8>, bits: u32) -> Result<(), AllocError>
    ensures { OnOk result (out.new.items ≡ out.old.items ++ codes "??(" ++ decimal bits ++ codes ")") }
{
    out.extend_from_slice(b"??(")?;
    push_number(out, bits as u64)?;
    out.extend_from_slice(b")")?;
    Ok(())
}

/// Appends how many elements a slice has, and its closing bracket.
fn push_slice_end(out: &mut Vec<u8>, length: u32) -> Result<(), AllocError>
    ensures { OnOk result (out.new.items ≡ out.old.items ++ codes "::" ++ decimal length ++ codes "]") }
{
    out.extend_from_slice(b"::")?;
    push_number(out, length as u64)?;
    out.extend_from_slice(b"]")?;
    Ok(())
}

/// Appends what stands between two texts, or nothing before the first of them.
pub fn push_between(out: &mut Vec<u8>, is_first: bool, between: &[u8]) -> Result<(), AllocError>
    ensures { OnOk result (out.new.items ≡ out.old.items ++ gap_between is_first between.now) }
{
    if is_first {
        Ok(())
    } else {
        out.extend_from_slice(between)?;
        Ok(())
    }
}

/// Appends the space before an operand that begins with a minus sign.
fn push_gap(out: &mut Vec<u8>, text: &[u8]) -> Result<(), AllocError>
    ensures { OnOk result (out.new.items ≡ out.old.items ++ minus_gap text.now) }
{
    match text.first() {
        Some(b'-') => {
            out.extend_from_slice(b" ")?;
            Ok(())
        }
        _ => Ok(()),
    }
}

/// Appends an operator before its operand.
fn push_unary(out: &mut Vec<u8>, op: UnOp, text: &[u8]) -> Result<(), AllocError>
    ensures { OnOk result (out.new.items ≡ out.old.items ++ unary_layout op text.now) }
{
    match op {
        UnOp::Not => {
            out.extend_from_slice(b"!")?;
            out.extend_from_slice(text)?;
            Ok(())
        }
        UnOp::Flip => {
            out.extend_from_slice(b"~")?;
            out.extend_from_slice(text)?;
            Ok(())
        }
        UnOp::Neg => {
            out.extend_from_slice(b"-")?;
            push_gap(out, text)?;
            out.extend_from_slice(text)?;
            Ok(())
        }
    }
}

/// Appends the text of an expression.
#[cycle(expr_text)]
pub fn push_expr(alloc: Global, out: &mut Vec<u8>, prog: &Prog, e: &PExpr) -> Result<(), AllocError>
    ensures { OnOk result (out.new.items ≡ out.old.items ++ expr_layout prog.now e.now) }
{
    match &e.form {
        PEForm::Number(n) => {
            push_number(out, *n as u64)?;
            Ok(())
        }
        PEForm::True => {
            out.extend_from_slice(b"true")?;
            Ok(())
        }
        PEForm::False => {
            out.extend_from_slice(b"false")?;
            Ok(())
        }
        PEForm::Null => {
            out.extend_from_slice(b"null")?;
            Ok(())
        }
        PEForm::Var { name, .. } => {
            out.extend_from_slice(name.as_bytes())?;
            Ok(())
        }
        PEForm::Const(c) => {
            push_const_name(out, prog, *c)?;
            Ok(())
        }
        PEForm::Hole(None) => {
            out.extend_from_slice(b"??")?;
            Ok(())
        }
        PEForm::Hole(Some(bits)) => {
            push_hole(out, *bits)?;
            Ok(())
        }
        PEForm::Pattern(strings) => {
            out.extend_from_slice(b"{| ")?;
            push_exprs(alloc, out, prog, b" | ", strings.as_slice())?;
            out.extend_from_slice(b" |}")?;
            Ok(())
        }
        PEForm::Paren(of) => {
            out.extend_from_slice(b"(")?;
            push_expr(alloc, out, prog, of.get())?;
            out.extend_from_slice(b")")?;
            Ok(())
        }
        PEForm::Call { f, args } => {
            push_fun_name(out, prog, *f)?;
            out.extend_from_slice(b"(")?;
            push_exprs(alloc, out, prog, b", ", args.as_slice())?;
            out.extend_from_slice(b")")?;
            Ok(())
        }
        PEForm::New { s, fields } => {
            out.extend_from_slice(b"new ")?;
            push_struct_name(out, prog, *s)?;
            out.extend_from_slice(b"(")?;
            push_fields(alloc, out, prog, *s, fields.as_slice())?;
            out.extend_from_slice(b")")?;
            Ok(())
        }
        PEForm::Braces(elements) => {
            out.extend_from_slice(b"{")?;
            push_exprs(alloc, out, prog, b", ", elements.as_slice())?;
            out.extend_from_slice(b"}")?;
            Ok(())
        }
        PEForm::Member { base, s, field } => {
            push_expr(alloc, out, prog, base.get())?;
            out.extend_from_slice(b".")?;
            push_field_name(out, prog, *s, *field)?;
            Ok(())
        }
        PEForm::Index { base, index } => {
            push_expr(alloc, out, prog, base.get())?;
            out.extend_from_slice(b"[")?;
            push_expr(alloc, out, prog, index.get())?;
            out.extend_from_slice(b"]")?;
            Ok(())
        }
        PEForm::Slice { base, from, length } => {
            push_expr(alloc, out, prog, base.get())?;
            out.extend_from_slice(b"[")?;
            push_expr(alloc, out, prog, from.get())?;
            push_slice_end(out, *length)?;
            Ok(())
        }
        PEForm::Unary { op, of } => {
            let text = expr_text(alloc, prog, of.get())?;
            push_unary(out, *op, text.as_slice())?;
            Ok(())
        }
        PEForm::Binary { op, left, right } => {
            push_expr(alloc, out, prog, left.get())?;
            push_op(out, *op)?;
            push_expr(alloc, out, prog, right.get())?;
            Ok(())
        }
        PEForm::Cond { cond, then, other } => {
            push_expr(alloc, out, prog, cond.get())?;
            out.extend_from_slice(b" ? ")?;
            push_expr(alloc, out, prog, then.get())?;
            out.extend_from_slice(b" : ")?;
            push_expr(alloc, out, prog, other.get())?;
            Ok(())
        }
        PEForm::ToInt(of) => {
            push_expr(alloc, out, prog, of.get())?;
            Ok(())
        }
        PEForm::Pad(of) => {
            push_expr(alloc, out, prog, of.get())?;
            Ok(())
        }
    }
}

/// The text of an expression by itself.
#[cycle(expr_text)]
fn expr_text(alloc: Global, prog: &Prog, e: &PExpr) -> Result<Vec<u8>, AllocError>
    ensures { IfOk result (λ text. text.items ≡ expr_layout prog.now e.now) }
{
    let mut text = Vec::new(alloc);
    push_expr(alloc, &mut text, prog, e)?;
    Ok(text)
}

/// Appends the texts of expressions with the same bytes between two.
#[cycle(expr_text)]
fn push_exprs(
    alloc: Global,
    out: &mut Vec<u8>,
    prog: &Prog,
    between: &[u8],
    es: &[PExpr],
) -> Result<(), AllocError>
    ensures { OnOk result (out.new.items ≡ out.old.items ++ join_by (λ t. t) between.now (map (expr_layout prog.now) es.now)) }
{
    let mut is_first = true;
    for e in es {
        push_between(out, is_first, between)?;
        push_expr(alloc, out, prog, e)?;
        is_first = false;
    }
    Ok(())
}

/// Appends a field that `new` sets.
#[cycle(expr_text)]
fn push_field(
    alloc: Global,
    out: &mut Vec<u8>,
    prog: &Prog,
    s: StructId,
    field: &PField,
) -> Result<(), AllocError>
    ensures { OnOk result (out.new.items ≡ out.old.items ++ set_layout prog.now field.now s) }
{
    push_field_name(out, prog, s, field.field)?;
    out.extend_from_slice(b" = ")?;
    push_expr(alloc, out, prog, &field.value)?;
    Ok(())
}

/// Appends the fields that `new` sets, with a comma between two.
#[cycle(expr_text)]
fn push_fields(
    alloc: Global,
    out: &mut Vec<u8>,
    prog: &Prog,
    s: StructId,
    fields: &[PField],
) -> Result<(), AllocError>
    ensures { OnOk result (out.new.items ≡ out.old.items ++ join_by (λ t. t s) (codes ", ") (map (set_layout prog.now) fields.now)) }
{
    let mut is_first = true;
    for field in fields {
        push_between(out, is_first, b", ")?;
        push_field(alloc, out, prog, s, field)?;
        is_first = false;
    }
    Ok(())
}
