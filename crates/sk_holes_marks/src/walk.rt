//! Marks the sites of expressions and statements that may stand.
ghost use Rattle.std.specs.Prelude.{◌≡◌, ◌+◌, ◌≤◌, ◌<◌, ◌++◌, ◌==◌, ◌&&◌, OnOk, length, nat_lt, replicate};
ghost use Rattle.sk_model.specs.Stands.{hole_count};
ghost use Rattle.sk_model.specs.Parts.{value};
ghost use Rattle.sk_holes_marks.specs.Words.{Has, expr, exprs, fields, strings, pattern, optional, stmt, stmts, copies, kept, repeated, reordered, branch};
ghost use Rattle.sk_holes_marks.specs.Marking.{is_first, is_one};

use sk_base::Boxed;
use sk_prog::{Elem, PEForm, PExpr, PField, PForm, PStmt, Ty};
use std::alloc::AllocError;

/// How many sites a hole of this type has.
fn hole_count(ty: Option<Ty>) -> usize
    ensures { result ≡ hole_count ty }
{
    match ty {
        Some(Ty::Array(Elem::Bit, count)) => count as usize,
        _ => 1,
    }
}

/// Whether the part with number k stands, where the one with this number does.
fn is_chosen(stands: bool, k: usize, number: usize) -> bool
    ensures { result ≡ (is_one number k && stands) }
{
    if k == number {
        return stands;
    }
    false
}

/// Whether the part with number k stands, where the first do, so many.
fn is_kept(stands: bool, k: usize, number: usize) -> bool
    ensures { result ≡ (is_first number k && stands) }
{
    if k < number {
        return stands;
    }
    false
}

/// Marks so many sites.
fn mark_sites(marks: &mut Vec<bool>, stands: bool, count: usize) -> Result<(), AllocError>
    ensures marks { OnOk result (marks.new.items ≡ marks.old.items ++ replicate count stands) }
    ensures place { OnOk result (length marks.new.items ≡ length marks.old.items + count) }
{
    for _ in 0..count {
        marks.push(stands)?;
    }
    Ok(())
}

/// The value of the next site.
fn value_of(values: &[u32], marks: &[bool]) -> u32
    requires { length marks.now < length values.now }
    ensures { result ≡ value values.now (length marks.now) }
{
    values[marks.len()]
}

#[cycle(mark_expr)]
fn mark_exprs(
    es: &[PExpr],
    values: &[u32],
    stands: bool,
    marks: &mut Vec<bool>,
) -> Result<(), AllocError>
    requires { Has values.now (length marks.old.items) ((exprs values.now es.now).count) }
    ensures marks { OnOk result (marks.new.items ≡ marks.old.items ++ (exprs values.now es.now).at stands (length marks.old.items)) }
    ensures place { OnOk result (length marks.new.items ≡ length marks.old.items + (exprs values.now es.now).count) }
{
    for e in es {
        mark_expr(e, values, stands, marks)?;
    }
    Ok(())
}

#[cycle(mark_expr)]
fn mark_fields(
    given: &[PField],
    values: &[u32],
    stands: bool,
    marks: &mut Vec<bool>,
) -> Result<(), AllocError>
    requires { Has values.now (length marks.old.items) ((fields values.now given.now).count) }
    ensures marks { OnOk result (marks.new.items ≡ marks.old.items ++ (fields values.now given.now).at stands (length marks.old.items)) }
    ensures place { OnOk result (length marks.new.items ≡ length marks.old.items + (fields values.now given.now).count) }
{
    for x in given {
        mark_expr(&x.value, values, stands, marks)?;
    }
    Ok(())
}

/// Marks the strings of a pattern, of which the one with a number stands.
#[cycle(mark_expr)]
fn mark_strings(
    es: &[PExpr],
    values: &[u32],
    stands: bool,
    number: usize,
    marks: &mut Vec<bool>,
) -> Result<(), AllocError>
    requires { Has values.now (length marks.old.items) ((exprs values.now es.now).count) }
    ensures marks { OnOk result (marks.new.items ≡ marks.old.items ++ (strings values.now number 0 es.now).at stands (length marks.old.items)) }
    ensures place { OnOk result (length marks.new.items ≡ length marks.old.items + (exprs values.now es.now).count) }
{
    for (k, e) in es.iter().enumerate() {
        mark_expr(e, values, is_chosen(stands, k, number), marks)?;
    }
    Ok(())
}

/// Marks the strings of a pattern, of which the one stands that the site before them chooses.
#[cycle(mark_expr)]
#[tactic(auto, using(crate::proofs::Rows::rows))]
fn mark_pattern(
    es: &[PExpr],
    values: &[u32],
    stands: bool,
    marks: &mut Vec<bool>,
) -> Result<(), AllocError>
    requires { Has values.now (length marks.old.items) ((pattern values.now es.now).count) }
    ensures marks { OnOk result (marks.new.items ≡ marks.old.items ++ (pattern values.now es.now).at stands (length marks.old.items)) }
    ensures place { OnOk result (length marks.new.items ≡ length marks.old.items + (pattern values.now es.now).count) }
{
    let number = value_of(values, marks.as_slice()) as usize;
    marks.push(stands)?;
    mark_strings(es, values, stands, number, marks)?;
    Ok(())
}

/// Marks the sites of an expression, which may stand.
#[cycle(mark_expr)]
fn mark_expr(
    e: &PExpr,
    values: &[u32],
    stands: bool,
    marks: &mut Vec<bool>,
) -> Result<(), AllocError>
    requires { Has values.now (length marks.old.items) ((expr values.now e.now).count) }
    ensures marks { OnOk result (marks.new.items ≡ marks.old.items ++ (expr values.now e.now).at stands (length marks.old.items)) }
    ensures place { OnOk result (length marks.new.items ≡ length marks.old.items + (expr values.now e.now).count) }
{
    match &e.form {
        PEForm::Number(_) => Ok(()),
        PEForm::True => Ok(()),
        PEForm::False => Ok(()),
        PEForm::Null => Ok(()),
        PEForm::Var { slot: _, name: _ } => Ok(()),
        PEForm::Const(_) => Ok(()),
        PEForm::Hole(_) => {
            mark_sites(marks, stands, hole_count(e.ty))?;
            Ok(())
        }
        PEForm::Pattern(strings) => {
            mark_pattern(strings.as_slice(), values, stands, marks)?;
            Ok(())
        }
        PEForm::Paren(of) => {
            mark_expr(of.get(), values, stands, marks)?;
            Ok(())
        }
        PEForm::Call { f: _, args } => {
            mark_exprs(args.as_slice(), values, stands, marks)?;
            Ok(())
        }
        PEForm::New { s: _, fields } => {
            mark_fields(fields.as_slice(), values, stands, marks)?;
            Ok(())
        }
        PEForm::Braces(es) => {
            mark_exprs(es.as_slice(), values, stands, marks)?;
            Ok(())
        }
        PEForm::Member {
            base,
            s: _,
            field: _,
        } => {
            mark_expr(base.get(), values, stands, marks)?;
            Ok(())
        }
        PEForm::Index { base, index } => {
            mark_expr(base.get(), values, stands, marks)?;
            mark_expr(index.get(), values, stands, marks)?;
            Ok(())
        }
        PEForm::Slice {
            base,
            from,
            length: _,
        } => {
            mark_expr(base.get(), values, stands, marks)?;
            mark_expr(from.get(), values, stands, marks)?;
            Ok(())
        }
        PEForm::Unary { op: _, of } => {
            mark_expr(of.get(), values, stands, marks)?;
            Ok(())
        }
        PEForm::Binary { op: _, left, right } => {
            mark_expr(left.get(), values, stands, marks)?;
            mark_expr(right.get(), values, stands, marks)?;
            Ok(())
        }
        PEForm::Cond { cond, then, other } => {
            mark_expr(cond.get(), values, stands, marks)?;
            mark_expr(then.get(), values, stands, marks)?;
            mark_expr(other.get(), values, stands, marks)?;
            Ok(())
        }
        PEForm::ToInt(of) => {
            mark_expr(of.get(), values, stands, marks)?;
            Ok(())
        }
        PEForm::Pad(of) => {
            mark_expr(of.get(), values, stands, marks)?;
            Ok(())
        }
    }
}

fn mark_optional(
    e: &Option<PExpr>,
    values: &[u32],
    stands: bool,
    marks: &mut Vec<bool>,
) -> Result<(), AllocError>
    requires { Has values.now (length marks.old.items) ((optional values.now e.now).count) }
    ensures marks { OnOk result (marks.new.items ≡ marks.old.items ++ (optional values.now e.now).at stands (length marks.old.items)) }
    ensures place { OnOk result (length marks.new.items ≡ length marks.old.items + (optional values.now e.now).count) }
{
    match e {
        Some(e) => {
            mark_expr(e, values, stands, marks)?;
            Ok(())
        }
        None => Ok(()),
    }
}

#[cycle(mark_stmt)]
fn mark_branch(
    other: &Option<Boxed<PStmt>>,
    values: &[u32],
    stands: bool,
    marks: &mut Vec<bool>,
) -> Result<(), AllocError>
    requires { Has values.now (length marks.old.items) ((branch values.now other.now).count) }
    ensures marks { OnOk result (marks.new.items ≡ marks.old.items ++ (branch values.now other.now).at stands (length marks.old.items)) }
    ensures place { OnOk result (length marks.new.items ≡ length marks.old.items + (branch values.now other.now).count) }
{
    match other {
        Some(s) => {
            mark_stmt(s.get(), values, stands, marks)?;
            Ok(())
        }
        None => Ok(()),
    }
}

/// Marks the sites of statements, which may stand.
#[cycle(mark_stmt)]
pub fn mark_stmts(
    ss: &[PStmt],
    values: &[u32],
    stands: bool,
    marks: &mut Vec<bool>,
) -> Result<(), AllocError>
    requires { Has values.now (length marks.old.items) ((stmts values.now ss.now).count) }
    ensures marks { OnOk result (marks.new.items ≡ marks.old.items ++ (stmts values.now ss.now).at stands (length marks.old.items)) }
    ensures place { OnOk result (length marks.new.items ≡ length marks.old.items + (stmts values.now ss.now).count) }
{
    for s in ss {
        mark_stmt(s, values, stands, marks)?;
    }
    Ok(())
}

/// Marks the copies of a repeat, of which the first stand, as many as a number says.
#[cycle(mark_stmt)]
fn mark_copies(
    ss: &[PStmt],
    values: &[u32],
    stands: bool,
    number: usize,
    marks: &mut Vec<bool>,
) -> Result<(), AllocError>
    requires { Has values.now (length marks.old.items) ((stmts values.now ss.now).count) }
    ensures marks { OnOk result (marks.new.items ≡ marks.old.items ++ (copies values.now number 0 ss.now).at stands (length marks.old.items)) }
    ensures place { OnOk result (length marks.new.items ≡ length marks.old.items + (stmts values.now ss.now).count) }
{
    for (k, s) in ss.iter().enumerate() {
        mark_stmt(s, values, is_kept(stands, k, number), marks)?;
    }
    Ok(())
}

/// Marks the copies of a repeat, of which the first stand, as many as the site before them says.
#[cycle(mark_stmt)]
#[tactic(auto, using(crate::proofs::Rows::rows))]
fn mark_kept(
    ss: &[PStmt],
    values: &[u32],
    stands: bool,
    marks: &mut Vec<bool>,
) -> Result<(), AllocError>
    requires { Has values.now (length marks.old.items) ((kept values.now ss.now).count) }
    ensures marks { OnOk result (marks.new.items ≡ marks.old.items ++ (kept values.now ss.now).at stands (length marks.old.items)) }
    ensures place { OnOk result (length marks.new.items ≡ length marks.old.items + (kept values.now ss.now).count) }
{
    let number = value_of(values, marks.as_slice()) as usize;
    marks.push(stands)?;
    mark_copies(ss, values, stands, number, marks)?;
    Ok(())
}

/// Marks the copies of a repeat with a count: of one by a hole the first stand, else all.
#[cycle(mark_stmt)]
fn mark_repeated(
    ss: &[PStmt],
    count: &PExpr,
    values: &[u32],
    stands: bool,
    marks: &mut Vec<bool>,
) -> Result<(), AllocError>
    requires { Has values.now (length marks.old.items) ((repeated values.now count.now ss.now).count) }
    ensures marks { OnOk result (marks.new.items ≡ marks.old.items ++ (repeated values.now count.now ss.now).at stands (length marks.old.items)) }
    ensures place { OnOk result (length marks.new.items ≡ length marks.old.items + (repeated values.now count.now ss.now).count) }
{
    match &count.form {
        PEForm::Hole(_) => {
            mark_kept(ss, values, stands, marks)?;
            Ok(())
        }
        _ => {
            mark_stmts(ss, values, stands, marks)?;
            Ok(())
        }
    }
}

#[cycle(mark_stmt)]
fn mark_reordered(
    ss: &[PStmt],
    values: &[u32],
    stands: bool,
    marks: &mut Vec<bool>,
) -> Result<(), AllocError>
    requires { Has values.now (length marks.old.items) ((reordered values.now ss.now).count) }
    ensures marks { OnOk result (marks.new.items ≡ marks.old.items ++ (reordered values.now ss.now).at stands (length marks.old.items)) }
    ensures place { OnOk result (length marks.new.items ≡ length marks.old.items + (reordered values.now ss.now).count) }
{
    mark_sites(marks, stands, ss.len().saturating_sub(1))?;
    mark_stmts(ss, values, stands, marks)?;
    Ok(())
}

/// Marks the sites of a statement, which may stand.
#[cycle(mark_stmt)]
#[tactic(auto, using(crate::proofs::Rows::mapped))]
fn mark_stmt(
    s: &PStmt,
    values: &[u32],
    stands: bool,
    marks: &mut Vec<bool>,
) -> Result<(), AllocError>
    requires { Has values.now (length marks.old.items) ((stmt values.now s.now).count) }
    ensures marks { OnOk result (marks.new.items ≡ marks.old.items ++ (stmt values.now s.now).at stands (length marks.old.items)) }
    ensures place { OnOk result (length marks.new.items ≡ length marks.old.items + (stmt values.now s.now).count) }
{
    match &s.form {
        PForm::Block(ss) => {
            mark_stmts(ss.as_slice(), values, stands, marks)?;
            Ok(())
        }
        PForm::Declare {
            slot: _,
            name: _,
            ty: _,
            value,
        } => {
            mark_optional(value, values, stands, marks)?;
            Ok(())
        }
        PForm::Assign { target, value } => {
            mark_expr(target, values, stands, marks)?;
            mark_expr(value, values, stands, marks)?;
            Ok(())
        }
        PForm::Call(e) => {
            mark_expr(e, values, stands, marks)?;
            Ok(())
        }
        PForm::If { cond, then, other } => {
            mark_expr(cond, values, stands, marks)?;
            mark_stmt(then.get(), values, stands, marks)?;
            mark_branch(other, values, stands, marks)?;
            Ok(())
        }
        PForm::While { cond, body } => {
            mark_expr(cond, values, stands, marks)?;
            mark_stmt(body.get(), values, stands, marks)?;
            Ok(())
        }
        PForm::Return(e) => {
            mark_optional(e, values, stands, marks)?;
            Ok(())
        }
        PForm::Assert(e) => {
            mark_expr(e, values, stands, marks)?;
            Ok(())
        }
        PForm::Assume(e) => {
            mark_expr(e, values, stands, marks)?;
            Ok(())
        }
        PForm::Minimize(e) => {
            mark_expr(e, values, stands, marks)?;
            Ok(())
        }
        PForm::Repeat { count, copies } => {
            mark_repeated(copies.as_slice(), count, values, stands, marks)?;
            Ok(())
        }
        PForm::MinRepeat(copies) => {
            mark_kept(copies.as_slice(), values, stands, marks)?;
            Ok(())
        }
        PForm::Reorder(ss) => {
            mark_reordered(ss.as_slice(), values, stands, marks)?;
            Ok(())
        }
    }
}
