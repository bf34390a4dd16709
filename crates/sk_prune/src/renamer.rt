//! Statements in which each call has the new number of its function.
ghost use Rattle.std.specs.Prelude.{◌≡◌, IfOk, MatchResult, Ok, Err};
ghost use Rattle.sk_prog.specs.declared.expr.PEForm.TheVariants as eform;
ghost use Rattle.sk_prog.specs.declared.stmt.PForm.TheVariants as form;
ghost use Rattle.sk_prune.specs.Renamed.{hole_renamed, new_id, any_id, expr_renamed, value_renamed, stmt_renamed, renamed};
ghost use Rattle.sk_prune.specs.Words.{exprs_renamed, fields_renamed, act_renamed, other_renamed};
ghost use Rattle.sk_prune.specs.Numbered.{number};

use crate::held::beside;
use sk_base::{Boxed, List, Name};
use sk_expand_copies::{copy_expr, copy_name};
use sk_prog::{Elem, FunId, PEForm, PExpr, PField, PForm, PStmt, Ty};
use std::alloc::{AllocError, Global};

/// An expression with the span and the type of another.
fn like(e: &PExpr, form: PEForm) -> PExpr
    ensures { result ≡ record { span = e.now.span; ty = e.now.ty; form = form } }
{
    PExpr {
        span: e.span,
        ty: e.ty,
        form,
    }
}

fn variable(alloc: Global, slot: u32, name: &Name) -> Result<PEForm, AllocError>
    ensures { IfOk result (λ made. made ≡ eform.Var slot name.now) }
{
    let name = copy_name(alloc, name)?;
    Ok(PEForm::Var { slot, name })
}

/// A hole, or braces of none where it is of no bits.
#[tactic(auto, using(crate::proofs::Numbers::some_bits))]
fn hole(alloc: Global, bits: Option<u32>, ty: Option<Ty>) -> PEForm
    ensures { result ≡ hole_renamed bits ty }
{
    match ty {
        Some(Ty::Array(Elem::Bit, count)) => {
            if count == 0 {
                return PEForm::Braces(List::from_vec(Vec::new(alloc)));
            }
            PEForm::Hole(bits)
        }
        _ => PEForm::Hole(bits),
    }
}

/// The new numbers of functions: those in the table, and else the last.
#[derive(Drop, Clone, Copy)]
pub struct Renamer<'a> {
    pub alloc: Global,
    pub table: &'a [u32],
    pub last: u32,
}

impl Renamer<'_> {
    /// The new number of a function.
    #[tactic(auto, using(crate::proofs::Numbers::looked_up))]
    pub fn id(&self, f: FunId) -> FunId
        ensures { result ≡ new_id (number self.now) f }
    {
        match sk_base::at(self.table, f.index as usize) {
            Some(index) => FunId { index: *index },
            None => FunId { index: self.last },
        }
    }

    /// The new number of a function that another implements.
    pub fn any_id(&self, f: Option<FunId>) -> Option<FunId>
        ensures { result ≡ any_id (number self.now) f }
    {
        match f {
            Some(f) => Some(self.id(f)),
            None => None,
        }
    }

    #[cycle(expr)]
    fn boxed(&self, e: &PExpr) -> Result<Boxed<PExpr>, AllocError>
        ensures { IfOk result (λ made. made ≡ expr_renamed (number self.now) e.now) }
    {
        let e = self.expr(e)?;
        let e = Boxed::new(self.alloc, e)?;
        Ok(e)
    }

    #[cycle(expr)]
    fn exprs(&self, es: &[PExpr]) -> Result<List<PExpr>, AllocError>
        ensures { IfOk result (λ made. made ≡ exprs_renamed (number self.now) es.now) }
    {
        let mut made = Vec::new(self.alloc);
        for e in es {
            let e = self.expr(e)?;
            made.push(e)?;
        }
        Ok(List::from_vec(made))
    }

    #[cycle(expr)]
    fn fields(&self, given: &[PField]) -> Result<List<PField>, AllocError>
        ensures { IfOk result (λ made. made ≡ fields_renamed (number self.now) given.now) }
    {
        let mut made = Vec::new(self.alloc);
        for x in given {
            let value = self.expr(&x.value)?;
            made.push(PField {
                field: x.field,
                value,
            })?;
        }
        Ok(List::from_vec(made))
    }

    /// An expression with the new numbers.
    #[cycle(expr)]
    fn expr(&self, e: &PExpr) -> Result<PExpr, AllocError>
        ensures { IfOk result (λ made. made ≡ expr_renamed (number self.now) e.now) }
    {
        match &e.form {
            PEForm::Number(n) => Ok(like(e, PEForm::Number(*n))),
            PEForm::True => Ok(like(e, PEForm::True)),
            PEForm::False => Ok(like(e, PEForm::False)),
            PEForm::Null => Ok(like(e, PEForm::Null)),
            PEForm::Var { slot, name } => Ok(like(e, variable(self.alloc, *slot, name)?)),
            PEForm::Const(c) => Ok(like(e, PEForm::Const(*c))),
            PEForm::Hole(bits) => Ok(like(e, hole(self.alloc, *bits, e.ty))),
            PEForm::Pattern(strings) => {
                Ok(like(e, PEForm::Pattern(self.exprs(strings.as_slice())?)))
            }
            PEForm::Paren(of) => Ok(like(e, PEForm::Paren(self.boxed(of.get())?))),
            PEForm::Call { f, args } => {
                let args = self.exprs(args.as_slice())?;
                let f = self.id(*f);
                Ok(like(e, PEForm::Call { f, args }))
            }
            PEForm::New { s, fields } => {
                let fields = self.fields(fields.as_slice())?;
                Ok(like(e, PEForm::New { s: *s, fields }))
            }
            PEForm::Braces(es) => Ok(like(e, PEForm::Braces(self.exprs(es.as_slice())?))),
            PEForm::Member { base, s, field } => {
                let base = self.boxed(base.get())?;
                let (s, field) = (*s, *field);
                Ok(like(e, PEForm::Member { base, s, field }))
            }
            PEForm::Index { base, index } => {
                let base = self.boxed(base.get())?;
                let index = self.boxed(index.get())?;
                Ok(like(e, PEForm::Index { base, index }))
            }
            PEForm::Slice { base, from, length } => {
                let base = self.boxed(base.get())?;
                let from = self.boxed(from.get())?;
                let length = *length;
                Ok(like(e, PEForm::Slice { base, from, length }))
            }
            PEForm::Unary { op, of } => {
                let of = self.boxed(of.get())?;
                Ok(like(e, PEForm::Unary { op: *op, of }))
            }
            PEForm::Binary { op, left, right } => {
                let left = self.boxed(left.get())?;
                let right = self.boxed(right.get())?;
                let op = *op;
                Ok(like(e, PEForm::Binary { op, left, right }))
            }
            PEForm::Cond { cond, then, other } => {
                let cond = self.boxed(cond.get())?;
                let then = self.boxed(then.get())?;
                let other = self.boxed(other.get())?;
                Ok(like(e, PEForm::Cond { cond, then, other }))
            }
            PEForm::ToInt(of) => Ok(like(e, PEForm::ToInt(self.boxed(of.get())?))),
            PEForm::Pad(of) => Ok(like(e, PEForm::Pad(self.boxed(of.get())?))),
        }
    }

    fn optional(&self, e: &Option<PExpr>) -> Result<Option<PExpr>, AllocError>
        ensures { IfOk result (λ made. made ≡ value_renamed (number self.now) e.now) }
    {
        match e {
            Some(e) => {
                let e = self.expr(e)?;
                Ok(Some(e))
            }
            None => Ok(None),
        }
    }

    fn declared(
        &self,
        slot: u32,
        name: &Name,
        ty: Ty,
        value: &Option<PExpr>,
    ) -> Result<PForm, AllocError>
        ensures { IfOk result (λ made. made ≡ form.Declare slot name.now ty (value_renamed (number self.now) value.now)) }
    {
        let name = copy_name(self.alloc, name)?;
        let value = self.optional(value)?;
        Ok(PForm::Declare {
            slot,
            name,
            ty,
            value,
        })
    }

    fn assigned(&self, target: &PExpr, value: &PExpr) -> Result<PForm, AllocError>
        ensures { IfOk result (λ made. made ≡ form.Assign (expr_renamed (number self.now) target.now) (expr_renamed (number self.now) value.now)) }
    {
        let target = self.expr(target)?;
        let (target, value) = beside(target, self.expr(value))?;
        Ok(PForm::Assign { target, value })
    }

    #[cycle(stmt)]
    fn boxed_stmt(&self, s: &PStmt) -> Result<Boxed<PStmt>, AllocError>
        ensures { IfOk result (λ made. made ≡ stmt_renamed (number self.now) s.now) }
    {
        let s = self.stmt(s)?;
        let s = Boxed::new(self.alloc, s)?;
        Ok(s)
    }

    #[cycle(stmt)]
    fn other(&self, other: &Option<Boxed<PStmt>>) -> Result<Option<Boxed<PStmt>>, AllocError>
        ensures { IfOk result (λ made. made ≡ other_renamed (number self.now) other.now) }
    {
        match other {
            Some(s) => {
                let s = self.boxed_stmt(s.get())?;
                Ok(Some(s))
            }
            None => Ok(None),
        }
    }

    /// Statements with the new numbers.
    #[cycle(stmt)]
    pub fn stmts(&self, ss: &[PStmt]) -> Result<List<PStmt>, AllocError>
        ensures { IfOk result (λ made. made ≡ renamed (number self.now) ss.now) }
    {
        let mut made = Vec::new(self.alloc);
        for s in ss {
            let s = self.stmt(s)?;
            made.push(s)?;
        }
        Ok(List::from_vec(made))
    }

    #[cycle(stmt)]
    fn form(&self, of: &PForm) -> Result<PForm, AllocError>
        ensures { IfOk result (λ made. made ≡ act_renamed (number self.now) of.now) }
    {
        match of {
            PForm::Block(ss) => Ok(PForm::Block(self.stmts(ss.as_slice())?)),
            PForm::Declare {
                slot,
                name,
                ty,
                value,
            } => self.declared(*slot, name, *ty, value),
            PForm::Assign { target, value } => self.assigned(target, value),
            PForm::Call(e) => Ok(PForm::Call(self.expr(e)?)),
            PForm::If { cond, then, other } => {
                let cond = self.expr(cond)?;
                let parts = beside(cond, self.boxed_stmt(then.get()))?;
                let ((cond, then), other) = beside(parts, self.other(other))?;
                Ok(PForm::If { cond, then, other })
            }
            PForm::While { cond, body } => {
                let cond = self.expr(cond)?;
                let (cond, body) = beside(cond, self.boxed_stmt(body.get()))?;
                Ok(PForm::While { cond, body })
            }
            PForm::Return(e) => Ok(PForm::Return(self.optional(e)?)),
            PForm::Assert(e) => Ok(PForm::Assert(self.expr(e)?)),
            PForm::Assume(e) => Ok(PForm::Assume(self.expr(e)?)),
            PForm::Minimize(e) => Ok(PForm::Minimize(self.expr(e)?)),
            PForm::Repeat { count, copies } => {
                let count = copy_expr(self.alloc, count)?;
                let (count, copies) = beside(count, self.stmts(copies.as_slice()))?;
                Ok(PForm::Repeat { count, copies })
            }
            PForm::MinRepeat(copies) => Ok(PForm::MinRepeat(self.stmts(copies.as_slice())?)),
            PForm::Reorder(ss) => Ok(PForm::Reorder(self.stmts(ss.as_slice())?)),
        }
    }

    #[cycle(stmt)]
    fn stmt(&self, s: &PStmt) -> Result<PStmt, AllocError>
        ensures { IfOk result (λ made. made ≡ stmt_renamed (number self.now) s.now) }
    {
        let form = self.form(&s.form)?;
        Ok(PStmt { span: s.span, form })
    }
}
