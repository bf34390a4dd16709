//! What statements become under a choice.
ghost use Rattle.std.specs.Prelude.{◌≡◌, ◌+◌, ◌-◌, ◌≤◌, [], suc, Err, IfOk, MatchResult, Ok, OnOk, length, take, option_map};
ghost use Rattle.sk_prog.specs.declared.stmt.PForm.TheVariants as sform;
ghost use Rattle.sk_model.specs.Fill.{digit, arrange};
ghost use Rattle.sk_holes.specs.Filling.{Reaches, value_at, expr, optional, stmt, form, stmts, branch, repeated};

use crate::filler::Filler;
use sk_base::{Boxed, List, Name};
use sk_prog::{PEForm, PExpr, PForm, PStmt, Ty};
use std::alloc::AllocError;

fn block(ss: Vec<PStmt>) -> PForm
    ensures { result ≡ sform.Block ss.items }
{
    PForm::Block(List::from_vec(ss))
}

/// A held value beside one just made, or the error of its making. What is held is dropped here alone, so that the caller's
/// proof has no drop of a tree at the exit.
fn beside<A: Drop, B, E>(held: A, made: Result<B, E>) -> Result<(A, B), E>
    ensures { MatchResult made (λ b. result ≡ Ok (held, b)) (λ e. result ≡ Err e) }
{
    match made {
        Ok(b) => Ok((held, b)),
        Err(e) => Err(e),
    }
}

impl Filler<'_> {
    /// The digit of the statement after so many others of a reorder, whose digits stand from a place on.
    fn digit(&self, first: usize, others: usize) -> u32
        requires { first + others ≤ length self.now.values.now }
        ensures { result ≡ digit self.now.values.now first others }
    {
        if others == 0 {
            return 0;
        }
        self.values[first + (others - 1)]
    }

    fn optional(&self, at: &mut usize, e: &Option<PExpr>) -> Result<Option<PExpr>, AllocError>
        requires { Reaches self.now at.old ((optional self.now e.now).count) }
        ensures filled { IfOk result (λ x. x ≡ (optional self.now e.now).at at.old) }
        ensures at { OnOk result (at.new ≡ at.old + ((optional self.now e.now).count)) }
    {
        match e {
            Some(e) => {
                let e = self.expr(at, e)?;
                Ok(Some(e))
            }
            None => Ok(None),
        }
    }

    fn declared(
        &self,
        at: &mut usize,
        slot: u32,
        name: &Name,
        ty: Ty,
        value: &Option<PExpr>,
    ) -> Result<PForm, AllocError>
        requires { Reaches self.now at.old ((optional self.now value.now).count) }
        ensures filled { IfOk result (λ x. x ≡ sform.Declare slot name.now ty ((optional self.now value.now).at at.old)) }
        ensures at { OnOk result (at.new ≡ at.old + ((optional self.now value.now).count)) }
    {
        let name = Name::from_slice(self.alloc, name.as_bytes())?;
        let value = self.optional(at, value)?;
        Ok(PForm::Declare {
            slot,
            name,
            ty,
            value,
        })
    }

    #[cycle(stmt)]
    fn boxed_stmt(&self, at: &mut usize, s: &PStmt) -> Result<Boxed<PStmt>, AllocError>
        requires { Reaches self.now at.old ((stmt self.now s.now).count) }
        ensures filled { IfOk result (λ x. x ≡ (stmt self.now s.now).at at.old) }
        ensures at { OnOk result (at.new ≡ at.old + ((stmt self.now s.now).count)) }
    {
        let s = self.stmt(at, s)?;
        let s = Boxed::new(self.alloc, s)?;
        Ok(s)
    }

    #[cycle(stmt)]
    fn other(
        &self,
        at: &mut usize,
        other: &Option<Boxed<PStmt>>,
    ) -> Result<Option<Boxed<PStmt>>, AllocError>
        requires { Reaches self.now at.old ((branch self.now other.now).count) }
        ensures filled { IfOk result (λ x. x ≡ (branch self.now other.now).at at.old) }
        ensures at { OnOk result (at.new ≡ at.old + ((branch self.now other.now).count)) }
    {
        match other {
            Some(s) => {
                let s = self.boxed_stmt(at, s.get())?;
                Ok(Some(s))
            }
            None => Ok(None),
        }
    }

    #[cycle(stmt)]
    pub fn stmts(&self, at: &mut usize, ss: &[PStmt]) -> Result<Vec<PStmt>, AllocError>
        requires { Reaches self.now at.old ((stmts self.now ss.now).count) }
        ensures filled { IfOk result (λ x. x.items ≡ (stmts self.now ss.now).at at.old) }
        ensures at { OnOk result (at.new ≡ at.old + ((stmts self.now ss.now).count)) }
    {
        let mut filled = Vec::new(self.alloc);
        for s in ss {
            let s = self.stmt(at, s)?;
            filled.push(s)?;
        }
        Ok(filled)
    }

    /// The first copies of a repeat, as many as the site at the place says.
    #[cycle(stmt)]
    fn kept(&self, at: &mut usize, copies: &[PStmt]) -> Result<Vec<PStmt>, AllocError>
        requires { Reaches self.now at.old (suc (stmts self.now copies.now).count) }
        ensures filled { IfOk result (λ x. x.items ≡ take (value_at self.now at.old) ((stmts self.now copies.now).at (at.old + 1))) }
        ensures at { OnOk result (at.new ≡ at.old + (suc (stmts self.now copies.now).count)) }
    {
        let number = self.next(at) as usize;
        let mut filled = self.stmts(at, copies)?;
        filled.truncate(number);
        Ok(filled)
    }

    /// The copies of a repeat with a count: of one by a hole the first, else all.
    #[cycle(stmt)]
    fn repeated(
        &self,
        at: &mut usize,
        copies: &[PStmt],
        count: &PExpr,
    ) -> Result<Vec<PStmt>, AllocError>
        requires { Reaches self.now at.old ((repeated self.now count.now copies.now).count) }
        ensures filled { IfOk result (λ x. sform.Block x.items ≡ (repeated self.now count.now copies.now).at at.old) }
        ensures at { OnOk result (at.new ≡ at.old + ((repeated self.now count.now copies.now).count)) }
    {
        match &count.form {
            PEForm::Hole(_) => {
                let filled = self.kept(at, copies)?;
                Ok(filled)
            }
            _ => {
                let filled = self.stmts(at, copies)?;
                Ok(filled)
            }
        }
    }

    /// The statements of a reorder in the order that its digits say.
    #[cycle(stmt)]
    fn reordered(&self, at: &mut usize, ss: &[PStmt]) -> Result<Vec<PStmt>, AllocError>
        requires { Reaches self.now at.old ((length ss.now - 1) + (stmts self.now ss.now).count) }
        ensures filled { IfOk result (λ x. x.items ≡ arrange self.now.values.now at.old [] ((stmts self.now ss.now).at (at.old + (length ss.now - 1)))) }
        ensures at { OnOk result (at.new ≡ at.old + ((length ss.now - 1) + (stmts self.now ss.now).count)) }
    {
        let first = *at;
        *at += ss.len().saturating_sub(1);
        let mut placed = Vec::new(self.alloc);
        for s in ss {
            let s = self.stmt(at, s)?;
            let after = self.digit(first, placed.len()) as usize;
            let place = placed.len().saturating_sub(after);
            placed.insert(place, s)?;
        }
        Ok(placed)
    }

    fn assigned(&self, at: &mut usize, target: &PExpr, value: &PExpr) -> Result<PForm, AllocError>
        requires { Reaches self.now at.old ((expr self.now target.now).count + (expr self.now value.now).count) }
        ensures filled { IfOk result (λ x. x ≡ sform.Assign ((expr self.now target.now).at at.old) ((expr self.now value.now).at (at.old + (expr self.now target.now).count))) }
        ensures at { OnOk result (at.new ≡ at.old + ((expr self.now target.now).count + (expr self.now value.now).count)) }
    {
        let target = self.expr(at, target)?;
        let (target, value) = beside(target, self.expr(at, value))?;
        Ok(PForm::Assign { target, value })
    }

    #[cycle(stmt)]
    fn looped(&self, at: &mut usize, body: &PStmt, cond: &PExpr) -> Result<PForm, AllocError>
        requires { Reaches self.now at.old ((expr self.now cond.now).count + (stmt self.now body.now).count) }
        ensures filled { IfOk result (λ x. x ≡ sform.While ((expr self.now cond.now).at at.old) ((stmt self.now body.now).at (at.old + (expr self.now cond.now).count))) }
        ensures at { OnOk result (at.new ≡ at.old + ((expr self.now cond.now).count + (stmt self.now body.now).count)) }
    {
        let cond = self.expr(at, cond)?;
        let (cond, body) = beside(cond, self.boxed_stmt(at, body))?;
        Ok(PForm::While { cond, body })
    }

    /// A form whose first site has the place. Most arms are one call: the borrows of a long function take
    /// minutes to check.
    #[cycle(stmt)]
    #[tactic(auto, using(crate::proofs::Lengths::mapped))]
    fn form(&self, at: &mut usize, of: &PForm) -> Result<PForm, AllocError>
        requires { Reaches self.now at.old ((form self.now of.now).count) }
        ensures filled { IfOk result (λ x. x ≡ (form self.now of.now).at at.old) }
        ensures at { OnOk result (at.new ≡ at.old + ((form self.now of.now).count)) }
    {
        match of {
            PForm::Block(ss) => Ok(block(self.stmts(at, ss.as_slice())?)),
            PForm::Declare {
                slot,
                name,
                ty,
                value,
            } => self.declared(at, *slot, name, *ty, value),
            PForm::Assign { target, value } => self.assigned(at, target, value),
            PForm::Call(e) => Ok(PForm::Call(self.expr(at, e)?)),
            PForm::If { cond, then, other } => {
                let cond = self.expr(at, cond)?;
                let parts = beside(cond, self.boxed_stmt(at, then.get()))?;
                let ((cond, then), other) = beside(parts, self.other(at, other))?;
                Ok(PForm::If { cond, then, other })
            }
            PForm::While { cond, body } => self.looped(at, body.get(), cond),
            PForm::Return(e) => Ok(PForm::Return(self.optional(at, e)?)),
            PForm::Assert(e) => Ok(PForm::Assert(self.expr(at, e)?)),
            PForm::Assume(e) => Ok(PForm::Assume(self.expr(at, e)?)),
            PForm::Minimize(e) => Ok(PForm::Minimize(self.expr(at, e)?)),
            PForm::Repeat { count, copies } => {
                Ok(block(self.repeated(at, copies.as_slice(), count)?))
            }
            PForm::MinRepeat(copies) => Ok(block(self.kept(at, copies.as_slice())?)),
            PForm::Reorder(ss) => Ok(block(self.reordered(at, ss.as_slice())?)),
        }
    }

    /// A statement whose first site has the place.
    #[cycle(stmt)]
    fn stmt(&self, at: &mut usize, s: &PStmt) -> Result<PStmt, AllocError>
        requires { Reaches self.now at.old ((stmt self.now s.now).count) }
        ensures filled { IfOk result (λ x. x ≡ (stmt self.now s.now).at at.old) }
        ensures at { OnOk result (at.new ≡ at.old + ((stmt self.now s.now).count)) }
    {
        let form = self.form(at, &s.form)?;
        Ok(PStmt { span: s.span, form })
    }
}
