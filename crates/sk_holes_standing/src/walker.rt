//! What of expressions and statements stands under a choice.
ghost use Rattle.std.specs.Prelude.{◌≡◌, ◌+◌, ◌≤◌, ◌<◌, ◌++◌, OnOk, length};
ghost use Rattle.sk_model.specs.Parts.{value};
ghost use Rattle.sk_holes_standing.specs.Marks.{kept_if};
ghost use Rattle.sk_holes_standing.specs.Standing.{Has, expr, exprs, fields, strings, pattern, optional, stmt, stmts, copies, kept, repeated, reordered, branch};

use crate::hole::hole_count;
use crate::met::Met;
use sk_base::Boxed;
use sk_prog::{PEForm, PExpr, PField, PForm, PStmt};
use std::alloc::AllocError;

/// The values of all sites.
#[derive(Drop, Clone, Copy)]
pub struct Walker<'a> {
    pub values: &'a [u32],
}

impl Walker<'_> {
    /// The value of the site at a place, which is passed.
    fn next(&self, at: &mut usize) -> u32
        requires { at.old < length self.now.values.now }
        ensures value { result ≡ value self.now.values.now at.old }
        ensures at { at.new ≡ at.old + 1 }
    {
        let value = self.values[*at];
        *at += 1;
        value
    }

    #[cycle(skip_expr)]
    fn skip_exprs(&self, at: &mut usize, es: &[PExpr])
        requires { Has self.now at.old ((exprs self.now es.now).count) }
        ensures { at.new ≡ at.old + ((exprs self.now es.now).count) }
    {
        for e in es {
            self.skip_expr(at, e);
        }
    }

    #[cycle(skip_expr)]
    fn skip_fields(&self, at: &mut usize, given: &[PField])
        requires { Has self.now at.old ((fields self.now given.now).count) }
        ensures { at.new ≡ at.old + ((fields self.now given.now).count) }
    {
        for x in given {
            self.skip_expr(at, &x.value);
        }
    }

    #[cycle(skip_expr)]
    #[tactic(auto, using(crate::proofs::MarkLaws::row_count))]
    fn skip_pattern(&self, at: &mut usize, es: &[PExpr])
        requires { Has self.now at.old ((pattern self.now es.now).count) }
        ensures { at.new ≡ at.old + ((pattern self.now es.now).count) }
    {
        *at += 1;
        self.skip_exprs(at, es);
    }

    /// Passes the sites of an expression that does not stand.
    #[cycle(skip_expr)]
    fn skip_expr(&self, at: &mut usize, e: &PExpr)
        requires { Has self.now at.old ((expr self.now e.now).count) }
        ensures { at.new ≡ at.old + ((expr self.now e.now).count) }
    {
        match &e.form {
            PEForm::Number(_) => {}
            PEForm::True => {}
            PEForm::False => {}
            PEForm::Null => {}
            PEForm::Var { slot: _, name: _ } => {}
            PEForm::Const(_) => {}
            PEForm::Hole(_) => *at += hole_count(e.ty),
            PEForm::Pattern(strings) => self.skip_pattern(at, strings.as_slice()),
            PEForm::Paren(of) => self.skip_expr(at, of.get()),
            PEForm::Call { f: _, args } => self.skip_exprs(at, args.as_slice()),
            PEForm::New { s: _, fields } => self.skip_fields(at, fields.as_slice()),
            PEForm::Braces(es) => self.skip_exprs(at, es.as_slice()),
            PEForm::Member {
                base,
                s: _,
                field: _,
            } => self.skip_expr(at, base.get()),
            PEForm::Index { base, index } => {
                self.skip_expr(at, base.get());
                self.skip_expr(at, index.get());
            }
            PEForm::Slice {
                base,
                from,
                length: _,
            } => {
                self.skip_expr(at, base.get());
                self.skip_expr(at, from.get());
            }
            PEForm::Unary { op: _, of } => self.skip_expr(at, of.get()),
            PEForm::Binary { op: _, left, right } => {
                self.skip_expr(at, left.get());
                self.skip_expr(at, right.get());
            }
            PEForm::Cond { cond, then, other } => {
                self.skip_expr(at, cond.get());
                self.skip_expr(at, then.get());
                self.skip_expr(at, other.get());
            }
            PEForm::ToInt(of) => self.skip_expr(at, of.get()),
            PEForm::Pad(of) => self.skip_expr(at, of.get()),
        }
    }

    fn skip_optional(&self, at: &mut usize, e: &Option<PExpr>)
        requires { Has self.now at.old ((optional self.now e.now).count) }
        ensures { at.new ≡ at.old + ((optional self.now e.now).count) }
    {
        match e {
            Some(e) => self.skip_expr(at, e),
            None => {}
        }
    }

    #[cycle(skip_stmt)]
    fn skip_branch(&self, at: &mut usize, other: &Option<Boxed<PStmt>>)
        requires { Has self.now at.old ((branch self.now other.now).count) }
        ensures { at.new ≡ at.old + ((branch self.now other.now).count) }
    {
        match other {
            Some(s) => self.skip_stmt(at, s.get()),
            None => {}
        }
    }

    /// Passes the sites of statements that do not stand.
    #[cycle(skip_stmt)]
    pub fn skip_stmts(&self, at: &mut usize, ss: &[PStmt])
        requires { Has self.now at.old ((stmts self.now ss.now).count) }
        ensures { at.new ≡ at.old + ((stmts self.now ss.now).count) }
    {
        for s in ss {
            self.skip_stmt(at, s);
        }
    }

    #[cycle(skip_stmt)]
    #[tactic(auto, using(crate::proofs::MarkLaws::row_count))]
    fn skip_kept(&self, at: &mut usize, ss: &[PStmt])
        requires { Has self.now at.old ((kept self.now ss.now).count) }
        ensures { at.new ≡ at.old + ((kept self.now ss.now).count) }
    {
        *at += 1;
        self.skip_stmts(at, ss);
    }

    #[cycle(skip_stmt)]
    fn skip_repeated(&self, at: &mut usize, ss: &[PStmt], count: &PExpr)
        requires { Has self.now at.old ((repeated self.now count.now ss.now).count) }
        ensures { at.new ≡ at.old + ((repeated self.now count.now ss.now).count) }
    {
        match &count.form {
            PEForm::Hole(_) => self.skip_kept(at, ss),
            _ => self.skip_stmts(at, ss),
        }
    }

    #[cycle(skip_stmt)]
    fn skip_reordered(&self, at: &mut usize, ss: &[PStmt])
        requires { Has self.now at.old ((reordered self.now ss.now).count) }
        ensures { at.new ≡ at.old + ((reordered self.now ss.now).count) }
    {
        *at += ss.len().saturating_sub(1);
        self.skip_stmts(at, ss);
    }

    #[cycle(skip_stmt)]
    #[tactic(auto, using(crate::proofs::Lengths::mapped))]
    fn skip_stmt(&self, at: &mut usize, s: &PStmt)
        requires { Has self.now at.old ((stmt self.now s.now).count) }
        ensures { at.new ≡ at.old + ((stmt self.now s.now).count) }
    {
        match &s.form {
            PForm::Block(ss) => self.skip_stmts(at, ss.as_slice()),
            PForm::Declare {
                slot: _,
                name: _,
                ty: _,
                value,
            } => self.skip_optional(at, value),
            PForm::Assign { target, value } => {
                self.skip_expr(at, target);
                self.skip_expr(at, value);
            }
            PForm::Call(e) => self.skip_expr(at, e),
            PForm::If { cond, then, other } => {
                self.skip_expr(at, cond);
                self.skip_stmt(at, then.get());
                self.skip_branch(at, other);
            }
            PForm::While { cond, body } => {
                self.skip_expr(at, cond);
                self.skip_stmt(at, body.get());
            }
            PForm::Return(e) => self.skip_optional(at, e),
            PForm::Assert(e) => self.skip_expr(at, e),
            PForm::Assume(e) => self.skip_expr(at, e),
            PForm::Minimize(e) => self.skip_expr(at, e),
            PForm::Repeat { count, copies } => self.skip_repeated(at, copies.as_slice(), count),
            PForm::MinRepeat(copies) => self.skip_kept(at, copies.as_slice()),
            PForm::Reorder(ss) => self.skip_reordered(at, ss.as_slice()),
        }
    }

    #[cycle(expr)]
    fn exprs(&self, at: &mut usize, met: &mut Met, es: &[PExpr]) -> Result<(), AllocError>
        requires { Has self.now at.old ((exprs self.now es.now).count) }
        ensures called { OnOk result (met.new.called ≡ met.old.called ++ ((exprs self.now es.now).at at.old).called) }
        ensures payments { OnOk result (met.new.payments ≡ met.old.payments ++ ((exprs self.now es.now).at at.old).paid) }
        ensures at { OnOk result (at.new ≡ at.old + ((exprs self.now es.now).count)) }
    {
        for e in es {
            self.expr(at, met, e)?;
        }
        Ok(())
    }

    #[cycle(expr)]
    fn fields(&self, at: &mut usize, met: &mut Met, given: &[PField]) -> Result<(), AllocError>
        requires { Has self.now at.old ((fields self.now given.now).count) }
        ensures called { OnOk result (met.new.called ≡ met.old.called ++ ((fields self.now given.now).at at.old).called) }
        ensures payments { OnOk result (met.new.payments ≡ met.old.payments ++ ((fields self.now given.now).at at.old).paid) }
        ensures at { OnOk result (at.new ≡ at.old + ((fields self.now given.now).count)) }
    {
        for x in given {
            self.expr(at, met, &x.value)?;
        }
        Ok(())
    }

    /// A string of a pattern, which may stand.
    #[cycle(expr)]
    #[tactic(auto, unfolding(crate::specs::Marks::kept_if))]
    fn string(
        &self,
        at: &mut usize,
        met: &mut Met,
        stands: bool,
        e: &PExpr,
    ) -> Result<(), AllocError>
        requires { Has self.now at.old ((expr self.now e.now).count) }
        ensures called { OnOk result (met.new.called ≡ met.old.called ++ ((kept_if stands (expr self.now e.now)).at at.old).called) }
        ensures payments { OnOk result (met.new.payments ≡ met.old.payments ++ ((kept_if stands (expr self.now e.now)).at at.old).paid) }
        ensures at { OnOk result (at.new ≡ at.old + ((expr self.now e.now).count)) }
    {
        if stands {
            self.expr(at, met, e)?;
            return Ok(());
        }
        self.skip_expr(at, e);
        Ok(())
    }

    /// The strings of a pattern, of which the one with a number stands.
    #[cycle(expr)]
    #[tactic(auto, using(crate::proofs::MarkLaws::kept_count))]
    fn strings(
        &self,
        at: &mut usize,
        met: &mut Met,
        number: usize,
        es: &[PExpr],
    ) -> Result<(), AllocError>
        requires { Has self.now at.old ((exprs self.now es.now).count) }
        ensures called { OnOk result (met.new.called ≡ met.old.called ++ ((strings self.now number 0 es.now).at at.old).called) }
        ensures payments { OnOk result (met.new.payments ≡ met.old.payments ++ ((strings self.now number 0 es.now).at at.old).paid) }
        ensures at { OnOk result (at.new ≡ at.old + ((exprs self.now es.now).count)) }
    {
        for (k, e) in es.iter().enumerate() {
            self.string(at, met, k == number, e)?;
        }
        Ok(())
    }

    /// The strings of a pattern, of which the one stands that the site at the place chooses.
    #[cycle(expr)]
    #[tactic(auto, using(crate::proofs::MarkLaws::chosen))]
    fn pattern(&self, at: &mut usize, met: &mut Met, es: &[PExpr]) -> Result<(), AllocError>
        requires { Has self.now at.old ((pattern self.now es.now).count) }
        ensures called { OnOk result (met.new.called ≡ met.old.called ++ ((pattern self.now es.now).at at.old).called) }
        ensures payments { OnOk result (met.new.payments ≡ met.old.payments ++ ((pattern self.now es.now).at at.old).paid) }
        ensures at { OnOk result (at.new ≡ at.old + ((pattern self.now es.now).count)) }
    {
        let number = self.next(at) as usize;
        self.strings(at, met, number, es)?;
        Ok(())
    }

    /// An expression that stands, whose first site has the place.
    #[cycle(expr)]
    fn expr(&self, at: &mut usize, met: &mut Met, e: &PExpr) -> Result<(), AllocError>
        requires { Has self.now at.old ((expr self.now e.now).count) }
        ensures called { OnOk result (met.new.called ≡ met.old.called ++ ((expr self.now e.now).at at.old).called) }
        ensures payments { OnOk result (met.new.payments ≡ met.old.payments ++ ((expr self.now e.now).at at.old).paid) }
        ensures at { OnOk result (at.new ≡ at.old + ((expr self.now e.now).count)) }
    {
        match &e.form {
            PEForm::Number(_) => Ok(()),
            PEForm::True => Ok(()),
            PEForm::False => Ok(()),
            PEForm::Null => Ok(()),
            PEForm::Var { slot: _, name: _ } => Ok(()),
            PEForm::Const(_) => Ok(()),
            PEForm::Hole(_) => {
                *at += hole_count(e.ty);
                Ok(())
            }
            PEForm::Pattern(strings) => {
                self.pattern(at, met, strings.as_slice())?;
                Ok(())
            }
            PEForm::Paren(of) => {
                self.expr(at, met, of.get())?;
                Ok(())
            }
            PEForm::Call { f, args } => {
                met.call(f.index)?;
                self.exprs(at, met, args.as_slice())?;
                Ok(())
            }
            PEForm::New { s: _, fields } => {
                self.fields(at, met, fields.as_slice())?;
                Ok(())
            }
            PEForm::Braces(es) => {
                self.exprs(at, met, es.as_slice())?;
                Ok(())
            }
            PEForm::Member {
                base,
                s: _,
                field: _,
            } => {
                self.expr(at, met, base.get())?;
                Ok(())
            }
            PEForm::Index { base, index } => {
                self.expr(at, met, base.get())?;
                self.expr(at, met, index.get())?;
                Ok(())
            }
            PEForm::Slice {
                base,
                from,
                length: _,
            } => {
                self.expr(at, met, base.get())?;
                self.expr(at, met, from.get())?;
                Ok(())
            }
            PEForm::Unary { op: _, of } => {
                self.expr(at, met, of.get())?;
                Ok(())
            }
            PEForm::Binary { op: _, left, right } => {
                self.expr(at, met, left.get())?;
                self.expr(at, met, right.get())?;
                Ok(())
            }
            PEForm::Cond { cond, then, other } => {
                self.expr(at, met, cond.get())?;
                self.expr(at, met, then.get())?;
                self.expr(at, met, other.get())?;
                Ok(())
            }
            PEForm::ToInt(of) => {
                self.expr(at, met, of.get())?;
                Ok(())
            }
            PEForm::Pad(of) => {
                self.expr(at, met, of.get())?;
                Ok(())
            }
        }
    }

    fn optional(&self, at: &mut usize, met: &mut Met, e: &Option<PExpr>) -> Result<(), AllocError>
        requires { Has self.now at.old ((optional self.now e.now).count) }
        ensures called { OnOk result (met.new.called ≡ met.old.called ++ ((optional self.now e.now).at at.old).called) }
        ensures payments { OnOk result (met.new.payments ≡ met.old.payments ++ ((optional self.now e.now).at at.old).paid) }
        ensures at { OnOk result (at.new ≡ at.old + ((optional self.now e.now).count)) }
    {
        match e {
            Some(e) => {
                self.expr(at, met, e)?;
                Ok(())
            }
            None => Ok(()),
        }
    }

    #[cycle(stmt)]
    fn branch(
        &self,
        at: &mut usize,
        met: &mut Met,
        other: &Option<Boxed<PStmt>>,
    ) -> Result<(), AllocError>
        requires { Has self.now at.old ((branch self.now other.now).count) }
        ensures called { OnOk result (met.new.called ≡ met.old.called ++ ((branch self.now other.now).at at.old).called) }
        ensures payments { OnOk result (met.new.payments ≡ met.old.payments ++ ((branch self.now other.now).at at.old).paid) }
        ensures at { OnOk result (at.new ≡ at.old + ((branch self.now other.now).count)) }
    {
        match other {
            Some(s) => {
                self.stmt(at, met, s.get())?;
                Ok(())
            }
            None => Ok(()),
        }
    }

    /// Statements that stand, one after another. After a refusal the place and what was met are given up with the walk that
    /// holds them.
    #[cycle(stmt)]
    pub fn stmts(&self, at: &mut usize, met: &mut Met, ss: &[PStmt]) -> Result<(), AllocError>
        requires { Has self.now at.old ((stmts self.now ss.now).count) }
        ensures called { OnOk result (met.new.called ≡ met.old.called ++ ((stmts self.now ss.now).at at.old).called) }
        ensures payments { OnOk result (met.new.payments ≡ met.old.payments ++ ((stmts self.now ss.now).at at.old).paid) }
        ensures at { OnOk result (at.new ≡ at.old + ((stmts self.now ss.now).count)) }
    {
        for s in ss {
            self.stmt(at, met, s)?;
        }
        Ok(())
    }

    /// A copy of a repeat, which may stand.
    #[cycle(stmt)]
    #[tactic(auto, unfolding(crate::specs::Marks::kept_if))]
    fn copy(&self, at: &mut usize, met: &mut Met, stands: bool, s: &PStmt) -> Result<(), AllocError>
        requires { Has self.now at.old ((stmt self.now s.now).count) }
        ensures called { OnOk result (met.new.called ≡ met.old.called ++ ((kept_if stands (stmt self.now s.now)).at at.old).called) }
        ensures payments { OnOk result (met.new.payments ≡ met.old.payments ++ ((kept_if stands (stmt self.now s.now)).at at.old).paid) }
        ensures at { OnOk result (at.new ≡ at.old + ((stmt self.now s.now).count)) }
    {
        if stands {
            self.stmt(at, met, s)?;
            return Ok(());
        }
        self.skip_stmt(at, s);
        Ok(())
    }

    /// The copies of a repeat, of which the first stand, as many as a number says.
    #[cycle(stmt)]
    #[tactic(auto, using(crate::proofs::MarkLaws::kept_count))]
    fn copies(
        &self,
        at: &mut usize,
        met: &mut Met,
        number: usize,
        ss: &[PStmt],
    ) -> Result<(), AllocError>
        requires { Has self.now at.old ((stmts self.now ss.now).count) }
        ensures called { OnOk result (met.new.called ≡ met.old.called ++ ((copies self.now number 0 ss.now).at at.old).called) }
        ensures payments { OnOk result (met.new.payments ≡ met.old.payments ++ ((copies self.now number 0 ss.now).at at.old).paid) }
        ensures at { OnOk result (at.new ≡ at.old + ((stmts self.now ss.now).count)) }
    {
        for (k, s) in ss.iter().enumerate() {
            self.copy(at, met, k < number, s)?;
        }
        Ok(())
    }

    /// The copies of a repeat, of which the first stand, as many as the site at the place says.
    #[cycle(stmt)]
    #[tactic(auto, using(crate::proofs::MarkLaws::first))]
    fn kept(&self, at: &mut usize, met: &mut Met, ss: &[PStmt]) -> Result<(), AllocError>
        requires { Has self.now at.old ((kept self.now ss.now).count) }
        ensures called { OnOk result (met.new.called ≡ met.old.called ++ ((kept self.now ss.now).at at.old).called) }
        ensures payments { OnOk result (met.new.payments ≡ met.old.payments ++ ((kept self.now ss.now).at at.old).paid) }
        ensures at { OnOk result (at.new ≡ at.old + ((kept self.now ss.now).count)) }
    {
        let number = self.next(at) as usize;
        self.copies(at, met, number, ss)?;
        Ok(())
    }

    /// The copies of a repeat with a count: of one by a hole the first stand, else all.
    #[cycle(stmt)]
    fn repeated(
        &self,
        at: &mut usize,
        met: &mut Met,
        ss: &[PStmt],
        count: &PExpr,
    ) -> Result<(), AllocError>
        requires { Has self.now at.old ((repeated self.now count.now ss.now).count) }
        ensures called { OnOk result (met.new.called ≡ met.old.called ++ ((repeated self.now count.now ss.now).at at.old).called) }
        ensures payments { OnOk result (met.new.payments ≡ met.old.payments ++ ((repeated self.now count.now ss.now).at at.old).paid) }
        ensures at { OnOk result (at.new ≡ at.old + ((repeated self.now count.now ss.now).count)) }
    {
        match &count.form {
            PEForm::Hole(_) => {
                self.kept(at, met, ss)?;
                Ok(())
            }
            _ => {
                self.stmts(at, met, ss)?;
                Ok(())
            }
        }
    }

    #[cycle(stmt)]
    fn reordered(&self, at: &mut usize, met: &mut Met, ss: &[PStmt]) -> Result<(), AllocError>
        requires { Has self.now at.old ((reordered self.now ss.now).count) }
        ensures called { OnOk result (met.new.called ≡ met.old.called ++ ((reordered self.now ss.now).at at.old).called) }
        ensures payments { OnOk result (met.new.payments ≡ met.old.payments ++ ((reordered self.now ss.now).at at.old).paid) }
        ensures at { OnOk result (at.new ≡ at.old + ((reordered self.now ss.now).count)) }
    {
        *at += ss.len().saturating_sub(1);
        self.stmts(at, met, ss)?;
        Ok(())
    }

    /// A statement that stands, whose first site has the place.
    #[cycle(stmt)]
    #[tactic(auto, using(crate::proofs::Lengths::mapped))]
    fn stmt(&self, at: &mut usize, met: &mut Met, s: &PStmt) -> Result<(), AllocError>
        requires { Has self.now at.old ((stmt self.now s.now).count) }
        ensures called { OnOk result (met.new.called ≡ met.old.called ++ ((stmt self.now s.now).at at.old).called) }
        ensures payments { OnOk result (met.new.payments ≡ met.old.payments ++ ((stmt self.now s.now).at at.old).paid) }
        ensures at { OnOk result (at.new ≡ at.old + ((stmt self.now s.now).count)) }
    {
        match &s.form {
            PForm::Block(ss) => {
                self.stmts(at, met, ss.as_slice())?;
                Ok(())
            }
            PForm::Declare {
                slot: _,
                name: _,
                ty: _,
                value,
            } => {
                self.optional(at, met, value)?;
                Ok(())
            }
            PForm::Assign { target, value } => {
                self.expr(at, met, target)?;
                self.expr(at, met, value)?;
                Ok(())
            }
            PForm::Call(e) => {
                self.expr(at, met, e)?;
                Ok(())
            }
            PForm::If { cond, then, other } => {
                self.expr(at, met, cond)?;
                self.stmt(at, met, then.get())?;
                self.branch(at, met, other)?;
                Ok(())
            }
            PForm::While { cond, body } => {
                self.expr(at, met, cond)?;
                self.stmt(at, met, body.get())?;
                Ok(())
            }
            PForm::Return(e) => {
                self.optional(at, met, e)?;
                Ok(())
            }
            PForm::Assert(e) => {
                self.expr(at, met, e)?;
                Ok(())
            }
            PForm::Assume(e) => {
                self.expr(at, met, e)?;
                Ok(())
            }
            PForm::Minimize(e) => {
                self.expr(at, met, e)?;
                Ok(())
            }
            PForm::Repeat { count, copies } => {
                self.repeated(at, met, copies.as_slice(), count)?;
                Ok(())
            }
            PForm::MinRepeat(copies) => {
                met.pay(s.span, self.values[*at])?;
                self.kept(at, met, copies.as_slice())?;
                Ok(())
            }
            PForm::Reorder(ss) => {
                self.reordered(at, met, ss.as_slice())?;
                Ok(())
            }
        }
    }
}
