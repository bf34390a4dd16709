//! What calls and pays in expressions and statements, under which tests of a choice.

ghost use Rattle.std.specs.Prelude.{◌≡◌, ◌+◌, ◌≤◌, ◌++◌, ◌∷◌, [], length, OnOk, IfOk};
ghost use Rattle.sk_model.specs.Stands.{hole_count};
ghost use Rattle.sk_sym_choices.specs.Guards.{expr_guards as expr, value_guards as optional, stmt_guards as stmt, body_guards, under};
ghost use Rattle.sk_sym_choices.specs.Walk.{Has, exprs, fields, strings, pattern, stmts, copies, kept, repeated, reordered, branch};

use crate::guard::Test;
use crate::met::Met;
use sk_base::{Boxed, List};
use sk_model::Site;
use sk_prog::{Elem, PEForm, PExpr, PField, PForm, PStmt, Ty};
use std::alloc::{AllocError, Global};

/// The sites of the whole program.
#[derive(Clone, Copy)]
pub(crate) struct Walker<'a> {
    pub(crate) alloc: Global,
    pub(crate) sites: &'a [Site],
}

/// How many sites a hole of this type has.
fn hole_count(ty: Option<Ty>) -> usize
    ensures { result ≡ hole_count ty }
{
    match ty {
        Some(Ty::Array(Elem::Bit, count)) => count as usize,
        _ => 1,
    }
}

/// The tests of what is inside, the innermost first.
fn within(alloc: Global, test: Test, path: &[Test]) -> Result<List<Test>, AllocError>
    ensures { IfOk result (λ made. made ≡ test ∷ path.now) }
{
    let mut made = List::new(alloc);
    made.push(test)?;
    for t in path {
        made.push(*t)?;
    }
    Ok(made)
}

impl Walker<'_> {
    #[cycle(expr)]
    fn exprs(
        &self,
        at: &mut usize,
        met: &mut Met,
        path: &[Test],
        es: &[PExpr],
    ) -> Result<(), AllocError>
        requires { Has self.now at.old (exprs es.now).count }
        ensures called { OnOk result (met.new.called ≡ met.old.called ++ ((exprs es.now).at at.old path.now).called) }
        ensures owed { OnOk result (met.new.owed ≡ met.old.owed ++ ((exprs es.now).at at.old path.now).owed) }
        ensures at { OnOk result (at.new ≡ at.old + (exprs es.now).count) }
    {
        for e in es {
            self.expr(at, met, path, e)?;
        }
        Ok(())
    }

    #[cycle(expr)]
    fn fields(
        &self,
        at: &mut usize,
        met: &mut Met,
        path: &[Test],
        given: &[PField],
    ) -> Result<(), AllocError>
        requires { Has self.now at.old (fields given.now).count }
        ensures called { OnOk result (met.new.called ≡ met.old.called ++ ((fields given.now).at at.old path.now).called) }
        ensures owed { OnOk result (met.new.owed ≡ met.old.owed ++ ((fields given.now).at at.old path.now).owed) }
        ensures at { OnOk result (at.new ≡ at.old + (fields given.now).count) }
    {
        for x in given {
            self.expr(at, met, path, &x.value)?;
        }
        Ok(())
    }

    /// A string of a pattern, under its own test.
    #[cycle(expr)]
    fn string(
        &self,
        at: &mut usize,
        met: &mut Met,
        path: &[Test],
        test: Test,
        e: &PExpr,
    ) -> Result<(), AllocError>
        requires { Has self.now at.old (under test (expr e.now)).count }
        ensures called { OnOk result (met.new.called ≡ met.old.called ++ ((under test (expr e.now)).at at.old path.now).called) }
        ensures owed { OnOk result (met.new.owed ≡ met.old.owed ++ ((under test (expr e.now)).at at.old path.now).owed) }
        ensures at { OnOk result (at.new ≡ at.old + (under test (expr e.now)).count) }
    {
        let inner = within(self.alloc, test, path)?;
        self.expr(at, met, inner.as_slice(), e)?;
        Ok(())
    }

    /// The strings of a pattern, each under the test that the site takes its number.
    #[cycle(expr)]
    fn strings(
        &self,
        at: &mut usize,
        met: &mut Met,
        path: &[Test],
        site: usize,
        es: &[PExpr],
    ) -> Result<(), AllocError>
        requires { Has self.now at.old (strings site 0 es.now).count }
        ensures called { OnOk result (met.new.called ≡ met.old.called ++ ((strings site 0 es.now).at at.old path.now).called) }
        ensures owed { OnOk result (met.new.owed ≡ met.old.owed ++ ((strings site 0 es.now).at at.old path.now).owed) }
        ensures at { OnOk result (at.new ≡ at.old + (strings site 0 es.now).count) }
    {
        for (number, e) in es.iter().enumerate() {
            self.string(at, met, path, Test::Takes { site, number }, e)?;
        }
        Ok(())
    }

    #[cycle(expr)]
    #[tactic(auto, using(crate::proofs::Walks::counting))]
    fn pattern(
        &self,
        at: &mut usize,
        met: &mut Met,
        path: &[Test],
        es: &[PExpr],
    ) -> Result<(), AllocError>
        requires { Has self.now at.old (pattern es.now).count }
        ensures called { OnOk result (met.new.called ≡ met.old.called ++ ((pattern es.now).at at.old path.now).called) }
        ensures owed { OnOk result (met.new.owed ≡ met.old.owed ++ ((pattern es.now).at at.old path.now).owed) }
        ensures at { OnOk result (at.new ≡ at.old + (pattern es.now).count) }
    {
        let site = *at;
        *at += 1;
        self.strings(at, met, path, site, es)?;
        Ok(())
    }

    /// An expression, whose first site has the place.
    #[cycle(expr)]
    fn expr(
        &self,
        at: &mut usize,
        met: &mut Met,
        path: &[Test],
        e: &PExpr,
    ) -> Result<(), AllocError>
        requires { Has self.now at.old (expr e.now).count }
        ensures called { OnOk result (met.new.called ≡ met.old.called ++ ((expr e.now).at at.old path.now).called) }
        ensures owed { OnOk result (met.new.owed ≡ met.old.owed ++ ((expr e.now).at at.old path.now).owed) }
        ensures at { OnOk result (at.new ≡ at.old + (expr e.now).count) }
    {
        match &e.form {
            PEForm::Number(_) => Ok(()),
            PEForm::True => Ok(()),
            PEForm::False => Ok(()),
            PEForm::Null => Ok(()),
            PEForm::Var { slot: _, name: _ } => Ok(()),
            PEForm::Const(_) => Ok(()),
            PEForm::Hole(_) => {
                *at += hole_count(e.ty);
                Ok(())
            }
            PEForm::Pattern(strings) => {
                self.pattern(at, met, path, strings.as_slice())?;
                Ok(())
            }
            PEForm::Paren(of) => {
                self.expr(at, met, path, of.get())?;
                Ok(())
            }
            PEForm::Call { f, args } => {
                met.call(self.alloc, f.index, path)?;
                self.exprs(at, met, path, args.as_slice())?;
                Ok(())
            }
            PEForm::New { s: _, fields } => {
                self.fields(at, met, path, fields.as_slice())?;
                Ok(())
            }
            PEForm::Braces(es) => {
                self.exprs(at, met, path, es.as_slice())?;
                Ok(())
            }
            PEForm::Member {
                base,
                s: _,
                field: _,
            } => {
                self.expr(at, met, path, base.get())?;
                Ok(())
            }
            PEForm::Index { base, index } => {
                self.expr(at, met, path, base.get())?;
                self.expr(at, met, path, index.get())?;
                Ok(())
            }
            PEForm::Slice {
                base,
                from,
                length: _,
            } => {
                self.expr(at, met, path, base.get())?;
                self.expr(at, met, path, from.get())?;
                Ok(())
            }
            PEForm::Unary { op: _, of } => {
                self.expr(at, met, path, of.get())?;
                Ok(())
            }
            PEForm::Binary { op: _, left, right } => {
                self.expr(at, met, path, left.get())?;
                self.expr(at, met, path, right.get())?;
                Ok(())
            }
            PEForm::Cond { cond, then, other } => {
                self.expr(at, met, path, cond.get())?;
                self.expr(at, met, path, then.get())?;
                self.expr(at, met, path, other.get())?;
                Ok(())
            }
            PEForm::ToInt(of) => {
                self.expr(at, met, path, of.get())?;
                Ok(())
            }
            PEForm::Pad(of) => {
                self.expr(at, met, path, of.get())?;
                Ok(())
            }
        }
    }

    fn optional(
        &self,
        at: &mut usize,
        met: &mut Met,
        path: &[Test],
        e: &Option<PExpr>,
    ) -> Result<(), AllocError>
        requires { Has self.now at.old (optional e.now).count }
        ensures called { OnOk result (met.new.called ≡ met.old.called ++ ((optional e.now).at at.old path.now).called) }
        ensures owed { OnOk result (met.new.owed ≡ met.old.owed ++ ((optional e.now).at at.old path.now).owed) }
        ensures at { OnOk result (at.new ≡ at.old + (optional e.now).count) }
    {
        match e {
            Some(e) => {
                self.expr(at, met, path, e)?;
                Ok(())
            }
            None => Ok(()),
        }
    }

    #[cycle(stmt)]
    fn branch(
        &self,
        at: &mut usize,
        met: &mut Met,
        path: &[Test],
        other: &Option<Boxed<PStmt>>,
    ) -> Result<(), AllocError>
        requires { Has self.now at.old (branch other.now).count }
        ensures called { OnOk result (met.new.called ≡ met.old.called ++ ((branch other.now).at at.old path.now).called) }
        ensures owed { OnOk result (met.new.owed ≡ met.old.owed ++ ((branch other.now).at at.old path.now).owed) }
        ensures at { OnOk result (at.new ≡ at.old + (branch other.now).count) }
    {
        match other {
            Some(s) => {
                self.stmt(at, met, path, s.get())?;
                Ok(())
            }
            None => Ok(()),
        }
    }

    /// Statements, one after another.
    #[cycle(stmt)]
    pub(crate) fn stmts(
        &self,
        at: &mut usize,
        met: &mut Met,
        path: &[Test],
        ss: &[PStmt],
    ) -> Result<(), AllocError>
        requires { Has self.now at.old (stmts ss.now).count }
        ensures called { OnOk result (met.new.called ≡ met.old.called ++ ((stmts ss.now).at at.old path.now).called) }
        ensures owed { OnOk result (met.new.owed ≡ met.old.owed ++ ((stmts ss.now).at at.old path.now).owed) }
        ensures at { OnOk result (at.new ≡ at.old + (stmts ss.now).count) }
    {
        for s in ss {
            self.stmt(at, met, path, s)?;
        }
        Ok(())
    }

    /// A copy of a repeat, under its own test.
    #[cycle(stmt)]
    fn copy(
        &self,
        at: &mut usize,
        met: &mut Met,
        path: &[Test],
        test: Test,
        s: &PStmt,
    ) -> Result<(), AllocError>
        requires { Has self.now at.old (under test (stmt s.now)).count }
        ensures called { OnOk result (met.new.called ≡ met.old.called ++ ((under test (stmt s.now)).at at.old path.now).called) }
        ensures owed { OnOk result (met.new.owed ≡ met.old.owed ++ ((under test (stmt s.now)).at at.old path.now).owed) }
        ensures at { OnOk result (at.new ≡ at.old + (under test (stmt s.now)).count) }
    {
        let inner = within(self.alloc, test, path)?;
        self.stmt(at, met, inner.as_slice(), s)?;
        Ok(())
    }

    /// The copies of a repeat, each under the test that the site exceeds its number.
    #[cycle(stmt)]
    fn copies(
        &self,
        at: &mut usize,
        met: &mut Met,
        path: &[Test],
        site: usize,
        ss: &[PStmt],
    ) -> Result<(), AllocError>
        requires { Has self.now at.old (copies site 0 ss.now).count }
        ensures called { OnOk result (met.new.called ≡ met.old.called ++ ((copies site 0 ss.now).at at.old path.now).called) }
        ensures owed { OnOk result (met.new.owed ≡ met.old.owed ++ ((copies site 0 ss.now).at at.old path.now).owed) }
        ensures at { OnOk result (at.new ≡ at.old + (copies site 0 ss.now).count) }
    {
        for (number, s) in ss.iter().enumerate() {
            self.copy(at, met, path, Test::Exceeds { site, number }, s)?;
        }
        Ok(())
    }

    #[cycle(stmt)]
    #[tactic(auto, using(crate::proofs::Walks::counting))]
    fn kept(
        &self,
        at: &mut usize,
        met: &mut Met,
        path: &[Test],
        ss: &[PStmt],
    ) -> Result<(), AllocError>
        requires { Has self.now at.old (kept ss.now).count }
        ensures called { OnOk result (met.new.called ≡ met.old.called ++ ((kept ss.now).at at.old path.now).called) }
        ensures owed { OnOk result (met.new.owed ≡ met.old.owed ++ ((kept ss.now).at at.old path.now).owed) }
        ensures at { OnOk result (at.new ≡ at.old + (kept ss.now).count) }
    {
        let site = *at;
        *at += 1;
        self.copies(at, met, path, site, ss)?;
        Ok(())
    }

    #[cycle(stmt)]
    fn repeated(
        &self,
        at: &mut usize,
        met: &mut Met,
        path: &[Test],
        ss: &[PStmt],
        count: &PExpr,
    ) -> Result<(), AllocError>
        requires { Has self.now at.old (repeated count.now ss.now).count }
        ensures called { OnOk result (met.new.called ≡ met.old.called ++ ((repeated count.now ss.now).at at.old path.now).called) }
        ensures owed { OnOk result (met.new.owed ≡ met.old.owed ++ ((repeated count.now ss.now).at at.old path.now).owed) }
        ensures at { OnOk result (at.new ≡ at.old + (repeated count.now ss.now).count) }
    {
        match &count.form {
            PEForm::Hole(_) => {
                self.kept(at, met, path, ss)?;
                Ok(())
            }
            _ => {
                self.stmts(at, met, path, ss)?;
                Ok(())
            }
        }
    }

    #[cycle(stmt)]
    fn reordered(
        &self,
        at: &mut usize,
        met: &mut Met,
        path: &[Test],
        ss: &[PStmt],
    ) -> Result<(), AllocError>
        requires { Has self.now at.old (reordered ss.now).count }
        ensures called { OnOk result (met.new.called ≡ met.old.called ++ ((reordered ss.now).at at.old path.now).called) }
        ensures owed { OnOk result (met.new.owed ≡ met.old.owed ++ ((reordered ss.now).at at.old path.now).owed) }
        ensures at { OnOk result (at.new ≡ at.old + (reordered ss.now).count) }
    {
        *at += ss.len().saturating_sub(1);
        self.stmts(at, met, path, ss)?;
        Ok(())
    }

    /// A statement, whose first site has the place.
    #[cycle(stmt)]
    #[tactic(auto, using(crate::proofs::Walks::mapped))]
    fn stmt(
        &self,
        at: &mut usize,
        met: &mut Met,
        path: &[Test],
        s: &PStmt,
    ) -> Result<(), AllocError>
        requires { Has self.now at.old (stmt s.now).count }
        ensures called { OnOk result (met.new.called ≡ met.old.called ++ ((stmt s.now).at at.old path.now).called) }
        ensures owed { OnOk result (met.new.owed ≡ met.old.owed ++ ((stmt s.now).at at.old path.now).owed) }
        ensures at { OnOk result (at.new ≡ at.old + (stmt s.now).count) }
    {
        match &s.form {
            PForm::Block(ss) => {
                self.stmts(at, met, path, ss.as_slice())?;
                Ok(())
            }
            PForm::Declare {
                slot: _,
                name: _,
                ty: _,
                value,
            } => {
                self.optional(at, met, path, value)?;
                Ok(())
            }
            PForm::Assign { target, value } => {
                self.expr(at, met, path, target)?;
                self.expr(at, met, path, value)?;
                Ok(())
            }
            PForm::Call(e) => {
                self.expr(at, met, path, e)?;
                Ok(())
            }
            PForm::If { cond, then, other } => {
                self.expr(at, met, path, cond)?;
                self.stmt(at, met, path, then.get())?;
                self.branch(at, met, path, other)?;
                Ok(())
            }
            PForm::While { cond, body } => {
                self.expr(at, met, path, cond)?;
                self.stmt(at, met, path, body.get())?;
                Ok(())
            }
            PForm::Return(e) => {
                self.optional(at, met, path, e)?;
                Ok(())
            }
            PForm::Assert(e) => {
                self.expr(at, met, path, e)?;
                Ok(())
            }
            PForm::Assume(e) => {
                self.expr(at, met, path, e)?;
                Ok(())
            }
            PForm::Minimize(e) => {
                self.expr(at, met, path, e)?;
                Ok(())
            }
            PForm::Repeat { count, copies } => {
                self.repeated(at, met, path, copies.as_slice(), count)?;
                Ok(())
            }
            PForm::MinRepeat(copies) => {
                met.owe(self.alloc, s.span, *at, path)?;
                self.kept(at, met, path, copies.as_slice())?;
                Ok(())
            }
            PForm::Reorder(ss) => {
                self.reordered(at, met, path, ss.as_slice())?;
                Ok(())
            }
        }
    }
}

/// What calls and pays in a body whose first site has the place, which is then that of the first site behind it. After a
/// refusal the place is given up with the walk that holds it.
pub(crate) fn guards_of(
    alloc: Global,
    sites: &[Site],
    at: &mut usize,
    body: &[PStmt],
) -> Result<Met, AllocError>
    requires { at.old + (body_guards body.now).count ≤ length sites.now }
    ensures called { IfOk result (λ met. met.called ≡ ((body_guards body.now).at at.old []).called) }
    ensures owed { IfOk result (λ met. met.owed ≡ ((body_guards body.now).at at.old []).owed) }
    ensures at { OnOk result (at.new ≡ at.old + (body_guards body.now).count) }
{
    let walker = Walker { alloc, sites };
    let mut met = Met::new(alloc);
    walker.stmts(at, &mut met, &[], body)?;
    Ok(met)
}
