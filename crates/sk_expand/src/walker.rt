//! The walk over a program, which makes a copy of a generator for each of its calls.
ghost use Rattle.std.specs.Prelude.{◌≡◌, ◌+◌, suc, length, slice_index_or, IfOk, ◌<◌, ◌∷◌, []};
ghost use Rattle.sk_prog.specs.declared.expr.PEForm.TheVariants as eform;
ghost use Rattle.sk_prog.specs.declared.stmt.PForm.TheVariants as sform;
ghost use Rattle.sk_model.specs.Parts.{rank};
ghost use Rattle.sk_model.specs.Nodes.{expr_nodes, value_nodes, stmt_nodes, stmts_nodes};
ghost use Rattle.sk_model.specs.Expand.{as_walk, times, copies_held, most_copies, fun_id, stub, copy_of, are_ordinary, is_zero};
ghost use Rattle.sk_expand.specs.Made.{Gives, GivesList, GivesCopies, Leaf};
ghost use Rattle.sk_expand.specs.Nodes.{exprs_nodes, fields_nodes, nodes_of_eform, nodes_of_form, branch_nodes, none};
ghost use Rattle.sk_expand.specs.Walking.{HasNumbers, followed, left_under, calls_in, expr_in, exprs_in, eform_in, fields_in, value_in, stmt_in, stmts_in, form_in, branch_in, copies_in};

use crate::building::Building;
use crate::copies::{copy_of, count_of, is_generator, nothing, stub, with_function};
use crate::counting::take_expr;
use crate::repeats::{copies_held, most_copies};
use crate::stop::Stop;
use sk_base::{Bounds, Boxed, List, Name, Span, at};
use sk_expand_copies::{copy_expr, copy_name};
use sk_limits::too_many;
use sk_prog::{BinOp, Fun, FunId, PEForm, PExpr, PField, PForm, PStmt, StructId, Ty};
use std::alloc::{AllocError, Global};

/// What a walk goes by. Nothing of it changes during the walk of one body.
#[derive(Drop)]
pub struct Walker<'a> {
    pub alloc: Global,
    pub bounds: Bounds,
    pub funs: &'a [Fun],
    /// The new number of each function.
    pub table: &'a [u32],
    /// How many functions are ordinary.
    pub ordinary: u32,
    /// The generators of which copies are being walked, the outermost first.
    pub active: &'a [u32],
}

/// The number of a function that comes after so many others.
fn sum(ordinary: u32, before: u32) -> Result<u32, AllocError>
    ensures { IfOk result (λ n. n ≡ ordinary + before) }
{
    match ordinary.checked_add(before) {
        Some(n) => Ok(n),
        None => Err(too_many()),
    }
}

fn copy_var(alloc: Global, slot: u32, name: &Name) -> Result<PEForm, AllocError>
    ensures { IfOk result (λ copy. copy ≡ eform.Var slot name.now) }
{
    let name = copy_name(alloc, name)?;
    Ok(PEForm::Var { slot, name })
}

impl Walker<'_> {
    /// The new number of a function.
    #[tactic(auto, using(crate::proofs::Numbers::numbers))]
    pub fn renumbered(&self, f: u32) -> u32
        requires numbers { HasNumbers self.now }
        ensures { result ≡ rank (are_ordinary self.now.funs.now) f }
    {
        match at(self.table, f as usize) {
            Some(number) => *number,
            None => self.ordinary,
        }
    }

    /// Whether as many copies of a generator are being walked as may be.
    #[tactic(auto, using(crate::proofs::Calls::full))]
    fn is_full(&self, f: u32) -> bool
        requires there { f < length self.now.funs.now }
        ensures { result ≡ is_zero (slice_index_or (left_under self.now.bounds self.now.funs.now self.now.active.now) f 0) }
    {
        if count_of(self.active, f) < self.bounds.inline_amnt as usize {
            return false;
        }
        true
    }

    /// A leaf, which is one node.
    fn leaf(&self, made: &mut Building, form: PEForm) -> Result<PEForm, Stop>
        ensures { Leaf result form made.old made.new }
    {
        made.take(1)?;
        Ok(form)
    }

    #[cycle(walk)]
    #[inline(never)]
    fn boxed(&self, levels: u32, made: &mut Building, e: &PExpr) -> Result<Boxed<PExpr>, Stop>
        requires numbers { HasNumbers self.now }
        ensures { Gives expr_nodes result made.old made.new (expr_in self.now e.now (length made.old.copies)) }
    {
        let e = self.expr(levels, made, e)?;
        let e = Boxed::new(self.alloc, e)?;
        Ok(e)
    }

    /// The one part of an expression, which is a node too.
    #[cycle(walk)]
    fn part(&self, levels: u32, made: &mut Building, e: &PExpr) -> Result<Boxed<PExpr>, Stop>
        requires numbers { HasNumbers self.now }
        ensures { Gives (λ x. suc (expr_nodes x)) result made.old made.new (expr_in self.now e.now (length made.old.copies)) }
    {
        made.take(1)?;
        let e = self.boxed(levels, made, e)?;
        Ok(e)
    }

    #[cycle(walk)]
    #[tactic(auto, using(crate::proofs::NodeLaws::lists))]
    fn exprs(&self, levels: u32, made: &mut Building, es: &[PExpr]) -> Result<Vec<PExpr>, Stop>
        requires numbers { HasNumbers self.now }
        ensures { GivesList exprs_nodes result made.old made.new (exprs_in self.now es.now (length made.old.copies)) }
    {
        let mut all = Vec::new(self.alloc);
        for e in es {
            let e = self.expr(levels, made, e)?;
            all.push(e)?;
        }
        Ok(all)
    }

    /// The parts of an expression, which is a node too.
    #[cycle(walk)]
    #[inline(never)]
    fn parts(&self, levels: u32, made: &mut Building, es: &[PExpr]) -> Result<List<PExpr>, Stop>
        requires numbers { HasNumbers self.now }
        ensures { Gives (λ xs. suc (exprs_nodes xs)) result made.old made.new (exprs_in self.now es.now (length made.old.copies)) }
    {
        made.take(1)?;
        let es = self.exprs(levels, made, es)?;
        Ok(List::from_vec(es))
    }

    #[cycle(walk)]
    #[tactic(auto, using(crate::proofs::NodeLaws::fields))]
    fn fields(
        &self,
        levels: u32,
        made: &mut Building,
        given: &[PField],
    ) -> Result<Vec<PField>, Stop>
        requires numbers { HasNumbers self.now }
        ensures { GivesList fields_nodes result made.old made.new (fields_in self.now given.now (length made.old.copies)) }
    {
        let mut all = Vec::new(self.alloc);
        for x in given {
            let value = self.expr(levels, made, &x.value)?;
            all.push(PField {
                field: x.field,
                value,
            })?;
        }
        Ok(all)
    }

    #[cycle(walk)]
    #[inline(never)]
    #[tactic(auto, using(crate::proofs::NodeLaws::news))]
    fn new_record(
        &self,
        levels: u32,
        made: &mut Building,
        s: StructId,
        given: &[PField],
    ) -> Result<PEForm, Stop>
        requires numbers { HasNumbers self.now }
        ensures { Gives nodes_of_eform result made.old made.new (as_walk (λ xs. eform.New s xs) (fields_in self.now given.now) (length made.old.copies)) }
    {
        made.take(1)?;
        let fields = self.fields(levels, made, given)?;
        let fields = List::from_vec(fields);
        Ok(PEForm::New { s, fields })
    }

    #[cycle(walk)]
    #[inline(never)]
    #[tactic(auto, using(crate::proofs::NodeLaws::indexes))]
    fn index(
        &self,
        levels: u32,
        made: &mut Building,
        base: &PExpr,
        index: &PExpr,
    ) -> Result<PEForm, Stop>
        requires numbers { HasNumbers self.now }
        ensures { Gives nodes_of_eform result made.old made.new (followed (expr_in self.now base.now) (λ x. as_walk (λ y. eform.Index x y) (expr_in self.now index.now)) (length made.old.copies)) }
    {
        made.take(1)?;
        let base = self.boxed(levels, made, base)?;
        let index = self.boxed(levels, made, index)?;
        Ok(PEForm::Index { base, index })
    }

    #[cycle(walk)]
    #[inline(never)]
    #[tactic(auto, using(crate::proofs::NodeLaws::slices))]
    fn slice(
        &self,
        levels: u32,
        made: &mut Building,
        count: u32,
        base: &PExpr,
        from: &PExpr,
    ) -> Result<PEForm, Stop>
        requires numbers { HasNumbers self.now }
        ensures { Gives nodes_of_eform result made.old made.new (followed (expr_in self.now base.now) (λ x. as_walk (λ y. eform.Slice x y count) (expr_in self.now from.now)) (length made.old.copies)) }
    {
        made.take(1)?;
        let base = self.boxed(levels, made, base)?;
        let from = self.boxed(levels, made, from)?;
        let length = count;
        Ok(PEForm::Slice { base, from, length })
    }

    #[cycle(walk)]
    #[inline(never)]
    #[tactic(auto, using(crate::proofs::NodeLaws::binaries))]
    fn binary(
        &self,
        levels: u32,
        made: &mut Building,
        op: BinOp,
        left: &PExpr,
        right: &PExpr,
    ) -> Result<PEForm, Stop>
        requires numbers { HasNumbers self.now }
        ensures { Gives nodes_of_eform result made.old made.new (followed (expr_in self.now left.now) (λ x. as_walk (λ y. eform.Binary op x y) (expr_in self.now right.now)) (length made.old.copies)) }
    {
        made.take(1)?;
        let left = self.boxed(levels, made, left)?;
        let right = self.boxed(levels, made, right)?;
        Ok(PEForm::Binary { op, left, right })
    }

    #[cycle(walk)]
    #[inline(never)]
    #[tactic(auto, using(crate::proofs::NodeLaws::choices))]
    fn choice(
        &self,
        levels: u32,
        made: &mut Building,
        cond: &PExpr,
        first: &PExpr,
        second: &PExpr,
    ) -> Result<PEForm, Stop>
        requires numbers { HasNumbers self.now }
        ensures { Gives nodes_of_eform result made.old made.new (followed (expr_in self.now cond.now) (λ x. followed (expr_in self.now first.now) (λ y. as_walk (λ z. eform.Cond x y z) (expr_in self.now second.now))) (length made.old.copies)) }
    {
        made.take(1)?;
        let cond = self.boxed(levels, made, cond)?;
        let first = self.boxed(levels, made, first)?;
        let second = self.boxed(levels, made, second)?;
        Ok(PEForm::Cond {
            cond,
            then: first,
            other: second,
        })
    }

    /// A call, which stands in an expression with this span.
    #[cycle(walk)]
    #[inline(never)]
    #[tactic(auto, using(crate::proofs::NodeLaws::call_forms))]
    fn call_form(
        &self,
        levels: u32,
        made: &mut Building,
        span: Span,
        f: FunId,
        args: &[PExpr],
    ) -> Result<PEForm, Stop>
        requires numbers { HasNumbers self.now }
        ensures { Gives nodes_of_eform result made.old made.new (followed (calls_in self.now span f.index) (λ g. as_walk (λ xs. eform.Call (fun_id g) xs) (exprs_in self.now args.now)) (length made.old.copies)) }
    {
        made.take(1)?;
        let index = self.call(levels, made, span, f.index)?;
        let args = self.exprs(levels, made, args)?;
        let args = List::from_vec(args);
        let f = FunId { index };
        Ok(PEForm::Call { f, args })
    }

    /// What the form of an expression with this span becomes.
    #[cycle(walk)]
    #[tactic(auto, using(crate::proofs::NodeLaws::eforms))]
    fn eform(
        &self,
        levels: u32,
        made: &mut Building,
        span: Span,
        form: &PEForm,
    ) -> Result<PEForm, Stop>
        requires numbers { HasNumbers self.now }
        ensures { Gives nodes_of_eform result made.old made.new (eform_in self.now form.now span (length made.old.copies)) }
    {
        match form {
            PEForm::Number(n) => self.leaf(made, PEForm::Number(*n)),
            PEForm::True => self.leaf(made, PEForm::True),
            PEForm::False => self.leaf(made, PEForm::False),
            PEForm::Null => self.leaf(made, PEForm::Null),
            PEForm::Var { slot, name } => {
                let form = copy_var(self.alloc, *slot, name)?;
                self.leaf(made, form)
            }
            PEForm::Const(c) => self.leaf(made, PEForm::Const(*c)),
            PEForm::Hole(width) => self.leaf(made, PEForm::Hole(*width)),
            PEForm::Pattern(strings) => {
                let strings = self.parts(levels, made, strings.as_slice())?;
                Ok(PEForm::Pattern(strings))
            }
            PEForm::Paren(of) => {
                let of = self.part(levels, made, of.get())?;
                Ok(PEForm::Paren(of))
            }
            PEForm::Call { f, args } => self.call_form(levels, made, span, *f, args.as_slice()),
            PEForm::New { s, fields } => self.new_record(levels, made, *s, fields.as_slice()),
            PEForm::Braces(es) => {
                let es = self.parts(levels, made, es.as_slice())?;
                Ok(PEForm::Braces(es))
            }
            PEForm::Member { base, s, field } => {
                let base = self.part(levels, made, base.get())?;
                let (s, field) = (*s, *field);
                Ok(PEForm::Member { base, s, field })
            }
            PEForm::Index { base, index } => self.index(levels, made, base.get(), index.get()),
            PEForm::Slice { base, from, length } => {
                self.slice(levels, made, *length, base.get(), from.get())
            }
            PEForm::Unary { op, of } => {
                let of = self.part(levels, made, of.get())?;
                Ok(PEForm::Unary { op: *op, of })
            }
            PEForm::Binary { op, left, right } => {
                self.binary(levels, made, *op, left.get(), right.get())
            }
            PEForm::Cond { cond, then, other } => {
                self.choice(levels, made, cond.get(), then.get(), other.get())
            }
            PEForm::ToInt(of) => {
                let of = self.boxed(levels, made, of.get())?;
                Ok(PEForm::ToInt(of))
            }
            PEForm::Pad(of) => {
                let of = self.boxed(levels, made, of.get())?;
                Ok(PEForm::Pad(of))
            }
        }
    }

    /// What an expression becomes.
    #[cycle(walk)]
    #[inline(never)]
    #[tactic(auto, using(crate::proofs::NodeLaws::exprs))]
    fn expr(&self, levels: u32, made: &mut Building, e: &PExpr) -> Result<PExpr, Stop>
        requires numbers { HasNumbers self.now }
        ensures { Gives expr_nodes result made.old made.new (expr_in self.now e.now (length made.old.copies)) }
    {
        if levels == 0 {
            return Err(Stop::NoMemory);
        }
        let form = self.eform(levels - 1, made, e.span, &e.form)?;
        Ok(PExpr {
            span: e.span,
            ty: e.ty,
            form,
        })
    }

    /// The number of the function that a call with this span becomes a call of.
    #[cycle(walk)]
    #[inline(never)]
    #[tactic(auto, using(crate::proofs::Calls::calling))]
    fn call(&self, levels: u32, made: &mut Building, span: Span, f: u32) -> Result<u32, Stop>
        requires numbers { HasNumbers self.now }
        ensures { Gives none result made.old made.new (calls_in self.now span f (length made.old.copies)) }
    {
        let Some(fun) = at(self.funs, f as usize) else {
            return Ok(f);
        };
        if !is_generator(fun.kind) {
            return Ok(self.renumbered(f));
        }
        let before = made.count()?;
        let number = sum(self.ordinary, before)?;
        if self.is_full(f) {
            self.stubbed(made, before, span, fun)?;
            return Ok(number);
        }
        self.copied(levels, made, before, f, fun)?;
        Ok(number)
    }

    /// Makes a copy past the inlining bound, which fails with the span of its call.
    #[inline(never)]
    #[tactic(auto, using(crate::proofs::NodeLaws::stubs))]
    fn stubbed(&self, made: &mut Building, before: u32, span: Span, fun: &Fun) -> Result<(), Stop>
        requires { before ≡ length made.old.copies }
        ensures { GivesCopies result made.old made.new (copy_of fun.now (before + 1) (stub span) ∷ []) }
    {
        made.take(2)?;
        let body = stub(self.alloc, span)?;
        let copy = copy_of(self.alloc, fun, before, body)?;
        made.push(copy)?;
        Ok(())
    }

    /// Makes a copy of a generator, with all that its body makes. Its place is kept while its body is walked.
    #[cycle(walk)]
    #[inline(never)]
    fn copied(
        &self,
        levels: u32,
        made: &mut Building,
        before: u32,
        f: u32,
        fun: &Fun,
    ) -> Result<(), Stop>
        requires numbers { HasNumbers self.now }
        requires before { before ≡ length made.old.copies }
        ensures { GivesCopies result made.old made.new (copies_in self.now f fun.now before) }
    {
        made.push(nothing(self.alloc))?;
        let active = with_function(self.alloc, self.active, f)?;
        let inner = Walker {
            alloc: self.alloc,
            bounds: self.bounds,
            funs: self.funs,
            table: self.table,
            ordinary: self.ordinary,
            active: active.as_slice(),
        };
        let body = inner.stmts(levels, made, fun.body.as_slice())?;
        let copy = copy_of(self.alloc, fun, before, body)?;
        made.set(before as usize, copy);
        Ok(())
    }

    #[cycle(walk)]
    fn value(
        &self,
        levels: u32,
        made: &mut Building,
        e: &Option<PExpr>,
    ) -> Result<Option<PExpr>, Stop>
        requires numbers { HasNumbers self.now }
        ensures { Gives value_nodes result made.old made.new (value_in self.now e.now (length made.old.copies)) }
    {
        match e {
            Some(e) => {
                let e = self.expr(levels, made, e)?;
                Ok(Some(e))
            }
            None => Ok(None),
        }
    }

    #[cycle(walk)]
    #[inline(never)]
    fn boxed_stmt(&self, levels: u32, made: &mut Building, s: &PStmt) -> Result<Boxed<PStmt>, Stop>
        requires numbers { HasNumbers self.now }
        ensures { Gives stmt_nodes result made.old made.new (stmt_in self.now s.now (length made.old.copies)) }
    {
        let s = self.stmt(levels, made, s)?;
        let s = Boxed::new(self.alloc, s)?;
        Ok(s)
    }

    #[cycle(walk)]
    fn otherwise(
        &self,
        levels: u32,
        made: &mut Building,
        other: &Option<Boxed<PStmt>>,
    ) -> Result<Option<Boxed<PStmt>>, Stop>
        requires numbers { HasNumbers self.now }
        ensures { Gives branch_nodes result made.old made.new (branch_in self.now other.now (length made.old.copies)) }
    {
        match other {
            Some(s) => {
                let s = self.boxed_stmt(levels, made, s.get())?;
                Ok(Some(s))
            }
            None => Ok(None),
        }
    }

    /// What statements become.
    #[cycle(walk)]
    #[inline(never)]
    #[tactic(auto, using(crate::proofs::NodeLaws::lists))]
    pub fn stmts(&self, levels: u32, made: &mut Building, ss: &[PStmt]) -> Result<Vec<PStmt>, Stop>
        requires numbers { HasNumbers self.now }
        ensures { GivesList stmts_nodes result made.old made.new (stmts_in self.now ss.now (length made.old.copies)) }
    {
        let mut all = Vec::new(self.alloc);
        for s in ss {
            let s = self.stmt(levels, made, s)?;
            all.push(s)?;
        }
        Ok(all)
    }

    /// What statements become, so many times.
    #[cycle(walk)]
    #[inline(never)]
    #[tactic(auto, using(crate::proofs::Turns::turning))]
    fn times(
        &self,
        levels: u32,
        made: &mut Building,
        count: u32,
        ss: &[PStmt],
    ) -> Result<Vec<PStmt>, Stop>
        requires numbers { HasNumbers self.now }
        ensures { GivesList stmts_nodes result made.old made.new (times count (stmts_in self.now ss.now) (length made.old.copies)) }
    {
        let mut all = Vec::new(self.alloc);
        for _turn in 0..count {
            let mut more = self.stmts(levels, made, ss)?;
            all.append(&mut more)?;
        }
        Ok(all)
    }

    #[cycle(walk)]
    #[inline(never)]
    #[tactic(auto, using(crate::proofs::NodeLaws::declares))]
    fn declared(
        &self,
        levels: u32,
        made: &mut Building,
        slot: u32,
        name: &Name,
        ty: Ty,
        value: &Option<PExpr>,
    ) -> Result<PForm, Stop>
        requires numbers { HasNumbers self.now }
        ensures { Gives nodes_of_form result made.old made.new (as_walk (λ x. sform.Declare slot name.now ty x) (value_in self.now value.now) (length made.old.copies)) }
    {
        let name = copy_name(self.alloc, name)?;
        let value = self.value(levels, made, value)?;
        Ok(PForm::Declare {
            slot,
            name,
            ty,
            value,
        })
    }

    #[cycle(walk)]
    #[inline(never)]
    #[tactic(auto, using(crate::proofs::NodeLaws::assigns))]
    fn assigned(
        &self,
        levels: u32,
        made: &mut Building,
        target: &PExpr,
        value: &PExpr,
    ) -> Result<PForm, Stop>
        requires numbers { HasNumbers self.now }
        ensures { Gives nodes_of_form result made.old made.new (followed (expr_in self.now target.now) (λ x. as_walk (λ y. sform.Assign x y) (expr_in self.now value.now)) (length made.old.copies)) }
    {
        let target = self.expr(levels, made, target)?;
        let value = self.expr(levels, made, value)?;
        Ok(PForm::Assign { target, value })
    }

    #[cycle(walk)]
    #[inline(never)]
    #[tactic(auto, using(crate::proofs::NodeLaws::branches))]
    fn branches(
        &self,
        levels: u32,
        made: &mut Building,
        cond: &PExpr,
        first: &PStmt,
        second: &Option<Boxed<PStmt>>,
    ) -> Result<PForm, Stop>
        requires numbers { HasNumbers self.now }
        ensures { Gives nodes_of_form result made.old made.new (followed (expr_in self.now cond.now) (λ x. followed (stmt_in self.now first.now) (λ y. as_walk (λ z. sform.If x y z) (branch_in self.now second.now))) (length made.old.copies)) }
    {
        let cond = self.expr(levels, made, cond)?;
        let first = self.boxed_stmt(levels, made, first)?;
        let second = self.otherwise(levels, made, second)?;
        Ok(PForm::If {
            cond,
            then: first,
            other: second,
        })
    }

    #[cycle(walk)]
    #[inline(never)]
    #[tactic(auto, using(crate::proofs::NodeLaws::loops))]
    fn looped(
        &self,
        levels: u32,
        made: &mut Building,
        cond: &PExpr,
        body: &PStmt,
    ) -> Result<PForm, Stop>
        requires numbers { HasNumbers self.now }
        ensures { Gives nodes_of_form result made.old made.new (followed (expr_in self.now cond.now) (λ x. as_walk (λ y. sform.While x y) (stmt_in self.now body.now)) (length made.old.copies)) }
    {
        let cond = self.expr(levels, made, cond)?;
        let body = self.boxed_stmt(levels, made, body)?;
        Ok(PForm::While { cond, body })
    }

    /// A repeat keeps its count, and holds as many copies as that says.
    #[cycle(walk)]
    #[inline(never)]
    #[tactic(auto, using(crate::proofs::NodeLaws::repeats))]
    fn repeated(
        &self,
        levels: u32,
        made: &mut Building,
        count: &PExpr,
        copies: &[PStmt],
    ) -> Result<PForm, Stop>
        requires numbers { HasNumbers self.now }
        ensures { Gives nodes_of_form result made.old made.new (as_walk (λ xs. sform.Repeat count.now xs) (times (copies_held self.now.bounds count.now.form) (stmts_in self.now copies.now)) (length made.old.copies)) }
    {
        take_expr(made, count)?;
        let held = copies_held(&self.bounds, &count.form);
        let count = copy_expr(self.alloc, count)?;
        let copies = self.times(levels, made, held, copies)?;
        let copies = List::from_vec(copies);
        Ok(PForm::Repeat { count, copies })
    }

    /// A minrepeat holds as many copies as a repeat by a hole of the width for all holes.
    #[cycle(walk)]
    #[inline(never)]
    #[tactic(auto, using(crate::proofs::NodeLaws::minrepeats))]
    fn minrepeated(&self, levels: u32, made: &mut Building, copies: &[PStmt]) -> Result<PForm, Stop>
        requires numbers { HasNumbers self.now }
        ensures { Gives nodes_of_form result made.old made.new (as_walk (λ xs. sform.MinRepeat xs) (times (most_copies self.now.bounds self.now.bounds.cbits) (stmts_in self.now copies.now)) (length made.old.copies)) }
    {
        let held = most_copies(&self.bounds, self.bounds.cbits);
        let copies = self.times(levels, made, held, copies)?;
        Ok(PForm::MinRepeat(List::from_vec(copies)))
    }

    /// What the form of a statement becomes.
    #[cycle(walk)]
    #[tactic(auto, using(crate::proofs::NodeLaws::forms))]
    fn form(&self, levels: u32, made: &mut Building, form: &PForm) -> Result<PForm, Stop>
        requires numbers { HasNumbers self.now }
        ensures { Gives nodes_of_form result made.old made.new (form_in self.now form.now (length made.old.copies)) }
    {
        match form {
            PForm::Block(ss) => {
                let ss = self.stmts(levels, made, ss.as_slice())?;
                Ok(PForm::Block(List::from_vec(ss)))
            }
            PForm::Declare {
                slot,
                name,
                ty,
                value,
            } => self.declared(levels, made, *slot, name, *ty, value),
            PForm::Assign { target, value } => self.assigned(levels, made, target, value),
            PForm::Call(e) => {
                let e = self.expr(levels, made, e)?;
                Ok(PForm::Call(e))
            }
            PForm::If { cond, then, other } => {
                self.branches(levels, made, cond, then.get(), other)
            }
            PForm::While { cond, body } => self.looped(levels, made, cond, body.get()),
            PForm::Return(e) => {
                let e = self.value(levels, made, e)?;
                Ok(PForm::Return(e))
            }
            PForm::Assert(e) => {
                let e = self.expr(levels, made, e)?;
                Ok(PForm::Assert(e))
            }
            PForm::Assume(e) => {
                let e = self.expr(levels, made, e)?;
                Ok(PForm::Assume(e))
            }
            PForm::Minimize(e) => {
                let e = self.expr(levels, made, e)?;
                Ok(PForm::Minimize(e))
            }
            PForm::Repeat { count, copies } => {
                self.repeated(levels, made, count, copies.as_slice())
            }
            PForm::MinRepeat(copies) => self.minrepeated(levels, made, copies.as_slice()),
            PForm::Reorder(ss) => {
                let ss = self.stmts(levels, made, ss.as_slice())?;
                Ok(PForm::Reorder(List::from_vec(ss)))
            }
        }
    }

    /// What a statement becomes.
    #[cycle(walk)]
    #[inline(never)]
    #[tactic(auto, using(crate::proofs::NodeLaws::stmts))]
    fn stmt(&self, levels: u32, made: &mut Building, s: &PStmt) -> Result<PStmt, Stop>
        requires numbers { HasNumbers self.now }
        ensures { Gives stmt_nodes result made.old made.new (stmt_in self.now s.now (length made.old.copies)) }
    {
        if levels == 0 {
            return Err(Stop::NoMemory);
        }
        made.take(1)?;
        let form = self.form(levels - 1, made, &s.form)?;
        Ok(PStmt { span: s.span, form })
    }
}
