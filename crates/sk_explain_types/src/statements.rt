//! The statement in which the expression of a span stands.
use crate::finding::{Finding, Wanted, is_within};
use crate::own::Class;
use crate::search::{wanted, wanted_own};
use crate::top::Scope;
use crate::types::{BIT, INT, Type};
use sk_base::Span;
use sk_tree::{Declared, Expr, Form, FunItem, Item, StepKind, Stmt};
use std::alloc::AllocError;

/// What is found, where something is.
pub type Found<'a> = Option<Finding<'a>>;

// Statements or a statement in which what is looked for stands, or what is found.
#[derive(Clone, Copy)]
enum Inside<'a> {
    Stmts(&'a [Stmt]),
    Stmt(&'a Stmt),
    Found(Found<'a>),
}

impl<'a> Scope<'a> {
    // Whether what is looked for stands at these bytes.
    fn is_at(&self, span: Span) -> bool {
        is_within(self.span, span)
    }

    // Adds the names of a declaration.
    fn declare(&mut self, stmt: &'a Stmt) -> Result<(), AllocError> {
        if let Form::Declare { ty, names } = &stmt.form {
            let ty = self.ty(ty);
            for it in names.as_slice() {
                self.add(&it.name, ty)?;
            }
        }
        Ok(())
    }

    // In the names of a declaration, each in scope behind its own value.
    fn in_names(
        &mut self,
        names: &'a [Declared],
        ty: Option<Type<'a>>,
    ) -> Result<Found<'a>, AllocError> {
        for it in names {
            if let Some(value) = &it.value {
                if self.is_at(value.span) {
                    return Ok(self.find(value, wanted(ty)));
                }
            }
            self.add(&it.name, ty)?;
        }
        Ok(None)
    }

    // In a statement or what it assigns.
    fn in_assign(&self, target: &'a Expr, value: &'a Expr) -> Found<'a> {
        if self.is_at(target.span) {
            self.find(target, Wanted::Any)
        } else {
            self.find(value, wanted_own(self.own(target)))
        }
    }

    // In a step by a value.
    fn in_step(&self, stmt: &Stmt, kind: StepKind, target: &Expr, by: &'a Expr) -> Found<'a> {
        if self.span != stmt.span {
            return self.find(by, Wanted::Any);
        }
        match kind {
            StepKind::Add => self.beside_class(Class::Sums, target, by),
            StepKind::Sub => self.beside_class(Class::Numbers, target, by),
            StepKind::PostInc | StepKind::PostDec | StepKind::PreInc | StepKind::PreDec => None,
        }
    }

    // In what is returned.
    fn in_return(&self, stmt: &'a Stmt, value: &'a Option<Expr>) -> Found<'a> {
        match (value, self.result) {
            (Some(value), result) if self.span != stmt.span => self.find(value, wanted(result)),
            (Some(_), None) if self.is_void => Some(Finding::NoResult),
            (None, Some(ty)) => Some(Finding::WantsResult(ty)),
            _ => None,
        }
    }

    // In a statement that has no statements inside and declares nothing.
    fn in_plain(&self, stmt: &'a Stmt) -> Found<'a> {
        match &stmt.form {
            Form::Assign { target, value } => self.in_assign(target, value),
            Form::Return(value) => self.in_return(stmt, value),
            Form::Assert(e) | Form::Assume(e) => self.find(e, Wanted::At(BIT)),
            Form::Minimize(e) => self.find(e, Wanted::At(INT)),
            Form::Call(e) => self.find(e, Wanted::Any),
            Form::Step {
                kind,
                target,
                by: Some(by),
            } => self.in_step(stmt, *kind, target, by),
            _ => None,
        }
    }

    // The statement of these in which what is looked for stands, with the names of those before it in scope.
    fn enter_all(&mut self, stmts: &'a [Stmt]) -> Result<Inside<'a>, AllocError> {
        for stmt in stmts {
            if self.is_at(stmt.span) {
                return Ok(Inside::Stmt(stmt));
            }
            self.declare(stmt)?;
        }
        Ok(Inside::Found(None))
    }

    // A condition, or else a statement.
    fn enter_body(&self, cond: &'a Expr, body: &'a Stmt) -> Inside<'a> {
        if self.is_at(cond.span) {
            Inside::Found(self.find(cond, Wanted::At(BIT)))
        } else {
            Inside::Stmt(body)
        }
    }

    // A part of a `for`, with the name that it declares in scope.
    fn enter_for(
        &mut self,
        first: &'a Stmt,
        cond: &'a Expr,
        next: &'a Stmt,
        body: &'a Stmt,
    ) -> Result<Inside<'a>, AllocError> {
        if self.is_at(first.span) {
            return Ok(Inside::Stmt(first));
        }
        self.declare(first)?;
        if self.is_at(next.span) {
            Ok(Inside::Stmt(next))
        } else {
            Ok(self.enter_body(cond, body))
        }
    }

    // The part of a statement in which what is looked for stands.
    fn enter(&mut self, stmt: &'a Stmt) -> Result<Inside<'a>, AllocError> {
        match &stmt.form {
            Form::Block(stmts) | Form::Reorder(stmts) => Ok(Inside::Stmts(stmts.as_slice())),
            Form::Repeat { count: _, body } | Form::MinRepeat(body) => {
                Ok(Inside::Stmt(body.get()))
            }
            Form::If {
                other: Some(other),
                ..
            } if self.is_at(other.get().span) => Ok(Inside::Stmt(other.get())),
            Form::If { cond, then, .. } => Ok(self.enter_body(cond, then.get())),
            Form::While { cond, body } => Ok(self.enter_body(cond, body.get())),
            Form::For {
                first,
                cond,
                next,
                body,
            } => self.enter_for(first.get(), cond, next.get(), body.get()),
            Form::Declare { ty, names } => {
                let ty = self.ty(ty);
                Ok(Inside::Found(self.in_names(names.as_slice(), ty)?))
            }
            _ => Ok(Inside::Found(self.in_plain(stmt))),
        }
    }

    // In statements one behind another.
    fn in_all(&mut self, stmts: &'a [Stmt]) -> Result<Found<'a>, AllocError> {
        let mut inside = Inside::Stmts(stmts);
        for _level in 0..u64::MAX {
            inside = match inside {
                Inside::Stmts(stmts) => self.enter_all(stmts)?,
                Inside::Stmt(stmt) => self.enter(stmt)?,
                Inside::Found(found) => return Ok(found),
            };
        }
        Ok(None)
    }

    // In the body of a function.
    fn in_fun(&mut self, fun: &'a FunItem) -> Result<Found<'a>, AllocError> {
        for param in fun.params.as_slice() {
            self.add(&param.name, self.ty(&param.ty))?;
        }
        self.is_void = fun.result.is_none();
        self.result = match &fun.result {
            Some(ty) => self.ty(ty),
            None => None,
        };
        self.in_all(fun.body.as_slice())
    }

    // Whether what is looked for stands in the body of a function.
    fn is_in_fun(&self, fun: &FunItem) -> bool {
        match (fun.body.as_slice().first(), fun.body.as_slice().last()) {
            (Some(first), Some(last)) => {
                self.is_at(Span {
                    from: first.span.from,
                    to: last.span.to,
                })
            }
            _ => false,
        }
    }

    /// Why the expression that is looked for cannot stand where it does.
    pub fn found(&mut self) -> Result<Found<'a>, AllocError> {
        for item in self.items() {
            if let Item::Fun(fun) = item {
                if self.is_in_fun(fun) {
                    return self.in_fun(fun);
                }
            }
        }
        Ok(None)
    }
}
