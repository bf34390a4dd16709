//! Statements without what no run of them can reach.
ghost use Rattle.std.specs.Prelude.{◌≡◌, ◌≤◌, ◌∷◌, ◌&&◌, [], false, IfOk, option_map, length, map, nat_le, if◌then◌else◌};
ghost use Rattle.std.specs.List.{list_any};
ghost use Rattle.sk_prog.specs.declared.stmt.PForm.TheVariants as form;
ghost use Rattle.sk_model.specs.Sites.{is_hole};
ghost use Rattle.sk_prune.specs.Trimmed.{declares, block, opened, up_to_end, any_ends, trimmed_block, one, if_there, else_body, loop, bodies};
ghost use Rattle.sk_prune.specs.Trims.{placed, constant_of, trim_of};

use crate::constant::{Constant, Constants};
use crate::held::beside;
use sk_base::{Boxed, List, Name, Span};
use sk_expand_copies::{copy_expr, copy_name};
use sk_prog::{PEForm, PExpr, PForm, PStmt, Ty};
use std::alloc::{AllocError, Global};

/// Statements that take the place of one, and whether they never go on.
#[derive(Drop)]
pub struct Part {
    pub stmts: Vec<PStmt>,
    pub ends: bool,
}

/// Makes statements without what no run of them can reach.
#[derive(Drop, Clone, Copy)]
pub struct Trimmer<'a> {
    pub alloc: Global,
    pub constants: Constants<'a>,
}

fn declares(s: &PStmt) -> bool
    ensures { result ≡ declares s.now }
{
    match &s.form {
        PForm::Declare { .. } => true,
        PForm::Block(_) => false,
        PForm::Assign { .. } => false,
        PForm::Call(_) => false,
        PForm::If { .. } => false,
        PForm::While { .. } => false,
        PForm::Return(_) => false,
        PForm::Assert(_) => false,
        PForm::Assume(_) => false,
        PForm::Minimize(_) => false,
        PForm::Repeat { .. } => false,
        PForm::MinRepeat(_) => false,
        PForm::Reorder(_) => false,
    }
}

// Whether the count of a repeat is still to be filled.
fn is_hole(count: &PExpr) -> bool
    ensures { result ≡ is_hole count.now.form }
{
    match &count.form {
        PEForm::Hole(_) => true,
        _ => false,
    }
}

fn any_declares(ss: &[PStmt]) -> bool
    ensures { result ≡ list_any declares ss.now }
{
    for s in ss {
        if declares(s) {
            return true;
        }
    }
    false
}

fn block(span: Span, ss: Vec<PStmt>) -> PStmt
    ensures { result ≡ block span ss.items }
{
    PStmt {
        span,
        form: PForm::Block(List::from_vec(ss)),
    }
}

/// One statement.
fn one(alloc: Global, span: Span, form: PForm) -> Result<Vec<PStmt>, AllocError>
    ensures { IfOk result (λ ss. ss.items ≡ record { span = span; form = form } ∷ []) }
{
    let mut ss = Vec::new(alloc);
    ss.push(PStmt { span, form })?;
    Ok(ss)
}

/// The statements of a block among others.
fn opened(alloc: Global, span: Span, ss: Vec<PStmt>) -> Result<Vec<PStmt>, AllocError>
    ensures { IfOk result (λ made. made.items ≡ opened span ss.items) }
{
    if !any_declares(ss.as_slice()) {
        return Ok(ss);
    }
    let made = one(alloc, span, PForm::Block(List::from_vec(ss)))?;
    Ok(made)
}

fn optional(alloc: Global, e: &Option<PExpr>) -> Result<Option<PExpr>, AllocError>
    ensures { IfOk result (λ copy. copy ≡ e.now) }
{
    match e {
        Some(e) => {
            let e = copy_expr(alloc, e)?;
            Ok(Some(e))
        }
        None => Ok(None),
    }
}

fn declared(
    alloc: Global,
    slot: u32,
    name: &Name,
    ty: Ty,
    value: &Option<PExpr>,
) -> Result<PForm, AllocError>
    ensures { IfOk result (λ made. made ≡ form.Declare slot name.now ty value.now) }
{
    let name = copy_name(alloc, name)?;
    let value = optional(alloc, value)?;
    Ok(PForm::Declare {
        slot,
        name,
        ty,
        value,
    })
}

fn assigned(alloc: Global, target: &PExpr, value: &PExpr) -> Result<PForm, AllocError>
    ensures { IfOk result (λ made. made ≡ form.Assign target.now value.now) }
{
    let target = copy_expr(alloc, target)?;
    let (target, value) = beside(target, copy_expr(alloc, value))?;
    Ok(PForm::Assign { target, value })
}

impl Trimmer<'_> {
    /// A statement that takes the place of one, with its span.
    fn part(&self, span: Span, form: PForm, ends: bool) -> Result<Part, AllocError>
        ensures stmts { IfOk result (λ p. p.stmts.items ≡ record { span = span; form = form } ∷ []) }
        ensures ends { IfOk result (λ p. p.ends ≡ ends) }
    {
        let stmts = one(self.alloc, span, form)?;
        Ok(Part { stmts, ends })
    }

    fn nothing(&self) -> Part
        ensures stmts { result.stmts.items ≡ [] }
        ensures ends { result.ends ≡ false }
    {
        Part {
            stmts: Vec::new(self.alloc),
            ends: false,
        }
    }

    /// What statements become up to the first that never goes on.
    #[cycle(trim)]
    #[tactic(auto, using(crate::proofs::Trimming::rows))]
    fn up_to_end(&self, ss: &[PStmt]) -> Result<Part, AllocError>
        requires bits_low { 2 ≤ self.now.constants.width }
        requires bits_high { self.now.constants.width ≤ 32 }
        ensures stmts { IfOk result (λ p. p.stmts.items ≡ up_to_end (map (trim_of self.now) ss.now)) }
        ensures ends { IfOk result (λ p. p.ends ≡ any_ends (map (trim_of self.now) ss.now)) }
    {
        let mut stmts = Vec::new(self.alloc);
        for s in ss {
            let mut part = self.stmt(s, false)?;
            stmts.append(&mut part.stmts)?;
            if part.ends {
                return Ok(Part { stmts, ends: true });
            }
        }
        Ok(Part { stmts, ends: false })
    }

    /// What the statements of a function's body become.
    pub fn body(&self, ss: &[PStmt]) -> Result<List<PStmt>, AllocError>
        requires bits_low { 2 ≤ self.now.constants.width }
        requires bits_high { self.now.constants.width ≤ 32 }
        ensures { IfOk result (λ made. made ≡ up_to_end (map (trim_of self.now) ss.now)) }
    {
        let part = self.up_to_end(ss)?;
        Ok(List::from_vec(part.stmts))
    }

    #[cycle(trim)]
    fn block(&self, ss: &[PStmt], is_body: bool, span: Span) -> Result<Part, AllocError>
        requires bits_low { 2 ≤ self.now.constants.width }
        requires bits_high { self.now.constants.width ≤ 32 }
        ensures stmts { IfOk result (λ p. p.stmts.items ≡ placed is_body (trimmed_block span (map (trim_of self.now) ss.now))) }
        ensures ends { IfOk result (λ p. p.ends ≡ (trimmed_block span (map (trim_of self.now) ss.now)).ends) }
    {
        let Part { stmts, ends } = self.up_to_end(ss)?;
        if is_body {
            return Ok(Part { stmts, ends });
        }
        let stmts = opened(self.alloc, span, stmts)?;
        Ok(Part { stmts, ends })
    }

    /// A body as a block, and whether it never goes on.
    #[cycle(trim)]
    fn branch_body(&self, s: &PStmt, span: Span) -> Result<(Boxed<PStmt>, bool), AllocError>
        requires bits_low { 2 ≤ self.now.constants.width }
        requires bits_high { self.now.constants.width ≤ 32 }
        ensures body { IfOk result (λ made. made.0 ≡ block span (trim_of self.now s.now).inside) }
        ensures ends { IfOk result (λ made. made.1 ≡ (trim_of self.now s.now).ends) }
    {
        let Part { stmts, ends } = self.stmt(s, true)?;
        let body = Boxed::new(self.alloc, block(span, stmts))?;
        Ok((body, ends))
    }

    /// What stands behind `else`, if anything does, and whether it never goes on.
    #[cycle(trim)]
    fn else_body(
        &self,
        other: &Option<Boxed<PStmt>>,
        span: Span,
    ) -> Result<(Option<Boxed<PStmt>>, bool), AllocError>
        requires bits_low { 2 ≤ self.now.constants.width }
        requires bits_high { self.now.constants.width ≤ 32 }
        ensures body { IfOk result (λ made. made.0 ≡ else_body span (if_there (option_map (trim_of self.now) other.now)).inside) }
        ensures ends { IfOk result (λ made. made.1 ≡ (if_there (option_map (trim_of self.now) other.now)).ends) }
    {
        let Part { stmts, ends } = self.other(other, true)?;
        if stmts.is_empty() {
            return Ok((None, ends));
        }
        let body = Boxed::new(self.alloc, block(span, stmts))?;
        Ok((Some(body), ends))
    }

    #[cycle(trim)]
    #[tactic(auto, using(crate::proofs::Trimming::parts))]
    fn other(&self, other: &Option<Boxed<PStmt>>, is_body: bool) -> Result<Part, AllocError>
        requires bits_low { 2 ≤ self.now.constants.width }
        requires bits_high { self.now.constants.width ≤ 32 }
        ensures stmts { IfOk result (λ p. p.stmts.items ≡ placed is_body (if_there (option_map (trim_of self.now) other.now))) }
        ensures ends { IfOk result (λ p. p.ends ≡ (if_there (option_map (trim_of self.now) other.now)).ends) }
    {
        match other {
            Some(s) => {
                let part = self.stmt(s.get(), is_body)?;
                Ok(part)
            }
            None => Ok(self.nothing()),
        }
    }

    /// An `if` whose condition is not constant.
    fn kept_if(
        &self,
        first: (Boxed<PStmt>, bool),
        second: (Option<Boxed<PStmt>>, bool),
        cond: &PExpr,
        span: Span,
    ) -> Result<Part, AllocError>
        ensures stmts { IfOk result (λ p. p.stmts.items ≡ record { span = span; form = form.If cond.now first.0 second.0 } ∷ []) }
        ensures ends { IfOk result (λ p. p.ends ≡ (first.1 && second.1)) }
    {
        let (then, first) = first;
        let (other, second) = second;
        let ((then, other), cond) = beside((then, other), copy_expr(self.alloc, cond))?;
        let part = self.part(span, PForm::If { cond, then, other }, first && second)?;
        Ok(part)
    }

    #[cycle(trim)]
    fn kept_loop(&self, body: &PStmt, cond: &PExpr, span: Span) -> Result<Part, AllocError>
        requires bits_low { 2 ≤ self.now.constants.width }
        requires bits_high { self.now.constants.width ≤ 32 }
        ensures stmts { IfOk result (λ p. p.stmts.items ≡ (one span (form.While cond.now (block span (trim_of self.now body.now).inside)) false).among) }
        ensures ends { IfOk result (λ p. p.ends ≡ (one span (form.While cond.now (block span (trim_of self.now body.now).inside)) false).ends) }
    {
        let (body, _) = self.branch_body(body, span)?;
        let (body, cond) = beside(body, copy_expr(self.alloc, cond))?;
        let part = self.part(span, PForm::While { cond, body }, false)?;
        Ok(part)
    }

    #[cycle(trim)]
    #[tactic(auto, using(crate::proofs::Trimming::parts))]
    fn looped(
        &self,
        body: &PStmt,
        is_body: bool,
        cond: &PExpr,
        span: Span,
    ) -> Result<Part, AllocError>
        requires bits_low { 2 ≤ self.now.constants.width }
        requires bits_high { self.now.constants.width ≤ 32 }
        ensures stmts { IfOk result (λ p. p.stmts.items ≡ placed is_body (loop span cond.now (trim_of self.now body.now) (constant_of self.now cond.now))) }
        ensures ends { IfOk result (λ p. p.ends ≡ (loop span cond.now (trim_of self.now body.now) (constant_of self.now cond.now)).ends) }
    {
        match self.constants.constant(cond) {
            Some(Constant::Bit(false)) => Ok(self.nothing()),
            Some(Constant::Bit(true)) => {
                let part = self.kept_loop(body, cond, span)?;
                Ok(part)
            }
            Some(Constant::Number(_)) => {
                let part = self.kept_loop(body, cond, span)?;
                Ok(part)
            }
            None => {
                let part = self.kept_loop(body, cond, span)?;
                Ok(part)
            }
        }
    }

    /// Statements of which each is a body.
    #[cycle(trim)]
    fn bodies(&self, ss: &[PStmt], span: Span) -> Result<List<PStmt>, AllocError>
        requires bits_low { 2 ≤ self.now.constants.width }
        requires bits_high { self.now.constants.width ≤ 32 }
        ensures { IfOk result (λ made. made ≡ bodies span (map (trim_of self.now) ss.now)) }
    {
        let mut made = Vec::new(self.alloc);
        for s in ss {
            let part = self.stmt(s, true)?;
            made.push(block(span, part.stmts))?;
        }
        Ok(List::from_vec(made))
    }

    /// A repeat that holds these copies.
    #[cycle(trim)]
    #[tactic(auto, using(crate::proofs::Trimming::parts))]
    fn repeated(
        &self,
        copies: &[PStmt],
        is_body: bool,
        count: &PExpr,
        span: Span,
    ) -> Result<Part, AllocError>
        requires bits_low { 2 ≤ self.now.constants.width }
        requires bits_high { self.now.constants.width ≤ 32 }
        ensures stmts { IfOk result (λ p. p.stmts.items ≡ placed is_body (if is_hole count.now.form then one span (form.Repeat count.now (bodies span (map (trim_of self.now) copies.now))) false else trimmed_block span (map (trim_of self.now) copies.now))) }
        ensures ends { IfOk result (λ p. p.ends ≡ (if is_hole count.now.form then one span (form.Repeat count.now (bodies span (map (trim_of self.now) copies.now))) false else trimmed_block span (map (trim_of self.now) copies.now)).ends) }
    {
        if !is_hole(count) {
            let part = self.block(copies, is_body, span)?;
            return Ok(part);
        }
        let copies = self.bodies(copies, span)?;
        let (copies, count) = beside(copies, copy_expr(self.alloc, count))?;
        let part = self.part(span, PForm::Repeat { count, copies }, false)?;
        Ok(part)
    }

    #[cycle(trim)]
    #[tactic(auto, using(crate::proofs::Trimming::parts))]
    fn reordered(&self, ss: &[PStmt], is_body: bool, span: Span) -> Result<Part, AllocError>
        requires bits_low { 2 ≤ self.now.constants.width }
        requires bits_high { self.now.constants.width ≤ 32 }
        ensures stmts { IfOk result (λ p. p.stmts.items ≡ placed is_body (if nat_le (length ss.now) 1 then trimmed_block span (map (trim_of self.now) ss.now) else one span (form.Reorder (bodies span (map (trim_of self.now) ss.now))) false)) }
        ensures ends { IfOk result (λ p. p.ends ≡ (if nat_le (length ss.now) 1 then trimmed_block span (map (trim_of self.now) ss.now) else one span (form.Reorder (bodies span (map (trim_of self.now) ss.now))) false).ends) }
    {
        if ss.len() <= 1 {
            let part = self.block(ss, is_body, span)?;
            return Ok(part);
        }
        let ss = self.bodies(ss, span)?;
        let part = self.part(span, PForm::Reorder(ss), false)?;
        Ok(part)
    }

    /// What a statement becomes, as a body or among others.
    #[cycle(trim)]
    #[tactic(auto, using(crate::proofs::Trimming::parts))]
    fn stmt(&self, s: &PStmt, is_body: bool) -> Result<Part, AllocError>
        requires bits_low { 2 ≤ self.now.constants.width }
        requires bits_high { self.now.constants.width ≤ 32 }
        ensures stmts { IfOk result (λ p. p.stmts.items ≡ placed is_body (trim_of self.now s.now)) }
        ensures ends { IfOk result (λ p. p.ends ≡ (trim_of self.now s.now).ends) }
    {
        let span = s.span;
        match &s.form {
            PForm::Block(ss) => {
                let part = self.block(ss.as_slice(), is_body, span)?;
                Ok(part)
            }
            PForm::If { cond, then, other } => match self.constants.constant(cond) {
                Some(Constant::Bit(true)) => {
                    let part = self.stmt(then.get(), is_body)?;
                    Ok(part)
                }
                Some(Constant::Bit(false)) => {
                    let part = self.other(other, is_body)?;
                    Ok(part)
                }
                Some(Constant::Number(_)) => {
                    let first = self.branch_body(then.get(), span)?;
                    let (first, second) = beside(first, self.else_body(other, span))?;
                    let part = self.kept_if(first, second, cond, span)?;
                    Ok(part)
                }
                None => {
                    let first = self.branch_body(then.get(), span)?;
                    let (first, second) = beside(first, self.else_body(other, span))?;
                    let part = self.kept_if(first, second, cond, span)?;
                    Ok(part)
                }
            },
            PForm::While { cond, body } => {
                let part = self.looped(body.get(), is_body, cond, span)?;
                Ok(part)
            }
            PForm::Return(e) => {
                let e = optional(self.alloc, e)?;
                let part = self.part(span, PForm::Return(e), true)?;
                Ok(part)
            }
            PForm::Declare {
                slot,
                name,
                ty,
                value,
            } => {
                let form = declared(self.alloc, *slot, name, *ty, value)?;
                let part = self.part(span, form, false)?;
                Ok(part)
            }
            PForm::Assign { target, value } => {
                let form = assigned(self.alloc, target, value)?;
                let part = self.part(span, form, false)?;
                Ok(part)
            }
            PForm::Call(e) => {
                let e = copy_expr(self.alloc, e)?;
                let part = self.part(span, PForm::Call(e), false)?;
                Ok(part)
            }
            PForm::Assert(e) => {
                let e = copy_expr(self.alloc, e)?;
                let part = self.part(span, PForm::Assert(e), false)?;
                Ok(part)
            }
            PForm::Assume(e) => {
                let e = copy_expr(self.alloc, e)?;
                let part = self.part(span, PForm::Assume(e), false)?;
                Ok(part)
            }
            PForm::Minimize(e) => {
                let e = copy_expr(self.alloc, e)?;
                let part = self.part(span, PForm::Minimize(e), false)?;
                Ok(part)
            }
            PForm::Repeat { count, copies } => {
                let part = self.repeated(copies.as_slice(), is_body, count, span)?;
                Ok(part)
            }
            PForm::MinRepeat(copies) => {
                let copies = self.bodies(copies.as_slice(), span)?;
                let part = self.part(span, PForm::MinRepeat(copies), false)?;
                Ok(part)
            }
            PForm::Reorder(ss) => {
                let part = self.reordered(ss.as_slice(), is_body, span)?;
                Ok(part)
            }
        }
    }
}
