//! What expressions and statements become under a choice.
ghost use Rattle.std.specs.Prelude.{◌≡◌, ◌+◌, ◌<◌, suc, IfOk, OnOk, length, map};
ghost use Rattle.sk_prog.specs.declared.expr.PEForm.TheVariants as eform;
ghost use Rattle.sk_model.specs.Parts.{pick};
ghost use Rattle.sk_model.specs.Fill.{is_tight, chosen, no_string};
ghost use Rattle.sk_holes.specs.Filling.{Reaches, value_at, new_id, bits_filled, hole, expr, exprs, field, fields};

use sk_base::{Boxed, List, Name, Span};
use sk_prog::{Elem, FunId, PEForm, PExpr, PField, Ty};
use std::alloc::{AllocError, Global};

/// Whether an expression is of the tightest level.
fn is_tight(e: &PExpr) -> bool
    ensures { result ≡ is_tight e.now }
{
    match &e.form {
        PEForm::Unary { op: _, of: _ } => false,
        PEForm::Binary {
            op: _,
            left: _,
            right: _,
        } => false,
        PEForm::Cond {
            cond: _,
            then: _,
            other: _,
        } => false,
        PEForm::ToInt(e) => is_tight(e.get()),
        PEForm::Pad(e) => is_tight(e.get()),
        _ => true,
    }
}

/// An expression with the span and the type of another.
fn like(e: &PExpr, form: PEForm) -> PExpr
    ensures { result ≡ record { span = e.now.span; ty = e.now.ty; form = form } }
{
    PExpr {
        span: e.span,
        ty: e.ty,
        form,
    }
}

/// A string in the place of a pattern with this type and span.
fn chosen(alloc: Global, ty: Option<Ty>, span: Span, string: PExpr) -> Result<PExpr, AllocError>
    ensures { IfOk result (λ e. e ≡ chosen ty span string) }
{
    let tight = is_tight(&string);
    let inner = PExpr {
        span,
        ty: string.ty,
        form: string.form,
    };
    if tight {
        return Ok(inner);
    }
    let form = PEForm::Paren(Boxed::new(alloc, inner)?);
    Ok(PExpr { span, ty, form })
}

/// What stands for a string that is not there.
fn no_string() -> PExpr
    ensures { result ≡ no_string }
{
    PExpr {
        span: Span { from: 0, to: 0 },
        ty: None,
        form: PEForm::Null,
    }
}

fn variable(alloc: Global, slot: u32, name: &Name) -> Result<PEForm, AllocError>
    ensures { IfOk result (λ form. form ≡ eform.Var slot name.now) }
{
    let name = Name::from_slice(alloc, name.as_bytes())?;
    Ok(PEForm::Var { slot, name })
}

/// What a program is filled with: a value for each of its sites, and the new numbers of its functions.
#[derive(Drop)]
pub struct Filler<'a> {
    pub alloc: Global,
    pub values: &'a [u32],
    pub table: &'a [u32],
    pub last: u32,
}

impl Filler<'_> {
    /// The value of the site at a place, which is passed.
    pub fn next(&self, at: &mut usize) -> u32
        requires { at.old < length self.now.values.now }
        ensures value { result ≡ value_at self.now at.old }
        ensures at { at.new ≡ at.old + 1 }
    {
        let value = self.values[*at];
        *at += 1;
        value
    }

    /// The new number of a function.
    #[tactic(auto, using(crate::proofs::Lists::looked_up))]
    fn renamed(&self, f: FunId) -> FunId
        ensures { result ≡ new_id self.now f }
    {
        match sk_base::at(self.table, f.index as usize) {
            Some(index) => FunId { index: *index },
            None => FunId { index: self.last },
        }
    }

    /// So many bits, from the place on.
    fn bits(&self, at: &mut usize, span: Span, count: u32) -> Result<Vec<PExpr>, AllocError>
        requires { Reaches self.now at.old (count) }
        ensures filled { IfOk result (λ x. x.items ≡ bits_filled self.now span count at.old) }
        ensures at { OnOk result (at.new ≡ at.old + (count)) }
    {
        let mut bits = Vec::new(self.alloc);
        for _ in 0..count {
            let number = self.next(at);
            bits.push(PExpr {
                span,
                ty: Some(Ty::One(Elem::Bit)),
                form: PEForm::Number(number),
            })?;
        }
        Ok(bits)
    }

    fn hole(&self, at: &mut usize, ty: Option<Ty>, span: Span) -> Result<PExpr, AllocError>
        requires { Reaches self.now at.old ((hole self.now ty span).count) }
        ensures filled { IfOk result (λ x. x ≡ (hole self.now ty span).at at.old) }
        ensures at { OnOk result (at.new ≡ at.old + ((hole self.now ty span).count)) }
    {
        match ty {
            Some(Ty::Array(Elem::Bit, count)) => {
                let bits = self.bits(at, span, count)?;
                Ok(PExpr {
                    span,
                    ty,
                    form: PEForm::Braces(List::from_vec(bits)),
                })
            }
            _ => {
                let form = PEForm::Number(self.next(at));
                Ok(PExpr { span, ty, form })
            }
        }
    }

    #[cycle(expr)]
    fn boxed(&self, at: &mut usize, e: &PExpr) -> Result<Boxed<PExpr>, AllocError>
        requires { Reaches self.now at.old ((expr self.now e.now).count) }
        ensures filled { IfOk result (λ x. x ≡ (expr self.now e.now).at at.old) }
        ensures at { OnOk result (at.new ≡ at.old + ((expr self.now e.now).count)) }
    {
        let e = self.expr(at, e)?;
        let e = Boxed::new(self.alloc, e)?;
        Ok(e)
    }

    /// The string of a pattern that the site at the place chooses.
    #[cycle(expr)]
    #[tactic(auto, using(crate::proofs::Lists::picks))]
    fn string(
        &self,
        at: &mut usize,
        ty: Option<Ty>,
        span: Span,
        strings: &[PExpr],
    ) -> Result<PExpr, AllocError>
        requires { Reaches self.now at.old (suc (exprs self.now strings.now).count) }
        ensures filled { IfOk result (λ x. x ≡ chosen ty span (pick no_string (map (expr self.now) strings.now) (value_at self.now at.old) (at.old + 1))) }
        ensures at { OnOk result (at.new ≡ at.old + (suc (exprs self.now strings.now).count)) }
    {
        let number = self.next(at) as usize;
        let mut filled = self.exprs(at, strings)?;
        let string = if number < filled.len() {
            filled.swap_remove(number)
        } else {
            no_string()
        };
        let string = chosen(self.alloc, ty, span, string)?;
        Ok(string)
    }

    #[cycle(expr)]
    fn exprs(&self, at: &mut usize, es: &[PExpr]) -> Result<Vec<PExpr>, AllocError>
        requires { Reaches self.now at.old ((exprs self.now es.now).count) }
        ensures filled { IfOk result (λ x. x.items ≡ (exprs self.now es.now).at at.old) }
        ensures at { OnOk result (at.new ≡ at.old + ((exprs self.now es.now).count)) }
    {
        let mut filled = Vec::new(self.alloc);
        for e in es {
            let e = self.expr(at, e)?;
            filled.push(e)?;
        }
        Ok(filled)
    }

    #[cycle(expr)]
    fn fields(&self, at: &mut usize, given: &[PField]) -> Result<Vec<PField>, AllocError>
        requires { Reaches self.now at.old ((fields self.now given.now).count) }
        ensures filled { IfOk result (λ x. x.items ≡ (fields self.now given.now).at at.old) }
        ensures at { OnOk result (at.new ≡ at.old + ((fields self.now given.now).count)) }
    {
        let mut filled = Vec::new(self.alloc);
        for x in given {
            let value = self.expr(at, &x.value)?;
            filled.push(PField {
                field: x.field,
                value,
            })?;
        }
        Ok(filled)
    }

    /// An expression whose first site has the place.
    #[cycle(expr)]
    pub fn expr(&self, at: &mut usize, e: &PExpr) -> Result<PExpr, AllocError>
        requires { Reaches self.now at.old ((expr self.now e.now).count) }
        ensures filled { IfOk result (λ x. x ≡ (expr self.now e.now).at at.old) }
        ensures at { OnOk result (at.new ≡ at.old + ((expr self.now e.now).count)) }
    {
        match &e.form {
            PEForm::Number(n) => Ok(like(e, PEForm::Number(*n))),
            PEForm::True => Ok(like(e, PEForm::True)),
            PEForm::False => Ok(like(e, PEForm::False)),
            PEForm::Null => Ok(like(e, PEForm::Null)),
            PEForm::Var { slot, name } => Ok(like(e, variable(self.alloc, *slot, name)?)),
            PEForm::Const(c) => Ok(like(e, PEForm::Const(*c))),
            PEForm::Hole(_) => self.hole(at, e.ty, e.span),
            PEForm::Pattern(strings) => self.string(at, e.ty, e.span, strings.as_slice()),
            PEForm::Paren(of) => Ok(like(e, PEForm::Paren(self.boxed(at, of.get())?))),
            PEForm::Call { f, args } => {
                let args = List::from_vec(self.exprs(at, args.as_slice())?);
                Ok(like(
                    e,
                    PEForm::Call {
                        f: self.renamed(*f),
                        args,
                    },
                ))
            }
            PEForm::New { s, fields } => {
                let fields = List::from_vec(self.fields(at, fields.as_slice())?);
                Ok(like(e, PEForm::New { s: *s, fields }))
            }
            PEForm::Braces(es) => {
                let es = List::from_vec(self.exprs(at, es.as_slice())?);
                Ok(like(e, PEForm::Braces(es)))
            }
            PEForm::Member { base, s, field } => {
                let base = self.boxed(at, base.get())?;
                Ok(like(
                    e,
                    PEForm::Member {
                        base,
                        s: *s,
                        field: *field,
                    },
                ))
            }
            PEForm::Index { base, index } => {
                let base = self.boxed(at, base.get())?;
                let index = self.boxed(at, index.get())?;
                Ok(like(e, PEForm::Index { base, index }))
            }
            PEForm::Slice { base, from, length } => {
                let base = self.boxed(at, base.get())?;
                let from = self.boxed(at, from.get())?;
                let length = *length;
                Ok(like(e, PEForm::Slice { base, from, length }))
            }
            PEForm::Unary { op, of } => {
                let of = self.boxed(at, of.get())?;
                Ok(like(e, PEForm::Unary { op: *op, of }))
            }
            PEForm::Binary { op, left, right } => {
                let left = self.boxed(at, left.get())?;
                let right = self.boxed(at, right.get())?;
                let op = *op;
                Ok(like(e, PEForm::Binary { op, left, right }))
            }
            PEForm::Cond { cond, then, other } => {
                let cond = self.boxed(at, cond.get())?;
                let then = self.boxed(at, then.get())?;
                let other = self.boxed(at, other.get())?;
                Ok(like(e, PEForm::Cond { cond, then, other }))
            }
            PEForm::ToInt(of) => Ok(like(e, PEForm::ToInt(self.boxed(at, of.get())?))),
            PEForm::Pad(of) => Ok(like(e, PEForm::Pad(self.boxed(at, of.get())?))),
        }
    }
}
