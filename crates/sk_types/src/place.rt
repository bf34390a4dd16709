//! Whether a span stands in a tree, as that of an expression or a statement.
ghost use Rattle.std.specs.Prelude.{◌≡◌, Option, map, option_map};
ghost use Rattle.std.specs.List.{list_any};
ghost use Rattle.sk_prog.specs.declared.prog.Prog.{Prog};
ghost use Rattle.sk_types_names.specs.Gives.{Fails};
ghost use Rattle.sk_types.specs.Places.{same_span, some_yes, maybe_yes, expr_has, eform_has, field_has, any_expr_has, ty_has, declared_has, stmt_has, form_has, any_ty_has, param_has, struct_field_has, fun_has, item_has, tree_has, IsPlaced};

use crate::signature::NOWHERE;
use sk_base::{Boxed, Span};
use sk_tree::{
    Declared, EForm, Expr, Field, Form, FunItem, Item, NewField, Param, Stmt, Tree, TyTree,
};
use sk_types_laws::{TypeFault, Typing};

fn same_span(a: Span, b: Span) -> bool
    ensures { result ≡ same_span a b }
{
    a.from == b.from && a.to == b.to
}

#[cycle(expr)]
fn expr_has(span: Span, e: &Expr) -> bool
    ensures { result ≡ expr_has span e.now }
{
    same_span(e.span, span) || eform_has(span, &e.form)
}

#[cycle(expr)]
#[tactic(auto, using(sk_types_names::proofs::Places::split_at))]
fn exprs_have(span: Span, es: &[Expr]) -> bool
    ensures { result ≡ some_yes (map (expr_has span) es.now) }
{
    for e in es {
        if expr_has(span, e) {
            return true;
        }
    }
    false
}

#[cycle(expr)]
#[tactic(auto, using(sk_types_names::proofs::Places::split_at))]
fn fields_have(span: Span, fields: &[NewField]) -> bool
    ensures { result ≡ some_yes (map (field_has span) fields.now) }
{
    for field in fields {
        if expr_has(span, &field.value) {
            return true;
        }
    }
    false
}

#[cycle(expr)]
fn eform_has(span: Span, form: &EForm) -> bool
    ensures { result ≡ eform_has span form.now }
{
    match form {
        EForm::Number(_)
        | EForm::True
        | EForm::False
        | EForm::Null
        | EForm::Word(_)
        | EForm::Hole(_) => false,
        EForm::Pattern {
            pattern: _,
            strings: es,
        } => exprs_have(span, es.as_slice()),
        EForm::Paren(of) => expr_has(span, of.get()),
        EForm::Call { name: _, args } => exprs_have(span, args.as_slice()),
        EForm::New { name: _, fields } => fields_have(span, fields.as_slice()),
        EForm::Braces(es) => exprs_have(span, es.as_slice()),
        EForm::Member { base, name: _ } => expr_has(span, base.get()),
        EForm::Index { base, index } => {
            expr_has(span, base.get()) || expr_has(span, index.get())
        }
        EForm::Slice { base, from, length } => {
            expr_has(span, base.get())
                || (expr_has(span, from.get()) || expr_has(span, length.get()))
        }
        EForm::Unary { op: _, of } => expr_has(span, of.get()),
        EForm::Binary { op: _, left, right } => {
            expr_has(span, left.get()) || expr_has(span, right.get())
        }
        EForm::Cond { cond, then, other } => {
            expr_has(span, cond.get())
                || (expr_has(span, then.get()) || expr_has(span, other.get()))
        }
    }
}

fn any_expr_has(span: Span, e: &Option<Expr>) -> bool
    ensures { result ≡ any_expr_has span e.now }
{
    match e {
        None => false,
        Some(e) => expr_has(span, e),
    }
}

fn ty_has(span: Span, ty: &TyTree) -> bool
    ensures { result ≡ ty_has span ty.now }
{
    exprs_have(span, ty.lengths.as_slice())
}

fn any_ty_has(span: Span, ty: &Option<TyTree>) -> bool
    ensures { result ≡ any_ty_has span ty.now }
{
    match ty {
        None => false,
        Some(ty) => ty_has(span, ty),
    }
}

#[tactic(auto, using(sk_types_names::proofs::Places::split_at))]
fn declared_have(span: Span, names: &[Declared]) -> bool
    ensures { result ≡ list_any (declared_has span) names.now }
{
    for declared in names {
        if any_expr_has(span, &declared.value) {
            return true;
        }
    }
    false
}

#[cycle(stmt)]
fn stmt_has(span: Span, stmt: &Stmt) -> bool
    ensures { result ≡ stmt_has span stmt.now }
{
    same_span(stmt.span, span) || form_has(span, &stmt.form)
}

#[cycle(stmt)]
#[tactic(auto, using(sk_types_names::proofs::Places::split_at))]
fn stmts_have(span: Span, stmts: &[Stmt]) -> bool
    ensures { result ≡ some_yes (map (stmt_has span) stmts.now) }
{
    for stmt in stmts {
        if stmt_has(span, stmt) {
            return true;
        }
    }
    false
}

#[cycle(stmt)]
fn any_stmt_has(span: Span, stmt: &Option<Boxed<Stmt>>) -> bool
    ensures { result ≡ maybe_yes (option_map (stmt_has span) stmt.now) }
{
    match stmt {
        None => false,
        Some(stmt) => stmt_has(span, stmt.get()),
    }
}

#[cycle(stmt)]
fn form_has(span: Span, form: &Form) -> bool
    ensures { result ≡ form_has span form.now }
{
    match form {
        Form::Empty => false,
        Form::Block(stmts) | Form::Reorder(stmts) => stmts_have(span, stmts.as_slice()),
        Form::Declare { ty, names } => ty_has(span, ty) || declared_have(span, names.as_slice()),
        Form::Assign { target, value } => expr_has(span, target) || expr_has(span, value),
        Form::Call(e) | Form::Assert(e) | Form::Assume(e) | Form::Minimize(e) => expr_has(span, e),
        Form::Step {
            kind: _,
            target,
            by,
        } => expr_has(span, target) || any_expr_has(span, by),
        Form::If { cond, then, other } => {
            expr_has(span, cond) || (stmt_has(span, then.get()) || any_stmt_has(span, other))
        }
        Form::While { cond, body } => expr_has(span, cond) || stmt_has(span, body.get()),
        Form::For {
            first,
            cond,
            next,
            body,
        } => {
            stmt_has(span, first.get())
                || (expr_has(span, cond)
                    || (stmt_has(span, next.get()) || stmt_has(span, body.get())))
        }
        Form::Return(value) => any_expr_has(span, value),
        Form::Repeat { count, body } => expr_has(span, count) || stmt_has(span, body.get()),
        Form::MinRepeat(body) => stmt_has(span, body.get()),
    }
}

#[tactic(auto, using(sk_types_names::proofs::Places::split_at))]
fn params_have(span: Span, params: &[Param]) -> bool
    ensures { result ≡ list_any (param_has span) params.now }
{
    for param in params {
        if ty_has(span, &param.ty) {
            return true;
        }
    }
    false
}

#[tactic(auto, using(sk_types_names::proofs::Places::split_at))]
fn struct_fields_have(span: Span, fields: &[Field]) -> bool
    ensures { result ≡ list_any (struct_field_has span) fields.now }
{
    for field in fields {
        if ty_has(span, &field.ty) {
            return true;
        }
    }
    false
}

fn fun_has(span: Span, item: &FunItem) -> bool
    ensures { result ≡ fun_has span item.now }
{
    any_ty_has(span, &item.result)
        || (params_have(span, item.params.as_slice()) || stmts_have(span, item.body.as_slice()))
}

fn item_has(span: Span, item: &Item) -> bool
    ensures { result ≡ item_has span item.now }
{
    match item {
        Item::Pragma { word: _, text: _ } => false,
        Item::Struct { name: _, fields } => struct_fields_have(span, fields.as_slice()),
        Item::Const { name: _, value } => expr_has(span, value),
        Item::Fun(item) => fun_has(span, item),
    }
}

/// Whether a span stands in a tree.
#[tactic(auto, using(sk_types_names::proofs::Places::split_at))]
fn tree_has(span: Span, tree: &Tree) -> bool
    ensures { result ≡ tree_has span tree.now }
{
    for item in tree.items.as_slice() {
        if item_has(span, item) {
            return true;
        }
    }
    false
}

/// The same fault, with its place where that stands in the tree, and else with none.
pub fn placed(tree: &Tree, why: Typing) -> Typing
    ensures place { IsPlaced tree.now result }
    ensures fails { (o : Option Prog) → Fails why o → Fails result o }
{
    match why {
        Typing::Memory => Typing::Memory,
        Typing::Fault(TypeFault { rule, span }) => {
            if tree_has(span, tree) {
                Typing::Fault(TypeFault { rule, span })
            } else {
                Typing::Fault(TypeFault {
                    rule,
                    span: NOWHERE,
                })
            }
        }
    }
}
