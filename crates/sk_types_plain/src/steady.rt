//! Whether the targets of steps hold no call, hole or pattern: a step evaluates its target twice.
ghost use Rattle.std.specs.Prelude.{◌≡◌, map, option_map};
ghost use Rattle.std.specs.List.{list_all};
ghost use Rattle.sk_types_rules.specs.Plain.{is_yes, any_yes, is_steady, stmt_steps, item_steps, steps_are_targets};
ghost use Rattle.sk_types_plain.specs.Steady.{form_is_steady, field_is_steady, form_has_steps, is_clear};

use sk_base::{Boxed, Span};
use sk_tree::{EForm, Expr, Form, Item, NewField, Stmt, Tree};

#[cycle(steady)]
fn is_steady(e: &Expr) -> bool
    ensures { result ≡ is_steady e.now }
{
    form_is_steady(&e.form)
}

#[cycle(steady)]
#[tactic(auto, using(crate::proofs::Places::split_at))]
fn all_steady(es: &[Expr]) -> bool
    ensures { result ≡ list_all is_yes (map is_steady es.now) }
{
    for e in es {
        if !is_steady(e) {
            return false;
        }
    }
    true
}

#[cycle(steady)]
#[tactic(auto, using(crate::proofs::Places::split_at))]
fn fields_steady(fields: &[NewField]) -> bool
    ensures { result ≡ list_all is_yes (map field_is_steady fields.now) }
{
    for field in fields {
        if !is_steady(&field.value) {
            return false;
        }
    }
    true
}

#[cycle(steady)]
fn form_is_steady(form: &EForm) -> bool
    ensures { result ≡ form_is_steady form.now }
{
    match form {
        EForm::Call { name: _, args: _ }
        | EForm::Hole(_)
        | EForm::Pattern {
            pattern: _,
            strings: _,
        } => false,
        EForm::Number(_) | EForm::True | EForm::False | EForm::Null | EForm::Word(_) => true,
        EForm::Paren(of) => is_steady(of.get()),
        EForm::New { name: _, fields } => fields_steady(fields.as_slice()),
        EForm::Braces(es) => all_steady(es.as_slice()),
        EForm::Member { base, name: _ } => is_steady(base.get()),
        EForm::Index { base, index } => is_steady(base.get()) && is_steady(index.get()),
        EForm::Slice { base, from, length } => {
            is_steady(base.get()) && (is_steady(from.get()) && is_steady(length.get()))
        }
        EForm::Unary { op: _, of } => is_steady(of.get()),
        EForm::Binary { op: _, left, right } => is_steady(left.get()) && is_steady(right.get()),
        EForm::Cond { cond, then, other } => {
            is_steady(cond.get()) && (is_steady(then.get()) && is_steady(other.get()))
        }
    }
}

fn here_unless(is_steady: bool, span: Span) -> Option<Span>
    ensures { is_clear result ≡ is_steady }
{
    if is_steady { None } else { Some(span) }
}

#[cycle(steps)]
fn unsteady(stmt: &Stmt) -> Option<Span>
    ensures { is_clear result ≡ stmt_steps stmt.now }
{
    form_unsteady(&stmt.form)
}

#[cycle(steps)]
#[tactic(auto, using(crate::proofs::Places::split_at))]
fn first_unsteady(stmts: &[Stmt]) -> Option<Span>
    ensures { is_clear result ≡ list_all is_yes (map stmt_steps stmts.now) }
{
    for stmt in stmts {
        if let Some(span) = unsteady(stmt) {
            return Some(span);
        }
    }
    None
}

#[cycle(steps)]
fn any_unsteady(stmt: &Option<Boxed<Stmt>>) -> Option<Span>
    ensures { is_clear result ≡ any_yes (option_map stmt_steps stmt.now) }
{
    match stmt {
        None => None,
        Some(stmt) => unsteady(stmt.get()),
    }
}

#[cycle(steps)]
fn form_unsteady(form: &Form) -> Option<Span>
    ensures { is_clear result ≡ form_has_steps form.now }
{
    match form {
        Form::Step {
            kind: _,
            target,
            by: _,
        } => here_unless(is_steady(target), target.span),
        Form::Block(stmts) | Form::Reorder(stmts) => first_unsteady(stmts.as_slice()),
        Form::If {
            cond: _,
            then,
            other,
        } => match unsteady(then.get()) {
            Some(span) => Some(span),
            None => any_unsteady(other),
        },
        Form::While { cond: _, body } | Form::Repeat { count: _, body } | Form::MinRepeat(body) =>
            unsteady(body.get()),
        Form::For {
            first,
            cond: _,
            next,
            body,
        } => match unsteady(first.get()) {
            Some(span) => Some(span),
            None => match unsteady(next.get()) {
                Some(span) => Some(span),
                None => unsteady(body.get()),
            },
        },
        Form::Empty
        | Form::Declare { ty: _, names: _ }
        | Form::Assign {
            target: _,
            value: _,
        }
        | Form::Call(_)
        | Form::Return(_)
        | Form::Assert(_)
        | Form::Assume(_)
        | Form::Minimize(_) => None,
    }
}

#[tactic(auto, using(crate::proofs::SteadyLaws::all_clear))]
fn item_unsteady(item: &Item) -> Option<Span>
    ensures { is_clear result ≡ item_steps item.now }
{
    match item {
        Item::Fun(item) => first_unsteady(item.body.as_slice()),
        Item::Pragma { word: _, text: _ }
        | Item::Struct { name: _, fields: _ }
        | Item::Const { name: _, value: _ } => None,
    }
}

/// The span of the first target of a step that holds a call, a hole or a pattern. There is none exactly where each step
/// has a target that may be evaluated twice.
#[tactic(auto, using(crate::proofs::Places::split_at))]
pub fn unsteady_step(tree: &Tree) -> Option<Span>
    ensures { is_clear result ≡ steps_are_targets tree.now }
{
    for item in tree.items.as_slice() {
        if let Some(span) = item_unsteady(item) {
            return Some(span);
        }
    }
    None
}
