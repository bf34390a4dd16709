//! Statements that hold no statements.
ghost use Rattle.std.specs.Prelude.{◌≡◌, ◌++◌, [], ◌∷◌, ◌≤◌, length, MatchResult, Ok, Err, Some, IsTrue, map};
ghost use Rattle.std.specs.List.{list_any};
ghost use Rattle.sk_types_rules.specs.Rules.{only_if, is_length, is_grid};
ghost use Rattle.sk_prog.specs.declared.ty.Ty.TheVariants as ty;
ghost use Rattle.sk_types_rules.specs.Constants.{constant_number};
ghost use Rattle.sk_types_rules.specs.Sorts.{base_elem, with_lengths, written_type};
ghost use Rattle.sk_types_rules.specs.Types.{is_declaration, may_reorder};
ghost use Rattle.sk_types_laws.specs.Making.{any_value_at, call_of, count_at, declare, declare_one, makes, returned};
ghost use Rattle.sk_types_names.specs.Gives.{Gives, Makes};
ghost use Rattle.sk_types_names.specs.Envs.{context_of, IsEnv};
ghost use Rattle.sk_types_names.specs.Leaves.{Enters, Leaves};
ghost use Rattle.sk_types_stmts.specs.Statements.{counted, assigned};

use crate::target::{target_at, value_at};
use sk_base::{List, Name, Span};
use sk_prog::{Elem, PEForm, PExpr, PForm, PStmt, Ty};
use sk_tree::{Base, Declared, EForm, Expr, Form, Stmt, TyTree};
use sk_types_exprs::{at, called, constant_fault};
use sk_types_laws::{Called, Rule, Typing};
use sk_types_names::{Env, INT, Scope, copied, fault, numbered, struct_meant, typed};
use sk_types_rules::{Variable, is_taken};
use std::alloc::Global;

/// A held value beside one just made, or the error of its making. What is held is dropped here alone, so that the caller's
/// proof has no drop of a tree at the exit.
pub fn beside<A: Drop, B>(held: A, made: Result<B, Typing>) -> Result<(A, B), Typing>
    ensures { MatchResult made (λ b. result ≡ Ok (held, b)) (λ e. result ≡ Err e) }
{
    match made {
        Ok(b) => Ok((held, b)),
        Err(e) => Err(e),
    }
}

/// One more variable.
pub fn enter(alloc: Global, scope: &mut Scope, name: &Name, ty: Ty) -> Result<(), Typing>
    ensures { Enters result scope.new (scope.old ++ record { name = name.now; ty = ty } ∷ []) }
{
    let name = copied(alloc, name)?;
    scope.enter(Variable { name, ty })?;
    Ok(())
}

fn is_length(n: u32) -> bool
    ensures value { result ≡ is_length n }
    ensures small { IsTrue result → n ≤ 64 }
{
    1 <= n && n <= 64
}

fn is_grid(n: u32, m: u32) -> bool
    ensures { result ≡ is_grid n m }
{
    if !is_length(n) || !is_length(m) {
        return false;
    }
    n * m <= 256
}

/// A body as the only copy of a repeat.
pub fn alone(alloc: Global, stmt: PStmt) -> Result<List<PStmt>, Typing>
    ensures { Gives result (Some (stmt ∷ [])) }
{
    let mut copies = List::new(alloc);
    copies.push(stmt)?;
    Ok(copies)
}

fn is_declaration(stmt: &PStmt) -> bool
    ensures { result ≡ is_declaration stmt.now }
{
    match &stmt.form {
        PForm::Declare {
            slot: _,
            name: _,
            ty: _,
            value: _,
        } => true,
        _ => false,
    }
}

#[tactic(auto, using(sk_types_names::proofs::Places::split_at))]
fn has_declaration(stmts: &[PStmt]) -> bool
    ensures { result ≡ list_any is_declaration stmts.now }
{
    for stmt in stmts {
        if is_declaration(stmt) {
            return true;
        }
    }
    false
}

/// Whether these statements may stand in the block of a `reorder`.
pub fn may_reorder(stmts: &[PStmt]) -> bool
    ensures { result ≡ may_reorder stmts.now }
{
    stmts.len() <= 6 && !has_declaration(stmts)
}

fn base_elem(env: &Env, scope: &Scope, base: &Base) -> Option<Elem>
    requires { IsEnv env.now }
    ensures { result ≡ base_elem (context_of env.now) scope.now base.now }
{
    match base {
        Base::Int => Some(Elem::Int),
        Base::Bit => Some(Elem::Bit),
        Base::Named(name) => {
            let s = struct_meant(env.meaning(scope, name))?;
            Some(Elem::Reference(s))
        }
    }
}

fn array(elem: Elem, n: u32) -> Option<Ty>
    ensures { result ≡ only_if (is_length n) (ty.Array elem n) }
{
    if is_length(n) {
        Some(Ty::Array(elem, n))
    } else {
        None
    }
}

fn grid(elem: Elem, n: u32, m: u32) -> Option<Ty>
    ensures { result ≡ only_if (is_grid n m) (ty.Grid elem n m) }
{
    if is_grid(n, m) {
        Some(Ty::Grid(elem, n, m))
    } else {
        None
    }
}

fn with_length(env: &Env, scope: &Scope, elem: Elem, length: Option<u32>) -> Option<Ty>
    ensures { result ≡ with_lengths (context_of env.now) scope.now elem (length ∷ []) }
{
    array(elem, length?)
}

fn with_both(
    env: &Env,
    scope: &Scope,
    elem: Elem,
    first: Option<u32>,
    second: Option<u32>,
) -> Option<Ty>
    ensures { result ≡ with_lengths (context_of env.now) scope.now elem (first ∷ second ∷ []) }
{
    grid(elem, first?, second?)
}

#[tactic(auto, using(crate::proofs::TypeLaws::too_many))]
fn with_lengths(env: &Env, scope: &Scope, elem: Elem, lengths: &[Option<u32>]) -> Option<Ty>
    ensures { result ≡ with_lengths (context_of env.now) scope.now elem lengths.now }
{
    if 2 < lengths.len() {
        return None;
    }
    match lengths {
        [] => Some(Ty::One(elem)),
        [first] => with_length(env, scope, elem, *first),
        [first, second] => with_both(env, scope, elem, *first, *second),
        _ => None,
    }
}

/// The value of a declaration, where it has one.
fn any_value_at(
    env: &Env,
    scope: &Scope,
    ty: Ty,
    value: &Option<Expr>,
) -> Result<Option<PExpr>, Typing>
    requires { IsEnv env.now }
    ensures { Gives result (any_value_at (context_of env.now) scope.now ty value.now) }
{
    match value {
        None => Ok(None),
        Some(e) => {
            let p = value_at(env, scope, ty, e)?;
            Ok(Some(p))
        }
    }
}

/// A call as it stands, which needs no result.
#[tactic(auto, unfolding(sk_types_laws::specs::Making::call_of))]
pub fn call_of(env: &Env, scope: &Scope, e: &Expr) -> Result<PExpr, Typing>
    requires { IsEnv env.now }
    ensures { Gives result (call_of (context_of env.now) scope.now e.now) }
{
    match &e.form {
        EForm::Call { name, args } => {
            let Called { result, form } = called(env, scope, e.span, name, args.as_slice())?;
            Ok(PExpr {
                span: e.span,
                ty: result,
                form,
            })
        }
        _ => Err(fault(Rule::Mismatch, e.span)),
    }
}

fn constant_count(env: &Env, scope: &Scope, e: &Expr) -> Result<PExpr, Typing>
    requires { IsEnv env.now }
    ensures { Gives result (counted e.now.span (constant_number (context_of env.now) scope.now e.now)) }
{
    match env.constant_number(scope, e) {
        None => Err(constant_fault(env, scope, e)),
        Some(n) => {
            if n <= 64 {
                Ok(typed(e.span, INT, PEForm::Number(n)))
            } else {
                Err(fault(Rule::LengthRange, e.span))
            }
        }
    }
}

/// The count of a repeat: a hole, or a constant, which becomes its number.
#[tactic(auto, unfolding(sk_types_laws::specs::Making::count_at))]
pub fn count_at(env: &Env, scope: &Scope, e: &Expr) -> Result<PExpr, Typing>
    requires { IsEnv env.now }
    ensures { Gives result (count_at (context_of env.now) scope.now e.now) }
{
    match &e.form {
        EForm::Hole(_) => at(env, scope, INT, e),
        _ => constant_count(env, scope, e),
    }
}

#[tactic(auto, using(sk_types_names::proofs::Places::split_at))]
fn lengths(env: &Env, scope: &Scope, lengths: &[Expr]) -> Result<List<Option<u32>>, Typing>
    requires { IsEnv env.now }
    ensures { Makes result (map (constant_number (context_of env.now) scope.now) lengths.now) }
{
    let mut numbers = List::new(env.alloc);
    for length in lengths {
        numbers.push(env.constant_number(scope, length))?;
    }
    Ok(numbers)
}

/// Why a length is none, where it is none: it is no constant, or out of range.
fn length_fault(env: &Env, scope: &Scope, length: &Expr) -> Option<Typing>
    requires { IsEnv env.now }
{
    match env.constant_number(scope, length) {
        None => Some(constant_fault(env, scope, length)),
        Some(n) => {
            if is_length(n) {
                None
            } else {
                Some(fault(Rule::LengthRange, length.span))
            }
        }
    }
}

/// Why no type has these lengths: the first that is none, or else that they are too much together.
fn lengths_fault(env: &Env, scope: &Scope, span: Span, lengths: &[Expr]) -> Typing
    requires { IsEnv env.now }
{
    let mut place = span;
    for length in lengths {
        if let Some(why) = length_fault(env, scope, length) {
            return why;
        }
        place = length.span;
    }
    fault(Rule::LengthRange, place)
}

/// The type that is written. A name that means no struct has the span that is given.
pub fn written(env: &Env, scope: &Scope, span: Span, ty: &TyTree) -> Result<Ty, Typing>
    requires { IsEnv env.now }
    ensures { Gives result (written_type (context_of env.now) scope.now ty.now) }
{
    let Some(elem) = base_elem(env, scope, &ty.base) else {
        return Err(fault(Rule::UnknownName, span));
    };
    let lengths = lengths(env, scope, ty.lengths.as_slice())?;
    match with_lengths(env, scope, elem, lengths.as_slice()) {
        None => Err(lengths_fault(env, scope, span, ty.lengths.as_slice())),
        Some(ty) => Ok(ty),
    }
}

/// A further variable, and its slot and name.
fn place(env: &Env, scope: &mut Scope, name: &Name, ty: Ty) -> Result<(u32, Name), Typing>
    ensures { Leaves result scope.new (makes (length scope.old, name.now) (scope.old ++ record { name = name.now; ty = ty } ∷ [])) }
{
    let slot = numbered(scope.len())?;
    let held = copied(env.alloc, name)?;
    enter(env.alloc, scope, name, ty)?;
    Ok((slot, held))
}

/// A declaration in the block whose variables begin at this slot.
fn declare(
    env: &Env,
    scope: &mut Scope,
    from: usize,
    span: Span,
    ty: &TyTree,
    declared: &Declared,
) -> Result<PForm, Typing>
    requires { IsEnv env.now }
    ensures { Leaves result scope.new (declare (context_of env.now) from scope.old ty.now declared.now) }
{
    let ty = written(env, scope, span, ty)?;
    if is_taken(from, scope.lookup(&declared.name)) {
        return Err(fault(Rule::Twice, span));
    }
    let value = any_value_at(env, scope, ty, &declared.value)?;
    place(env, scope, &declared.name, ty).map(|(slot, name)| PForm::Declare {
        slot,
        name,
        ty,
        value,
    })
}

/// The declaration of a plain tree, which has one name.
pub fn declare_one(
    env: &Env,
    scope: &mut Scope,
    from: usize,
    span: Span,
    ty: &TyTree,
    names: &[Declared],
) -> Result<PForm, Typing>
    requires { IsEnv env.now }
    ensures { Leaves result scope.new (declare_one (context_of env.now) from scope.old ty.now names.now) }
{
    match names {
        [declared] => declare(env, scope, from, span, ty, declared),
        _ => Err(fault(Rule::Twice, span)),
    }
}

/// An assignment, whose value is of its target's type.
pub fn assign(env: &Env, scope: &Scope, target: &Expr, value: &Expr) -> Result<PForm, Typing>
    requires { IsEnv env.now }
    ensures { Leaves result scope.now (assigned (context_of env.now) scope.now target.now value.now) }
{
    let target = target_at(env, scope, target)?;
    match target.ty {
        None => {
            let span = target.span;
            drop(target);
            Err(fault(Rule::NotTarget, span))
        }
        Some(ty) => value_at(env, scope, ty, value).map(|value| PForm::Assign { target, value }),
    }
}

/// The first fault of an assignment that stands before the first statement of its block in the text, as the step of a
/// `for` does.
fn next_fault(env: &Env, scope: &Scope, stmts: &[Stmt]) -> Option<Typing>
    requires { IsEnv env.now }
{
    let first = stmts.first()?;
    for stmt in stmts {
        if stmt.span.from < first.span.from {
            if let Form::Assign { target, value } = &stmt.form {
                let found = assign(env, scope, target, value).err();
                if found.is_some() {
                    return found;
                }
            }
        }
    }
    None
}

/// What is wrong with the body of a loop in which a fault was found, where so many variables are in scope before it: a
/// fault of what stands before it in the text, else that.
pub fn body_fault(env: &Env, scope: &mut Scope, count: usize, body: &Stmt, why: Typing) -> Typing
    requires { IsEnv env.now }
{
    scope.leave(count);
    match &body.form {
        Form::Block(stmts) => next_fault(env, scope, stmts.as_slice()).unwrap_or(why),
        _ => why,
    }
}

/// A `return` of a function with this result.
pub fn returned(
    env: &Env,
    scope: &Scope,
    returns: Option<Ty>,
    span: Span,
    value: &Option<Expr>,
) -> Result<PForm, Typing>
    requires { IsEnv env.now }
    ensures { Leaves result scope.now (returned (context_of env.now) scope.now returns value.now) }
{
    match (returns, value) {
        (None, None) => Ok(PForm::Return(None)),
        (Some(ty), Some(e)) => {
            let p = value_at(env, scope, ty, e)?;
            Ok(PForm::Return(Some(p)))
        }
        (None, Some(_)) | (Some(_), None) => Err(fault(Rule::Mismatch, span)),
    }
}
