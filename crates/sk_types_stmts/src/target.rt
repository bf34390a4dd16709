//! Values at the types that statements want, and what is assigned to.
ghost use Rattle.std.specs.Prelude.{◌≡◌};
ghost use Rattle.sk_types_rules.specs.Sorts.{sort, target_type, first_target, kept_targets};
ghost use Rattle.sk_types_laws.specs.Elaborate.{all_at};
ghost use Rattle.sk_types_laws.specs.Parts.{part, ats};
ghost use Rattle.sk_types_laws.specs.Making.{value_at, pattern_target, target_at};
ghost use Rattle.sk_types_names.specs.Gives.{Gives, Makes};
ghost use Rattle.sk_types_names.specs.Envs.{context_of, IsEnv};
ghost use Rattle.sk_types_stmts.specs.Targets.{form_target_type, element_target};

use sk_base::{List, Span};
use sk_prog::{PEForm, PExpr, Ty};
use sk_tree::{EForm, Expr};
use sk_types_exprs::{at, own_fault, variable};
use sk_types_laws::{Rule, Typing};
use sk_types_names::{Env, INT, Scope, fault, is_type, reference_meant, typed};
use sk_types_rules::{Own, element_of};

/// An expression at a type that its place wants.
#[tactic(auto, unfolding(sk_types_laws::specs::Making::value_at))]
pub fn value_at(env: &Env, scope: &Scope, ty: Ty, e: &Expr) -> Result<PExpr, Typing>
    requires { IsEnv env.now }
    ensures { Gives result (value_at (context_of env.now) scope.now ty e.now) }
{
    let p = at(env, scope, ty, e)?;
    Ok(p)
}

/// An expression at a type, where it stands there.
fn standing(env: &Env, scope: &Scope, ty: Ty, e: &Expr) -> Result<Option<PExpr>, Typing>
    requires { IsEnv env.now }
    ensures { Makes result ((part (context_of env.now) scope.now e.now).at ty) }
{
    match at(env, scope, ty, e) {
        Ok(p) => Ok(Some(p)),
        Err(Typing::Fault(_)) => Ok(None),
        Err(Typing::Memory) => Err(Typing::Memory),
    }
}

/// Whether an expression stands at a type.
fn stands(env: &Env, scope: &Scope, ty: Ty, e: &Expr) -> Result<bool, Typing>
    requires { IsEnv env.now }
    ensures { Makes result ((sort (context_of env.now) scope.now e.now).at ty) }
{
    let made = standing(env, scope, ty, e)?;
    let stands = made.is_some();
    drop(made);
    Ok(stands)
}

/// The type of an element of a target, where its index stands as an integer.
fn element_type(
    env: &Env,
    scope: &Scope,
    base: Option<Ty>,
    index: &Expr,
) -> Result<Option<Ty>, Typing>
    requires { IsEnv env.now }
    ensures { Makes result (element_target (sort (context_of env.now) scope.now index.now) base) }
{
    let Some(ty) = base else {
        return Ok(None);
    };
    if stands(env, scope, INT, index)? {
        Ok(element_of(ty))
    } else {
        Ok(None)
    }
}

/// The type of a target.
#[cycle(target)]
fn target_type(env: &Env, scope: &Scope, e: &Expr) -> Result<Option<Ty>, Typing>
    requires { IsEnv env.now }
    ensures { Makes result (target_type (context_of env.now) scope.now e.now) }
{
    let ty = form_target_type(env, scope, &e.form)?;
    Ok(ty)
}

#[cycle(target)]
fn form_target_type(env: &Env, scope: &Scope, form: &EForm) -> Result<Option<Ty>, Typing>
    requires { IsEnv env.now }
    ensures { Makes result (form_target_type (context_of env.now) scope.now form.now) }
{
    match form {
        EForm::Word(_) => Ok(variable(env, scope, form)),
        EForm::Member { base, name } => match target_type(env, scope, base.get())? {
            None => Ok(None),
            Some(ty) => Ok(env.member_type(reference_meant(Own::Firm(ty)), name)),
        },
        EForm::Index { base, index } => {
            let base = target_type(env, scope, base.get())?;
            let ty = element_type(env, scope, base, index.get())?;
            Ok(ty)
        }
        _ => Ok(None),
    }
}

#[tactic(auto, using(sk_types_names::proofs::Places::split_at))]
fn first_target(env: &Env, scope: &Scope, es: &[Expr]) -> Result<Option<Ty>, Typing>
    requires { IsEnv env.now }
    ensures { Makes result (first_target (context_of env.now) scope.now es.now) }
{
    for e in es {
        let ty = target_type(env, scope, e)?;
        if ty.is_some() {
            return Ok(ty);
        }
    }
    Ok(None)
}

/// The strings of a pattern that are targets of this type.
fn targets(env: &Env, scope: &Scope, ty: Ty, es: &[Expr]) -> Result<List<PExpr>, Typing>
    requires { IsEnv env.now }
    ensures { Gives result (all_at ty (ats (context_of env.now) scope.now (kept_targets (context_of env.now) scope.now ty es.now))) }
{
    let mut made = List::new(env.alloc);
    for e in es {
        if is_type(target_type(env, scope, e)?, ty) {
            let p = at(env, scope, ty, e)?;
            made.push(p)?;
        }
    }
    Ok(made)
}

fn pattern_target(env: &Env, scope: &Scope, span: Span, es: &[Expr]) -> Result<PExpr, Typing>
    requires { IsEnv env.now }
    ensures { Gives result (pattern_target (context_of env.now) scope.now span es.now (first_target (context_of env.now) scope.now es.now)) }
{
    let Some(ty) = first_target(env, scope, es)? else {
        return Err(fault(Rule::NoAlternative, span));
    };
    let targets = targets(env, scope, ty, es)?;
    Ok(typed(span, ty, PEForm::Pattern(targets)))
}

/// What is assigned to: a target, or a pattern of targets.
#[tactic(auto, unfolding(sk_types_laws::specs::Making::target_at))]
pub fn target_at(env: &Env, scope: &Scope, e: &Expr) -> Result<PExpr, Typing>
    requires { IsEnv env.now }
    ensures { Gives result (target_at (context_of env.now) scope.now e.now) }
{
    match target_type(env, scope, e)? {
        Some(ty) => {
            let p = value_at(env, scope, ty, e)?;
            Ok(p)
        }
        None => match &e.form {
            EForm::Pattern {
                pattern: _,
                strings,
            } => pattern_target(env, scope, e.span, strings.as_slice()),
            _ => {
                let why = fault(Rule::NotTarget, e.span);
                Err(own_fault(env, scope, e).unwrap_or(why))
            }
        },
    }
}
