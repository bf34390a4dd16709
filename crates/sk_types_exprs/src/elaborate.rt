//! Expressions where a type is wanted.
ghost use Rattle.std.specs.Prelude.{◌≡◌, IfOk, MatchResult};
ghost use Rattle.sk_tree.specs.declared.expr.EForm.TheVariants as eform;
ghost use Rattle.sk_prog.specs.declared.expr.PExpr.{PExpr};
ghost use Rattle.sk_types_rules.specs.Scope.{meaning_of};
ghost use Rattle.sk_types_rules.specs.Types.{IsAt};
ghost use Rattle.sk_types_names.specs.Gives.{Gives, Makes, IsMemory};
ghost use Rattle.sk_types_laws.specs.Envs.{AreDistinct};
ghost use Rattle.sk_types_names.specs.Envs.{top_seen, context_of, IsEnv};
ghost use Rattle.sk_types_laws.specs.Elaborate.{string_at, strings_at, argument_at, arguments_at, settings_at, callee_meant, called, all_at};
ghost use Rattle.sk_types_exprs.specs.OwnFaults.{Finds, is_faulty, form_faulty, all_faulty, some_faulty, judged};
ghost use Rattle.sk_types_laws.specs.Parts.{item_part, argument_part, form_part, part, ats, items, arguments, settings};

use crate::constant::constant_fault;
use crate::parts::{firm_any, member_found, refusal, unfit, unfit_width, unindexed, variable};
use sk_base::{Boxed, List, Name, Span, at as item_at};
use sk_prog::{PEForm, PExpr, PField, ParamDef, Ty};
use sk_tree::{EForm, Expr, Mark, NewField};
use sk_types_laws::{Called, Meant, Rule, Typing};
use sk_types_names::{
    BIT, Env, INT, Numbers, Scope, StructTable, are_distinct, binary_wants, boxed, cut,
    element_wanted, fault, field_found, firm, hole_at, indexed, is_harness, may_keep, may_pass,
    named_at, null_at, number_at, pattern_at, reference_meant, reference_to, struct_meant, typed,
    unary_wants,
};
use sk_types_rules::{Own, operator_of, unary_of};

/// An expression at a type that its place wants.
#[cycle(typing)]
pub fn at(env: &Env, scope: &Scope, ty: Ty, e: &Expr) -> Result<PExpr, Typing>
    requires { IsEnv env.now }
    ensures { Gives result ((part (context_of env.now) scope.now e.now).at ty) }
{
    let p = form_at(env, scope, e.span, ty, &e.form)?;
    Ok(p)
}

#[cycle(typing)]
fn part(env: &Env, scope: &Scope, ty: Ty, e: &Expr) -> Result<Boxed<PExpr>, Typing>
    requires { IsEnv env.now }
    ensures { Gives result ((part (context_of env.now) scope.now e.now).at ty) }
{
    let p = at(env, scope, ty, e)?;
    let p = boxed(env.alloc, p)?;
    Ok(p)
}

/// Expressions at one type.
#[cycle(typing)]
#[tactic(auto, using(sk_types_names::proofs::Follows::steps))]
fn all(env: &Env, scope: &Scope, ty: Ty, es: &[Expr]) -> Result<List<PExpr>, Typing>
    requires { IsEnv env.now }
    ensures { Gives result (all_at ty (ats (context_of env.now) scope.now es.now)) }
{
    let mut made = List::new(env.alloc);
    for e in es {
        let p = at(env, scope, ty, e)?;
        made.push(p)?;
    }
    Ok(made)
}

/// A string of a pattern, where it is kept.
#[cycle(typing)]
fn string(env: &Env, scope: &Scope, ty: Ty, e: &Expr) -> Result<Option<PExpr>, Typing>
    requires { IsEnv env.now }
    ensures { Makes result (string_at ty (item_part (part (context_of env.now) scope.now e.now))) }
{
    if !may_keep(env.own(scope, e), ty) {
        return Ok(None);
    }
    match at(env, scope, ty, e) {
        Ok(p) => Ok(Some(p)),
        Err(Typing::Fault(_)) => Ok(None),
        Err(Typing::Memory) => Err(Typing::Memory),
    }
}

#[cycle(typing)]
#[tactic(auto, using(sk_types_names::proofs::Follows::kept))]
fn strings(env: &Env, scope: &Scope, ty: Ty, es: &[Expr]) -> Result<List<PExpr>, Typing>
    requires { IsEnv env.now }
    ensures { Makes result (strings_at ty (items (context_of env.now) scope.now es.now)) }
{
    let mut kept = List::new(env.alloc);
    for e in es {
        if let Some(p) = string(env, scope, ty, e)? {
            kept.push(p)?;
        }
    }
    Ok(kept)
}

/// An argument, at the type of its parameter.
#[cycle(typing)]
fn argument(env: &Env, scope: &Scope, param: &ParamDef, e: &Expr) -> Result<PExpr, Typing>
    requires { IsEnv env.now }
    ensures { Gives result (argument_at param.now (argument_part (part (context_of env.now) scope.now e.now))) }
{
    let named = variable(env, scope, &e.form);
    if !may_pass(param, named) {
        let why = unfit(named, e.span);
        return Err(own_fault(env, scope, e).unwrap_or(why));
    }
    let p = at(env, scope, param.ty, e)?;
    Ok(p)
}

#[cycle(typing)]
#[tactic(auto, using(crate::proofs::PartLaws::all_arguments))]
fn arguments(
    env: &Env,
    scope: &Scope,
    span: Span,
    params: &[ParamDef],
    es: &[Expr],
) -> Result<List<PExpr>, Typing>
    requires { IsEnv env.now }
    ensures { Gives result (arguments_at params.now (arguments (context_of env.now) scope.now es.now)) }
{
    let mut made = List::new(env.alloc);
    for (i, e) in es.iter().enumerate() {
        let Some(param) = item_at(params, i) else {
            return Err(fault(Rule::Mismatch, span));
        };
        let p = argument(env, scope, param, e)?;
        made.push(p)?;
    }
    if es.len() < params.len() {
        return Err(fault(Rule::Mismatch, span));
    }
    Ok(made)
}

#[cycle(typing)]
#[tactic(auto, using(sk_types_names::proofs::Follows::steps))]
fn settings(
    env: &Env,
    scope: &Scope,
    span: Span,
    def: &StructTable,
    fields: &[NewField],
) -> Result<List<PField>, Typing>
    requires { IsEnv env.now }
    ensures { Gives result (settings_at def.now (settings (context_of env.now) scope.now fields.now)) }
{
    let mut made = List::new(env.alloc);
    for field in fields {
        let found = field_found(def, &field.name, span)?;
        let value = at(env, scope, found.ty, &field.value)?;
        made.push(PField {
            field: found.field,
            value,
        })?;
    }
    Ok(made)
}

/// The fields that stand before one that is set again.
#[cycle(typing)]
fn settings_before_twice(
    env: &Env,
    scope: &Scope,
    span: Span,
    def: &StructTable,
    fields: &[NewField],
) -> Result<(), Typing>
    requires { IsEnv env.now }
{
    let mut set = Numbers::new(env.alloc);
    for (i, field) in fields.iter().enumerate() {
        if set.get(&field.name).is_some() {
            return Ok(());
        }
        set.put(&field.name, i)?;
        let found = field_found(def, &field.name, span)?;
        at(env, scope, found.ty, &field.value)?;
    }
    Ok(())
}

/// What is wrong with fields of which one is set twice: what is found before it is set again, else that.
#[cycle(typing)]
fn twice_fault(
    env: &Env,
    scope: &Scope,
    span: Span,
    def: &StructTable,
    fields: &[NewField],
) -> Typing
    requires { IsEnv env.now }
{
    match settings_before_twice(env, scope, span, def, fields) {
        Err(why) => why,
        Ok(()) => fault(Rule::Twice, span),
    }
}

/// A call as it stands, with the type of its result.
#[cycle(typing)]
#[tactic(auto, using(sk_types_names::proofs::Follows::get_signature))]
pub fn called(
    env: &Env,
    scope: &Scope,
    span: Span,
    name: &Name,
    args: &[Expr],
) -> Result<Called, Typing>
    requires { IsEnv env.now }
    ensures { Gives result (called (callee_meant (top_seen env.now.top.now) (meaning_of (top_seen env.now.top.now) scope.now name.now)) (arguments (context_of env.now) scope.now args.now)) }
{
    let Meant::Function(f) = env.meaning(scope, name) else {
        return Err(fault(Rule::UnknownName, span));
    };
    let Some(heading) = item_at(env.top.funs.as_slice(), f.index as usize) else {
        return Err(fault(Rule::UnknownName, span));
    };
    if is_harness(heading.kind) {
        return Err(fault(Rule::BadSignature, span));
    }
    let args = arguments(env, scope, span, heading.params.as_slice(), args)?;
    Ok(Called {
        result: heading.result,
        form: PEForm::Call { f, args },
    })
}

#[cycle(typing)]
fn made_new(
    env: &Env,
    scope: &Scope,
    span: Span,
    name: &Name,
    fields: &[NewField],
    ty: Ty,
) -> Result<PExpr, Typing>
    requires { IsEnv env.now }
    ensures { Gives result ((form_part (context_of env.now) scope.now (eform.New name.now fields.now)).at span ty) }
{
    let Some(s) = struct_meant(env.meaning(scope, name)) else {
        return Err(fault(Rule::UnknownName, span));
    };
    let Some(def) = item_at(env.top.structs.as_slice(), s.index as usize) else {
        return Err(fault(Rule::UnknownName, span));
    };
    let distinct = are_distinct(env.alloc, fields)?;
    if !distinct {
        return Err(twice_fault(env, scope, span, def, fields));
    }
    let fields = settings(env, scope, span, def, fields)?;
    let form = PEForm::New { s, fields };
    let e = firm(env.alloc, reference_to(s), form, span, ty)?;
    Ok(e)
}

#[cycle(typing)]
fn member(
    env: &Env,
    scope: &Scope,
    span: Span,
    base: &Expr,
    name: &Name,
    ty: Ty,
) -> Result<PExpr, Typing>
    requires { IsEnv env.now }
    ensures { Gives result ((form_part (context_of env.now) scope.now (eform.Member base.now name.now)).at span ty) }
{
    let Some(s) = reference_meant(env.own(scope, base)) else {
        let why = fault(Rule::Mismatch, span);
        return Err(own_fault(env, scope, base).unwrap_or(why));
    };
    let found = match member_found(env, s, name, span) {
        Ok(found) => found,
        Err(Typing::Memory) => return Err(Typing::Memory),
        Err(why) => return Err(own_fault(env, scope, base).unwrap_or(why)),
    };
    let field = found.field;
    let base = part(env, scope, reference_to(s), base)?;
    let form = PEForm::Member { base, s, field };
    let e = firm(env.alloc, found.ty, form, span, ty)?;
    Ok(e)
}

/// What is wrong with braces that do not make what is wanted: what is found in the elements that it has room for, else
/// that.
#[cycle(typing)]
fn braces_fault(env: &Env, scope: &Scope, span: Span, es: &[Expr], ty: Ty) -> Typing
    requires { IsEnv env.now }
{
    let why = fault(Rule::Mismatch, span);
    for (i, e) in es.iter().enumerate() {
        let Some(element) = element_wanted(ty, i + 1) else {
            return why;
        };
        if let Err(found) = at(env, scope, element, e) {
            return found;
        }
    }
    why
}

#[cycle(typing)]
#[tactic(auto, using(sk_types_names::proofs::Follows::length_map, crate::proofs::PartLaws::fails_nothing))]
fn braces(env: &Env, scope: &Scope, span: Span, es: &[Expr], ty: Ty) -> Result<PExpr, Typing>
    requires { IsEnv env.now }
    ensures { Gives result ((form_part (context_of env.now) scope.now (eform.Braces es.now)).at span ty) }
{
    let Some(element) = element_wanted(ty, es.len()) else {
        return Err(braces_fault(env, scope, span, es, ty));
    };
    let es = all(env, scope, element, es)?;
    Ok(typed(span, ty, PEForm::Braces(es)))
}

/// A fault of an expression of which no type is wanted, where it has one there.
#[cycle(typing)]
pub fn own_fault(env: &Env, scope: &Scope, e: &Expr) -> Option<Typing>
    requires { IsEnv env.now }
    ensures { Finds result (is_faulty (context_of env.now) scope.now e.now) }
{
    match env.own(scope, e) {
        Own::Firm(ty) => refusal(at(env, scope, ty, e)),
        Own::Wrong => Some(wrong_fault(env, scope, e)),
        Own::Loose => loose_fault(env, scope, e.span, &e.form),
    }
}

/// What is wrong with an expression that is none of the language: the first fault of its parts, else that.
#[cycle(typing)]
fn wrong_fault(env: &Env, scope: &Scope, e: &Expr) -> Typing
    requires { IsEnv env.now }
{
    let found = match &e.form {
        EForm::Paren(of) => own_fault(env, scope, of.get()),
        EForm::Cond { cond, then, other } => {
            let cond = refusal(at(env, scope, BIT, cond.get()));
            let then = own_fault(env, scope, then.get());
            let other = own_fault(env, scope, other.get());
            cond.or(then).or(other)
        }
        _ => refusal(at(env, scope, INT, e)),
    };
    found.unwrap_or(fault(Rule::Mismatch, e.span))
}

/// A fault of a form that takes the type of its place, where no type is wanted.
#[cycle(typing)]
fn loose_fault(env: &Env, scope: &Scope, span: Span, form: &EForm) -> Option<Typing>
    requires { IsEnv env.now }
    ensures { Finds result (form_faulty (context_of env.now) scope.now form.now) }
{
    match form {
        EForm::Paren(of) => own_fault(env, scope, of.get()),
        EForm::Cond { cond, then, other } => {
            let cond = refusal(at(env, scope, BIT, cond.get()));
            let then = own_fault(env, scope, then.get());
            let other = own_fault(env, scope, other.get());
            cond.or(then).or(other)
        }
        EForm::Hole(width) => unfit_width(&env.bounds, *width, span),
        EForm::Pattern {
            pattern: _,
            strings: es,
        } => pattern_fault(env, scope, span, es.as_slice()),
        EForm::Braces(es) => first_fault(env, scope, es.as_slice()),
        EForm::Unary { op: _, of } => own_fault(env, scope, of.get()),
        EForm::Binary { op: _, left, right } => {
            let in_left = own_fault(env, scope, left.get());
            let in_right = own_fault(env, scope, right.get());
            in_left.or(in_right)
        }
        _ => None,
    }
}

/// That no string of a pattern is kept at any type, where each has a fault by itself.
#[cycle(typing)]
fn pattern_fault(env: &Env, scope: &Scope, span: Span, es: &[Expr]) -> Option<Typing>
    requires { IsEnv env.now }
    ensures { Finds result (all_faulty (judged (context_of env.now) scope.now es.now)) }
{
    for e in es {
        match own_fault(env, scope, e) {
            None => return None,
            Some(Typing::Memory) => return Some(Typing::Memory),
            Some(Typing::Fault(_)) => {}
        }
    }
    Some(fault(Rule::NoAlternative, span))
}

/// The first fault of expressions of which no type is wanted.
#[cycle(typing)]
fn first_fault(env: &Env, scope: &Scope, es: &[Expr]) -> Option<Typing>
    requires { IsEnv env.now }
    ensures { Finds result (some_faulty (judged (context_of env.now) scope.now es.now)) }
{
    for e in es {
        if let Some(found) = own_fault(env, scope, e) {
            return Some(found);
        }
    }
    None
}

/// What is wrong with a slice: what is found in its base, else in what it begins at, else `why`.
#[cycle(typing)]
fn slice_fault(
    env: &Env,
    scope: &Scope,
    in_base: Option<Typing>,
    from: &Expr,
    why: Typing,
) -> Typing
    requires { IsEnv env.now }
{
    let in_from = at(env, scope, INT, from).err();
    in_base.or(in_from).unwrap_or(why)
}

#[cycle(typing)]
fn prefixed(
    env: &Env,
    scope: &Scope,
    span: Span,
    op: Mark,
    of: &Expr,
    ty: Ty,
) -> Result<PExpr, Typing>
    requires { IsEnv env.now }
    ensures { Gives result ((form_part (context_of env.now) scope.now (eform.Unary op of.now)).at span ty) }
{
    let why = fault(Rule::Mismatch, span);
    let Some(op) = unary_of(op) else {
        return Err(why);
    };
    let Some(wanted) = unary_wants(op, env.own(scope, of), ty) else {
        return Err(own_fault(env, scope, of).unwrap_or(why));
    };
    let of = part(env, scope, wanted, of)?;
    let e = firm(env.alloc, wanted, PEForm::Unary { op, of }, span, ty)?;
    Ok(e)
}

/// A form at a type that its place wants.
#[cycle(typing)]
fn form_at(env: &Env, scope: &Scope, span: Span, ty: Ty, form: &EForm) -> Result<PExpr, Typing>
    requires { IsEnv env.now }
    ensures { Gives result ((form_part (context_of env.now) scope.now form.now).at span ty) }
{
    match form {
        EForm::Number(n) => number_at(env.alloc, &env.bounds, *n, span, ty),
        EForm::True => firm(env.alloc, BIT, PEForm::True, span, ty),
        EForm::False => firm(env.alloc, BIT, PEForm::False, span, ty),
        EForm::Null => null_at(span, ty),
        EForm::Word(name) => named_at(env.alloc, env.meaning(scope, name), name, span, ty),
        EForm::Hole(width) => hole_at(&env.bounds, *width, span, ty),
        EForm::Pattern {
            pattern: _,
            strings: es,
        } => {
            let kept = strings(env, scope, ty, es.as_slice())?;
            pattern_at(kept, span, ty)
        }
        EForm::Paren(of) => {
            let of = part(env, scope, ty, of.get())?;
            Ok(typed(span, ty, PEForm::Paren(of)))
        }
        EForm::Call { name, args } => {
            let Called { result, form } = called(env, scope, span, name, args.as_slice())?;
            firm_any(env.alloc, result, form, span, ty)
        }
        EForm::New { name, fields } => made_new(env, scope, span, name, fields.as_slice(), ty),
        EForm::Braces(es) => braces(env, scope, span, es.as_slice(), ty),
        EForm::Member { base, name } => member(env, scope, span, base.get(), name, ty),
        EForm::Index { base, index } => {
            let Some(view) = indexed(env.own(scope, base.get())) else {
                let why = fault(Rule::Mismatch, span);
                return Err(own_fault(env, scope, base.get()).unwrap_or(why));
            };
            let base = part(env, scope, view.whole, base.get())?;
            let index = part(env, scope, INT, index.get())?;
            let form = PEForm::Index { base, index };
            firm(env.alloc, view.part, form, span, ty)
        }
        EForm::Slice { base, from, length } => {
            let own = env.own(scope, base.get());
            let Some(count) = env.constant_number(scope, length.get()) else {
                let in_base = own_fault(env, scope, base.get()).or(unindexed(own, span));
                let why = constant_fault(env, scope, length.get());
                return Err(slice_fault(env, scope, in_base, from.get(), why));
            };
            let Some(view) = cut(own, count) else {
                let in_base = own_fault(env, scope, base.get()).or(unindexed(own, span));
                let why = fault(Rule::LengthRange, length.get().span);
                return Err(slice_fault(env, scope, in_base, from.get(), why));
            };
            let base = part(env, scope, view.whole, base.get())?;
            let from = part(env, scope, INT, from.get())?;
            let form = PEForm::Slice {
                base,
                from,
                length: count,
            };
            firm(env.alloc, view.part, form, span, ty)
        }
        EForm::Unary { op, of } => prefixed(env, scope, span, *op, of.get(), ty),
        EForm::Binary { op, left, right } => {
            let why = fault(Rule::Mismatch, span);
            let Some(op) = operator_of(*op) else {
                return Err(why);
            };
            let left_own = env.own(scope, left.get());
            let right_own = env.own(scope, right.get());
            let Some(wants) = binary_wants(op, left_own, right_own, ty) else {
                let in_left = own_fault(env, scope, left.get());
                let in_right = own_fault(env, scope, right.get());
                return Err(in_left.or(in_right).unwrap_or(why));
            };
            let left = part(env, scope, wants.left, left.get())?;
            let right = part(env, scope, wants.right, right.get())?;
            let form = PEForm::Binary { op, left, right };
            firm(env.alloc, wants.result, form, span, ty)
        }
        EForm::Cond { cond, then, other } => {
            let cond = part(env, scope, BIT, cond.get())?;
            let then = part(env, scope, ty, then.get())?;
            let other = part(env, scope, ty, other.get())?;
            Ok(typed(span, ty, PEForm::Cond { cond, then, other }))
        }
    }
}

/// What an expression means where a type is wanted: that and nothing else, and a fault exactly where it means
/// nothing there.
pub fn meant_at(env: &Env, scope: &Scope, ty: Ty, e: &Expr) -> Result<PExpr, Typing>
    requires env { IsEnv env.now }
    requires distinct { AreDistinct (top_seen env.now.top.now) }
    ensures found { IfOk result (λ p. IsAt (context_of env.now) scope.now ty p e.now) }
    ensures only { (p : PExpr) → IsAt (context_of env.now) scope.now ty p e.now → MatchResult result (λ q. q ≡ p) IsMemory }
{
    let typed = at(env, scope, ty, e)?;
    Ok(typed)
}
