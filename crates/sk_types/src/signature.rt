//! Signatures and structs: the types of fields, parameters and results, and what functions may be.
ghost use Rattle.std.specs.Prelude.{◌≡◌, not, ◌&&◌};
ghost use Rattle.std.specs.List.{list_any, list_all};
ghost use Rattle.sk_prog.specs.declared.prog.ParamDef.{ParamDef};
ghost use Rattle.sk_types_rules.specs.Rules.{base_of, holds_references, ty_eq};
ghost use Rattle.sk_types_rules.specs.Types.{kind_of, any_references, speaks_of_records, may_be, is_generator, same_bool, same_params, same_result, may_implement};
ghost use Rattle.sk_types_laws.specs.Envs.{signature};
ghost use Rattle.sk_types_laws.specs.Whole.{any_written, fields_of, params_of, struct_of, heading_of};
ghost use Rattle.sk_types_names.specs.Gives.{Gives};
ghost use Rattle.sk_types_names.specs.Leaves.{GivesHeading};
ghost use Rattle.sk_types_names.specs.Envs.{context_of, IsEnv};

use sk_base::{List, Name, Span, at as item_at};
use sk_prog::{Elem, FieldDef, FunKind as PFunKind, ParamDef, Ty};
use sk_tree::{Field, FunItem, FunKind, Param, TyTree};
use sk_types_laws::{Heading, Rule, Typing};
use sk_types_names::{
    Env, Listed, Numbers, Scope, StructTable, are_distinct, copied, fault, is_harness,
};
use sk_types_rules::ty_eq;
use sk_types_stmts::written;

/// Items and names have no span.
pub const NOWHERE: Span = Span { from: 0, to: 0 };

pub fn kind_of(kind: FunKind) -> PFunKind
    ensures { result ≡ kind_of kind }
{
    match kind {
        FunKind::Plain => PFunKind::Plain,
        FunKind::Harness => PFunKind::Harness,
        FunKind::Generator => PFunKind::Generator,
    }
}

fn base_of(ty: Ty) -> Elem
    ensures { result ≡ base_of ty }
{
    match ty {
        Ty::One(elem) => elem,
        Ty::Array(elem, _) => elem,
        Ty::Grid(elem, _, _) => elem,
    }
}

fn holds_references(ty: Ty) -> bool
    ensures { result ≡ holds_references ty }
{
    match base_of(ty) {
        Elem::Reference(_) => true,
        _ => false,
    }
}

fn any_references(ty: Option<Ty>) -> bool
    ensures { result ≡ any_references ty }
{
    match ty {
        None => false,
        Some(ty) => holds_references(ty),
    }
}

#[tactic(auto, using(sk_types_names::proofs::Places::split_at))]
fn some_hold_references(params: &[ParamDef]) -> bool
    ensures { result ≡ list_any (λ (d : ParamDef). holds_references d.ty) params.now }
{
    for param in params {
        if holds_references(param.ty) {
            return true;
        }
    }
    false
}

fn speaks_of_records(params: &[ParamDef], result_ty: Option<Ty>) -> bool
    ensures { result ≡ speaks_of_records params.now result_ty }
{
    some_hold_references(params) || any_references(result_ty)
}

#[tactic(auto, using(sk_types_names::proofs::Places::split_at))]
fn none_by_ref(params: &[ParamDef]) -> bool
    ensures { result ≡ list_all (λ (d : ParamDef). not d.by_ref) params.now }
{
    for param in params {
        if param.by_ref {
            return false;
        }
    }
    true
}

fn may_be(kind: PFunKind, params: &[ParamDef], result_ty: Option<Ty>) -> bool
    ensures { result ≡ may_be kind params.now result_ty }
{
    match kind {
        PFunKind::Harness => none_by_ref(params) && !speaks_of_records(params, result_ty),
        PFunKind::Plain | PFunKind::Generator => true,
    }
}

pub fn is_generator(kind: PFunKind) -> bool
    ensures { result ≡ is_generator kind }
{
    match kind {
        PFunKind::Generator => true,
        _ => false,
    }
}

fn same_param(a: &ParamDef, b: &ParamDef) -> bool
    ensures { result ≡ (ty_eq a.now.ty b.now.ty && same_bool a.now.by_ref b.now.by_ref) }
{
    ty_eq(a.ty, b.ty) && a.by_ref == b.by_ref
}

/// Whether parameters have the same types and the same marks `ref`, in order.
#[tactic(auto, using(crate::proofs::SignatureLaws::rows))]
fn same_params(a: &[ParamDef], b: &[ParamDef]) -> bool
    ensures { result ≡ same_params a.now b.now }
{
    for (i, param) in a.iter().enumerate() {
        let Some(other) = item_at(b, i) else {
            return false;
        };
        if !same_param(param, other) {
            return false;
        }
    }
    if a.len() < b.len() {
        return false;
    }
    true
}

fn same_result(a: Option<Ty>, b: Option<Ty>) -> bool
    ensures { result ≡ same_result a b }
{
    match (a, b) {
        (None, None) => true,
        (Some(a), Some(b)) => ty_eq(a, b),
        _ => false,
    }
}

fn any_written(env: &Env, ty: &Option<TyTree>) -> Result<Option<Ty>, Typing>
    requires { IsEnv env.now }
    ensures { Gives result (any_written (context_of env.now) ty.now) }
{
    match ty {
        None => Ok(None),
        Some(ty) => {
            let scope = Scope::new(env.alloc);
            let ty = written(env, &scope, NOWHERE, ty)?;
            Ok(Some(ty))
        }
    }
}

#[tactic(auto, using(sk_types_names::proofs::Follows::steps))]
fn fields_of(env: &Env, fields: &[Field]) -> Result<Listed<FieldDef>, Typing>
    requires { IsEnv env.now }
    ensures { Gives result (fields_of (context_of env.now) fields.now) }
{
    let scope = Scope::new(env.alloc);
    let mut made = Listed::new(env.alloc);
    for field in fields {
        let ty = written(env, &scope, NOWHERE, &field.ty)?;
        let name = copied(env.alloc, &field.name)?;
        made.push(FieldDef { name, ty })?;
    }
    Ok(made)
}

#[tactic(auto, using(sk_types_names::proofs::Follows::steps))]
fn params_of(env: &Env, params: &[Param]) -> Result<List<ParamDef>, Typing>
    requires { IsEnv env.now }
    ensures { Gives result (params_of (context_of env.now) params.now) }
{
    let scope = Scope::new(env.alloc);
    let mut made = List::new(env.alloc);
    for param in params {
        let ty = written(env, &scope, NOWHERE, &param.ty)?;
        let name = copied(env.alloc, &param.name)?;
        made.push(ParamDef {
            name,
            ty,
            by_ref: param.by_ref,
        })?;
    }
    Ok(made)
}

/// One more name, where these were met before it.
fn meet(met: &mut Numbers, name: &Name) -> Result<(), Typing> {
    if met.get(name).is_some() {
        return Err(fault(Rule::Twice, NOWHERE));
    }
    met.put(name, 0)?;
    Ok(())
}

/// The first fault of fields: one has no type, or the name of an earlier one.
fn fields_judged(env: &Env, fields: &[Field]) -> Result<(), Typing>
    requires { IsEnv env.now }
{
    let scope = Scope::new(env.alloc);
    let mut met = Numbers::new(env.alloc);
    for field in fields {
        written(env, &scope, NOWHERE, &field.ty)?;
        meet(&mut met, &field.name)?;
    }
    Ok(())
}

/// The first fault of a signature: what it gives back or takes may not stand there, or a parameter has the name of an
/// earlier one.
fn signature_judged(env: &Env, item: &FunItem) -> Result<(), Typing>
    requires { IsEnv env.now }
{
    let may_not = fault(Rule::BadSignature, NOWHERE);
    let of_harness = is_harness(kind_of(item.kind));
    let returns = any_written(env, &item.result)?;
    if of_harness && any_references(returns) {
        return Err(may_not);
    }
    let scope = Scope::new(env.alloc);
    let mut met = Numbers::new(env.alloc);
    for param in item.params.as_slice() {
        if of_harness && param.by_ref {
            return Err(may_not);
        }
        let ty = written(env, &scope, NOWHERE, &param.ty)?;
        if of_harness && holds_references(ty) {
            return Err(may_not);
        }
        meet(&mut met, &param.name)?;
    }
    Ok(())
}

/// The types of fields, where all have one.
#[tactic(auto, using(sk_types_exprs::proofs::PartLaws::fails_nothing))]
fn fields_typed(env: &Env, fields: &[Field]) -> Result<Listed<FieldDef>, Typing>
    requires { IsEnv env.now }
    ensures { Gives result (fields_of (context_of env.now) fields.now) }
{
    match fields_of(env, fields) {
        Ok(made) => Ok(made),
        Err(Typing::Memory) => Err(Typing::Memory),
        Err(Typing::Fault(why)) => {
            let why = Typing::Fault(why);
            Err(fields_judged(env, fields).err().unwrap_or(why))
        }
    }
}

/// A struct, with the types of its fields.
pub fn struct_of(env: &Env, name: &Name, fields: &[Field]) -> Result<StructTable, Typing>
    requires { IsEnv env.now }
    ensures { Gives result (struct_of (context_of env.now) name.now fields.now) }
{
    let fields = fields_typed(env, fields)?;
    let distinct = are_distinct(env.alloc, fields.as_slice())?;
    if !distinct {
        return Err(fault(Rule::Twice, NOWHERE));
    }
    let name = copied(env.alloc, name)?;
    Ok(StructTable::new(name, fields))
}

/// What a function is to its callers, where its signature has no fault.
fn heading_typed(env: &Env, item: &FunItem) -> Result<Heading, Typing>
    requires { IsEnv env.now }
    ensures { GivesHeading result (heading_of (context_of env.now) item.now) }
{
    let kind = kind_of(item.kind);
    let returns = any_written(env, &item.result)?;
    let params = params_of(env, item.params.as_slice())?;
    if !may_be(kind, params.as_slice(), returns) {
        return Err(fault(Rule::BadSignature, NOWHERE));
    }
    let distinct = are_distinct(env.alloc, params.as_slice())?;
    if !distinct {
        return Err(fault(Rule::Twice, NOWHERE));
    }
    let name = copied(env.alloc, &item.name)?;
    Ok(Heading {
        name,
        kind,
        result: returns,
        params,
    })
}

/// What a function is to its callers.
pub fn heading_of(env: &Env, item: &FunItem) -> Result<Heading, Typing>
    requires { IsEnv env.now }
    ensures { GivesHeading result (heading_of (context_of env.now) item.now) }
{
    match heading_typed(env, item) {
        Ok(heading) => Ok(heading),
        Err(Typing::Memory) => Err(Typing::Memory),
        Err(Typing::Fault(why)) => {
            let why = Typing::Fault(why);
            Err(signature_judged(env, item).err().unwrap_or(why))
        }
    }
}

/// Whether the first may implement the second.
pub fn may_implement(f: &Heading, g: &Heading) -> bool
    ensures { result ≡ may_implement (signature f.now) (signature g.now) }
{
    !(is_generator(f.kind) || is_generator(g.kind))
        && (same_params(f.params.as_slice(), g.params.as_slice())
            && (same_result(f.result, g.result)
                && !speaks_of_records(g.params.as_slice(), g.result)))
}
