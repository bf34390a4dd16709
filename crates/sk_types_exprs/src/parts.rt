//! What the parts of an expression are typed by, apart from the parts themselves.
ghost use Rattle.std.specs.Prelude.{◌≡◌, Option, Some, not};
ghost use Rattle.std.specs.Option.{is_none};
ghost use Rattle.sk_prog.specs.declared.expr.PExpr.{PExpr};
ghost use Rattle.sk_types_rules.specs.Rules.{width_fits};
ghost use Rattle.sk_types_names.specs.Gives.{Gives};
ghost use Rattle.sk_types_names.specs.Envs.{top_seen, context_of};
ghost use Rattle.sk_types_laws.specs.Elaborate.{firm_any, member_found};
ghost use Rattle.sk_types_laws.specs.Parts.{form_part};
ghost use Rattle.sk_types_exprs.specs.OwnFaults.{Finds};

use sk_base::{Bounds, Name, Span, at as item_at};
use sk_prog::{PEForm, PExpr, StructId, Ty};
use sk_tree::EForm;
use sk_types_laws::{Found, Rule, Typing};
use sk_types_names::{Env, INT, Scope, fault, field_found, firm, hole_at, indexed};
use sk_types_rules::Own;
use std::alloc::Global;

/// The type of the variable that an expression names, where it is a name of one.
pub fn variable(env: &Env, scope: &Scope, form: &EForm) -> Option<Ty>
    ensures { result ≡ (form_part (context_of env.now) scope.now form.now).variable }
{
    match form {
        EForm::Word(name) => match scope.lookup(name) {
            None => None,
            Some(place) => Some(place.ty),
        },
        _ => None,
    }
}

/// A form where a type is wanted, which stands nowhere where it has no type of its own.
pub fn firm_any(
    alloc: Global,
    own: Option<Ty>,
    form: PEForm,
    span: Span,
    ty: Ty,
) -> Result<PExpr, Typing>
    ensures { Gives result (firm_any own (Some form) span ty) }
{
    match own {
        None => Err(fault(Rule::Mismatch, span)),
        Some(own) => {
            let e = firm(alloc, own, form, span, ty)?;
            Ok(e)
        }
    }
}

/// The field of the records of a struct that has this name.
pub fn member_found(env: &Env, s: StructId, name: &Name, span: Span) -> Result<Found, Typing>
    ensures { Gives result (member_found (top_seen env.now.top.now) s name.now) }
{
    let Some(def) = item_at(env.top.structs.as_slice(), s.index as usize) else {
        return Err(fault(Rule::UnknownName, span));
    };
    let found = field_found(def, name, span)?;
    Ok(found)
}

/// Why what this names, if anything, cannot be handed to `ref`: a variable is of another type, and all else is none.
pub fn unfit(named: Option<Ty>, span: Span) -> Typing {
    match named {
        Some(_) => fault(Rule::Mismatch, span),
        None => fault(Rule::NotTarget, span),
    }
}

/// That what is looked into is no array, where it is none.
pub fn unindexed(own: Own, span: Span) -> Option<Typing> {
    match indexed(own) {
        Some(_) => None,
        None => Some(fault(Rule::Mismatch, span)),
    }
}

/// Why an expression is not made where a type is wanted, where it is not.
pub fn refusal(made: Result<PExpr, Typing>) -> Option<Typing>
    ensures { (o : Option PExpr) → Gives made o → Finds result (is_none o) }
{
    made.err()
}

/// That no hole has this width, where none has.
#[tactic(auto, using(crate::proofs::FaultLaws::no_such_hole))]
pub fn unfit_width(bounds: &Bounds, width: Option<u32>, span: Span) -> Option<Typing>
    ensures { Finds result (not (width_fits bounds.now width)) }
{
    refusal(hole_at(bounds, width, span, INT))
}
