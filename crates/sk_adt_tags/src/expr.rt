//! Expressions that break a rule of tags.
ghost use Rattle.std.specs.Prelude.{◌≡◌, ◌==◌, ◌&&◌, map, option_map, slice_get};
ghost use Rattle.sk_adt.specs.Words.{each};
ghost use Rattle.std.specs.List.{list_any};
ghost use Rattle.sk_adt_tags.specs.Tags.{first, part, of_two, new_part, member_part, condition, is_tested, params_of, passes_to, is_of, variant_numbered, made_variant, sets_only, new_fits};
ghost use Rattle.sk_adt_tags.specs.Fields.{field_part};

use crate::ground::{Ground, role_in};
use crate::role::{Role, Test};
use sk_adt::Algebraic;
use sk_base::Span;
use sk_prog::{BinOp, FunId, PEForm, PExpr, PField, ParamDef, StructId};

// The slot of the variable that an expression is.
fn slot_of(ground: &Ground, e: &PExpr) -> Option<u32>
    ensures { result ≡ (part ground.now.types.now ground.now.prog.now e.now).slot }
{
    match &e.form {
        PEForm::Var { slot, name: _ } => Some(*slot),
        _ => None,
    }
}

// The number that an expression is.
fn number_of(ground: &Ground, e: &PExpr) -> Option<u32>
    ensures { result ≡ (part ground.now.types.now ground.now.prog.now e.now).number }
{
    match &e.form {
        PEForm::Number(n) => Some(*n),
        _ => None,
    }
}

// The slot of the variable whose tag an expression is.
fn tag_of(ground: &Ground, e: &PExpr) -> Option<u32>
    ensures { result ≡ (part ground.now.types.now ground.now.prog.now e.now).tag }
{
    match &e.form {
        PEForm::Member { base, s, field } => match ground.role(*s, *field) {
            Role::Tag => slot_of(ground, base.get()),
            Role::Free | Role::Of(_) => None,
        },
        _ => None,
    }
}

/// The test that an expression is.
pub(crate) fn test_of(ground: &Ground, e: &PExpr) -> Option<Test>
    ensures { result ≡ (part ground.now.types.now ground.now.prog.now e.now).test }
{
    match &e.form {
        PEForm::Binary {
            op: BinOp::Eq,
            left,
            right,
        } => {
            let slot = tag_of(ground, left.get())?;
            let variant = number_of(ground, right.get())?;
            Some(Test { slot, variant })
        }
        _ => None,
    }
}

/// Whether an expression is this variable, or a pattern with a string that is.
#[cycle(names)]
pub(crate) fn may_be(ground: &Ground, e: &PExpr, x: u32) -> bool
    ensures { result ≡ (part ground.now.types.now ground.now.prog.now e.now).may_be x }
{
    match &e.form {
        PEForm::Var { slot, name: _ } => x == *slot,
        PEForm::Pattern(strings) => any_may_be(ground, strings.as_slice(), x),
        _ => false,
    }
}

// Whether one of some expressions is.
#[cycle(names)]
fn any_may_be(ground: &Ground, es: &[PExpr], x: u32) -> bool
    ensures { result ≡ list_any (λ p. p.may_be x) (map (part ground.now.types.now ground.now.prog.now) es.now) }
{
    for e in es {
        if may_be(ground, e, x) {
            return true;
        }
    }
    false
}

/// Whether an expression passes a variable to a `ref` parameter.
#[cycle(passes)]
pub(crate) fn passes(ground: &Ground, e: &PExpr, x: u32) -> bool
    ensures { result ≡ (part ground.now.types.now ground.now.prog.now e.now).passes x }
{
    match &e.form {
        PEForm::Number(_)
        | PEForm::True
        | PEForm::False
        | PEForm::Null
        | PEForm::Const(_)
        | PEForm::Hole(_)
        | PEForm::Var { slot: _, name: _ } => false,
        PEForm::Pattern(es) | PEForm::Braces(es) => any_passes(ground, es.as_slice(), x),
        PEForm::Paren(of)
        | PEForm::ToInt(of)
        | PEForm::Pad(of)
        | PEForm::Unary { op: _, of }
        | PEForm::Member {
            base: of,
            s: _,
            field: _,
        } => passes(ground, of.get(), x),
        PEForm::Index {
            base: left,
            index: right,
        }
        | PEForm::Slice {
            base: left,
            from: right,
            length: _,
        }
        | PEForm::Binary { op: _, left, right } => passes(ground, left.get(), x)
            || passes(ground, right.get(), x),
        PEForm::Cond { cond, then, other } => passes(ground, cond.get(), x)
            || (passes(ground, then.get(), x) || passes(ground, other.get(), x)),
        PEForm::Call { f, args } => call_passes(ground, *f, args.as_slice(), x)
            || any_passes(ground, args.as_slice(), x),
        PEForm::New { s: _, fields } => any_field_passes(ground, fields.as_slice(), x),
    }
}

// Whether one of some expressions does.
#[cycle(passes)]
fn any_passes(ground: &Ground, es: &[PExpr], x: u32) -> bool
    ensures { result ≡ list_any (λ p. p.passes x) (map (part ground.now.types.now ground.now.prog.now) es.now) }
{
    for e in es {
        if passes(ground, e, x) {
            return true;
        }
    }
    false
}

// Whether one of the values of fields does.
#[cycle(passes)]
fn any_field_passes(ground: &Ground, fields: &[PField], x: u32) -> bool
    ensures { result ≡ list_any (λ p. p.passes x) (map (λ f. f.1) (map (field_part ground.now.types.now ground.now.prog.now) fields.now)) }
{
    for field in fields {
        if passes(ground, &field.value, x) {
            return true;
        }
    }
    false
}

// Whether one of the arguments is the variable, for a `ref` parameter.
fn passes_to(ground: &Ground, params: &[ParamDef], args: &[PExpr], x: u32) -> bool
    ensures { result ≡ passes_to params.now (map (part ground.now.types.now ground.now.prog.now) args.now) x }
{
    let mut asked = params;
    let mut given = args;
    while let Some((param, more)) = asked.split_first() {
        let Some((arg, others)) = given.split_first() else {
            return false;
        };
        if param.by_ref && may_be(ground, arg, x) {
            return true;
        }
        asked = more;
        given = others;
    }
    false
}

// The same, in a call.
fn call_passes(ground: &Ground, f: FunId, args: &[PExpr], x: u32) -> bool
    ensures { result ≡ passes_to (params_of (slice_get ground.now.prog.now.funs f.index)) (map (part ground.now.types.now ground.now.prog.now) args.now) x }
{
    match ground.prog.funs.get(f.index as usize) {
        None => false,
        Some(fun) => passes_to(ground, fun.params.as_slice(), args, x),
    }
}

// Whether one of the tests is of this variable and this variant.
fn is_tested(slot: Option<u32>, variant: usize, tests: &[Test]) -> bool
    ensures { result ≡ is_tested slot variant tests.now }
{
    match slot {
        None => false,
        Some(slot) => has_test(tests, slot, variant),
    }
}

// The same, of a variable that is there.
fn has_test(tests: &[Test], slot: u32, variant: usize) -> bool
    ensures { result ≡ list_any (λ t. (t.slot == slot) && (t.variant == variant)) tests.now }
{
    for test in tests {
        if test.slot == slot && test.variant as usize == variant {
            return true;
        }
    }
    false
}

// Whether a role is that of a field of this variant.
fn is_of(variant: usize, role: Role) -> bool
    ensures { result ≡ is_of variant role }
{
    match role {
        Role::Of(i) => variant == i,
        Role::Free | Role::Tag => false,
    }
}

// The number of a variant of a type, where it is one.
fn variant_numbered(ty: &Algebraic, number: Option<u32>) -> Option<usize>
    ensures { result ≡ variant_numbered ty.now number }
{
    let number = number? as usize;
    if number < ty.variants.len() {
        Some(number)
    } else {
        None
    }
}

// The variant that `new` makes, by the first field that it sets.
fn made_variant(ground: &Ground, ty: &Algebraic, first: &PField) -> Option<usize>
    ensures { result ≡ made_variant ty.now (field_part ground.now.types.now ground.now.prog.now first.now) }
{
    if first.field == 0 {
        variant_numbered(ty, number_of(ground, &first.value))
    } else {
        None
    }
}

// Whether only fields of this variant are set.
fn sets_only(ground: &Ground, ty: &Algebraic, variant: Option<usize>, fields: &[PField]) -> bool
    ensures { result ≡ sets_only ty.now variant (map (field_part ground.now.types.now ground.now.prog.now) fields.now) }
{
    let Some(variant) = variant else {
        return false;
    };
    for field in fields {
        if !is_of(variant, role_in(Some(ty), field.field)) {
            return false;
        }
    }
    true
}

// Whether `new` first sets the tag to the number of a variant, and then only fields of that variant.
fn new_fits(ground: &Ground, ty: Option<&Algebraic>, fields: &[PField]) -> bool
    ensures { result ≡ new_fits (option_map (λ a. a.now) ty.entry) (map (field_part ground.now.types.now ground.now.prog.now) fields.now) }
{
    let Some(ty) = ty else {
        return true;
    };
    match fields.split_first() {
        None => false,
        Some((first, others)) => sets_only(ground, ty, made_variant(ground, ty, first), others),
    }
}

/// The first span in an expression that breaks a rule, in the first branches of these tests.
#[cycle(breaks)]
#[tactic(auto, using(crate::proofs::Firsts::first_both))]
pub(crate) fn broken(ground: &Ground, tests: &[Test], e: &PExpr) -> Option<Span>
    ensures { result ≡ first ((part ground.now.types.now ground.now.prog.now e.now).breaks tests.now) }
{
    match &e.form {
        PEForm::Number(_)
        | PEForm::True
        | PEForm::False
        | PEForm::Null
        | PEForm::Const(_)
        | PEForm::Hole(_)
        | PEForm::Var { slot: _, name: _ } => None,
        PEForm::Pattern(es) | PEForm::Braces(es) | PEForm::Call { f: _, args: es } => any_broken(
            ground,
            tests,
            es.as_slice(),
        ),
        PEForm::Paren(of) | PEForm::ToInt(of) | PEForm::Pad(of) | PEForm::Unary { op: _, of } =>
            broken(ground, tests, of.get()),
        PEForm::Index {
            base: left,
            index: right,
        }
        | PEForm::Slice {
            base: left,
            from: right,
            length: _,
        }
        | PEForm::Binary { op: _, left, right } => both_broken(
            ground,
            tests,
            left.get(),
            right.get(),
        ),
        PEForm::Cond { cond, then, other } => broken(ground, tests, cond.get()).or(both_broken(
            ground,
            tests,
            then.get(),
            other.get(),
        )),
        PEForm::Member { base, s, field } => member_broken(
            ground,
            tests,
            e.span,
            base.get(),
            ground.role(*s, *field),
        ),
        PEForm::New { s, fields } => new_broken(ground, tests, e.span, *s, fields.as_slice()),
    }
}

// The first span in the one, or else in the other.
#[cycle(breaks)]
#[tactic(auto, using(crate::proofs::Firsts::first_both))]
fn both_broken(ground: &Ground, tests: &[Test], left: &PExpr, right: &PExpr) -> Option<Span>
    ensures { result ≡ first ((of_two (part ground.now.types.now ground.now.prog.now left.now) (part ground.now.types.now ground.now.prog.now right.now)).breaks tests.now) }
{
    broken(ground, tests, left).or(broken(ground, tests, right))
}

// The first span in some expressions.
#[cycle(breaks)]
#[tactic(auto, using(crate::proofs::Firsts::first_both))]
fn any_broken(ground: &Ground, tests: &[Test], es: &[PExpr]) -> Option<Span>
    ensures { result ≡ first (each (map (λ p. p.breaks tests.now) (map (part ground.now.types.now ground.now.prog.now) es.now))) }
{
    for e in es {
        if let Some(span) = broken(ground, tests, e) {
            return Some(span);
        }
    }
    None
}

// The first span in the values of fields.
#[cycle(breaks)]
#[tactic(auto, using(crate::proofs::Firsts::first_both))]
fn any_field_broken(ground: &Ground, tests: &[Test], fields: &[PField]) -> Option<Span>
    ensures { result ≡ first (each (map (λ p. p.breaks tests.now) (map (λ f. f.1) (map (field_part ground.now.types.now ground.now.prog.now) fields.now)))) }
{
    for field in fields {
        if let Some(span) = broken(ground, tests, &field.value) {
            return Some(span);
        }
    }
    None
}

// The first span in a `new` with this span.
#[cycle(breaks)]
#[tactic(auto, using(crate::proofs::Firsts::first_both))]
fn new_broken(
    ground: &Ground,
    tests: &[Test],
    span: Span,
    s: StructId,
    fields: &[PField],
) -> Option<Span>
    ensures { result ≡ first ((new_part ground.now.types.now ground.now.prog.now s (map (field_part ground.now.types.now ground.now.prog.now) fields.now) span).breaks tests.now) }
{
    if new_fits(ground, ground.algebraic(s), fields) {
        any_field_broken(ground, tests, fields)
    } else {
        Some(span)
    }
}

// The first span in a field of this expression, where the field is this.
#[cycle(breaks)]
#[tactic(auto, using(crate::proofs::Firsts::first_both))]
fn member_broken(
    ground: &Ground,
    tests: &[Test],
    span: Span,
    base: &PExpr,
    role: Role,
) -> Option<Span>
    ensures { result ≡ first ((member_part role span (part ground.now.types.now ground.now.prog.now base.now)).breaks tests.now) }
{
    match role {
        Role::Free => broken(ground, tests, base),
        Role::Tag => Some(span),
        Role::Of(variant) => {
            if is_tested(slot_of(ground, base), variant, tests) {
                broken(ground, tests, base)
            } else {
                Some(span)
            }
        }
    }
}

/// The first span in the condition of an `if`, which as a whole may be a test.
pub(crate) fn condition_broken(ground: &Ground, tests: &[Test], cond: &PExpr) -> Option<Span>
    ensures { result ≡ first ((condition (part ground.now.types.now ground.now.prog.now cond.now)).breaks tests.now) }
{
    match test_of(ground, cond) {
        Some(_) => None,
        None => broken(ground, tests, cond),
    }
}
