//! The functions that an expansion makes.
ghost use Rattle.std.specs.Prelude.{◌≡◌, ◌+◌, ◌++◌, ◌∷◌, [], IfOk, ◌==◌, count_by};
ghost use Rattle.sk_model.specs.Expand.{copy_name, copy_of, stub, is_generator};
ghost use Rattle.sk_model.specs.Slots.{with_body};
ghost use Rattle.sk_expand.specs.Walking.{nothing};

use sk_base::{List, Name, Span, push_number};
use sk_expand_copies::{copy_name, copy_params, slots_needed};
use sk_prog::{Elem, Fun, FunId, FunKind, PEForm, PExpr, PForm, PStmt, Ty};
use std::alloc::{AllocError, Global};

/// Whether a function is a generator.
pub fn is_generator(kind: FunKind) -> bool
    ensures { result ≡ is_generator kind }
{
    match kind {
        FunKind::Generator => true,
        _ => false,
    }
}

/// These functions and one more.
pub fn with_function(alloc: Global, active: &[u32], f: u32) -> Result<Vec<u32>, AllocError>
    ensures { IfOk result (λ all. all.items ≡ active.now ++ f ∷ []) }
{
    let mut all = Vec::from_slice(alloc, active)?;
    all.push(f)?;
    Ok(all)
}

/// How many of the copies that are being walked are of a function.
pub fn count_of(active: &[u32], f: u32) -> usize
    ensures { result ≡ count_by (λ g. g == f) active.now }
{
    active.iter().filter(|g| **g == f).count()
}

/// The name of the copy of a generator that comes after so many others.
fn name_after(alloc: Global, name: &Name, before: u32) -> Result<Name, AllocError>
    ensures { IfOk result (λ copy. copy ≡ copy_name name.now (before + 1)) }
{
    let mut bytes = Vec::from_slice(alloc, name.as_bytes())?;
    bytes.extend_from_slice(b"__")?;
    push_number(&mut bytes, before as u64 + 1)?;
    Ok(Name::from_vec(bytes))
}

/// What stands in the place of a copy while its body is being walked.
pub fn nothing(alloc: Global) -> Fun
    ensures { result ≡ nothing }
{
    Fun {
        name: Name::from_vec(Vec::new(alloc)),
        kind: FunKind::Plain,
        result: None,
        params: List::new(alloc),
        slots: 0,
        implements: None,
        body: List::new(alloc),
    }
}

/// `assert false;` with this span.
pub fn stub(alloc: Global, span: Span) -> Result<Vec<PStmt>, AllocError>
    ensures { IfOk result (λ body. body.items ≡ stub span) }
{
    let mut body = Vec::new(alloc);
    let never = PExpr {
        span,
        ty: Some(Ty::One(Elem::Bit)),
        form: PEForm::False,
    };
    body.push(PStmt {
        span,
        form: PForm::Assert(never),
    })?;
    Ok(body)
}

/// The copy of a generator that comes after so many others, with this body.
pub fn copy_of(alloc: Global, fun: &Fun, before: u32, body: Vec<PStmt>) -> Result<Fun, AllocError>
    ensures { IfOk result (λ copy. copy ≡ copy_of fun.now (before + 1) body.items) }
{
    let name = name_after(alloc, &fun.name, before)?;
    let params = copy_params(alloc, fun.params.as_slice())?;
    let slots = slots_needed(params.len(), body.as_slice())?;
    Ok(Fun {
        name,
        kind: FunKind::Plain,
        result: fun.result,
        params,
        slots,
        implements: fun.implements,
        body: List::from_vec(body),
    })
}

/// An ordinary function with this body, where the one that it implements has a new number.
pub fn ordinary(
    alloc: Global,
    fun: &Fun,
    implements: Option<FunId>,
    body: Vec<PStmt>,
) -> Result<Fun, AllocError>
    ensures { IfOk result (λ walked. walked ≡ with_body (record fun.now { implements = implements }) body.items) }
{
    let name = copy_name(alloc, &fun.name)?;
    let params = copy_params(alloc, fun.params.as_slice())?;
    let slots = slots_needed(params.len(), body.as_slice())?;
    Ok(Fun {
        name,
        kind: fun.kind,
        result: fun.result,
        params,
        slots,
        implements,
        body: List::from_vec(body),
    })
}
