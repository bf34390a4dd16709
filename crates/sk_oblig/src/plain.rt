//! The parameters of obligations, and whether they hold references.

ghost use Rattle.std.specs.Prelude.{◌≡◌, ◌+◌, IfSome};
ghost use Rattle.sk_oblig_checks.specs.Arguments.{count_of};
ghost use Rattle.sk_model.specs.Inputs.{fun_of};
ghost use Rattle.sk_oblig.specs.Nodes.{has_inputs};
ghost use Rattle.sk_oblig_laws.specs.Laws.{are_plain, is_plain, is_reference};
ghost use Rattle.sk_oblig_queries.specs.Widths.{elem_of, numbers_of, params_of};

use sk_model::Obligation;
use sk_prog::{Elem, FunId, ParamDef, Prog, Ty};

fn is_reference(elem: Elem) -> bool
    ensures { result ≡ is_reference elem }
{
    match elem {
        Elem::Int => false,
        Elem::Bit => false,
        Elem::Reference(_) => true,
    }
}

fn elem_of(ty: Ty) -> Elem
    ensures { result ≡ elem_of ty }
{
    match ty {
        Ty::One(elem) => elem,
        Ty::Array(elem, _) => elem,
        Ty::Grid(elem, _, _) => elem,
    }
}

// How many numbers a value of a type has.
fn numbers_of(ty: Ty) -> u64
    ensures { result ≡ numbers_of ty }
{
    match ty {
        Ty::One(_) => 1,
        Ty::Array(_, n) => u64::from(n),
        Ty::Grid(_, n, m) => u64::from(n) * u64::from(m),
    }
}

// Whether values of a type hold no reference.
fn is_plain(ty: Ty) -> bool
    ensures { result ≡ is_plain ty }
{
    !(is_reference(elem_of(ty)) && 0 < numbers_of(ty))
}

#[tactic(auto, using(crate::proofs::Parameters::plain))]
fn are_plain(params: &[ParamDef]) -> bool
    ensures { result ≡ are_plain params.now }
{
    for param in params {
        if !is_plain(param.ty) {
            return false;
        }
    }
    true
}

// The function of an obligation.
fn fun_of(obligation: Obligation) -> FunId
    ensures { result ≡ fun_of obligation }
{
    match obligation {
        Obligation::Harness(f) => f,
        Obligation::Implements { f, .. } => f,
    }
}

/// What the function of an obligation takes.
pub(crate) fn params_of(prog: &Prog, obligation: Obligation) -> &[ParamDef]
    ensures { result.now ≡ params_of prog.now obligation }
{
    match prog.funs.get(fun_of(obligation).index as usize) {
        Some(fun) => fun.params.as_slice(),
        None => &[],
    }
}

/// Whether the function of an obligation is there, and takes no reference.
pub(crate) fn has_inputs(prog: &Prog, obligation: Obligation) -> bool
    ensures { result ≡ has_inputs prog.now obligation }
{
    match prog.funs.get(fun_of(obligation).index as usize) {
        Some(fun) => are_plain(fun.params.as_slice()),
        None => false,
    }
}

fn sum_of(a: u64, b: u64) -> Option<u64>
    ensures { IfSome result (λ n. n ≡ a + b) }
{
    a.checked_add(b)
}

/// How many numbers the parameters have together, if they can be counted.
#[tactic(auto, using(crate::proofs::Parameters::counting))]
pub(crate) fn count_of(params: &[ParamDef]) -> Option<u64>
    ensures { IfSome result (λ n. n ≡ count_of params.now) }
{
    let mut count: u64 = 0;
    for param in params {
        count = sum_of(count, numbers_of(param.ty))?;
    }
    Some(count)
}
