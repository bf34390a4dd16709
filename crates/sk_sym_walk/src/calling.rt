//! Steps of calls that run no part.

ghost use Rattle.std.specs.Prelude.{◌≡◌, ◌==◌, ◌++◌, ◌∷◌, [], count_by, IfOk, OnOk, MatchOption};
ghost use Rattle.sk_dag.specs.Eval.{Keeps};
ghost use Rattle.sk_arr.specs.Shapes.{Stands};
ghost use Rattle.sk_sym_state.specs.Stands.{AnyStands};
ghost use Rattle.sk_sym_walk.specs.Calls.{PaysNothing, IsResultShape, AreParams, AreShapes};

use sk_dag::{Dag, Shape};
use sk_limits::never;
use sk_prog::{Elem, Fun, FunKind, ParamDef, Ty};
use sk_sym_forms::literals::zero_of;
use std::alloc::{AllocError, Global};

/// The first of some parameters, whether it is a `ref` parameter, and those behind it.
#[derive(Clone, Copy)]
pub(crate) struct Params<'a> {
    pub(crate) by_ref: bool,
    pub(crate) more: &'a [ParamDef],
}

/// The first of some parameters, where there is one.
pub(crate) fn first_param<'a>(params: &'a [ParamDef]) -> Option<Params<'a>>
    ensures { MatchOption result (params.now ≡ []) (λ found. AreParams params.now found.by_ref found.more.now) }
{
    match params {
        [] => None,
        [first, more @ ..] => Some(Params {
            by_ref: first.by_ref,
            more,
        }),
    }
}

/// The first of some shapes, and those behind it.
#[derive(Clone, Copy)]
pub(crate) struct Shapes<'a> {
    pub(crate) first: &'a Shape,
    pub(crate) more: &'a [Shape],
}

/// The first of some shapes, where there is one.
pub(crate) fn first_shape<'a>(shapes: &'a [Shape]) -> Option<Shapes<'a>>
    ensures { MatchOption result (shapes.now ≡ []) (λ found. AreShapes shapes.now found.first.now found.more.now) }
{
    match shapes {
        [] => None,
        [first, more @ ..] => Some(Shapes { first, more }),
    }
}

/// Refuses a harness, which no typed program calls. Any other function pays nothing before its body.
pub(crate) fn pays_nothing(fun: &Fun) -> Result<(), AllocError>
    ensures { OnOk result (PaysNothing fun.now) }
{
    match fun.kind {
        FunKind::Plain => Ok(()),
        FunKind::Generator => Ok(()),
        FunKind::Harness => Err(never()),
    }
}

/// These functions and one more.
pub(crate) fn with_function(alloc: Global, active: &[u32], f: u32) -> Result<Vec<u32>, AllocError>
    ensures { IfOk result (λ all. all.items ≡ active.now ++ f ∷ []) }
{
    let mut all = Vec::from_slice(alloc, active)?;
    all.push(f)?;
    Ok(all)
}

/// How many of the active calls are of a function.
pub(crate) fn count_of(active: &[u32], f: u32) -> usize
    ensures { result ≡ count_by (λ g. g == f) active.now }
{
    active.iter().filter(|g| **g == f).count()
}

/// A shape for a value that no run needs: 0.
pub(crate) fn absent(alloc: Global, dag: &mut Dag, ty: Option<Ty>) -> Result<Shape, AllocError>
    ensures keeps { Keeps dag.old dag.new }
    ensures stands { IfOk result (λ r. Stands dag.new r) }
{
    let r = zero_of(alloc, dag, ty.unwrap_or(Ty::One(Elem::Int)))?;
    Ok(r)
}

/// What a call gives as a value, of a function with this result type: 0 where it has no result.
pub(crate) fn value_of(
    alloc: Global,
    dag: &mut Dag,
    ty: Option<Ty>,
    given: Option<Shape>,
) -> Result<Shape, AllocError>
    requires given { AnyStands dag.old given }
    ensures keeps { Keeps dag.old dag.new }
    ensures result { IfOk result (λ r. IsResultShape dag.new ty given r) }
{
    match ty {
        None => {
            let r = zero_of(alloc, dag, Ty::One(Elem::Int))?;
            Ok(r)
        }
        Some(_) => match given {
            Some(r) => Ok(r),
            None => absent(alloc, dag, ty),
        },
    }
}
