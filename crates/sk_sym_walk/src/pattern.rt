//! Steps of patterns that run no string.

ghost use Rattle.std.specs.Prelude.{◌≡◌, ◌+◌, [], nat_lt, not as opposite, IfOk, MatchOption};
ghost use Rattle.sk_dag.specs.declared.env.Env.{Env};
ghost use Rattle.sk_dag.specs.Graph.{Graph, HasBool};
ghost use Rattle.sk_dag.specs.Eval.{bool_value, Keeps};
ghost use Rattle.sk_model.specs.Parts.{value};
ghost use Rattle.sk_sym_state.specs.Meaning.{IsLater, choice_at};
ghost use Rattle.sk_sym_walk.specs.Patterns.{AreExprs};

use crate::step::{pass_site, size_of};
use sk_dag::{BoolId, Dag};
use sk_prog::PExpr;
use sk_sym_folds::{flag, not, site_above};
use sk_sym_state::Setting;
use std::alloc::AllocError;

/// The first of some expressions, and those behind it.
#[derive(Clone, Copy)]
pub(crate) struct Exprs<'a> {
    pub(crate) first: &'a PExpr,
    pub(crate) more: &'a [PExpr],
}

/// The first of some expressions, where there is one.
pub(crate) fn first_expr<'a>(list: &'a [PExpr]) -> Option<Exprs<'a>>
    ensures { MatchOption result (list.now ≡ []) (λ found. AreExprs list.now found.first.now found.more.now) }
{
    match list {
        [] => None,
        [first, more @ ..] => Some(Exprs { first, more }),
    }
}

/// The number behind another one.
pub(crate) fn number_behind(k: usize) -> Result<usize, AllocError>
    ensures { IfOk result (λ next. next ≡ k + 1) }
{
    let mut next = k;
    pass_site(&mut next)?;
    Ok(next)
}

/// Whether the value of a site is at most `k`, which needs no test where the site has no value above it.
pub(crate) fn is_at_most(
    setting: &Setting<'_>,
    dag: &mut Dag,
    site: usize,
    k: u64,
) -> Result<BoolId, AllocError>
    ensures keeps { Keeps dag.old dag.new }
    ensures there { IfOk result (λ r. HasBool dag.new.nodes r) }
    ensures value { IfOk result (λ r. (g : Graph) (e : Env) → IsLater setting.now dag.new g e →
        bool_value g e r ≡ opposite (nat_lt k (value (choice_at setting.now e).values site))) }
{
    let size = size_of(setting.expanded.sites.as_slice(), site);
    if size.saturating_sub(1) <= k {
        let r = flag(dag, true)?;
        return Ok(r);
    }
    let above = site_above(dag, site, size, k, setting.choice)?;
    let r = not(dag, above)?;
    Ok(r)
}
