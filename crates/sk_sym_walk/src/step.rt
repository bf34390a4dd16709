//! Steps of the walk that run no part.

ghost use Rattle.std.specs.Prelude.{◌≡◌, ◌+◌, ◌-◌, ◌<◌, ℕ, List, length, nat_lt, IfOk, OnOk, IsTrue, false, option_map};
ghost use Rattle.sk_dag.specs.declared.env.Env.{Env};
ghost use Rattle.sk_dag.specs.Graph.{Graph, Grows, HasBool};
ghost use Rattle.sk_dag.specs.Eval.{bool_value, Keeps};
ghost use Rattle.sk_arr.specs.Shapes.{Stands};
ghost use Rattle.sk_sym_sites.specs.Counts.{any_count, expr_count, stmt_count};
ghost use Rattle.sk_sym_state.specs.Stands.{StateStands};
ghost use Rattle.sk_sym_state.specs.Branching.{SideStands};
ghost use Rattle.sk_sym_walk.specs.Parts.{IsAs, AreJoinedWith};
ghost use Rattle.sk_model.specs.Sites.{is_hole as has_site};
ghost use Rattle.sk_model.specs.Fill.{Fits};
ghost use Rattle.sk_model.specs.Parts.{value};
ghost use Rattle.sk_sym_state.specs.Meaning.{IsLater, choice_at};
ghost use Rattle.sk_sym_walk.specs.Orders.{HasTurn, IsNodeOf};

use sk_base::{Boxed, List};
use sk_dag::{BoolId, Dag, Shape};
use sk_limits::never;
use sk_model::Site;
use sk_prog::{PEForm, PExpr, PStmt};
use sk_sym_folds::{known_bool, site_above};
use sk_sym_sites::{pass_expr, pass_stmt};
use sk_sym_state::{Setting, Side, SymState, join_shapes};
use std::alloc::AllocError;

/// Whether the run is seen to go on in no environment.
pub(crate) fn is_over(dag: &Dag, state: &SymState) -> bool
    requires path { HasBool dag.now.nodes state.now.path }
    ensures { IsTrue result → (g : Graph) → Grows dag.now g → (e : Env) → bool_value g e state.now.path ≡ false }
{
    match known_bool(dag, state.path) {
        Some(here) => !here,
        None => false,
    }
}

/// Two ways come together, with a value each.
pub(crate) fn joined(
    setting: &Setting<'_>,
    dag: &mut Dag,
    state: &mut SymState,
    cond: BoolId,
    gone: Side,
    a: &Shape,
    b: &Shape,
) -> Result<Shape, AllocError>
    requires stands { StateStands dag.old setting.now.expanded.now.prog state.old }
    requires cond { HasBool dag.old.nodes cond }
    requires gone { SideStands dag.old gone }
    requires a { Stands dag.old a.now }
    requires b { Stands dag.old b.now }
    ensures keeps { Keeps dag.old dag.new }
    ensures joined { IfOk result (λ r. AreJoinedWith setting.now dag.old dag.new state.old state.new cond gone a.now b.now r) }
{
    state.join(setting, dag, cond, gone)?;
    let r = join_shapes(setting.alloc, dag, cond, a, b)?;
    Ok(r)
}

/// What stands inside parentheses, however many there are.
pub(crate) fn inside(e: &PExpr) -> &PExpr
    ensures { IsAs e.now result.now }
{
    match &e.form {
        PEForm::Paren(of) => inside(of.get()),
        _ => e,
    }
}

/// Passes the sites of a statement that may not be there.
pub(crate) fn pass_other(at: &mut usize, other: &Option<Boxed<PStmt>>) -> Result<(), AllocError>
    ensures { OnOk result (at.new ≡ at.old + any_count (option_map stmt_count other.now)) }
{
    match other {
        Some(s) => pass_stmt(at, s.get()),
        None => Ok(()),
    }
}

/// Passes the sites of a condition and of the statement behind it.
pub(crate) fn pass_loop(at: &mut usize, cond: &PExpr, body: &PStmt) -> Result<(), AllocError>
    ensures { OnOk result (at.new ≡ at.old + (expr_count cond.now + stmt_count body.now)) }
{
    pass_expr(at, cond)?;
    pass_stmt(at, body)?;
    Ok(())
}

/// Passes so many sites.
fn pass(at: &mut usize, count: usize) -> Result<(), AllocError>
    ensures { OnOk result (at.new ≡ at.old + count) }
{
    match at.checked_add(count) {
        None => Err(never()),
        Some(next) => {
            *at = next;
            Ok(())
        }
    }
}

/// Passes one site.
pub(crate) fn pass_site(at: &mut usize) -> Result<(), AllocError>
    ensures { OnOk result (at.new ≡ at.old + 1) }
{
    pass(at, 1)
}

/// How many values a site may have. One that is not there has the value 0.
pub(crate) fn size_of(sites: &[Site], site: usize) -> u64
    ensures { (values : List ℕ) → Fits sites.now values → value values site < result }
{
    if site >= sites.len() {
        return 1;
    }
    sites[site].size
}

/// Whether the value of a site is above `k`.
pub(crate) fn exceeds(
    setting: &Setting<'_>,
    dag: &mut Dag,
    site: usize,
    k: u64,
) -> Result<BoolId, AllocError>
    ensures keeps { Keeps dag.old dag.new }
    ensures there { IfOk result (λ r. HasBool dag.new.nodes r) }
    ensures value { IfOk result (λ r. (g : Graph) (e : Env) → IsLater setting.now dag.new g e →
        bool_value g e r ≡ nat_lt k (value (choice_at setting.now e).values site)) }
{
    let size = size_of(setting.expanded.sites.as_slice(), site);
    let r = site_above(dag, site, size, k, setting.choice)?;
    Ok(r)
}

/// Whether the count of a repeat is a hole.
pub(crate) fn is_hole(count: &PExpr) -> bool
    ensures { result ≡ has_site count.now.form }
{
    match &count.form {
        PEForm::Hole(_) => true,
        _ => false,
    }
}

/// Passes the sites that give the order of so many statements.
pub(crate) fn pass_digits(at: &mut usize, count: usize) -> Result<(), AllocError>
    ensures { OnOk result (at.new ≡ at.old + (count - 1)) }
{
    pass(at, count.saturating_sub(1))
}

/// The node that says whether a turn is that of a statement.
pub(crate) fn turn_node(columns: &[List<BoolId>], k: usize, turn: usize) -> BoolId
    requires statement { k < length columns.now }
    requires turn { HasTurn columns.now k turn }
    ensures { IsNodeOf columns.now k turn result }
{
    let column = columns[k].as_slice();
    column[turn]
}
