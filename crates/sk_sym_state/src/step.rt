//! How a run ends.

ghost use Rattle.std.specs.Prelude.{◌≡◌, ◌&&◌, ◌||◌, not, IfOk, OnOk};
ghost use Rattle.sk_dag.specs.declared.env.Env.{Env};
ghost use Rattle.sk_dag.specs.Graph.{Graph, Grows, HasBool};
ghost use Rattle.sk_dag.specs.Eval.{bool_value, Keeps};
ghost use Rattle.sk_sym_state.specs.Stands.{StateStands};
ghost use Rattle.sk_sym_state.specs.Meaning.{FailsWhere, SkipsWhere};

use crate::setting::Setting;
use crate::state::SymState;
use sk_dag::{BoolId, Dag};
use sk_sym_folds::{and, and_not, or};
use std::alloc::AllocError;

/// A path, and whether the run has ended in one way.
#[derive(Clone, Copy)]
struct Ending {
    path: BoolId,
    ended: BoolId,
}

/// What becomes of a path and of whether the run has ended in one way, where it ends so under a condition.
#[tactic(auto, using(sk_arr::proofs::Makers::staying))]
fn end_where(dag: &mut Dag, path: BoolId, ended: BoolId, cond: BoolId) -> Result<Ending, AllocError>
    requires path { HasBool dag.old.nodes path }
    requires ended { HasBool dag.old.nodes ended }
    requires cond { HasBool dag.old.nodes cond }
    ensures keeps { Keeps dag.old dag.new }
    ensures path_there { IfOk result (λ r. HasBool dag.new.nodes r.path) }
    ensures ended_there { IfOk result (λ r. HasBool dag.new.nodes r.ended) }
    ensures path { IfOk result (λ r. (g : Graph) → Grows dag.new g → (e : Env) →
        bool_value g e r.path ≡ (bool_value g e path && not (bool_value g e cond))) }
    ensures ended { IfOk result (λ r. (g : Graph) → Grows dag.new g → (e : Env) →
        bool_value g e r.ended ≡ (bool_value g e ended || (bool_value g e path && bool_value g e cond))) }
{
    let here = and(dag, path, cond)?;
    let ended = or(dag, ended, here)?;
    let path = and_not(dag, path, cond)?;
    Ok(Ending { path, ended })
}

impl SymState {
    /// Fails where a condition holds. After a refusal the graph has all nodes that it had (`keeps`); the state is given up
    /// with the walk that holds it.
    pub fn fail_where(
        &mut self,
        setting: &Setting<'_>,
        dag: &mut Dag,
        cond: BoolId,
    ) -> Result<(), AllocError>
        requires stands { StateStands dag.old setting.now.expanded.now.prog self.old }
        requires cond { HasBool dag.old.nodes cond }
        ensures keeps { Keeps dag.old dag.new }
        ensures fails { OnOk result (FailsWhere setting.now dag.old dag.new self.old self.new cond) }
    {
        let end = end_where(dag, self.path, self.failed, cond)?;
        self.path = end.path;
        self.failed = end.ended;
        Ok(())
    }

    /// Is skipped where a condition holds. After a refusal the graph has all nodes that it had (`keeps`); the state is given
    /// up with the walk that holds it.
    pub fn skip_where(
        &mut self,
        setting: &Setting<'_>,
        dag: &mut Dag,
        cond: BoolId,
    ) -> Result<(), AllocError>
        requires stands { StateStands dag.old setting.now.expanded.now.prog self.old }
        requires cond { HasBool dag.old.nodes cond }
        ensures keeps { Keeps dag.old dag.new }
        ensures skips { OnOk result (SkipsWhere setting.now dag.old dag.new self.old self.new cond) }
    {
        let end = end_where(dag, self.path, self.skipped, cond)?;
        self.path = end.path;
        self.skipped = end.ended;
        Ok(())
    }
}
