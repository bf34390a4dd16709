//! What a run costs.

ghost use Rattle.std.specs.Prelude.{◌≡◌, IfOk, OnOk, pos, int_lt};
ghost use Rattle.sk_dag.specs.declared.env.Env.{Env};
ghost use Rattle.sk_dag.specs.Graph.{Graph, Grows, HasBool, HasWord};
ghost use Rattle.sk_dag.specs.Eval.{bool_value, word_value, Keeps};
ghost use Rattle.sk_prog.specs.declared.value.Value.TheVariants as value;
ghost use Rattle.sk_model.specs.Exec.{pay};
ghost use Rattle.sk_sym_state.specs.Stands.{StateStands};
ghost use Rattle.sk_sym_state.specs.Meaning.{ExecutesOn};

use sk_base::Span;
use sk_dag::{BoolId, Dag, WordId};
use sk_sym_folds::{cost_add, lt, word};
use sk_sym_state::{Setting, SymState};
use std::alloc::AllocError;

/// Whether a word is negative.
#[tactic(auto, using(crate::proofs::Costs::making))]
fn is_negative(dag: &mut Dag, amount: WordId) -> Result<BoolId, AllocError>
    requires { HasWord dag.old.nodes amount }
    ensures keeps { Keeps dag.old dag.new }
    ensures there { IfOk result (λ r. HasBool dag.new.nodes r) }
    ensures value { IfOk result (λ r. (g : Graph) → Grows dag.new g → (e : Env) → bool_value g e r ≡ int_lt (word_value g e amount) (pos 0)) }
{
    let zero = word(dag, 0)?;
    let r = lt(dag, amount, zero)?;
    Ok(r)
}

/// Pays an amount. It fails where that is negative. After a refusal the graph has all nodes that it had (`keeps`); the state
/// is given up with the walk that holds it.
pub fn pay(
    setting: &Setting<'_>,
    dag: &mut Dag,
    state: &mut SymState,
    span: Span,
    amount: WordId,
) -> Result<(), AllocError>
    requires stands { StateStands dag.old setting.now.expanded.now.prog state.old }
    requires amount { HasWord dag.old.nodes amount }
    ensures keeps { Keeps dag.old dag.new }
    ensures pays { OnOk result (ExecutesOn setting.now dag.old dag.new state.old state.new (λ g e v. v ≡ value.Int (word_value g e amount)) (λ e. pay span)) }
{
    let negative = is_negative(dag, amount)?;
    let cost = cost_add(dag, state.cost, state.path, amount)?;
    state.cost = cost;
    state.fail_where(setting, dag, negative)?;
    Ok(())
}
