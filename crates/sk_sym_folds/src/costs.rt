//! Costs.

ghost use Rattle.std.specs.Prelude.{◌≡◌, IfOk, IfSome};
ghost use Rattle.sk_dag.specs.declared.env.Env.{Env};
ghost use Rattle.sk_dag.specs.Graph.{Graph, Grows, HasBool, HasCost, HasWord};
ghost use Rattle.sk_dag.specs.Eval.{bool_value, charge, cost_value, word_value, Keeps};

use crate::reading::{known_bool, known_word};
use sk_dag::{BoolId, CostId, Dag, WordId};
use std::alloc::AllocError;

/// `cost`, and the word `amount` more where `when` holds and `amount` is above 0; at most 2^64 - 1.
#[tactic(auto, using(crate::proofs::Makers::staying))]
pub fn cost_add(
    dag: &mut Dag,
    cost: CostId,
    when: BoolId,
    amount: WordId,
) -> Result<CostId, AllocError>
    requires cost { HasCost dag.old.nodes cost }
    requires when { HasBool dag.old.nodes when }
    requires amount { HasWord dag.old.nodes amount }
    ensures keeps { Keeps dag.old dag.new }
    ensures there { IfOk result (λ r. HasCost dag.new.nodes r) }
    ensures value { IfOk result (λ r. (g : Graph) → Grows dag.new g → (e : Env) →
        cost_value g e r ≡ charge (cost_value g e cost) (bool_value g e when) (word_value g e amount)) }
{
    if let Some(false) = known_bool(dag, when) {
        return Ok(cost);
    }
    if let Some(known) = known_word(dag, amount) {
        if known <= 0 {
            return Ok(cost);
        }
    }
    let r = dag.cost_add(cost, when, amount)?;
    Ok(r)
}
