//! What an operator answers.

ghost use Rattle.std.specs.Prelude.{◌≡◌, IfOk};
ghost use Rattle.sk_dag.specs.Graph.{HasBool, HasWord};
ghost use Rattle.sk_dag.specs.Eval.{bool_value, word_value, Keeps};
ghost use Rattle.sk_prog.specs.declared.value.Value.TheVariants as value;
ghost use Rattle.sk_model.specs.Step.{pure};
ghost use Rattle.sk_sym_operators.specs.Answers.{IsComputed};

use sk_dag::{BoolId, Dag, Shape, WordId};
use sk_sym_folds::flag;
use std::alloc::AllocError;

/// A shape, and a node that holds where the operator fails. Where it does, the shape is left open.
#[derive(Debug, Drop)]
pub struct Operated {
    pub value: Shape,
    pub fails: BoolId,
}

/// A word that never fails.
pub(crate) fn whole_word(dag: &mut Dag, r: WordId) -> Result<Operated, AllocError>
    requires { HasWord dag.old.nodes r }
    ensures keeps { Keeps dag.old dag.new }
    ensures computed { IfOk result (λ made. IsComputed dag.new (λ h e span. pure (value.Int (word_value h e r))) made.value made.fails) }
{
    let fails = flag(dag, false)?;
    Ok(Operated {
        value: Shape::Int(r),
        fails,
    })
}

/// A bit that never fails.
pub(crate) fn whole_bit(dag: &mut Dag, r: BoolId) -> Result<Operated, AllocError>
    requires { HasBool dag.old.nodes r }
    ensures keeps { Keeps dag.old dag.new }
    ensures computed { IfOk result (λ made. IsComputed dag.new (λ h e span. pure (value.Bit (bool_value h e r))) made.value made.fails) }
{
    let fails = flag(dag, false)?;
    Ok(Operated {
        value: Shape::Bit(r),
        fails,
    })
}
