//! The node of a shape that is known to be a bit, and what an operator without a meaning answers.

ghost use Rattle.std.specs.Prelude.{◌≡◌, IfOk};
ghost use Rattle.sk_dag.specs.declared.shape.Shape.TheVariants.{Bit};
ghost use Rattle.sk_dag.specs.Eval.{Keeps};
ghost use Rattle.sk_arr.specs.Forms.{IsBit};
ghost use Rattle.sk_model.specs.Step.{fail};
ghost use Rattle.sk_sym_operators.specs.Answers.{IsComputed};

use crate::operated::Operated;
use sk_dag::{BoolId, Dag, Shape};
use sk_sym_folds::flag;
use std::alloc::AllocError;

/// The node of a bit.
pub(crate) fn bit_in(a: &Shape) -> BoolId
    requires { IsBit a.now }
    ensures { a.now ≡ Bit result }
{
    match a {
        Shape::Bit(id) => *id,
        _ => unreachable!(),
    }
}

/// What an operator answers that has no meaning for values of these types: it fails.
pub(crate) fn meaningless(dag: &mut Dag) -> Result<Operated, AllocError>
    ensures keeps { Keeps dag.old dag.new }
    ensures computed { IfOk result (λ made. IsComputed dag.new (λ h e span. fail span) made.value made.fails) }
{
    let fails = flag(dag, true)?;
    Ok(Operated {
        value: Shape::Bit(fails),
        fails,
    })
}
