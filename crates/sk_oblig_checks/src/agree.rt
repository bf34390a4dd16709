//! Whether values are the same, as nodes.

ghost use Rattle.std.specs.Prelude.{IfOk};
ghost use Rattle.sk_dag.specs.Eval.{Keeps};
ghost use Rattle.sk_arr.specs.Shapes.{AllStand, Stands};
ghost use Rattle.sk_sym_state.specs.Stands.{AnyStands};
ghost use Rattle.sk_oblig_checks.specs.Checks.{Agrees, AllAgree, ResultsAgree};

use sk_arr::same;
use sk_base::List;
use sk_dag::{BoolId, Dag, Shape};
use sk_sym_folds::flag;
use sk_sym_state::alike;
use std::alloc::AllocError;

/// Whether two values are the same that name no records. Values of different forms are not.
#[tactic(auto, using(crate::proofs::Agreeing::agrees))]
fn agree(dag: &mut Dag, a: &Shape, b: &Shape) -> Result<BoolId, AllocError>
    requires a { Stands dag.old a.now }
    requires b { Stands dag.old b.now }
    ensures keeps { Keeps dag.old dag.new }
    ensures agrees { IfOk result (λ r. Agrees dag.new a.now b.now r) }
{
    if !alike(a, b) {
        let r = flag(dag, false)?;
        return Ok(r);
    }
    let r = same(dag, a, b)?;
    Ok(r)
}

// No result on either side.
#[tactic(auto, using(crate::proofs::Agreeing::none_agree))]
fn agree_on_none(dag: &mut Dag) -> Result<BoolId, AllocError>
    ensures keeps { Keeps dag.old dag.new }
    ensures agrees { IfOk result (λ r. ResultsAgree dag.new None None r) }
{
    let r = flag(dag, true)?;
    Ok(r)
}

/// Whether two results are the same that name no records. Where only one is there they are not.
#[tactic(auto, using(crate::proofs::Agreeing::some_agree))]
pub(crate) fn agree_on_results(
    dag: &mut Dag,
    a: &Option<Shape>,
    b: &Option<Shape>,
) -> Result<BoolId, AllocError>
    requires a { AnyStands dag.old a.now }
    requires b { AnyStands dag.old b.now }
    ensures keeps { Keeps dag.old dag.new }
    ensures agrees { IfOk result (λ r. ResultsAgree dag.new a.now b.now r) }
{
    match a {
        None => match b {
            None => {
                let r = agree_on_none(dag)?;
                Ok(r)
            }
            Some(_) => {
                let r = flag(dag, false)?;
                Ok(r)
            }
        },
        Some(x) => match b {
            None => {
                let r = flag(dag, false)?;
                Ok(r)
            }
            Some(y) => {
                let r = agree(dag, x, y)?;
                Ok(r)
            }
        },
    }
}

/// Whether two lists of values are the same that name no records. Lists of different forms are not.
#[tactic(auto, using(crate::proofs::Agreeing::lists))]
pub(crate) fn agree_on_all(
    dag: &mut Dag,
    a: List<Shape>,
    b: List<Shape>,
) -> Result<BoolId, AllocError>
    requires a { AllStand dag.old a }
    requires b { AllStand dag.old b }
    ensures keeps { Keeps dag.old dag.new }
    ensures agrees { IfOk result (λ r. AllAgree dag.new a b r) }
{
    let left = Shape::Array(a);
    let right = Shape::Array(b);
    let r = agree(dag, &left, &right)?;
    Ok(r)
}
