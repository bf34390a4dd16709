//! A sum as a node.

ghost use Rattle.std.specs.Prelude.{◌≡◌, List, All, IfOk};
ghost use Rattle.sk_dag.specs.declared.env.Env.{Env};
ghost use Rattle.sk_dag.specs.Graph.{Graph, Grows, HasBool, BoolSort, sort_of, MayFollow};
ghost use Rattle.sk_dag.specs.Eval.{bool_value, graph_values, Keeps};
ghost use Rattle.sk_simplify.specs.Reduct.{IsWorth};
ghost use Rattle.sk_sums.specs.Sums.{sum_at, sum_value, AreTruths, SumsTo};

use crate::spread::{Sum, spread};
use sk_dag::{BoolId, Dag, Node};
use std::alloc::{AllocError, Global};

// The sum of some nodes.
fn added(dag: &mut Dag, terms: &[usize]) -> Result<BoolId, AllocError>
    requires { AreTruths dag.old terms.now }
    ensures keeps { Keeps dag.old dag.new }
    ensures there { IfOk result (λ r. HasBool dag.new.nodes r) }
    ensures value { IfOk result (λ r. (g : Graph) → Grows dag.new g → (e : Env) → bool_value g e r ≡ sum_at (graph_values g e) terms.now) }
{
    let mut all = dag.flag(false)?;
    for term in terms {
        all = dag.xor(all, BoolId { index: *term })?;
    }
    Ok(all)
}

// The node of a sum.
fn written(dag: &mut Dag, sum: &Sum) -> Result<BoolId, AllocError>
    requires { AreTruths dag.old sum.now.terms.items }
    ensures keeps { Keeps dag.old dag.new }
    ensures there { IfOk result (λ r. HasBool dag.new.nodes r) }
    ensures value { IfOk result (λ r. (g : Graph) → Grows dag.new g → (e : Env) → bool_value g e r ≡ sum_value (graph_values g e) sum.now) }
{
    let all = added(dag, &sum.terms)?;
    let odd = dag.flag(sum.odd)?;
    let r = dag.xor(odd, all)?;
    Ok(r)
}

// A node with the value of this one, whose terms are written anew, if they are few.
fn anew(alloc: Global, dag: &mut Dag, top: BoolId) -> Result<BoolId, AllocError>
    requires { HasBool dag.old.nodes top }
    ensures keeps { Keeps dag.old dag.new }
    ensures there { IfOk result (λ r. HasBool dag.new.nodes r) }
    ensures value { IfOk result (λ r. (g : Graph) → Grows dag.new g → (e : Env) → bool_value g e r ≡ bool_value g e top) }
{
    match spread(alloc, dag, top)? {
        Some(sum) => {
            let r = written(dag, &sum)?;
            Ok(r)
        }
        None => Ok(top),
    }
}

/// The number of a node, or where it is a chosen sum, of that sum anew.
pub(crate) fn put(
    alloc: Global,
    dag: &mut Dag,
    node: Node,
    is_chosen: bool,
) -> Result<usize, AllocError>
    requires { MayFollow dag.old.bits dag.old.nodes node }
    ensures keeps { Keeps dag.old dag.new }
    ensures worth { IfOk result (λ i. IsWorth dag.new node i) }
{
    match node {
        Node::Xor(a, b) => {
            let plain = dag.xor(a, b)?;
            if !is_chosen {
                return Ok(plain.index);
            }
            let r = anew(alloc, dag, plain)?;
            let _width = dag.int_bits();
            Ok(r.index)
        }
        _ => {
            let i = dag.intern(node)?;
            Ok(i)
        }
    }
}
