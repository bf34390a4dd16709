//! The terms of a sum modulo 2.

ghost use Rattle.std.specs.Prelude.{◌≡◌, ◌≤◌, ◌<◌, List, true, All, length, slice_index, OnOk, IfOk, IfSome, IsTrue};
ghost use Rattle.sk_dag.specs.declared.env.Env.{Env};
ghost use Rattle.sk_dag.specs.declared.value.Value.{Value};
ghost use Rattle.sk_dag.specs.Graph.{Graph, Grows, HasSort, HasBool, BoolSort};
ghost use Rattle.sk_dag.specs.Eval.{graph_values};
ghost use Rattle.sk_sums.specs.Sums.{plus, truth_at, sum_value, AreTruths, StandsAt, SumsTo};

use sk_dag::{BoolId, Dag, Node};
use std::alloc::{AllocError, Global};

// A sum is followed while it has at most so many terms.
const TERMS: usize = 256;

// So many of its nodes are followed at most.
const STEPS: usize = 1_024;

/// A sum modulo 2.
#[derive(Drop)]
pub(crate) struct Sum {
    /// Whether 1 is added.
    pub(crate) odd: bool,
    /// Whether terms were equal and fell away.
    pub(crate) cancels: bool,
    /// The numbers of the nodes that are added, in order.
    pub(crate) terms: Vec<usize>,
}

// How many of the numbers are below this one, if they are in order.
fn place_of(sorted: &[usize], number: usize) -> usize
    ensures { result ≤ length sorted.now }
{
    let mut below = 0;
    for x in sorted {
        if *x >= number {
            return below;
        }
        below += 1;
    }
    below
}

// Whether this number stands at a place.
fn stands_at(numbers: &[usize], place: usize, number: usize) -> bool
    ensures { IsTrue result → StandsAt numbers.now place number }
{
    place < numbers.len() && numbers[place] == number
}

// Adds a term, or takes it away where it is there.
fn add(sum: &mut Sum, term: usize) -> Result<(), AllocError>
    ensures there { OnOk result ((graph : Graph) → HasSort graph.nodes term BoolSort → AreTruths graph sum.old.terms.items → AreTruths graph sum.new.terms.items) }
    ensures value { OnOk result ((vs : List Value) → sum_value vs sum.new ≡ plus (truth_at vs term) (sum_value vs sum.old)) }
{
    let place = place_of(&sum.terms, term);
    if stands_at(&sum.terms, place, term) {
        sum.terms.remove(place);
        sum.cancels = true;
        return Ok(());
    }
    sum.terms.insert(place, term)?;
    Ok(())
}

// Takes away the term at a place.
fn take_away(sum: &mut Sum, place: usize)
    requires { place < length sum.old.terms.items }
    ensures there { (graph : Graph) → AreTruths graph sum.old.terms.items → AreTruths graph sum.new.terms.items }
    ensures value { (vs : List Value) → sum_value vs sum.new ≡ plus (truth_at vs (slice_index sum.old.terms.items place)) (sum_value vs sum.old) }
{
    sum.terms.remove(place);
}

// Adds 1.
fn turn(sum: &mut Sum)
    ensures terms { sum.new.terms ≡ sum.old.terms }
    ensures value { (vs : List Value) → sum_value vs sum.new ≡ plus true (sum_value vs sum.old) }
{
    sum.odd = !sum.odd;
}

// In the place of a term, what it is the sum of, where it is one.
fn follow(dag: &Dag, sum: &mut Sum, place: usize) -> Result<(), AllocError>
    requires place { place < length sum.old.terms.items }
    requires there { AreTruths dag.now sum.old.terms.items }
    ensures there { OnOk result (AreTruths dag.now sum.new.terms.items) }
    ensures value { OnOk result ((g : Graph) → Grows dag.now g → (e : Env) → sum_value (graph_values g e) sum.new ≡ sum_value (graph_values g e) sum.old) }
{
    match *dag.node(sum.terms[place]) {
        Node::Xor(a, b) => {
            take_away(sum, place);
            add(sum, a.index)?;
            add(sum, b.index)?;
            Ok(())
        }
        Node::Not(a) => {
            take_away(sum, place);
            turn(sum);
            add(sum, a.index)?;
            Ok(())
        }
        _ => Ok(()),
    }
}

/// The sum that a node is, where it has few terms.
pub(crate) fn spread(alloc: Global, dag: &Dag, top: BoolId) -> Result<Option<Sum>, AllocError>
    requires { HasBool dag.now.nodes top }
    ensures { IfOk result (λ found. IfSome found (λ s. SumsTo dag.now s top.index)) }
{
    let mut sum = Sum {
        odd: false,
        cancels: false,
        terms: vec![in alloc; top.index]?,
    };
    let mut place = 0;
    for _ in 0..STEPS {
        if sum.terms.len() > TERMS || place >= sum.terms.len() {
            break;
        }
        let number = sum.terms[place];
        follow(dag, &mut sum, place)?;
        let below = place_of(&sum.terms, number);
        if below == 0 {
            return Ok(Some(sum));
        }
        place = below - 1;
    }
    Ok(None)
}
