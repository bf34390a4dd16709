//! Formulas that grow by one root after another.

ghost use Rattle.std.specs.Prelude.{◌≡◌, ℕ, ◌+◌, ◌<◌, ◌≤◌, ◌++◌, [], ◌∷◌, Bool, false, All, length, slice_get, Some, IsTrue, IfOk, OnOk, OnErr, List};
ghost use Rattle.sk_clause.specs.Problem.{Problem};
ghost use Rattle.sk_dag.specs.declared.node.BoolId.{BoolId as BoolIdOf};
ghost use Rattle.sk_dag.specs.Graph.{Graph, Grows, HasBool};
ghost use Rattle.sk_dag.specs.Reach.{IsClosed, IsMarked};
ghost use Rattle.sk_gates.specs.Bits.{reach};
ghost use Rattle.sk_gates.specs.Extension.{Continues};
ghost use Rattle.sk_cnf.specs.Codes.{TableFits, IsLonger};
ghost use Rattle.sk_cnf.specs.Formula.{AreLeaves, IsAbsent, IsEncoding, Tight};
ghost use Rattle.sk_cnf.specs.Standing.{Begins, Covers, Demands, Gains, IsCoded, IsNamed, Shows, Stands};

use crate::code::{Code, code_at, truth_of};
use crate::encoder::encode_node;
use crate::leaf::Leaf;
use indexmap::IndexSet;
use sk_base::List;
use sk_clause::Clauses;
use sk_dag::{BoolId, Dag};
use sk_gates::{Bit, Made, SharedGates};
use std::alloc::{AllocError, Global};

/// Clauses, some of whose variables have names.
#[derive(Debug, Drop)]
pub struct Encoded {
    /// The clauses, and the number of their variables.
    pub clauses: Clauses,
    /// The variables of the names, in order.
    pub names: List<usize>,
}

/// A formula over the bits of leaves that says of some roots of a graph that they are true. Graph and roots may grow.
#[derive(Drop)]
pub struct Growing {
    alloc: Global,
    leaves: IndexSet<Leaf>,
    encoded: Encoded,
    codes: List<Option<Code>>,
    made: Made,
}

// Gives a leaf that has no name a new one.
fn name_leaf(
    encoded: &mut Encoded,
    leaves: &mut IndexSet<Leaf>,
    leaf: Leaf,
) -> Result<(), AllocError>
    requires new { IsAbsent leaves.old.keys leaf }
    requires named { IsNamed encoded.old leaves.old.keys }
    ensures named { OnOk result (IsNamed encoded.new leaves.new.keys) }
    ensures keys { OnOk result (leaves.new.keys ≡ leaves.old.keys ++ leaf ∷ []) }
{
    let var = encoded.clauses.fresh()?;
    encoded.names.push(var)?;
    leaves.insert_full(leaf)?;
    Ok(())
}

// A name for each leaf, and a set of the leaves in their order.
fn named(alloc: Global, leaves: &[Leaf]) -> Result<(Encoded, IndexSet<Leaf>), AllocError>
    requires { AreLeaves leaves.now }
    ensures named { IfOk result (λ r. IsNamed r.0 leaves.now) }
    ensures keys { IfOk result (λ r. r.1.keys ≡ leaves.now) }
{
    let mut encoded = Encoded {
        clauses: Clauses::new(alloc),
        names: List::new(alloc),
    };
    let mut set = IndexSet::new(alloc);
    for i in 0..leaves.len() {
        name_leaf(&mut encoded, &mut set, leaves[i])?;
    }
    Ok((encoded, set))
}

// Makes a table longer by empty places.
fn lengthen(codes: &mut List<Option<Code>>, len: usize) -> Result<(), AllocError>
    requires { length codes.old ≤ len }
    ensures length { OnOk result (length codes.new ≡ len) }
    ensures fits { (w vars : ℕ) → TableFits w vars codes.old → TableFits w vars codes.new }
    ensures codes { IsLonger codes.old codes.new }
    ensures short { length codes.new ≤ len }
{
    for _ in codes.len()..len {
        codes.push(None)?;
    }
    Ok(())
}

// Whether the place of the table is to be filled.
fn is_wanted(marks: &[bool], codes: &List<Option<Code>>, i: usize) -> bool
    requires { i < length marks.now }
    ensures yes { IsTrue result → IsMarked marks.now i }
    ensures no { IsMarked marks.now i → (result ≡ false) → IsCoded codes.now i }
{
    match code_at(codes.as_slice(), i) {
        Some(_) => false,
        None => marks[i],
    }
}

// Encodes the node of this number, if it is marked and has no code yet.
#[tactic(auto, using(sk_gates::proofs::ExtensionLaws::growing))]
fn encode_place(
    alloc: Global,
    to: &mut SharedGates,
    leaves: &IndexSet<Leaf>,
    names: &[usize],
    codes: &mut List<Option<Code>>,
    dag: &Dag,
    marks: &[bool],
    i: usize,
) -> Result<(), AllocError>
    requires place { i < length dag.now.nodes }
    requires closed { IsClosed dag.now.nodes marks.now }
    requires names { length names.now ≡ length leaves.now.keys }
    requires within { All (λ x. x < to.old.vars) names.now }
    requires covers { (old : Problem) × Covers old dag.now leaves.now.keys names.now marks.now to.old codes.old i }
    ensures covers { (old : Problem) → Covers old dag.now leaves.now.keys names.now marks.now to.old codes.old i
        → OnOk result (Covers old dag.now leaves.now.keys names.now marks.now to.new codes.new (i + 1)) }
    ensures refused { OnErr result (codes.new ≡ codes.old) }
    ensures behind { Continues to.old to.new }
{
    let wanted = is_wanted(marks, codes, i);
    if !wanted {
        return Ok(());
    }
    let width = dag.int_bits();
    let node = *dag.node(i);
    let code = encode_node(alloc, to, leaves, names, width, codes.as_slice(), node)?;
    codes.set(i, Some(code));
    Ok(())
}

// Encodes the marked nodes that have no code yet, from children to parents.
#[tactic(auto, using(sk_gates::proofs::ExtensionLaws::growing))]
fn encode_marked(
    alloc: Global,
    to: &mut SharedGates,
    leaves: &IndexSet<Leaf>,
    names: &[usize],
    codes: &mut List<Option<Code>>,
    dag: &Dag,
    marks: &[bool],
) -> Result<(), AllocError>
    requires closed { IsClosed dag.now.nodes marks.now }
    requires names { length names.now ≡ length leaves.now.keys }
    requires within { All (λ x. x < to.old.vars) names.now }
    requires covers { Covers to.old dag.now leaves.now.keys names.now marks.now to.old codes.old 0 }
    ensures covers { OnOk result (Covers to.old dag.now leaves.now.keys names.now marks.now to.new codes.new (length dag.now.nodes)) }
    ensures refused { OnErr result (Shows dag.now leaves.now.keys names.now to.new codes.new) }
    ensures behind { Continues to.old to.new }
{
    for i in 0..dag.len() {
        encode_place(alloc, to, leaves, names, codes, dag, marks, i)?;
    }
    Ok(())
}

// Adds what makes the bit true: nothing where it is so already.
fn demand(to: &mut SharedGates, bit: Bit) -> Result<(), AllocError>
    requires { reach bit ≤ to.old.vars }
    ensures ok { OnOk result (Demands to.old to.new bit) }
    ensures err { OnErr result (to.new ≡ to.old) }
{
    match bit {
        Bit::Constant(true) => Ok(()),
        Bit::Constant(false) => to.push(&[]),
        Bit::Literal(lit) => to.push(&[lit]),
    }
}

// Adds that the root is true, with the nodes below it that have no code yet.
#[tactic(auto, using(sk_gates::proofs::ExtensionLaws::growing))]
fn add_root(
    alloc: Global,
    to: &mut SharedGates,
    leaves: &IndexSet<Leaf>,
    names: &[usize],
    codes: &mut List<Option<Code>>,
    dag: &Dag,
    marks: &[bool],
    root: BoolId,
) -> Result<(), AllocError>
    requires closed { IsClosed dag.now.nodes marks.now }
    requires names { length names.now ≡ length leaves.now.keys }
    requires within { All (λ x. x < to.old.vars) names.now }
    requires covers { Covers to.old dag.now leaves.now.keys names.now marks.now to.old codes.old 0 }
    ensures gains { OnOk result (Gains to.old to.new dag.now leaves.now.keys names.now marks.now codes.new root) }
    ensures refused { OnErr result (Shows dag.now leaves.now.keys names.now to.new codes.new) }
    ensures kept { OnErr result (Continues to.old to.new) }
{
    encode_marked(alloc, to, leaves, names, codes, dag, marks)?;
    let bit = truth_of(codes.as_slice(), root);
    demand(to, bit)?;
    Ok(())
}

#[tactic(auto, using(crate::proofs::StandingLaws::beginning))]
impl Growing {
    /// A formula over names for the leaves, in order, that says nothing of them.
    ///
    /// A leaf of a bit above the 31st says nothing of the environment.
    pub fn new(alloc: Global, leaves: &[Leaf]) -> Result<Growing, AllocError>
        requires { AreLeaves leaves.now }
        ensures leaves { IfOk result (λ r. r.leaves.keys ≡ leaves.now) }
        ensures stands { IfOk result (λ r. (w : ℕ) → Stands r (record { bits = w; nodes = [] }) []) }
        ensures tight { IfOk result (λ r. Tight r.encoded) }
    {
        let (encoded, leaves) = named(alloc, leaves)?;
        Ok(Growing {
            alloc,
            leaves,
            encoded,
            codes: List::new(alloc),
            made: Made::new(alloc),
        })
    }

    /// Adds that a root of the graph is true. The graph has all nodes that it had at the calls before, maybe with others
    /// behind them, and the same width. Names and clauses stay, and new clauses stand behind the old ones.
    ///
    /// After a refusal the formula may hold further variables and clauses. They leave the meaning of its names as it was,
    /// but bits of the names may extend in more than one way. It can be called again, with a graph that has the nodes of
    /// the refused call too.
    pub fn require(&mut self, dag: &Dag, root: BoolId) -> Result<(), AllocError>
        requires root { HasBool dag.now.nodes root }
        requires begun { (g : Graph) × (roots : List BoolIdOf) × Stands self.old g roots × Grows g dag.now }
        ensures stands { (g : Graph) (roots : List BoolIdOf) → Stands self.old g roots → Grows g dag.now → OnOk result (Stands self.new dag.now (roots ++ root ∷ [])) }
        ensures tight { Tight self.old.encoded → OnOk result (Tight self.new.encoded) }
        ensures refused { (g : Graph) (roots : List BoolIdOf) → Stands self.old g roots → Grows g dag.now → OnErr result (Stands self.new dag.now roots) }
        ensures leaves { self.new.leaves ≡ self.old.leaves }
        ensures names { self.new.encoded.names ≡ self.old.encoded.names }
        ensures behind { Begins self.old.encoded.clauses self.new.encoded.clauses }
    {
        let marks = dag.reached(&[root])?;
        lengthen(&mut self.codes, dag.len())?;
        let none = Clauses::new(self.alloc);
        let clauses = std::mem::replace(&mut self.encoded.clauses, none);
        let nothing = Made::new(self.alloc);
        let made = std::mem::replace(&mut self.made, nothing);
        let mut gates = SharedGates::from_parts(clauses, made);
        let ended = add_root(
            self.alloc,
            &mut gates,
            &self.leaves,
            self.encoded.names.as_slice(),
            &mut self.codes,
            dag,
            marks.as_slice(),
            root,
        );
        let (clauses, made) = gates.into_parts();
        self.encoded.clauses = clauses;
        self.made = made;
        ended
    }

    /// The formula, which has a name for each leaf in order.
    pub fn encoded(&self) -> &Encoded
        ensures { result.now ≡ self.now.encoded }
    {
        &self.encoded
    }
}

/// A formula over names for the leaves, in order, that bits for them meet exactly where the root is true in the
/// environment that they say, and in one way. Bits of holes and of the input that have no leaf are 0.
pub fn encode(
    alloc: Global,
    dag: &Dag,
    root: BoolId,
    leaves: &[Leaf],
) -> Result<Encoded, AllocError>
    requires root { HasBool dag.now.nodes root }
    requires leaves { AreLeaves leaves.now }
    ensures { IfOk result (λ f. IsEncoding f leaves.now dag.now (root ∷ [])) }
{
    let mut growing = Growing::new(alloc, leaves)?;
    growing.require(dag, root)?;
    let Growing { encoded, .. } = growing;
    Ok(encoded)
}
