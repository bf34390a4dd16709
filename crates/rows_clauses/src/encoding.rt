//! Small graphs, of which all environments are tried.

ghost use Rattle.std.specs.Prelude.{◌≡◌, ◌≤◌, ℕ, [], ◌∷◌, IsTrue, IfOk, List};
ghost use Rattle.sk_dag.specs.declared.node.BoolId.{BoolId as BoolIdOf};
ghost use Rattle.sk_cnf.specs.Standing.{Stands};
ghost use Rattle.sk_dag.specs.Graph.{MayFollow};

use crate::forced::{make_true, propagate};
use row_tables::{Fault, Report, expect, has_bool, has_cost, has_word, is_word};
use sk_base::List;
use sk_clause::Lit;
use sk_cnf::{Encoded, Growing, Leaf, are_distinct, encode};
use sk_dag::{BoolId, CostId, Dag, Node, WordId};
use std::alloc::{AllocError, Global};

// Whether bits for the names extend to values that meet the clauses. `None` where propagation alone does not tell; else
// the extension is the only one.
fn extends(alloc: Global, formula: &Encoded, bits: u64) -> Result<Option<bool>, AllocError> {
    let mut values = vec![in alloc; None; formula.clauses.vars()]?;
    for i in 0..formula.names.len() {
        let name = formula.names.as_slice()[i];
        make_true(
            &mut values,
            Lit {
                var: name,
                neg: bits >> (i % 64) & 1 == 0,
            },
        );
    }
    Ok(propagate(&formula.clauses, &mut values))
}

// ---- graphs

// Whether the nodes that a node names are there, with their sorts.
fn fits(dag: &Dag, node: Node) -> bool
    ensures { IsTrue result → MayFollow dag.now.bits dag.now.nodes node }
{
    match node {
        Node::Flag(_) | Node::HoleBit(_, _) | Node::HoleWord(_) => true,
        Node::InputBit(_) | Node::InputWord(_) | Node::CostZero => true,
        Node::Word(number) => is_word(dag.int_bits(), number),
        Node::Not(a) => has_bool(dag, a),
        Node::And(a, b) | Node::Or(a, b) | Node::Xor(a, b) => has_bool(dag, a) && has_bool(dag, b),
        Node::Add(a, b) | Node::Sub(a, b) | Node::Mul(a, b) | Node::Div(a, b) => {
            has_word(dag, a) && has_word(dag, b)
        }
        Node::Rem(a, b) | Node::Lt(a, b) | Node::Eq(a, b) => has_word(dag, a) && has_word(dag, b),
        Node::BoolMux(c, a, b) => has_bool(dag, c) && has_bool(dag, a) && has_bool(dag, b),
        Node::Mux(c, a, b) => has_bool(dag, c) && has_word(dag, a) && has_word(dag, b),
        Node::CostAdd(c, g, x) => has_cost(dag, c) && has_bool(dag, g) && has_word(dag, x),
        Node::CostLe(c, _) => has_cost(dag, c),
    }
}

fn put(dag: &mut Dag, node: Node) -> Result<usize, Fault> {
    expect(fits(dag, node))?;
    let index = dag.intern(node)?;
    Ok(index)
}

// The graph of these nodes.
fn graph_of(alloc: Global, bits: u32, nodes: &[Node]) -> Result<Dag, Fault> {
    expect(bits >= 2 && bits <= 32)?;
    let mut dag = Dag::new(alloc, bits);
    for node in nodes {
        put(&mut dag, *node)?;
    }
    Ok(dag)
}

// ---- each kind of node

const X: WordId = WordId { index: 0 };

const Y: WordId = WordId { index: 1 };

const Z: WordId = WordId { index: 2 };

const A: BoolId = BoolId { index: 3 };

const B: BoolId = BoolId { index: 4 };

const C: BoolId = BoolId { index: 5 };

const FREE: CostId = CostId { index: 6 };

const OP: usize = 7;

const WORD: WordId = WordId { index: OP };

const TRUTH: BoolId = BoolId { index: OP };

const COST: CostId = CostId { index: OP };

// The first nodes of each graph: two scalars of the input and a hole, whether the scalars are not 0, bit 1 of the hole,
// and a cost of 0.
const FIRST: [Node; 7] = [
    Node::InputWord(0),
    Node::InputWord(1),
    Node::HoleWord(0),
    Node::InputBit(0),
    Node::InputBit(1),
    Node::HoleBit(0, 1),
    Node::CostZero,
];

#[derive(Clone, Copy)]
enum Kind {
    Flag,
    Word,
    HighBit,
    Not,
    And,
    Or,
    Xor,
    BoolMux,
    Mux,
    Add,
    Sub,
    Mul,
    Div,
    Rem,
    Lt,
    Eq,
    Cost,
}

// Each kind of node, and a root that stands on it.
const KINDS: &[(Kind, Node, Node)] = &[
    (Kind::Flag, Node::Flag(true), Node::Xor(TRUTH, A)),
    (Kind::Word, Node::Word(-2), Node::Eq(WORD, Z)),
    (Kind::HighBit, Node::HoleBit(0, 32), Node::Or(TRUTH, C)),
    (Kind::Not, Node::Not(A), Node::Xor(TRUTH, C)),
    (Kind::And, Node::And(A, B), Node::Not(TRUTH)),
    (Kind::Or, Node::Or(A, B), Node::Not(TRUTH)),
    (Kind::Xor, Node::Xor(A, B), Node::Not(TRUTH)),
    (Kind::BoolMux, Node::BoolMux(C, A, B), Node::Not(TRUTH)),
    (Kind::Mux, Node::Mux(A, X, Y), Node::Eq(WORD, Z)),
    (Kind::Add, Node::Add(X, Y), Node::Eq(WORD, Z)),
    (Kind::Sub, Node::Sub(X, Y), Node::Eq(WORD, Z)),
    (Kind::Mul, Node::Mul(X, Y), Node::Eq(WORD, Z)),
    (Kind::Div, Node::Div(X, Y), Node::Eq(WORD, Z)),
    (Kind::Rem, Node::Rem(X, Y), Node::Eq(WORD, Z)),
    (Kind::Lt, Node::Lt(X, Y), Node::Not(TRUTH)),
    (Kind::Eq, Node::Eq(X, Y), Node::Not(TRUTH)),
    (Kind::Cost, Node::CostAdd(FREE, A, Y), Node::CostLe(COST, 1)),
];

// The table. Proofs see no row of it.
fn kinds() -> &'static [(Kind, Node, Node)] {
    KINDS
}

// The word with these bits, where there are so many words.
fn signed(count: i64, bits: i64) -> i64 {
    if bits >= count >> 1 {
        bits.wrapping_sub(count)
    } else {
        bits
    }
}

// Whether a number has these bits, where there are so many words.
fn has_bits(count: i64, number: i64, bits: i64) -> bool {
    (number ^ bits) & count.wrapping_sub(1) == 0
}

fn quotient(a: i64, b: i64) -> i64 {
    if b == 0 { 0 } else { a.wrapping_div(b) }
}

fn remainder(a: i64, b: i64) -> i64 {
    if b == 0 { 0 } else { a.wrapping_rem(b) }
}

// Whether the root is to be true, where these are the bits of the two scalars and of the hole.
fn want(kind: Kind, count: i64, x: i64, y: i64, z: i64) -> bool {
    let (m, n) = (signed(count, x), signed(count, y));
    let (a, b, c) = (x != 0, y != 0, z >> 1 & 1 == 1);
    match kind {
        Kind::Flag => !a,
        Kind::Word => has_bits(count, -2, z),
        Kind::HighBit => c,
        Kind::Not => !a != c,
        Kind::And => !(a && b),
        Kind::Or => !(a || b),
        Kind::Xor => a == b,
        Kind::BoolMux => if c { !a } else { !b },
        Kind::Mux => z == if a { x } else { y },
        Kind::Add => has_bits(count, m.wrapping_add(n), z),
        Kind::Sub => has_bits(count, m.wrapping_sub(n), z),
        Kind::Mul => has_bits(count, m.wrapping_mul(n), z),
        Kind::Div => has_bits(count, quotient(m, n), z),
        Kind::Rem => has_bits(count, remainder(m, n), z),
        Kind::Lt => m >= n,
        Kind::Eq => x != y,
        Kind::Cost => !a || n <= 1,
    }
}

// Adds a leaf for each of so many bits of a scalar of the input.
fn push_scalar(leaves: &mut List<Leaf>, scalar: u32, bits: u32) -> Result<(), AllocError> {
    for k in 0..bits {
        leaves.push(Leaf::Input { scalar, k })?;
    }
    Ok(())
}

// Adds a leaf for each of so many bits of the hole.
fn push_hole(leaves: &mut List<Leaf>, bits: u32) -> Result<(), AllocError> {
    for k in 0..bits {
        leaves.push(Leaf::Hole { site: 0, k })?;
    }
    Ok(())
}

// A leaf for each of so many bits of the scalars below one, and of so many bits of the hole.
fn leaves_of(alloc: Global, scalars: u32, bits: u32, hole: u32) -> Result<List<Leaf>, AllocError> {
    let mut leaves = List::new(alloc);
    for scalar in 0..scalars {
        push_scalar(&mut leaves, scalar, bits)?;
    }
    push_hole(&mut leaves, hole)?;
    Ok(leaves)
}

// The formula that says that the last node of a graph is true.
fn formula_of(alloc: Global, dag: &Dag, leaves: &[Leaf]) -> Result<Encoded, Fault> {
    let root = BoolId {
        index: dag.len().saturating_sub(1),
    };
    expect(has_bool(dag, root))?;
    let distinct = are_distinct(alloc, leaves)?;
    expect(distinct)?;
    let formula = encode(alloc, dag, root, leaves)?;
    Ok(formula)
}

// The graph of these nodes, and behind them a node and a root that stands on it.
fn graph_with(
    alloc: Global,
    bits: u32,
    first: &[Node],
    node: Node,
    root: Node,
) -> Result<Dag, Fault> {
    let mut dag = graph_of(alloc, bits, first)?;
    put(&mut dag, node)?;
    put(&mut dag, root)?;
    Ok(dag)
}

// The first bits at which the formula does not say what is wanted of words of so many bits.
fn first_wrong(
    alloc: Global,
    formula: &Encoded,
    kind: Kind,
    bits: u32,
) -> Result<Option<u64>, AllocError>
    requires { bits ≤ 3 }
{
    let count = 1i64 << bits;
    for assignment in 0..512u64 {
        let all = assignment as i64;
        let x = all & count.wrapping_sub(1);
        let y = all >> bits & count.wrapping_sub(1);
        let z = all >> (2 * bits) & count.wrapping_sub(1);
        let wanted = want(kind, count, x, y, z);
        if extends(alloc, formula, assignment)? != Some(wanted) {
            return Ok(Some(assignment));
        }
    }
    Ok(None)
}

fn says_as_wanted(
    alloc: Global,
    dag: &Dag,
    leaves: &[Leaf],
    kind: Kind,
    bits: u32,
) -> Result<(), Fault>
    requires { bits ≤ 3 }
{
    let formula = formula_of(alloc, dag, leaves)?;
    let wrong = first_wrong(alloc, &formula, kind, bits)?;
    expect(wrong.is_none())
}

// Each kind of node in each environment of words of so many bits.
fn is_encoded(
    alloc: Global,
    bits: u32,
    leaves: &[Leaf],
    row: (Kind, Node, Node),
) -> Result<(), Fault>
    requires { bits ≤ 3 }
{
    let (kind, node, root) = row;
    let dag = graph_with(alloc, bits, &FIRST, node, root)?;
    says_as_wanted(alloc, &dag, leaves, kind, bits)
}

fn tell_kinds(alloc: Global, report: &mut Report) -> Result<(), AllocError> {
    for bits in 2..4u32 {
        let leaves = leaves_of(alloc, 2, bits, bits)?;
        for row in kinds() {
            report.row(is_encoded(alloc, bits, leaves.as_slice(), *row))?;
        }
    }
    report.end("kinds of nodes")
}

const TWO_AND_TWO: &[Leaf] = &[
    Leaf::Input { scalar: 0, k: 0 },
    Leaf::Input { scalar: 0, k: 1 },
    Leaf::Hole { site: 0, k: 0 },
    Leaf::Hole { site: 0, k: 1 },
];

// Two bits of the input and two of the hole. Proofs see none of them.
fn two_and_two() -> &'static [Leaf] {
    TWO_AND_TWO
}

// Two bits of the input and two of a hole: there is a hole that an input of 1 is below, and none where both are 2.
fn an_input_below_a_hole(alloc: Global) -> Result<(), Fault> {
    let nodes = [Node::InputWord(0), Node::HoleWord(0), Node::Lt(X, Y)];
    let dag = graph_of(alloc, 8, &nodes)?;
    is_below_a_hole(alloc, &dag)
}

fn is_below_a_hole(alloc: Global, dag: &Dag) -> Result<(), Fault> {
    let formula = formula_of(alloc, dag, two_and_two())?;
    let below = extends(alloc, &formula, 1 + 4 * 2)?;
    let not_below = extends(alloc, &formula, 2 + 4 * 2)?;
    expect(below == Some(true) && not_below == Some(false))
}

// ---- sizes

const NINE: WordId = WordId { index: 2 };

const TEN: WordId = WordId { index: 3 };

const SOME: BoolId = BoolId { index: 4 };

const MADE: WordId = WordId { index: 5 };

// The first nodes of each graph of 16 bits: two scalars of the input, two numbers, and whether a scalar is not 0.
const MEASURED: [Node; 5] = [
    Node::InputWord(0),
    Node::InputWord(1),
    Node::Word(9),
    Node::Word(10),
    Node::InputBit(0),
];

// A node over two words of which 5 bits have leaves, a root that stands on it, and how many variables and clauses the
// formula has: those that were counted apart.
const SIZES: &[(Node, Node, usize, usize)] = &[
    (Node::Add(X, Y), Node::Eq(MADE, NINE), 29, 71),
    (Node::Mul(X, Y), Node::Eq(MADE, NINE), 99, 318),
    (Node::Mul(X, TEN), Node::Eq(MADE, NINE), 22, 46),
    (Node::Div(X, Y), Node::Eq(MADE, NINE), 87, 282),
    (Node::Rem(X, Y), Node::Eq(MADE, NINE), 87, 282),
    (Node::Mux(SOME, X, Y), Node::Eq(MADE, NINE), 23, 45),
    (Node::Word(3), Node::Lt(X, Y), 20, 40),
];

// The table. Proofs see no row of it.
fn sizes() -> &'static [(Node, Node, usize, usize)] {
    SIZES
}

// The formula that says that the last node of a graph is true has so many variables and clauses.
fn expect_size(
    alloc: Global,
    dag: &Dag,
    leaves: &[Leaf],
    vars: usize,
    clauses: usize,
) -> Result<(), Fault> {
    let formula = formula_of(alloc, dag, leaves)?;
    expect(formula.clauses.vars() == vars && formula.clauses.len() == clauses)
}

fn is_size(alloc: Global, leaves: &[Leaf], row: (Node, Node, usize, usize)) -> Result<(), Fault> {
    let (node, root, vars, clauses) = row;
    let dag = graph_with(alloc, 16, &MEASURED, node, root)?;
    expect_size(alloc, &dag, leaves, vars, clauses)
}

fn tell_sizes(alloc: Global, report: &mut Report) -> Result<(), AllocError> {
    let leaves = leaves_of(alloc, 2, 5, 0)?;
    for row in sizes() {
        report.row(is_size(alloc, leaves.as_slice(), *row))?;
    }
    report.row(size_of_additions(alloc))?;
    report.row(size_of_quotient_and_remainder(alloc, leaves.as_slice()))?;
    report.end("sizes of formulas")
}

// Three words of which 5 bits have leaves, bit 0 of a hole, three additions to a cost of 0, and whether that is at most 9.
const CHARGED: [Node; 9] = [
    Node::InputWord(0),
    Node::InputWord(1),
    Node::InputWord(2),
    Node::HoleBit(0, 0),
    Node::CostZero,
    Node::CostAdd(CostId { index: 4 }, A, X),
    Node::CostAdd(CostId { index: 5 }, A, Y),
    Node::CostAdd(FREE, A, Z),
    Node::CostLe(COST, 9),
];

// Counted by hand. There are 16 leaves. Each addition keeps 5 bits where the bit is true: 5 variables and 15 clauses. The
// first adds nothing to 0. The second has a half adder and four full ones, 14 and 55, and the third the same and a half
// adder for the sixth bit: 16 and 62. The comparison has a gate for each of five bits: 5 and 15. One clause asks for it.
fn size_of_additions(alloc: Global) -> Result<(), Fault> {
    let leaves = leaves_of(alloc, 3, 5, 1)?;
    let dag = graph_of(alloc, 16, &CHARGED)?;
    expect_size(alloc, &dag, leaves.as_slice(), 66, 178)
}

// The division is made once: 73 variables and 269 clauses. Each of the five bits is compared, which costs 1 and 4, and four
// gates join what is apart, for 1 and 3 each.
fn size_of_quotient_and_remainder(alloc: Global, leaves: &[Leaf]) -> Result<(), Fault> {
    let nodes = [
        Node::InputWord(0),
        Node::InputWord(1),
        Node::Div(X, Y),
        Node::Rem(X, Y),
        Node::Eq(Z, WordId { index: 3 }),
    ];
    let dag = graph_of(alloc, 16, &nodes)?;
    expect_size(alloc, &dag, leaves, 10 + 73 + 5 + 4, 269 + 20 + 12 + 1)
}

// ---- formulas that grow

// A formula over names for the leaves, which says nothing yet.
fn started(alloc: Global, leaves: &[Leaf]) -> Result<Growing, Fault>
    ensures { IfOk result (λ r. (w : ℕ) → Stands r (record { bits = w; nodes = [] }) []) }
{
    let distinct = are_distinct(alloc, leaves)?;
    expect(distinct)?;
    let growing = Growing::new(alloc, leaves)?;
    Ok(growing)
}

// The formula of a first root.
fn of_root(alloc: Global, leaves: &[Leaf], dag: &Dag, root: BoolId) -> Result<Growing, Fault>
    ensures { IfOk result (λ r. Stands r dag.now (root ∷ [])) }
{
    expect(has_bool(dag, root))?;
    let mut growing = started(alloc, leaves)?;
    growing.require(dag, root)?;
    Ok(growing)
}

// The formula with a further root.
fn with_root(growing: &mut Growing, dag: &Dag, root: BoolId) -> Result<(), Fault>
    requires { (roots : List BoolIdOf) × Stands growing.old dag.now roots }
{
    expect(has_bool(dag, root))?;
    growing.require(dag, root)?;
    Ok(())
}

// Whether bits of two inputs and of two holes extend exactly where the first number is below the second and, if `also`,
// the second is not 3.
fn says_so(alloc: Global, formula: &Encoded, also: bool) -> Result<bool, AllocError> {
    for bits in 0..16u64 {
        let (x, z) = (bits & 3, bits >> 2 & 3);
        let wanted = x < z && (!also || z != 3);
        let known = extends(alloc, formula, bits)?;
        if known != Some(wanted) {
            return Ok(false);
        }
    }
    Ok(true)
}

fn roots_one_after_another(alloc: Global) -> Result<(), Fault> {
    let nodes = [
        Node::InputWord(0),
        Node::HoleWord(0),
        Node::Lt(X, Y),
        Node::Word(3),
        Node::Eq(Y, WordId { index: 3 }),
        Node::Not(BoolId { index: 4 }),
    ];
    let dag = graph_of(alloc, 8, &nodes)?;
    says_one_after_another(alloc, &dag)
}

fn says_one_after_another(alloc: Global, dag: &Dag) -> Result<(), Fault> {
    let mut growing = of_root(alloc, two_and_two(), dag, BoolId { index: 2 })?;
    expect(says_so(alloc, growing.encoded(), false)?)?;
    with_root(&mut growing, dag, BoolId { index: 5 })?;
    expect(says_so(alloc, growing.encoded(), true)?)
}

/// Tells of the tables of encodings.
pub fn tell(alloc: Global, report: &mut Report) -> Result<(), AllocError> {
    tell_kinds(alloc, report)?;
    tell_sizes(alloc, report)?;
    report.row(an_input_below_a_hole(alloc))?;
    report.row(roots_one_after_another(alloc))?;
    report.end("formulas that are met")
}
