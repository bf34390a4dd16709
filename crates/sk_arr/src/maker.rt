//! Makers that add no node where the answer is there already.

ghost use Rattle.std.specs.Prelude.{◌≡◌, ◌&&◌, ◌||◌, ◌↔◌, ℤ, Bool, Some, IfOk, IfSome, if◌then◌else◌, not, slice_get};
ghost use Rattle.sk_base.specs.Word.{IsWord};
ghost use Rattle.sk_dag.specs.declared.env.Env.{Env};
ghost use Rattle.sk_dag.specs.declared.node.Node.TheVariants as node;
ghost use Rattle.sk_dag.specs.Graph.{Graph, Grows, HasBool, HasWord};
ghost use Rattle.sk_dag.specs.Eval.{bool_value, word_value, Keeps};

use sk_dag::{BoolId, Dag, Node, WordId};
use std::alloc::AllocError;

/// The truth value of a node, where it is given.
#[tactic(auto, using(crate::proofs::Makers::reading), unfolding(sk_dag::specs::Eval::value_of, sk_dag::specs::Eval::bool_value))]
pub fn flag_of(dag: &Dag, a: BoolId) -> Option<bool>
    requires { HasBool dag.now.nodes a }
    ensures value { IfSome result (λ b. (g : Graph) → Grows dag.now g → (e : Env) → bool_value g e a ≡ b) }
    ensures given { (b : Bool) → (result ≡ Some b) ↔ (slice_get dag.now.nodes a.index ≡ Some (node.Flag b)) }
{
    match *dag.node(a.index) {
        Node::Flag(b) => Some(b),
        _ => None,
    }
}

/// The word of a node, where it is given.
#[tactic(auto, using(crate::proofs::Makers::reading), unfolding(sk_dag::specs::Eval::value_of, sk_dag::specs::Eval::word_value))]
pub(crate) fn number_of(dag: &Dag, a: WordId) -> Option<i64>
    requires { HasWord dag.now.nodes a }
    ensures value { IfSome result (λ n. (g : Graph) → Grows dag.now g → (e : Env) → word_value g e a ≡ n) }
    ensures given { (n : ℤ) → (result ≡ Some n) ↔ (slice_get dag.now.nodes a.index ≡ Some (node.Word n)) }
    ensures range { (g : Graph) → Grows dag.now g → (e : Env) → IsWord dag.now.bits (word_value g e a) }
{
    match *dag.node(a.index) {
        Node::Word(n) => Some(n),
        _ => None,
    }
}

/// `a` where `c` holds, else `b`.
#[tactic(auto, using(crate::proofs::Makers::staying))]
pub(crate) fn pick_bool(
    dag: &mut Dag,
    c: BoolId,
    a: BoolId,
    b: BoolId,
) -> Result<BoolId, AllocError>
    requires c { HasBool dag.old.nodes c }
    requires a { HasBool dag.old.nodes a }
    requires b { HasBool dag.old.nodes b }
    ensures keeps { Keeps dag.old dag.new }
    ensures there { IfOk result (λ r. HasBool dag.new.nodes r) }
    ensures value { IfOk result (λ r. (g : Graph) → Grows dag.new g → (e : Env) →
        bool_value g e r ≡ (if bool_value g e c then bool_value g e a else bool_value g e b)) }
{
    if a.index == b.index {
        return Ok(a);
    }
    let r = dag.bool_mux(c, a, b)?;
    Ok(r)
}

/// `a` where `c` holds, else `b`.
#[tactic(auto, using(crate::proofs::Makers::staying))]
pub(crate) fn pick_word(
    dag: &mut Dag,
    c: BoolId,
    a: WordId,
    b: WordId,
) -> Result<WordId, AllocError>
    requires c { HasBool dag.old.nodes c }
    requires a { HasWord dag.old.nodes a }
    requires b { HasWord dag.old.nodes b }
    ensures keeps { Keeps dag.old dag.new }
    ensures there { IfOk result (λ r. HasWord dag.new.nodes r) }
    ensures value { IfOk result (λ r. (g : Graph) → Grows dag.new g → (e : Env) →
        word_value g e r ≡ (if bool_value g e c then word_value g e a else word_value g e b)) }
{
    if a.index == b.index {
        return Ok(a);
    }
    let r = dag.mux(c, a, b)?;
    Ok(r)
}

/// Whether both hold.
#[tactic(auto, using(crate::proofs::Makers::staying))]
pub fn both(dag: &mut Dag, a: BoolId, b: BoolId) -> Result<BoolId, AllocError>
    requires a { HasBool dag.old.nodes a }
    requires b { HasBool dag.old.nodes b }
    ensures keeps { Keeps dag.old dag.new }
    ensures there { IfOk result (λ r. HasBool dag.new.nodes r) }
    ensures value { IfOk result (λ r. (g : Graph) → Grows dag.new g → (e : Env) →
        bool_value g e r ≡ (bool_value g e a && bool_value g e b)) }
{
    match flag_of(dag, a) {
        Some(true) => return Ok(b),
        Some(false) => return Ok(a),
        None => {}
    }
    match flag_of(dag, b) {
        Some(true) => return Ok(a),
        Some(false) => return Ok(b),
        None => {}
    }
    let r = dag.and(a, b)?;
    Ok(r)
}

/// Whether at least one holds.
#[tactic(auto, using(crate::proofs::Makers::staying))]
pub fn either(dag: &mut Dag, a: BoolId, b: BoolId) -> Result<BoolId, AllocError>
    requires a { HasBool dag.old.nodes a }
    requires b { HasBool dag.old.nodes b }
    ensures keeps { Keeps dag.old dag.new }
    ensures there { IfOk result (λ r. HasBool dag.new.nodes r) }
    ensures value { IfOk result (λ r. (g : Graph) → Grows dag.new g → (e : Env) →
        bool_value g e r ≡ (bool_value g e a || bool_value g e b)) }
{
    match flag_of(dag, a) {
        Some(true) => return Ok(a),
        Some(false) => return Ok(b),
        None => {}
    }
    match flag_of(dag, b) {
        Some(true) => return Ok(b),
        Some(false) => return Ok(a),
        None => {}
    }
    let r = dag.or(a, b)?;
    Ok(r)
}

/// Whether it does not hold.
#[tactic(auto, using(crate::proofs::Makers::staying))]
pub(crate) fn opposite(dag: &mut Dag, a: BoolId) -> Result<BoolId, AllocError>
    requires { HasBool dag.old.nodes a }
    ensures keeps { Keeps dag.old dag.new }
    ensures there { IfOk result (λ r. HasBool dag.new.nodes r) }
    ensures value { IfOk result (λ r. (g : Graph) → Grows dag.new g → (e : Env) →
        bool_value g e r ≡ not (bool_value g e a)) }
{
    if let Some(known) = flag_of(dag, a) {
        let r = dag.flag(!known)?;
        return Ok(r);
    }
    let r = dag.not(a)?;
    Ok(r)
}
