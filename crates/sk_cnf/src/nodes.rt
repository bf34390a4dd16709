//! The bits of one node, made of those of the nodes that it names.

ghost use Rattle.std.specs.Prelude.{◌≡◌, ◌≤◌, ◌<◌, length, All, IfOk, OnErr};
ghost use Rattle.sk_base.specs.Word.{IsWord};
ghost use Rattle.sk_dag.specs.declared.node.Node.TheVariants.{And, Or, Xor, BoolMux, Mux, Add, Sub, Mul, Div, Rem, Lt, Eq, CostAdd, CostLe};
ghost use Rattle.sk_gates.specs.Extension.{Continues};
ghost use Rattle.sk_cnf.specs.Codes.{Computes, TableFits};

use crate::code::{Code, cost_of, truth_of, word_of};
use crate::signed::{
    add_words, apart, charge, constant, divide_words, multiply_words, remainder_words,
    subtract_words,
};
use sk_dag::{BoolId, CostId, WordId};
use sk_gates::{SharedGates, less_bits, mux_each};
use std::alloc::{AllocError, Global};

// Both of two truth values.
#[tactic(auto, using(sk_gates::proofs::ExtensionLaws::growing))]
pub fn and(
    to: &mut SharedGates,
    width: usize,
    codes: &[Option<Code>],
    a: BoolId,
    b: BoolId,
) -> Result<Code, AllocError>
    requires table { TableFits width to.old.vars codes.now }
    ensures code { IfOk result (Computes width codes.now (And a b) to.old to.new) }
    ensures err { OnErr result (Continues to.old to.new) }
{
    let r = to.and(truth_of(codes, a), truth_of(codes, b))?;
    Ok(Code::Truth(r))
}

// One of two truth values, or both.
#[tactic(auto, using(sk_gates::proofs::ExtensionLaws::growing))]
pub fn or(
    to: &mut SharedGates,
    width: usize,
    codes: &[Option<Code>],
    a: BoolId,
    b: BoolId,
) -> Result<Code, AllocError>
    requires table { TableFits width to.old.vars codes.now }
    ensures code { IfOk result (Computes width codes.now (Or a b) to.old to.new) }
    ensures err { OnErr result (Continues to.old to.new) }
{
    let r = to.or(truth_of(codes, a), truth_of(codes, b))?;
    Ok(Code::Truth(r))
}

// One of two truth values, and not both.
#[tactic(auto, using(sk_gates::proofs::ExtensionLaws::growing))]
pub fn xor(
    to: &mut SharedGates,
    width: usize,
    codes: &[Option<Code>],
    a: BoolId,
    b: BoolId,
) -> Result<Code, AllocError>
    requires table { TableFits width to.old.vars codes.now }
    ensures code { IfOk result (Computes width codes.now (Xor a b) to.old to.new) }
    ensures err { OnErr result (Continues to.old to.new) }
{
    let r = to.xor(truth_of(codes, a), truth_of(codes, b))?;
    Ok(Code::Truth(r))
}

// The second truth value where the first is true, else the third.
#[tactic(auto, using(sk_gates::proofs::ExtensionLaws::growing))]
pub fn bool_mux(
    to: &mut SharedGates,
    width: usize,
    codes: &[Option<Code>],
    c: BoolId,
    a: BoolId,
    b: BoolId,
) -> Result<Code, AllocError>
    requires table { TableFits width to.old.vars codes.now }
    ensures code { IfOk result (Computes width codes.now (BoolMux c a b) to.old to.new) }
    ensures err { OnErr result (Continues to.old to.new) }
{
    let condition = truth_of(codes, c);
    let r = to.mux(condition, truth_of(codes, a), truth_of(codes, b))?;
    Ok(Code::Truth(r))
}

// The first word where the truth value is true, else the second.
#[tactic(auto, using(sk_gates::proofs::ExtensionLaws::growing))]
pub fn mux(
    alloc: Global,
    to: &mut SharedGates,
    width: usize,
    codes: &[Option<Code>],
    c: BoolId,
    a: WordId,
    b: WordId,
) -> Result<Code, AllocError>
    requires low { 2 ≤ width }
    requires high { width ≤ 32 }
    requires table { TableFits width to.old.vars codes.now }
    ensures code { IfOk result (Computes width codes.now (Mux c a b) to.old to.new) }
    ensures err { OnErr result (Continues to.old to.new) }
{
    let condition = truth_of(codes, c);
    let x = word_of(codes, width, a);
    let y = word_of(codes, width, b);
    let r = mux_each(alloc, to, condition, x, y)?;
    Ok(Code::Word(r))
}

// The sum of two words.
#[tactic(auto, using(sk_gates::proofs::ExtensionLaws::growing))]
pub fn add(
    alloc: Global,
    to: &mut SharedGates,
    width: usize,
    codes: &[Option<Code>],
    a: WordId,
    b: WordId,
) -> Result<Code, AllocError>
    requires low { 2 ≤ width }
    requires high { width ≤ 32 }
    requires table { TableFits width to.old.vars codes.now }
    ensures code { IfOk result (Computes width codes.now (Add a b) to.old to.new) }
    ensures err { OnErr result (Continues to.old to.new) }
{
    let x = word_of(codes, width, a);
    let y = word_of(codes, width, b);
    let r = add_words(alloc, to, x, y)?;
    Ok(Code::Word(r))
}

// The difference of two words.
#[tactic(auto, using(sk_gates::proofs::ExtensionLaws::growing))]
pub fn sub(
    alloc: Global,
    to: &mut SharedGates,
    width: usize,
    codes: &[Option<Code>],
    a: WordId,
    b: WordId,
) -> Result<Code, AllocError>
    requires low { 2 ≤ width }
    requires high { width ≤ 32 }
    requires table { TableFits width to.old.vars codes.now }
    ensures code { IfOk result (Computes width codes.now (Sub a b) to.old to.new) }
    ensures err { OnErr result (Continues to.old to.new) }
{
    let x = word_of(codes, width, a);
    let y = word_of(codes, width, b);
    let r = subtract_words(alloc, to, x, y)?;
    Ok(Code::Word(r))
}

// The product of two words.
#[tactic(auto, using(sk_gates::proofs::ExtensionLaws::growing))]
pub fn mul(
    alloc: Global,
    to: &mut SharedGates,
    width: usize,
    codes: &[Option<Code>],
    a: WordId,
    b: WordId,
) -> Result<Code, AllocError>
    requires low { 2 ≤ width }
    requires high { width ≤ 32 }
    requires table { TableFits width to.old.vars codes.now }
    ensures code { IfOk result (Computes width codes.now (Mul a b) to.old to.new) }
    ensures err { OnErr result (Continues to.old to.new) }
{
    let x = word_of(codes, width, a);
    let y = word_of(codes, width, b);
    let r = multiply_words(alloc, to, x, y)?;
    Ok(Code::Word(r))
}

// The quotient of two words.
#[tactic(auto, using(sk_gates::proofs::ExtensionLaws::growing))]
pub fn div(
    alloc: Global,
    to: &mut SharedGates,
    width: usize,
    codes: &[Option<Code>],
    a: WordId,
    b: WordId,
) -> Result<Code, AllocError>
    requires low { 2 ≤ width }
    requires high { width ≤ 32 }
    requires table { TableFits width to.old.vars codes.now }
    ensures code { IfOk result (Computes width codes.now (Div a b) to.old to.new) }
    ensures err { OnErr result (Continues to.old to.new) }
{
    let x = word_of(codes, width, a);
    let y = word_of(codes, width, b);
    let r = divide_words(alloc, to, x, y)?;
    Ok(Code::Word(r))
}

// What the quotient of two words leaves.
#[tactic(auto, using(sk_gates::proofs::ExtensionLaws::growing))]
pub fn rem(
    alloc: Global,
    to: &mut SharedGates,
    width: usize,
    codes: &[Option<Code>],
    a: WordId,
    b: WordId,
) -> Result<Code, AllocError>
    requires low { 2 ≤ width }
    requires high { width ≤ 32 }
    requires table { TableFits width to.old.vars codes.now }
    ensures code { IfOk result (Computes width codes.now (Rem a b) to.old to.new) }
    ensures err { OnErr result (Continues to.old to.new) }
{
    let x = word_of(codes, width, a);
    let y = word_of(codes, width, b);
    let r = remainder_words(alloc, to, x, y)?;
    Ok(Code::Word(r))
}

// Whether the first word is below the second.
#[tactic(auto, using(sk_gates::proofs::ExtensionLaws::growing))]
pub fn lt(
    to: &mut SharedGates,
    width: usize,
    codes: &[Option<Code>],
    a: WordId,
    b: WordId,
) -> Result<Code, AllocError>
    requires low { 2 ≤ width }
    requires high { width ≤ 32 }
    requires table { TableFits width to.old.vars codes.now }
    ensures code { IfOk result (Computes width codes.now (Lt a b) to.old to.new) }
    ensures err { OnErr result (Continues to.old to.new) }
{
    let x = word_of(codes, width, a);
    let y = word_of(codes, width, b);
    let r = less_bits(to, x, y, true)?;
    Ok(Code::Truth(r))
}

// Whether two words are the same.
#[tactic(auto, using(sk_gates::proofs::ExtensionLaws::growing))]
pub fn eq(
    to: &mut SharedGates,
    width: usize,
    codes: &[Option<Code>],
    a: WordId,
    b: WordId,
) -> Result<Code, AllocError>
    requires low { 2 ≤ width }
    requires high { width ≤ 32 }
    requires table { TableFits width to.old.vars codes.now }
    ensures code { IfOk result (Computes width codes.now (Eq a b) to.old to.new) }
    ensures err { OnErr result (Continues to.old to.new) }
{
    let x = word_of(codes, width, a);
    let y = word_of(codes, width, b);
    let r = apart(to, x, y)?;
    Ok(Code::Truth(r.negate()))
}

// The cost, and the word more where the truth value is true and the word is above 0.
#[tactic(auto, using(sk_gates::proofs::ExtensionLaws::growing))]
pub fn cost_add(
    alloc: Global,
    to: &mut SharedGates,
    width: usize,
    codes: &[Option<Code>],
    cost: CostId,
    when: BoolId,
    amount: WordId,
) -> Result<Code, AllocError>
    requires low { 2 ≤ width }
    requires high { width ≤ 32 }
    requires table { TableFits width to.old.vars codes.now }
    ensures code { IfOk result (Computes width codes.now (CostAdd cost when amount) to.old to.new) }
    ensures err { OnErr result (Continues to.old to.new) }
{
    let before = cost_of(codes, cost);
    let more = word_of(codes, width, amount);
    let r = charge(alloc, to, before, truth_of(codes, when), more)?;
    Ok(Code::Cost(r))
}

// Whether a cost is at most the limit.
#[tactic(auto, using(sk_gates::proofs::ExtensionLaws::growing))]
pub fn cost_le(
    alloc: Global,
    to: &mut SharedGates,
    width: usize,
    codes: &[Option<Code>],
    cost: CostId,
    limit: u64,
) -> Result<Code, AllocError>
    requires table { TableFits width to.old.vars codes.now }
    ensures code { IfOk result (Computes width codes.now (CostLe cost limit) to.old to.new) }
    ensures err { OnErr result (Continues to.old to.new) }
{
    let most = constant(alloc, limit, 64)?;
    let above = less_bits(to, most.as_slice(), cost_of(codes, cost), false)?;
    Ok(Code::Truth(above.negate()))
}
