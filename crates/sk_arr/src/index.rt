//! Elements that an index names.

ghost use Rattle.std.specs.Prelude.{◌≡◌, ◌≤◌, ◌<◌, ◌||◌, not, pos, length, IfOk, MatchOption, All, map, int_lt, ◌+◌, ◌/◌};
ghost use Rattle.std.specs.Ordering.{int_eq};
ghost use Rattle.sk_base.specs.Word.{IsWord, half};
ghost use Rattle.sk_dag.specs.declared.env.Env.{Env};
ghost use Rattle.sk_dag.specs.Graph.{Graph, Grows, HasBool, HasWord};
ghost use Rattle.sk_dag.specs.Eval.{bool_value, word_value, Keeps};
ghost use Rattle.sk_arr.specs.Places.{is_within};
ghost use Rattle.sk_arr.specs.Shapes.{Alike, AlikeTo, AllAlike, Stands, AllStand};
ghost use Rattle.sk_arr.specs.Answers.{IsChoice, IsRead, IsWritten};
ghost use Rattle.sk_arr.specs.Steps.{IsBefore, IsReadAmong, IsReadFrom, IsWrittenAt, AreWritten};

use crate::choice::choose;
use crate::copy::copy;
use crate::maker::{both, either, flag_of, number_of, opposite};
use sk_base::List;
use sk_dag::{BoolId, Dag, Shape, WordId};
use std::alloc::{AllocError, Global};

/// A place in a list as a word, unless it is above all words of this width.
fn word_of_place(bits: u32, place: usize) -> Option<i64>
    requires bits_low { 2 ≤ bits }
    requires bits_high { bits ≤ 32 }
    ensures { MatchOption result (half bits ≤ place) (λ n. (n ≡ pos place) × IsWord bits n) }
{
    let half = 1u64 << (bits - 1);
    if place as u64 >= half {
        return None;
    }
    Some(place as i64)
}

/// Whether a word is this one.
#[tactic(auto, using(crate::proofs::Makers::staying))]
fn is_number(dag: &mut Dag, a: WordId, n: i64) -> Result<BoolId, AllocError>
    requires a { HasWord dag.old.nodes a }
    requires n { IsWord dag.old.bits n }
    ensures keeps { Keeps dag.old dag.new }
    ensures there { IfOk result (λ r. HasBool dag.new.nodes r) }
    ensures value { IfOk result (λ r. (g : Graph) → Grows dag.new g → (e : Env) →
        bool_value g e r ≡ int_eq (word_value g e a) n) }
{
    if let Some(known) = number_of(dag, a) {
        let r = dag.flag(known == n)?;
        return Ok(r);
    }
    let n = dag.word(n)?;
    let r = dag.eq(a, n)?;
    Ok(r)
}

/// Whether a word is below this one.
#[tactic(auto, using(crate::proofs::Makers::staying))]
pub(crate) fn is_below(dag: &mut Dag, a: WordId, n: i64) -> Result<BoolId, AllocError>
    requires a { HasWord dag.old.nodes a }
    requires n { IsWord dag.old.bits n }
    ensures keeps { Keeps dag.old dag.new }
    ensures there { IfOk result (λ r. HasBool dag.new.nodes r) }
    ensures value { IfOk result (λ r. (g : Graph) → Grows dag.new g → (e : Env) →
        bool_value g e r ≡ int_lt (word_value g e a) n) }
{
    if let Some(known) = number_of(dag, a) {
        let r = dag.flag(known < n)?;
        return Ok(r);
    }
    let n = dag.word(n)?;
    let r = dag.lt(a, n)?;
    Ok(r)
}

/// Whether the index is this place in a list.
#[tactic(auto, using(crate::proofs::Indexes::places))]
fn is_at(dag: &mut Dag, index: WordId, place: usize) -> Result<BoolId, AllocError>
    requires { HasWord dag.old.nodes index }
    ensures keeps { Keeps dag.old dag.new }
    ensures there { IfOk result (λ r. HasBool dag.new.nodes r) }
    ensures value { IfOk result (λ r. (g : Graph) → Grows dag.new g → (e : Env) →
        bool_value g e r ≡ int_eq (word_value g e index) (pos place)) }
{
    let _range = number_of(dag, index);
    match word_of_place(dag.int_bits(), place) {
        Some(n) => {
            let r = is_number(dag, index, n)?;
            Ok(r)
        }
        None => {
            let r = dag.flag(false)?;
            Ok(r)
        }
    }
}

/// Whether the index is below this place in a list.
#[tactic(auto, using(crate::proofs::Indexes::places))]
fn is_before(dag: &mut Dag, index: WordId, place: usize) -> Result<BoolId, AllocError>
    requires { HasWord dag.old.nodes index }
    ensures keeps { Keeps dag.old dag.new }
    ensures there { IfOk result (λ r. HasBool dag.new.nodes r) }
    ensures value { IfOk result (λ r. (g : Graph) → Grows dag.new g → (e : Env) →
        bool_value g e r ≡ int_lt (word_value g e index) (pos place)) }
{
    let _range = number_of(dag, index);
    match word_of_place(dag.int_bits(), place) {
        Some(n) => {
            let r = is_below(dag, index, n)?;
            Ok(r)
        }
        None => {
            let r = dag.flag(true)?;
            Ok(r)
        }
    }
}

/// Whether the index is at or past the end of a list of so many.
#[tactic(auto, using(crate::proofs::Makers::staying))]
fn is_past(dag: &mut Dag, index: WordId, count: usize) -> Result<BoolId, AllocError>
    requires { HasWord dag.old.nodes index }
    ensures keeps { Keeps dag.old dag.new }
    ensures there { IfOk result (λ r. HasBool dag.new.nodes r) }
    ensures value { IfOk result (λ r. (g : Graph) → Grows dag.new g → (e : Env) →
        bool_value g e r ≡ not (int_lt (word_value g e index) (pos count))) }
{
    let before = is_before(dag, index, count)?;
    let r = opposite(dag, before)?;
    Ok(r)
}

/// Whether the index leaves a list of so many.
#[tactic(auto, using(crate::proofs::Indexes::places))]
pub(crate) fn is_outside(dag: &mut Dag, index: WordId, count: usize) -> Result<BoolId, AllocError>
    requires { HasWord dag.old.nodes index }
    ensures keeps { Keeps dag.old dag.new }
    ensures there { IfOk result (λ r. HasBool dag.new.nodes r) }
    ensures value { IfOk result (λ r. (g : Graph) → Grows dag.new g → (e : Env) →
        bool_value g e r ≡ not (is_within count (word_value g e index))) }
{
    let low = is_below(dag, index, 0)?;
    let high = is_past(dag, index, count)?;
    let r = either(dag, low, high)?;
    Ok(r)
}

/// One of two elements: what is read among the first half of so many, or among the others, by the test whether the
/// index is below the second half.
#[cycle(among)]
#[tactic(auto, using(crate::proofs::ReadLaws::reads))]
fn among_halves(
    alloc: Global,
    dag: &mut Dag,
    list: &[Shape],
    index: WordId,
    low: usize,
    count: usize,
    test: BoolId,
) -> Result<Shape, AllocError>
    requires index { HasWord dag.old.nodes index }
    requires list { AllStand dag.old list.now }
    requires alike { AllAlike list.now }
    requires some { 2 ≤ count }
    requires within { low + count ≤ length list.now }
    requires test { IsBefore dag.old index (low + count / 2) test }
    ensures keeps { Keeps dag.old dag.new }
    ensures read { IfOk result (λ r. IsReadAmong dag.new list.now index low count r) }
{
    let half = count / 2;
    let a = among(alloc, dag, list, index, low, half)?;
    let b = among(alloc, dag, list, index, low + half, count - half)?;
    let r = choose(alloc, dag, test, &a, &b)?;
    Ok(r)
}

/// The element that the index names among so many from `low` on, or the last of these where it is above them. Halves
/// them, so that the choices stand in a tree; where the index is given, no element is chosen.
#[cycle(among)]
#[tactic(auto, using(crate::proofs::ReadLaws::reads))]
fn among(
    alloc: Global,
    dag: &mut Dag,
    list: &[Shape],
    index: WordId,
    low: usize,
    count: usize,
) -> Result<Shape, AllocError>
    requires index { HasWord dag.old.nodes index }
    requires list { AllStand dag.old list.now }
    requires alike { AllAlike list.now }
    requires some { 1 ≤ count }
    requires within { low + count ≤ length list.now }
    ensures keeps { Keeps dag.old dag.new }
    ensures read { IfOk result (λ r. IsReadAmong dag.new list.now index low count r) }
{
    if count == 1 {
        let r = copy(alloc, &list[low])?;
        return Ok(r);
    }
    let half = count / 2;
    let test = is_before(dag, index, low + half)?;
    match flag_of(dag, test) {
        Some(true) => {
            let r = among(alloc, dag, list, index, low, half)?;
            Ok(r)
        }
        Some(false) => {
            let r = among(alloc, dag, list, index, low + half, count - half)?;
            Ok(r)
        }
        None => {
            let r = among_halves(alloc, dag, list, index, low, count, test)?;
            Ok(r)
        }
    }
}

/// The element that the index names, the last one where it is above all.
#[tactic(auto, using(crate::proofs::ReadLaws::whole))]
pub(crate) fn element(
    alloc: Global,
    dag: &mut Dag,
    list: &[Shape],
    index: WordId,
) -> Result<Shape, AllocError>
    requires index { HasWord dag.old.nodes index }
    requires list { AllStand dag.old list.now }
    requires alike { AllAlike list.now }
    requires some { 1 ≤ length list.now }
    ensures keeps { Keeps dag.old dag.new }
    ensures read { IfOk result (λ r. IsReadFrom dag.new list.now index r) }
{
    let r = among(alloc, dag, list, index, 0, list.len())?;
    Ok(r)
}

/// The element that the index names, and whether the index leaves the range. The list is not empty, and its elements are
/// alike. Adds no node but flags where the index is given.
#[tactic(auto, using(crate::proofs::ReadLaws::whole))]
pub fn read(
    alloc: Global,
    dag: &mut Dag,
    list: &List<Shape>,
    index: WordId,
) -> Result<(Shape, BoolId), AllocError>
    requires index { HasWord dag.old.nodes index }
    requires list { AllStand dag.old list.now }
    requires alike { AllAlike list.now }
    requires some { 1 ≤ length list.now }
    ensures keeps { Keeps dag.old dag.new }
    ensures read { IfOk result (λ r. IsRead dag.new list.now index r.0 r.1) }
{
    let value = element(alloc, dag, list.as_slice(), index)?;
    let outside = is_outside(dag, index, list.len())?;
    Ok((value, outside))
}

/// The value where the guard holds and the index is this place, else the old element.
#[tactic(auto, using(crate::proofs::WriteLaws::writes))]
fn write_at(
    alloc: Global,
    dag: &mut Dag,
    guard: BoolId,
    index: WordId,
    place: usize,
    value: &Shape,
    old: &Shape,
) -> Result<Shape, AllocError>
    requires guard { HasBool dag.old.nodes guard }
    requires index { HasWord dag.old.nodes index }
    requires value { Stands dag.old value.now }
    requires old { Stands dag.old old.now }
    requires alike { Alike value.now old.now }
    ensures keeps { Keeps dag.old dag.new }
    ensures written { IfOk result (λ r. IsWrittenAt dag.new guard index place value.now old.now r) }
{
    let here = is_at(dag, index, place)?;
    let test = both(dag, guard, here)?;
    let r = choose(alloc, dag, test, value, old)?;
    Ok(r)
}

/// The elements, with the value in the place of the one that the index names where the guard holds.
#[tactic(auto, using(crate::proofs::WriteLaws::writes))]
fn written(
    alloc: Global,
    dag: &mut Dag,
    guard: BoolId,
    list: &[Shape],
    index: WordId,
    value: &Shape,
) -> Result<List<Shape>, AllocError>
    requires guard { HasBool dag.old.nodes guard }
    requires index { HasWord dag.old.nodes index }
    requires list { AllStand dag.old list.now }
    requires value { Stands dag.old value.now }
    requires alike { AlikeTo value.now list.now }
    ensures keeps { Keeps dag.old dag.new }
    ensures written { IfOk result (λ made. AreWritten dag.new guard list.now index value.now made) }
{
    let mut made = List::new(alloc);
    let mut place = 0;
    for old in list {
        let one = write_at(alloc, dag, guard, index, place, value, old)?;
        made.push(one)?;
        place += 1;
    }
    Ok(made)
}

/// The list with the value in the place of the element that the index names, where the guard holds; and whether the index
/// leaves the range, whatever the guard is. Adds no node but flags where the guard and the index are given.
#[tactic(auto, using(crate::proofs::WriteLaws::whole))]
pub fn write_under(
    alloc: Global,
    dag: &mut Dag,
    guard: BoolId,
    list: &List<Shape>,
    index: WordId,
    value: &Shape,
) -> Result<(List<Shape>, BoolId), AllocError>
    requires guard { HasBool dag.old.nodes guard }
    requires index { HasWord dag.old.nodes index }
    requires list { AllStand dag.old list.now }
    requires value { Stands dag.old value.now }
    requires alike { AlikeTo value.now list.now }
    ensures keeps { Keeps dag.old dag.new }
    ensures written { IfOk result (λ r. IsWritten dag.new guard list.now index value.now r.0 r.1) }
{
    let made = written(alloc, dag, guard, list.as_slice(), index, value)?;
    let outside = is_outside(dag, index, list.len())?;
    Ok((made, outside))
}
