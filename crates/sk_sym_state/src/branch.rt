//! Two ways from a state, by a condition.

ghost use Rattle.std.specs.Prelude.{◌≡◌, ◌≤◌, ◌⊎◌, ◌&&◌, ◌||◌, not, IfOk, OnOk};
ghost use Rattle.sk_dag.specs.declared.env.Env.{Env};
ghost use Rattle.sk_dag.specs.Graph.{Graph, Grows, HasBool};
ghost use Rattle.sk_dag.specs.Eval.{bool_value, Keeps};
ghost use Rattle.sk_arr.specs.Shapes.{AllStand};
ghost use Rattle.sk_sym_state.specs.Stands.{StateStands};
ghost use Rattle.sk_sym_state.specs.Branching.{ForkStands, SideStands, IsForked, AreTurned, AreJoined, AreOneOf, AreMerged, IsCursorBehind};

use crate::setting::Setting;
use crate::shapes::{copies, join_shapes};
use crate::state::SymState;
use sk_base::List;
use sk_dag::{BoolId, Dag, Shape};
use sk_sym_folds::{and, and_not, known_bool, or};
use std::alloc::{AllocError, Global};

/// Where a branch began, and where its two ways did.
#[derive(Clone, Copy)]
pub struct Fork {
    pub path: BoolId,
    pub first: BoolId,
    pub second: BoolId,
}

/// The way of a branch that is not gone now: its path and its variables.
#[derive(Drop)]
pub struct Side {
    pub fork: Fork,
    pub path: BoolId,
    pub slots: List<Shape>,
    /// Where it is, the slots of the heap from this one on are free.
    pub cursor: usize,
}

/// The greater of two cursors.
pub fn larger(a: usize, b: usize) -> usize
    ensures first { a ≤ result }
    ensures second { b ≤ result }
    ensures one { (result ≡ a) ⊎ (result ≡ b) }
{
    if a < b { b } else { a }
}

/// The path behind a branch whose ways end at these.
#[tactic(auto, using(sk_arr::proofs::Makers::staying))]
fn path_behind(
    dag: &mut Dag,
    fork: Fork,
    first: BoolId,
    second: BoolId,
) -> Result<BoolId, AllocError>
    requires fork { ForkStands dag.old fork }
    requires first { HasBool dag.old.nodes first }
    requires second { HasBool dag.old.nodes second }
    ensures keeps { Keeps dag.old dag.new }
    ensures there { IfOk result (λ r. HasBool dag.new.nodes r) }
    ensures value { IfOk result (λ r. (g : Graph) → Grows dag.new g → (e : Env) →
        bool_value g e r ≡ (bool_value g e first || bool_value g e second)) }
{
    if first.index == fork.first.index && second.index == fork.second.index {
        return Ok(fork.path);
    }
    let r = or(dag, first, second)?;
    Ok(r)
}

/// The variables that both ways have: the first's where the condition holds, and else the second's.
fn merged(
    alloc: Global,
    dag: &mut Dag,
    cond: BoolId,
    first: &[Shape],
    second: &[Shape],
) -> Result<List<Shape>, AllocError>
    requires cond { HasBool dag.old.nodes cond }
    requires first { AllStand dag.old first.now }
    requires second { AllStand dag.old second.now }
    ensures keeps { Keeps dag.old dag.new }
    ensures merged { IfOk result (λ made. AreMerged dag.new cond first.now second.now made) }
{
    let mut made = List::new(alloc);
    let mut i = 0;
    for a in first {
        if i >= second.len() {
            return Ok(made);
        }
        let one = join_shapes(alloc, dag, cond, a, &second[i])?;
        made.push(one)?;
        i += 1;
    }
    Ok(made)
}

/// The variables behind a branch: those of the one way where the other's end is given as false.
fn slots_behind(
    alloc: Global,
    dag: &mut Dag,
    cond: BoolId,
    gone: Side,
    path: BoolId,
    slots: List<Shape>,
) -> Result<List<Shape>, AllocError>
    requires cond { HasBool dag.old.nodes cond }
    requires gone { SideStands dag.old gone }
    requires path { HasBool dag.old.nodes path }
    requires slots { AllStand dag.old slots }
    ensures keeps { Keeps dag.old dag.new }
    ensures one { IfOk result (λ made. AreOneOf dag.new cond gone path slots made) }
{
    if let Some(false) = known_bool(dag, gone.path) {
        return Ok(slots);
    }
    if let Some(false) = known_bool(dag, path) {
        return Ok(gone.slots);
    }
    let made = merged(alloc, dag, cond, gone.slots.as_slice(), slots.as_slice())?;
    Ok(made)
}

/// The cursor behind a branch whose ways end at these paths with these cursors: the greater, and that of the one way where
/// the other's end is given as false.
#[tactic(auto, using(crate::proofs::Forking::behind))]
fn cursor_behind(dag: &Dag, gone: BoolId, first: usize, path: BoolId, second: usize) -> usize
    requires gone { HasBool dag.now.nodes gone }
    requires path { HasBool dag.now.nodes path }
    ensures { IsCursorBehind dag.now gone first path second result }
{
    if let Some(false) = known_bool(dag, gone) {
        return second;
    }
    if let Some(false) = known_bool(dag, path) {
        return first;
    }
    larger(first, second)
}

impl SymState {
    /// Goes the way where a condition holds. The other one waits. After a refusal the graph has all nodes that it had
    /// (`keeps`); the state is given up with the walk that holds it.
    pub fn fork(
        &mut self,
        setting: &Setting<'_>,
        dag: &mut Dag,
        cond: BoolId,
    ) -> Result<Side, AllocError>
        requires stands { StateStands dag.old setting.now.expanded.now.prog self.old }
        requires cond { HasBool dag.old.nodes cond }
        ensures keeps { Keeps dag.old dag.new }
        ensures forked { IfOk result (λ waits. IsForked setting.now dag.old dag.new self.old self.new cond waits) }
    {
        let first = and(dag, self.path, cond)?;
        let second = and_not(dag, self.path, cond)?;
        let slots = copies(setting.alloc, self.frame.slots.as_slice())?;
        let fork = Fork {
            path: self.path,
            first,
            second,
        };
        self.path = first;
        Ok(Side {
            fork,
            path: second,
            slots,
            cursor: self.cursor,
        })
    }

    /// Goes the other way.
    pub fn turn(&mut self, waits: Side) -> Side
        ensures { AreTurned self.old self.new waits result }
    {
        let path = self.path;
        self.path = waits.path;
        let cursor = self.cursor;
        self.cursor = waits.cursor;
        let slots = std::mem::replace(&mut self.frame.slots, waits.slots);
        Side {
            fork: waits.fork,
            path,
            slots,
            cursor,
        }
    }

    /// Goes on behind a branch, of which one way is gone and this is the end of the other. After a refusal the graph has all
    /// nodes that it had (`keeps`); the state is given up with the walk that holds it.
    pub fn join(
        &mut self,
        setting: &Setting<'_>,
        dag: &mut Dag,
        cond: BoolId,
        gone: Side,
    ) -> Result<(), AllocError>
        requires stands { StateStands dag.old setting.now.expanded.now.prog self.old }
        requires cond { HasBool dag.old.nodes cond }
        requires gone { SideStands dag.old gone }
        ensures keeps { Keeps dag.old dag.new }
        ensures joined { OnOk result (AreJoined setting.now dag.old dag.new self.old self.new cond gone) }
    {
        let path = path_behind(dag, gone.fork, gone.path, self.path)?;
        self.cursor = cursor_behind(dag, gone.path, gone.cursor, self.path, self.cursor);
        let none = List::new(setting.alloc);
        let slots = std::mem::replace(&mut self.frame.slots, none);
        self.frame.slots = slots_behind(setting.alloc, dag, cond, gone, self.path, slots)?;
        self.path = path;
        Ok(())
    }
}
