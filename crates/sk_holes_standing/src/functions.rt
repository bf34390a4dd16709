//! Which functions of a program stand under a choice.
ghost use Rattle.std.specs.Prelude.{◌≡◌, ◌≤◌, ◌+◌, ◌++◌, ◌∷◌, [], IfOk, OnOk, length, map, drop};
ghost use Rattle.sk_model.specs.Parts.{total};
ghost use Rattle.sk_model.specs.Stands.{standing_from, funs_stand, all_paid};
ghost use Rattle.sk_holes_standing.specs.Marks.{marked, kept_if};
ghost use Rattle.sk_holes_standing.specs.Standing.{Has, stmts};
ghost use Rattle.sk_holes_standing.specs.Functions.{sites_in, stands_by, stood_in};

use crate::met::Met;
use crate::walker::Walker;
use sk_prog::{Fun, PStmt};
use std::alloc::{AllocError, Global};

/// What stands of the functions of a program.
#[derive(Drop)]
pub struct Stood {
    /// For each function whether it stands.
    pub stands: Vec<bool>,
    /// For each function how many sites it has.
    pub counts: Vec<usize>,
    /// What is met with all of them.
    pub met: Met,
}

/// Marks functions in a table.
#[tactic(auto, using(crate::proofs::MarkLaws::set_past))]
fn mark_one(table: &mut [bool], f: u32)
    ensures { table.new ≡ marked table.old (f ∷ []) }
{
    let f = f as usize;
    if f < table.len() {
        table[f] = true;
    }
}

fn mark(table: &mut [bool], called: &[u32])
    ensures { table.new ≡ marked table.old called.now }
{
    for f in called {
        mark_one(table, *f);
    }
}

/// Whether the function with a number stands: the first, so many, stand, and each other where it is called.
fn stands(table: &[bool], ordinary: u32, n: usize) -> bool
    ensures { result ≡ stands_by ordinary table.now n }
{
    if n < ordinary as usize {
        return true;
    }
    match table.get(n) {
        Some(called) => *called,
        None => false,
    }
}

/// What stands of a body, which may stand.
#[tactic(auto, unfolding(crate::specs::Marks::kept_if))]
fn body(
    walker: &Walker,
    stands: bool,
    at: &mut usize,
    met: &mut Met,
    body: &[PStmt],
) -> Result<(), AllocError>
    requires { Has walker.now at.old ((stmts walker.now body.now).count) }
    ensures called { OnOk result (met.new.called ≡ met.old.called ++ ((kept_if stands (stmts walker.now body.now)).at at.old).called) }
    ensures payments { OnOk result (met.new.payments ≡ met.old.payments ++ ((kept_if stands (stmts walker.now body.now)).at at.old).paid) }
    ensures at { OnOk result (at.new ≡ at.old + ((stmts walker.now body.now).count)) }
{
    if stands {
        walker.stmts(at, met, body)?;
        return Ok(());
    }
    walker.skip_stmts(at, body);
    Ok(())
}

/// Marks the functions in a table that are met behind a number of others.
fn mark_new(table: &mut [bool], met: &Met, from: usize)
    requires { from ≤ length met.now.called }
    ensures { table.new ≡ marked table.old (drop from met.now.called) }
{
    let called = met.called();
    mark(table, &called[from..]);
}

/// Whether one more function stands, which has a number and whose first site has the place, and what stands in it.
#[tactic(auto, using(crate::proofs::StandLaws::drop_front))]
fn step(
    walker: &Walker,
    ordinary: u32,
    n: usize,
    f: &Fun,
    at: &mut usize,
    table: &mut [bool],
    met: &mut Met,
) -> Result<bool, AllocError>
    requires { Has walker.now at.old (sites_in walker.now.values.now f.now) }
    ensures stands { IfOk result (λ b. b ≡ stands_by ordinary table.old n) }
    ensures called { OnOk result (met.new.called ≡ met.old.called ++ (stood_in walker.now.values.now ordinary table.old n f.now at.old).called) }
    ensures payments { OnOk result (met.new.payments ≡ met.old.payments ++ (stood_in walker.now.values.now ordinary table.old n f.now at.old).paid) }
    ensures table { OnOk result (table.new ≡ marked table.old (stood_in walker.now.values.now ordinary table.old n f.now at.old).called) }
    ensures at { OnOk result (at.new ≡ at.old + sites_in walker.now.values.now f.now) }
{
    let from = met.called().len();
    let stand = stands(table, ordinary, n);
    body(walker, stand, at, met, f.body.as_slice())?;
    mark_new(table, met, from);
    Ok(stand)
}

/// What stands of functions, of which the first, so many, are ordinary, under the values of a walker.
#[tactic(auto, using(crate::proofs::StandLaws::progress))]
pub fn what_stands(
    alloc: Global,
    walker: &Walker,
    ordinary: u32,
    funs: &[Fun],
) -> Result<Stood, AllocError>
    requires { total (map (sites_in walker.now.values.now) funs.now) ≤ length walker.now.values.now }
    ensures stands { IfOk result (λ s. s.stands.items ≡ funs_stand (standing_from walker.now.values.now ordinary [] 0 0 funs.now)) }
    ensures counts { IfOk result (λ s. s.counts.items ≡ map (sites_in walker.now.values.now) funs.now) }
    ensures paid { IfOk result (λ s. s.met.payments ≡ all_paid (standing_from walker.now.values.now ordinary [] 0 0 funs.now)) }
{
    let mut all = Vec::new(alloc);
    let mut counts = Vec::new(alloc);
    let mut met = Met::new(alloc);
    let mut table = vec![in alloc; false; funs.len()]?;
    let mut at = 0;
    for (n, f) in funs.iter().enumerate() {
        let first = at;
        let marks = table.as_mut_slice();
        let stand = step(walker, ordinary, n, f, &mut at, marks, &mut met)?;
        all.push(stand)?;
        counts.push(at - first)?;
    }
    Ok(Stood {
        stands: all,
        counts,
        met,
    })
}
