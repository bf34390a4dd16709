//! What of a program depends on its choice before anything runs: what it pays, and the orders of its statements.

ghost use Rattle.std.specs.Prelude.{◌≡◌, ℕ, List, ◌<◌, ◌≤◌, IfOk, OnOk};
ghost use Rattle.std.specs.Option.{option_copied};
ghost use Rattle.sk_dag.specs.Eval.{Keeps};
ghost use Rattle.sk_model.specs.Fill.{digit};
ghost use Rattle.sk_expand_sites.specs.Needs.{HasItsSites};
ghost use Rattle.sk_sym_choices.specs.Payments.{ArePayments, AreColumns, GiveDigits};
ghost use Rattle.sk_sym_choices.specs.Sizes.{AreInRange};

use crate::node::size_of;
use crate::order::{place_of, turns_of};
use crate::payer::Payer;
use crate::payment::Payment;
use sk_base::List;
use sk_dag::{BoolId, Dag};
use sk_limits::never;
use sk_model::{Choice, Expanded, Site};
use sk_sym_folds::flag;
use std::alloc::{AllocError, Global};

/// What the `minrepeat`s of a program pay, in order of their sites: in each environment whose choice is in range those
/// whose node holds, each the value of its site. Where a choice is given, it is that one.
///
/// # Errors
///
/// Memory is wanting, or the place of a site has no room (`too_many`). After a refusal the graph has all nodes that it had
/// (`keeps`).
pub fn payments(
    alloc: Global,
    dag: &mut Dag,
    expanded: &Expanded,
    chosen: Option<&Choice>,
) -> Result<List<Payment>, AllocError>
    requires { HasItsSites expanded.now }
    ensures keeps { Keeps dag.old dag.new }
    ensures pays { IfOk result (λ made. ArePayments dag.new expanded.now (option_copied chosen.entry) made) }
{
    let never = flag(dag, false)?;
    let always = flag(dag, true)?;
    let payer = Payer {
        alloc,
        sites: expanded.sites.as_slice(),
        chosen,
        ordinary: expanded.ordinary,
        never,
        always,
    };
    let made = payer.all(dag, expanded.prog.funs.as_slice())?;
    Ok(made)
}

// Tests that the digit of the statement after so many others is chosen for a site with no more values than it has
// places.
fn test_size(sites: &[Site], first: usize, placed: usize) -> Result<(), AllocError>
    ensures { OnOk result ((values : List ℕ) → AreInRange sites.now values → digit values first placed ≤ placed) }
{
    if placed == 0 {
        return Ok(());
    }
    let place = place_of(first, placed)?;
    let size = size_of(sites, place)?;
    if size.saturating_sub(1) > placed as u64 {
        return Err(never());
    }
    Ok(())
}

// Tests that the sites from a place on are those of the digits of so many statements, as an expanded program has them there
// (`never`).
fn test_sizes(sites: &[Site], first: usize, count: usize) -> Result<(), AllocError>
    ensures { OnOk result (GiveDigits sites.now first count) }
{
    for placed in 0..count {
        test_size(sites, first, placed)?;
    }
    Ok(())
}

/// The turns of all statements of a `reorder` of `count` statements whose sites stand from the place `first` on: for each
/// statement and each turn a node that holds exactly where the turn is the statement's, in each environment whose choice
/// is in range.
///
/// # Errors
///
/// Memory is wanting, the place of a site has no room (`too_many`), or the sites there are not those of such a `reorder`
/// (`never`). After a refusal the graph has all nodes that it had (`keeps`).
pub fn orders(
    alloc: Global,
    dag: &mut Dag,
    expanded: &Expanded,
    first: usize,
    count: usize,
    chosen: Option<&Choice>,
) -> Result<List<List<BoolId>>, AllocError>
    ensures keeps { Keeps dag.old dag.new }
    ensures columns { IfOk result (λ made. AreColumns dag.new expanded.now (option_copied chosen.entry) first count count made) }
{
    test_sizes(expanded.sites.as_slice(), first, count)?;
    let mut made = List::new(alloc);
    for k in 0..count {
        let column = turns_of(alloc, dag, first, count, k, chosen)?;
        made.push(column)?;
    }
    Ok(made)
}
