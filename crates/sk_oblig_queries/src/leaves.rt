//! The leaves of a query. A list that is made here is given up where memory is wanting.

ghost use Rattle.std.specs.Prelude.{◌≡◌, ◌++◌, ◌≤◌, IfOk, OnOk, length, map};
ghost use Rattle.std.specs.List.{range_with_len};
ghost use Rattle.sk_cnf.specs.Formula.{AreLeaves};
ghost use Rattle.sk_oblig_queries.specs.Numbers.{leaves_from};
ghost use Rattle.sk_oblig_queries.specs.Queries.{bits_of_query, leaf_of, leaves_of_query};

use crate::query::Query;
use crate::widths::widths_of;
use sk_base::{Bounds, List};
use sk_cnf::Leaf;
use sk_limits::number_of;
use sk_model::Expanded;
use std::alloc::{AllocError, Global};

// Bit k of the number of a query at a place.
fn leaf_of(query: &Query, place: u32, k: u32) -> Leaf
    ensures { result ≡ leaf_of query.now place k }
{
    match query {
        Query::Bad { .. } => Leaf::Input { scalar: place, k },
        Query::BadAt { .. } => Leaf::Input { scalar: place, k },
        Query::Wanted { .. } => Leaf::Hole { site: place, k },
    }
}

fn push_bits(
    leaves: &mut List<Leaf>,
    query: &Query,
    place: u32,
    width: u32,
) -> Result<(), AllocError>
    ensures { OnOk result (leaves.new ≡ leaves.old ++ map (leaf_of query.now place) (range_with_len 0 width)) }
{
    for k in 0..width {
        leaves.push(leaf_of(query, place, k))?;
    }
    Ok(())
}

fn leaves_of_widths(alloc: Global, query: &Query, widths: &[u32]) -> Result<List<Leaf>, AllocError>
    ensures { IfOk result (λ leaves. leaves ≡ leaves_from (leaf_of query.now) 0 widths.now) }
{
    let mut leaves = List::new(alloc);
    for i in 0..widths.len() {
        let place = number_of(i)?;
        push_bits(&mut leaves, query, place, widths[i])?;
    }
    Ok(leaves)
}

/// The leaves of a query, one for each of its bits in order. None stands twice.
#[tactic(auto, using(crate::proofs::Order::leaves_stand))]
pub fn leaves_of(
    alloc: Global,
    expanded: &Expanded,
    bounds: &Bounds,
    query: &Query,
) -> Result<List<Leaf>, AllocError>
    ensures leaves { IfOk result (λ leaves. leaves ≡ leaves_of_query expanded.now bounds.now query.now) }
    ensures count { IfOk result (λ leaves. length leaves ≡ bits_of_query expanded.now bounds.now query.now) }
    ensures distinct { IfOk result (λ leaves. AreLeaves leaves) }
{
    let widths = widths_of(alloc, expanded, bounds, query)?;
    let leaves = leaves_of_widths(alloc, query, widths.as_slice())?;
    Ok(leaves)
}
