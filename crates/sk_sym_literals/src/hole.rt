//! The values of holes.

ghost use Rattle.std.specs.Prelude.{◌≡◌, ◌<◌, ◌+◌, ◌==◌, not, ℕ, List, Some, IfOk};
ghost use Rattle.std.specs.Option.{option_copied};
ghost use Rattle.sk_dag.specs.declared.env.Env.{Env};
ghost use Rattle.sk_dag.specs.Graph.{Graph, Grows, HasBool};
ghost use Rattle.sk_dag.specs.Eval.{bool_value, Keeps};
ghost use Rattle.sk_model.specs.Values.{padded as padded_of};
ghost use Rattle.sk_model.specs.Fill.{Fits};
ghost use Rattle.sk_model.specs.Parts.{value};
ghost use Rattle.sk_model.specs.Eval.{number_at};
ghost use Rattle.sk_model.specs.Open.{bits_at, hole_value as hole_value_of};
ghost use Rattle.sk_prog.specs.declared.ty.Elem.TheVariants as elem;
ghost use Rattle.sk_prog.specs.declared.ty.Ty.TheVariants as ty;
ghost use Rattle.sk_sym_folds.specs.Chosen.{chosen_values};
ghost use Rattle.sk_sym_literals.specs.Given.{IsChosen, AreChosen};

use crate::given::{bit, null};
use crate::padding::{padded_grid, padded_row};
use sk_base::List;
use sk_dag::{BoolId, Dag, Shape};
use sk_model::{Choice, Expanded, Site};
use sk_prog::{Elem, Ty};
use sk_sym_folds::{hole_flag, hole_number, site_above};
use std::alloc::{AllocError, Global};

/// How many values a site may have. One that is not there has the value 0 alone.
fn size_of(sites: &[Site], site: usize) -> u64
    ensures { (values : List ℕ) → Fits sites.now values → value values site < result }
{
    if site >= sites.len() {
        return 1;
    }
    sites[site].size
}

/// Whether the value of a site is above 0, where it is below this size.
fn is_some(
    dag: &mut Dag,
    site: usize,
    size: u64,
    chosen: Option<&Choice>,
) -> Result<BoolId, AllocError>
    ensures keeps { Keeps dag.old dag.new }
    ensures there { IfOk result (λ r. HasBool dag.new.nodes r) }
    ensures value { IfOk result (λ r. (h : Graph) → Grows dag.new h → (e : Env) →
        value (chosen_values (option_copied chosen.entry) e) site < size →
        bool_value h e r ≡ not (value (chosen_values (option_copied chosen.entry) e) site == 0)) }
{
    if size > 2 {
        let r = site_above(dag, site, size, 0, chosen)?;
        return Ok(r);
    }
    let r = hole_flag(dag, site, 0, chosen)?;
    Ok(r)
}

/// A hole that is a bit.
fn hole_bit(
    dag: &mut Dag,
    site: usize,
    expanded: &Expanded,
    chosen: Option<&Choice>,
) -> Result<Shape, AllocError>
    ensures keeps { Keeps dag.old dag.new }
    ensures chosen { IfOk result (λ r. IsChosen dag.new expanded.now (λ e. record { values = chosen_values (option_copied chosen.entry) e }) (λ a. number_at dag.old.bits elem.Bit (value a.values site)) r) }
{
    let size = size_of(expanded.sites.as_slice(), site);
    let id = is_some(dag, site, size, chosen)?;
    Ok(Shape::Bit(id))
}

/// The bit of the site so many behind this one. One that is not there has the value 0.
fn hole_bit_behind(
    dag: &mut Dag,
    site: usize,
    k: usize,
    expanded: &Expanded,
    chosen: Option<&Choice>,
) -> Result<Shape, AllocError>
    ensures keeps { Keeps dag.old dag.new }
    ensures chosen { IfOk result (λ r. IsChosen dag.new expanded.now (λ e. record { values = chosen_values (option_copied chosen.entry) e }) (λ a. number_at dag.old.bits elem.Bit (value a.values (site + k))) r) }
{
    let sites = expanded.sites.len();
    if site >= sites || k >= sites - site {
        let r = bit(dag, false)?;
        return Ok(r);
    }
    let r = hole_bit(dag, site + k, expanded, chosen)?;
    Ok(r)
}

/// A hole that is a word.
fn hole_word(
    dag: &mut Dag,
    site: usize,
    expanded: &Expanded,
    chosen: Option<&Choice>,
) -> Result<Shape, AllocError>
    ensures keeps { Keeps dag.old dag.new }
    ensures chosen { IfOk result (λ r. IsChosen dag.new expanded.now (λ e. record { values = chosen_values (option_copied chosen.entry) e }) (λ a. number_at dag.old.bits elem.Int (value a.values site)) r) }
{
    let id = hole_number(dag, site, chosen)?;
    Ok(Shape::Int(id))
}

/// The bits of so many sites, of which the first has this place.
#[tactic(auto, using(crate::proofs::Holes::start))]
fn hole_bits(
    alloc: Global,
    dag: &mut Dag,
    count: u32,
    site: usize,
    expanded: &Expanded,
    chosen: Option<&Choice>,
) -> Result<List<Shape>, AllocError>
    ensures keeps { Keeps dag.old dag.new }
    ensures chosen { IfOk result (λ made. AreChosen dag.new expanded.now (λ e. record { values = chosen_values (option_copied chosen.entry) e }) (λ a. bits_at a.values dag.old.bits count site) made) }
{
    let mut made = List::new(alloc);
    for k in 0..count as usize {
        let one = hole_bit_behind(dag, site, k, expanded, chosen)?;
        made.push(one)?;
    }
    Ok(made)
}

/// A hole of a type of single values.
fn hole_single(
    alloc: Global,
    dag: &mut Dag,
    elem: Elem,
    site: usize,
    expanded: &Expanded,
    chosen: Option<&Choice>,
) -> Result<Shape, AllocError>
    ensures keeps { Keeps dag.old dag.new }
    ensures chosen { IfOk result (λ r. IsChosen dag.new expanded.now (λ e. record { values = chosen_values (option_copied chosen.entry) e }) (λ a. number_at dag.old.bits elem (value a.values site)) r) }
{
    match elem {
        Elem::Int => {
            let r = hole_word(dag, site, expanded, chosen)?;
            Ok(r)
        }
        Elem::Bit => {
            let r = hole_bit(dag, site, expanded, chosen)?;
            Ok(r)
        }
        Elem::Reference(_) => Ok(null(alloc)),
    }
}

/// A single hole as an array.
fn hole_padded(
    alloc: Global,
    dag: &mut Dag,
    elem: Elem,
    count: u32,
    site: usize,
    expanded: &Expanded,
    chosen: Option<&Choice>,
) -> Result<Shape, AllocError>
    ensures keeps { Keeps dag.old dag.new }
    ensures chosen { IfOk result (λ r. IsChosen dag.new expanded.now (λ e. record { values = chosen_values (option_copied chosen.entry) e }) (λ a. padded_of (ty.Array elem count) (number_at dag.old.bits elem (value a.values site))) r) }
{
    let one = hole_single(alloc, dag, elem, site, expanded, chosen)?;
    let r = padded_row(alloc, dag, elem, count, one)?;
    Ok(r)
}

/// A single hole as an array of arrays.
fn hole_grid(
    alloc: Global,
    dag: &mut Dag,
    elem: Elem,
    count: u32,
    rows: u32,
    site: usize,
    expanded: &Expanded,
    chosen: Option<&Choice>,
) -> Result<Shape, AllocError>
    ensures keeps { Keeps dag.old dag.new }
    ensures chosen { IfOk result (λ r. IsChosen dag.new expanded.now (λ e. record { values = chosen_values (option_copied chosen.entry) e }) (λ a. hole_value_of a.values dag.old.bits (Some (ty.Grid elem count rows)) site) r) }
{
    let row = hole_padded(alloc, dag, elem, count, site, expanded, chosen)?;
    let r = padded_grid(alloc, dag, elem, count, rows, row)?;
    Ok(r)
}

/// A hole that is an array: of bits, with a site for each, or of one hole.
fn hole_row(
    alloc: Global,
    dag: &mut Dag,
    elem: Elem,
    count: u32,
    site: usize,
    expanded: &Expanded,
    chosen: Option<&Choice>,
) -> Result<Shape, AllocError>
    ensures keeps { Keeps dag.old dag.new }
    ensures chosen { IfOk result (λ r. IsChosen dag.new expanded.now (λ e. record { values = chosen_values (option_copied chosen.entry) e }) (λ a. hole_value_of a.values dag.old.bits (Some (ty.Array elem count)) site) r) }
{
    match elem {
        Elem::Bit => {
            let made = hole_bits(alloc, dag, count, site, expanded, chosen)?;
            Ok(Shape::Array(made))
        }
        _ => {
            let r = hole_padded(alloc, dag, elem, count, site, expanded, chosen)?;
            Ok(r)
        }
    }
}

/// A hole of a type.
fn hole_at(
    alloc: Global,
    dag: &mut Dag,
    ty: Ty,
    site: usize,
    expanded: &Expanded,
    chosen: Option<&Choice>,
) -> Result<Shape, AllocError>
    ensures keeps { Keeps dag.old dag.new }
    ensures chosen { IfOk result (λ r. IsChosen dag.new expanded.now (λ e. record { values = chosen_values (option_copied chosen.entry) e }) (λ a. hole_value_of a.values dag.old.bits (Some ty) site) r) }
{
    match ty {
        Ty::One(elem) => {
            let r = hole_single(alloc, dag, elem, site, expanded, chosen)?;
            Ok(r)
        }
        Ty::Array(elem, count) => {
            let r = hole_row(alloc, dag, elem, count, site, expanded, chosen)?;
            Ok(r)
        }
        Ty::Grid(elem, count, rows) => {
            let r = hole_grid(alloc, dag, elem, count, rows, site, expanded, chosen)?;
            Ok(r)
        }
    }
}

/// The value of a hole at its type, whose first site has this place, for a choice that is in range: a bit, a word, or
/// an array of bits with a site for each.
///
/// # Errors
///
/// Memory is wanting, or the place of a site is 2^32 or more. After a refusal the graph has all nodes that it had (`keeps`).
pub fn hole_value(
    alloc: Global,
    dag: &mut Dag,
    ty: Option<Ty>,
    site: usize,
    expanded: &Expanded,
    chosen: Option<&Choice>,
) -> Result<Shape, AllocError>
    ensures keeps { Keeps dag.old dag.new }
    ensures chosen { IfOk result (λ r. IsChosen dag.new expanded.now (λ e. record { values = chosen_values (option_copied chosen.entry) e }) (λ a. hole_value_of a.values dag.old.bits ty site) r) }
{
    match ty {
        None => {
            let r = hole_word(dag, site, expanded, chosen)?;
            Ok(r)
        }
        Some(ty) => {
            let r = hole_at(alloc, dag, ty, site, expanded, chosen)?;
            Ok(r)
        }
    }
}
