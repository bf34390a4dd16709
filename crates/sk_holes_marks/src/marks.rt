//! Marks the sites of whole programs.
ghost use Rattle.std.specs.Prelude.{◌≡◌, ◌+◌, ◌≤◌, ◌++◌, [], IsTrue, IfOk, OnOk, length, map};
ghost use Rattle.sk_model.specs.Parts.{total};
ghost use Rattle.sk_model.specs.Fill.{InRange};
ghost use Rattle.sk_model.specs.Stands.{standing, standing_from, sites_stand};
ghost use Rattle.sk_expand_sites.specs.Needs.{HasItsSites, are_narrow};
ghost use Rattle.sk_holes_standing.specs.Functions.{sites_in};
ghost use Rattle.sk_holes_marks.specs.Words.{are_numbers, marks_of_funs, sites_of};

use crate::walk::mark_stmts;
use sk_base::List;
use sk_holes_standing::{Walker, what_stands};
use sk_model::{Choice, Expanded};
use sk_prog::Fun;
use std::alloc::{AllocError, Global};

/// The values of a choice as numbers of a program.
fn numbers(alloc: Global, values: &[u64]) -> Result<Vec<u32>, AllocError>
    requires { IsTrue (are_numbers values.now) }
    ensures { IfOk result (λ xs. xs.items ≡ values.now) }
{
    let mut numbers = Vec::with_capacity(alloc, values.len())?;
    for value in values {
        numbers.push(*value as u32)?;
    }
    Ok(numbers)
}

/// Marks the sites of functions, of which these stand.
#[tactic(auto, using(crate::proofs::Rows::functions))]
fn mark_funs(
    values: &[u32],
    stands: &[bool],
    funs: &[Fun],
    marks: &mut Vec<bool>,
) -> Result<(), AllocError>
    requires stands { length stands.now ≡ length funs.now }
    requires room { length marks.old.items + total (map (sites_of values.now) funs.now) ≤ length values.now }
    ensures { OnOk result (marks.new.items ≡ marks.old.items ++ marks_of_funs values.now stands.now (length marks.old.items) funs.now) }
{
    for (n, f) in funs.iter().enumerate() {
        mark_stmts(f.body.as_slice(), values, stands[n], marks)?;
    }
    Ok(())
}

/// For each site of functions, of which the first, so many, are ordinary, whether it stands under these values.
#[tactic(auto, using(crate::proofs::Whole::marked))]
fn marks_under(
    alloc: Global,
    values: &[u32],
    ordinary: u32,
    funs: &[Fun],
) -> Result<List<bool>, AllocError>
    requires { total (map (sites_in values.now) funs.now) ≤ length values.now }
    ensures { IfOk result (λ marks. marks ≡ sites_stand (standing_from values.now ordinary [] 0 0 funs.now)) }
{
    let walker = Walker { values };
    let stood = what_stands(alloc, &walker, ordinary, funs)?;
    let mut marks = Vec::new(alloc);
    mark_funs(values, stood.stands.as_slice(), funs, &mut marks)?;
    Ok(List::from_vec(marks))
}

/// For each site of an expanded program, in order, whether it stands under a choice in range.
#[tactic(auto, using(crate::proofs::Whole::chosen))]
pub fn marks_of(
    alloc: Global,
    expanded: &Expanded,
    choice: &Choice,
) -> Result<List<bool>, AllocError>
    requires sites { HasItsSites expanded.now }
    requires narrow { IsTrue (are_narrow expanded.now.sites) }
    requires range { InRange expanded.now choice.now }
    ensures { IfOk result (λ marks. marks ≡ sites_stand (standing expanded.now choice.now.values)) }
{
    let values = numbers(alloc, choice.values.as_slice())?;
    let funs = expanded.prog.funs.as_slice();
    let marks = marks_under(alloc, values.as_slice(), expanded.ordinary, funs)?;
    Ok(marks)
}
