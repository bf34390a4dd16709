//! Choices that are 0 where no site stands.
ghost use Rattle.std.specs.Prelude.{◌≡◌, IsTrue, IfOk, false, slice_index_or, if◌then◌else◌};
ghost use Rattle.sk_model.specs.Fill.{InRange, fill};
ghost use Rattle.sk_model.specs.Stands.{AgreeWhereStands, standing, sites_stand};
ghost use Rattle.sk_expand_sites.specs.Needs.{HasItsSites, are_narrow};
ghost use Rattle.sk_holes_marks.specs.Zeroed.{IsCanonical, zeroed};

use crate::marks::marks_of;
use sk_base::List;
use sk_model::{Choice, Expanded};
use std::alloc::{AllocError, Global};

/// The value of the site with a number, where it is marked, and 0 elsewhere.
fn value_if(marks: &[bool], i: usize, value: u64) -> u64
    ensures { result ≡ (if slice_index_or marks.now i false then value else 0) }
{
    if i < marks.len() && marks[i] {
        return value;
    }
    0
}

fn zeroed(alloc: Global, marks: &[bool], values: &[u64]) -> Result<List<u64>, AllocError>
    ensures { IfOk result (λ all. all ≡ zeroed marks.now 0 values.now) }
{
    let mut all = List::new(alloc);
    for (i, value) in values.iter().enumerate() {
        all.push(value_if(marks, i, *value))?;
    }
    Ok(all)
}

/// The choice that has the values of this one for the sites that stand under it, and 0 for each other site. The same sites stand
/// under it, and it fills the program alike.
#[tactic(auto, using(crate::proofs::ZeroLaws::canonical))]
pub fn canonical(alloc: Global, expanded: &Expanded, choice: &Choice) -> Result<Choice, AllocError>
    requires sites { HasItsSites expanded.now }
    requires narrow { IsTrue (are_narrow expanded.now.sites) }
    requires range { InRange expanded.now choice.now }
    ensures values { IfOk result (λ c. c.values ≡ zeroed (sites_stand (standing expanded.now choice.now.values)) 0 choice.now.values) }
    ensures canonical { IfOk result (λ c. IsCanonical expanded.now c.values) }
    ensures marks { IfOk result (λ c. sites_stand (standing expanded.now c.values) ≡ sites_stand (standing expanded.now choice.now.values)) }
    ensures range { IfOk result (λ c. InRange expanded.now c) }
    ensures agrees { IfOk result (λ c. AgreeWhereStands expanded.now choice.now.values c.values) }
    ensures filling { IfOk result (λ c. fill expanded.now c ≡ fill expanded.now choice.now) }
{
    let marks = marks_of(alloc, expanded, choice)?;
    let values = zeroed(alloc, marks.as_slice(), choice.values.as_slice())?;
    Ok(Choice { values })
}
