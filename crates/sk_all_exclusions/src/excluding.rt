//! Clauses that exclude listed choices.

ghost use Rattle.std.specs.Prelude.{◌≡◌, ◌++◌, ◌∷◌, [], All, IfOk, IsTrue, OnOk, false, length, slice_index_or};
ghost use Rattle.sk_expand_sites.specs.Needs.{are_narrow};
ghost use Rattle.sk_model.specs.Parts.{value};
ghost use Rattle.sk_all_exclusions.specs.Exclusions.{HasNames, IsListed, all_denied, bit_at, denial, denied, exclusion, exclusions, site_leaves};
ghost use Rattle.sk_all_exclusions.specs.Laws.{AreExact};

use crate::listed::Listed;
use sk_base::{Bounds, List};
use sk_clause::Lit;
use sk_cnf::{Encoded, Leaf};
use sk_model::Expanded;
use sk_oblig_queries::{Query, leaves_of};
use std::alloc::{AllocError, Global};

/// Whether the site with a number is marked.
fn is_marked(marks: &[bool], site: usize) -> bool
    ensures { result ≡ slice_index_or marks.now site false }
{
    if site < marks.len() {
        return marks[site];
    }
    false
}

/// The value of the site with a number.
fn value_at(values: &[u64], site: usize) -> u64
    ensures { result ≡ value values.now site }
{
    if site < values.len() {
        return values[site];
    }
    0
}

/// Whether bit `k` of a number is 1.
fn bit_at(number: u64, k: u32) -> bool
    ensures { result ≡ bit_at number k }
{
    k < 64 && number >> k & 1 == 1
}

/// Adds the literal that denies a bit, where its site is marked.
fn push_denial(
    clause: &mut Vec<Lit>,
    marked: bool,
    name: usize,
    bit: bool,
) -> Result<(), AllocError>
    ensures { OnOk result (clause.new.items ≡ clause.old.items ++ denial marked name bit) }
{
    if marked {
        clause.push(Lit {
            var: name,
            neg: bit,
        })?;
        return Ok(());
    }
    Ok(())
}

/// Adds the literal that denies the bit of a leaf, where its site stands.
fn deny(
    clause: &mut Vec<Lit>,
    marks: &[bool],
    values: &[u64],
    name: usize,
    leaf: Leaf,
) -> Result<(), AllocError>
    ensures { OnOk result (clause.new.items ≡ clause.old.items ++ denied marks.now values.now name leaf) }
{
    match leaf {
        Leaf::Hole { site, k } => {
            let at = site as usize;
            let bit = bit_at(value_at(values, at), k);
            push_denial(clause, is_marked(marks, at), name, bit)?;
            Ok(())
        }
        Leaf::Input { scalar: _, k: _ } => Ok(()),
    }
}

/// The clause by which some bit of a site that stands is not that of the values.
#[tactic(auto, using(crate::proofs::Denying::denies))]
fn exclusion(
    alloc: Global,
    names: &[usize],
    leaves: &[Leaf],
    marks: &[bool],
    values: &[u64],
) -> Result<Vec<Lit>, AllocError>
    requires { length leaves.now ≡ length names.now }
    ensures { IfOk result (λ clause. clause.items ≡ all_denied marks.now values.now names.now leaves.now) }
{
    let mut clause = Vec::new(alloc);
    for j in 0..names.len() {
        deny(&mut clause, marks, values, names[j], leaves[j])?;
    }
    Ok(clause)
}

/// The leaves of the bits of all sites.
#[tactic(auto, using(crate::proofs::Denying::leaves))]
fn site_leaves(
    alloc: Global,
    expanded: &Expanded,
    bounds: &Bounds,
) -> Result<List<Leaf>, AllocError>
    ensures { IfOk result (λ leaves. leaves ≡ site_leaves expanded.now) }
{
    let query = Query::Wanted {
        inputs: List::new(alloc),
        limit: None,
    };
    let leaves = leaves_of(alloc, expanded, bounds, &query)?;
    Ok(leaves)
}

/// Adds the clause that excludes a listed choice.
#[tactic(auto, using(crate::proofs::Denying::excludes))]
fn exclude_one(
    alloc: Global,
    expanded: &Expanded,
    encoded: &mut Encoded,
    leaves: &[Leaf],
    listed: &Listed,
) -> Result<(), AllocError>
    requires leaves { leaves.now ≡ site_leaves expanded.now }
    requires names { HasNames encoded.old expanded.now }
    requires listed { IsListed expanded.now listed.now }
    ensures clauses { OnOk result (encoded.new.clauses.clauses ≡ encoded.old.clauses.clauses ++ exclusion expanded.now encoded.old.names listed.now.choice ∷ []) }
    ensures vars { OnOk result (encoded.new.clauses.vars ≡ encoded.old.clauses.vars) }
    ensures names { OnOk result (encoded.new.names ≡ encoded.old.names) }
{
    let clause = exclusion(
        alloc,
        encoded.names.as_slice(),
        leaves,
        listed.marks.as_slice(),
        listed.choice.values.as_slice(),
    )?;
    encoded.clauses.push(clause.as_slice())?;
    Ok(())
}

/// Excludes listed choices from a formula that has a name for each bit of each site: for each a clause is added by which
/// the names say a choice that differs from it in the value of some site that stands under it. After a refusal the formula
/// may have some of these clauses, and is given up by the caller, which made it for this one question.
///
/// # Errors
///
/// Memory is wanting, or there are more sites than can be numbered.
#[tactic(auto, using(crate::proofs::Excluded::excluded))]
pub fn exclude(
    alloc: Global,
    expanded: &Expanded,
    bounds: &Bounds,
    encoded: &mut Encoded,
    listed: &[Listed],
) -> Result<(), AllocError>
    requires narrow { IsTrue (are_narrow expanded.now.sites) }
    requires names { HasNames encoded.old expanded.now }
    requires listed { All (IsListed expanded.now) listed.now }
    ensures clauses { OnOk result (encoded.new.clauses.clauses ≡ encoded.old.clauses.clauses ++ exclusions expanded.now encoded.old.names listed.now) }
    ensures vars { OnOk result (encoded.new.clauses.vars ≡ encoded.old.clauses.vars) }
    ensures names { OnOk result (encoded.new.names ≡ encoded.old.names) }
    // The values that meet the new clauses are those that meet the old ones and say a choice that agrees with none.
    ensures exact { OnOk result (AreExact expanded.now encoded.old encoded.new listed.now) }
{
    let leaves = site_leaves(alloc, expanded, bounds)?;
    for i in 0..listed.len() {
        exclude_one(alloc, expanded, encoded, leaves.as_slice(), &listed[i])?;
    }
    Ok(())
}
