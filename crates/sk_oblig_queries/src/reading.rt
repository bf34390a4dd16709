//! What an answer of the solver says of the bits of the names, and the choice that they give.

ghost use Rattle.std.specs.Prelude.{◌≡◌, IfOk, List as ListOf, ℕ, Option as OptionOf, map};
ghost use Rattle.sk_base.specs.declared.bounds.Bounds.{Bounds};
ghost use Rattle.sk_clause.specs.Meaning.{Meets, valuation};
ghost use Rattle.sk_model.specs.declared.expanded.Input.{Input};
ghost use Rattle.sk_model.specs.declared.expanded.Expanded.{Expanded};
ghost use Rattle.sk_oblig_queries.specs.declared.query.Query.{Query};
ghost use Rattle.sk_oblig_queries.specs.declared.query.Query.TheVariants.{Wanted};
ghost use Rattle.sk_oblig_queries.specs.Queries.{AsksFor, Holds, IsWanted};
ghost use Rattle.sk_oblig_queries.specs.Said.{choice_said};

use crate::numbers::numbers_of_bits;
use crate::widths::site_widths;
use sk_base::List;
use sk_cnf::Encoded;
use sk_model::{Choice, Expanded};
use std::alloc::{AllocError, Global};

// The value of a variable; one past the end is false.
fn value_of(found: &[bool], var: usize) -> bool
    ensures { result ≡ valuation found.now var }
{
    if var < found.len() {
        return found[var];
    }
    false
}

fn values_of(alloc: Global, names: &[usize], found: &[bool]) -> Result<List<bool>, AllocError>
    ensures { IfOk result (λ bits. bits ≡ map (valuation found.now) names.now) }
{
    let mut bits = List::new(alloc);
    for name in names {
        bits.push(value_of(found, *name))?;
    }
    Ok(bits)
}

/// The values of the names of a formula, in order, where the variables have the values found. A variable past their end is
/// false. Where the values meet the clauses, the bits say what each query asks for that the formula asks.
#[tactic(auto, using(crate::proofs::Asking::asked))]
pub fn bits_of_names(
    alloc: Global,
    encoded: &Encoded,
    found: &[bool],
) -> Result<List<bool>, AllocError>
    requires met { Meets (valuation found.now) encoded.now.clauses.clauses }
    ensures said { IfOk result (λ bits. bits ≡ map (valuation found.now) encoded.now.names) }
    ensures holds { IfOk result (λ bits. (e : Expanded) (bounds : Bounds) (query : Query) → AsksFor encoded.now e bounds query → Holds e bounds query bits) }
{
    let bits = values_of(alloc, encoded.names.as_slice(), found)?;
    Ok(bits)
}

/// The choice that bits say.
#[tactic(auto, using(crate::proofs::Narrow::narrow_sites))]
fn choice_of_bits(alloc: Global, expanded: &Expanded, bits: &[bool]) -> Result<Choice, AllocError>
    ensures { IfOk result (λ choice. choice ≡ choice_said expanded.now.sites bits.now) }
{
    let widths = site_widths(alloc, expanded.sites.as_slice())?;
    let values = numbers_of_bits(alloc, widths.as_slice(), bits)?;
    Ok(Choice { values })
}

/// The choice that values of all variables say, by the names of a formula. Where they meet the clauses, each choice query
/// for which the formula asks holds of it.
pub fn choice_of(
    alloc: Global,
    expanded: &Expanded,
    encoded: &Encoded,
    found: &[bool],
) -> Result<Choice, AllocError>
    requires met { Meets (valuation found.now) encoded.now.clauses.clauses }
    ensures said { IfOk result (λ choice. choice ≡ choice_said expanded.now.sites (map (valuation found.now) encoded.now.names)) }
    ensures wanted { IfOk result (λ choice. (bounds : Bounds) (inputs : ListOf Input) (limit : OptionOf ℕ) →
        AsksFor encoded.now expanded.now bounds (Wanted inputs limit) → IsWanted expanded.now bounds inputs limit choice) }
{
    let bits = bits_of_names(alloc, encoded, found)?;
    let choice = choice_of_bits(alloc, expanded, bits.as_slice())?;
    Ok(choice)
}
