//! The queries of a certificate's parts.

ghost use Rattle.std.specs.Prelude.{◌≡◌, IfOk, Some};
ghost use Rattle.sk_oblig_queries.specs.declared.query.Query.TheVariants as query;
ghost use Rattle.sk_check_laws.specs.Parts.{lower_limit, lower_query, upper_query};

use sk_base::List;
use sk_cert::Certificate;
use sk_limits::number_of;
use sk_loop_copies::copy_choice;
use sk_model::{Choice, Input};
use sk_oblig_queries::Query;
use std::alloc::{AllocError, Global};

// The query for an input of the obligation at a place that speaks against the choice within the value.
fn query_at(alloc: Global, choice: &Choice, place: usize, value: u64) -> Result<Query, AllocError>
    ensures { IfOk result (λ q. q ≡ query.BadAt choice.now place value) }
{
    let obligation = number_of(place)?;
    let choice = copy_choice(alloc, choice)?;
    Ok(Query::BadAt {
        choice,
        obligation,
        limit: value,
    })
}

// The query for an input of any obligation that speaks against the choice within the value.
fn query_of_all(alloc: Global, choice: &Choice, value: u64) -> Result<Query, AllocError>
    ensures { IfOk result (λ q. q ≡ query.Bad choice.now (Some value)) }
{
    let choice = copy_choice(alloc, choice)?;
    Ok(Query::Bad {
        choice,
        limit: Some(value),
    })
}

/// What the upper part at a place asks of a choice and its value, in this version.
pub(crate) fn upper_query(
    alloc: Global,
    version: u32,
    choice: &Choice,
    value: u64,
    place: usize,
) -> Result<Query, AllocError>
    ensures { IfOk result (λ q. q ≡ upper_query version choice.now value place) }
{
    if version == 1 {
        let query = query_of_all(alloc, choice, value)?;
        return Ok(query);
    }
    let query = query_at(alloc, choice, place, value)?;
    Ok(query)
}

// Within what the lower part asks for a choice.
fn lower_limit(choice: &Option<Choice>, value: u64) -> Option<u64>
    ensures { result ≡ lower_limit choice.now value }
{
    match choice {
        None => None,
        Some(_) => Some(value.saturating_sub(1)),
    }
}

/// What the lower part asks of these inputs.
pub(crate) fn lower_query(certificate: &Certificate, inputs: List<Input>) -> Query
    ensures { result ≡ lower_query certificate.now.choice certificate.now.value inputs }
{
    Query::Wanted {
        inputs,
        limit: lower_limit(&certificate.choice, certificate.value),
    }
}
