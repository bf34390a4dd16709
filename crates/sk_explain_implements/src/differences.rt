//! In what a function departs from the one that it implements.
use crate::headings::Heading;
use crate::types::{Param, differ, param_at, param_count, record_of, span_of};
use sk_base::Span;

/// In what a function departs from its reference.
#[derive(Drop, Clone, Copy)]
pub enum Difference {
    /// The reference is a generator.
    ReferenceGenerates,
    /// It is a generator.
    Generates,
    /// The types of the results.
    Result { of: Span, not: Span },
    /// How many parameters there are.
    Count { of: usize, not: usize },
    /// The reference has this parameter by `ref`.
    ByRef { number: usize },
    /// It has this parameter by `ref`.
    NotByRef { number: usize },
    /// The types of this parameter.
    Param { number: usize, of: Span, not: Span },
    /// The reference has this struct in its result.
    ResultRecord { of: Span },
    /// The reference has this struct as this parameter.
    ParamRecord { number: usize, of: Span },
}

// The difference of two parameters with a number, where there surely is one.
fn of_params(number: usize, reference: Param<'_>, param: Param<'_>) -> Option<Difference> {
    if reference.by_ref && !param.by_ref {
        return Some(Difference::ByRef { number });
    }
    if param.by_ref && !reference.by_ref {
        return Some(Difference::NotByRef { number });
    }
    if differ(reference.ty, param.ty) {
        return Some(Difference::Param {
            number,
            of: span_of(reference.ty)?,
            not: span_of(param.ty)?,
        });
    }
    let of = record_of(reference.ty)?;
    Some(Difference::ParamRecord { number, of })
}

// The first of these differences, of so many parameters.
fn first_of_params(reference: Heading<'_>, of: Heading<'_>, count: usize) -> Option<Difference> {
    for at in 0..count {
        let number = at.saturating_add(1);
        let found = of_params(
            number,
            param_at(reference.params, at)?,
            param_at(of.params, at)?,
        );
        if found.is_some() {
            return found;
        }
    }
    None
}

// The difference of the results, where there surely is one.
fn of_results(reference: Heading<'_>, of: Heading<'_>) -> Option<Difference> {
    if differ(reference.result, of.result) {
        return Some(Difference::Result {
            of: span_of(reference.result)?,
            not: span_of(of.result)?,
        });
    }
    let record = record_of(reference.result)?;
    Some(Difference::ResultRecord { of: record })
}

/// The first difference of a function from its reference, where there surely is one.
pub fn first_difference(reference: Heading<'_>, of: Heading<'_>) -> Option<Difference> {
    if reference.is_generator {
        return Some(Difference::ReferenceGenerates);
    }
    if of.is_generator {
        return Some(Difference::Generates);
    }
    let found = of_results(reference, of);
    if found.is_some() {
        return found;
    }
    let count = param_count(reference.params);
    let not = param_count(of.params);
    if count != not {
        return Some(Difference::Count { of: count, not });
    }
    first_of_params(reference, of, count)
}
