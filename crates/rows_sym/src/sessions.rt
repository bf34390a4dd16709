//! Searches for a choice: by a session that is called twice, and by a search of its own.

ghost use Rattle.std.specs.Prelude.{◌≡◌, None, OnOk};
ghost use Rattle.sk_loop.specs.Session.{IsReady};
ghost use Rattle.sk_loop_laws.specs.Honest.{Honest, inputs_of};
ghost use Rattle.sk_oblig.specs.Formulas.{IsAskable};

use crate::sketch::{Source, expansion_in};
use sk_base::{Bounds, Budget, List};
use sk_clause::Clauses;
use sk_loop::{Found, Session, synthesise};
use sk_loop_copies::copy_clauses;
use sk_model::{Choice, Expanded, Pair};
use sk_watch::Silent;
use std::alloc::{AllocError, Global};

/// What two calls of one session do, with the same pairs, no limit and no budget.
#[derive(Clone, Copy)]
pub struct Calls {
    /// Whether the first call finds what is wanted.
    pub first: bool,
    /// Whether the second call does.
    pub second: bool,
    /// Whether the clauses that the session asks after the second call begin with those after the first.
    pub begins: bool,
}

/// What searches of a sketch do.
#[derive(Clone, Copy)]
pub struct Searches {
    pub calls: Calls,
    /// Whether a search in a session of its own finds what is wanted.
    pub alone: bool,
}

// No budget.
fn unbounded() -> Budget
    ensures { result.rounds ≡ 0 }
{
    Budget {
        rounds: 0,
        conflicts: 0,
    }
}

// Whether this choice was found, or that there is none where none is wanted.
fn is_found(found: &Found, wanted: Option<&Choice>) -> bool {
    match (found, wanted) {
        (Found::Choice(choice), Some(wanted)) => {
            choice.values.as_slice() == wanted.values.as_slice()
        }
        (Found::Nothing, None) => true,
        (Found::Choice(_), None) | (Found::Nothing, Some(_)) => false,
        (Found::Rounds | Found::Conflicts { .. }, _) => false,
    }
}

// Whether clauses begin with others.
fn begin_with(clauses: &Clauses, front: &Clauses) -> bool {
    if clauses.len() < front.len() {
        return false;
    }
    for i in 0..front.len() {
        if clauses.get(i) != front.get(i) {
            return false;
        }
    }
    true
}

// Whether a call of a session finds what is wanted.
#[tactic(auto, using(crate::proofs::Calling::calling))]
fn call(
    session: &mut Session,
    expanded: &Expanded,
    bounds: &Bounds,
    pairs: &mut List<Pair>,
    wanted: Option<&Choice>,
) -> Result<bool, AllocError>
    requires askable { IsAskable expanded.now bounds.now }
    requires ready { IsReady session.old expanded.now bounds.now (inputs_of pairs.old) None }
    requires honest { Honest expanded.now bounds.now pairs.old }
    ensures ready { OnOk result (IsReady session.new expanded.now bounds.now (inputs_of pairs.new) None) }
    ensures honest { OnOk result (Honest expanded.now bounds.now pairs.new) }
{
    let found = session.synthesise(expanded, bounds, None, pairs, &unbounded(), &mut Silent)?;
    Ok(is_found(&found, wanted))
}

// Calls a session twice.
fn call_twice(
    alloc: Global,
    session: &mut Session,
    expanded: &Expanded,
    bounds: &Bounds,
    pairs: &mut List<Pair>,
    wanted: Option<&Choice>,
) -> Result<Calls, AllocError>
    requires askable { IsAskable expanded.now bounds.now }
    requires ready { IsReady session.old expanded.now bounds.now (inputs_of pairs.old) None }
    requires honest { Honest expanded.now bounds.now pairs.old }
{
    let first = call(session, expanded, bounds, pairs, wanted)?;
    let before = copy_clauses(alloc, &session.asked().clauses)?;
    let second = call(session, expanded, bounds, pairs, wanted)?;
    let begins = begin_with(&session.asked().clauses, &before);
    Ok(Calls {
        first,
        second,
        begins,
    })
}

// What two calls of a new session do.
#[tactic(auto, using(crate::proofs::Calling::beginning))]
fn call_new(
    alloc: Global,
    expanded: &Expanded,
    bounds: &Bounds,
    wanted: Option<&Choice>,
) -> Result<Calls, AllocError>
    requires askable { IsAskable expanded.now bounds.now }
{
    let mut session = Session::new(alloc, expanded, bounds)?;
    let mut pairs = List::new(alloc);
    call_twice(alloc, &mut session, expanded, bounds, &mut pairs, wanted)
}

// Whether a search in a session of its own finds what is wanted.
#[tactic(auto, using(crate::proofs::Calling::beginning))]
fn find_alone(
    alloc: Global,
    expanded: &Expanded,
    bounds: &Bounds,
    wanted: Option<&Choice>,
) -> Result<bool, AllocError>
    requires askable { IsAskable expanded.now bounds.now }
{
    let mut pairs = List::new(alloc);
    let found = synthesise(
        alloc,
        expanded,
        bounds,
        None,
        &mut pairs,
        &unbounded(),
        &mut Silent,
    )?;
    Ok(is_found(&found, wanted))
}

fn search(
    alloc: Global,
    expanded: &Expanded,
    bounds: &Bounds,
    wanted: Option<&Choice>,
) -> Result<Option<Searches>, AllocError>
    requires askable { IsAskable expanded.now bounds.now }
{
    let calls = call_new(alloc, expanded, bounds, wanted)?;
    let alone = find_alone(alloc, expanded, bounds, wanted)?;
    Ok(Some(Searches { calls, alone }))
}

/// What searches of the sketch that a text means do, where this choice is the only one that completes it, or none does. There is
/// nothing where the text means no sketch.
pub fn searches_of(
    alloc: Global,
    source: &Source<'_>,
    wanted: Option<&Choice>,
) -> Result<Option<Searches>, AllocError> {
    match expansion_in(alloc, source) {
        Some(it) => search(alloc, &it.expanded, &it.bounds, wanted),
        None => Ok(None),
    }
}
