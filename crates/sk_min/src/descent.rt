//! The search for a completion that costs least.

ghost use Rattle.std.specs.Prelude.{◌≡◌, ◌-◌, IfOk, None, Some};
ghost use Rattle.sk_loop.specs.Session.{IsReady, StandsFor};
ghost use Rattle.sk_loop_laws.specs.Honest.{Honest, inputs_of};
ghost use Rattle.sk_loop_laws.specs.Shown.{HasRoom};
ghost use Rattle.sk_loop.specs.Formulas.{IsAskable};
ghost use Rattle.sk_min_laws.specs.Best.{Meeting};
ghost use Rattle.sk_min.specs.Least.{IsAnswer, pairs_of};
ghost use Rattle.sk_min.specs.Search.{IsBehind, IsCheapest, IsCostly, IsState, IsTop, IsTurn};

use crate::answer::Least;
use crate::raise::raise;
use crate::search::{Raised, State, Turn};
use sk_base::{Bounds, Budget, List};
use sk_limits::too_many;
use sk_loop::{Found, Session};
use sk_min_costs::is_free;
use sk_model::{Choice, Expanded, Pair};
use sk_watch::{News, Watch};
use std::alloc::{AllocError, Global};

// Looks for a choice that costs less than the best one, whose greatest cost is the value.
fn lower<W: Watch>(
    expanded: &Expanded,
    bounds: &Bounds,
    budget: &Budget,
    mut session: Session,
    mut pairs: List<Pair>,
    best: Choice,
    value: u64,
    watch: &mut W,
) -> Result<Turn, AllocError>
    requires askable { IsAskable expanded.now bounds.now }
    requires costly { IsCostly expanded.now }
    requires top { IsTop expanded.now bounds.now pairs best value }
    requires ready { IsReady session expanded.now bounds.now (inputs_of pairs) (Some (value - 1)) }
    requires room { HasRoom budget.now pairs }
    ensures { IfOk result (IsTurn expanded.now bounds.now budget.now pairs best) }
{
    if value == 0 {
        return Ok(Turn::Ended(Least::Best {
            choice: best,
            value,
            pairs,
        }));
    }
    match session.synthesise(expanded, bounds, Some(value - 1), &mut pairs, budget, watch)? {
        Found::Choice(choice) => Ok(Turn::Lower(State {
            session,
            pairs,
            best: choice,
        })),
        Found::Nothing => Ok(Turn::Ended(Least::Best {
            choice: best,
            value,
            pairs,
        })),
        Found::Rounds => Ok(Turn::Ended(Least::Rounds {
            pairs,
            best: Some(best),
        })),
        Found::Conflicts {
            query,
            formula,
            log,
        } => {
            Ok(Turn::Ended(Least::Conflicts {
                pairs,
                query,
                formula,
                log,
                best: Some(best),
            }))
        }
    }
}

// The greatest cost of the best choice, and then a search below it.
fn turn<W: Watch>(
    alloc: Global,
    expanded: &Expanded,
    bounds: &Bounds,
    budget: &Budget,
    state: State,
    watch: &mut W,
) -> Result<Turn, AllocError>
    requires askable { IsAskable expanded.now bounds.now }
    requires costly { IsCostly expanded.now }
    requires state { IsState expanded.now bounds.now state }
    requires room { HasRoom budget.now state.pairs }
    ensures { IfOk result (IsTurn expanded.now bounds.now budget.now state.pairs state.best) }
{
    let State {
        session,
        pairs,
        best,
    } = state;
    match raise(alloc, expanded, bounds, budget, pairs, best, watch)? {
        Raised::Top { pairs, best, value } => {
            watch.tell(News::Better {
                value,
                holes: best.values.as_slice(),
            });
            let turn = lower(expanded, bounds, budget, session, pairs, best, value, watch)?;
            Ok(turn)
        }
        Raised::Ended(answer) => Ok(Turn::Ended(answer)),
    }
}

// Turns until one ends.
fn descend<W: Watch>(
    alloc: Global,
    expanded: &Expanded,
    bounds: &Bounds,
    budget: &Budget,
    first: State,
    watch: &mut W,
) -> Result<Least, AllocError>
    requires askable { IsAskable expanded.now bounds.now }
    requires costly { IsCostly expanded.now }
    requires state { IsState expanded.now bounds.now first }
    requires room { HasRoom budget.now first.pairs }
    ensures answer { IfOk result (IsAnswer expanded.now bounds.now budget.now) }
    ensures behind { IfOk result (λ answer. IsBehind first.pairs (pairs_of answer)) }
{
    let mut state = first;
    for _turn in 0..u64::MAX {
        match turn(alloc, expanded, bounds, budget, state, watch)? {
            Turn::Lower(next) => state = next,
            Turn::Ended(answer) => return Ok(answer),
        }
    }
    Err(too_many())
}

// The first choice that meets every obligation is the best one where nothing costs anything.
fn from_first<W: Watch>(
    alloc: Global,
    expanded: &Expanded,
    bounds: &Bounds,
    budget: &Budget,
    session: Session,
    pairs: List<Pair>,
    best: Choice,
    watch: &mut W,
) -> Result<Least, AllocError>
    requires askable { IsAskable expanded.now bounds.now }
    requires meeting { Meeting expanded.now bounds.now best }
    requires honest { Honest expanded.now bounds.now pairs }
    requires cheapest { IsCheapest expanded.now bounds.now pairs best }
    requires stands { StandsFor session expanded.now bounds.now (inputs_of pairs) None }
    requires room { HasRoom budget.now pairs }
    ensures answer { IfOk result (IsAnswer expanded.now bounds.now budget.now) }
    ensures behind { IfOk result (λ answer. IsBehind pairs (pairs_of answer)) }
{
    if is_free(&expanded.prog) {
        return Ok(Least::Best {
            choice: best,
            value: 0,
            pairs,
        });
    }
    descend(
        alloc,
        expanded,
        bounds,
        budget,
        State {
            session,
            pairs,
            best,
        },
        watch,
    )
}

/// Looks for a choice that meets every obligation and whose greatest cost is least. The watcher is told of each choice whose greatest
/// cost becomes known, where something costs.
pub fn least<W: Watch>(
    alloc: Global,
    expanded: &Expanded,
    bounds: &Bounds,
    budget: &Budget,
    watch: &mut W,
) -> Result<Least, AllocError>
    requires askable { IsAskable expanded.now bounds.now }
    ensures answer { IfOk result (IsAnswer expanded.now bounds.now budget.now) }
{
    let mut session = Session::new(alloc, expanded, bounds)?;
    let mut pairs = List::new(alloc);
    match session.synthesise(expanded, bounds, None, &mut pairs, budget, watch)? {
        Found::Choice(choice) => from_first(
            alloc, expanded, bounds, budget, session, pairs, choice, watch,
        ),
        Found::Nothing => Ok(Least::Nothing { pairs }),
        Found::Rounds => Ok(Least::Rounds { pairs, best: None }),
        Found::Conflicts {
            query,
            formula,
            log,
        } => {
            Ok(Least::Conflicts {
                pairs,
                query,
                formula,
                log,
                best: None,
            })
        }
    }
}
