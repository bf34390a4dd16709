//! The search for an input that speaks against one choice.

ghost use Rattle.std.specs.Prelude.{IfOk};
ghost use Rattle.sk_model.specs.Fill.{InRange};
ghost use Rattle.sk_loop_guesses.specs.Formulas.{IsAskable};
ghost use Rattle.sk_loop.specs.Answered.{IsAnswered};
ghost use Rattle.sk_loop.specs.Countered.{IsCountered};

use crate::solving::{Answered, answer, load};
use sk_base::Bounds;
use sk_clause::Log;
use sk_cnf::Encoded;
use sk_loop_copies::copy_choice;
use sk_loop_guesses::asking::oblig::{input_of, watched_formula};
use sk_loop_guesses::guess;
use sk_model::{Choice, Expanded, Input as InputOf};
use sk_oblig_queries::Query;
use sk_sat::Solver;
use sk_watch::{News, Phase, Watch};
use std::alloc::{AllocError, Global};

/// What a search for an input found.
#[derive(Debug, Drop)]
pub enum Countered {
    /// An input that speaks against the choice.
    Input(InputOf),
    /// There is none.
    None,
    /// One call of the solver has learnt as many clauses as it may.
    Conflicts {
        query: Query,
        formula: Encoded,
        log: Log,
    },
}

// Asks a solver of its own.
#[tactic(auto, using(crate::proofs::Loading::starts_loaded))]
fn solved<W: Watch>(
    alloc: Global,
    encoded: &Encoded,
    budget: u64,
    watch: &mut W,
) -> Result<Answered, AllocError>
    ensures { IfOk result (IsAnswered encoded.now budget) }
{
    let mut solver = Solver::new(alloc);
    load(&mut solver, &encoded.clauses, 0)?;
    let answered = answer(alloc, &mut solver, encoded, budget, watch)?;
    Ok(answered)
}

// Looks for an input that speaks against a choice within a limit, by a formula.
#[tactic(auto, using(crate::proofs::Countering::countering))]
fn asked<W: Watch>(
    alloc: Global,
    expanded: &Expanded,
    bounds: &Bounds,
    choice: &Choice,
    limit: Option<u64>,
    budget: u64,
    watch: &mut W,
) -> Result<Countered, AllocError>
    requires askable { IsAskable expanded.now bounds.now }
    requires range { InRange expanded.now choice.now }
    ensures { IfOk result (IsCountered expanded.now bounds.now choice.now limit budget) }
{
    let copy = copy_choice(alloc, choice)?;
    let query = Query::Bad {
        choice: copy,
        limit,
    };
    let encoded = watched_formula(alloc, expanded, bounds, &query, watch)?;
    match solved(alloc, &encoded, budget, watch)? {
        Answered::Met(values) => {
            let input = input_of(alloc, expanded, bounds, &query, &encoded, values.as_slice())?;
            Ok(Countered::Input(input))
        }
        Answered::Never => Ok(Countered::None),
        Answered::Spent { formula, log } => Ok(Countered::Conflicts {
            query,
            formula,
            log,
        }),
    }
}

/// Looks for an input that speaks against a choice within a limit: first among the guesses, then by a formula. The watcher is told
/// when it begins, of the graph and of the formula.
pub fn counter<W: Watch>(
    alloc: Global,
    expanded: &Expanded,
    bounds: &Bounds,
    choice: &Choice,
    limit: Option<u64>,
    budget: u64,
    watch: &mut W,
) -> Result<Countered, AllocError>
    requires askable { IsAskable expanded.now bounds.now }
    requires range { InRange expanded.now choice.now }
    ensures { IfOk result (IsCountered expanded.now bounds.now choice.now limit budget) }
{
    watch.tell(News::Phase(Phase::Countering));
    match guess(alloc, expanded, bounds, choice, limit)? {
        Some(guessed) => Ok(Countered::Input(guessed)),
        None => {
            let countered = asked(alloc, expanded, bounds, choice, limit, budget, watch)?;
            Ok(countered)
        }
    }
}
