//! A search that keeps its formula, and what was learnt of it.

ghost use Rattle.std.specs.Prelude.{◌≡◌, ◌+◌, [], None, IfOk, OnErr, OnOk, length};
ghost use Rattle.sk_cnf.specs.Standing.{Begins};
ghost use Rattle.sk_oblig_queries.specs.Queries.{IsWanted};
ghost use Rattle.sk_loop_guesses.specs.Formulas.{IsAskable};
ghost use Rattle.sk_loop_laws.specs.Shown.{HasRoom};
ghost use Rattle.sk_loop_laws.specs.Honest.{Grown, Honest, IsRound, inputs_of};
ghost use Rattle.sk_sat.specs.Solver.{gained};
ghost use Rattle.sk_loop.specs.Answered.{IsAnswered, IsOfCall};
ghost use Rattle.sk_loop.specs.Found.{IsFound};
ghost use Rattle.sk_loop.specs.Rounds.{IsProposed, IsTurn, Keeps, Solves, Steps};
ghost use Rattle.sk_loop.specs.Session.{IsLoaded, IsReady, KeepsClauses, StandsFor};

use crate::asks::{ask, ask_from, first_to_ask};
use crate::countered::{Countered, counter};
use crate::found::Found;
use crate::pairs::{cut, inputs_of, turn_after};
use crate::solving::{Answered, answer, load};
use crate::turn::{Proposed, Turn};
use sk_base::{Bounds, Budget, List};
use sk_clause::{Assignment, Log};
use sk_cnf::Encoded;
use sk_limits::too_many;
use sk_loop_guesses::asking::Asking;
use sk_model::{Choice, Expanded, Pair};
use sk_oblig_queries::{Query, choice_of};
use sk_sat::Solver;
use sk_watch::{News, Phase, Watch};
use std::alloc::{AllocError, Global};

/// A search for choices of one program under its bounds, which keeps its formula and what the solver learnt from call to call.
/// It stands for a query: for a choice that passes some inputs within a limit. After a refusal for want of memory it keeps its
/// names and what it had asked, but may also ask for inputs that were being added, and stands for no query.
pub struct Session {
    alloc: Global,
    /// the formula of the query for which it stands
    asking: Asking,
    solver: Solver,
    /// how many of its clauses the solver has
    loaded: usize,
    /// for how many inputs it stands, and within which limit
    count: usize,
    limit: Option<u64>,
}

// By hand, so that a function that holds a session drops it by one call: derived, the drops of all that it owns would be written
// out at each exit.
impl Drop for Session {
    fn drop(self) {
        let Session {
            alloc: _,
            asking: _,
            solver: _,
            loaded: _,
            count: _,
            limit: _,
        } = self;
    }
}

impl Session {
    /// A session that stands for no inputs and no limit.
    #[tactic(auto, using(crate::proofs::Standing::stands_begins))]
    pub fn new(alloc: Global, expanded: &Expanded, bounds: &Bounds) -> Result<Session, AllocError>
        requires askable { IsAskable expanded.now bounds.now }
        ensures stands { IfOk result (λ s. StandsFor s expanded.now bounds.now [] None) }
    {
        let asking = Asking::new(alloc, expanded, bounds)?;
        let solver = Solver::new(alloc);
        Ok(Session {
            alloc,
            asking,
            solver,
            loaded: 0,
            count: 0,
            limit: None,
        })
    }

    // Asks the solver, once it has all clauses.
    #[tactic(auto, using(crate::proofs::Standing::solves_made))]
    fn solve<W: Watch>(&mut self, budget: u64, watch: &mut W) -> Result<Answered, AllocError>
        requires loaded { IsLoaded self.old.solver self.old.loaded self.old.asking.growing.encoded.clauses }
        ensures answered { IfOk result (IsAnswered self.old.asking.growing.encoded budget) }
        ensures call { IfOk result (IsOfCall budget (gained self.old.solver self.new.solver)) }
        ensures solves { OnOk result (Solves self.old self.new) }
        ensures asking { self.new.asking ≡ self.old.asking }
    {
        let encoded = self.asking.encoded();
        load(&mut self.solver, &encoded.clauses, self.loaded)?;
        self.loaded = encoded.clauses.len();
        let answered = answer(self.alloc, &mut self.solver, encoded, budget, watch)?;
        Ok(answered)
    }

    // What the solver proposes for the pairs, for whose inputs the session stands.
    #[tactic(auto, using(crate::proofs::Proposing::proposing))]
    fn propose<W: Watch>(
        &mut self,
        expanded: &Expanded,
        bounds: &Bounds,
        limit: Option<u64>,
        pairs: &List<Pair>,
        budget: &Budget,
        watch: &mut W,
    ) -> Result<Proposed, AllocError>
        requires askable { IsAskable expanded.now bounds.now }
        requires stands { StandsFor self.old expanded.now bounds.now (inputs_of pairs.now) limit }
        requires honest { Honest expanded.now bounds.now pairs.now }
        requires room { HasRoom budget.now pairs.now }
        ensures proposed { IfOk result (IsProposed expanded.now bounds.now limit budget.now pairs.now) }
        ensures stands { OnOk result (StandsFor self.new expanded.now bounds.now (inputs_of pairs.now) limit) }
        ensures asking { self.new.asking ≡ self.old.asking }
    {
        watch.tell(News::Phase(Phase::Proposing));
        let nodes = self.asking.nodes();
        watch.tell(News::Graph { nodes });
        match self.solve(budget.conflicts, watch)? {
            Answered::Met(values) => {
                let encoded = self.asking.encoded();
                let choice = choice_of(self.alloc, expanded, encoded, values.as_slice())?;
                Ok(Proposed::Choice(choice))
            }
            Answered::Never => Ok(Proposed::Ended(Found::Nothing)),
            Answered::Spent { formula, log } => {
                let inputs = inputs_of(self.alloc, pairs.as_slice())?;
                let query = Query::Wanted { inputs, limit };
                Ok(Proposed::Ended(Found::Conflicts {
                    query,
                    formula,
                    log,
                }))
            }
        }
    }

    // Puts a pair behind the others, and asks that its input is passed.
    #[tactic(auto, using(crate::proofs::Noting::noting))]
    fn note(
        &mut self,
        expanded: &Expanded,
        bounds: &Bounds,
        limit: Option<u64>,
        pairs: &mut List<Pair>,
        pair: Pair,
    ) -> Result<(), AllocError>
        requires askable { IsAskable expanded.now bounds.now }
        requires stands { StandsFor self.old expanded.now bounds.now (inputs_of pairs.old) limit }
        requires round { IsRound expanded.now bounds.now limit (inputs_of pairs.old) pair }
        ensures steps { OnOk result (Steps expanded.now bounds.now limit pairs.old pairs.new self.new) }
        ensures formula { KeepsClauses self.old.asking.growing.encoded self.new.asking.growing.encoded }
        ensures long { OnOk result (length pairs.new ≡ length pairs.old + 1) }
        ensures keeps { Keeps pairs.old pairs.new }
    {
        pairs.push(pair)?;
        let last = self.count;
        ask(
            &mut self.asking,
            expanded,
            bounds,
            pairs.as_slice(),
            last,
            limit,
        )?;
        self.count = pairs.len();
        Ok(())
    }

    // Looks for an input that speaks against a choice which passes those of the pairs.
    #[tactic(auto, using(crate::proofs::Judging::judging))]
    fn judge<W: Watch>(
        &mut self,
        expanded: &Expanded,
        bounds: &Bounds,
        limit: Option<u64>,
        pairs: &mut List<Pair>,
        budget: &Budget,
        choice: Choice,
        watch: &mut W,
    ) -> Result<Turn, AllocError>
        requires askable { IsAskable expanded.now bounds.now }
        requires stands { StandsFor self.old expanded.now bounds.now (inputs_of pairs.old) limit }
        requires honest { Honest expanded.now bounds.now pairs.old }
        requires room { HasRoom budget.now pairs.old }
        requires wanted { IsWanted expanded.now bounds.now (inputs_of pairs.old) limit choice }
        ensures turn { IfOk result (IsTurn expanded.now bounds.now limit budget.now pairs.new) }
        ensures steps { OnOk result (Steps expanded.now bounds.now limit pairs.old pairs.new self.new) }
        ensures formula { KeepsClauses self.old.asking.growing.encoded self.new.asking.growing.encoded }
        ensures keeps { Keeps pairs.old pairs.new }
    {
        match counter(
            self.alloc,
            expanded,
            bounds,
            &choice,
            limit,
            budget.conflicts,
            watch,
        )? {
            Countered::None => Ok(Turn::Ended(Found::Choice(choice))),
            Countered::Conflicts {
                query,
                formula,
                log,
            } => Ok(Turn::Ended(Found::Conflicts {
                query,
                formula,
                log,
            })),
            Countered::Input(input) => {
                self.note(expanded, bounds, limit, pairs, Pair { choice, input })?;
                watch.tell(News::Input { count: pairs.len() });
                Ok(turn_after(expanded, bounds, limit, budget, pairs))
            }
        }
    }

    // One round.
    #[tactic(auto, using(crate::proofs::Judging::turning))]
    fn round<W: Watch>(
        &mut self,
        expanded: &Expanded,
        bounds: &Bounds,
        limit: Option<u64>,
        pairs: &mut List<Pair>,
        budget: &Budget,
        watch: &mut W,
    ) -> Result<Turn, AllocError>
        requires askable { IsAskable expanded.now bounds.now }
        requires stands { StandsFor self.old expanded.now bounds.now (inputs_of pairs.old) limit }
        requires honest { Honest expanded.now bounds.now pairs.old }
        requires room { HasRoom budget.now pairs.old }
        ensures turn { IfOk result (IsTurn expanded.now bounds.now limit budget.now pairs.new) }
        ensures steps { OnOk result (Steps expanded.now bounds.now limit pairs.old pairs.new self.new) }
        ensures formula { KeepsClauses self.old.asking.growing.encoded self.new.asking.growing.encoded }
        ensures keeps { Keeps pairs.old pairs.new }
    {
        match self.propose(expanded, bounds, limit, pairs, budget, watch)? {
            Proposed::Ended(found) => Ok(Turn::Ended(found)),
            Proposed::Choice(choice) => {
                let turn = self.judge(expanded, bounds, limit, pairs, budget, choice, watch)?;
                Ok(turn)
            }
        }
    }

    // Rounds until the search ends. More of them than can be counted would count as want of memory.
    #[tactic(auto, using(crate::proofs::Turns::turns))]
    fn rounds<W: Watch>(
        &mut self,
        expanded: &Expanded,
        bounds: &Bounds,
        limit: Option<u64>,
        pairs: &mut List<Pair>,
        budget: &Budget,
        watch: &mut W,
    ) -> Result<Found, AllocError>
        requires askable { IsAskable expanded.now bounds.now }
        requires stands { StandsFor self.old expanded.now bounds.now (inputs_of pairs.old) limit }
        requires honest { Honest expanded.now bounds.now pairs.old }
        requires room { HasRoom budget.now pairs.old }
        ensures found { IfOk result (IsFound expanded.now bounds.now limit budget.now pairs.new) }
        ensures steps { OnOk result (Steps expanded.now bounds.now limit pairs.old pairs.new self.new) }
        ensures formula { KeepsClauses self.old.asking.growing.encoded self.new.asking.growing.encoded }
        ensures keeps { Keeps pairs.old pairs.new }
    {
        for _turn in 0..u64::MAX {
            match self.round(expanded, bounds, limit, pairs, budget, watch)? {
                Turn::Ended(found) => return Ok(found),
                Turn::Again => {}
            }
        }
        Err(too_many())
    }

    // Asks for the inputs of all pairs within a limit.
    #[tactic(auto, using(crate::proofs::Standing::readying))]
    fn stand(
        &mut self,
        expanded: &Expanded,
        bounds: &Bounds,
        limit: Option<u64>,
        pairs: &List<Pair>,
    ) -> Result<(), AllocError>
        requires askable { IsAskable expanded.now bounds.now }
        requires ready { IsReady self.old expanded.now bounds.now (inputs_of pairs.now) limit }
        ensures stands { OnOk result (StandsFor self.new expanded.now bounds.now (inputs_of pairs.now) limit) }
        ensures formula { KeepsClauses self.old.asking.growing.encoded self.new.asking.growing.encoded }
    {
        let from = first_to_ask(self.count, self.limit, limit);
        ask_from(
            &mut self.asking,
            expanded,
            bounds,
            pairs.as_slice(),
            from,
            limit,
        )?;
        self.limit = limit;
        self.count = pairs.len();
        Ok(())
    }

    // The search, after whose refusal further pairs may stand behind the old ones.
    #[tactic(auto, using(crate::proofs::Turns::joined))]
    fn search<W: Watch>(
        &mut self,
        expanded: &Expanded,
        bounds: &Bounds,
        limit: Option<u64>,
        pairs: &mut List<Pair>,
        budget: &Budget,
        watch: &mut W,
    ) -> Result<Found, AllocError>
        requires askable { IsAskable expanded.now bounds.now }
        requires ready { IsReady self.old expanded.now bounds.now (inputs_of pairs.old) limit }
        requires honest { Honest expanded.now bounds.now pairs.old }
        requires room { HasRoom budget.now pairs.old }
        ensures found { IfOk result (IsFound expanded.now bounds.now limit budget.now pairs.new) }
        ensures steps { OnOk result (Steps expanded.now bounds.now limit pairs.old pairs.new self.new) }
        ensures formula { KeepsClauses self.old.asking.growing.encoded self.new.asking.growing.encoded }
        ensures keeps { Keeps pairs.old pairs.new }
    {
        self.stand(expanded, bounds, limit, pairs)?;
        let found = self.rounds(expanded, bounds, limit, pairs, budget, watch)?;
        Ok(found)
    }

    /// Looks for a choice that meets every obligation and costs at most the limit on every input. Each input that is found on
    /// the way stands behind the pairs, with the choice against which it speaks. The watcher is told of each, of what begins, of
    /// the formulas and of the conflicts.
    ///
    /// Afterwards the session stands for the inputs of all pairs and this limit. Its names stay and its clauses begin with those it
    /// had, also after a refusal; it may then ask for inputs that were being added too, and stands for no query.
    #[tactic(auto, using(crate::proofs::Turns::ending))]
    pub fn synthesise<W: Watch>(
        &mut self,
        expanded: &Expanded,
        bounds: &Bounds,
        limit: Option<u64>,
        pairs: &mut List<Pair>,
        budget: &Budget,
        watch: &mut W,
    ) -> Result<Found, AllocError>
        requires askable { IsAskable expanded.now bounds.now }
        requires ready { IsReady self.old expanded.now bounds.now (inputs_of pairs.old) limit }
        requires honest { Honest expanded.now bounds.now pairs.old }
        requires room { HasRoom budget.now pairs.old }
        ensures found { IfOk result (IsFound expanded.now bounds.now limit budget.now pairs.new) }
        ensures grown { OnOk result (Grown expanded.now bounds.now limit pairs.old pairs.new) }
        ensures honest { OnOk result (Honest expanded.now bounds.now pairs.new) }
        ensures stands { OnOk result (StandsFor self.new expanded.now bounds.now (inputs_of pairs.new) limit) }
        ensures behind { Begins self.old.asking.growing.encoded.clauses self.new.asking.growing.encoded.clauses }
        ensures names { self.new.asking.growing.encoded.names ≡ self.old.asking.growing.encoded.names }
        ensures refused { OnErr result (pairs.new ≡ pairs.old) }
    {
        let before = pairs.len();
        match self.search(expanded, bounds, limit, pairs, budget, watch) {
            Ok(found) => Ok(found),
            Err(error) => {
                cut(pairs, before);
                Err(error)
            }
        }
    }

    /// The formula of the query for which the session stands.
    pub fn asked(&self) -> &Encoded
        ensures { result.now ≡ self.now.asking.growing.encoded }
    {
        self.asking.encoded()
    }
}

/// Looks for a choice that meets every obligation and costs at most the limit on every input, in a session of its own.
#[tactic(auto, using(crate::proofs::Standing::ready_begins))]
pub fn synthesise<W: Watch>(
    alloc: Global,
    expanded: &Expanded,
    bounds: &Bounds,
    limit: Option<u64>,
    pairs: &mut List<Pair>,
    budget: &Budget,
    watch: &mut W,
) -> Result<Found, AllocError>
    requires askable { IsAskable expanded.now bounds.now }
    requires honest { Honest expanded.now bounds.now pairs.old }
    requires room { HasRoom budget.now pairs.old }
    ensures found { IfOk result (IsFound expanded.now bounds.now limit budget.now pairs.new) }
    ensures grown { OnOk result (Grown expanded.now bounds.now limit pairs.old pairs.new) }
    ensures honest { OnOk result (Honest expanded.now bounds.now pairs.new) }
    ensures refused { OnErr result (pairs.new ≡ pairs.old) }
{
    let mut session = Session::new(alloc, expanded, bounds)?;
    session.synthesise(expanded, bounds, limit, pairs, budget, watch)
}
