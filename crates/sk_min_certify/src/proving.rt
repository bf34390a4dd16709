//! One query, its formula, and the log that refutes it.

ghost use Rattle.std.specs.Prelude.{◌≡◌, IfErr, IfOk};
ghost use Rattle.sk_clause.specs.Problem.{AreWithin};
ghost use Rattle.sk_oblig.specs.Formulas.{IsAskable, IsAsked};
ghost use Rattle.sk_min_certify.specs.Proves.{IsVain, Proves};
ghost use Rattle.sk_min_certify.specs.Stops.{IsStop};

use crate::stop::Stop;
use sk_base::Bounds;
use sk_cert::Proof;
use sk_cnf::Encoded;
use sk_loop_refuted::refuted;
use sk_model::Expanded;
use sk_oblig::watched_formula;
use sk_oblig_queries::Query;
use sk_sat::Answer;
use sk_watch::{News, Phase, Watch};
use std::alloc::Global;

// The clauses of a formula have only its variables: their list says so.
fn clauses_are_within(formula: &Encoded)
    ensures { AreWithin formula.now.clauses.vars formula.now.clauses.clauses }
{
    formula.clauses.list();
}

// A proof that nothing is what the query asks for.
#[tactic(auto, using(crate::proofs::Refuting::proving))]
pub(crate) fn proof_of<W: Watch>(
    alloc: Global,
    expanded: &Expanded,
    bounds: &Bounds,
    query: Query,
    conflicts: u64,
    watch: &mut W,
) -> Result<Proof, Stop>
    requires askable { IsAskable expanded.now bounds.now }
    requires asked { IsAsked expanded.now query }
    requires vain { IsVain expanded.now bounds.now query }
    ensures proves { IfOk result (Proves expanded.now bounds.now query) }
    ensures stops { IfErr result (IsStop expanded.now bounds.now (λ q. q ≡ query) conflicts) }
{
    watch.tell(News::Phase(Phase::Proving));
    let encoded = watched_formula(alloc, expanded, bounds, &query, watch)?;
    clauses_are_within(&encoded);
    let answer = refuted(alloc, &encoded, conflicts, watch)?;
    match answer {
        Answer::Unsat(log) => Ok(Proof {
            formula: encoded,
            log,
        }),
        Answer::Spent(log) => Err(Stop::Spent {
            query,
            formula: encoded,
            log,
        }),
        Answer::Sat(_) => unreachable!(),
    }
}
