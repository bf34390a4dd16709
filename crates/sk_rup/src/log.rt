ghost use Rattle.std.specs.Prelude.{◌≡◌, ◌↔◌, ℕ, ◌<◌, ◌≤◌, ◌++◌, [], List, take, length, IsTrue, OnOk, IfOk};
ghost use Rattle.sk_clause.specs.declared.lit.Lit.{Lit};
ghost use Rattle.sk_clause.specs.Problem.{IsWithin, AreWithin};
ghost use Rattle.sk_clause.specs.Meaning.{EachFollows, EndsEmpty, Refutes};
ghost use Rattle.sk_rup.specs.Checker.{IsReady};

use crate::checker::Checker;
use sk_clause::{ClauseList, Clauses, Lit, Log};
use sk_limits::too_many;
use std::alloc::{AllocError, Global};

// A number that is at least this one, and that the variable is below.
fn vars_with(least: usize, var: usize) -> Result<usize, AllocError>
    ensures { IfOk result (λ vars. (least ≤ vars) × (var < vars)) }
{
    if var < least {
        return Ok(least);
    }
    if var == usize::MAX {
        return Err(too_many());
    }
    Ok(var + 1)
}

// A number that each variable of a clause is below, and that is at least this one.
#[tactic(auto, using(crate::proofs::LogLemmas::logs))]
fn vars_of_clause(clause: &[Lit], least: usize) -> Result<usize, AllocError>
    ensures { IfOk result (λ vars. IsWithin vars clause.now × (least ≤ vars)) }
{
    let mut vars = least;
    for l in clause {
        vars = vars_with(vars, l.var)?;
    }
    Ok(vars)
}

// A number that each variable of the clauses is below, and that is at least this one.
#[tactic(auto, using(crate::proofs::LogLemmas::logs))]
fn vars_of(clauses: &ClauseList, least: usize) -> Result<usize, AllocError>
    ensures { IfOk result (λ vars. AreWithin vars clauses.now × (least ≤ vars)) }
{
    let mut vars = least;
    for i in 0..clauses.len() {
        vars = vars_of_clause(clauses.get(i), vars)?;
    }
    Ok(vars)
}

// A checker that knows the clauses.
#[tactic(auto, using(crate::proofs::LogLemmas::logs))]
fn checker_of(alloc: Global, vars: usize, clauses: &ClauseList) -> Result<Checker, AllocError>
    requires { AreWithin vars clauses.now }
    ensures ready { IfOk result IsReady }
    ensures known { IfOk result (λ ch. ch.known ≡ clauses.now) }
    ensures long { IfOk result (λ ch. length ch.trail.values.items ≡ vars) }
{
    let mut checker = Checker::new(alloc, vars)?;
    for i in 0..clauses.len() {
        checker.add(clauses.get(i))?;
    }
    Ok(checker)
}

// Whether each clause of the log follows from what the checker knows and the log before it.
#[tactic(auto, using(crate::proofs::LogLemmas::logs))]
fn follow_all(checker: &mut Checker, log: &Log) -> Result<bool, AllocError>
    requires ready { IsReady checker.old }
    requires within { AreWithin (length checker.old.trail.values.items) log.now }
    ensures { IfOk result (λ b. IsTrue b ↔ EachFollows checker.old.known log.now) }
{
    for i in 0..log.len() {
        let clause = log.get(i);
        if !checker.follows(clause)? {
            return Ok(false);
        }
        checker.add(clause)?;
    }
    Ok(true)
}

/// Whether each clause of the log follows by reverse unit propagation from the clauses and what stands before it in
/// the log. It takes memory for each variable up to the greatest that stands in one of them, and none for the others. The only
/// refusal is want of memory, which a clause with a variable from 2^31 on counts as.
#[tactic(auto, using(crate::proofs::LogLemmas::logs))]
pub fn each_follows(alloc: Global, clauses: &Clauses, log: &Log) -> Result<bool, AllocError>
    ensures { IfOk result (λ b. IsTrue b ↔ EachFollows clauses.now.clauses log.now) }
{
    let list = clauses.list();
    let named = vars_of(list, 0)?;
    let vars = vars_of(log, named)?;
    let mut checker = checker_of(alloc, vars, list)?;
    let each = follow_all(&mut checker, log)?;
    Ok(each)
}

// Whether the last clause of the log is empty.
#[tactic(auto, using(crate::proofs::LogLemmas::logs))]
fn ends_empty(log: &Log) -> bool
    ensures { IsTrue result ↔ EndsEmpty log.now }
{
    let len = log.len();
    len > 0 && log.get(len - 1).is_empty()
}

/// Whether the log refutes the clauses: each clause of it follows by reverse unit propagation from the clauses and
/// what stands before it in the log, and its last clause is empty. Then no values make each of the clauses true. The
/// only refusal is want of memory, which a clause with a variable from 2^31 on counts as.
pub fn refutes(alloc: Global, clauses: &Clauses, log: &Log) -> Result<bool, AllocError>
    ensures { IfOk result (λ b. IsTrue b ↔ Refutes clauses.now.clauses log.now) }
{
    if !ends_empty(log) {
        return Ok(false);
    }
    let each = each_follows(alloc, clauses, log)?;
    Ok(each)
}
