// Formulas and logs.
ghost use Rattle.std.specs.Prelude.{◌≡◌, ◌≢◌, ◌↔◌, ℕ, ◌+◌, ◌<◌, ◌≤◌, ◌++◌, [], ◌∷◌, List, All, map, take, drop, length, get_or, codes, IsTrue, IfOk, OnOk, IfErr, IfSome, IfNone, Some};
ghost use Rattle.std.specs.Str.Lines.{lines};
ghost use Rattle.sk_clause.specs.declared.lit.Lit.{Lit};
ghost use Rattle.sk_clause.specs.Problem.{Problem, AreWithin};
ghost use Rattle.dimacs_text.specs.Formula.{said, Counts, AreHeader, AreRows, AreFormula, IsFormula, IsLog};
ghost use Rattle.dimacs_text.specs.Heading.{IsFront};
ghost use Rattle.dimacs_text.specs.declared.fault.Flaw.TheVariants.{Memory};

use crate::fault::{Fault, Flaw};
use crate::rows::{clauses_of, last_line};
use crate::words::{count_of, lines_of, said_by};
use sk_clause::{ClauseList, Clauses, Log};
use std::alloc::{AllocError, Global};

/// What a header says.
#[derive(Clone, Copy, Drop)]
struct Header {
    vars: usize,
    count: usize,
}

// Whether two texts are the same.
fn is_same(a: &str, b: &str) -> bool
    ensures { IsTrue result ↔ (a.now ≡ b.now) }
{
    a == b
}

// Whether the word at a place is this text.
#[tactic(auto, using(crate::proofs::ReadLemmas::headers))]
fn is_at(words: &[&str], i: usize, text: &str) -> bool
    requires { i < length words.now }
    ensures { IsTrue result ↔ (get_or (map (λ x. x.now) words.now) i [] ≡ text.now) }
{
    is_same(words[i], text)
}

// The number that the word at a place writes.
#[tactic(auto, using(crate::proofs::ReadLemmas::headers))]
fn count_at(words: &[&str], i: usize) -> Option<usize>
    requires { i < length words.now }
    ensures some { IfSome result (λ n. Counts (get_or (map (λ x. x.now) words.now) i []) n) }
    ensures none { IfNone result ((n : ℕ) → Counts (get_or (map (λ x. x.now) words.now) i []) n → ⊥) }
{
    count_of(words[i])
}

// What the words of a header say, if they are one.
#[tactic(auto, using(crate::proofs::ReadLemmas::headers))]
fn header_of(words: &[&str]) -> Option<Header>
    ensures some { IfSome result (λ h. AreHeader (map (λ x. x.now) words.now) h.vars h.count) }
    ensures none { IfNone result ((vars count : ℕ) → AreHeader (map (λ x. x.now) words.now) vars count → ⊥) }
{
    if words.len() != 4 {
        return None;
    }
    if !is_at(words, 0, "p") {
        return None;
    }
    if !is_at(words, 1, "cnf") {
        return None;
    }
    let vars = count_at(words, 2)?;
    let count = count_at(words, 3)?;
    Some(Header { vars, count })
}

// What a line before the header is.
#[derive(Clone, Copy, Drop)]
enum Front {
    /// It says nothing.
    Silent,
    /// The header.
    Found(Header),
    /// It says something else.
    Other,
}

// What the words of a line before the header are.
#[tactic(auto, using(crate::proofs::ReadLemmas::headers))]
fn front_of_words(words: &[&str]) -> Front
    ensures { IsFront (map (λ x. x.now) words.now) result }
{
    if words.is_empty() {
        return Front::Silent;
    }
    match header_of(words) {
        Some(header) => Front::Found(header),
        None => Front::Other,
    }
}

// What a line before the header is.
fn front_of(alloc: Global, line: &str) -> Result<Front, AllocError>
    ensures { IfOk result (IsFront (said line.now)) }
{
    let words = said_by(alloc, line)?;
    let front = front_of_words(&words);
    Ok(front)
}

// The header, and the number of its line, from 0.
#[tactic(auto, using(crate::proofs::ReadLemmas::fronts))]
fn find_header(alloc: Global, lines: &[&str]) -> Result<(usize, Header), Fault>
    ensures within { IfOk result (λ r. r.0 < length lines.now) }
    ensures silent { IfOk result (λ r. All (λ line. said line ≡ []) (take r.0 (map (λ x. x.now) lines.now))) }
    ensures header { IfOk result (λ r. AreHeader (said (get_or (map (λ x. x.now) lines.now) r.0 [])) r.1.vars r.1.count) }
    ensures err { IfErr result (λ f. f.flaw ≢ Memory → (problem : Problem) → AreFormula (map (λ x. x.now) lines.now) problem → ⊥) }
    ensures line { IfErr result (λ f. (0 < f.line) × (f.line ≤ length lines.now + 1)) }
{
    for i in 0..lines.len() {
        match front_of(alloc, lines[i]) {
            Ok(Front::Silent) => continue,
            Ok(Front::Found(header)) => return Ok((i, header)),
            Ok(Front::Other) => return Err(Fault {
                line: i + 1,
                flaw: Flaw::Header,
            }),
            Err(_) => return Err(Fault {
                line: i + 1,
                flaw: Flaw::Memory,
            }),
        }
    }
    Err(Fault {
        line: last_line(lines.len()),
        flaw: Flaw::Header,
    })
}

// So many variables, and the clauses.
#[tactic(auto, using(crate::proofs::ReadLemmas::problems))]
fn problem_of(alloc: Global, vars: usize, list: &ClauseList) -> Result<Clauses, AllocError>
    requires { AreWithin vars list.now }
    ensures { IfOk result (λ p. p ≡ record { vars = vars; clauses = list.now }) }
{
    let mut clauses = Clauses::with_vars(alloc, vars);
    for i in 0..list.len() {
        clauses.push(list.get(i))?;
    }
    Ok(clauses)
}

// The lines from a place on.
fn tail<'a, 'b>(lines: &'a [&'b str], from: usize) -> &'a [&'b str]
    requires { from ≤ length lines.now }
    ensures { result.now ≡ drop from lines.now }
{
    &lines[from..]
}

// The clauses of the lines from a place on.
fn rows_from(alloc: Global, lines: &[&str], from: usize, vars: usize) -> Result<ClauseList, Fault>
    requires { from ≤ length lines.now }
    ensures ok { IfOk result (λ cs. AreRows (Some vars) (drop from (map (λ x. x.now) lines.now)) cs) }
    ensures err { IfErr result (λ f. f.flaw ≢ Memory → (cs : List (List Lit)) → AreRows (Some vars) (drop from (map (λ x. x.now) lines.now)) cs → ⊥) }
    ensures line { IfErr result (λ f. (0 < f.line) × (f.line ≤ length lines.now + 1)) }
{
    match clauses_of(alloc, Some(vars), tail(lines, from)) {
        Ok(list) => Ok(list),
        Err(fault) => Err(Fault {
            line: from + fault.line,
            flaw: fault.flaw,
        }),
    }
}

// The formula of lines.
#[tactic(auto, using(crate::proofs::ReadLemmas::formulas))]
fn formula_of(alloc: Global, lines: &[&str]) -> Result<Clauses, Fault>
    ensures ok { IfOk result (λ p. AreFormula (map (λ x. x.now) lines.now) p) }
    ensures err { IfErr result (λ f. f.flaw ≢ Memory → (p : Problem) → AreFormula (map (λ x. x.now) lines.now) p → ⊥) }
    ensures line { IfErr result (λ f. (0 < f.line) × (f.line ≤ length lines.now + 1)) }
{
    let (at, header) = find_header(alloc, lines)?;
    let list = rows_from(alloc, lines, at + 1, header.vars)?;
    if list.len() != header.count {
        return Err(Fault {
            line: last_line(lines.len()),
            flaw: Flaw::Count,
        });
    }
    let clauses = problem_of(alloc, header.vars, &list)?;
    Ok(clauses)
}

/// The formula that a text says. A fault has the number of its line, from 1.
pub fn read_clauses(alloc: Global, text: &str) -> Result<Clauses, Fault>
    ensures ok { IfOk result (λ p. IsFormula text.now p) }
    ensures err { IfErr result (λ f. f.flaw ≢ Memory → (p : Problem) → IsFormula text.now p → ⊥) }
    ensures line { IfErr result (λ f. (0 < f.line) × (f.line ≤ length (lines text.now) + 1)) }
{
    let lines = lines_of(alloc, text)?;
    let clauses = formula_of(alloc, &lines)?;
    Ok(clauses)
}

/// The log that a text says. A fault has the number of its line, from 1.
pub fn read_log(alloc: Global, text: &str) -> Result<Log, Fault>
    ensures ok { IfOk result (λ log. IsLog text.now log) }
    ensures err { IfErr result (λ f. f.flaw ≢ Memory → (log : List (List Lit)) → IsLog text.now log → ⊥) }
    ensures line { IfErr result (λ f. (0 < f.line) × (f.line ≤ length (lines text.now) + 1)) }
{
    let lines = lines_of(alloc, text)?;
    let log = clauses_of(alloc, None, &lines)?;
    Ok(log)
}
