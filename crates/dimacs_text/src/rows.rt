// Clauses, read word by word.
ghost use Rattle.std.specs.Prelude.{◌≡◌, ◌≢◌, ◌↔◌, ℕ, ◌+◌, ◌<◌, ◌≤◌, ◌++◌, [], ◌∷◌, List, map, take, length, IsTrue, IfOk, OnOk, IfErr, IfSome};
ghost use Rattle.std.specs.List.{flat_map};
ghost use Rattle.sk_clause.specs.declared.lit.Lit.{Lit};
ghost use Rattle.dimacs_text.specs.Formula.{said, Writes, lit_number, AreRows, AreAllowed, IsAllowed};
ghost use Rattle.dimacs_text.specs.Reading.{IsRead, IsStuck};
ghost use Rattle.dimacs_text.specs.declared.fault.Flaw.TheVariants.{Memory};

use crate::fault::{Fault, Flaw};
use crate::words::{lit_of, number_of, said_by};
use sk_clause::{ClauseList, Lit};
use std::alloc::{AllocError, Global};

/// The clauses that words have ended, and the literals of one that they have begun.
#[derive(Drop)]
struct Rows {
    clauses: ClauseList,
    begun: Vec<Lit>,
}

// Whether a literal's variable is below the limit, if there is one.
fn is_allowed(limit: Option<usize>, l: Lit) -> bool
    ensures { IsTrue result ↔ IfSome limit (λ n. l.var < n) }
{
    match limit {
        Some(n) => l.var < n,
        None => true,
    }
}

// Takes a literal.
#[tactic(auto, using(crate::proofs::RowsLemmas::steps))]
fn take_lit(rows: &mut Rows, limit: Option<usize>, l: Lit) -> Result<(), Flaw>
    ensures ok { OnOk result ((ws : List (List ℕ)) → (w : List ℕ) → Writes w (lit_number l) → IsRead limit ws rows.old.clauses rows.old.begun.items → IsRead limit (ws ++ w ∷ []) rows.new.clauses rows.new.begun.items) }
    ensures err { IfErr result (λ f. f ≢ Memory → (ws : List (List ℕ)) → (w : List ℕ) → Writes w (lit_number l) → IsRead limit ws rows.old.clauses rows.old.begun.items → IsStuck limit (ws ++ w ∷ [])) }
{
    if !is_allowed(limit, l) {
        return Err(Flaw::TooLarge);
    }
    rows.begun.push(l)?;
    Ok(())
}

// Takes the end of a clause.
#[tactic(auto, using(crate::proofs::RowsLemmas::steps))]
fn take_end(rows: &mut Rows) -> Result<(), AllocError>
    ensures { OnOk result ((rows.new.clauses ≡ rows.old.clauses ++ rows.old.begun.items ∷ []) × (rows.new.begun.items ≡ [])) }
{
    rows.clauses.push(&rows.begun)?;
    rows.begun.clear();
    Ok(())
}

// Takes a word.
#[tactic(auto, using(crate::proofs::RowsLemmas::steps))]
fn take_word(rows: &mut Rows, limit: Option<usize>, word: &str) -> Result<(), Flaw>
    ensures ok { OnOk result ((ws : List (List ℕ)) → IsRead limit ws rows.old.clauses rows.old.begun.items → IsRead limit (ws ++ word.now ∷ []) rows.new.clauses rows.new.begun.items) }
    ensures err { IfErr result (λ f. f ≢ Memory → (ws : List (List ℕ)) → IsRead limit ws rows.old.clauses rows.old.begun.items → IsStuck limit (ws ++ word.now ∷ [])) }
{
    let number = number_of(word)?;
    match lit_of(number) {
        Some(l) => {
            take_lit(rows, limit, l)?;
            Ok(())
        }
        None => {
            take_end(rows)?;
            Ok(())
        }
    }
}

// Takes words.
#[tactic(auto, using(crate::proofs::RowsLemmas::loops))]
fn take_words(rows: &mut Rows, limit: Option<usize>, words: &[&str]) -> Result<(), Flaw>
    ensures ok { OnOk result ((ws : List (List ℕ)) → IsRead limit ws rows.old.clauses rows.old.begun.items → IsRead limit (ws ++ map (λ x. x.now) words.now) rows.new.clauses rows.new.begun.items) }
    ensures err { IfErr result (λ f. f ≢ Memory → (ws : List (List ℕ)) → IsRead limit ws rows.old.clauses rows.old.begun.items → IsStuck limit (ws ++ map (λ x. x.now) words.now)) }
{
    for word in words {
        take_word(rows, limit, word)?;
    }
    Ok(())
}

// Takes the words that a line says.
#[tactic(auto, using(crate::proofs::RowsLemmas::loops))]
fn take_line(alloc: Global, rows: &mut Rows, limit: Option<usize>, line: &str) -> Result<(), Flaw>
    ensures ok { OnOk result ((ws : List (List ℕ)) → IsRead limit ws rows.old.clauses rows.old.begun.items → IsRead limit (ws ++ said line.now) rows.new.clauses rows.new.begun.items) }
    ensures err { IfErr result (λ f. f ≢ Memory → (ws : List (List ℕ)) → IsRead limit ws rows.old.clauses rows.old.begun.items → IsStuck limit (ws ++ said line.now)) }
{
    let words = said_by(alloc, line)?;
    take_words(rows, limit, &words)?;
    Ok(())
}

// Takes lines. A fault has the number of its line among them, from 1.
#[tactic(auto, using(crate::proofs::RowsLemmas::loops))]
fn take_lines(
    alloc: Global,
    rows: &mut Rows,
    limit: Option<usize>,
    lines: &[&str],
) -> Result<(), Fault>
    ensures ok { OnOk result ((ws : List (List ℕ)) → IsRead limit ws rows.old.clauses rows.old.begun.items → IsRead limit (ws ++ flat_map said (map (λ x. x.now) lines.now)) rows.new.clauses rows.new.begun.items) }
    ensures err { IfErr result (λ f. f.flaw ≢ Memory → (ws : List (List ℕ)) → IsRead limit ws rows.old.clauses rows.old.begun.items → IsStuck limit (ws ++ flat_map said (take f.line (map (λ x. x.now) lines.now)))) }
    ensures line { IfErr result (λ f. (0 < f.line) × (f.line ≤ length lines.now)) }
{
    for i in 0..lines.len() {
        match take_line(alloc, rows, limit, lines[i]) {
            Ok(()) => {}
            Err(flaw) => return Err(Fault { line: i + 1, flaw }),
        }
    }
    Ok(())
}

/// The number of the last of so many lines, or 1.
pub fn last_line(lines: usize) -> usize
    ensures some { 0 < result }
    ensures last { 0 < lines → result ≡ lines }
    ensures most { result ≤ lines + 1 }
{
    if lines == 0 { 1 } else { lines }
}

/// The clauses of lines, over variables below the limit, if there is one. A fault has the number of its line among
/// them, from 1.
#[tactic(auto, using(crate::proofs::RowsLemmas::ends))]
pub fn clauses_of(alloc: Global, limit: Option<usize>, lines: &[&str]) -> Result<ClauseList, Fault>
    ensures ok { IfOk result (λ cs. AreRows limit (map (λ x. x.now) lines.now) cs) }
    ensures err { IfErr result (λ f. f.flaw ≢ Memory → (cs : List (List Lit)) → AreRows limit (map (λ x. x.now) lines.now) cs → ⊥) }
    ensures line { IfErr result (λ f. (0 < f.line) × (f.line ≤ length lines.now + 1)) }
{
    let mut rows = Rows {
        clauses: ClauseList::new(alloc),
        begun: Vec::new(alloc),
    };
    take_lines(alloc, &mut rows, limit, lines)?;
    if !rows.begun.is_empty() {
        return Err(Fault {
            line: last_line(lines.len()),
            flaw: Flaw::NoEnd,
        });
    }
    Ok(rows.clauses)
}
