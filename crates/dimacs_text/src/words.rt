// The lines of a text, their words, and the numbers that words write.
ghost use Rattle.std.specs.Prelude.{◌≡◌, ◌≢◌, ◌↔◌, ℕ, ℤ, pos, map, not, ◌&&◌, IfOk, IfErr, IfSome, IfNone, IsTrue, length};
ghost use Rattle.std.specs.Str.Lines.{lines};
ghost use Rattle.dimacs_text.specs.Formula.{words, said, begins_comment, Writes, Counts, lit_number};
ghost use Rattle.dimacs_text.specs.declared.fault.Flaw.TheVariants.{NoNumber};

use crate::fault::Flaw;
use sk_clause::Lit;
use std::alloc::{AllocError, Global};

/// The lines of a text.
pub fn lines_of(alloc: Global, text: &str) -> Result<Vec<&str>, AllocError>
    ensures { IfOk result (λ v. map (λ x. x.now) v.items ≡ lines text.now) }
{
    text.lines().collect(alloc)
}

// Whether a line is a comment.
fn is_comment(line: &str) -> bool
    ensures { result ≡ begins_comment line.now }
{
    let bytes = line.as_bytes();
    !bytes.is_empty() && bytes[0] == b'c'
}

// What stands between the blanks of a line.
fn words_of(alloc: Global, line: &str) -> Result<Vec<&str>, AllocError>
    ensures { IfOk result (λ v. map (λ x. x.now) v.items ≡ words line.now) }
{
    line.split(' ')
        .filter(|word| !word.is_empty())
        .collect(alloc)
}

/// The words that a line says: none if it is a comment.
pub fn said_by(alloc: Global, line: &str) -> Result<Vec<&str>, AllocError>
    ensures { IfOk result (λ v. map (λ x. x.now) v.items ≡ said line.now) }
{
    if is_comment(line) {
        return Ok(Vec::new(alloc));
    }
    let words = words_of(alloc, line)?;
    Ok(words)
}

/// The number that a word writes, with its sign.
pub fn number_of(word: &str) -> Result<i64, Flaw>
    ensures ok { IfOk result (λ z. Writes word.now z) }
    ensures err { IfErr result (λ f. (f ≡ NoNumber) × ((z : ℤ) → Writes word.now z → ⊥)) }
{
    match word.parse::<i64>() {
        Ok(number) => Ok(number),
        Err(_) => Err(Flaw::NoNumber),
    }
}

/// The number that a word writes with no minus.
pub fn count_of(word: &str) -> Option<usize>
    ensures some { IfSome result (λ n. Counts word.now n) }
    ensures none { IfNone result ((n : ℕ) → Counts word.now n → ⊥) }
{
    match word.parse::<usize>() {
        Ok(count) => Some(count),
        Err(_) => None,
    }
}

/// The literal that a number stands for, if it is not 0.
pub fn lit_of(number: i64) -> Option<Lit>
    ensures some { IfSome result (λ l. lit_number l ≡ number) }
    ensures none { IfNone result (number ≡ pos 0) }
{
    let size = number.unsigned_abs();
    if size == 0 {
        return None;
    }
    Some(Lit {
        var: (size - 1) as usize,
        neg: number < 0,
    })
}
