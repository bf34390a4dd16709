//! The strings of a pattern.
ghost use Rattle.std.specs.Prelude.{◌≡◌, ◌<◌, ◌≤◌, ◌++◌, [], ◌∷◌, length, map, flat_map, IfOk, IfErr, OnOk, MatchResult};
ghost use Rattle.sk_tree.specs.Strings.{strings_of, most_strings, pairs, rows};
ghost use Rattle.sk_tree_spell.specs.Counts.{prefixed, IsTooMany, IsTooManyOrMemory};

use crate::copy::copy_token;
use crate::count::count;
use crate::fault::PatternFault;
use sk_base::List;
use sk_tree::{Pattern, Token};
use std::alloc::{AllocError, Global};

/// The strings of a pattern, in their order, at most 128. They are counted before any is made, so a
/// short pattern with many strings is refused at once.
pub fn strings(alloc: Global, pattern: &Pattern) -> Result<List<List<Token>>, PatternFault>
    ensures found { IfOk result (λ found. found ≡ strings_of pattern.now) }
    ensures few { IfOk result (λ found. length found ≤ most_strings) }
    ensures too_many { IfErr result (IsTooMany (strings_of pattern.now)) }
    // Where there are more, that is the fault.
    ensures only { most_strings < length (strings_of pattern.now) → MatchResult result (λ _. ⊥) IsTooManyOrMemory }
{
    if count(pattern) > 128 {
        return Err(PatternFault::TooManyStrings);
    }
    let found = made(alloc, pattern)?;
    Ok(found)
}

/// A copy of tokens.
fn copy_tokens(alloc: Global, tokens: &[Token]) -> Result<List<Token>, AllocError>
    ensures { IfOk result (λ copy. copy ≡ tokens.now) }
{
    let mut out = List::new(alloc);
    for token in tokens {
        out.push(copy_token(alloc, token)?)?;
    }
    Ok(out)
}

/// The strings of a pattern, however many.
#[tactic(auto, using(crate::proofs::Pairs::prefixed_nothing))]
fn made(alloc: Global, pattern: &Pattern) -> Result<List<List<Token>>, AllocError>
    ensures { IfOk result (λ found. found ≡ strings_of pattern.now) }
{
    let mut out = Vec::new(alloc);
    push_strings(alloc, &mut out, List::new(alloc), pattern)?;
    Ok(List::from_vec(out))
}

/// Appends a front with a token behind it.
fn push_one(
    alloc: Global,
    out: &mut Vec<List<Token>>,
    front: List<Token>,
    token: &Token,
) -> Result<(), AllocError>
    ensures { OnOk result (out.new.items ≡ out.old.items ++ (front ++ token.now ∷ []) ∷ []) }
{
    let mut string = front;
    string.push(copy_token(alloc, token)?)?;
    out.push(string)?;
    Ok(())
}

/// Appends a copy of a front.
fn push_front(alloc: Global, out: &mut Vec<List<Token>>, front: &[Token]) -> Result<(), AllocError>
    ensures { OnOk result (out.new.items ≡ out.old.items ++ front.now ∷ []) }
{
    let copy = copy_tokens(alloc, front)?;
    out.push(copy)?;
    Ok(())
}

/// Appends a front with each string of a pattern behind it.
#[cycle(strings)]
fn push_strings(
    alloc: Global,
    out: &mut Vec<List<Token>>,
    front: List<Token>,
    pattern: &Pattern,
) -> Result<(), AllocError>
    ensures { OnOk result (out.new.items ≡ out.old.items ++ prefixed front (strings_of pattern.now)) }
{
    match pattern {
        Pattern::Choice(parts) => {
            push_choice(alloc, out, front, parts.as_slice())?;
            Ok(())
        }
        Pattern::Seq(parts) => {
            let mut found = row(alloc, front, parts.as_slice())?;
            out.append(&mut found)?;
            Ok(())
        }
        Pattern::Maybe(part) => {
            push_front(alloc, out, front.as_slice())?;
            push_strings(alloc, out, front, part.get())?;
            Ok(())
        }
        Pattern::Group(part) => {
            push_strings(alloc, out, front, part.get())?;
            Ok(())
        }
        Pattern::One(token) => {
            push_one(alloc, out, front, token)?;
            Ok(())
        }
    }
}

/// Appends a front with each string of each pattern behind it. The front itself serves where there is
/// one pattern, so that groups do not copy it.
#[cycle(strings)]
fn push_choice(
    alloc: Global,
    out: &mut Vec<List<Token>>,
    front: List<Token>,
    parts: &[Pattern],
) -> Result<(), AllocError>
    ensures { OnOk result (out.new.items ≡ out.old.items ++ prefixed front (flat_map (λ s. s) (map strings_of parts.now))) }
{
    match parts {
        [only] => {
            push_strings(alloc, out, front, only)?;
            Ok(())
        }
        _ => {
            push_choices(alloc, out, front.as_slice(), parts)?;
            Ok(())
        }
    }
}

/// The same with a copy of the front for each pattern.
#[cycle(strings)]
fn push_choices(
    alloc: Global,
    out: &mut Vec<List<Token>>,
    front: &[Token],
    parts: &[Pattern],
) -> Result<(), AllocError>
    ensures { OnOk result (out.new.items ≡ out.old.items ++ prefixed front.now (flat_map (λ s. s) (map strings_of parts.now))) }
{
    for part in parts {
        let copy = copy_tokens(alloc, front)?;
        push_strings(alloc, out, copy, part)?;
    }
    Ok(())
}

/// A front with one string of each pattern behind it, in all ways; the first pattern changes slowest.
#[cycle(strings)]
#[tactic(auto, using(crate::proofs::Pairs::pairs_one, crate::proofs::Pairs::pairs_nothing, crate::proofs::Pairs::pairs_assoc))]
fn row(alloc: Global, front: List<Token>, parts: &[Pattern]) -> Result<Vec<List<Token>>, AllocError>
    ensures { IfOk result (λ found. found.items ≡ prefixed front (rows (map strings_of parts.now))) }
{
    let mut fronts = Vec::new(alloc);
    fronts.push(front)?;
    for part in parts {
        fronts = longer(alloc, fronts, part)?;
    }
    Ok(fronts)
}

/// Each front with each string of a pattern behind it.
#[cycle(strings)]
fn longer(
    alloc: Global,
    fronts: Vec<List<Token>>,
    part: &Pattern,
) -> Result<Vec<List<Token>>, AllocError>
    ensures { IfOk result (λ found. found.items ≡ pairs fronts.items (strings_of part.now)) }
{
    let mut out = Vec::new(alloc);
    for front in fronts {
        push_strings(alloc, &mut out, front, part)?;
    }
    Ok(out)
}
