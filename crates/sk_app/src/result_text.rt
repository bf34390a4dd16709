//! The result texts of a search.

ghost use Rattle.std.specs.Prelude.{◌≡◌, ◌≤◌, ◌++◌, length, IsTrue, IfOk, OnOk};
ghost use Rattle.sk_model.specs.Fill.{fill};
ghost use Rattle.sk_expand_sites.specs.Needs.{HasItsSites, are_narrow};
ghost use Rattle.sk_app.specs.ResultText.{spaced, completion_lines, completed_text};
ghost use Rattle.sk_app.specs.SpentText.{known_text, spent_result, OfRounds, OfConflicts};

use crate::completion::{Completion, filling};
use crate::spent::{push_best, push_conflicts, push_rounds, push_spaced};
use sk_base::push_number;
use sk_model::{Choice, Expanded, Pair};
use sk_print::print;
use std::alloc::{AllocError, Global};

/// Appends the lines of a completion.
fn push_completion(out: &mut Vec<u8>, choice: &Choice, value: u64) -> Result<(), AllocError>
    ensures { OnOk result (out.new.items ≡ out.old.items ++ completion_lines choice.now value) }
{
    out.extend_from_slice(b"//@ completion\n//@ value ")?;
    push_number(out, value)?;
    out.extend_from_slice(b"\n//@ holes")?;
    push_spaced(out, choice.values.as_slice())?;
    out.push(b'\n')?;
    Ok(())
}

/// The result text of a completion: the filled program and the lines of the completion.
pub fn completed(
    alloc: Global,
    expanded: &Expanded,
    choice: Choice,
    value: u64,
) -> Result<Vec<u8>, AllocError>
    requires sites { HasItsSites expanded.now }
    requires narrow { IsTrue (are_narrow expanded.now.sites) }
    requires few { length expanded.now.sites ≤ 4294967296 }
    ensures { IfOk result (λ out. out.items ≡ completed_text (record { choice = choice; filled = fill expanded.now choice; value = value })) }
{
    let filled = filling(alloc, expanded, &choice)?;
    let completion = Completion {
        choice,
        filled,
        value,
    };
    let mut out = print(alloc, &completion.filled)?;
    push_completion(&mut out, &completion.choice, completion.value)?;
    Ok(out)
}

/// The filled program and the lines of the choice that is known to meet every obligation, if there is one.
fn known(alloc: Global, expanded: &Expanded, best: &Option<Choice>) -> Result<Vec<u8>, AllocError>
    requires sites { HasItsSites expanded.now }
    requires narrow { IsTrue (are_narrow expanded.now.sites) }
    requires few { length expanded.now.sites ≤ 4294967296 }
    ensures { IfOk result (λ out. out.items ≡ known_text expanded.now best.now) }
{
    match best {
        None => Ok(Vec::new(alloc)),
        Some(choice) => {
            let filled = filling(alloc, expanded, choice)?;
            let mut out = print(alloc, &filled)?;
            push_best(&mut out, choice)?;
            Ok(out)
        }
    }
}

/// The result text where a budget of rounds is spent.
#[tactic(auto, using(crate::proofs::SpentLaws::known_first))]
pub fn spent_rounds(
    alloc: Global,
    expanded: &Expanded,
    best: &Option<Choice>,
    rounds: u64,
    pairs: &[Pair],
) -> Result<Vec<u8>, AllocError>
    requires sites { HasItsSites expanded.now }
    requires narrow { IsTrue (are_narrow expanded.now.sites) }
    requires few { length expanded.now.sites ≤ 4294967296 }
    ensures { IfOk result (λ out. out.items ≡ spent_result expanded.now best.now (OfRounds rounds pairs.now)) }
{
    let mut out = known(alloc, expanded, best)?;
    push_rounds(&mut out, rounds, pairs)?;
    Ok(out)
}

/// The result text where a budget of conflicts is spent.
#[tactic(auto, using(crate::proofs::SpentLaws::known_first))]
pub fn spent_conflicts(
    alloc: Global,
    expanded: &Expanded,
    best: &Option<Choice>,
    conflicts: u64,
) -> Result<Vec<u8>, AllocError>
    requires sites { HasItsSites expanded.now }
    requires narrow { IsTrue (are_narrow expanded.now.sites) }
    requires few { length expanded.now.sites ≤ 4294967296 }
    ensures { IfOk result (λ out. out.items ≡ spent_result expanded.now best.now (OfConflicts conflicts)) }
{
    let mut out = known(alloc, expanded, best)?;
    push_conflicts(&mut out, conflicts)?;
    Ok(out)
}
