//! The line `self`: it completes a sketch that the program makes itself, and writes a summary.

ghost use Rattle.std.specs.Prelude.{◌≡◌, ◌≤◌, length, IfOk};
ghost use Rattle.sk_all_text.specs.Formulas.{IsAskable};
ghost use Rattle.sk_app_texts.specs.SelfTexts.{self_sketch};
ghost use Rattle.sk_front.specs.Texts.{most_bytes};
ghost use Rattle.sk_app.specs.Summary.{no_set, IsSummaryOf, IsSummary};
ghost use Rattle.sk_app.specs.Effects.{IsSummarised};

use crate::ending::Ending;
use crate::limits::MOST_BYTES;
use crate::output::deliver;
use sk_base::{Bounds, Budget, Sink};
use sk_front::sized_expansion_of;
use sk_limits::never;
use sk_min_certificate::min::{Least, least};
use sk_model::Expanded;
use sk_opts::Set;
use sk_self_text::{self_sketch, self_text};
use sk_watch::Watch;
use std::alloc::{AllocError, Global};

/// No options.
fn no_set() -> Set
    ensures { result ≡ no_set }
{
    Set {
        cbits: None,
        inbits: None,
        unroll: None,
        inline_amnt: None,
        int_bits: None,
    }
}

/// The summary of an expansion that has a completion, as each sketch of the program's own has.
fn summary_of<W: Watch>(
    alloc: Global,
    n: u32,
    expanded: &Expanded,
    bounds: &Bounds,
    watch: &mut W,
) -> Result<Vec<u8>, AllocError>
    requires askable { IsAskable expanded.now bounds.now }
    ensures { IfOk result (λ out. IsSummaryOf n bounds.now expanded.now out.items) }
{
    let budget = Budget {
        rounds: 0,
        conflicts: 0,
    };
    match least(alloc, expanded, bounds, &budget, watch)? {
        Least::Best {
            choice: _,
            value,
            pairs: _,
        } => {
            let out = self_text(alloc, n, bounds, expanded, value)?;
            Ok(out)
        }
        _ => Err(never()),
    }
}

/// The summary of a text that is taken, as each sketch of the program's own is.
fn summary_of_text<W: Watch>(
    alloc: Global,
    n: u32,
    text: &[u8],
    watch: &mut W,
) -> Result<Vec<u8>, AllocError>
    requires short { length text.now ≤ most_bytes }
    requires is { text.now ≡ self_sketch n }
    ensures { IfOk result (λ out. IsSummary n out.items) }
{
    match sized_expansion_of(alloc, &no_set(), text) {
        Ok(found) => {
            let out = summary_of(alloc, n, &found.expanded, &found.bounds, watch)?;
            Ok(out)
        }
        Err(_) => Err(never()),
    }
}

/// The summary of the sketch with this number.
fn summary<W: Watch>(alloc: Global, n: u32, watch: &mut W) -> Result<Vec<u8>, AllocError>
    ensures { IfOk result (λ out. IsSummary n out.items) }
{
    let text = self_sketch(alloc, n)?;
    if text.len() > MOST_BYTES {
        return Err(never());
    }
    let out = summary_of_text(alloc, n, text.as_slice(), watch)?;
    Ok(out)
}

/// Completes the sketch with this number, with no options and no budgets, and writes a summary to the sink.
pub fn summarise<K: Sink, W: Watch>(alloc: Global, n: u32, sink: &mut K, watch: &mut W) -> Ending
    ensures { IsSummarised n result (K.faults sink.old) (K.faults sink.new) (K.held sink.old) (K.held sink.new) }
{
    match summary(alloc, n, watch) {
        Ok(out) => deliver(sink, out.as_slice(), Ending::Completed),
        Err(_) => Ending::Memory,
    }
}
