//! The line `prune`: it writes the program of the text of a source without what no run can reach.

ghost use Rattle.std.specs.Prelude.{◌≤◌, length};
ghost use Rattle.sk_opts.specs.Ranges.{IsInRanges};
ghost use Rattle.sk_front.specs.Texts.{most_bytes};
ghost use Rattle.sk_app.specs.Call.{effect};
ghost use Rattle.sk_app.specs.Effects.{PrunesText, Prunes};

use crate::direct::refusal;
use crate::ending::Ending;
use crate::limits::MOST_BYTES;
use crate::output::deliver;
use sk_app_reading::{Reading, read_text};
use sk_base::{Sink, Source};
use sk_exec::ExecFault;
use sk_opts::Set;
use sk_prune_text::{Pruning, pruned_text};
use std::alloc::Global;

/// Writes the program of a text without what no run can reach, or says why nothing is written.
fn prune_text<K: Sink>(alloc: Global, set: &Set, text: &[u8], sink: &mut K) -> Ending
    requires short { length text.now ≤ most_bytes }
    requires set { IsInRanges set.now }
    ensures { PrunesText set.now text.now result (K.faults sink.old) (K.faults sink.new) (K.held sink.old) (K.held sink.new) }
{
    match pruned_text(alloc, set, text) {
        Err(fault) => refusal(fault),
        Ok(Pruning::Unfilled) => Ending::NotRun(ExecFault::Unfilled),
        Ok(Pruning::Pruned(out)) => deliver(sink, out.as_slice(), Ending::Pruned),
    }
}

/// Writes the program of the text of the source without what no run can reach to the sink, with the options of a line.
pub fn prune_source<S: Source, K: Sink>(
    alloc: Global,
    set: &Set,
    source: &mut S,
    sink: &mut K,
) -> Ending
    requires { IsInRanges set.now }
    ensures { Prunes set.now result (effect S.Source K.Sink source sink) }
{
    match read_text(alloc, source, MOST_BYTES) {
        Err(_) => Ending::Memory,
        Ok(Reading::Failed) => Ending::ReadFault,
        Ok(Reading::Long) => Ending::TooLong,
        Ok(Reading::Whole(text)) => prune_text(alloc, set, text.as_slice(), sink),
    }
}
