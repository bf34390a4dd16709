//! The line `lower`: it writes the plain sketch of the text of a source.

ghost use Rattle.std.specs.Prelude.{◌≤◌, length};
ghost use Rattle.sk_opts.specs.Ranges.{IsInRanges};
ghost use Rattle.sk_front.specs.Texts.{most_bytes};
ghost use Rattle.sk_app.specs.Call.{effect};
ghost use Rattle.sk_app.specs.Effects.{LowersText, Lowers};

use crate::direct::refusal;
use crate::ending::Ending;
use crate::limits::MOST_BYTES;
use crate::output::deliver;
use sk_adt_text::{Lowering, lowered_text};
use sk_app_reading::{Reading, read_text};
use sk_base::{Sink, Source};
use sk_opts::Set;
use std::alloc::Global;

/// Writes the plain sketch of a text, or says why there is none.
fn lower_text<K: Sink>(alloc: Global, set: &Set, text: &[u8], sink: &mut K) -> Ending
    requires short { length text.now ≤ most_bytes }
    requires set { IsInRanges set.now }
    ensures { LowersText set.now text.now result (K.faults sink.old) (K.faults sink.new) (K.held sink.old) (K.held sink.new) }
{
    match lowered_text(alloc, set, text) {
        Err(fault) => refusal(fault),
        Ok(Lowering::NotLowered(reason)) => Ending::NotLowered(reason),
        Ok(Lowering::NotTagged { span }) => Ending::NotTagged { span },
        Ok(Lowering::Plain(out)) => deliver(sink, out.as_slice(), Ending::Lowered),
    }
}

/// Writes the plain sketch of the text of the source to the sink, with the options of a line.
pub fn lower_source<S: Source, K: Sink>(
    alloc: Global,
    set: &Set,
    source: &mut S,
    sink: &mut K,
) -> Ending
    requires { IsInRanges set.now }
    ensures { Lowers set.now result (effect S.Source K.Sink source sink) }
{
    match read_text(alloc, source, MOST_BYTES) {
        Err(_) => Ending::Memory,
        Ok(Reading::Failed) => Ending::ReadFault,
        Ok(Reading::Long) => Ending::TooLong,
        Ok(Reading::Whole(text)) => lower_text(alloc, set, text.as_slice(), sink),
    }
}
