//! The lines `all` and `why`: they tell completions of the text of a source, or why there is none.

ghost use Rattle.std.specs.Prelude.{◌≤◌, length};
ghost use Rattle.sk_opts.specs.Ranges.{IsInRanges};
ghost use Rattle.sk_front.specs.Texts.{most_bytes};
ghost use Rattle.sk_app.specs.Call.{effect};
ghost use Rattle.sk_app.specs.Questions.{AsksForSome};
ghost use Rattle.sk_app.specs.Effects.{RepliesTo, Asks};

use crate::direct::refusal;
use crate::ending::Ending;
use crate::limits::MOST_BYTES;
use crate::output::deliver;
use sk_all_text::{Reasons, all_text, why_text};
use sk_app_reading::{Reading, read_text};
use sk_base::{Sink, Source};
use sk_opts::Set;
use sk_watch::Watch;
use std::alloc::Global;

/// What a line asks about the completions of a text.
#[derive(Debug, Drop, Clone, Copy)]
pub enum Question {
    /// Which there are; so many at most are wanted.
    Which { most: u32 },
    /// Why there is none.
    Why,
}

/// Writes the reply to a question about a text, or says why there is none.
fn reply<K: Sink, W: Watch>(
    alloc: Global,
    set: &Set,
    question: Question,
    text: &[u8],
    sink: &mut K,
    watch: &mut W,
) -> Ending
    requires short { length text.now ≤ most_bytes }
    requires set { IsInRanges set.now }
    requires some { AsksForSome question }
    ensures { RepliesTo set.now question text.now result (K.faults sink.old) (K.faults sink.new) (K.held sink.old) (K.held sink.new) }
{
    match question {
        Question::Which { most } => match all_text(alloc, set, most, text, watch) {
            Ok(out) => deliver(sink, out.as_slice(), Ending::Listed),
            Err(fault) => refusal(fault),
        },
        Question::Why => match why_text(alloc, set, text, watch) {
            Ok(Reasons::Explained { out }) => deliver(sink, out.as_slice(), Ending::Explained),
            Ok(Reasons::Met { out }) => deliver(sink, out.as_slice(), Ending::Met),
            Err(fault) => refusal(fault),
        },
    }
}

/// Writes the reply to a question about the text of the source to the sink, with the options of a line.
pub fn ask_source<S: Source, K: Sink, W: Watch>(
    alloc: Global,
    set: &Set,
    question: Question,
    source: &mut S,
    sink: &mut K,
    watch: &mut W,
) -> Ending
    requires set { IsInRanges set.now }
    requires some { AsksForSome question }
    ensures { Asks set.now question result (effect S.Source K.Sink source sink) }
{
    match read_text(alloc, source, MOST_BYTES) {
        Err(_) => Ending::Memory,
        Ok(Reading::Failed) => Ending::ReadFault,
        Ok(Reading::Long) => Ending::TooLong,
        Ok(Reading::Whole(text)) => reply(alloc, set, question, text.as_slice(), sink, watch),
    }
}
