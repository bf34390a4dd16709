//! What is to be written, or why nothing is.

ghost use Rattle.std.specs.Prelude.{IfOk};
ghost use Rattle.sk_front.specs.Texts.{most_bytes};
ghost use Rattle.sk_opts.specs.Ranges.{IsInRanges};
ghost use Rattle.sk_app_reading.specs.Streams.{TakesFew};
ghost use Rattle.sk_app.specs.Prepared.{IsPrepared};

use crate::complete::complete;
use crate::ending::Ending;
use crate::limits::MOST_BYTES;
use sk_app_reading::{Reading, read_text};
use sk_base::{Budget, Source};
use sk_expand_sizes::SizeFault;
use sk_front::TextFault;
use sk_opts::Set;
use sk_types_laws::TypeFault;
use sk_watch::Watch;
use std::alloc::{AllocError, Global};

/// What a text comes to.
#[derive(Drop)]
pub enum Found {
    /// It reads as no tree.
    NotText(TextFault),
    /// It means no program.
    NotTyped(TypeFault),
    /// The program that it means is too large.
    TooLarge(SizeFault),
    /// The search ended so: its result text, and how the line ends where that is written.
    Ended { out: Vec<u8>, ending: Ending },
}

/// What a source comes to.
#[derive(Drop)]
pub enum Prepared {
    ReadFault,
    TooLong,
    Found(Found),
}

/// Reads the text, and completes it with the options and budgets of a line, with a certificate or without.
pub fn prepare<S: Source, W: Watch>(
    alloc: Global,
    set: &Set,
    budget: &Budget,
    cert: bool,
    source: &mut S,
    watch: &mut W,
) -> Result<Prepared, AllocError>
    requires { IsInRanges set.now }
    ensures cause { IfOk result (λ prepared. IsPrepared set.now budget.now cert prepared (S.faults source.old) (S.faults source.new) (S.left source.old)) }
    ensures few { TakesFew most_bytes (S.left source.old) (S.left source.new) }
{
    match read_text(alloc, source, MOST_BYTES)? {
        Reading::Failed => Ok(Prepared::ReadFault),
        Reading::Long => Ok(Prepared::TooLong),
        Reading::Whole(text) => {
            let found = complete(alloc, set, budget, cert, text.as_slice(), watch)?;
            Ok(Prepared::Found(found))
        }
    }
}
