//! The line `check`: it says whether what stands behind the sketch of an input is a certificate, and a right one.

ghost use Rattle.std.specs.Prelude.{◌≡◌, ◌≤◌, length, IfOk};
ghost use Rattle.sk_app_texts.specs.CheckTexts.{reason_number, rejected_text};
ghost use Rattle.sk_opts.specs.Ranges.{IsInRanges};
ghost use Rattle.sk_check_laws.specs.declared.reason.Reason.{Reason};
ghost use Rattle.sk_app.specs.Call.{effect};
ghost use Rattle.sk_app.specs.Checks.{most_input, told_reason};
ghost use Rattle.sk_app.specs.Effects.{refused_input, ChecksInput, IsRejectedText, Checks};

use crate::direct::refusal;
use crate::ending::Ending;
use crate::limits::MOST_INPUT;
use crate::output::deliver;
use sk_app_reading::{Reading, read_text};
use sk_base::{Sink, Source, push_number};
use sk_check_laws::Reason;
use sk_check_text::{CheckFault, Checked, checked_text};
use sk_opts::Set;
use std::alloc::{AllocError, Global};

/// The ending for an input of which nothing is said but that it is refused.
fn refused_input(fault: CheckFault) -> Ending
    ensures { result ≡ refused_input fault }
{
    match fault {
        CheckFault::TooLong => Ending::TooLong,
        CheckFault::Sketch(fault) => refusal(fault),
    }
}

/// The number of the part of a certificate that does not hold.
fn part_number(reason: &Reason) -> u64
    ensures { result ≡ reason_number (told_reason reason.now) }
{
    match reason {
        Reason::Values => 1,
        Reason::Inputs => 2,
        Reason::Upper => 3,
        Reason::Lower => 4,
        Reason::Text => 5,
        Reason::Formula { own: _ } => 6,
    }
}

/// What is written of a certificate that is rejected for this reason.
fn rejected(alloc: Global, reason: &Reason) -> Result<Vec<u8>, AllocError>
    ensures { IfOk result (λ out. out.items ≡ rejected_text (told_reason reason.now)) }
{
    let mut out = Vec::from_slice(alloc, b"rejected ")?;
    push_number(&mut out, part_number(reason))?;
    out.push(b'\n')?;
    Ok(out)
}

/// Writes that a certificate is rejected for this reason.
fn reject<K: Sink>(alloc: Global, reason: Reason, sink: &mut K) -> Ending
    ensures { IsRejectedText reason result (K.faults sink.old) (K.faults sink.new) (K.held sink.old) (K.held sink.new) }
{
    match rejected(alloc, &reason) {
        Ok(out) => deliver(sink, out.as_slice(), Ending::Rejected(reason)),
        Err(_) => Ending::Memory,
    }
}

/// Writes what is said of an input, or says why nothing is.
fn check_input<K: Sink>(alloc: Global, set: &Set, input: &[u8], sink: &mut K) -> Ending
    requires short { length input.now ≤ most_input }
    requires set { IsInRanges set.now }
    ensures { ChecksInput set.now input.now result (K.faults sink.old) (K.faults sink.new) (K.held sink.old) (K.held sink.new) }
{
    match checked_text(alloc, set, input) {
        Err(fault) => refused_input(fault),
        Ok(Checked::NotCertificate(fault)) => Ending::NotCertificate(fault),
        Ok(Checked::Accepted) => deliver(sink, b"accepted\n", Ending::Accepted),
        Ok(Checked::Rejected(reason)) => reject(alloc, reason, sink),
    }
}

/// Writes what is said of the input that the source gives, with the options of a line.
pub fn check_source<S: Source, K: Sink>(
    alloc: Global,
    set: &Set,
    source: &mut S,
    sink: &mut K,
) -> Ending
    requires { IsInRanges set.now }
    ensures { Checks set.now result (effect S.Source K.Sink source sink) }
{
    match read_text(alloc, source, MOST_INPUT) {
        Err(_) => Ending::Memory,
        Ok(Reading::Failed) => Ending::ReadFault,
        Ok(Reading::Long) => Ending::TooLong,
        Ok(Reading::Whole(input)) => check_input(alloc, set, input.as_slice(), sink),
    }
}
