//! The call that does all that the program `sketch_check` does.

ghost use Rattle.std.specs.Prelude.{◌≡◌, ◌≤◌, length, map, string_bytes};
ghost use Rattle.sk_opts.specs.Ranges.{IsInRanges};
ghost use Rattle.sk_check_app.specs.Ending.{rejected_line};
ghost use Rattle.sk_check_app.specs.Call.{effect, call, most_input};
ghost use Rattle.sk_check_app.specs.Judging.{sketch_refusal, refusal, IsWritten, JudgesInput, Judges, Answers};
ghost use Rattle.sk_check_app.specs.Clauses.{TellsNoLine, NoLineEnds, TellsAccepted, CheckedEnds, AcceptedEnds, TellsRejected, RejectedEnds, TellsNoForm, NoFormEnds, TellsNotText, PlacesNotText, TellsNotTyped, PlacesNotTyped, TellsTooLarge, TellsTooLong, LongEnds, RefusedEnds, TellsReadFault, TellsWriteFault, CutsLine, KeepsSink, ReadsFew, LeavesSource};

use crate::ending::Ending;
use crate::words::set_of;
use sk_app_reading::{Delivery, Reading, deliver, read_text};
use sk_base::{Sink, Source};
use sk_check_laws::Reason;
use sk_check_text::{CheckFault, Checked, checked_text};
use sk_front::SketchFault;
use sk_opts::{Set, Usage};
use std::alloc::Global;

/// The greatest number of bytes of an input: of a sketch, and of what stands behind it.
const MOST_INPUT: usize = 67_108_864;

/// The ending of an input whose sketch is not taken.
fn sketch_refusal(fault: SketchFault) -> Ending
    ensures { result ≡ sketch_refusal fault }
{
    match fault {
        SketchFault::NotText(told) => Ending::NotText(told),
        SketchFault::NotTyped(told) => Ending::NotTyped(told),
        SketchFault::TooLarge(reason) => Ending::TooLarge(reason),
        SketchFault::Memory => Ending::Memory,
    }
}

/// The ending of an input that is refused.
fn refusal(fault: CheckFault) -> Ending
    ensures { result ≡ refusal fault }
{
    match fault {
        CheckFault::TooLong => Ending::TooLong,
        CheckFault::Sketch(told) => sketch_refusal(told),
    }
}

/// The line that is written of a certificate that is rejected.
fn rejected_line(reason: &Reason) -> &'static [u8]
    ensures { result.now ≡ rejected_line reason.now }
{
    match reason {
        Reason::Values => b"rejected 1\n",
        Reason::Inputs => b"rejected 2\n",
        Reason::Upper => b"rejected 3\n",
        Reason::Lower => b"rejected 4\n",
        Reason::Text => b"rejected 5\n",
        Reason::Formula { own: _ } => b"rejected 6\n",
    }
}

/// Writes a line. It answers `done` where it was written.
fn written<K: Sink>(sink: &mut K, line: &[u8], done: Ending) -> Ending
    ensures { IsWritten result done line.now (K.faults sink.old) (K.faults sink.new) (K.held sink.old) (K.held sink.new) }
{
    match deliver(sink, line) {
        Delivery::Written => done,
        Delivery::Cut => Ending::WriteFault,
        Delivery::NoRoom => Ending::Memory,
    }
}

/// Writes what is said of an input, or says why nothing is.
fn judge_input<K: Sink>(alloc: Global, set: &Set, input: &[u8], sink: &mut K) -> Ending
    requires short { length input.now ≤ most_input }
    requires set { IsInRanges set.now }
    ensures { JudgesInput set.now input.now result (K.faults sink.old) (K.faults sink.new) (K.held sink.old) (K.held sink.new) }
{
    match checked_text(alloc, set, input) {
        Err(fault) => refusal(fault),
        Ok(Checked::NotCertificate(fault)) => Ending::NotCertificate(fault),
        Ok(Checked::Accepted) => written(sink, b"accepted\n", Ending::Accepted),
        Ok(Checked::Rejected(reason)) => {
            let line = rejected_line(&reason);
            written(sink, line, Ending::Rejected(reason))
        }
    }
}

/// Writes what is said of the input that the source gives, with these options.
fn judge_source<S: Source, K: Sink>(
    alloc: Global,
    set: &Set,
    source: &mut S,
    sink: &mut K,
) -> Ending
    requires { IsInRanges set.now }
    ensures { Judges set.now result (effect S.Source K.Sink source sink) }
{
    match read_text(alloc, source, MOST_INPUT) {
        Err(_) => Ending::Memory,
        Ok(Reading::Failed) => Ending::ReadFault,
        Ok(Reading::Long) => Ending::TooLong,
        Ok(Reading::Whole(input)) => judge_input(alloc, set, input.as_slice(), sink),
    }
}

/// Does what the words ask for.
fn answer<S: Source, K: Sink>(
    alloc: Global,
    words: &[String],
    source: &mut S,
    sink: &mut K,
) -> Ending
    ensures { Answers (map string_bytes words.now) result (effect S.Source K.Sink source sink) }
{
    match set_of(alloc, words) {
        Ok(set) => judge_source(alloc, &set, source, sink),
        Err(Usage::NotALine) => Ending::NotALine,
        Err(Usage::Memory) => Ending::Memory,
    }
}

/// Judges a certificate. The words are the options of a line `check`, without that word. The source gives a sketch, a line `//%%` and what
/// `synth --cert` wrote of it, at most 67,108,864 bytes in all and 1,048,576 of sketch. The sink gets `accepted`, or `rejected` with the
/// number of the first part of the certificate that does not hold.
///
/// What is said of the input holds where the source tells what is left, and what is said of what the sink holds where the sink tells it.
/// Want of memory may come at any step.
///
/// Each clause is one word of the call (`specs/Clauses.antt`), and has the name of the clause of `run` that says the same of a line
/// `check`. They stand in pairs: an ending comes only where it has its cause, and (`ends_..`) where there is the cause, it comes.
pub fn judge<S: Source, K: Sink>(
    alloc: Global,
    words: &[String],
    source: &mut S,
    sink: &mut K,
) -> Ending
    // Words.
    ensures not_a_line { TellsNoLine (call S.Source K.Sink words.now result source sink) }
    ensures ends_no_line { NoLineEnds (call S.Source K.Sink words.now result source sink) }

    // Certificates.
    ensures accepted { TellsAccepted (call S.Source K.Sink words.now result source sink) }
    ensures ends_checked { CheckedEnds (call S.Source K.Sink words.now result source sink) }
    ensures ends_accepted { AcceptedEnds (call S.Source K.Sink words.now result source sink) }
    ensures rejected { TellsRejected (call S.Source K.Sink words.now result source sink) }
    ensures ends_rejected { RejectedEnds (call S.Source K.Sink words.now result source sink) }
    ensures not_certificate { TellsNoForm (call S.Source K.Sink words.now result source sink) }
    ensures ends_not_certificate { NoFormEnds (call S.Source K.Sink words.now result source sink) }

    // Inputs that are refused.
    ensures not_text { TellsNotText (call S.Source K.Sink words.now result source sink) }
    ensures text_place { PlacesNotText (call S.Source K.Sink words.now result source sink) }
    ensures not_typed { TellsNotTyped (call S.Source K.Sink words.now result source sink) }
    ensures type_place { PlacesNotTyped (call S.Source K.Sink words.now result source sink) }
    ensures too_large { TellsTooLarge (call S.Source K.Sink words.now result source sink) }
    ensures long_input { TellsTooLong (call S.Source K.Sink words.now result source sink) }
    ensures ends_long_input { LongEnds (call S.Source K.Sink words.now result source sink) }
    ensures ends_refused_input { RefusedEnds (call S.Source K.Sink words.now result source sink) }

    // The streams.
    ensures read_fault { TellsReadFault (call S.Source K.Sink words.now result source sink) }
    ensures write_fault { TellsWriteFault (call S.Source K.Sink words.now result source sink) }
    ensures prefix { CutsLine (call S.Source K.Sink words.now result source sink) }
    ensures kept { KeepsSink (call S.Source K.Sink words.now result source sink) }
    ensures few { ReadsFew (call S.Source K.Sink words.now result source sink) }
    ensures unread { LeavesSource (call S.Source K.Sink words.now result source sink) }
{
    let ending = answer(alloc, words, source, sink);
    ending
}
