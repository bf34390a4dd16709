//! Texts, each computed by the check.
ghost use Rattle.sk_app_texts.specs.Examples.{ResultOfInt, ResultOfGrid, ResultByRef, FailedRun, SkippedRun, SelfSketch, SelfSummary, RejectedByInputs, MessageOfText, MessageOfType, MessageOfSize, MessageOfExec, MessageOfCertificate};

/// What `exec` writes: of a negative result, of an array of arrays, of `ref` parameters and no result, of a run that fails
/// and of one that is skipped.
pub fn texts_of_runs()
    ensures negative { ResultOfInt }
    ensures grid { ResultOfGrid }
    ensures refs { ResultByRef }
    ensures failed { FailedRun }
    ensures skipped { SkippedRun }
{}

/// The sketch of `self 1`, and the summary of `self 7`.
pub fn text_of_self()
    ensures sketch { SelfSketch }
    ensures summary { SelfSummary }
{}

/// A verdict on a certificate: that it is rejected, and why.
pub fn text_of_a_verdict()
    ensures rejected { RejectedByInputs }
{}

/// Messages of refusals.
pub fn messages_of_refusals()
    ensures text { MessageOfText }
    ensures types { MessageOfType }
    ensures size { MessageOfSize }
    ensures exec { MessageOfExec }
    ensures certificate { MessageOfCertificate }
{}
