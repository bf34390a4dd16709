//! Laws of well-formed programs, with nothing to run.
ghost use Rattle.sk_prog.specs.SpansUnseen.{SpansUnseen};

/// Of two programs that differ in spans alone, both are well-formed or neither is.
#[tactic(auto, using(crate::proofs::SameFits::spans_unseen))]
pub fn spans_are_unseen()
    ensures { SpansUnseen }
{}
