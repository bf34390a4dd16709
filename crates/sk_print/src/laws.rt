//! Laws of the layout, with nothing to run.
ghost use Rattle.sk_print.specs.SpansUnseen.{SpansUnseen};

/// Two programs that differ in spans alone have one layout.
pub fn spans_are_unseen()
    ensures { SpansUnseen }
{}
