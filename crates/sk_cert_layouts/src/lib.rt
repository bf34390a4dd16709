//! Laws of the texts that certificates hold, with nothing to run.
#![tactic(auto)]

ghost use Rattle.sk_cert_layouts.specs.Laws.{LayoutsAreProgramTexts, SameLines};

/// The layout of a well-formed program is a text that a certificate may hold: lines of ASCII, each with its line feed, of
/// which none begins with `//@`.
pub fn layouts_are_program_texts()
    ensures { LayoutsAreProgramTexts }
{}

/// The lines of a completion in a certificate are those that `synth` writes behind the filled program.
pub fn same_lines()
    ensures { SameLines }
{}
