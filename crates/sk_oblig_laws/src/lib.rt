//! Laws of what the bits of a query say, with nothing to run.
#![tactic(auto)]

ghost use Rattle.sk_oblig_laws.specs.Laws.{BitsSayChoices, BitsSayInputs, PlainIsInRange};

/// Bits of holes say the environment whose choice is the numbers that they say.
#[tactic(auto, using(crate::proofs::Saying::holes_say))]
pub fn bits_say_choices()
    ensures { BitsSayChoices }
{}

/// Bits of scalars say the environment whose input is the numbers that they say.
#[tactic(auto, using(crate::proofs::Saying::inputs_say))]
pub fn bits_say_inputs()
    ensures { BitsSayInputs }
{}

/// What numbers say that are small enough is in range exactly where no parameter holds a reference.
#[tactic(auto, using(crate::proofs::Ranges::plain_in_range))]
pub fn plain_is_in_range()
    ensures { PlainIsInRange }
{}
