//! Programs that are well-formed and programs that are not, computed by the check.
ghost use Rattle.sk_prog.specs.Examples.{StructIsThere, StructIsMissing, SlotIsMissing, NameIsKeyword};

/// A variable of a struct that is there.
#[tactic(auto, using(crate::proofs::ExampleFits::struct_is_there))]
pub fn a_struct_that_is_there()
    ensures { StructIsThere }
{}

/// A variable of a struct that is not there.
#[tactic(auto, using(crate::proofs::ExampleFits::struct_is_missing))]
pub fn a_struct_that_is_missing()
    ensures { StructIsMissing }
{}

/// A variable in a slot that the function does not have.
#[tactic(auto, using(crate::proofs::ExampleFits::slot_is_missing))]
pub fn a_slot_that_is_missing()
    ensures { SlotIsMissing }
{}

/// A function with the name of a keyword.
#[tactic(auto, using(crate::proofs::ExampleFits::name_is_keyword))]
pub fn a_keyword_as_name()
    ensures { NameIsKeyword }
{}
