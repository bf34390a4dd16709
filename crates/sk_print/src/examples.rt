//! Texts of small programs, each computed by the check.
ghost use Rattle.sk_print.specs.Examples.{DoubleMinus, NestedChoice, EmptyHarness, IfElse, IfInElse, StructWithNew};

/// Two minus signs stand apart: `- -x`.
#[tactic(auto, using(crate::proofs::ExampleTexts::double_minus))]
pub fn two_minus_signs()
    ensures { DoubleMinus }
{}

/// A choice as the last part of a choice: `a ? b : c ? d : e`.
#[tactic(auto, using(crate::proofs::ExampleTexts::nested_choice))]
pub fn a_nested_choice()
    ensures { NestedChoice }
{}

/// A harness with an empty body has two lines.
pub fn an_empty_harness()
    ensures { EmptyHarness }
{}

/// An `if` with an `else`, one block deep.
#[tactic(auto, using(crate::proofs::ExampleTexts::if_else))]
pub fn an_if_with_else()
    ensures { IfElse }
{}

/// An `if` that is all of an `else` keeps the braces round it.
#[tactic(auto, using(crate::proofs::ExampleTexts::if_in_else))]
pub fn an_if_in_an_else()
    ensures { IfInElse }
{}

/// A struct, and a function that makes a record of it.
#[tactic(auto, using(crate::proofs::ExampleTexts::struct_with_new))]
pub fn a_struct_with_new()
    ensures { StructWithNew }
{}
