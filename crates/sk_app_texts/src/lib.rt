//! The texts that a call of the program writes besides the result of `synth`, as definitions with examples: what `exec`,
//! `check` and `self` write, and the messages of refusals.
#![tactic(auto)]

pub mod examples;
