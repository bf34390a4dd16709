//! What shapes and heaps over nodes are worth as values and records of a run: definitions and laws, with nothing to run.
#![tactic(auto)]
