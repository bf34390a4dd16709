//! Runs in which a record of an algebraic struct has the fields of one variant alone. There is nothing to run here: specs/ has the definitions.
#![tactic(auto)]
