//! A solver that learns clauses: it answers values that meet the clauses that were added, or a log that refutes them,
//! or, under a budget, the clauses that it has learnt.
#![tactic(auto)]

mod activity;
mod analysis;
mod blocks;
mod codes;
mod eliminated;
mod elimination;
mod engine;
mod known;
mod lists;
mod minimize;
mod packed;
mod propagate;
mod restarts;
mod round;
mod search;
mod settle;
mod solver;
mod store;
mod trail;
mod values;
mod watches;

pub use solver::{Answer, Solver};
