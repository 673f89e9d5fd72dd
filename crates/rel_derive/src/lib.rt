//! Checks derivations step by step, on a stack of open nodes.
#![tactic(auto)]

pub mod checker;
pub mod laws;
mod pile;
mod theories;
pub mod verdict;
