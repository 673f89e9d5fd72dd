//! Derivations: linear forms over the integers, the good steps, and a checker that takes them on a stack of
//! open nodes.
#![tactic(auto)]

pub mod checker;
mod linear;
pub mod step;
