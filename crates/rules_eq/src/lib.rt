//! The rules on equality, maps and bijections.
#![tactic(auto)]

pub mod equality;
mod rules;
mod terms;
