//! The rules on references, classes and regions.
#![tactic(auto)]

pub mod regions;
mod rules;
