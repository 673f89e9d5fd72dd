//! Terms, formulas, sequents and nodes of the logic in which obligations are stated.
#![tactic(auto)]

pub mod comparison;
pub mod fol;
pub mod sequent;
pub mod sorting;
pub mod substitution;
pub mod term;
