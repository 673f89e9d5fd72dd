//! The rules of derivations as a table: steps, what they add to a node, and the rows on
//! connectives and quantifiers.
#![tactic(auto)]

pub mod arguments;
pub mod propositional;
pub mod step;
pub mod terms;
pub mod theory;
