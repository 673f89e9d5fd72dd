//! The lines that are printed for a verdict.
#![tactic(auto)]

mod accepted;
mod items;
mod lines;
mod refusals;
mod text;
pub mod verdict;

pub use lines::report;
pub use verdict::Verdict;
