//! The verdict on a text that may be a bundle, and on a proof file for it. No file is touched.
#![tactic(auto)]

pub mod laws;
pub mod verdict;
