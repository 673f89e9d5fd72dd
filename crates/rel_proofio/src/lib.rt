//! Reads proof files, and prints terms and formulas as they stand there.
#![tactic(auto)]

mod fault;
mod file;
mod parts;
mod steps;
mod table;
mod text;
mod tree;
mod words;

pub use fault::{ProofFault, Spot};
pub use file::{Proof, read_proof};
pub use text::{fol_text, term_text};
