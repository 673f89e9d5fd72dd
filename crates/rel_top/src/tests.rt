//! What the crates below give, each call that takes memory once. The tests stand here, since a crate with tests is
//! proved twice.

mod checker;
mod derivations;
mod encoding;
mod files;
mod lists;
mod logic;
mod proof_files;
mod report;
mod tokens;
mod verdicts;
