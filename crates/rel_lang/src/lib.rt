//! The trees of the language, and what they mean: its definitions are in `specs/`.
#![tactic(auto)]

pub mod biprogram;
pub mod bundle;
pub mod command;
pub(crate) mod copies;
pub mod expr;
pub mod fault;
pub mod formula;
pub mod laws;
pub mod relation;
pub mod typed;
