//! Reads expressions, formulas, commands and biprograms from tokens.
#![tactic(auto)]

pub mod biprogram;
pub mod command;
pub mod expr;
pub mod fault;
pub mod formula;
pub mod relation;
pub mod several;
pub mod token;
pub mod tree;
