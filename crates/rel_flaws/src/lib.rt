//! What formulas, code and alignments have wrong where some variables, procedures and judgements can be seen.
#![tactic(auto)]

pub mod alignment;
mod biforms;
pub mod binders;
pub mod block;
pub mod code;
mod expression;
pub mod formula;
pub mod index;
pub mod kind;
pub mod relation;
pub mod scope;
pub mod sides;
pub mod types;
pub mod uses;
