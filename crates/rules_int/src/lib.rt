//! The rules on integers: sums of linear forms.
#![tactic(auto)]

mod comparisons;
mod dense;
mod forms;
pub mod integers;
mod join;
mod numbers;
mod parts;
mod sums;
mod terms;
