//! Types a bundle, or says which fault it has first and where.
#![tactic(auto)]

mod aligned;
mod around;
mod bodies;
mod bundles;
mod by_name;
mod called;
mod classes;
mod clients;
mod declarations;
mod fault;
mod given;
mod interfaces;
mod items;
mod judgements;
mod known;
pub mod laws;
mod members;
mod methods;
mod modules;
mod names;
mod numbers;
mod own;
mod pairs;
mod typing;
mod units;

pub use bundles::name_of;
pub use fault::TypeFault;
pub use typing::resolve;
