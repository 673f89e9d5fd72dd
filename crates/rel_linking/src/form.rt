//! Which bundles can be judged.

mod judged;
mod plain;
mod writes;

pub use judged::are_judged;
