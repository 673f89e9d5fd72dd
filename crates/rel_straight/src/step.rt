//! A step of a derivation.

use rel_list::List;

/// One step: the name of its rule with its arguments. Formulas go by their numbers in the node.
#[derive(Drop)]
pub enum Step {
    /// From that two integers differ: the first is less, or the second is.
    Neint(u32),
    /// A sum of multiples of the linear formulas with these numbers is a positive constant.
    Farkas(List<(u32, i128)>),
}
