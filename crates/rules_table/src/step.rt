//! A step of a derivation.

use rel_list::List;
use rel_logic::fol::Fol;
use rel_logic::term::Term;

/// The number of a row, and its arguments by kind, in the row's order. Formulas of the node go by
/// their numbers.
#[derive(Drop)]
pub struct Step {
    pub row: u8,
    pub nums: List<u32>,
    pub ints: List<i128>,
    pub terms: List<Term>,
    pub forms: List<Fol>,
    pub class: Option<u32>,
}
