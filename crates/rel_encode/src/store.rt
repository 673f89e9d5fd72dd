//! The terms that stand for states.

use rel_lang::bundle::Decl;
use rel_list::List;
use rel_logic::term::Term;

/// The declarations in scope, in order.
pub type Scope = List<Decl>;

/// A term for each variable of a scope, one for the map of each field, both in order of declaration, and
/// one for the region of what is allocated.
#[derive(Drop)]
pub struct Store {
    pub vars: List<Term>,
    pub maps: List<Term>,
    pub alloc: Term,
}

/// The present states of two sides, their states at entry, and the bijection.
#[derive(Drop)]
pub struct PairStore {
    pub left: Store,
    pub right: Store,
    pub left_entry: Store,
    pub right_entry: Store,
    pub bij: Term,
}
