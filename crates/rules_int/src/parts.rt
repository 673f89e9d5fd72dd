//! Atoms with numbers.
ghost use Rattle.std.specs.Prelude.{◌≡◌, [], IsTrue, map};
ghost use Rattle.rel_logic.specs.View.{trm_of};
ghost use Rattle.rules_int.specs.Entries.{are_distinct};

use rel_logic::term::Term;
use std::alloc::Global;

/// Atoms with numbers, no atom twice.
#[derive(Drop)]
pub struct Parts<'a> {
    pub entries: Vec<(&'a Term, i128)>,
    ghost distinct: { IsTrue (are_distinct (map (λ e. (trm_of e.0.now, e.1)) entries.items)) },
}

impl<'a> Parts<'a> {
    pub fn new(alloc: Global) -> Parts<'a>
        ensures { result.entries.items ≡ [] }
    {
        Parts {
            entries: Vec::new(alloc),
        }
    }
}
