//! Quantified names, the last one in front.

ghost use Rattle.std.specs.Prelude.{◌≡◌, ◌∷◌, [], OnOk, OnErr, option_map};
ghost use Rattle.rel_flaws.specs.Entries.{find_entry, without_front};

use rel_list::Memory;
use std::alloc::Global;
use std::marker::Model;

/// Quantified names with their classes. Contracts see them as a list, the innermost first.
#[derive(Drop)]
pub struct Binders<'a> {
    names: Vec<(&'a str, &'a str)>,
}

impl<'a> Model for Binders<'a> {
    ghost use Rattle.std.specs.Prelude.{List, ℕ};
    ghost use Rattle.rel_flaws.specs.Entries.{last_first};

    ghost Value = { List (List ℕ × List ℕ) };

    ghost view = { λ binders. last_first binders.names.items };
}

impl<'a> Binders<'a> {
    pub fn new(alloc: Global) -> Binders<'a>
        ensures { result ≡ [] }
    {
        Binders {
            names: Vec::new(alloc),
        }
    }

    pub fn push(&mut self, name: &'a str, class: &'a str) -> Result<(), Memory>
        ensures { OnOk result (self.new ≡ (name.now, class.now) ∷ self.old) }
    {
        self.names.push((name, class))?;
        Ok(())
    }

    pub fn pop(&mut self)
        ensures { self.new ≡ without_front self.old }
    {
        self.names.pop();
    }

    /// The class of the innermost of this name.
    pub fn find(&self, name: &str) -> Option<&'a str>
        ensures { option_map (λ class. class.now) result ≡ find_entry name.now self.now }
    {
        let mut found = None;
        for (x, class) in self.names.as_slice() {
            if name == *x {
                found = Some(*class);
            }
        }
        found
    }
}
