//! Names in order of declaration, each with what is known of it.

ghost use Rattle.std.specs.Prelude.{◌≡◌, [], OnOk, option_map, is_some};
ghost use Rattle.rel_flaws.specs.Entries.{find_entry, with_entry, with_value};

use indexmap::IndexMap;
use rel_list::Memory;
use std::alloc::Global;
use std::marker::Model;

/// Names with values. Contracts see the list of them, in which each name stands once.
#[derive(Drop)]
pub struct Index<'a, V> {
    entries: IndexMap<&'a str, V>,
}

impl<'a, V> Model for Index<'a, V> {
    ghost use Rattle.std.specs.Prelude.{List, ℕ, map};

    ghost Value = { List (List ℕ × V) };

    ghost view = { λ index. map (λ e. (e.0.now, e.1)) index.entries.entries };
}

impl<'a, V: Drop> Index<'a, V> {
    pub fn new(alloc: Global) -> Index<'a, V>
        ensures { result ≡ [] }
    {
        Index {
            entries: IndexMap::new(alloc),
        }
    }

    /// What is known of the name.
    pub fn find(&self, name: &str) -> Option<&V>
        ensures { option_map (λ value. value.now) result ≡ find_entry name.now self.now }
    {
        self.entries.get(name)
    }

    pub fn has(&self, name: &str) -> bool
        ensures { result ≡ is_some (find_entry name.now self.now) }
    {
        self.find(name).is_some()
    }

    /// Adds a name, unless it is there.
    pub fn insert(&mut self, name: &'a str, value: V) -> Result<(), Memory>
        ensures { OnOk result (self.new ≡ with_entry self.old name.now value) }
    {
        if self.has(name) {
            return Ok(());
        }
        self.entries.insert(name, value)?;
        Ok(())
    }

    /// Replaces what is known of a name that is there.
    pub fn put(&mut self, name: &str, value: V)
        ensures { self.new ≡ with_value self.old name.now value }
    {
        if let Some(known) = self.entries.get_mut(name) {
            *known = value;
        }
    }
}

impl<'a, V: Copy + Drop> Index<'a, V> {
    /// What is known of the name.
    pub fn get(&self, name: &str) -> Option<V>
        ensures { result ≡ find_entry name.now self.now }
    {
        self.entries.get(name).copied()
    }
}
