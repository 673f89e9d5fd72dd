//! Where the names of a list stand.

ghost use Rattle.std.specs.Prelude.{◌≡◌, ◌<◌, ◌^◌, length, option_map, IfOk};
ghost use Rattle.rel_lang.specs.State.{find_named};
ghost use Rattle.rel_lang.specs.Syntax.{Word};
ghost use Rattle.rel_encode.specs.Places.{place_named, place_or, ArePlaces};

use rel_flaws::index::Index;
use rel_lang::bundle::Decl;
use rel_lang::typed::FieldInfo;
use rel_list::{List, Memory, Name};
use std::alloc::Global;

/// What has a name.
pub trait Named {
    ghost word: { Self → Word };

    fn name(&self) -> &str
        ensures { result.now ≡ word self.now };
}

impl Named for Name {
    ghost word = { λ name. name };

    fn name(&self) -> &str {
        self.as_str()
    }
}

impl Named for FieldInfo {
    ghost word = { λ f. f.name };

    fn name(&self) -> &str {
        self.name.as_str()
    }
}

impl Named for Decl {
    ghost word = { λ d. d.name };

    fn name(&self) -> &str {
        self.name.as_str()
    }
}

/// A list of what has names, and the place of each name. The first of a name counts.
#[derive(Drop)]
pub struct Places<'a, T: Named> {
    pub items: &'a List<T>,
    index: Index<'a, u32>,
    ghost placed: { ArePlaces T.word items.now index },
    ghost few: { length items.now < 2 ^ 32 },
}

impl<'a, T: Named> Places<'a, T> {
    /// There is no memory for 2^32 names.
    pub fn new(alloc: Global, items: &'a List<T>) -> Result<Places<'a, T>, Memory>
        ensures { IfOk result (λ p. p.items.now ≡ items.now) }
    {
        let count = match u32::try_from(items.len()) {
            Ok(count) => count,
            Err(_) => return Err(Memory),
        };
        let mut index = Index::new(alloc);
        for i in 0..count {
            index.insert(items.at(i as usize).name(), i)?;
        }
        Ok(Places { items, index })
    }

    /// The place of the name.
    pub fn place(&self, name: &str) -> Option<u32>
        ensures { result ≡ place_named T.word name.now self.now.items.now }
    {
        self.index.get(name)
    }

    /// The place of the name, or the length of the list.
    pub fn position(&self, name: &str) -> u32
        ensures { result ≡ place_or (place_named T.word name.now self.now.items.now) (length self.now.items.now) }
    {
        match self.place(name) {
            Some(k) => k,
            None => self.items.len() as u32,
        }
    }

    /// What has the name.
    pub fn find(&self, name: &str) -> Option<&'a T>
        ensures { option_map (λ it. it.now) result ≡ find_named T.word name.now self.now.items.now }
    {
        match self.place(name) {
            Some(k) => Some(self.items.at(k as usize)),
            None => None,
        }
    }
}
