//! What the names of classes and fields stand for.

ghost use Rattle.std.specs.Prelude.{◌≡◌, option_map, IfOk};
ghost use Rattle.rel_encode.specs.Numbers.{numbers_of, field_of, number_of_class, find_numbered};
ghost use Rattle.rel_encode.specs.View.{numbers_in};

use crate::places::Places;
use rel_lang::bundle::Decl;
use rel_lang::typed::{FieldInfo, Typed};
use rel_list::{Memory, Name};
use std::alloc::Global;

/// The classes and the fields of a bundle, by name.
#[derive(Drop)]
pub struct Names<'a> {
    pub classes: Places<'a, Name>,
    pub fields: Places<'a, FieldInfo>,
}

/// The variables of a scope, by name.
pub type Variables<'a> = Places<'a, Decl>;

impl<'a> Names<'a> {
    pub fn new(alloc: Global, typed: &'a Typed) -> Result<Names<'a>, Memory>
        ensures { IfOk result (λ n. numbers_in n ≡ numbers_of typed.now) }
    {
        let classes = Places::new(alloc, &typed.classes)?;
        let fields = Places::new(alloc, &typed.fields)?;
        Ok(Names { classes, fields })
    }

    /// The class's number. One that isn't declared has the number after the last.
    #[tactic(auto, using(crate::proofs::Lookups::position_is))]
    pub fn class(&self, name: &str) -> u32
        ensures { result ≡ number_of_class (numbers_in self.now) name.now }
    {
        self.classes.position(name)
    }

    #[tactic(auto, using(crate::proofs::Lookups::found_in_map))]
    pub fn field(&self, name: &str) -> Option<&'a FieldInfo>
        ensures { option_map (λ f. field_of f.now) result ≡ find_numbered name.now (numbers_in self.now) }
    {
        self.fields.find(name)
    }
}
