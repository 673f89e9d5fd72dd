//! What a place can see.

ghost use Rattle.std.specs.Prelude.{◌≡◌, option_map};
ghost use Rattle.rel_lang.specs.State.{find_variable, find_field};
ghost use Rattle.rel_flaws.specs.Inference.{is_class, type_of_variable, type_of_field, type_of_image};
ghost use Rattle.rel_flaws.specs.View.{scope_of, layers_seen, globals_seen, own_seen, variable_of, tables_seen, field_of, inferred_of};

use crate::binders::Binders;
use crate::index::Index;
use crate::types::{Inferred, Type, typed_where};
use std::alloc::Global;

/// What is known of a variable.
#[derive(Clone, Copy, Drop)]
pub struct Seen<'a> {
    pub ty: Type<'a>,
    pub is_assignable: bool,
}

/// What is known of a field.
#[derive(Clone, Copy, Drop)]
pub struct SeenField<'a> {
    pub class: &'a str,
    pub ty: Type<'a>,
}

/// The classes, each with its number in order of declaration, and the fields.
#[derive(Drop)]
pub struct Tables<'a> {
    pub classes: Index<'a, u32>,
    pub fields: Index<'a, SeenField<'a>>,
}

impl<'a> Tables<'a> {
    #[tactic(auto, using(crate::proofs::Indexes::indexes))]
    pub fn has_class(&self, name: &str) -> bool
        ensures { result ≡ is_class (tables_seen self.now) name.now }
    {
        self.classes.get(name).is_some()
    }

    #[tactic(auto, using(crate::proofs::Indexes::indexes))]
    pub fn field(&self, name: &str) -> Option<SeenField<'a>>
        ensures { option_map (field_of name.now) result ≡ find_field (tables_seen self.now) name.now }
    {
        self.fields.get(name)
    }

    /// The type of the field of an object of this type.
    pub fn type_of_field(&self, name: &str, object: Inferred<'_>) -> Inferred<'a>
        ensures { inferred_of result ≡ type_of_field (find_field (tables_seen self.now) name.now) (inferred_of object.entry) }
    {
        match self.field(name) {
            Some(field) => typed_where(object.fits(Type::Class(field.class)), field.ty),
            None => Inferred::NoType,
        }
    }

    /// The type of the field's image of a region of this type.
    pub fn type_of_image(&self, name: &str, region: Inferred<'_>) -> Inferred<'a>
        ensures { inferred_of result ≡ type_of_image (find_field (tables_seen self.now) name.now) (inferred_of region.entry) }
    {
        match self.field(name) {
            Some(field) => {
                typed_where(
                    region.fits(Type::Rgn) && !field.ty.is_same(Type::Int),
                    Type::Rgn,
                )
            }
            None => Inferred::NoType,
        }
    }
}

/// The variables that can be seen but for quantified ones, in layers: those of an interface, those of a unit, a module or a client, parameters, locals
/// and `result`. The first of a name counts.
#[derive(Clone, Copy, Drop)]
pub struct Layers<'a, 's> {
    pub interface: &'s Index<'a, Seen<'a>>,
    pub globals: &'s Index<'a, Seen<'a>>,
    pub params: &'s Index<'a, Seen<'a>>,
    pub locals: &'s Index<'a, Seen<'a>>,
    pub result: &'s Index<'a, Seen<'a>>,
}

impl<'a, 's> Layers<'a, 's> {
    /// The global of this name.
    pub fn global(self, name: &str) -> Option<Seen<'a>>
        ensures { option_map (variable_of name.now) result ≡ find_variable name.now (globals_seen self.entry) }
    {
        match self.interface.get(name) {
            Some(seen) => Some(seen),
            None => self.globals.get(name),
        }
    }

    // The parameter, local or `result` of this name.
    fn own(self, name: &str) -> Option<Seen<'a>>
        ensures { option_map (variable_of name.now) result ≡ find_variable name.now (own_seen self.entry) }
    {
        match self.params.get(name) {
            Some(seen) => Some(seen),
            None => match self.locals.get(name) {
                Some(seen) => Some(seen),
                None => self.result.get(name),
            },
        }
    }

    /// The variable of this name.
    pub fn find(self, name: &str) -> Option<Seen<'a>>
        ensures { option_map (variable_of name.now) result ≡ find_variable name.now (layers_seen self.entry) }
    {
        match self.global(name) {
            Some(seen) => Some(seen),
            None => self.own(name),
        }
    }
}

/// The variables that can be seen, quantified ones first.
#[derive(Drop)]
pub struct Scope<'a, 's> {
    pub quantified: Binders<'a>,
    pub layers: Layers<'a, 's>,
}

impl<'a, 's> Scope<'a, 's> {
    /// The layers, with nothing quantified.
    pub fn new(alloc: Global, layers: Layers<'a, 's>) -> Scope<'a, 's>
        ensures { scope_of result ≡ layers_seen layers.entry }
    {
        Scope {
            quantified: Binders::new(alloc),
            layers,
        }
    }

    /// The variable of this name.
    pub fn find(&self, name: &str) -> Option<Seen<'a>>
        ensures { option_map (variable_of name.now) result ≡ find_variable name.now (scope_of self.now) }
    {
        match self.quantified.find(name) {
            Some(class) => Some(Seen {
                ty: Type::Class(class),
                is_assignable: false,
            }),
            None => self.layers.find(name),
        }
    }

    /// The type of the variable of this name.
    pub fn type_of(&self, name: &str) -> Inferred<'a>
        ensures { inferred_of result ≡ type_of_variable (find_variable name.now (scope_of self.now)) }
    {
        match self.find(name) {
            Some(seen) => Inferred::Exactly(seen.ty),
            None => Inferred::NoType,
        }
    }
}
