//! What surrounds the bodies of an item.

ghost use Rattle.std.specs.Prelude.{◌≡◌, [], option_map};
ghost use Rattle.rel_lang.specs.Scope.{pre_scope, post_scope, body_scope};
ghost use Rattle.rel_flaws.specs.View.{layers_seen};
ghost use Rattle.rel_types.specs.Lookups.{SameLookups};
ghost use Rattle.rel_types.specs.OwnView.{AreLayers, globals_in, setting_of};
ghost use Rattle.rel_types.specs.declared.own.Own as O;

use crate::own::OwnLayers;
use rel_flaws::code::Callee;
use rel_flaws::index::Index;
use rel_flaws::scope::{Layers, Seen};

/// The globals of an interface, and those of a unit, a module or a client.
#[derive(Clone, Copy, Drop)]
pub(crate) struct Globals<'a, 's> {
    pub interface: &'s Index<'a, Seen<'a>>,
    pub own: &'s Index<'a, Seen<'a>>,
}

/// The globals, the procedures of a unit or a client, and the methods of an interface.
#[derive(Clone, Copy, Drop)]
pub(crate) struct Around<'a, 's> {
    pub globals: Globals<'a, 's>,
    pub procs: &'s Index<'a, Callee<'a>>,
    pub methods: &'s Index<'a, Callee<'a>>,
}

impl<'a, 's> Globals<'a, 's> {
    /// What a precondition sees.
    pub fn pre(self, own: &'s OwnLayers<'a>) -> Layers<'a, 's>
        ensures { (o : O.Own) → AreLayers o own.now → SameLookups (layers_seen result) (pre_scope (setting_of self.entry o)) }
    {
        Layers {
            interface: self.interface,
            globals: self.own,
            params: &own.params,
            locals: &own.none,
            result: &own.none,
        }
    }

    /// What a postcondition sees.
    pub fn post(self, own: &'s OwnLayers<'a>) -> Layers<'a, 's>
        ensures { (o : O.Own) → AreLayers o own.now → SameLookups (layers_seen result) (post_scope (setting_of self.entry o)) }
    {
        Layers {
            interface: self.interface,
            globals: self.own,
            params: &own.params,
            locals: &own.none,
            result: &own.result,
        }
    }

    /// What a body sees.
    pub fn body(self, own: &'s OwnLayers<'a>) -> Layers<'a, 's>
        ensures { (o : O.Own) → AreLayers o own.now → SameLookups (layers_seen result) (body_scope (setting_of self.entry o)) }
    {
        Layers {
            interface: self.interface,
            globals: self.own,
            params: &own.params,
            locals: &own.locals,
            result: &own.result,
        }
    }

    /// The globals by themselves.
    pub fn alone(self, none: &'s Index<'a, Seen<'a>>) -> Layers<'a, 's>
        requires { none.now ≡ [] }
        ensures { layers_seen result ≡ globals_in self.entry }
    {
        Layers {
            interface: self.interface,
            globals: self.own,
            params: none,
            locals: none,
            result: none,
        }
    }
}
