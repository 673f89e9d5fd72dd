//! The first fault of an interface.

ghost use Rattle.std.specs.Prelude.{◌≡◌, true, [], map, option_map, IfOk};
ghost use Rattle.rel_lang.specs.State as state;
ghost use Rattle.rel_lang.specs.View.{decl_of, place_of, effect_of, clause_of, sig_of, interface_of};
ghost use Rattle.rel_flaws.specs.Flaws.{either, first_of};
ghost use Rattle.rel_flaws.specs.Inference.{is_among};
ghost use Rattle.rel_flaws.specs.View.{tables_seen, flaws_of, fault_of, pass_of};
ghost use Rattle.rel_types.specs.Items as items;
ghost use Rattle.rel_types.specs.Lookups.{SameLookups};
ghost use Rattle.rel_types.specs.OwnView.{globals_in, sig_setting};

use crate::around::Globals;
use crate::declarations::add_all;
use crate::items::{flaws_of_effects, flaws_of_globals, flaws_of_places};
use crate::members::{clause_fault_in, method_fault};
use crate::names::add_name;
use rel_flaws::index::Index;
use rel_flaws::kind::{Fault, Flaws, Pass};
use rel_flaws::scope::{Scope, Seen, Tables};
use rel_lang::bundle::{Interface, Sig};
use rel_list::{List, Memory};
use std::alloc::Global;

/// What an interface has wrong at its place: its globals, its boundary and what its init writes.
fn flaws_of_interface<'a, 's>(
    alloc: Global,
    tables: &Tables<'a>,
    globals: Globals<'a, 's>,
    none: &'s Index<'a, Seen<'a>>,
    interface: &'a Interface,
) -> Result<Flaws, Memory>
    requires { none.now ≡ [] }
    ensures { IfOk result (λ f. (sc : state.Scope) → SameLookups (globals_in globals.entry) sc → flaws_of f
        ≡ either (items.flaws_of_globals (tables_seen tables.now) [] (map decl_of interface.now.globals))
        (either (items.flaws_of_all (tables_seen tables.now) (items.flaws_of_place (tables_seen tables.now) sc) (map place_of interface.now.boundary))
        (items.flaws_of_all (tables_seen tables.now) (items.flaws_of_effect (tables_seen tables.now) sc sc) (map effect_of interface.now.init_writes)))) }
{
    let before = Globals {
        interface: none,
        own: none,
    };
    let scope = Scope::new(alloc, globals.alone(none));
    let variables = flaws_of_globals(alloc, tables, before, &interface.globals)?;
    let boundary = flaws_of_places(tables, &scope, &interface.boundary);
    let writes = flaws_of_effects(tables, globals, &scope, &interface.init_writes);
    Ok(variables.either(boundary.either(writes)))
}

/// The first fault of methods, each of a name that doesn't stand before.
fn methods_fault<'a>(
    alloc: Global,
    tables: &Tables<'a>,
    pass: Pass,
    globals: Globals<'a, '_>,
    methods: &'a List<Sig>,
) -> Result<Option<Fault>, Memory>
    ensures { IfOk result (λ f. option_map fault_of f ≡ items.first_named (λ q. q.name)
        (λ seen q. items.sig_fault (tables_seen tables.now) (pass_of pass) (sig_setting globals.entry q) (items.twice_where (is_among q.name seen)) q) []
        (map sig_of methods.now)) }
{
    let mut seen = Index::new(alloc);
    for method in methods.as_slice() {
        let more = Flaws {
            twice: add_name(&mut seen, method.name.as_str())?,
            ..Flaws::none()
        };
        match method_fault(alloc, tables, pass, globals, more, method)? {
            Some(fault) => return Ok(Some(fault)),
            None => {}
        }
    }
    Ok(None)
}

/// The first fault of what its init ensures and of its methods.
fn parts_fault<'a, 's>(
    alloc: Global,
    tables: &Tables<'a>,
    pass: Pass,
    globals: Globals<'a, 's>,
    none: &'s Index<'a, Seen<'a>>,
    interface: &'a Interface,
) -> Result<Option<Fault>, Memory>
    requires { none.now ≡ [] }
    ensures { IfOk result (λ f. (sc : state.Scope) → SameLookups (globals_in globals.entry) sc → option_map fault_of f
        ≡ first_of (items.clause_fault (tables_seen tables.now) (pass_of pass) true sc (clause_of interface.now.init_ensures))
        (items.first_named (λ q. q.name)
        (λ seen q. items.sig_fault (tables_seen tables.now) (pass_of pass) (sig_setting globals.entry q) (items.twice_where (is_among q.name seen)) q) []
        (map sig_of interface.now.methods))) }
{
    let ensures_of_init = &interface.init_ensures;
    match clause_fault_in(
        alloc,
        tables,
        pass,
        true,
        globals.alone(none),
        ensures_of_init,
    )? {
        Some(fault) => Ok(Some(fault)),
        None => {
            let fault = methods_fault(alloc, tables, pass, globals, &interface.methods)?;
            Ok(fault)
        }
    }
}

/// The first fault of an interface, with what else is wrong at its place.
pub(crate) fn interface_fault<'a>(
    alloc: Global,
    tables: &Tables<'a>,
    pass: Pass,
    more: Flaws,
    interface: &'a Interface,
) -> Result<Option<Fault>, Memory>
    ensures { IfOk result (λ f. option_map fault_of f ≡ items.interface_fault (tables_seen tables.now) (pass_of pass) (flaws_of more) (interface_of interface.now)) }
{
    let none = Index::new(alloc);
    let mut own = Index::new(alloc);
    add_all(&mut own, &interface.globals, true)?;
    let globals = Globals {
        interface: &own,
        own: &none,
    };
    let flaws = flaws_of_interface(alloc, tables, globals, &none, interface)?;
    match more.either(flaws).fault(pass, interface.at) {
        Some(fault) => Ok(Some(fault)),
        None => {
            let fault = parts_fault(alloc, tables, pass, globals, &none, interface)?;
            Ok(fault)
        }
    }
}
