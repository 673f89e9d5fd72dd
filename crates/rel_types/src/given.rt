//! What an interface gives to modules and clients, where it is there.

ghost use Rattle.std.specs.Prelude.{◌≡◌, Option, map, IfOk};
ghost use Rattle.rel_flaws.specs.View.{tables_seen, flaws_of};
ghost use Rattle.rel_lang.specs.Lookup.{find_method};
ghost use Rattle.rel_lang.specs.Syntax as syntax;
ghost use Rattle.rel_lang.specs.View.{decl_of};
ghost use Rattle.rel_types.specs.Items as items;
ghost use Rattle.rel_types.specs.Items.{setting_in_module, methods_of_interface};
ghost use Rattle.rel_types.specs.ModuleView.{IsNoInterface, IsGiven, HasOwn};

use crate::around::Globals;
use crate::items::flaws_of_globals;
use crate::known::InterfaceSeen;
use crate::own::Own;
use rel_flaws::index::Index;
use rel_flaws::kind::Flaws;
use rel_flaws::scope::Tables;
use rel_lang::bundle::Decl;
use rel_list::{List, Memory};
use std::alloc::Global;

/// What no interface gives.
pub(crate) fn no_interface<'a>(alloc: Global) -> InterfaceSeen<'a>
    ensures { IsNoInterface result }
{
    InterfaceSeen {
        globals: Index::new(alloc),
        methods: Index::new(alloc),
        names: Vec::new(alloc),
    }
}

/// The variables of a body for the method of this name. One for no method has no parameters and no result.
pub(crate) fn own_of_method<'a>(
    interface: &InterfaceSeen<'a>,
    name: &str,
    locals: &'a List<Decl>,
) -> Own<'a>
    ensures { (i : Option syntax.Interface) (m : syntax.Module) → IsGiven i interface.now
        → HasOwn (setting_in_module i m (map decl_of locals.now) (find_method name.now (methods_of_interface i))) result }
{
    match interface.methods.get(name) {
        Some(method) => Own {
            params: Some(method.params),
            locals: Some(locals),
            result: Some(method.result),
        },
        None => Own {
            params: None,
            locals: Some(locals),
            result: None,
        },
    }
}

/// What the variables that an item declares have wrong, behind those of the interface.
pub(crate) fn flaws_of_declared<'a, 's>(
    alloc: Global,
    tables: &Tables<'a>,
    none: &'s InterfaceSeen<'a>,
    given: &'s InterfaceSeen<'a>,
    decls: &'a List<Decl>,
) -> Result<Flaws, Memory>
    requires { IsNoInterface none.now }
    ensures { IfOk result (λ f. (i : Option syntax.Interface) → IsGiven i given.now
        → flaws_of f ≡ items.flaws_of_globals (tables_seen tables.now) (items.globals_of_interface i) (map decl_of decls.now)) }
{
    let before = Globals {
        interface: &given.globals,
        own: &none.globals,
    };
    let flaws = flaws_of_globals(alloc, tables, before, decls)?;
    Ok(flaws)
}
