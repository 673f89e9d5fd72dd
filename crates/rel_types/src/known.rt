//! What is known of the items that others name.

ghost use Rattle.std.specs.Prelude.{◌≡◌, IfOk, option_map};
ghost use Rattle.rel_lang.specs.View.{bundle_of, interface_of, unit_of, module_of};
ghost use Rattle.rel_types.specs.Known.{IsKnown, IsInterfaceSeen, IsUnitSeen, IsModuleSeen};

use crate::bodies::{add_locals, add_owns};
use crate::by_name::{interfaces_by_name, judgements_by_name, modules_by_name, units_by_name};
use crate::called::add_procs;
use crate::classes::{classes_by_name, fields_by_name};
use crate::declarations::add_all;
use crate::methods::{add_methods, method_names};
use crate::own::Own;
use rel_flaws::code::Callee;
use rel_flaws::index::Index;
use rel_flaws::scope::{Seen, Tables};
use rel_flaws::sides::Subjects;
use rel_lang::bundle::{Bundle, Decl, Interface, Module, UnitItem};
use rel_list::{List, Memory};
use std::alloc::Global;

/// What an interface gives to modules and clients: its globals, its methods by name, and their names in order.
#[derive(Drop)]
pub(crate) struct InterfaceSeen<'a> {
    pub globals: Index<'a, Seen<'a>>,
    pub methods: Index<'a, Callee<'a>>,
    pub names: Vec<&'a str>,
}

/// What a judgement needs to know of a unit: its globals, and its procedures by name.
#[derive(Drop)]
pub(crate) struct UnitSeen<'a> {
    pub globals: Index<'a, Seen<'a>>,
    pub procs: Index<'a, Callee<'a>>,
    pub bodies: Index<'a, Own<'a>>,
}

/// What a pair needs to know of a module: its interface, its globals, and the locals of its init and of its methods by name.
#[derive(Drop)]
pub(crate) struct ModuleSeen<'a> {
    pub interface: &'a str,
    pub globals: Index<'a, Seen<'a>>,
    pub init: &'a List<Decl>,
    pub bodies: Index<'a, &'a List<Decl>>,
}

/// The classes, the fields and the items of a bundle by name, of each name the first.
#[derive(Drop)]
pub(crate) struct Known<'a> {
    pub tables: Tables<'a>,
    pub interfaces: Index<'a, InterfaceSeen<'a>>,
    pub units: Index<'a, UnitSeen<'a>>,
    pub modules: Index<'a, ModuleSeen<'a>>,
    pub judgements: Index<'a, Subjects<'a>>,
}

/// What others need to know of an interface.
pub(crate) fn interface_seen<'a>(
    alloc: Global,
    interface: &'a Interface,
) -> Result<InterfaceSeen<'a>, Memory>
    ensures { IfOk result (λ s. IsInterfaceSeen (interface_of interface.now) s) }
{
    let mut globals = Index::new(alloc);
    add_all(&mut globals, &interface.globals, true)?;
    let mut methods = Index::new(alloc);
    add_methods(&mut methods, &interface.methods)?;
    let names = method_names(alloc, &interface.methods)?;
    Ok(InterfaceSeen {
        globals,
        methods,
        names,
    })
}

/// What others need to know of a unit.
pub(crate) fn unit_seen<'a>(alloc: Global, unit: &'a UnitItem) -> Result<UnitSeen<'a>, Memory>
    ensures { IfOk result (λ s. IsUnitSeen (unit_of unit.now) s) }
{
    let mut globals = Index::new(alloc);
    add_all(&mut globals, &unit.globals, true)?;
    let mut procs = Index::new(alloc);
    add_procs(&mut procs, &unit.procs)?;
    let mut bodies = Index::new(alloc);
    add_owns(&mut bodies, &unit.procs)?;
    Ok(UnitSeen {
        globals,
        procs,
        bodies,
    })
}

/// What others need to know of a module.
pub(crate) fn module_seen<'a>(alloc: Global, item: &'a Module) -> Result<ModuleSeen<'a>, Memory>
    ensures { IfOk result (λ s. IsModuleSeen (module_of item.now) s) }
{
    let mut globals = Index::new(alloc);
    add_all(&mut globals, &item.globals, true)?;
    let mut bodies = Index::new(alloc);
    add_locals(&mut bodies, &item.methods)?;
    Ok(ModuleSeen {
        interface: item.interface.as_str(),
        globals,
        init: &item.init.locals,
        bodies,
    })
}

/// What the bundle has by name.
pub(crate) fn known_of<'a>(alloc: Global, bundle: &'a Bundle) -> Result<Known<'a>, Memory>
    ensures { IfOk result (λ k. IsKnown (bundle_of bundle.now) k) }
{
    let classes = classes_by_name(alloc, &bundle.items)?;
    let fields = fields_by_name(alloc, &bundle.items)?;
    let interfaces = interfaces_by_name(alloc, &bundle.items)?;
    let units = units_by_name(alloc, &bundle.items)?;
    let modules = modules_by_name(alloc, &bundle.items)?;
    let judgements = judgements_by_name(alloc, &bundle.items)?;
    Ok(Known {
        tables: Tables { classes, fields },
        interfaces,
        units,
        modules,
        judgements,
    })
}
