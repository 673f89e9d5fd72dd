//! The items of each kind by name, of each name the first.

ghost use Rattle.std.specs.Prelude.{◌∷◌, [], map, IfOk, OnOk};
ghost use Rattle.rel_lang.specs.Lookup.{interfaces_of, units_of, modules_of, judgements_of};
ghost use Rattle.rel_lang.specs.View.{item_of};
ghost use Rattle.rel_types.specs.ByName.{AreByName, Adds, IsAbout};
ghost use Rattle.rel_types.specs.Known.{IsInterfaceSeen, IsUnitSeen, IsModuleSeen};

use crate::known::{InterfaceSeen, ModuleSeen, UnitSeen, interface_seen, module_seen, unit_seen};
use rel_flaws::index::Index;
use rel_flaws::sides::Subjects;
use rel_lang::bundle::Item;
use rel_list::{List, Memory};
use std::alloc::Global;

/// Adds the item where it is an interface, unless its name is there.
fn add_interface<'a>(
    alloc: Global,
    interfaces: &mut Index<'a, InterfaceSeen<'a>>,
    item: &'a Item,
) -> Result<(), Memory>
    ensures { OnOk result (Adds IsInterfaceSeen (λ i. i.name) interfaces.old interfaces.new (interfaces_of (item_of item.now ∷ []))) }
{
    if let Item::Interface(interface) = item {
        let seen = interface_seen(alloc, interface)?;
        interfaces.insert(interface.name.as_str(), seen)?;
    }
    Ok(())
}

pub(crate) fn interfaces_by_name<'a>(
    alloc: Global,
    items: &'a List<Item>,
) -> Result<Index<'a, InterfaceSeen<'a>>, Memory>
    ensures { IfOk result (λ es. AreByName IsInterfaceSeen (λ i. i.name) (interfaces_of (map item_of items.now)) es) }
{
    let mut interfaces = Index::new(alloc);
    for item in items.as_slice() {
        add_interface(alloc, &mut interfaces, item)?;
    }
    Ok(interfaces)
}

/// Adds the item where it is a unit, unless its name is there.
fn add_unit<'a>(
    alloc: Global,
    units: &mut Index<'a, UnitSeen<'a>>,
    item: &'a Item,
) -> Result<(), Memory>
    ensures { OnOk result (Adds IsUnitSeen (λ u. u.name) units.old units.new (units_of (item_of item.now ∷ []))) }
{
    if let Item::UnitItem(unit) = item {
        let seen = unit_seen(alloc, unit)?;
        units.insert(unit.name.as_str(), seen)?;
    }
    Ok(())
}

pub(crate) fn units_by_name<'a>(
    alloc: Global,
    items: &'a List<Item>,
) -> Result<Index<'a, UnitSeen<'a>>, Memory>
    ensures { IfOk result (λ es. AreByName IsUnitSeen (λ u. u.name) (units_of (map item_of items.now)) es) }
{
    let mut units = Index::new(alloc);
    for item in items.as_slice() {
        add_unit(alloc, &mut units, item)?;
    }
    Ok(units)
}

/// Adds the item where it is a module, unless its name is there.
fn add_module<'a>(
    alloc: Global,
    modules: &mut Index<'a, ModuleSeen<'a>>,
    item: &'a Item,
) -> Result<(), Memory>
    ensures { OnOk result (Adds IsModuleSeen (λ m. m.name) modules.old modules.new (modules_of (item_of item.now ∷ []))) }
{
    if let Item::Module(found) = item {
        let seen = module_seen(alloc, found)?;
        modules.insert(found.name.as_str(), seen)?;
    }
    Ok(())
}

pub(crate) fn modules_by_name<'a>(
    alloc: Global,
    items: &'a List<Item>,
) -> Result<Index<'a, ModuleSeen<'a>>, Memory>
    ensures { IfOk result (λ es. AreByName IsModuleSeen (λ m. m.name) (modules_of (map item_of items.now)) es) }
{
    let mut modules = Index::new(alloc);
    for item in items.as_slice() {
        add_module(alloc, &mut modules, item)?;
    }
    Ok(modules)
}

/// Adds the item where it is a judgement, unless its name is there.
fn add_judgement<'a>(judgements: &mut Index<'a, Subjects<'a>>, item: &'a Item) -> Result<(), Memory>
    ensures { OnOk result (Adds IsAbout (λ j. j.name) judgements.old judgements.new (judgements_of (item_of item.now ∷ []))) }
{
    if let Item::Judge(judgement) = item {
        let (left, right) = (&judgement.left, &judgement.right);
        let subjects = Subjects {
            left: (left.0.as_str(), left.1.as_str()),
            right: (right.0.as_str(), right.1.as_str()),
        };
        judgements.insert(judgement.name.as_str(), subjects)?;
    }
    Ok(())
}

pub(crate) fn judgements_by_name<'a>(
    alloc: Global,
    items: &'a List<Item>,
) -> Result<Index<'a, Subjects<'a>>, Memory>
    ensures { IfOk result (λ es. AreByName IsAbout (λ j. j.name) (judgements_of (map item_of items.now)) es) }
{
    let mut judgements = Index::new(alloc);
    for item in items.as_slice() {
        add_judgement(&mut judgements, item)?;
    }
    Ok(judgements)
}
