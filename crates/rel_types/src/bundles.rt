//! The first fault of a bundle.

ghost use Rattle.std.specs.Prelude.{◌≡◌, ◌++◌, [], map, option_map, IfOk, OnOk};
ghost use Rattle.rel_flaws.specs.View.{flaws_of, fault_of, pass_of};
ghost use Rattle.rel_lang.specs.Syntax as syntax;
ghost use Rattle.rel_lang.specs.Typed.{item_name};
ghost use Rattle.rel_lang.specs.View.{item_of, bundle_of};
ghost use Rattle.rel_types.specs.Items as definition;
ghost use Rattle.rel_types.specs.Known.{IsKnown};
ghost use Rattle.rel_types.specs.Lookups.{SameNames, names_in};

use crate::clients::client_fault;
use crate::interfaces::interface_fault;
use crate::items::class_fault;
use crate::judgements::judgement_fault;
use crate::known::Known;
use crate::modules::module_fault;
use crate::names::{add_name, is_named};
use crate::pairs::pair_fault;
use crate::units::unit_fault;
use rel_flaws::index::Index;
use rel_flaws::kind::{Fault, Flaws, Pass};
use rel_lang::bundle::{Bundle, Item};
use rel_list::{List, Memory};
use std::alloc::Global;

/// The name of an item.
pub fn name_of(item: &Item) -> &str
    ensures { result.now ≡ item_name (item_of item.now) }
{
    match item {
        Item::Class(class) => class.name.as_str(),
        Item::Interface(interface) => interface.name.as_str(),
        Item::Module(module) => module.name.as_str(),
        Item::UnitItem(unit) => unit.name.as_str(),
        Item::Client(client) => client.name.as_str(),
        Item::Judge(judgement) => judgement.name.as_str(),
        Item::Pair(pair) => pair.name.as_str(),
    }
}

/// That a name is declared again, where it is.
fn twice_where(holds: bool) -> Flaws
    ensures { flaws_of result ≡ definition.twice_where holds }
{
    Flaws {
        twice: holds,
        ..Flaws::none()
    }
}

/// The first fault of an item, with the names of the items and of the fields that stand before. Adds the item's fields.
fn item_fault<'a>(
    alloc: Global,
    known: &Known<'a>,
    pass: Pass,
    seen: &Index<'a, ()>,
    fields: &mut Index<'a, ()>,
    item: &'a Item,
) -> Result<Option<Fault>, Memory>
    ensures fault { IfOk result (λ f. (b : syntax.Bundle) → IsKnown b known.now
        → option_map fault_of f ≡ definition.item_fault b (pass_of pass) (names_in seen.now) (names_in fields.old) (item_of item.now)) }
    ensures added { OnOk result (SameNames (names_in fields.new) (definition.fields_of_item (item_of item.now) ++ names_in fields.old)) }
{
    let more = twice_where(is_named(seen, name_of(item)));
    match item {
        Item::Class(class) => Ok(class_fault(&known.tables, pass, fields, more, class)?),
        Item::Interface(interface) => {
            Ok(interface_fault(alloc, &known.tables, pass, more, interface)?)
        }
        Item::Module(module) => {
            let interface = known.interfaces.find(module.interface.as_str());
            Ok(module_fault(alloc, &known.tables, pass, more, interface, module)?)
        }
        Item::UnitItem(unit) => Ok(unit_fault(alloc, &known.tables, pass, more, unit)?),
        Item::Client(client) => {
            let interface = known.interfaces.find(client.interface.as_str());
            Ok(client_fault(alloc, &known.tables, pass, more, interface, client)?)
        }
        Item::Judge(judgement) => Ok(judgement_fault(alloc, known, pass, more, judgement)?),
        Item::Pair(pair) => Ok(pair_fault(alloc, known, pass, more, pair)?),
    }
}

/// The first fault of the items.
fn items_fault<'a>(
    alloc: Global,
    known: &Known<'a>,
    pass: Pass,
    items: &'a List<Item>,
) -> Result<Option<Fault>, Memory>
    ensures { IfOk result (λ f. (b : syntax.Bundle) → IsKnown b known.now
        → option_map fault_of f ≡ definition.items_fault b (pass_of pass) [] [] (map item_of items.now)) }
{
    let mut seen = Index::new(alloc);
    let mut fields = Index::new(alloc);
    for item in items.as_slice() {
        match item_fault(alloc, known, pass, &seen, &mut fields, item)? {
            Some(fault) => return Ok(Some(fault)),
            None => {}
        }
        add_name(&mut seen, name_of(item))?;
    }
    Ok(None)
}

/// The first name that is declared twice, else the first other fault.
pub(crate) fn first_fault<'a>(
    alloc: Global,
    known: &Known<'a>,
    bundle: &'a Bundle,
) -> Result<Option<Fault>, Memory>
    requires { IsKnown (bundle_of bundle.now) known.now }
    ensures { IfOk result (λ f. option_map fault_of f ≡ definition.first_fault (bundle_of bundle.now)) }
{
    match items_fault(alloc, known, Pass::ForTwice, &bundle.items)? {
        Some(fault) => Ok(Some(fault)),
        None => Ok(items_fault(alloc, known, Pass::ForOthers, &bundle.items)?),
    }
}
