//! The words of an item.

ghost use Rattle.std.specs.Prelude.{◌≡◌, ◌<◌, length, map, IfOk};
ghost use Rattle.rel_lang.specs.Typed.{item_name};
ghost use Rattle.rel_lang.specs.View.{item_of};
ghost use Rattle.rel_report.specs.Lines as definition;

use rel_lang::bundle::Item;
use rel_list::{List, Memory, Name};
use std::alloc::Global;

/// The first word of the item.
fn kind(item: &Item) -> &'static str
    ensures { result.now ≡ definition.kind_of (item_of item.now) }
{
    match item {
        Item::Class(_) => "class",
        Item::Interface(_) => "interface",
        Item::Module(_) => "module",
        Item::UnitItem(_) => "unit",
        Item::Client(_) => "client",
        Item::Judge(_) => "judge",
        Item::Pair(_) => "pair",
    }
}

/// The name of the item.
fn name_of(item: &Item) -> &str
    ensures { result.now ≡ item_name (item_of item.now) }
{
    match item {
        Item::Class(class) => class.name.as_str(),
        Item::Interface(interface) => interface.name.as_str(),
        Item::Module(module) => module.name.as_str(),
        Item::UnitItem(unit) => unit.name.as_str(),
        Item::Client(client) => client.name.as_str(),
        Item::Judge(judgement) => judgement.name.as_str(),
        Item::Pair(pair) => pair.name.as_str(),
    }
}

/// `KIND NAME`.
pub(crate) fn words(alloc: Global, item: &Item) -> Result<Name, Memory>
    ensures { IfOk result (λ text. text ≡ definition.words_of (item_of item.now)) }
{
    let (kind, name) = (kind(item), name_of(item));
    let text = format!(in alloc; "{kind} {name}")?;
    Ok(Name { text })
}

/// The words of the item of this number.
#[tactic(auto, using(crate::proofs::Counted::words_at_number))]
pub(crate) fn words_at(alloc: Global, items: &List<Item>, number: u32) -> Result<Name, Memory>
    requires { number < length items.now }
    ensures { IfOk result (λ text. text ≡ definition.words_at (map item_of items.now) number) }
{
    words(alloc, items.at(number as usize))
}
