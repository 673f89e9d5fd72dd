//! The classes and the fields of a bundle by name, of each name the first.

ghost use Rattle.std.specs.Prelude.{◌≡◌, ◌+◌, ◌∷◌, [], ◌++◌, List as Listed, map, IfOk, OnOk};
ghost use Rattle.rel_lang.specs.State.{class_items, fields_of};
ghost use Rattle.rel_lang.specs.Syntax.{Word};
ghost use Rattle.rel_lang.specs.View.{item_of, class_of};
ghost use Rattle.rel_types.specs.ByName.{AreByName, Adds, IsFieldSeen, AreNumbered, AreCounted, class_names};

use rel_flaws::index::Index;
use rel_flaws::scope::SeenField;
use rel_flaws::types::Type;
use rel_lang::bundle::{Class, Item};
use rel_list::{List, Memory};
use std::alloc::Global;

/// The next number. Memory holds no bundle of 2^32 classes.
fn next(count: u32) -> Result<u32, Memory>
    ensures { IfOk result (λ n. n ≡ count + 1) }
{
    match count.checked_add(1) {
        Some(next) => Ok(next),
        None => Err(Memory),
    }
}

/// Adds the item where it is a class, unless its name is there, with the number of classes that stand before. Gives that of those so far.
fn add_class<'a>(classes: &mut Index<'a, u32>, count: u32, item: &'a Item) -> Result<u32, Memory>
    ensures { IfOk result (λ n. (names : Listed Word) → AreCounted names classes.old count → AreCounted (names ++ class_names (item_of item.now ∷ [])) classes.new n) }
{
    match item {
        Item::Class(class) => {
            let after = next(count)?;
            classes.insert(class.name.as_str(), count)?;
            Ok(after)
        }
        _ => Ok(count),
    }
}

/// The classes, each with its place among all of them.
pub(crate) fn classes_by_name<'a>(
    alloc: Global,
    items: &'a List<Item>,
) -> Result<Index<'a, u32>, Memory>
    ensures { IfOk result (λ es. AreNumbered (class_names (map item_of items.now)) es) }
{
    let mut classes = Index::new(alloc);
    let mut count = 0;
    for item in items.as_slice() {
        count = add_class(&mut classes, count, item)?;
    }
    Ok(classes)
}

/// Adds the fields of a class, each unless its name is there.
fn add_fields<'a>(fields: &mut Index<'a, SeenField<'a>>, class: &'a Class) -> Result<(), Memory>
    ensures { OnOk result (Adds IsFieldSeen (λ d. d.name) fields.old fields.new (fields_of (class_of class.now ∷ []))) }
{
    for field in class.fields.as_slice() {
        let seen = SeenField {
            class: class.name.as_str(),
            ty: Type::of(&field.ty),
        };
        fields.insert(field.name.as_str(), seen)?;
    }
    Ok(())
}

/// Adds the fields of the item where it is a class.
fn add_fields_of<'a>(fields: &mut Index<'a, SeenField<'a>>, item: &'a Item) -> Result<(), Memory>
    ensures { OnOk result (Adds IsFieldSeen (λ d. d.name) fields.old fields.new (fields_of (class_items (item_of item.now ∷ [])))) }
{
    if let Item::Class(class) = item {
        add_fields(fields, class)?;
    }
    Ok(())
}

pub(crate) fn fields_by_name<'a>(
    alloc: Global,
    items: &'a List<Item>,
) -> Result<Index<'a, SeenField<'a>>, Memory>
    ensures { IfOk result (λ es. AreByName IsFieldSeen (λ d. d.name) (fields_of (class_items (map item_of items.now))) es) }
{
    let mut fields = Index::new(alloc);
    for item in items.as_slice() {
        add_fields_of(&mut fields, item)?;
    }
    Ok(fields)
}
