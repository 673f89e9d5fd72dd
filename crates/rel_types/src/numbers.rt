//! The classes and the fields of a bundle in order of declaration.

ghost use Rattle.std.specs.Prelude.{◌≡◌, ◌++◌, ◌∷◌, [], map, IfOk, OnOk, IfSome, IfNone, true};
ghost use Rattle.rel_lang.specs.State.{tables_of, class_items, class_number};
ghost use Rattle.rel_lang.specs.View.{bundle_of, decl_of, item_of};
ghost use Rattle.rel_lang.specs.declared.bundle.Item.TheVariants as items;
ghost use Rattle.rel_flaws.specs.Inference.{is_class};
ghost use Rattle.rel_types.specs.Known.{IsKnown};
ghost use Rattle.rel_types.specs.Numbers.{AreClasses, AreFields, field_infos, infos_of_class};
ghost use Rattle.rel_lang.specs.Syntax as syntax;

use crate::known::Known;
use rel_lang::bundle::{Bundle, Class, Decl, Item};
use rel_lang::typed::FieldInfo;
use rel_list::{List, Memory, Name, both};
use std::alloc::Global;

/// The names of the classes, and the fields with the numbers of their classes.
#[derive(Drop)]
pub(crate) struct Numbers {
    pub classes: List<Name>,
    pub fields: List<FieldInfo>,
}

/// The field of the class of this number.
fn info_of(class: u32, decl: &Decl) -> Result<FieldInfo, Memory>
    ensures { IfOk result (λ f. field_infos (f ∷ []) ≡ infos_of_class class (decl_of decl.now ∷ [])) }
{
    let (name, ty) = both(decl.name.copy(), decl.ty.copy())?;
    Ok(FieldInfo { name, class, ty })
}

/// Adds the fields of the class of this number.
fn add_fields(fields: &mut List<FieldInfo>, number: u32, decls: &List<Decl>) -> Result<(), Memory>
    ensures { OnOk result (field_infos fields.new ≡ field_infos fields.old ++ infos_of_class number (map decl_of decls.now)) }
{
    for decl in decls.as_slice() {
        fields.push(info_of(number, decl)?)?;
    }
    Ok(())
}

/// The number of a class of the bundle.
fn number_of(known: &Known<'_>, class: &str) -> u32
    requires { (b : syntax.Bundle) × IsKnown b known.now × (is_class (tables_of b) class.now ≡ true) }
    ensures { (b : syntax.Bundle) → IsKnown b known.now → result ≡ class_number (tables_of b) class.now }
{
    match known.tables.classes.get(class) {
        Some(number) => number,
        None => 0,
    }
}

/// The class that an item is, where it is one.
fn class_in(item: &Item) -> Option<&Class>
    ensures some { IfSome result (λ c. item.now ≡ items.Class c.now) }
    ensures none { IfNone result (class_items (item_of item.now ∷ []) ≡ []) }
{
    match item {
        Item::Class(class) => Some(class),
        Item::Interface(_)
        | Item::Module(_)
        | Item::UnitItem(_)
        | Item::Client(_)
        | Item::Judge(_)
        | Item::Pair(_) => None,
    }
}

/// The classes and the fields of the bundle.
pub(crate) fn numbers_of<'a>(
    alloc: Global,
    known: &Known<'a>,
    bundle: &'a Bundle,
) -> Result<Numbers, Memory>
    requires { IsKnown (bundle_of bundle.now) known.now }
    ensures classes { IfOk result (λ n. AreClasses (bundle_of bundle.now) n.classes) }
    ensures fields { IfOk result (λ n. AreFields (bundle_of bundle.now) n.fields) }
{
    let mut classes = List::new(alloc);
    let mut fields = List::new(alloc);
    for item in bundle.items.as_slice() {
        match class_in(item) {
            Some(class) => {
                classes.push(class.name.copy()?)?;
                let number = number_of(known, class.name.as_str());
                add_fields(&mut fields, number, &class.fields)?;
            }
            None => {}
        }
    }
    Ok(Numbers { classes, fields })
}
