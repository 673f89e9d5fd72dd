//! Names that stand before, and those that are declared again.

ghost use Rattle.std.specs.Prelude.{◌≡◌, ◌++◌, ◌∷◌, [], map, OnOk, IfOk};
ghost use Rattle.rel_lang.specs.View.{decl_of};
ghost use Rattle.rel_flaws.specs.Inference.{is_among, is_in_scope};
ghost use Rattle.rel_types.specs.Items.{repeats, declared_names};
ghost use Rattle.rel_types.specs.Lookups.{SameNames, names_in};
ghost use Rattle.rel_types.specs.OwnView.{globals_in, names_before};

use crate::around::Globals;
use rel_flaws::index::Index;
use rel_lang::bundle::Decl;
use rel_list::{List, Memory};

/// Whether the name is among these.
#[tactic(auto, using(rel_flaws::proofs::Indexes::indexes))]
pub(crate) fn is_named(names: &Index<'_, ()>, name: &str) -> bool
    ensures { result ≡ is_among name.now (names_in names.now) }
{
    names.get(name).is_some()
}

/// Adds a name, and whether it was there.
pub(crate) fn add_name<'a>(names: &mut Index<'a, ()>, name: &'a str) -> Result<bool, Memory>
    ensures was_there { IfOk result (λ r. r ≡ is_among name.now (names_in names.old)) }
    ensures added { OnOk result (SameNames (names_in names.new) (name.now ∷ names_in names.old)) }
{
    let was_there = is_named(names, name);
    names.insert(name, ())?;
    Ok(was_there)
}

/// Whether a global has the name.
pub(crate) fn is_global(globals: Globals<'_, '_>, name: &str) -> bool
    ensures { result ≡ is_in_scope name.now (globals_in globals.entry) }
{
    globals.interface.has(name) | globals.own.has(name)
}

/// Whether the name may not be declared, where some may not: it is `result`, or that of a global.
#[tactic(auto, using(crate::proofs::Repeats::named_in))]
fn is_before(before: Option<Globals<'_, '_>>, name: &str) -> bool
    ensures { result ≡ is_among name.now (names_before before.entry) }
{
    match before {
        Some(globals) => name == "result" || is_global(globals, name),
        None => false,
    }
}

/// Whether a declaration has a name that stands before it, or is one of `before` or `own`. Adds the names to `own`.
pub(crate) fn add_names<'a>(
    before: Option<Globals<'a, '_>>,
    own: &mut Index<'a, ()>,
    decls: &'a List<Decl>,
) -> Result<bool, Memory>
    ensures repeated { IfOk result (λ r. r ≡ repeats (names_in own.old ++ names_before before.entry) (declared_names (map decl_of decls.now))) }
    ensures added { OnOk result (SameNames (names_in own.new) (declared_names (map decl_of decls.now) ++ names_in own.old)) }
{
    let mut repeated = false;
    for decl in decls.as_slice() {
        let name = decl.name.as_str();
        let was_there = add_name(own, name)?;
        repeated = repeated | (was_there | is_before(before, name));
    }
    Ok(repeated)
}
