//! What declarations add to what a place can see.

ghost use Rattle.std.specs.Prelude.{◌≡◌, ◌++◌, ◌∷◌, [], map, OnOk, IfOk, Some, true, false};
ghost use Rattle.rel_lang.specs.Scope.{declared, result_variable};
ghost use Rattle.rel_lang.specs.State.{ByCall, ByQuantifier};
ghost use Rattle.rel_flaws.specs.View.{type_seen, variables_seen};
ghost use Rattle.rel_lang.specs.View.{decl_of};
ghost use Rattle.rel_types.specs.Lookups.{SameLookups};

use rel_flaws::index::Index;
use rel_flaws::scope::Seen;
use rel_flaws::types::Type;
use rel_lang::bundle::Decl;
use rel_list::{List, Memory};

/// Adds a declared variable, unless its name is there.
fn add<'a>(
    index: &mut Index<'a, Seen<'a>>,
    decl: &'a Decl,
    is_assignable: bool,
) -> Result<(), Memory>
    ensures { OnOk result (SameLookups (variables_seen index.new)
        (variables_seen index.old ++ declared ByQuantifier is_assignable (decl_of decl.now ∷ []))) }
{
    let seen = Seen {
        ty: Type::of(&decl.ty),
        is_assignable,
    };
    index.insert(decl.name.as_str(), seen)?;
    Ok(())
}

/// Adds declared variables, each unless its name is there.
pub(crate) fn add_all<'a>(
    index: &mut Index<'a, Seen<'a>>,
    decls: &'a List<Decl>,
    is_assignable: bool,
) -> Result<(), Memory>
    ensures { OnOk result (SameLookups (variables_seen index.new)
        (variables_seen index.old ++ declared ByQuantifier is_assignable (map decl_of decls.now))) }
{
    for decl in decls.as_slice() {
        add(index, decl, is_assignable)?;
    }
    Ok(())
}

/// Adds `result`, of this type.
pub(crate) fn add_result<'a>(own: &mut Index<'a, Seen<'a>>, ty: Type<'a>) -> Result<(), Memory>
    ensures { OnOk result (SameLookups (variables_seen own.new) (variables_seen own.old ++ result_variable (Some (type_seen ty.entry)))) }
{
    let seen = Seen {
        ty,
        is_assignable: true,
    };
    own.insert("result", seen)?;
    Ok(())
}
