//! The methods of an interface: what calls need of them by name, and their names in order.

ghost use Rattle.std.specs.Prelude.{◌≡◌, ◌++◌, ◌∷◌, [], map, OnOk, IfOk};
ghost use Rattle.rel_lang.specs.Typed.{signature_of_method};
ghost use Rattle.rel_lang.specs.View.{sig_of};
ghost use Rattle.rel_flaws.specs.CodeView.{callees_seen};
ghost use Rattle.rel_types.specs.Called.{SameCallees};

use rel_flaws::code::Callee;
use rel_flaws::index::Index;
use rel_flaws::types::Type;
use rel_lang::bundle::Sig;
use rel_list::{List, Memory};
use std::alloc::Global;

/// Adds a method, unless its name is there.
fn add_method<'a>(callees: &mut Index<'a, Callee<'a>>, method: &'a Sig) -> Result<(), Memory>
    ensures { OnOk result (SameCallees (callees_seen callees.new) (callees_seen callees.old ++ signature_of_method (sig_of method.now) ∷ [])) }
{
    let callee = Callee {
        params: &method.params,
        result: Type::of(&method.result),
    };
    callees.insert(method.name.as_str(), callee)?;
    Ok(())
}

/// Adds methods, each unless its name is there.
pub(crate) fn add_methods<'a>(
    callees: &mut Index<'a, Callee<'a>>,
    methods: &'a List<Sig>,
) -> Result<(), Memory>
    ensures { OnOk result (SameCallees (callees_seen callees.new) (callees_seen callees.old ++ map (λ q. signature_of_method (sig_of q)) methods.now)) }
{
    for method in methods.as_slice() {
        add_method(callees, method)?;
    }
    Ok(())
}

/// The names of the methods, in order.
pub(crate) fn method_names<'a>(
    alloc: Global,
    methods: &'a List<Sig>,
) -> Result<Vec<&'a str>, Memory>
    ensures { IfOk result (λ names. map (λ n. n.now) names.items ≡ map (λ q. q.name) methods.now) }
{
    let mut names = Vec::new(alloc);
    for method in methods.as_slice() {
        names.push(method.name.as_str())?;
    }
    Ok(names)
}
