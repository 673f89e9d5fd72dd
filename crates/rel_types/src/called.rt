//! Procedures and methods by name.

ghost use Rattle.std.specs.Prelude.{◌≡◌, ◌++◌, ◌∷◌, [], map, OnOk};
ghost use Rattle.rel_lang.specs.Typed.{signature_of_proc};
ghost use Rattle.rel_lang.specs.View.{proc_of};
ghost use Rattle.rel_flaws.specs.CodeView.{callees_seen};
ghost use Rattle.rel_types.specs.Called.{SameCallees};

use rel_flaws::code::Callee;
use rel_flaws::index::Index;
use rel_flaws::types::Type;
use rel_lang::bundle::Proc;
use rel_list::{List, Memory};

/// Adds a procedure, unless its name is there.
fn add_proc<'a>(callees: &mut Index<'a, Callee<'a>>, proc: &'a Proc) -> Result<(), Memory>
    ensures { OnOk result (SameCallees (callees_seen callees.new) (callees_seen callees.old ++ signature_of_proc (proc_of proc.now) ∷ [])) }
{
    let callee = Callee {
        params: &proc.params,
        result: Type::of(&proc.result),
    };
    callees.insert(proc.name.as_str(), callee)?;
    Ok(())
}

/// Adds procedures, each unless its name is there.
pub(crate) fn add_procs<'a>(
    callees: &mut Index<'a, Callee<'a>>,
    procs: &'a List<Proc>,
) -> Result<(), Memory>
    ensures { OnOk result (SameCallees (callees_seen callees.new) (callees_seen callees.old ++ map (λ q. signature_of_proc (proc_of q)) procs.now)) }
{
    for proc in procs.as_slice() {
        add_proc(callees, proc)?;
    }
    Ok(())
}
