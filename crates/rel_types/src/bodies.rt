//! What procedures and the bodies of a module have of their own, by name.

ghost use Rattle.std.specs.Prelude.{◌∷◌, [], map, OnOk};
ghost use Rattle.rel_lang.specs.View.{proc_of, body_of};
ghost use Rattle.rel_types.specs.ByName.{Adds, AreLocals};
ghost use Rattle.rel_types.specs.Known.{IsProcSeen};

use crate::own::Own;
use rel_flaws::index::Index;
use rel_lang::bundle::{Body, Decl, Proc};
use rel_list::{List, Memory, Name};

/// Adds what a procedure has of its own, unless its name is there.
fn add_own<'a>(bodies: &mut Index<'a, Own<'a>>, proc: &'a Proc) -> Result<(), Memory>
    ensures { OnOk result (Adds IsProcSeen (λ q. q.name) bodies.old bodies.new (proc_of proc.now ∷ [])) }
{
    bodies.insert(proc.name.as_str(), Own::of_proc(proc))?;
    Ok(())
}

/// Adds what each procedure has of its own, unless its name is there.
pub(crate) fn add_owns<'a>(
    bodies: &mut Index<'a, Own<'a>>,
    procs: &'a List<Proc>,
) -> Result<(), Memory>
    ensures { OnOk result (Adds IsProcSeen (λ q. q.name) bodies.old bodies.new (map proc_of procs.now)) }
{
    for proc in procs.as_slice() {
        add_own(bodies, proc)?;
    }
    Ok(())
}

/// Adds the locals of the body of each method, unless its name is there.
pub(crate) fn add_locals<'a>(
    bodies: &mut Index<'a, &'a List<Decl>>,
    methods: &'a List<(Name, Body)>,
) -> Result<(), Memory>
    ensures { OnOk result (Adds AreLocals (λ b. b.0) bodies.old bodies.new (map (λ p. (p.0, body_of p.1)) methods.now)) }
{
    for (name, body) in methods.as_slice() {
        bodies.insert(name.as_str(), &body.locals)?;
    }
    Ok(())
}
