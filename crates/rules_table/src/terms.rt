//! Terms and formulas of copied parts.
ghost use Rattle.std.specs.Prelude.{◌≡◌, IfOk};
ghost use Rattle.rel_logic.specs.View.{trm_of, fml_of};
ghost use Rattle.rel_logic.specs.Syntax.{sel, eq, is};

use rel_list::{Boxed, Memory, both};
use rel_logic::fol::Fol;
use rel_logic::term::Term;
use std::alloc::Global;

pub fn boxed(alloc: Global, t: &Term) -> Result<Boxed<Term>, Memory>
    ensures { IfOk result (λ b. b ≡ t.now) }
{
    Boxed::new(alloc, t.copy()?)
}

/// The value of a map at `a`.
pub fn selected(alloc: Global, m: Term, a: &Term) -> Result<Term, Memory>
    ensures { IfOk result (λ t. trm_of t ≡ sel (trm_of m) (trm_of a.now)) }
{
    let (m, a) = both(Boxed::new(alloc, m), boxed(alloc, a))?;
    Ok(Term::Sel(m, a))
}

pub fn equal(a: &Term, b: &Term) -> Result<Fol, Memory>
    ensures { IfOk result (λ f. fml_of f ≡ eq (trm_of a.now) (trm_of b.now)) }
{
    let (a, b) = both(a.copy(), b.copy())?;
    Ok(Fol::Eq(a, b))
}

pub fn of_class(c: u32, a: &Term) -> Result<Fol, Memory>
    ensures { IfOk result (λ f. fml_of f ≡ is c (trm_of a.now)) }
{
    Ok(Fol::Is(c, a.copy()?))
}
