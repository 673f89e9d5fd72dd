//! Terms and formulas of copied parts.
ghost use Rattle.std.specs.Prelude.{◌≡◌, IfOk};
ghost use Rattle.rel_logic.specs.View.{trm_of, fml_of};
ghost use Rattle.rel_logic.specs.Syntax.{ref_sort, bound, sto, link, paired, ext, no, and, imp, every};
ghost use Rattle.rules_eq.specs.Table.{iff, linkable};

use rel_list::{Boxed, Memory, both};
use rel_logic::fol::Fol;
use rel_logic::term::{Sort, Term};
use rules_table::terms::{boxed, of_class};
use std::alloc::Global;

/// The map with `v` at `a`.
pub fn stored(alloc: Global, m: &Term, a: &Term, v: &Term) -> Result<Term, Memory>
    ensures { IfOk result (λ t. trm_of t ≡ sto (trm_of m.now) (trm_of a.now) (trm_of v.now)) }
{
    let (m, (a, v)) = both(boxed(alloc, m), both(boxed(alloc, a), boxed(alloc, v)))?;
    Ok(Term::Sto(m, a, v))
}

/// The bijection with a pair of `a` and `b`, where they can be linked.
pub fn linked(alloc: Global, p: &Term, a: &Term, b: &Term) -> Result<Term, Memory>
    ensures { IfOk result (λ t. trm_of t ≡ link (trm_of p.now) (trm_of a.now) (trm_of b.now)) }
{
    let (p, (a, b)) = both(boxed(alloc, p), both(boxed(alloc, a), boxed(alloc, b)))?;
    Ok(Term::Link(p, a, b))
}

pub fn partners(p: &Term, a: &Term, b: &Term) -> Result<Fol, Memory>
    ensures { IfOk result (λ f. fml_of f ≡ paired (trm_of p.now) (trm_of a.now) (trm_of b.now)) }
{
    let (p, (a, b)) = both(p.copy(), both(a.copy(), b.copy()))?;
    Ok(Fol::Paired(p, a, b))
}

pub fn extends(p: &Term, q: &Term) -> Result<Fol, Memory>
    ensures { IfOk result (λ f. fml_of f ≡ ext (trm_of p.now) (trm_of q.now)) }
{
    let (p, q) = both(p.copy(), q.copy())?;
    Ok(Fol::Ext(p, q))
}

pub fn implies(alloc: Global, f: Fol, g: Fol) -> Result<Fol, Memory>
    ensures { IfOk result (λ h. fml_of h ≡ imp (fml_of f) (fml_of g)) }
{
    let (f, g) = both(Boxed::new(alloc, f), Boxed::new(alloc, g))?;
    Ok(Fol::Imp(f, g))
}

fn conjunction(alloc: Global, f: Fol, g: Fol) -> Result<Fol, Memory>
    ensures { IfOk result (λ h. fml_of h ≡ and (fml_of f) (fml_of g)) }
{
    let (f, g) = both(Boxed::new(alloc, f), Boxed::new(alloc, g))?;
    Ok(Fol::And(f, g))
}

fn implies_copied(alloc: Global, f: &Fol, g: &Fol) -> Result<Fol, Memory>
    ensures { IfOk result (λ h. fml_of h ≡ imp (fml_of f.now) (fml_of g.now)) }
{
    let (f, g) = both(f.copy(), g.copy())?;
    implies(alloc, f, g)
}

/// Each of the two implies the other.
pub fn both_ways(alloc: Global, f: &Fol, g: &Fol) -> Result<Fol, Memory>
    ensures { IfOk result (λ h. fml_of h ≡ iff (fml_of f.now) (fml_of g.now)) }
{
    let (there, back) = both(implies_copied(alloc, f, g), implies_copied(alloc, g, f))?;
    conjunction(alloc, there, back)
}

/// No reference makes the formula true, in which it is bound number 0.
fn for_no_reference(alloc: Global, f: Fol) -> Result<Fol, Memory>
    ensures { IfOk result (λ g. fml_of g ≡ every ref_sort (no (fml_of f))) }
{
    let denied = Fol::Not(Boxed::new(alloc, f)?);
    Ok(Fol::Every(Sort::Ref, Boxed::new(alloc, denied)?))
}

/// Neither of the two has a partner.
fn without_partners(alloc: Global, p: &Term, a: &Term, b: &Term) -> Result<Fol, Memory>
    ensures { let pairs = trm_of p.now in
        IfOk result (λ f. fml_of f ≡ and (every ref_sort (no (paired pairs (trm_of a.now) (bound 0)))) (every ref_sort (no (paired pairs (bound 0) (trm_of b.now))))) }
{
    let any = Term::Bound(0);
    let right = for_no_reference(alloc, partners(p, a, &any)?)?;
    let left = for_no_reference(alloc, partners(p, &any, b)?)?;
    conjunction(alloc, right, left)
}

/// The two can be linked: they are of the class, and neither has a partner.
pub fn can_be_linked(alloc: Global, c: u32, p: &Term, a: &Term, b: &Term) -> Result<Fol, Memory>
    ensures { IfOk result (λ f. fml_of f ≡ linkable c (trm_of p.now) (trm_of a.now) (trm_of b.now)) }
{
    let free = without_partners(alloc, p, a, b)?;
    let later = conjunction(alloc, of_class(c, b)?, free)?;
    conjunction(alloc, of_class(c, a)?, later)
}
