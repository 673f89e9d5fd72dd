//! Formulas built of terms and of smaller formulas.

ghost use Rattle.std.specs.Prelude.{◌≡◌, IfOk, map};
ghost use Rattle.rel_logic.specs.Equal.{same_trm};
ghost use Rattle.rel_logic.specs.Syntax.{null, bound, sel, eq, member, is, every, some};
ghost use Rattle.rel_logic.specs.View.{sort_of, trm_of, fml_of};
ghost use Rattle.rel_encode.specs.Terms.{lifted};
ghost use Rattle.rel_encode.specs.Joins.{is_verum};
ghost use Rattle.rel_encode.specs.Formulas.{joined, conj, is_member_of_class, each_member, some_member, subset};

use crate::lifted::lifted;
use rel_list::{Boxed, List, Memory, both};
use rel_logic::comparison::same_term;
use rel_logic::fol::Fol;
use rel_logic::term::{Sort, Term};
use std::alloc::Global;

/// The value in a box, unless there was no memory for it.
pub(crate) fn boxed<T: Drop>(alloc: Global, value: Result<T, Memory>) -> Result<Boxed<T>, Memory>
    ensures { IfOk result (λ b. value ≡ Ok b) }
{
    let value = value?;
    Boxed::new(alloc, value)
}

/// Both values in boxes, unless there was no memory for one.
pub(crate) fn both_boxed<A: Drop, B: Drop>(
    alloc: Global,
    a: Result<A, Memory>,
    b: Result<B, Memory>,
) -> Result<(Boxed<A>, Boxed<B>), Memory>
    ensures { IfOk result (λ p. (a ≡ Ok p.0) × (b ≡ Ok p.1)) }
{
    both(boxed(alloc, a), boxed(alloc, b))
}

pub(crate) fn every(alloc: Global, sort: Sort, f: Fol) -> Result<Fol, Memory>
    ensures { IfOk result (λ h. fml_of h ≡ every (sort_of sort) (fml_of f)) }
{
    Ok(Fol::Every(sort, Boxed::new(alloc, f)?))
}

pub(crate) fn some(alloc: Global, sort: Sort, f: Fol) -> Result<Fol, Memory>
    ensures { IfOk result (λ h. fml_of h ≡ some (sort_of sort) (fml_of f)) }
{
    Ok(Fol::Exists(sort, Boxed::new(alloc, f)?))
}

pub(crate) fn is_null(t: &Term) -> Result<Fol, Memory>
    ensures { IfOk result (λ f. fml_of f ≡ eq (trm_of t.now) null) }
{
    Ok(Fol::Eq(t.copy()?, Term::Null))
}

pub(crate) fn are_equal(t: &Term, u: &Term) -> Result<Fol, Memory>
    ensures { IfOk result (λ f. fml_of f ≡ eq (trm_of t.now) (trm_of u.now)) }
{
    let (t, u) = both(t.copy(), u.copy())?;
    Ok(Fol::Eq(t, u))
}

pub(crate) fn is_of_class(class: u32, t: &Term) -> Result<Fol, Memory>
    ensures { IfOk result (λ f. fml_of f ≡ is class (trm_of t.now)) }
{
    Ok(Fol::Is(class, t.copy()?))
}

/// The bound reference of this number is a member of the region, which stands outside `k` quantifiers.
pub(crate) fn is_member(n: u32, g: &Term, k: u32) -> Result<Fol, Memory>
    ensures { IfOk result (λ f. fml_of f ≡ member (bound n) (lifted k (trm_of g.now))) }
{
    Ok(Fol::Member(Term::Bound(n), lifted(g, k)?))
}

/// The innermost reference is a member of the region, of the class. The region stands outside the quantifier.
fn is_member_of_class(alloc: Global, c: u32, g: &Term) -> Result<Fol, Memory>
    ensures { IfOk result (λ f. fml_of f ≡ is_member_of_class c (trm_of g.now)) }
{
    let is_of_class = Ok(Fol::Is(c, Term::Bound(0)));
    let (member, is_of_class) = both_boxed(alloc, is_member(0, g, 1), is_of_class)?;
    Ok(Fol::And(member, is_of_class))
}

/// Of each member of the region, of the class, the body.
pub(crate) fn each_member(alloc: Global, c: u32, g: &Term, body: Boxed<Fol>) -> Result<Fol, Memory>
    ensures { IfOk result (λ f. fml_of f ≡ each_member c (trm_of g.now) (fml_of body)) }
{
    let member = boxed(alloc, is_member_of_class(alloc, c, g))?;
    every(alloc, Sort::Ref, Fol::Imp(member, body))
}

/// Of some member of the region, of the class, the body.
pub(crate) fn some_member(alloc: Global, c: u32, g: &Term, body: Boxed<Fol>) -> Result<Fol, Memory>
    ensures { IfOk result (λ f. fml_of f ≡ some_member c (trm_of g.now) (fml_of body)) }
{
    let member = boxed(alloc, is_member_of_class(alloc, c, g))?;
    some(alloc, Sort::Ref, Fol::And(member, body))
}

/// Each member of the first region is one of the second.
pub(crate) fn subset(alloc: Global, g: &Term, h: &Term) -> Result<Fol, Memory>
    ensures { IfOk result (λ f. fml_of f ≡ subset (trm_of g.now) (trm_of h.now)) }
{
    let (inner, outer) = both_boxed(alloc, is_member(0, g, 1), is_member(0, h, 1))?;
    every(alloc, Sort::Ref, Fol::Imp(inner, outer))
}

/// The value of a map, which stands outside of `k` quantifiers, in a bound reference.
pub(crate) fn value_at(alloc: Global, m: &Term, k: u32, n: u32) -> Result<Term, Memory>
    ensures { IfOk result (λ t. trm_of t ≡ sel (lifted k (trm_of m.now)) (bound n)) }
{
    let (m, at) = both_boxed(alloc, lifted(m, k), Ok(Term::Bound(n)))?;
    Ok(Term::Sel(m, at))
}

/// Whether the two terms are one tree.
#[tactic(auto, using(rel_logic::proofs::SameTrees::answers_alike, rel_logic::proofs::SameTrees::same_trm_is))]
pub(crate) fn same_terms(a: &Term, b: &Term) -> bool
    ensures { result ≡ same_trm (trm_of a.now) (trm_of b.now) }
{
    same_term(a, b)
}

fn is_true(f: &Fol) -> bool
    ensures { result ≡ is_verum (fml_of f.now) }
{
    matches!(f, Fol::True)
}

/// The conjunction, without a part that is `true`.
#[tactic(auto, using(crate::proofs::Joins::joined_first, crate::proofs::Joins::joined_second, crate::proofs::Joins::joined_both))]
fn joined(alloc: Global, f: Fol, g: Fol) -> Result<Fol, Memory>
    ensures { IfOk result (λ h. fml_of h ≡ joined (fml_of f) (fml_of g)) }
{
    if is_true(&f) {
        return Ok(g);
    }
    if is_true(&g) {
        return Ok(f);
    }
    let (f, g) = both_boxed(alloc, Ok(f), Ok(g))?;
    Ok(Fol::And(f, g))
}

/// All of the formulas, nested to the right, without those that are `true`.
pub(crate) fn conj(alloc: Global, mut formulas: List<Fol>) -> Result<Fol, Memory>
    ensures { IfOk result (λ f. fml_of f ≡ conj (map fml_of formulas)) }
{
    let mut all = Fol::True;
    for _ in 0..formulas.len() {
        if let Some(f) = formulas.items.pop() {
            all = joined(alloc, f, all)?;
        }
    }
    Ok(all)
}
