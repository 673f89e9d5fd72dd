//! Sorts of terms, and well-sorted formulas.
ghost use Rattle.std.specs.Prelude.{◌≡◌, ◌↔◌, ◌≤◌, IsTrue, map, slice_get, [], ◌∷◌};
ghost use Rattle.rel_logic.specs.View.{sort_of, trm_of, fml_of};
ghost use Rattle.rel_logic.specs.Scopes.{bounds_of, srt_of};
ghost use Rattle.rel_logic.specs.Syntax.{Srt};
ghost use Rattle.rel_logic.specs.Bounds.{free_bound_term, free_bound_of};
ghost use Rattle.rel_logic.specs.Truth.{HasSort, Valuation, value, FitsSorts, AgreeOn, IsTrueAt};
ghost use Rattle.rel_logic.specs.Sorting.{same_srt, is_of, are_of_one, takes, value_sort, image_sort, stored_sort, sort_at, has_sort, is_sorted, is_well_sorted};

use crate::fol::Fol;
use crate::term::{Sort, Term, same_sort};

/// The sorts of the bound numbers, that of the innermost quantifier first.
#[derive(Clone, Copy)]
enum Bounds<'a> {
    Outside,
    Under(Sort, &'a Bounds<'a>),
}

impl<'a> Bounds<'a> {
    #[tactic(auto, using(crate::proofs::Scopes::slice_get_next))]
    fn sort(&self, n: u32) -> Option<Sort>
        ensures { srt_of result ≡ slice_get (bounds_of self.now) n }
    {
        match self {
            Bounds::Outside => None,
            Bounds::Under(sort, outer) => {
                if n == 0 {
                    Some(*sort)
                } else {
                    outer.sort(n - 1)
                }
            }
        }
    }
}

fn is_of(s: Sort, given: Option<Sort>) -> bool
    ensures { result ≡ is_of (sort_of s) (srt_of given) }
{
    match given {
        Some(t) => same_sort(s, t),
        None => false,
    }
}

fn are_of_one(a: Option<Sort>, b: Option<Sort>) -> bool
    ensures { result ≡ are_of_one (srt_of a) (srt_of b) }
{
    match a {
        Some(s) => is_of(s, b),
        None => false,
    }
}

/// The result, where the argument's sort is the wanted one.
fn takes(want: Sort, given: Option<Sort>, result_sort: Option<Sort>) -> Option<Sort>
    ensures { srt_of result ≡ takes (sort_of want) (srt_of given) (srt_of result_sort) }
{
    if is_of(want, given) {
        result_sort
    } else {
        None
    }
}

fn value_sort(map: Option<Sort>) -> Option<Sort>
    ensures { srt_of result ≡ value_sort (srt_of map) }
{
    match map {
        Some(Sort::MapI) => Some(Sort::Int),
        Some(Sort::MapR) => Some(Sort::Ref),
        Some(Sort::MapG) => Some(Sort::Rgn),
        _ => None,
    }
}

/// The sort of a region, where the argument is a map whose values make one.
fn image_sort(map: Option<Sort>) -> Option<Sort>
    ensures { srt_of result ≡ image_sort (srt_of map) }
{
    match map {
        Some(Sort::MapR) | Some(Sort::MapG) => Some(Sort::Rgn),
        _ => None,
    }
}

/// The map's sort, where its values have the other one.
fn stored_sort(map: Option<Sort>, stored: Option<Sort>) -> Option<Sort>
    ensures { srt_of result ≡ stored_sort (srt_of map) (srt_of stored) }
{
    if are_of_one(value_sort(map), stored) {
        map
    } else {
        None
    }
}

fn variable_sort(sorts: &[Sort], n: u32) -> Option<Sort>
    ensures { srt_of result ≡ slice_get (map sort_of sorts.now) n }
{
    sorts.get(n as usize).copied()
}

/// The sort of a term, where it has one.
fn sort_under(t: &Term, sorts: &[Sort], bounds: &Bounds) -> Option<Sort>
    ensures { srt_of result ≡ sort_at (map sort_of sorts.now) (bounds_of bounds.now) (trm_of t.now) }
{
    match t {
        Term::Var(n) => variable_sort(sorts, *n),
        Term::Bound(n) => bounds.sort(*n),
        Term::Null => Some(Sort::Ref),
        Term::Empty => Some(Sort::Rgn),
        Term::Int(_) => Some(Sort::Int),
        Term::Mul(_, a) => {
            let a = sort_under(a.get(), sorts, bounds);
            takes(Sort::Int, a, Some(Sort::Int))
        }
        Term::Add(a, b) | Term::Sub(a, b) => {
            let b = sort_under(b.get(), sorts, bounds);
            let a = sort_under(a.get(), sorts, bounds);
            takes(Sort::Int, a, takes(Sort::Int, b, Some(Sort::Int)))
        }
        Term::Sel(m, a) => {
            let m = sort_under(m.get(), sorts, bounds);
            let a = sort_under(a.get(), sorts, bounds);
            takes(Sort::Ref, a, value_sort(m))
        }
        Term::Sto(m, a, b) => {
            let m = sort_under(m.get(), sorts, bounds);
            let a = sort_under(a.get(), sorts, bounds);
            let b = sort_under(b.get(), sorts, bounds);
            takes(Sort::Ref, a, stored_sort(m, b))
        }
        Term::One(a) => {
            let a = sort_under(a.get(), sorts, bounds);
            takes(Sort::Ref, a, Some(Sort::Rgn))
        }
        Term::Cup(g, h) | Term::Cap(g, h) | Term::Less(g, h) => {
            let h = sort_under(h.get(), sorts, bounds);
            let g = sort_under(g.get(), sorts, bounds);
            takes(Sort::Rgn, g, takes(Sort::Rgn, h, Some(Sort::Rgn)))
        }
        Term::Img(m, g) => {
            let m = sort_under(m.get(), sorts, bounds);
            let g = sort_under(g.get(), sorts, bounds);
            takes(Sort::Rgn, g, image_sort(m))
        }
        Term::Of(_, g) => {
            let g = sort_under(g.get(), sorts, bounds);
            takes(Sort::Rgn, g, Some(Sort::Rgn))
        }
        Term::Link(p, a, b) => {
            let p = sort_under(p.get(), sorts, bounds);
            let a = sort_under(a.get(), sorts, bounds);
            let b = sort_under(b.get(), sorts, bounds);
            let later = takes(Sort::Ref, b, Some(Sort::Bij));
            takes(Sort::Bij, p, takes(Sort::Ref, a, later))
        }
    }
}

fn has_sort(s: Sort, t: &Term, sorts: &[Sort], bounds: &Bounds) -> bool
    ensures { result ≡ has_sort (map sort_of sorts.now) (bounds_of bounds.now) (sort_of s) (trm_of t.now) }
{
    is_of(s, sort_under(t, sorts, bounds))
}

/// Whether `f` is well sorted under these bound numbers.
fn is_sorted(f: &Fol, sorts: &[Sort], bounds: &Bounds) -> bool
    ensures { result ≡ is_sorted (map sort_of sorts.now) (bounds_of bounds.now) (fml_of f.now) }
{
    match f {
        Fol::True | Fol::False => true,
        Fol::Eq(a, b) => are_of_one(sort_under(a, sorts, bounds), sort_under(b, sorts, bounds)),
        Fol::Lt(a, b) | Fol::Le(a, b) => {
            has_sort(Sort::Int, a, sorts, bounds) && has_sort(Sort::Int, b, sorts, bounds)
        }
        Fol::Member(a, g) => {
            has_sort(Sort::Ref, a, sorts, bounds) && has_sort(Sort::Rgn, g, sorts, bounds)
        }
        Fol::Is(_, a) => has_sort(Sort::Ref, a, sorts, bounds),
        Fol::Paired(p, a, b) => {
            has_sort(Sort::Bij, p, sorts, bounds)
                && (has_sort(Sort::Ref, a, sorts, bounds) && has_sort(Sort::Ref, b, sorts, bounds))
        }
        Fol::Ext(p, q) => {
            has_sort(Sort::Bij, p, sorts, bounds) && has_sort(Sort::Bij, q, sorts, bounds)
        }
        Fol::Not(f) => is_sorted(f.get(), sorts, bounds),
        Fol::And(f, g) | Fol::Or(f, g) | Fol::Imp(f, g) => {
            is_sorted(f.get(), sorts, bounds) && is_sorted(g.get(), sorts, bounds)
        }
        Fol::Every(s, f) | Fol::Exists(s, f) => {
            is_sorted(f.get(), sorts, &Bounds::Under(*s, &*bounds))
        }
    }
}

fn sort_outside(t: &Term, sorts: &[Sort]) -> Option<Sort>
    ensures { srt_of result ≡ sort_at (map sort_of sorts.now) [] (trm_of t.now) }
{
    sort_under(t, sorts, &Bounds::Outside)
}

fn is_sorted_outside(f: &Fol, sorts: &[Sort]) -> bool
    ensures { result ≡ is_well_sorted (map sort_of sorts.now) (fml_of f.now) }
{
    is_sorted(f, sorts, &Bounds::Outside)
}

fn is_sorted_under(f: &Fol, sort: Sort, sorts: &[Sort], outer: &Bounds) -> bool
    ensures { result ≡ is_sorted (map sort_of sorts.now) (sort_of sort ∷ bounds_of outer.now) (fml_of f.now) }
{
    is_sorted(f, sorts, &Bounds::Under(sort, &*outer))
}

fn is_body(f: &Fol, sort: Sort, sorts: &[Sort]) -> bool
    ensures { result ≡ is_sorted (map sort_of sorts.now) (sort_of sort ∷ []) (fml_of f.now) }
{
    is_sorted_under(f, sort, sorts, &Bounds::Outside)
}

/// Whether the sorts of `f` fit where one number is bound, of the sort, over variables of these
/// sorts.
pub fn body_sorted(f: &Fol, sort: Sort, sorts: &[Sort]) -> bool
    ensures exact { result ≡ is_sorted (map sort_of sorts.now) (sort_of sort ∷ []) (fml_of f.now) }
    ensures one { IsTrue result → free_bound_of (fml_of f.now) ≤ 1 }
{
    is_body(f, sort, sorts)
}

/// The sort of a closed term over variables of these sorts, where it has one. Its value has it.
pub fn term_sort(t: &Term, sorts: &[Sort]) -> Option<Sort>
    ensures sort { srt_of result ≡ sort_at (map sort_of sorts.now) [] (trm_of t.now) }
    ensures closed { (s : Srt) → srt_of result ≡ Some s → free_bound_term (trm_of t.now) ≡ 0 }
    ensures value { let variables = map sort_of sorts.now in
        let term = trm_of t.now in
        (s : Srt) → srt_of result ≡ Some s → (r : Valuation) → FitsSorts variables r → HasSort s (value r [] term) }
{
    sort_outside(t, sorts)
}

/// Whether `f` is closed and its sorts fit, over variables of these sorts. Its truth depends on
/// these variables alone.
pub fn well_sorted(f: &Fol, sorts: &[Sort]) -> bool
    ensures exact { result ≡ is_well_sorted (map sort_of sorts.now) (fml_of f.now) }
    ensures closed { IsTrue result → free_bound_of (fml_of f.now) ≡ 0 }
    ensures truth { let variables = map sort_of sorts.now in
        let formula = fml_of f.now in
        IsTrue result → (r q : Valuation) → AgreeOn variables r q → IsTrueAt r [] formula ↔ IsTrueAt q [] formula }
{
    is_sorted_outside(f, sorts)
}
