//! The formulas of the logic for relation formulas.

ghost use Rattle.std.specs.Prelude.{◌≡◌, map, IfOk};
ghost use Rattle.rel_lang.specs.State.{find_named};
ghost use Rattle.rel_lang.specs.Syntax.{Agree, AgreeImage};
ghost use Rattle.rel_lang.specs.View as trees;
ghost use Rattle.rel_lang.specs.View.{decl_of, type_of, expression_of};
ghost use Rattle.rel_logic.specs.Syntax.{ref_sort, rgn_sort, bound, null, sel, eq, member, is, paired, ext, no, and, imp, every, some};
ghost use Rattle.rel_logic.specs.View.{sort_of, trm_of, fml_of};
ghost use Rattle.rel_encode.specs.Terms.{lifted, term_of, field_term};
ghost use Rattle.rel_encode.specs.Formulas.{each_member};
ghost use Rattle.rel_encode.specs.Relations.{sort_of_type, sort_of_declared, sort_of_field, sort_of_expression, left_members_paired, right_members_paired, related_terms, left_agrees, right_agrees, inside, linkable, agree_on, some_extension, rel_of};
ghost use Rattle.rel_encode.specs.Numbers.{find_numbered, field_of};
ghost use Rattle.rel_encode.specs.BindersView.{binding_of};
ghost use Rattle.rel_encode.specs.View.{pair_store_of, numbers_in};
ghost use Rattle.rel_encode.specs.Seen.{numbers_seen, scope_seen, now_seen, numbers_both, left_scope, right_scope, store_both, left_scope_under, right_scope_under, store_both_under};

use crate::binders::{Binder, Binders};
use crate::builders::{
    are_equal, both_boxed, boxed, each_member, every, is_member, is_null, is_of_class, some,
    value_at,
};
use crate::formulas::{each_of, formula, some_of};
use crate::lifted::lifted;
use crate::names::{Names, Variables};
use crate::store::PairStore;
use crate::terms::{BothSeen, Seen, allocated, bijection, field, term};
use rel_lang::expr::{Expr, Side, Ty};
use rel_lang::relation::RelFormula;
use rel_lang::typed::FieldInfo;
use rel_list::{Boxed, Memory, both};
use rel_logic::fol::Fol;
use rel_logic::term::{Sort, Term};
use std::alloc::Global;

// ---- sorts

fn sort_of_type(ty: &Ty) -> Sort
    ensures { sort_of result ≡ sort_of_type (type_of ty.now) }
{
    match ty {
        Ty::Int => Sort::Int,
        Ty::Rgn => Sort::Rgn,
        Ty::Class(_) => Sort::Ref,
    }
}

#[tactic(auto, using(crate::proofs::Lookups::sort_under, crate::proofs::Lookups::found_in_map))]
fn sort_of_variable(seen: &Seen<'_, '_>, x: &str) -> Sort
    ensures { sort_of result ≡ sort_of_declared (find_named (λ d. d.name) x.now (scope_seen seen.now)) }
{
    if seen.binders.has(seen.side, x) {
        return Sort::Ref;
    }
    match seen.variables.find(x) {
        Some(d) => sort_of_type(&d.ty),
        None => Sort::Int,
    }
}

fn sort_of_field(seen: &Seen<'_, '_>, f: &str) -> Sort
    ensures { sort_of result ≡ sort_of_field (find_numbered f.now (numbers_seen seen.now)) }
{
    match seen.names.field(f) {
        Some(d) => sort_of_type(&d.ty),
        None => Sort::Int,
    }
}

/// The sort of the values of a typed expression.
fn sort_of_expression(seen: &Seen<'_, '_>, e: &Expr) -> Sort
    ensures { sort_of result ≡ sort_of_expression (numbers_seen seen.now) (scope_seen seen.now) (expression_of e.now) }
{
    match e {
        Expr::Var(x) => sort_of_variable(seen, x.as_str()),
        Expr::Field(_, f) => sort_of_field(seen, f.as_str()),
        Expr::Old(a) => sort_of_expression(seen, a.get()),
        Expr::Null => Sort::Ref,
        Expr::Num(_) | Expr::Add(_, _) | Expr::Sub(_, _) | Expr::Mul(_, _) => Sort::Int,
        Expr::Empty
        | Expr::Alloc
        | Expr::Single(_)
        | Expr::Union(_, _)
        | Expr::Meet(_, _)
        | Expr::Minus(_, _)
        | Expr::Image(_, _)
        | Expr::Filter(_, _) => Sort::Rgn,
    }
}

// ---- related values

/// The bijection, which stands outside of two quantifiers, pairs two bound references.
fn pair(alloc: Global, p: &Term, a: u32, b: u32) -> Result<Boxed<Fol>, Memory>
    ensures { IfOk result (λ f. fml_of f ≡ paired (lifted 2 (trm_of p.now)) (bound a) (bound b)) }
{
    let p = lifted(p, 2)?;
    Boxed::new(alloc, Fol::Paired(p, Term::Bound(a), Term::Bound(b)))
}

/// A paired reference is in the region.
fn partner(alloc: Global, pair: Boxed<Fol>, h: &Term) -> Result<Fol, Memory>
    ensures { IfOk result (λ f. fml_of f ≡ some ref_sort (and (fml_of pair) (member (bound 0) (lifted 2 (trm_of h.now))))) }
{
    let inside = boxed(alloc, is_member(0, h, 2))?;
    some(alloc, Sort::Ref, Fol::And(pair, inside))
}

/// Each member of the first region has its partner in the second one.
fn members_paired(alloc: Global, pair: Boxed<Fol>, g: &Term, h: &Term) -> Result<Fol, Memory>
    ensures { let partner = some ref_sort (and (fml_of pair) (member (bound 0) (lifted 2 (trm_of h.now)))) in
        IfOk result (λ f. fml_of f ≡ every ref_sort (imp (member (bound 0) (lifted 1 (trm_of g.now))) partner)) }
{
    let (member, partner) = both_boxed(alloc, is_member(0, g, 1), partner(alloc, pair, h))?;
    every(alloc, Sort::Ref, Fol::Imp(member, partner))
}

fn left_members_paired(alloc: Global, p: &Term, g: &Term, h: &Term) -> Result<Fol, Memory>
    ensures { IfOk result (λ f. fml_of f ≡ left_members_paired (trm_of p.now) (trm_of g.now) (trm_of h.now)) }
{
    members_paired(alloc, pair(alloc, p, 1, 0)?, g, h)
}

fn right_members_paired(alloc: Global, p: &Term, g: &Term, h: &Term) -> Result<Fol, Memory>
    ensures { IfOk result (λ f. fml_of f ≡ right_members_paired (trm_of p.now) (trm_of g.now) (trm_of h.now)) }
{
    members_paired(alloc, pair(alloc, p, 0, 1)?, h, g)
}

fn related_regions(alloc: Global, p: &Term, g: &Term, h: &Term) -> Result<Fol, Memory>
    ensures { IfOk result (λ f. fml_of f ≡ related_terms rgn_sort (trm_of p.now) (trm_of g.now) (trm_of h.now)) }
{
    let left = left_members_paired(alloc, p, g, h);
    let (left, right) = both_boxed(alloc, left, right_members_paired(alloc, p, g, h))?;
    Ok(Fol::And(left, right))
}

fn both_null(alloc: Global, t: &Term, u: &Term) -> Result<Fol, Memory>
    ensures { IfOk result (λ f. fml_of f ≡ and (eq (trm_of t.now) null) (eq (trm_of u.now) null)) }
{
    let (left, right) = both_boxed(alloc, is_null(t), is_null(u))?;
    Ok(Fol::And(left, right))
}

fn are_paired(p: &Term, t: &Term, u: &Term) -> Result<Fol, Memory>
    ensures { IfOk result (λ f. fml_of f ≡ paired (trm_of p.now) (trm_of t.now) (trm_of u.now)) }
{
    let (p, (t, u)) = both(p.copy(), both(t.copy(), u.copy()))?;
    Ok(Fol::Paired(p, t, u))
}

fn related_references(alloc: Global, p: &Term, t: &Term, u: &Term) -> Result<Fol, Memory>
    ensures { IfOk result (λ f. fml_of f ≡ related_terms ref_sort (trm_of p.now) (trm_of t.now) (trm_of u.now)) }
{
    let (null, pair) = both_boxed(alloc, both_null(alloc, t, u), are_paired(p, t, u))?;
    Ok(Fol::Or(null, pair))
}

/// The two terms, of the sort, have related values.
fn related(alloc: Global, sort: Sort, p: &Term, t: &Term, u: &Term) -> Result<Fol, Memory>
    ensures { IfOk result (λ f. fml_of f ≡ related_terms (sort_of sort) (trm_of p.now) (trm_of t.now) (trm_of u.now)) }
{
    match sort {
        Sort::Ref => related_references(alloc, p, t, u),
        Sort::Rgn => related_regions(alloc, p, t, u),
        _ => are_equal(t, u),
    }
}

// ---- related fields

/// The two maps have related values, in a bound reference each.
fn values_related(
    alloc: Global,
    sort: Sort,
    p: &Term,
    left: &Term,
    a: u32,
    right: &Term,
    b: u32,
) -> Result<Boxed<Fol>, Memory>
    ensures { let t = sel (lifted 2 (trm_of left.now)) (bound a) in
        let u = sel (lifted 2 (trm_of right.now)) (bound b) in
        IfOk result (λ f. fml_of f ≡ related_terms (sort_of sort) (lifted 2 (trm_of p.now)) t u) }
{
    let values = both(value_at(alloc, left, 2, a), value_at(alloc, right, 2, b));
    let (p, (t, u)) = both(lifted(p, 2), values)?;
    boxed(alloc, related(alloc, sort, &p, &t, &u))
}

/// Each object of the class in the first region has its partner in the second one, with these values.
fn agrees(
    alloc: Global,
    class: u32,
    g: &Term,
    h: &Term,
    pair: Boxed<Fol>,
    values: Boxed<Fol>,
) -> Result<Fol, Memory>
    ensures { let partner = some ref_sort (and (fml_of pair) (and (member (bound 0) (lifted 2 (trm_of h.now))) (fml_of values))) in
        IfOk result (λ f. fml_of f ≡ each_member class (trm_of g.now) partner) }
{
    let inside = boxed(alloc, is_member(0, h, 2))?;
    let rest = Boxed::new(alloc, Fol::And(inside, values))?;
    let partner = boxed(alloc, some(alloc, Sort::Ref, Fol::And(pair, rest)))?;
    each_member(alloc, class, g, partner)
}

/// Each object of the class in the left region has its partner in the right one, with related values in the two maps.
fn left_agrees(
    alloc: Global,
    sort: Sort,
    class: u32,
    p: &Term,
    regions: &(Boxed<Term>, Boxed<Term>),
    maps: &(Boxed<Term>, Boxed<Term>),
) -> Result<Fol, Memory>
    ensures { let g = trm_of regions.now.0 in
        let h = trm_of regions.now.1 in
        IfOk result (λ f. fml_of f ≡ left_agrees (sort_of sort) class (trm_of p.now) g h (trm_of maps.now.0) (trm_of maps.now.1)) }
{
    let values = values_related(alloc, sort, p, maps.0.get(), 1, maps.1.get(), 0);
    let (pair, values) = both(pair(alloc, p, 1, 0), values)?;
    agrees(alloc, class, regions.0.get(), regions.1.get(), pair, values)
}

/// And the other way.
fn right_agrees(
    alloc: Global,
    sort: Sort,
    class: u32,
    p: &Term,
    regions: &(Boxed<Term>, Boxed<Term>),
    maps: &(Boxed<Term>, Boxed<Term>),
) -> Result<Fol, Memory>
    ensures { let g = trm_of regions.now.0 in
        let h = trm_of regions.now.1 in
        IfOk result (λ f. fml_of f ≡ right_agrees (sort_of sort) class (trm_of p.now) g h (trm_of maps.now.0) (trm_of maps.now.1)) }
{
    let values = values_related(alloc, sort, p, maps.0.get(), 0, maps.1.get(), 1);
    let (pair, values) = both(pair(alloc, p, 0, 1), values)?;
    agrees(alloc, class, regions.1.get(), regions.0.get(), pair, values)
}

fn both_agree(
    alloc: Global,
    sort: Sort,
    class: u32,
    p: &Term,
    regions: &(Boxed<Term>, Boxed<Term>),
    maps: &(Boxed<Term>, Boxed<Term>),
) -> Result<Fol, Memory>
    ensures { let g = trm_of regions.now.0 in
        let h = trm_of regions.now.1 in
        let m = trm_of maps.now.0 in
        let n = trm_of maps.now.1 in
        let sort = sort_of sort in
        IfOk result (λ f. fml_of f ≡ and (left_agrees sort class (trm_of p.now) g h m n) (right_agrees sort class (trm_of p.now) g h m n)) }
{
    let left = left_agrees(alloc, sort, class, p, regions, maps);
    let right = right_agrees(alloc, sort, class, p, regions, maps);
    let (left, right) = both_boxed(alloc, left, right)?;
    Ok(Fol::And(left, right))
}

// ---- pairs of references

/// Every pair is of references that are allocated on their sides.
pub fn inside(alloc: Global, p: &Term, left: &Term, right: &Term) -> Result<Fol, Memory>
    ensures { IfOk result (λ f. fml_of f ≡ inside (trm_of p.now) (trm_of left.now) (trm_of right.now)) }
{
    let (left, right) = both_boxed(alloc, is_member(1, left, 2), is_member(0, right, 2))?;
    let members = Boxed::new(alloc, Fol::And(left, right));
    let (pair, members) = both(pair(alloc, p, 1, 0), members)?;
    let of_second = every(alloc, Sort::Ref, Fol::Imp(pair, members))?;
    every(alloc, Sort::Ref, of_second)
}

/// The reference has no partner: the bijection pairs it with none.
fn left_is_free(alloc: Global, p: &Term, a: &Term) -> Result<Fol, Memory>
    ensures { IfOk result (λ f. fml_of f ≡ every ref_sort (no (paired (lifted 1 (trm_of p.now)) (lifted 1 (trm_of a.now)) (bound 0)))) }
{
    let (p, a) = both(lifted(p, 1), lifted(a, 1))?;
    let pair = Boxed::new(alloc, Fol::Paired(p, a, Term::Bound(0)))?;
    every(alloc, Sort::Ref, Fol::Not(pair))
}

fn right_is_free(alloc: Global, p: &Term, b: &Term) -> Result<Fol, Memory>
    ensures { IfOk result (λ f. fml_of f ≡ every ref_sort (no (paired (lifted 1 (trm_of p.now)) (bound 0) (lifted 1 (trm_of b.now))))) }
{
    let (p, b) = both(lifted(p, 1), lifted(b, 1))?;
    let pair = Boxed::new(alloc, Fol::Paired(p, Term::Bound(0), b))?;
    every(alloc, Sort::Ref, Fol::Not(pair))
}

fn are_free(alloc: Global, p: &Term, a: &Term, b: &Term) -> Result<Fol, Memory>
    ensures { let left = every ref_sort (no (paired (lifted 1 (trm_of p.now)) (lifted 1 (trm_of a.now)) (bound 0))) in
        let right = every ref_sort (no (paired (lifted 1 (trm_of p.now)) (bound 0) (lifted 1 (trm_of b.now)))) in
        IfOk result (λ f. fml_of f ≡ and left right) }
{
    let (left, right) = both_boxed(alloc, left_is_free(alloc, p, a), right_is_free(alloc, p, b))?;
    Ok(Fol::And(left, right))
}

/// The two references are of the class, and neither has a partner.
pub fn linkable(alloc: Global, class: u32, p: &Term, a: &Term, b: &Term) -> Result<Fol, Memory>
    ensures { IfOk result (λ f. fml_of f ≡ linkable class (trm_of p.now) (trm_of a.now) (trm_of b.now)) }
{
    let (b_is, free) = both_boxed(alloc, is_of_class(class, b), are_free(alloc, p, a, b))?;
    let rest = Boxed::new(alloc, Fol::And(b_is, free));
    let (a_is, rest) = both(boxed(alloc, is_of_class(class, a)), rest)?;
    Ok(Fol::And(a_is, rest))
}

// ---- relation formulas

/// The values of two expressions, one on each side, are related.
fn agree(alloc: Global, seen: &BothSeen<'_, '_>, a: &Expr, b: &Expr) -> Result<Fol, Memory>
    ensures { IfOk result (λ f. fml_of f ≡ rel_of (numbers_both seen.now) (left_scope seen.now) (right_scope seen.now) (Agree (expression_of a.now) (expression_of b.now)) (store_both seen.now)) }
{
    let sort = sort_of_expression(&seen.on_left(), a);
    let left = term(alloc, &seen.on_left(), a);
    let values = both(left, term(alloc, &seen.on_right(), b));
    let (p, (t, u)) = both(bijection(seen), values)?;
    related(alloc, sort, &p, &t, &u)
}

/// The terms of the region on each side.
fn regions_of(
    alloc: Global,
    seen: &BothSeen<'_, '_>,
    g: &Expr,
) -> Result<(Boxed<Term>, Boxed<Term>), Memory>
    ensures { let numbers = numbers_both seen.now in
        let st = store_both seen.now in
        let left = term_of numbers (left_scope seen.now) (expression_of g.now) st.left_entry st.left in
        let right = term_of numbers (right_scope seen.now) (expression_of g.now) st.right_entry st.right in
        IfOk result (λ p. (trm_of p.0 ≡ left) × (trm_of p.1 ≡ right)) }
{
    let left = term(alloc, &seen.on_left(), g);
    both_boxed(alloc, left, term(alloc, &seen.on_right(), g))
}

/// The terms of the field's map on each side.
fn maps_of(
    alloc: Global,
    seen: &BothSeen<'_, '_>,
    f: &str,
) -> Result<(Boxed<Term>, Boxed<Term>), Memory>
    ensures { let numbers = numbers_both seen.now in
        let st = store_both seen.now in
        let left = field_term numbers (left_scope seen.now) f.now st.left in
        let right = field_term numbers (right_scope seen.now) f.now st.right in
        IfOk result (λ p. (trm_of p.0 ≡ left) × (trm_of p.1 ≡ right)) }
{
    let left = field(&seen.on_left(), f);
    both_boxed(alloc, left, field(&seen.on_right(), f))
}

/// The objects of a region on each side have partners, with related values in the field that is looked up.
fn agree_on(
    alloc: Global,
    seen: &BothSeen<'_, '_>,
    d: &FieldInfo,
    g: &Expr,
    f: &str,
) -> Result<Fol, Memory>
    ensures { let numbers = numbers_both seen.now in
        let st = store_both seen.now in
        let left = term_of numbers (left_scope seen.now) (expression_of g.now) st.left_entry st.left in
        let right = term_of numbers (right_scope seen.now) (expression_of g.now) st.right_entry st.right in
        let left_map = field_term numbers (left_scope seen.now) f.now st.left in
        let right_map = field_term numbers (right_scope seen.now) f.now st.right in
        IfOk result (λ h. fml_of h ≡ agree_on numbers (Some (field_of d.now)) st.bij left right left_map right_map) }
{
    let terms = both(regions_of(alloc, seen, g), maps_of(alloc, seen, f));
    let (p, (regions, maps)) = both(boxed(alloc, bijection(seen)), terms)?;
    both_agree(
        alloc,
        sort_of_type(&d.ty),
        d.class,
        p.get(),
        &regions,
        &maps,
    )
}

/// The objects of a region on each side have partners, with related values in the field.
fn agree_image(alloc: Global, seen: &BothSeen<'_, '_>, g: &Expr, f: &str) -> Result<Fol, Memory>
    ensures { IfOk result (λ h. fml_of h ≡ rel_of (numbers_both seen.now) (left_scope seen.now) (right_scope seen.now) (AgreeImage (expression_of g.now) f.now) (store_both seen.now)) }
{
    match seen.names.field(f) {
        None => Ok(Fol::True),
        Some(d) => agree_on(alloc, seen, d, g, f),
    }
}

/// The formula of the logic that says what the relation formula says.
#[cycle(relation)]
pub fn relation(alloc: Global, seen: &BothSeen<'_, '_>, r: &RelFormula) -> Result<Fol, Memory>
    ensures { IfOk result (λ f. fml_of f ≡ rel_of (numbers_both seen.now) (left_scope seen.now) (right_scope seen.now) (trees.rel_of r.now) (store_both seen.now)) }
{
    match r {
        RelFormula::True => Ok(Fol::True),
        RelFormula::False => Ok(Fol::False),
        RelFormula::OnLeft(p) => formula(alloc, &seen.on_left(), p),
        RelFormula::OnRight(p) => formula(alloc, &seen.on_right(), p),
        RelFormula::Both(p) => {
            let left = formula(alloc, &seen.on_left(), p);
            let right = formula(alloc, &seen.on_right(), p);
            let (left, right) = both_boxed(alloc, left, right)?;
            Ok(Fol::And(left, right))
        }
        RelFormula::Agree(a, b) => agree(alloc, seen, a, b),
        RelFormula::AgreeImage(g, f) => agree_image(alloc, seen, g, f.as_str()),
        RelFormula::Not(r) => Ok(Fol::Not(relation_boxed(alloc, seen, r)?)),
        RelFormula::And(r, s) => {
            let (f, g) = both(
                relation_boxed(alloc, seen, r),
                relation_boxed(alloc, seen, s),
            )?;
            Ok(Fol::And(f, g))
        }
        RelFormula::Or(r, s) => {
            let (f, g) = both(
                relation_boxed(alloc, seen, r),
                relation_boxed(alloc, seen, s),
            )?;
            Ok(Fol::Or(f, g))
        }
        RelFormula::Implies(r, s) => {
            let (f, g) = both(
                relation_boxed(alloc, seen, r),
                relation_boxed(alloc, seen, s),
            )?;
            Ok(Fol::Imp(f, g))
        }
        RelFormula::Every(Side::Left, x, c, g, r) => {
            let binder = Binder::Left(x.as_str(), c.as_str());
            let body = relation_under(alloc, seen, binder, r)?;
            each_of(alloc, &seen.on_left(), c.as_str(), g, body)
        }
        RelFormula::Every(Side::Right, x, c, g, r) => {
            let binder = Binder::Right(x.as_str(), c.as_str());
            let body = relation_under(alloc, seen, binder, r)?;
            each_of(alloc, &seen.on_right(), c.as_str(), g, body)
        }
        RelFormula::Exists(Side::Left, x, c, g, r) => {
            let binder = Binder::Left(x.as_str(), c.as_str());
            let body = relation_under(alloc, seen, binder, r)?;
            some_of(alloc, &seen.on_left(), c.as_str(), g, body)
        }
        RelFormula::Exists(Side::Right, x, c, g, r) => {
            let binder = Binder::Right(x.as_str(), c.as_str());
            let body = relation_under(alloc, seen, binder, r)?;
            some_of(alloc, &seen.on_right(), c.as_str(), g, body)
        }
        RelFormula::Eventually(r) => {
            let body = relation_under(alloc, seen, Binder::Bijection, r)?;
            some_extension(alloc, seen, body)
        }
    }
}

#[cycle(relation)]
fn relation_boxed(
    alloc: Global,
    seen: &BothSeen<'_, '_>,
    r: &Boxed<RelFormula>,
) -> Result<Boxed<Fol>, Memory>
    ensures { IfOk result (λ f. fml_of f ≡ rel_of (numbers_both seen.now) (left_scope seen.now) (right_scope seen.now) (trees.rel_of r.now) (store_both seen.now)) }
{
    boxed(alloc, relation(alloc, seen, r.get()))
}

/// The body of a quantifier.
#[cycle(relation)]
fn relation_under(
    alloc: Global,
    seen: &BothSeen<'_, '_>,
    binder: Binder<'_>,
    r: &Boxed<RelFormula>,
) -> Result<Boxed<Fol>, Memory>
    ensures { let b = binding_of binder.entry in
        IfOk result (λ f. fml_of f ≡ rel_of (numbers_both seen.now) (left_scope_under b seen.now) (right_scope_under b seen.now) (trees.rel_of r.now) (store_both_under b seen.now)) }
{
    let binders = Binders::Under(binder, seen.binders);
    let inner = BothSeen {
        binders: &binders,
        ..*seen
    };
    boxed(alloc, relation(alloc, &inner, r.get()))
}

fn lifted_alloc(seen: &Seen<'_, '_>) -> Result<Term, Memory>
    ensures { IfOk result (λ t. trm_of t ≡ lifted 1 (now_seen seen.now).alloc) }
{
    lifted(&allocated(seen)?, 1)
}

/// The bijection that a quantifier binds extends the one outside of it.
fn extends(seen: &BothSeen<'_, '_>) -> Result<Fol, Memory>
    ensures { IfOk result (λ f. fml_of f ≡ ext (lifted 1 (store_both seen.now).bij) (bound 0)) }
{
    let outer = lifted(&bijection(seen)?, 1)?;
    Ok(Fol::Ext(outer, Term::Bound(0)))
}

/// It pairs references that are allocated now.
fn stays_inside(alloc: Global, seen: &BothSeen<'_, '_>) -> Result<Fol, Memory>
    ensures { let st = store_both seen.now in
        IfOk result (λ f. fml_of f ≡ inside (bound 0) (lifted 1 st.left.alloc) (lifted 1 st.right.alloc)) }
{
    let left = lifted_alloc(&seen.on_left());
    let (left, right) = both(left, lifted_alloc(&seen.on_right()))?;
    inside(alloc, &Term::Bound(0), &left, &right)
}

/// Some extension of the bijection, between what is allocated now, of which the body holds.
fn some_extension(alloc: Global, seen: &BothSeen<'_, '_>, body: Boxed<Fol>) -> Result<Fol, Memory>
    ensures { IfOk result (λ f. fml_of f ≡ some_extension (store_both seen.now) (fml_of body)) }
{
    let stays = boxed(alloc, stays_inside(alloc, seen))?;
    let rest = Boxed::new(alloc, Fol::And(stays, body));
    let (extends, rest) = both(boxed(alloc, extends(seen)), rest)?;
    some(alloc, Sort::Bij, Fol::And(extends, rest))
}

/// The formula of the logic for a relation formula that no quantifier is around.
pub fn relation_outside(
    alloc: Global,
    names: &Names<'_>,
    left: &Variables<'_>,
    right: &Variables<'_>,
    r: &RelFormula,
    store: &PairStore,
) -> Result<Fol, Memory>
    ensures { let ls = map decl_of left.now.items.now in
        let rs = map decl_of right.now.items.now in
        IfOk result (λ f. fml_of f ≡ rel_of (numbers_in names.now) ls rs (trees.rel_of r.now) (pair_store_of store.now)) }
{
    let seen = BothSeen {
        names,
        left,
        right,
        binders: &Binders::Outside,
        store,
    };
    relation(alloc, &seen, r)
}
