//! The terms of expressions.

ghost use Rattle.std.specs.Prelude.{◌≡◌, map, IfOk};
ghost use Rattle.rel_lang.specs.View.{decl_of, expression_of};
ghost use Rattle.rel_logic.specs.View.{trm_of};
ghost use Rattle.rel_encode.specs.Terms.{term_named, lifted, variable_term, field_term, term_of};
ghost use Rattle.rel_encode.specs.Places.{term_at, term_found};
ghost use Rattle.rel_encode.specs.BindersView.{found_of};
ghost use Rattle.rel_encode.specs.View.{store_of, numbers_in};
ghost use Rattle.rel_encode.specs.Seen.{numbers_seen, scope_seen, entry_seen, now_seen, numbers_both, left_scope, right_scope, store_both};

use crate::binders::{Binders, Found};
use crate::builders::boxed;
use crate::lifted::lifted;
use crate::names::{Names, Variables};
use crate::store::{PairStore, Store};
use rel_lang::expr::{Expr, Side};
use rel_list::{Boxed, List, Memory, both};
use rel_logic::term::Term;
use std::alloc::Global;

/// What can be seen from a part of a formula, on its side.
#[derive(Clone, Copy)]
pub struct Seen<'s, 'a> {
    pub names: &'s Names<'a>,
    pub variables: &'s Variables<'a>,
    pub side: Side,
    pub binders: &'s Binders<'s>,
    pub entry: &'s Store,
    pub present: &'s Store,
}

/// What can be seen from a part of a relation formula.
#[derive(Clone, Copy)]
pub struct BothSeen<'s, 'a> {
    pub names: &'s Names<'a>,
    pub left: &'s Variables<'a>,
    pub right: &'s Variables<'a>,
    pub binders: &'s Binders<'s>,
    pub store: &'s PairStore,
}

impl<'s, 'a> BothSeen<'s, 'a> {
    pub fn on_left(&self) -> Seen<'s, 'a>
        ensures numbers { numbers_seen result ≡ numbers_both self.now }
        ensures scope { scope_seen result ≡ left_scope self.now }
        ensures entry { entry_seen result ≡ (store_both self.now).left_entry }
        ensures present { now_seen result ≡ (store_both self.now).left }
    {
        Seen {
            names: self.names,
            variables: self.left,
            side: Side::Left,
            binders: self.binders,
            entry: &self.store.left_entry,
            present: &self.store.left,
        }
    }

    pub fn on_right(&self) -> Seen<'s, 'a>
        ensures numbers { numbers_seen result ≡ numbers_both self.now }
        ensures scope { scope_seen result ≡ right_scope self.now }
        ensures entry { entry_seen result ≡ (store_both self.now).right_entry }
        ensures present { now_seen result ≡ (store_both self.now).right }
    {
        Seen {
            names: self.names,
            variables: self.right,
            side: Side::Right,
            binders: self.binders,
            entry: &self.store.right_entry,
            present: &self.store.right,
        }
    }
}

/// The term at a place, from under `depth` quantifiers; 0 where there is none.
fn term_at(place: Option<u32>, terms: &List<Term>, depth: u32) -> Result<Term, Memory>
    ensures { IfOk result (λ t. trm_of t ≡ lifted depth (term_at place (map trm_of terms.now))) }
{
    match place {
        Some(k) if (k as usize) < terms.len() => lifted(terms.at(k as usize), depth),
        _ => Ok(Term::Int(0)),
    }
}

/// The term of a name that was found, which is the term at a place if no quantifier binds it.
fn found_at(found: Found, place: Option<u32>, terms: &List<Term>) -> Result<Term, Memory>
    ensures { IfOk result (λ t. trm_of t ≡ term_found (found_of found) (term_at place (map trm_of terms.now))) }
{
    match found {
        Found::Inside(n) => Ok(Term::Bound(n)),
        Found::Outside(depth) => term_at(place, terms, depth),
    }
}

/// The term of a variable.
#[tactic(auto, using(crate::proofs::Lookups::variable_under, crate::proofs::Lookups::named_at, crate::proofs::Lookups::place_in_map))]
fn variable(seen: &Seen<'_, '_>, x: &str) -> Result<Term, Memory>
    ensures { IfOk result (λ t. trm_of t ≡ variable_term (numbers_seen seen.now) (scope_seen seen.now) x.now (now_seen seen.now)) }
{
    let found = seen.binders.find(seen.side, x)?;
    found_at(found, seen.variables.place(x), &seen.present.vars)
}

/// The term of a field's map.
#[tactic(auto, using(crate::proofs::Lookups::field_under, crate::proofs::Lookups::named_at, crate::proofs::Lookups::place_in_map))]
pub(crate) fn field(seen: &Seen<'_, '_>, f: &str) -> Result<Term, Memory>
    ensures { IfOk result (λ t. trm_of t ≡ field_term (numbers_seen seen.now) (scope_seen seen.now) f.now (now_seen seen.now)) }
{
    let depth = seen.binders.depth()?;
    term_at(seen.names.fields.place(f), &seen.present.maps, depth)
}

/// The term of the region of what is allocated.
#[tactic(auto, using(crate::proofs::Lookups::alloc_under))]
pub(crate) fn allocated(seen: &Seen<'_, '_>) -> Result<Term, Memory>
    ensures { IfOk result (λ t. trm_of t ≡ (now_seen seen.now).alloc) }
{
    lifted(&seen.present.alloc, seen.binders.depth()?)
}

/// The term of what was found, which is this one if no quantifier binds it.
fn found_or(found: Found, outside: &Term) -> Result<Term, Memory>
    ensures { IfOk result (λ t. trm_of t ≡ term_found (found_of found) (trm_of outside.now)) }
{
    match found {
        Found::Inside(n) => Ok(Term::Bound(n)),
        Found::Outside(depth) => lifted(outside, depth),
    }
}

/// The term of the bijection.
#[tactic(auto, using(crate::proofs::Lookups::bijection_is))]
pub(crate) fn bijection(seen: &BothSeen<'_, '_>) -> Result<Term, Memory>
    ensures { IfOk result (λ t. trm_of t ≡ (store_both seen.now).bij) }
{
    let found = seen.binders.bijection()?;
    found_or(found, &seen.store.bij)
}

/// The term of an expression.
#[cycle(term)]
pub fn term(alloc: Global, seen: &Seen<'_, '_>, e: &Expr) -> Result<Term, Memory>
    ensures { IfOk result (λ t. trm_of t ≡ term_of (numbers_seen seen.now) (scope_seen seen.now) (expression_of e.now) (entry_seen seen.now) (now_seen seen.now)) }
{
    match e {
        Expr::Var(x) => variable(seen, x.as_str()),
        Expr::Num(n) => Ok(Term::Int(*n)),
        Expr::Null => Ok(Term::Null),
        Expr::Empty => Ok(Term::Empty),
        Expr::Alloc => allocated(seen),
        Expr::Add(a, b) => {
            let (a, b) = both(term_boxed(alloc, seen, a), term_boxed(alloc, seen, b))?;
            Ok(Term::Add(a, b))
        }
        Expr::Sub(a, b) => {
            let (a, b) = both(term_boxed(alloc, seen, a), term_boxed(alloc, seen, b))?;
            Ok(Term::Sub(a, b))
        }
        Expr::Mul(n, a) => Ok(Term::Mul(*n, term_boxed(alloc, seen, a)?)),
        Expr::Field(a, f) => {
            let m = boxed(alloc, field(seen, f.as_str()));
            let (m, a) = both(m, term_boxed(alloc, seen, a))?;
            Ok(Term::Sel(m, a))
        }
        Expr::Single(a) => Ok(Term::One(term_boxed(alloc, seen, a)?)),
        Expr::Union(a, b) => {
            let (a, b) = both(term_boxed(alloc, seen, a), term_boxed(alloc, seen, b))?;
            Ok(Term::Cup(a, b))
        }
        Expr::Meet(a, b) => {
            let (a, b) = both(term_boxed(alloc, seen, a), term_boxed(alloc, seen, b))?;
            Ok(Term::Cap(a, b))
        }
        Expr::Minus(a, b) => {
            let (a, b) = both(term_boxed(alloc, seen, a), term_boxed(alloc, seen, b))?;
            Ok(Term::Less(a, b))
        }
        Expr::Image(a, f) => {
            let m = boxed(alloc, field(seen, f.as_str()));
            let (m, a) = both(m, term_boxed(alloc, seen, a))?;
            Ok(Term::Img(m, a))
        }
        Expr::Filter(a, c) => {
            let class = seen.names.class(c.as_str());
            Ok(Term::Of(class, term_boxed(alloc, seen, a)?))
        }
        Expr::Old(a) => {
            let at_entry = Seen {
                present: seen.entry,
                ..*seen
            };
            term(alloc, &at_entry, a.get())
        }
    }
}

#[cycle(term)]
fn term_boxed(alloc: Global, seen: &Seen<'_, '_>, e: &Boxed<Expr>) -> Result<Boxed<Term>, Memory>
    ensures { IfOk result (λ t. trm_of t ≡ term_of (numbers_seen seen.now) (scope_seen seen.now) (expression_of e.now) (entry_seen seen.now) (now_seen seen.now)) }
{
    boxed(alloc, term(alloc, seen, e.get()))
}

/// The term of an expression that no quantifier is around.
pub fn term_outside(
    alloc: Global,
    names: &Names<'_>,
    variables: &Variables<'_>,
    e: &Expr,
    entry: &Store,
    present: &Store,
) -> Result<Term, Memory>
    ensures { let scope = map decl_of variables.now.items.now in
        IfOk result (λ t. trm_of t ≡ term_of (numbers_in names.now) scope (expression_of e.now) (store_of entry.now) (store_of present.now)) }
{
    let seen = Seen {
        names,
        variables,
        side: Side::Left,
        binders: &Binders::Outside,
        entry,
        present,
    };
    term(alloc, &seen, e)
}
