//! The formulas of the logic for formulas of the language.

ghost use Rattle.std.specs.Prelude.{◌≡◌, ◌∷◌, map, IfOk};
ghost use Rattle.rel_lang.specs.View.{decl_of, expression_of, formula_of};
ghost use Rattle.rel_logic.specs.View.{trm_of, fml_of};
ghost use Rattle.rel_encode.specs.Terms.{bound_store, member_declared, term_of};
ghost use Rattle.rel_encode.specs.Formulas.{subset, each_member, some_member, fol_of};
ghost use Rattle.rel_encode.specs.Numbers.{number_of_class};
ghost use Rattle.rel_encode.specs.View.{store_of, numbers_in};
ghost use Rattle.rel_encode.specs.Seen.{numbers_seen, scope_seen, entry_seen, now_seen};

use crate::binders::{Binder, Binders};
use crate::builders::{boxed, each_member, some_member, subset};
use crate::names::{Names, Variables};
use crate::store::Store;
use crate::terms::{Seen, term};
use rel_lang::expr::{Expr, Side};
use rel_lang::formula::Formula;
use rel_list::{Boxed, Memory, both};
use rel_logic::fol::Fol;
use rel_logic::term::Term;
use std::alloc::Global;

/// The terms of two expressions.
fn operands(alloc: Global, seen: &Seen<'_, '_>, a: &Expr, b: &Expr) -> Result<(Term, Term), Memory>
    ensures { let left = term_of (numbers_seen seen.now) (scope_seen seen.now) (expression_of a.now) (entry_seen seen.now) (now_seen seen.now) in
        let right = term_of (numbers_seen seen.now) (scope_seen seen.now) (expression_of b.now) (entry_seen seen.now) (now_seen seen.now) in
        IfOk result (λ p. (trm_of p.0 ≡ left) × (trm_of p.1 ≡ right)) }
{
    both(term(alloc, seen, a), term(alloc, seen, b))
}

fn subset_of(alloc: Global, seen: &Seen<'_, '_>, g: &Expr, h: &Expr) -> Result<Fol, Memory>
    ensures { let inner = term_of (numbers_seen seen.now) (scope_seen seen.now) (expression_of g.now) (entry_seen seen.now) (now_seen seen.now) in
        let outer = term_of (numbers_seen seen.now) (scope_seen seen.now) (expression_of h.now) (entry_seen seen.now) (now_seen seen.now) in
        IfOk result (λ f. fml_of f ≡ subset inner outer) }
{
    let (g, h) = operands(alloc, seen, g, h)?;
    subset(alloc, &g, &h)
}

/// Of each member of the region, of the class, the body.
pub(crate) fn each_of(
    alloc: Global,
    seen: &Seen<'_, '_>,
    class: &str,
    g: &Expr,
    body: Boxed<Fol>,
) -> Result<Fol, Memory>
    ensures { let numbers = numbers_seen seen.now in
        let region = term_of numbers (scope_seen seen.now) (expression_of g.now) (entry_seen seen.now) (now_seen seen.now) in
        IfOk result (λ f. fml_of f ≡ each_member (number_of_class numbers class.now) region (fml_of body)) }
{
    let region = term(alloc, seen, g)?;
    each_member(alloc, seen.names.class(class), &region, body)
}

/// Of some member of the region, of the class, the body.
pub(crate) fn some_of(
    alloc: Global,
    seen: &Seen<'_, '_>,
    class: &str,
    g: &Expr,
    body: Boxed<Fol>,
) -> Result<Fol, Memory>
    ensures { let numbers = numbers_seen seen.now in
        let region = term_of numbers (scope_seen seen.now) (expression_of g.now) (entry_seen seen.now) (now_seen seen.now) in
        IfOk result (λ f. fml_of f ≡ some_member (number_of_class numbers class.now) region (fml_of body)) }
{
    let region = term(alloc, seen, g)?;
    some_member(alloc, seen.names.class(class), &region, body)
}

/// The formula of the logic that says what the formula says.
#[cycle(formula)]
pub fn formula(alloc: Global, seen: &Seen<'_, '_>, p: &Formula) -> Result<Fol, Memory>
    ensures { IfOk result (λ f. fml_of f ≡ fol_of (numbers_seen seen.now) (scope_seen seen.now) (formula_of p.now) (entry_seen seen.now) (now_seen seen.now)) }
{
    match p {
        Formula::True => Ok(Fol::True),
        Formula::False => Ok(Fol::False),
        Formula::Eq(a, b) => {
            let (a, b) = operands(alloc, seen, a, b)?;
            Ok(Fol::Eq(a, b))
        }
        Formula::Lt(a, b) => {
            let (a, b) = operands(alloc, seen, a, b)?;
            Ok(Fol::Lt(a, b))
        }
        Formula::Le(a, b) => {
            let (a, b) = operands(alloc, seen, a, b)?;
            Ok(Fol::Le(a, b))
        }
        Formula::Member(a, g) => {
            let (a, g) = operands(alloc, seen, a, g)?;
            Ok(Fol::Member(a, g))
        }
        Formula::Subset(g, h) => subset_of(alloc, seen, g, h),
        Formula::Not(p) => Ok(Fol::Not(formula_boxed(alloc, seen, p)?)),
        Formula::And(p, q) => {
            let (f, g) = both(formula_boxed(alloc, seen, p), formula_boxed(alloc, seen, q))?;
            Ok(Fol::And(f, g))
        }
        Formula::Or(p, q) => {
            let (f, g) = both(formula_boxed(alloc, seen, p), formula_boxed(alloc, seen, q))?;
            Ok(Fol::Or(f, g))
        }
        Formula::Implies(p, q) => {
            let (f, g) = both(formula_boxed(alloc, seen, p), formula_boxed(alloc, seen, q))?;
            Ok(Fol::Imp(f, g))
        }
        Formula::Every(x, c, g, p) => {
            let body = formula_under(alloc, seen, x.as_str(), c.as_str(), p)?;
            each_of(alloc, seen, c.as_str(), g, body)
        }
        Formula::Exists(x, c, g, p) => {
            let body = formula_under(alloc, seen, x.as_str(), c.as_str(), p)?;
            some_of(alloc, seen, c.as_str(), g, body)
        }
    }
}

#[cycle(formula)]
fn formula_boxed(
    alloc: Global,
    seen: &Seen<'_, '_>,
    p: &Boxed<Formula>,
) -> Result<Boxed<Fol>, Memory>
    ensures { IfOk result (λ f. fml_of f ≡ fol_of (numbers_seen seen.now) (scope_seen seen.now) (formula_of p.now) (entry_seen seen.now) (now_seen seen.now)) }
{
    boxed(alloc, formula(alloc, seen, p.get()))
}

/// The body of a quantifier over the members of a region, of the class.
#[cycle(formula)]
fn formula_under(
    alloc: Global,
    seen: &Seen<'_, '_>,
    x: &str,
    class: &str,
    p: &Boxed<Formula>,
) -> Result<Boxed<Fol>, Memory>
    ensures { let scope = member_declared x.now class.now ∷ scope_seen seen.now in
        IfOk result (λ f. fml_of f ≡ fol_of (numbers_seen seen.now) scope (formula_of p.now) (bound_store (entry_seen seen.now)) (bound_store (now_seen seen.now))) }
{
    let binder = match seen.side {
        Side::Left => Binder::Left(x, class),
        Side::Right => Binder::Right(x, class),
    };
    let binders = Binders::Under(binder, seen.binders);
    let inner = Seen {
        binders: &binders,
        ..*seen
    };
    boxed(alloc, formula(alloc, &inner, p.get()))
}

/// The formula of the logic for a formula that no quantifier is around.
pub fn formula_outside(
    alloc: Global,
    names: &Names<'_>,
    variables: &Variables<'_>,
    p: &Formula,
    entry: &Store,
    present: &Store,
) -> Result<Fol, Memory>
    ensures { let scope = map decl_of variables.now.items.now in
        IfOk result (λ f. fml_of f ≡ fol_of (numbers_in names.now) scope (formula_of p.now) (store_of entry.now) (store_of present.now)) }
{
    let seen = Seen {
        names,
        variables,
        side: Side::Left,
        binders: &Binders::Outside,
        entry,
        present,
    };
    formula(alloc, &seen, p)
}
