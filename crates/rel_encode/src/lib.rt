//! The formulas of the language in the logic, exactly: each is true where the program's formula is.
//!
//! The functions here make the indexes of names anew at each call. Who has many formulas makes `Names` and
//! `Variables` once, and calls the functions of the modules.
#![tactic(auto)]

ghost use Rattle.std.specs.Prelude.{◌≡◌, IfOk, map};
ghost use Rattle.rel_lang.specs.View as language;
ghost use Rattle.rel_lang.specs.View.{decl_of, effect_of, expression_of, formula_of};
ghost use Rattle.rel_logic.specs.View.{trm_of, fml_of};
ghost use Rattle.rel_encode.specs.Numbers.{numbers_of};
ghost use Rattle.rel_encode.specs.Terms as term_trees;
ghost use Rattle.rel_encode.specs.Formulas as formula_trees;
ghost use Rattle.rel_encode.specs.Relations as relation_trees;
ghost use Rattle.rel_encode.specs.Facts as fact_trees;
ghost use Rattle.rel_encode.specs.Frame.{frame_of};
ghost use Rattle.rel_encode.specs.Laws.{IsExactTerm, IsExactFormula, IsExactRelation, AreTrueFacts, IsExactFrame, IsExactInside, IsExactLinkable, IsExactGrowth};
ghost use Rattle.rel_encode.specs.View.{store_of, pair_store_of, numbers_in};

pub mod binders;
pub(crate) mod builders;
pub mod facts;
pub mod formulas;
pub mod frame;
pub mod laws;
pub mod laws_of_states;
pub mod lifted;
pub mod names;
pub mod places;
pub mod relations;
pub mod store;
pub mod terms;

use crate::frame::Change;
use crate::names::{Names, Variables};
use crate::places::Places;
use crate::store::{PairStore, Scope, Store};
use rel_lang::bundle::Effect;
use rel_lang::expr::Expr;
use rel_lang::formula::Formula;
use rel_lang::relation::RelFormula;
use rel_lang::typed::Typed;
use rel_list::{List, Memory, both};
use rel_logic::fol::Fol;
use rel_logic::term::Term;
use std::alloc::Global;

/// The indexes of the names of a bundle and a scope.
fn indexed<'a>(
    alloc: Global,
    t: &'a Typed,
    scope: &'a Scope,
) -> Result<(Names<'a>, Variables<'a>), Memory>
    ensures { IfOk result (λ p. (numbers_in p.0 ≡ numbers_of t.now) × (p.1.items.now ≡ scope.now)) }
{
    both(Names::new(alloc, t), Places::new(alloc, scope))
}

/// The term of an expression.
pub fn term_of(
    alloc: Global,
    t: &Typed,
    scope: &Scope,
    e: &Expr,
    entry: &Store,
    present: &Store,
) -> Result<Term, Memory>
    ensures tree { let numbers = numbers_of t.now in
        let ds = map decl_of scope.now in
        IfOk result (λ u. trm_of u ≡ term_trees.term_of numbers ds (expression_of e.now) (store_of entry.now) (store_of present.now)) }
    ensures exact { let numbers = numbers_of t.now in
        let ds = map decl_of scope.now in
        IfOk result (λ u. IsExactTerm numbers ds (expression_of e.now) (store_of entry.now) (store_of present.now) (trm_of u)) }
{
    let (names, variables) = indexed(alloc, t, scope)?;
    terms::term_outside(alloc, &names, &variables, e, entry, present)
}

/// The formula of the logic that says what the formula says.
pub fn fol_of(
    alloc: Global,
    t: &Typed,
    scope: &Scope,
    p: &Formula,
    entry: &Store,
    present: &Store,
) -> Result<Fol, Memory>
    ensures tree { let numbers = numbers_of t.now in
        let ds = map decl_of scope.now in
        IfOk result (λ f. fml_of f ≡ formula_trees.fol_of numbers ds (formula_of p.now) (store_of entry.now) (store_of present.now)) }
    ensures exact { let numbers = numbers_of t.now in
        let ds = map decl_of scope.now in
        IfOk result (λ f. IsExactFormula numbers ds (formula_of p.now) (store_of entry.now) (store_of present.now) (fml_of f)) }
{
    let (names, variables) = indexed(alloc, t, scope)?;
    formulas::formula_outside(alloc, &names, &variables, p, entry, present)
}

/// The formula of the logic that says what the relation formula says.
pub fn rel_of(
    alloc: Global,
    t: &Typed,
    left: &Scope,
    right: &Scope,
    r: &RelFormula,
    s: &PairStore,
) -> Result<Fol, Memory>
    ensures tree { let numbers = numbers_of t.now in
        let ls = map decl_of left.now in
        let rs = map decl_of right.now in
        IfOk result (λ f. fml_of f ≡ relation_trees.rel_of numbers ls rs (language.rel_of r.now) (pair_store_of s.now)) }
    ensures exact { let numbers = numbers_of t.now in
        let ls = map decl_of left.now in
        let rs = map decl_of right.now in
        IfOk result (λ f. IsExactRelation numbers ls rs (language.rel_of r.now) (pair_store_of s.now) (fml_of f)) }
{
    let (names, left) = indexed(alloc, t, left)?;
    let right = Places::new(alloc, right)?;
    relations::relation_outside(alloc, &names, &left, &right, r, s)
}

/// What holds in every well-formed state: of the variables in the order of the scope, and then of the fields.
pub fn basics(alloc: Global, t: &Typed, scope: &Scope, s: &Store) -> Result<List<Fol>, Memory>
    ensures tree { IfOk result (λ l. map fml_of l ≡ fact_trees.basics (numbers_of t.now) (map decl_of scope.now) (store_of s.now)) }
    ensures exact { let numbers = numbers_of t.now in
        let ds = map decl_of scope.now in
        IfOk result (λ l. AreTrueFacts numbers ds (store_of s.now) (map fml_of l)) }
{
    let (names, variables) = indexed(alloc, t, scope)?;
    facts::facts(alloc, &names, &variables, s)
}

/// The formula that says that only what the writes list names has changed. Of the variables it speaks of the first ones of the scope alone,
/// as many as are framed.
pub fn frame_formula(
    alloc: Global,
    t: &Typed,
    scope: &Scope,
    framed: u32,
    writes: &List<Effect>,
    before: &Store,
    after: &Store,
) -> Result<Fol, Memory>
    ensures tree { let numbers = numbers_of t.now in
        let ds = map decl_of scope.now in
        IfOk result (λ f. fml_of f ≡ frame_of numbers ds framed (map effect_of writes.now) (store_of before.now) (store_of after.now)) }
    ensures exact { let numbers = numbers_of t.now in
        let ds = map decl_of scope.now in
        IfOk result (λ f. IsExactFrame numbers ds framed (map effect_of writes.now) (store_of before.now) (store_of after.now) (fml_of f)) }
{
    let (names, variables) = indexed(alloc, t, scope)?;
    let change = Change {
        names: &names,
        variables: &variables,
        writes,
        before,
        after,
    };
    frame::frame(alloc, &change, framed)
}

/// Every pair is of references that are allocated on their sides.
pub fn inside(alloc: Global, p: &Term, left: &Term, right: &Term) -> Result<Fol, Memory>
    ensures tree { IfOk result (λ f. fml_of f ≡ relation_trees.inside (trm_of p.now) (trm_of left.now) (trm_of right.now)) }
    ensures exact { IfOk result (λ f. IsExactInside (trm_of p.now) (trm_of left.now) (trm_of right.now) (fml_of f)) }
{
    relations::inside(alloc, p, left, right)
}

/// The two references are of the class, and neither has a partner.
pub fn linkable(alloc: Global, class: u32, p: &Term, a: &Term, b: &Term) -> Result<Fol, Memory>
    ensures tree { IfOk result (λ f. fml_of f ≡ relation_trees.linkable class (trm_of p.now) (trm_of a.now) (trm_of b.now)) }
    ensures exact { IfOk result (λ f. IsExactLinkable class (trm_of p.now) (trm_of a.now) (trm_of b.now) (fml_of f)) }
{
    relations::linkable(alloc, class, p, a, b)
}

/// What was allocated before is so after. Nothing is said where the two terms are one.
pub fn grow(alloc: Global, before: &Term, after: &Term) -> Result<Fol, Memory>
    ensures tree { IfOk result (λ f. fml_of f ≡ fact_trees.grow (trm_of before.now) (trm_of after.now)) }
    ensures exact { IfOk result (λ f. IsExactGrowth (trm_of before.now) (trm_of after.now) (fml_of f)) }
{
    facts::growth(alloc, before, after)
}
