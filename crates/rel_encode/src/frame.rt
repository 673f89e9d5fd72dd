//! The formula that says that only what a writes list names has changed.

ghost use Rattle.std.specs.Prelude.{◌≡◌, ◌||◌, ◌++◌, [], ◌∷◌, if◌then◌else◌, bytes_eq, is_some, OnOk, IfOk, map, take};
ghost use Rattle.rel_lang.specs.Syntax.{Word};
ghost use Rattle.rel_lang.specs.View.{decl_of, place_of, effect_of, expression_of};
ghost use Rattle.rel_logic.specs.Syntax.{Fml, bound, member, eq, no, sel};
ghost use Rattle.rel_logic.specs.View.{trm_of, fml_of};
ghost use Rattle.rel_logic.specs.Equal.{same_trm};
ghost use Rattle.rel_flaws.specs.Entries.{find_entry};
ghost use Rattle.rel_encode.specs.Terms.{lifted, term_of};
ghost use Rattle.rel_encode.specs.Frame.{lists_global, kept_variables, outside_places, kept_field, kept_fields, frame_of};
ghost use Rattle.rel_encode.specs.View.{store_of, numbers_in};
ghost use Rattle.rel_encode.specs.Changes.{AreListed, numbers_before, scope_before, store_before, effects_of};

use crate::builders::{are_equal, both_boxed, boxed, conj, every, is_member, same_terms, value_at};
use crate::names::{Names, Variables};
use crate::store::Store;
use crate::terms::term_outside;
use rel_flaws::index::Index;
use rel_lang::bundle::{Decl, Effect, Place};
use rel_lang::expr::Expr;
use rel_lang::typed::FieldInfo;
use rel_list::{Boxed, List, Memory, both};
use rel_logic::fol::Fol;
use rel_logic::term::{Sort, Term};
use std::alloc::Global;

/// A change of the state, with the writes list that names what may have changed. Its regions are read before.
#[derive(Clone, Copy)]
pub struct Change<'s, 'a> {
    pub names: &'s Names<'a>,
    pub variables: &'s Variables<'a>,
    pub writes: &'s List<Effect>,
    pub before: &'s Store,
    pub after: &'s Store,
}

// ---- variables

/// The variables that are listed.
fn listed(alloc: Global, writes: &List<Effect>) -> Result<Index<'_, bool>, Memory>
    ensures { IfOk result (λ index. AreListed index (map effect_of writes.now)) }
{
    let mut index = Index::new(alloc);
    for i in 0..writes.len() {
        if let Effect::Var(x) = writes.at(i) {
            index.insert(x.as_str(), true)?;
        }
    }
    Ok(index)
}

/// Adds that a variable keeps its value, unless it is listed or the two terms are one.
fn add_kept_variable(
    index: &Index<'_, bool>,
    d: &Decl,
    b: &Term,
    a: &Term,
    facts: &mut List<Fol>,
) -> Result<(), Memory>
    ensures { let is_left_out = is_some (find_entry d.now.name index.now) || same_trm (trm_of b.now) (trm_of a.now) in
        OnOk result (map fml_of facts.new ≡ map fml_of facts.old ++ (if is_left_out then [] else eq (trm_of a.now) (trm_of b.now) ∷ [])) }
{
    if index.has(d.name.as_str()) || same_terms(b, a) {
        return Ok(());
    }
    facts.push(are_equal(a, b)?)
}

/// Adds that the variables that aren't listed keep their values.
fn add_kept_variables(
    alloc: Global,
    change: &Change<'_, '_>,
    scope: &[Decl],
    facts: &mut List<Fol>,
) -> Result<(), Memory>
    ensures { let more = kept_variables (effects_of change.now) (map decl_of scope.now) (map trm_of change.now.before.now.vars) (map trm_of change.now.after.now.vars) in
        OnOk result (map fml_of facts.new ≡ map fml_of facts.old ++ more) }
{
    let index = listed(alloc, change.writes)?;
    let (before, after) = (&change.before.vars, &change.after.vars);
    for i in 0..scope.len().min(before.len()).min(after.len()) {
        add_kept_variable(&index, &scope[i], before.at(i), after.at(i), facts)?;
    }
    Ok(())
}

// ---- fields

/// The term of an expression that is read before.
fn term_before(alloc: Global, change: &Change<'_, '_>, e: &Expr) -> Result<Term, Memory>
    ensures { let st = store_before change.now in
        IfOk result (λ t. trm_of t ≡ term_of (numbers_before change.now) (scope_before change.now) (expression_of e.now) st st) }
{
    let (names, before) = (change.names, change.before);
    term_outside(alloc, names, change.variables, e, before, before)
}

/// The innermost reference isn't in the region of the place.
fn is_outside(alloc: Global, change: &Change<'_, '_>, place: &Place) -> Result<Fol, Memory>
    ensures { let st = store_before change.now in
        let region = term_of (numbers_before change.now) (scope_before change.now) (expression_of place.now.region) st st in
        IfOk result (λ f. fml_of f ≡ no (member (bound 0) (lifted 1 region))) }
{
    let region = term_before(alloc, change, &place.region)?;
    let member = boxed(alloc, is_member(0, &region, 1))?;
    Ok(Fol::Not(member))
}

/// The formula, where the innermost reference isn't in the place, if the place is one of the field.
fn outside_place(
    alloc: Global,
    change: &Change<'_, '_>,
    effect: &Effect,
    f: &str,
    body: Boxed<Fol>,
) -> Result<Boxed<Fol>, Memory>
    ensures { IfOk result (λ g. fml_of g ≡ outside_places (numbers_before change.now) (scope_before change.now) (store_before change.now) (effect_of effect.now ∷ []) f.now (fml_of body)) }
{
    match effect {
        Effect::At(place) if f == place.field.as_str() => {
            let outside = boxed(alloc, is_outside(alloc, change, place))?;
            Boxed::new(alloc, Fol::Imp(outside, body))
        }
        _ => Ok(body),
    }
}

/// The formula, where the innermost reference is in no listed place of the field.
fn outside_places(
    alloc: Global,
    change: &Change<'_, '_>,
    f: &str,
    body: Fol,
) -> Result<Boxed<Fol>, Memory>
    ensures { IfOk result (λ g. fml_of g ≡ outside_places (numbers_before change.now) (scope_before change.now) (store_before change.now) (effects_of change.now) f.now (fml_of body)) }
{
    let n = change.writes.len();
    let mut outside = Boxed::new(alloc, body)?;
    for i in 0..n {
        outside = outside_place(alloc, change, change.writes.at(n - (i + 1)), f, outside)?;
    }
    Ok(outside)
}

fn same_value(alloc: Global, b: &Term, a: &Term) -> Result<Fol, Memory>
    ensures { IfOk result (λ f. fml_of f ≡ eq (sel (lifted 1 (trm_of a.now)) (bound 0)) (sel (lifted 1 (trm_of b.now)) (bound 0))) }
{
    let (a, b) = both(value_at(alloc, a, 1, 0), value_at(alloc, b, 1, 0))?;
    Ok(Fol::Eq(a, b))
}

/// An object that was allocated, and is in no listed place of the field, keeps the field's value.
fn kept_field(
    alloc: Global,
    change: &Change<'_, '_>,
    f: &str,
    b: &Term,
    a: &Term,
) -> Result<Fol, Memory>
    ensures { IfOk result (λ g. fml_of g ≡ kept_field (numbers_before change.now) (scope_before change.now) (store_before change.now) (effects_of change.now) f.now (trm_of b.now) (trm_of a.now)) }
{
    let kept = outside_places(alloc, change, f, same_value(alloc, b, a)?);
    let there = boxed(alloc, is_member(0, &change.before.alloc, 1));
    let (there, kept) = both(there, kept)?;
    every(alloc, Sort::Ref, Fol::Imp(there, kept))
}

/// Adds that a field keeps its values in what isn't listed, unless the two terms are one.
fn add_kept_field(
    alloc: Global,
    change: &Change<'_, '_>,
    d: &FieldInfo,
    b: &Term,
    a: &Term,
    facts: &mut List<Fol>,
) -> Result<(), Memory>
    ensures { let kept = kept_field (numbers_before change.now) (scope_before change.now) (store_before change.now) (effects_of change.now) d.now.name (trm_of b.now) (trm_of a.now) in
        OnOk result (map fml_of facts.new ≡ map fml_of facts.old ++ (if same_trm (trm_of b.now) (trm_of a.now) then [] else kept ∷ [])) }
{
    if same_terms(b, a) {
        return Ok(());
    }
    facts.push(kept_field(alloc, change, d.name.as_str(), b, a)?)
}

/// Adds that each field keeps its values in what isn't listed.
fn add_kept_fields(
    alloc: Global,
    change: &Change<'_, '_>,
    facts: &mut List<Fol>,
) -> Result<(), Memory>
    ensures { let numbers = numbers_before change.now in
        let more = kept_fields numbers (scope_before change.now) (store_before change.now) (effects_of change.now) numbers.fields (map trm_of change.now.before.now.maps) (map trm_of change.now.after.now.maps) in
        OnOk result (map fml_of facts.new ≡ map fml_of facts.old ++ more) }
{
    let names = change.names;
    let fields = names.fields.items;
    let (before, after) = (&change.before.maps, &change.after.maps);
    for i in 0..fields.len().min(before.len()).min(after.len()) {
        add_kept_field(
            alloc,
            change,
            fields.at(i),
            before.at(i),
            after.at(i),
            facts,
        )?;
    }
    Ok(())
}

/// Of the variables the first ones of the scope alone are looked at, as many as are framed.
pub fn frame(alloc: Global, change: &Change<'_, '_>, framed: u32) -> Result<Fol, Memory>
    ensures { IfOk result (λ f. fml_of f ≡ frame_of (numbers_before change.now) (scope_before change.now) framed (effects_of change.now) (store_before change.now) (store_of change.now.after.now)) }
{
    let variables = change.variables;
    let scope = variables.items.as_slice();
    let framed = (framed as usize).min(scope.len());
    let mut facts = List::new(alloc);
    add_kept_variables(alloc, change, &scope[..framed], &mut facts)?;
    add_kept_fields(alloc, change, &mut facts)?;
    conj(alloc, facts)
}
