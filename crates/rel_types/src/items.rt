//! What items and their members have wrong.

ghost use Rattle.std.specs.Prelude.{◌≡◌, map, true, false, not, option_map, IfOk, OnOk, ◌++◌};
ghost use Rattle.rel_lang.specs.State as state;
ghost use Rattle.rel_lang.specs.View.{type_of, decl_of, place_of, effect_of, clause_of, rel_clause_of, class_of};
ghost use Rattle.rel_flaws.specs.Flaws.{flawless};
ghost use Rattle.rel_flaws.specs.Inference as inference;
ghost use Rattle.rel_types.specs.Items as items;
ghost use Rattle.rel_types.specs.Lookups.{SameLookups, SameNames, names_in};
ghost use Rattle.rel_types.specs.OwnView.{globals_in};
ghost use Rattle.rel_flaws.specs.View.{scope_of, tables_seen, flaws_of, fault_of, pass_of};

use crate::around::Globals;
use crate::names::{add_names, is_global};
use rel_flaws::formula::flaws_of_formula;
use rel_flaws::index::Index;
use rel_flaws::kind::{Fault, Flaws, Pass};
use rel_flaws::relation::flaws_of_rel;
use rel_flaws::scope::{Scope, Tables};
use rel_flaws::uses::flaws_of_region;
use rel_lang::bundle::{Class, Clause, Decl, Effect, Place, RelClause};
use rel_lang::expr::Ty;
use rel_list::{List, Memory};
use std::alloc::Global;

pub(crate) fn names_unknown_class(tables: &Tables<'_>, ty: &Ty) -> bool
    ensures { result ≡ inference.names_unknown_class (tables_seen tables.now) (type_of ty.now) }
{
    match ty {
        Ty::Class(class) => !tables.has_class(class.as_str()),
        _ => false,
    }
}

pub(crate) fn have_unknown_types(tables: &Tables<'_>, decls: &List<Decl>) -> bool
    ensures { result ≡ inference.have_unknown_types (tables_seen tables.now) (map decl_of decls.now) }
{
    let mut found = false;
    for decl in decls.as_slice() {
        found = found | names_unknown_class(tables, &decl.ty);
    }
    found
}

fn flaws_of_place<'a>(tables: &Tables<'a>, scope: &Scope<'a, '_>, place: &Place) -> Flaws
    ensures { flaws_of result ≡ items.flaws_of_place (tables_seen tables.now) (scope_of scope.now) (place_of place.now) }
{
    let field = Flaws {
        unknown: tables.field(place.field.as_str()).is_none(),
        ..Flaws::none()
    };
    field.either(flaws_of_region(tables, scope, &place.region))
}

/// The places of a boundary.
pub(crate) fn flaws_of_places<'a>(
    tables: &Tables<'a>,
    scope: &Scope<'a, '_>,
    places: &List<Place>,
) -> Flaws
    ensures { flaws_of result ≡ items.flaws_of_all (tables_seen tables.now) (items.flaws_of_place (tables_seen tables.now) (scope_of scope.now)) (map place_of places.now) }
{
    let mut flaws = Flaws::none();
    for place in places.as_slice() {
        flaws = flaws.either(flaws_of_place(tables, scope, place));
    }
    flaws
}

/// A listed global is one of these; a region is read in the scope.
fn flaws_of_effect<'a>(
    tables: &Tables<'a>,
    globals: Globals<'a, '_>,
    scope: &Scope<'a, '_>,
    effect: &Effect,
) -> Flaws
    ensures { flaws_of result ≡ items.flaws_of_effect (tables_seen tables.now) (globals_in globals.entry) (scope_of scope.now) (effect_of effect.now) }
{
    match effect {
        Effect::Var(x) => Flaws {
            unknown: !is_global(globals, x.as_str()),
            ..Flaws::none()
        },
        Effect::At(place) => flaws_of_place(tables, scope, place),
    }
}

/// The effects of a writes list.
pub(crate) fn flaws_of_effects<'a>(
    tables: &Tables<'a>,
    globals: Globals<'a, '_>,
    scope: &Scope<'a, '_>,
    effects: &List<Effect>,
) -> Flaws
    ensures { flaws_of result ≡ items.flaws_of_all (tables_seen tables.now)
        (items.flaws_of_effect (tables_seen tables.now) (globals_in globals.entry) (scope_of scope.now)) (map effect_of effects.now) }
{
    let mut flaws = Flaws::none();
    for effect in effects.as_slice() {
        flaws = flaws.either(flaws_of_effect(tables, globals, scope, effect));
    }
    flaws
}

/// The variables that an item declares, behind those of its interface.
pub(crate) fn flaws_of_globals<'a>(
    alloc: Global,
    tables: &Tables<'a>,
    before: Globals<'a, '_>,
    decls: &'a List<Decl>,
) -> Result<Flaws, Memory>
    ensures { IfOk result (λ f. (sc : state.Scope) → SameLookups (globals_in before.entry) sc
        → flaws_of f ≡ items.flaws_of_globals (tables_seen tables.now) sc (map decl_of decls.now)) }
{
    let mut names = Index::new(alloc);
    let twice = add_names(Some(before), &mut names, decls)?;
    Ok(Flaws {
        twice,
        unknown: have_unknown_types(tables, decls),
        ..Flaws::none()
    })
}

/// The fields of a class, with the names of the fields that stand before, to which they are added.
pub(crate) fn class_fault<'a>(
    tables: &Tables<'a>,
    pass: Pass,
    fields: &mut Index<'a, ()>,
    more: Flaws,
    class: &'a Class,
) -> Result<Option<Fault>, Memory>
    ensures fault { IfOk result (λ f. option_map fault_of f ≡ items.class_fault (tables_seen tables.now) (pass_of pass) (names_in fields.old) (flaws_of more) (class_of class.now)) }
    ensures added { OnOk result (SameNames (names_in fields.new) (items.declared_names (map decl_of class.now.fields) ++ names_in fields.old)) }
{
    let flaws = Flaws {
        twice: add_names(None, fields, &class.fields)?,
        unknown: have_unknown_types(tables, &class.fields),
        ..Flaws::none()
    };
    Ok(more.either(flaws).fault(pass, class.at))
}

/// A formula of a specification, an invariant or an init.
pub(crate) fn clause_fault<'a>(
    tables: &Tables<'a>,
    pass: Pass,
    old: bool,
    scope: &mut Scope<'a, '_>,
    clause: &'a Clause,
) -> Result<Option<Fault>, Memory>
    ensures fault { IfOk result (λ f. option_map fault_of f ≡ items.clause_fault (tables_seen tables.now) (pass_of pass) old (scope_of scope.old) (clause_of clause.now)) }
    ensures scope { IfOk result (λ f. scope.new ≡ scope.old) }
{
    let flaws = flaws_of_formula(tables, scope, old, &clause.formula)?;
    Ok(flaws.fault(pass, clause.at))
}

/// A relation formula of a judgement or a pair.
pub(crate) fn rel_clause_fault<'a>(
    tables: &Tables<'a>,
    pass: Pass,
    old: bool,
    left: &mut Scope<'a, '_>,
    right: &mut Scope<'a, '_>,
    clause: &'a RelClause,
) -> Result<Option<Fault>, Memory>
    ensures fault { IfOk result (λ f. option_map fault_of f ≡ items.rel_clause_fault (tables_seen tables.now) (pass_of pass) old (scope_of left.old) (scope_of right.old) (rel_clause_of clause.now)) }
    ensures left { IfOk result (λ f. left.new ≡ left.old) }
    ensures right { IfOk result (λ f. right.new ≡ right.old) }
{
    let flaws = flaws_of_rel(tables, left, right, old, &clause.formula)?;
    Ok(flaws.fault(pass, clause.at))
}
