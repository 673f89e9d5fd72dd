//! What holds in every well-formed state, and that no object goes.

ghost use Rattle.std.specs.Prelude.{◌≡◌, ◌++◌, [], ◌∷◌, if◌then◌else◌, OnOk, IfOk, map};
ghost use Rattle.rel_lang.specs.View.{type_of, decl_of};
ghost use Rattle.rel_logic.specs.Syntax.{Fml, ref_sort, bound, sel, member, is, and, imp, every};
ghost use Rattle.rel_logic.specs.View.{trm_of, fml_of};
ghost use Rattle.rel_encode.specs.Terms.{lifted};
ghost use Rattle.rel_encode.specs.Facts.{is_a_variable, null_or_of_class, variable_facts, map_facts, facts_of_variables, facts_of_maps, basics, grow};
ghost use Rattle.rel_encode.specs.View.{numbers_in, store_of};

use crate::builders::{
    both_boxed, boxed, every, is_member, is_null, is_of_class, same_terms, subset, value_at,
};
use crate::lifted::lifted;
use crate::names::{Names, Variables};
use crate::store::Store;
use rel_lang::expr::Ty;
use rel_list::{Boxed, List, Memory, both};
use rel_logic::fol::Fol;
use rel_logic::term::{Sort, Term};
use std::alloc::Global;

fn is_a_variable(t: &Term) -> bool
    ensures { result ≡ is_a_variable (trm_of t.now) }
{
    matches!(t, Term::Var(_))
}

fn is_in(t: &Term, g: &Term) -> Result<Fol, Memory>
    ensures { IfOk result (λ f. fml_of f ≡ member (trm_of t.now) (trm_of g.now)) }
{
    let (t, g) = both(t.copy(), g.copy())?;
    Ok(Fol::Member(t, g))
}

fn is_allocated(alloc: Global, class: u32, t: &Term, allocated: &Term) -> Result<Fol, Memory>
    ensures { IfOk result (λ f. fml_of f ≡ and (is class (trm_of t.now)) (member (trm_of t.now) (trm_of allocated.now))) }
{
    let (of_class, member) = both_boxed(alloc, is_of_class(class, t), is_in(t, allocated))?;
    Ok(Fol::And(of_class, member))
}

/// The reference is null, or allocated and of the class.
fn null_or_of_class(alloc: Global, class: u32, t: &Term, allocated: &Term) -> Result<Fol, Memory>
    ensures { IfOk result (λ f. fml_of f ≡ null_or_of_class class (trm_of t.now) (trm_of allocated.now)) }
{
    let there = is_allocated(alloc, class, t, allocated);
    let (null, there) = both_boxed(alloc, is_null(t), there)?;
    Ok(Fol::Or(null, there))
}

/// Adds what holds of the value of a variable.
fn add_variable_facts(
    alloc: Global,
    names: &Names<'_>,
    ty: &Ty,
    t: &Term,
    allocated: &Term,
    facts: &mut List<Fol>,
) -> Result<(), Memory>
    ensures { let more = variable_facts (numbers_in names.now) (trm_of allocated.now) (type_of ty.now) (trm_of t.now) in
        OnOk result (map fml_of facts.new ≡ map fml_of facts.old ++ more) }
{
    match ty {
        Ty::Int => Ok(()),
        Ty::Rgn => facts.push(subset(alloc, t, allocated)?),
        Ty::Class(c) => {
            let class = names.class(c.as_str());
            facts.push(null_or_of_class(alloc, class, t, allocated)?)
        }
    }
}

/// Adds it, if the term is a variable.
fn add_facts_of_variable(
    alloc: Global,
    names: &Names<'_>,
    ty: &Ty,
    t: &Term,
    allocated: &Term,
    facts: &mut List<Fol>,
) -> Result<(), Memory>
    ensures { let more = variable_facts (numbers_in names.now) (trm_of allocated.now) (type_of ty.now) (trm_of t.now) in
        OnOk result (map fml_of facts.new ≡ map fml_of facts.old ++ (if is_a_variable (trm_of t.now) then more else [])) }
{
    if is_a_variable(t) {
        add_variable_facts(alloc, names, ty, t, allocated, facts)
    } else {
        Ok(())
    }
}

/// The references in each region of the map are allocated.
fn regions_are_allocated(alloc: Global, m: &Term, allocated: &Term) -> Result<Fol, Memory>
    ensures { let inside = imp (member (bound 0) (sel (lifted 2 (trm_of m.now)) (bound 1))) (member (bound 0) (lifted 2 (trm_of allocated.now))) in
        IfOk result (λ f. fml_of f ≡ every ref_sort (every ref_sort inside)) }
{
    let region = value_at(alloc, m, 2, 1)?;
    let there = Ok(Fol::Member(Term::Bound(0), region));
    let (there, allocated) = both_boxed(alloc, there, is_member(0, allocated, 2))?;
    let of_members = every(alloc, Sort::Ref, Fol::Imp(there, allocated))?;
    every(alloc, Sort::Ref, of_members)
}

/// Each value of the map is null, or allocated and of the class.
fn values_are_allocated(
    alloc: Global,
    class: u32,
    m: &Term,
    allocated: &Term,
) -> Result<Fol, Memory>
    ensures { let value = sel (lifted 1 (trm_of m.now)) (bound 0) in
        IfOk result (λ f. fml_of f ≡ every ref_sort (null_or_of_class class value (lifted 1 (trm_of allocated.now)))) }
{
    let (value, allocated) = both(value_at(alloc, m, 1, 0), lifted(allocated, 1))?;
    let there = boxed(alloc, null_or_of_class(alloc, class, &value, &allocated))?;
    Ok(Fol::Every(Sort::Ref, there))
}

/// Adds what holds of the values of a field.
fn add_map_facts(
    alloc: Global,
    names: &Names<'_>,
    ty: &Ty,
    m: &Term,
    allocated: &Term,
    facts: &mut List<Fol>,
) -> Result<(), Memory>
    ensures { let more = map_facts (numbers_in names.now) (trm_of allocated.now) (type_of ty.now) (trm_of m.now) in
        OnOk result (map fml_of facts.new ≡ map fml_of facts.old ++ more) }
{
    match ty {
        Ty::Int => Ok(()),
        Ty::Rgn => facts.push(regions_are_allocated(alloc, m, allocated)?),
        Ty::Class(c) => {
            let class = names.class(c.as_str());
            facts.push(values_are_allocated(alloc, class, m, allocated)?)
        }
    }
}

/// Adds it, if the term is a variable.
fn add_facts_of_map(
    alloc: Global,
    names: &Names<'_>,
    ty: &Ty,
    t: &Term,
    allocated: &Term,
    facts: &mut List<Fol>,
) -> Result<(), Memory>
    ensures { let more = map_facts (numbers_in names.now) (trm_of allocated.now) (type_of ty.now) (trm_of t.now) in
        OnOk result (map fml_of facts.new ≡ map fml_of facts.old ++ (if is_a_variable (trm_of t.now) then more else [])) }
{
    if is_a_variable(t) {
        add_map_facts(alloc, names, ty, t, allocated, facts)
    } else {
        Ok(())
    }
}

/// Adds what holds of the variables, in the order of the scope.
fn add_facts_of_variables(
    alloc: Global,
    names: &Names<'_>,
    variables: &Variables<'_>,
    st: &Store,
    facts: &mut List<Fol>,
) -> Result<(), Memory>
    ensures { let more = facts_of_variables (numbers_in names.now) (trm_of st.now.alloc) (map decl_of variables.now.items.now) (map trm_of st.now.vars) in
        OnOk result (map fml_of facts.new ≡ map fml_of facts.old ++ more) }
{
    for i in 0..variables.items.len().min(st.vars.len()) {
        let ty = &variables.items.at(i).ty;
        add_facts_of_variable(alloc, names, ty, st.vars.at(i), &st.alloc, facts)?;
    }
    Ok(())
}

/// Adds what holds of the fields, in order of declaration.
fn add_facts_of_maps(
    alloc: Global,
    names: &Names<'_>,
    st: &Store,
    facts: &mut List<Fol>,
) -> Result<(), Memory>
    ensures { let numbers = numbers_in names.now in
        let more = facts_of_maps numbers (trm_of st.now.alloc) numbers.fields (map trm_of st.now.maps) in
        OnOk result (map fml_of facts.new ≡ map fml_of facts.old ++ more) }
{
    let fields = names.fields.items;
    for i in 0..fields.len().min(st.maps.len()) {
        let ty = &fields.at(i).ty;
        add_facts_of_map(alloc, names, ty, st.maps.at(i), &st.alloc, facts)?;
    }
    Ok(())
}

/// What holds in every well-formed state: of the variables in the order of the scope, and then of the fields.
pub fn facts(
    alloc: Global,
    names: &Names<'_>,
    variables: &Variables<'_>,
    st: &Store,
) -> Result<List<Fol>, Memory>
    ensures { IfOk result (λ l. map fml_of l ≡ basics (numbers_in names.now) (map decl_of variables.now.items.now) (store_of st.now)) }
{
    let mut facts = List::new(alloc);
    add_facts_of_variables(alloc, names, variables, st, &mut facts)?;
    add_facts_of_maps(alloc, names, st, &mut facts)?;
    Ok(facts)
}

/// What was allocated before is so after. Nothing is said where the two terms are one.
pub fn growth(alloc: Global, before: &Term, after: &Term) -> Result<Fol, Memory>
    ensures { IfOk result (λ f. fml_of f ≡ grow (trm_of before.now) (trm_of after.now)) }
{
    if same_terms(before, after) {
        Ok(Fol::True)
    } else {
        subset(alloc, before, after)
    }
}
