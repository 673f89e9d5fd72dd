//! The rules on equality, maps and bijections, on their arguments.
ghost use Rattle.std.specs.Prelude.{◌≡◌, ◌≤◌, [], IfOk, IsTrue, map};
ghost use Rattle.rel_logic.specs.View.{sort_of, trm_of, fml_of};
ghost use Rattle.rel_logic.specs.Bounds.{free_bound_term, free_bound_of};
ghost use Rattle.rel_logic.specs.Sorting.{sort_at};
ghost use Rattle.rules_table.specs.View.{outcome_of};
ghost use Rattle.rules_eq.specs.Table.{given, refl_row, readhit_row, past_stored, readmiss_row, extrefl_row, addext_row, addlink_row, has_hole, replace_row, bijone_row, bijclass_row, extpair_row, exttrans_row, addpair_row};

use crate::terms::{both_ways, can_be_linked, extends, implies, linked, partners, stored};
use rel_list::Memory;
use rel_logic::fol::Fol;
use rel_logic::sequent::Node;
use rel_logic::sorting::{body_sorted, term_sort, well_sorted};
use rel_logic::substitution::instantiate;
use rel_logic::term::Term;
use rules_table::arguments::{same_forms, same_terms};
use rules_table::terms::{equal, of_class, selected};
use rules_table::theory::{Added, Answer, adding, one_child, two_children};
use std::alloc::Global;

/// A child with a copy of the formula, where it is well sorted.
fn given(alloc: Global, node: &Node, number: u8, f: &Fol) -> Result<Answer, Memory>
    ensures { IfOk result (λ a. outcome_of a ≡ given (map sort_of node.now.sorts) (fml_of f.now)) }
{
    if well_sorted(f, node.sorts.as_slice()) {
        one_child(alloc, number, Added::nothing(alloc).with_copy(f)?)
    } else {
        Ok(Answer::Bad)
    }
}

/// A term is itself.
pub fn reflexivity(alloc: Global, node: &Node, t: &Term) -> Result<Answer, Memory>
    ensures { IfOk result (λ a. outcome_of a ≡ refl_row (map sort_of node.now.sorts) (trm_of t.now)) }
{
    Ok(given(alloc, node, 15, &equal(t, t)?)?)
}

/// A map with a value has it there.
pub fn read_hit(alloc: Global, node: &Node, m: &Term, a: &Term, v: &Term) -> Result<Answer, Memory>
    ensures { IfOk result (λ o. outcome_of o ≡ readhit_row (map sort_of node.now.sorts) (trm_of m.now) (trm_of a.now) (trm_of v.now)) }
{
    let read = selected(alloc, stored(alloc, m, a, v)?, a)?;
    Ok(given(alloc, node, 17, &equal(&read, v)?)?)
}

/// What a map with a value has at `b`, as if the value were elsewhere.
fn past_stored(alloc: Global, m: &Term, a: &Term, v: &Term, b: &Term) -> Result<Fol, Memory>
    ensures { IfOk result (λ f. fml_of f ≡ past_stored (trm_of m.now) (trm_of a.now) (trm_of v.now) (trm_of b.now)) }
{
    let read = selected(alloc, stored(alloc, m, a, v)?, b)?;
    let own = selected(alloc, m.copy()?, b)?;
    Ok(Fol::Eq(read, own))
}

/// A map with a value has its own value anywhere else.
pub fn read_miss(
    alloc: Global,
    node: &Node,
    m: &Term,
    a: &Term,
    v: &Term,
    b: &Term,
) -> Result<Answer, Memory>
    ensures { IfOk result (λ o. outcome_of o ≡ readmiss_row (map sort_of node.now.sorts) (trm_of m.now) (trm_of a.now) (trm_of v.now) (trm_of b.now)) }
{
    let past = past_stored(alloc, m, a, v, b)?;
    if !well_sorted(&past, node.sorts.as_slice()) {
        return Ok(Answer::Bad);
    }
    let here = equal(a, b)?;
    let second = Added::nothing(alloc).with_not(alloc, &here)?.with(past)?;
    let first = Added::nothing(alloc).with(here)?;
    two_children(alloc, 18, first, second)
}

/// A bijection extends itself.
pub fn self_extension(alloc: Global, node: &Node, p: &Term) -> Result<Answer, Memory>
    ensures { IfOk result (λ a. outcome_of a ≡ extrefl_row (map sort_of node.now.sorts) (trm_of p.now)) }
{
    Ok(given(alloc, node, 22, &extends(p, p)?)?)
}

/// A link extends its bijection.
pub fn link_extension(
    alloc: Global,
    node: &Node,
    p: &Term,
    a: &Term,
    b: &Term,
) -> Result<Answer, Memory>
    ensures { IfOk result (λ o. outcome_of o ≡ addext_row (map sort_of node.now.sorts) (trm_of p.now) (trm_of a.now) (trm_of b.now)) }
{
    let link = linked(alloc, p, a, b)?;
    Ok(given(alloc, node, 24, &extends(p, &link)?)?)
}

/// A link of two of the class without partners pairs them.
pub fn linked_pair(
    alloc: Global,
    node: &Node,
    p: &Term,
    a: &Term,
    b: &Term,
    c: u32,
) -> Result<Answer, Memory>
    ensures { IfOk result (λ o. outcome_of o ≡ addlink_row (map sort_of node.now.sorts) (trm_of p.now) (trm_of a.now) (trm_of b.now) c) }
{
    let link = linked(alloc, p, a, b)?;
    let pair = partners(&link, a, b)?;
    let can = can_be_linked(alloc, c, p, a, b)?;
    Ok(given(alloc, node, 26, &implies(alloc, can, pair)?)?)
}

/// Whether the formula has a hole of the sort of `t`. Then `t` is closed.
fn has_hole(node: &Node, t: &Term, k: &Fol) -> bool
    ensures exact { let sorts = map sort_of node.now.sorts in
        result ≡ has_hole sorts (sort_at sorts [] (trm_of t.now)) (fml_of k.now) }
    ensures closed { IsTrue result → free_bound_term (trm_of t.now) ≡ 0 }
    ensures one { IsTrue result → free_bound_of (fml_of k.now) ≤ 1 }
{
    match term_sort(t, node.sorts.as_slice()) {
        Some(sort) => body_sorted(k, sort, node.sorts.as_slice()),
        None => false,
    }
}

/// What holds of one side of an equation holds of the other.
pub fn replacement(alloc: Global, node: &Node, f: &Fol, g: &Fol, k: &Fol) -> Result<Answer, Memory>
    requires { free_bound_of (fml_of f.now) ≡ 0 }
    ensures { IfOk result (λ a. outcome_of a ≡ replace_row (map sort_of node.now.sorts) (fml_of f.now) (fml_of g.now) (fml_of k.now)) }
{
    match f {
        Fol::Eq(t, u) => {
            if !has_hole(node, t, k) {
                return Ok(Answer::Bad);
            }
            let at_t = instantiate(k, t)?;
            if !same_forms(&at_t, g) {
                return Ok(Answer::Bad);
            }
            let at_u = instantiate(k, u)?;
            adding(alloc, 16, at_u)
        }
        _ => Ok(Answer::Bad),
    }
}

/// Partners are one to one.
pub fn one_to_one(alloc: Global, f: &Fol, g: &Fol) -> Result<Answer, Memory>
    ensures { IfOk result (λ o. outcome_of o ≡ bijone_row (fml_of f.now) (fml_of g.now)) }
{
    match f {
        Fol::Paired(p, a, b) => match g {
            Fol::Paired(q, e, h) => {
                if !same_terms(p, q) {
                    return Ok(Answer::Bad);
                }
                let alike = both_ways(alloc, &equal(a, e)?, &equal(b, h)?)?;
                adding(alloc, 19, alike)
            }
            _ => Ok(Answer::Bad),
        },
        _ => Ok(Answer::Bad),
    }
}

/// Partners are of one class.
pub fn one_class(alloc: Global, f: &Fol, c: u32) -> Result<Answer, Memory>
    ensures { IfOk result (λ o. outcome_of o ≡ bijclass_row (fml_of f.now) c) }
{
    match f {
        Fol::Paired(_, a, b) => {
            let alike = both_ways(alloc, &of_class(c, a)?, &of_class(c, b)?)?;
            adding(alloc, 20, alike)
        }
        _ => Ok(Answer::Bad),
    }
}

/// An extension keeps the pairs.
pub fn kept_pair(alloc: Global, f: &Fol, g: &Fol) -> Result<Answer, Memory>
    ensures { IfOk result (λ o. outcome_of o ≡ extpair_row (fml_of f.now) (fml_of g.now)) }
{
    match f {
        Fol::Ext(p, q) => match g {
            Fol::Paired(o, a, b) => {
                if !same_terms(p, o) {
                    return Ok(Answer::Bad);
                }
                adding(alloc, 21, partners(q, a, b)?)
            }
            _ => Ok(Answer::Bad),
        },
        _ => Ok(Answer::Bad),
    }
}

/// An extension of an extension is one.
pub fn transitivity(alloc: Global, f: &Fol, g: &Fol) -> Result<Answer, Memory>
    ensures { IfOk result (λ a. outcome_of a ≡ exttrans_row (fml_of f.now) (fml_of g.now)) }
{
    match f {
        Fol::Ext(p, q) => match g {
            Fol::Ext(o, r) => {
                if !same_terms(q, o) {
                    return Ok(Answer::Bad);
                }
                adding(alloc, 23, extends(p, r)?)
            }
            _ => Ok(Answer::Bad),
        },
        _ => Ok(Answer::Bad),
    }
}

/// A link's pairs are the bijection's and the added one.
pub fn pair_of_link(alloc: Global, f: &Fol) -> Result<Answer, Memory>
    ensures { IfOk result (λ o. outcome_of o ≡ addpair_row (fml_of f.now)) }
{
    match f {
        Fol::Paired(link, e, h) => match link {
            Term::Link(p, a, b) => {
                let old = Added::nothing(alloc).with(partners(p.get(), e, h)?)?;
                let left = Added::nothing(alloc).with(equal(e, a.get())?)?;
                two_children(alloc, 25, old, left.with(equal(h, b.get())?)?)
            }
            _ => Ok(Answer::Bad),
        },
        _ => Ok(Answer::Bad),
    }
}
