//! The linear forms of terms and formulas.
ghost use Rattle.std.specs.Prelude.{IfOk, map};
ghost use Rattle.rel_logic.specs.View.{sort_of, trm_of, fml_of};
ghost use Rattle.rules_int.specs.Linear.{form_of, difference, next_difference, bounded_form};
ghost use Rattle.rules_int.specs.Forms.{parts_at};
ghost use Rattle.rules_int.specs.Made.{IsFormOf, IsMultipleOf};

use crate::forms::{Form, atom_form, joined, number_form};
use crate::join::Join;
use crate::parts::Parts;
use rel_list::{Boxed, Memory};
use rel_logic::fol::Fol;
use rel_logic::sequent::Node;
use rel_logic::term::{Sort, Term};
use rules_table::arguments::has_sort;
use std::alloc::Global;

/// A form taken `k` times, if there is one and all its numbers fit.
#[tactic(auto, using(crate::proofs::TermForms::of_terms))]
fn multiple<'a>(
    alloc: Global,
    k: i128,
    form: Option<Form<Parts<'a>>>,
) -> Result<Option<Form<Parts<'a>>>, Memory>
    ensures { IfOk result (IsMultipleOf parts_at k form.entry) }
{
    joined(Some(number_form(alloc, 0)), Join::PlusTimes(k), form)
}

/// The form of a term of ints, if all numbers in it and in its parts fit.
#[cycle(term_form)]
#[tactic(auto, using(crate::proofs::TermForms::of_terms))]
pub fn term_form<'a>(alloc: Global, t: &'a Term) -> Result<Option<Form<Parts<'a>>>, Memory>
    ensures { IfOk result (IsFormOf parts_at (form_of (trm_of t.now))) }
{
    match t {
        Term::Var(_) | Term::Sel(_, _) => Ok(Some(atom_form(alloc, t)?)),
        Term::Int(z) => Ok(Some(number_form(alloc, *z))),
        Term::Add(a, b) => joined(boxed_form(alloc, a)?, Join::Plus, boxed_form(alloc, b)?),
        Term::Sub(a, b) => joined(boxed_form(alloc, a)?, Join::Minus, boxed_form(alloc, b)?),
        Term::Mul(k, a) => multiple(alloc, *k, boxed_form(alloc, a)?),
        _ => Ok(None),
    }
}

#[cycle(term_form)]
fn boxed_form<'a>(alloc: Global, t: &'a Boxed<Term>) -> Result<Option<Form<Parts<'a>>>, Memory>
    ensures { IfOk result (IsFormOf parts_at (form_of (trm_of t.now))) }
{
    term_form(alloc, t.get())
}

/// The form of `t - u`.
#[tactic(auto, using(crate::proofs::TermForms::of_terms))]
pub fn difference<'a>(
    alloc: Global,
    t: &'a Term,
    u: &'a Term,
) -> Result<Option<Form<Parts<'a>>>, Memory>
    ensures { IfOk result (IsFormOf parts_at (difference (trm_of t.now) (trm_of u.now))) }
{
    joined(term_form(alloc, t)?, Join::Minus, term_form(alloc, u)?)
}

/// The form of `t - u + 1`.
#[tactic(auto, using(crate::proofs::TermForms::of_terms))]
fn next_difference<'a>(
    alloc: Global,
    t: &'a Term,
    u: &'a Term,
) -> Result<Option<Form<Parts<'a>>>, Memory>
    ensures { IfOk result (IsFormOf parts_at (next_difference (trm_of t.now) (trm_of u.now))) }
{
    joined(
        term_form(alloc, t)?,
        Join::MinusPlusOne,
        term_form(alloc, u)?,
    )
}

/// The form that is at most 0 where `f` is true, if it may be taken `k` times.
pub fn bounded_form<'a>(
    alloc: Global,
    node: &Node,
    k: i128,
    f: &'a Fol,
) -> Result<Option<Form<Parts<'a>>>, Memory>
    ensures { IfOk result (IsFormOf parts_at (bounded_form (map sort_of node.now.sorts) k (fml_of f.now))) }
{
    match f {
        Fol::Eq(t, u) if has_sort(node, Sort::Int, t) => difference(alloc, t, u),
        Fol::Le(t, u) if k >= 0 => difference(alloc, t, u),
        Fol::Lt(t, u) if k >= 0 => next_difference(alloc, t, u),
        Fol::Not(g) if k >= 0 => match g.get() {
            Fol::Le(t, u) => next_difference(alloc, u, t),
            Fol::Lt(t, u) => difference(alloc, u, t),
            _ => Ok(None),
        },
        _ => Ok(None),
    }
}
