//! The rows on references, classes and regions.
ghost use Rattle.std.specs.Prelude.{◌≡◌, ◌↔◌, ◌&&◌, ◌<◌, ◌^◌, [], None, Some, IfOk, IsTrue, MatchOption, if◌then◌else◌, length};
ghost use Rattle.rel_logic.specs.View.{trm_of, fml_of, node_of};
ghost use Rattle.rules_table.specs.Nodes.{kids, IsSound};
ghost use Rattle.rules_table.specs.Table.{holds, formula, the_formula};
ghost use Rattle.rules_table.specs.View.{step_of, outcome_of};
ghost use Rattle.rules_set.specs.Table.{membership, non_membership, are_apart, istwo_row, is_in_empty, closes, regions};
ghost use Rattle.rules_set.specs.Law.{loses_no_model, adds_sorted};

use crate::rules::{
    extensionality, in_empty, in_filter, in_image, in_meet, in_minus, in_single, in_union,
    is_empty, not_in_filter, not_in_image, not_in_meet, not_in_minus, not_in_single, not_in_union,
    not_null,
};
use rel_list::Memory;
use rel_logic::fol::Fol;
use rel_logic::sequent::Node;
use rel_logic::term::Term;
use rules_table::arguments::{formula_at, holds, same_terms, term, the_formula};
use rules_table::step::Step;
use rules_table::theory::{Answer, Theory, closing};
use rules_table::{at, rows};
use std::alloc::Global;

/// The membership that the formula with the step's one number says.
fn within<'a>(node: &'a Node, step: &Step) -> Option<(&'a Term, &'a Term)>
    requires { IsSound (node_of node.now) }
    ensures { let there = membership (the_formula (node_of node.now) (step_of step.now)) in
        MatchOption result (there ≡ None) (λ p. there ≡ Some (trm_of p.0.now, trm_of p.1.now)) }
{
    match the_formula(node, step, 0)? {
        Fol::Member(a, g) => Some((a, g)),
        _ => None,
    }
}

/// The membership that the formula with the step's one number denies, where the step holds so many terms.
fn outside<'a>(node: &'a Node, step: &Step, terms: usize) -> Option<(&'a Term, &'a Term)>
    requires { IsSound (node_of node.now) }
    ensures { let s = step_of step.now in
        let there = non_membership (if holds 1 terms 0 s then formula (node_of node.now) s 0 else None) in
        MatchOption result (there ≡ None) (λ p. there ≡ Some (trm_of p.0.now, trm_of p.1.now)) }
{
    match the_formula(node, step, terms)? {
        Fol::Not(f) => match f.get() {
            Fol::Member(a, g) => Some((a, g)),
            _ => None,
        },
        _ => None,
    }
}

/// Whether the two formulas say that one reference is of two classes.
fn are_apart(f: &Fol, g: &Fol) -> bool
    ensures { result ≡ are_apart (Some (fml_of f.now)) (Some (fml_of g.now)) }
{
    match f {
        Fol::Is(c, a) => match g {
            Fol::Is(d, b) => same_terms(a, b) && *c != *d,
            _ => false,
        },
        _ => false,
    }
}

/// Whether the two formulas that the step names say that one reference is of two classes.
fn closes_by_classes(node: &Node, step: &Step) -> bool
    ensures { let n = node_of node.now in
        let s = step_of step.now in
        result ≡ holds 2 0 0 s && are_apart (formula n s 0) (formula n s 1) }
{
    if !holds(step, 2, 0, 0) {
        return false;
    }
    let Some(f) = formula_at(node, *step.nums.at(0)) else {
        return false;
    };
    let Some(g) = formula_at(node, *step.nums.at(1)) else {
        return false;
    };
    are_apart(f, g)
}

fn two_classes(alloc: Global, node: &Node, step: &Step) -> Answer
    ensures { outcome_of result ≡ istwo_row (node_of node.now) (step_of step.now) }
{
    if closes_by_classes(node, step) {
        closing(alloc, 28)
    } else {
        Answer::Bad
    }
}

/// What the step comes to by rows 27 to 42.
fn apply_row(alloc: Global, node: &Node, step: &Step) -> Result<Answer, Memory>
    requires sound { IsSound (node_of node.now) }
    requires room { length node.now.sorts < 2 ^ 31 }
    ensures { IfOk result (λ a. outcome_of a ≡ regions (node_of node.now) (step_of step.now)) }
{
    rows! { step.row;
        27 => at!(f = the_formula(node, step, 0) => not_null(alloc, f)),
        28 => Ok(two_classes(alloc, node, step)),
        29 => at!(p = within(node, step) => Ok(in_empty(alloc, p.1))),
        30 => at!(p = within(node, step) => in_single(alloc, p.0, p.1)),
        31 => at!(p = outside(node, step, 0) => not_in_single(alloc, p.0, p.1)),
        32 => at!(p = within(node, step) => in_union(alloc, p.0, p.1)),
        33 => at!(p = outside(node, step, 0) => not_in_union(alloc, p.0, p.1)),
        34 => at!(p = within(node, step) => in_meet(alloc, p.0, p.1)),
        35 => at!(p = outside(node, step, 0) => not_in_meet(alloc, p.0, p.1)),
        36 => at!(p = within(node, step) => in_minus(alloc, p.0, p.1)),
        37 => at!(p = outside(node, step, 0) => not_in_minus(alloc, p.0, p.1)),
        38 => at!(p = within(node, step) => in_filter(alloc, p.0, p.1)),
        39 => at!(p = outside(node, step, 0) => not_in_filter(alloc, p.0, p.1)),
        40 => at!(p = within(node, step) => in_image(alloc, node, p.0, p.1)),
        41 => at!(p = outside(node, step, 1), t = term(step, 0) => not_in_image(alloc, node, t, p.0, p.1)),
        42 => at!(f = the_formula(node, step, 0) => extensionality(alloc, node, f)),
    }
}

/// Whether the formula that the step names says that something is in the empty region.
fn closes_by_emptiness(node: &Node, step: &Step) -> bool
    requires { IsSound (node_of node.now) }
    ensures { result ≡ is_in_empty (membership (the_formula (node_of node.now) (step_of step.now))) }
{
    match within(node, step) {
        Some(p) => is_empty(p.1),
        None => false,
    }
}

fn meets_closing_row(node: &Node, step: &Step) -> bool
    requires { IsSound (node_of node.now) }
    ensures { result ≡ closes (node_of node.now) (step_of step.now) }
{
    match step.row {
        28 => closes_by_classes(node, step),
        29 => closes_by_emptiness(node, step),
        _ => false,
    }
}

/// Whether the step closes the node, which takes no memory to tell.
pub fn closes(node: &Node, step: &Step) -> bool
    requires { IsSound (node_of node.now) }
    ensures { IsTrue result ↔ (regions (node_of node.now) (step_of step.now) ≡ kids []) }
{
    meets_closing_row(node, step)
}

/// Rows 27 to 42: the rules on references, classes and regions.
#[derive(Clone, Copy, Drop)]
pub struct Regions;

impl Theory for Regions {
    ghost outcome = { regions };

    ghost keeps = { loses_no_model };

    ghost sorted = { adds_sorted };

    #[tactic(auto, using(rules_table::proofs::Closed::has_room))]
    fn apply(&self, alloc: Global, node: &Node, step: &Step) -> Result<Answer, Memory> {
        apply_row(alloc, node, step)
    }
}
