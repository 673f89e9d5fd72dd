//! The rules on connectives and quantifiers.
ghost use Rattle.std.specs.Prelude.{◌≡◌, ◌↔◌, ◌&&◌, ◌<◌, ◌^◌, [], IfOk, IsTrue, MatchOption, if◌then◌else◌, length, map, slice_get};
ghost use Rattle.rel_logic.specs.View.{sort_of, trm_of, fml_of, node_of};
ghost use Rattle.rel_logic.specs.Bounds.{free_bound_of};
ghost use Rattle.rel_logic.specs.Equal.{same_fml};
ghost use Rattle.rules_table.specs.Table.{is_absurd, absurd_row, and_row, nor_row, nimp_row, nn_row, or_row, nand_row, imp_row, some_row, nall_row, all_row, nsome_row};
ghost use Rattle.rules_table.specs.Table.{counts, holds, formula, the_formula, is_some_absurd, closes, given_formula, are_opposite, close_row, cut_formula, propositional};
ghost use Rattle.rules_table.specs.Nodes.{kids, IsSound};
ghost use Rattle.rules_table.specs.Law.{loses_no_model, adds_sorted};
ghost use Rattle.rules_table.specs.View.{step_of, outcome_of};

use crate::arguments::{form, formula_at, has_sort, holds, same_forms, term, the_formula};
use crate::step::Step;
use crate::theory::{Added, Answer, Theory, adding, closing, one_child, two_children};
use crate::{at, rows};
use rel_list::Memory;
use rel_logic::fol::Fol;
use rel_logic::sequent::Node;
use rel_logic::sorting::well_sorted;
use rel_logic::substitution::instantiate;
use rel_logic::term::Term;
use std::alloc::Global;

/// Whether the formula is false, or says that true is false.
fn is_absurd(f: &Fol) -> bool
    ensures { result ≡ is_absurd (fml_of f.now) }
{
    match f {
        Fol::False => true,
        Fol::Not(g) => matches!(g.get(), Fol::True),
        _ => false,
    }
}

/// False, or the negation of true.
fn absurd(alloc: Global, f: &Fol) -> Result<Answer, Memory>
    ensures { IfOk result (λ a. outcome_of a ≡ absurd_row (fml_of f.now)) }
{
    if is_absurd(f) {
        Ok(closing(alloc, 2))
    } else {
        Ok(Answer::Bad)
    }
}

/// Both parts of a conjunction.
fn conjunction(alloc: Global, f: &Fol) -> Result<Answer, Memory>
    ensures { IfOk result (λ a. outcome_of a ≡ and_row (fml_of f.now)) }
{
    match f {
        Fol::And(a, b) => one_child(
            alloc,
            3,
            Added::nothing(alloc)
                .with_copy(a.get())?
                .with_copy(b.get())?,
        ),
        _ => Ok(Answer::Bad),
    }
}

/// The negations of both parts of a denied disjunction.
fn denied_disjunction(alloc: Global, f: &Fol) -> Result<Answer, Memory>
    ensures { IfOk result (λ a. outcome_of a ≡ nor_row (fml_of f.now)) }
{
    match f {
        Fol::Not(g) => match g.get() {
            Fol::Or(a, b) => one_child(
                alloc,
                4,
                Added::nothing(alloc)
                    .with_not(alloc, a.get())?
                    .with_not(alloc, b.get())?,
            ),
            _ => Ok(Answer::Bad),
        },
        _ => Ok(Answer::Bad),
    }
}

/// What implies, and the negation of what is implied.
fn denied_implication(alloc: Global, f: &Fol) -> Result<Answer, Memory>
    ensures { IfOk result (λ a. outcome_of a ≡ nimp_row (fml_of f.now)) }
{
    match f {
        Fol::Not(g) => match g.get() {
            Fol::Imp(a, b) => one_child(
                alloc,
                5,
                Added::nothing(alloc)
                    .with_copy(a.get())?
                    .with_not(alloc, b.get())?,
            ),
            _ => Ok(Answer::Bad),
        },
        _ => Ok(Answer::Bad),
    }
}

/// A formula that is denied twice.
fn double_negation(alloc: Global, f: &Fol) -> Result<Answer, Memory>
    ensures { IfOk result (λ a. outcome_of a ≡ nn_row (fml_of f.now)) }
{
    match f {
        Fol::Not(g) => match g.get() {
            Fol::Not(a) => one_child(alloc, 6, Added::nothing(alloc).with_copy(a.get())?),
            _ => Ok(Answer::Bad),
        },
        _ => Ok(Answer::Bad),
    }
}

/// Either part of a disjunction.
fn disjunction(alloc: Global, f: &Fol) -> Result<Answer, Memory>
    ensures { IfOk result (λ a. outcome_of a ≡ or_row (fml_of f.now)) }
{
    match f {
        Fol::Or(a, b) => two_children(
            alloc,
            7,
            Added::nothing(alloc).with_copy(a.get())?,
            Added::nothing(alloc).with_copy(b.get())?,
        ),
        _ => Ok(Answer::Bad),
    }
}

/// The negation of either part of a denied conjunction.
fn denied_conjunction(alloc: Global, f: &Fol) -> Result<Answer, Memory>
    ensures { IfOk result (λ a. outcome_of a ≡ nand_row (fml_of f.now)) }
{
    match f {
        Fol::Not(g) => match g.get() {
            Fol::And(a, b) => two_children(
                alloc,
                8,
                Added::nothing(alloc).with_not(alloc, a.get())?,
                Added::nothing(alloc).with_not(alloc, b.get())?,
            ),
            _ => Ok(Answer::Bad),
        },
        _ => Ok(Answer::Bad),
    }
}

/// The negation of what implies, or what is implied.
fn implication(alloc: Global, f: &Fol) -> Result<Answer, Memory>
    ensures { IfOk result (λ a. outcome_of a ≡ imp_row (fml_of f.now)) }
{
    match f {
        Fol::Imp(a, b) => two_children(
            alloc,
            9,
            Added::nothing(alloc).with_not(alloc, a.get())?,
            Added::nothing(alloc).with_copy(b.get())?,
        ),
        _ => Ok(Answer::Bad),
    }
}

/// Some instance of a formula, at a fresh variable.
fn existence(alloc: Global, node: &Node, f: &Fol) -> Result<Answer, Memory>
    requires room { length node.now.sorts < 2 ^ 31 }
    requires closed { free_bound_of (fml_of f.now) ≡ 0 }
    ensures { IfOk result (λ a. outcome_of a ≡ some_row (length node.now.sorts) (fml_of f.now)) }
{
    match f {
        Fol::Exists(sort, body) => {
            let fresh = Term::Var(node.sorts.len() as u32);
            let at_fresh = instantiate(body.get(), &fresh)?;
            one_child(alloc, 13, Added::variable(alloc, *sort)?.with(at_fresh)?)
        }
        _ => Ok(Answer::Bad),
    }
}

/// A denied instance of a denied formula, at a fresh variable.
fn denied_universal(alloc: Global, node: &Node, f: &Fol) -> Result<Answer, Memory>
    requires room { length node.now.sorts < 2 ^ 31 }
    requires closed { free_bound_of (fml_of f.now) ≡ 0 }
    ensures { IfOk result (λ a. outcome_of a ≡ nall_row (length node.now.sorts) (fml_of f.now)) }
{
    match f {
        Fol::Not(g) => match g.get() {
            Fol::Every(sort, body) => {
                let fresh = Term::Var(node.sorts.len() as u32);
                let at_fresh = instantiate(body.get(), &fresh)?;
                one_child(
                    alloc,
                    14,
                    Added::variable(alloc, *sort)?.with_not(alloc, &at_fresh)?,
                )
            }
            _ => Ok(Answer::Bad),
        },
        _ => Ok(Answer::Bad),
    }
}

/// A universal formula at a term.
fn universal(alloc: Global, node: &Node, t: &Term, f: &Fol) -> Result<Answer, Memory>
    requires { free_bound_of (fml_of f.now) ≡ 0 }
    ensures { IfOk result (λ a. outcome_of a ≡ all_row (map sort_of node.now.sorts) (trm_of t.now) (fml_of f.now)) }
{
    match f {
        Fol::Every(sort, body) => {
            if has_sort(node, *sort, t) {
                let at_term = instantiate(body.get(), t)?;
                adding(alloc, 11, at_term)
            } else {
                Ok(Answer::Bad)
            }
        }
        _ => Ok(Answer::Bad),
    }
}

/// The denial of a denied existence at a term.
fn denied_existence(alloc: Global, node: &Node, t: &Term, f: &Fol) -> Result<Answer, Memory>
    requires { free_bound_of (fml_of f.now) ≡ 0 }
    ensures { IfOk result (λ a. outcome_of a ≡ nsome_row (map sort_of node.now.sorts) (trm_of t.now) (fml_of f.now)) }
{
    match f {
        Fol::Not(g) => match g.get() {
            Fol::Exists(sort, body) => {
                if has_sort(node, *sort, t) {
                    let at_term = instantiate(body.get(), t)?;
                    one_child(alloc, 12, Added::nothing(alloc).with_not(alloc, &at_term)?)
                } else {
                    Ok(Answer::Bad)
                }
            }
            _ => Ok(Answer::Bad),
        },
        _ => Ok(Answer::Bad),
    }
}

/// Either of a formula and its negation.
fn cut(alloc: Global, node: &Node, f: &Fol) -> Result<Answer, Memory>
    ensures { IfOk result (λ a. outcome_of a ≡ cut_formula (map sort_of node.now.sorts) (fml_of f.now)) }
{
    if well_sorted(f, node.sorts.as_slice()) {
        let first = Added::nothing(alloc).with_copy(f)?;
        let second = Added::nothing(alloc).with_not(alloc, f)?;
        two_children(alloc, 10, first, second)
    } else {
        Ok(Answer::Bad)
    }
}

fn are_opposite(f: &Fol, g: &Fol) -> bool
    ensures { result ≡ are_opposite (Some (fml_of f.now)) (Some (fml_of g.now)) }
{
    match g {
        Fol::Not(h) => same_forms(f, h.get()),
        _ => false,
    }
}

/// Whether one of the two formulas that the step names is the negation of the other.
fn closes_by_opposites(node: &Node, step: &Step) -> bool
    ensures { let n = node_of node.now in
        let s = step_of step.now in
        result ≡ holds 2 0 0 s && are_opposite (formula n s 0) (formula n s 1) }
{
    if !holds(step, 2, 0, 0) {
        return false;
    }
    let Some(f) = formula_at(node, *step.nums.at(0)) else {
        return false;
    };
    let Some(g) = formula_at(node, *step.nums.at(1)) else {
        return false;
    };
    are_opposite(f, g)
}

fn close(alloc: Global, node: &Node, step: &Step) -> Answer
    ensures { outcome_of result ≡ close_row (node_of node.now) (step_of step.now) }
{
    if closes_by_opposites(node, step) {
        closing(alloc, 1)
    } else {
        Answer::Bad
    }
}

/// The step's one formula.
fn given_formula(step: &Step) -> Option<&Fol>
    ensures { let there = given_formula (step_of step.now) in
        MatchOption result (there ≡ None) (λ f. there ≡ Some (fml_of f.now)) }
{
    if holds(step, 0, 0, 1) {
        form(step, 0)
    } else {
        None
    }
}

/// What the step comes to by rows 1 to 14.
fn apply_row(alloc: Global, node: &Node, step: &Step) -> Result<Answer, Memory>
    requires sound { IsSound (node_of node.now) }
    requires room { length node.now.sorts < 2 ^ 31 }
    ensures { IfOk result (λ a. outcome_of a ≡ propositional (node_of node.now) (step_of step.now)) }
{
    rows! { step.row;
        1 => Ok(close(alloc, node, step)),
        2 => at!(f = the_formula(node, step, 0) => absurd(alloc, f)),
        3 => at!(f = the_formula(node, step, 0) => conjunction(alloc, f)),
        4 => at!(f = the_formula(node, step, 0) => denied_disjunction(alloc, f)),
        5 => at!(f = the_formula(node, step, 0) => denied_implication(alloc, f)),
        6 => at!(f = the_formula(node, step, 0) => double_negation(alloc, f)),
        7 => at!(f = the_formula(node, step, 0) => disjunction(alloc, f)),
        8 => at!(f = the_formula(node, step, 0) => denied_conjunction(alloc, f)),
        9 => at!(f = the_formula(node, step, 0) => implication(alloc, f)),
        10 => at!(f = given_formula(step) => cut(alloc, node, f)),
        11 => at!(f = the_formula(node, step, 1), t = term(step, 0) => universal(alloc, node, t, f)),
        12 => at!(f = the_formula(node, step, 1), t = term(step, 0) => denied_existence(alloc, node, t, f)),
        13 => at!(f = the_formula(node, step, 0) => existence(alloc, node, f)),
        14 => at!(f = the_formula(node, step, 0) => denied_universal(alloc, node, f)),
    }
}

/// Whether the formula that the step names is false, or says that true is false.
fn closes_by_absurdity(node: &Node, step: &Step) -> bool
    requires { IsSound (node_of node.now) }
    ensures { result ≡ is_some_absurd (the_formula (node_of node.now) (step_of step.now)) }
{
    match the_formula(node, step, 0) {
        Some(f) => is_absurd(f),
        None => false,
    }
}

fn meets_closing_row(node: &Node, step: &Step) -> bool
    requires { IsSound (node_of node.now) }
    ensures { result ≡ closes (node_of node.now) (step_of step.now) }
{
    match step.row {
        1 => closes_by_opposites(node, step),
        2 => closes_by_absurdity(node, step),
        _ => false,
    }
}

/// Whether the step closes the node, which takes no memory to tell.
pub fn closes(node: &Node, step: &Step) -> bool
    requires { IsSound (node_of node.now) }
    ensures { IsTrue result ↔ (propositional (node_of node.now) (step_of step.now) ≡ kids []) }
{
    meets_closing_row(node, step)
}

/// Rows 1 to 14: the rules on connectives and quantifiers.
#[derive(Clone, Copy, Drop)]
pub struct Propositional;

impl Theory for Propositional {
    ghost outcome = { propositional };

    ghost keeps = { loses_no_model };

    ghost sorted = { adds_sorted };

    #[tactic(auto, using(crate::proofs::Closed::has_room))]
    fn apply(&self, alloc: Global, node: &Node, step: &Step) -> Result<Answer, Memory> {
        apply_row(alloc, node, step)
    }
}
