//! The rows on integers.
ghost use Rattle.std.specs.Prelude.{◌≡◌, ◌↔◌, ◌&&◌, ◌≤◌, [], IfOk, IsTrue, length, map, int_le, pos};
ghost use Rattle.rel_logic.specs.Syntax.{lt};
ghost use Rattle.rel_logic.specs.View.{sort_of, trm_of, fml_of, node_of};
ghost use Rattle.rules_table.specs.Nodes.{kids, IsSound};
ghost use Rattle.rules_table.specs.View.{step_of, outcome_of};
ghost use Rattle.rules_int.specs.Linear.{form_of, difference as difference_of};
ghost use Rattle.rules_int.specs.Table.{holds_multiples, multiples, divisor, sum_of as sum_over, is_above_zero as is_sum_above, refutes, farkas_row, is_quotient as is_quotient_of, round_formula, round_row, neint_row, are_alike as are_forms_alike, lineq_terms, lineq_row, integers, closes};
ghost use Rattle.rules_int.specs.Law.{loses_no_model, adds_sorted};

use crate::comparisons::{are_alike, is_above_zero, is_quotient};
use crate::sums::sum_of;
use crate::terms::{difference, term_form};
use rel_list::{Memory, both};
use rel_logic::fol::Fol;
use rel_logic::sequent::Node;
use rel_logic::sorting::well_sorted;
use rel_logic::term::{Sort, Term};
use rules_table::arguments::{form, has_sort, holds, term, the_formula};
use rules_table::step::Step;
use rules_table::terms::equal;
use rules_table::theory::{Added, Answer, Theory, adding, closing, two_children};
use rules_table::{at, only, rows};
use std::alloc::Global;

/// Whether the step holds a multiplier for each formula number, so many integers more, so many terms and formulas, and
/// no class.
fn holds_multiples(step: &Step, more: usize, terms: usize, forms: usize) -> bool
    ensures { result ≡ holds_multiples more terms forms (step_of step.now) }
{
    step.ints.len() >= more
        && step.ints.len() - more == step.nums.len()
        && step.terms.len() == terms
        && step.forms.len() == forms
        && step.class.is_none()
}

/// The integer after the multipliers.
fn divisor(step: &Step) -> Option<i128>
    ensures { result ≡ divisor (step_of step.now) }
{
    step.ints.as_slice().get(step.nums.len()).copied()
}

/// Whether the step's formulas, each taken as often as its multiplier says, have a sum that is a constant above 0.
fn is_sum_above_zero(alloc: Global, node: &Node, step: &Step) -> Result<bool, Memory>
    requires { length step.now.nums ≤ length step.now.ints }
    ensures { IfOk result (λ b. b ≡ is_sum_above (sum_over (node_of node.now) (multiples (step_of step.now)))) }
{
    match sum_of(alloc, node, step.nums.as_slice(), step.ints.as_slice())? {
        Some(sum) => Ok(is_above_zero(alloc, &sum)),
        None => Ok(false),
    }
}

fn refutes(alloc: Global, node: &Node, step: &Step) -> Result<bool, Memory>
    ensures { IfOk result (λ b. b ≡ refutes (node_of node.now) (step_of step.now)) }
{
    if holds_multiples(step, 0, 0, 0) {
        is_sum_above_zero(alloc, node, step)
    } else {
        Ok(false)
    }
}

fn farkas(alloc: Global, node: &Node, step: &Step) -> Result<Answer, Memory>
    ensures { IfOk result (λ a. outcome_of a ≡ farkas_row (node_of node.now) (step_of step.now)) }
{
    if refutes(alloc, node, step)? {
        Ok(closing(alloc, 43))
    } else {
        Ok(Answer::Bad)
    }
}

/// Whether `t - u` is the sum of the step's multiples divided by `g`, its constant rounded up.
fn is_rounded(
    alloc: Global,
    node: &Node,
    step: &Step,
    g: i128,
    t: &Term,
    u: &Term,
) -> Result<bool, Memory>
    requires { length step.now.nums ≤ length step.now.ints }
    ensures { IfOk result (λ b. b ≡ int_le (pos 1) g
        && is_quotient_of g (sum_over (node_of node.now) (multiples (step_of step.now))) (difference_of (trm_of t.now) (trm_of u.now))) }
{
    if g < 1 {
        return Ok(false);
    }
    let sum = sum_of(alloc, node, step.nums.as_slice(), step.ints.as_slice())?;
    let form = difference(alloc, t, u)?;
    match (sum, form) {
        (Some(sum), Some(form)) => Ok(is_quotient(g, &sum, &form)),
        _ => Ok(false),
    }
}

fn round_formula(
    alloc: Global,
    node: &Node,
    step: &Step,
    g: i128,
    f: &Fol,
) -> Result<Answer, Memory>
    requires { length step.now.nums ≤ length step.now.ints }
    ensures { IfOk result (λ a. outcome_of a ≡ round_formula (node_of node.now) (multiples (step_of step.now)) g (fml_of f.now)) }
{
    match f {
        Fol::Le(t, u) => {
            if well_sorted(f, node.sorts.as_slice()) && is_rounded(alloc, node, step, g, t, u)? {
                adding(alloc, 44, f.copy()?)
            } else {
                Ok(Answer::Bad)
            }
        }
        _ => Ok(Answer::Bad),
    }
}

fn round(alloc: Global, node: &Node, step: &Step) -> Result<Answer, Memory>
    ensures { IfOk result (λ a. outcome_of a ≡ round_row (node_of node.now) (step_of step.now)) }
{
    only!(
        holds_multiples(step, 1, 0, 1),
        at!(g = divisor(step), f = form(step, 0) => round_formula(alloc, node, step, g, f))
    )
}

/// Of two ints that differ, one is below the other.
fn unequal(alloc: Global, node: &Node, f: &Fol) -> Result<Answer, Memory>
    ensures { IfOk result (λ a. outcome_of a ≡ neint_row (map sort_of node.now.sorts) (fml_of f.now)) }
{
    match f {
        Fol::Not(e) => match e.get() {
            Fol::Eq(t, u) => {
                if !has_sort(node, Sort::Int, t) {
                    return Ok(Answer::Bad);
                }
                let first = Added::nothing(alloc).with(less(t, u)?)?;
                two_children(alloc, 45, first, Added::nothing(alloc).with(less(u, t)?)?)
            }
            _ => Ok(Answer::Bad),
        },
        _ => Ok(Answer::Bad),
    }
}

fn less(t: &Term, u: &Term) -> Result<Fol, Memory>
    ensures { IfOk result (λ f. fml_of f ≡ lt (trm_of t.now) (trm_of u.now)) }
{
    let (t, u) = both(t.copy(), u.copy())?;
    Ok(Fol::Lt(t, u))
}

/// Whether the two terms have one form.
fn have_one_form(alloc: Global, t: &Term, u: &Term) -> Result<bool, Memory>
    ensures { IfOk result (λ b. b ≡ are_forms_alike (form_of (trm_of t.now)) (form_of (trm_of u.now))) }
{
    let first = term_form(alloc, t)?;
    let second = term_form(alloc, u)?;
    match (first, second) {
        (Some(a), Some(b)) => Ok(are_alike(&a, &b)),
        _ => Ok(false),
    }
}

fn one_form(alloc: Global, node: &Node, t: &Term, u: &Term) -> Result<Answer, Memory>
    ensures { IfOk result (λ a. outcome_of a ≡ lineq_terms (map sort_of node.now.sorts) (trm_of t.now) (trm_of u.now)) }
{
    if has_sort(node, Sort::Int, t) && has_sort(node, Sort::Int, u) && have_one_form(alloc, t, u)? {
        adding(alloc, 46, equal(t, u)?)
    } else {
        Ok(Answer::Bad)
    }
}

fn equal_forms(alloc: Global, node: &Node, step: &Step) -> Result<Answer, Memory>
    ensures { IfOk result (λ a. outcome_of a ≡ lineq_row (node_of node.now) (step_of step.now)) }
{
    only!(
        holds(step, 0, 2, 0),
        at!(t = term(step, 0), u = term(step, 1) => one_form(alloc, node, t, u))
    )
}

/// What the step comes to by rows 43 to 46.
fn apply_row(alloc: Global, node: &Node, step: &Step) -> Result<Answer, Memory>
    requires { IsSound (node_of node.now) }
    ensures { IfOk result (λ a. outcome_of a ≡ integers (node_of node.now) (step_of step.now)) }
{
    rows! { step.row;
        43 => farkas(alloc, node, step),
        44 => round(alloc, node, step),
        45 => at!(f = the_formula(node, step, 0) => unequal(alloc, node, f)),
        46 => equal_forms(alloc, node, step),
    }
}

fn meets_closing_row(alloc: Global, node: &Node, step: &Step) -> Result<bool, Memory>
    ensures { IfOk result (λ b. b ≡ closes (node_of node.now) (step_of step.now)) }
{
    if step.row == 43 {
        refutes(alloc, node, step)
    } else {
        Ok(false)
    }
}

/// Whether the step closes the node.
pub fn closes(alloc: Global, node: &Node, step: &Step) -> Result<bool, Memory>
    ensures { IfOk result (λ b. IsTrue b ↔ (integers (node_of node.now) (step_of step.now) ≡ kids [])) }
{
    meets_closing_row(alloc, node, step)
}

/// Rows 43 to 46: the rules on integers.
#[derive(Clone, Copy, Drop)]
pub struct Integers;

impl Theory for Integers {
    ghost outcome = { integers };

    ghost keeps = { loses_no_model };

    ghost sorted = { adds_sorted };

    fn apply(&self, alloc: Global, node: &Node, step: &Step) -> Result<Answer, Memory> {
        apply_row(alloc, node, step)
    }
}
