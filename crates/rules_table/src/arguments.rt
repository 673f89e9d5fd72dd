//! The arguments of a step, and tests of them.
ghost use Rattle.std.specs.Prelude.{◌≡◌, ◌<◌, None, [], IsTrue, MatchOption, if◌then◌else◌, length, map, slice_get};
ghost use Rattle.rel_logic.specs.View.{sort_of, trm_of, fml_of, node_of};
ghost use Rattle.rel_logic.specs.Bounds.{free_bound_term, free_bound_of};
ghost use Rattle.rel_logic.specs.Sorting.{has_sort};
ghost use Rattle.rel_logic.specs.Equal.{same_trm, same_fml};
ghost use Rattle.rules_table.specs.Table.{counts, holds, formula, term, form};
ghost use Rattle.rules_table.specs.Nodes.{IsSound};
ghost use Rattle.rules_table.specs.View.{step_of};

use crate::step::Step;
use rel_logic::comparison::{same, same_term};
use rel_logic::fol::Fol;
use rel_logic::sequent::Node;
use rel_logic::sorting::term_sort;
use rel_logic::term::{Sort, Term, same_sort};

/// Whether the step holds this many formula numbers, terms and formulas, and no integers.
pub fn counts(step: &Step, nums: usize, terms: usize, forms: usize) -> bool
    ensures { result ≡ counts nums terms forms (step_of step.now) }
{
    step.nums.len() == nums
        && step.terms.len() == terms
        && step.forms.len() == forms
        && step.ints.is_empty()
}

/// Whether the step holds this many formula numbers, terms and formulas, and nothing else.
pub fn holds(step: &Step, nums: usize, terms: usize, forms: usize) -> bool
    ensures { result ≡ holds nums terms forms (step_of step.now) }
{
    counts(step, nums, terms, forms) && step.class.is_none()
}

/// The node's formula with this number.
pub fn formula_at(node: &Node, i: u32) -> Option<&Fol>
    ensures { let there = slice_get (node_of node.now).forms i in
        MatchOption result (there ≡ None) (λ f. there ≡ Some (fml_of f.now)) }
{
    node.forms.as_slice().get(i as usize)
}

/// The node's formulas are closed.
fn sound_formula(node: &Node, i: u32) -> Option<&Fol>
    requires { IsSound (node_of node.now) }
    ensures { let there = slice_get (node_of node.now).forms i in
        MatchOption result (there ≡ None) (λ f. (there ≡ Some (fml_of f.now)) × (free_bound_of (fml_of f.now) ≡ 0)) }
{
    formula_at(node, i)
}

/// The formula with the step's first number, where the step holds so many terms and nothing else.
pub fn the_formula<'a>(node: &'a Node, step: &Step, terms: usize) -> Option<&'a Fol>
    requires { IsSound (node_of node.now) }
    ensures { let s = step_of step.now in
        let there = if holds 1 terms 0 s then formula (node_of node.now) s 0 else None in
        MatchOption result (there ≡ None) (λ f. (there ≡ Some (fml_of f.now)) × (free_bound_of (fml_of f.now) ≡ 0)) }
{
    if holds(step, 1, terms, 0) {
        sound_formula(node, *step.nums.at(0))
    } else {
        None
    }
}

/// The formula with the step's number `k`. It is closed.
pub fn formula<'a>(node: &'a Node, step: &Step, k: usize) -> Option<&'a Fol>
    requires sound { IsSound (node_of node.now) }
    requires within { k < length step.now.nums }
    ensures { let there = formula (node_of node.now) (step_of step.now) k in
        MatchOption result (there ≡ None) (λ f. (there ≡ Some (fml_of f.now)) × (free_bound_of (fml_of f.now) ≡ 0)) }
{
    sound_formula(node, *step.nums.at(k))
}

/// The step's term `k`.
pub fn term(step: &Step, k: usize) -> Option<&Term>
    ensures { let there = term (step_of step.now) k in
        MatchOption result (there ≡ None) (λ t. there ≡ Some (trm_of t.now)) }
{
    step.terms.as_slice().get(k)
}

/// The step's formula `k`.
pub fn form(step: &Step, k: usize) -> Option<&Fol>
    ensures { let there = form (step_of step.now) k in
        MatchOption result (there ≡ None) (λ f. there ≡ Some (fml_of f.now)) }
{
    step.forms.as_slice().get(k)
}

/// Whether the two formulas are one tree.
#[tactic(auto, using(rel_logic::proofs::SameTrees::answers_alike, rel_logic::proofs::SameTrees::same_fml_is))]
pub fn same_forms(f: &Fol, g: &Fol) -> bool
    ensures { result ≡ same_fml (fml_of f.now) (fml_of g.now) }
{
    same(f, g)
}

/// Whether the two terms are one tree.
#[tactic(auto, using(rel_logic::proofs::SameTrees::answers_alike, rel_logic::proofs::SameTrees::same_trm_is))]
pub fn same_terms(a: &Term, b: &Term) -> bool
    ensures { result ≡ same_trm (trm_of a.now) (trm_of b.now) }
{
    same_term(a, b)
}

/// Whether the closed term has the sort over the node's variables.
pub fn has_sort(node: &Node, sort: Sort, t: &Term) -> bool
    ensures exact { result ≡ has_sort (map sort_of node.now.sorts) [] (sort_of sort) (trm_of t.now) }
    ensures closed { IsTrue result → free_bound_term (trm_of t.now) ≡ 0 }
{
    match term_sort(t, node.sorts.as_slice()) {
        Some(s) => same_sort(sort, s),
        None => false,
    }
}

/// The answer of the row.
#[macro_export]
macro_rules! rows {
    ($row:expr; $($number:literal => $answer:expr),+ $(,)?) => {
        match $row {
            $($number => $answer,)+
            _ => Ok($crate::theory::Answer::NotMine),
        }
    };
}

/// The answer on what was found, which has the names, unless one wasn't.
#[macro_export]
macro_rules! at {
    ($name:ident = $found:expr => $answer:expr) => {
        match $found {
            Some($name) => $answer,
            None => Ok($crate::theory::Answer::Bad),
        }
    };
    ($name:ident = $found:expr, $($later:tt)+) => {
        match $found {
            Some($name) => $crate::at!($($later)+),
            None => Ok($crate::theory::Answer::Bad),
        }
    };
}

/// The answer, where the step passes the test.
#[macro_export]
macro_rules! only {
    ($test:expr, $answer:expr) => {
        if $test {
            $answer
        } else {
            Ok($crate::theory::Answer::Bad)
        }
    };
}
