//! Linear forms of terms and formulas, and the sums of them that refute a node.
ghost use Rattle.std.specs.Prelude.{◌≡◌, ◌↔◌, ℕ, ◌+◌, ◌≤◌, pos, ◌+ℤ◌, ◌-ℤ◌, ◌<ℤ◌};
ghost use Rattle.std.specs.Prelude.{IfOk, IsTrue, MatchOption, MatchBool, FitsSigned, map, slice_get};
ghost use Rattle.std.specs.Int.{w128};
ghost use Rattle.rel_logic.specs.Syntax.{int_sort};
ghost use Rattle.rel_logic.specs.View.{sort_of, trm_of, fml_of, node_of};
ghost use Rattle.rel_straight.specs.Linear.{FitsI128, term_sort, number_form, variable_form, IsGoodSum};
ghost use Rattle.rel_straight.specs.Forms.{coefficient_at, linear, change, CanChange, CanChangeEach, ChangesEach};
ghost use Rattle.rel_straight.specs.Forms.{change_form, CanChangeForm, next_linear, FitsIfAny, IsJoined};
ghost use Rattle.rel_straight.specs.Forms.{IsTermForm, IsDifference, IsNextDifference, IsNegationForm};
ghost use Rattle.rel_straight.specs.Forms.{IsBoundedForm, IsFormAt, IsNextSum};

use rel_list::{Boxed, List, Memory};
use rel_logic::fol::Fol;
use rel_logic::sequent::Node;
use rel_logic::term::{Sort, Term};
use std::alloc::Global;
use std::collections::BTreeMap;

/// A constant, and a coefficient for each variable. An absent one is 0.
#[derive(Drop)]
pub struct Form {
    pub constant: i128,
    pub coefficients: BTreeMap<u32, i128>,
}

/// What is done with another form.
#[derive(Clone, Copy)]
pub enum Change {
    Add,
    Subtract,
    AddTimes(i128),
}

fn changed(how: Change, a: i128, c: i128) -> Option<i128>
    ensures { MatchOption result (¬ (CanChange how a c)) (λ z. (z ≡ change how a c) × CanChange how a c) }
{
    match how {
        Change::Add => a.checked_add(c),
        Change::Subtract => a.checked_sub(c),
        Change::AddTimes(k) => a.checked_add(k.checked_mul(c)?),
    }
}

fn coefficient(coefficients: &BTreeMap<u32, i128>, variable: u32) -> i128
    ensures { result ≡ coefficient_at coefficients.now variable }
{
    coefficients.get(&variable).copied().unwrap_or(0)
}

/// Whether all of `a` could be changed. If not, `a` is of no use.
#[tactic(auto, using(crate::proofs::Combine::combining))]
fn change_all(
    a: &mut BTreeMap<u32, i128>,
    how: Change,
    c: &BTreeMap<u32, i128>,
) -> Result<bool, Memory>
    requires { (v : ℕ) → FitsSigned w128 (coefficient_at a.old v) }
    ensures { let before = coefficient_at a.old in
        let other = coefficient_at c.now in
        IfOk result (λ all. MatchBool all
        (ChangesEach how before other (coefficient_at a.new))
        (¬ (CanChangeEach how before other))) }
{
    for (variable, number) in c {
        match changed(how, coefficient(a, *variable), *number) {
            None => return Ok(false),
            Some(z) => {
                a.insert(*variable, z)?;
            }
        }
    }
    Ok(true)
}

/// `a` changed by `c`, or `None` where a number on the way does not fit.
pub fn combined(mut a: Form, how: Change, c: &Form) -> Result<Option<Form>, Memory>
    requires { FitsI128 (linear a) }
    ensures { let before = linear a in
        let other = linear c.now in
        IfOk result (λ r. MatchOption r
        (¬ (CanChangeForm how before other))
        (λ f. (linear f ≡ change_form how before other) × CanChangeForm how before other)) }
{
    let Some(constant) = changed(how, a.constant, c.constant) else {
        return Ok(None);
    };
    if !change_all(&mut a.coefficients, how, &c.coefficients)? {
        return Ok(None);
    }
    let coefficients = a.coefficients;
    Ok(Some(Form {
        constant,
        coefficients,
    }))
}

/// Both forms joined, where there are both and the numbers on the way fit.
fn joined(a: Option<Form>, how: Change, c: Option<Form>) -> Result<Option<Form>, Memory>
    requires { FitsIfAny a }
    ensures { IfOk result (λ r. IsJoined how a c r) }
{
    match (a, c) {
        (Some(a), Some(c)) => combined(a, how, &c),
        _ => Ok(None),
    }
}

fn number_form(alloc: Global, number: i128) -> Form
    ensures { linear result ≡ number_form number }
{
    Form {
        constant: number,
        coefficients: BTreeMap::new(alloc),
    }
}

fn variable_form(alloc: Global, variable: u32) -> Result<Form, Memory>
    ensures { IfOk result (λ f. linear f ≡ variable_form variable) }
{
    let mut coefficients = BTreeMap::new(alloc);
    coefficients.insert(variable, 1)?;
    Ok(Form {
        constant: 0,
        coefficients,
    })
}

#[cycle(term_form)]
#[tactic(auto, using(crate::proofs::TermForms::joining))]
fn term_form(alloc: Global, t: &Term) -> Result<Option<Form>, Memory>
    ensures { IfOk result (λ r. IsTermForm (trm_of t.now) r) }
{
    match t {
        Term::Var(n) => Ok(Some(variable_form(alloc, *n)?)),
        Term::Int(z) => Ok(Some(number_form(alloc, *z))),
        Term::Add(a, b) => joined(boxed_form(alloc, a)?, Change::Add, boxed_form(alloc, b)?),
        Term::Sub(a, b) => joined(
            boxed_form(alloc, a)?,
            Change::Subtract,
            boxed_form(alloc, b)?,
        ),
        _ => Ok(None),
    }
}

#[cycle(term_form)]
fn boxed_form(alloc: Global, t: &Boxed<Term>) -> Result<Option<Form>, Memory>
    ensures { IfOk result (λ r. IsTermForm (trm_of t.now) r) }
{
    term_form(alloc, t.get())
}

/// The form of `t - u`.
#[tactic(auto, using(crate::proofs::TermForms::joining))]
fn difference(alloc: Global, t: &Term, u: &Term) -> Result<Option<Form>, Memory>
    ensures { IfOk result (λ r. IsDifference (trm_of t.now) (trm_of u.now) r) }
{
    joined(term_form(alloc, t)?, Change::Subtract, term_form(alloc, u)?)
}

/// `a - c + 1`, also where `a - c` alone does not fit.
fn next_number(a: i128, c: i128) -> Option<i128>
    ensures { let next = (a -ℤ c) +ℤ pos 1 in
        MatchOption result (¬ (FitsSigned w128 next)) (λ z. (z ≡ next) × FitsSigned w128 next) }
{
    match a.checked_add(1) {
        Some(more) => more.checked_sub(c),
        None => a.checked_sub(c.checked_sub(1)?),
    }
}

fn is_int_variable(sorts: &List<Sort>, n: u32) -> bool
    ensures { IsTrue result ↔ (slice_get (map sort_of sorts.now) n ≡ Some int_sort) }
{
    let i = n as usize;
    i < sorts.len() && *sorts.at(i) == Sort::Int
}

/// Whether the term is one of sort Int over the variables of these sorts.
pub fn is_int(sorts: &List<Sort>, t: &Term) -> bool
    ensures { IsTrue result ↔ (term_sort (map sort_of sorts.now) (trm_of t.now) ≡ Some int_sort) }
{
    match t {
        Term::Var(n) => is_int_variable(sorts, *n),
        Term::Int(_) | Term::Add(_, _) | Term::Sub(_, _) => true,
        _ => false,
    }
}

/// Whether the form is a constant above 0.
fn is_above_zero(form: &Form) -> bool
    ensures { let sum = linear form.now in
        IsTrue result ↔ ((pos 0 <ℤ sum.constant) × ((v : ℕ) → sum.coefficient v ≡ pos 0)) }
{
    form.constant > 0 && is_zero(&form.coefficients)
}

fn is_zero(coefficients: &BTreeMap<u32, i128>) -> bool
    ensures { IsTrue result ↔ ((v : ℕ) → coefficient_at coefficients.now v ≡ pos 0) }
{
    for (_, number) in coefficients {
        if *number != 0 {
            return false;
        }
    }
    true
}

/// The form of `t - u + 1`.
#[tactic(auto, using(crate::proofs::NextForms::next_forms))]
fn next_difference(alloc: Global, t: &Term, u: &Term) -> Result<Option<Form>, Memory>
    ensures { IfOk result (λ r. IsNextDifference (trm_of t.now) (trm_of u.now) r) }
{
    let first = term_form(alloc, t)?;
    let second = term_form(alloc, u)?;
    match (first, second) {
        (Some(a), Some(c)) => next_form(a, &c),
        _ => Ok(None),
    }
}

/// `a - c + 1`, or `None` where it does not fit.
fn next_form(mut a: Form, c: &Form) -> Result<Option<Form>, Memory>
    requires { FitsI128 (linear a) }
    ensures { let next = next_linear (linear a) (linear c.now) in
        IfOk result (λ r. MatchOption r (¬ (FitsI128 next)) (λ f. (linear f ≡ next) × FitsI128 next)) }
{
    let Some(constant) = next_number(a.constant, c.constant) else {
        return Ok(None);
    };
    if !change_all(&mut a.coefficients, Change::Subtract, &c.coefficients)? {
        return Ok(None);
    }
    let coefficients = a.coefficients;
    Ok(Some(Form {
        constant,
        coefficients,
    }))
}

/// The form that is at most 0 where `f` is false, if it may be taken `k` times.
fn negation_form(alloc: Global, f: &Fol, k: i128) -> Result<Option<Form>, Memory>
    ensures { IfOk result (λ r. IsNegationForm (fml_of f.now) k r) }
{
    match f {
        Fol::Lt(t, u) => if k >= 0 {
            difference(alloc, u, t)
        } else {
            Ok(None)
        },
        _ => Ok(None),
    }
}

/// The form that is at most 0 where `f` is true, if it may be taken `k` times.
fn bounded_form(alloc: Global, sorts: &List<Sort>, f: &Fol, k: i128) -> Result<Option<Form>, Memory>
    ensures { IfOk result (λ r. IsBoundedForm (map sort_of sorts.now) (fml_of f.now) k r) }
{
    match f {
        Fol::Eq(t, u) => if is_int(sorts, t) && is_int(sorts, u) {
            difference(alloc, t, u)
        } else {
            Ok(None)
        },
        Fol::Lt(t, u) => if k >= 0 {
            next_difference(alloc, t, u)
        } else {
            Ok(None)
        },
        Fol::Not(g) => negation_form(alloc, g.get(), k),
        _ => Ok(None),
    }
}

/// The form of the node's formula number `i`.
fn form_at(alloc: Global, node: &Node, i: u32, k: i128) -> Result<Option<Form>, Memory>
    ensures { let n = node_of node.now in
        IfOk result (λ r. IsFormAt n.sorts (slice_get n.forms i) k r) }
{
    let i = i as usize;
    if i < node.forms.len() {
        bounded_form(alloc, &node.sorts, node.forms.at(i), k)
    } else {
        Ok(None)
    }
}

/// The sum with one more pair.
fn next_sum(alloc: Global, node: &Node, sum: Form, i: u32, k: i128) -> Result<Option<Form>, Memory>
    requires { FitsI128 (linear sum) }
    ensures { IfOk result (λ r. IsNextSum (node_of node.now) (linear sum) (i, k) r) }
{
    match form_at(alloc, node, i, k)? {
        None => Ok(None),
        Some(form) => combined(sum, Change::AddTimes(k), &form),
    }
}

/// Whether the pairs' formulas, each taken as often as its pair says, have a sum that is a constant above 0.
pub fn is_good_sum(alloc: Global, node: &Node, pairs: &List<(u32, i128)>) -> Result<bool, Memory>
    ensures { IfOk result (λ b. IsTrue b ↔ IsGoodSum (node_of node.now) pairs.now) }
{
    let items = pairs.as_slice();
    let mut sum = number_form(alloc, 0);
    for (i, k) in items {
        match next_sum(alloc, node, sum, *i, *k)? {
            None => return Ok(false),
            Some(next) => sum = next,
        }
    }
    Ok(is_above_zero(&sum))
}
