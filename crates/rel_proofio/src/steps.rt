//! Reads steps.

ghost use Rattle.std.specs.Prelude.{◌≡◌, ◌∷◌, [], ◌++◌, None, Some, map, IfOk, IfErr};
ghost use Rattle.serde_json.specs.View.{view};
ghost use Rattle.rel_logic.specs.View.{trm_of, fml_of};
ghost use Rattle.rules_table.specs.View.{step_of};
ghost use Rattle.rel_proofio.specs.Parts.{traverse};
ghost use Rattle.rel_proofio.specs.Steps.{multiple_of, multiples_of, with_number, with_multiples, with_integer, with_term, with_formula, with_class};
ghost use Rattle.rel_proofio.specs.Steps.{with_argument, with_arguments, bare, step_in};

use crate::fault::Unread;
use crate::parts::{elements, headed, integer, number};
use crate::table::{Argument, Rule, rule_named};
use crate::tree::{formula, term};
use rel_list::{List, Memory};
use rel_logic::fol::Fol;
use rel_logic::term::Term;
use rules_table::step::Step;
use serde_json::Value;
use std::alloc::Global;

/// How deep a tree may be.
const DEEPEST: u32 = 100;

/// A formula's number and its multiplier.
fn multiple(value: &Value) -> Option<(u32, i128)>
    ensures { result ≡ multiple_of (view value.now) }
{
    let [number_value, factor] = elements(value)? else {
        return None;
    };
    let number = number(number_value)?;
    let factor = integer(factor)?;
    Some((number, factor))
}

fn multiples_among(alloc: Global, values: &[Value]) -> Result<List<(u32, i128)>, Unread>
    ensures ok { IfOk result (λ ms. traverse multiple_of (map view values.now) ≡ Some ms) }
    ensures malformed { IfErr result (λ e. e ≡ Unread.Malformed
        → traverse multiple_of (map view values.now) ≡ None) }
{
    let mut multiples = List::new(alloc);
    for value in values {
        let multiple = multiple(value).ok_or(Unread::Malformed)?;
        multiples.push(multiple)?;
    }
    Ok(multiples)
}

fn multiples(alloc: Global, value: &Value) -> Result<List<(u32, i128)>, Unread>
    ensures ok { IfOk result (λ ms. multiples_of (view value.now) ≡ Some ms) }
    ensures malformed { IfErr result (λ e. e ≡ Unread.Malformed → multiples_of (view value.now) ≡ None) }
{
    match elements(value) {
        Some(values) => multiples_among(alloc, values),
        None => Err(Unread::Malformed),
    }
}

fn with_number(mut step: Step, number: u32) -> Result<Step, Memory>
    ensures { IfOk result (λ s. step_of s ≡ with_number (step_of step) number) }
{
    step.nums.push(number)?;
    Ok(step)
}

fn with_integer(mut step: Step, integer: i128) -> Result<Step, Memory>
    ensures { IfOk result (λ s. step_of s ≡ with_integer (step_of step) integer) }
{
    step.ints.push(integer)?;
    Ok(step)
}

fn with_term(mut step: Step, term: Term) -> Result<Step, Memory>
    ensures { IfOk result (λ s. step_of s ≡ with_term (step_of step) (trm_of term)) }
{
    step.terms.push(term)?;
    Ok(step)
}

fn with_formula(mut step: Step, formula: Fol) -> Result<Step, Memory>
    ensures { IfOk result (λ s. step_of s ≡ with_formula (step_of step) (fml_of formula)) }
{
    step.forms.push(formula)?;
    Ok(step)
}

fn with_class(mut step: Step, class: u32) -> Step
    ensures { step_of result ≡ with_class (step_of step) class }
{
    step.class = Some(class);
    step
}

fn with_multiples(mut step: Step, multiples: &[(u32, i128)]) -> Result<Step, Memory>
    ensures { IfOk result (λ s. step_of s ≡ with_multiples (step_of step) multiples.now) }
{
    for (number, factor) in multiples {
        step.nums.push(*number)?;
        step.ints.push(*factor)?;
    }
    Ok(step)
}

fn with_argument(
    alloc: Global,
    argument: Argument,
    value: &Value,
    step: Step,
) -> Result<Step, Unread>
    ensures ok { IfOk result (λ s. with_argument argument (view value.now) (step_of step) ≡ Some (step_of s)) }
    ensures malformed { IfErr result (λ e. e ≡ Unread.Malformed
        → with_argument argument (view value.now) (step_of step) ≡ None) }
{
    match argument {
        Argument::Number => {
            let number = number(value).ok_or(Unread::Malformed)?;
            Ok(with_number(step, number)?)
        }
        Argument::Term => {
            let term = term(alloc, value, DEEPEST)?;
            Ok(with_term(step, term)?)
        }
        Argument::Formula => {
            let formula = formula(alloc, value, DEEPEST)?;
            Ok(with_formula(step, formula)?)
        }
        Argument::Class => {
            let class = number(value).ok_or(Unread::Malformed)?;
            Ok(with_class(step, class))
        }
        Argument::Multiples => {
            let multiples = multiples(alloc, value)?;
            Ok(with_multiples(step, multiples.as_slice())?)
        }
        Argument::Integer => {
            let integer = integer(value).ok_or(Unread::Malformed)?;
            Ok(with_integer(step, integer)?)
        }
    }
}

/// The step with these values as its arguments.
fn with_arguments(
    alloc: Global,
    arguments: &[Argument],
    values: &[Value],
    step: Step,
) -> Result<Step, Unread>
    ensures ok { IfOk result (λ s. with_arguments arguments.now (map view values.now) (step_of step) ≡ Some (step_of s)) }
    ensures malformed { IfErr result (λ e. e ≡ Unread.Malformed
        → with_arguments arguments.now (map view values.now) (step_of step) ≡ None) }
{
    let [argument, arguments @ ..] = arguments else {
        return if values.is_empty() {
            Ok(step)
        } else {
            Err(Unread::Malformed)
        };
    };
    let [value, values @ ..] = values else {
        return Err(Unread::Malformed);
    };
    let step = with_argument(alloc, *argument, value, step)?;
    with_arguments(alloc, arguments, values, step)
}

/// A step of this row, before its arguments.
fn bare(alloc: Global, row: u8) -> Step
    ensures { step_of result ≡ bare row }
{
    Step {
        row,
        nums: List::new(alloc),
        ints: List::new(alloc),
        terms: List::new(alloc),
        forms: List::new(alloc),
        class: None,
    }
}

/// A step: its rule's name, and the arguments that the table lists.
pub fn step(alloc: Global, value: &Value) -> Result<Step, Unread>
    ensures ok { IfOk result (λ s. step_in (view value.now) ≡ Some (step_of s)) }
    ensures malformed { IfErr result (λ e. e ≡ Unread.Malformed → step_in (view value.now) ≡ None) }
{
    let Some((name, values)) = headed(value) else {
        return Err(Unread::Malformed);
    };
    match rule_named(name) {
        Some(Rule(row, _, arguments)) => with_arguments(alloc, arguments, values, bare(alloc, row)),
        None => Err(Unread::Malformed),
    }
}
