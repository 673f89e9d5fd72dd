//! The rows on equality, maps and bijections.
ghost use Rattle.std.specs.Prelude.{◌≡◌, ◌↔◌, [], IfOk, IsTrue};
ghost use Rattle.rel_logic.specs.View.{node_of};
ghost use Rattle.rules_table.specs.Nodes.{kids, IsSound};
ghost use Rattle.rules_table.specs.View.{step_of, outcome_of};
ghost use Rattle.rules_eq.specs.Table.{refl_step, replace_step, readhit_step, readmiss_step, bijone_step, bijclass_step};
ghost use Rattle.rules_eq.specs.Table.{extpair_step, extrefl_step, exttrans_step, addext_step, addpair_step, addlink_step, equality};
ghost use Rattle.rules_eq.specs.Law.{loses_no_model, adds_sorted};

use crate::rules::{
    kept_pair, link_extension, linked_pair, one_class, one_to_one, pair_of_link, read_hit,
    read_miss, reflexivity, replacement, self_extension, transitivity,
};
use rel_list::Memory;
use rel_logic::sequent::Node;
use rules_table::arguments::{counts, form, formula, holds, term, the_formula};
use rules_table::step::Step;
use rules_table::theory::{Answer, Theory};
use rules_table::{at, only, rows};
use std::alloc::Global;

/// A term is itself.
fn refl(alloc: Global, node: &Node, step: &Step) -> Result<Answer, Memory>
    ensures { IfOk result (λ a. outcome_of a ≡ refl_step (node_of node.now) (step_of step.now)) }
{
    only!(
        holds(step, 0, 1, 0),
        at!(t = term(step, 0) => reflexivity(alloc, node, t))
    )
}

/// What holds of one side of an equation holds of the other.
fn replace(alloc: Global, node: &Node, step: &Step) -> Result<Answer, Memory>
    requires { IsSound (node_of node.now) }
    ensures { IfOk result (λ a. outcome_of a ≡ replace_step (node_of node.now) (step_of step.now)) }
{
    only!(
        holds(step, 2, 0, 1),
        at!(k = form(step, 0), f = formula(node, step, 0), g = formula(node, step, 1) => replacement(alloc, node, f, g, k))
    )
}

/// A map with a value has it there.
fn readhit(alloc: Global, node: &Node, step: &Step) -> Result<Answer, Memory>
    ensures { IfOk result (λ a. outcome_of a ≡ readhit_step (node_of node.now) (step_of step.now)) }
{
    only!(
        holds(step, 0, 3, 0),
        at!(m = term(step, 0), a = term(step, 1), v = term(step, 2) => read_hit(alloc, node, m, a, v))
    )
}

/// A map with a value has its own value anywhere else.
fn readmiss(alloc: Global, node: &Node, step: &Step) -> Result<Answer, Memory>
    ensures { IfOk result (λ a. outcome_of a ≡ readmiss_step (node_of node.now) (step_of step.now)) }
{
    only!(
        holds(step, 0, 4, 0),
        at!(b = term(step, 3), m = term(step, 0), a = term(step, 1), v = term(step, 2) => read_miss(alloc, node, m, a, v, b))
    )
}

/// Partners are one to one.
fn bijone(alloc: Global, node: &Node, step: &Step) -> Result<Answer, Memory>
    requires { IsSound (node_of node.now) }
    ensures { IfOk result (λ a. outcome_of a ≡ bijone_step (node_of node.now) (step_of step.now)) }
{
    only!(
        holds(step, 2, 0, 0),
        at!(f = formula(node, step, 0), g = formula(node, step, 1) => one_to_one(alloc, f, g))
    )
}

/// Partners are of one class.
fn bijclass(alloc: Global, node: &Node, step: &Step) -> Result<Answer, Memory>
    requires { IsSound (node_of node.now) }
    ensures { IfOk result (λ a. outcome_of a ≡ bijclass_step (node_of node.now) (step_of step.now)) }
{
    only!(
        counts(step, 1, 0, 0),
        at!(c = step.class, f = formula(node, step, 0) => one_class(alloc, f, c))
    )
}

/// An extension keeps the pairs.
fn extpair(alloc: Global, node: &Node, step: &Step) -> Result<Answer, Memory>
    requires { IsSound (node_of node.now) }
    ensures { IfOk result (λ a. outcome_of a ≡ extpair_step (node_of node.now) (step_of step.now)) }
{
    only!(
        holds(step, 2, 0, 0),
        at!(f = formula(node, step, 0), g = formula(node, step, 1) => kept_pair(alloc, f, g))
    )
}

/// A bijection extends itself.
fn extrefl(alloc: Global, node: &Node, step: &Step) -> Result<Answer, Memory>
    ensures { IfOk result (λ a. outcome_of a ≡ extrefl_step (node_of node.now) (step_of step.now)) }
{
    only!(
        holds(step, 0, 1, 0),
        at!(p = term(step, 0) => self_extension(alloc, node, p))
    )
}

/// An extension of an extension is one.
fn exttrans(alloc: Global, node: &Node, step: &Step) -> Result<Answer, Memory>
    requires { IsSound (node_of node.now) }
    ensures { IfOk result (λ a. outcome_of a ≡ exttrans_step (node_of node.now) (step_of step.now)) }
{
    only!(
        holds(step, 2, 0, 0),
        at!(f = formula(node, step, 0), g = formula(node, step, 1) => transitivity(alloc, f, g))
    )
}

/// A link extends its bijection.
fn addext(alloc: Global, node: &Node, step: &Step) -> Result<Answer, Memory>
    ensures { IfOk result (λ a. outcome_of a ≡ addext_step (node_of node.now) (step_of step.now)) }
{
    only!(
        holds(step, 0, 3, 0),
        at!(p = term(step, 0), a = term(step, 1), b = term(step, 2) => link_extension(alloc, node, p, a, b))
    )
}

/// A link's pairs are the bijection's and the added one.
fn addpair(alloc: Global, node: &Node, step: &Step) -> Result<Answer, Memory>
    requires { IsSound (node_of node.now) }
    ensures { IfOk result (λ a. outcome_of a ≡ addpair_step (node_of node.now) (step_of step.now)) }
{
    at!(f = the_formula(node, step, 0) => pair_of_link(alloc, f))
}

/// A link of two of the class without partners pairs them.
fn addlink(alloc: Global, node: &Node, step: &Step) -> Result<Answer, Memory>
    ensures { IfOk result (λ a. outcome_of a ≡ addlink_step (node_of node.now) (step_of step.now)) }
{
    only!(
        counts(step, 0, 3, 0),
        at!(c = step.class, p = term(step, 0), a = term(step, 1), b = term(step, 2) => linked_pair(alloc, node, p, a, b, c))
    )
}

/// What the step comes to by rows 15 to 26.
fn apply_row(alloc: Global, node: &Node, step: &Step) -> Result<Answer, Memory>
    requires { IsSound (node_of node.now) }
    ensures { IfOk result (λ a. outcome_of a ≡ equality (node_of node.now) (step_of step.now)) }
{
    rows! { step.row;
        15 => refl(alloc, node, step),
        16 => replace(alloc, node, step),
        17 => readhit(alloc, node, step),
        18 => readmiss(alloc, node, step),
        19 => bijone(alloc, node, step),
        20 => bijclass(alloc, node, step),
        21 => extpair(alloc, node, step),
        22 => extrefl(alloc, node, step),
        23 => exttrans(alloc, node, step),
        24 => addext(alloc, node, step),
        25 => addpair(alloc, node, step),
        26 => addlink(alloc, node, step),
    }
}

/// Whether the step closes the node. None of these rows does.
pub fn closes(_node: &Node, _step: &Step) -> bool
    requires { IsSound (node_of _node.now) }
    ensures { IsTrue result ↔ (equality (node_of _node.now) (step_of _step.now) ≡ kids []) }
{
    false
}

/// Rows 15 to 26: the rules on equality, maps and bijections.
#[derive(Clone, Copy, Drop)]
pub struct Equality;

impl Theory for Equality {
    ghost outcome = { equality };

    ghost keeps = { loses_no_model };

    ghost sorted = { adds_sorted };

    fn apply(&self, alloc: Global, node: &Node, step: &Step) -> Result<Answer, Memory> {
        apply_row(alloc, node, step)
    }
}
