//! What a step comes to, by all theories.
ghost use Rattle.std.specs.Prelude.{◌≡◌, IfOk};
ghost use Rattle.rel_logic.specs.View.{node_of};
ghost use Rattle.rules_table.specs.Nodes.{IsSound, not_mine};
ghost use Rattle.rules_table.specs.View.{step_of, outcome_of};
ghost use Rattle.rel_derive.specs.Rules.{otherwise, outcome_of_all};

use rel_list::Memory;
use rel_logic::sequent::Node;
use rules_eq::equality::Equality;
use rules_int::integers::Integers;
use rules_set::regions::Regions;
use rules_table::propositional::Propositional;
use rules_table::step::Step;
use rules_table::theory::{Answer, Theory};
use std::alloc::Global;

/// The theory's answer, where the row is another's by those that were asked before.
fn ask<T: Theory>(
    before: Answer,
    theory: &T,
    alloc: Global,
    node: &Node,
    step: &Step,
) -> Result<Answer, Memory>
    requires { IsSound (node_of node.now) }
    ensures { IfOk result (λ a. outcome_of a ≡ otherwise (outcome_of before) (T.outcome (node_of node.now) (step_of step.now))) }
{
    match before {
        Answer::NotMine => theory.apply(alloc, node, step),
        answer => Ok(answer),
    }
}

/// The answer of the first theory that has the step's row.
pub fn answer_of_all(alloc: Global, node: &Node, step: &Step) -> Result<Answer, Memory>
    requires { IsSound (node_of node.now) }
    ensures { IfOk result (λ a. outcome_of a ≡ outcome_of_all (node_of node.now) (step_of step.now)) }
{
    let first = ask(Answer::NotMine, &Propositional, alloc, node, step)?;
    let second = ask(first, &Equality, alloc, node, step)?;
    let third = ask(second, &Regions, alloc, node, step)?;
    ask(third, &Integers, alloc, node, step)
}
