//! What a whole derivation comes to.
ghost use Rattle.std.specs.Prelude.{◌≡◌, ◌<◌, ◌^◌, length, map, IfOk};
ghost use Rattle.rel_logic.specs.Truth.{IsValid};
ghost use Rattle.rel_logic.specs.View.{sequent_of};
ghost use Rattle.rules_table.specs.Nodes.{IsSound};
ghost use Rattle.rules_table.specs.View.{step_of};
ghost use Rattle.rel_derive.specs.declared.verdict.Outcome.{Outcome as Outcomes};
ghost use Rattle.rel_derive.specs.Rules.{first_node};
ghost use Rattle.rel_derive.specs.Outcomes.{IsOutcome};

use crate::checker::{Checker, StepFault};
use rel_list::{List, Memory};
use rel_logic::sequent::Sequent;
use rules_table::step::Step;
use std::alloc::Global;

/// What a list of steps comes to: the first step that isn't good has this number, or so many nodes are open after the last
/// one.
#[derive(Clone, Copy, Debug, PartialEq, Eq, Drop)]
pub enum Outcome {
    Accepted,
    BadStep(u32),
    OpenNodes(u64),
}

fn run_steps(alloc: Global, sequent: Sequent, steps: &List<Step>) -> Result<Outcome, Memory>
    requires sound { IsSound (first_node (sequent_of sequent)) }
    requires few { length steps.now < 2 ^ 32 }
    ensures { IfOk result (λ o. IsOutcome (sequent_of sequent) (map step_of steps.now) o) }
{
    let mut checker = Checker::new(alloc, sequent)?;
    let items = steps.as_slice();
    for (number, step) in items.iter().enumerate() {
        match checker.step(step) {
            Ok(()) => {}
            Err(StepFault::Bad) => return Ok(Outcome::BadStep(number as u32)),
            Err(StepFault::Memory) => return Err(Memory),
        }
    }
    if checker.is_done() {
        Ok(Outcome::Accepted)
    } else {
        Ok(Outcome::OpenNodes(checker.pending() as u64))
    }
}

/// What the steps come to, from the node of the sequent. Where they are accepted, it is valid.
pub fn outcome_of(alloc: Global, sequent: Sequent, steps: &List<Step>) -> Result<Outcome, Memory>
    requires sound { IsSound (first_node (sequent_of sequent)) }
    requires few { length steps.now < 2 ^ 32 }
    ensures outcome { IfOk result (λ o. IsOutcome (sequent_of sequent) (map step_of steps.now) o) }
    ensures valid { IfOk result (λ o. o ≡ Outcome.Accepted → IsValid (sequent_of sequent)) }
    // No other outcome fits.
    ensures only { IfOk result (λ o. (p : Outcomes) → IsOutcome (sequent_of sequent) (map step_of steps.now) p → p ≡ o) }
{
    run_steps(alloc, sequent, steps)
}
