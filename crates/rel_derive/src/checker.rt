//! Checks a derivation step by step, on a stack of open nodes.
ghost use Rattle.std.specs.Prelude.{◌≡◌, ◌↔◌, [], length, map, IfOk, IsTrue};
ghost use Rattle.rel_logic.specs.View.{sort_of, sequent_of, node_of};
ghost use Rattle.rules_table.specs.Nodes.{IsSound};
ghost use Rattle.rules_table.specs.View.{step_of};
ghost use Rattle.rel_derive.specs.Rules.{first_node, first_stack};
ghost use Rattle.rel_derive.specs.Taken.{AreSortedOver};
ghost use Rattle.rel_derive.specs.Pile.{IsSoundPile, IsSoundPile-prop};

use crate::pile::{Pile, ROOM};
use rel_list::{Boxed, List, Memory};
use rel_logic::fol::Fol;
use rel_logic::sequent::{Node, Sequent};
use rel_logic::sorting::well_sorted;
use rel_logic::term::Sort;
use rules_table::step::Step;
use std::alloc::Global;

/// Why a step was not taken.
#[derive(Clone, Copy, Debug, PartialEq, Eq, Drop)]
pub enum StepFault {
    Bad,
    Memory,
}

/// The open nodes of a derivation.
#[derive(Drop)]
pub struct Checker {
    pile: Pile,
    ghost kept: { IsSoundPile pile } by { IsSoundPile-prop pile },
}

/// The hypotheses and the goal's negation.
fn first_node(alloc: Global, sequent: Sequent) -> Result<Node, Memory>
    ensures { IfOk result (λ n. node_of n ≡ first_node (sequent_of sequent)) }
{
    let Sequent { sorts, hyps, goal } = sequent;
    let mut forms = hyps;
    forms.push(Fol::Not(Boxed::new(alloc, goal)?))?;
    Ok(Node { sorts, forms })
}

fn are_well_sorted(forms: &List<Fol>, sorts: &[Sort]) -> bool
    ensures { IsTrue result ↔ AreSortedOver (map sort_of sorts.now) forms.now }
{
    for i in 0..forms.len() {
        if !well_sorted(forms.at(i), sorts) {
            return false;
        }
    }
    true
}

/// Whether a checker can take the sequent: its formulas are closed and well sorted over its variables, and
/// there are fewer than 2^31 variables and formulas.
pub fn can_be_checked(sequent: &Sequent) -> bool
    ensures { IsTrue result ↔ IsSound (first_node (sequent_of sequent.now)) }
{
    let sorts = sequent.sorts.as_slice();
    if sequent.sorts.len() >= ROOM || sequent.hyps.len() >= ROOM - 1 {
        return false;
    }
    are_well_sorted(&sequent.hyps, sorts) && well_sorted(&sequent.goal, sorts)
}

impl Checker {
    ghost use Rattle.rel_derive.specs.Answers.{IsStepAnswer};
    ghost use Rattle.rel_derive.specs.Stack.{stack_of};

    /// The checker of the sequent's one node.
    pub fn new(alloc: Global, sequent: Sequent) -> Result<Checker, Memory>
        requires { IsSound (first_node (sequent_of sequent)) }
        ensures { IfOk result (λ c. stack_of c ≡ first_stack (sequent_of sequent)) }
    {
        let node = first_node(alloc, sequent)?;
        let pile = Pile::new(alloc, node)?;
        Ok(Checker { pile })
    }

    /// How many nodes are open.
    pub fn pending(&self) -> usize
        ensures { result ≡ length (stack_of self.now) }
    {
        self.pile.len()
    }

    pub fn is_done(&self) -> bool
        ensures { IsTrue result ↔ (stack_of self.now ≡ []) }
    {
        self.pile.len() == 0
    }

    /// Puts the children of the top node in its place. After an `Err` the stack is as before.
    pub fn step(&mut self, step: &Step) -> Result<(), StepFault>
        ensures { IsStepAnswer (stack_of self.old) (step_of step.now) result (stack_of self.new) }
    {
        self.pile.step(step)
    }
}
