//! Checks a derivation step by step, on a stack of open nodes.
ghost use Rattle.std.specs.Prelude.{◌≡◌, ◌≢◌, ◌↔◌, ◌<◌, ◌^◌, [], ◌∷◌, length, IfOk, IsTrue, MatchOption};
ghost use Rattle.rel_logic.specs.Syntax.{Trm, eq, lt, no};
ghost use Rattle.rel_logic.specs.View.{trm_of, fml_of, sequent_of, node_of};
ghost use Rattle.rel_straight.specs.declared.checker.Verdict.{Verdict};
ghost use Rattle.rel_straight.specs.Rules.{child, first_stack, IsAccepted};
ghost use Rattle.rel_straight.specs.Stack.{stack_of, DiffersAt, IsStepAnswer, IsVerdict};

use crate::linear::{is_good_sum, is_int};
use crate::step::Step;
use rel_list::{Boxed, Copies, List, Memory};
use rel_logic::fol::Fol;
use rel_logic::sequent::{Node, Sequent};
use rel_logic::term::Term;
use std::alloc::Global;

/// Why a step was not taken.
#[derive(Clone, Copy, Debug, PartialEq, Eq, Drop)]
pub enum StepFault {
    Bad,
    Memory,
}

/// The open nodes of a derivation, the one to work on last.
#[derive(Drop)]
pub struct Checker {
    nodes: Vec<Node>,
}

/// What a list of steps comes to: `BadStep` has the first bad step's number.
#[derive(Clone, Copy, Debug, PartialEq, Eq, Drop)]
pub enum Verdict {
    Accepted,
    BadStep(u32),
    OpenNodes(u64),
}

fn first_node(alloc: Global, sequent: &Sequent) -> Result<Node, Memory>
    ensures { IfOk result (λ n. node_of n ∷ [] ≡ first_stack (sequent_of sequent.now)) }
{
    let sorts = sequent.sorts.copied()?;
    let mut forms = sequent.hyps.copied()?;
    let goal = Boxed::new(alloc, sequent.goal.copy()?)?;
    forms.push(Fol::Not(goal))?;
    Ok(Node { sorts, forms })
}

fn with_form(node: &Node, form: Fol) -> Result<Node, Memory>
    ensures { IfOk result (λ n. node_of n ≡ child (node_of node.now) (fml_of form ∷ [])) }
{
    let sorts = node.sorts.copied()?;
    let mut forms = node.forms.copied()?;
    forms.push(form)?;
    Ok(Node { sorts, forms })
}

/// The sides of an equation.
fn sides(f: &Fol) -> Option<(&Term, &Term)>
    ensures { let formula = fml_of f.now in
        MatchOption result ((t u : Trm) → formula ≢ eq t u)
        (λ p. formula ≡ eq (trm_of p.0.now) (trm_of p.1.now)) }
{
    match f {
        Fol::Eq(t, u) => Some((t, u)),
        _ => None,
    }
}

/// The two terms of a formula that says that they differ.
fn unequal_terms(f: &Fol) -> Option<(&Term, &Term)>
    ensures { let formula = fml_of f.now in
        MatchOption result ((t u : Trm) → formula ≢ no (eq t u))
        (λ p. formula ≡ no (eq (trm_of p.0.now) (trm_of p.1.now))) }
{
    match f {
        Fol::Not(g) => sides(g.get()),
        _ => None,
    }
}

/// The two terms of sort Int of which formula `i` says that they differ.
fn unequal_ints(node: &Node, i: u32) -> Option<(&Term, &Term)>
    ensures { let n = node_of node.now in
        MatchOption result ((t u : Trm) → ¬ (DiffersAt n i t u))
        (λ p. DiffersAt n i (trm_of p.0.now) (trm_of p.1.now)) }
{
    let i = i as usize;
    if i >= node.forms.len() {
        return None;
    }
    let (t, u) = unequal_terms(node.forms.at(i))?;
    if is_int(&node.sorts, t) && is_int(&node.sorts, u) {
        Some((t, u))
    } else {
        None
    }
}

/// The node with `t` below `u`, and the node with `u` below `t`.
fn both_orders(node: &Node, t: &Term, u: &Term) -> Result<(Node, Node), Memory>
    ensures { let n = node_of node.now in
        let a = trm_of t.now in
        let b = trm_of u.now in
        IfOk result (λ p. (node_of p.0 ≡ child n (lt a b ∷ [])) × (node_of p.1 ≡ child n (lt b a ∷ []))) }
{
    let first = with_form(node, Fol::Lt(t.copy()?, u.copy()?))?;
    let second = with_form(node, Fol::Lt(u.copy()?, t.copy()?))?;
    Ok((first, second))
}

impl Checker {
    pub fn new(alloc: Global, sequent: &Sequent) -> Result<Checker, Memory>
        ensures { IfOk result (λ c. stack_of c ≡ first_stack (sequent_of sequent.now)) }
    {
        let mut nodes = Vec::new(alloc);
        nodes.push(first_node(alloc, sequent)?)?;
        Ok(Checker { nodes })
    }

    /// How many nodes are open.
    pub fn pending(&self) -> usize
        ensures { result ≡ length (stack_of self.now) }
    {
        self.nodes.len()
    }

    pub fn is_done(&self) -> bool
        ensures { IsTrue result ↔ (stack_of self.now ≡ []) }
    {
        self.nodes.is_empty()
    }

    fn close(&mut self, alloc: Global, pairs: &List<(u32, i128)>) -> Result<(), StepFault>
        ensures { IsStepAnswer (stack_of self.old) (Step.Farkas pairs.now) result (stack_of self.new) }
    {
        let Some(top) = self.nodes.last() else {
            return Err(StepFault::Bad);
        };
        let Ok(is_good) = is_good_sum(alloc, top, pairs) else {
            return Err(StepFault::Memory);
        };
        if !is_good {
            return Err(StepFault::Bad);
        }
        let below = self.nodes.len() - 1;
        self.nodes.truncate(below);
        Ok(())
    }

    fn split(&mut self, i: u32) -> Result<(), StepFault>
        ensures { IsStepAnswer (stack_of self.old) (Step.Neint i) result (stack_of self.new) }
    {
        let Some(top) = self.nodes.last() else {
            return Err(StepFault::Bad);
        };
        let Some((t, u)) = unequal_ints(top, i) else {
            return Err(StepFault::Bad);
        };
        let Ok((first, second)) = both_orders(top, t, u) else {
            return Err(StepFault::Memory);
        };
        let top = self.nodes.len() - 1;
        let Ok(()) = self.nodes.push(first) else {
            return Err(StepFault::Memory);
        };
        self.nodes[top] = second;
        Ok(())
    }

    /// Puts the children of the top node in its place. After an `Err` the stack is as before.
    pub fn step(&mut self, step: &Step) -> Result<(), StepFault>
        ensures { IsStepAnswer (stack_of self.old) step.now result (stack_of self.new) }
    {
        let alloc = *self.nodes.allocator();
        match step {
            Step::Neint(i) => self.split(*i),
            Step::Farkas(pairs) => self.close(alloc, pairs),
        }
    }
}

fn verdict_of(alloc: Global, sequent: &Sequent, steps: &List<Step>) -> Result<Verdict, Memory>
    requires { length steps.now < 2 ^ 32 }
    ensures { IfOk result (λ v. IsVerdict (sequent_of sequent.now) steps.now v) }
{
    let mut checker = Checker::new(alloc, sequent)?;
    let items = steps.as_slice();
    for (number, step) in items.iter().enumerate() {
        match checker.step(step) {
            Ok(()) => {}
            Err(StepFault::Bad) => return Ok(Verdict::BadStep(number as u32)),
            Err(StepFault::Memory) => return Err(Memory),
        }
    }
    if checker.is_done() {
        Ok(Verdict::Accepted)
    } else {
        Ok(Verdict::OpenNodes(checker.pending() as u64))
    }
}

/// What the steps come to, from the node of the sequent. Where they are accepted, it is valid.
pub fn accepts(alloc: Global, sequent: &Sequent, steps: &List<Step>) -> Result<Verdict, Memory>
    requires { length steps.now < 2 ^ 32 }
    ensures verdict { IfOk result (λ v. IsVerdict (sequent_of sequent.now) steps.now v) }
    ensures exact { let q = sequent_of sequent.now in
        IfOk result (λ v. (v ≡ Verdict.Accepted) ↔ IsAccepted q steps.now) }
    // No other verdict fits.
    ensures only { let q = sequent_of sequent.now in
        IfOk result (λ v. (w : Verdict) → IsVerdict q steps.now w → w ≡ v) }
{
    verdict_of(alloc, sequent, steps)
}
