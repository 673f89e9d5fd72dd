//! The open nodes of a derivation, none of them copied: a child only appends to its node, so one
//! node holds what they have in common.
ghost use Rattle.std.specs.Prelude.{◌≡◌, ◌-◌, ◌<◌, ◌≤◌, ◌^◌, [], ◌∷◌, ◌++◌, length, map, take, reverse, IfOk, IsTrue, OnOk, OnErr};
ghost use Rattle.std.specs.List.{AllByRecursion};
ghost use Rattle.rel_logic.specs.View.{node_of};
ghost use Rattle.rules_table.specs.Nodes.{IsSound};
ghost use Rattle.rules_table.specs.View.{step_of};
ghost use Rattle.rel_derive.specs.Pile.{cut, grown, waits_at, nothing, nodes_of, AreWithin, IsSoundPile, IsRaised};
ghost use Rattle.rel_derive.specs.Answers.{IsRoomFor, IsChildrenAnswer, IsStepAnswer};

use crate::checker::StepFault;
use crate::theories::answer_of_all;
use rel_list::{List, Memory};
use rel_logic::sequent::Node;
use rules_table::step::Step;
use rules_table::theory::{Added, Answer};
use std::alloc::Global;

/// The lists of a node stay shorter than this.
pub const ROOM: usize = 0x8000_0000;

/// A child that waits: what it adds to the first sorts and formulas of the pile's node.
#[derive(Drop)]
pub struct Waiting {
    pub sorts: usize,
    pub forms: usize,
    pub added: Added,
}

/// The open nodes, the last on top. The node starts with what the top one adds to.
#[derive(Drop)]
pub struct Pile {
    pub base: Node,
    pub waiting: Vec<Waiting>,
}

fn shorten<T: Drop>(list: &mut List<T>, mark: usize)
    ensures { list.new ≡ take mark list.old }
{
    list.items.truncate(mark);
}

/// Moves the elements of `more` to the end.
fn join<T>(list: &mut List<T>, more: &mut List<T>) -> Result<(), Memory>
    ensures ok { OnOk result ((list.new ≡ list.old ++ more.old) × (more.new ≡ [])) }
    ensures err { OnErr result ((list.new ≡ list.old) × (more.new ≡ more.old)) }
{
    list.items.append(&mut more.items)?;
    Ok(())
}

/// Adds copies of the elements at the end.
fn extend<T: Copy>(list: &mut List<T>, more: &List<T>) -> Result<(), Memory>
    ensures ok { OnOk result (list.new ≡ list.old ++ more.now) }
    ensures err { OnErr result (list.new ≡ list.old) }
{
    list.items.extend_from_slice(more.as_slice())?;
    Ok(())
}

/// Makes the node the child's: cuts it to what the child adds to, and moves what it adds there.
/// Without memory the node is only cut.
fn settle(base: &mut Node, child: &mut Waiting) -> Result<(), Memory>
    requires { (child.old.sorts ≤ length base.old.sorts) × (child.old.forms ≤ length base.old.forms) }
    ensures ok { OnOk result ((base.new ≡ grown base.old child.old) × (child.new ≡ waits_at base.new nothing)) }
    ensures err { OnErr result ((base.new ≡ cut base.old child.old) × (child.new ≡ child.old)) }
{
    shorten(&mut base.sorts, child.sorts);
    shorten(&mut base.forms, child.forms);
    extend(&mut base.sorts, &child.added.fresh)?;
    let Ok(()) = join(&mut base.forms, &mut child.added.forms) else {
        shorten(&mut base.sorts, child.sorts);
        return Err(Memory);
    };
    shorten(&mut child.added.fresh, 0);
    child.sorts = base.sorts.len();
    child.forms = base.forms.len();
    Ok(())
}

/// Whether the child's lists stay short enough.
fn has_room(node: &Node, added: &Added) -> bool
    requires { IsSound (node_of node.now) }
    ensures { IsTrue result → IsRoomFor node.now added.now }
{
    let sorts = node.sorts.len();
    let forms = node.forms.len();
    added.fresh.len() < ROOM - sorts && added.forms.len() < ROOM - forms
}

fn all_have_room(node: &Node, kids: &List<Added>) -> bool
    requires { IsSound (node_of node.now) }
    ensures { IsTrue result → AllByRecursion (IsRoomFor node.now) kids.now }
{
    kids.as_slice().iter().all(|added| has_room(node, added))
}

/// The children of a node wait, the first one last.
#[tactic(auto, using(crate::proofs::Piles::reversed_map))]
fn waiting_children(alloc: Global, node: &Node, kids: List<Added>) -> Result<Vec<Waiting>, Memory>
    ensures { IfOk result (λ ws. reverse ws.items ≡ map (waits_at node.now) kids) }
{
    let sorts = node.sorts.len();
    let forms = node.forms.len();
    let mut items = kids.items;
    let mut children = Vec::new(alloc);
    items.reverse();
    for added in items {
        children.push(Waiting {
            sorts,
            forms,
            added,
        })?;
    }
    Ok(children)
}

/// What becomes of the children that the step gives the node.
fn children_at(alloc: Global, node: &Node, step: &Step) -> Result<Vec<Waiting>, StepFault>
    requires { IsSound (node_of node.now) }
    ensures { IsChildrenAnswer node.now (step_of step.now) result }
{
    match answer_of_all(alloc, node, step) {
        Err(Memory) => Err(StepFault::Memory),
        Ok(Answer::Kids(kids)) => {
            if !all_have_room(node, &kids) {
                return Err(StepFault::Memory);
            }
            match waiting_children(alloc, node, kids) {
                Ok(children) => Ok(children),
                Err(Memory) => Err(StepFault::Memory),
            }
        }
        Ok(_) => Err(StepFault::Bad),
    }
}

impl Pile {
    /// The pile of one node.
    pub fn new(alloc: Global, node: Node) -> Result<Pile, Memory>
        requires { IsSound (node_of node) }
        ensures { IfOk result (λ p. IsSoundPile p × (nodes_of p ≡ node_of node ∷ [])) }
    {
        let child = Waiting {
            sorts: node.sorts.len(),
            forms: node.forms.len(),
            added: Added::nothing(alloc),
        };
        let mut waiting = Vec::new(alloc);
        waiting.push(child)?;
        Ok(Pile {
            base: node,
            waiting,
        })
    }

    #[tactic(auto, using(crate::proofs::Piles::height_of))]
    pub fn len(&self) -> usize
        ensures { result ≡ length (nodes_of self.now) }
    {
        self.waiting.len()
    }

    /// Makes the pile's node that of the top child.
    fn raise(&mut self) -> Result<(), Memory>
        requires some { 0 < length self.old.waiting.items }
        requires kept { IsSoundPile self.old }
        ensures same { nodes_of self.new ≡ nodes_of self.old }
        ensures kept { IsSoundPile self.new }
        ensures raised { OnOk result (IsRaised self.new) }
    {
        let mut top = self.waiting.take_last();
        let settled = settle(&mut self.base, &mut top);
        self.waiting.push_reserved(top);
        settled
    }

    /// Puts the children in the place of the top one.
    fn replace(&mut self, mut children: Vec<Waiting>) -> Result<(), Memory>
        requires { 0 < length self.old.waiting.items }
        ensures base { self.new.base ≡ self.old.base }
        ensures ok { OnOk result (self.new.waiting.items ≡ take (length self.old.waiting.items - 1) self.old.waiting.items ++ children.items) }
        ensures err { OnErr result (self.new.waiting.items ≡ self.old.waiting.items) }
    {
        let top = self.waiting.len() - 1;
        self.waiting.append(&mut children)?;
        let _ = self.waiting.remove(top);
        Ok(())
    }

    /// Puts the children of the top node in its place. After an `Err` the nodes are as before.
    pub fn step(&mut self, step: &Step) -> Result<(), StepFault>
        requires { IsSoundPile self.old }
        ensures kept { IsSoundPile self.new }
        ensures answer { IsStepAnswer (nodes_of self.old) (step_of step.now) result (nodes_of self.new) }
    {
        if self.waiting.is_empty() {
            return Err(StepFault::Bad);
        }
        let Ok(()) = self.raise() else {
            return Err(StepFault::Memory);
        };
        let alloc = *self.waiting.allocator();
        let children = children_at(alloc, &self.base, step)?;
        let Ok(()) = self.replace(children) else {
            return Err(StepFault::Memory);
        };
        Ok(())
    }
}
