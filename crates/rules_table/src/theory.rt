//! What a step comes to at a node.
ghost use Rattle.std.specs.Prelude.{◌≡◌, [], ◌∷◌, length, map, List as Listed, IfOk};
ghost use Rattle.rel_logic.specs.Syntax.{Nod, no};
ghost use Rattle.rel_logic.specs.View.{sort_of, fml_of, node_of};
ghost use Rattle.rules_table.specs.Nodes.{Stp, Addition, with_form, Outcome, kids, IsSound, LosesNoModel, AreSorted};
ghost use Rattle.rules_table.specs.Table.{adds, one_child};
ghost use Rattle.rules_table.specs.View.{step_of, addition_of, outcome_of};

use crate::step::Step;
use rel_list::{Boxed, List, Memory};
use rel_logic::fol::Fol;
use rel_logic::sequent::Node;
use rel_logic::term::Sort;
use std::alloc::Global;

/// What a child adds to its node. Its fresh variables are numbered after the node's.
#[derive(Drop)]
pub struct Added {
    pub fresh: List<Sort>,
    pub forms: List<Fol>,
}

/// The outcome of a rule with `P` children.
#[derive(Drop)]
pub struct Row<const P: usize> {
    pub number: u8,
    pub kids: List<Added>,
    ghost count: { length kids ≡ P },
}

/// The row is another theory's, or its needs aren't met, or these are the children.
#[derive(Drop)]
pub enum Answer {
    NotMine,
    Bad,
    Kids(List<Added>),
}

/// A part of the table.
pub trait Theory {
    /// What a step comes to at a node, by the table.
    ghost outcome: { Nod → Stp → Outcome };

    fn apply(&self, alloc: Global, node: &Node, step: &Step) -> Result<Answer, Memory>
        requires { IsSound (node_of node.now) }
        ensures { IfOk result (λ a. outcome_of a ≡ outcome (node_of node.now) (step_of step.now)) };

    /// A step loses no model.
    ghost keeps: { (n : Nod) (s : Stp) (added : Listed Addition) → IsSound n → outcome n s ≡ kids added → LosesNoModel n added };

    /// What a step adds is closed and well sorted.
    ghost sorted: { (n : Nod) (s : Stp) (added : Listed Addition) → IsSound n → outcome n s ≡ kids added → AreSorted n added };
}

impl Added {
    pub fn nothing(alloc: Global) -> Added
        ensures { addition_of result ≡ adds [] }
    {
        Added {
            fresh: List::new(alloc),
            forms: List::new(alloc),
        }
    }

    /// A fresh variable of the sort.
    pub fn variable(alloc: Global, sort: Sort) -> Result<Added, Memory>
        ensures { IfOk result (λ a. addition_of a ≡ record { fresh = sort_of sort ∷ []; forms = [] }) }
    {
        let mut fresh = List::new(alloc);
        fresh.push(sort)?;
        let forms = List::new(alloc);
        Ok(Added { fresh, forms })
    }

    /// With one more formula.
    pub fn with(self, f: Fol) -> Result<Added, Memory>
        ensures { IfOk result (λ a. addition_of a ≡ with_form (addition_of self) (fml_of f)) }
    {
        let Added { fresh, mut forms } = self;
        forms.push(f)?;
        Ok(Added { fresh, forms })
    }

    pub fn with_copy(self, f: &Fol) -> Result<Added, Memory>
        ensures { IfOk result (λ a. addition_of a ≡ with_form (addition_of self) (fml_of f.now)) }
    {
        let copy = f.copy()?;
        self.with(copy)
    }

    /// With the formula's negation.
    pub fn with_not(self, alloc: Global, f: &Fol) -> Result<Added, Memory>
        ensures { IfOk result (λ a. addition_of a ≡ with_form (addition_of self) (no (fml_of f.now))) }
    {
        let negation = negated(alloc, f)?;
        self.with(negation)
    }
}

/// The formula's negation.
pub fn negated(alloc: Global, f: &Fol) -> Result<Fol, Memory>
    ensures { IfOk result (λ g. fml_of g ≡ no (fml_of f.now)) }
{
    let copy = f.copy()?;
    Ok(Fol::Not(Boxed::new(alloc, copy)?))
}

impl<const P: usize> Row<P> {
    pub fn answer(self) -> Answer
        ensures { outcome_of result ≡ kids (map addition_of self.entry.kids) }
    {
        let Row { number: _, kids } = self;
        Answer::Kids(kids)
    }
}

/// A row without children.
pub fn closing(alloc: Global, number: u8) -> Answer
    ensures { outcome_of result ≡ kids [] }
{
    let row: Row<0> = Row {
        number,
        kids: List::new(alloc),
    };
    row.answer()
}

fn one_row(alloc: Global, number: u8, child: Added) -> Result<Row<1>, Memory>
    ensures { IfOk result (λ row. row.kids ≡ child ∷ []) }
{
    let mut kids = List::new(alloc);
    kids.push(child)?;
    Ok(Row { number, kids })
}

/// A row with one child.
pub fn one_child(alloc: Global, number: u8, child: Added) -> Result<Answer, Memory>
    ensures { IfOk result (λ a. outcome_of a ≡ kids (addition_of child ∷ [])) }
{
    let row = one_row(alloc, number, child)?;
    Ok(row.answer())
}

/// A row with one child, to which it adds a formula.
pub fn adding(alloc: Global, number: u8, f: Fol) -> Result<Answer, Memory>
    ensures { IfOk result (λ a. outcome_of a ≡ one_child (fml_of f ∷ [])) }
{
    one_child(alloc, number, Added::nothing(alloc).with(f)?)
}

fn two_rows(alloc: Global, number: u8, first: Added, second: Added) -> Result<Row<2>, Memory>
    ensures { IfOk result (λ row. row.kids ≡ first ∷ second ∷ []) }
{
    let mut kids = List::new(alloc);
    kids.push(first)?;
    kids.push(second)?;
    Ok(Row { number, kids })
}

/// A row with two children.
pub fn two_children(
    alloc: Global,
    number: u8,
    first: Added,
    second: Added,
) -> Result<Answer, Memory>
    ensures { IfOk result (λ a. outcome_of a ≡ kids (addition_of first ∷ addition_of second ∷ [])) }
{
    let row = two_rows(alloc, number, first, second)?;
    Ok(row.answer())
}

fn three_rows(
    alloc: Global,
    number: u8,
    first: Added,
    second: Added,
    third: Added,
) -> Result<Row<3>, Memory>
    ensures { IfOk result (λ row. row.kids ≡ first ∷ second ∷ third ∷ []) }
{
    let mut kids = List::new(alloc);
    kids.push(first)?;
    kids.push(second)?;
    kids.push(third)?;
    Ok(Row { number, kids })
}

/// A row with three children.
pub fn three_children(
    alloc: Global,
    number: u8,
    first: Added,
    second: Added,
    third: Added,
) -> Result<Answer, Memory>
    ensures { IfOk result (λ a. outcome_of a ≡ kids (addition_of first ∷ addition_of second ∷ addition_of third ∷ [])) }
{
    let row = three_rows(alloc, number, first, second, third)?;
    Ok(row.answer())
}
