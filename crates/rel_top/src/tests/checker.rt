//! A derivation by rules on equality, step by step.

use rel_derive::checker::{Checker, StepFault, can_be_checked};
use rel_list::{Boxed, List, Memory};
use rel_logic::fol::Fol;
use rel_logic::sequent::Sequent;
use rel_logic::term::{Sort, Term};
use rules_table::step::Step;
use std::alloc::Global;
use std::test::Fail;

/// From `v0 = v1` follows `v1 = v0`.
fn example(alloc: Global) -> Result<Sequent, Memory> {
    let mut sorts = List::new(alloc);
    sorts.push(Sort::Int)?;
    sorts.push(Sort::Int)?;
    let mut hyps = List::new(alloc);
    hyps.push(Fol::Eq(Term::Var(0), Term::Var(1)))?;
    Ok(Sequent {
        sorts,
        hyps,
        goal: Fol::Eq(Term::Var(1), Term::Var(0)),
    })
}

fn bare(alloc: Global, row: u8) -> Step {
    Step {
        row,
        nums: List::new(alloc),
        ints: List::new(alloc),
        terms: List::new(alloc),
        forms: List::new(alloc),
        class: None,
    }
}

/// A variable is itself.
fn itself(alloc: Global, n: u32) -> Result<Step, Memory> {
    let mut step = bare(alloc, 15);
    step.terms.push(Term::Var(n))?;
    Ok(step)
}

/// By equation `i`, what formula `j` says of its left side, in the place of `b0` in `b0 = v0`, holds of its right side.
fn replaced(alloc: Global, i: u32, j: u32) -> Result<Step, Memory> {
    let mut step = bare(alloc, 16);
    step.nums.push(i)?;
    step.nums.push(j)?;
    step.forms.push(Fol::Eq(Term::Bound(0), Term::Var(0)))?;
    Ok(step)
}

fn closed(alloc: Global, i: u32, j: u32) -> Result<Step, Memory> {
    let mut step = bare(alloc, 1);
    step.nums.push(i)?;
    step.nums.push(j)?;
    Ok(step)
}

/// Boxed, since a function that drops a sequent of its own is too large for the check.
fn boxed_example(alloc: Global) -> Result<Boxed<Sequent>, Memory> {
    Boxed::new(alloc, example(alloc)?)
}

fn checker(alloc: Global) -> Result<Checker, Memory> {
    let sequent = boxed_example(alloc)?;
    if !can_be_checked(sequent.get()) {
        return Err(Memory);
    }
    Checker::new(alloc, sequent.into_inner())
}

#[test]
fn a_derivation_is_taken_step_by_step(rt: HostRuntime) -> Result<(), Fail> {
    let alloc = rt.alloc();
    let mut checker = checker(alloc)?;
    assert!(rt; checker.pending() == 1 && !checker.is_done());
    assert!(rt; checker.step(&closed(alloc, 0, 1)?) == Err(StepFault::Bad));
    assert!(rt; checker.step(&itself(alloc, 0)?) == Ok(()));
    assert!(rt; checker.step(&itself(alloc, 2)?) == Err(StepFault::Bad));
    assert!(rt; checker.step(&replaced(alloc, 0, 2)?) == Ok(()));
    assert!(rt; checker.step(&bare(alloc, 45)) == Err(StepFault::Bad));
    assert!(rt; checker.step(&closed(alloc, 3, 1)?) == Ok(()));
    assert!(rt; checker.is_done() && checker.pending() == 0);
    assert!(rt; checker.step(&itself(alloc, 0)?) == Err(StepFault::Bad));
    Ok(())
}
