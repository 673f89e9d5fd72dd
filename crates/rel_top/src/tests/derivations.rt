//! Derivations that are accepted, too short and too long.

ghost use Rattle.std.specs.Prelude.{◌<◌, length};

use rel_list::{Boxed, List, Memory};
use rel_logic::fol::Fol;
use rel_logic::sequent::Sequent;
use rel_logic::term::{Sort, Term};
use rel_straight::checker::{Verdict, accepts};
use rel_straight::step::Step;
use std::alloc::Global;
use std::test::Fail;

fn sum(alloc: Global, a: Term, b: Term) -> Result<Term, Memory> {
    Ok(Term::Add(Boxed::new(alloc, a)?, Boxed::new(alloc, b)?))
}

/// `x + 1 = 1 + x`.
fn example(alloc: Global) -> Result<Sequent, Memory> {
    let mut sorts = List::new(alloc);
    sorts.push(Sort::Int)?;
    let left = sum(alloc, Term::Var(0), Term::Int(1))?;
    let right = sum(alloc, Term::Int(1), Term::Var(0))?;
    Ok(Sequent {
        sorts,
        hyps: List::new(alloc),
        goal: Fol::Eq(left, right),
    })
}

fn once(alloc: Global, i: u32) -> Result<Step, Memory> {
    let mut pairs = List::new(alloc);
    pairs.push((i, 1))?;
    Ok(Step::Farkas(pairs))
}

/// The first `count` steps of the example's derivation.
fn derivation(alloc: Global, count: usize) -> Result<List<Step>, Memory> {
    let mut steps = List::new(alloc);
    if count > 0 {
        steps.push(Step::Neint(0))?;
    }
    for _ in 1..count {
        steps.push(once(alloc, 1)?)?;
    }
    Ok(steps)
}

/// Boxed, since a function that drops a sequent of its own is too large for the check.
fn boxed_example(alloc: Global) -> Result<Boxed<Sequent>, Memory> {
    Boxed::new(alloc, example(alloc)?)
}

fn verdict_on(alloc: Global, steps: &List<Step>) -> Result<Verdict, Memory>
    requires { length steps.now < 5 }
{
    let sequent = boxed_example(alloc)?;
    accepts(alloc, sequent.get(), steps)
}

fn verdict_after(alloc: Global, count: usize) -> Result<Verdict, Memory> {
    let steps = derivation(alloc, count)?;
    if steps.len() < 5 {
        verdict_on(alloc, &steps)
    } else {
        Err(Memory)
    }
}

#[test]
fn a_derivation_is_accepted_only_whole(rt: HostRuntime) -> Result<(), Fail> {
    assert!(rt; verdict_after(rt.alloc(), 3)? == Verdict::Accepted);
    assert!(rt; verdict_after(rt.alloc(), 2)? == Verdict::OpenNodes(1));
    assert!(rt; verdict_after(rt.alloc(), 0)? == Verdict::OpenNodes(1));
    assert!(rt; verdict_after(rt.alloc(), 4)? == Verdict::BadStep(3));
    Ok(())
}
