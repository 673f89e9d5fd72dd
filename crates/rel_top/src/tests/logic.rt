//! Copies, and a term put for a variable and for a bound number.
use rel_list::{Boxed, List, Memory, both};
use rel_logic::comparison::same;
use rel_logic::fol::{Fol, free_bound};
use rel_logic::sequent::Sequent;
use rel_logic::sorting::well_sorted;
use rel_logic::substitution::{instantiate, substitute};
use rel_logic::term::{Sort, Term};
use std::alloc::Global;
use std::test::Fail;

/// `left = v0 + 1`.
fn next_of_zero(alloc: Global, left: Term) -> Result<Fol, Memory> {
    let sum = Term::Add(
        Boxed::new(alloc, Term::Var(0))?,
        Boxed::new(alloc, Term::Int(1))?,
    );
    Ok(Fol::Eq(left, sum))
}

fn implies(alloc: Global, f: Fol, g: Fol) -> Result<Fol, Memory> {
    let (f, g) = both(Boxed::new(alloc, f), Boxed::new(alloc, g))?;
    Ok(Fol::Imp(f, g))
}

/// Each partner of the free bound number, under the bijection v4, lies in the region v3.
fn partners_within(alloc: Global) -> Result<Fol, Memory> {
    let pair = Fol::Paired(Term::Var(4), Term::Bound(1), Term::Bound(0));
    let within = Fol::Member(Term::Bound(0), Term::Var(3));
    let body = implies(alloc, pair, within)?;
    Ok(Fol::Every(Sort::Ref, Boxed::new(alloc, body)?))
}

fn example(alloc: Global) -> Result<Sequent, Memory> {
    let mut sorts = List::new(alloc);
    sorts.push(Sort::Int)?;
    let mut hyps = List::new(alloc);
    hyps.push(next_of_zero(alloc, Term::Var(5))?)?;
    let goal = Fol::Every(Sort::Ref, Boxed::new(alloc, partners_within(alloc)?)?);
    Ok(Sequent { sorts, hyps, goal })
}

#[test]
fn a_copy_is_the_same(rt: HostRuntime) -> Result<(), Fail> {
    let sequent = example(rt.alloc())?;
    let copy = sequent.copy()?;
    assert!(rt; copy.sorts.len() == 1 && *copy.sorts.at(0) == Sort::Int);
    assert!(rt; copy.hyps.len() == 1 && same(copy.hyps.at(0), sequent.hyps.at(0)));
    assert!(rt; same(&copy.goal, &sequent.goal) && !same(&copy.goal, copy.hyps.at(0)));
    Ok(())
}

#[test]
fn a_variable_is_substituted(rt: HostRuntime) -> Result<(), Fail> {
    let alloc = rt.alloc();
    let result = substitute(&next_of_zero(alloc, Term::Var(5))?, 5, &Term::Var(0))?;
    assert!(rt; same(&result, &next_of_zero(alloc, Term::Var(0))?));
    Ok(())
}

#[test]
fn a_body_is_instantiated(rt: HostRuntime) -> Result<(), Fail> {
    let body = partners_within(rt.alloc())?;
    assert!(rt; free_bound(&body) == 1);
    if free_bound(&body) <= 1 {
        let result = instantiate(&body, &Term::Var(0))?;
        let sorts = [Sort::Ref, Sort::Int, Sort::Int, Sort::Rgn, Sort::Bij];
        assert!(rt; free_bound(&result) == 0 && well_sorted(&result, sorts.as_slice()));
        assert!(rt; !well_sorted(&body, sorts.as_slice()));
    }
    Ok(())
}
