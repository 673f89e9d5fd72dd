//! What formulas of a bundle become in the logic, as text.

use rel_decls::parse_bundle;
use rel_encode::store::{PairStore, Scope, Store};
use rel_encode::{basics, fol_of, frame_formula, grow, inside, linkable, rel_of, term_of};
use rel_lang::bundle::{Effect, Item};
use rel_lang::command::{Command, Form};
use rel_lang::expr::Expr;
use rel_lang::formula::Formula;
use rel_lang::relation::RelFormula;
use rel_lang::typed::Typed;
use rel_list::{Boxed, List, Memory};
use rel_logic::fol::Fol;
use rel_logic::term::Term;
use rel_proofio::{fol_text, term_text};
use rel_types::resolve;
use std::alloc::Global;
use std::test::Fail;

const BUNDLE: &str = "class K { v : int ; next : K ; kids : rgn ; }
unit U { global x : K ; global r : rgn ; proc p ( ) : int
  requires all y : K in r { ( { y } sub ( y . kids ) ) } ensures ( old ( x ) = ( x . next ) ) writes { x , r @ v } { } }
judge J : U . p ~ U . p requires [ agree r @ v and eventually ( x =:= x ) ] ensures true bi { split { } { } ; }";

const STRAIGHT: &str =
    "unit U { global x : int ; proc p ( ) : int requires true ensures true writes { x } { x := ( x + 1 ) ; } }
unit V { global x : int ; proc q ( ) : int requires true ensures true writes { x } { x := ( x + 1 ) ; } }
judge J : U . p ~ V . q requires ( x =:= x ) ensures ( x =:= x ) bi { split { x := ( x + 1 ) ; } { x := ( x + 1 ) ; } ; }";

/// The bundle of the text, typed. Boxed, since a function that drops one of its own is too large for the check.
fn typed(alloc: Global, text: &str) -> Result<Boxed<Typed>, Memory> {
    if text.len() > 4096 {
        return Err(Memory);
    }
    let Ok(bundle) = parse_bundle(alloc, text.as_bytes()) else {
        return Err(Memory);
    };
    let Ok(typed) = resolve(alloc, bundle) else {
        return Err(Memory);
    };
    Boxed::new(alloc, typed)
}

fn variables(alloc: Global, first: u32, count: u32) -> Result<List<Term>, Memory> {
    let mut terms = List::new(alloc);
    for i in 0..count {
        terms.push(Term::Var(first.saturating_add(i)))?;
    }
    Ok(terms)
}

fn bare_store(alloc: Global, first: u32) -> Result<Store, Memory> {
    Ok(Store {
        vars: variables(alloc, first, 2)?,
        maps: variables(alloc, first.saturating_add(2), 3)?,
        alloc: Term::Var(first.saturating_add(5)),
    })
}

/// The store of six variables in a row. Boxed, as are the others.
fn store(alloc: Global, first: u32) -> Result<Boxed<Store>, Memory> {
    Boxed::new(alloc, bare_store(alloc, first)?)
}

/// Two sides of six variables each, and a bijection.
fn bare_stores(alloc: Global) -> Result<PairStore, Memory> {
    Ok(PairStore {
        left: bare_store(alloc, 0)?,
        right: bare_store(alloc, 6)?,
        left_entry: bare_store(alloc, 0)?,
        right_entry: bare_store(alloc, 6)?,
        bij: Term::Var(12),
    })
}

fn stores(alloc: Global) -> Result<Boxed<PairStore>, Memory> {
    Boxed::new(alloc, bare_stores(alloc)?)
}

fn changed_maps(alloc: Global) -> Result<List<Term>, Memory> {
    let mut maps = List::new(alloc);
    maps.push(Term::Var(8))?;
    maps.push(Term::Var(3))?;
    maps.push(Term::Var(4))?;
    Ok(maps)
}

/// The store behind one from 0 on, of which only the first map has changed.
fn changed(alloc: Global) -> Result<Boxed<Store>, Memory> {
    let maps = changed_maps(alloc)?;
    let store = Store {
        vars: variables(alloc, 6, 2)?,
        maps,
        alloc: Term::Var(9),
    };
    Boxed::new(alloc, store)
}

/// A side with one variable.
fn one_variable(alloc: Global, variable: u32, allocated: u32) -> Result<Store, Memory> {
    Ok(Store {
        vars: variables(alloc, variable, 1)?,
        maps: List::new(alloc),
        alloc: Term::Var(allocated),
    })
}

fn bare_pair(alloc: Global, left: u32, right: u32) -> Result<PairStore, Memory> {
    Ok(PairStore {
        left: one_variable(alloc, left, 1)?,
        right: one_variable(alloc, right, 3)?,
        left_entry: one_variable(alloc, 0, 1)?,
        right_entry: one_variable(alloc, 2, 3)?,
        bij: Term::Var(4),
    })
}

/// Two such sides, and a bijection.
fn two_variables(alloc: Global, left: u32, right: u32) -> Result<Boxed<PairStore>, Memory> {
    Boxed::new(alloc, bare_pair(alloc, left, right)?)
}

fn reads(alloc: Global, f: &Fol, expected: &str) -> Result<bool, Memory> {
    let text = fol_text(alloc, f)?;
    Ok(text.as_slice() == expected.as_bytes())
}

fn formula(
    alloc: Global,
    typed: &Typed,
    scope: &Scope,
    p: &Formula,
    entry: &Store,
    present: &Store,
) -> Result<Boxed<Fol>, Memory> {
    Boxed::new(alloc, fol_of(alloc, typed, scope, p, entry, present)?)
}

fn relation(
    alloc: Global,
    typed: &Typed,
    left: &Scope,
    right: &Scope,
    r: &RelFormula,
    stores: &PairStore,
) -> Result<Boxed<Fol>, Memory> {
    Boxed::new(alloc, rel_of(alloc, typed, left, right, r, stores)?)
}

fn expression_text(
    alloc: Global,
    typed: &Typed,
    scope: &Scope,
    e: &Expr,
    entry: &Store,
    present: &Store,
) -> Result<Vec<u8>, Memory> {
    let t = term_of(alloc, typed, scope, e, entry, present)?;
    term_text(alloc, &t)
}

fn precondition_reads(alloc: Global, typed: &Typed, expected: &str) -> Result<bool, Memory> {
    let [_, Item::UnitItem(unit), _] = typed.bundle.items.as_slice() else {
        return Ok(false);
    };
    let [procedure] = unit.procs.as_slice() else {
        return Ok(false);
    };
    let entry = store(alloc, 0)?;
    let entry = entry.get();
    let needs = &procedure.spec.needs.formula;
    let f = formula(alloc, typed, &unit.globals, needs, entry, entry)?;
    reads(alloc, f.get(), expected)
}

fn postcondition_reads(alloc: Global, typed: &Typed, expected: &str) -> Result<bool, Memory> {
    let [_, Item::UnitItem(unit), _] = typed.bundle.items.as_slice() else {
        return Ok(false);
    };
    let [procedure] = unit.procs.as_slice() else {
        return Ok(false);
    };
    let entry = store(alloc, 0)?;
    let present = store(alloc, 6)?;
    let gives = &procedure.spec.gives.formula;
    let f = formula(
        alloc,
        typed,
        &unit.globals,
        gives,
        entry.get(),
        present.get(),
    )?;
    reads(alloc, f.get(), expected)
}

fn relation_reads(alloc: Global, typed: &Typed, expected: &str) -> Result<bool, Memory> {
    let [_, Item::UnitItem(unit), Item::Judge(judgement)] = typed.bundle.items.as_slice() else {
        return Ok(false);
    };
    let stores = stores(alloc)?;
    let scope: &Scope = &unit.globals;
    let needs = &judgement.needs.formula;
    let f = relation(alloc, typed, scope, scope, needs, stores.get())?;
    reads(alloc, f.get(), expected)
}

fn frame(
    alloc: Global,
    typed: &Typed,
    scope: &Scope,
    writes: &List<Effect>,
) -> Result<Boxed<Fol>, Memory> {
    let before = store(alloc, 0)?;
    let after = changed(alloc)?;
    Boxed::new(
        alloc,
        frame_formula(alloc, typed, scope, 2, writes, before.get(), after.get())?,
    )
}

fn frame_reads(alloc: Global, typed: &Typed, expected: &str) -> Result<bool, Memory> {
    let [_, Item::UnitItem(unit), _] = typed.bundle.items.as_slice() else {
        return Ok(false);
    };
    let [procedure] = unit.procs.as_slice() else {
        return Ok(false);
    };
    let f = frame(alloc, typed, &unit.globals, &procedure.spec.writes)?;
    reads(alloc, f.get(), expected)
}

fn facts(alloc: Global, typed: &Typed, scope: &Scope) -> Result<List<Fol>, Memory> {
    let present = store(alloc, 0)?;
    basics(alloc, typed, scope, present.get())
}

fn facts_read(alloc: Global, typed: &Typed, expected: [&str; 4]) -> Result<bool, Memory> {
    let [_, Item::UnitItem(unit), _] = typed.bundle.items.as_slice() else {
        return Ok(false);
    };
    let facts = facts(alloc, typed, &unit.globals)?;
    let mut same = facts.len() == 4;
    for (f, text) in facts.as_slice().iter().zip(expected.as_slice()) {
        same = same && reads(alloc, f, text)?;
    }
    Ok(same)
}

/// Whether the judgement's precondition at the start and its postcondition at the end read so.
fn judgement_reads(alloc: Global, typed: &Typed, needs: &str, gives: &str) -> Result<bool, Memory> {
    let [
        Item::UnitItem(left),
        Item::UnitItem(right),
        Item::Judge(judgement),
    ] = typed.bundle.items.as_slice()
    else {
        return Ok(false);
    };
    let (left, right): (&Scope, &Scope) = (&left.globals, &right.globals);
    let start = two_variables(alloc, 0, 2)?;
    let first = relation(
        alloc,
        typed,
        left,
        right,
        &judgement.needs.formula,
        start.get(),
    )?;
    let end = two_variables(alloc, 6, 7)?;
    let last = relation(
        alloc,
        typed,
        left,
        right,
        &judgement.gives.formula,
        end.get(),
    )?;
    Ok(reads(alloc, first.get(), needs)? && reads(alloc, last.get(), gives)?)
}

/// Whether what the left program assigns reads so.
fn assigned_reads(alloc: Global, typed: &Typed, expected: &str) -> Result<bool, Memory> {
    let [Item::UnitItem(left), _, _] = typed.bundle.items.as_slice() else {
        return Ok(false);
    };
    let [procedure] = left.procs.as_slice() else {
        return Ok(false);
    };
    let [
        Command {
            form: Form::Assign(_, sum),
            ..
        },
    ] = procedure.body.commands.as_slice()
    else {
        return Ok(false);
    };
    let stores = two_variables(alloc, 0, 2)?;
    let entry = &stores.get().left;
    let text = expression_text(alloc, typed, &left.globals, sum, entry, entry)?;
    Ok(text.as_slice() == expected.as_bytes())
}

#[test]
fn straight_programs_are_encoded(rt: HostRuntime) -> Result<(), Fail> {
    let alloc = rt.alloc();
    let typed = typed(alloc, STRAIGHT)?;
    let needs = r#"["eq",["v",0],["v",2]]"#;
    let gives = r#"["eq",["v",6],["v",7]]"#;
    assert!(rt; judgement_reads(alloc, typed.get(), needs, gives)?);
    let assigned = r#"["add",["v",0],["int","1"]]"#;
    assert!(rt; assigned_reads(alloc, typed.get(), assigned)?);
    Ok(())
}

#[test]
fn formulas_are_encoded(rt: HostRuntime) -> Result<(), Fail> {
    let alloc = rt.alloc();
    let typed = typed(alloc, BUNDLE)?;
    let needs =
        r#"["all","Ref",["imp",["and",["in",["b",0],["v",1]],["is",0,["b",0]]],["all","Ref",["imp",["in",["b",0],["one",["b",1]]],["in",["b",0],["sel",["v",4],["b",1]]]]]]]"#;
    assert!(rt; precondition_reads(alloc, typed.get(), needs)?);
    let gives = r#"["eq",["v",0],["sel",["v",9],["v",6]]]"#;
    assert!(rt; postcondition_reads(alloc, typed.get(), gives)?);
    let agreement =
        r#"["and",["and",["all","Ref",["imp",["and",["in",["b",0],["v",1]],["is",0,["b",0]]],["some","Ref",["and",["pair",["v",12],["b",1],["b",0]],["and",["in",["b",0],["v",7]],["eq",["sel",["v",2],["b",1]],["sel",["v",8],["b",0]]]]]]]],["all","Ref",["imp",["and",["in",["b",0],["v",7]],["is",0,["b",0]]],["some","Ref",["and",["pair",["v",12],["b",0],["b",1]],["and",["in",["b",0],["v",1]],["eq",["sel",["v",2],["b",0]],["sel",["v",8],["b",1]]]]]]]]],["some","Bij",["and",["ext",["v",12],["b",0]],["and",["all","Ref",["all","Ref",["imp",["pair",["b",2],["b",1],["b",0]],["and",["in",["b",1],["v",5]],["in",["b",0],["v",11]]]]]],["or",["and",["eq",["v",0],["null"]],["eq",["v",6],["null"]]],["pair",["b",0],["v",0],["v",6]]]]]]]"#;
    assert!(rt; relation_reads(alloc, typed.get(), agreement)?);
    Ok(())
}

#[test]
fn facts_and_frames_are_encoded(rt: HostRuntime) -> Result<(), Fail> {
    let alloc = rt.alloc();
    let typed = typed(alloc, BUNDLE)?;
    let facts = [
        r#"["or",["eq",["v",0],["null"]],["and",["is",0,["v",0]],["in",["v",0],["v",5]]]]"#,
        r#"["all","Ref",["imp",["in",["b",0],["v",1]],["in",["b",0],["v",5]]]]"#,
        r#"["all","Ref",["or",["eq",["sel",["v",3],["b",0]],["null"]],["and",["is",0,["sel",["v",3],["b",0]]],["in",["sel",["v",3],["b",0]],["v",5]]]]]"#,
        r#"["all","Ref",["all","Ref",["imp",["in",["b",0],["sel",["v",4],["b",1]]],["in",["b",0],["v",5]]]]]"#,
    ];
    assert!(rt; facts_read(alloc, typed.get(), facts)?);
    let frame =
        r#"["and",["eq",["v",7],["v",1]],["all","Ref",["imp",["in",["b",0],["v",5]],["imp",["not",["in",["b",0],["v",1]]],["eq",["sel",["v",8],["b",0]],["sel",["v",2],["b",0]]]]]]]"#;
    assert!(rt; frame_reads(alloc, typed.get(), frame)?);
    Ok(())
}

fn pairs_inside(alloc: Global) -> Result<Boxed<Fol>, Memory> {
    Boxed::new(
        alloc,
        inside(alloc, &Term::Var(4), &Term::Var(1), &Term::Var(3))?,
    )
}

fn link(alloc: Global) -> Result<Boxed<Fol>, Memory> {
    Boxed::new(
        alloc,
        linkable(alloc, 7, &Term::Var(4), &Term::Var(5), &Term::Null)?,
    )
}

fn growth(alloc: Global, before: u32, after: u32) -> Result<Boxed<Fol>, Memory> {
    Boxed::new(alloc, grow(alloc, &Term::Var(before), &Term::Var(after))?)
}

#[test]
fn pairs_links_and_growth_are_encoded(rt: HostRuntime) -> Result<(), Fail> {
    let alloc = rt.alloc();
    let expected =
        r#"["all","Ref",["all","Ref",["imp",["pair",["v",4],["b",1],["b",0]],["and",["in",["b",1],["v",1]],["in",["b",0],["v",3]]]]]]"#;
    assert!(rt; reads(alloc, pairs_inside(alloc)?.get(), expected)?);
    let expected =
        r#"["and",["is",7,["v",5]],["and",["is",7,["null"]],["and",["all","Ref",["not",["pair",["v",4],["v",5],["b",0]]]],["all","Ref",["not",["pair",["v",4],["b",0],["null"]]]]]]]"#;
    assert!(rt; reads(alloc, link(alloc)?.get(), expected)?);
    let expected = r#"["all","Ref",["imp",["in",["b",0],["v",1]],["in",["b",0],["v",3]]]]"#;
    assert!(rt; reads(alloc, growth(alloc, 1, 3)?.get(), expected)?);
    assert!(rt; reads(alloc, growth(alloc, 1, 1)?.get(), r#"["true"]"#)?);
    Ok(())
}

/// A store of no variables and no fields.
fn bare_place(alloc: Global, allocated: Term) -> Result<Boxed<Store>, Memory> {
    let store = Store {
        vars: List::new(alloc),
        maps: List::new(alloc),
        alloc: allocated,
    };
    Boxed::new(alloc, store)
}

fn in_no_scope_reads(
    alloc: Global,
    typed: &Typed,
    e: &Boxed<Expr>,
    expected: &str,
) -> Result<bool, Memory> {
    let scope = List::new(alloc);
    let entry = bare_place(alloc, Term::Var(5))?;
    let present = bare_place(alloc, Term::Empty)?;
    let text = expression_text(alloc, typed, &scope, e.get(), entry.get(), present.get())?;
    Ok(text.as_slice() == expected.as_bytes())
}

fn old_alloc(alloc: Global) -> Result<Boxed<Expr>, Memory> {
    Boxed::new(alloc, Expr::Old(Boxed::new(alloc, Expr::Alloc)?))
}

fn product(alloc: Global) -> Result<Boxed<Expr>, Memory> {
    Boxed::new(alloc, Expr::Mul(-3, Boxed::new(alloc, Expr::Num(5))?))
}

#[test]
fn an_expression_is_encoded(rt: HostRuntime) -> Result<(), Fail> {
    let alloc = rt.alloc();
    let typed = typed(alloc, BUNDLE)?;
    let old = old_alloc(alloc)?;
    assert!(rt; in_no_scope_reads(alloc, typed.get(), &old, r#"["v",5]"#)?);
    let product = product(alloc)?;
    assert!(rt; in_no_scope_reads(alloc, typed.get(), &product, r#"["mul","-3",["int","5"]]"#)?);
    Ok(())
}
