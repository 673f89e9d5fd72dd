//! Walks along straight bodies, which assign.

ghost use Rattle.std.specs.Prelude.{◌≡◌, ◌+◌, ◌<◌, ◌^◌, ◌++◌, length, map, set, IfOk, OnOk};
ghost use Rattle.rel_lang.specs.View.{decl_of, expression_of, form_of, block_of};
ghost use Rattle.rel_logic.specs.Syntax.{var};
ghost use Rattle.rel_logic.specs.View.{trm_of, fml_of};
ghost use Rattle.rel_encode.specs.Terms.{term_of};
ghost use Rattle.rel_encode.specs.View.{store_of, numbers_in};
ghost use Rattle.rel_linking.specs.Obligation.{no_numbers, assigned_store, walk};
ghost use Rattle.rel_linking.specs.Scope.{one_step};

use rel_encode::names::{Names, Variables};
use rel_encode::store::Store;
use rel_encode::terms::term_outside;
use rel_lang::command::{Command, Form};
use rel_lang::expr::Expr;
use rel_list::{List, Memory, Name};
use rel_logic::fol::Fol;
use rel_logic::term::Term;
use std::alloc::Global;

/// The term of an expression in a body.
fn value(
    alloc: Global,
    names: &Names<'_>,
    variables: &Variables<'_>,
    store: &Store,
    e: &Expr,
) -> Result<Term, Memory>
    ensures { let now = store_of store.now in
        IfOk result (λ t. trm_of t ≡ term_of (numbers_in names.now) (map decl_of variables.now.items.now) (expression_of e.now) now now) }
{
    term_outside(alloc, names, variables, e, store, store)
}

/// Puts the element in place of the one at `i`.
fn put<T: Drop>(list: &mut List<T>, i: usize, element: T)
    requires { i < length list.old }
    ensures { list.new ≡ set list.old i element }
{
    list.items[i] = element;
}

/// Lets the variable `n` stand for the variable of this name.
fn assign(variables: &Variables<'_>, store: &mut Store, x: &Name, n: u32)
    ensures { store_of store.new ≡ assigned_store x.now (var n) (map decl_of variables.now.items.now) (store_of store.old) }
{
    match variables.place(x.as_str()) {
        Some(k) => {
            if (k as usize) < store.vars.len() {
                put(&mut store.vars, k as usize, Term::Var(n));
            }
        }
        None => {}
    }
}

/// Adds the equation of a command, whose new value is the variable `n`.
fn step(
    alloc: Global,
    names: &Names<'_>,
    variables: &Variables<'_>,
    store: &mut Store,
    n: u32,
    form: &Form,
    hyps: &mut List<Fol>,
) -> Result<(), Memory>
    requires numbers { numbers_in names.now ≡ no_numbers }
    ensures store { let w = one_step (map decl_of variables.now.items.now) (store_of store.old) n (form_of form.now) in
        OnOk result (store_of store.new ≡ w.store) }
    ensures hyps { let w = one_step (map decl_of variables.now.items.now) (store_of store.old) n (form_of form.now) in
        OnOk result (map fml_of hyps.new ≡ map fml_of hyps.old ++ w.hyps) }
{
    match form {
        Form::Assign(x, e) => {
            let value = value(alloc, names, variables, store, e)?;
            hyps.push(Fol::Eq(Term::Var(n), value))?;
            assign(variables, store, x, n);
            Ok(())
        }
        _ => Ok(()),
    }
}

/// Adds the equations of a block, whose new values are the variables from `first` on.
pub fn walk_block(
    alloc: Global,
    names: &Names<'_>,
    variables: &Variables<'_>,
    store: &mut Store,
    first: u32,
    commands: &List<Command>,
    hyps: &mut List<Fol>,
) -> Result<(), Memory>
    requires numbers { numbers_in names.now ≡ no_numbers }
    requires few { first + length commands.now < 2 ^ 32 }
    ensures store { let w = walk (map decl_of variables.now.items.now) (store_of store.old) first (block_of commands.now) in
        OnOk result (store_of store.new ≡ w.store) }
    ensures hyps { let w = walk (map decl_of variables.now.items.now) (store_of store.old) first (block_of commands.now) in
        OnOk result (map fml_of hyps.new ≡ map fml_of hyps.old ++ w.hyps) }
{
    for i in 0..commands.len() {
        step(
            alloc,
            names,
            variables,
            store,
            first + i as u32,
            &commands.at(i).form,
            hyps,
        )?;
    }
    Ok(())
}
