//! Which units can be judged so far.

ghost use Rattle.std.specs.Prelude.{◌≡◌, ◌↔◌, IsTrue, IfOk, map};
ghost use Rattle.std.specs.List.{AllByRecursion};
ghost use Rattle.rel_lang.specs.Syntax.{Int, True};
ghost use Rattle.rel_lang.specs.View.{type_of, expression_of, formula_of, effect_of, block_of};
ghost use Rattle.rel_linking.specs.Form.{IsArithmetic, AssignsListed};
ghost use Rattle.rel_linking.specs.Parts.{IsInt, IsPlainIn, IsPlain};

use crate::form::writes::{are_globals, is_listed, listed};
use rel_flaws::index::Index;
use rel_lang::bundle::{Decl, Effect, Proc, UnitItem};
use rel_lang::command::{Command, Form};
use rel_lang::expr::{Expr, Ty};
use rel_lang::formula::Formula;
use rel_list::{List, Memory};
use std::alloc::Global;

/// Whether the unit is one of straight programs of ints, where this is its one procedure.
pub fn is_plain(alloc: Global, u: &UnitItem, p: &Proc) -> Result<bool, Memory>
    ensures { IfOk result (λ plain. IsTrue plain ↔ IsPlain u.now p.now) }
{
    let assigns_listed = assigns_listed(alloc, &p.spec.writes, &p.body.commands)?;
    Ok(is_plain_where(u, p, assigns_listed))
}

/// Whether the unit is one of straight programs of ints, where its procedure assigns what is listed alone if
/// `assigns_listed`.
fn is_plain_where(u: &UnitItem, p: &Proc, assigns_listed: bool) -> bool
    requires { let writes = map effect_of p.now.spec.writes in
        IsTrue assigns_listed ↔ AssignsListed writes (block_of p.now.body.commands) }
    ensures { IsTrue result ↔ IsPlain u.now p.now }
{
    are_ints(&u.globals)
        && p.params.is_empty()
        && is_int(&p.result)
        && is_true(&p.spec.needs.formula)
        && is_true(&p.spec.gives.formula)
        && p.body.locals.is_empty()
        && are_globals(&p.spec.writes)
        && assigns_listed
}

/// Whether the commands are assignments alone, of arithmetic to `result` and to listed globals.
fn assigns_listed(
    alloc: Global,
    writes: &List<Effect>,
    commands: &List<Command>,
) -> Result<bool, Memory>
    ensures { let assigns = AssignsListed (map effect_of writes.now) (block_of commands.now) in
        IfOk result (λ b. IsTrue b ↔ assigns) }
{
    let names = listed(alloc, writes)?;
    Ok(are_plain(commands, &names))
}

fn is_int(ty: &Ty) -> bool
    ensures { IsTrue result ↔ (type_of ty.now ≡ Int) }
{
    matches!(ty, Ty::Int)
}

fn is_true(formula: &Formula) -> bool
    ensures { IsTrue result ↔ (formula_of formula.now ≡ True) }
{
    matches!(formula, Formula::True)
}

#[tactic(auto, using(crate::proofs::FormsLists::each))]
fn are_ints(declared: &List<Decl>) -> bool
    ensures { IsTrue result ↔ AllByRecursion IsInt declared.now }
{
    for i in 0..declared.len() {
        if !is_int(&declared.at(i).ty) {
            return false;
        }
    }
    true
}

#[tactic(auto, using(crate::proofs::FormsLists::each))]
fn are_plain(commands: &List<Command>, names: &Index<'_, ()>) -> bool
    ensures { IsTrue result ↔ AllByRecursion (IsPlainIn names.now) commands.now }
{
    for i in 0..commands.len() {
        if !is_plain_command(commands.at(i), names) {
            return false;
        }
    }
    true
}

fn is_plain_command(c: &Command, names: &Index<'_, ()>) -> bool
    ensures { IsTrue result ↔ IsPlainIn names.now c.now }
{
    match &c.form {
        Form::Assign(x, e) => (x.is_text("result") || is_listed(x, names)) && is_arithmetic(e),
        _ => false,
    }
}

/// Whether the expression has names, numbers, sums and differences alone.
pub fn is_arithmetic(e: &Expr) -> bool
    ensures { IsTrue result ↔ IsArithmetic (expression_of e.now) }
{
    match e {
        Expr::Var(_) => true,
        Expr::Num(_) => true,
        Expr::Add(a, b) => is_arithmetic(a.get()) && is_arithmetic(b.get()),
        Expr::Sub(a, b) => is_arithmetic(a.get()) && is_arithmetic(b.get()),
        _ => false,
    }
}
