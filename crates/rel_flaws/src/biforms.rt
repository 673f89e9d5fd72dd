//! What bicommands and steps of a weaving have wrong, their commands and blocks apart.

ghost use Rattle.std.specs.Prelude.{◌≡◌, true, IfOk, option_map};
ghost use Rattle.rel_lang.specs.Syntax.{Word};
ghost use Rattle.rel_lang.specs.View.{formula_of, rel_of, loop_of, biform_of, act_of};
ghost use Rattle.rel_flaws.specs.Alignments as alignments;
ghost use Rattle.rel_flaws.specs.AlignmentView.{sides_of};
ghost use Rattle.rel_flaws.specs.Flaws.{either as either_of};
ghost use Rattle.rel_flaws.specs.Inference.{flaws_of_formula as flaws_of_formula_in};
ghost use Rattle.rel_flaws.specs.View.{scope_of, variable_of, tables_seen, flaws_of};

use crate::code::unknown_where;
use crate::formula::flaws_of_formula;
use crate::kind::Flaws;
use crate::relation::flaws_of_rel;
use crate::scope::{Scope, Seen, Tables};
use crate::sides::Sides;
use crate::uses::flaws_of_test;
use rel_lang::biprogram::{Act, BiForm, BiLoop};
use rel_lang::formula::Formula;
use rel_lang::relation::RelFormula;
use rel_list::Memory;

/// Whether the two are references of one class.
fn are_linked(v: Option<Seen<'_>>, w: Option<Seen<'_>>) -> bool
    ensures { (x y : Word) → result ≡ alignments.are_linked (option_map (variable_of x) v.entry) (option_map (variable_of y) w.entry) }
{
    match v {
        Some(v) => match w {
            Some(w) => v.ty.is_class() && v.ty.is_same(w.ty),
            None => false,
        },
        None => false,
    }
}

/// Two variables that are linked.
fn flaws_of_link(left: &Scope<'_, '_>, right: &Scope<'_, '_>, x: &str, y: &str) -> Flaws
    ensures { flaws_of result ≡ alignments.flaws_of_link (scope_of left.now) (scope_of right.now) x.now y.now }
{
    let v = left.find(x);
    let w = right.find(y);
    Flaws {
        unknown: v.is_none() || w.is_none(),
        wrong_type: !are_linked(v, w),
        ..Flaws::none()
    }
}

/// A relational invariant, a guard or a note.
fn flaws_of_relation<'a>(
    tables: &Tables<'a>,
    s: &mut Sides<'a, '_>,
    a: &'a RelFormula,
) -> Result<Flaws, Memory>
    ensures flaws { IfOk result (λ f. flaws_of f ≡ alignments.flaws_of_relation (tables_seen tables.now) (sides_of s.old) (rel_of a.now)) }
    ensures sides { IfOk result (λ f. s.new ≡ s.old) }
{
    flaws_of_rel(tables, &mut s.left.scope, &mut s.right.scope, true, a)
}

/// The relation and the guards of a loop.
fn flaws_of_relations<'a>(
    tables: &Tables<'a>,
    s: &mut Sides<'a, '_>,
    relation: &'a RelFormula,
    left: &'a RelFormula,
    right: &'a RelFormula,
) -> Result<Flaws, Memory>
    ensures flaws { IfOk result (λ f. flaws_of f
        ≡ either_of (alignments.flaws_of_relation (tables_seen tables.now) (sides_of s.old) (rel_of relation.now))
        (either_of (alignments.flaws_of_relation (tables_seen tables.now) (sides_of s.old) (rel_of left.now))
        (alignments.flaws_of_relation (tables_seen tables.now) (sides_of s.old) (rel_of right.now)))) }
    ensures sides { IfOk result (λ f. s.new ≡ s.old) }
{
    let relation = flaws_of_relation(tables, s, relation)?;
    let left = flaws_of_relation(tables, s, left)?;
    let right = flaws_of_relation(tables, s, right)?;
    Ok(relation.either(left.either(right)))
}

fn flaws_of_tests<'a>(
    tables: &Tables<'a>,
    s: &mut Sides<'a, '_>,
    p: &'a Formula,
    q: &'a Formula,
) -> Result<Flaws, Memory>
    ensures flaws { IfOk result (λ f. flaws_of f ≡ alignments.flaws_of_tests (tables_seen tables.now) (sides_of s.old) (formula_of p.now) (formula_of q.now)) }
    ensures sides { IfOk result (λ f. s.new ≡ s.old) }
{
    let left = flaws_of_test(tables, &mut s.left.scope, p)?;
    let right = flaws_of_test(tables, &mut s.right.scope, q)?;
    Ok(left.either(right))
}

/// The invariants of the two sides of a loop.
fn flaws_of_invariants<'a>(
    tables: &Tables<'a>,
    s: &mut Sides<'a, '_>,
    p: &'a Formula,
    q: &'a Formula,
) -> Result<Flaws, Memory>
    ensures flaws { IfOk result (λ f. flaws_of f
        ≡ either_of (flaws_of_formula_in (tables_seen tables.now) true (sides_of s.old).left.scope (formula_of p.now))
        (flaws_of_formula_in (tables_seen tables.now) true (sides_of s.old).right.scope (formula_of q.now))) }
    ensures sides { IfOk result (λ f. s.new ≡ s.old) }
{
    let left = flaws_of_formula(tables, &mut s.left.scope, true, p)?;
    let right = flaws_of_formula(tables, &mut s.right.scope, true, q)?;
    Ok(left.either(right))
}

fn flaws_of_loop<'a>(
    tables: &Tables<'a>,
    s: &mut Sides<'a, '_>,
    l: &'a BiLoop,
) -> Result<Flaws, Memory>
    ensures flaws { IfOk result (λ f. flaws_of f ≡ alignments.flaws_of_loop (tables_seen tables.now) (sides_of s.old) (loop_of l.now)) }
    ensures sides { IfOk result (λ f. s.new ≡ s.old) }
{
    let tests = flaws_of_tests(tables, s, &l.tests.0, &l.tests.1)?;
    let invariants = flaws_of_invariants(tables, s, &l.invs.0, &l.invs.1)?;
    let relations = flaws_of_relations(tables, s, &l.rel, &l.guards.0, &l.guards.1)?;
    Ok(tests.either(invariants.either(relations)))
}

/// What a bicommand has wrong, its commands and blocks apart.
pub fn flaws_of_biform<'a>(
    tables: &Tables<'a>,
    s: &mut Sides<'a, '_>,
    form: &'a BiForm,
) -> Result<Flaws, Memory>
    ensures flaws { IfOk result (λ f. flaws_of f ≡ alignments.flaws_of_biform (tables_seen tables.now) (sides_of s.old) (biform_of form.now)) }
    ensures sides { IfOk result (λ f. s.new ≡ s.old) }
{
    match form {
        BiForm::Split(_, _) | BiForm::Sync(_) => Ok(Flaws::none()),
        BiForm::SyncCall(call, judgement) => Ok(unknown_where(!s.is_call_by(
            judgement.as_str(),
            call,
        ))),
        BiForm::If(p, q, _, _) => flaws_of_tests(tables, s, p, q),
        BiForm::While(head, _) => flaws_of_loop(tables, s, head),
        BiForm::Link(x, y) => Ok(flaws_of_link(
            &s.left.scope,
            &s.right.scope,
            x.as_str(),
            y.as_str(),
        )),
        BiForm::Note(a) => flaws_of_relation(tables, s, a),
    }
}

/// What a step of a weaving has wrong.
pub fn flaws_of_act<'a>(
    tables: &Tables<'a>,
    s: &mut Sides<'a, '_>,
    act: &'a Act,
) -> Result<Flaws, Memory>
    ensures flaws { IfOk result (λ f. flaws_of f ≡ alignments.flaws_of_act (tables_seen tables.now) (sides_of s.old) (act_of act.now)) }
    ensures sides { IfOk result (λ f. s.new ≡ s.old) }
{
    match act {
        Act::Call(judgement) => Ok(unknown_where(s.judgement(judgement.as_str()).is_none())),
        Act::While(relation, left, right) => flaws_of_relations(tables, s, relation, left, right),
        Act::Link(x, y) => Ok(flaws_of_link(&s.left.scope, &s.right.scope, x.as_str(), y.as_str())),
        Act::Note(a) => flaws_of_relation(tables, s, a),
        Act::Seq(_, _) | Act::Sync | Act::If | Act::Drop => Ok(Flaws::none()),
    }
}
