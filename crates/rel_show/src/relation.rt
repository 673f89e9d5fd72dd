//! Formulas about two states.

ghost use Rattle.std.specs.Prelude.{◌≡◌, [], ◌∷◌, ◌++◌, OnOk, codes};
ghost use Rattle.rel_lang.specs.Text.{word, named, show_expression, show_side, show_rel, sides};
ghost use Rattle.rel_lang.specs.View.{side_of, expression_of, rel_of};
ghost use Rattle.rel_show.specs.Written.{written};

use crate::expr::{show_expression, show_operation};
use crate::formula::{show_behind, show_bound};
use crate::text::{show_title, show_word};
use rel_lang::expr::{Expr, Side};
use rel_lang::relation::RelFormula;
use rel_list::{Memory, Name};

fn show_side(out: &mut Vec<u8>, side: Side) -> Result<(), Memory>
    ensures { OnOk result (out.new.items ≡ out.old.items ++ written (show_side (side_of side) ∷ [])) }
{
    match side {
        Side::Left => show_word(out, "left"),
        Side::Right => show_word(out, "right"),
    }
}

#[cycle(show_rel)]
#[tactic(auto, using(crate::proofs::Relations::relations))]
pub(crate) fn show_rel(out: &mut Vec<u8>, r: &RelFormula) -> Result<(), Memory>
    ensures { OnOk result (out.new.items ≡ out.old.items ++ written (show_rel 1 (rel_of r.now))) }
{
    match r {
        RelFormula::True => show_word(out, "true"),
        RelFormula::False => show_word(out, "false"),
        RelFormula::OnLeft(p) => show_behind(out, "left", p),
        RelFormula::OnRight(p) => show_behind(out, "right", p),
        RelFormula::Both(p) => show_behind(out, "both", p),
        RelFormula::Agree(e, f) => show_operation(out, e, "=:=", f),
        RelFormula::AgreeImage(e, f) => show_image(out, e, f),
        RelFormula::Not(r) => show_rel_behind(out, "not", r.get()),
        RelFormula::And(r, s) => {
            show_rel_behind(out, "[", r.get())?;
            show_second(out, "and", s.get())
        }
        RelFormula::Or(r, s) => {
            show_rel_behind(out, "[", r.get())?;
            show_second(out, "or", s.get())
        }
        RelFormula::Implies(r, s) => {
            show_rel_behind(out, "[", r.get())?;
            show_second(out, "implies", s.get())
        }
        RelFormula::Every(side, x, class, region, body) => {
            show_quantifier(out, "all", *side)?;
            show_bound(out, x, class, region)?;
            show_scope(out, body.get())
        }
        RelFormula::Exists(side, x, class, region, body) => {
            show_quantifier(out, "some", *side)?;
            show_bound(out, x, class, region)?;
            show_scope(out, body.get())
        }
        RelFormula::Eventually(r) => show_rel_behind(out, "eventually", r.get()),
    }
}

/// A word and the relation formula behind it.
#[cycle(show_rel)]
#[tactic(auto, using(crate::proofs::Writing::writing))]
pub(crate) fn show_rel_behind(out: &mut Vec<u8>, text: &str, r: &RelFormula) -> Result<(), Memory>
    ensures { OnOk result (out.new.items ≡ out.old.items ++ written (word text.now ∷ show_rel 1 (rel_of r.now))) }
{
    show_word(out, text)?;
    show_rel(out, r)
}

/// A connective and its second operand.
#[cycle(show_rel)]
#[tactic(auto, using(crate::proofs::Writing::writing))]
fn show_second(out: &mut Vec<u8>, sign: &str, s: &RelFormula) -> Result<(), Memory>
    ensures { OnOk result (out.new.items ≡ out.old.items
        ++ written (word sign.now ∷ show_rel 1 (rel_of s.now) ++ word (codes "]") ∷ [])) }
{
    show_rel_behind(out, sign, s)?;
    show_word(out, "]")
}

/// What is said of each member that a quantifier ranges over.
#[cycle(show_rel)]
#[tactic(auto, using(crate::proofs::Writing::writing))]
fn show_scope(out: &mut Vec<u8>, r: &RelFormula) -> Result<(), Memory>
    ensures { OnOk result (out.new.items ≡ out.old.items
        ++ written (word (codes "{") ∷ show_rel 1 (rel_of r.now) ++ word (codes "}") ∷ [])) }
{
    show_rel_behind(out, "{", r)?;
    show_word(out, "}")
}

/// The word of a quantifier and the side of its variable.
#[tactic(auto, using(crate::proofs::Writing::writing))]
fn show_quantifier(out: &mut Vec<u8>, text: &str, side: Side) -> Result<(), Memory>
    ensures { OnOk result (out.new.items ≡ out.old.items ++ written (word text.now ∷ show_side (side_of side) ∷ [])) }
{
    show_word(out, text)?;
    show_side(out, side)
}

/// That a field agrees in a region.
#[tactic(auto, using(crate::proofs::Writing::writing))]
fn show_image(out: &mut Vec<u8>, e: &Expr, f: &Name) -> Result<(), Memory>
    ensures { OnOk result (out.new.items ≡ out.old.items
        ++ written (word (codes "agree") ∷ show_expression 1 (expression_of e.now) ++ word (codes "@") ∷ named f.now ∷ [])) }
{
    show_word(out, "agree")?;
    show_expression(out, e)?;
    show_title(out, "@", f)
}

/// Two relation formulas with a bar between them.
#[tactic(auto, using(crate::proofs::Writing::writing))]
pub(crate) fn show_rels(out: &mut Vec<u8>, r: &RelFormula, s: &RelFormula) -> Result<(), Memory>
    ensures { OnOk result (out.new.items ≡ out.old.items
        ++ written (sides (show_rel 1 (rel_of r.now)) (show_rel 1 (rel_of s.now)))) }
{
    show_rel(out, r)?;
    show_rel_behind(out, "|", s)
}
