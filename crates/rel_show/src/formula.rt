//! Formulas about one state.

ghost use Rattle.std.specs.Prelude.{◌≡◌, [], ◌∷◌, ◌++◌, OnOk, codes};
ghost use Rattle.rel_lang.specs.Text.{word, named, show_expression, show_formula, sides};
ghost use Rattle.rel_lang.specs.View.{expression_of, formula_of};
ghost use Rattle.rel_show.specs.Written.{written};

use crate::expr::{show_expression, show_operation};
use crate::text::{show_name, show_title, show_word};
use rel_lang::expr::Expr;
use rel_lang::formula::Formula;
use rel_list::{Memory, Name};

#[cycle(show_formula)]
#[tactic(auto, using(crate::proofs::Formulas::formulas))]
pub(crate) fn show_formula(out: &mut Vec<u8>, p: &Formula) -> Result<(), Memory>
    ensures { OnOk result (out.new.items ≡ out.old.items ++ written (show_formula 1 (formula_of p.now))) }
{
    match p {
        Formula::True => show_word(out, "true"),
        Formula::False => show_word(out, "false"),
        Formula::Eq(e, f) => show_operation(out, e, "=", f),
        Formula::Lt(e, f) => show_operation(out, e, "<", f),
        Formula::Le(e, f) => show_operation(out, e, "<=", f),
        Formula::Member(e, f) => show_operation(out, e, "in", f),
        Formula::Subset(e, f) => show_operation(out, e, "sub", f),
        Formula::Not(p) => show_behind(out, "not", p.get()),
        Formula::And(p, q) => {
            show_behind(out, "[", p.get())?;
            show_second(out, "and", q.get())
        }
        Formula::Or(p, q) => {
            show_behind(out, "[", p.get())?;
            show_second(out, "or", q.get())
        }
        Formula::Implies(p, q) => {
            show_behind(out, "[", p.get())?;
            show_second(out, "implies", q.get())
        }
        Formula::Every(x, class, region, body) => {
            show_word(out, "all")?;
            show_bound(out, x, class, region)?;
            show_scope(out, body.get())
        }
        Formula::Exists(x, class, region, body) => {
            show_word(out, "some")?;
            show_bound(out, x, class, region)?;
            show_scope(out, body.get())
        }
    }
}

/// A word and the formula behind it.
#[cycle(show_formula)]
#[tactic(auto, using(crate::proofs::Writing::writing))]
pub(crate) fn show_behind(out: &mut Vec<u8>, text: &str, p: &Formula) -> Result<(), Memory>
    ensures { OnOk result (out.new.items ≡ out.old.items ++ written (word text.now ∷ show_formula 1 (formula_of p.now))) }
{
    show_word(out, text)?;
    show_formula(out, p)
}

/// A connective and its second operand.
#[cycle(show_formula)]
#[tactic(auto, using(crate::proofs::Writing::writing))]
fn show_second(out: &mut Vec<u8>, sign: &str, q: &Formula) -> Result<(), Memory>
    ensures { OnOk result (out.new.items ≡ out.old.items
        ++ written (word sign.now ∷ show_formula 1 (formula_of q.now) ++ word (codes "]") ∷ [])) }
{
    show_behind(out, sign, q)?;
    show_word(out, "]")
}

/// What is said of each member that a quantifier ranges over.
#[cycle(show_formula)]
#[tactic(auto, using(crate::proofs::Writing::writing))]
fn show_scope(out: &mut Vec<u8>, p: &Formula) -> Result<(), Memory>
    ensures { OnOk result (out.new.items ≡ out.old.items
        ++ written (word (codes "{") ∷ show_formula 1 (formula_of p.now) ++ word (codes "}") ∷ [])) }
{
    show_behind(out, "{", p)?;
    show_word(out, "}")
}

/// The variable of a quantifier, its class and the region that it ranges over.
#[tactic(auto, using(crate::proofs::Writing::writing))]
pub(crate) fn show_bound(
    out: &mut Vec<u8>,
    x: &Name,
    class: &Name,
    region: &Expr,
) -> Result<(), Memory>
    ensures { OnOk result (out.new.items ≡ out.old.items
        ++ written (named x.now ∷ word (codes ":") ∷ named class.now ∷ word (codes "in") ∷ show_expression 1 (expression_of region.now))) }
{
    show_name(out, x)?;
    show_title(out, ":", class)?;
    show_word(out, "in")?;
    show_expression(out, region)
}

/// A formula about the left side and one about the right.
#[tactic(auto, using(crate::proofs::Writing::writing))]
pub(crate) fn show_formulas(
    out: &mut Vec<u8>,
    left: &Formula,
    right: &Formula,
) -> Result<(), Memory>
    ensures { OnOk result (out.new.items ≡ out.old.items
        ++ written (sides (show_formula 1 (formula_of left.now)) (show_formula 1 (formula_of right.now)))) }
{
    show_formula(out, left)?;
    show_behind(out, "|", right)
}
